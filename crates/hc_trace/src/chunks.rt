// The loop: it reads by chunks, and writes what was gathered.
ghost use Rattle.std.specs.Prelude.{◌≡◌, ◌≢◌, ◌<◌, ◌≤◌, ◌+◌, ◌++◌, ◌∷◌, ◌^◌, ◌==◌, [], length, take, vec_len, IfOk, OnOk, IfSome, OnSome, MatchOption, if◌then◌else◌};
ghost use Rattle.std.specs.Io.KnownBytes.{Appends, Consumes, IsAtEnd, append_known};
ghost use Rattle.hc_trace_text.specs.Lines.{Lacks};
ghost use Rattle.hc_trace_meaning.specs.Promise.{LogsAreRight};
ghost use Rattle.hc_trace_meaning.specs.Runs.{TracesAreRuns};
ghost use Rattle.hc_trace_meaning.specs.Turns.{begun, turn_of, output_from};
ghost use Rattle.hc_trace.specs.Trace.{Answers};
ghost use Rattle.hc_trace.specs.Places.{place_of, IsAt, IsBetween, Leads, Ends};

use crate::machine::{end, turn};
use crate::state::State;
use hc_trace_text::LONGEST;
use hc_types::Config;
use memchr::memchr;
use std::alloc::{AllocError, Global};
use std::io;
use std::io::{Read, Write};

/// The most bytes that are read.
const MOST: u64 = 4_294_967_296;

/// The most reads: one for each byte, and one that tells the end.
const READS: u64 = MOST + 1;

/// The most bytes of one read.
const CHUNK: usize = 65_536;

/// Answers of more bytes than these are written.
const FULL: usize = 65_536;

// One read into the buffer. At 0 bytes the reader is at its end.
fn read_chunk<R: Read>(reader: &mut R, buffer: &mut Vec<u8>) -> io::Result<usize>
    requires { 0 < vec_len buffer.old }
    ensures len { vec_len buffer.new ≡ vec_len buffer.old }
    ensures within { IfOk result (λ n. n ≤ vec_len buffer.new) }
    ensures bytes { IfOk result (λ n. Consumes (R.remaining reader.old) (R.remaining reader.new) (take n buffer.new.items)) }
    ensures end { IfOk result (λ n. n ≡ 0 → IsAtEnd (R.remaining reader.old)) }
{
    reader.read(buffer.as_mut_slice())
}

// Writes what was gathered. It is gone too where that fails, so that nothing is written twice.
fn write_out<W: Write>(writer: &mut W, out: &mut Vec<u8>) -> io::Result<()>
    ensures wrote { OnOk result (Appends (W.contents writer.old) (W.contents writer.new) out.old.items) }
    ensures empty { out.new.items ≡ [] }
{
    let written = writer.write_all(out);
    out.clear();
    written?;
    writer.flush()
}

// Answers a line. Returns whether the trace goes on. An answer that is not whole is not kept.
fn take_line(
    alloc: Global,
    state: &mut State,
    out: &mut Vec<u8>,
    line: &[u8],
    taken: u64,
) -> Result<bool, AllocError>
    requires short { taken < 2 ^ 63 }
    requires between { IsBetween state.old }
    ensures state { OnOk result (IsAt state.new (turn_of taken (place_of state.old) line.now).state) }
    ensures text { OnOk result (out.new.items ≡ out.old.items ++ (turn_of taken (place_of state.old) line.now).text) }
    ensures goes { IfOk result (λ goes. goes ≡ (turn_of taken (place_of state.old) line.now).goes) }
{
    let whole = out.len();
    match turn(alloc, state, out, line, taken) {
        Ok(goes) => Ok(goes),
        Err(error) => {
            out.truncate(whole);
            Err(error)
        }
    }
}

// The same, and writes the answers where they have become many.
fn put_line<W: Write>(
    alloc: Global,
    state: &mut State,
    writer: &mut W,
    out: &mut Vec<u8>,
    line: &[u8],
    taken: u64,
) -> io::Result<bool>
    requires short { taken < 2 ^ 63 }
    requires between { IsBetween state.old }
    ensures state { OnOk result (IsAt state.new (turn_of taken (place_of state.old) line.now).state) }
    ensures goes { IfOk result (λ goes. goes ≡ (turn_of taken (place_of state.old) line.now).goes) }
    ensures bytes { OnOk result (Appends (append_known (W.contents writer.old) out.old.items) (append_known (W.contents writer.new) out.new.items) (turn_of taken (place_of state.old) line.now).text) }
{
    let goes = take_line(alloc, state, out, line, taken)?;
    if out.len() > FULL {
        write_out(writer, out)?;
    }
    Ok(goes)
}

// Answers the line that ends here, of which some may have been kept.
fn end_line<W: Write>(
    alloc: Global,
    state: &mut State,
    writer: &mut W,
    out: &mut Vec<u8>,
    spill: &mut Vec<u8>,
    part: &[u8],
    taken: u64,
) -> io::Result<bool>
    requires short { taken < 2 ^ 63 }
    requires between { IsBetween state.old }
    ensures state { OnOk result (IsAt state.new (turn_of taken (place_of state.old) (spill.old.items ++ part.now)).state) }
    ensures goes { IfOk result (λ goes. goes ≡ (turn_of taken (place_of state.old) (spill.old.items ++ part.now)).goes) }
    ensures bytes { OnOk result (Appends (append_known (W.contents writer.old) out.old.items) (append_known (W.contents writer.new) out.new.items) (turn_of taken (place_of state.old) (spill.old.items ++ part.now)).text) }
    ensures empty { OnOk result (spill.new.items ≡ []) }
{
    if spill.is_empty() {
        return put_line(alloc, state, writer, out, part, taken);
    }
    spill.extend_from_slice(part)?;
    let goes = put_line(alloc, state, writer, out, spill, taken)?;
    spill.clear();
    Ok(goes)
}

// The bytes before the first line feed, and those after it.
fn split_line(bytes: &[u8]) -> Option<(&[u8], &[u8])>
    ensures { MatchOption result (Lacks 10 bytes.now) (λ p. Lacks 10 p.0.now × (bytes.now ≡ p.0.now ++ 10 ∷ p.1.now)) }
{
    let at = memchr(b'\n', bytes)?;
    Some((&bytes[..at], &bytes[at + 1..]))
}

// Answers each line that ends in the chunk, and keeps the rest. Returns how many lines were taken, or None where the
// trace has stopped.
fn take_chunk<W: Write>(
    alloc: Global,
    state: &mut State,
    writer: &mut W,
    out: &mut Vec<u8>,
    spill: &mut Vec<u8>,
    chunk: &[u8],
    taken: u64,
) -> io::Result<Option<u64>>
    requires whole { Lacks 10 spill.old.items }
    requires room { taken + length chunk.now < 2 ^ 63 }
    requires between { IsBetween state.old }
    ensures between { IfOk result (λ next. OnSome next (IsBetween state.new)) }
    ensures whole { IfOk result (λ next. OnSome next (Lacks 10 spill.new.items)) }
    ensures room { IfOk result (λ next. IfSome next (λ n. n ≤ taken + length chunk.now)) }
    ensures leads { IfOk result (λ next. let old = append_known (W.contents writer.old) out.old.items in let new = append_known (W.contents writer.new) out.new.items in
        let bytes = spill.old.items ++ chunk.now in MatchOption next (Ends old new taken (place_of state.old) bytes) (λ n. Leads old new taken (place_of state.old) bytes n (place_of state.new) spill.new.items)) }
{
    let mut taken = taken;
    let mut rest = chunk;
    'lines: while let Some((part, later)) = split_line(rest) {
        if !end_line(alloc, state, writer, out, spill, part, taken)? {
            return Ok(None);
        }
        taken += 1;
        rest = later;
    }
    spill.extend_from_slice(rest)?;
    if spill.len() > LONGEST {
        put_line(alloc, state, writer, out, spill, taken)?;
        return Ok(None);
    }
    Ok(Some(taken))
}

// Answers the last line, where there is one, and ends the trace. Returns the status.
fn finish<W: Write>(
    alloc: Global,
    state: &mut State,
    writer: &mut W,
    out: &mut Vec<u8>,
    line: &[u8],
    taken: u64,
) -> io::Result<u8>
    requires short { taken < 2 ^ 62 }
    requires between { IsBetween state.old }
    ensures { IfOk result (λ status. let output = output_from taken (place_of state.old) (if length line.now == 0 then [] else line.now ∷ []) in
        (status ≡ output.1) × Appends (append_known (W.contents writer.old) out.old.items) (append_known (W.contents writer.new) out.new.items) output.0) }
{
    let mut taken = taken;
    if !line.is_empty() {
        if !put_line(alloc, state, writer, out, line, taken)? {
            return Ok(1);
        }
        taken += 1;
    }
    let status = end(state, out, taken)?;
    Ok(status)
}

// Answers one chunk after another, until the trace ends or stops. Returns the status.
fn answer_chunks<R: Read, W: Write>(
    alloc: Global,
    reader: &mut R,
    writer: &mut W,
    out: &mut Vec<u8>,
    buffer: &mut Vec<u8>,
    spill: &mut Vec<u8>,
    state: &mut State,
) -> io::Result<u8>
    requires sized { vec_len buffer.old ≡ 65536 }
    requires empty { spill.old.items ≡ [] }
    requires begun { place_of state.old ≡ begun }
    requires between { IsBetween state.old }
    ensures { IfOk result (λ status. Answers (R.remaining reader.old) (append_known (W.contents writer.old) out.old.items) (append_known (W.contents writer.new) out.new.items) status) }
{
    let mut taken = 0u64;
    let mut total = 0u64;
    'chunks: for _ in 0..READS {
        write_out(writer, out)?;
        let n = read_chunk(reader, buffer)?;
        if n == 0 {
            let status = finish(alloc, state, writer, out, spill, taken)?;
            return Ok(status);
        }
        total += n as u64;
        if total > MOST {
            break 'chunks;
        }
        match take_chunk(alloc, state, writer, out, spill, &buffer[..n], taken)? {
            Some(next) => taken = next,
            None => return Ok(1),
        }
    }
    Err(io::Error::from(io::ErrorKind::FileTooLarge))
}

// The same from the start, with a buffer for the bytes that are read and one for what is kept of a line.
fn run<R: Read, W: Write>(
    alloc: Global,
    reader: &mut R,
    writer: &mut W,
    out: &mut Vec<u8>,
) -> io::Result<u8>
    ensures { IfOk result (λ status. Answers (R.remaining reader.old) (append_known (W.contents writer.old) out.old.items) (append_known (W.contents writer.new) out.new.items) status) }
{
    let mut buffer = Vec::new(alloc);
    buffer.resize(CHUNK, 0u8)?;
    let mut spill = Vec::new(alloc);
    let mut state = State::Configuring(Config::new(Vec::new(alloc), None));
    answer_chunks(
        alloc,
        reader,
        writer,
        out,
        &mut buffer,
        &mut spill,
        &mut state,
    )
}

/// Replays the trace that the reader has, and writes its answers. Status 0 says that it was done, and 1 that it has a
/// fault or that its configuration was refused. Status 4 says that reading, writing or memory failed, or that there were
/// more than 4,294,967,296 bytes: answers of lines before that are written where that can be done.
pub fn replay<R: Read, W: Write>(alloc: Global, reader: &mut R, writer: &mut W) -> u8
    ensures answers { result ≢ 4 → Answers (R.remaining reader.old) (W.contents writer.old) (W.contents writer.new) result }
    ensures log { LogsAreRight }
    ensures runs { TracesAreRuns }
{
    let mut out = Vec::new(alloc);
    let status = match run(alloc, reader, writer, &mut out) {
        Ok(status) => status,
        Err(_) => 4,
    };
    match write_out(writer, &mut out) {
        Ok(()) => status,
        Err(_) => 4,
    }
}
