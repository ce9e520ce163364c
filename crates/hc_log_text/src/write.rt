// The line of a note, written.
ghost use Rattle.std.specs.Prelude.{◌≡◌, ◌++◌, ◌∷◌, [], OnOk, OnErr, IfErr, IsErrOf, ◌↔◌, IfOk, codes, false};
ghost use Rattle.std.specs.Fmt.{decimal};
ghost use Rattle.hc_types.specs.Loss.{scope_of, cause_of};
ghost use Rattle.hc_history.specs.Note.{Begin, Did, Lose, Charged, Read, Wrote};
ghost use Rattle.hc_history.specs.Seen.{op_of, reply_of};
ghost use Rattle.hc_log_text.specs.Said as said;
ghost use Rattle.hc_log_text.specs.Said.{IsSaid};
ghost use Rattle.hc_log_text.specs.Text.{behind, joined, written_word, note_text};
ghost use Rattle.hc_trace_text.specs.Texts.{line_text};

use crate::held::fits;
use crate::sayable::is_sayable;
use crate::texts::{
    add_cause, add_field, add_number_field, add_op, add_page_field, add_reply, add_scope, add_two,
};
use bytes::Bytes;
use hc_history::{Note, Op, Reply, Said};
use hc_types::{Cause, Key, Scope};
use std::alloc::{AllocError, Global};

// A word, and a number behind a space.
fn begin_with(out: &mut Vec<u8>, word: &[u8], number: u64) -> Result<(), AllocError>
    ensures { OnOk result (out.new.items ≡ out.old.items ++ joined (word.now ∷ decimal number ∷ [])) }
{
    out.extend_from_slice(word)?;
    add_number_field(out, number)
}

// A word, and a key behind a space.
fn add_of_key(out: &mut Vec<u8>, word: &[u8], key: &Key) -> Result<(), AllocError>
    ensures { OnOk result (out.new.items ≡ out.old.items ++ joined (word.now ∷ key.now ∷ [])) }
{
    out.extend_from_slice(word)?;
    add_field(out, key.as_slice())
}

fn add_begin(out: &mut Vec<u8>, call: u64, client: u8, op: &Op) -> Result<(), AllocError>
    ensures { OnOk result (out.new.items ≡ out.old.items ++ note_text (Begin call client (op_of op.now))) }
{
    begin_with(out, b"begin", call)?;
    add_number_field(out, u64::from(client))?;
    add_op(out, op)
}

fn add_did(out: &mut Vec<u8>, call: u64, reply: &Reply) -> Result<(), AllocError>
    ensures { OnOk result (out.new.items ≡ out.old.items ++ note_text (Did call (reply_of reply.now))) }
{
    begin_with(out, b"did", call)?;
    add_reply(out, reply)
}

fn add_lose(out: &mut Vec<u8>, scope: &Scope, cause: &Cause) -> Result<(), AllocError>
    ensures { OnOk result (out.new.items ≡ out.old.items ++ note_text (Lose (scope_of scope.now) (cause_of cause.now))) }
{
    out.extend_from_slice(b"lose")?;
    add_scope(out, scope)?;
    add_cause(out, cause)
}

fn add_charged(
    out: &mut Vec<u8>,
    charge: u64,
    key: &Key,
    pool: u8,
    bytes: u64,
) -> Result<(), AllocError>
    ensures { OnOk result (out.new.items ≡ out.old.items ++ note_text (Charged charge key.now pool bytes)) }
{
    begin_with(out, b"charged", charge)?;
    add_field(out, key.as_slice())?;
    add_two(out, u64::from(pool), bytes)
}

fn add_read(
    alloc: Global,
    out: &mut Vec<u8>,
    page: u32,
    bytes: &Option<Bytes>,
) -> Result<(), AllocError>
    ensures { OnOk result (out.new.items ≡ out.old.items ++ note_text (Read page bytes.now)) }
{
    begin_with(out, b"read", u64::from(page))?;
    match bytes {
        Some(bytes) => add_page_field(alloc, out, bytes),
        None => add_field(out, b"failed"),
    }
}

// Whether a page was written.
fn add_outcome(out: &mut Vec<u8>, is_written: bool) -> Result<(), AllocError>
    ensures { OnOk result (out.new.items ≡ out.old.items ++ behind (written_word is_written ∷ [])) }
{
    if is_written {
        add_field(out, b"ok")
    } else {
        add_field(out, b"failed")
    }
}

fn add_wrote(
    alloc: Global,
    out: &mut Vec<u8>,
    page: u32,
    bytes: &Bytes,
    is_written: bool,
) -> Result<(), AllocError>
    ensures { OnOk result (out.new.items ≡ out.old.items ++ note_text (Wrote page bytes.now is_written)) }
{
    begin_with(out, b"wrote", u64::from(page))?;
    add_outcome(out, is_written)?;
    add_page_field(alloc, out, bytes)
}

// What a note says, without its line feed.
fn add_note(alloc: Global, out: &mut Vec<u8>, note: &Note) -> Result<(), AllocError>
    ensures { OnOk result (out.new.items ≡ out.old.items ++ note_text note.now) }
{
    match &note.said {
        Said::Begin { call, client, op } => add_begin(out, *call, *client, op),
        Said::Did { call, reply } => add_did(out, *call, reply),
        Said::End { call } => begin_with(out, b"end", *call),
        Said::Lose { scope, cause } => add_lose(out, scope, cause),
        Said::Charged {
            charge,
            key,
            pool,
            bytes,
        } => add_charged(out, *charge, key, *pool, *bytes),
        Said::Linked { charge } => begin_with(out, b"linked", *charge),
        Said::Freed { charge } => begin_with(out, b"freed", *charge),
        Said::Queued { key } => add_of_key(out, b"queued", key),
        Said::Unqueued { key } => add_of_key(out, b"unqueued", key),
        Said::Writing { key } => add_of_key(out, b"writing", key),
        Said::Written { key } => add_of_key(out, b"written", key),
        Said::Buried { key } => add_of_key(out, b"buried", key),
        Said::Raised { key } => add_of_key(out, b"raised", key),
        Said::Read {
            page,
            result: bytes,
        } => add_read(alloc, out, *page, bytes),
        Said::Wrote {
            page,
            bytes,
            is_written,
        } => add_wrote(alloc, out, *page, bytes, *is_written),
        Said::Opened { region } => begin_with(out, b"opened", u64::from(*region)),
        Said::Flushed { region } => begin_with(out, b"flushed", u64::from(*region)),
        Said::Cleared { region } => begin_with(out, b"cleared", u64::from(*region)),
        Said::Now { moment } => begin_with(out, b"now", *moment),
    }
}

/// Why a note wasn't written.
#[derive(Clone, Copy, Debug, PartialEq, Eq)]
pub enum WriteError {
    /// A byte of a key or value can't stand in a line, or a value is too long for one.
    Unsayable,
    /// There is no memory.
    NoMemory,
}

/// Writes the line of a note, and its line feed. Where it is refused, nothing is written. `Unsayable` comes exactly of
/// the notes with a key or value that has a byte outside 33 to 126, or of a value of more than 2,097,152 bytes.
pub fn write_note(alloc: Global, out: &mut Vec<u8>, note: &Note) -> Result<(), WriteError>
    ensures text { OnOk result (out.new.items ≡ out.old.items ++ line_text (note_text note.now)) }
    ensures same { OnErr result (out.new.items ≡ out.old.items) }
    ensures said { OnOk result (IsSaid note.now) }
    ensures unsayable { IsErrOf result WriteError.Unsayable ↔ (said.is_sayable note.now ≡ false) }
{
    if !is_sayable(note) {
        return Err(WriteError::Unsayable);
    }
    fits(note);
    match line_of(alloc, note) {
        Ok(line) => add_line(out, &line),
        Err(_) => Err(WriteError::NoMemory),
    }
}

// The line, with its line feed.
fn line_of(alloc: Global, note: &Note) -> Result<Vec<u8>, AllocError>
    ensures { IfOk result (λ line. line.items ≡ line_text (note_text note.now)) }
{
    let mut line = Vec::new(alloc);
    add_note(alloc, &mut line, note)?;
    line.extend_from_slice(b"\n")?;
    Ok(line)
}

// The whole line or nothing.
fn add_line(out: &mut Vec<u8>, line: &[u8]) -> Result<(), WriteError>
    ensures text { OnOk result (out.new.items ≡ out.old.items ++ line.now) }
    ensures same { OnErr result (out.new.items ≡ out.old.items) }
    ensures memory { IfErr result (λ error. error ≡ WriteError.NoMemory) }
{
    match out.extend_from_slice(line) {
        Ok(()) => Ok(()),
        Err(_) => Err(WriteError::NoMemory),
    }
}
