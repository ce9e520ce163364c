// What a line says.
ghost use Rattle.std.specs.Prelude.{◌≡◌, ◌^◌, option_map};
ghost use Rattle.hc_trace_text.specs.Lines.{fields_of};
ghost use Rattle.hc_history.specs.Note.{End, Linked, Freed, Queued, Unqueued, Writing, Written, Buried, Raised, Opened, Flushed, Cleared, Now};
ghost use Rattle.hc_log_text.specs.Left.{left};
ghost use Rattle.hc_log_text.specs.Reading as spec;
ghost use Rattle.hc_log_text.specs.Reading.{begin_of, did_of, lose_of, charged_of, result_of, read_of, outcome_of, wrote_of, note_of};
ghost use Rattle.hc_log_text.specs.Seen.{note_seen};

use crate::alone::{is_empty, key_alone, long_alone, page_alone, word_alone};
use crate::calls::{op_in, reply_in};
use crate::fields::{Rest, byte_at, field_at, key_at, long_at, word_at};
use crate::line::NoteText;
use crate::losses::{cause_in, scope_at};

fn begin(rest: Rest<'_>) -> Option<NoteText<'_>>
    ensures { option_map note_seen result ≡ begin_of (left rest.entry) }
{
    let (call, rest) = long_at(rest)?;
    let (client, rest) = byte_at(rest)?;
    let op = op_in(rest)?;
    Some(NoteText::Begin(call, client, op))
}

fn did(rest: Rest<'_>) -> Option<NoteText<'_>>
    ensures { option_map note_seen result ≡ did_of (left rest.entry) }
{
    let (call, rest) = long_at(rest)?;
    let reply = reply_in(rest)?;
    Some(NoteText::Did(call, reply))
}

fn lose(rest: Rest<'_>) -> Option<NoteText<'_>>
    ensures { option_map note_seen result ≡ lose_of (left rest.entry) }
{
    let (scope, rest) = scope_at(rest)?;
    let cause = cause_in(rest)?;
    Some(NoteText::Lose(scope, cause))
}

fn charged(rest: Rest<'_>) -> Option<NoteText<'_>>
    ensures { option_map note_seen result ≡ charged_of (left rest.entry) }
{
    let (charge, rest) = long_at(rest)?;
    let (key, rest) = key_at(rest)?;
    let (pool, rest) = byte_at(rest)?;
    let bytes = long_alone(rest)?;
    Some(NoteText::Charged(charge, key, pool, bytes))
}

// A page that was read, or that wasn't.
fn result_in(page: u32, rest: Rest<'_>) -> Option<NoteText<'_>>
    ensures { option_map note_seen result ≡ result_of page (left rest.entry) }
{
    let (word, behind) = field_at(rest)?;
    if word != b"failed".as_slice() {
        let bytes = page_alone(rest)?;
        return Some(NoteText::Read(page, bytes));
    }
    if is_empty(behind) {
        Some(NoteText::ReadFailed(page))
    } else {
        None
    }
}

fn read(rest: Rest<'_>) -> Option<NoteText<'_>>
    ensures { option_map note_seen result ≡ read_of (left rest.entry) }
{
    let (page, rest) = word_at(rest)?;
    result_in(page, rest)
}

// A page, and whether it was written.
fn outcome_in(page: u32, rest: Rest<'_>) -> Option<NoteText<'_>>
    ensures { option_map note_seen result ≡ outcome_of page (left rest.entry) }
{
    let (word, rest) = field_at(rest)?;
    let is_written = written(word)?;
    let bytes = page_alone(rest)?;
    Some(NoteText::Wrote(page, bytes, is_written))
}

// Whether a page was written.
fn written(word: &[u8]) -> Option<bool>
    ensures { result ≡ spec.written word.now }
{
    if word == b"ok".as_slice() {
        return Some(true);
    }
    if word == b"failed".as_slice() {
        return Some(false);
    }
    None
}

fn wrote(rest: Rest<'_>) -> Option<NoteText<'_>>
    ensures { option_map note_seen result ≡ wrote_of (left rest.entry) }
{
    let (page, rest) = word_at(rest)?;
    outcome_in(page, rest)
}

// The notes of calls, of the clock and of losses.
fn call_note<'a>(word: &[u8], rest: Rest<'a>) -> Option<NoteText<'a>>
    ensures { option_map note_seen result ≡ spec.call_note word.now (left rest.entry) }
{
    if word == b"begin".as_slice() {
        return begin(rest);
    }
    if word == b"did".as_slice() {
        return did(rest);
    }
    if word == b"lose".as_slice() {
        return lose(rest);
    }
    if word == b"end".as_slice() {
        let call = long_alone(rest)?;
        return Some(NoteText::End(call));
    }
    if word == b"now".as_slice() {
        let moment = long_alone(rest)?;
        return Some(NoteText::Now(moment));
    }
    None
}

// The notes of charges.
fn charge_note<'a>(word: &[u8], rest: Rest<'a>) -> Option<NoteText<'a>>
    ensures { option_map note_seen result ≡ spec.charge_note word.now (left rest.entry) }
{
    if word == b"charged".as_slice() {
        return charged(rest);
    }
    if word == b"linked".as_slice() {
        let charge = long_alone(rest)?;
        return Some(NoteText::Linked(charge));
    }
    if word == b"freed".as_slice() {
        let charge = long_alone(rest)?;
        return Some(NoteText::Freed(charge));
    }
    None
}

// The note of this word and key.
fn keyed<'a>(word: &[u8], key: &'a [u8]) -> Option<NoteText<'a>>
    ensures { option_map note_seen result ≡ spec.keyed word.now key.now }
{
    if word == b"queued".as_slice() {
        return Some(NoteText::Queued(key));
    }
    if word == b"unqueued".as_slice() {
        return Some(NoteText::Unqueued(key));
    }
    if word == b"writing".as_slice() {
        return Some(NoteText::Writing(key));
    }
    if word == b"written".as_slice() {
        return Some(NoteText::Written(key));
    }
    if word == b"buried".as_slice() {
        return Some(NoteText::Buried(key));
    }
    if word == b"raised".as_slice() {
        return Some(NoteText::Raised(key));
    }
    None
}

// The notes that say a key.
fn key_note<'a>(word: &[u8], rest: Rest<'a>) -> Option<NoteText<'a>>
    ensures { option_map note_seen result ≡ spec.key_note word.now (left rest.entry) }
{
    let key = key_alone(rest)?;
    keyed(word, key)
}

// The note of this word and region.
fn of_region<'a>(word: &[u8], region: u32) -> Option<NoteText<'a>>
    ensures { option_map note_seen result ≡ spec.of_region word.now region }
{
    if word == b"opened".as_slice() {
        return Some(NoteText::Opened(region));
    }
    if word == b"flushed".as_slice() {
        return Some(NoteText::Flushed(region));
    }
    if word == b"cleared".as_slice() {
        return Some(NoteText::Cleared(region));
    }
    None
}

// The notes of pages and regions.
fn flash_note<'a>(word: &[u8], rest: Rest<'a>) -> Option<NoteText<'a>>
    ensures { option_map note_seen result ≡ spec.flash_note word.now (left rest.entry) }
{
    if word == b"read".as_slice() {
        return read(rest);
    }
    if word == b"wrote".as_slice() {
        return wrote(rest);
    }
    let region = word_alone(rest)?;
    of_region(word, region)
}

// The note of a word and the fields behind it.
fn worded<'a>(word: &[u8], rest: Rest<'a>) -> Option<NoteText<'a>>
    ensures { option_map note_seen result ≡ spec.worded word.now (left rest.entry) }
{
    if let Some(note) = call_note(word, rest) {
        return Some(note);
    }
    if let Some(note) = charge_note(word, rest) {
        return Some(note);
    }
    if let Some(note) = key_note(word, rest) {
        return Some(note);
    }
    flash_note(word, rest)
}

// What a line says.
pub fn note_in(line: &[u8]) -> Option<NoteText<'_>>
    ensures { option_map note_seen result ≡ note_of (fields_of line.now) }
{
    let (word, rest) = field_at(Rest::Text(line))?;
    worded(word, rest)
}
