// The note of a line, read.
ghost use Rattle.std.specs.Prelude.{◌≡◌, IfOk, IfSome, replicate};
ghost use Rattle.hc_types.specs.Loss.{scope_of, cause_of};
ghost use Rattle.hc_history.specs.Note.{Note as Meaning, Begin, Did, Lose, Charged, Read, Wrote};
ghost use Rattle.hc_history.specs.Seen as seen;
ghost use Rattle.hc_history.specs.Seen.{op_of, reply_of};
ghost use Rattle.hc_trace_text.specs.Lines.{fields_of};
ghost use Rattle.hc_trace_text.specs.Seen.{bytes_of};
ghost use Rattle.hc_log_text.specs.Reading.{page_bytes, note_of};
ghost use Rattle.hc_log_text.specs.Said.{IsSaid};
ghost use Rattle.hc_log_text.specs.Text.{note_text};
ghost use Rattle.hc_log_text.specs.Seen.{op_seen, reply_seen, scope_seen, cause_seen, note_seen};

use crate::line::{CauseText, NoteText, OpText, ReplyText, ScopeText};
use crate::notes::note_in;
use bytes::Bytes;
use hc_history::{Note, Op, Reply, Said};
use hc_trace_text::Value;
use hc_types::{Cause, Key, Scope};
use std::alloc::{AllocError, Global};

// A key of its own. It isn't too long, so that memory alone can lack.
fn key(alloc: Global, bytes: &[u8]) -> Result<Key, AllocError>
    ensures { IfOk result (λ key. key ≡ bytes.now) }
{
    match Key::new(alloc, bytes) {
        Ok(key) => Ok(key),
        Err(_) => Err(AllocError),
    }
}

// So many times the byte.
fn repeated(alloc: Global, count: u64, byte: u8) -> Result<Vec<u8>, AllocError>
    ensures { IfOk result (λ bytes. bytes.items ≡ replicate count byte) }
{
    let mut bytes = Vec::with_capacity(alloc, count as usize)?;
    bytes.resize(count as usize, byte)?;
    Ok(bytes)
}

// The bytes that a value has, in memory of their own.
fn value_bytes(alloc: Global, value: Value<'_>) -> Result<Vec<u8>, AllocError>
    ensures { IfOk result (λ bytes. bytes.items ≡ bytes_of value.entry) }
{
    match value {
        Value::Plain(bytes) => Vec::from_slice(alloc, bytes),
        Value::Repeated(count, byte) => repeated(alloc, count, byte),
    }
}

// The same, to be shared.
fn shared(bytes: Vec<u8>) -> Result<Bytes, AllocError>
    ensures { IfOk result (λ shared. shared ≡ bytes.items) }
{
    match Bytes::from_vec(bytes) {
        Ok(shared) => Ok(shared),
        Err(_) => Err(AllocError),
    }
}

fn value(alloc: Global, text: Value<'_>) -> Result<Bytes, AllocError>
    ensures { IfOk result (λ value. value ≡ bytes_of text.entry) }
{
    let bytes = value_bytes(alloc, text)?;
    shared(bytes)
}

// The bytes that were written in hexadecimal. They were, so that memory alone can lack.
fn decoded(alloc: Global, text: &[u8]) -> Result<Vec<u8>, AllocError>
    ensures { IfOk result (λ bytes. bytes.items ≡ page_bytes text.now) }
{
    match hex::decode(alloc, text) {
        Ok(bytes) => Ok(bytes),
        Err(_) => Err(AllocError),
    }
}

fn page(alloc: Global, text: &[u8]) -> Result<Bytes, AllocError>
    ensures { IfOk result (λ page. page ≡ page_bytes text.now) }
{
    let bytes = decoded(alloc, text)?;
    shared(bytes)
}

// A key and a value of their own.
fn pair(alloc: Global, name: &[u8], text: Value<'_>) -> Result<(Key, Bytes), AllocError>
    ensures key { IfOk result (λ p. p.0 ≡ name.now) }
    ensures value { IfOk result (λ p. p.1 ≡ bytes_of text.entry) }
{
    let value = value(alloc, text)?;
    match key(alloc, name) {
        Ok(key) => Ok((key, value)),
        Err(_) => {
            drop(value);
            Err(AllocError)
        }
    }
}

fn op(alloc: Global, text: OpText<'_>) -> Result<Op, AllocError>
    ensures { IfOk result (λ op. op_of op ≡ op_seen text.entry) }
{
    match text {
        OpText::Insert(name, text, expiry) => {
            let (key, value) = pair(alloc, name, text)?;
            Ok(Op::Insert(key, value, expiry))
        }
        OpText::Add(name, text, expiry) => {
            let (key, value) = pair(alloc, name, text)?;
            Ok(Op::Add(key, value, expiry))
        }
        OpText::Find(name) => Ok(Op::Find(key(alloc, name)?)),
        OpText::Remove(name) => Ok(Op::Remove(key(alloc, name)?)),
    }
}

fn reply(alloc: Global, text: ReplyText<'_>) -> Result<Reply, AllocError>
    ensures { IfOk result (λ reply. reply_of reply ≡ reply_seen text.entry) }
{
    match text {
        ReplyText::Stored => Ok(Reply::Stored),
        ReplyText::Exists => Ok(Reply::Exists),
        ReplyText::Hit(text) => Ok(Reply::Hit(value(alloc, text)?)),
        ReplyText::Miss => Ok(Reply::Miss),
        ReplyText::FoundInMemory => Ok(Reply::FoundInMemory),
        ReplyText::NotInMemory => Ok(Reply::NotInMemory),
    }
}

fn scope(alloc: Global, text: ScopeText<'_>) -> Result<Scope, AllocError>
    ensures { IfOk result (λ scope. scope_of scope ≡ scope_seen text.entry) }
{
    match text {
        ScopeText::Key(name) => Ok(Scope::Key(key(alloc, name)?)),
        ScopeText::Bucket(bucket) => Ok(Scope::Bucket(bucket)),
        ScopeText::Hash(kept) => Ok(Scope::Hash { kept, but: None }),
        ScopeText::HashBut(kept, name) => {
            let but = Some(key(alloc, name)?);
            Ok(Scope::Hash { kept, but })
        }
    }
}

fn cause(alloc: Global, text: CauseText<'_>) -> Result<Cause, AllocError>
    ensures { IfOk result (λ cause. cause_of cause ≡ cause_seen text.entry) }
{
    match text {
        CauseText::Evicted(pool, want, why) => Ok(Cause::Evicted { pool, want, why }),
        CauseText::BucketFull => Ok(Cause::BucketFull),
        CauseText::Reclaimed(region) => Ok(Cause::Reclaimed(region)),
        CauseText::NoCleanRegion => Ok(Cause::NoCleanRegion),
        CauseText::Collision(name) => Ok(Cause::Collision(key(alloc, name)?)),
        CauseText::Expired => Ok(Cause::Expired),
        CauseText::Fault => Ok(Cause::Fault),
    }
}

fn begin(alloc: Global, call: u64, client: u8, text: OpText<'_>) -> Result<Said, AllocError>
    ensures { IfOk result (λ said. seen.note_of said ≡ Begin call client (op_seen text.entry)) }
{
    let op = op(alloc, text)?;
    Ok(Said::Begin { call, client, op })
}

fn did(alloc: Global, call: u64, text: ReplyText<'_>) -> Result<Said, AllocError>
    ensures { IfOk result (λ said. seen.note_of said ≡ Did call (reply_seen text.entry)) }
{
    let reply = reply(alloc, text)?;
    Ok(Said::Did { call, reply })
}

fn lose(alloc: Global, what: ScopeText<'_>, why: CauseText<'_>) -> Result<Said, AllocError>
    ensures { IfOk result (λ said. seen.note_of said ≡ Lose (scope_seen what.entry) (cause_seen why.entry)) }
{
    let cause = cause(alloc, why)?;
    match scope(alloc, what) {
        Ok(scope) => Ok(Said::Lose { scope, cause }),
        Err(_) => {
            drop(cause);
            Err(AllocError)
        }
    }
}

fn charged(
    alloc: Global,
    charge: u64,
    name: &[u8],
    pool: u8,
    bytes: u64,
) -> Result<Said, AllocError>
    ensures { IfOk result (λ said. seen.note_of said ≡ Charged charge name.now pool bytes) }
{
    let key = key(alloc, name)?;
    Ok(Said::Charged {
        charge,
        key,
        pool,
        bytes,
    })
}

fn read(alloc: Global, page_number: u32, text: &[u8]) -> Result<Said, AllocError>
    ensures { IfOk result (λ said. seen.note_of said ≡ Read page_number (Some (page_bytes text.now))) }
{
    let bytes = page(alloc, text)?;
    Ok(Said::Read {
        page: page_number,
        result: Some(bytes),
    })
}

fn wrote(alloc: Global, page_number: u32, text: &[u8], is_written: bool) -> Result<Said, AllocError>
    ensures { IfOk result (λ said. seen.note_of said ≡ Wrote page_number (page_bytes text.now) is_written) }
{
    let bytes = page(alloc, text)?;
    Ok(Said::Wrote {
        page: page_number,
        bytes,
        is_written,
    })
}

// What a note says, in memory of its own.
fn said(alloc: Global, text: NoteText<'_>) -> Result<Said, AllocError>
    ensures { IfOk result (λ said. seen.note_of said ≡ note_seen text.entry) }
{
    match text {
        NoteText::Begin(call, client, text) => begin(alloc, call, client, text),
        NoteText::Did(call, text) => did(alloc, call, text),
        NoteText::End(call) => Ok(Said::End { call }),
        NoteText::Lose(what, why) => lose(alloc, what, why),
        NoteText::Charged(charge, name, pool, bytes) => charged(alloc, charge, name, pool, bytes),
        NoteText::Linked(charge) => Ok(Said::Linked { charge }),
        NoteText::Freed(charge) => Ok(Said::Freed { charge }),
        NoteText::Queued(name) => Ok(Said::Queued {
            key: key(alloc, name)?,
        }),
        NoteText::Unqueued(name) => Ok(Said::Unqueued {
            key: key(alloc, name)?,
        }),
        NoteText::Writing(name) => Ok(Said::Writing {
            key: key(alloc, name)?,
        }),
        NoteText::Written(name) => Ok(Said::Written {
            key: key(alloc, name)?,
        }),
        NoteText::Buried(name) => Ok(Said::Buried {
            key: key(alloc, name)?,
        }),
        NoteText::Raised(name) => Ok(Said::Raised {
            key: key(alloc, name)?,
        }),
        NoteText::Read(page, text) => read(alloc, page, text),
        NoteText::ReadFailed(page) => Ok(Said::Read { page, result: None }),
        NoteText::Wrote(page, text, is_written) => wrote(alloc, page, text, is_written),
        NoteText::Opened(region) => Ok(Said::Opened { region }),
        NoteText::Flushed(region) => Ok(Said::Flushed { region }),
        NoteText::Cleared(region) => Ok(Said::Cleared { region }),
        NoteText::Now(moment) => Ok(Said::Now { moment }),
    }
}

// The note of the line, and None where it has none.
fn noted(alloc: Global, line: &[u8]) -> Result<Option<Note>, AllocError>
    ensures { IfOk result (λ noted. noted ≡ note_of (fields_of line.now)) }
{
    let Some(text) = note_in(line) else {
        return Ok(None);
    };
    let said = said(alloc, text)?;
    Ok(Some(Note::new(said)))
}

/// The note that a line says, its line feed not counted, and None for what is no note. What `write_note` writes of a note
/// is read as the note, and no other text is.
pub fn read_note(alloc: Global, line: &[u8]) -> Result<Option<Note>, AllocError>
    ensures only { IfOk result (λ read. IfSome read (λ note. IsSaid note × (line.now ≡ note_text note))) }
    ensures written { IfOk result (λ read. (note : Meaning) → IsSaid note → line.now ≡ note_text note → read ≡ Some note) }
{
    noted(alloc, line)
}
