// What calls ask for and are answered, read from a line.
ghost use Rattle.std.specs.Prelude.{◌≡◌, option_map};
ghost use Rattle.hc_trace_text.specs.Seen.{bytes_of};
ghost use Rattle.hc_log_text.specs.Left.{left};
ghost use Rattle.hc_log_text.specs.Reading as spec;
ghost use Rattle.hc_log_text.specs.Reading.{item_of, op_of, reply_of};
ghost use Rattle.hc_log_text.specs.Seen.{op_seen, reply_seen};
ghost use Rattle.hc_history.specs.Note.{Insert, Add, Find, Remove, Hit};

use crate::alone::{is_empty, key_alone, long_alone, value_alone};
use crate::fields::{Rest, field_at, key_at, value_at};
use crate::line::{OpText, ReplyText};
use hc_trace_text::Value;

// A key, a value and a moment.
fn item(rest: Rest<'_>) -> Option<(&[u8], Value<'_>, u64)>
    ensures insert { option_map (λ p. Insert p.0.now (bytes_of p.1) p.2) result ≡ item_of Insert (left rest.entry) }
    ensures add { option_map (λ p. Add p.0.now (bytes_of p.1) p.2) result ≡ item_of Add (left rest.entry) }
{
    let (key, rest) = key_at(rest)?;
    let (value, rest) = value_at(rest)?;
    let expiry = long_alone(rest)?;
    Some((key, value, expiry))
}

fn insert(rest: Rest<'_>) -> Option<OpText<'_>>
    ensures { option_map op_seen result ≡ item_of Insert (left rest.entry) }
{
    let (key, value, expiry) = item(rest)?;
    Some(OpText::Insert(key, value, expiry))
}

fn add(rest: Rest<'_>) -> Option<OpText<'_>>
    ensures { option_map op_seen result ≡ item_of Add (left rest.entry) }
{
    let (key, value, expiry) = item(rest)?;
    Some(OpText::Add(key, value, expiry))
}

fn find(rest: Rest<'_>) -> Option<OpText<'_>>
    ensures { option_map op_seen result ≡ option_map Find (spec.key_alone (left rest.entry)) }
{
    let key = key_alone(rest)?;
    Some(OpText::Find(key))
}

fn remove(rest: Rest<'_>) -> Option<OpText<'_>>
    ensures { option_map op_seen result ≡ option_map Remove (spec.key_alone (left rest.entry)) }
{
    let key = key_alone(rest)?;
    Some(OpText::Remove(key))
}

// What a call asks for.
pub fn op_in(rest: Rest<'_>) -> Option<OpText<'_>>
    ensures { option_map op_seen result ≡ op_of (left rest.entry) }
{
    let (word, rest) = field_at(rest)?;
    if word == b"insert".as_slice() {
        return insert(rest);
    }
    if word == b"add".as_slice() {
        return add(rest);
    }
    if word == b"find".as_slice() {
        return find(rest);
    }
    if word == b"remove".as_slice() {
        return remove(rest);
    }
    None
}

fn hit(rest: Rest<'_>) -> Option<ReplyText<'_>>
    ensures { option_map reply_seen result ≡ option_map Hit (spec.value_alone (left rest.entry)) }
{
    let value = value_alone(rest)?;
    Some(ReplyText::Hit(value))
}

// A reply that is one word.
fn plain_reply<'a>(word: &[u8]) -> Option<ReplyText<'a>>
    ensures { option_map reply_seen result ≡ spec.plain_reply word.now }
{
    if word == b"stored".as_slice() {
        return Some(ReplyText::Stored);
    }
    if word == b"exists".as_slice() {
        return Some(ReplyText::Exists);
    }
    if word == b"miss".as_slice() {
        return Some(ReplyText::Miss);
    }
    if word == b"found".as_slice() {
        return Some(ReplyText::FoundInMemory);
    }
    if word == b"absent".as_slice() {
        return Some(ReplyText::NotInMemory);
    }
    None
}

// What a call is answered.
pub fn reply_in(rest: Rest<'_>) -> Option<ReplyText<'_>>
    ensures { option_map reply_seen result ≡ reply_of (left rest.entry) }
{
    let (word, rest) = field_at(rest)?;
    if word == b"hit".as_slice() {
        return hit(rest);
    }
    let reply = plain_reply(word)?;
    if is_empty(rest) { Some(reply) } else { None }
}
