// The fields of a line, written.
ghost use Rattle.std.specs.Prelude.{◌≡◌, ◌++◌, ◌∷◌, [], OnOk, codes};
ghost use Rattle.std.specs.Fmt.{decimal};
ghost use Rattle.hex.specs.Hex.{encode_lower};
ghost use Rattle.hc_types.specs.Loss.{scope_of, cause_of};
ghost use Rattle.hc_history.specs.Seen.{op_of, reply_of};
ghost use Rattle.hc_trace_text.specs.Texts.{value_text};
ghost use Rattle.hc_log_text.specs.Text.{behind, op_fields, reply_fields, but_fields, scope_fields, cause_fields, why_word};

use bytes::Bytes;
use hc_history::{Op, Reply};
use hc_trace_text::{add_number, add_value};
use hc_types::{Cause, Key, Scope, Why};
use std::alloc::{AllocError, Global};

// A field behind a space.
pub fn add_field(out: &mut Vec<u8>, field: &[u8]) -> Result<(), AllocError>
    ensures { OnOk result (out.new.items ≡ out.old.items ++ behind (field.now ∷ [])) }
{
    out.push(b' ')?;
    out.extend_from_slice(field)
}

// A number behind a space.
pub fn add_number_field(out: &mut Vec<u8>, number: u64) -> Result<(), AllocError>
    ensures { OnOk result (out.new.items ≡ out.old.items ++ behind (decimal number ∷ [])) }
{
    out.push(b' ')?;
    add_number(out, number)
}

// A value behind a space.
pub fn add_value_field(out: &mut Vec<u8>, value: &Bytes) -> Result<(), AllocError>
    ensures { OnOk result (out.new.items ≡ out.old.items ++ behind (value_text value.now ∷ [])) }
{
    out.push(b' ')?;
    add_value(out, value.as_slice())
}

// A page in hexadecimal behind a space.
pub fn add_page_field(alloc: Global, out: &mut Vec<u8>, bytes: &Bytes) -> Result<(), AllocError>
    ensures { OnOk result (out.new.items ≡ out.old.items ++ behind (encode_lower bytes.now ∷ [])) }
{
    let text = hex::encode(alloc, bytes.as_slice())?;
    add_field(out, text.as_bytes())
}

// A word and a number, each behind a space.
pub fn add_numbered(out: &mut Vec<u8>, word: &[u8], number: u64) -> Result<(), AllocError>
    ensures { OnOk result (out.new.items ≡ out.old.items ++ behind (word.now ∷ decimal number ∷ [])) }
{
    add_field(out, word)?;
    add_number_field(out, number)
}

// A word and a key, each behind a space.
pub fn add_keyed(out: &mut Vec<u8>, word: &[u8], key: &Key) -> Result<(), AllocError>
    ensures { OnOk result (out.new.items ≡ out.old.items ++ behind (word.now ∷ key.now ∷ [])) }
{
    add_field(out, word)?;
    add_field(out, key.as_slice())
}

// A value and a moment, each behind a space.
pub fn add_until(out: &mut Vec<u8>, value: &Bytes, expiry: u64) -> Result<(), AllocError>
    ensures { OnOk result (out.new.items ≡ out.old.items ++ behind (value_text value.now ∷ decimal expiry ∷ [])) }
{
    add_value_field(out, value)?;
    add_number_field(out, expiry)
}

// A word, a key, a value and a moment, each behind a space.
pub fn add_item(
    out: &mut Vec<u8>,
    word: &[u8],
    key: &Key,
    value: &Bytes,
    expiry: u64,
) -> Result<(), AllocError>
    ensures { OnOk result (out.new.items ≡ out.old.items ++ behind (word.now ∷ key.now ∷ value_text value.now ∷ decimal expiry ∷ [])) }
{
    add_keyed(out, word, key)?;
    add_until(out, value, expiry)
}

// What a call asks for.
pub fn add_op(out: &mut Vec<u8>, op: &Op) -> Result<(), AllocError>
    ensures { OnOk result (out.new.items ≡ out.old.items ++ behind (op_fields (op_of op.now))) }
{
    match op {
        Op::Insert(key, value, expiry) => add_item(out, b"insert", key, value, *expiry),
        Op::Add(key, value, expiry) => add_item(out, b"add", key, value, *expiry),
        Op::Find(key) => add_keyed(out, b"find", key),
        Op::Remove(key) => add_keyed(out, b"remove", key),
    }
}

// A value that was found.
pub fn add_hit(out: &mut Vec<u8>, value: &Bytes) -> Result<(), AllocError>
    ensures { OnOk result (out.new.items ≡ out.old.items ++ behind (codes "hit" ∷ value_text value.now ∷ [])) }
{
    add_field(out, b"hit")?;
    add_value_field(out, value)
}

// What a call is answered.
pub fn add_reply(out: &mut Vec<u8>, reply: &Reply) -> Result<(), AllocError>
    ensures { OnOk result (out.new.items ≡ out.old.items ++ behind (reply_fields (reply_of reply.now))) }
{
    match reply {
        Reply::Stored => add_field(out, b"stored"),
        Reply::Exists => add_field(out, b"exists"),
        Reply::Hit(value) => add_hit(out, value),
        Reply::Miss => add_field(out, b"miss"),
        Reply::FoundInMemory => add_field(out, b"found"),
        Reply::NotInMemory => add_field(out, b"absent"),
    }
}

// A kept hash, and the key that is left out.
pub fn add_hash(out: &mut Vec<u8>, kept: u64, but: &Option<Key>) -> Result<(), AllocError>
    ensures { OnOk result (out.new.items ≡ out.old.items ++ behind (codes "hash" ∷ decimal kept ∷ but_fields but.now [])) }
{
    add_numbered(out, b"hash", kept)?;
    match but {
        Some(key) => add_keyed(out, b"but", key),
        None => Ok(()),
    }
}

// What is forgotten.
pub fn add_scope(out: &mut Vec<u8>, scope: &Scope) -> Result<(), AllocError>
    ensures { OnOk result (out.new.items ≡ out.old.items ++ behind (scope_fields (scope_of scope.now) [])) }
{
    match scope {
        Scope::Key(key) => add_keyed(out, b"key", key),
        Scope::Bucket(bucket) => add_numbered(out, b"bucket", u64::from(*bucket)),
        Scope::Hash { kept, but } => add_hash(out, *kept, but),
    }
}

// Why an evicted item isn't kept elsewhere.
pub fn add_why(out: &mut Vec<u8>, why: Why) -> Result<(), AllocError>
    ensures { OnOk result (out.new.items ≡ out.old.items ++ behind (codes "evicted" ∷ why_word why ∷ [])) }
{
    add_field(out, b"evicted")?;
    match why {
        Why::NoFlash => add_field(out, b"noflash"),
        Why::Tombstone => add_field(out, b"tombstone"),
        Why::NotAdmitted => add_field(out, b"notadmitted"),
        Why::TooLarge => add_field(out, b"toolarge"),
        Why::QueueFull => add_field(out, b"queuefull"),
    }
}

// Two numbers, each behind a space.
pub fn add_two(out: &mut Vec<u8>, first: u64, second: u64) -> Result<(), AllocError>
    ensures { OnOk result (out.new.items ≡ out.old.items ++ behind (decimal first ∷ decimal second ∷ [])) }
{
    add_number_field(out, first)?;
    add_number_field(out, second)
}

// Why an item was evicted, from which pool, and for how many bytes.
pub fn add_evicted(out: &mut Vec<u8>, pool: u8, want: u64, why: Why) -> Result<(), AllocError>
    ensures { OnOk result (out.new.items ≡ out.old.items ++ behind (codes "evicted" ∷ why_word why ∷ decimal pool ∷ decimal want ∷ [])) }
{
    add_why(out, why)?;
    add_two(out, u64::from(pool), want)
}

// Why something is forgotten.
pub fn add_cause(out: &mut Vec<u8>, cause: &Cause) -> Result<(), AllocError>
    ensures { OnOk result (out.new.items ≡ out.old.items ++ behind (cause_fields (cause_of cause.now))) }
{
    match cause {
        Cause::Evicted { pool, want, why } => add_evicted(out, *pool, *want, *why),
        Cause::BucketFull => add_field(out, b"bucketfull"),
        Cause::Reclaimed(region) => add_numbered(out, b"reclaimed", u64::from(*region)),
        Cause::NoCleanRegion => add_field(out, b"nocleanregion"),
        Cause::Collision(by) => add_keyed(out, b"collision", by),
        Cause::Expired => add_field(out, b"expired"),
        Cause::Fault => add_field(out, b"fault"),
    }
}
