// What is forgotten and why, read from a line.
ghost use Rattle.std.specs.Prelude.{◌≡◌, ◌^◌, option_map};
ghost use Rattle.hc_types.specs.Loss as loss;
ghost use Rattle.hc_log_text.specs.Left.{left};
ghost use Rattle.hc_log_text.specs.Reading as spec;
ghost use Rattle.hc_log_text.specs.Reading.{but_at, evicted_of, cause_of, number_alone};
ghost use Rattle.hc_log_text.specs.Seen.{scope_seen, cause_seen};

use crate::alone::{is_empty, key_alone, long_alone, word_alone};
use crate::fields::{Rest, byte_at, field_at, key_at, long_at, why_at, word_at};
use crate::line::{CauseText, ScopeText};

fn key_scope(rest: Rest<'_>) -> Option<(ScopeText<'_>, Rest<'_>)>
    ensures { option_map (λ p. (scope_seen p.0, left p.1)) result ≡ spec.key_scope (left rest.entry) }
{
    let (key, rest) = key_at(rest)?;
    Some((ScopeText::Key(key), rest))
}

fn bucket_scope(rest: Rest<'_>) -> Option<(ScopeText<'_>, Rest<'_>)>
    ensures { option_map (λ p. (scope_seen p.0, left p.1)) result ≡ spec.bucket_scope (left rest.entry) }
{
    let (bucket, rest) = word_at(rest)?;
    Some((ScopeText::Bucket(bucket), rest))
}

// The scope of this kept hash, of which a key may be left out.
fn but(kept: u64, rest: Rest<'_>) -> Option<(ScopeText<'_>, Rest<'_>)>
    ensures { option_map (λ p. (scope_seen p.0, left p.1)) result ≡ but_at kept (left rest.entry) }
{
    let (word, behind) = field_at(rest)?;
    if word != b"but".as_slice() {
        return Some((ScopeText::Hash(kept), rest));
    }
    let (key, behind) = key_at(behind)?;
    Some((ScopeText::HashBut(kept, key), behind))
}

fn hash_scope(rest: Rest<'_>) -> Option<(ScopeText<'_>, Rest<'_>)>
    ensures { option_map (λ p. (scope_seen p.0, left p.1)) result ≡ spec.hash_scope (left rest.entry) }
{
    let (kept, rest) = long_at(rest)?;
    but(kept, rest)
}

// What is forgotten, and the fields behind it.
pub fn scope_at(rest: Rest<'_>) -> Option<(ScopeText<'_>, Rest<'_>)>
    ensures { option_map (λ p. (scope_seen p.0, left p.1)) result ≡ spec.scope_at (left rest.entry) }
{
    let (word, rest) = field_at(rest)?;
    if word == b"key".as_slice() {
        return key_scope(rest);
    }
    if word == b"bucket".as_slice() {
        return bucket_scope(rest);
    }
    if word == b"hash".as_slice() {
        return hash_scope(rest);
    }
    None
}

fn evicted(rest: Rest<'_>) -> Option<CauseText<'_>>
    ensures { option_map cause_seen result ≡ evicted_of (left rest.entry) }
{
    let (why, rest) = why_at(rest)?;
    let (pool, rest) = byte_at(rest)?;
    let want = long_alone(rest)?;
    Some(CauseText::Evicted(pool, want, why))
}

fn reclaimed(rest: Rest<'_>) -> Option<CauseText<'_>>
    ensures { option_map cause_seen result ≡ option_map loss.Reclaimed (number_alone (2 ^ 32) (left rest.entry)) }
{
    let region = word_alone(rest)?;
    Some(CauseText::Reclaimed(region))
}

fn collision(rest: Rest<'_>) -> Option<CauseText<'_>>
    ensures { option_map cause_seen result ≡ option_map loss.Collision (spec.key_alone (left rest.entry)) }
{
    let by = key_alone(rest)?;
    Some(CauseText::Collision(by))
}

// A cause that is one word.
fn plain_cause<'a>(word: &[u8]) -> Option<CauseText<'a>>
    ensures { option_map cause_seen result ≡ spec.plain_cause word.now }
{
    if word == b"bucketfull".as_slice() {
        return Some(CauseText::BucketFull);
    }
    if word == b"nocleanregion".as_slice() {
        return Some(CauseText::NoCleanRegion);
    }
    if word == b"expired".as_slice() {
        return Some(CauseText::Expired);
    }
    if word == b"fault".as_slice() {
        return Some(CauseText::Fault);
    }
    None
}

// The same, behind which nothing is left.
fn plain_alone<'a>(word: &[u8], rest: Rest<'a>) -> Option<CauseText<'a>>
    ensures { option_map cause_seen result ≡ spec.plain_alone word.now (left rest.entry) }
{
    let cause = plain_cause(word)?;
    if is_empty(rest) { Some(cause) } else { None }
}

// Why it is forgotten.
pub fn cause_in(rest: Rest<'_>) -> Option<CauseText<'_>>
    ensures { option_map cause_seen result ≡ cause_of (left rest.entry) }
{
    let (word, rest) = field_at(rest)?;
    if word == b"evicted".as_slice() {
        return evicted(rest);
    }
    if word == b"reclaimed".as_slice() {
        return reclaimed(rest);
    }
    if word == b"collision".as_slice() {
        return collision(rest);
    }
    plain_alone(word, rest)
}
