// Whether bytes are the entries of a page, and nothing else.
ghost use Rattle.std.specs.Prelude.{◌≡◌, ◌==◌, ◌≤◌, ◌<◌, ◌∷◌, [], ℕ, List, Some, length, is_some, nat_eq};
ghost use Rattle.std.specs.List.{list_any, list_all};
ghost use Rattle.std.specs.Cmp.Lexicographic.{pointwise};
ghost use Rattle.hc_types.specs.FlashEntry.{FlashEntry};
ghost use Rattle.hc_bucket.specs.Reading.{entries_at, whole_at};
ghost use Rattle.hc_bucket.specs.Whole.{mark_at};

use crate::placed::placed_in;
use hc_types::digest_of;

/// Whether all bytes are zero.
pub(crate) fn is_zero(bytes: &[u8]) -> bool
    ensures { result ≡ list_all (λ byte. byte == 0) bytes.now }
{
    let mut seen = 0;
    for byte in bytes {
        seen |= *byte;
    }
    seen == 0
}

/// The one of 64 bits that a key sets. Keys that set different ones differ.
#[inline(always)]
fn mark_of(key: &[u8]) -> u64
    ensures { result ≡ mark_at key.now }
{
    1 << (digest_of(key) % 64)
}

/// Whether these bytes are so many entries, each of a key of its own, and nothing else. A key is compared with those
/// before it only where one of them has set its bit, which few do that differ from it.
pub(crate) fn is_whole(count: u16, bytes: &[u8]) -> bool
    ensures { result ≡ is_some (whole_at count bytes.now []) }
{
    let mut rest = bytes;
    let mut marks = 0;
    for i in 0..count {
        let Some((placed, behind)) = placed_in(rest) else {
            return false;
        };
        let mark = mark_of(placed.key);
        if marks & mark == mark && has_key(i, bytes, placed.key) {
            return false;
        }
        marks |= mark;
        rest = behind;
    }
    rest.is_empty()
}

/// Whether one of the first entries, so many, has this key.
fn has_key(count: u16, bytes: &[u8], key: &[u8]) -> bool
    ensures { (front : List FlashEntry) (behind : List ℕ) → entries_at count bytes.now ≡ Some (front, behind) → result ≡ list_any (λ other. pointwise nat_eq other.key key.now) front }
{
    let mut rest = bytes;
    for _ in 0..count {
        let Some((placed, behind)) = placed_in(rest) else {
            return false;
        };
        if placed.key == key {
            return true;
        }
        rest = behind;
    }
    false
}
