// An entry where it stands on its page.
ghost use Rattle.std.specs.Prelude.{◌≡◌, IfSome, option_map};
ghost use Rattle.hc_bucket.specs.Page.{entry_bytes};
ghost use Rattle.hc_bucket.specs.Reading.{entry_at};
ghost use Rattle.hc_bucket.specs.Placed.{entry_placed};

use crate::fields::{HEAD, head_in, part_in};

/// An entry where it stands on its page, of which nothing is copied.
#[derive(Clone, Copy)]
pub struct Placed<'a> {
    pub key: &'a [u8],
    pub value: &'a [u8],
    pub pool: u8,
    /// The second at which it expires. 0: never.
    pub expiry: u64,
    /// All that it takes of the page, the key and the value among them.
    pub bytes: &'a [u8],
}

/// The entry at the front, and the bytes behind it. None where these bytes don't begin with an entry.
#[inline(always)]
pub(crate) fn placed_in(bytes: &[u8]) -> Option<(Placed<'_>, &[u8])>
    ensures read { option_map (λ read. (entry_placed read.0, read.1.now)) result ≡ entry_at bytes.now }
    ensures spelled { IfSome result (λ read. read.0.bytes.now ≡ entry_bytes (entry_placed read.0)) }
{
    let Some((head, rest)) = head_in(bytes) else {
        return None;
    };
    let Some((key, rest)) = part_in(rest, head.key_len as usize) else {
        return None;
    };
    let Some((value, rest)) = part_in(rest, head.value_len as usize) else {
        return None;
    };
    if key.is_empty() {
        return None;
    }
    let len = HEAD + key.len() + value.len();
    let placed = Placed {
        key,
        value,
        pool: head.pool,
        expiry: head.expiry,
        bytes: &bytes[..len],
    };
    Some((placed, rest))
}
