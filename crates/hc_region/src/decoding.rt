// The entry that some bytes are. Numbers are big-endian.
ghost use Rattle.std.specs.Prelude.{◌≡◌, ◌≤◌, drop, length, option_map, IfOk, IsSome};
ghost use Rattle.hc_types.specs.FlashEntry.{entry_of};
ghost use Rattle.hc_engines.specs.large.Entries.{entry_in as entry_in_seen, made_of as made_of_seen};
ghost use Rattle.hc_region.specs.Decoding.{made_by};

use crate::entries::HEAD;
use byteorder::{BigEndian, ByteOrder};
use bytes::Bytes;
use hc_types::{Entry, Key, VALUE_MAX};
use std::alloc::{AllocError, Allocator};

fn key_of<A: Allocator>(bytes: Bytes<A>) -> Result<Key<A>, AllocError>
    requires { (1 ≤ length bytes) × (length bytes ≤ 255) }
    ensures { IfOk result (λ key. key ≡ bytes) }
{
    match Key::from_bytes(bytes) {
        Ok(key) => Ok(key),
        Err(_) => Err(AllocError),
    }
}

/// The entry of a key of this length, this pool, a value of this length, this expiry, and the bytes of both.
fn made_of<A: Allocator>(
    key: u8,
    pool: u8,
    value: u32,
    expiry: u64,
    mut body: Bytes<A>,
) -> Result<Option<Entry<A>>, AllocError>
    ensures { IfOk result (λ entry. option_map entry_of entry ≡ made_of_seen key pool value expiry body) }
{
    let at = usize::from(key);
    if key == 0 || u64::from(value) > VALUE_MAX || body.len() != at + value as usize {
        return Ok(None);
    }
    let key = key_of(body.split_to(at)?)?;
    Ok(Some(Entry {
        key,
        value: body,
        pool,
        expiry,
    }))
}

/// The entry that these bytes are, all of them, or `None` where they are none. Its value, and a key of more than 46 bytes,
/// share the bytes, which stay in memory as long as one of them does. Refused only when out of memory.
pub fn entry_in<A: Allocator>(mut bytes: Bytes<A>) -> Result<Option<Entry<A>>, AllocError>
    ensures { IfOk result (λ entry. option_map entry_of entry ≡ entry_in_seen bytes) }
{
    let Some(head) = head_of(bytes.as_slice()) else {
        return Ok(None);
    };
    bytes.advance(HEAD);
    made_of(head.key, head.pool, head.value, head.expiry, bytes)
}

/// The front of an entry's bytes: its key's length, its pool, its value's length, its expiry.
#[derive(Clone, Copy)]
struct Head {
    key: u8,
    pool: u8,
    value: u32,
    expiry: u64,
}

/// The front of these bytes, where they are as many.
fn head_of(bytes: &[u8]) -> Option<Head>
    ensures value { entry_in_seen bytes.now ≡ made_by result (drop HEAD bytes.now) }
    ensures long { IsSome result → HEAD ≤ length bytes.now }
{
    match bytes {
        [] => None,
        [_] => None,
        [key, pool, rest @ ..] => {
            if rest.len() < 12 {
                return None;
            }
            Some(Head {
                key: *key,
                pool: *pool,
                value: BigEndian::read_u32(&rest[..4]),
                expiry: BigEndian::read_u64(&rest[4..12]),
            })
        }
    }
}
