// Items of memory, and what waits for flash.
ghost use Rattle.std.specs.Prelude.{◌≡◌, ◌≤◌, ◌++◌, length, option_map, IfOk, OnOk};
ghost use Rattle.hc_types.specs.FlashEntry.{entry_of};
ghost use Rattle.hc_engines.specs.large.Entries.{entry_bytes as bytes_of};
ghost use Rattle.hc_image_text.specs.Items.{item_of, item_bytes, item_in as item_in_seen, clean_in, marked_item, key_in as key_in_seen};

use crate::numbers::put_number;
use byteorder::{BigEndian, ByteOrder};
use bytes::Bytes;
use hc_region::{entry_bytes, entry_in};
use hc_types::{Entry, Key};
use std::alloc::{AllocError, Allocator, Global};

/// An item of memory that is kept.
#[derive(Drop)]
pub struct KeptItem<A: Allocator = Global> {
    /// The number of its charge.
    pub number: u64,
    /// Whether a copy of it stands on flash.
    pub clean: bool,
    pub entry: Entry<A>,
}

/// A put that waits goes behind the bytes, as the bytes of its entry: `hc_region`'s `entry_in` reads them. Its value has at most
/// 1,048,576 bytes. Refused only when out of memory.
pub fn put_entry<A: Allocator + Clone>(
    alloc: A,
    out: &mut Vec<u8, A>,
    entry: &Entry<A>,
) -> Result<(), AllocError>
    requires { length entry.now.value ≤ 1048576 }
    ensures { OnOk result (out.new.items ≡ out.old.items ++ bytes_of (entry_of entry.now)) }
{
    let bytes = entry_bytes(alloc, entry)?;
    out.extend_from_slice(bytes.as_slice())
}

/// An item goes behind the bytes. Its value has at most 1,048,576 bytes. Refused only when out of memory.
pub fn put_item<A: Allocator + Clone>(
    alloc: A,
    out: &mut Vec<u8, A>,
    item: &KeptItem<A>,
) -> Result<(), AllocError>
    requires { length item.now.entry.value ≤ 1048576 }
    ensures { OnOk result (out.new.items ≡ out.old.items ++ item_bytes (item_of item.now)) }
{
    put_number(out, item.number)?;
    out.push(u8::from(item.clean))?;
    put_entry(alloc, out, &item.entry)
}

fn clean_in(byte: u8) -> Option<bool>
    ensures { result ≡ clean_in byte }
{
    match byte {
        1 => Some(true),
        0 => Some(false),
        _ => None,
    }
}

/// The item that these bytes are. Its value, and a long key, share the bytes, as those that `hc_region`'s `entry_in` answers. None
/// where they are none; refused only when out of memory.
pub fn item_in<A: Allocator>(mut bytes: Bytes<A>) -> Result<Option<KeptItem<A>>, AllocError>
    ensures { IfOk result (λ item. option_map item_of item ≡ item_in_seen bytes) }
{
    if bytes.len() < 9 {
        return Ok(None);
    }
    let number = BigEndian::read_u64(&bytes.as_slice()[..8]);
    let Some(clean) = clean_in(bytes.as_slice()[8]) else {
        return Ok(None);
    };
    bytes.advance(9);
    match entry_in(bytes)? {
        Some(entry) => Ok(Some(KeptItem {
            number,
            clean,
            entry,
        })),
        None => Ok(None),
    }
}

/// A tombstone goes behind the bytes, which is its key. Refused only when out of memory.
pub fn put_key<A: Allocator + Clone>(out: &mut Vec<u8, A>, key: &Key<A>) -> Result<(), AllocError>
    ensures { OnOk result (out.new.items ≡ out.old.items ++ key.now) }
{
    out.extend_from_slice(key.as_slice())
}

/// The key that these bytes are, which it shares where they are more than 46. None where they are none, 1 to 255 being one.
#[must_use]
pub fn key_in<A: Allocator>(bytes: Bytes<A>) -> Option<Key<A>>
    ensures { result ≡ key_in_seen bytes }
{
    Key::from_bytes(bytes).ok()
}
