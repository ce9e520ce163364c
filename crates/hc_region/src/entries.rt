// The bytes of an entry. Numbers are big-endian.
ghost use Rattle.std.specs.Prelude.{◌≡◌, ◌≤◌, ◌++◌, length, OnOk, IfOk};
ghost use Rattle.std.specs.Int.{w32, w64, to_be_bytes};
ghost use Rattle.hc_types.specs.FlashEntry.{entry_of};
ghost use Rattle.hc_engines.specs.large.Entries.{entry_bytes as bytes_of};

use byteorder::{BigEndian, ByteOrder};
use hc_types::Entry;
use std::alloc::{AllocError, Allocator};

/// How many bytes stand before the key of an entry in a region.
pub const HEAD: usize = 14;

fn put_u32<A: Allocator + Clone>(out: &mut Vec<u8, A>, number: u32) -> Result<(), AllocError>
    ensures { OnOk result (out.new.items ≡ out.old.items ++ to_be_bytes w32 number) }
{
    let mut bytes = [0; 4];
    BigEndian::write_u32(&mut bytes, number);
    out.extend_from_slice(&bytes)
}

fn put_u64<A: Allocator + Clone>(out: &mut Vec<u8, A>, number: u64) -> Result<(), AllocError>
    ensures { OnOk result (out.new.items ≡ out.old.items ++ to_be_bytes w64 number) }
{
    let mut bytes = [0; 8];
    BigEndian::write_u64(&mut bytes, number);
    out.extend_from_slice(&bytes)
}

/// The bytes of an entry in a region: the key's length in a byte, the pool in one, the value's length in four, the expiry
/// in eight, the key and the value. The value has at most 1,048,576 bytes. Refused only when out of memory.
pub fn entry_bytes<A: Allocator + Clone>(
    alloc: A,
    entry: &Entry<A>,
) -> Result<Vec<u8, A>, AllocError>
    requires { length entry.now.value ≤ 1048576 }
    ensures { IfOk result (λ bytes. bytes.items ≡ bytes_of (entry_of entry.now)) }
{
    let mut out = Vec::with_capacity(alloc, HEAD + entry.key.len() + entry.value.len())?;
    out.push(entry.key.len() as u8)?;
    out.push(entry.pool)?;
    put_u32(&mut out, entry.value.len() as u32)?;
    put_u64(&mut out, entry.expiry)?;
    out.extend_from_slice(entry.key.as_slice())?;
    out.extend_from_slice(entry.value.as_slice())?;
    Ok(out)
}
