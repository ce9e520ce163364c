// Numbers of an image, which are big-endian.
ghost use Rattle.std.specs.Prelude.{◌≡◌, ◌++◌, OnOk};
ghost use Rattle.std.specs.Int.{w32, w64, to_be_bytes};
ghost use Rattle.hc_image_text.specs.Numbers.{number_bytes, number_in as number_in_seen};

use byteorder::{BigEndian, ByteOrder};
use std::alloc::{AllocError, Allocator};

pub(crate) fn put_u32<A: Allocator + Clone>(
    out: &mut Vec<u8, A>,
    number: u32,
) -> Result<(), AllocError>
    ensures { OnOk result (out.new.items ≡ out.old.items ++ to_be_bytes w32 number) }
{
    let mut bytes = [0; 4];
    BigEndian::write_u32(&mut bytes, number);
    out.extend_from_slice(&bytes)
}

/// A number of 64 bits goes behind the bytes, in eight of them: the digest of a page, or the stamps' count. Refused only when
/// out of memory.
pub fn put_number<A: Allocator + Clone>(out: &mut Vec<u8, A>, number: u64) -> Result<(), AllocError>
    ensures { OnOk result (out.new.items ≡ out.old.items ++ number_bytes number) }
{
    let mut bytes = [0; 8];
    BigEndian::write_u64(&mut bytes, number);
    out.extend_from_slice(&bytes)
}

/// The number of 64 bits that these bytes are. None where they aren't eight.
#[must_use]
pub fn number_in(bytes: &[u8]) -> Option<u64>
    ensures { result ≡ number_in_seen bytes.now }
{
    if bytes.len() != 8 {
        return None;
    }
    Some(BigEndian::read_u64(bytes))
}
