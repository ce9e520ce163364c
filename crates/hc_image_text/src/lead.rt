// Where a hash leads.
ghost use Rattle.std.specs.Prelude.{◌≡◌, ◌++◌, option_map, OnOk};
ghost use Rattle.hc_image_text.specs.Leads.{lead_bytes, lead_of, lead_in as lead_in_seen};

use crate::numbers::{put_number, put_u32};
use byteorder::{BigEndian, ByteOrder};
use hc_region::Place;
use std::alloc::{AllocError, Allocator};

/// How many bytes a lead has.
pub const LEAD: usize = 20;

/// Where a hash leads goes behind the bytes. Refused only when out of memory.
pub fn put_lead<A: Allocator + Clone>(
    out: &mut Vec<u8, A>,
    hash: u64,
    place: Place,
) -> Result<(), AllocError>
    ensures { OnOk result (out.new.items ≡ out.old.items ++ lead_bytes (record { hash = hash; place = place })) }
{
    put_number(out, hash)?;
    put_u32(out, place.region())?;
    put_u32(out, place.offset())?;
    put_u32(out, place.len())
}

/// Where a hash leads, as these bytes say: the hash, and the place. None where they are none.
#[must_use]
pub fn lead_in(bytes: &[u8]) -> Option<(u64, Place)>
    ensures { option_map lead_of result ≡ lead_in_seen bytes.now }
{
    if bytes.len() != LEAD {
        return None;
    }
    let region = BigEndian::read_u32(&bytes[8..12]);
    let offset = BigEndian::read_u32(&bytes[12..16]);
    let len = BigEndian::read_u32(&bytes[16..20]);
    Some((
        BigEndian::read_u64(&bytes[..8]),
        Place::new(region, offset, len),
    ))
}
