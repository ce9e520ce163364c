// Regions at rest, and the lists of their numbers.
ghost use Rattle.std.specs.Prelude.{◌≡◌, ◌<◌, ◌≤◌, ◌*◌, ◌^◌, ◌++◌, length, flat_map, option_map, IfOk, OnOk};
ghost use Rattle.hc_image_text.specs.Regions.{appended_bytes, appended_at, region_bytes, region_in as region_in_seen, region_of, rest_byte, rest_in as rest_in_seen, rows, number_at, numbers_bytes, numbers_in as numbers_in_seen, open_bytes, open_in as open_in_seen};

use crate::numbers::{put_number, put_u32};
use byteorder::{BigEndian, ByteOrder};
use bytes::BytesMut;
use hc_region::{Appended, AtRest, Region};
use std::alloc::{AllocError, Allocator};
use std::collections::VecDeque;

/// How many bytes an entry that was appended has in a region's record.
const APPENDED: usize = 12;

/// Where a region stands, as a byte.
fn rest_byte(rest: AtRest) -> u8
    ensures { result ≡ rest_byte rest }
{
    match rest {
        AtRest::Clean => 0,
        AtRest::Open => 1,
        AtRest::Sealed => 2,
        AtRest::OnFlash => 3,
    }
}

fn rest_in(byte: u8) -> Option<AtRest>
    ensures { result ≡ rest_in_seen byte }
{
    match byte {
        0 => Some(AtRest::Clean),
        1 => Some(AtRest::Open),
        2 => Some(AtRest::Sealed),
        3 => Some(AtRest::OnFlash),
        _ => None,
    }
}

/// The hash of an entry that was appended, and its first byte, go behind the bytes.
fn put_entry_place<A: Allocator + Clone>(
    out: &mut Vec<u8, A>,
    x: Appended,
) -> Result<(), AllocError>
    ensures { OnOk result (out.new.items ≡ out.old.items ++ appended_bytes x) }
{
    put_number(out, x.hash())?;
    put_u32(out, x.offset())
}

/// What was appended goes behind the bytes.
fn put_appended<A: Allocator + Clone>(
    out: &mut Vec<u8, A>,
    appended: &[Appended],
) -> Result<(), AllocError>
    ensures { OnOk result (out.new.items ≡ out.old.items ++ flat_map appended_bytes appended.now) }
{
    for x in appended {
        put_entry_place(out, *x)?;
    }
    Ok(())
}

/// A region that rests there goes behind the bytes: `rest` is what its `rest` answers. Fewer than 2^32 entries were appended to
/// it. Refused only when out of memory.
pub fn put_region<A: Allocator + Clone + Copy>(
    out: &mut Vec<u8, A>,
    rest: AtRest,
    region: &Region<A>,
) -> Result<(), AllocError>
    requires { length region.now.appended < 2 ^ 32 }
    ensures { OnOk result (out.new.items ≡ out.old.items ++ region_bytes rest region.now) }
{
    out.push(rest_byte(rest))?;
    put_number(out, region.written())?;
    put_u32(out, region.appended().len() as u32)?;
    put_appended(out, region.appended())?;
    out.extend_from_slice(region.buffer())
}

fn appended_at(bytes: &[u8]) -> Appended
    requires { 12 ≤ length bytes.now }
    ensures { result ≡ appended_at bytes.now }
{
    Appended::new(
        BigEndian::read_u64(&bytes[..8]),
        BigEndian::read_u32(&bytes[8..12]),
    )
}

/// The entries that were appended, so many, which stand in front of the bytes.
fn appended_in<A: Allocator + Clone>(
    alloc: A,
    bytes: &[u8],
    count: usize,
) -> Result<Vec<Appended, A>, AllocError>
    requires { count * 12 ≤ length bytes.now }
    ensures { IfOk result (λ appended. appended.items ≡ rows 12 appended_at count bytes.now) }
{
    let mut appended = Vec::with_capacity(alloc, count)?;
    for i in 0..count {
        appended.push(appended_at(&bytes[i * APPENDED..]))?;
    }
    Ok(appended)
}

fn region_of<A: Allocator + Clone + Copy>(
    alloc: A,
    rest: AtRest,
    written: u64,
    count: u32,
    bytes: &[u8],
) -> Result<Option<Region<A>>, AllocError>
    ensures { IfOk result (λ region. region ≡ region_of (Some rest) written count bytes.now) }
{
    let count = count as usize;
    if bytes.len() < count * APPENDED {
        return Ok(None);
    }
    let appended = appended_in(alloc, bytes, count)?;
    let mut buffer = BytesMut::new(alloc);
    buffer.extend_from_slice(&bytes[count * APPENDED..])?;
    Ok(Some(Region::resting(rest, written, buffer, appended)))
}

/// The region that these bytes are. Whether it is one of an engine's is checked where the engine is made of it. None where they
/// are none; refused only when out of memory.
pub fn region_in<A: Allocator + Clone + Copy>(
    alloc: A,
    bytes: &[u8],
) -> Result<Option<Region<A>>, AllocError>
    ensures { IfOk result (λ region. region ≡ region_in_seen bytes.now) }
{
    match bytes {
        [] => Ok(None),
        [first, behind @ ..] => {
            if behind.len() < 12 {
                return Ok(None);
            }
            let Some(rest) = rest_in(*first) else {
                return Ok(None);
            };
            let written = BigEndian::read_u64(&behind[..8]);
            let count = BigEndian::read_u32(&behind[8..12]);
            region_of(alloc, rest, written, count, &behind[12..])
        }
    }
}

/// The numbers of regions go behind the bytes: those that wait for their flush, or those on flash. Refused only when out of
/// memory.
pub fn put_numbers<A: Allocator + Clone>(
    out: &mut Vec<u8, A>,
    numbers: &VecDeque<u32, A>,
) -> Result<(), AllocError>
    ensures { OnOk result (out.new.items ≡ out.old.items ++ numbers_bytes numbers.now.items) }
{
    for number in numbers {
        put_u32(out, *number)?;
    }
    Ok(())
}

/// The number in front of the bytes.
fn number_at(bytes: &[u8]) -> u32
    requires { 4 ≤ length bytes.now }
    ensures { result ≡ number_at bytes.now }
{
    BigEndian::read_u32(&bytes[..4])
}

/// The numbers of regions that these bytes are. None where they are none; refused only when out of memory.
pub fn numbers_in<A: Allocator + Clone>(
    alloc: A,
    bytes: &[u8],
) -> Result<Option<VecDeque<u32, A>>, AllocError>
    ensures { IfOk result (λ numbers. option_map (λ n. n.items) numbers ≡ numbers_in_seen bytes.now) }
{
    if bytes.len() % 4 != 0 {
        return Ok(None);
    }
    let count = bytes.len() / 4;
    let mut numbers = VecDeque::with_capacity(alloc, count)?;
    for i in 0..count {
        numbers.push_back(number_at(&bytes[i * 4..]))?;
    }
    Ok(Some(numbers))
}

/// The number of the open region goes behind the bytes, where there is one. Refused only when out of memory.
pub fn put_open<A: Allocator + Clone>(
    out: &mut Vec<u8, A>,
    region: Option<u32>,
) -> Result<(), AllocError>
    ensures { OnOk result (out.new.items ≡ out.old.items ++ open_bytes region) }
{
    match region {
        Some(region) => put_u32(out, region),
        None => Ok(()),
    }
}

/// The number of the open region that these bytes are, which may be none. None at all where they aren't that.
#[must_use]
pub fn open_in(bytes: &[u8]) -> Option<Option<u32>>
    ensures { result ≡ open_in_seen bytes.now }
{
    match bytes.len() {
        0 => Some(None),
        4 => Some(Some(BigEndian::read_u32(bytes))),
        _ => None,
    }
}
