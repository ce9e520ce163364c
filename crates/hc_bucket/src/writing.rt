// Entries written as a page, one behind the other.
ghost use Rattle.std.specs.Prelude.{◌≡◌, ◌-◌, ◌<◌, ◌≤◌, ◌^◌, ◌++◌, ◌∷◌, [], ℕ, List, length, drop, replicate, OnOk, IfOk};
ghost use Rattle.std.specs.Int.{w16, to_be_bytes};
ghost use Rattle.hc_types.specs.FlashEntry.{FlashEntry, entry_of};
ghost use Rattle.hc_bucket.specs.Page.{head_bytes, entry_bytes, page_bytes, IsBegun, IsSmall, Fits};

use crate::fields::HEAD;
use byteorder::{BigEndian, ByteOrder};
use hc_types::Entry;
use std::alloc::{AllocError, Allocator};

/// How many zeros are written at a time.
const FILL: usize = 512;

/// How many bytes of a page this entry uses.
pub fn entry_len<A: Allocator>(entry: &Entry<A>) -> usize
    ensures value { result ≡ length (entry_bytes (entry_of entry.now)) }
    ensures small { result < 2 ^ 16 → IsSmall (entry_of entry.now) }
{
    let _pool = entry.pool;
    let _expiry = entry.expiry;
    HEAD + entry.key.len() + entry.value.len()
}

/// What stands before the key of this entry.
fn head_of<A: Allocator>(entry: &Entry<A>) -> [u8; HEAD]
    requires { length entry.now.value < 2 ^ 16 }
    ensures { result ≡ head_bytes (entry_of entry.now) }
{
    let mut head = [0; HEAD];
    head[0] = entry.key.len() as u8;
    head[1] = entry.pool;
    BigEndian::write_u16(&mut head[2..], entry.value.len() as u16);
    BigEndian::write_u64(&mut head[4..], entry.expiry);
    head
}

/// A page of `page_size` bytes is begun: its entries are put behind these 4 bytes, which `end_page` fills. Room is taken
/// for all of it.
pub fn begin_page<A: Allocator + Clone>(
    alloc: A,
    page_size: usize,
) -> Result<Vec<u8, A>, AllocError>
    ensures { IfOk result (λ page. IsBegun [] page.items) }
{
    let mut page = Vec::with_capacity(alloc, page_size)?;
    page.resize(4, 0)?;
    Ok(page)
}

/// The entry is put behind those of a page.
pub fn put_entry<A: Allocator + Clone>(
    page: &mut Vec<u8, A>,
    entry: &Entry<A>,
) -> Result<(), AllocError>
    requires { length entry.now.value < 2 ^ 16 }
    ensures { OnOk result (page.new.items ≡ page.old.items ++ entry_bytes (entry_of entry.now)) }
{
    page.extend_from_slice(&head_of(entry))?;
    page.extend_from_slice(entry.key.as_slice())?;
    page.extend_from_slice(entry.value.as_slice())?;
    Ok(())
}

/// Writes the two numbers at a page's front.
fn put_front(page: &mut [u8], count: u16, used: u16)
    requires { 4 ≤ length page.old }
    ensures { page.new ≡ (to_be_bytes w16 count ++ to_be_bytes w16 used) ++ drop 4 page.old }
{
    BigEndian::write_u16(page, count);
    BigEndian::write_u16(&mut page[2..], used);
}

/// Zeros are put behind the bytes until there are `len`: few at a time, since a large `memset` goes byte by byte.
fn fill_up<A: Allocator>(page: &mut Vec<u8, A>, len: usize) -> Result<(), AllocError>
    requires { length page.old.items ≤ len }
    ensures { OnOk result (page.new.items ≡ page.old.items ++ replicate (len - length page.old.items) 0) }
{
    while page.len() < len {
        let more = (len - page.len()).min(FILL);
        page.resize(page.len() + more, 0)?;
    }
    Ok(())
}

/// The bytes of the page that was begun, with so many entries: its front is filled, and the rest of it with zeros.
pub fn end_page<A: Allocator + Clone>(
    page: Vec<u8, A>,
    count: usize,
    page_size: usize,
) -> Result<Vec<u8, A>, AllocError>
    requires { (es : List FlashEntry) × IsBegun es page.items × (count ≡ length es) × Fits page_size es }
    ensures { (es : List FlashEntry) → IsBegun es page.items → count ≡ length es → Fits page_size es → IfOk result (λ whole. whole.items ≡ page_bytes page_size es) }
{
    let mut page = page;
    let used = page.len();
    put_front(&mut page, count as u16, used as u16);
    fill_up(&mut page, page_size)?;
    Ok(page)
}
