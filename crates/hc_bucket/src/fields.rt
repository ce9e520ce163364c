// The fields of a page, each read at the front of the bytes that are left.
ghost use Rattle.std.specs.Prelude.{◌≡◌, option_map};
ghost use Rattle.std.specs.Int.{w16};
ghost use Rattle.hc_bucket.specs.Reading.{head_at, number_at, part_at};

use byteorder::{BigEndian, ByteOrder};

/// How many bytes stand before the key of an entry.
pub(crate) const HEAD: usize = 12;

/// What stands before the key of an entry.
#[derive(Clone, Copy)]
pub(crate) struct Head {
    pub(crate) key_len: u8,
    pub(crate) pool: u8,
    pub(crate) value_len: u16,
    pub(crate) expiry: u64,
}

/// The head of the entry at the front, and the bytes behind it.
#[inline(always)]
pub(crate) fn head_in(bytes: &[u8]) -> Option<(Head, &[u8])>
    ensures { option_map (λ read. (read.0, read.1.now)) result ≡ head_at bytes.now }
{
    if bytes.len() < HEAD {
        return None;
    }
    let head = Head {
        key_len: bytes[0],
        pool: bytes[1],
        value_len: BigEndian::read_u16(&bytes[2..]),
        expiry: BigEndian::read_u64(&bytes[4..]),
    };
    Some((head, &bytes[HEAD..]))
}

/// So many bytes at the front, and those behind them.
#[inline(always)]
pub(crate) fn part_in(bytes: &[u8], len: usize) -> Option<(&[u8], &[u8])>
    ensures { option_map (λ read. (read.0.now, read.1.now)) result ≡ part_at len bytes.now }
{
    if bytes.len() < len {
        return None;
    }
    Some(bytes.split_at(len))
}

/// The number at the front, and the bytes behind it.
#[inline(always)]
pub(crate) fn number_in(bytes: &[u8]) -> Option<(u16, &[u8])>
    ensures { option_map (λ read. (read.0, read.1.now)) result ≡ number_at w16 bytes.now }
{
    if bytes.len() < 2 {
        return None;
    }
    Some((BigEndian::read_u16(bytes), &bytes[2..]))
}
