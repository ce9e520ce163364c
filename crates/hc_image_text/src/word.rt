// The word of a bucket, where it has one.
ghost use Rattle.std.specs.Prelude.{◌≡◌, ◌++◌, OnOk};
ghost use Rattle.hc_image_text.specs.Words.{word_bytes, word_in as word_in_seen, word_of as word_of_seen};

use crate::numbers::put_number;
use byteorder::{BigEndian, ByteOrder};
use std::alloc::{AllocError, Allocator};

/// How many bytes a bucket's word has.
pub const WORD: usize = 9;

/// The word of a bucket goes behind the bytes; none for a fresh one. Refused only when out of memory.
pub fn put_word<A: Allocator + Clone>(
    out: &mut Vec<u8, A>,
    word: Option<u64>,
) -> Result<(), AllocError>
    ensures { OnOk result (out.new.items ≡ out.old.items ++ word_bytes word) }
{
    match word {
        Some(word) => {
            out.push(1)?;
            put_number(out, word)
        }
        None => {
            out.push(0)?;
            put_number(out, 0)
        }
    }
}

fn word_of(there: u8, number: u64) -> Option<Option<u64>>
    ensures { result ≡ word_of_seen there number }
{
    match there {
        1 => Some(Some(number)),
        0 if number == 0 => Some(None),
        _ => None,
    }
}

/// The word of a bucket that these bytes are, which may be none. None at all where they aren't a bucket's word.
#[must_use]
pub fn word_in(bytes: &[u8]) -> Option<Option<u64>>
    ensures { result ≡ word_in_seen bytes.now }
{
    match bytes {
        [] => None,
        [there, number @ ..] => {
            if number.len() != 8 {
                return None;
            }
            word_of(*there, BigEndian::read_u64(number))
        }
    }
}
