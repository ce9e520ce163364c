// The bytes of a key: in place where they are few, and shared where they are many.
ghost use Rattle.std.specs.Prelude.{◌≡◌, ◌+◌, ◌≤◌, length, nat_eq, IsOk, IfOk};
ghost use Rattle.std.specs.Simd.Lanes.{chunk};
ghost use Rattle.std.specs.Cmp.Lexicographic.{pointwise, nat_list_eq_equiv};
ghost use Rattle.std.specs.Cmp.{partial_equiv_from_equiv};

use bytes::Bytes;
use std::alloc::{AllocError, Allocator, Global};
use std::marker::Model;
use std::simd::prelude::*;

/// The most bytes of a key that stand in the key itself: it and its copies take no memory. With their length and the enum's
/// mark they take 48 bytes, as a `Bytes` does with its mark, so that a key takes 56 with its digest.
pub const SHORT_KEY_MAX: usize = 46;

/// At most `SHORT_KEY_MAX` bytes in place, and 0 in the rest of the room. So two are compared by their whole rooms, with no
/// step that depends on their length.
#[derive(Drop)]
struct Short {
    len: u8,
    bytes: [u8; SHORT_KEY_MAX],
}

impl Model for Short {
    ghost use Rattle.std.specs.Prelude.{◌≡◌, ◌-◌, ◌≤◌, List, ℕ, take, drop, replicate};

    ghost Value = { List ℕ };

    ghost view = { λ short. take short.len short.bytes };

    ghost invariant = { λ short. (short.len ≤ 46) × (drop short.len short.bytes ≡ replicate (46 - short.len) 0) };
}

impl Short {
    #[inline(always)]
    fn copy_of(bytes: &[u8]) -> Short
        requires { length bytes.now ≤ 46 }
        ensures { result ≡ bytes.now }
    {
        let mut room = [0; SHORT_KEY_MAX];
        room[..bytes.len()].copy_from_slice(bytes);
        Short {
            len: bytes.len() as u8,
            bytes: room,
        }
    }

    fn copy(&self) -> Short
        ensures { result ≡ self.now }
    {
        Short {
            len: self.len,
            bytes: self.bytes,
        }
    }

    fn as_slice(&self) -> &[u8]
        ensures { result.now ≡ self.now }
    {
        &self.bytes[..usize::from(self.len)]
    }
}

impl PartialEq for Short {
    ghost eq = { pointwise nat_eq };

    ghost laws = { partial_equiv_from_equiv nat_list_eq_equiv };

    fn eq(&self, other: &Short) -> bool {
        self.len == other.len && are_equal(&self.bytes, &other.bytes)
    }
}

/// Whether two rooms hold the same: 16 bytes at a time, of which the last overlap those before. By `&` and not `&&`, so
/// that it is one test.
fn are_equal(a: &[u8; SHORT_KEY_MAX], b: &[u8; SHORT_KEY_MAX]) -> bool
    ensures { result ≡ pointwise nat_eq a.now b.now }
{
    are_equal_at(a, b, 0) & are_equal_at(a, b, 16) & are_equal_at(a, b, SHORT_KEY_MAX - 16)
}

/// Whether the 16 bytes from `at` on are the same.
fn are_equal_at(a: &[u8], b: &[u8], at: usize) -> bool
    requires a { at + 16 ≤ length a.now }
    requires b { at + 16 ≤ length b.now }
    ensures { result ≡ pointwise nat_eq (chunk at 16 a.now) (chunk at 16 b.now) }
{
    let lanes = u8x16::from_slice(&a[at..]);
    !lanes.simd_ne(u8x16::from_slice(&b[at..])).any()
}

/// Where bytes stand.
#[derive(Drop)]
enum Place<A: Allocator> {
    Short(Short),
    Long(Bytes<A>),
}

/// Bytes that stand in place where they are at most `SHORT_KEY_MAX`, and else in a block that their copies share.
#[derive(Drop)]
pub(crate) struct KeyBytes<A: Allocator = Global> {
    place: Place<A>,
}

impl<A: Allocator> Model for KeyBytes<A> {
    ghost use Rattle.std.specs.Prelude.{List, ℕ};
    ghost use Rattle.hc_types.specs.KeyBytes.{bytes_at, IsShortInPlace};

    ghost Value = { List ℕ };

    ghost view = { λ bytes. bytes_at bytes.place };

    ghost invariant = { λ bytes. IsShortInPlace bytes.place };
}

impl<A: Allocator + Clone> KeyBytes<A> {
    /// These bytes, which are copied once. At most `SHORT_KEY_MAX` take no memory.
    #[inline(always)]
    pub(crate) fn copy_of(alloc: A, bytes: &[u8]) -> Result<KeyBytes<A>, AllocError>
        ensures ok { IfOk result (λ copy. copy ≡ bytes.now) }
        ensures short { length bytes.now ≤ 46 → IsOk result }
    {
        if bytes.len() <= SHORT_KEY_MAX {
            return Ok(KeyBytes {
                place: Place::Short(Short::copy_of(bytes)),
            });
        }
        Ok(KeyBytes {
            place: Place::Long(Bytes::copy_from_slice(alloc, bytes)?),
        })
    }
}

impl<A: Allocator> KeyBytes<A> {
    /// These bytes, which it shares. At most `SHORT_KEY_MAX` are copied instead, so that they don't keep a larger block.
    pub(crate) fn from_bytes(bytes: Bytes<A>) -> KeyBytes<A>
        ensures { result ≡ bytes }
    {
        if bytes.len() <= SHORT_KEY_MAX {
            return KeyBytes {
                place: Place::Short(Short::copy_of(bytes.as_slice())),
            };
        }
        KeyBytes {
            place: Place::Long(bytes),
        }
    }

    /// These bytes, at most `SHORT_KEY_MAX`, which are copied.
    pub(crate) fn of_short(bytes: &[u8]) -> KeyBytes<A>
        requires { length bytes.now ≤ 46 }
        ensures { result ≡ bytes.now }
    {
        KeyBytes {
            place: Place::Short(Short::copy_of(bytes)),
        }
    }

    /// The bytes.
    pub(crate) fn as_slice(&self) -> &[u8]
        ensures { result.now ≡ self.now }
    {
        match &self.place {
            Place::Short(short) => short.as_slice(),
            Place::Long(bytes) => bytes.as_slice(),
        }
    }
}

impl<A: Allocator> Clone for KeyBytes<A> {
    ghost is_clone = { λ bytes copy. copy ≡ bytes };

    ghost is_infallible = { λ bytes. length bytes ≤ 46 };

    fn clone(&self) -> Result<KeyBytes<A>, AllocError> {
        let place = match &self.place {
            Place::Short(short) => Place::Short(short.copy()),
            Place::Long(bytes) => Place::Long(bytes.clone()?),
        };
        Ok(KeyBytes { place })
    }
}

impl<A: Allocator> PartialEq for KeyBytes<A> {
    ghost eq = { pointwise nat_eq };

    ghost laws = { partial_equiv_from_equiv nat_list_eq_equiv };

    fn eq(&self, other: &Self) -> bool {
        match (&self.place, &other.place) {
            (Place::Short(one), Place::Short(two)) => one == two,
            _ => self.as_slice() == other.as_slice(),
        }
    }
}
