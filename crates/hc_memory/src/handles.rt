// Write handles, each of which must be spent, and read handles.
ghost use Rattle.std.specs.Prelude.{◌≡◌, ◌==◌, ◌+◌, ◌≤◌, ◌↔◌, ℕ, false, List, length, Some, IsOk, IfOk, IfErr, OnOk, OnErr};
ghost use Rattle.hc_memory.specs.Memory.{copied};
ghost use Rattle.hc_memory.specs.Item.{item_by, charge_by};
ghost use Rattle.hc_memory.specs.Seen.{item_of};
ghost use Rattle.hc_memory.specs.Writes.{written, EachByte};

use crate::item::Held;
use crate::value::{ItemValue, copy};
use bytes::Bytes;
use hc_types::{Key, Refusal};
use std::alloc::{AllocError, Allocator, Global};
use std::marker::Model;

/// An item that is being written: the first half of CacheLib's write handle. Contracts see it as a `Handle`.
///
/// It isn't `Drop`, so a handle that is forgotten doesn't compile: it must be sealed, discarded or abandoned.
#[must_use]
pub struct Blank<A: Allocator = Global> {
    bytes: Vec<u8, A>,
    number: u64,
    pool: u8,
    key: Key<A>,
    expiry: u64,
}

impl<A: Allocator> Model for Blank<A> {
    ghost use Rattle.std.specs.Prelude.{◌≤◌, length};
    ghost use Rattle.hc_memory.specs.Item.{Handle};

    ghost Value = { Handle };

    ghost view = { λ b. record { number = b.number; pool = b.pool; key = b.key; expiry = b.expiry; value = b.bytes.items } };

    ghost invariant = { λ b. length b.bytes.items ≤ 1048576 };
}

/// An item that was written: the second half of CacheLib's write handle. Contracts see it as a `Handle`.
///
/// It isn't `Drop`, so a handle that is forgotten doesn't compile: it must be inserted, discarded or abandoned.
#[must_use]
pub struct Sealed<A: Allocator = Global> {
    value: ItemValue<A>,
    number: u64,
    pool: u8,
    key: Key<A>,
    expiry: u64,
}

impl<A: Allocator> Model for Sealed<A> {
    ghost use Rattle.hc_memory.specs.Item.{Handle};

    ghost Value = { Handle };

    ghost view = { λ s. record { number = s.number; pool = s.pool; key = s.key; expiry = s.expiry; value = s.value } };
}

/// A value that is read (CacheLib's read handle), which it shares with its item. Contracts see it as its bytes.
///
/// The value stays readable through it for good, whatever becomes of the item.
#[derive(Drop)]
pub struct ReadHandle<A: Allocator = Global> {
    bytes: Bytes<A>,
}

impl<A: Allocator> Model for ReadHandle<A> {
    ghost use Rattle.std.specs.Prelude.{List, ℕ};

    ghost Value = { List ℕ };

    ghost view = { λ h. h.bytes };
}

impl<A: Allocator> Blank<A> {
    /// A handle to these bytes, which may be written over.
    pub(crate) fn new(
        number: u64,
        pool: u8,
        key: Key<A>,
        bytes: Vec<u8, A>,
        expiry: u64,
    ) -> Blank<A>
        requires { length bytes.items ≤ 1048576 }
        ensures { result ≡ record { number = number; pool = pool; key = key; expiry = expiry; value = bytes.items } }
    {
        Blank {
            bytes,
            number,
            pool,
            key,
            expiry,
        }
    }

    /// Writes the bytes over those from offset `at` on. Refused with `OutOfItem` where they pass the end of the item,
    /// and then nothing is written.
    pub fn write_at(&mut self, at: usize, bytes: &[u8]) -> Result<(), Refusal>
        ensures fits { IsOk result ↔ (at + length bytes.now ≤ length self.old.value) }
        ensures ok { OnOk result (self.new ≡ record self.old { value = written self.old.value at bytes.now }) }
        ensures refusal { IfErr result (λ refusal. refusal ≡ Refusal.OutOfItem) }
        ensures err { OnErr result (self.new ≡ self.old) }
        ensures charge { charge_by self.new ≡ charge_by self.old }
    {
        let size = self.len();
        if at > size || bytes.len() > size - at {
            return Err(Refusal::OutOfItem);
        }
        let end = at + bytes.len();
        self.bytes.as_mut_slice()[at..end].copy_from_slice(bytes);
        Ok(())
    }

    /// How many bytes the item has.
    #[allow(clippy::len_without_is_empty)]
    pub fn len(&self) -> usize
        ensures { result ≡ length self.now.value }
    {
        self.bytes.len()
    }

    /// The number of its charge.
    pub fn number(&self) -> u64
        ensures { result ≡ self.now.number }
    {
        self.number
    }

    /// The number of its pool.
    pub(crate) fn pool(&self) -> u8
        ensures { result ≡ self.now.pool }
    {
        self.pool
    }

    /// Its key.
    pub fn key(&self) -> &Key<A>
        ensures { result.now ≡ self.now.key }
    {
        &self.key
    }

    /// The second at which it expires (0: never).
    pub fn expiry(&self) -> u64
        ensures { result ≡ self.now.expiry }
    {
        self.expiry
    }

    /// Ends a handle whose cache is gone, with what was written. Where the cache lives its charge stays open there for
    /// good, and takes the room: discard the handle there instead.
    pub fn abandon(self) {
        let Blank {
            bytes: _,
            number: _,
            pool: _,
            key: _,
            expiry: _,
        } = self;
    }
}

impl<A: Allocator + Clone> Blank<A> {
    /// Ends the writing, and copies no byte. When out of memory, the handle itself comes back.
    pub fn seal(self) -> Result<Sealed<A>, Blank<A>>
        ensures ok { IfOk result (λ sealed. sealed ≡ self) }
        ensures err { IfErr result (λ blank. blank ≡ self) }
        ensures empty { length self.value ≡ 0 → IsOk result }
    {
        let Blank {
            bytes,
            number,
            pool,
            key,
            expiry,
        } = self;
        match Bytes::from_vec(bytes) {
            Ok(shared) => Ok(Sealed {
                value: ItemValue::new(shared),
                number,
                pool,
                key,
                expiry,
            }),
            Err(refused) => Err(Blank {
                bytes: refused.value,
                number,
                pool,
                key,
                expiry,
            }),
        }
    }
}

impl<A: Allocator> Sealed<A> {
    /// How many bytes the item has.
    #[allow(clippy::len_without_is_empty)]
    pub fn len(&self) -> usize
        ensures { result ≡ length self.now.value }
    {
        self.value.len()
    }

    /// Another owner of the bytes, of which none is copied.
    pub fn to_bytes(&self) -> Result<Bytes<A>, AllocError>
        ensures { IfOk result (λ bytes. bytes ≡ self.now.value) }
    {
        self.value.to_bytes()
    }

    /// The number of its charge.
    pub fn number(&self) -> u64
        ensures { result ≡ self.now.number }
    {
        self.number
    }

    /// The number of its pool.
    pub(crate) fn pool(&self) -> u8
        ensures { result ≡ self.now.pool }
    {
        self.pool
    }

    /// Its key.
    pub fn key(&self) -> &Key<A>
        ensures { result.now ≡ self.now.key }
    {
        &self.key
    }

    /// The second at which it expires (0: never).
    pub fn expiry(&self) -> u64
        ensures { result ≡ self.now.expiry }
    {
        self.expiry
    }

    /// The key, and the rest of the item that was written, of which no copy stands on flash.
    pub(crate) fn into_parts(self) -> (Key<A>, Held<A>)
        ensures key { result.0 ≡ self.key }
        ensures item { item_of result ≡ item_by false self }
    {
        let Sealed {
            value,
            number,
            pool,
            key,
            expiry,
        } = self;
        let held = Held {
            number,
            pool,
            value,
            expiry,
            clean: false,
        };
        (key, held)
    }

    /// The handle of an item that wasn't linked.
    pub(crate) fn from_parts(key: Key<A>, held: Held<A>) -> Sealed<A>
        ensures { result ≡ record { number = held.number; pool = held.pool; key = key; expiry = held.expiry; value = held.value } }
    {
        Sealed {
            value: held.value,
            number: held.number,
            pool: held.pool,
            key,
            expiry: held.expiry,
        }
    }

    /// Ends a handle whose cache is gone, with what was written. Where the cache lives its charge stays open there for
    /// good, and takes the room: discard the handle there instead.
    pub fn abandon(self) {
        let Sealed {
            value: _,
            number: _,
            pool: _,
            key: _,
            expiry: _,
        } = self;
    }
}

impl<A: Allocator> ReadHandle<A> {
    /// A handle to these bytes.
    pub fn new(bytes: Bytes<A>) -> ReadHandle<A>
        ensures { result ≡ bytes }
    {
        ReadHandle { bytes }
    }

    /// The bytes of the value.
    pub fn bytes(&self) -> &[u8]
        ensures { result.now ≡ self.now }
    {
        self.bytes.as_slice()
    }

    /// How many bytes the value has.
    pub fn len(&self) -> usize
        ensures { result ≡ length self.now }
    {
        self.bytes().len()
    }

    /// Copies the value to the head of the buffer, and answers how long it is. Into a shorter one nothing is copied.
    pub fn copy_to(&self, buffer: &mut [u8]) -> usize
        ensures value { result ≡ length self.now }
        ensures buffer { buffer.new ≡ copied (Some self.now) buffer.old }
    {
        copy(self.bytes(), buffer)
    }

    /// Whether the value has no byte.
    pub fn is_empty(&self) -> bool
        ensures { result ≡ (length self.now == 0) }
    {
        self.bytes().is_empty()
    }

    /// Another owner of the bytes, of which none is copied.
    pub fn to_bytes(&self) -> Result<Bytes<A>, AllocError>
        ensures { IfOk result (λ bytes. bytes ≡ self.now) }
    {
        self.bytes.clone()
    }

    /// The bytes of the value, of which none is copied.
    #[must_use]
    pub fn into_bytes(self) -> Bytes<A>
        ensures { result ≡ self }
    {
        let ReadHandle { bytes: shared } = self;
        shared
    }
}

/// What is written over an item stands there: each offset has the byte that was written over it last, or the one
/// before, and the item is as long as it was.
pub fn each_byte()
    ensures bytes { (old bytes : List ℕ) (at : ℕ) → at + length bytes ≤ length old → EachByte old at bytes (written old at bytes) }
    ensures length { (old bytes : List ℕ) (at : ℕ) → at + length bytes ≤ length old → length (written old at bytes) ≡ length old }
{}
