// The key of an item, and its hash.
ghost use Rattle.std.specs.Prelude.{◌≡◌, ◌≢◌, ◌<◌, ◌≤◌, ◌⊎◌, ◌↔◌, length, nat_eq, IfOk, IfErr, OnOk, IsErrOf, fold};
ghost use Rattle.std.specs.Hash as fed;
ghost use Rattle.std.specs.Cmp.Lexicographic.{pointwise, nat_list_eq_equiv};
ghost use Rattle.std.specs.Cmp.{partial_equiv_from_equiv};
ghost use Rattle.hc_types.specs.Fnv.{fnv_1a};
ghost use Rattle.hc_types.specs.Digest.{digest_of, digest_respects_eq};
ghost use Rattle.hc_types.specs.Places.{kept_of, bucket_at};

use crate::config::FlashConfig;
use crate::key_bytes::KeyBytes;
use crate::refusal::Refusal;
use bytes::Bytes;
use std::alloc::{AllocError, Allocator, Global};
use std::hash::{FoldHasher, Hash, Hasher};
use std::marker::Model;

/// The most bytes of a key.
pub const KEY_MAX: usize = 255;

/// The key of an item: 1 to 255 bytes. Contracts see it as its bytes.
///
/// Up to 46 bytes stand in the key itself, so that it and its copies take no memory. More are shared by its copies. It
/// keeps the number that a map which holds it is fed, so that no look-up goes over its bytes again.
pub struct Key<A: Allocator = Global> {
    bytes: KeyBytes<A>,
    digest: u64,
}

// (written out, so that who drops a key calls this one function)
impl<A: Allocator> Drop for Key<A> {
    fn drop(self) {
        let Key {
            bytes: _,
            digest: _,
        } = self;
    }
}

impl<A: Allocator> Model for Key<A> {
    ghost use Rattle.std.specs.Prelude.{◌≡◌, ◌≤◌, List, ℕ, length};
    ghost use Rattle.hc_types.specs.Digest.{digest_of};

    ghost Value = { List ℕ };

    ghost view = { λ k. k.bytes };

    ghost invariant = { λ k. (1 ≤ length k.bytes) × (length k.bytes ≤ 255) × (k.digest ≡ digest_of k.bytes) };
}

impl<A: Allocator + Clone> Key<A> {
    /// The key of these bytes, which are copied once. Refused with `KeyEmpty` for no byte and with `KeyTooLong` for
    /// more than 255, whether there is memory or not. Up to 46 bytes are never refused for memory.
    // Always inlined, as is what it calls, so that the key is made where its caller has it and is not moved there.
    #[inline(always)]
    pub fn new(alloc: A, bytes: &[u8]) -> Result<Key<A>, Refusal>
        ensures ok { IfOk result (λ key. key ≡ bytes.now) }
        ensures fits { OnOk result ((1 ≤ length bytes.now) × (length bytes.now ≤ 255)) }
        ensures empty { IsErrOf result Refusal.KeyEmpty ↔ (length bytes.now ≡ 0) }
        ensures too_long { IsErrOf result Refusal.KeyTooLong ↔ (255 < length bytes.now) }
        ensures others { IfErr result (λ refusal. (refusal ≡ Refusal.KeyEmpty) ⊎ (refusal ≡ Refusal.KeyTooLong) ⊎ (refusal ≡ Refusal.NoMemory)) }
        ensures short { length bytes.now ≤ 46 → IfErr result (λ refusal. refusal ≢ Refusal.NoMemory) }
    {
        if bytes.is_empty() {
            return Err(Refusal::KeyEmpty);
        }
        if bytes.len() > KEY_MAX {
            return Err(Refusal::KeyTooLong);
        }
        let digest = digest_of(bytes);
        match KeyBytes::copy_of(alloc, bytes) {
            Ok(bytes) => Ok(Key { bytes, digest }),
            Err(_) => Err(Refusal::NoMemory),
        }
    }
}

impl<A: Allocator> Key<A> {
    /// The key of these bytes, 1 to 46, which are copied: it takes no memory.
    #[must_use]
    pub fn of_short(bytes: &[u8]) -> Key<A>
        requires some { 1 ≤ length bytes.now }
        requires short { length bytes.now ≤ 46 }
        ensures { result ≡ bytes.now }
    {
        let digest = digest_of(bytes);
        let bytes = KeyBytes::of_short(bytes);
        Key { bytes, digest }
    }

    /// The key of these bytes, which it shares where they are more than 46. Refused with `KeyEmpty` for no byte and
    /// with `KeyTooLong` for more than 255, and never for memory.
    pub fn from_bytes(bytes: Bytes<A>) -> Result<Key<A>, Refusal>
        ensures ok { IfOk result (λ key. key ≡ bytes) }
        ensures fits { OnOk result ((1 ≤ length bytes) × (length bytes ≤ 255)) }
        ensures empty { IsErrOf result Refusal.KeyEmpty ↔ (length bytes ≡ 0) }
        ensures too_long { IsErrOf result Refusal.KeyTooLong ↔ (255 < length bytes) }
        ensures others { IfErr result (λ refusal. (refusal ≡ Refusal.KeyEmpty) ⊎ (refusal ≡ Refusal.KeyTooLong)) }
    {
        match bytes.len() {
            0 => Err(Refusal::KeyEmpty),
            len if len > KEY_MAX => Err(Refusal::KeyTooLong),
            _ => {
                let digest = digest_of(bytes.as_slice());
                let bytes = KeyBytes::from_bytes(bytes);
                Ok(Key { bytes, digest })
            }
        }
    }

    /// How many bytes it has.
    #[allow(clippy::len_without_is_empty)]
    pub fn len(&self) -> usize
        ensures value { result ≡ length self.now }
        ensures least { 1 ≤ result }
        ensures most { result ≤ 255 }
    {
        let _digest = self.digest;
        self.bytes.as_slice().len()
    }

    /// Its bytes.
    pub fn as_slice(&self) -> &[u8]
        ensures { result.now ≡ self.now }
    {
        self.bytes.as_slice()
    }

    /// What a map is fed of it, the kit's fast hash of its bytes: kept with the key, so that it costs no step for a byte.
    /// Equal keys have the same; of keys that differ it tells nearly all apart. It is not for flash, where `hash` stands.
    #[must_use]
    pub fn digest(&self) -> u64
        ensures { result ≡ digest_of self.now }
    {
        self.digest
    }

    /// Whether it is the other key. As `==`, but that digests are compared first, which tell nearly all keys that differ
    /// without a look at their bytes: for who compares a key with many of which most are others. (A map has compared
    /// digests already where it asks for `==`.)
    #[must_use]
    pub fn is(&self, other: &Key<A>) -> bool
        ensures { result ≡ pointwise nat_eq self.now other.now }
    {
        if self.digest != other.digest {
            return false;
        }
        self.bytes == other.bytes
    }
}

/// The full hash of the key: FNV-1a in 64 bits, by which flash tells keys apart. It costs a step for each byte.
#[must_use]
pub fn hash<A: Allocator>(key: &Key<A>) -> u64
    ensures { result ≡ fnv_1a key.now }
{
    hash_of(key.as_slice())
}

/// The kept hash of the key: the lowest `bits` bits of its hash.
#[must_use]
pub fn kept<A: Allocator>(key: &Key<A>, bits: u64) -> u64
    requires { bits ≤ 64 }
    ensures { result ≡ kept_of bits key.now }
{
    let hash = hash(key);
    if bits == 64 { hash } else { hash % (1 << bits) }
}

/// The bucket of the key: its kept hash modulo the number of buckets.
#[must_use]
pub fn bucket_of<A: Allocator>(key: &Key<A>, flash: &FlashConfig) -> u64
    requires bits { flash.now.bits ≤ 64 }
    requires buckets { 1 ≤ flash.now.buckets }
    ensures { result ≡ bucket_at flash.now key.now }
{
    kept(key, flash.bits) % flash.buckets
}

/// What a map is fed of a key of these bytes: the kit's fast hash of them, which takes 16 at a time.
#[must_use]
pub fn digest_of(bytes: &[u8]) -> u64
    ensures { result ≡ digest_of bytes.now }
{
    let mut hasher = FoldHasher::default();
    hasher.write(bytes);
    hasher.finish()
}

/// The full hash of a key of these bytes: FNV-1a in 64 bits (Fowler, Noll and Vo).
#[must_use]
pub fn hash_of(bytes: &[u8]) -> u64
    ensures { result ≡ fnv_1a bytes.now }
{
    let mut hash: u64 = 14_695_981_039_346_656_037;
    for byte in bytes {
        hash = (hash ^ u64::from(*byte)).wrapping_mul(1_099_511_628_211);
    }
    hash
}

impl<A: Allocator> Clone for Key<A> {
    ghost is_clone = { λ key copy. copy ≡ key };

    ghost is_infallible = { λ key. length key ≤ 46 };

    fn clone(&self) -> Result<Key<A>, AllocError> {
        Ok(Key {
            bytes: self.bytes.clone()?,
            digest: self.digest,
        })
    }
}

impl<A: Allocator> PartialEq for Key<A> {
    ghost eq = { pointwise nat_eq };

    ghost laws = { partial_equiv_from_equiv nat_list_eq_equiv };

    fn eq(&self, other: &Self) -> bool {
        self.bytes == other.bytes
    }
}

impl<A: Allocator> Eq for Key<A> {
    ghost laws = { nat_list_eq_equiv };
}

impl<A: Allocator> Hash for Key<A> {
    ghost hash_input = { λ key. fed.u64 (digest_of key) };

    ghost respects_eq = { digest_respects_eq };

    fn hash<H: Hasher>(&self, state: &mut H) {
        state.write_u64(self.digest);
    }
}
