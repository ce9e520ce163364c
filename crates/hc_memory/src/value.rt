// The value of an item, of which it is known how long it may be.
ghost use Rattle.std.specs.Prelude.{◌≡◌, ◌≤◌, length, Some, IfOk};
ghost use Rattle.hc_memory.specs.Memory.{copied};

use bytes::Bytes;
use hc_types::FlashConfig;
use std::alloc::{AllocError, Allocator, Global};
use std::marker::Model;

/// A value that comes from flash is copied where it has fewer pages than these: shared, it would keep all pages alive with which it
/// was read, up to two more than it fills. So a value in memory keeps some tenth more alive than it is long, at the most.
const SHARED_PAGES: u64 = 20;

/// The value of an item: at most `VALUE_MAX` bytes, which those who read it share. Contracts see it as its bytes.
#[derive(Drop)]
pub struct ItemValue<A: Allocator = Global> {
    bytes: Bytes<A>,
}

impl<A: Allocator> Model for ItemValue<A> {
    ghost use Rattle.std.specs.Prelude.{◌≤◌, List, ℕ, length};

    ghost Value = { List ℕ };

    ghost view = { λ v. v.bytes };

    ghost invariant = { λ v. length v.bytes ≤ 1048576 };
}

impl<A: Allocator> ItemValue<A> {
    /// The value of these bytes.
    pub fn new(bytes: Bytes<A>) -> ItemValue<A>
        requires { length bytes ≤ 1048576 }
        ensures { result ≡ bytes }
    {
        ItemValue { bytes }
    }

    /// How many bytes it has.
    #[allow(clippy::len_without_is_empty)]
    pub fn len(&self) -> usize
        ensures value { result ≡ length self.now }
        ensures short { result ≤ 1048576 }
    {
        self.bytes.len()
    }

    /// Another owner of the bytes, of which none is copied.
    pub fn to_bytes(&self) -> Result<Bytes<A>, AllocError>
        ensures { IfOk result (λ bytes. bytes ≡ self.now) }
    {
        self.bytes.clone()
    }

    /// Copies the bytes to the head of the buffer, and answers how many they are. Into a shorter one none is copied.
    pub fn copy_to(&self, buffer: &mut [u8]) -> usize
        ensures value { result ≡ length self.now }
        ensures buffer { buffer.new ≡ copied (Some self.now) buffer.old }
    {
        copy(self.bytes.as_slice(), buffer)
    }

    /// The bytes, of which none is copied.
    pub fn into_bytes(self) -> Bytes<A>
        ensures value { result ≡ self }
        ensures short { length self ≤ 1048576 }
    {
        let ItemValue { bytes } = self;
        bytes
    }
}

/// The value that was read from this flash, apart from its pages, unless it fills most of them.
pub(crate) fn apart<A: Allocator + Clone>(
    alloc: &A,
    flash: &Option<FlashConfig>,
    value: Bytes<A>,
) -> Result<Bytes<A>, AllocError>
    ensures { IfOk result (λ own. own ≡ value) }
{
    match flash {
        Some(flash) if value.len() as u64 / SHARED_PAGES < flash.page => {
            Bytes::copy_from_slice(alloc.clone()?, value.as_slice())
        }
        _ => Ok(value),
    }
}

/// Copies the value to the head of the buffer, where it fits, and answers how long it is.
pub(crate) fn copy(value: &[u8], buffer: &mut [u8]) -> usize
    ensures value { result ≡ length value.now }
    ensures buffer { buffer.new ≡ copied (Some value.now) buffer.old }
{
    let len = value.len();
    if len <= buffer.len() {
        buffer[..len].copy_from_slice(value);
    }
    len
}

// Shares the bytes.
impl<A: Allocator> Clone for ItemValue<A> {
    ghost use Rattle.std.specs.Prelude.{◌≡◌};

    ghost is_clone = { λ value copy. copy ≡ value };

    fn clone(&self) -> Result<ItemValue<A>, AllocError> {
        Ok(ItemValue {
            bytes: self.bytes.clone()?,
        })
    }
}
