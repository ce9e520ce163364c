// What calls answer.
use hc_memory::{ReadHandle, Sealed};
use hc_types::Refusal;
use std::alloc::{Allocator, Global};
use std::fmt;

/// What a find answers.
#[derive(Drop)]
pub enum Found<A: Allocator = Global> {
    /// The value under the key, which stays readable for good.
    Hit(ReadHandle<A>),
    Miss,
    /// The value may be on flash: the call with this number waits for it, and its reply is taken later.
    Waiting(u64),
}

/// A hit by the length of its value.
impl<A: Allocator> fmt::Debug for Found<A> {
    fn fmt<W: fmt::Write>(&self, f: &mut fmt::Formatter<W>) -> fmt::Result {
        match self {
            Found::Hit(value) => write!(f, "Hit({} bytes)", value.len()),
            Found::Miss => f.write_str("Miss"),
            Found::Waiting(call) => write!(f, "Waiting({call})"),
        }
    }
}

/// What a find answers that copies the value to a buffer.
#[derive(Clone, Copy, Debug, PartialEq, Eq)]
pub enum Copied {
    /// The key has a value of so many bytes: it stands at the buffer's head, where it fits.
    Hit(usize),
    Miss,
    /// The value may be on flash: the call with this number waits for it, and its reply is taken later.
    Waiting(u64),
}

/// What an insert answers.
#[derive(Clone, Copy, Debug, PartialEq, Eq)]
pub enum Inserted {
    /// The item can be found.
    Stored,
    /// The key may have a value on flash: the call with this number waits for it, and its reply is taken later.
    Waiting(u64),
}

/// What a remove answers.
#[derive(Clone, Copy, Debug, PartialEq, Eq)]
pub enum Removed {
    /// An item was in memory, expired or not.
    FoundInMemory,
    /// None was.
    NotInMemory,
}

/// An item that wasn't inserted, with its handle. It doesn't become a `Refusal` by itself, since the handle must be spent
/// first: discard the one, and answer the other.
pub struct Unlinked<A: Allocator = Global> {
    pub refusal: Refusal,
    pub sealed: Sealed<A>,
}

impl<A: Allocator> fmt::Display for Unlinked<A> {
    ghost use Rattle.std.specs.Prelude.{Some};
    ghost use Rattle.hc_types.specs.Refusals.{refusal_text};

    ghost output = { λ e. Some (refusal_text e.refusal) };

    fn fmt<W: fmt::Write>(&self, f: &mut fmt::Formatter<W>) -> fmt::Result {
        fmt::Display::fmt(&self.refusal, f)
    }
}
