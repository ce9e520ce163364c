// How handles and items show themselves: values by their lengths, never by their bytes.
use crate::handles::{Blank, ReadHandle, Sealed};
use crate::item::Item;
use std::alloc::Allocator;
use std::fmt;

impl<A: Allocator> fmt::Debug for Blank<A> {
    fn fmt<W: fmt::Write>(&self, f: &mut fmt::Formatter<W>) -> fmt::Result {
        write!(
            f,
            "Blank {{ number: {}, pool: {}, key: {:?}, value: {} bytes, expiry: {} }}",
            self.number(),
            self.pool(),
            self.key(),
            self.len(),
            self.expiry(),
        )
    }
}

impl<A: Allocator> fmt::Debug for Sealed<A> {
    fn fmt<W: fmt::Write>(&self, f: &mut fmt::Formatter<W>) -> fmt::Result {
        write!(
            f,
            "Sealed {{ number: {}, pool: {}, key: {:?}, value: {} bytes, expiry: {} }}",
            self.number(),
            self.pool(),
            self.key(),
            self.len(),
            self.expiry(),
        )
    }
}

impl<A: Allocator> fmt::Debug for Item<A> {
    fn fmt<W: fmt::Write>(&self, f: &mut fmt::Formatter<W>) -> fmt::Result {
        write!(
            f,
            "Item {{ number: {}, pool: {}, key: {:?}, value: {} bytes, expiry: {}, clean: {} }}",
            self.number,
            self.pool,
            self.key,
            self.value.len(),
            self.expiry,
            self.clean,
        )
    }
}

impl<A: Allocator> fmt::Debug for ReadHandle<A> {
    fn fmt<W: fmt::Write>(&self, f: &mut fmt::Formatter<W>) -> fmt::Result {
        write!(f, "ReadHandle({} bytes)", self.len())
    }
}
