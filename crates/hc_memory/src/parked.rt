// A write handle that is set aside.
ghost use Rattle.std.specs.Prelude.{◌≡◌, IfOk};

use crate::handles::Sealed;
use crate::item::Held;
use hc_types::Key;
use std::alloc::{AllocError, Allocator, Global};
use std::marker::Model;

/// A sealed handle that is set aside, as that of a call that waits. Contracts see it as a `Handle`.
///
/// Other than the handle it may be dropped, with the cache that holds it: the pools go with it, and the handle's charge
/// with them.
#[derive(Drop)]
#[must_use]
pub struct Parked<A: Allocator = Global> {
    key: Key<A>,
    held: Held<A>,
}

impl<A: Allocator> Model for Parked<A> {
    ghost use Rattle.hc_memory.specs.Item.{Handle};

    ghost Value = { Handle };

    ghost view = { λ p. record { number = p.held.number; pool = p.held.pool; key = p.key; expiry = p.held.expiry; value = p.held.value } };
}

impl<A: Allocator> Parked<A> {
    /// Sets the handle aside.
    pub fn new(sealed: Sealed<A>) -> Parked<A>
        ensures { result ≡ sealed }
    {
        let (key, held) = sealed.into_parts();
        Parked { key, held }
    }

    /// The handle once more.
    pub fn into_sealed(self) -> Sealed<A>
        ensures { result ≡ self }
    {
        let Parked { key, held } = self;
        Sealed::from_parts(key, held)
    }

    /// The number of the handle's charge.
    #[must_use]
    pub fn number(&self) -> u64
        ensures { result ≡ self.now.number }
    {
        self.held.number
    }
}

impl<A: Allocator + Clone> Parked<A> {
    /// The handle beside this one, which stays: its key is a copy, and its value shared. At most one of both may be
    /// spent, since they have one charge. Refused only when out of memory.
    pub fn twin(&self) -> Result<Sealed<A>, AllocError>
        ensures { IfOk result (λ sealed. sealed ≡ self.now) }
    {
        let key = self.key.clone()?;
        let held = Held {
            number: self.held.number,
            pool: self.held.pool,
            value: self.held.value.clone()?,
            expiry: self.held.expiry,
            clean: false,
        };
        Ok(Sealed::from_parts(key, held))
    }
}
