// The workers' end of a device.
ghost use Rattle.std.specs.Prelude.{◌≡◌, ◌<◌, ◌+◌, OnOk, OnErr, IfErr};

use hc_flash::{IoResult, Order};
use hc_paged::{Device, operate};
use std::alloc::{AllocError, Allocator, Global};
use std::marker::Model;
use std::sync::{Mutex, Wait};

/// A device by one or more handles, each behind a lock of its own, which is held for one operation at a time: so as many
/// operations are under way at once as there are handles. That none is on a page on which another is at work is the core's
/// doing. Contracts see how many handles there are.
#[derive(Drop)]
pub struct Port<D: Device<A>, A: Allocator = Global> {
    first: Mutex<D>,
    others: Vec<Mutex<D>, A>,
}

impl<D: Device<A>, A: Allocator> Model for Port<D, A> {
    ghost use Rattle.std.specs.Prelude.{ℕ, ◌+◌, ◌<◌, length};

    ghost Value = { ℕ };

    ghost view = { λ port. length port.others.items + 1 };

    ghost invariant = { λ port. length port.others.items < 4294967295 };
}

impl<D: Device<A>, A: Allocator> Port<D, A> {
    /// By this handle alone.
    pub fn new(alloc: A, device: D) -> Port<D, A>
        ensures { result ≡ 1 }
    {
        Port {
            first: Mutex::new(device),
            others: Vec::new(alloc),
        }
    }

    /// How many handles there are.
    #[must_use]
    pub fn handles(&self) -> usize
        ensures count { result ≡ self.now }
        ensures some { 0 < result }
    {
        self.others.len() + 1
    }

    /// Makes the operation of the order, as `operate` does it, by a handle that is free, or else once one is.
    pub fn perform<R: Wait>(&self, rt: &R, order: &Order<A>) -> Result<IoResult<A>, AllocError> {
        if let Some(mut device) = self.first.try_lock() {
            return operate(&mut *device, order);
        }
        for other in &self.others {
            if let Some(mut device) = other.try_lock() {
                return operate(&mut *device, order);
            }
        }
        operate(&mut *self.beside(order.page()).lock(rt), order)
    }

    /// The handle that an operation on this page waits for where none is free: by the page, so that those that wait are
    /// spread.
    fn beside(&self, page: u32) -> &Mutex<D> {
        let at = page as usize % self.handles();
        match self.others.get(at) {
            Some(other) => other,
            None => &self.first,
        }
    }

    /// How often the device has failed, by all handles together.
    pub fn failures<R: Wait>(&self, rt: &R) -> u64 {
        let mut failures = self.first.lock(rt).failures();
        for other in &self.others {
            failures = failures.saturating_add(other.lock(rt).failures());
        }
        failures
    }

    /// The handle that was there first.
    #[must_use]
    pub fn into_inner(self) -> D {
        let Port { first, others: _ } = self;
        first.into_inner()
    }
}

impl<D: Device<A>, A: Allocator + Clone> Port<D, A> {
    /// Adds another handle of the same device. When out of memory, and beyond 4,294,967,295, it comes back.
    pub fn add(&mut self, device: D) -> Result<(), D>
        ensures added { OnOk result (self.new ≡ self.old + 1) }
        ensures kept { OnErr result (self.new ≡ self.old) }
        ensures device_returned { IfErr result (λ back. back ≡ device) }
    {
        if self.handles() >= 4_294_967_295 || self.others.reserve(1).is_err() {
            return Err(device);
        }
        self.others.push_reserved(Mutex::new(device));
        Ok(())
    }
}
