// A device that fails once.
ghost use Rattle.std.specs.Prelude.{◌≡◌, ◌+◌, ◌-◌, ◌<◌, ◌^◌, ◌==◌, ℕ, Option, Some, None, IfOk, IfSome, OnOk, IsErrOf};
ghost use Rattle.hc_flash.specs.Answers.{failures_in};
ghost use Rattle.hc_flash.specs.Devices.{without};

use crate::flash::{Flash, FlashError};
use bytes::Bytes;
use std::alloc::{Allocator, Global};
use std::marker::{Model, PhantomData};

/// A device that fails the nth of its calls, reads and writes counted together from 1, and passes every other call on
/// to another device. The failed call does not reach that device; of a page whose write it failed nothing is known.
#[derive(Drop)]
pub struct FailAt<F: Flash<A>, A: Allocator = Global> {
    inner: F,
    fails_in: u64,
    lost: Option<u32>,
    own: u64,
    alloc: PhantomData<A>,
}

impl<F: Flash<A>, A: Allocator> Model for FailAt<F, A> {
    ghost use Rattle.std.specs.Prelude.{◌≡◌, ◌+◌, ◌<◌, ◌^◌, None};
    ghost use Rattle.hc_flash.specs.Devices.{Failing};

    ghost Value = { Failing F };

    ghost view = { λ flash. record { inner = flash.inner; fails_in = flash.fails_in; lost = flash.lost; own = flash.own } };

    ghost invariant = { λ flash. (F.failed flash.inner + flash.own < 2 ^ 64) × (0 < flash.fails_in → flash.lost ≡ None) };
}

impl<F: Flash<A>, A: Allocator> FailAt<F, A> {
    /// Over this device; its nth call fails. None fails where `nth` is 0.
    pub fn new(inner: F, nth: u64) -> FailAt<F, A>
        ensures { result ≡ record { inner = inner; fails_in = nth; lost = None; own = 0 } }
    {
        let _within = inner.failures();
        FailAt {
            inner,
            fails_in: nth,
            lost: None,
            own: 0,
            alloc: PhantomData,
        }
    }

    /// Counts a call, and fails it where it is the one that fails or where the count of failures has run out.
    fn pass(&mut self) -> Result<(), FlashError>
        ensures next { self.new.fails_in ≡ self.old.fails_in - 1 }
        ensures same { (self.new.inner ≡ self.old.inner) × (self.new.lost ≡ self.old.lost) }
        ensures counted { self.new.own ≡ self.old.own + failures_in result }
        ensures full { IsErrOf result FlashError.NoMemory → F.failed self.old.inner + self.old.own ≡ u64.MAX }
        ensures ok { OnOk result (¬ (self.old.fails_in ≡ 1) × (F.failed self.old.inner + self.old.own < u64.MAX)) }
        ensures device { IsErrOf result FlashError.Device → (self.old.fails_in ≡ 1) × (self.old.lost ≡ None) }
    {
        let is_due = self.fails_in == 1;
        self.fails_in = self.fails_in.saturating_sub(1);
        if self.failures() == u64::MAX {
            return Err(FlashError::NoMemory);
        }
        if is_due {
            self.own += 1;
            return Err(FlashError::Device);
        }
        Ok(())
    }
}

impl<F: Flash<A>, A: Allocator> Flash<A> for FailAt<F, A> {
    ghost held = { λ flash. without flash.lost (F.held flash.inner) };

    ghost failed = { λ flash. F.failed flash.inner + flash.own };

    fn read(&mut self, page: u32) -> Result<Bytes<A>, FlashError>
        ensures as_written { IfOk result (λ bytes. IfSome (without self.old.lost (F.held self.old.inner) page) (λ written. bytes ≡ written)) }
        ensures same { (every : ℕ) → without self.new.lost (F.held self.new.inner) every ≡ without self.old.lost (F.held self.old.inner) every }
        ensures counted { F.failed self.new.inner + self.new.own ≡ F.failed self.old.inner + self.old.own + failures_in result }
        ensures count_is_full { F.failed self.old.inner + self.old.own ≡ u64.MAX → IsErrOf result FlashError.NoMemory }
        ensures next { self.new.fails_in ≡ self.old.fails_in - 1 }
        ensures fails { self.old.fails_in ≡ 1 → F.failed self.old.inner + self.old.own < u64.MAX → IsErrOf result FlashError.Device }
        ensures unreached { self.old.fails_in ≡ 1 → self.new.inner ≡ self.old.inner }
        ensures passes { ¬ (self.old.fails_in ≡ 1) → self.new.own ≡ self.old.own }
    {
        match self.pass() {
            Ok(()) => self.inner.read(page),
            Err(error) => Err(error),
        }
    }

    fn write(&mut self, page: u32, bytes: &[u8]) -> Result<(), FlashError>
        ensures written { OnOk result (without self.new.lost (F.held self.new.inner) page ≡ Some bytes.now) }
        ensures lost { IsErrOf result FlashError.Device → without self.new.lost (F.held self.new.inner) page ≡ None }
        ensures kept { IsErrOf result FlashError.NoMemory → without self.new.lost (F.held self.new.inner) page ≡ without self.old.lost (F.held self.old.inner) page }
        ensures others { (other : ℕ) → ¬ (other ≡ page) → without self.new.lost (F.held self.new.inner) other ≡ without self.old.lost (F.held self.old.inner) other }
        ensures counted { F.failed self.new.inner + self.new.own ≡ F.failed self.old.inner + self.old.own + failures_in result }
        ensures count_is_full { F.failed self.old.inner + self.old.own ≡ u64.MAX → IsErrOf result FlashError.NoMemory }
        ensures next { self.new.fails_in ≡ self.old.fails_in - 1 }
        ensures fails { self.old.fails_in ≡ 1 → F.failed self.old.inner + self.old.own < u64.MAX → IsErrOf result FlashError.Device }
        ensures unreached { self.old.fails_in ≡ 1 → self.new.inner ≡ self.old.inner }
        ensures passes { ¬ (self.old.fails_in ≡ 1) → self.new.own ≡ self.old.own }
    {
        match self.pass() {
            Ok(()) => {}
            Err(error) => {
                if error == FlashError::Device {
                    self.lost = Some(page);
                }
                return Err(error);
            }
        }
        self.inner.write(page, bytes)?;
        if self.lost == Some(page) {
            self.lost = None;
        }
        Ok(())
    }

    fn failures(&self) -> u64 {
        self.inner.failures() + self.own
    }
}
