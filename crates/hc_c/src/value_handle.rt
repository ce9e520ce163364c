// What C holds of a value.
ghost use Rattle.std.specs.Prelude.{◌≡◌, None, Some, IfSome, IfNone, is_some};

use crate::parts::Parts;
use crate::reading::Reading;
use crate::value_seat::ValueSeat;
use std::alloc::Global;
use std::mem;

/// What C holds of a value: all zeros, where there is none.
#[repr(C)]
pub struct ValueHandle {
    seat: ValueSeat,
    full: bool,
    ghost fits: { full ≡ is_some seat.value },
}

impl ValueHandle {
    /// The handle of a value.
    pub fn of(value: Box<Reading>) -> ValueHandle
        ensures { result.seat.value ≡ Some value.value }
    {
        ValueHandle {
            seat: ValueSeat::of_parts(Parts::of(value)),
            full: true,
        }
    }

    /// The value, if there is one.
    fn into_box(self) -> Option<Box<Reading>>
        ensures some { IfSome result (λ value. self.seat.value ≡ Some value.value) }
        ensures none { IfNone result (self.seat.value ≡ None) }
    {
        let ValueHandle { seat, full } = self;
        if full {
            Some(seat.into_parts().into_box())
        } else {
            None
        }
    }

    /// Takes the value out of the handle, if there is one.
    pub fn take(&mut self, alloc: Global) -> Option<Box<Reading>>
        ensures some { IfSome result (λ value. self.old.seat.value ≡ Some value.value) }
        ensures none { IfNone result (self.old.seat.value ≡ None) }
        ensures empty { self.new.seat.value ≡ None }
    {
        if !self.full {
            return None;
        }
        self.full = false;
        let seat = mem::replace(&mut self.seat, ValueSeat::empty(alloc));
        Some(seat.into_parts().into_box())
    }

    /// Puts the value back into the handle that it was taken out of.
    pub fn put(&mut self, value: Box<Reading>)
        requires empty { self.old.seat.value ≡ None }
        ensures full { self.new.seat.value ≡ Some value.value }
    {
        self.seat = ValueSeat::of_parts(Parts::of(value));
        self.full = true;
    }
}

impl Drop for ValueHandle {
    fn drop(self) {
        drop(self.into_box());
    }
}
