// Where a value lies, as C may hold it.
ghost use Rattle.std.specs.Prelude.{◌≡◌, Option, None, Some, IsSome};
ghost use Rattle.hc_c.specs.declared.reading.Reading.{Reading};
ghost use Rattle.hc_c.specs.Seated.{value_seated, value_coded};

use crate::parts::Parts;
use crate::reading::Reading;
use std::alloc::Global;
use std::marker::Model;

/// Where a value lies, if there is one. It names no type that C can't hold.
#[repr(C)]
#[derive(Drop)]
pub struct ValueSeat {
    at: *mut u8,
    alloc: Global,
    pub ghost value: { Option Reading } by { value_coded },
}

impl Model for ValueSeat {
    ghost also_owns = { λ s. value_seated s.alloc s.at s.value };
}

impl ValueSeat {
    /// A seat without a value.
    pub fn empty(alloc: Global) -> ValueSeat
        ensures { result.value ≡ None }
    {
        ValueSeat {
            at: std::ptr::null_mut(),
            alloc,
        }
    }

    /// The seat of a boxed value.
    pub fn of_parts(parts: Parts<Reading, Global>) -> ValueSeat
        ensures { result.value ≡ Some parts.value }
    {
        let Parts { ptr, alloc } = parts;
        ValueSeat {
            at: ptr as *mut u8,
            alloc,
        }
    }

    /// The boxed value.
    pub fn into_parts(self) -> Parts<Reading, Global>
        requires { IsSome self.value }
        ensures { Some result.value ≡ self.value }
    {
        let ValueSeat { at, alloc } = self;
        Parts {
            ptr: at as *mut Reading,
            alloc,
        }
    }
}

// What is in a seat is what is in a box of the value.
unsafe impl Send for ValueSeat {}
