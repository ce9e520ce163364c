// Where an image lies, as C may hold it.
ghost use Rattle.std.specs.Prelude.{◌≡◌, Option, None, Some, IsSome};
ghost use Rattle.hc_c.specs.declared.image.Image.{Image};
ghost use Rattle.hc_c.specs.Seated.{image_seated, image_coded};

use crate::image::Image;
use crate::parts::Parts;
use std::alloc::Global;
use std::marker::Model;

/// Where an image lies, if there is one. It names no type that C can't hold.
#[repr(C)]
#[derive(Drop)]
pub struct ImageSeat {
    at: *mut u8,
    alloc: Global,
    pub ghost image: { Option Image } by { image_coded },
}

impl Model for ImageSeat {
    ghost also_owns = { λ s. image_seated s.alloc s.at s.image };
}

impl ImageSeat {
    /// A seat without an image.
    pub fn empty(alloc: Global) -> ImageSeat
        ensures { result.image ≡ None }
    {
        ImageSeat {
            at: std::ptr::null_mut(),
            alloc,
        }
    }

    /// The seat of a boxed image.
    pub fn of_parts(parts: Parts<Image, Global>) -> ImageSeat
        ensures { result.image ≡ Some parts.value }
    {
        let Parts { ptr, alloc } = parts;
        ImageSeat {
            at: ptr as *mut u8,
            alloc,
        }
    }

    /// The boxed image.
    pub fn into_parts(self) -> Parts<Image, Global>
        requires { IsSome self.image }
        ensures { Some result.value ≡ self.image }
    {
        let ImageSeat { at, alloc } = self;
        Parts {
            ptr: at as *mut Image,
            alloc,
        }
    }
}

// What is in a seat is what is in a box of the image.
unsafe impl Send for ImageSeat {}
