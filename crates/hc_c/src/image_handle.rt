// What C holds of an image.
ghost use Rattle.std.specs.Prelude.{◌≡◌, None, Some, IfSome, IfNone, is_some};

use crate::image::Image;
use crate::image_seat::ImageSeat;
use crate::parts::Parts;
use std::alloc::Global;
use std::mem;

/// What C holds of an image: all zeros, where there is none.
#[repr(C)]
pub struct ImageHandle {
    seat: ImageSeat,
    full: bool,
    ghost fits: { full ≡ is_some seat.image },
}

impl ImageHandle {
    /// The handle of an image.
    pub fn of(image: Box<Image>) -> ImageHandle
        ensures { result.seat.image ≡ Some image.value }
    {
        ImageHandle {
            seat: ImageSeat::of_parts(Parts::of(image)),
            full: true,
        }
    }

    /// The image, if there is one.
    fn into_box(self) -> Option<Box<Image>>
        ensures some { IfSome result (λ image. self.seat.image ≡ Some image.value) }
        ensures none { IfNone result (self.seat.image ≡ None) }
    {
        let ImageHandle { seat, full } = self;
        if full {
            Some(seat.into_parts().into_box())
        } else {
            None
        }
    }

    /// Takes the image out of the handle, if there is one.
    pub fn take(&mut self, alloc: Global) -> Option<Box<Image>>
        ensures some { IfSome result (λ image. self.old.seat.image ≡ Some image.value) }
        ensures none { IfNone result (self.old.seat.image ≡ None) }
        ensures empty { self.new.seat.image ≡ None }
    {
        if !self.full {
            return None;
        }
        self.full = false;
        let seat = mem::replace(&mut self.seat, ImageSeat::empty(alloc));
        Some(seat.into_parts().into_box())
    }

    /// Puts the image back into the handle that it was taken out of.
    pub fn put(&mut self, image: Box<Image>)
        requires empty { self.old.seat.image ≡ None }
        ensures full { self.new.seat.image ≡ Some image.value }
    {
        self.seat = ImageSeat::of_parts(Parts::of(image));
        self.full = true;
    }
}

impl Drop for ImageHandle {
    fn drop(self) {
        drop(self.into_box());
    }
}
