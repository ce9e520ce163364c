// What C holds of a cache.
ghost use Rattle.std.specs.Prelude.{◌≡◌, None, Some, IfSome, IfNone, is_some};

use crate::cache::Cache;
use crate::cache_seat::CacheSeat;
use crate::parts::Parts;
use std::alloc::Global;
use std::mem;

/// What C holds of a cache: all zeros, where there is none.
#[repr(C)]
pub struct CacheHandle {
    seat: CacheSeat,
    full: bool,
    ghost fits: { full ≡ is_some seat.cache },
}

impl CacheHandle {
    /// The handle of a cache.
    pub fn of(cache: Box<Cache>) -> CacheHandle
        ensures { result.seat.cache ≡ Some cache.value }
    {
        CacheHandle {
            seat: CacheSeat::of_parts(Parts::of(cache)),
            full: true,
        }
    }

    /// The cache, if there is one.
    fn into_box(self) -> Option<Box<Cache>>
        ensures some { IfSome result (λ cache. self.seat.cache ≡ Some cache.value) }
        ensures none { IfNone result (self.seat.cache ≡ None) }
    {
        let CacheHandle { seat, full } = self;
        if full {
            Some(seat.into_parts().into_box())
        } else {
            None
        }
    }

    /// Takes the cache out of the handle, if there is one.
    pub fn take(&mut self, alloc: Global) -> Option<Box<Cache>>
        ensures some { IfSome result (λ cache. self.old.seat.cache ≡ Some cache.value) }
        ensures none { IfNone result (self.old.seat.cache ≡ None) }
        ensures empty { self.new.seat.cache ≡ None }
    {
        if !self.full {
            return None;
        }
        self.full = false;
        let seat = mem::replace(&mut self.seat, CacheSeat::empty(alloc));
        Some(seat.into_parts().into_box())
    }

    /// Puts the cache back into the handle that it was taken out of.
    pub fn put(&mut self, cache: Box<Cache>)
        requires empty { self.old.seat.cache ≡ None }
        ensures full { self.new.seat.cache ≡ Some cache.value }
    {
        self.seat = CacheSeat::of_parts(Parts::of(cache));
        self.full = true;
    }
}

impl Drop for CacheHandle {
    fn drop(self) {
        drop(self.into_box());
    }
}
