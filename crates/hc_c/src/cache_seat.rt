// Where a cache lies, as C may hold it.
ghost use Rattle.std.specs.Prelude.{◌≡◌, Option, None, Some, IsSome};
ghost use Rattle.hc_c.specs.declared.cache.Cache.{Cache};
ghost use Rattle.hc_c.specs.Seated.{cache_seated, cache_coded};

use crate::cache::Cache;
use crate::parts::Parts;
use std::alloc::Global;
use std::marker::Model;

/// Where a cache lies, if there is one. It names no type that C can't hold.
#[repr(C)]
#[derive(Drop)]
pub struct CacheSeat {
    at: *mut u8,
    alloc: Global,
    pub ghost cache: { Option Cache } by { cache_coded },
}

impl Model for CacheSeat {
    ghost also_owns = { λ s. cache_seated s.alloc s.at s.cache };
}

impl CacheSeat {
    /// A seat without a cache.
    pub fn empty(alloc: Global) -> CacheSeat
        ensures { result.cache ≡ None }
    {
        CacheSeat {
            at: std::ptr::null_mut(),
            alloc,
        }
    }

    /// The seat of a boxed cache.
    pub fn of_parts(parts: Parts<Cache, Global>) -> CacheSeat
        ensures { result.cache ≡ Some parts.value }
    {
        let Parts { ptr, alloc } = parts;
        CacheSeat {
            at: ptr as *mut u8,
            alloc,
        }
    }

    /// The boxed cache.
    pub fn into_parts(self) -> Parts<Cache, Global>
        requires { IsSome self.cache }
        ensures { Some result.value ≡ self.cache }
    {
        let CacheSeat { at, alloc } = self;
        Parts {
            ptr: at as *mut Cache,
            alloc,
        }
    }
}

// What is in a seat is what is in a box of the cache.
unsafe impl Send for CacheSeat {}
