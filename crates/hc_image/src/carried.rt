// What an image has beside the cache.
use std::alloc::{Allocator, Global};
use std::marker::Model;

/// What an image has beside the cache: it is kept, and not looked at.
#[derive(Drop)]
pub struct Carried<A: Allocator = Global> {
    /// The count of the stamps of the cache's leases.
    pub stamps: u64,
    /// The digest of each page of the device, or none at all.
    pub digests: Vec<u64, A>,
    /// Some bytes of the cache's owner, fewer than 2^32.
    pub owner: Vec<u8, A>,
}

impl<A: Allocator> Model for Carried<A> {
    ghost use Rattle.hc_image.specs.Saved.{Carried as Meaning};

    ghost Value = { Meaning };

    ghost view = { λ c. record { stamps = c.stamps; digests = c.digests.items; owner = c.owner.items } };
}
