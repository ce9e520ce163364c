// A read of an entry that is under way.
ghost use Rattle.std.specs.Prelude.{◌≡◌, ◌<◌, ◌≤◌, nat_lt, OnOk, OnErr};
ghost use Rattle.hc_types.specs.Places.{kept_of};
ghost use Rattle.hc_engines.specs.large.Region.{page_no};
ghost use Rattle.hc_engines.specs.large.Unread.{read_on};
ghost use Rattle.hc_block.specs.Reads.{next_of};

use bytes::Bytes;
use hc_region::Place;
use hc_types::{FlashConfig, Key, kept};
use std::alloc::{AllocError, Allocator, Global};
use std::marker::Model;

/// A read of an entry: of which key, from which place, which of its pages were read, which page of the region is read next,
/// the first page that isn't read, and the bytes that were in the buffer when it began.
#[derive(Drop)]
pub(crate) struct Reading<A: Allocator = Global> {
    pub(crate) key: Key<A>,
    pub(crate) place: Place,
    pub(crate) got: Vec<Bytes<A>, A>,
    pub(crate) next: u64,
    pub(crate) until: u64,
    pub(crate) rest: Vec<u8, A>,
}

impl<A: Allocator> Model for Reading<A> {
    ghost use Rattle.std.specs.List.{concat};
    ghost use Rattle.hc_engines.specs.large.Block.{Reading as ReadingSeen};

    ghost Value = { ReadingSeen };

    ghost view = { λ r. record { key = r.key; place = r.place; got = concat r.got.items; next = r.next; until = r.until; rest = r.rest.items } };
}

impl<A: Allocator> Reading<A> {
    /// A page was read. It is shared.
    pub(crate) fn take_page(&mut self, page: &Bytes<A>) -> Result<(), AllocError>
        requires { self.old.next < 65536 }
        ensures ok { OnOk result (self.new ≡ read_on self.old page.now) }
        ensures err { OnErr result (self.new ≡ self.old) }
    {
        let page = page.clone()?;
        self.got.push(page)?;
        self.next += 1;
        Ok(())
    }

    /// The region that it reads.
    pub(crate) fn region(&self) -> u32
        ensures { result ≡ self.now.place.region }
    {
        self.place.region()
    }

    /// The kept hash of its key.
    pub(crate) fn hash(&self, flash: &FlashConfig) -> u64
        requires { flash.now.bits ≤ 64 }
        ensures { result ≡ kept_of flash.now.bits self.now.key }
    {
        kept(&self.key, flash.bits)
    }

    /// Whether a page is to be read.
    pub(crate) fn is_waiting(&self) -> bool
        ensures { result ≡ nat_lt self.now.next self.now.until }
    {
        self.next < self.until
    }

    /// The device's page that it reads.
    pub(crate) fn page(&self, flash: &FlashConfig) -> u32
        requires region { self.now.place.region < 65536 }
        requires small { self.now.next < 65536 }
        requires region_pages { flash.now.region_pages ≤ 4096 }
        requires buckets { flash.now.buckets ≤ 1048576 }
        ensures { result ≡ page_no flash.now self.now.place.region self.now.next }
    {
        page_number(flash, self.region(), self.next)
    }

    /// The device's page that it reads next, where there is one.
    pub(crate) fn next_page(&self, flash: &FlashConfig) -> Option<u32>
        requires region { self.now.place.region < 65536 }
        requires small { self.now.next < 65536 }
        requires region_pages { flash.now.region_pages ≤ 4096 }
        requires buckets { flash.now.buckets ≤ 1048576 }
        ensures { result ≡ next_of flash.now self.now }
    {
        if self.next + 1 < self.until {
            Some(page_number(flash, self.region(), self.next + 1))
        } else {
            None
        }
    }
}

/// The device's page that is this page of a region.
pub(crate) fn page_number(flash: &FlashConfig, r: u32, i: u64) -> u32
    requires region { r < 65536 }
    requires small { i ≤ 65536 }
    requires region_pages { flash.now.region_pages ≤ 4096 }
    requires buckets { flash.now.buckets ≤ 1048576 }
    ensures { result ≡ page_no flash.now r i }
{
    let page = flash.buckets + (u64::from(r) * flash.region_pages + i);
    page as u32
}
