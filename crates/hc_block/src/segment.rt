// A segment of the index.
ghost use Rattle.std.specs.Prelude.{◌≡◌, ◌==◌, ℕ, ◌≤◌, ◌<◌, ◌^◌, [], ◌∷◌, length, OnOk, OnErr, MatchOption};
ghost use Rattle.std.specs.List.{list_all};
ghost use Rattle.hc_engines.specs.large.Index.{place_at, leading, without};
ghost use Rattle.hc_engines.specs.large.Region.{region_at, filled_to};
ghost use Rattle.hc_engines.specs.large.Sound.{IsRising};
ghost use Rattle.hc_block.specs.Indexes.{Rises};
ghost use Rattle.hc_block.specs.Resting.{leads_well};

use crate::leads::Lead;
use crate::resting::leads_well;
use hc_region::{Place, Region};
use hc_types::FlashConfig;
use std::alloc::{AllocError, Allocator, Global};
use std::collections::BTreeMap;
use std::marker::Model;

/// Where kept hashes of one segment lead, in order of the hash. Contracts see the list of its pairs.
#[derive(Drop)]
pub(crate) struct Segment<A: Allocator = Global> {
    map: BTreeMap<u64, Place, A>,
}

impl<A: Allocator> Model for Segment<A> {
    ghost use Rattle.std.specs.Prelude.{List};
    ghost use Rattle.hc_engines.specs.large.Index.{Indexed};
    ghost use Rattle.hc_block.specs.Indexes.{pairs_of};

    ghost Value = { List Indexed };

    ghost view = { λ segment. pairs_of segment.map.entries };
}

impl<A: Allocator> Segment<A> {
    /// It leads nowhere.
    pub(crate) fn new(alloc: A) -> Segment<A>
        ensures { result ≡ [] }
    {
        Segment {
            map: BTreeMap::new(alloc),
        }
    }

    /// Where the hash leads.
    pub(crate) fn get(&self, hash: u64) -> Option<Place>
        ensures { result ≡ place_at hash self.now }
    {
        self.map.get(&hash).copied()
    }

    /// The hash leads nowhere from here on.
    pub(crate) fn remove(&mut self, hash: u64)
        ensures { self.new ≡ without hash self.old }
    {
        let _len = self.map.len();
        let _ = self.map.remove(&hash);
    }

    /// Whether it leads nowhere.
    pub(crate) fn is_empty(&self) -> bool
        ensures { result ≡ (length self.now == 0) }
    {
        self.map.len() == 0
    }

    /// Its hashes rise: a law to call where a proof asks for it. It does nothing.
    pub(crate) fn in_order(&self)
        ensures { Rises self.now }
    {
        let _len = self.map.len();
    }

    /// The first of its hashes leads nowhere from here on. Where it led.
    pub(crate) fn take_first(&mut self) -> Option<Lead>
        ensures { MatchOption result (self.old ≡ []) (λ lead. self.old ≡ lead ∷ self.new) }
    {
        match self.map.pop_first() {
            Some((hash, place)) => Some(Lead::new(hash, place)),
            None => None,
        }
    }
}

impl<A: Allocator + Clone + Copy> Segment<A> {
    /// Whether each of its hashes leads to a large entry of these regions.
    pub(crate) fn all_lead(&self, regions: &[Region<A>], flash: &FlashConfig) -> bool
        requires small { flash.now.small_max ≤ 4096 }
        requires filled { (r : ℕ) → filled_to flash.now (region_at r regions.now) < 2 ^ 32 }
        requires rising { (r : ℕ) → IsRising 0 (region_at r regions.now).appended (filled_to flash.now (region_at r regions.now)) }
        ensures { result ≡ list_all (leads_well flash.now regions.now) self.now }
    {
        for (hash, place) in &self.map {
            if !leads_well(regions, flash, *hash, *place) {
                return false;
            }
        }
        true
    }
}

impl<A: Allocator + Clone> Segment<A> {
    /// The hash leads to this place from here on, and to no other. Refused only when out of memory.
    pub(crate) fn insert(&mut self, hash: u64, place: Place) -> Result<(), AllocError>
        ensures ok { OnOk result (self.new ≡ leading hash place self.old) }
        ensures err { OnErr result (self.new ≡ self.old) }
    {
        match self.map.insert(hash, place) {
            Ok(_) => Ok(()),
            Err(_) => Err(AllocError),
        }
    }
}
