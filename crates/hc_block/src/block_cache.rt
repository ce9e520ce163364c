// The engine for large objects.
ghost use Rattle.std.specs.Prelude.{◌≡◌, None, is_some, IfOk};
ghost use Rattle.hc_types.specs.Limits.{flash_wrong};
ghost use Rattle.hc_types.specs.Places.{kept_of};
ghost use Rattle.hc_engines.specs.large.Index.{place_at};
ghost use Rattle.hc_engines.specs.large.Laws.{new_block};
ghost use Rattle.hc_engines.specs.large.Sound.{Sound};
ghost use Rattle.hc_engines.specs.large.Steps.{take_index as take_index_seen};

use crate::index::Index;
use crate::jobs::Jobs;
use hc_region::{CleanRegions, Place, Region, all_clean, fill};
use hc_types::{FlashConfig, Key, kept};
use std::alloc::{AllocError, Allocator, Global};
use std::collections::VecDeque;
use std::marker::Model;

/// The engine for large objects: regions that are filled one after the other, and an index of where each kept hash leads.
/// Contracts see the configuration and the state of its machine.
#[derive(Drop)]
pub struct BlockCache<A: Allocator = Global> {
    pub(crate) alloc: A,
    pub(crate) flash: FlashConfig,
    pub(crate) regions: Vec<Region<A>, A>,
    /// The numbers of the clean regions.
    pub(crate) clean: CleanRegions<A>,
    pub(crate) current: Option<u32>,
    pub(crate) sealed: VecDeque<u32, A>,
    pub(crate) flushed: VecDeque<u32, A>,
    pub(crate) index: Index<A>,
    pub(crate) jobs: Jobs<A>,
}

impl<A: Allocator> Model for BlockCache<A> {
    ghost use Rattle.hc_block.specs.Large.{Large, IsKept};

    ghost Value = { Large };

    ghost view = { λ b. record { flash = b.flash; block = record { regions = b.regions.items; current = b.current; sealed = b.sealed.items; flushed = b.flushed.items; index = b.index; jobs = b.jobs } } };

    ghost invariant = { λ b. IsKept b.flash (record { regions = b.regions.items; current = b.current; sealed = b.sealed.items; flushed = b.flushed.items; index = b.index; jobs = b.jobs }) b.clean };
}

impl<A: Allocator + Clone + Copy> BlockCache<A> {
    /// Clean regions, by a configuration whose numbers are within their limits.
    #[tactic(auto, using(crate::proofs::Making::new_kept))]
    pub fn new(alloc: A, flash: FlashConfig) -> Result<BlockCache<A>, AllocError>
        requires { flash_wrong flash ≡ None }
        ensures { IfOk result (λ b. b ≡ record { flash = flash; block = new_block flash }) }
    {
        let mut regions = Vec::with_capacity(alloc, flash.regions as usize)?;
        fill(alloc, &mut regions, flash.regions)?;
        let clean = all_clean(alloc, flash.regions)?;
        let index = Index::new(alloc, flash.bits)?;
        Ok(BlockCache {
            alloc,
            flash,
            regions,
            clean,
            current: None,
            sealed: VecDeque::new(alloc),
            flushed: VecDeque::new(alloc),
            index,
            jobs: Jobs::new(alloc),
        })
    }

    /// The kept hash of a key.
    #[must_use]
    pub fn hash_of(&self, key: &Key<A>) -> u64
        ensures { result ≡ kept_of self.now.flash.bits key.now }
    {
        kept(key, self.flash.bits)
    }

    /// Where the key's hash leads.
    pub(crate) fn place_of_key(&self, key: &Key<A>) -> Option<Place>
        ensures { result ≡ place_at (kept_of self.now.flash.bits key.now) self.now.block.index }
    {
        self.index.get(kept(key, self.flash.bits))
    }

    /// Whether the engine could hold the key: its kept hash leads somewhere.
    #[must_use]
    pub fn could_have(&self, key: &Key<A>) -> bool
        ensures { result ≡ is_some (place_at (kept_of self.now.flash.bits key.now) self.now.block.index) }
    {
        self.place_of_key(key).is_some()
    }

    /// The kept hash leads nowhere from here on, whoever's entry it led to.
    pub fn take_index(&mut self, hash: u64)
        ensures { self.new ≡ record self.old { block = take_index_seen hash self.old.block } }
    {
        self.index.remove(hash);
    }

    pub(crate) fn allocator(&self) -> A {
        self.alloc
    }

    /// What is true of the engine by itself, whatever was handed in: a law to call where a proof asks for it. It does
    /// nothing.
    pub fn is_sound(&self)
        ensures { Sound self.now.flash self.now.block }
    {
        let _ = &self.flash;
    }
}
