// Both engines as one.
ghost use Rattle.std.specs.Prelude.{◌≡◌, ◌↔◌, None, IfOk, IfErr, IsOk};
ghost use Rattle.hc_types.specs.Limits.{flash_wrong};
ghost use Rattle.hc_types.specs.FlashEntry.{entry_of};
ghost use Rattle.hc_types.specs.declared.refusal.Refusal.TheVariants.{TooLarge};
ghost use Rattle.hc_engines.specs.Engine.{Put};
ghost use Rattle.hc_engines.specs.small.BigHash.{could_hold};
ghost use Rattle.hc_engines.specs.pair.Pair.{new_pair, could_have as could_have_seen, take_index as take_index_seen};
ghost use Rattle.hc_engines.specs.large.Sound.{Sound};
ghost use Rattle.hc_engines.specs.pair.Apart.{IsApart};
ghost use Rattle.hc_block.specs.Moves.{CanStart};

use hc_bighash::BigHash;
use hc_block::BlockCache;
use hc_types::{Entry, FlashConfig, Key, Refusal};
use std::alloc::{AllocError, Allocator, Global};
use std::marker::Model;

/// Both engines as one. A small entry is put by the small engine, a large one by the large engine, which flushes and
/// reclaims as well. A delete is the small engine's. A get asks the small engine first and goes on with the large one where
/// that has no such entry, or gave its bucket up. A number is that of one operation, of one engine.
///
/// Contracts see the state of the pair's machine.
#[derive(Drop)]
pub struct Pair<A: Allocator = Global> {
    pub(crate) small: BigHash<A>,
    pub(crate) large: BlockCache<A>,
}

impl<A: Allocator> Model for Pair<A> {
    ghost use Rattle.hc_engines.specs.pair.Pair.{Pair as Machine};
    ghost use Rattle.hc_pair.specs.Joined.{IsJoined};

    ghost Value = { Machine };

    ghost view = { λ p. record { small = p.small; large = p.large.block } };

    ghost invariant = { λ p. IsJoined p.small p.large };
}

impl<A: Allocator + Clone + Copy> Pair<A> {
    /// Fresh buckets and clean regions, by a configuration whose numbers are within their limits. A bucket takes 16 bytes of
    /// memory, and a region and an index entry what its engine says. Refused only when out of memory.
    pub fn new(alloc: A, flash: FlashConfig) -> Result<Pair<A>, AllocError>
        requires { flash_wrong flash ≡ None }
        ensures { IfOk result (λ pair. pair ≡ new_pair flash) }
    {
        let small = BigHash::new(alloc, flash)?;
        let large = BlockCache::new(alloc, flash)?;
        Ok(Pair { small, large })
    }

    /// Whether the entry can be put: its value has at most 1,048,576 bytes, and 14 bytes, its key and its value fit a
    /// region. Refused with `TooLarge` where they don't.
    pub fn admit(&self, entry: &Entry<A>) -> Result<(), Refusal>
        ensures ok { IsOk result ↔ CanStart self.now.small.flash (Put (entry_of entry.now)) }
        ensures err { IfErr result (λ refusal. refusal ≡ TooLarge) }
    {
        self.large.admit(entry)
    }

    /// Whether the key could be on flash: its bucket's word has all its bits, or its kept hash leads into a region. Where
    /// neither does, no engine holds the key. No page is read.
    #[must_use]
    pub fn could_have(&self, key: &Key<A>) -> bool
        ensures { result ≡ could_have_seen self.now key.now }
    {
        self.small.could_have(key) || self.large.could_have(key)
    }

    /// Whether the small engine could have the key: all its bits are in its bucket's word.
    #[must_use]
    pub fn word_has(&self, key: &Key<A>) -> bool
        ensures { result ≡ could_hold self.now.small key.now }
    {
        self.small.could_have(key)
    }

    /// What is true of both engines together, whatever was handed in: a law to call where a proof asks for it. It does
    /// nothing.
    pub fn is_sound(&self)
        ensures sound { Sound self.now.small.flash self.now.large }
        ensures apart { IsApart self.now }
    {
        self.large.is_sound();
    }

    /// The kept hash of the key leads nowhere from here on, whoever's entry it led to: the large engine holds nothing under
    /// keys of that hash, and what the small one holds stays.
    pub fn take_index(&mut self, key: &Key<A>)
        ensures { self.new ≡ take_index_seen key.now self.old }
    {
        let hash = self.large.hash_of(key);
        self.large.take_index(hash);
    }
}
