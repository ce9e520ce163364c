// A cache that was kept is taken in, one item after another.
ghost use Rattle.std.specs.Prelude.{◌≡◌, ◌==◌, ◌||◌, ℕ, [], false, true, None, Some, option_map, is_some, IfSome, IfOk, IfErr, OnOk, OnErr, if◌then◌else◌};
ghost use Rattle.std.specs.BTreeSet.{contains};
ghost use Rattle.std.specs.Ordering.{nat_cmp};
ghost use Rattle.hc_types.specs.Limits.{first_wrong};
ghost use Rattle.hc_memory.specs.Resting.{misfit_of, after_restore};
ghost use Rattle.hc_machine.specs.Calls.{waiting_at};
ghost use Rattle.hc_invariant.specs.LargeAlone.{LargeAlone};
ghost use Rattle.hc_invariant.specs.Structure.{Structured, flash_of};
ghost use Rattle.hc_nvm.specs.Resting.{rests, AllPutsFit, AllStonesFit};
ghost use Rattle.hc_state.specs.Whole.{nvm_of};
ghost use Rattle.hc_state.specs.Resting.{begun, unfit_by, clash_of, item_misfit, with_item};

use crate::resting::Parts;
use crate::state::alloc_of;
use hc_memory::{Item, Misfit, PoolsBuilder};
use hc_nvm::Nvm;
use hc_types::{Config, Key};
use std::alloc::{Allocator, Global};
use std::collections::BTreeSet;
use std::marker::Model;

/// Why an item that was kept can't be one of this cache.
#[derive(Clone, Copy, Debug, PartialEq, Eq)]
pub enum Unfit {
    /// No pool has its number.
    NoPool,
    /// The number of its charge wasn't given out.
    NoNumber,
    /// Another item has the number of its charge.
    NumberTwice,
    /// Its key has an item, or a put that waits for flash.
    KeyTwice,
    /// It doesn't fit into its pool beside what is there.
    NoRoom,
}

/// An item that wasn't taken in, and why: without a reason memory lacked.
#[derive(Drop)]
pub struct NotTaken<A: Allocator = Global> {
    pub why: Option<Unfit>,
    pub item: Item<A>,
}

/// What was handed in to begin with, where memory lacked.
#[derive(Drop)]
pub struct NotBegun<A: Allocator = Global> {
    pub config: Config<A>,
    pub nvm: Option<Nvm<A>>,
}

/// A cache that was kept and comes back, as far as it came. Contracts see it as the cache that it is so far.
///
/// It begins with what waits for flash, to which puts and tombstones came back before (`Nvm::resume_put`). Then its items are
/// taken in one after another, in the order in which `Parts` handed them out. An item costs a look into each pool, one into the
/// queue, and one into the set of numbers.
#[derive(Drop)]
pub struct PartsBuilder<A: Allocator = Global> {
    config: Config<A>,
    pools: PoolsBuilder<A>,
    // the numbers of the items' charges
    numbers: BTreeSet<u64, A>,
    // seconds
    clock: u64,
    calls: u64,
    nvm: Option<Nvm<A>>,
}

impl<A: Allocator> Model for PartsBuilder<A> {
    ghost use Rattle.hc_machine.specs.Cache.{Cache};
    ghost use Rattle.hc_state.specs.Whole.{nvm_of};
    ghost use Rattle.hc_state.specs.Resting.{of_parts, IsCache};
    ghost use Rattle.hc_state.specs.Numbers.{AreNumbers};

    ghost Value = { Cache };

    ghost view = { λ b. of_parts b.config b.pools b.clock b.calls (nvm_of b.nvm) };

    ghost invariant = { λ b. IsCache (of_parts b.config b.pools b.clock b.calls (nvm_of b.nvm)) × AreNumbers b.numbers b.pools.pools };
}

/// Why the pools don't take an item, in this crate's words.
fn unfit_of(misfit: Option<Misfit>) -> Option<Unfit>
    ensures { result ≡ option_map unfit_by misfit }
{
    match misfit {
        Some(Misfit::NoPool) => Some(Unfit::NoPool),
        Some(Misfit::NoNumber) => Some(Unfit::NoNumber),
        Some(Misfit::KeyTwice) => Some(Unfit::KeyTwice),
        Some(Misfit::NoRoom) => Some(Unfit::NoRoom),
        None => None,
    }
}

/// Whether a put of the key waits for flash.
fn waits<A: Allocator + Clone + Copy>(nvm: &Option<Nvm<A>>, key: &Key<A>) -> bool
    ensures { result ≡ is_some (waiting_at (nvm_of nvm.now) key.now) }
{
    match nvm {
        Some(nvm) => nvm.waits_to_be_put(key),
        None => false,
    }
}

/// What waits for flash came back one after another: a law to call where a proof asks for it. It does nothing.
fn come_once<A: Allocator + Clone + Copy>(nvm: &Option<Nvm<A>>)
    ensures { IfSome (nvm_of nvm.now) (λ nvm. AllPutsFit nvm.pair.small.flash [] nvm.queue × AllStonesFit [] nvm.tombstones) }
{
    match nvm {
        Some(nvm) => nvm.comes_back(),
        None => {}
    }
}

/// Links the item, whose number is new, and keeps its number. On an error nothing changed: the pools don't take it, or memory
/// lacked.
fn link_in<A: Allocator + Clone>(
    pools: &mut PoolsBuilder<A>,
    numbers: &mut BTreeSet<u64, A>,
    item: Item<A>,
) -> Result<(), NotTaken<A>>
    requires { contains nat_cmp numbers.old item.number ≡ false }
    ensures fits { OnOk result (misfit_of pools.old item ≡ None) }
    ensures pools { OnOk result (pools.new ≡ after_restore pools.old item) }
    ensures numbers { OnOk result ((n : ℕ) → contains nat_cmp numbers.new n ≡ ((item.number == n) || contains nat_cmp numbers.old n)) }
    ensures why { IfErr result (λ refused. IfSome refused.why (λ why. option_map unfit_by (misfit_of pools.old item) ≡ Some why)) }
    ensures item_returned { IfErr result (λ refused. refused.item ≡ item) }
    ensures same_pools { OnErr result (pools.new ≡ pools.old) }
    ensures same_numbers { OnErr result ((n : ℕ) → contains nat_cmp numbers.new n ≡ contains nat_cmp numbers.old n) }
{
    let number = item.number;
    match numbers.insert(number) {
        Ok(_) => {}
        Err(_) => return Err(NotTaken { why: None, item }),
    }
    match pools.restore(item) {
        Ok(()) => Ok(()),
        Err(refused) => {
            let _ = numbers.remove(&number);
            Err(NotTaken {
                why: unfit_of(refused.why),
                item: refused.item,
            })
        }
    }
}

impl<A: Allocator + Clone + Copy> PartsBuilder<A> {
    /// Begins with a configuration that was checked, how many charges there were, the moment that held (seconds), how many calls
    /// there were, and what waits for flash, at rest, where there is flash. Refused only when out of memory; then what was handed
    /// in comes back.
    pub fn new(
        config: Config<A>,
        made: u64,
        clock: u64,
        calls: u64,
        nvm: Option<Nvm<A>>,
    ) -> Result<PartsBuilder<A>, NotBegun<A>>
        requires right { first_wrong config ≡ None }
        requires flash { config.flash ≡ flash_of (nvm_of nvm) }
        requires rest { IfSome (nvm_of nvm) (λ nvm. rests nvm ≡ true) }
        requires large { IfSome (nvm_of nvm) (λ nvm. LargeAlone nvm.pair.small.flash nvm.pair.large) }
        ensures ok { IfOk result (λ builder. builder ≡ begun config made clock calls (nvm_of nvm)) }
        ensures config_returned { IfErr result (λ back. back.config ≡ config) }
        ensures nvm_returned { IfErr result (λ back. nvm_of back.nvm ≡ nvm_of nvm) }
    {
        come_once(&nvm);
        let alloc = alloc_of(&config);
        match PoolsBuilder::new(alloc, &config, made) {
            Ok(pools) => Ok(PartsBuilder {
                config,
                pools,
                numbers: BTreeSet::new(alloc),
                clock,
                calls,
                nvm,
            }),
            Err(_) => Err(NotBegun { config, nvm }),
        }
    }

    /// Links the item as it was kept, as the one of its pool that was used last. An item that isn't taken comes back, and
    /// nothing changed: it can't be one of this cache beside what came so far, or memory lacked.
    pub fn restore(&mut self, item: Item<A>) -> Result<(), NotTaken<A>>
        ensures fits { OnOk result (item_misfit self.old item ≡ None) }
        ensures ok { OnOk result (self.new ≡ with_item item self.old) }
        ensures why { IfErr result (λ refused. IfSome refused.why (λ why. item_misfit self.old item ≡ Some why)) }
        ensures item_returned { IfErr result (λ refused. refused.item ≡ item) }
        ensures err { OnErr result (self.new ≡ self.old) }
    {
        match self.clash(&item) {
            Some(unfit) => Err(NotTaken {
                why: Some(unfit),
                item,
            }),
            None => link_in(&mut self.pools, &mut self.numbers, item),
        }
    }

    /// Why the item can't stand beside the numbers of the others, and the puts that wait.
    fn clash(&self, item: &Item<A>) -> Option<Unfit>
        ensures { result ≡ clash_of self.now item.now }
    {
        if self.numbers.contains(&item.number) {
            return Some(Unfit::NumberTwice);
        }
        if waits(&self.nvm, &item.key) {
            return Some(Unfit::KeyTwice);
        }
        None
    }
}

impl<A: Allocator> PartsBuilder<A> {
    /// The cache's parts, of all items that were taken in.
    #[must_use]
    pub fn build(self) -> Parts<A>
        ensures parts { result ≡ self }
        ensures structured { Structured result }
    {
        let PartsBuilder {
            config,
            pools,
            numbers: _,
            clock,
            calls,
            nvm,
        } = self;
        Parts {
            config,
            pools: pools.build(),
            clock,
            calls,
            nvm,
        }
    }
}
