// The charges that are open, and what each pool is charged for them.
ghost use Rattle.std.specs.Prelude.{◌≡◌, ◌==◌, ◌+◌, ◌-◌, ◌<◌, ◌≤◌, ◌^◌, ◌&&◌, ◌↔◌, ◌++◌, [], ◌∷◌, length, position, slice_get, swap_remove, IfOk, OnOk, OnErr, IsSome, Some, None};
ghost use Rattle.std.specs.Str.{bytes_eq};
ghost use Rattle.hc_types.specs.Charge.{charge_of};
ghost use Rattle.hc_memory.specs.Item.{Open};
ghost use Rattle.hc_memory.specs.Charges.{has_number, charge_at, usage_of, open_at, closed, all_closed};

use crate::usage::Usage;
use hc_types::{Key, VALUE_MAX, charge};
use indexmap::IndexMap;
use std::alloc::{AllocError, Allocator, Global};
use std::hash::{BuildHasherDefault, FoldHasher};
use std::marker::Model;

/// A charge that is open: an item of this key, with a value of `size` bytes, is being written for this pool.
#[derive(Drop)]
pub struct OpenCharge<A: Allocator = Global> {
    pub pool: u8,
    pub key: Key<A>,
    pub size: u64,
}

/// The charges that are open, under their numbers, and what each pool is charged for them. Contracts see the charges,
/// and how many pools there are.
#[derive(Drop)]
pub struct OpenCharges<A: Allocator = Global> {
    charges: IndexMap<u64, OpenCharge<A>, BuildHasherDefault<FoldHasher>, A>,
    // of each pool, in order
    usage: Vec<Usage, A>,
}

impl<A: Allocator> Model for OpenCharges<A> {
    ghost use Rattle.std.specs.Prelude.{◌≡◌, length, map};
    ghost use Rattle.hc_types.specs.Tally.{count};
    ghost use Rattle.hc_memory.specs.Charges.{Book, open_of, AreSums, is_stray};

    ghost Value = { Book };

    ghost view = { λ o. record { charges = map open_of o.charges.entries; pools = length o.usage.items } };

    ghost invariant = { λ o. AreSums o.usage.items (map open_of o.charges.entries) × (count (is_stray (length o.usage.items)) (map open_of o.charges.entries) ≡ 0) };
}

impl<A: Allocator + Copy> OpenCharges<A> {
    /// No charge is open.
    pub fn new(alloc: A, pools: usize) -> Result<OpenCharges<A>, AllocError>
        ensures { IfOk result (λ book. book ≡ record { charges = []; pools = pools }) }
    {
        let mut usage = Vec::with_capacity(alloc, pools)?;
        usage.resize(pools, NONE)?;
        Ok(OpenCharges {
            charges: IndexMap::new(alloc),
            usage,
        })
    }
}

impl<A: Allocator> OpenCharges<A> {
    /// How many charges are open.
    pub fn len(&self) -> usize
        ensures { result ≡ length self.now.charges }
    {
        self.charges.len()
    }

    /// What the open charges of a pool come to.
    pub fn usage(&self, pool: u8) -> Usage
        requires { pool < self.now.pools }
        ensures { result ≡ usage_of pool self.now.charges }
    {
        self.usage[usize::from(pool)]
    }

    /// The place of this charge, if it is open.
    pub fn place_of(&self, number: u64, pool: u8, key: &Key<A>, size: u64) -> Option<usize>
        ensures value { result ≡ open_at (record { number = number; pool = pool; key = key.now; size = size }) self.now.charges }
        ensures exact { IsSome result ↔ (charge_at number self.now.charges ≡ Some (record { number = number; pool = pool; key = key.now; size = size })) }
    {
        match self.charges.get_full(&number) {
            Some((place, _, open)) => {
                if open.is_of(pool, key, size) {
                    Some(place)
                } else {
                    None
                }
            }
            None => None,
        }
    }

    /// Opens a charge under a number of its own. When out of memory, nothing changes.
    pub fn begin(&mut self, number: u64, pool: u8, key: Key<A>, size: u64) -> Result<(), AllocError>
        requires pool { pool < self.old.pools }
        requires free { charge_at number self.old.charges ≡ None }
        requires size { size ≤ VALUE_MAX }
        requires bytes { (usage_of pool self.old.charges).bytes + charge_of key size < 2 ^ 64 }
        ensures ok { OnOk result (self.new ≡ record self.old { charges = self.old.charges ++ record { number = number; pool = pool; key = key; size = size } ∷ [] }) }
        ensures err { OnErr result (self.new ≡ self.old) }
    {
        let cost = charge(&key, size);
        let at = usize::from(pool);
        self.charges.insert(number, OpenCharge { pool, key, size })?;
        let _count = self.charges.len();
        self.usage[at] = with_charge(self.usage[at], cost);
        Ok(())
    }

    /// Closes the charge at this place, which the last one takes.
    pub fn end_at(&mut self, place: usize)
        requires { place < length self.old.charges }
        ensures { (charge : Open) → slice_get self.old.charges place ≡ Some charge → self.new ≡ record self.old { charges = swap_remove self.old.charges place charge } }
    {
        match self.charges.swap_remove_index(place) {
            Some((_, open)) => {
                let (pool, cost) = open.into_cost();
                let at = usize::from(pool);
                self.usage[at] = without_charge(self.usage[at], cost);
            }
            None => unreachable!(),
        }
    }

    /// The place of the charge with this number, if it is open.
    fn place_at(&self, number: u64) -> Option<usize>
        ensures { result ≡ position (has_number number) self.now.charges }
    {
        self.charges.get_index_of(&number)
    }

    /// Closes the charge with this number, whose place the last one takes. Nothing changes where it isn't open.
    pub fn end(&mut self, number: u64)
        ensures { self.new ≡ record self.old { charges = closed number self.old.charges } }
    {
        if let Some(place) = self.place_at(number) {
            self.end_at(place);
        }
    }

    /// Closes the charges with these numbers, the first one first.
    pub fn end_each(&mut self, numbers: &[u64])
        ensures { self.new ≡ record self.old { charges = all_closed numbers.now self.old.charges } }
    {
        for number in numbers {
            self.end(*number);
        }
    }
}

impl<A: Allocator> OpenCharge<A> {
    // It is of this pool, key and size.
    fn is_of(&self, pool: u8, key: &Key<A>, size: u64) -> bool
        ensures { result ≡ ((pool == self.now.pool) && bytes_eq key.now self.now.key && (size == self.now.size)) }
    {
        pool == self.pool && *key == self.key && size == self.size
    }

    // Its pool, and what it comes to, in bytes.
    fn into_cost(self) -> (u8, u64)
        requires { self.size ≤ VALUE_MAX }
        ensures pool { result.0 ≡ self.pool }
        ensures cost { result.1 ≡ charge_of self.key self.size }
    {
        (self.pool, charge(&self.key, self.size))
    }
}

const NONE: Usage = Usage {
    bytes: 0,
    number: 0,
};

// With one charge more, of so many bytes.
fn with_charge(usage: Usage, cost: u64) -> Usage
    requires bytes { usage.bytes + cost < 2 ^ 64 }
    requires number { usage.number + 1 < 2 ^ 64 }
    ensures { result ≡ record { bytes = usage.bytes + cost; number = usage.number + 1 } }
{
    Usage {
        bytes: usage.bytes + cost,
        number: usage.number + 1,
    }
}

// With one charge less, of so many bytes.
fn without_charge(usage: Usage, cost: u64) -> Usage
    requires bytes { cost ≤ usage.bytes }
    requires number { 1 ≤ usage.number }
    ensures { result ≡ record { bytes = usage.bytes - cost; number = usage.number - 1 } }
{
    Usage {
        bytes: usage.bytes - cost,
        number: usage.number - 1,
    }
}
