// The keys of the large clean items, by where their copies stand on flash.
ghost use Rattle.std.specs.Prelude.{◌≡◌, ◌<◌, ◌≤◌, ◌^◌, ℕ, List, true, false, [], max, IfSome, OnOk};
ghost use Rattle.std.specs.Str.{bytes_eq};
ghost use Rattle.hc_types.specs.Loss.{scope_of, covers};
ghost use Rattle.hc_types.specs.Tally.{count};
ghost use Rattle.hc_memory.specs.Pool.{is_at};
ghost use Rattle.hc_memory.specs.Clean.{has_key, is_listed, is_told, is_hash, large_places, large_at};

use crate::groups::KeyGroups;
use crate::item::Item;
use hc_types::{FlashConfig, Key, Scope, is_small, kept};
use std::alloc::{AllocError, Allocator, Global};
use std::marker::Model;

/// The keys of the large clean items, each listed once, by where a copy of its item stands on flash: in a place that its kept
/// hash alone says, of which there are as many as pages in all regions. Small items need no list (`Marks`). Contracts see the
/// keys, and the greatest number of a clean item.
///
/// More keys may be listed than have clean items, so that only listing has to be certain.
#[derive(Drop)]
pub(crate) struct CleanIndex<A: Allocator = Global> {
    newest: u64,
    large: KeyGroups<A>,
}

impl<A: Allocator> Model for CleanIndex<A> {
    ghost use Rattle.hc_memory.specs.Clean.{Listing};

    ghost Value = { Listing };

    ghost view = { λ c. record { newest = c.newest; large = c.large } };
}

impl<A: Allocator> CleanIndex<A> {
    /// No key is listed.
    pub(crate) fn new(alloc: A) -> CleanIndex<A>
        ensures { result ≡ record { newest = 0; large = [] } }
    {
        CleanIndex {
            newest: 0,
            large: KeyGroups::new(alloc),
        }
    }

    /// The greatest number of an item that was listed (0: none was).
    pub(crate) fn newest(&self) -> u64
        ensures { result ≡ self.now.newest }
    {
        self.newest
    }

    /// The keys that are listed where the items of a kept hash stand.
    pub(crate) fn listed(&self, flash: &Option<FlashConfig>, scope: &Scope<A>) -> &[Key<A>]
        requires { is_hash (scope_of scope.now) ≡ true }
        ensures { (key : List ℕ) (len : ℕ) → covers flash.now (scope_of scope.now) key len ≡ true → is_listed flash.now self.now key len ≡ true → has_key key result.now ≡ true }
    {
        match (scope, flash) {
            (Scope::Hash { kept, .. }, Some(flash)) => self.large.keys(*kept % places_in(flash)),
            (_, _) => &[],
        }
    }
}

impl<A: Allocator> CleanIndex<A> {
    /// The key isn't listed any more.
    pub(crate) fn forget(&mut self, flash: &Option<FlashConfig>, key: &Key<A>)
        requires { IfSome flash.now (λ f. f.bits ≤ 64) }
        ensures newest { self.new.newest ≡ self.old.newest }
        ensures stay { (other : List ℕ) (n : ℕ) → bytes_eq key.now other ≡ false → is_listed flash.now self.old other n ≡ true → is_listed flash.now self.new other n ≡ true }
    {
        if self.large.is_empty() {
            return;
        }
        if let Some(flash) = flash {
            self.large.remove(large_place(key, flash), key);
        }
    }

    /// What the scope covers isn't listed any more.
    pub(crate) fn forget_covered(&mut self, flash: &Option<FlashConfig>, scope: &Scope<A>)
        requires { IfSome flash.now (λ f. f.bits ≤ 64) }
        ensures newest { self.new.newest ≡ self.old.newest }
        ensures stay { (key : List ℕ) (len : ℕ) → covers flash.now (scope_of scope.now) key len ≡ false → is_listed flash.now self.old key len ≡ true → is_listed flash.now self.new key len ≡ true }
    {
        match (scope, flash) {
            (Scope::Key(key), _) => self.forget(flash, key),
            (Scope::Hash { kept, but }, Some(flash)) => {
                let place = *kept % places_in(flash);
                self.large.remove_under(place, flash.bits, *kept, but);
            }
            (_, _) => {}
        }
    }
}

impl<A: Allocator> CleanIndex<A> {
    /// A clean item of this number comes in, greater than that of any other.
    pub(crate) fn set_newest(&mut self, number: u64)
        ensures { self.new ≡ record { newest = number; large = self.old.large } }
    {
        self.newest = number;
    }
}

impl<A: Allocator + Clone> CleanIndex<A> {
    /// An item of this key, with a value of so many bytes, is listed from here on, where it is a large one. Refused only when
    /// out of memory.
    pub(crate) fn list(
        &mut self,
        alloc: &A,
        flash: &Option<FlashConfig>,
        key: &Key<A>,
        len: u64,
    ) -> Result<(), AllocError>
        requires len { len < 2 ^ 63 }
        requires bits { IfSome flash.now (λ f. f.bits ≤ 64) }
        ensures listed { OnOk result (is_listed flash.now self.new key.now len ≡ true) }
        ensures newest { self.new.newest ≡ self.old.newest }
        ensures stay { (other : List ℕ) (n : ℕ) → is_listed flash.now self.old other n ≡ true → is_listed flash.now self.new other n ≡ true }
    {
        let Some(flash) = flash else {
            return Ok(());
        };
        if is_small(key, len, flash) {
            return Ok(());
        }
        self.large.add(alloc, large_place(key, flash), key)
    }
}

impl<A: Allocator + Clone> CleanIndex<A> {
    /// The item comes in as it was kept: it is listed where it is clean, and may be newer than any other. Refused only when out
    /// of memory.
    pub(crate) fn list_item(
        &mut self,
        alloc: &A,
        flash: &Option<FlashConfig>,
        item: &Item<A>,
    ) -> Result<(), AllocError>
        requires { IfSome flash.now (λ f. f.bits ≤ 64) }
        ensures told { OnOk result (item.now.clean ≡ true → is_told flash.now self.new item.now ≡ true) }
        ensures least { self.old.newest ≤ self.new.newest }
        ensures most { self.new.newest ≤ max self.old.newest item.now.number }
        ensures stay { (other : List ℕ) (n : ℕ) → is_listed flash.now self.old other n ≡ true → is_listed flash.now self.new other n ≡ true }
    {
        if !item.clean {
            return Ok(());
        }
        self.list(alloc, flash, &item.key, item.value.len() as u64)?;
        let newest = self.newest().max(item.number);
        self.set_newest(newest);
        Ok(())
    }
}

/// How many places large items have: as many as pages in all regions.
fn places_in(flash: &FlashConfig) -> u64
    ensures value { result ≡ large_places flash.now }
    ensures least { 1 ≤ result }
{
    flash.regions.saturating_mul(flash.region_pages).max(1)
}

/// The place of a large item of this key.
fn large_place<A: Allocator>(key: &Key<A>, flash: &FlashConfig) -> u64
    requires { flash.now.bits ≤ 64 }
    ensures { result ≡ large_at flash.now key.now }
{
    kept(key, flash.bits) % places_in(flash)
}

/// The keys of these items, which went, aren't listed any more. One that isn't clean may still be listed, if its item took the
/// place of a clean one.
pub(crate) fn forget_items<A: Allocator>(
    index: &mut CleanIndex<A>,
    flash: &Option<FlashConfig>,
    items: &[Item<A>],
)
    requires { IfSome flash.now (λ f. f.bits ≤ 64) }
    ensures newest { index.new.newest ≡ index.old.newest }
    ensures stay { (other : List ℕ) (n : ℕ) → count (is_at other) items.now ≡ 0 → is_listed flash.now index.old other n ≡ true → is_listed flash.now index.new other n ≡ true }
{
    for item in items {
        index.forget(flash, &item.key);
    }
}
