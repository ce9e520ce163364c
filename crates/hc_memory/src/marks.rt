// The clean marks of small items, by when their buckets were lost.
ghost use Rattle.std.specs.Prelude.{◌≡◌, ◌≤◌, ◌<◌, ◌^◌, ◌&&◌, IfOk, IfSome, OnOk, length, replicate, slice_set, get_or};
ghost use Rattle.hc_memory.specs.Marks.{is_lost, is_stale, settled};
ghost use Rattle.hc_memory.specs.Pool.{unmarked_where};

use crate::item::Item;
use hc_types::{FlashConfig, Key, bucket_of, is_small};
use std::alloc::{AllocError, Allocator, Global};
use std::marker::Model;

/// When buckets were lost. A bucket's copies are lost together, so that no list of their keys is needed: with each bucket
/// stands the greatest number that a clean item had when it was lost last (0: never), and a small clean item with a number no
/// greater than that has lost its mark. Contracts see the numbers.
///
/// It takes 8 bytes a bucket.
#[derive(Drop)]
pub(crate) struct Marks<A: Allocator = Global> {
    lost: Vec<u64, A>,
    // no number is greater
    last: u64,
}

impl<A: Allocator> Model for Marks<A> {
    ghost use Rattle.std.specs.Prelude.{◌≤◌, ℕ, List, get_or};

    ghost Value = { List ℕ };

    ghost view = { λ m. m.lost.items };

    ghost invariant = { λ m. (bucket : ℕ) → get_or m.lost.items bucket 0 ≤ m.last };
}

impl<A: Allocator> Marks<A> {
    /// No bucket was lost. Refused only when out of memory.
    pub(crate) fn new(alloc: A, flash: &Option<FlashConfig>) -> Result<Marks<A>, AllocError>
        ensures none { IfOk result (λ marks. marks ≡ replicate (length marks) 0) }
        ensures wide { OnOk result (IfSome flash.now (λ f. IfOk result (λ marks. f.buckets ≤ length marks))) }
    {
        let buckets = match flash {
            Some(flash) => flash.buckets as usize,
            None => 0,
        };
        let mut lost = Vec::with_capacity(alloc, buckets)?;
        lost.resize(buckets, 0)?;
        Ok(Marks { lost, last: 0 })
    }

    /// The bucket is lost, and `newest` is the greatest number of a clean item.
    pub(crate) fn lose(&mut self, bucket: u32, newest: u64)
        ensures { self.new ≡ slice_set self.old bucket newest }
    {
        if let Some(number) = self.lost.get_mut(bucket as usize) {
            *number = newest;
            self.last = self.last.max(newest);
        }
    }

    /// Whether the bucket of a small item of this key and this number was lost since.
    fn is_lost(&self, flash: &Option<FlashConfig>, key: &Key<A>, len: u64, number: u64) -> bool
        requires len { len < 2 ^ 63 }
        requires bits { IfSome flash.now (λ f. f.bits ≤ 64) }
        requires buckets { IfSome flash.now (λ f. 1 ≤ f.buckets) }
        ensures { result ≡ is_lost flash.now self.now key.now len number }
    {
        match flash {
            Some(flash) => is_small(key, len, flash)
                && number <= self.number_at(bucket_of(key, flash)),
            None => false,
        }
    }

    /// The number that stands with the bucket.
    fn number_at(&self, bucket: u64) -> u64
        ensures { result ≡ get_or self.now bucket 0 }
    {
        match self.lost.get(bucket as usize) {
            Some(number) => *number,
            None => 0,
        }
    }

    /// Whether the item has a mark that it loses, since its bucket was lost. No key is hashed of an item that is newer than each
    /// loss.
    pub(crate) fn takes(&self, flash: &Option<FlashConfig>, item: &Item<A>) -> bool
        requires bits { IfSome flash.now (λ f. f.bits ≤ 64) }
        requires buckets { IfSome flash.now (λ f. 1 ≤ f.buckets) }
        ensures { result ≡ (item.now.clean && is_stale flash.now self.now item.now) }
    {
        item.clean
            && item.number <= self.last
            && self.is_lost(flash, &item.key, item.value.len() as u64, item.number)
    }

    /// Takes the item's mark where its bucket was lost since. No key is hashed of an item that is newer than each loss.
    pub(crate) fn settle(&self, flash: &Option<FlashConfig>, item: &mut Item<A>)
        requires bits { IfSome flash.now (λ f. f.bits ≤ 64) }
        requires buckets { IfSome flash.now (λ f. 1 ≤ f.buckets) }
        ensures { item.new ≡ settled flash.now self.now item.old }
    {
        if item.clean && item.number <= self.last {
            let len = item.value.len() as u64;
            item.clean = !self.is_lost(flash, &item.key, len, item.number);
        }
    }

    /// Takes the marks of items whose buckets were lost since.
    pub(crate) fn settle_all(&self, flash: &Option<FlashConfig>, items: &mut Vec<Item<A>, A>)
        requires bits { IfSome flash.now (λ f. f.bits ≤ 64) }
        requires buckets { IfSome flash.now (λ f. 1 ≤ f.buckets) }
        ensures { items.new.items ≡ unmarked_where (is_stale flash.now self.now) items.old.items }
    {
        for i in 0..items.len() {
            self.settle(flash, &mut items[i]);
        }
    }
}
