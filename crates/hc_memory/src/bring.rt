// Items that come from flash.
ghost use Rattle.std.specs.Prelude.{◌≡◌, ◌+◌, ◌<◌, ◌≤◌, true, false, length, IfOk, OnOk, OnErr, None};
ghost use Rattle.hc_types.specs.Charge.{charge_of};
ghost use Rattle.hc_memory.specs.Memory.{linked_at, is_hopeless, victims_of, handle_for, after_charge, after_link};

use crate::answers::Brought;
use crate::clean::forget_items;
use crate::item::Held;
use crate::pools::{Pools, room_for};
use crate::value::{ItemValue, apart};
use bytes::Bytes;
use hc_types::{Key, VALUE_MAX};
use std::alloc::{AllocError, Allocator};

impl<A: Allocator + Clone> Pools<A> {
    /// Makes room in the pool for an item that comes from flash, where a copy of it stays, and links it at once, as the
    /// one that was used last: the `count` items that were used longest ago go, as `victims` says how many. Its key has
    /// no item, its value is copied where it is short beside the pages that it was read with (`SHARED_PAGES`), and it
    /// expires at `expiry` (seconds; 0: never). Refused only when out of memory, or no number is left; then nothing
    /// changed, and the key and the value are dropped.
    pub fn bring(
        &mut self,
        pool: u8,
        key: Key<A>,
        value: Bytes<A>,
        expiry: u64,
        count: usize,
    ) -> Result<Brought<A>, AllocError>
        requires pool { pool < length self.old.pools }
        requires size { length value ≤ VALUE_MAX }
        requires count { count ≡ length (victims_of self.old pool (charge_of key (length value))) }
        requires room { is_hopeless self.old pool (charge_of key (length value)) ≡ false }
        requires absent { linked_at key self.old.pools ≡ None }
        ensures number { IfOk result (λ brought. brought.number ≡ self.old.made + 1) }
        ensures victims { IfOk result (λ brought. brought.victims.items ≡ victims_of self.old pool (charge_of key (length value))) }
        ensures pools { OnOk result (self.new ≡ after_link (after_charge self.old pool key (length value)) true (handle_for self.old pool key value expiry)) }
        ensures err { OnErr result (self.new ≡ self.old) }
    {
        let alloc = self.pools.allocator();
        let number = match self.made.checked_add(1) {
            Some(number) => number,
            None => return Err(AllocError),
        };
        let mut victims = room_for(alloc, count)?;
        let len = value.len() as u64;
        let value = apart(alloc, &self.flash, value)?;
        self.clean.list(alloc, &self.flash, &key, len)?;
        let held = Held {
            number,
            pool,
            value: ItemValue::new(value),
            expiry,
            clean: true,
        };
        self.pools[usize::from(pool)].bring(key, held, count, &mut victims)?;

        self.clean.set_newest(number);
        self.marks.settle_all(&self.flash, &mut victims);
        forget_items(&mut self.clean, &self.flash, victims.as_slice());
        self.made = number;
        Ok(Brought { number, victims })
    }
}
