// What can be served next: it isn't out, and no job is on its bucket.
ghost use Rattle.std.specs.Prelude.{◌≡◌, option_map, IfOk};
ghost use Rattle.hc_types.specs.FlashEntry.{entry_of};
ghost use Rattle.hc_engines.specs.small.BigHash.{is_busy};
ghost use Rattle.hc_machine.specs.Nvm.{Tombstone, Fill, next_delete as delete_step, next_put as put_step, next_fill as fill_step};
ghost use Rattle.hc_nvm.specs.Starting.{KeepsRoom};
ghost use Rattle.hc_waiting.specs.Fills.{fill_under};

use crate::nvm::Nvm;
use hc_types::{Entry, Key};
use std::alloc::{AllocError, Allocator};

impl<A: Allocator + Clone + Copy> Nvm<A> {
    /// The key of the next delete that can be served.
    pub(crate) fn next_delete(&mut self) -> Result<Option<Key<A>>, AllocError>
        ensures same { self.new.nvm ≡ self.old.nvm }
        ensures rooms { KeepsRoom self.old self.new }
        ensures next { IfOk result (λ key. key ≡ option_map (λ (stone : Tombstone). stone.key) (delete_step self.old.nvm)) }
    {
        let pair = &self.pair;
        self.tombstones.next(
            |bucket|
                ensures { result ≡ is_busy bucket pair.entry.now.small.jobs }
            { pair.is_busy(bucket) },
        )
    }

    /// The next put that can be served: another owner of its entry.
    pub(crate) fn next_put(&mut self) -> Result<Option<Entry<A>>, AllocError>
        ensures same { self.new.nvm ≡ self.old.nvm }
        ensures rooms { KeepsRoom self.old self.new }
        ensures next { IfOk result (λ put. option_map entry_of put ≡ put_step self.old.nvm) }
    {
        let pair = &self.pair;
        self.queue.next(
            |bucket|
                ensures { result ≡ is_busy bucket pair.entry.now.small.jobs }
            { pair.is_busy(bucket) },
        )
    }

    /// The key of the next fill that can be served. Nothing changes. Refused only when out of memory.
    pub fn next_fill(&mut self) -> Result<Option<Key<A>>, AllocError>
        ensures same { self.new.nvm ≡ self.old.nvm }
        ensures rooms { KeepsRoom self.old self.new }
        ensures next { IfOk result (λ key. key ≡ option_map (λ (fill : Fill). fill.key) (fill_step self.old.nvm)) }
        ensures there { IfOk result (λ key. fill_under key self.old.nvm.fills ≡ fill_step self.old.nvm) }
    {
        let pair = &self.pair;
        self.fills.next(
            |bucket|
                ensures { result ≡ is_busy bucket pair.entry.now.small.jobs }
            { pair.is_busy(bucket) },
        )
    }
}
