// A region is given up, so that there are as many clean ones as are wanted.
ghost use Rattle.std.specs.Prelude.{◌≡◌, ◌≤◌, OnOk, OnErr, IfOk};
ghost use Rattle.hc_machine.specs.Takes.{reclaim as reclaim_step};
ghost use Rattle.hc_nvm.specs.Starting.{IsRefused, IsReclaimed, KeepsRoom};

use crate::jobs::Task;
use crate::nvm::Nvm;
use crate::settling::settle;
use crate::starting::{NOTES_OF_AN_OPERATION, in_all};
use hc_engines::{Next, Op};
use hc_history::{Note, Notes};
use hc_memory::Pools;
use std::alloc::{AllocError, Allocator};

impl<A: Allocator + Clone + Copy> Nvm<A> {
    /// Gives up the region that was written first, where fewer regions are clean than are wanted: its entries are forgotten.
    /// Answers its number. Refused only when out of memory or the numbers of jobs have run out; then nothing changed. There
    /// is room for `spare` more notes afterwards.
    pub fn reclaim<N: Notes<Note<A>>>(
        &mut self,
        notes: &mut N,
        pools: &mut Pools<A>,
        spare: usize,
    ) -> Result<Option<u32>, AllocError>
        ensures ok { IfOk result (λ region. IsReclaimed (reclaim_step self.old.nvm) self.new.nvm region (N.told notes.old) (N.told notes.new) pools.old pools.new) }
        ensures err { OnErr result (IsRefused self.old.nvm self.new.nvm (N.told notes.old) (N.told notes.new) pools.old pools.new (N.room notes.old) (N.room notes.new)) }
        ensures rooms { KeepsRoom self.old self.new }
        ensures room { OnOk result (spare ≤ N.room notes.new) }
    {
        if self.made == u64::MAX {
            return Err(AllocError);
        }
        let others = in_all(self.tombstones.len(), NOTES_OF_AN_OPERATION, spare)?;
        let all = in_all(self.pair.most_reclaimed(), others, 0)?;
        notes.reserve(all)?;
        self.pair.is_sound();
        let next = self.pair.start(self.made + 1, &Op::Reclaim)?;
        match next {
            Next::Done(outcome) => {
                let region = outcome.reclaimed;
                let found = settle(&mut self.tombstones, Task::Flush, outcome, notes, pools);
                drop(found);
                Ok(region)
            }
            Next::Io(_, _) => unreachable!(),
            Next::Busy => unreachable!(),
        }
    }
}
