// The clock of a cache.
ghost use Rattle.std.specs.Prelude.{◌≡◌, IfOk, OnErr, IfErr};
ghost use Rattle.hc_history.specs.Told.{Hears};
ghost use Rattle.hc_machine.specs.Cache.{Moment};
ghost use Rattle.hc_machine.specs.Calls.{tick as tick_step};
ghost use Rattle.hc_state.specs.Whole.{IsReady, IsStep, Stays};

use crate::begin::room_for_notes;
use crate::state::State;
use hc_history::{Note, Notes, Said};
use hc_types::Refusal;
use std::alloc::Allocator;

impl<N: Notes<Note<A>>, A: Allocator + Clone + Copy> State<N, A> {
    /// Moves the clock on to `moment` (seconds) and answers the moment that holds then: an earlier one is ignored. The
    /// clock begins at 0, and an item's time to live counts from the moment that holds. So tick to the day's seconds
    /// before the first item is stored: an item with a time to live that was stored before expires at that tick.
    /// Refused with `NoMemory`, only where notes are kept.
    pub fn tick(&mut self, moment: u64) -> Result<u64, Refusal>
        requires ready { IsReady self.old }
        ensures ok { IfOk result (λ now. IsStep (tick_step moment self.old.cache) (Moment now) self.old self.new) }
        ensures err { OnErr result (Stays self.old self.new) }
        ensures memory { IfErr result (λ refusal. refusal ≡ Refusal.NoMemory) }
        ensures silent { OnErr result (Hears self.old.log) }
    {
        if moment <= self.clock {
            return Ok(self.clock);
        }
        room_for_notes(&mut self.notes, &self.pools, 1)?;

        self.clock = moment;
        self.notes.note(Note::new(Said::Now { moment }));
        Ok(moment)
    }
}
