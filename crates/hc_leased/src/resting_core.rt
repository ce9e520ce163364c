// A core with leases that is closed at rest, and one that goes on where it stood.
ghost use Rattle.std.specs.Prelude.{◌≡◌, ◌<◌, true, None, replicate, IfOk, IfErr};
ghost use Rattle.hc_history.specs.Told.{IfLog};
ghost use Rattle.hc_invariant.specs.Structure.{Structured};
ghost use Rattle.hc_lease.specs.Stamps.{after_restart};
ghost use Rattle.hc_state.specs.Resting.{is_at_rest};
ghost use Rattle.hc_theorem.specs.runs.Lock.{Guarded};

use crate::leased::Leased;
use crate::resting::tables;
use hc_core::Core;
use hc_history::Listener;
use hc_state::Parts;
use std::alloc::Allocator;

impl<N: Listener, A: Allocator + Clone + Copy> Leased<Core<N, A>, A> {
    /// As `Core::is_at_rest`.
    #[must_use]
    pub fn is_at_rest(&self) -> bool
        ensures { result ≡ is_at_rest self.now.logged.cache }
    {
        self.cache.is_at_rest()
    }

    /// As `Core::close`, with how many changes of keys there were.
    #[must_use]
    pub fn close(self) -> (Parts<A>, N, u64)
        requires { is_at_rest self.logged.cache ≡ true }
        ensures parts { result.0 ≡ self.logged.cache }
        ensures structured { Structured result.0 }
        ensures log { N.told result.1 ≡ self.logged.log }
        ensures guarded { IfLog (N.told result.1) (λ log. Guarded result.0.config log result.0) }
        ensures changes { result.2 ≡ self.stamps.count }
    {
        let (core, changes) = self.into_parts();
        let (parts, notes) = core.close();
        (parts, notes, changes)
    }

    /// As `Core::from_parts`, with leases as `resume` makes them, of how many changes `close` told. Refused when out of memory
    /// alone; then parts and notes come back.
    pub fn from_parts(
        alloc: A,
        parts: Parts<A>,
        notes: N,
        changes: u64,
        slots: usize,
        places: usize,
    ) -> Result<Leased<Core<N, A>, A>, (Parts<A>, N)>
        requires structured { Structured parts }
        requires guarded { IfLog (N.told notes) (λ log. Guarded parts.config log parts) }
        requires slots { 0 < slots }
        requires places { 0 < places }
        ensures core { IfOk result (λ leased. leased.logged ≡ record { cache = parts; log = N.told notes }) }
        ensures rests { IfOk result (λ leased. is_at_rest leased.logged.cache ≡ true) }
        ensures stamps { IfOk result (λ leased. leased.stamps ≡ after_restart slots changes) }
        ensures turns { IfOk result (λ leased. leased.turns ≡ replicate places None) }
        ensures parts_returned { IfErr result (λ back. back.0 ≡ parts) }
        ensures notes_returned { IfErr result (λ back. back.1 ≡ notes) }
    {
        match tables(alloc, changes, slots, places) {
            Ok((stamps, turns)) => Ok(Leased {
                cache: Core::from_parts(alloc, parts, notes),
                stamps,
                turns,
            }),
            Err(_) => Err((parts, notes)),
        }
    }
}
