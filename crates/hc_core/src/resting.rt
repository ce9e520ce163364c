// A cache that is closed at rest, and one that goes on where it stood.
ghost use Rattle.std.specs.Prelude.{◌≡◌, true};
ghost use Rattle.hc_history.specs.Told.{IfLog};
ghost use Rattle.hc_invariant.specs.Structure.{Structured};
ghost use Rattle.hc_theorem.specs.runs.Lock.{Guarded};
ghost use Rattle.hc_state.specs.Resting.{is_at_rest};

use crate::cache::Core;
use hc_history::Listener;
use hc_state::{Parts, State};
use std::alloc::Allocator;

impl<N: Listener, A: Allocator + Clone + Copy> Core<N, A> {
    /// Whether the cache can be closed so that another goes on where it stood: no reply is owed, no item is being written, no
    /// job is out, and no call waits. Puts and tombstones may wait.
    #[must_use]
    pub fn is_at_rest(&self) -> bool
        ensures { result ≡ is_at_rest self.now.cache }
    {
        self.state.is_at_rest()
    }

    /// What is kept of the cache, which is the cache itself, and who was told its notes. A log that was kept is legal where it is
    /// honest, and its books are those of the parts.
    #[must_use]
    pub fn close(self) -> (Parts<A>, N)
        requires { is_at_rest self.cache ≡ true }
        ensures parts { result.0 ≡ self.cache }
        ensures structured { Structured result.0 }
        ensures log { N.told result.1 ≡ self.log }
        ensures guarded { IfLog (N.told result.1) (λ log. Guarded result.0.config log result.0) }
    {
        self.into_state().into_parts()
    }

    /// A cache that goes on where one was closed, with its parts: those that `close` gave, or those that a `PartsBuilder` made of
    /// what they handed out. Its clock and its numbers of calls and charges go on too. It tells `notes` what it does from here on:
    /// one log over both runs, where they keep that of the first. One log over both runs is legal where it is honest, whoever
    /// keeps it (`runs_are_legal` in hc_restart_laws has this as a law).
    #[must_use]
    pub fn from_parts(alloc: A, parts: Parts<A>, notes: N) -> Core<N, A>
        requires structured { Structured parts }
        requires guarded { IfLog (N.told notes) (λ log. Guarded parts.config log parts) }
        ensures core { result ≡ record { cache = parts; log = N.told notes } }
        ensures rests { is_at_rest result.cache ≡ true }
    {
        let state = State::from_parts(alloc, parts, notes);
        Core { state }
    }
}
