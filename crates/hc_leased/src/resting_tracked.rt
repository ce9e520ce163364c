// The same of a core that keeps digests of its pages.
ghost use Rattle.std.specs.Prelude.{◌≡◌, ◌≢◌, ◌<◌, true, length, None, replicate, IfOk, OnOk, IfErr};
ghost use Rattle.hc_history.specs.Told.{IfLog};
ghost use Rattle.hc_invariant.specs.Structure.{Structured};
ghost use Rattle.hc_lease.specs.Stamps.{after_restart};
ghost use Rattle.hc_marked.specs.Tracked.{Tracks};
ghost use Rattle.hc_paged.specs.Devices.{mark_at};
ghost use Rattle.hc_state.specs.Resting.{is_at_rest};
ghost use Rattle.hc_theorem.specs.runs.Lock.{Guarded};
ghost use Rattle.hc_tracked.specs.Resting.{pages_in};
ghost use Rattle.hc_leased.specs.Resting.{IsWhy};

use crate::leased::Leased;
use crate::resting::tables;
use hc_history::Listener;
use hc_paged::Digest;
use hc_tracked::{TrackedCore, TrackedParts};
use std::alloc::Allocator;

/// Why a cache doesn't go on.
#[derive(Clone, Copy, Debug, PartialEq, Eq)]
pub enum NotResumed {
    /// There are more or fewer digests than pages of the flash.
    WrongDigests,
    /// Memory lacked for slots or places.
    NoMemory,
}

impl<N: Listener, A: Allocator + Clone + Copy, G: Digest + Copy> Leased<TrackedCore<N, A, G>, A> {
    /// As `Core::is_at_rest`.
    #[must_use]
    pub fn is_at_rest(&self) -> bool
        ensures { result ≡ is_at_rest self.now.logged.cache }
    {
        self.cache.is_at_rest()
    }

    /// As `TrackedCore::close`, with how many changes of keys there were.
    #[must_use]
    pub fn close(self) -> (TrackedParts<N, A>, u64)
        requires { is_at_rest self.logged.cache ≡ true }
        ensures parts { result.0.parts ≡ self.logged.cache }
        ensures structured { Structured result.0.parts }
        ensures log { N.told result.0.notes ≡ self.logged.log }
        ensures guarded { IfLog (N.told result.0.notes) (λ log. Guarded result.0.parts.config log result.0.parts) }
        ensures tracks { IfLog (N.told result.0.notes) (Tracks G.of (mark_at result.0.digests.items)) }
        ensures fits { length result.0.digests.items ≡ pages_in result.0.parts.config.flash }
        ensures changes { result.1 ≡ self.stamps.count }
    {
        let (tracked, changes) = self.into_parts();
        (tracked.close(), changes)
    }

    /// As `TrackedCore::from_parts`, with leases as `resume` makes them, of how many changes `close` told. Refused with
    /// `WrongDigests` as that is, so never what `close` gave, and with `NoMemory`; then what was kept comes back.
    pub fn from_parts(
        alloc: A,
        digest: G,
        kept: TrackedParts<N, A>,
        changes: u64,
        slots: usize,
        places: usize,
    ) -> Result<Leased<TrackedCore<N, A, G>, A>, (TrackedParts<N, A>, NotResumed)>
        requires structured { Structured kept.parts }
        requires guarded { IfLog (N.told kept.notes) (λ log. Guarded kept.parts.config log kept.parts) }
        requires tracks { IfLog (N.told kept.notes) (Tracks G.of (mark_at kept.digests.items)) }
        requires slots { 0 < slots }
        requires places { 0 < places }
        ensures core { IfOk result (λ leased. leased.logged ≡ record { cache = kept.parts; log = N.told kept.notes }) }
        ensures rests { IfOk result (λ leased. is_at_rest leased.logged.cache ≡ true) }
        ensures stamps { IfOk result (λ leased. leased.stamps ≡ after_restart slots changes) }
        ensures turns { IfOk result (λ leased. leased.turns ≡ replicate places None) }
        ensures fits { OnOk result (length kept.digests.items ≡ pages_in kept.parts.config.flash) }
        ensures why { IfErr result (λ back. IsWhy kept.digests.items kept.parts.config.flash back.1) }
        ensures kept_returned { IfErr result (λ back. back.0 ≡ kept) }
    {
        match tables(alloc, changes, slots, places) {
            Ok((stamps, turns)) => match TrackedCore::from_parts(alloc, digest, kept) {
                Ok(cache) => Ok(Leased {
                    cache,
                    stamps,
                    turns,
                }),
                Err(kept) => Err((kept, NotResumed::WrongDigests)),
            },
            Err(_) => Err((kept, NotResumed::NoMemory)),
        }
    }
}
