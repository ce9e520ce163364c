// A core over any device that is closed at rest, and one that goes on where it stood.
ghost use Rattle.std.specs.Prelude.{◌≡◌, ◌≢◌, true, length, IfOk, OnOk, OnErr, IfErr};
ghost use Rattle.hc_history.specs.Told.{IfLog};
ghost use Rattle.hc_invariant.specs.Structure.{Structured};
ghost use Rattle.hc_marked.specs.Tracked.{Tracks};
ghost use Rattle.hc_paged.specs.Devices.{mark_at};
ghost use Rattle.hc_state.specs.Resting.{is_at_rest};
ghost use Rattle.hc_theorem.specs.runs.Lock.{Guarded};
ghost use Rattle.hc_tracked.specs.Resting.{pages_in};

use crate::tracked::{TrackedCore, pages_of};
use hc_core::Core;
use hc_history::Listener;
use hc_paged::Digest;
use hc_state::Parts;
use std::alloc::{Allocator, Global};

/// What is kept of a core that was closed at rest, and who was told its notes.
#[derive(Drop)]
pub struct TrackedParts<N: Listener, A: Allocator = Global> {
    pub parts: Parts<A>,
    /// The digest of each page of its flash as it was last written, and 0 where nothing is known of it: 8 bytes a page.
    pub digests: Vec<u64, A>,
    pub notes: N,
}

impl<N: Listener, A: Allocator + Clone + Copy, G: Digest + Copy> TrackedCore<N, A, G> {
    /// As `Core::is_at_rest`.
    #[must_use]
    pub fn is_at_rest(&self) -> bool
        ensures { result ≡ is_at_rest self.now.core.cache }
    {
        self.core.is_at_rest()
    }

    /// As `Core::close`, with the digests as they are, so that they stand nowhere twice. How many reads were lies isn't kept.
    #[must_use]
    pub fn close(self) -> TrackedParts<N, A>
        requires { is_at_rest self.core.cache ≡ true }
        ensures parts { result.parts ≡ self.core.cache }
        ensures structured { Structured result.parts }
        ensures digests { result.digests.items ≡ self.digests }
        ensures log { N.told result.notes ≡ self.core.log }
        ensures guarded { IfLog (N.told result.notes) (λ log. Guarded result.parts.config log result.parts) }
        ensures tracks { IfLog (N.told result.notes) (Tracks G.of (mark_at result.digests.items)) }
        ensures fits { length result.digests.items ≡ pages_in result.parts.config.flash }
    {
        let (core, digests) = self.into_both();
        let (parts, notes) = core.close();
        TrackedParts {
            parts,
            digests,
            notes,
        }
    }

    /// As `Core::from_parts`, with the digests of before: so a page that was changed since then is a lie of the device. One log
    /// over both runs is that of a device with digests (`digests_go_on` in hc_restart_laws has this as a law). Refused only where
    /// there are more or fewer digests than pages of the flash, so nothing is that `close` gave; then all that was kept comes back.
    pub fn from_parts(
        alloc: A,
        digest: G,
        kept: TrackedParts<N, A>,
    ) -> Result<TrackedCore<N, A, G>, TrackedParts<N, A>>
        requires structured { Structured kept.parts }
        requires guarded { IfLog (N.told kept.notes) (λ log. Guarded kept.parts.config log kept.parts) }
        requires tracks { IfLog (N.told kept.notes) (Tracks G.of (mark_at kept.digests.items)) }
        ensures core { IfOk result (λ tracked. tracked.core ≡ record { cache = kept.parts; log = N.told kept.notes }) }
        ensures digests { IfOk result (λ tracked. tracked.digests ≡ kept.digests.items) }
        ensures rests { IfOk result (λ tracked. is_at_rest tracked.core.cache ≡ true) }
        ensures fits { OnOk result (length kept.digests.items ≡ pages_in kept.parts.config.flash) }
        ensures err { OnErr result (length kept.digests.items ≢ pages_in kept.parts.config.flash) }
        ensures kept_returned { IfErr result (λ back. back ≡ kept) }
    {
        if kept.digests.len() != pages_of(&kept.parts.config().flash) {
            return Err(kept);
        }
        let TrackedParts {
            parts,
            digests,
            notes,
        } = kept;
        Ok(TrackedCore {
            core: Core::from_parts(alloc, parts, notes),
            digest,
            digests,
            lies: 0,
        })
    }
}
