// What a core alone has that keeps digests of its pages.
ghost use Rattle.std.specs.Prelude.{◌≡◌, option_map, IfOk, OnErr};
ghost use Rattle.std.specs.Option.{option_copied};
ghost use Rattle.hc_flash.specs.Seen.{order_of, result_of};
ghost use Rattle.hc_machine.specs.World.{order_in};
ghost use Rattle.hc_nvm.specs.Seen.{take_of};
ghost use Rattle.hc_tracked.specs.Reading.{IsDigestOf, Finishes};
ghost use Rattle.hc_leased.specs.Leased.{SameLeases};
ghost use Rattle.hc_leased.specs.Tracked.{FinishedSo};

use crate::leased::Leased;
use hc_flash::IoResult;
use hc_history::{Note, Notes};
use hc_nvm::{Take, Unfinished};
use hc_paged::Digest;
use hc_tracked::TrackedCore;
use std::alloc::Allocator;

impl<N: Notes<Note<A>>, A: Allocator + Clone + Copy, G: Digest + Copy> Leased<
    TrackedCore<N, A, G>,
    A,
> {
    /// As `TrackedCore::finish`.
    pub fn finish(
        &mut self,
        job: u64,
        came: IoResult<A>,
        digest: u64,
    ) -> Result<Take<A>, Unfinished<A>>
        requires digest { IsDigestOf G.of digest (result_of came) }
        ensures ok { IfOk result (λ take. Finishes job (result_of came) (take_of take) self.old.logged self.new.logged) }
        ensures does { IfOk result (λ take. FinishedSo job (result_of came) (take_of take) self.old self.new) }
        ensures leases { SameLeases self.old self.new }
        ensures err { OnErr result (self.new ≡ self.old) }
    {
        self.cache.finish(job, came, digest)
    }
}
