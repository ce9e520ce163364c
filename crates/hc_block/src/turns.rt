// What a result that is handed in means for an operation.
ghost use Rattle.hc_flash.specs.Seen.{result_of};
ghost use Rattle.hc_block.specs.Works.{work_seen};
ghost use Rattle.hc_block.specs.Turns.{IsTurn};

use crate::jobs::Work;
use hc_flash::IoResult;
use std::alloc::Allocator;

/// What a result means for an operation.
#[derive(Clone, Copy)]
pub(crate) enum Turn {
    /// It doesn't wait for such a result.
    Unknown,
    /// A page of this region was written.
    Written(u32),
    /// A write of this region failed.
    WriteFailed(u32),
    /// Its page was read.
    PageRead,
    /// Its page wasn't read.
    ReadFailed,
}

/// What this result means for what is under way.
pub(crate) fn turn_of<A: Allocator>(work: &Work<A>, came: &IoResult<A>) -> Turn
    ensures { IsTurn result (work_seen work.now) (result_of came.now) }
{
    match (work, came) {
        (Work::Writing { .. }, IoResult::Page(_)) => Turn::Unknown,
        (Work::Writing { region, .. }, IoResult::Written) => Turn::Written(*region),
        (Work::Writing { region, .. }, IoResult::Failed) => Turn::WriteFailed(*region),
        (Work::Getting(_), IoResult::Page(_)) => Turn::PageRead,
        (Work::Getting(_), IoResult::Written) => Turn::Unknown,
        (Work::Getting(_), IoResult::Failed) => Turn::ReadFailed,
    }
}
