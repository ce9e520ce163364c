// Whether an operation waits for a result: asked before it is handed in.
ghost use Rattle.std.specs.Prelude.{◌≡◌, is_some};
ghost use Rattle.hc_flash.specs.Seen.{result_of};
ghost use Rattle.hc_block.specs.Moves.{resume_by};

use crate::block_cache::BlockCache;
use crate::turns::Turn;
use hc_flash::IoResult;
use std::alloc::Allocator;

impl<A: Allocator + Clone + Copy> BlockCache<A> {
    /// Whether the operation with this number waits for such a result.
    #[must_use]
    pub fn awaits(&self, number: u64, came: &IoResult<A>) -> bool
        ensures { result ≡ is_some (resume_by self.now.flash number (result_of came.now) self.now.block) }
    {
        match self.turn(number, came) {
            Turn::Unknown => false,
            Turn::Written(_) => true,
            Turn::WriteFailed(_) => true,
            Turn::PageRead => true,
            Turn::ReadFailed => true,
        }
    }
}
