// What is true of the large engine by itself, and of its steps over the pages as they were last written. The functions do
// nothing: their contracts are the laws.
ghost use Rattle.hc_engines.specs.large.Choices.{FlushIsItsChoice, ReclaimIsItsChoice};
ghost use Rattle.hc_engines.specs.large.Laws.{EntryReadsBack, TakeChangesHeld};
ghost use Rattle.hc_engines.specs.large.Listed.{FlushMissesNone, ListsAreExact, RegionsStayListed};
ghost use Rattle.hc_engines.specs.large.Spelling.{BytesHoldOneEntry, EntryIsItsBytes};
ghost use Rattle.hc_engines.specs.large.Steady.{DrainingIsPinned, FailedReadKeeps, FailedWriteChangesHeld, FailedWriteKeeps, FlushHoldsAll, FlushKeeps, GetKeeps, LossesAreInOrder, NewIsGood, OthersKeep, PutChangesHeld, PutKeeps, ReadKeeps, ReadsHoldRegions, ReclaimChangesHeld, ReclaimKeeps, RegionsHaveOneWriter, TakeKeeps, WritesStandAlone, WrittenHoldsAll, WrittenKeeps};
ghost use Rattle.hc_engines.specs.large.Unread.{FailedReadIsTold, UnreadableAtOnceIsTold, UnreadableIsTold};
ghost use Rattle.hc_engines.specs.large.Within.{RegionsStayWithin};

/// A region entry that is spelled is read again.
pub fn entry_reads_back()
    ensures { EntryReadsBack }
{}

/// Bytes of which a region entry is read are those that it is spelled as.
pub fn entry_is_its_bytes()
    ensures { EntryIsItsBytes }
{}

/// No two region entries are spelled alike.
pub fn bytes_hold_one_entry()
    ensures { BytesHoldOneEntry }
{}

/// A new engine is good, whatever the pages have.
pub fn new_is_good()
    ensures { NewIsGood }
{}

/// A put keeps the engine good.
pub fn put_keeps()
    ensures { PutKeeps }
{}

/// What is held after a put.
pub fn put_changes_held()
    ensures { PutChangesHeld }
{}

/// A reclaim keeps the engine good.
pub fn reclaim_keeps()
    ensures { ReclaimKeeps }
{}

/// A reclaim takes out what its losses name, and nothing else.
pub fn reclaim_changes_held()
    ensures { ReclaimChangesHeld }
{}

/// A flush or an early write that begins keeps the engine good.
pub fn flush_keeps()
    ensures { FlushKeeps }
{}

/// And it changes nothing of what is held.
pub fn flush_holds_all()
    ensures { FlushHoldsAll }
{}

/// A page of a region that was written keeps the engine good, with the pages after it.
pub fn written_keeps()
    ensures { WrittenKeeps }
{}

/// And it changes nothing of what is held.
pub fn written_holds_all()
    ensures { WrittenHoldsAll }
{}

/// So does a page that couldn't be written.
pub fn failed_write_keeps()
    ensures { FailedWriteKeeps }
{}

/// A failed write takes out what its losses name, and nothing else.
pub fn failed_write_changes_held()
    ensures { FailedWriteChangesHeld }
{}

/// A get that begins is answered at once, by what is held, or reads its first page.
pub fn get_keeps()
    ensures { GetKeeps }
{}

/// A get whose page was read goes on, or answers what is held, unless its index entry changed.
pub fn read_keeps()
    ensures { ReadKeeps }
{}

/// A get whose page couldn't be read takes out what its losses name, and answers nothing.
pub fn failed_read_keeps()
    ensures { FailedReadKeeps }
{}

/// An index entry that is taken keeps the engine good.
pub fn take_keeps()
    ensures { TakeKeeps }
{}

/// What is held after an index entry is taken.
pub fn take_changes_held()
    ensures { TakeChangesHeld }
{}

/// What is written on a bucket's page changes nothing for the large engine.
pub fn others_keep()
    ensures { OthersKeep }
{}

/// A page with a write out is read by no get.
pub fn writes_stand_alone()
    ensures { WritesStandAlone }
{}

/// No two writes are out of one region.
pub fn regions_have_one_writer()
    ensures { RegionsHaveOneWriter }
{}

/// A region with a read out isn't opened.
pub fn reads_hold_regions()
    ensures { ReadsHoldRegions }
{}

/// A region that drains has a pin.
pub fn draining_is_pinned()
    ensures { DrainingIsPinned }
{}

/// A region that ends loses what leads into it in order of offset.
pub fn losses_are_in_order()
    ensures { LossesAreInOrder }
{}

/// No region is filled beyond its bytes, whatever is asked and whatever the device answers.
pub fn regions_stay_within()
    ensures { RegionsStayWithin }
{}

/// No region is forgotten: the open one is the current one, each sealed one waits for its flush, and each one on flash is in the
/// order of flushes.
pub fn regions_stay_listed()
    ensures { RegionsStayListed }
{}

/// So the current region, the sealed and the flushed ones are exactly those of that status, but for regions that drain.
pub fn lists_are_exact()
    ensures { ListsAreExact }
{}

/// So a flush that writes nothing leaves nothing to write: of each sealed region a page is out, and the open one has no full page
/// that may go.
pub fn flush_misses_none()
    ensures { FlushMissesNone }
{}

/// A flush is the page that it chooses, gone out.
pub fn flush_is_its_choice()
    ensures { FlushIsItsChoice }
{}

/// A reclaim is the end of the region that it chooses.
pub fn reclaim_is_its_choice()
    ensures { ReclaimIsItsChoice }
{}

/// A get whose page couldn't be read takes exactly its index entry, unless that moved on, and tells it as lost by a fault.
pub fn failed_read_is_told()
    ensures { FailedReadIsTold }
{}

/// So does a get whose pages were all read and are no entry.
pub fn unreadable_is_told()
    ensures { UnreadableIsTold }
{}

/// So does a get that reads no page, where the bytes in the buffer are no entry.
pub fn unreadable_at_once_is_told()
    ensures { UnreadableAtOnceIsTold }
{}
