// What each step of the machine does. A function here does nothing: its contract is the law.
ghost use Rattle.hc_laws.specs.Evicting.{EvictedItemsLeaveByTheTable};
ghost use Rattle.hc_laws.specs.Filling.{FillsAreLinkedClean, GetsEndTheirFill, OrphansBringNothing, NothingLiveBringsNothing};
ghost use Rattle.hc_laws.specs.Finding.{FindTakesTheFirstCase};
ghost use Rattle.hc_laws.specs.Inserting.{InsertIsDue};
ghost use Rattle.hc_laws.specs.Refusing.{RefusedChangesNothing};
ghost use Rattle.hc_laws.specs.Serving.{WriterServesTheFirst, FillerServesTheFirst};
ghost use Rattle.hc_laws.specs.Telling.{AnswersAreFramed};
ghost use Rattle.hc_laws.specs.Tombstones.{TombstonesEndByDeletesAndLosses};

/// The writer serves a page of a region where one is to go out, or else the first delete or else the first put that can be
/// served, and is idle only where there is none of them.
pub fn writer_serves_the_first()
    ensures { WriterServesTheFirst }
{}

/// The filler serves the first fill that can be served, and is idle only where there is none.
pub fn filler_serves_the_first()
    ensures { FillerServesTheFirst }
{}

/// A find takes the first case that holds: an item, no flash, a waiting put, a tombstone, an open fill, what flash may have.
pub fn find_takes_the_first_case()
    ensures { FindTakesTheFirstCase }
{}

/// An insert that leaves an unexpired value as it is finds one, waits for one, or stores.
pub fn insert_is_due()
    ensures { InsertIsDue }
{}

/// A step that is refused changes nothing; which are refused, and with what.
pub fn refused_changes_nothing()
    ensures { RefusedChangesNothing }
{}

/// A clean item that is evicted is neither queued nor lost; of another the key is forgotten for the first reason that holds, or
/// else it waits for flash, last in the queue.
pub fn evicted_items_leave_by_the_table()
    ensures { EvictedItemsLeaveByTheTable }
{}

/// An unexpired entry that a fill brings is linked, clean, exactly where its pool is there and makes room; both ways the calls
/// that wait for it are answered by its value.
pub fn fills_are_linked_clean()
    ensures { FillsAreLinkedClean }
{}

/// A get that is over ends the fill that its job was to bring, unless that is an orphan.
pub fn gets_end_their_fill()
    ensures { GetsEndTheirFill }
{}

/// A fill that is an orphan links nothing and answers nobody.
pub fn orphans_bring_nothing()
    ensures { OrphansBringNothing }
{}

/// What flash hasn't got, or what is expired there, isn't linked.
pub fn nothing_live_brings_nothing()
    ensures { NothingLiveBringsNothing }
{}

/// A tombstone ends exactly where its key's delete is over, or its bucket is given up; no call of a client ends one.
pub fn tombstones_end_by_deletes_and_losses()
    ensures { TombstonesEndByDeletesAndLosses }
{}

/// A call that is answered at once tells its begin, its answer and its end, under a number of its own, and of other calls nothing
/// but answers, behind its own.
pub fn answers_are_framed()
    ensures { AnswersAreFramed }
{}
