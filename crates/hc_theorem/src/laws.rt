// Each kind of step keeps the invariant, and what follows for whole runs. A function here does nothing: its contract is the law.
ghost use Rattle.hc_invariant.specs.Good.{Good};
ghost use Rattle.hc_invariant.specs.Laws.{AllocateKeeps, InsertKeeps, AddKeeps, DiscardKeeps, FindKeeps, RemoveKeeps, ReplyKeeps, TickKeeps, WriterKeeps, FillerKeeps, ReclaimKeeps, FinishKeeps, StepKeeps};
ghost use Rattle.hc_theorem.specs.runs.Honesty.{FinishIfHonest};
ghost use Rattle.hc_theorem.specs.runs.Lines.{LinesAreSteps};
ghost use Rattle.hc_theorem.specs.runs.Between.{RunsAreBetween};
ghost use Rattle.hc_theorem.specs.runs.Lock.{CallsStayGuarded};
ghost use Rattle.hc_theorem.specs.headlines.Headline.{Headline, HeadlineOfSchedules, HeadlineOfQuietSchedules, SchedulesStand, HeadlineOfLogs, NewStands};

/// Room is made for an item, and it is charged.
pub fn allocate_keeps()
    ensures { AllocateKeeps Good Good }
{}

/// An item is inserted, or replaces the one that its key has.
pub fn insert_keeps()
    ensures { InsertKeeps Good Good }
{}

/// An item is inserted where its key has none.
pub fn add_keeps()
    ensures { AddKeeps Good Good }
{}

/// A handle is given up.
pub fn discard_keeps()
    ensures { DiscardKeeps Good Good }
{}

/// A key is looked up: the call is answered, or waits for flash.
pub fn find_keeps()
    ensures { FindKeeps Good Good }
{}

/// A key is removed.
pub fn remove_keeps()
    ensures { RemoveKeeps Good Good }
{}

/// The reply of a call that waited is taken.
pub fn reply_keeps()
    ensures { ReplyKeeps Good Good }
{}

/// The clock moves.
pub fn tick_keeps()
    ensures { TickKeeps Good Good }
{}

/// The writer takes a page, a delete or a put.
pub fn writer_keeps()
    ensures { WriterKeeps Good Good }
{}

/// The filler takes a fill.
pub fn filler_keeps()
    ensures { FillerKeeps Good Good }
{}

/// A region is reclaimed.
pub fn reclaim_keeps()
    ensures { ReclaimKeeps Good Good }
{}

/// A result is handed in that came of its job's order.
pub fn finish_keeps()
    ensures { FinishKeeps Good Good }
{}

/// Each line of a trace does what one to three steps of a schedule do, and is answered as they are.
pub fn lines_are_steps()
    ensures { LinesAreSteps }
{}

/// Each line of a run keeps what holds of it: log, cache, and device.
pub fn step_keeps()
    ensures { StepKeeps }
{}

/// Any result is handed in: where what the cache tells is honest, it keeps the invariant.
pub fn honest_finish()
    ensures { FinishIfHonest }
{}

/// Every run leaves a legal and honest log.
pub fn headline()
    ensures { Headline }
{}

/// So does every schedule of clients and workers.
pub fn headline_of_schedules()
    ensures { HeadlineOfSchedules }
{}

/// So does every quiet schedule, up to where it stops.
pub fn headline_of_quiet_schedules()
    ensures { HeadlineOfQuietSchedules }
{}

/// With any results at all: where the log is honest, it is legal.
pub fn headline_of_logs()
    ensures { HeadlineOfLogs }
{}

/// What is true between two steps of a run.
pub fn between()
    ensures { RunsAreBetween }
{}

/// What is true between two steps of a schedule: also of what fills the slots, and of what is open.
pub fn schedules_stand()
    ensures { SchedulesStand }
{}

/// A new cache is what a lock round it asks.
pub fn new_stands()
    ensures { NewStands }
{}

/// And each call keeps that.
pub fn calls_stay_guarded()
    ensures { CallsStayGuarded }
{}
