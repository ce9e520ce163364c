// What is true of the large engine as any engine, and of both engines together. The functions do nothing: their contracts are
// the laws.
ghost use Rattle.hc_engines.specs.pair.Apart.{StartStaysApart, ResumeStaysApart};
ghost use Rattle.hc_engines.specs.pair.Below.{LargeResumeStaysBelow, LargeStartStaysBelow, ResumeStaysBelow, StartStaysBelow};
ghost use Rattle.hc_engines.specs.pair.Held.{BusyIsTrue, HeldIsTold, NewFits, OtherStays, ResumeAwaits, ResumeGoes, ResumeServes, StartGoes, StartServes, TakeTakes};
ghost use Rattle.hc_engines.specs.pair.Large.{LargeFailedReadServes, LargeFailedWriteServes, LargeFlushServes, LargeGetServes, LargePutServes, LargeReadServes, LargeReclaimServes, LargeStays, LargeTakes, LargeTells, LargeWrittenServes};

/// A large put keeps the large engine's fit with the pages, and changes what it holds exactly by its outcome.
pub fn large_put_serves()
    ensures { LargePutServes }
{}

/// So does a reclaim.
pub fn large_reclaim_serves()
    ensures { LargeReclaimServes }
{}

/// So does a flush that begins.
pub fn large_flush_serves()
    ensures { LargeFlushServes }
{}

/// So does a page of a region that was written, with the pages after it.
pub fn large_written_serves()
    ensures { LargeWrittenServes }
{}

/// So does a page that couldn't be written.
pub fn large_failed_write_serves()
    ensures { LargeFailedWriteServes }
{}

/// A get that begins is over with what is held, or reads a known page.
pub fn large_get_serves()
    ensures { LargeGetServes }
{}

/// A get whose page was read goes on, or answers what is held, unless its index entry changed.
pub fn large_read_serves()
    ensures { LargeReadServes }
{}

/// A get whose page couldn't be read is over, and what it answers is what is held then.
pub fn large_failed_read_serves()
    ensures { LargeFailedReadServes }
{}

/// The index has the kept hash of each key that the large engine holds.
pub fn large_tells()
    ensures { LargeTells }
{}

/// What is written on a bucket's page changes nothing for the large engine.
pub fn large_stays()
    ensures { LargeStays }
{}

/// An index entry that is taken takes out what is held under keys of its hash.
pub fn large_takes()
    ensures { LargeTakes }
{}

/// A new pair fits whatever the pages have, and holds nothing.
pub fn new_fits()
    ensures { NewFits }
{}

/// A started operation keeps the pair's fit with the pages. Where no key is in both engines, and a put's or a delete's key isn't
/// in the one that it doesn't go to, what is held changes exactly by the outcome, a get that is over answers what is held, and no
/// key is in both engines after it.
pub fn start_serves()
    ensures { StartServes }
{}

/// So does a result that is handed in, with the pages after it; but a get that went on to the large engine may find nothing where
/// an entry of its key came to the small one since, or where its index entry changed.
pub fn resume_serves()
    ensures { ResumeServes }
{}

/// A started operation is under way with its order until it is over, and the others stay as they are.
pub fn start_goes()
    ensures { StartGoes }
{}

/// An operation whose result is handed in goes on or is over, and the others stay as they are.
pub fn resume_goes()
    ensures { ResumeGoes }
{}

/// An operation is put off only where a job is on its key's bucket, and one whose result is handed in never is.
pub fn busy_is_true()
    ensures { BusyIsTrue }
{}

/// A result is refused exactly where no operation with that number waits for such a one.
pub fn resume_awaits()
    ensures { ResumeAwaits }
{}

/// A put, a delete, a flush or a reclaim changes the engine alone that it goes to.
pub fn other_stays()
    ensures { OtherStays }
{}

/// An index entry that is taken takes out what the large engine holds under keys of its hash, and nothing else.
pub fn take_takes()
    ensures { TakeTakes }
{}

/// The words and the index tell of each key that is held.
pub fn held_is_told()
    ensures { HeldIsTold }
{}

/// No number comes to be that of two operations by one that is started, whatever the pages have.
pub fn start_stays_apart()
    ensures { StartStaysApart }
{}

/// Nor by a result that is handed in, honest or not.
pub fn resume_stays_apart()
    ensures { ResumeStaysApart }
{}

/// Where operations are numbered one behind the other, each number from the next one on stays free: in the large engine ..
pub fn large_start_stays_below()
    ensures { LargeStartStaysBelow }
{}

/// .. also where a result is handed in, honest or not ..
pub fn large_resume_stays_below()
    ensures { LargeResumeStaysBelow }
{}

/// .. and in both.
pub fn start_stays_below()
    ensures { StartStaysBelow }
{}

/// The same of a result that is handed in for the pair.
pub fn resume_stays_below()
    ensures { ResumeStaysBelow }
{}
