// What follows for a cache that is closed and goes on. A function here does nothing: its contract is the law.
ghost use Rattle.hc_restart_laws.specs.Digests.{DigestsGoOn};
ghost use Rattle.hc_restart_laws.specs.Runs.{RunsAreLegal, RunsAreOne};
ghost use Rattle.hc_restart_laws.specs.Schedules.{SchedulesGoOn};
ghost use Rattle.hc_restart_laws.specs.Serving.{NoHitIsStale, NothingStale};
ghost use Rattle.hc_restart_laws.specs.Tickets.{NewTicketsAreFresh, OldTicketsAreStale};

/// The law that runs of a cache, each of which begins with what the one before left, tell what one run of all their calls
/// tells. It does nothing when it runs.
pub fn runs_are_one()
    ensures { RunsAreOne }
{}

/// The law that what they tell together is one legal log, where it is honest, of a new cache and whatever results are handed
/// in. It does nothing when it runs.
pub fn runs_are_legal()
    ensures { RunsAreLegal }
{}

/// The law that a schedule of clients and workers over a device which goes on where another stood makes one run with it: its
/// log is legal and honest, and it follows the steps of both. It does nothing when it runs.
pub fn schedules_go_on()
    ensures { SchedulesGoOn }
{}

/// The law that a log of both runs is one of a device with digests, where those that the second begins with are those that
/// the first left: each page that was read has the digest of the page as last written, in whichever run that was. It does
/// nothing when it runs.
pub fn digests_go_on()
    ensures { DigestsGoOn }
{}

/// The law that no ticket of a run is fresh in a later one. It does nothing when it runs.
pub fn old_tickets_are_stale()
    ensures { OldTicketsAreStale }
{}

/// The law that a ticket which is handed out at once behind a restart is fresh for each key. It does nothing when it runs.
pub fn new_tickets_are_fresh()
    ensures { NewTicketsAreFresh }
{}

/// The law that once a remove of a key is answered, the cache has no value under it whose row is older than what was
/// committed in the database before that remove, also behind restarts: of a service that asks its database with a ticket
/// in hand, stores what it loaded with that ticket, also one of an earlier run, and adds nothing. It does nothing when it runs.
pub fn nothing_stale()
    ensures { NothingStale }
{}

/// The law that no find then hits such a value. It does nothing when it runs.
pub fn no_hit_is_stale()
    ensures { NoHitIsStale }
{}
