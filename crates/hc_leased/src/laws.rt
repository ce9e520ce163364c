// What a ticket promises, over any calls.
ghost use Rattle.hc_leased.specs.Runs.{CallsAreRuns, ChainsAreRuns, LeasedTicketsHold};
ghost use Rattle.hc_leased.specs.Serving.{LeasedNeverStale, LeasedRepliesNeverStale};

/// The law that each call of a cache with leases, and calls one after the other, are a run of calls of the machine, of which
/// its stamps hear. It does nothing when it runs.
pub fn calls_are_runs()
    ensures call { CallsAreRuns }
    ensures chain { ChainsAreRuns }
{}

/// The law that of any calls of a new cache with leases, a ticket that is fresh for a key was handed out after the last
/// answer that changed the key, as long as the log is honest. It does nothing when it runs.
pub fn leased_tickets_hold()
    ensures { LeasedTicketsHold }
{}

/// The law that once a delete of a key is answered, no find hits a value under it whose row is older than what was
/// committed in the database before that delete: of a service that asks its database with a ticket in hand, stores what
/// it loaded with that ticket, and adds nothing, as long as the log is honest. It does nothing when it runs.
pub fn leased_never_stale()
    ensures { LeasedNeverStale }
{}

/// The law that a find which is begun after that delete and waits for flash brings no such value either. (One that was
/// begun before it may: it is handed out late, but nothing stale is left in the cache by it.) It does nothing when it
/// runs.
pub fn leased_replies_never_stale()
    ensures { LeasedRepliesNeverStale }
{}
