// What the calls of the machine tell, and what a ticket promises.
ghost use Rattle.hc_lease_steps.specs.Calls.{CallsTell};
ghost use Rattle.hc_lease_steps.specs.Deleting.{RemovesDelete};
ghost use Rattle.hc_lease_steps.specs.Runs.{TicketsHold};
ghost use Rattle.hc_lease_steps.specs.Serving.{NothingStale, NoHitIsStale, NoReplyIsStale};
ghost use Rattle.hc_lease_steps.specs.Storing.{CallsStore};

/// The law that each call of the cache tells what its stamps take it for. It does nothing when it runs.
pub fn calls_tell()
    ensures { CallsTell }
{}

/// The law that a remove of a key is a delete, as the pattern of a service has it. It does nothing when it runs.
pub fn removes_delete()
    ensures { RemovesDelete }
{}

/// The law that a call which replaces begins the insert of its handle, and no other call but an add begins one. It does
/// nothing when it runs.
pub fn calls_store()
    ensures { CallsStore }
{}

/// The law that of any calls of a new cache no answer changes a key between a ticket and a moment at which it is fresh
/// for the key, as long as the log is honest. It does nothing when it runs.
pub fn tickets_hold()
    ensures { TicketsHold }
{}

/// The law that once a remove of a key is answered, the cache has no value under it whose row is older than what was
/// committed in the database before that remove: of any calls of a new cache, by a service that asks its database with
/// a ticket in hand, stores what it loaded with that ticket, and adds nothing. It does nothing when it runs.
pub fn nothing_stale()
    ensures { NothingStale }
{}

/// The law that no find then hits such a value. It does nothing when it runs.
pub fn no_hit_is_stale()
    ensures { NoHitIsStale }
{}

/// The law that no find then hits such a value which waits for flash and whose reply is taken later. It does nothing
/// when it runs.
pub fn no_reply_is_stale()
    ensures { NoReplyIsStale }
{}
