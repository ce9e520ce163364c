// What a ticket promises, over the log of a cache.
ghost use Rattle.hc_lease_log.specs.Log.{FreshOverLog};
ghost use Rattle.hc_lease_log.specs.Rows.{NoFindIsStale};

/// The law that between a ticket that was handed out and a moment at which it is fresh for a key no call was answered that
/// stored or removed under the key. It does nothing when it runs.
pub fn fresh_over_log()
    ensures { FreshOverLog }
{}

/// The law that once a delete of a key is answered, no find hits a value under it whose row is older than what was committed
/// in the database before that delete: of a service that asks its database with a ticket in hand, stores what it loaded with
/// that ticket, and adds nothing. It does nothing when it runs.
pub fn no_find_is_stale()
    ensures { NoFindIsStale }
{}
