// What a ticket promises.
ghost use Rattle.hc_lease.specs.Steps.{FreshIsUnchanged, UnchangedIsFresh};
ghost use Rattle.hc_lease.specs.Service.{NeverStale};
ghost use Rattle.hc_lease.specs.Turns.{OneAtATime, TurnsEnd};

/// The law that a ticket which is fresh for a key was handed out after the last change of that key. It does nothing when it
/// runs.
pub fn fresh_is_unchanged()
    ensures { FreshIsUnchanged }
{}

/// The law that a ticket stays fresh for a key until a key of the same slot is changed, or an add of one begins to wait. It
/// does nothing when it runs.
pub fn unchanged_is_fresh()
    ensures { UnchangedIsFresh }
{}

/// The law that a service which stores what it loaded with its ticket, and deletes each key that it changed, never finds a
/// row that is older than what was committed before a delete that was answered. It does nothing when it runs.
pub fn never_stale()
    ensures { NeverStale }
{}

/// The law that a key is loaded by one at a time, as long as patience lasts and no other key takes its place. It does
/// nothing when it runs.
pub fn one_at_a_time()
    ensures { OneAtATime }
{}

/// The law that a turn ends when patience does, or when its key's load is said to be over: who asks then has it. It does
/// nothing when it runs.
pub fn turns_end()
    ensures { TurnsEnd }
{}
