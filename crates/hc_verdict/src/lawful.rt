// The first note of a log that isn't lawful at its place.
ghost use Rattle.std.specs.Prelude.{◌≡◌, [], None, IfOk, IfSome};
ghost use Rattle.hc_types.specs.Limits.{first_wrong};
ghost use Rattle.hc_types.specs.Loss.{scope_of, cause_of};
ghost use Rattle.hc_history.specs.Lawful.{past};
ghost use Rattle.hc_legal.specs.Judge as judge;
ghost use Rattle.hc_judge_device.specs.Limits.{IsLimited};

use hc_history::{Note, Said};
use hc_judge_flash::{is_allowed_on_flash, is_true_on_flash};
use hc_judge_memory::{
    Eviction, may_answer, may_begin, may_charge, may_end, may_end_charge, may_expire, may_forget,
    may_link, may_move_on,
};
use hc_types::{Cause, Config, Scope};
use std::alloc::{AllocError, Allocator};

/// The place, counted from 0, of the first note that isn't lawful after those before it; none, where each is. The
/// configuration is one of which no number is refused. Each note is judged by all those before it, so that a log of `n`
/// notes takes a time that grows with the square of `n`. Refused only when out of memory.
pub fn first_unlawful<A: Allocator + Clone>(
    config: &Config<A>,
    log: &[Note<A>],
    alloc: &A,
) -> Result<Option<usize>, AllocError>
    requires { first_wrong config.now ≡ None }
    ensures { IfOk result (λ place. place ≡ judge.first_unlawful config.now [] log.now) }
{
    limits(config);
    'notes: for place in 0..log.len() {
        let rest = &log[place + 1..];
        if !is_allowed(config, &log[..place], &log[place], rest, alloc)? {
            return Ok(Some(place));
        }
    }
    Ok(None)
}

// The law of the limits, for a configuration with flash or without. It does nothing when it runs.
pub fn limits<A: Allocator>(_config: &Config<A>)
    requires { first_wrong _config.now ≡ None }
    ensures { IfSome _config.now.flash IsLimited }
{
    hc_judge_device::limits();
}

// Whether the note is lawful after these notes, and before the rest.
fn is_allowed<A: Allocator + Clone>(
    config: &Config<A>,
    notes: &[Note<A>],
    note: &Note<A>,
    rest: &[Note<A>],
    alloc: &A,
) -> Result<bool, AllocError>
    requires { IfSome config.now.flash IsLimited }
    ensures { IfOk result (λ is_allowed. is_allowed ≡ judge.is_allowed config.now (past [] notes.now) note.now rest.now) }
{
    match &note.said {
        Said::Begin { call, .. } => Ok(may_begin(notes, *call)),
        Said::Did { call, reply } => may_answer(config, notes, *call, reply, alloc),
        Said::End { call } => Ok(may_end(notes, *call)),
        Said::Lose { scope, cause } => is_true_cause(config, notes, scope, cause, rest, alloc),
        Said::Charged { charge, .. } => may_charge(notes, *charge, alloc),
        Said::Linked { charge } => may_link(notes, *charge, alloc),
        Said::Freed { charge } => may_end_charge(config, notes, *charge, rest, alloc),
        Said::Now { moment } => Ok(may_move_on(notes, *moment)),
        _ => is_allowed_by_flash(config, notes, note, rest, alloc),
    }
}

// Whether there is flash, and the note is a lawful one of flash.
fn is_allowed_by_flash<A: Allocator + Clone>(
    config: &Config<A>,
    notes: &[Note<A>],
    note: &Note<A>,
    rest: &[Note<A>],
    alloc: &A,
) -> Result<bool, AllocError>
    requires { IfSome config.now.flash IsLimited }
    ensures { IfOk result (λ is_allowed. is_allowed ≡ judge.some_and config.now.flash (λ flash. judge.is_allowed_on_flash config.now flash (past [] notes.now) note.now rest.now)) }
{
    match &config.flash {
        Some(flash) => is_allowed_on_flash(config, flash, notes, note, rest, alloc),
        None => Ok(false),
    }
}

// Whether the cause of a loss is true.
fn is_true_cause<A: Allocator + Clone>(
    config: &Config<A>,
    notes: &[Note<A>],
    scope: &Scope<A>,
    cause: &Cause<A>,
    rest: &[Note<A>],
    alloc: &A,
) -> Result<bool, AllocError>
    requires { IfSome config.now.flash IsLimited }
    ensures { IfOk result (λ is_true. is_true ≡ judge.is_true_cause config.now (past [] notes.now) (scope_of scope.now) (cause_of cause.now) rest.now) }
{
    match (scope, cause) {
        (Scope::Key(key), Cause::Expired) => may_expire(config, notes, key, alloc),
        (Scope::Key(key), Cause::Evicted { pool, want, why }) => {
            let eviction = Eviction {
                pool: *pool,
                want: *want,
                why: *why,
            };
            may_forget(config, notes, key, eviction, rest, alloc)
        }
        _ => is_true_by_flash(config, notes, scope, cause, rest, alloc),
    }
}

// Whether there is flash, and the cause is true on it.
fn is_true_by_flash<A: Allocator + Clone>(
    config: &Config<A>,
    notes: &[Note<A>],
    scope: &Scope<A>,
    cause: &Cause<A>,
    rest: &[Note<A>],
    alloc: &A,
) -> Result<bool, AllocError>
    requires { IfSome config.now.flash IsLimited }
    ensures { IfOk result (λ is_true. is_true ≡ judge.some_and config.now.flash (λ flash. judge.is_true_on_flash flash (past [] notes.now) (scope_of scope.now) (cause_of cause.now) rest.now)) }
{
    match &config.flash {
        Some(flash) => is_true_on_flash(flash, notes, scope, cause, rest, alloc),
        None => Ok(false),
    }
}
