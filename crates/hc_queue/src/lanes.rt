// The numbers that stand in lanes, as pairs in order, and those that are ready.
ghost use Rattle.std.specs.Prelude.{◌≡◌, ◌<◌, ◌≤◌, ◌+◌, length, OnOk, OnErr, Some, None, vec_len, vec_capacity};
ghost use Rattle.std.specs.List.Sorted.{IsStrictlySortedBy};
ghost use Rattle.hc_queue.specs.Queue.{beside, first_of, above, with, without, joined, left, left_by, unready_by, noted_by, comes_first, only_if, pair_cmp, IsNew, Waits};

use std::alloc::{AllocError, Allocator};
use std::collections::BTreeSet;

/// Pairs of a lane and a number.
pub(crate) type Pairs<A> = BTreeSet<(u64, u64), A>;

/// The lane's first number.
pub(crate) fn first_in<A: Allocator>(pairs: &Pairs<A>, lane: u32) -> Option<u64>
    ensures { result ≡ first_of (beside lane pairs.now.keys) }
{
    let from = u64::from(lane);
    match pairs.range((from, 0)..(from + 1, 0)).next() {
        Some(pair) => Some(pair.1),
        None => None,
    }
}

/// The lane's first number after this one.
pub(crate) fn next_in<A: Allocator>(pairs: &Pairs<A>, lane: u32, number: u64) -> Option<u64>
    requires { number < u64.MAX }
    ensures { result ≡ above number (beside lane pairs.now.keys) }
{
    let from = u64::from(lane);
    match pairs.range((from, number + 1)..(from + 1, 0)).next() {
        Some(pair) => Some(pair.1),
        None => None,
    }
}

/// With the number, if there is one.
pub(crate) fn add<A: Allocator + Copy>(
    numbers: &mut BTreeSet<u64, A>,
    number: Option<u64>,
) -> Result<(), AllocError>
    ensures ok { OnOk result (numbers.new.keys ≡ with number numbers.old.keys) }
    ensures err { OnErr result (numbers.new.keys ≡ numbers.old.keys) }
{
    let Some(number) = number else {
        return Ok(());
    };
    match numbers.insert(number) {
        Ok(_) => Ok(()),
        Err(_) => Err(AllocError),
    }
}

/// Without the number, if there is one.
pub(crate) fn drop_out<A: Allocator>(numbers: &mut BTreeSet<u64, A>, number: Option<u64>)
    ensures { numbers.new.keys ≡ without number numbers.old.keys }
{
    if let Some(number) = number {
        numbers.remove(&number);
    }
}

/// The number stands in the lane from here on.
fn join<A: Allocator + Copy>(
    pairs: &mut Pairs<A>,
    lane: Option<u32>,
    number: u64,
) -> Result<(), AllocError>
    ensures ok { OnOk result (pairs.new.keys ≡ joined lane number pairs.old.keys) }
    ensures err { OnErr result (pairs.new.keys ≡ pairs.old.keys) }
    ensures ordered { IsStrictlySortedBy pair_cmp pairs.old.keys }
{
    let _len = pairs.len();
    let Some(lane) = lane else {
        return Ok(());
    };
    match pairs.insert((u64::from(lane), number)) {
        Ok(_) => Ok(()),
        Err(_) => Err(AllocError),
    }
}

/// The number doesn't stand in its lane any more.
pub(crate) fn leave<A: Allocator>(pairs: &mut Pairs<A>, lane: Option<u32>, number: u64)
    ensures { pairs.new.keys ≡ left lane number pairs.old.keys }
{
    if let Some(lane) = lane {
        pairs.remove(&(u64::from(lane), number));
    }
}

/// Whether a piece that comes now is the first of its lane.
pub(crate) fn is_first<A: Allocator>(waits: &Pairs<A>, lane: Option<u32>) -> bool
    ensures { result ≡ comes_first lane waits.now.keys }
{
    match lane {
        None => true,
        Some(lane) => first_in(waits, lane).is_none(),
    }
}

/// The number, if so.
pub(crate) fn given(yes: bool, number: u64) -> Option<u64>
    ensures { result ≡ only_if yes number }
{
    if yes { Some(number) } else { None }
}

/// The number stands in its lane, and in the one where it waits, from here on. Refused only when out of memory; then nothing
/// changes.
pub(crate) fn join_both<A: Allocator + Copy>(
    lanes: &mut Pairs<A>,
    waits: &mut Pairs<A>,
    lane: Option<u32>,
    turn: Option<u32>,
    number: u64,
) -> Result<(), AllocError>
    requires { IsNew lane number lanes.old.keys }
    ensures lanes { OnOk result (lanes.new.keys ≡ joined lane number lanes.old.keys) }
    ensures waits { OnOk result (waits.new.keys ≡ joined turn number waits.old.keys) }
    ensures same_lanes { OnErr result (lanes.new.keys ≡ lanes.old.keys) }
    ensures same_waits { OnErr result (waits.new.keys ≡ waits.old.keys) }
    ensures ordered { IsStrictlySortedBy pair_cmp lanes.old.keys }
    ensures waits_ordered { IsStrictlySortedBy pair_cmp waits.old.keys }
{
    let _len = waits.len();
    join(lanes, lane, number)?;
    match join(waits, turn, number) {
        Ok(()) => Ok(()),
        Err(error) => {
            leave(lanes, lane, number);
            Err(error)
        }
    }
}

/// The turn of a piece that waits ends; the next of its lane isn't ready yet, so that the lane is noted.
pub(crate) fn end_turn<A: Allocator>(
    waits: &mut Pairs<A>,
    ready: &mut BTreeSet<u64, A>,
    stale: &mut Vec<u32, A>,
    turn: Option<Option<u32>>,
    number: u64,
)
    requires room { length stale.old.items + length waits.old.keys ≤ vec_capacity stale.old }
    requires waits { Waits turn number waits.old.keys }
    ensures waits { waits.new.keys ≡ left_by turn number waits.old.keys }
    ensures ready { ready.new.keys ≡ unready_by turn number ready.old.keys }
    ensures stale { stale.new.items ≡ noted_by turn number ready.old.keys stale.old.items }
    ensures capacity { vec_capacity stale.new ≡ vec_capacity stale.old }
    ensures room { length stale.new.items + length waits.new.keys ≤ length stale.old.items + length waits.old.keys }
{
    let Some(turn) = turn else {
        return;
    };
    let Some(lane) = turn else {
        drop_out(ready, Some(number));
        return;
    };
    waits.remove(&(u64::from(lane), number));
    if ready.remove(&number) {
        stale.push_reserved(lane);
    }
}
