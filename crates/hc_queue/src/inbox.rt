// The pieces that were pushed, and stand in no order yet: each by its place. One that went leaves its place empty.
ghost use Rattle.std.specs.Prelude.{◌≡◌, ◌+◌, ◌<◌, ◌≤◌, ◌^◌, ◌++◌, [], length, ℕ, OnOk, Some, None, slice_set, option_map};
ghost use Rattle.std.specs.List.{list_any};
ghost use Rattle.std.specs.Option.{option_copied};
ghost use Rattle.std.specs.VecDeque.{deque_len, deque_capacity};
ghost use Rattle.hc_queue.specs.Queue.{Rises, piece_in, marked, marked_place, Settles, numbered, first_in_lane, is_of, oldest, is_taken_slot};
ghost use Rattle.hc_queue.specs.Keys.{value_of, named_slot, named_place};

use crate::keyed::Named;
use crate::order::Order;
use crate::queue::Piece;
use std::alloc::{AllocError, Allocator};
use std::collections::VecDeque;

/// Pieces by their places.
pub(crate) type Inbox<V, A> = VecDeque<Option<Piece<V>>, A>;

/// The piece at a place.
pub(crate) fn get_in<V, A: Allocator>(inbox: &Inbox<V, A>, place: usize) -> Option<&Piece<V>>
    ensures { option_copied result ≡ piece_in place inbox.now.items }
{
    match inbox.get(place) {
        Some(Some(piece)) => Some(piece),
        _ => None,
    }
}

/// Takes the piece at a place out, where there is one.
pub(crate) fn take_in<V, A: Allocator>(inbox: &mut Inbox<V, A>, place: usize) -> Option<Piece<V>>
    ensures piece { result ≡ piece_in place inbox.old.items }
    ensures items { inbox.new.items ≡ slice_set inbox.old.items place None }
    ensures len { deque_len inbox.new ≡ deque_len inbox.old }
    ensures capacity { deque_capacity inbox.new ≡ deque_capacity inbox.old }
{
    match inbox.get_mut(place) {
        Some(slot) => slot.take(),
        None => None,
    }
}

/// The piece at a place is taken.
pub(crate) fn mark_in<V, A: Allocator>(inbox: &mut Inbox<V, A>, place: usize)
    ensures items { inbox.new.items ≡ marked_place place inbox.old.items }
    ensures len { deque_len inbox.new ≡ deque_len inbox.old }
    ensures capacity { deque_capacity inbox.new ≡ deque_capacity inbox.old }
{
    if let Some(slot) = inbox.get_mut(place) {
        mark_slot(slot);
    }
}

/// The piece, if there is one, is taken.
fn mark_slot<V>(slot: &mut Option<Piece<V>>)
    ensures { slot.new ≡ marked slot.old }
{
    if let Some(piece) = slot {
        piece.taken = true;
    }
}

/// The value of the piece at a place is another from here on, under the same key. The one before comes back; where there is no
/// piece, the value is dropped.
pub(crate) fn replace_in<V: Drop, A: Allocator>(
    inbox: &mut Inbox<Named<V, A>, A>,
    place: usize,
    value: V,
) -> Option<V>
    ensures value { result ≡ option_map value_of (piece_in place inbox.old.items) }
    ensures items { inbox.new.items ≡ named_place place value inbox.old.items }
    ensures len { deque_len inbox.new ≡ deque_len inbox.old }
    ensures capacity { deque_capacity inbox.new ≡ deque_capacity inbox.old }
{
    match inbox.get_mut(place) {
        Some(slot) => replace_slot(slot, value),
        None => {
            drop(value);
            None
        }
    }
}

/// The value of the piece, if there is one, is another.
fn replace_slot<V: Drop, A: Allocator>(slot: &mut Option<Piece<Named<V, A>>>, value: V) -> Option<V>
    ensures value { result ≡ option_map value_of slot.old }
    ensures slot { slot.new ≡ named_slot value slot.old }
{
    match slot {
        Some(piece) => Some(std::mem::replace(&mut piece.value.value, value)),
        None => {
            drop(value);
            None
        }
    }
}

/// The number of the lane's first piece, taken or not, where the first place has this one.
pub(crate) fn first_in<V, A: Allocator>(inbox: &Inbox<V, A>, from: u64, lane: u32) -> Option<u64>
    requires { from + deque_len inbox.now < 2 ^ 64 }
    ensures { result ≡ first_in_lane lane (numbered from inbox.now.items) }
{
    let mut number = from;
    for slot in inbox.iter() {
        if is_of_lane(slot, lane) {
            return Some(number);
        }
        number += 1;
    }
    None
}

/// The number of the first piece, taken or not, where the first place has this one.
pub(crate) fn oldest_in<V, A: Allocator>(inbox: &Inbox<V, A>, from: u64) -> Option<u64>
    requires { from + deque_len inbox.now < 2 ^ 64 }
    ensures { result ≡ oldest (numbered from inbox.now.items) }
{
    let mut number = from;
    for slot in inbox.iter() {
        if slot.is_some() {
            return Some(number);
        }
        number += 1;
    }
    None
}

/// Whether a piece is taken.
pub(crate) fn any_taken_in<V, A: Allocator>(inbox: &Inbox<V, A>) -> bool
    ensures { result ≡ list_any is_taken_slot inbox.now.items }
{
    for slot in inbox.iter() {
        if has_taken(slot) {
            return true;
        }
    }
    false
}

/// Whether there is a piece, and it is taken.
fn has_taken<V>(slot: &Option<Piece<V>>) -> bool
    ensures { result ≡ is_taken_slot slot.now }
{
    match slot {
        Some(piece) => piece.taken,
        None => false,
    }
}

/// Whether there is a piece, and it is of the lane.
fn is_of_lane<V>(slot: &Option<Piece<V>>, lane: u32) -> bool
    ensures { result ≡ is_of lane slot.now }
{
    match slot {
        Some(piece) => piece.lane == Some(lane),
        None => false,
    }
}

/// All pieces stand in order, and all lanes have caught up. Refused only when out of memory; then the rest stays as it was.
pub(crate) fn settle<V: Drop, A: Allocator + Copy>(
    order: &mut Order<V, A>,
    inbox: &mut Inbox<V, A>,
    from: &mut u64,
) -> Result<(), AllocError>
    requires rises { Rises 0 from.old order.old.entries }
    requires spare { deque_len inbox.old ≤ order.old.spare }
    requires numbers { from.old + deque_len inbox.old < 2 ^ 64 }
    ensures settles { Settles order.old inbox.old from.old order.new inbox.new from.new }
    ensures empty { OnOk result (deque_len inbox.new ≡ 0) }
    ensures ready { OnOk result (order.new.stale ≡ []) }
{
    order.catch_up()?;
    for _ in 0..inbox.len() {
        settle_one(order, inbox, from)?;
    }
    Ok(())
}

/// The first place of the inbox goes, and its piece stands in order. Refused only when out of memory; then nothing changes.
fn settle_one<V: Drop, A: Allocator + Copy>(
    order: &mut Order<V, A>,
    inbox: &mut Inbox<V, A>,
    from: &mut u64,
) -> Result<(), AllocError>
    requires rises { Rises 0 from.old order.old.entries }
    requires ready { order.old.stale ≡ [] }
    requires there { 0 < deque_len inbox.old }
    requires spare { deque_len inbox.old ≤ order.old.spare }
    requires numbers { from.old + deque_len inbox.old < 2 ^ 64 }
    ensures settles { Settles order.old inbox.old from.old order.new inbox.new from.new }
    ensures shorter { OnOk result (deque_len inbox.new + 1 ≡ deque_len inbox.old) }
    ensures ready { OnOk result (order.new.stale ≡ []) }
{
    let Some(slot) = inbox.pop_front() else {
        return Ok(());
    };
    let Some(piece) = slot else {
        *from += 1;
        return Ok(());
    };
    match order.enter(*from, piece) {
        Ok(()) => {
            *from += 1;
            Ok(())
        }
        Err(refused) => {
            inbox.push_front_reserved(Some(refused.value));
            Err(AllocError)
        }
    }
}
