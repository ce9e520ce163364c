// The pieces that stand in order: their lanes, and those that are ready.
ghost use Rattle.std.specs.Prelude.{◌≡◌, ◌+◌, ◌-◌, ◌<◌, ◌≤◌, ◌++◌, ◌&&◌, not, [], ◌∷◌, ℕ, Bool, length, find, option_map, OnOk, OnErr, IfErr, Some, None, vec_len, vec_capacity};
ghost use Rattle.std.specs.Option.{option_copied};
ghost use Rattle.std.specs.List.Sorted.{IsStrictlySortedBy};
ghost use Rattle.hc_queue.specs.Queue.{can_go, piece_at, without_number, taken_at, in_lane, first_in_lane, above, pieces_of, piece_by, IsRising, turn_of, lane_at, Rises, IsNew, AllBelow, joined, with, only_if, pair_cmp, open_lane, is_free, is_among, firsts, Answers, is_open, comes_first, oldest, any_taken};
ghost use Rattle.hc_queue.specs.Keys.{value_of, named_at};

use crate::keyed::Named;
use crate::lanes::{
    Pairs, add, drop_out, end_turn, first_in, given, is_first, join_both, leave, next_in,
};
use crate::queue::Piece;
use std::alloc::{AllocError, AllocFailed, Allocator};
use std::collections::{BTreeMap, BTreeSet};
use std::marker::Model;

type Pieces<V, A> = BTreeMap<u64, Piece<V>, A>;

/// Pieces in order of their numbers. A piece leaves, or is taken, without an allocation: the next of its lane becomes ready
/// only as the lanes that were noted catch up.
#[derive(Drop)]
pub(crate) struct Order<V, A: Allocator> {
    pieces: Pieces<V, A>,
    /// The lanes: each with the numbers of its pieces.
    lanes: Pairs<A>,
    /// The same of the pieces that wait.
    waits: Pairs<A>,
    /// The numbers of the pieces that wait in no lane, and of the first of each lane that isn't noted.
    ready: BTreeSet<u64, A>,
    /// The lanes whose first piece isn't ready yet, with room for that of each piece that waits in one.
    stale: Vec<u32, A>,
}

impl<V, A: Allocator> Model for Order<V, A> {
    ghost use Rattle.std.specs.Prelude.{◌+◌, ◌-◌, length};
    ghost use Rattle.std.specs.Vec.{vec_capacity};
    ghost use Rattle.hc_queue.specs.Queued.{Ordered};
    ghost use Rattle.hc_queue.specs.Queue.{Kept};

    ghost Value = { Ordered V };

    ghost view = { λ s. record { entries = s.pieces.entries; stale = s.stale.items; spare = vec_capacity s.stale - (length s.stale.items + length s.waits.keys) } };

    ghost invariant = { λ s. Kept s.pieces.entries s.lanes.keys s.waits.keys s.ready.keys s.stale.items (vec_capacity s.stale) };
}

impl<V, A: Allocator + Copy> Order<V, A> {
    /// No pieces.
    pub(crate) fn new(alloc: A) -> Order<V, A>
        ensures entries { result.entries ≡ [] }
        ensures stale { result.stale ≡ [] }
    {
        Order {
            pieces: BTreeMap::new(alloc),
            lanes: BTreeSet::new(alloc),
            waits: BTreeSet::new(alloc),
            ready: BTreeSet::new(alloc),
            stale: Vec::new(alloc),
        }
    }

    /// Room to note the lanes of so many more pieces. Refused only when out of memory.
    pub(crate) fn reserve(&mut self, more: usize) -> Result<(), AllocError>
        ensures entries { self.new.entries ≡ self.old.entries }
        ensures stale { self.new.stale ≡ self.old.stale }
        ensures grows { self.old.spare ≤ self.new.spare }
        ensures ok { OnOk result (more ≤ self.new.spare) }
    {
        let Some(wanted) = self.waits.len().checked_add(more) else {
            return Err(AllocError);
        };
        self.stale.reserve(wanted)
    }

    /// The first piece of each lane that was noted is ready. Refused only when out of memory; then some stay noted.
    pub(crate) fn catch_up(&mut self) -> Result<(), AllocError>
        ensures entries { self.new.entries ≡ self.old.entries }
        ensures grows { self.old.spare ≤ self.new.spare }
        ensures ok { OnOk result (self.new.stale ≡ []) }
    {
        for _ in 0..self.stale.len() {
            self.make_ready()?;
        }
        Ok(())
    }

    /// The first piece of a lane that was noted is ready. Refused only when out of memory; then nothing changes.
    fn make_ready(&mut self) -> Result<(), AllocError>
        ensures entries { self.new.entries ≡ self.old.entries }
        ensures grows { self.old.spare ≤ self.new.spare }
        ensures shorter { length self.new.stale ≤ length self.old.stale }
        ensures ok { OnOk result (length self.new.stale ≤ length self.old.stale - 1) }
    {
        let Some(lane) = self.stale.pop() else {
            return Ok(());
        };
        match add(&mut self.ready, first_in(&self.waits, lane)) {
            Ok(()) => Ok(()),
            Err(error) => {
                self.stale.push_reserved(lane);
                Err(error)
            }
        }
    }
}

impl<V, A: Allocator> Order<V, A> {
    /// The number of the first piece that isn't taken and whose lane isn't busy.
    pub(crate) fn first_open<F: Fn(u32) -> bool>(&self, is_busy: &F) -> Option<u64>
        requires callable { F.IsAlwaysCallable is_busy.now }
        requires ready { self.now.stale ≡ [] }
        ensures number { (busy : ℕ → Bool) → Answers (F.post is_busy.now) busy → result ≡ option_map (λ e. e.0) (find (λ e. can_go busy e.1) self.now.entries) }
    {
        first_free(&self.pieces, &self.ready, is_busy)
    }

    /// The piece with this number.
    pub(crate) fn get(&self, number: u64) -> Option<&Piece<V>>
        ensures { option_copied result ≡ piece_at number self.now.entries }
    {
        self.pieces.get(&number)
    }

    /// The number of the first piece.
    pub(crate) fn oldest(&self) -> Option<u64>
        ensures { result ≡ oldest self.now.entries }
    {
        match self.pieces.first_key_value() {
            Some((number, _)) => Some(*number),
            None => None,
        }
    }

    /// Whether a piece is taken.
    pub(crate) fn any_taken(&self) -> bool
        ensures { result ≡ any_taken self.now.entries }
    {
        one_is_taken(&self.pieces)
    }

    /// The number of the lane's first piece.
    pub(crate) fn first_of(&self, lane: u32) -> Option<u64>
        ensures { result ≡ first_in_lane lane self.now.entries }
    {
        first_in(&self.lanes, lane)
    }

    /// The number of the lane's first piece behind this number.
    pub(crate) fn next_of(&self, lane: u32, number: u64) -> Option<u64>
        requires { number < u64.MAX }
        ensures { result ≡ above number (in_lane lane self.now.entries) }
    {
        next_in(&self.lanes, lane, number)
    }

    /// Takes the piece with this number out, where there is one.
    pub(crate) fn remove(&mut self, number: u64) -> Option<Piece<V>>
        ensures piece { result ≡ piece_at number self.old.entries }
        ensures entries { self.new.entries ≡ without_number number self.old.entries }
        ensures grows { self.old.spare ≤ self.new.spare }
    {
        let turn = turn_in(&self.pieces, number);
        let lane = lane_in(&self.pieces, number);
        end_turn(
            &mut self.waits,
            &mut self.ready,
            &mut self.stale,
            turn,
            number,
        );
        leave(&mut self.lanes, lane, number);
        self.pieces.remove(&number)
    }

    /// The piece with this number stays, but its turn doesn't come again.
    pub(crate) fn mark(&mut self, number: u64)
        ensures entries { self.new.entries ≡ taken_at number self.old.entries }
        ensures grows { self.old.spare ≤ self.new.spare }
    {
        let turn = turn_in(&self.pieces, number);
        end_turn(
            &mut self.waits,
            &mut self.ready,
            &mut self.stale,
            turn,
            number,
        );
        mark_in(&mut self.pieces, number);
    }
}

impl<V: Drop, A: Allocator> Order<Named<V, A>, A> {
    /// The value of the piece with this number is another from here on, under the same key. The one before comes back; where
    /// there is no such piece, the value is dropped.
    pub(crate) fn replace(&mut self, number: u64, value: V) -> Option<V>
        ensures value { result ≡ option_map value_of (piece_at number self.old.entries) }
        ensures entries { self.new.entries ≡ named_at number value self.old.entries }
        ensures spare { self.new.spare ≡ self.old.spare }
    {
        replace_in(&mut self.pieces, number, value)
    }
}

impl<V: Drop, A: Allocator + Copy> Order<V, A> {
    /// A piece comes behind all others. Refused only when out of memory; then nothing changes, and the piece comes back.
    pub(crate) fn enter(
        &mut self,
        number: u64,
        piece: Piece<V>,
    ) -> Result<(), AllocFailed<Piece<V>>>
        requires rises { Rises 0 number self.old.entries }
        requires ready { self.old.stale ≡ [] }
        requires spare { 0 < self.old.spare }
        ensures entries { OnOk result (self.new.entries ≡ self.old.entries ++ (number, piece) ∷ []) }
        ensures stale { OnOk result (self.new.stale ≡ []) }
        ensures spare { OnOk result (self.old.spare ≤ self.new.spare + 1) }
        ensures err { OnErr result (self.new ≡ self.old) }
        ensures value_returned { IfErr result (λ refused. refused.value ≡ piece) }
    {
        let first = goes_first(&self.waits, &piece);
        match insert(
            &mut self.pieces,
            &mut self.lanes,
            &mut self.waits,
            &mut self.ready,
            number,
            first,
            piece,
        ) {
            Ok(()) => Ok(()),
            Err(refused) => Err(refused),
        }
    }
}

/// Whether one of the pieces is taken.
fn one_is_taken<V, A: Allocator>(pieces: &Pieces<V, A>) -> bool
    ensures { result ≡ any_taken pieces.now.entries }
{
    for (_, piece) in pieces {
        if is_taken(piece) {
            return true;
        }
    }
    false
}

/// Whether the piece is taken.
fn is_taken<V>(piece: &Piece<V>) -> bool
    ensures { result ≡ piece.now.taken }
{
    piece.taken
}

/// The lane of the piece with this number, where it waits.
fn turn_in<V, A: Allocator>(pieces: &Pieces<V, A>, number: u64) -> Option<Option<u32>>
    ensures { result ≡ turn_of number pieces.now.entries }
{
    match pieces.get(&number) {
        Some(piece) => { if piece.taken { None } else { Some(piece.lane) } }
        None => None,
    }
}

/// The lane of the piece with this number, taken or not.
fn lane_in<V, A: Allocator>(pieces: &Pieces<V, A>, number: u64) -> Option<u32>
    ensures { result ≡ lane_at number pieces.now.entries }
{
    match pieces.get(&number) {
        Some(piece) => piece.lane,
        None => None,
    }
}

/// The piece with this number is taken.
fn mark_in<V, A: Allocator>(pieces: &mut Pieces<V, A>, number: u64)
    ensures { (high : ℕ) → Rises 0 high pieces.old.entries → pieces.new.entries ≡ taken_at number pieces.old.entries }
{
    if let Some(piece) = pieces.get_mut(&number) {
        piece.taken = true;
    }
}

/// The value of the piece with this number is another.
fn replace_in<V: Drop, A: Allocator>(
    pieces: &mut Pieces<Named<V, A>, A>,
    number: u64,
    value: V,
) -> Option<V>
    ensures value { result ≡ option_map value_of (piece_at number pieces.old.entries) }
    ensures entries { (high : ℕ) → Rises 0 high pieces.old.entries → pieces.new.entries ≡ named_at number value pieces.old.entries }
{
    match pieces.get_mut(&number) {
        Some(piece) => Some(std::mem::replace(&mut piece.value.value, value)),
        None => {
            drop(value);
            None
        }
    }
}

/// The first of these numbers whose piece is in no busy lane.
fn first_free<V, A: Allocator, F: Fn(u32) -> bool>(
    pieces: &Pieces<V, A>,
    ready: &BTreeSet<u64, A>,
    is_busy: &F,
) -> Option<u64>
    requires { F.IsAlwaysCallable is_busy.now }
    ensures { (busy : ℕ → Bool) → Answers (F.post is_busy.now) busy → result ≡ find (is_free busy pieces.now.entries) ready.now.keys }
{
    for number in ready.iter() {
        let lane = lane_in(pieces, *number);
        if lane_is_open(lane, is_busy) {
            return Some(*number);
        }
    }
    None
}

/// Whether the lane isn't busy, or there is none.
fn lane_is_open<F: Fn(u32) -> bool>(lane: Option<u32>, is_busy: &F) -> bool
    requires { F.IsAlwaysCallable is_busy.now }
    ensures { (busy : ℕ → Bool) → Answers (F.post is_busy.now) busy → result ≡ is_open busy lane }
{
    match lane {
        Some(lane) => !is_busy(lane),
        None => true,
    }
}

/// Whether a piece that comes now waits, and is the first of its lane.
fn goes_first<V, A: Allocator>(waits: &Pairs<A>, piece: &Piece<V>) -> bool
    ensures { result ≡ (not piece.now.taken && comes_first piece.now.lane waits.now.keys) }
{
    !piece.taken && is_first(waits, piece.lane)
}

/// The lane in which the piece waits.
fn waiting_lane<V>(piece: &Piece<V>) -> Option<u32>
    ensures { result ≡ open_lane piece.now }
{
    if piece.taken { None } else { piece.lane }
}

/// The piece comes behind all others. Refused only when out of memory; then nothing changes, and the piece comes back.
fn insert<V: Drop, A: Allocator + Copy>(
    pieces: &mut Pieces<V, A>,
    lanes: &mut Pairs<A>,
    waits: &mut Pairs<A>,
    ready: &mut BTreeSet<u64, A>,
    number: u64,
    first: bool,
    piece: Piece<V>,
) -> Result<(), AllocFailed<Piece<V>>>
    requires rises { Rises 0 number pieces.old.entries }
    requires lanes { IsNew piece.lane number lanes.old.keys }
    requires waits { IsNew (open_lane piece) number waits.old.keys }
    requires below { AllBelow number ready.old.keys }
    ensures pieces { OnOk result (pieces.new.entries ≡ pieces.old.entries ++ (number, piece) ∷ []) }
    ensures lanes { OnOk result (lanes.new.keys ≡ joined piece.lane number lanes.old.keys) }
    ensures waits { OnOk result (waits.new.keys ≡ joined (open_lane piece) number waits.old.keys) }
    ensures ready { OnOk result (ready.new.keys ≡ with (only_if first number) ready.old.keys) }
    ensures same_pieces { OnErr result (pieces.new.entries ≡ pieces.old.entries) }
    ensures same_lanes { OnErr result (lanes.new.keys ≡ lanes.old.keys) }
    ensures same_waits { OnErr result (waits.new.keys ≡ waits.old.keys) }
    ensures same_ready { OnErr result (ready.new.keys ≡ ready.old.keys) }
    ensures ordered { IsStrictlySortedBy pair_cmp lanes.old.keys }
    ensures waits_ordered { IsStrictlySortedBy pair_cmp waits.old.keys }
    ensures value_returned { IfErr result (λ refused. refused.value ≡ piece) }
{
    let lane = piece.lane;
    let turn = waiting_lane(&piece);
    let Ok(()) = join_both(lanes, waits, lane, turn, number) else {
        return Err(AllocFailed { value: piece });
    };
    let Ok(()) = add(ready, given(first, number)) else {
        leave(waits, turn, number);
        leave(lanes, lane, number);
        return Err(AllocFailed { value: piece });
    };
    match pieces.insert(number, piece) {
        Ok(_) => Ok(()),
        Err(refused) => {
            drop_out(ready, given(first, number));
            leave(waits, turn, number);
            leave(lanes, lane, number);
            let (_, piece) = refused.value;
            Err(AllocFailed { value: piece })
        }
    }
}
