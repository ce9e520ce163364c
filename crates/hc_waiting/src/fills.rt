// The fills: calls that wait for a key from flash, and the job that brings it.
ghost use Rattle.std.specs.Prelude.{◌≡◌, ℕ, ◌≤◌, ◌+◌, ◌++◌, ◌∷◌, ◌==◌, ◌<◌, [], Bool, nat_eq, if◌then◌else◌, length, find, is_some, option_map, None, Some, true, IfOk, OnOk, OnErr, IfErr};
ghost use Rattle.std.specs.Option.{option_copied};
ghost use Rattle.hc_machine.specs.Nvm.{Fill, fill_at, fill_by, joined_by, taken_fill, without_fill, is_number_in, adds};
ghost use Rattle.std.specs.List.{list_any};
ghost use Rattle.indexmap.specs.IndexMap.{get, spare};
ghost use Rattle.hc_queue.specs.Queue.{Answers};
ghost use Rattle.hc_waiting.specs.Fills.{can_be_filled, IsJoining, IsFree, fill_under, is_kept_in, is_kept_by as is_kept_by_piece, job_by};
ghost use Rattle.hc_queue.specs.declared.queue.Piece.{Piece as PieceSeen};
ghost use Rattle.hc_queue.specs.declared.keyed.Named.{Named as NamedSeen};

use crate::line::Line;
use crate::tombstones::lane_of;
use crate::waiters::Waiter;
use hc_queue::{Named, Piece};
use hc_types::{FlashConfig, Key};
use indexmap::IndexMap;
use std::alloc::{AllocError, Allocator, Global};
use std::hash::{BuildHasherDefault, FoldHasher};
use std::marker::Model;

/// The calls that wait for a key, in order, and the job that brings it, once there is one.
#[derive(Drop)]
pub(crate) struct Bringing<A: Allocator = Global> {
    waiters: Vec<Waiter<A>, A>,
    job: Option<u64>,
}

/// The fills, in the order of their opening. Those of one bucket wait for each other. No two are of one key, and no job brings
/// two of them.
///
/// Room is made first, by `reserve`: then a fill is opened, taken by its job or removed without an allocation.
///
/// Contracts see the fills, and for how many more fills and jobs there is room.
#[derive(Drop)]
pub struct Fills<A: Allocator = Global> {
    alloc: A,
    flash: FlashConfig,
    line: Line<Bringing<A>, A>,
    /// The key of each fill that has a job, by the job's number.
    keys: Keys<A>,
}

type Keys<A> = IndexMap<u64, Key<A>, BuildHasherDefault<FoldHasher>, A>;

impl<A: Allocator> Model for Fills<A> {
    ghost use Rattle.std.specs.Prelude.{◌≤◌};
    ghost use Rattle.hc_waiting.specs.Fills.{FillLine, AreFilled, IsLed, fills_in};
    ghost use Rattle.indexmap.specs.IndexMap.{spare};

    ghost Value = { FillLine };

    ghost view = { λ f. record { flash = f.flash; fills = fills_in f.line.pieces; room = f.line.room; takes = spare f.keys } };

    ghost invariant = { λ f. (f.flash.bits ≤ 64) × (1 ≤ f.flash.buckets) × (f.flash.buckets ≤ 1048576) × AreFilled f.flash f.line.pieces × IsLed (fills_in f.line.pieces) f.keys };
}

/// The calls that wait for a fill's key, where there is a fill.
fn waiters_of<A: Allocator>(
    piece: Option<Piece<Named<Bringing<A>, A>>>,
) -> Option<Vec<Waiter<A>, A>>
    ensures { option_map (λ waiters. waiters.items) result ≡ option_map (λ (piece : PieceSeen (NamedSeen _ _)). piece.value.value.waiters.items) piece }
{
    match piece {
        Some(piece) => Some(piece.value.value.waiters),
        None => None,
    }
}

/// Whether an add that waits for the piece's key keeps the charge with this number.
fn is_kept_by<A: Allocator>(piece: Option<&Piece<Named<Bringing<A>, A>>>, number: u64) -> bool
    ensures { result ≡ is_kept_by_piece number (option_copied piece.entry) }
{
    match piece {
        Some(piece) => any_keeps(&piece.value.value.waiters, number),
        None => false,
    }
}

/// Whether one of these calls keeps the charge with this number.
fn any_keeps<A: Allocator>(waiters: &Vec<Waiter<A>, A>, number: u64) -> bool
    ensures { result ≡ list_any (adds number) waiters.now.items }
{
    waiters.iter().any(|waiter| waiter.keeps(number))
}

/// The same by reference.
fn waiters_in<A: Allocator>(
    piece: Option<&Piece<Named<Bringing<A>, A>>>,
) -> Option<&Vec<Waiter<A>, A>>
    ensures { option_copied result ≡ option_map (λ (piece : PieceSeen (NamedSeen _ _)). piece.value.value.waiters) (option_copied piece.entry) }
{
    match piece {
        Some(piece) => Some(&piece.value.value.waiters),
        None => None,
    }
}

/// The job of the fill, where there is one.
fn job_of<A: Allocator>(piece: &Option<Piece<Named<Bringing<A>, A>>>) -> Option<u64>
    ensures { result ≡ job_by piece.now }
{
    match piece {
        Some(piece) => piece.value.value.job,
        None => None,
    }
}

/// The job leads to the key from here on.
fn lead<A: Allocator>(keys: &mut Keys<A>, number: u64, key: Key<A>)
    requires { 0 < spare keys.old }
    ensures leads { (n : ℕ) → get nat_eq keys.new n ≡ (if number == n then Some key else get nat_eq keys.old n) }
    ensures room { spare keys.old ≤ spare keys.new + 1 }
{
    let _ = keys.insert(number, key);
}

/// The job, where there is one, leads nowhere from here on.
fn forget<A: Allocator>(keys: &mut Keys<A>, number: Option<u64>)
    ensures leads { (n : ℕ) → get nat_eq keys.new n ≡ (if is_number_in n number then None else get nat_eq keys.old n) }
    ensures room { spare keys.old ≤ spare keys.new }
{
    if let Some(number) = number {
        keys.swap_remove(&number);
    }
}

/// Nothing is brought.
fn nothing<A: Allocator>(alloc: A) -> Bringing<A>
    ensures { result ≡ record { waiters = result.waiters; job = None } }
{
    Bringing {
        waiters: Vec::new(alloc),
        job: None,
    }
}

/// The calls that wait, once one more was to join them, which comes back when out of memory.
struct Joining<A: Allocator> {
    bringing: Bringing<A>,
    refused: Option<Waiter<A>>,
}

/// One call more waits. When out of memory it comes back.
fn with_waiter<A: Allocator>(bringing: Bringing<A>, waiter: Waiter<A>) -> Joining<A>
    ensures { IsJoining waiter bringing result }
{
    let Bringing { mut waiters, job } = bringing;
    match waiters.reserve(1) {
        Ok(()) => {
            waiters.push_reserved(waiter);
            Joining {
                bringing: Bringing { waiters, job },
                refused: None,
            }
        }
        Err(_) => Joining {
            bringing: Bringing { waiters, job },
            refused: Some(waiter),
        },
    }
}

/// The same calls wait, and this job brings the key.
fn brought_by<A: Allocator>(bringing: Bringing<A>, number: u64) -> Bringing<A>
    ensures waiters { result.waiters.items ≡ bringing.waiters.items }
    ensures job { result.job ≡ Some number }
{
    let Bringing { waiters, .. } = bringing;
    Bringing {
        waiters,
        job: Some(number),
    }
}

impl<A: Allocator> Fills<A> {
    /// For how many keys calls wait.
    #[must_use]
    pub fn len(&self) -> usize
        ensures { result ≡ length self.now.fills }
    {
        self.line.len()
    }

    /// Whether there is none.
    #[must_use]
    pub fn is_empty(&self) -> bool
        ensures { result ≡ (length self.now.fills == 0) }
    {
        self.line.len() == 0
    }

    /// Whether calls wait for this key.
    #[must_use]
    pub fn contains(&self, key: &Key<A>) -> bool
        ensures { result ≡ is_some (fill_at key.now self.now.fills) }
    {
        self.line.contains(key)
    }
}

impl<A: Allocator + Copy> Fills<A> {
    /// No call waits.
    pub fn new(alloc: A, flash: FlashConfig) -> Fills<A>
        requires bits { flash.bits ≤ 64 }
        requires some_bucket { 1 ≤ flash.buckets }
        requires most_buckets { flash.buckets ≤ 1048576 }
        ensures { result ≡ record { flash = flash; fills = []; room = 0; takes = result.takes } }
    {
        Fills {
            alloc,
            flash,
            line: Line::new(alloc),
            keys: IndexMap::new(alloc),
        }
    }

    /// The key that this job brings, found without a scan.
    #[must_use]
    pub fn key_of(&self, number: u64) -> Option<&Key<A>>
        ensures { option_copied result ≡ option_map (λ (fill : Fill). fill.key) (fill_by number self.now.fills) }
    {
        self.keys.get(&number)
    }

    /// Whether an add that waits for this key keeps the charge with this number. It looks at the calls that wait for this key,
    /// and at no others.
    #[must_use]
    pub fn keeps(&self, key: &Key<A>, number: u64) -> bool
        ensures { result ≡ is_kept_in number (fill_at key.now self.now.fills) }
    {
        is_kept_by(self.line.get(key), number)
    }

    /// What is true of the fills: the one that a job brings is the only one of its key. A law to call where a proof asks for it;
    /// it does nothing.
    pub fn is_sound(&self)
        ensures { (number : ℕ) (fill : Fill) → fill_by number self.now.fills ≡ Some fill → fill_at fill.key self.now.fills ≡ Some fill }
    {
        self.line.is_sound();
    }

    /// The calls that wait for this key, in order.
    #[must_use]
    pub fn waiters(&self, key: &Key<A>) -> Option<&Vec<Waiter<A>, A>>
        ensures { option_map (λ waiters. waiters.items) (option_copied result) ≡ option_map (λ (fill : Fill). fill.waiters) (fill_at key.now self.now.fills) }
    {
        waiters_in(self.line.get(key))
    }

    /// Makes room for so many more, and for as many jobs. Refused only when out of memory; the fills stay as they were.
    pub fn reserve(&mut self, more: usize) -> Result<(), AllocError>
        ensures flash { self.new.flash ≡ self.old.flash }
        ensures fills { self.new.fills ≡ self.old.fills }
        ensures room { OnOk result (more ≤ self.new.room) }
        ensures kept { self.old.room ≤ self.new.room }
        ensures takes { OnOk result (more ≤ self.new.takes) }
        ensures kept_takes { self.old.takes ≤ self.new.takes }
    {
        self.keys.reserve(more)?;
        self.line.reserve(more)
    }

    /// These calls wait for a key for which none waits. `copy` is the key once more.
    pub fn open(&mut self, copy: Key<A>, key: Key<A>, waiters: Vec<Waiter<A>, A>)
        requires copy { copy ≡ key }
        requires absent { fill_at key self.old.fills ≡ None }
        requires room { 1 ≤ self.old.room }
        ensures flash { self.new.flash ≡ self.old.flash }
        ensures fills { self.new.fills ≡ self.old.fills ++ record { key = key; waiters = waiters.items; job = None } ∷ [] }
        ensures room { self.old.room ≤ self.new.room + 1 }
        ensures takes { self.new.takes ≡ self.old.takes }
    {
        let lane = lane_of(&self.flash, &key);
        let bringing = Bringing { waiters, job: None };
        self.line.push(copy, key, Some(lane), bringing);
    }

    /// One call more waits for a key for which some wait. When out of memory, the call comes back and nothing changed.
    pub fn join(&mut self, key: &Key<A>, waiter: Waiter<A>) -> Result<(), Waiter<A>>
        requires { is_some (fill_at key.now self.old.fills) ≡ true }
        ensures flash { self.new.flash ≡ self.old.flash }
        ensures ok { OnOk result (self.new.fills ≡ joined_by key.now waiter self.old.fills) }
        ensures err { OnErr result (self.new.fills ≡ self.old.fills) }
        ensures given_back { IfErr result (λ back. back ≡ waiter) }
        ensures room { self.new.room ≡ self.old.room }
        ensures takes { self.new.takes ≡ self.old.takes }
    {
        self.line.is_sound();
        match self.line.replace(key, nothing(self.alloc)) {
            Some(bringing) => {
                let Joining { bringing, refused } = with_waiter(bringing, waiter);
                let _ = self.line.replace(key, bringing);
                match refused {
                    Some(waiter) => Err(waiter),
                    None => Ok(()),
                }
            }
            None => unreachable!(),
        }
    }

    /// This job brings the key from here on, where calls wait for it: it brings no other, and no other brings it yet. `copy` is
    /// the key once more.
    pub fn take(&mut self, key: &Key<A>, copy: Key<A>, number: u64)
        requires copy { copy ≡ key.now }
        requires free { IsFree (fill_at key.now self.old.fills) }
        requires fresh { fill_by number self.old.fills ≡ None }
        requires takes { 1 ≤ self.old.takes }
        ensures flash { self.new.flash ≡ self.old.flash }
        ensures fills { self.new.fills ≡ taken_fill key.now number self.old.fills }
        ensures room { self.new.room ≡ self.old.room }
        ensures takes { self.old.takes ≤ self.new.takes + 1 }
    {
        self.line.is_sound();
        match self.line.replace(key, nothing(self.alloc)) {
            Some(bringing) => {
                let _ = self.line.replace(key, brought_by(bringing, number));
                self.line.mark(key);
                lead(&mut self.keys, number, copy);
            }
            None => drop(copy),
        }
    }

    /// The key's fill is over. Answers the calls that wait for it.
    #[must_use]
    pub fn remove(&mut self, key: &Key<A>) -> Option<Vec<Waiter<A>, A>>
        ensures flash { self.new.flash ≡ self.old.flash }
        ensures waiters { option_map (λ waiters. waiters.items) result ≡ option_map (λ (fill : Fill). fill.waiters) (fill_at key.now self.old.fills) }
        ensures fills { self.new.fills ≡ without_fill key.now self.old.fills }
        ensures room { self.old.room ≤ self.new.room }
        ensures takes { self.old.takes ≤ self.new.takes }
    {
        self.line.is_sound();
        let piece = self.line.remove(key);
        forget(&mut self.keys, job_of(&piece));
        waiters_of(piece)
    }

    /// The key of the first fill that has no job and whose bucket isn't busy.
    pub fn next<F: Fn(u32) -> bool>(&mut self, is_busy: F) -> Result<Option<Key<A>>, AllocError>
        requires { F.IsAlwaysCallable is_busy }
        ensures flash { self.new.flash ≡ self.old.flash }
        ensures fills { self.new.fills ≡ self.old.fills }
        ensures room { self.old.room ≤ self.new.room }
        ensures takes { self.new.takes ≡ self.old.takes }
        ensures fill { (busy : ℕ → Bool) → Answers (F.post is_busy) busy → IfOk result (λ key. fill_under key self.old.fills ≡ find (can_be_filled self.old.flash busy) self.old.fills) }
        ensures next { (busy : ℕ → Bool) → Answers (F.post is_busy) busy → IfOk result (λ key. key ≡ option_map (λ (fill : Fill). fill.key) (find (can_be_filled self.old.flash busy) self.old.fills)) }
    {
        self.line.first(is_busy)
    }
}
