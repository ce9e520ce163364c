// The charges that are live after the notes so far.
ghost use Rattle.std.specs.Prelude.{nat_lt, if◌then◌else◌, ◌≡◌, ◌==◌, ◌&&◌, not, false, [], ◌∷◌, List, IfOk, OnOk, map, filter};
ghost use Rattle.std.specs.Str.{bytes_eq};
ghost use Rattle.hc_types.specs.Tally.{count};
ghost use Rattle.hc_history.specs.Note.{Note as Meaning};
ghost use Rattle.hc_history.specs.Books as books;
ghost use Rattle.hc_history.specs.Books.{Charge as Charged, has_number, linked_at, is_linked};
ghost use Rattle.hc_history.specs.Lawful.{past, is_charge_of};
ghost use Rattle.hc_judge_memory.specs.Evictions.{is_link_of};

use hc_history::{Note, Said};
use hc_types::Key;
use std::alloc::{AllocError, Allocator, Global};
use std::marker::Model;

/// A charge that is live: it is open until its item can be found, and then linked.
#[derive(Drop)]
pub struct Charge<A: Allocator = Global> {
    pub number: u64,
    pub key: Key<A>,
    pub pool: u8,
    pub bytes: u64,
    pub linked: bool,
}

impl<A: Allocator> Model for Charge<A> {
    ghost use Rattle.hc_history.specs.Books.{Charge as Meaning};

    ghost Value = { Meaning };

    ghost view = { λ c. record { number = c.number; key = c.key; pool = c.pool; bytes = c.bytes; linked = c.linked } };
}

impl<A: Allocator> Charge<A> {
    /// Whether it has this number.
    pub fn has_number(&self, number: u64) -> bool
        ensures { result ≡ has_number number self.now }
    {
        self.number == number
    }

    /// Whether it is a linked charge of this key.
    pub fn is_linked(&self, key: &Key<A>) -> bool
        ensures { result ≡ is_linked key.now self.now }
    {
        self.linked && self.key == *key
    }

    /// Whether it is a linked charge of this number and key.
    pub fn is_link_of(&self, number: u64, key: &Key<A>) -> bool
        ensures { result ≡ is_link_of number key.now self.now }
    {
        self.number == number && self.is_linked(key)
    }

    /// Whether it is a linked charge of this number, key and pool.
    pub fn is_charge_of(&self, number: u64, key: &Key<A>, pool: u8) -> bool
        ensures { result ≡ is_charge_of number key.now pool self.now }
    {
        self.is_link_of(number, key) && self.pool == pool
    }

    /// Whether it is an open charge of this number.
    pub fn is_open(&self, number: u64) -> bool
        ensures { result ≡ (has_number number self.now && not self.now.linked) }
    {
        self.number == number && !self.linked
    }

    /// Whether the pool has it.
    pub fn is_in(&self, pool: u8) -> bool
        ensures { result ≡ (self.now.pool == pool) }
    {
        self.pool == pool
    }

    /// What it takes of the pool, in bytes.
    pub fn bytes_in(&self, pool: u8) -> u64
        ensures { result ≡ (if self.now.pool == pool then self.now.bytes else 0) }
    {
        if self.pool == pool { self.bytes } else { 0 }
    }

    /// Links it, if it has this number.
    fn link_at(&mut self, number: u64)
        ensures { self.new ≡ linked_at number self.old }
    {
        if self.number == number {
            self.linked = true;
        }
    }
}

/// The charges that are live after these notes, the last one first. Refused only when out of memory.
pub fn charges<A: Allocator + Clone>(
    notes: &[Note<A>],
    alloc: &A,
) -> Result<Vec<Charge<A>, A>, AllocError>
    ensures { IfOk result (λ live. live.items ≡ books.charges (past [] notes.now)) }
{
    let mut live = Vec::new(alloc.clone()?);
    for note in notes {
        charge_note(&mut live, note)?;
    }
    Ok(live)
}

/// What a note more makes of the live charges.
pub(crate) fn charge_note<A: Allocator + Clone>(
    live: &mut Vec<Charge<A>, A>,
    note: &Note<A>,
) -> Result<(), AllocError>
    ensures { OnOk result ((older : List Meaning) → live.old.items ≡ books.charges older → live.new.items ≡ books.charges (note.now ∷ older)) }
{
    match &note.said {
        Said::Charged {
            charge,
            key,
            pool,
            bytes,
        } => begin(live, *charge, key, *pool, *bytes),
        Said::Linked { charge } => {
            link(live, *charge);
            Ok(())
        }
        Said::Freed { charge } => {
            free(live, *charge);
            Ok(())
        }
        _ => Ok(()),
    }
}

fn begin<A: Allocator + Clone>(
    live: &mut Vec<Charge<A>, A>,
    number: u64,
    key: &Key<A>,
    pool: u8,
    bytes: u64,
) -> Result<(), AllocError>
    ensures { OnOk result (live.new.items ≡ record { number = number; key = key.now; pool = pool; bytes = bytes; linked = false } ∷ live.old.items) }
{
    let charge = Charge {
        number,
        key: key.clone()?,
        pool,
        bytes,
        linked: false,
    };
    live.insert(0, charge)?;
    Ok(())
}

fn link<A: Allocator>(live: &mut Vec<Charge<A>, A>, number: u64)
    ensures { live.new.items ≡ map (linked_at number) live.old.items }
{
    for charge in live.iter_mut() {
        charge.link_at(number);
    }
}

fn free<A: Allocator>(live: &mut Vec<Charge<A>, A>, number: u64)
    ensures { live.new.items ≡ filter (λ charge. not (has_number number charge)) live.old.items }
{
    live.retain(|charge| !charge.has_number(number));
}

/// Whether one of these charges is a linked one of the key.
pub(crate) fn has_linked<A: Allocator>(live: &[Charge<A>], key: &Key<A>) -> bool
    ensures { result ≡ nat_lt 0 (count (is_linked key.now) live.now) }
{
    for charge in live {
        if charge.is_linked(key) {
            return true;
        }
    }
    false
}

/// Whether one of these charges is a linked one of the number and the key.
pub(crate) fn has_link_of<A: Allocator>(live: &[Charge<A>], number: u64, key: &Key<A>) -> bool
    ensures { result ≡ nat_lt 0 (count (is_link_of number key.now) live.now) }
{
    for charge in live {
        if charge.is_link_of(number, key) {
            return true;
        }
    }
    false
}

/// Whether one of these charges is a linked one of the number, the key and the pool.
pub(crate) fn has_charge_of<A: Allocator>(
    live: &[Charge<A>],
    number: u64,
    key: &Key<A>,
    pool: u8,
) -> bool
    ensures { result ≡ nat_lt 0 (count (is_charge_of number key.now pool) live.now) }
{
    for charge in live {
        if charge.is_charge_of(number, key, pool) {
            return true;
        }
    }
    false
}

/// Whether one of these charges is an open one of the number.
pub(crate) fn has_open<A: Allocator>(live: &[Charge<A>], number: u64) -> bool
    ensures { result ≡ nat_lt 0 (count (λ (charge : Charged). has_number number charge && not charge.linked) live.now) }
{
    for charge in live {
        if charge.is_open(number) {
            return true;
        }
    }
    false
}

/// Whether none of these charges has the number.
pub(crate) fn is_free<A: Allocator>(live: &[Charge<A>], number: u64) -> bool
    ensures { result ≡ (count (has_number number) live.now == 0) }
{
    for charge in live {
        if charge.has_number(number) {
            return false;
        }
    }
    true
}
