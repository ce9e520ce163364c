// Where the hashes of an index lead, handed out one after another.
ghost use Rattle.std.specs.Prelude.{◌≡◌, ◌==◌, ◌<◌, false, [], ◌∷◌, length, get_or, drop, MatchOption};
ghost use Rattle.hc_block.specs.Indexes.{joined};

use crate::segment::Segment;
use hc_region::Place;
use std::alloc::{Allocator, Global};
use std::marker::Model;

/// A kept hash, and where it leads.
#[derive(Clone, Copy, Debug)]
pub struct Lead {
    hash: u64,
    place: Place,
}

impl Model for Lead {
    ghost use Rattle.hc_engines.specs.large.Index.{Indexed};

    ghost Value = { Indexed };

    ghost view = { λ l. record { hash = l.hash; place = l.place } };

    ghost inverse = { λ l. record { hash = l.hash; place = l.place } };
}

impl Lead {
    /// The hash leads to this place.
    #[must_use]
    pub fn new(hash: u64, place: Place) -> Lead
        ensures { result ≡ record { hash = hash; place = place } }
    {
        Lead { hash, place }
    }

    /// The kept hash.
    #[must_use]
    pub fn hash(&self) -> u64
        ensures { result ≡ self.now.hash }
    {
        self.hash
    }

    /// Where it leads.
    #[must_use]
    pub fn place(&self) -> Place
        ensures { result ≡ self.now.place }
    {
        self.place
    }
}

/// What an index leads to and wasn't handed out yet. A lead that is handed out takes no memory here any more, so that an
/// index can be written somewhere, one lead after another, and never stands in memory twice. Contracts see the list of what
/// is left, in order of the hash.
#[derive(Drop)]
pub struct Leads<A: Allocator = Global> {
    /// The number of the first segment from which not all was handed out.
    at: usize,
    segments: Vec<Segment<A>, A>,
}

impl<A: Allocator> Model for Leads<A> {
    ghost use Rattle.std.specs.Prelude.{List, drop};
    ghost use Rattle.hc_engines.specs.large.Index.{Indexed};
    ghost use Rattle.hc_block.specs.Indexes.{joined};

    ghost Value = { List Indexed };

    ghost view = { λ leads. joined (drop leads.at leads.segments.items) };
}

fn is_empty_at<A: Allocator>(segments: &[Segment<A>], at: usize) -> bool
    requires { at < length segments.now }
    ensures { result ≡ (length (get_or segments.now at []) == 0) }
{
    segments[at].is_empty()
}

/// The number of the first of these segments, from this one on, that leads somewhere.
fn first_full<A: Allocator>(segments: &[Segment<A>], from: usize) -> usize
    ensures same { joined (drop result segments.now) ≡ joined (drop from segments.now) }
    ensures full { result < length segments.now → (length (get_or segments.now result []) == 0) ≡ false }
{
    let mut at = from;
    while at < segments.len() {
        if !is_empty_at(segments, at) {
            return at;
        }
        at += 1;
    }
    at
}

/// The first lead of the segment with this number leaves it.
fn take_at<A: Allocator>(segments: &mut Vec<Segment<A>, A>, at: usize) -> Lead
    requires there { at < length segments.old.items }
    requires full { (length (get_or segments.old.items at []) == 0) ≡ false }
    ensures { joined (drop at segments.old.items) ≡ result ∷ joined (drop at segments.new.items) }
{
    let segment = &mut segments[at];
    match segment.take_first() {
        Some(lead) => lead,
        None => unreachable!(),
    }
}

impl<A: Allocator> Leads<A> {
    /// All that these segments lead to.
    pub(crate) fn of(segments: Vec<Segment<A>, A>) -> Leads<A>
        ensures { result ≡ joined segments.items }
    {
        Leads { at: 0, segments }
    }

    /// The next lead, in order of the hash. None where all were handed out.
    pub fn next(&mut self) -> Option<Lead>
        ensures { MatchOption result ((self.old ≡ []) × (self.new ≡ [])) (λ lead. self.old ≡ lead ∷ self.new) }
    {
        let at = first_full(&self.segments, self.at);
        self.at = at;
        if at >= self.segments.len() {
            return None;
        }
        Some(take_at(&mut self.segments, at))
    }
}
