// Slots, in which write handles wait.
ghost use Rattle.std.specs.Prelude.{◌≡◌, ◌≤◌, [], None, length, replicate, slice_set, is_some, vec_len, vec_capacity, IfOk, OnOk, OnErr};
ghost use Rattle.hc_run.specs.Asked.{handle_of};
ghost use Rattle.hc_run.specs.Slots.{handle_in};

use hc_memory::{Blank, Sealed};
use std::alloc::{AllocError, Allocator, Global};
use std::marker::Model;

/// What is in a slot.
pub enum Content<A: Allocator = Global> {
    Empty,
    /// The handle of an item that was written.
    Written(Blank<A>),
    /// The same, sealed: an insert wanted it, and was refused.
    Ready(Sealed<A>),
}

/// A slot for a write handle. Contracts see the handle, if there is one.
///
/// It isn't `Drop`, as no write handle is.
pub struct Slot<A: Allocator = Global> {
    content: Content<A>,
}

impl<A: Allocator> Model for Slot<A> {
    ghost use Rattle.std.specs.Prelude.{Option};
    ghost use Rattle.hc_memory.specs.Item.{Handle};

    ghost Value = { Option Handle };

    ghost use Rattle.hc_run.specs.Asked.{handle_of};

    ghost view = { λ s. handle_of s.content };
}

impl<A: Allocator> Slot<A> {
    /// A slot with this in it.
    pub fn new(content: Content<A>) -> Slot<A>
        ensures { result ≡ handle_of content }
    {
        Slot { content }
    }

    /// Whether a handle is in it.
    pub fn is_filled(&self) -> bool
        ensures { result ≡ is_some self.now }
    {
        match &self.content {
            Content::Empty => false,
            Content::Written(_) | Content::Ready(_) => true,
        }
    }

    /// What is in it.
    pub fn into_content(self) -> Content<A>
        ensures { handle_of result ≡ self }
    {
        let Slot { content } = self;
        content
    }
}

/// So many slots, which are empty. There is room for them.
pub fn empty_slots<A: Allocator>(slots: &mut Vec<Slot<A>, A>, count: usize)
    requires none { (slots.old.items ≡ []) × (vec_len slots.old ≡ 0) }
    requires room { count ≤ vec_capacity slots.old }
    ensures { slots.new.items ≡ replicate count None }
{
    for _ in 0..count {
        slots.push_reserved(Slot::new(Content::Empty));
    }
}

/// Fills an empty slot.
pub fn fill<A: Allocator>(slots: &mut Vec<Slot<A>, A>, slot: u8, content: Content<A>)
    requires all { length slots.old.items ≡ 256 }
    requires empty { handle_in slot slots.old.items ≡ None }
    ensures { slots.new.items ≡ slice_set slots.old.items slot (handle_of content) }
{
    let old = std::mem::replace(&mut slots[usize::from(slot)], Slot::new(content));
    let before = old.into_content();
    let Content::Empty = before else {
        unreachable!()
    };
}

/// Takes what is in the slot out of it.
pub fn take<A: Allocator>(slots: &mut Vec<Slot<A>, A>, slot: u8) -> Content<A>
    requires { length slots.old.items ≡ 256 }
    ensures content { handle_of result ≡ handle_in slot slots.old.items }
    ensures slots { slots.new.items ≡ slice_set slots.old.items slot None }
{
    let empty = Slot::new(Content::Empty);
    let old = std::mem::replace(&mut slots[usize::from(slot)], empty);
    old.into_content()
}

/// Takes the handle out of the slot, if there is one, and seals it. When out of memory, it stays there.
pub fn take_sealed<A: Allocator + Clone>(
    slots: &mut Vec<Slot<A>, A>,
    slot: u8,
) -> Result<Option<Sealed<A>>, AllocError>
    requires { length slots.old.items ≡ 256 }
    ensures ok { IfOk result (λ sealed. sealed ≡ handle_in slot slots.old.items) }
    ensures slots { OnOk result (slots.new.items ≡ slice_set slots.old.items slot None) }
    ensures err { OnErr result (slots.new.items ≡ slots.old.items) }
{
    match take(slots, slot) {
        Content::Empty => Ok(None),
        Content::Ready(sealed) => Ok(Some(sealed)),
        Content::Written(blank) => match blank.seal() {
            Ok(sealed) => Ok(Some(sealed)),
            Err(blank) => {
                fill(slots, slot, Content::Written(blank));
                Err(AllocError)
            }
        },
    }
}
