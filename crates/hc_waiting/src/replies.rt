// The replies that are owed to calls that wait.
ghost use Rattle.std.specs.Prelude.{◌≡◌, ◌==◌, ◌<◌, ◌≤◌, ◌+◌, ℕ, [], length, None, Some, true, false, nat_eq, if◌then◌else◌, option_map, is_some, IfOk, OnOk, IfErr, OnErr};
ghost use Rattle.indexmap.specs.IndexSet.{contains, spare};
ghost use Rattle.hc_history.specs.Seen.{reply_of};
ghost use Rattle.hc_machine.specs.Cache.{owed_at, owed_anew, owed_with, owed_less};
ghost use Rattle.hc_waiting.specs.Replies.{AreBefore, IsNextReply, is_answered};
ghost use Rattle.hc_waiting.specs.declared.replies.Untaken.TheVariants.{Unknown, NotReady};

use hc_history::Reply;
use hc_types::Refusal;
use indexmap::IndexSet;
use std::alloc::{AllocError, Allocator, Global};
use std::collections::BTreeMap;
use std::hash::{BuildHasherDefault, FoldHasher};
use std::marker::Model;

/// Why a reply can't be taken.
#[derive(Clone, Copy, Debug, PartialEq, Eq)]
pub enum Untaken {
    /// The call doesn't wait: there is none, it was answered at once, or its reply was taken.
    Unknown,
    /// The call still waits.
    NotReady,
}

impl From<Untaken> for Refusal {
    ghost use Rattle.hc_waiting.specs.Replies.{refusal_of};

    ghost from_gives = { λ untaken refusal. refusal ≡ refusal_of untaken };

    fn from(untaken: Untaken) -> Refusal {
        match untaken {
            Untaken::Unknown => Refusal::UnknownCall,
            Untaken::NotReady => Refusal::NotReady,
        }
    }
}

/// The calls that wait or waited, in the order of their numbers, and the reply of each, once there is one, until it is
/// taken. A call costs the logarithm of how many are owed.
#[derive(Drop)]
pub struct Replies<A: Allocator = Global> {
    owed: BTreeMap<u64, Option<Reply<A>>, A>,
    /// The calls that have their reply. There is room for each that waits.
    ready: Ready<A>,
}

type Ready<A> = IndexSet<u64, BuildHasherDefault<FoldHasher>, A>;

impl<A: Allocator> Model for Replies<A> {
    ghost use Rattle.std.specs.Prelude.{List};
    ghost use Rattle.hc_machine.specs.Cache.{Owed};
    ghost use Rattle.hc_waiting.specs.Replies.{owed_of, AreReady};

    ghost Value = { List Owed };

    ghost view = { λ r. owed_of r.owed.entries };

    ghost invariant = { λ r. AreReady (owed_of r.owed.entries) r.ready };
}

/// The call, which waited, has its reply from here on.
fn enter<A: Allocator>(ready: &mut Ready<A>, call: u64)
    requires { 0 < spare ready.old }
    ensures calls { (n : ℕ) → contains nat_eq ready.new n ≡ (if call == n then true else contains nat_eq ready.old n) }
    ensures room { spare ready.old ≤ spare ready.new + 1 }
{
    let _ = ready.insert(call);
}

/// No reply is ready for the call from here on.
fn leave<A: Allocator>(ready: &mut Ready<A>, call: u64)
    ensures calls { (n : ℕ) → contains nat_eq ready.new n ≡ (if call == n then false else contains nat_eq ready.old n) }
    ensures room { spare ready.old ≤ spare ready.new }
{
    ready.swap_remove(&call);
}

impl<A: Allocator + Copy> Replies<A> {
    /// No reply is owed.
    #[must_use]
    pub fn new(alloc: A) -> Replies<A>
        ensures { result ≡ [] }
    {
        Replies {
            owed: BTreeMap::new(alloc),
            ready: IndexSet::new(alloc),
        }
    }
}

impl<A: Allocator> Replies<A> {
    /// How many are owed.
    #[must_use]
    pub fn len(&self) -> usize
        ensures { result ≡ length self.now }
    {
        self.owed.len()
    }

    /// Whether none is owed.
    #[must_use]
    pub fn is_empty(&self) -> bool
        ensures { result ≡ (length self.now == 0) }
    {
        self.owed.len() == 0
    }

    /// Whether the call has its reply; none where none is owed to it.
    #[must_use]
    pub fn is_ready(&self, call: u64) -> Option<bool>
        ensures { result ≡ option_map is_answered (owed_at call self.now) }
    {
        match self.owed.get(&call) {
            Some(reply) => Some(reply.is_some()),
            None => None,
        }
    }

    /// A call that has its reply, whichever of them it is, found without a scan. None, where no call has one.
    #[must_use]
    pub fn next(&self) -> Option<u64>
        ensures { IsNextReply self.now result }
    {
        self.ready.first().copied()
    }

    /// The call that waits is answered.
    pub fn answer(&mut self, call: u64, reply: Reply<A>)
        ensures { self.new ≡ owed_with call (reply_of reply) self.old }
    {
        let Some(place) = self.owed.get_mut(&call) else {
            return;
        };
        let waits = place.is_none();
        *place = Some(reply);
        if waits {
            enter(&mut self.ready, call);
        }
    }

    /// No reply is owed to the call any longer, whether it had one or not.
    pub fn forget(&mut self, call: u64)
        ensures { self.new ≡ owed_less call self.old }
    {
        let _len = self.owed.len();
        let _ = self.owed.remove(&call);
        leave(&mut self.ready, call);
    }

    /// Takes the reply of the call that waited. Where there is none, nothing changes.
    pub fn take(&mut self, call: u64) -> Result<Reply<A>, Untaken>
        ensures ok { IfOk result (λ reply. owed_at call self.old ≡ Some (record { call = call; reply = Some (reply_of reply) })) }
        ensures left { OnOk result (self.new ≡ owed_less call self.old) }
        ensures unknown { IfErr result (λ untaken. untaken ≡ Unknown → owed_at call self.old ≡ None) }
        ensures waits { IfErr result (λ untaken. untaken ≡ NotReady → owed_at call self.old ≡ Some (record { call = call; reply = None })) }
        ensures err { OnErr result (self.new ≡ self.old) }
    {
        let _len = self.owed.len();
        match self.is_ready(call) {
            None => Err(Untaken::Unknown),
            Some(false) => Err(Untaken::NotReady),
            Some(true) => match self.owed.remove(&call) {
                Some(Some(reply)) => {
                    leave(&mut self.ready, call);
                    Ok(reply)
                }
                Some(None) => unreachable!(),
                None => unreachable!(),
            },
        }
    }
}

impl<A: Allocator + Clone> Replies<A> {
    /// A reply is owed to a call that comes after all that one is owed to. Refused only when out of memory.
    pub fn expect(&mut self, call: u64) -> Result<(), AllocError>
        requires { AreBefore call self.old }
        ensures ok { OnOk result (self.new ≡ owed_anew call self.old) }
        ensures err { OnErr result (self.new ≡ self.old) }
    {
        let Some(places) = self.owed.len().checked_add(1) else {
            return Err(AllocError);
        };
        self.ready.reserve(places)?;
        match self.owed.insert(call, None) {
            Ok(_) => Ok(()),
            Err(_) => Err(AllocError),
        }
    }
}
