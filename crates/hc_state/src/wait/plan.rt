// What calls that wait for a key need, before anything changes.
ghost use Rattle.std.specs.Prelude.{◌≡◌, Bool, List, ℕ, Option, Some, IfOk, OnErr, IsSome};
ghost use Rattle.hc_types.specs.FlashEntry.{FlashEntry, entry_of};
ghost use Rattle.hc_memory.specs.Item.{Handle};
ghost use Rattle.hc_history.specs.Seen.{reply_of};
ghost use Rattle.hc_history.specs.Told.{is_log};
ghost use Rattle.hc_machine.specs.Nvm.{ToFind, ToAdd};
ghost use Rattle.hc_machine.specs.Waiting.{find_reply, live as live_seen, entry_of_handle, there_after};
ghost use Rattle.hc_waiting.specs.Seen.{wish_of};
ghost use Rattle.hc_state.specs.wait.Commit.{waiters_at};
ghost use Rattle.hc_state.specs.wait.Courses.{IsCourse, AreCourses};
ghost use Rattle.hc_state.specs.wait.Plan.{IsThere, IsNext};

use crate::state::{State, alloc_of};
use crate::wait::commit::Course;
use bytes::Bytes;
use hc_history::{Note, Notes, Reply};
use hc_memory::{Parked, Sealed, is_expired};
use hc_nvm::Outdating;
use hc_types::{Entry, Key};
use hc_waiting::{Waiter, Wish};
use std::alloc::{AllocError, Allocator, Global};

/// What a key has: its value, and the second at which it expires (0: never).
#[derive(Drop)]
pub struct There<A: Allocator = Global> {
    pub value: Bytes<A>,
    pub expiry: u64,
}

impl<A: Allocator + Clone> There<A> {
    /// What a key has whose item is the handle's: the value is shared. Refused only when out of memory.
    pub fn of_handle(sealed: &Sealed<A>) -> Result<There<A>, AllocError>
        ensures { IfOk result (λ there. IsThere (Some (entry_of_handle sealed.now)) (Some there)) }
    {
        let value = sealed.to_bytes()?;
        let expiry = sealed.expiry();
        Ok(There { value, expiry })
    }

    /// What a key has of which flash brought this: the value is shared. Refused only when out of memory.
    pub fn of_entry(entry: &Entry<A>) -> Result<There<A>, AllocError>
        ensures { IfOk result (λ there. IsThere (Some (entry_of entry.now)) (Some there)) }
    {
        let value = entry.value.clone()?;
        let expiry = entry.expiry;
        Ok(There { value, expiry })
    }
}

/// What the key has, if it isn't expired at `now` (seconds).
fn live<A: Allocator>(there: Option<There<A>>, now: u64) -> Option<There<A>>
    ensures { (entry : Option FlashEntry) → IsThere entry there → IsThere (live_seen now entry) result }
{
    match there {
        Some(there) => {
            if is_expired(now, there.expiry) {
                drop(there);
                None
            } else {
                Some(there)
            }
        }
        None => None,
    }
}

/// What a find is answered, where this is what the key has: the value is shared. Refused only when out of memory.
fn reply_by<A: Allocator>(given: &Option<There<A>>) -> Result<Reply<A>, AllocError>
    ensures { IfOk result (λ reply. (entry : Option FlashEntry) → IsThere entry given.now → reply_of reply ≡ find_reply entry) }
{
    match given {
        Some(there) => {
            let value = there.value.clone()?;
            Ok(Reply::Hit(value))
        }
        None => Ok(Reply::Miss),
    }
}

/// How a find is served, where this is what the key has. Refused only when out of memory.
fn find_course<A: Allocator>(given: &Option<There<A>>) -> Result<Course<A>, AllocError>
    ensures { IfOk result (λ course. (keeps : Bool) (key : List ℕ) (entry : Option FlashEntry) → IsThere entry given.now → IsCourse keeps key ToFind entry course) }
{
    let told = reply_by(given)?;
    match reply_by(given) {
        Ok(reply) => Ok(Course::Find(told, reply)),
        Err(no_memory) => {
            drop(told);
            Err(no_memory)
        }
    }
}

/// How an add is served, where this is what the key has. Refused only when out of memory.
fn add_course<A: Allocator + Copy>(
    alloc: A,
    given: &Option<There<A>>,
    key: &Key<A>,
    keeps: bool,
) -> Result<Course<A>, AllocError>
    ensures { IfOk result (λ course. (handle : Handle) (entry : Option FlashEntry) → IsThere entry given.now → IsCourse keeps key.now (ToAdd handle) entry course) }
{
    match given {
        Some(_) => Ok(Course::Exists),
        None => {
            let plan = Outdating::whole(alloc, key, keeps)?;
            Ok(Course::Store(plan))
        }
    }
}

/// How a call is served that asks for this, where this is what the key has. Refused only when out of memory.
fn course_for<A: Allocator + Copy>(
    alloc: A,
    wish: &Wish<A>,
    given: &Option<There<A>>,
    key: &Key<A>,
    keeps: bool,
) -> Result<Course<A>, AllocError>
    ensures { IfOk result (λ course. (entry : Option FlashEntry) → IsThere entry given.now → IsCourse keeps key.now (wish_of wish.now) entry course) }
{
    match wish {
        Wish::Find => find_course(given),
        Wish::Add(_) => add_course(alloc, given, key, keeps),
    }
}

/// What a key has once the item of an add is stored: the value is shared. Refused only when out of memory.
fn there_by<A: Allocator + Clone>(parked: &Parked<A>) -> Result<There<A>, AllocError>
    ensures { IfOk result (λ there. IsThere (Some (entry_of_handle parked.now)) (Some there)) }
{
    let twin = parked.twin()?;
    let there = There::of_handle(&twin);
    twin.abandon();
    there
}

/// What the key has once a call is served that asks for this, where this is what it had. Refused only when out of memory.
fn there_next<A: Allocator + Clone>(
    wish: &Wish<A>,
    given: Option<There<A>>,
) -> Result<Option<There<A>>, AllocError>
    ensures { IfOk result (λ next. (entry : Option FlashEntry) → IsThere entry given → IsThere (there_after (wish_of wish.now) entry) next) }
{
    match wish {
        Wish::Find => Ok(given),
        Wish::Add(parked) => match given {
            Some(there) => Ok(Some(there)),
            None => match there_by(parked) {
                Ok(there) => Ok(Some(there)),
                Err(no_memory) => Err(no_memory),
            },
        },
    }
}

/// How a call is served that asks for this, where this is what the key has, and what the key has then. Refused only when
/// out of memory.
fn plan_wish<A: Allocator + Clone + Copy>(
    alloc: A,
    wish: &Wish<A>,
    given: Option<There<A>>,
    key: &Key<A>,
    keeps: bool,
) -> Result<(Course<A>, Option<There<A>>), AllocError>
    ensures { IfOk result (λ planned. (entry : Option FlashEntry) → IsThere entry given → IsNext keeps key.now (wish_of wish.now) entry planned.0 planned.1) }
{
    match course_for(alloc, wish, &given, key, keeps) {
        Ok(course) => match there_next(wish, given) {
            Ok(next) => Ok((course, next)),
            Err(no_memory) => {
                drop(course);
                Err(no_memory)
            }
        },
        Err(no_memory) => {
            drop(given);
            Err(no_memory)
        }
    }
}

/// The same of a call that waits, at `now` (seconds).
fn plan_one<A: Allocator + Clone + Copy>(
    alloc: A,
    waiter: &Waiter<A>,
    there: Option<There<A>>,
    now: u64,
    key: &Key<A>,
    keeps: bool,
) -> Result<(Course<A>, Option<There<A>>), AllocError>
    ensures { IfOk result (λ planned. (entry : Option FlashEntry) → IsThere entry there → IsNext keeps key.now waiter.now.wish (live_seen now entry) planned.0 planned.1) }
{
    plan_wish(alloc, &waiter.wish, live(there, now), key, keeps)
}

/// How each of these calls is served at `now` (seconds), in order, where this is what the key has. Refused only where memory
/// lacks.
fn plan_courses<A: Allocator + Clone + Copy>(
    alloc: A,
    waiters: &[Waiter<A>],
    there: Option<There<A>>,
    now: u64,
    key: &Key<A>,
    keeps: bool,
) -> Result<Vec<Course<A>, A>, AllocError>
    ensures { IfOk result (λ courses. (entry : Option FlashEntry) → IsThere entry there → AreCourses keeps key.now now waiters.now entry courses.items) }
{
    let mut courses = Vec::with_capacity(alloc, waiters.len())?;
    let mut there = there;
    for waiter in waiters {
        match plan_one(alloc, waiter, there, now, key, keeps) {
            Ok((course, next)) => {
                courses.push_reserved(course);
                there = next;
            }
            Err(no_memory) => {
                drop(courses);
                return Err(no_memory);
            }
        }
    }
    drop(there);
    Ok(courses)
}

impl<N: Notes<Note<A>>, A: Allocator + Clone + Copy> State<N, A> {
    /// How the calls that wait for the key are served, one after the other, where this is what the key has: what that needs
    /// is made. Refused only when out of memory.
    pub fn plan_to_serve(
        &self,
        key: &Key<A>,
        there: Option<There<A>>,
    ) -> Result<Vec<Course<A>, A>, AllocError>
        ensures serves { IfOk result (λ courses. (entry : Option FlashEntry) → IsThere entry there → AreCourses (is_log self.now.log) key.now self.now.cache.now (waiters_at self.now.cache.nvm key.now) entry courses.items) }
        ensures silent { OnErr result (IsSome self.now.cache.nvm) }
    {
        let alloc = alloc_of(&self.config);
        match &self.nvm {
            Some(nvm) => plan_courses(
                alloc,
                nvm.waiters(key),
                there,
                self.clock,
                key,
                self.notes.keeps(),
            ),
            None => {
                drop(there);
                Ok(Vec::new(alloc))
            }
        }
    }
}
