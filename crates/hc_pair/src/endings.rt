// The end of a get in two: a question that takes all memory and changes nothing, and a step that can't be refused.
ghost use Rattle.std.specs.Prelude.{◌≡◌, ℕ, false, Some, None, option_map, IfOk};
ghost use Rattle.hc_types.specs.FlashEntry.{entry_of};
ghost use Rattle.hc_engines.specs.Engine.{Get, Found, Done, IoResult as Came};
ghost use Rattle.hc_engines.specs.small.BigHash.{ToEnd, carried, resume as resume_in_small};
ghost use Rattle.hc_engines.specs.pair.Pair.{start as start_step, resume as resume_step};
ghost use Rattle.hc_engines.specs.pair.Held.{under_way};
ghost use Rattle.hc_bighash.specs.Handed.{IsGet, absent_plan, lost_with, op_in};
ghost use Rattle.hc_engines.specs.Seen.{op_of};
ghost use Rattle.hc_flash.specs.Seen.{result_of};
ghost use Rattle.hc_block.specs.Endings.{CanEndRead, without_lost};
ghost use Rattle.hc_pair.specs.Endings.{CanLeave, Ends, EndsAtOnce, IsEnding, IsEndingAtOnce, IsStep, behind_losses, of_large, small_end, large_end, left_by, op_under, ends};

use crate::joining::in_front;
use crate::losing::is_get;
use crate::pair::Pair;
use hc_bighash::Ending as SmallEnding;
use hc_block::{Ending as LargeEnding, Rest};
use hc_engines::{Answer, Op, Outcome};
use hc_flash::IoResult;
use hc_types::{Entry, Key};
use std::alloc::{AllocError, Allocator, Global};
use std::marker::Model;

/// What a get comes to that is over, with all the memory that its end takes.
#[derive(Drop)]
#[must_use]
pub struct Ending<A: Allocator = Global> {
    outcome: Outcome<A>,
    /// Whether the key's bucket is given up.
    gives_up: bool,
    /// What is left to do in the large engine.
    rest: Rest<A>,
}

impl<A: Allocator> Model for Ending<A> {
    ghost use Rattle.hc_pair.specs.Endings.{Ending as Over};

    ghost Value = { Over };

    ghost view = { λ ending. record { outcome = ending.outcome; gives_up = ending.gives_up; rest = ending.rest } };
}

impl<A: Allocator> Ending<A> {
    /// What holds once the get is over: what it found, and what is lost with it.
    #[must_use]
    pub fn outcome(&self) -> &Outcome<A>
        ensures { result.now ≡ self.now.outcome }
    {
        &self.outcome
    }
}

/// The same of a get that the large engine ends.
fn of_large<A: Allocator>(ending: Option<LargeEnding<A>>) -> Option<Ending<A>>
    ensures { result ≡ option_map of_large ending }
{
    match ending {
        Some(LargeEnding { outcome, rest }) => Some(Ending {
            outcome,
            gives_up: false,
            rest,
        }),
        None => None,
    }
}

impl<A: Allocator + Clone + Copy> Pair<A> {
    /// Whether a result may end a get of this number: it doesn't where a put or a delete is under way in the small engine, so
    /// that `ending` need not be asked.
    #[must_use]
    pub fn may_end(&self, number: u64) -> bool
        ensures { result ≡ false → (came : Came) → ends (op_under number self.now) (resume_step number came self.now) ≡ false }
    {
        match self.small.op(number) {
            Some(op) => is_get(op),
            None => true,
        }
    }

    /// How the get with this number is over if this result is handed in. Nothing for what isn't a get, for a number that
    /// nothing under way has, for a result that isn't waited for, and for a get that goes on with a page: those are handed in
    /// with `hand_in`. Nothing changes: `end` ends the get. Refused only when out of memory.
    pub fn ending(&self, number: u64, came: &IoResult<A>) -> Result<Option<Ending<A>>, AllocError>
        ensures { IfOk result (λ ending. IsEnding number (result_of came.now) self.now ending) }
    {
        match self.small.op(number) {
            None => self.large_ending(number, came),
            Some(op) => self.small_ending(number, op, came),
        }
    }

    /// The same of an operation that isn't the small engine's.
    fn large_ending(&self, number: u64, came: &IoResult<A>) -> Result<Option<Ending<A>>, AllocError>
        requires { op_in number self.now.small.jobs ≡ None }
        ensures { IfOk result (λ ending. IsEnding number (result_of came.now) self.now ending) }
    {
        let ending = self.large.ending(number, came)?;
        Ok(of_large(ending))
    }

    /// The same of this operation of the small engine.
    fn small_ending(
        &self,
        number: u64,
        op: &Op<A>,
        came: &IoResult<A>,
    ) -> Result<Option<Ending<A>>, AllocError>
        requires { op_in number self.now.small.jobs ≡ Some (op_of op.now) }
        ensures { IfOk result (λ ending. IsEnding number (result_of came.now) self.now ending) }
    {
        match self.small.ending(number, came) {
            Ok(None) => Ok(None),
            Ok(Some(SmallEnding::Found(entry))) => self.found(number, entry, came),
            Ok(Some(SmallEnding::Absent { gives_up })) => self.behind(number, op, gives_up, came),
            Err(error) => Err(error),
        }
    }

    /// The same of a get that found this in the small engine.
    fn found(
        &self,
        number: u64,
        entry: Box<Entry<A>, A>,
        came: &IoResult<A>,
    ) -> Result<Option<Ending<A>>, AllocError>
        requires gets { IsGet self.now.small number }
        requires came { resume_in_small self.now.small number (result_of came.now) ≡ carried self.now.small number (ToEnd (Found (entry_of entry.value))) }
        ensures { IfOk result (λ ending. IsEnding number (result_of came.now) self.now ending) }
    {
        let _came = came;
        let losses = self.small.lost_with(number, false)?;
        Ok(Some(Ending {
            outcome: Outcome::new(Answer::Found(entry), losses),
            gives_up: false,
            rest: Rest::nothing(),
        }))
    }

    /// The same of a get that found nothing in the small engine, and asks the large one.
    fn behind(
        &self,
        number: u64,
        op: &Op<A>,
        gives_up: bool,
        came: &IoResult<A>,
    ) -> Result<Option<Ending<A>>, AllocError>
        requires op { op_in number self.now.small.jobs ≡ Some (op_of op.now) }
        requires gets { IsGet self.now.small number }
        requires came { resume_in_small self.now.small number (result_of came.now) ≡ carried self.now.small number (absent_plan gives_up) }
        ensures { IfOk result (λ ending. IsEnding number (result_of came.now) self.now ending) }
    {
        let _came = came;
        let Op::Get(key) = op else { unreachable!() };
        match self.large.ending_at_once(key) {
            Ok(Some(ending)) => {
                let ending = self.after_small(number, gives_up, ending)?;
                Ok(Some(ending))
            }
            Ok(None) => Ok(None),
            Err(error) => Err(error),
        }
    }

    /// How a get is over that the large engine ends: what the small one lost with it stands in front.
    fn after_small(
        &self,
        number: u64,
        gives_up: bool,
        ending: LargeEnding<A>,
    ) -> Result<Ending<A>, AllocError>
        ensures { IfOk result (λ whole. whole ≡ behind_losses (lost_with self.now.small number gives_up) gives_up ending) }
    {
        let LargeEnding { outcome, rest } = ending;
        let mut losses = self.small.lost_with(number, gives_up)?;
        losses.reserve(outcome.losses.len())?;
        Ok(Ending {
            outcome: in_front(losses, outcome),
            gives_up,
            rest,
        })
    }

    /// The get with this number is over, as `ending` told for the state that the pair is in. Nothing is refused.
    pub fn end(&mut self, number: u64, ending: Ending<A>) -> Outcome<A>
        requires { (came : Came) × Ends number came self.old ending }
        ensures value { result ≡ ending.outcome }
        ensures state { self.new ≡ left_by number ending.gives_up ending.rest self.old }
        ensures step { (came : Came) → Ends number came self.old ending → resume_step number came self.old ≡ Some (record { pair = self.new; next = Done result }) }
    {
        let Ending {
            outcome,
            gives_up,
            rest,
        } = ending;
        self.leave(number, gives_up, rest);
        outcome
    }

    /// The get with this number leaves the engine that it is under way in.
    fn leave(&mut self, number: u64, gives_up: bool, rest: Rest<A>)
        requires { CanLeave number gives_up rest self.old }
        ensures { self.new ≡ left_by number gives_up rest self.old }
    {
        match self.small.op(number) {
            Some(_) => self.leave_small(number, gives_up, rest),
            None => self.leave_large(number, rest),
        }
    }

    /// A get of the small engine leaves it.
    fn leave_small(&mut self, number: u64, gives_up: bool, rest: Rest<A>)
        requires gets { IsGet self.old.small number }
        requires step { IsStep number self.old (small_end number gives_up rest self.old) }
        ensures { self.new ≡ small_end number gives_up rest self.old }
    {
        self.large.is_sound();
        self.small.leave(number, gives_up);
        self.large.end_at_once(rest);
    }

    /// A read of the large engine leaves it.
    fn leave_large(&mut self, number: u64, rest: Rest<A>)
        requires none { op_in number self.old.small.jobs ≡ None }
        requires can { CanEndRead number rest self.old.large }
        requires step { IsStep number self.old (large_end number rest self.old) }
        ensures { self.new ≡ large_end number rest self.old }
    {
        self.large.is_sound();
        self.large.end(number, rest);
    }

    /// How a get of this key is over that is started now: where its entry lies in a region's buffer, or can't be read from
    /// there, and where no engine has one. Nothing where a page is to be read, or the key's bucket is busy: such a get is
    /// started with `start`. Nothing changes: `end_at_once` ends the get. Refused only when out of memory.
    pub fn ending_at_once(&self, key: &Key<A>) -> Result<Option<Ending<A>>, AllocError>
        ensures { IfOk result (λ ending. IsEndingAtOnce key.now self.now ending) }
    {
        if self.small.is_busy(self.small.bucket_of(key)) || self.small.could_have(key) {
            return Ok(None);
        }
        let ending = self.large.ending_at_once(key)?;
        Ok(of_large(ending))
    }

    /// A get of this key is over as it starts, as `ending_at_once` told for the state that the pair is in. Nothing is
    /// refused.
    pub fn end_at_once(&mut self, key: &Key<A>, ending: Ending<A>) -> Outcome<A>
        requires { EndsAtOnce key.now self.old ending }
        ensures value { result ≡ ending.outcome }
        ensures state { self.new ≡ record self.old { large = without_lost ending.rest.lost self.old.large } }
        ensures step { (number : ℕ) → under_way self.old number ≡ None → start_step number (Get key.now) self.old ≡ record { pair = self.new; next = Done result } }
    {
        let _key = key;
        let Ending { outcome, rest, .. } = ending;
        self.large.end_at_once(rest);
        outcome
    }
}
