// What a client does, or the clock.
ghost use Rattle.std.specs.Prelude.{◌≡◌, IfOk};
ghost use Rattle.hc_memory.specs.Seen.{filled};
ghost use Rattle.hc_trace_text.specs.Seen.{bytes_of, item_seen, step_seen};
ghost use Rattle.hc_trace_text.specs.Steps.{Set, Add, Get, Del, Now};
ghost use Rattle.hc_trace_meaning.specs.Actions.{Do};
ghost use Rattle.hc_player.specs.Seen.{answer_seen};
ghost use Rattle.hc_player.specs.Playing.{Acts};

use crate::answers::Answer;
use crate::outcomes::{found, inserted, refused, removed};
use crate::player::Player;
use hc_history::{Note, Notes};
use hc_memory::Fill;
use hc_trace_text::{NewItem, Step, Value};
use std::alloc::AllocError;

/// As what an item of this value begins.
fn fill_with(value: Value<'_>) -> Fill<'_>
    ensures { filled result ≡ bytes_of value.entry }
{
    match value {
        Value::Plain(bytes) => Fill::Copied(bytes),
        Value::Repeated(count, c) => Fill::Repeated(count, c),
    }
}

impl<N: Notes<Note>> Player<N> {
    /// Stores an item, in place of what the key has.
    fn set(&mut self, item: NewItem<'_>) -> Result<Answer, AllocError>
        ensures { IfOk result (λ answer. Acts (Do (Set (item_seen item.entry))) (answer_seen answer) self.old self.new) }
    {
        let fill = fill_with(item.value);
        match self.core.set_with(item.pool, item.key, fill, item.ttl) {
            Ok(()) => Ok(Answer::Stored),
            Err(refusal) => refused(refusal),
        }
    }

    /// The same where the key has no unexpired value.
    fn add(&mut self, item: NewItem<'_>) -> Result<Answer, AllocError>
        ensures { IfOk result (λ answer. Acts (Do (Add (item_seen item.entry))) (answer_seen answer) self.old self.new) }
    {
        let fill = fill_with(item.value);
        match self.core.add_with(item.pool, item.key, fill, item.ttl) {
            Ok(came) => Ok(inserted(came)),
            Err(refusal) => refused(refusal),
        }
    }

    fn get(&mut self, key: &[u8]) -> Result<Answer, AllocError>
        ensures { IfOk result (λ answer. Acts (Do (Get key.now)) (answer_seen answer) self.old self.new) }
    {
        match self.core.get(key) {
            Ok(came) => Ok(found(came)),
            Err(refusal) => refused(refusal),
        }
    }

    fn delete(&mut self, key: &[u8]) -> Result<Answer, AllocError>
        ensures { IfOk result (λ answer. Acts (Do (Del key.now)) (answer_seen answer) self.old self.new) }
    {
        match self.core.delete(key) {
            Ok(came) => Ok(removed(came)),
            Err(refusal) => refused(refusal),
        }
    }

    fn tick(&mut self, moment: u64) -> Result<Answer, AllocError>
        ensures { IfOk result (λ answer. Acts (Do (Now moment)) (answer_seen answer) self.old self.new) }
    {
        match self.core.tick(moment) {
            Ok(now) => Ok(Answer::Moment(now)),
            Err(_no_memory) => Err(AllocError),
        }
    }

    /// What a client does, or the clock. An error is out of memory.
    #[inline(always)] // so that a line's step has its answer where the line is told
    pub fn take_step(&mut self, step: &Step<'_>) -> Result<Answer, AllocError>
        ensures { IfOk result (λ answer. Acts (Do (step_seen step.now)) (answer_seen answer) self.old self.new) }
    {
        match step {
            Step::Set(item) => self.set(*item),
            Step::Add(item) => self.add(*item),
            Step::Get(key) => self.get(key),
            Step::Del(key) => self.delete(key),
            Step::Now(moment) => self.tick(*moment),
        }
    }
}
