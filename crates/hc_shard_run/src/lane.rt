// One shard in the midst of a run.
ghost use Rattle.std.specs.Prelude.{◌≡◌, ◌⊎◌, ◌++◌, ◌∷◌, [], List, ℕ, None, Some, is_some, IfOk, IfErr, OnOk};
ghost use Rattle.hc_types.specs.Config.{Config as Settings};
ghost use Rattle.hc_types.specs.Limits.{first_wrong};
ghost use Rattle.hc_machine.specs.Schedule.{Step as Meaning};
ghost use Rattle.hc_run.specs.Devices.{Counts};
ghost use Rattle.hc_run.specs.Shows.{AreOwn, seen};
ghost use Rattle.hc_shards.specs.Parts.{Beside};
ghost use Rattle.hc_shard_run.specs.Lanes.{IsNew, IsLane, IsEnd};

use crate::runs::RanShard;
use hc_flash::Flash;
use hc_run::{Answer, Stage, Step, Window, go_on};
use hc_types::{Config, Refusal};
use std::alloc::Allocator;
use std::marker::Model;

/// One shard in the midst of a run: its cache, and what its steps so far were answered and where each ends in its log.
/// Where there was no memory for a step, the shard has stopped before it: `stopped` is how many it made.
///
/// It isn't `Drop`, as no stage is.
pub(crate) struct Lane<A: Allocator> {
    stage: Stage<A>,
    answers: Vec<Answer<A>, A>,
    ends: Vec<usize, A>,
    stopped: Option<usize>,
}

impl<A: Allocator> Model for Lane<A> {
    ghost use Rattle.hc_shard_run.specs.Lanes.{Lane as Meaning};

    ghost Value = { Meaning };

    ghost view = { λ l. record { stage = l.stage; answers = l.answers.items; ends = l.ends.items; stopped = l.stopped } };
}

impl<A: Allocator + Clone + Copy> Lane<A> {
    /// An empty cache that made no step yet, over these pages of the device. Refused as `Stage::new` is.
    pub(crate) fn new(alloc: A, config: &Config<A>, window: Window) -> Result<Lane<A>, Refusal>
        ensures lane { IfOk result (λ lane. IsNew config.now window lane) }
        ensures err { IfErr result (λ refusal. (first_wrong config.now ≡ Some refusal) ⊎ ((first_wrong config.now ≡ None) × (refusal ≡ Refusal.NoMemory))) }
    {
        let answers = Vec::new(alloc);
        let ends = Vec::new(alloc);
        let stage = Stage::new(alloc, config, window)?;
        Ok(Lane {
            stage,
            answers,
            ends,
            stopped: None,
        })
    }

    /// Whether one of its steps was out of memory.
    pub(crate) fn has_stopped(&self) -> bool
        ensures { result ≡ is_some self.now.stopped }
    {
        self.stopped.is_some()
    }

    /// The shard's next step, unless it has stopped. Where there is no memory for it, the shard stops. No page of the device
    /// is changed but the shard's own.
    pub(crate) fn turn<D: Flash<A>>(&mut self, device: &mut D, step: &Step<A>)
        requires own { AreOwn self.old.stage.slots self.old.stage.cache }
        ensures lane { (config : Settings) (steps : List Meaning) → first_wrong config ≡ None → IsLane (seen self.old.stage.window (D.held device.old)) config steps self.old → IsLane (seen self.old.stage.window (D.held device.new)) config (steps ++ step.now ∷ []) self.new }
        ensures window { self.new.stage.window ≡ self.old.stage.window }
        ensures beside { Beside self.old.stage.window.first self.old.stage.window.pages (D.held device.old) (D.held device.new) }
        ensures counted { Counts self.old.stage.window (D.failed device.old) (D.failed device.new) self.old.stage.failures self.new.stage.failures }
    {
        if self.has_stopped() {
            return;
        }
        let stage = &mut self.stage;
        match go_on(stage, device, &mut self.answers, &mut self.ends, step) {
            Ok(()) => {}
            Err(_) => self.stopped = Some(self.answers.len()),
        }
    }

    /// What the shard leaves, once what still fills a slot was given up.
    pub(crate) fn end(self) -> RanShard<A>
        requires own { AreOwn self.stage.slots self.stage.cache }
        ensures { IsEnd self result }
    {
        let Lane {
            stage,
            answers,
            ends,
            stopped,
        } = self;
        let log = stage.end();
        RanShard {
            log,
            ends,
            answers,
            stopped,
        }
    }
}
