// A list of steps, and the log that they leave.
ghost use Rattle.std.specs.Prelude.{◌≡◌, ◌≢◌, ◌⊎◌, ℕ, None, Some, length, take, IfOk, IfErr, OnOk, OnErr};
ghost use Rattle.hc_types.specs.Limits.{first_wrong};
ghost use Rattle.hc_history.specs.Honest.{Honest};
ghost use Rattle.hc_history.specs.Lawful.{Legal};
ghost use Rattle.hc_run.specs.Asked.{place_of};
ghost use Rattle.hc_run.specs.Going.{GoesOn};
ghost use Rattle.hc_run.specs.Laws.{FollowsBy};
ghost use Rattle.hc_run.specs.QuietRuns.{IsQuietRunOf};
ghost use Rattle.hc_run.specs.Runs.{IsRunOf, IsRunOver};
ghost use Rattle.hc_run.specs.Devices.{Counts};
ghost use Rattle.hc_run.specs.Shows.{AreOwn, Waits, seen};
ghost use Rattle.hc_shards.specs.Parts.{Beside};

use crate::stage::Stage;
use crate::steps::{Answer, Step};
use crate::window::Window;
use hc_flash::Flash;
use hc_history::Kept;
use hc_types::{Config, Refusal};
use std::alloc::{AllocError, Allocator, Global};

/// Why a run stopped, and before which step, by its place in the list. `run` stops for lack of memory alone.
#[derive(Clone, Copy, Debug, PartialEq, Eq)]
pub enum Stopped {
    /// There was no memory for the step.
    NoMemory(usize),
    /// The step isn't quiet: a job is out, and the step isn't its own.
    NotQuiet(usize),
}

/// A run: its log, where each step's part ends in it, the answers, and the device. Where the run stopped before a step,
/// `stopped` tells which and why. At the end of the log, what still fills a slot is given up.
#[derive(Drop)]
pub struct Ran<D: Flash<A>, A: Allocator = Global> {
    pub log: Kept<A>,
    pub ends: Vec<usize, A>,
    pub answers: Vec<Answer<A>, A>,
    pub stopped: Option<Stopped>,
    pub device: D,
}

/// One step more: its answer, and where it ends in the log. Where memory is wanted, all is as it was. No page of the
/// device is changed but the stage's own.
pub fn go_on<D: Flash<A>, A: Allocator + Clone + Copy>(
    stage: &mut Stage<A>,
    device: &mut D,
    answers: &mut Vec<Answer<A>, A>,
    ends: &mut Vec<usize, A>,
    step: &Step<A>,
) -> Result<(), AllocError>
    requires own { AreOwn stage.old.slots stage.old.cache }
    ensures ok { OnOk result (GoesOn (seen stage.old.window (D.held device.old)) stage.old answers.old.items ends.old.items step.now (seen stage.old.window (D.held device.new)) stage.new answers.new.items ends.new.items) }
    ensures err { OnErr result (Waits (seen stage.old.window (D.held device.old)) stage.old (seen stage.old.window (D.held device.new)) stage.new) }
    ensures window { stage.new.window ≡ stage.old.window }
    ensures beside { Beside stage.old.window.first stage.old.window.pages (D.held device.old) (D.held device.new) }
    ensures counted { Counts stage.old.window (D.failed device.old) (D.failed device.new) stage.old.failures stage.new.failures }
    ensures answers { OnErr result (answers.new.items ≡ answers.old.items) }
    ensures ends { OnErr result (ends.new.items ≡ ends.old.items) }
{
    answers.reserve(1)?;
    ends.reserve(1)?;
    match stage.step(device, step) {
        Ok(answer) => {
            answers.push_reserved(answer);
            ends.push_reserved(stage.log_len());
            Ok(())
        }
        Err(no_memory) => Err(no_memory),
    }
}

/// Makes any list of steps on a new cache over the device, of whose pages nothing is known yet. The log is legal,
/// honest, and follows the steps, and answers and log are those of the machine's run of the steps, up to the one for
/// which there was no memory; the device may fail whichever of its operations. The device that comes back is the one that
/// was handed in, after the operations of the run: it holds each page as the run left it, as far as that is known, and
/// has failed as often more as the answers tell. Refused for the first number of the configuration that is outside its
/// limits, and with `NoMemory` where there is no memory for the cache or its slots; then the device is dropped.
pub fn run<D: Flash<A>, A: Allocator + Clone + Copy>(
    alloc: A,
    config: &Config<A>,
    mut device: D,
    steps: &[Step<A>],
) -> Result<Ran<D, A>, Refusal>
    ensures legal { IfOk result (λ ran. Legal config.now ran.log.notes.items) }
    ensures honest { IfOk result (λ ran. Honest ran.log.notes.items) }
    ensures runs { IfOk result (λ ran. IsRunOf config.now (take (length ran.answers.items) steps.now) ran.answers.items ran.ends.items ran.log.notes.items) }
    ensures device { IfOk result (λ ran. IsRunOver (record { held = D.held; failed = D.failed }) config.now (take (length ran.answers.items) steps.now) ran.answers.items device ran.device) }
    ensures memory { IfOk result (λ ran. (place : ℕ) → ran.stopped ≢ Some (Stopped.NotQuiet place)) }
    ensures follows { IfOk result (λ ran. FollowsBy config.now steps.now ran.answers.items ran.ends.items ran.log.notes.items (place_of ran.stopped)) }
    ensures all { IfOk result (λ ran. ran.stopped ≡ None → length ran.answers.items ≡ length steps.now) }
    ensures fits { OnOk result (first_wrong config.now ≡ None) }
    ensures err { IfErr result (λ refusal. (first_wrong config.now ≡ Some refusal) ⊎ ((first_wrong config.now ≡ None) × (refusal ≡ Refusal.NoMemory))) }
{
    let mut stage = Stage::new(alloc, config, Window::whole())?;
    let mut answers = Vec::new(alloc);
    let mut ends = Vec::new(alloc);
    for (i, step) in steps.iter().enumerate() {
        match go_on(&mut stage, &mut device, &mut answers, &mut ends, step) {
            Ok(()) => {}
            Err(_) => {
                let log = stage.end();
                return Ok(Ran {
                    log,
                    ends,
                    answers,
                    stopped: Some(Stopped::NoMemory(i)),
                    device,
                });
            }
        }
    }
    let log = stage.end();
    Ok(Ran {
        log,
        ends,
        answers,
        stopped: None,
        device,
    })
}

/// The same, where the run also stops before the first step that isn't quiet: while a job is out, each step must be
/// its own, an `Io` or a `Finish`. Refused for the first number of the configuration that is outside its limits, and
/// with `NoMemory` where there is no memory for the cache or its slots; then the device is dropped.
pub fn run_quiet<D: Flash<A>, A: Allocator + Clone + Copy>(
    alloc: A,
    config: &Config<A>,
    mut device: D,
    steps: &[Step<A>],
) -> Result<Ran<D, A>, Refusal>
    ensures legal { IfOk result (λ ran. Legal config.now ran.log.notes.items) }
    ensures honest { IfOk result (λ ran. Honest ran.log.notes.items) }
    ensures runs { IfOk result (λ ran. IsQuietRunOf config.now steps.now ran.answers.items ran.ends.items ran.log.notes.items ran.stopped) }
    ensures device { IfOk result (λ ran. IsRunOver (record { held = D.held; failed = D.failed }) config.now (take (length ran.answers.items) steps.now) ran.answers.items device ran.device) }
    ensures follows { IfOk result (λ ran. FollowsBy config.now steps.now ran.answers.items ran.ends.items ran.log.notes.items (place_of ran.stopped)) }
    ensures all { IfOk result (λ ran. ran.stopped ≡ None → length ran.answers.items ≡ length steps.now) }
    ensures fits { OnOk result (first_wrong config.now ≡ None) }
    ensures err { IfErr result (λ refusal. (first_wrong config.now ≡ Some refusal) ⊎ ((first_wrong config.now ≡ None) × (refusal ≡ Refusal.NoMemory))) }
{
    let mut stage = Stage::new(alloc, config, Window::whole())?;
    let mut answers = Vec::new(alloc);
    let mut ends = Vec::new(alloc);
    for (i, step) in steps.iter().enumerate() {
        if !stage.is_quiet(step) {
            let log = stage.end();
            return Ok(Ran {
                log,
                ends,
                answers,
                stopped: Some(Stopped::NotQuiet(i)),
                device,
            });
        }
        match go_on(&mut stage, &mut device, &mut answers, &mut ends, step) {
            Ok(()) => {}
            Err(_) => {
                let log = stage.end();
                return Ok(Ran {
                    log,
                    ends,
                    answers,
                    stopped: Some(Stopped::NoMemory(i)),
                    device,
                });
            }
        }
    }
    let log = stage.end();
    Ok(Ran {
        log,
        ends,
        answers,
        stopped: None,
        device,
    })
}
