// A line behind the configuration, and what is printed for it.
ghost use Rattle.std.specs.Prelude.{◌≡◌, ◌++◌, IfOk, OnOk};
ghost use Rattle.hc_trace_text.specs.Seen.{step_seen, work_seen};
ghost use Rattle.hc_trace_text.specs.Texts.{line_text, answer_text, losses_text};
ghost use Rattle.hc_history.specs.Told.{losses_taken};
ghost use Rattle.hc_player.specs.Seen.{answer_seen};
ghost use Rattle.hc_player.specs.Playing.{world_of};
ghost use Rattle.hc_trace_meaning.specs.Actions.{Do, Serve, Restart, act};
ghost use Rattle.hc_trace.specs.Places.{IsCounted, losses_in};
ghost use Rattle.hc_trace.specs.Telling.{IsTold};

use hc_history::Counting;
use hc_player::{Answer, Player};
use hc_trace_text::{
    Step, Work, add_hit, add_losses, add_moment, add_reads, add_reclaimed, add_refusal,
    add_waiting, add_word, add_writes,
};
use std::alloc::{AllocError, Global};

// The answer of a line.
fn add_answer(out: &mut Vec<u8>, answer: &Answer) -> Result<(), AllocError>
    ensures { OnOk result (out.new.items ≡ out.old.items ++ line_text (answer_text (answer_seen answer.now))) }
{
    match answer {
        Answer::Stored => add_word(out, b"stored"),
        Answer::Refused(refusal) => add_refusal(out, *refusal),
        Answer::Hit(value) => add_hit(out, value.as_slice()),
        Answer::Miss => add_word(out, b"miss"),
        Answer::Found => add_word(out, b"found"),
        Answer::Absent => add_word(out, b"absent"),
        Answer::Moment(now) => add_moment(out, *now),
        Answer::Exists => add_word(out, b"exists"),
        Answer::Waiting(call) => add_waiting(out, *call),
        Answer::Idle => add_word(out, b"idle"),
        Answer::Finished => add_word(out, b"finished"),
        Answer::Reads(job, page) => add_reads(out, *job, u64::from(*page)),
        Answer::Writes(job, page) => add_writes(out, *job, u64::from(*page)),
        Answer::Made => add_word(out, b"ok"),
        Answer::Failed => add_word(out, b"failed"),
        Answer::Reclaimed(region) => add_reclaimed(out, u64::from(*region)),
        Answer::Restarted => add_word(out, b"restarted"),
        Answer::Busy => add_word(out, b"busy"),
    }
}

// The answer of a line, and then what it forgot, which is taken.
fn tell(player: &mut Player<Counting>, out: &mut Vec<u8>, answer: &Answer) -> Result<(), AllocError>
    ensures player { OnOk result (player.new ≡ record player.old { log = losses_taken player.old.log }) }
    ensures text { OnOk result (out.new.items ≡ out.old.items ++ (line_text (answer_text (answer_seen answer.now)) ++ losses_text (losses_in player.old.log))) }
{
    add_answer(out, answer)?;
    add_losses(out, &player.notes().losses)?;
    player.forget_losses();
    Ok(())
}

/// A step, its answer, and then what it forgot. An error is out of memory.
pub fn take_step(
    player: &mut Player<Counting>,
    out: &mut Vec<u8>,
    step: &Step<'_>,
) -> Result<(), AllocError>
    requires { IsCounted player.old.log }
    ensures { OnOk result (IsTold (act (Do (step_seen step.now)) (world_of player.old)) player.old player.new out.old.items out.new.items) }
{
    let answer = player.take_step(step)?;
    tell(player, out, &answer)
}

/// Work, its answer, and then what it forgot. An error is out of memory.
pub fn do_work(
    player: &mut Player<Counting>,
    out: &mut Vec<u8>,
    work: &Work,
) -> Result<(), AllocError>
    requires { IsCounted player.old.log }
    ensures { OnOk result (IsTold (act (Serve (work_seen work.now)) (world_of player.old)) player.old player.new out.old.items out.new.items) }
{
    let answer = player.do_work(work)?;
    tell(player, out, &answer)
}

/// The cache is closed where it is at rest, and goes on, which is answered. An error is out of memory.
pub fn restart(
    alloc: Global,
    player: Player<Counting>,
    out: &mut Vec<u8>,
) -> Result<Player<Counting>, AllocError>
    requires { IsCounted player.log }
    ensures { IfOk result (λ on. IsTold (act Restart (world_of player)) player on out.old.items out.new.items) }
{
    let (mut player, answer) = player.restart(alloc);
    tell(&mut player, out, &answer)?;
    Ok(player)
}
