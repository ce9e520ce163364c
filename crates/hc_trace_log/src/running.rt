// The lines behind a configuration.
ghost use Rattle.std.specs.Prelude.{◌≡◌, ◌+◌, ◌<◌, ◌^◌, length, true, false, IfOk};
ghost use Rattle.hc_trace_text.specs.Grammar.{line_of};
ghost use Rattle.hc_trace_text.specs.Lines.{lines_of};
ghost use Rattle.hc_trace_meaning.specs.Trace.{actions_from};
ghost use Rattle.hc_trace_log.specs.Taken.{GoesOn, Stops, IsHeard};

use crate::lines::first_line;
use hc_history::Kept;
use hc_player::Player;
use hc_trace_text::{Line, Order, line_in};
use std::alloc::{AllocError, Global};

// Does what a line says, and passes over its answer. Whether the line is one behind a configuration.
fn take_line(
    alloc: Global,
    mut player: Player<Kept>,
    line: &[u8],
) -> Result<(Player<Kept>, bool), AllocError>
    ensures goes { IfOk result (λ came. came.1 ≡ true → GoesOn (line_of line.now) player came.0) }
    ensures stops { IfOk result (λ came. came.1 ≡ false → Stops (line_of line.now)) }
{
    match &line_in(line) {
        Line::Skipped => Ok((player, true)),
        Line::Says(Order::Do(step)) => {
            player.take_step(step)?;
            Ok((player, true))
        }
        Line::Says(Order::Serve(work)) => {
            player.do_work(work)?;
            Ok((player, true))
        }
        Line::Says(Order::Restart) => {
            let (player, _) = player.restart(alloc);
            Ok((player, true))
        }
        _ => Ok((player, false)),
    }
}

/// Takes these lines, behind so many others. With the cache comes the line of the first fault, where there is one, from which on
/// none is taken. An error means out of memory.
pub fn take_lines(
    alloc: Global,
    mut player: Player<Kept>,
    bytes: &[u8],
    before: u64,
) -> Result<(Player<Kept>, Option<u64>), AllocError>
    requires { before + length bytes.now < 2 ^ 64 }
    ensures { IfOk result (λ came. IsHeard (actions_from before (lines_of bytes.now)) came.1 player came.0) }
{
    let mut rest = bytes;
    let mut taken = before;
    'lines: while let Some((line, later)) = first_line(rest) {
        taken += 1;
        let (on, goes) = take_line(alloc, player, line)?;
        player = on;
        if !goes {
            return Ok((player, Some(taken)));
        }
        rest = later;
    }
    Ok((player, None))
}
