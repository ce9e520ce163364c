// The log of a trace.
ghost use Rattle.std.specs.Prelude.{◌≡◌, ◌+◌, ◌<◌, ◌^◌, [], None, length, IfOk};
ghost use Rattle.hc_types.specs.Limits.{first_wrong};
ghost use Rattle.hc_history.specs.Told.{Log};
ghost use Rattle.hc_trace_text.specs.Lines.{lines_of};
ghost use Rattle.hc_player.specs.Alike.{Alike};
ghost use Rattle.hc_player.specs.Playing.{world_of};
ghost use Rattle.hc_trace_meaning.specs.Promise.{LogsAreRight};
ghost use Rattle.hc_trace_meaning.specs.Trace.{trace_of, ended, actions_from, fresh};
ghost use Rattle.hc_trace_log.specs.Outcome.{outcome_of, outcome_seen};

use crate::configuring::{Begun, configuration};
use crate::running::take_lines;
use hc_history::Kept;
use hc_player::Player;
use hc_types::{Config, Refusal};
use std::alloc::{AllocError, Global};

/// What a trace comes to.
#[derive(Drop)]
pub enum Logged {
    /// A cache of this configuration, behind the last line. Its notes are the log.
    Whole(Config, Player<Kept>),
    /// The line with this number, counted from 1, has a fault.
    Fault(u64),
    /// The configuration is refused.
    Refused(Refusal),
}

// A new cache of the configuration takes these lines, behind so many others.
fn run(
    alloc: Global,
    config: Config,
    player: Player<Kept>,
    bytes: &[u8],
    before: u64,
) -> Result<Logged, AllocError>
    requires fits { first_wrong config ≡ None }
    requires fresh { Alike (world_of player) (fresh config) }
    requires log { player.log ≡ Log [] }
    requires short { before + length bytes.now < 2 ^ 64 }
    ensures { IfOk result (λ logged. outcome_seen logged ≡ outcome_of (ended config (actions_from before (lines_of bytes.now)))) }
{
    match take_lines(alloc, player, bytes, before)? {
        (player, None) => Ok(Logged::Whole(config, player)),
        (_, Some(line)) => Ok(Logged::Fault(line)),
    }
}

// The log of these lines behind a configuration, with which there are so many lines before them.
fn log_behind(
    alloc: Global,
    config: Config,
    bytes: &[u8],
    before: u64,
) -> Result<Logged, AllocError>
    requires { before + length bytes.now < 2 ^ 64 }
    ensures { IfOk result (λ logged. outcome_seen logged ≡ outcome_of (ended config (actions_from before (lines_of bytes.now)))) }
{
    match Player::new(alloc, &config, Kept::new(alloc)) {
        Ok(player) => run(alloc, config, player, bytes, before),
        Err(Refusal::NoMemory) => Err(AllocError),
        Err(refusal) => Ok(Logged::Refused(refusal)),
    }
}

/// The log of the trace (docs/FORMATS.md): a cache of its configuration that has taken each of its lines, and kept the
/// notes. An error means out of memory.
pub fn log_of(alloc: Global, bytes: &[u8]) -> Result<Logged, AllocError>
    ensures outcome { IfOk result (λ logged. outcome_seen logged ≡ outcome_of (trace_of bytes.now)) }
    ensures right { LogsAreRight }
{
    match configuration(alloc, bytes)? {
        Begun::Fault(line) => Ok(Logged::Fault(line)),
        Begun::Configured(config, rest, before) => log_behind(alloc, config, rest, before),
    }
}
