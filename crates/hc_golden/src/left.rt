// The log that a trace leaves, judged.
ghost use Rattle.std.specs.Prelude.{IfOk};
ghost use Rattle.hc_trace_meaning.specs.Trace.{trace_of};
ghost use Rattle.hc_verdict.specs.Verdict.{IsVerdict};
ghost use Rattle.hc_golden.specs.Judged.{IsSaid};

use hc_history::Note;
use hc_trace_log::{Logged, log_of};
use hc_types::Config;
use hc_verdict::{Verdict, judge};
use std::alloc::{AllocError, Global};

// Judges the log of a cache of this configuration, which isn't refused.
fn judge_notes(alloc: Global, config: &Config, notes: &[Note]) -> Result<Verdict, AllocError>
    ensures { IfOk result (λ verdict. IsVerdict config.now notes.now verdict) }
{
    match judge(config, notes, &alloc) {
        Ok(verdict) => Ok(verdict),
        Err(_) => Err(AllocError),
    }
}

/// Judges the log that the trace leaves. None where it has a fault, or its configuration is refused.
pub fn judge_left(alloc: Global, trace: &[u8]) -> Result<Option<Verdict>, AllocError>
    ensures { IfOk result (λ said. IsSaid (trace_of trace.now) said) }
{
    match &log_of(alloc, trace)? {
        Logged::Whole(config, player) => {
            let verdict = judge_notes(alloc, config, &player.notes().notes)?;
            Ok(Some(verdict))
        }
        Logged::Fault(_) | Logged::Refused(_) => Ok(None),
    }
}
