// Whether a trace is answered, and a log judged, as it must be.
ghost use Rattle.std.specs.Prelude.{◌≡◌};

use crate::difference::first_difference;
use hc_trace::replay;
use hc_verdict::judge_text;
use std::alloc::{AllocError, Global};

/// How a trace was answered, or a log judged.
pub enum Verdict {
    /// As wanted.
    Same,
    /// The answers differ first in this line.
    Line(usize),
    /// The answers are as wanted, but this is the status.
    Status(u8),
}

/// Replays a trace, whose answers and status are to be these.
pub fn judge(alloc: Global, trace: &[u8], answers: &[u8], status: u8) -> Verdict {
    let mut reader = trace;
    let mut printed = Vec::new(alloc);
    let ended = replay(alloc, &mut reader, &mut printed);
    match first_difference(&printed, answers) {
        Some(line) => Verdict::Line(line),
        None if ended == status => Verdict::Same,
        None => Verdict::Status(ended),
    }
}

// The status with which a log that is judged so ends.
fn status_behind(verdict: &[u8]) -> u8 {
    if verdict.starts_with(b"legal") {
        0
    } else if verdict.starts_with(b"fault") || verdict.starts_with(b"refused") {
        1
    } else {
        3
    }
}

/// Judges a log, of which this is to be said.
pub fn judge_log(alloc: Global, log: &[u8], verdict: &[u8]) -> Result<Verdict, AllocError> {
    let mut printed = String::new(alloc);
    let ended = judge_text(alloc, log, &mut printed)?;
    match first_difference(printed.as_bytes(), verdict) {
        Some(line) => Ok(Verdict::Line(line)),
        None if ended == status_behind(verdict) => Ok(Verdict::Same),
        None => Ok(Verdict::Status(ended)),
    }
}
