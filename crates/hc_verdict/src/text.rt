// A log as text, judged.
ghost use Rattle.std.specs.Prelude.{◌≡◌, ◌⊎◌, IfOk, OnOk, string_bytes};
ghost use Rattle.hc_types.specs.Refusals.{refusal_text};
ghost use Rattle.hc_verdict.specs.Verdict.{verdict_text, status_of, with_line, IsJudged, IsRefused};

use crate::verdict::{Verdict, judge};
use hc_history::Note;
use hc_log_text::{LogText, read_log};
use hc_types::{Config, Refusal};
use std::alloc::{AllocError, Global};

// So much of the log is well.
const WELL: u8 = 0;

// The text is no log, or its configuration is refused.
const FAULTY: u8 = 1;

// The log is one, and something is wrong with it.
const WRONG: u8 = 3;

fn status_of(verdict: Verdict) -> u8
    ensures { result ≡ status_of verdict }
{
    match verdict {
        Verdict::Legal => WELL,
        Verdict::Unlawful(_) | Verdict::Unfinished | Verdict::Lie(_) => WRONG,
    }
}

fn add_verdict(out: &mut String, verdict: Verdict) -> Result<(), AllocError>
    ensures { OnOk result (string_bytes out.new ≡ with_line (string_bytes out.old) (verdict_text verdict)) }
{
    writeln!(out, "{verdict}")?;
    Ok(())
}

fn add_refusal(out: &mut String, refusal: Refusal) -> Result<(), AllocError>
    ensures { OnOk result (string_bytes out.new ≡ with_line (string_bytes out.old) (refusal_text refusal)) }
{
    writeln!(out, "{refusal}")?;
    Ok(())
}

/// Judges a log as `judge` does, and adds a line to `out`: the verdict, with status 0 where it is `legal, honest` and else
/// with 3; or the refusal of its configuration, as `refused 3 BadPool`, with status 1. An error means out of memory.
pub fn judge_log(
    alloc: Global,
    config: &Config,
    log: &[Note],
    out: &mut String,
) -> Result<u8, AllocError>
    ensures { IfOk result (λ status. IsJudged config.now log.now status (string_bytes out.old) (string_bytes out.new) ⊎ IsRefused config.now status (string_bytes out.old) (string_bytes out.new)) }
{
    match judge(config, log, &alloc) {
        Ok(verdict) => {
            add_verdict(out, verdict)?;
            Ok(status_of(verdict))
        }
        Err(Refusal::NoMemory) => Err(AllocError),
        Err(refusal) => {
            add_refusal(out, refusal)?;
            Ok(FAULTY)
        }
    }
}

/// Judges the log that a text says (docs/FORMATS.md), as `judge_log` does. Of a text that is none, `fault line N` is added, with
/// status 1. An error means out of memory.
pub fn judge_text(alloc: Global, bytes: &[u8], out: &mut String) -> Result<u8, AllocError> {
    match read_log(alloc, bytes)? {
        LogText::Fault(line) => {
            writeln!(out, "fault line {line}")?;
            Ok(FAULTY)
        }
        LogText::Log(config, notes) => judge_log(alloc, &config, &notes, out),
    }
}
