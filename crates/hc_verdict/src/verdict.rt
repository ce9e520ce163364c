// What is said of a log.
ghost use Rattle.std.specs.Prelude.{◌≡◌, ◌⊎◌, None, Some, IfOk, OnOk, IfErr};
ghost use Rattle.hc_types.specs.Limits.{first_wrong};
ghost use Rattle.hc_verdict.specs.Verdict.{IsVerdict, verdict_of};

use crate::lawful::{first_unlawful, limits};
use hc_history::Note;
use hc_judge_memory::{first_lie_in, is_at_end};
use hc_types::{Config, Refusal};
use std::alloc::Allocator;
use std::fmt::{self, Display};

/// What is said of a log. It shows as `legal, honest`, `unlawful N`, `unfinished` or `lie N`.
#[derive(Clone, Copy, Debug, PartialEq, Eq)]
pub enum Verdict {
    /// Each note is lawful, the log ends between two steps, and no read of a page is a lie.
    Legal,
    /// The note at this place, counted from 0, is the first that isn't lawful.
    Unlawful(usize),
    /// Each note is lawful, and the log doesn't end between two steps.
    Unfinished,
    /// The read at this place, counted from 0, is the first that isn't true. What comes behind it isn't judged.
    Lie(usize),
}

impl Display for Verdict {
    ghost use Rattle.std.specs.Prelude.{Some};
    ghost use Rattle.hc_verdict.specs.Verdict.{verdict_text};

    ghost output = { λ verdict. Some (verdict_text verdict) };

    fn fmt<W: fmt::Write>(&self, f: &mut fmt::Formatter<W>) -> fmt::Result {
        match self {
            Verdict::Legal => f.write_str("legal, honest"),
            Verdict::Unlawful(place) => write!(f, "unlawful {place}"),
            Verdict::Unfinished => f.write_str("unfinished"),
            Verdict::Lie(place) => write!(f, "lie {place}"),
        }
    }
}

/// Judges the log of a cache of this configuration: names the first note that is wrong, be it unlawful or a lie. Refused
/// for the first number of the configuration that is outside its limits, and else with `NoMemory` alone.
pub fn judge<A: Allocator + Clone>(
    config: &Config<A>,
    log: &[Note<A>],
    alloc: &A,
) -> Result<Verdict, Refusal>
    ensures ok { IfOk result (λ verdict. IsVerdict config.now log.now verdict) }
    ensures fits { OnOk result (first_wrong config.now ≡ None) }
    ensures err { IfErr result (λ refusal. (first_wrong config.now ≡ Some refusal) ⊎ ((first_wrong config.now ≡ None) × (refusal ≡ Refusal.NoMemory))) }
{
    config.check()?;
    limits(config);
    let unlawful = first_unlawful(config, log, alloc)?;
    let ends = is_at_end(config, log, alloc)?;
    Ok(said(unlawful, first_lie_in(log, alloc), ends))
}

// The verdict, by what was found.
fn said(unlawful: Option<usize>, lie: Option<usize>, ends: bool) -> Verdict
    ensures { result ≡ verdict_of unlawful lie ends }
{
    match (unlawful, lie) {
        (None, None) if ends => Verdict::Legal,
        (None, None) => Verdict::Unfinished,
        (None, Some(lie)) => Verdict::Lie(lie),
        (Some(place), None) => Verdict::Unlawful(place),
        (Some(place), Some(lie)) if lie < place => Verdict::Lie(lie),
        (Some(place), Some(_)) => Verdict::Unlawful(place),
    }
}
