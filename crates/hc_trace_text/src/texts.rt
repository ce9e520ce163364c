// The texts of what a trace is answered. Each is added to a buffer.
ghost use Rattle.std.specs.Prelude.{◌≡◌, ◌^◌, ◌<◌, ◌∷◌, ◌++◌, [], OnOk, ◌==◌, if◌then◌else◌};
ghost use Rattle.std.specs.List.{list_all};
ghost use Rattle.std.specs.Fmt.{decimal};
ghost use Rattle.hc_types.specs.Loss.{scope_of, cause_of};
ghost use Rattle.hc_types.specs.Losses.{but_text, scope_text, cause_text};
ghost use Rattle.hc_types.specs.Refusals.{refusal_text};
ghost use Rattle.hc_history.specs.Counts.{finds_text, calls_text, others_text};
ghost use Rattle.hc_trace_text.specs.Texts as spec;
ghost use Rattle.hc_trace_text.specs.Texts.{value_text, ReadsBack, line_text, lose_text, losses_text, stats_text, verdict_text, fault_text};
ghost use Rattle.hc_trace_text.specs.Steps.{Hit, Moment, Waiting, Reads, Writes, Reclaimed};

use hc_history::{Note, Said, Stats};
use hc_types::{Cause, Key, Refusal, Scope};
use itoa::Buffer;
use std::alloc::AllocError;

/// A number in decimal.
pub fn add_number(out: &mut Vec<u8>, number: u64) -> Result<(), AllocError>
    ensures { OnOk result (out.new.items ≡ out.old.items ++ decimal number) }
{
    let mut buffer = Buffer::new();
    out.extend_from_slice(buffer.format(number).as_bytes())
}

// Whether all are this byte.
fn all_are(bytes: &[u8], c: u8) -> bool
    ensures { result ≡ list_all (λ b. b == c) bytes.now }
{
    // not `all`, which stops at the first other byte: this is done for many bytes at a time
    let mut same = true;
    'bytes: for b in bytes {
        same &= *b == c;
    }
    same
}

/// Four bytes or more, all equal, and no digits.
pub fn is_repeated(value: &[u8]) -> bool
    ensures { result ≡ spec.is_repeated value.now }
{
    let Some((first, rest)) = value.split_first() else {
        return false;
    };
    let c = *first;
    rest.len() >= 3 && rest[0] == c && !c.is_ascii_digit() && all_are(rest, c)
}

/// A value: `*`, how many bytes and which, or `=` and its bytes.
pub fn add_value(out: &mut Vec<u8>, value: &[u8]) -> Result<(), AllocError>
    ensures { OnOk result (out.new.items ≡ out.old.items ++ value_text value.now) }
{
    if is_repeated(value) {
        out.push(b'*')?;
        add_number(out, value.len() as u64)?;
        return out.extend_from_slice(&value[..1]);
    }
    out.push(b'=')?;
    out.extend_from_slice(value)
}

/// The line of a word.
pub fn add_word(out: &mut Vec<u8>, word: &[u8]) -> Result<(), AllocError>
    ensures { OnOk result (out.new.items ≡ out.old.items ++ line_text word.now) }
{
    out.extend_from_slice(word)?;
    out.extend_from_slice(b"\n")
}

/// The line of a value that was found. A trace that has the value so is read as having this value.
pub fn add_hit(out: &mut Vec<u8>, value: &[u8]) -> Result<(), AllocError>
    ensures reads_back { OnOk result (ReadsBack value.now) }
    ensures text { OnOk result (out.new.items ≡ out.old.items ++ line_text (spec.answer_text (Hit value.now))) }
{
    out.extend_from_slice(b"hit ")?;
    add_value(out, value)?;
    out.push(b'\n')?;
    Ok(())
}

/// The line of a moment.
pub fn add_moment(out: &mut Vec<u8>, now: u64) -> Result<(), AllocError>
    ensures { OnOk result (out.new.items ≡ out.old.items ++ line_text (spec.answer_text (Moment now))) }
{
    add_count(out, b"now ", now)?;
    out.extend_from_slice(b"\n")
}

/// The line of a call that waits.
pub fn add_waiting(out: &mut Vec<u8>, call: u64) -> Result<(), AllocError>
    ensures { OnOk result (out.new.items ≡ out.old.items ++ line_text (spec.answer_text (Waiting call))) }
{
    add_count(out, b"waiting ", call)?;
    out.extend_from_slice(b"\n")
}

/// The line of a job that wants a page read.
pub fn add_reads(out: &mut Vec<u8>, job: u64, page: u64) -> Result<(), AllocError>
    ensures { OnOk result (out.new.items ≡ out.old.items ++ line_text (spec.answer_text (Reads job page))) }
{
    add_count(out, b"job ", job)?;
    add_count(out, b" read ", page)?;
    out.extend_from_slice(b"\n")
}

/// The line of a job that wants a page written.
pub fn add_writes(out: &mut Vec<u8>, job: u64, page: u64) -> Result<(), AllocError>
    ensures { OnOk result (out.new.items ≡ out.old.items ++ line_text (spec.answer_text (Writes job page))) }
{
    add_count(out, b"job ", job)?;
    add_count(out, b" write ", page)?;
    out.extend_from_slice(b"\n")
}

/// The line of a region that was reclaimed.
pub fn add_reclaimed(out: &mut Vec<u8>, region: u64) -> Result<(), AllocError>
    ensures { OnOk result (out.new.items ≡ out.old.items ++ line_text (spec.answer_text (Reclaimed region))) }
{
    add_count(out, b"reclaimed ", region)?;
    out.extend_from_slice(b"\n")
}

/// The line of a refusal.
pub fn add_refusal(out: &mut Vec<u8>, refusal: Refusal) -> Result<(), AllocError>
    ensures { OnOk result (out.new.items ≡ out.old.items ++ line_text (refusal_text refusal)) }
{
    out.extend_from_slice(b"refused ")?;
    add_number(out, u64::from(refusal.number()))?;
    out.push(b' ')?;
    out.extend_from_slice(refusal.name().as_bytes())?;
    out.extend_from_slice(b"\n")
}

// Words and a key.
fn add_key(out: &mut Vec<u8>, words: &[u8], key: &Key) -> Result<(), AllocError>
    ensures { OnOk result (out.new.items ≡ out.old.items ++ (words.now ++ key.now)) }
{
    out.extend_from_slice(words)?;
    out.extend_from_slice(key.as_slice())
}

// The key that a scope leaves out.
fn add_but(out: &mut Vec<u8>, but: &Option<Key>) -> Result<(), AllocError>
    ensures { OnOk result (out.new.items ≡ out.old.items ++ but_text but.now) }
{
    match but {
        Some(key) => add_key(out, b" but ", key),
        None => Ok(()),
    }
}

// What is forgotten.
fn add_scope(out: &mut Vec<u8>, scope: &Scope) -> Result<(), AllocError>
    ensures { OnOk result (out.new.items ≡ out.old.items ++ scope_text (scope_of scope.now)) }
{
    match scope {
        Scope::Key(key) => add_key(out, b"key ", key),
        Scope::Bucket(bucket) => add_count(out, b"bucket ", u64::from(*bucket)),
        Scope::Hash { kept, but } => {
            add_count(out, b"hash ", *kept)?;
            add_but(out, but)
        }
    }
}

// Why something is forgotten.
fn add_cause(out: &mut Vec<u8>, cause: &Cause) -> Result<(), AllocError>
    ensures { OnOk result (out.new.items ≡ out.old.items ++ cause_text (cause_of cause.now)) }
{
    match cause {
        Cause::Evicted { why, .. } => out.extend_from_slice(why.text().as_bytes()),
        Cause::BucketFull => out.extend_from_slice(b"bucketfull"),
        Cause::Reclaimed(region) => add_count(out, b"reclaimed ", u64::from(*region)),
        Cause::NoCleanRegion => out.extend_from_slice(b"nocleanregion"),
        Cause::Collision(_) => out.extend_from_slice(b"collision"),
        Cause::Expired => out.extend_from_slice(b"expired"),
        Cause::Fault => out.extend_from_slice(b"fault"),
    }
}

// What is forgotten, and why.
fn add_lose(out: &mut Vec<u8>, scope: &Scope, cause: &Cause) -> Result<(), AllocError>
    ensures { OnOk result (out.new.items ≡ out.old.items ++ lose_text (scope_of scope.now) (cause_of cause.now)) }
{
    out.extend_from_slice(b"lose ")?;
    add_scope(out, scope)?;
    out.push(b' ')?;
    add_cause(out, cause)
}

// The line of a note, where it forgets something.
fn add_loss(out: &mut Vec<u8>, note: &Note) -> Result<(), AllocError>
    ensures { OnOk result (out.new.items ≡ out.old.items ++ spec.loss_text note.now) }
{
    match &note.said {
        Said::Lose { scope, cause } => {
            add_lose(out, scope, cause)?;
            out.extend_from_slice(b"\n")
        }
        _ => Ok(()),
    }
}

/// The lines of what these notes forget, in their order.
pub fn add_losses(out: &mut Vec<u8>, notes: &[Note]) -> Result<(), AllocError>
    ensures { OnOk result (out.new.items ≡ out.old.items ++ losses_text notes.now) }
{
    'notes: for note in notes {
        add_loss(out, note)?;
    }
    Ok(())
}

// A word and its count.
fn add_count(out: &mut Vec<u8>, name: &[u8], count: u64) -> Result<(), AllocError>
    ensures { OnOk result (out.new.items ≡ out.old.items ++ (name.now ++ decimal count)) }
{
    out.extend_from_slice(name)?;
    add_number(out, count)
}

// The counts of finds.
fn add_finds(out: &mut Vec<u8>, counts: &Stats) -> Result<(), AllocError>
    ensures { OnOk result (out.new.items ≡ out.old.items ++ finds_text counts.now) }
{
    add_count(out, b" hits ", counts.hits)?;
    add_count(out, b" misses ", counts.misses)
}

// The counts of calls.
fn add_calls(out: &mut Vec<u8>, counts: &Stats) -> Result<(), AllocError>
    ensures { OnOk result (out.new.items ≡ out.old.items ++ calls_text counts.now) }
{
    add_count(out, b"stored ", counts.stored)?;
    add_finds(out, counts)?;
    add_count(out, b" removes ", counts.removes)
}

// The counts of what is forgotten, and of pages.
fn add_others(out: &mut Vec<u8>, counts: &Stats) -> Result<(), AllocError>
    ensures { OnOk result (out.new.items ≡ out.old.items ++ others_text counts.now) }
{
    add_count(out, b" losses ", counts.losses)?;
    add_count(out, b" reads ", counts.reads)?;
    add_count(out, b" writes ", counts.writes)
}

/// The line of the seven counts.
pub fn add_stats(out: &mut Vec<u8>, counts: &Stats) -> Result<(), AllocError>
    ensures { OnOk result (out.new.items ≡ out.old.items ++ line_text (stats_text counts.now)) }
{
    out.extend_from_slice(b"stats ")?;
    add_calls(out, counts)?;
    add_others(out, counts)?;
    out.extend_from_slice(b"\n")
}

/// The line of the verdict.
pub fn add_verdict(out: &mut Vec<u8>) -> Result<(), AllocError>
    ensures { OnOk result (out.new.items ≡ out.old.items ++ verdict_text) }
{
    out.extend_from_slice(b"verdict legal, honest\n")
}

/// The line of a fault at this line.
pub fn add_fault(out: &mut Vec<u8>, line: u64) -> Result<(), AllocError>
    ensures { OnOk result (out.new.items ≡ out.old.items ++ fault_text line) }
{
    out.extend_from_slice(b"fault line ")?;
    add_number(out, line)?;
    out.extend_from_slice(b"\n")
}
