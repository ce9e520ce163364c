// Whether a line can say a note.
ghost use Rattle.std.specs.Prelude.{◌≡◌};
ghost use Rattle.hc_types.specs.Loss.{scope_of, cause_of};
ghost use Rattle.hc_history.specs.Seen.{op_of, reply_of};
ghost use Rattle.hc_trace_text.specs.Numbers as spec;
ghost use Rattle.hc_log_text.specs.Said.{is_shown, is_shown_op, is_shown_reply, is_shown_scope, is_shown_cause};
ghost use Rattle.hc_log_text.specs.Said as said;

use bytes::Bytes;
use hc_history::{Note, Op, Reply, Said};
use hc_trace_text::{TIMES_MAX, all_visible, is_key};
use hc_types::{Cause, Key, Scope};

fn is_plain_key(key: &Key) -> bool
    ensures { result ≡ spec.is_key key.now }
{
    is_key(key.as_slice())
}

fn is_plain_value(value: &Bytes) -> bool
    ensures { result ≡ is_shown value.now }
{
    all_visible(value.as_slice()) && value.len() as u64 <= TIMES_MAX
}

fn is_plain_op(op: &Op) -> bool
    ensures { result ≡ is_shown_op (op_of op.now) }
{
    match op {
        Op::Insert(key, value, _) | Op::Add(key, value, _) => {
            is_plain_key(key) && is_plain_value(value)
        }
        Op::Find(key) | Op::Remove(key) => is_plain_key(key),
    }
}

fn is_plain_reply(reply: &Reply) -> bool
    ensures { result ≡ is_shown_reply (reply_of reply.now) }
{
    match reply {
        Reply::Hit(value) => is_plain_value(value),
        _ => true,
    }
}

fn is_plain_scope(scope: &Scope) -> bool
    ensures { result ≡ is_shown_scope (scope_of scope.now) }
{
    match scope {
        Scope::Key(key) => is_plain_key(key),
        Scope::Bucket(_) => true,
        Scope::Hash { but, .. } => match but {
            Some(key) => is_plain_key(key),
            None => true,
        },
    }
}

fn is_plain_cause(cause: &Cause) -> bool
    ensures { result ≡ is_shown_cause (cause_of cause.now) }
{
    match cause {
        Cause::Collision(by) => is_plain_key(by),
        _ => true,
    }
}

/// Whether a line can say the note: each byte of its keys and values is one from 33 to 126, and no value has more than
/// 2,097,152 bytes.
#[must_use]
pub fn is_sayable(note: &Note) -> bool
    ensures { result ≡ said.is_sayable note.now }
{
    match &note.said {
        Said::Begin { op, .. } => is_plain_op(op),
        Said::Did { reply, .. } => is_plain_reply(reply),
        Said::Lose { scope, cause } => is_plain_scope(scope) && is_plain_cause(cause),
        Said::Charged { key, .. }
        | Said::Queued { key }
        | Said::Unqueued { key }
        | Said::Writing { key }
        | Said::Written { key }
        | Said::Buried { key }
        | Said::Raised { key } => is_plain_key(key),
        _ => true,
    }
}
