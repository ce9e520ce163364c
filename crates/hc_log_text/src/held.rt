// What the types of a note hold: its numbers, keys and pages are within their bounds.
ghost use Rattle.std.specs.Prelude.{◌≡◌, true};
ghost use Rattle.hc_types.specs.Loss.{scope_of, cause_of};
ghost use Rattle.hc_history.specs.Seen.{op_of};
ghost use Rattle.hc_log_text.specs.Said as said;
ghost use Rattle.hc_log_text.specs.Said.{is_short, is_bytes, fits_op, fits_scope, fits_cause, fits_page};

use bytes::Bytes;
use hc_history::{Note, Op, Said};
use hc_types::{Cause, Key, Scope};

fn key_fits(key: &Key)
    ensures { is_short key.now ≡ true }
{
    let _len = key.len();
}

fn bytes_fit(bytes: &[u8])
    ensures { is_bytes bytes.now ≡ true }
{
    let _len = bytes.len();
}

fn op_fits(op: &Op)
    ensures { fits_op (op_of op.now) ≡ true }
{
    match op {
        Op::Insert(key, _, expiry) | Op::Add(key, _, expiry) => {
            let _expiry = *expiry;
            key_fits(key);
        }
        Op::Find(key) | Op::Remove(key) => key_fits(key),
    }
}

fn scope_fits(scope: &Scope)
    ensures { fits_scope (scope_of scope.now) ≡ true }
{
    match scope {
        Scope::Key(key) => key_fits(key),
        Scope::Bucket(bucket) => {
            let _bucket = *bucket;
        }
        Scope::Hash { kept, but } => {
            let _kept = *kept;
            if let Some(key) = but {
                key_fits(key);
            }
        }
    }
}

fn cause_fits(cause: &Cause)
    ensures { fits_cause (cause_of cause.now) ≡ true }
{
    match cause {
        Cause::Evicted { pool, want, .. } => {
            let _pool = *pool;
            let _want = *want;
        }
        Cause::Reclaimed(region) => {
            let _region = *region;
        }
        Cause::Collision(by) => key_fits(by),
        _ => {}
    }
}

fn page_fits(bytes: &Option<Bytes>)
    ensures { fits_page bytes.now ≡ true }
{
    if let Some(bytes) = bytes {
        bytes_fit(bytes.as_slice());
    }
}

/// Its numbers, keys and pages are within what its types hold. It does nothing when it runs.
pub fn fits(note: &Note)
    ensures { said.fits note.now ≡ true }
{
    match &note.said {
        Said::Begin { call, client, op } => {
            let _call = *call;
            let _client = *client;
            op_fits(op);
        }
        Said::Lose { scope, cause } => {
            scope_fits(scope);
            cause_fits(cause);
        }
        Said::Charged {
            charge,
            key,
            pool,
            bytes,
        } => {
            let _charge = *charge;
            let _pool = *pool;
            let _bytes = *bytes;
            key_fits(key);
        }
        Said::Did { call: number, .. }
        | Said::End { call: number }
        | Said::Linked { charge: number }
        | Said::Freed { charge: number }
        | Said::Now { moment: number } => {
            let _number = *number;
        }
        Said::Queued { key }
        | Said::Unqueued { key }
        | Said::Writing { key }
        | Said::Written { key }
        | Said::Buried { key }
        | Said::Raised { key } => key_fits(key),
        Said::Read {
            page,
            result: bytes,
        } => {
            let _page = *page;
            page_fits(bytes);
        }
        Said::Wrote { page, bytes, .. } => {
            let _page = *page;
            bytes_fit(bytes.as_slice());
        }
        Said::Opened { region } | Said::Flushed { region } | Said::Cleared { region } => {
            let _region = *region;
        }
    }
}
