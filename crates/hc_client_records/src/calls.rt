// What became of a call before some note.
ghost use Rattle.std.specs.Prelude.{◌≡◌, [], ◌∷◌, Option, List, option_map, unwrap_or};
ghost use Rattle.std.specs.Option.{option_or};
ghost use Rattle.hc_history.specs.Note.{Note as Meaning, Reply as Answer};
ghost use Rattle.hc_history.specs.Lawful.{past};
ghost use Rattle.hc_history.specs.Seen.{reply_of};
ghost use Rattle.hc_client_records.specs.Records as records;

use hc_history::{Note, Op, Reply, Said};
use std::marker::Model;

/// A call that was begun: its number, whose it is, and what it asks.
#[derive(Drop)]
pub(crate) struct Begun<'a> {
    pub(crate) call: u64,
    pub(crate) client: u8,
    pub(crate) op: &'a Op,
}

impl<'a> Model for Begun<'a> {
    ghost use Rattle.hc_history.specs.Seen.{op_of};
    ghost use Rattle.hc_history.specs.Books.{Call};

    ghost Value = { Call };

    ghost view = { λ b. record { number = b.call; client = b.client; op = op_of b.op.now } };
}

/// The last call of this number that was begun.
pub(crate) fn asked<'a>(before: &'a [Note], call: u64) -> Option<Begun<'a>>
    ensures { result ≡ records.asked call (past [] before.now) }
{
    let mut left = before;
    while let Some((note, older)) = left.split_last() {
        if let Some(begun) = begun_by(note, call) {
            return Some(begun);
        }
        left = older;
    }
    None
}

/// The call that the note begins, if it has this number.
fn begun_by<'a>(note: &'a Note, call: u64) -> Option<Begun<'a>>
    ensures { (older : List Meaning) → option_or result (records.asked call older) ≡ records.asked call (note.now ∷ older) }
{
    match &note.said {
        Said::Begin {
            call: begun,
            client,
            op,
        } if *begun == call => Some(Begun {
            call,
            client: *client,
            op,
        }),
        _ => None,
    }
}

/// The reply that is owed to the call.
pub(crate) fn answered<'a>(before: &'a [Note], call: u64) -> Option<&'a Reply>
    ensures { option_map (λ reply. reply_of reply.now) result ≡ records.answered call (past [] before.now) }
{
    let mut left = before;
    while let Some((note, older)) = left.split_last() {
        if let Some(answer) = answered_by(note, call) {
            return answer;
        }
        left = older;
    }
    None
}

/// What the note leaves of it, if it answers the call or hands its reply out.
fn answered_by<'a>(note: &'a Note, call: u64) -> Option<Option<&'a Reply>>
    ensures { (older : List Meaning) → unwrap_or (option_map (option_map (λ reply. reply_of reply.now)) result) (records.answered call older) ≡ records.answered call (note.now ∷ older) }
{
    match &note.said {
        Said::Did { call: done, reply } if *done == call => Some(Some(reply)),
        Said::End { call: ended } if *ended == call => Some(None),
        _ => None,
    }
}
