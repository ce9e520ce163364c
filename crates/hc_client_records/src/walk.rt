// The finished calls of a log, client by client, found in one walk.
ghost use Rattle.std.specs.Prelude.{◌≡◌, ℕ, ◌<◌, ◌^◌, ◌++◌, ◌∷◌, [], List, OnOk, IfOk, length, get_or, replicate, set};
ghost use Rattle.std.specs.Ordering.{nat_cmp};
ghost use Rattle.std.specs.BTreeMap.{get};
ghost use Rattle.hc_history.specs.Note.{Note as Meaning};
ghost use Rattle.hc_client_records.specs.Records.{finished_at};
ghost use Rattle.hc_client_records.specs.Walk.{AreBegun, AreOwed, AreFinished, of_client};

use crate::calls::Begun;
use hc_history::{Note, Op, Reply, Said};
use std::alloc::{AllocError, Global};
use std::collections::BTreeMap;
use std::marker::Model;

/// How many clients a log tells apart.
const CLIENTS: usize = 256;

/// A reply that is owed.
#[derive(Drop)]
struct Owed<'a> {
    reply: &'a Reply,
}

impl<'a> Model for Owed<'a> {
    ghost use Rattle.hc_history.specs.Seen.{reply_of};
    ghost use Rattle.hc_history.specs.Note.{Reply as Answer};

    ghost Value = { Answer };

    ghost view = { λ o. reply_of o.reply.now };
}

/// A call that was finished: its number, what it asked, and the reply that was handed out.
#[derive(Drop)]
pub(crate) struct Finished<'a> {
    pub(crate) call: u64,
    pub(crate) op: &'a Op,
    pub(crate) reply: &'a Reply,
}

impl<'a> Model for Finished<'a> {
    ghost use Rattle.hc_history.specs.Seen.{op_of, reply_of};
    ghost use Rattle.hc_client_records.specs.Records.{Entry as Answered};

    ghost Value = { Answered };

    ghost view = { λ f. record { call = f.call; op = op_of f.op.now; reply = reply_of f.reply.now } };
}

/// The finished calls of a client, in the order of their ends.
#[derive(Drop)]
pub(crate) struct Calls<'a> {
    calls: Vec<Finished<'a>>,
}

impl<'a> Model for Calls<'a> {
    ghost use Rattle.std.specs.Prelude.{List};
    ghost use Rattle.hc_client_records.specs.Records.{Entry as Answered};

    ghost Value = { List Answered };

    ghost view = { λ c. c.calls.items };
}

impl<'a> Calls<'a> {
    fn new(alloc: Global) -> Calls<'a>
        ensures { result ≡ [] }
    {
        Calls {
            calls: Vec::new(alloc),
        }
    }

    fn push(&mut self, call: Finished<'a>) -> Result<(), AllocError>
        ensures { OnOk result (self.new ≡ self.old ++ call.entry ∷ []) }
    {
        match self.calls.push(call) {
            Ok(()) => Ok(()),
            Err(_) => Err(AllocError),
        }
    }

    pub(crate) fn as_slice(&self) -> &[Finished<'a>]
        ensures { result.now ≡ self.now }
    {
        self.calls.as_slice()
    }
}

/// The finished calls of each client. Refused only when out of memory.
pub(crate) fn finished_calls<'a>(
    alloc: Global,
    log: &'a [Note],
) -> Result<Vec<Calls<'a>>, AllocError>
    ensures length { IfOk result (λ clients. length clients.items ≡ 256) }
    ensures finished { IfOk result (λ clients. AreFinished clients.items log.now) }
{
    let mut begun = BTreeMap::new(alloc);
    let mut owed = BTreeMap::new(alloc);
    let mut clients = no_calls(alloc, CLIENTS)?;
    for note in log {
        add_finished(&mut clients, &begun, &owed, note)?;
        keep_begun(&mut begun, note)?;
        keep_owed(&mut owed, note)?;
    }
    Ok(clients)
}

/// So many clients without a finished call.
fn no_calls<'a>(alloc: Global, n: usize) -> Result<Vec<Calls<'a>>, AllocError>
    requires { n < 2 ^ 16 }
    ensures { IfOk result (λ clients. clients.items ≡ replicate n []) }
{
    let mut clients = Vec::with_capacity(alloc, n)?;
    for _ in 0..n {
        clients.push(Calls::new(alloc))?;
    }
    Ok(clients)
}

/// Adds the call that the note finishes to those of its client.
fn add_finished<'a>(
    clients: &mut Vec<Calls<'a>>,
    begun: &BTreeMap<u64, Begun<'a>>,
    owed: &BTreeMap<u64, Owed<'a>>,
    note: &Note,
) -> Result<(), AllocError>
    requires { length clients.old.items ≡ 256 }
    ensures length { OnOk result (length clients.new.items ≡ 256) }
    ensures added { OnOk result ((older : List Meaning) → AreBegun (get nat_cmp begun.now) older → AreOwed (get nat_cmp owed.now) older → (client : ℕ) → client < 256 → get_or clients.new.items client [] ≡ get_or clients.old.items client [] ++ finished_at client older note.now) }
{
    match finished_by(begun, owed, note) {
        Some((client, call)) => push_at(clients, client, call),
        None => Ok(()),
    }
}

/// The call that the note finishes, and whose it is.
fn finished_by<'a>(
    begun: &BTreeMap<u64, Begun<'a>>,
    owed: &BTreeMap<u64, Owed<'a>>,
    note: &Note,
) -> Option<(u8, Finished<'a>)>
    ensures { (older : List Meaning) → AreBegun (get nat_cmp begun.now) older → AreOwed (get nat_cmp owed.now) older → (client : ℕ) → finished_at client older note.now ≡ of_client client result }
{
    let Said::End { call } = &note.said else {
        return None;
    };
    match (begun.get(call), owed.get(call)) {
        (Some(begun), Some(owed)) => Some((
            begun.client,
            Finished {
                call: begun.call,
                op: begun.op,
                reply: owed.reply,
            },
        )),
        _ => None,
    }
}

fn push_at<'a>(
    clients: &mut Vec<Calls<'a>>,
    client: u8,
    call: Finished<'a>,
) -> Result<(), AllocError>
    requires { length clients.old.items ≡ 256 }
    ensures { OnOk result (clients.new.items ≡ set clients.old.items client (get_or clients.old.items client [] ++ call.entry ∷ [])) }
{
    let calls = &mut clients[client as usize];
    calls.push(call)
}

/// Keeps what the note begins.
fn keep_begun<'a>(begun: &mut BTreeMap<u64, Begun<'a>>, note: &'a Note) -> Result<(), AllocError>
    ensures { OnOk result ((older : List Meaning) → AreBegun (get nat_cmp begun.old) older → AreBegun (get nat_cmp begun.new) (note.now ∷ older)) }
{
    let Said::Begin { call, client, op } = &note.said else {
        return Ok(());
    };
    let begin = Begun {
        call: *call,
        client: *client,
        op,
    };
    match begun.insert(*call, begin) {
        Ok(_) => Ok(()),
        Err(_) => Err(AllocError),
    }
}

/// Keeps the reply that the note owes, and forgets the one that it hands out.
fn keep_owed<'a>(owed: &mut BTreeMap<u64, Owed<'a>>, note: &'a Note) -> Result<(), AllocError>
    ensures { OnOk result ((older : List Meaning) → AreOwed (get nat_cmp owed.old) older → AreOwed (get nat_cmp owed.new) (note.now ∷ older)) }
{
    match &note.said {
        Said::Did { call, reply } => match owed.insert(*call, Owed { reply }) {
            Ok(_) => Ok(()),
            Err(_) => Err(AllocError),
        },
        Said::End { call } => {
            let _ = owed.remove(call);
            Ok(())
        }
        _ => Ok(()),
    }
}
