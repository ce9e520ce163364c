// Whether each call of a log, and each move of its clock, is some client's own.
ghost use Rattle.std.specs.Prelude.{◌≡◌, ◌==◌, true, List, map};
ghost use Rattle.std.specs.List.{list_any, list_all};
ghost use Rattle.std.specs.Ordering.{nat_cmp};
ghost use Rattle.std.specs.BTreeMap.{get};
ghost use Rattle.std.specs.BTreeSet.{contains};
ghost use Rattle.hc_history.specs.Seen.{op_of};
ghost use Rattle.hc_client_records.specs.Judge as judge;
ghost use Rattle.hc_client_records.specs.Records.{Record as Did};
ghost use Rattle.hc_client_records.specs.Walk.{AreTheirs, AreTicks, IsAmong};

use crate::calls::Begun;
use crate::reconciling::is_op;
use crate::record::{Entry, OpenCall, Record, Recorded};
use hc_history::{Note, Op, Said};
use std::alloc::Global;
use std::collections::{BTreeMap, BTreeSet};

/// Whether each call and each move of the clock is some client's own, by one walk over the records and one over the log. The
/// calls and ticks of the records are kept in ordered maps; what there is no memory for is searched for among the records.
pub(crate) fn are_own<T: Recorded>(log: &[Note], records: &[T], alloc: Global) -> bool
    ensures { result ≡ list_all (judge.is_own (map T.recorded records.now)) log.now }
{
    let mut calls = BTreeMap::new(alloc);
    let mut ticks = BTreeSet::new(alloc);
    for who in records {
        keep_entries(&mut calls, who.record());
        keep_open(&mut calls, who.record());
        keep_ticks(&mut ticks, who.record());
    }
    for note in log {
        if !is_own(&calls, &ticks, records, note) {
            return false;
        }
    }
    true
}

/// Keeps the answered calls of the record.
fn keep_entries<'a>(calls: &mut BTreeMap<u64, Begun<'a>>, did: &'a Record)
    ensures { (records : List Did) → IsAmong did.now records → AreTheirs (get nat_cmp calls.old) records → AreTheirs (get nat_cmp calls.new) records }
{
    for entry in &did.entries {
        keep(calls, entry.call, did.client, &entry.op);
    }
}

/// Keeps the calls of the record that were left open.
fn keep_open<'a>(calls: &mut BTreeMap<u64, Begun<'a>>, did: &'a Record)
    ensures { (records : List Did) → IsAmong did.now records → AreTheirs (get nat_cmp calls.old) records → AreTheirs (get nat_cmp calls.new) records }
{
    for left in &did.open_calls {
        keep(calls, left.call, did.client, &left.op);
    }
}

/// Keeps a call, where there is memory for it.
fn keep<'a>(calls: &mut BTreeMap<u64, Begun<'a>>, call: u64, client: u8, op: &'a Op)
    ensures { (records : List Did) → list_any (judge.has_asked call client (op_of op.now)) records ≡ true → AreTheirs (get nat_cmp calls.old) records → AreTheirs (get nat_cmp calls.new) records }
{
    let begun = Begun { call, client, op };
    match calls.insert(call, begun) {
        Ok(_) => {}
        Err(_) => {}
    }
}

/// Keeps the moments to which the client moved the clock.
fn keep_ticks(ticks: &mut BTreeSet<u64>, did: &Record)
    ensures { (records : List Did) → IsAmong did.now records → AreTicks (λ m. contains nat_cmp ticks.old m) records → AreTicks (λ m. contains nat_cmp ticks.new m) records }
{
    for tick in &did.ticks {
        keep_tick(ticks, *tick);
    }
}

/// Keeps a moment, where there is memory for it.
fn keep_tick(ticks: &mut BTreeSet<u64>, moment: u64)
    ensures { (records : List Did) → list_any (judge.has_ticked moment) records ≡ true → AreTicks (λ m. contains nat_cmp ticks.old m) records → AreTicks (λ m. contains nat_cmp ticks.new m) records }
{
    match ticks.insert(moment) {
        Ok(_) => {}
        Err(_) => {}
    }
}

/// Whether the call that the note begins, or its move of the clock, is some client's own.
fn is_own<'a, T: Recorded>(
    calls: &BTreeMap<u64, Begun<'a>>,
    ticks: &BTreeSet<u64>,
    records: &[T],
    note: &Note,
) -> bool
    requires calls { AreTheirs (get nat_cmp calls.now) (map T.recorded records.now) }
    requires ticks { AreTicks (λ m. contains nat_cmp ticks.now m) (map T.recorded records.now) }
    ensures { result ≡ judge.is_own (map T.recorded records.now) note.now }
{
    match &note.said {
        Said::Begin { call, client, op } => {
            is_kept(calls, *call, *client, op) || have_asked(records, *call, *client, op)
        }
        Said::Now { moment } => ticks.contains(moment) || have_ticked(records, *moment),
        _ => true,
    }
}

/// Whether the call is kept, as the client's and with what it asks.
fn is_kept<'a>(calls: &BTreeMap<u64, Begun<'a>>, call: u64, client: u8, op: &Op) -> bool
    ensures { (records : List Did) → AreTheirs (get nat_cmp calls.now) records → result ≡ true → list_any (judge.has_asked call client (op_of op.now)) records ≡ true }
{
    match calls.get(&call) {
        Some(begun) => begun.client == client && is_op(begun.op, op),
        None => false,
    }
}

/// Whether some record has the call, by a search.
fn have_asked<T: Recorded>(records: &[T], call: u64, client: u8, op: &Op) -> bool
    ensures { result ≡ list_any (judge.has_asked call client (op_of op.now)) (map T.recorded records.now) }
{
    for who in records {
        if has_asked(who.record(), call, client, op) {
            return true;
        }
    }
    false
}

fn has_asked(did: &Record, call: u64, client: u8, op: &Op) -> bool
    ensures { result ≡ judge.has_asked call client (op_of op.now) did.now }
{
    did.client == client
        && (has_entry(did.entries.as_slice(), call, op)
            || has_open(did.open_calls.as_slice(), call, op))
}

fn has_entry(entries: &[Entry], call: u64, op: &Op) -> bool
    ensures { result ≡ judge.has_entry call (op_of op.now) entries.now }
{
    for entry in entries {
        if entry.call == call && is_op(&entry.op, op) {
            return true;
        }
    }
    false
}

fn has_open(calls: &[OpenCall], call: u64, op: &Op) -> bool
    ensures { result ≡ judge.has_open call (op_of op.now) calls.now }
{
    for left in calls {
        if left.call == call && is_op(&left.op, op) {
            return true;
        }
    }
    false
}

/// Whether some client moved the clock to this moment, by a search.
fn have_ticked<T: Recorded>(records: &[T], moment: u64) -> bool
    ensures { result ≡ list_any (judge.has_ticked moment) (map T.recorded records.now) }
{
    for who in records {
        if has_ticked(who.record().ticks.as_slice(), moment) {
            return true;
        }
    }
    false
}

fn has_ticked(ticks: &[u64], moment: u64) -> bool
    ensures { result ≡ list_any (λ tick. tick == moment) ticks.now }
{
    for tick in ticks {
        if *tick == moment {
            return true;
        }
    }
    false
}
