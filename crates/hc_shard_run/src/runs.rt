// Steps of all shards over one device.
ghost use Rattle.std.specs.Prelude.{◌≡◌, ◌⊎◌, ◌+◌, ◌*◌, ◌≤◌, ◌++◌, ◌∷◌, [], ℕ, List, None, Some, length, map, ◌<◌, vec_len, vec_capacity, IfOk, IfErr, IfSome, OnOk};
ghost use Rattle.std.specs.List.{slice_get};
ghost use Rattle.hc_engines.specs.Engine.{Pages};
ghost use Rattle.hc_run.specs.Laws.{Promised};
ghost use Rattle.hc_shards.specs.Shards.{pages_of, share_of, sharded_wrong};
ghost use Rattle.hc_shard_laws.specs.OwnKeys.{ShardStep as Meaning, OwnKeys, steps_of};
ghost use Rattle.hc_shard_run.specs.Lanes.{AreEnds, AreLanes, AreOwnLanes, Others, failures_of};
ghost use Rattle.hc_shard_run.specs.Ran.{RunsAlone, told_failures, window_of};
ghost use Rattle.hc_shard_run.specs.Steps.{refusal_of};
ghost use Rattle.hc_run.specs.Shows.{seen};
ghost use Rattle.hc_types.specs.Tally.{tally};

use crate::lane::Lane;
use crate::steps::{ShardStep, is_taken};
use hc_flash::Flash;
use hc_history::Kept;
use hc_run::{Answer, Window};
use hc_shards::Sharded;
use hc_types::{Config, Refusal};
use std::alloc::{Allocator, Global};
use std::marker::Model;

/// What one shard leaves: its log, the answers to its own steps, in order, and where each step's part ends in the log.
/// Where there was no memory for one of them, `stopped` is how many were made before it. At the end of the log, what still
/// fills a slot is given up.
#[derive(Drop)]
pub struct RanShard<A: Allocator = Global> {
    pub log: Kept<A>,
    pub ends: Vec<usize, A>,
    pub answers: Vec<Answer<A>, A>,
    pub stopped: Option<usize>,
}

impl<A: Allocator> Model for RanShard<A> {
    ghost use Rattle.hc_shard_run.specs.Ran.{RanShard as Meaning};

    ghost Value = { Meaning };

    ghost view = { λ r. record { log = r.log.notes.items; ends = r.ends.items; answers = r.answers.items; stopped = r.stopped } };
}

/// A run of shards: what each leaves, from shard 0 on; for each step of the list why it wasn't made, if it was
/// refused; and the device.
#[derive(Drop)]
pub struct RanShards<D: Flash<A>, A: Allocator = Global> {
    pub shards: Vec<RanShard<A>, A>,
    pub refused: Vec<Option<Refusal>, A>,
    pub device: D,
}

/// The shard's pages of the device.
fn window_at<A: Allocator>(sharded: &Sharded<A>, shard: u8) -> Window
    requires right { sharded_wrong sharded.now ≡ None }
    requires shard { shard < sharded.now.shards }
    ensures { result ≡ window_of sharded.now shard }
{
    Window::new(sharded.first_page(shard), sharded.pages())
}

/// What each of the shards leaves. There is room for it.
fn end_all<A: Allocator + Clone + Copy>(lanes: Vec<Lane<A>, A>, ran: &mut Vec<RanShard<A>, A>)
    requires own { AreOwnLanes lanes.items }
    requires none { (ran.old.items ≡ []) × (vec_len ran.old ≡ 0) }
    requires room { length lanes.items ≤ vec_capacity ran.old }
    ensures { AreEnds lanes.items ran.new.items }
{
    let mut left = lanes.into_iter();
    while let Some(lane) = left.next() {
        ran.push_reserved(lane.end());
    }
    left.destroy_empty();
}

/// Gives the shards up.
fn give_up<A: Allocator + Clone + Copy>(lanes: Vec<Lane<A>, A>)
    requires own { AreOwnLanes lanes.items }
{
    let mut left = lanes.into_iter();
    while let Some(lane) = left.next() {
        drop(lane.end());
    }
    left.destroy_empty();
}

/// A lane more for each shard, each of which has made no step yet. When out of memory, those that are there stay.
fn push_all<A: Allocator + Clone + Copy>(
    alloc: A,
    sharded: &Sharded<A>,
    share: &Config<A>,
    lanes: &mut Vec<Lane<A>, A>,
) -> Result<(), Refusal>
    requires right { sharded_wrong sharded.now ≡ None }
    requires share { share.now ≡ share_of sharded.now }
    requires none { (lanes.old.items ≡ []) × (vec_len lanes.old ≡ 0) }
    requires room { sharded.now.shards ≤ vec_capacity lanes.old }
    ensures lanes { (held : Pages) → AreLanes sharded.now held [] lanes.new.items }
    ensures many { OnOk result (length lanes.new.items ≡ sharded.now.shards) }
    ensures failures { failures_of lanes.new.items ≡ 0 }
    ensures err { IfErr result (λ refusal. refusal ≡ Refusal.NoMemory) }
{
    for shard in 0..sharded.shards {
        match Lane::new(alloc, share, window_at(sharded, shard)) {
            Ok(lane) => lanes.push_reserved(lane),
            Err(_) => return Err(Refusal::NoMemory),
        }
    }
    Ok(())
}

/// A lane for each shard, each of which has made no step yet. Refused when out of memory.
fn new_lanes<A: Allocator + Clone + Copy>(
    alloc: A,
    sharded: &Sharded<A>,
) -> Result<Vec<Lane<A>, A>, Refusal>
    requires right { sharded_wrong sharded.now ≡ None }
    ensures lanes { IfOk result (λ lanes. (held : Pages) → AreLanes sharded.now held [] lanes.items) }
    ensures many { IfOk result (λ lanes. length lanes.items ≡ sharded.now.shards) }
    ensures failures { IfOk result (λ lanes. failures_of lanes.items ≡ 0) }
    ensures err { IfErr result (λ refusal. refusal ≡ Refusal.NoMemory) }
{
    let Ok(share) = sharded.share(alloc) else {
        return Err(Refusal::NoMemory);
    };
    let Ok(mut lanes) = Vec::with_capacity(alloc, usize::from(sharded.shards)) else {
        return Err(Refusal::NoMemory);
    };
    match push_all(alloc, sharded, &share, &mut lanes) {
        Ok(()) => Ok(lanes),
        Err(_) => {
            give_up(lanes);
            Err(Refusal::NoMemory)
        }
    }
}

/// One step of the list: its shard makes it, unless it is refused.
fn turn<D: Flash<A>, A: Allocator + Clone + Copy>(
    lanes: &mut Vec<Lane<A>, A>,
    device: &mut D,
    sharded: &Sharded<A>,
    one: &ShardStep<A>,
) -> Option<Refusal>
    requires right { sharded_wrong sharded.now ≡ None }
    requires many { length lanes.old.items ≡ sharded.now.shards }
    requires own { AreOwnLanes lanes.old.items }
    ensures lanes { (steps : List Meaning) → AreLanes sharded.now (D.held device.old) steps lanes.old.items → AreLanes sharded.now (D.held device.new) (steps ++ one.now ∷ []) lanes.new.items }
    ensures many { length lanes.new.items ≡ length lanes.old.items }
    ensures others { (steps : List Meaning) → AreLanes sharded.now (D.held device.old) steps lanes.old.items → Others sharded.now (D.held device.old) (D.held device.new) }
    ensures counted { D.failed device.new + failures_of lanes.old.items ≤ D.failed device.old + failures_of lanes.new.items }
    ensures refused { result ≡ refusal_of sharded.now.shards one.now }
{
    if !is_taken(sharded, one) {
        return Some(Refusal::WrongShard);
    }
    let lane = &mut lanes[usize::from(one.shard)];
    lane.turn(device, &one.step);
    None
}

/// All steps of the list, in order. There is room for their refusals.
fn go_through<D: Flash<A>, A: Allocator + Clone + Copy>(
    lanes: &mut Vec<Lane<A>, A>,
    device: &mut D,
    sharded: &Sharded<A>,
    steps: &[ShardStep<A>],
    refusals: &mut Vec<Option<Refusal>, A>,
)
    requires right { sharded_wrong sharded.now ≡ None }
    requires many { length lanes.old.items ≡ sharded.now.shards }
    requires lanes { AreLanes sharded.now (D.held device.old) [] lanes.old.items }
    requires none { (refusals.old.items ≡ []) × (vec_len refusals.old ≡ 0) }
    requires room { length steps.now ≤ vec_capacity refusals.old }
    ensures lanes { AreLanes sharded.now (D.held device.new) steps.now lanes.new.items }
    ensures many { length lanes.new.items ≡ length lanes.old.items }
    ensures others { Others sharded.now (D.held device.old) (D.held device.new) }
    ensures counted { D.failed device.new + failures_of lanes.old.items ≤ D.failed device.old + failures_of lanes.new.items }
    ensures refused { refusals.new.items ≡ map (refusal_of sharded.now.shards) steps.now }
{
    for one in steps {
        refusals.push_reserved(turn(lanes, device, sharded, one));
    }
}

/// Makes any list of steps of all shards, in order, each by the cache of its shard, over one device of which each
/// shard has pages of its own, and of which nothing is known yet. A step that names a key of another shard, or is for
/// a shard that there isn't, is refused with `WrongShard` and changes nothing; a shard for whose step there is no memory
/// stops before it, and the others go on. What each shard leaves is what a run of its own steps by themselves leaves:
/// its log is legal, honest, and follows them, its calls are of its own keys, and its pages of the device are as that
/// run left them; the device may fail whichever of its operations. Refused as `Sharded::check` refuses, and with
/// `NoMemory` where there is no memory for the caches or for the refusals of the steps; then the device is dropped.
pub fn run_shards<D: Flash<A>, A: Allocator + Clone + Copy>(
    alloc: A,
    sharded: &Sharded<A>,
    mut device: D,
    steps: &[ShardStep<A>],
) -> Result<RanShards<D, A>, Refusal>
    ensures count { IfOk result (λ all. length all.shards.items ≡ sharded.now.shards) }
    ensures promised { IfOk result (λ all. (k : ℕ) → IfSome (slice_get all.shards.items k) (λ ran. Promised (share_of sharded.now) (steps_of sharded.now.shards k steps.now) ran.answers ran.ends ran.log ran.stopped)) }
    ensures alone { IfOk result (λ all. (k : ℕ) → IfSome (slice_get all.shards.items k) (λ ran. RunsAlone (share_of sharded.now) (steps_of sharded.now.shards k steps.now) ran (seen (window_of sharded.now k) (D.held all.device)))) }
    ensures own { IfOk result (λ all. (k : ℕ) → IfSome (slice_get all.shards.items k) (λ ran. OwnKeys sharded.now.shards k ran.log)) }
    ensures refused { IfOk result (λ all. all.refused.items ≡ map (refusal_of sharded.now.shards) steps.now) }
    ensures others { IfOk result (λ all. Others sharded.now (D.held device) (D.held all.device)) }
    ensures failures { IfOk result (λ all. D.failed all.device ≤ D.failed device + tally told_failures all.shards.items) }
    ensures fits { OnOk result (sharded_wrong sharded.now ≡ None) }
    ensures err { IfErr result (λ refusal. (sharded_wrong sharded.now ≡ Some refusal) ⊎ ((sharded_wrong sharded.now ≡ None) × (refusal ≡ Refusal.NoMemory))) }
{
    if let Err(refusal) = sharded.check() {
        return Err(refusal);
    }
    let Ok(mut refused) = Vec::with_capacity(alloc, steps.len()) else {
        return Err(Refusal::NoMemory);
    };
    let Ok(mut shards) = Vec::with_capacity(alloc, usize::from(sharded.shards)) else {
        return Err(Refusal::NoMemory);
    };
    let mut lanes = new_lanes(alloc, sharded)?;
    go_through(&mut lanes, &mut device, sharded, steps, &mut refused);
    end_all(lanes, &mut shards);
    Ok(RanShards {
        shards,
        refused,
        device,
    })
}
