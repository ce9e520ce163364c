// What is asked of a cache in a schedule, and what is answered.
use bytes::Bytes;
use hc_flash::IoResult;
use hc_history::Reply;
use hc_nvm::Take;
use hc_types::{Key, Refusal};
use std::alloc::{Allocator, Global};
use std::marker::Model;

/// What a step of a schedule asks for. A write handle waits in one of 256 slots until it is spent, and the result of a device
/// operation until it is handed in.
#[derive(Drop)]
pub enum Request<A: Allocator = Global> {
    /// To allocate an item in the pool and to write the value into it. It is to expire `ttl` seconds from now (0: never).
    /// Its handle fills the slot, which must be empty.
    Open {
        slot: u8,
        pool: u8,
        key: Key<A>,
        value: Bytes<A>,
        ttl: u32,
    },
    /// To insert the item of the slot's handle, in place of the key's item where there is one. The slot must be filled,
    /// and is empty then.
    Put {
        slot: u8,
    },
    /// The same where the key has no unexpired value; where it has one, the handle stays in its slot.
    PutNew {
        slot: u8,
    },
    /// To give up the item of the slot's handle. The slot must be filled, and is empty then.
    Discard {
        slot: u8,
    },
    Find {
        key: Key<A>,
    },
    Remove {
        key: Key<A>,
    },
    /// To take the reply of the call that waited.
    Reply {
        call: u64,
    },
    /// To move the clock on to this moment (seconds).
    Tick {
        moment: u64,
    },
    /// The writer takes what is next.
    WriterTake,
    /// The filler takes what is next.
    FillerTake,
    /// To give up the region that was written first, where too few are clean.
    Reclaim,
    /// To make the device operation for which the job waits. Where the step fails it, it doesn't reach the device.
    Io {
        job: u64,
        fails: bool,
    },
    /// To hand in the result of the job's operation.
    Finish {
        job: u64,
    },
}

/// A step of a schedule: a client's, or a worker's, where the client says nothing.
#[derive(Drop)]
pub struct Step<A: Allocator = Global> {
    pub client: u8,
    pub request: Request<A>,
}

impl<A: Allocator> Model for Step<A> {
    ghost use Rattle.hc_machine.specs.Schedule.{Step as Meaning};

    ghost Value = { Meaning };

    ghost use Rattle.hc_run.specs.Asked.{deed_of};

    ghost view = { λ s. record { client = s.client; deed = deed_of s.request } };
}

/// What comes of a step.
#[derive(Drop)]
pub enum Outcome<A: Allocator = Global> {
    /// The reply of a client's call.
    Replied(Reply<A>),
    /// The client's call with this number waits.
    Waits(u64),
    /// Nothing changed.
    Refused(Refusal),
    /// The slot is filled and should be empty, or is empty and should be filled. Nothing changed.
    NoSlot,
    /// The slot is filled.
    Filled,
    /// The slot is empty.
    Discarded,
    /// The moment that holds (seconds).
    Moment(u64),
    /// What a worker has to do next.
    Took(Take<A>),
    /// The region that was given up, if one was.
    Reclaimed(Option<u32>),
    /// What came of a device operation, and how often the device has failed by itself since the first step.
    Made(IoResult<A>, u64),
}

/// What a step was answered.
#[derive(Drop)]
pub struct Answer<A: Allocator = Global> {
    pub outcome: Outcome<A>,
}

impl<A: Allocator> Model for Answer<A> {
    ghost use Rattle.hc_machine.specs.Schedule.{Told};

    ghost Value = { Told };

    ghost use Rattle.hc_run.specs.Asked.{told_of};

    ghost view = { λ a. told_of a.outcome };
}
