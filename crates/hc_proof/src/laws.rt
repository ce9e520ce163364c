// Each kind of step keeps what holds of the cache whatever the device answers. A function here does nothing: its contract is the law.
ghost use Rattle.hc_proof.specs.structure.Steps.{NewIsStructured, AllocateIsStructured, InsertIsStructured, AddIsStructured, DiscardIsStructured, FindIsStructured, RemoveIsStructured, ReplyIsStructured, TickIsStructured, WriterIsStructured, FillerIsStructured, ReclaimIsStructured, FinishIsStructured, EvictedNeverWaits, WaitingAddsAreOpen};

/// A new cache is structured.
pub fn new_is_structured()
    ensures { NewIsStructured }
{}

/// So is a cache in which room was made, and an item charged.
pub fn allocate_is_structured()
    ensures { AllocateIsStructured }
{}

/// In which an item was inserted, or replaced.
pub fn insert_is_structured()
    ensures { InsertIsStructured }
{}

/// In which an item was inserted where its key had none, or its add waits.
pub fn add_is_structured()
    ensures { AddIsStructured }
{}

/// In which a handle was given up.
pub fn discard_is_structured()
    ensures { DiscardIsStructured }
{}

/// In which a key was looked up, or its find waits.
pub fn find_is_structured()
    ensures { FindIsStructured }
{}

/// From which a key was removed.
pub fn remove_is_structured()
    ensures { RemoveIsStructured }
{}

/// Whose reply was taken.
pub fn reply_is_structured()
    ensures { ReplyIsStructured }
{}

/// Whose clock moved.
pub fn tick_is_structured()
    ensures { TickIsStructured }
{}

/// Whose writer took a page, a delete or a put.
pub fn writer_is_structured()
    ensures { WriterIsStructured }
{}

/// Whose filler took a fill.
pub fn filler_is_structured()
    ensures { FillerIsStructured }
{}

/// Of which a region was reclaimed.
pub fn reclaim_is_structured()
    ensures { ReclaimIsStructured }
{}

/// In which any result at all was handed in, under any number.
pub fn finish_is_structured()
    ensures { FinishIsStructured }
{}

/// As items leave for others, none of their keys waits for flash when its item leaves.
pub fn evicted_never_waits()
    ensures { EvictedNeverWaits }
{}

/// An add that waits is of the key that it waits for, and its charge is open.
pub fn waiting_adds_are_open()
    ensures { WaitingAddsAreOpen }
{}
