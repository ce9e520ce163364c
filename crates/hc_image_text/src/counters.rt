// The numbers of a cache that go on.
ghost use Rattle.std.specs.Prelude.{◌≡◌, ◌++◌, OnOk};
ghost use Rattle.hc_image_text.specs.Counting.{counters_bytes, counters_in as counters_in_seen};

use crate::numbers::put_number;
use byteorder::{BigEndian, ByteOrder};
use std::alloc::{AllocError, Allocator};

/// How many charges, jobs and calls there were, and the second that it is. They go on where a cache does.
#[derive(Clone, Copy, Debug, PartialEq, Eq)]
pub struct Counters {
    pub charges: u64,
    pub jobs: u64,
    pub calls: u64,
    pub clock: u64,
}

/// The counters go behind the bytes. Refused only when out of memory.
pub fn put_counters<A: Allocator + Clone>(
    out: &mut Vec<u8, A>,
    counters: Counters,
) -> Result<(), AllocError>
    ensures { OnOk result (out.new.items ≡ out.old.items ++ counters_bytes counters) }
{
    put_number(out, counters.charges)?;
    put_number(out, counters.jobs)?;
    put_number(out, counters.calls)?;
    put_number(out, counters.clock)
}

/// The counters that these bytes are. None where they are none.
#[must_use]
pub fn counters_in(bytes: &[u8]) -> Option<Counters>
    ensures { result ≡ counters_in_seen bytes.now }
{
    if bytes.len() != 32 {
        return None;
    }
    Some(Counters {
        charges: BigEndian::read_u64(&bytes[..8]),
        jobs: BigEndian::read_u64(&bytes[8..16]),
        calls: BigEndian::read_u64(&bytes[16..24]),
        clock: BigEndian::read_u64(&bytes[24..32]),
    })
}
