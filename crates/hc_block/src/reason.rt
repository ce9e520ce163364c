// Why parts are refused.
use std::error::Error;
use std::fmt;

/// Why parts that were handed in make no engine: want of memory, or the first test, in this order, that they don't pass.
#[derive(Clone, Copy, Debug, PartialEq, Eq)]
pub enum Reason {
    /// Memory was refused. The parts may be those of an engine at rest.
    NoMemory,
    /// There are more or fewer regions than the configuration has.
    Count,
    /// A region isn't at rest, is filled beyond its bytes, or has entries out of order.
    Region,
    /// What is named as the open region is none.
    Current,
    /// What waits for its flush is no sealed region, or waits twice.
    Sealed,
    /// What is listed as on flash isn't, or is listed twice.
    Flushed,
    /// A hash leads where no large entry of that hash was appended.
    Index,
}

impl fmt::Display for Reason {
    fn fmt<W: fmt::Write>(&self, f: &mut fmt::Formatter<W>) -> fmt::Result {
        f.write_str(match self {
            Reason::NoMemory => "out of memory",
            Reason::Count => "as many regions as the configuration has were wanted",
            Reason::Region => "a region isn't at rest, or isn't as one can be",
            Reason::Current => "the open region isn't open",
            Reason::Sealed => "a region that waits for its flush isn't sealed, or waits twice",
            Reason::Flushed => "a region isn't on flash, or is listed twice",
            Reason::Index => "a hash leads to no large entry",
        })
    }
}

impl Error for Reason {}
