//! The memory of the cache: pools of items, each with the order of their use, what each pool is charged, and the
//! handles through which items are written and read.
#![tactic(auto)]

mod answers;
mod bring;
mod builder;
mod clean;
mod fill;
mod groups;
mod handles;
mod item;
mod links;
mod marks;
mod open;
mod parked;
mod pool;
mod pools;
mod resting;
mod shown;
mod storing;
mod unmark;
mod usage;
mod value;

pub use answers::{Brought, Charged, Uncharged};
pub use builder::{Misfit, NotRestored, PoolsBuilder};
pub use fill::Fill;
pub use handles::{Blank, ReadHandle, Sealed, each_byte};
pub use item::{Item, is_expired};
pub use parked::Parked;
pub use pool::Glance;
pub use pools::Pools;
pub use usage::{PoolUsage, Usage};
pub use value::ItemValue;
