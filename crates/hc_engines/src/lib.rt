//! The engines on flash as pure machines: what they are asked and answer, BigHash for small objects, BlockCache for large ones, and
//! both as one; and the types in which code asks and answers it. The functions of the modules `.._laws` do nothing, and their
//! contracts are the laws.
#![tactic(auto)]

pub mod bloom;
pub mod large_laws;
mod ops;
pub mod pair_laws;
mod shared_page;
mod shown;
pub mod small_laws;
mod unresumed;

pub use ops::{Answer, Loss, Next, Op, Outcome, SharedOrder};
pub use shared_page::SharedPage;
pub use unresumed::Unresumed;
