//! Paged devices of which nothing is promised but that they count their failures: any device, and what an operation on it
//! comes to; and digests of pages, by which a wrong answer of any device is told.
#![tactic(auto)]

mod checked;
mod device;
mod digest;
mod flashes;
mod operation;
mod table;
mod telling;

pub use checked::Checked;
pub use device::Device;
pub use digest::{Digest, SipHash, Undigested, states_stay_apart};
pub use operation::operate;
pub use table::known;
pub use telling::{Telling, Told};
