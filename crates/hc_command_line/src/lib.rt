//! The command line of `hc_replay`: by how many clients it asks for the replay (docs/FORMATS.md).
#![tactic(auto)]

mod asked;

pub use crate::asked::{Unread, clients, clients_in};
