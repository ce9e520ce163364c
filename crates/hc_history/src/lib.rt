//! The log: its notes, and whom they are told.
#![tactic(auto)]

mod losses;
mod note;
mod notes;
mod shown;
mod stats;
mod totals;

ghost use Rattle.std.specs.Prelude.{List};
ghost use Rattle.hc_types.specs.Config.{Config};
ghost use Rattle.hc_history.specs.Note.{Note as Meaning};
ghost use Rattle.hc_history.specs.Lawful.{ExtendsLegal};

pub use losses::{Losses, Reason};
pub use note::{Note, Op, Reply, Said, Says};
pub use notes::{Counting, Kept, Listener, Notes, Silent, tell_loss};
pub use stats::{Kind, Stats};
pub use totals::Totals;

/// The law by which a step extends a legal log: where its notes are lawful by the books of the log, and what holds
/// between two steps holds after them, the log with them is legal. It does nothing when it runs.
pub fn extends()
    ensures { (config : Config) (log part : List Meaning) → ExtendsLegal config log part }
{}
