//! The judge of logs, as tests that compute, and worked logs that it judges.
#![tactic(auto)]

ghost use Rattle.std.specs.Prelude.{List};
ghost use Rattle.std.specs.Bool.{Decides};
ghost use Rattle.hc_types.specs.Config.{Config};
ghost use Rattle.hc_history.specs.Note.{Note};
ghost use Rattle.hc_history.specs.Lawful.{Legal};
ghost use Rattle.hc_legal.specs.Judge.{is_legal};

/// The law of the judge: its test holds exactly of the legal logs. It does nothing when it runs.
pub fn judged()
    ensures { (config : Config) (log : List Note) → Decides (is_legal config log) (Legal config log) }
{}
