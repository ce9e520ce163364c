// Where a trace stands.
use hc_history::Counting;
use hc_player::Player;
use hc_types::Config;

/// Where a trace stands.
#[derive(Drop)]
pub enum State {
    /// These pools were given.
    Configuring(Config),
    /// The configuration has ended.
    Running(Player<Counting>),
}
