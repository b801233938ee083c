//! How far a run has come, told on a terminal.
#![tactic(auto)]

mod line;

pub use line::Progress;
