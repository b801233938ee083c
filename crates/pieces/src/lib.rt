//! The work of a phase in pieces: parts of trees to be stripped, mappings to be linked, pages to be moved, accesses to be
//! made; and what the pieces found out, gathered.
#![tactic(auto)]

mod changes;
mod cutting;
mod distinct;
mod done;
mod gathering;
mod laws;
mod link;
mod masks;
mod moving;
mod nodes;
mod piece;
mod readiness;
mod runs;
mod shedding;
pub mod steps;
mod strip;
mod touch;
mod worked;

pub use changes::{changed_indexes, changed_words};
pub use cutting::{links, moves, touches};
pub use distinct::are_distinct;
pub use done::Done;
pub use gathering::{GatherError, GatherFault, Gathered, gather};
pub use laws::{gathered_values, pieces_in_turn, steps_apart, words_after_steps, work_in_pieces};
pub use link::{Link, Store};
pub use masks::Masks;
pub use moving::{Move, Pair};
pub use nodes::move_node;
pub use piece::{Piece, learn_are_pieces};
pub use readiness::can_be_worked;
pub use runs::{FrameRuns, Runs, StripPlan};
pub use shedding::Shedding;
pub use strip::Strip;
pub use touch::{Touch, WordAccess};
pub use worked::rows_of_pieces;
