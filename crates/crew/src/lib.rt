//! Workers, who work the pieces of a phase.
#![tactic(auto)]

mod alone;
mod change;
mod crew;
mod dealing;
mod error;
mod gate;
mod hand;
mod observe;
mod own_deque;
mod plan;
mod settling;
mod shared;
mod shared_state;
mod team;
mod watched;
mod worker;
mod workers;

pub use crew::Crew;
pub use error::CrewError;
pub use gate::{Gate, NoGate};
pub use observe::Observe;
pub use shared::work;
pub use watched::work_watched;
pub use workers::{Alone, Changed, Planned, Workers};
