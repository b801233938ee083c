//! Traces made at random.
#![tactic(auto)]

mod accesses;
mod beliefs;
mod chains;
mod changes;
mod dice;
mod episodes;
mod items;
mod knots;
mod line;
mod plan;
mod random;
mod record_parts;
mod refusals;
mod sends;
mod shapes;
mod spoil;
mod traces;
mod unmaps;
mod wanted;

pub use plan::{Plan, Shape};
pub use random::{RandomError, write_random};
