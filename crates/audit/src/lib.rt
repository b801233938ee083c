//! The audit of a mapping database: a line for each mapping, by rising place, and a check of such lines.
#![tactic(auto)]

mod audit;
mod backward;
mod checker;
mod error;
mod line;
mod parts;

pub use audit::{check_database, lines, report};
pub use checker::check;
pub use error::AuditError;
pub use line::Line;
pub use parts::Report;
