//! The check of a trace: each record that is refused, with its field and the cause.
#![tactic(auto)]

mod check;
mod fault;
mod header;
mod hint;
mod role;

pub use check::{CheckError, Found, Subject, check_trace};
pub use fault::push_cause;
