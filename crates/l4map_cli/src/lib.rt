//! The command line of l4map, and what is told of its errors.
#![tactic(auto)]

mod command_line;
mod error;

pub use command_line::{OptionsError, parse};
pub use error::{status, tell};
