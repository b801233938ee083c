//! The command lines of l4trace: what is asked for, and why it is refused.
#![tactic(auto)]

mod argument;
mod check_command;
mod color_choice;
mod command_line;
mod common;
mod compare_command;
mod explain_command;
mod random_command;
mod show_command;
mod subcommand;
mod task;
mod why_command;
mod word_command;

pub use color_choice::ColorChoice;
pub use command_line::parse;
pub use task::{Task, TaskError};
