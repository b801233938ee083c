//! Subcommands, as data.

use crate::argument::{Argument, arg_of};
use clap::Command;
use std::alloc::{AllocError, Global};

/// A subcommand.
#[derive(Clone, Copy)]
pub struct Subcommand {
    pub name: &'static str,
    pub about: &'static str,
    /// What stands below its help.
    pub example: &'static str,
    /// In the order in which the help names them.
    pub arguments: &'static [Argument],
}

/// A subcommand, as the parser takes it.
fn command_of<'a>(
    alloc: Global,
    subcommand: &'static Subcommand,
) -> Result<Command<'a>, AllocError> {
    let mut command = Command::new(alloc, subcommand.name)
        .about(subcommand.about)
        .after_help(subcommand.example);
    for argument in subcommand.arguments {
        command = command.arg(arg_of(alloc, argument)?)?;
    }
    Ok(command)
}

/// A command with subcommands.
pub fn with_subcommands<'a>(
    alloc: Global,
    mut command: Command<'a>,
    subcommands: &[&'static Subcommand],
) -> Result<Command<'a>, AllocError> {
    for subcommand in subcommands {
        command = command.subcommand(command_of(alloc, subcommand)?)?;
    }
    Ok(command)
}
