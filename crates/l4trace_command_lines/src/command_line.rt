//! The command line.

ghost use Rattle.std.specs.Prelude.{IfOk};
ghost use Rattle.l4trace_command_lines.specs.Task.{IsServed};

use crate::check_command::{check, check_task};
use crate::compare_command::{compare, compare_task};
use crate::explain_command::{explain, explain_task};
use crate::random_command::{random, random_task};
use crate::show_command::{show, show_task};
use crate::subcommand::{Subcommand, with_subcommands};
use crate::task::{Task, TaskError, refused};
use crate::why_command::{why, why_task};
use crate::word_command::{word, word_task};
use clap::error::ErrorKind;
use clap::{Command, Error};
use std::alloc::{AllocError, Global};
use std::fmt::Write;

const ABOUT: &str =
    "Explains the words of a trace of calls on an L4 mapping database, makes such words, checks and explains traces, shows what they hold and why, makes some at random, and compares the answers to them with those of l4map.";

const EXAMPLE: &str =
    "Words, bases and addresses are hexadecimal; pages, spaces, sizes and bits are decimal.

Exit status: 0 done, and nothing was found; 1 a refused record or a difference was found; 2 the command line was refused, the header of a trace that is not checked is bad, or the trace has no such record, space, frame or page; 3 out of memory, or no thread could be started; 4 a read or a write failed.";

/// The subcommands, in the order in which the help names them.
fn subcommands() -> [&'static Subcommand; 7] {
    [
        word(),
        check(),
        explain(),
        show(),
        why(),
        random(),
        compare(),
    ]
}

/// The command line of the program.
fn command<'a>(alloc: Global) -> Result<Command<'a>, AllocError> {
    let command = Command::new(alloc, "l4trace")
        .version("0.1.0")
        .about(ABOUT)
        .after_help(EXAMPLE)
        .subcommand_required(true);
    with_subcommands(alloc, command, &subcommands())
}

/// Reads a command line, the program's name first.
pub fn parse<'a>(alloc: Global, words: &'a [&'a str]) -> Result<Task, TaskError>
    ensures { IfOk result IsServed }
{
    let parsed = command(alloc)?.try_get_matches_from(words);
    match parsed {
        Ok(matches) => match matches.subcommand() {
            Some(("word", asked)) => word_task(alloc, asked),
            Some(("check", asked)) => check_task(alloc, asked),
            Some(("explain", asked)) => explain_task(alloc, asked),
            Some(("show", asked)) => show_task(alloc, asked),
            Some(("why", asked)) => why_task(alloc, asked),
            Some(("random", asked)) => random_task(alloc, asked),
            Some((_, asked)) => compare_task(alloc, asked),
            None => Err(refused(alloc, "no subcommand is named")),
        },
        Err(error) => Err(fault(alloc, &error)),
    }
}

/// What the parser says, as an error of the task.
fn fault(alloc: Global, error: &Error) -> TaskError {
    if error.kind() == ErrorKind::OutOfMemory {
        return TaskError::NoMemory;
    }
    let mut text = String::new(alloc);
    if write!(text, "{error}").is_err() {
        return TaskError::NoMemory;
    }
    if error.use_stderr() {
        TaskError::Refused(text)
    } else {
        TaskError::Help(text)
    }
}
