//! The subcommand `explain` of the command line.

ghost use Rattle.std.specs.Prelude.{IfOk};
ghost use Rattle.l4trace_command_lines.specs.Task.{IsServed};

use crate::argument::{Argument, Kind, OPTION};
use crate::common::TRACE;
use crate::subcommand::Subcommand;
use crate::task::{Task, TaskError};
use clap::ArgMatches;
use std::alloc::Global;

const ABOUT: &str =
    "Explains a trace in sentences: what its header says, what each record asks for, and what its reply says, or why it is refused.";

const EXAMPLE: &str = "Example:

  l4trace explain examples/first-six-records.csv --at 5
  record 5, examples/first-six-records.csv:6: unmap,0,0,c1
    space 0 takes from all that derives from its pages: --x of page 0
    5 unmap 000000c4: the status found is R-- of page 0

The status that is found is what was seen of the pages and of all that derives from them since it was last cleared.";

static EXPLAIN: Subcommand = Subcommand {
    name: "explain",
    about: ABOUT,
    example: EXAMPLE,
    arguments: &[
        TRACE,
        Argument {
            name: "at",
            kind: Kind::Count,
            value: Some("N"),
            help: "Only this record, 0 for the header",
            ..OPTION
        },
        Argument {
            name: "max",
            kind: Kind::Count,
            value: Some("N"),
            default: Some("1000"),
            help: "How many records are explained",
            ..OPTION
        },
    ],
};

/// The subcommand `explain`.
// (A function of its own, since the table is large in the proof of whatever names it.)
pub fn explain() -> &'static Subcommand {
    &EXPLAIN
}

/// The task of the subcommand `explain`.
pub fn explain_task(alloc: Global, asked: &ArgMatches) -> Result<Task, TaskError>
    ensures { IfOk result IsServed }
{
    let trace = String::from_str(alloc, asked.get_str("trace").unwrap_or("-"))?;
    Ok(Task::Sentences {
        trace,
        at: asked.get_one::<u64>("at"),
        most: asked.get_one::<u64>("max").unwrap_or(1000),
    })
}
