//! The subcommand `compare` of the command line.

ghost use Rattle.std.specs.Prelude.{IfOk};
ghost use Rattle.l4trace_command_lines.specs.Task.{IsServed};

use crate::argument::{Argument, Kind, OPTION};
use crate::common::{COLOR, TRACE, asked_color};
use crate::subcommand::Subcommand;
use crate::task::{Task, TaskError, refused, refused_value};
use clap::ArgMatches;
use l4trace_texts::{CompareOptions, Scope};
use std::alloc::Global;

const ABOUT: &str =
    "Compares the answers of another implementation, in the form of l4map's output, with those of l4map, and tells the first difference: the line of each, the record and what it changes. With --all it tells each difference, with the record.";

const EXAMPLE: &str = "Example: a kernel's answers say that the page was written, too.

  l4trace compare trace.csv answers.txt
  first difference: line 3
    l4map:   3 unmap 000000c4
    answers: 3 unmap 000000c6
    record 3, trace.csv:4: unmap,0,0,c2
    it changes these mappings:
      - 1,3,0,rw-,R--,0:0
      + 1,3,0,r--,---,0:0
  the trees before and after it:
  frame 0
    0:0 rwx ---    |   0:0 rwx ---
  * └─ 1:3 rw- R-- | * └─ 1:3 r-- ---

Lines that differ in their form alone, as by a carriage return, are told to do so, and comments too. Where nothing differs, it tells how many lines were compared: no difference in 6 lines.

Exit status: 0 no difference; 1 a difference, or no line was compared.";

static COMPARE: Subcommand = Subcommand {
    name: "compare",
    about: ABOUT,
    example: EXAMPLE,
    arguments: &[
        TRACE,
        Argument {
            name: "answers",
            kind: Kind::Operand,
            value: Some("ANSWERS"),
            is_required: true,
            help: "The answers, a file, or - for standard input",
            ..OPTION
        },
        Argument {
            name: "audit",
            kind: Kind::Flag,
            conflicts: &["part"],
            help: "Compare the audits alone",
            ..OPTION
        },
        Argument {
            name: "part",
            kind: Kind::Flag,
            help: "Compare only the lines that the answers have: replies by number, mappings by page",
            ..OPTION
        },
        Argument {
            name: "at",
            kind: Kind::Count,
            value: Some("N"),
            help: "Compare the answers to this many records of the trace; to all if it is not given",
            ..OPTION
        },
        Argument {
            name: "ignore",
            value: Some("WHAT"),
            help: "What does not count: status, which is then shown as none",
            ..OPTION
        },
        Argument {
            name: "all",
            kind: Kind::Flag,
            help: "Tell every difference, and how many there are",
            ..OPTION
        },
        Argument {
            name: "max",
            kind: Kind::Count,
            value: Some("N"),
            default: Some("1000"),
            help: "How many mappings are drawn; with --all how many differences are told",
            ..OPTION
        },
        COLOR,
    ],
};

/// The subcommand `compare`.
// (A function of its own, since the table is large in the proof of whatever names it.)
pub fn compare() -> &'static Subcommand {
    &COMPARE
}

/// The task of the subcommand `compare`.
pub fn compare_task(alloc: Global, asked: &ArgMatches) -> Result<Task, TaskError>
    ensures { IfOk result IsServed }
{
    let trace = String::from_str(alloc, asked.get_str("trace").unwrap_or("-"))?;
    let answers = String::from_str(alloc, asked.get_str("answers").unwrap_or("-"))?;
    if trace.as_str() == "-" && answers.as_str() == "-" {
        return Err(refused(
            alloc,
            "the trace and the answers cannot both be standard input",
        ));
    }
    let color = asked_color(alloc, asked)?;
    let options = CompareOptions {
        scope: scope_of(asked),
        ignores_status: ignores_status(alloc, asked)?,
        tells_all: asked.get_flag("all"),
        most: asked.get_one::<u64>("max").unwrap_or(1000),
    };
    Ok(Task::Compare {
        trace,
        answers,
        at: asked.get_one::<u64>("at"),
        options,
        color,
    })
}

/// Whether status is not to count.
fn ignores_status(alloc: Global, asked: &ArgMatches) -> Result<bool, TaskError> {
    match asked.get_str("ignore") {
        None => Ok(false),
        Some("status") => Ok(true),
        Some(other) => Err(refused_value(alloc, other, "status")),
    }
}

/// Which lines of the answers are to be compared.
fn scope_of(asked: &ArgMatches) -> Scope {
    if asked.get_flag("audit") {
        Scope::Audit
    } else if asked.get_flag("part") {
        Scope::Part
    } else {
        Scope::Whole
    }
}
