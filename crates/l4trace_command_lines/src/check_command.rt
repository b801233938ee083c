//! The subcommand `check` of the command line.

ghost use Rattle.std.specs.Prelude.{IfOk};
ghost use Rattle.l4trace_command_lines.specs.Task.{IsServed};

use crate::argument::{Argument, Kind, OPTION};
use crate::common::TRACE;
use crate::subcommand::Subcommand;
use crate::task::{Task, TaskError};
use clap::ArgMatches;
use std::alloc::Global;

const ABOUT: &str =
    "Checks a trace: tells of its header, and of each record that l4map refuses, the line and column, the field at fault and why.";

const EXAMPLE: &str = "Example: the second record has a prefix, the third an fpage between pages.

  printf 'l4map,1,2,18,1\\nsend,0,1,10,3008,c6\\naccess,1,0x3abc,r\\nunmap,0,0,10d7\\n' | l4trace check -
  -:3:10: record 2: BadRecord: the address is '0x3abc', not 1 to 8 hexadecimal digits; leave out the 0x
  -:4:11: record 3: Misaligned: fpage word 1 is 10d7: base 1000 is no multiple of the size, 8K; the next good base is 2000: 20d7
  3 records, 2 refused

Exit status: 0 no record is refused; 1 the header or a record is refused.";

static CHECK: Subcommand = Subcommand {
    name: "check",
    about: ABOUT,
    example: EXAMPLE,
    arguments: &[
        TRACE,
        Argument {
            name: "max",
            kind: Kind::Count,
            value: Some("N"),
            default: Some("100"),
            help: "How many refused records are told",
            ..OPTION
        },
    ],
};

/// The subcommand `check`.
// (A function of its own, since the table is large in the proof of whatever names it.)
pub fn check() -> &'static Subcommand {
    &CHECK
}

/// The task of the subcommand `check`.
pub fn check_task(alloc: Global, asked: &ArgMatches) -> Result<Task, TaskError>
    ensures { IfOk result IsServed }
{
    let trace = String::from_str(alloc, asked.get_str("trace").unwrap_or("-"))?;
    let most = asked.get_one::<u64>("max").unwrap_or(100);
    Ok(Task::Check { trace, most })
}
