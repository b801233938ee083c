//! The subcommand `show` of the command line.

ghost use Rattle.std.specs.Prelude.{IfOk};
ghost use Rattle.l4trace_command_lines.specs.Task.{IsServed};

use crate::argument::{Argument, Kind, OPTION};
use crate::common::{AT, COLOR, MAX, TRACE, asked_color};
use crate::subcommand::Subcommand;
use crate::task::{Task, TaskError};
use clap::ArgMatches;
use l4trace_drawings::{Form, View};
use std::alloc::Global;

const ABOUT: &str =
    "Shows what is held after a record of a trace: the derivation tree of each frame, each page with its rights and its status, and what the record changed. A page that is new has +, one that differs *, one that is no longer held -.";

const EXAMPLE: &str = "Example:

  l4trace show examples/first-six-records.csv --at 2
  after record 2, examples/first-six-records.csv:3: send,1,2,10,4008,c5
  reply: 2 send absent=0 norights=0 origin=0 lost=0 extended=0 linked=1
  frame 0
    0:0 rwx ---
    └─ 1:0 rwx ---
  +    └─ 2:4 r-x ---
  frame 1
    0:1 rwx ---

Pages are space:page, both decimal. Rights are r, w and x; the status is R, W and X, what was seen of the page since it was last cleared.";

/// A number of a frame or of a space.
const ANY: Kind = Kind::Number {
    least: 0,
    most: u32::MAX,
};

static SHOW: Subcommand = Subcommand {
    name: "show",
    about: ABOUT,
    example: EXAMPLE,
    arguments: &[
        TRACE,
        AT,
        Argument {
            name: "frame",
            kind: ANY,
            value: Some("N"),
            help: "Only this frame",
            ..OPTION
        },
        Argument {
            name: "space",
            kind: ANY,
            value: Some("N"),
            help: "The pages of this space, as a table",
            ..OPTION
        },
        Argument {
            name: "diff",
            kind: Kind::Flag,
            conflicts: &["space"],
            help: "The trees that the record changed, before and after side by side",
            ..OPTION
        },
        Argument {
            name: "dot",
            kind: Kind::Flag,
            conflicts: &["space", "diff"],
            help: "The trees in the language of Graphviz",
            ..OPTION
        },
        Argument {
            name: "svg",
            kind: Kind::Flag,
            conflicts: &["space", "dot"],
            help: "The trees as a picture that a browser shows; with --diff before and after side by side",
            ..OPTION
        },
        Argument {
            name: "audit",
            kind: Kind::Flag,
            conflicts: &["frame", "space", "diff", "dot", "svg"],
            help: "The whole audit, in the form of l4map's output",
            ..OPTION
        },
        MAX,
        COLOR,
    ],
};

/// The subcommand `show`.
// (A function of its own, since the table is large in the proof of whatever names it.)
pub fn show() -> &'static Subcommand {
    &SHOW
}

/// How trees are to be drawn.
fn form_of(asked: &ArgMatches) -> Form {
    if asked.get_flag("diff") && asked.get_flag("svg") {
        Form::Pair
    } else if asked.get_flag("diff") {
        Form::Diff
    } else if asked.get_flag("dot") {
        Form::Dot
    } else if asked.get_flag("svg") {
        Form::Svg
    } else {
        Form::Text
    }
}

/// The task of the subcommand `show`.
pub fn show_task(alloc: Global, asked: &ArgMatches) -> Result<Task, TaskError>
    ensures { IfOk result IsServed }
{
    let trace = String::from_str(alloc, asked.get_str("trace").unwrap_or("-"))?;
    let at = asked.get_one::<u64>("at");
    if asked.get_flag("audit") {
        return Ok(Task::Audit { trace, at });
    }
    let view = View {
        at,
        frame: asked.get_one::<u32>("frame"),
        space: asked.get_one::<u32>("space"),
        form: form_of(asked),
        most: asked.get_one::<u64>("max").unwrap_or(1000),
    };
    let color = asked_color(alloc, asked)?;
    Ok(Task::Show { trace, view, color })
}
