//! The subcommand `why` of the command line.

ghost use Rattle.std.specs.Prelude.{IfOk};
ghost use Rattle.l4trace_command_lines.specs.Task.{IsServed};

use crate::argument::{Argument, Kind, OPTION};
use crate::common::{AT, COLOR, TRACE, asked_color};
use crate::subcommand::Subcommand;
use crate::task::{Task, TaskError, refused_value};
use clap::ArgMatches;
use l4trace_drawings::Question;
use space::Place;
use std::alloc::Global;

const ABOUT: &str =
    "Tells where a page came from: the page from which it has its frame, and so on to the root, each with the record since which that is so; and which records changed the page's frame, rights or origin, and how.";

const EXAMPLE: &str = "Example:

  l4trace why examples/first-six-records.csv --page 2:4 --at 5
  2:4 holds frame 0 with r--, after record 5, examples/first-six-records.csv:6: unmap,0,0,c1
  reply: 5 unmap 000000c4
  it came from
    2:4 r-- --- from 1:0, since record 2, examples/first-six-records.csv:3: send,1,2,10,4008,c5
    1:0 rw- --- from 0:0, since record 1, examples/first-six-records.csv:2: send,0,1,10,8,c7
    0:0 rwx ---, a root, since the start
  what changed its frame, rights or origin
    record 2, examples/first-six-records.csv:3: send,1,2,10,4008,c5
      gave r-x of frame 0 from 1:0
    record 5, examples/first-six-records.csv:6: unmap,0,0,c1
      took --x: r-x became r--";

static WHY: Subcommand = Subcommand {
    name: "why",
    about: ABOUT,
    example: EXAMPLE,
    arguments: &[
        TRACE,
        Argument {
            name: "page",
            value: Some("S:P"),
            is_required: true,
            help: "Page P of space S, both decimal",
            ..OPTION
        },
        AT,
        Argument {
            name: "max",
            kind: Kind::Count,
            value: Some("N"),
            default: Some("100"),
            help: "How many pages of the chain of origins are told, and how many records, the last ones",
            ..OPTION
        },
        COLOR,
    ],
};

/// The subcommand `why`.
// (A function of its own, since the table is large in the proof of whatever names it.)
pub fn why() -> &'static Subcommand {
    &WHY
}

/// The task of the subcommand `why`.
pub fn why_task(alloc: Global, asked: &ArgMatches) -> Result<Task, TaskError>
    ensures { IfOk result IsServed }
{
    let trace = String::from_str(alloc, asked.get_str("trace").unwrap_or("-"))?;
    let page = asked.get_str("page").unwrap_or("");
    let Some(place) = place_of(page) else {
        return Err(refused_value(alloc, page, "a page: a space, a colon and a page, as 2:4"));
    };
    let at = asked.get_one::<u64>("at");
    let most = asked.get_one::<u64>("max").unwrap_or(100);
    let color = asked_color(alloc, asked)?;
    Ok(Task::Why {
        trace,
        question: Question { place, at, most },
        color,
    })
}

/// The page that a text names.
fn place_of(text: &str) -> Option<Place> {
    let (space, page) = text.split_once(':')?;
    let space = fields::space(space.as_bytes())?;
    let page = fields::number(page.as_bytes(), 10, 7)?;
    Some(Place { space, page })
}
