//! Arguments that several subcommands have.

use crate::argument::{Argument, Kind, OPTION};
use crate::color_choice::ColorChoice;
use crate::task::{TaskError, refused_value};
use clap::ArgMatches;
use std::alloc::Global;

/// The trace.
pub const TRACE: Argument = Argument {
    name: "trace",
    kind: Kind::Operand,
    value: Some("TRACE"),
    is_required: true,
    help: "The trace, a file, or - for standard input",
    ..OPTION
};

/// After which record something is asked.
pub const AT: Argument = Argument {
    name: "at",
    kind: Kind::Count,
    value: Some("N"),
    help: "After this record, 0 for the start; the last one if it is not given",
    ..OPTION
};

/// How much of trees is drawn.
pub const MAX: Argument = Argument {
    name: "max",
    kind: Kind::Count,
    value: Some("N"),
    default: Some("1000"),
    help: "How many mappings are drawn",
    ..OPTION
};

/// When lines are coloured.
pub const COLOR: Argument = Argument {
    name: "color",
    value: Some("WHEN"),
    default: Some("auto"),
    help: "When lines are coloured: auto (on a terminal, if NO_COLOR is not set), always or never",
    ..OPTION
};

/// When lines are to be coloured.
pub fn asked_color(alloc: Global, asked: &ArgMatches) -> Result<ColorChoice, TaskError> {
    let name = asked.get_str("color").unwrap_or("auto");
    match ColorChoice::of_name(name) {
        Some(color) => Ok(color),
        None => Err(refused_value(alloc, name, "auto, always or never")),
    }
}
