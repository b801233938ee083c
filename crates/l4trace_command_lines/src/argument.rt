//! Arguments of commands, as data.

use clap::builder::ValueParser;
use clap::{Arg, ArgAction};
use std::alloc::{AllocError, Global};

/// What an argument is, and what values it takes.
#[derive(Clone, Copy)]
pub enum Kind {
    /// A word that stands by itself.
    Operand,
    /// One or more words that stand by themselves.
    Operands,
    /// An option without a value.
    Flag,
    /// An option with a text.
    Text,
    /// An option with a number of 64 bits.
    Count,
    /// An option with a number from `least` to `most`.
    Number { least: u32, most: u32 },
}

/// An argument of a command.
#[derive(Clone, Copy)]
pub struct Argument {
    /// What its values are read back by; of an option also its name on the command line.
    pub name: &'static str,
    pub kind: Kind,
    /// What stands for its value in the help.
    pub value: Option<&'static str>,
    pub default: Option<&'static str>,
    pub is_required: bool,
    /// The arguments that have to be given with it.
    pub needs: &'static [&'static str],
    /// The arguments that cannot be given with it.
    pub conflicts: &'static [&'static str],
    pub help: &'static str,
}

/// What the rows of tables start from: an option with a text, which may be left out.
pub const OPTION: Argument = Argument {
    name: "",
    kind: Kind::Text,
    value: None,
    default: None,
    is_required: false,
    needs: &[],
    conflicts: &[],
    help: "",
};

/// An argument, as the parser takes it.
pub fn arg_of<'a>(alloc: Global, argument: &'static Argument) -> Result<Arg<'a>, AllocError> {
    let arg = Arg::new(alloc, argument.name)
        .help(argument.help)
        .required(argument.is_required)
        .value_names(argument.value.as_slice())
        .default_values(argument.default.as_slice());
    of_kind(arg, argument)
        .requires_all(argument.needs)?
        .conflicts_with_all(argument.conflicts)
}

/// An argument of the kind that is wanted.
fn of_kind<'a>(arg: Arg<'a>, argument: &'static Argument) -> Arg<'a> {
    match argument.kind {
        Kind::Operand => arg,
        Kind::Operands => arg.num_args(1..),
        _ => arg
            .long(argument.name)
            .action(action_of(argument.kind))
            .value_parser(parser_of(argument.kind)),
    }
}

/// What the use of an option does.
fn action_of(kind: Kind) -> ArgAction {
    match kind {
        Kind::Flag => ArgAction::SetTrue,
        _ => ArgAction::Set,
    }
}

/// What the value of an option has to be.
fn parser_of<'a>(kind: Kind) -> ValueParser<'a> {
    match kind {
        Kind::Flag => ValueParser::bool(),
        Kind::Count => ValueParser::unsigned(0, u64::MAX),
        Kind::Number { least, most } => ValueParser::signed(i64::from(least), i64::from(most)),
        _ => ValueParser::string(),
    }
}
