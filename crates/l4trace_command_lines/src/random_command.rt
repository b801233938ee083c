//! The subcommand `random` of the command line.

ghost use Rattle.std.specs.Prelude.{IfOk};
ghost use Rattle.l4trace_command_lines.specs.Task.{IsServed};

use crate::argument::{Argument, Kind, OPTION};
use crate::subcommand::Subcommand;
use crate::task::{Task, TaskError, refused, refused_value};
use clap::ArgMatches;
use fields::Version;
use l4trace_random_traces::{Plan, Shape};
use std::alloc::Global;

const ABOUT: &str =
    "Writes a trace made at random, to test a kernel with: the same bytes for the same arguments.";

const EXAMPLE: &str = "Shapes, and what their records reach:

  rules      every rule, within a thousand records: each outcome of a pair 20 times, chains of depth 8, partial unmaps at
             every depth, grants that withhold, windows of every relation of sizes, and each form of a refused record
  chain      long chains: sends from each space to the next
  tree       wide trees: sends from each space to any with a higher number
  pagers     many grants: sends from space 0 to pagers, and from these to clients
  conflicts  replaced mappings: many items to few pages
  fpages     fpages and windows of any size

Example: a thousand records that reach every rule, and l4map's answers to them.

  l4trace random --seed 7 --records 1000 > trace.csv
  ./run.sh trace.csv > answers.txt";

static RANDOM: Subcommand = Subcommand {
    name: "random",
    about: ABOUT,
    example: EXAMPLE,
    arguments: &[
        Argument {
            name: "seed",
            kind: Kind::Count,
            value: Some("N"),
            is_required: true,
            help: "Where the random numbers start",
            ..OPTION
        },
        Argument {
            name: "records",
            kind: Kind::Count,
            value: Some("N"),
            is_required: true,
            help: "How many records there are",
            ..OPTION
        },
        Argument {
            name: "spaces",
            kind: Kind::Number {
                least: 0,
                most: u32::MAX,
            },
            value: Some("N"),
            default: Some("16"),
            help: "How many spaces there are, 2 to 512",
            ..OPTION
        },
        Argument {
            name: "bits",
            kind: Kind::Number {
                least: 0,
                most: u32::MAX,
            },
            value: Some("N"),
            default: Some("18"),
            help: "Spaces have 2^N bytes, 18 to 32",
            ..OPTION
        },
        Argument {
            name: "frames",
            kind: Kind::Number {
                least: 0,
                most: u32::MAX,
            },
            value: Some("N"),
            default: Some("16"),
            help: "How many frames there are, 1 to 64",
            ..OPTION
        },
        Argument {
            name: "refused",
            kind: Kind::Number {
                least: 0,
                most: u32::MAX,
            },
            value: Some("N"),
            default: Some("8"),
            help: "How many of 100 records are refused, in the long run",
            ..OPTION
        },
        Argument {
            name: "shape",
            value: Some("SHAPE"),
            default: Some("rules"),
            help: "rules, chain, tree, pagers, conflicts or fpages",
            ..OPTION
        },
        Argument {
            name: "version",
            kind: Kind::Number { least: 1, most: 2 },
            value: Some("N"),
            default: Some("1"),
            help: "The version of the trace: 1, or 2 for one with clear too",
            ..OPTION
        },
    ],
};

/// The subcommand `random`.
// (A function of its own, since the table is large in the proof of whatever names it.)
pub fn random() -> &'static Subcommand {
    &RANDOM
}

/// The task of the subcommand `random`.
pub fn random_task(alloc: Global, asked: &ArgMatches) -> Result<Task, TaskError>
    ensures { IfOk result IsServed }
{
    let name = asked.get_str("shape").unwrap_or("");
    let Some(shape) = Shape::of_name(name) else {
        return Err(refused_value(
            alloc,
            name,
            "a shape: rules, chain, tree, pagers, conflicts or fpages",
        ));
    };
    let spaces = asked.get_one::<u32>("spaces").unwrap_or(16);
    let bits = asked.get_one::<u32>("bits").unwrap_or(18);
    let frames = asked.get_one::<u32>("frames").unwrap_or(16);
    let percent = asked.get_one::<u32>("refused").unwrap_or(8);
    if spaces < 2 || spaces > 512 {
        return Err(refused(alloc, "there are 2 to 512 spaces"));
    }
    if bits < 18 || bits > 32 {
        return Err(refused(alloc, "bits are 18 to 32"));
    }
    if frames < 1 || frames > 64 {
        return Err(refused(alloc, "there are 1 to 64 frames"));
    }
    if percent > 100 {
        return Err(refused(alloc, "at most 100 of 100 records are refused"));
    }
    let version = match asked.get_one::<u32>("version") {
        Some(2) => Version::Two,
        _ => Version::One,
    };
    Ok(Task::Random(Plan {
        version,
        seed: asked.get_one::<u64>("seed").unwrap_or(0),
        records: asked.get_one::<u64>("records").unwrap_or(0),
        spaces,
        bits,
        frames,
        refused: percent,
        shape,
    }))
}
