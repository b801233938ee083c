//! The command line.

ghost use Rattle.std.specs.Prelude.{IfOk, IfSome};
ghost use Rattle.replay.specs.Options.{AreServed};

use clap::error::ErrorKind;
use clap::{Arg, ArgAction, ArgMatches, Command, Error, value_parser};
use replay::Options;
use std::alloc::{AllocError, Global};
use std::fmt::Write;

const ABOUT: &str =
    "Replays a trace of calls on an L4 mapping database: reads the trace (CSV) from standard input, and writes a reply to each record and an audit of every mapping to standard output.";

const EXAMPLE: &str =
    "Example: two spaces, and page 0 of space 0 mapped to page 3 of space 1, where it is read.

  printf 'l4map,1,2,18,1\\nsend,0,1,10,3008,c6\\naccess,1,3abc,r\\n' | l4map

  1 send absent=0 norights=0 origin=0 lost=0 extended=0 linked=1
  2 access ok
  0,0,0,rwx,---,-
  1,3,0,rw-,R--,0:0
  end 2 0

Exit status: 0 done; 1 command line refused; 2 bad header or limits; 3 out of memory, or no thread could be started; 4 a read or a write failed.";

/// What is said below the refusal of a word that is no option.
const TIP: &str = "  tip: a trace is read from standard input, as in 'l4map < trace.csv'";

/// Why a command line gives no options.
#[derive(Debug, Drop)]
pub enum OptionsError {
    /// Help, or the version, was asked for: its text.
    Help(String),
    /// The command line was refused: why.
    Refused(String),
    /// Out of memory.
    NoMemory,
}

impl From<AllocError> for OptionsError {
    fn from(_: AllocError) -> Self {
        OptionsError::NoMemory
    }
}

/// The command line of the program.
fn command<'a>(alloc: Global) -> Result<Command<'a>, AllocError> {
    let workers = Arg::new(alloc, "workers")
        .long("workers")
        .value_name("N")
        .value_parser(value_parser!(u32).range(1..=64))
        .default_value("4")
        .help("How many workers work a call, 1 to 64");
    let piece = Arg::new(alloc, "piece")
        .long("piece")
        .value_name("N")
        .value_parser(value_parser!(u32).range(1..=65536))
        .default_value("256")
        .help("How many parts of a call a piece of its work has at most, 1 to 65536");
    let plain = Arg::new(alloc, "plain")
        .long("plain")
        .action(ArgAction::SetTrue)
        .help(
            "Work every unmap and every clear by recursion, page by page, and all else with one worker",
        );
    Command::new(alloc, "l4map")
        .version("0.1.0")
        .about(ABOUT)
        .after_help(EXAMPLE)
        .arg(workers)?
        .arg(piece)?
        .arg(plain)
}

/// Reads a command line, the program's name first. Where help or the version is asked for, its text is the error.
pub fn parse<'a>(alloc: Global, words: &'a [&'a str]) -> Result<Options, OptionsError>
    ensures { IfOk result AreServed }
{
    let parsed = command(alloc)?.try_get_matches_from(words);
    match parsed {
        Ok(matches) => match options_of(&matches) {
            Some(options) => Ok(options),
            None => Err(OptionsError::Refused(String::from_str(
                alloc,
                "error: a number is out of its range\n",
            )?)),
        },
        Err(error) => Err(fault(alloc, &error)),
    }
}

/// The options of a command line that was parsed; none where a number is out of its range.
fn options_of(matches: &ArgMatches) -> Option<Options>
    ensures { IfSome result AreServed }
{
    let options = Options {
        workers: matches.get_one::<u32>("workers")?,
        piece_length: matches.get_one::<u32>("piece")?,
        plain: matches.get_flag("plain"),
    };
    options.are_served().then_some(options)
}

/// What the parser says, as an error of the options.
fn fault(alloc: Global, error: &Error) -> OptionsError {
    if error.kind() == ErrorKind::OutOfMemory {
        return OptionsError::NoMemory;
    }
    let mut text = String::new(alloc);
    if write!(text, "{error}").is_err() {
        return OptionsError::NoMemory;
    }
    if error.use_stderr() {
        refusal(alloc, text.as_str()).unwrap_or(OptionsError::NoMemory)
    } else {
        OptionsError::Help(text)
    }
}

/// A refusal in the parser's words. Where it refuses a word that is no option, as the name of a file, a tip says where a
/// trace comes from.
fn refusal(alloc: Global, text: &str) -> Result<OptionsError, AllocError> {
    let told = match text.split_once("\n\n") {
        Some((what, rest)) if names_no_option(what) => {
            format!(in alloc; "{what}\n\n{TIP}\n\n{rest}")?
        }
        _ => String::from_str(alloc, text)?,
    };
    Ok(OptionsError::Refused(told))
}

/// Whether the first line of a refusal names a word that is no option.
fn names_no_option(what: &str) -> bool {
    match what.strip_prefix("error: unexpected argument '") {
        Some(word) => !word.starts_with("-") || word.starts_with("-'"),
        None => false,
    }
}
