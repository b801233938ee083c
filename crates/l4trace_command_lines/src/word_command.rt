//! The subcommand `word` of the command line.

ghost use Rattle.std.specs.Prelude.{IfOk};
ghost use Rattle.fpage.specs.Fpage.{IsSpaceBits};
ghost use Rattle.l4trace_texts.specs.Asked.{IsSize};
ghost use Rattle.l4trace_command_lines.specs.Task.{IsServed};

use crate::argument::{Argument, Kind, OPTION};
use crate::subcommand::Subcommand;
use crate::task::{Task, TaskError, refused, refused_value};
use clap::ArgMatches;
use fpage::{FpageError, ItemKind};
use l4trace_texts::{
    Extent, Size, control_word, fpage_word, item_word, push_extent_fault, rights_of, size_of,
};
use std::alloc::{AllocError, Global};
use std::fmt::Write;

const ABOUT: &str =
    "Explains words: what each is as an fpage, as the first word of an item and as a control word, and why it is refused. With options in place of words it makes a word.";

const EXAMPLE: &str = "Examples:

  l4trace word 50c6
  50c6
    fpage: page 5, rights rw-; base 5000, s 12: 4K
    first word of an item: NotAnItem: its last digit is 6; that of a MapItem is 8 or 9, of a GrantItem a or b
    control word: BadControl: it has a bit above bit 6

  l4trace word --base 5000 --size 4K --rights rw
  50c6

The item that maps this page to page 9 of a complete window, and the control word of an unmap of two words with flush:

  l4trace word --map 9000 --base 5000 --size 4K --rights rw
  9008,50c6
  l4trace word --control 2 --flush
  41";

static WORD: Subcommand = Subcommand {
    name: "word",
    about: ABOUT,
    example: EXAMPLE,
    arguments: &[
        Argument {
            name: "word",
            kind: Kind::Operands,
            value: Some("WORD"),
            help: "A word to explain, 1 to 8 hexadecimal digits",
            ..OPTION
        },
        Argument {
            name: "bits",
            kind: Kind::Number {
                least: 18,
                most: 32,
            },
            value: Some("N"),
            default: Some("32"),
            help: "Spaces have 2^N bytes, 18 to 32",
            ..OPTION
        },
        Argument {
            name: "base",
            value: Some("ADDRESS"),
            needs: &["size"],
            help: "The base of an fpage, hexadecimal; 0 if it is not given",
            ..OPTION
        },
        Argument {
            name: "size",
            value: Some("SIZE"),
            help: "The size of an fpage: bytes, as 4096, 4K, 1M or 2G, or nil, or complete",
            ..OPTION
        },
        Argument {
            name: "rights",
            value: Some("RIGHTS"),
            needs: &["size"],
            help: "The rights of an fpage, of r, w and x; - for none; rwx if they are not given",
            ..OPTION
        },
        Argument {
            name: "map",
            value: Some("ADDRESS"),
            conflicts: &["grant"],
            help: "The first word of a MapItem with this send base, hexadecimal",
            ..OPTION
        },
        Argument {
            name: "grant",
            value: Some("ADDRESS"),
            help: "The first word of a GrantItem with this send base, hexadecimal",
            ..OPTION
        },
        Argument {
            name: "control",
            kind: Kind::Number { least: 1, most: 64 },
            value: Some("N"),
            help: "The control word of an unmap with N fpage words, 1 to 64",
            ..OPTION
        },
        Argument {
            name: "flush",
            kind: Kind::Flag,
            needs: &["control"],
            help: "With --control: the unmap's own pages lose the rights too",
            ..OPTION
        },
    ],
};

/// The subcommand `word`.
// (A function of its own, since the table is large in the proof of whatever names it.)
pub fn word() -> &'static Subcommand {
    &WORD
}

/// The task of the subcommand `word`.
pub fn word_task(alloc: Global, asked: &ArgMatches) -> Result<Task, TaskError>
    ensures { IfOk result IsServed }
{
    let Some(bits) = asked.get_one::<u32>("bits") else {
        return Err(refused(alloc, "there are no bits"));
    };
    if !(18..=32).contains(&bits) {
        return Err(refused(alloc, "bits are 18 to 32"));
    }
    let makes_other = makes_item(asked);
    let makes_control = asked.contains_id("control");
    if makes_other && makes_control {
        return Err(refused(alloc, "a control word is made alone"));
    }
    if let Some(texts) = asked.get_strs("word") {
        if makes_other || makes_control {
            return Err(refused(alloc, "words are explained, or one is made, but not both"));
        }
        let words = words_of(alloc, texts)?;
        return Ok(Task::Explain { words, bits });
    }
    let mut line = String::new(alloc);
    push_made(alloc, asked, bits, &mut line)?;
    if line.is_empty() {
        return Err(refused(
            alloc,
            "give a word to explain, or --size, --map, --grant or --control to make one",
        ));
    }
    line.push_str("\n")?;
    Ok(Task::Tell(line))
}

/// Whether an item or an fpage is to be made.
fn makes_item(asked: &ArgMatches) -> bool {
    asked.contains_id("size") || asked.contains_id("map") || asked.contains_id("grant")
}

/// The words that texts spell.
fn words_of(alloc: Global, texts: &[&str]) -> Result<Vec<u32>, TaskError> {
    let mut words = Vec::with_capacity(alloc, texts.len())?;
    for text in texts {
        let word = word_of(alloc, text)?;
        words.push(word).map_err(AllocError::from)?;
    }
    Ok(words)
}

/// The word that a text spells.
fn word_of(alloc: Global, text: &str) -> Result<u32, TaskError> {
    match fields::word(text.as_bytes()) {
        Some(word) => Ok(word),
        None => Err(refused_value(alloc, text, "1 to 8 hexadecimal digits")),
    }
}

/// Appends the words that are to be made, with commas between them.
fn push_made(
    alloc: Global,
    asked: &ArgMatches,
    bits: u32,
    line: &mut String,
) -> Result<(), TaskError>
    requires { IsSpaceBits bits }
{
    if let Some(words) = asked.get_one::<u32>("control") {
        if words < 1 || words > 64 {
            return Err(refused(alloc, "an unmap has 1 to 64 fpage words"));
        }
        write!(line, "{:x}", control_word(asked.get_flag("flush"), words))?;
    }
    if let Some(base) = asked.get_str("map") {
        push_item_word(alloc, ItemKind::Map, base, line)?;
    }
    if let Some(base) = asked.get_str("grant") {
        push_item_word(alloc, ItemKind::Grant, base, line)?;
    }
    if let Some(size) = asked.get_str("size") {
        push_fpage_word(alloc, asked, size, bits, line)?;
    }
    Ok(())
}

/// Appends the first word of an item with this send base.
fn push_item_word(
    alloc: Global,
    kind: ItemKind,
    base: &str,
    line: &mut String,
) -> Result<(), TaskError> {
    let base = word_of(alloc, base)?;
    if base % 1024 != 0 {
        return Err(refused(alloc, "a send base is a multiple of 400 (1024 bytes)"));
    }
    write!(line, "{:x}", item_word(kind, base))?;
    Ok(())
}

/// Appends the word of an fpage, behind a comma if there is a word before it.
fn push_fpage_word(
    alloc: Global,
    asked: &ArgMatches,
    size: &str,
    bits: u32,
    line: &mut String,
) -> Result<(), TaskError>
    requires { IsSpaceBits bits }
{
    let base = word_of(alloc, asked.get_str("base").unwrap_or("0"))?;
    let text = asked.get_str("rights").unwrap_or("rwx");
    let Some(rights) = rights_of(text) else {
        return Err(refused_value(alloc, text, "rights: r, w and x, or - for none"));
    };
    let Some(size) = size_of(size) else {
        return Err(refused_value(
            alloc,
            size,
            "a size: a power of two from 4096 or 4K on, or nil, or complete",
        ));
    };
    if !line.is_empty() {
        line.push_str(",")?;
    }
    match fpage_word(base, size, rights, bits) {
        Ok(word) => Ok(write!(line, "{word:x}")?),
        Err(error) => Err(refused_fpage(alloc, base, size, bits, error)),
    }
}

/// A refusal of the fpage that is to be made.
fn refused_fpage(alloc: Global, base: u32, size: Size, bits: u32, error: FpageError) -> TaskError
    requires bits { IsSpaceBits bits }
    requires size { IsSize size }
{
    let mut text = String::new(alloc);
    let extent = Extent {
        base,
        size: size.field(),
    };
    if push_extent_fault(&mut text, extent, bits, error).is_err() {
        return TaskError::NoMemory;
    }
    match format!(in alloc; "error: {error}: {text}\n") {
        Ok(text) => TaskError::Refused(text),
        Err(_) => TaskError::NoMemory,
    }
}
