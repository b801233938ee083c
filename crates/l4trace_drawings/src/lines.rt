//! The lines of a drawing.

ghost use Rattle.std.specs.Prelude.{◌≤◌, length};

use crate::mark::{Mark, mark_of, push_mapping, push_was};
use crate::tree::Row;
use mapdb::Mapping;
use std::alloc::{AllocError, Global};
use std::fmt::Write;

/// How many levels of a tree are drawn with their branches; deeper ones tell their number.
const LEVELS: usize = 32;

/// What the lines of a drawing are compared with.
#[derive(Clone, Copy)]
pub struct Others<'a> {
    /// What is held at another time, by rising place.
    pub mappings: &'a [Mapping],
    /// The sign of a mapping whose place then holds nothing.
    pub alone: &'a str,
    /// Whether a changed mapping tells what it was.
    pub tells: bool,
}

/// For each level of a drawing, whether another mapping of that level stands below.
#[derive(Drop)]
pub struct Branches {
    open: Vec<bool>,
}

impl Branches {
    pub fn new(alloc: Global) -> Self {
        Branches {
            open: Vec::new(alloc),
        }
    }

    /// Appends the branches in front of a row, and keeps those that go on below it.
    pub fn push(&mut self, text: &mut String, row: &Row) -> Result<(), AllocError> {
        self.open.truncate(row.depth);
        if row.depth > LEVELS {
            write!(text, "(level {}) ", row.depth)?;
        } else {
            for open in self.open.iter().skip(1) {
                text.push_str(if *open { "│  " } else { "   " })?;
            }
            if row.depth > 0 {
                text.push_str(if row.is_last { "└─ " } else { "├─ " })?;
            }
        }
        self.open.push(!row.is_last).map_err(AllocError::from)
    }
}

/// Appends a row without a line feed: a sign for what changed, the branches, and the mapping.
pub fn push_row(
    text: &mut String,
    branches: &mut Branches,
    row: &Row,
    others: &Others<'_>,
) -> Result<(), AllocError> {
    let mark = mark_of(&row.mapping, others.mappings);
    text.push_str(match mark {
        Mark::Same => "  ",
        Mark::Alone => others.alone,
        Mark::Changed(_) => "* ",
    })?;
    branches.push(text, row)?;
    push_mapping(text, &row.mapping)?;
    match mark {
        Mark::Changed(was) if others.tells => push_was(text, &row.mapping, &was),
        _ => Ok(()),
    }
}

/// How many rows from the front on are of a frame.
pub fn rows_of_frame(rows: &[Row], frame: u32) -> usize
    ensures { result ≤ length rows.now }
{
    rows.iter()
        .take_while(|row| row.mapping.frame == frame)
        .count()
}

/// The lines of some rows, without line feeds.
pub fn lines_of(
    alloc: Global,
    rows: &[Row],
    others: &Others<'_>,
) -> Result<Vec<String>, AllocError> {
    let mut lines = Vec::with_capacity(alloc, rows.len())?;
    let mut branches = Branches::new(alloc);
    for row in rows {
        let mut line = String::new(alloc);
        push_row(&mut line, &mut branches, row, others)?;
        lines.push(line).map_err(AllocError::from)?;
    }
    Ok(lines)
}

/// Appends how many more of what a noun names are not drawn.
pub fn push_more(text: &mut String, count: usize, noun: &str) -> Result<(), AllocError> {
    let ending = if count == 1 { "" } else { "s" };
    write!(
        text,
        ".. and {count} more {noun}{ending}; --max draws more of them\n"
    )
}
