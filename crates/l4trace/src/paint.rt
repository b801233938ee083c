//! Colours of lines, by the signs at their front.

ghost use Rattle.std.specs.Prelude.{◌≤◌, length};

use std::alloc::{AllocError, Global};

/// What stands between two columns.
const BAR: &[u8] = b" | ";

/// What stands behind the left column where the right one is empty.
const LAST_BAR: &[u8] = b" |";

/// From here on a terminal writes as it did before.
const RESET: &[u8] = b"\x1b[0m";

/// A text in which what is new or given is green, what is gone or taken red, and what differs yellow. Without the escape
/// sequences it is the same.
pub fn painted(alloc: Global, text: &[u8]) -> Result<Vec<u8>, AllocError> {
    let mut all = Vec::with_capacity(alloc, text.len())?;
    push_lines(&mut all, text)?;
    Ok(all)
}

/// Appends each line of a text.
fn push_lines(all: &mut Vec<u8>, text: &[u8]) -> Result<(), AllocError> {
    for (i, line) in text.split(|byte| *byte == b'\n').enumerate() {
        if i > 0 {
            all.extend_from_slice(b"\n")?;
        }
        push_line(all, line)?;
    }
    Ok(())
}

/// Appends a line, each of two columns in its own colour.
fn push_line(all: &mut Vec<u8>, line: &[u8]) -> Result<(), AllocError> {
    let (before, rest) = line.split_at(bar_at(line));
    push_column(all, before)?;
    let Some(after) = rest.strip_prefix(BAR) else {
        return all.extend_from_slice(rest);
    };
    all.extend_from_slice(BAR)?;
    push_column(all, after)
}

/// How many bytes of a line stand before its bar: all, where it has none.
fn bar_at(line: &[u8]) -> usize
    ensures { result ≤ length line.now }
{
    for i in 0..line.len() {
        let rest = &line[i..];
        if rest.starts_with(BAR) || rest == LAST_BAR {
            return i;
        }
    }
    line.len()
}

/// Appends a column in the colour of its sign, if it has one.
fn push_column(all: &mut Vec<u8>, column: &[u8]) -> Result<(), AllocError> {
    let Some(color) = color_of(column) else {
        return all.extend_from_slice(column);
    };
    all.extend_from_slice(color)?;
    all.extend_from_slice(column)?;
    all.extend_from_slice(RESET)
}

/// The words at the front of a column for what gives something to a page.
const GIVES: [&[u8]; 2] = [b"+ ", b"gave "];

/// Those for what takes something from it.
const TAKES: [&[u8]; 4] = [b"- ", b"took ", b"granted ", b"a grant withheld "];

/// Those for what differs.
const DIFFERS: [&[u8]; 3] = [b"* ", b"replaced ", b"its origin moved "];

/// The colour of a column: of a sign, or of what a record did to a page.
fn color_of(column: &[u8]) -> Option<&'static [u8]> {
    let words = column.strip_prefix(b"    ").unwrap_or(column);
    if begins_with_any(words, &GIVES) {
        Some(b"\x1b[32m")
    } else if begins_with_any(words, &TAKES) {
        Some(b"\x1b[31m")
    } else if begins_with_any(words, &DIFFERS) {
        Some(b"\x1b[33m")
    } else {
        None
    }
}

/// Whether a text begins with one of some others.
fn begins_with_any(text: &[u8], fronts: &[&[u8]]) -> bool {
    fronts.iter().any(|front| text.starts_with(front))
}
