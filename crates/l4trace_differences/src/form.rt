//! Lines that differ in their form alone.

use crate::answers::is_comment;
use std::alloc::AllocError;
use std::fmt::Write;

/// Appends that a line of the answers is a comment, or that it differs from l4map's line in its form alone.
pub fn push_form(
    text: &mut String,
    ours: Option<&[u8]>,
    theirs: Option<&[u8]>,
) -> Result<(), AllocError> {
    let Some(theirs) = theirs else {
        return Ok(());
    };
    if is_comment(theirs) {
        return text.push_str(
            "  a comment, which no answers have: grep -v '^#' takes such lines out\n",
        );
    }
    let Some(ours) = ours else {
        return Ok(());
    };
    let blanks = blanks_at_end(theirs);
    let front = theirs
        .get(..theirs.len().saturating_sub(blanks))
        .unwrap_or(theirs);
    if theirs == ours || !is_alike(ours, front) {
        return Ok(());
    }
    text.push_str("  the form alone differs:")?;
    if theirs.ends_with(b"\r") {
        text.push_str(" a carriage return at its end (tr -d '\\r' takes these out)")?;
    } else if blanks > 0 {
        text.push_str(" blanks at its end")?;
    }
    if front != ours {
        write!(
            text,
            "{} letters in the other case",
            if blanks > 0 { "," } else { "" }
        )?;
    }
    text.push_str("\n")
}

/// How many spaces, tabs and carriage returns stand at the end of a line.
fn blanks_at_end(line: &[u8]) -> usize {
    line.iter()
        .rev()
        .take_while(|byte| matches!(**byte, b' ' | b'\t' | b'\r'))
        .count()
}

/// Whether lines are the same but for the case of letters.
fn is_alike(ours: &[u8], theirs: &[u8]) -> bool {
    ours.len() == theirs.len()
        && ours.iter().zip(theirs.iter()).all(|(left, right)| left.to_ascii_lowercase()
            == right.to_ascii_lowercase())
}
