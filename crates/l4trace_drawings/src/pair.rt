//! Derivation trees before a record and after it, as a picture.

use crate::diff::{ChangedTrees, FrameRows};
use crate::layout::layout_of_two;
use crate::mark::{Mark, mark_of};
use crate::moment::Moment;
use crate::svg::{Change, Picture, indent_of, push_document};
use crate::tree::Row;
use mapdb::Mapping;
use std::alloc::{AllocError, Global};

/// Appends a picture of the trees that a record changed, before it on the left and after it on the right: an SVG
/// document. Its title is the first line of the heading. What is new, changed or taken has a box, as the legend says.
pub fn push_pair(
    alloc: Global,
    text: &mut String,
    heading: &str,
    moment: &Moment,
    trees: &ChangedTrees<'_>,
) -> Result<(), AllocError> {
    let layout = layout_of_two(line_count(trees), indent(trees), heading);
    let mut picture = Picture::new(alloc, layout);
    picture.push_text("frame", "before")?;
    picture.go_to(1, 0);
    picture.push_text("frame", "after")?;
    let mut line = 1u64;
    for rows in trees.frames.iter() {
        let name = format!(in alloc; "frame {}", rows.frame)?;
        picture.go_to(0, line);
        picture.push_text("frame", name.as_str())?;
        push_rows(
            alloc,
            &mut picture,
            rows.before,
            &moment.after,
            Change::Taken,
        )?;
        picture.go_to(1, line);
        picture.push_text("frame", name.as_str())?;
        push_rows(alloc, &mut picture, rows.after, &moment.before, Change::New)?;
        line = line.saturating_add(lines_of(rows));
    }
    picture.go_to(0, line);
    push_rest(alloc, &mut picture, trees)?;
    push_document(text, heading, &picture)
}

/// Draws the rows of one side. What the other side does not hold was changed so.
fn push_rows(
    alloc: Global,
    picture: &mut Picture,
    rows: &[Row],
    others: &[Mapping],
    alone: Change,
) -> Result<(), AllocError> {
    for row in rows {
        let change = match mark_of(&row.mapping, others) {
            Mark::Same => Change::Same,
            Mark::Alone => alone,
            Mark::Changed(_) => Change::Changed,
        };
        picture.push_row(alloc, row, change)?;
    }
    Ok(())
}

/// Draws that there is no tree, or how many rows more there are.
fn push_rest(
    alloc: Global,
    picture: &mut Picture,
    trees: &ChangedTrees<'_>,
) -> Result<(), AllocError> {
    if trees.is_empty() {
        return picture.push_text("more", "no mapping changed");
    }
    if trees.untold > 0 {
        let more = format!(in alloc; ".. and {} more", trees.untold)?;
        return picture.push_text("more", more.as_str());
    }
    Ok(())
}

/// How many lines a frame takes on each side, with that of its number.
fn lines_of(rows: &FrameRows<'_>) -> u64 {
    (rows.before.len().max(rows.after.len()) as u64).saturating_add(1)
}

/// How many lines each side has: that of its name, those of its frames, and one for the rest.
fn line_count(trees: &ChangedTrees<'_>) -> u64 {
    let has_rest = trees.is_empty() || trees.untold > 0;
    let mut count = 1u64.saturating_add(u64::from(has_rest));
    for rows in trees.frames.iter() {
        count = count.saturating_add(lines_of(rows));
    }
    count
}

/// How far to the right the deepest row stands.
fn indent(trees: &ChangedTrees<'_>) -> u64 {
    let mut indent = 0u64;
    for rows in trees.frames.iter() {
        indent = indent
            .max(indent_of(rows.before))
            .max(indent_of(rows.after));
    }
    indent
}
