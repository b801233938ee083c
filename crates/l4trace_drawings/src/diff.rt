//! Trees before and after a record, side by side.

use crate::lines::{Others, lines_of, push_more, rows_of_frame};
use crate::mark::{Mark, mark_of};
use crate::moment::Moment;
use crate::tree::Row;
use crate::view::View;
use mapdb::Mapping;
use std::alloc::{AllocError, Global};
use std::fmt::Write;

/// How many characters the left column has at most.
const WIDTH: usize = 60;

/// A frame, and the rows of its tree before a record and after it.
#[derive(Clone, Copy)]
pub struct FrameRows<'a> {
    pub frame: u32,
    pub before: &'a [Row],
    pub after: &'a [Row],
}

/// The trees that a record changed.
#[derive(Drop)]
pub struct ChangedTrees<'a> {
    pub frames: Vec<FrameRows<'a>>,
    /// How many rows more there are, by the longer of the two trees of each frame.
    pub untold: usize,
}

impl<'a> ChangedTrees<'a> {
    /// Whether the record changed no tree.
    pub fn is_empty(&self) -> bool {
        self.frames.is_empty() && self.untold == 0
    }
}

/// The trees that a record changed, at most so many rows on each side. With a frame, its tree whether or not it changed.
pub fn changed_trees<'a>(
    alloc: Global,
    moment: &Moment,
    old: &'a [Row],
    new: &'a [Row],
    view: &View,
) -> Result<ChangedTrees<'a>, AllocError> {
    let (mut left, mut right) = (old, new);
    let most = view.most as usize;
    let mut frames = Vec::new(alloc);
    let mut count = 0usize;
    for _ in 0..old.len().saturating_add(new.len()) {
        let Some(frame) = first_frame(left, right) else {
            break;
        };
        let (before, left_rest) = left.split_at(rows_of_frame(left, frame));
        let (after, right_rest) = right.split_at(rows_of_frame(right, frame));
        if view.frame.is_some() || differ(before, after, moment) {
            if count < most {
                let room = most - count;
                frames.push(FrameRows {
                    frame,
                    before: front(before, room),
                    after: front(after, room),
                })?;
            }
            count = count.saturating_add(before.len().max(after.len()));
        }
        left = left_rest;
        right = right_rest;
    }
    let untold = count.saturating_sub(most);
    Ok(ChangedTrees { frames, untold })
}

/// Appends the trees that a record changed, before it on the left and after it on the right, a row of each on a line, and
/// how many rows more there are.
pub fn push_diff(
    alloc: Global,
    text: &mut String,
    moment: &Moment,
    trees: &ChangedTrees<'_>,
) -> Result<(), AllocError> {
    if trees.is_empty() {
        return text.push_str("no mapping changed\n");
    }
    for rows in trees.frames.iter() {
        write!(text, "frame {}\n", rows.frame)?;
        push_frame(alloc, text, moment, rows.before, rows.after)?;
    }
    if trees.untold > 0 {
        push_more(text, trees.untold, "row")?;
    }
    Ok(())
}

/// At most so many rows from the front on.
fn front(rows: &[Row], most: usize) -> &[Row] {
    rows.get(..most).unwrap_or(rows)
}

/// The lower frame of the first rows, if there is a row.
fn first_frame(left: &[Row], right: &[Row]) -> Option<u32> {
    match (left.first(), right.first()) {
        (Some(old), Some(new)) => Some(old.mapping.frame.min(new.mapping.frame)),
        (Some(row), None) | (None, Some(row)) => Some(row.mapping.frame),
        (None, None) => None,
    }
}

/// Whether a mapping of a frame is not the same before and after.
fn differ(before: &[Row], after: &[Row], moment: &Moment) -> bool {
    has_change(before, &moment.after) || has_change(after, &moment.before)
}

/// Whether a row differs from what its place holds among others.
fn has_change(rows: &[Row], others: &[Mapping]) -> bool {
    rows.iter()
        .any(|row| mark_of(&row.mapping, others) != Mark::Same)
}

/// Appends the trees of a frame before and after.
fn push_frame(
    alloc: Global,
    text: &mut String,
    moment: &Moment,
    before: &[Row],
    after: &[Row],
) -> Result<(), AllocError> {
    let left = lines_of(
        alloc,
        before,
        &Others {
            mappings: &moment.after,
            alone: "- ",
            tells: false,
        },
    )?;
    let right = lines_of(
        alloc,
        after,
        &Others {
            mappings: &moment.before,
            alone: "+ ",
            tells: false,
        },
    )?;
    push_columns(text, &left, &right)
}

/// Appends lines side by side.
fn push_columns(text: &mut String, left: &[String], right: &[String]) -> Result<(), AllocError> {
    let width = left
        .iter()
        .map(|line| width_of(line))
        .max()
        .unwrap_or(0)
        .min(WIDTH);
    for i in 0..left.len().max(right.len()) {
        let before = left.get(i).map_or("", |line| line.as_str());
        let after = right.get(i).map_or("", |line| line.as_str());
        text.push_str(before)?;
        for _ in before.chars().count()..width {
            text.push_str(" ")?;
        }
        text.push_str(if after.is_empty() { " |" } else { " | " })?;
        text.push_str(after)?;
        text.push_str("\n")?;
    }
    Ok(())
}

/// How many characters a line has.
fn width_of(line: &String) -> usize {
    line.as_str().chars().count()
}
