//! Trees, drawn as they are to be shown.

ghost use Rattle.std.specs.Prelude.{◌≡◌, IfOk, filter};
ghost use Rattle.l4trace_drawings.specs.Show.{is_chosen};

use crate::diff::{changed_trees, push_diff};
use crate::dot::push_dot;
use crate::gone::{gone_count, push_gone, with_gone};
use crate::lines::{Branches, Others, push_more, push_row};
use crate::moment::Moment;
use crate::pair::push_pair;
use crate::svg::{Sides, push_svg};
use crate::tree::{Row, tree_rows};
use crate::view::{Form, View};
use mapdb::Mapping;
use std::alloc::{AllocError, Global};
use std::fmt::Write;

/// The mappings of a frame and of a space, where these are given.
pub fn chosen(
    alloc: Global,
    mappings: &[Mapping],
    frame: Option<u32>,
    space: Option<u32>,
) -> Result<Vec<Mapping>, AllocError>
    ensures { IfOk result (λ chosen. chosen.items ≡ filter (is_chosen frame space) mappings.now) }
{
    mappings
        .iter()
        .copied()
        .filter(|mapping| is_chosen(mapping, frame, space))
        .collect(alloc)
}

/// Whether a mapping is of a frame and of a space, where these are given.
fn is_chosen(mapping: &Mapping, frame: Option<u32>, space: Option<u32>) -> bool
    ensures { result ≡ is_chosen frame space mapping.now }
{
    let of_frame = match frame {
        Some(frame) => mapping.frame == frame,
        None => true,
    };
    let of_space = match space {
        Some(space) => u32::from(mapping.place.space) == space,
        None => true,
    };
    of_frame && of_space
}

/// Appends the trees of a moment, under a heading.
pub fn push_drawing(
    alloc: Global,
    text: &mut String,
    heading: &str,
    moment: &Moment,
    view: &View,
) -> Result<(), AllocError> {
    let before = chosen(alloc, &moment.before, view.frame, None)?;
    let after = chosen(alloc, &moment.after, view.frame, None)?;
    let rows = tree_rows(alloc, &after)?;
    match view.form {
        Form::Dot => push_dot(text, &rows, &before, view.most),
        Form::Svg => {
            let all = with_gone(alloc, &before, &after, &moment.after)?;
            let rows = tree_rows(alloc, &all)?;
            let sides = Sides {
                before: &moment.before,
                after: &moment.after,
            };
            push_svg(alloc, text, heading, &rows, &sides, view.most)
        }
        Form::Diff => {
            let old = tree_rows(alloc, &before)?;
            let trees = changed_trees(alloc, moment, &old, &rows, view)?;
            write!(text, "{heading}\n")?;
            push_diff(alloc, text, moment, &trees)
        }
        Form::Pair => {
            let old = tree_rows(alloc, &before)?;
            let trees = changed_trees(alloc, moment, &old, &rows, view)?;
            push_pair(alloc, text, heading, moment, &trees)
        }
        Form::Text => {
            write!(text, "{heading}\n")?;
            push_trees(alloc, text, &rows, &moment.before, view.most)?;
            if gone_count(&before, &moment.after) > 0 {
                text.push_str("no longer held\n")?;
            }
            push_gone(text, &before, &moment.after, view.most)
        }
    }
}

/// Appends the trees of frames. Mappings that differ from those before are marked.
fn push_trees(
    alloc: Global,
    text: &mut String,
    rows: &[Row],
    before: &[Mapping],
    most: u64,
) -> Result<(), AllocError> {
    let others = Others {
        mappings: before,
        alone: "+ ",
        tells: true,
    };
    let mut branches = Branches::new(alloc);
    let mut last = None;
    for (i, row) in rows.iter().enumerate() {
        if i as u64 >= most {
            return push_more(text, rows.len() - i, "mapping");
        }
        if last != Some(row.mapping.frame) {
            last = Some(row.mapping.frame);
            write!(text, "frame {}\n", row.mapping.frame)?;
        }
        push_row(text, &mut branches, row, &others)?;
        text.push_str("\n")?;
    }
    Ok(())
}
