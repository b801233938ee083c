//! What is held after a record of a trace, as it is shown.

use crate::asked::check_view;
use crate::error::ShowError;
use crate::moment::moment_at;
use crate::reply_text::push_last_reply;
use l4trace_drawings::{Form, Moment, View, chosen, push_drawing, push_table};
use l4trace_texts::RecordTexts;
use replay::Watch;
use std::alloc::Global;
use std::fmt::Write;

/// Appends what a trace with this name holds after a record, under the record and its reply.
pub fn push_view<V: Watch>(
    alloc: Global,
    text: &mut String,
    name: &str,
    bytes: &[u8],
    view: &View,
    watch: &mut V,
) -> Result<(), ShowError> {
    let (moment, mut heading) = headed_moment(alloc, name, bytes, view, watch)?;
    push_last_reply(alloc, &mut heading, bytes, &moment)?;
    if let Some(space) = view.space {
        let before = chosen(alloc, &moment.before, view.frame, view.space)?;
        let after = chosen(alloc, &moment.after, view.frame, view.space)?;
        write!(text, "{heading}\n")?;
        push_table(text, &moment, space, &before, &after, view)?;
        return Ok(());
    }
    push_drawing(alloc, text, heading.as_str(), &moment, view)?;
    Ok(())
}

/// Appends the trees that a trace with this name holds after a record, under the record alone.
pub fn push_tree<V: Watch>(
    alloc: Global,
    text: &mut String,
    name: &str,
    bytes: &[u8],
    view: &View,
    watch: &mut V,
) -> Result<(), ShowError> {
    let (moment, heading) = headed_moment(alloc, name, bytes, view, watch)?;
    push_drawing(alloc, text, heading.as_str(), &moment, view)?;
    Ok(())
}

/// Appends the trees that a record of a trace changed, before it on the left and after it on the right, at most so many lines.
pub fn push_changed_trees<V: Watch>(
    alloc: Global,
    text: &mut String,
    bytes: &[u8],
    record: u64,
    most: u64,
    watch: &mut V,
) -> Result<(), ShowError> {
    let moment = moment_at(alloc, bytes, record, watch)?;
    let view = View {
        at: Some(record),
        frame: None,
        space: None,
        form: Form::Diff,
        most,
    };
    push_drawing(
        alloc,
        text,
        "the trees before and after it:",
        &moment,
        &view,
    )?;
    Ok(())
}

/// The moment that a view of a trace with this name is of, if it can be shown, and its heading.
fn headed_moment<V: Watch>(
    alloc: Global,
    name: &str,
    bytes: &[u8],
    view: &View,
    watch: &mut V,
) -> Result<(Moment, String), ShowError> {
    let moment = moment_at(alloc, bytes, view.at.unwrap_or(u64::MAX), watch)?;
    check_view(&moment, view)?;
    let mut heading = String::new(alloc);
    push_heading(alloc, &mut heading, name, bytes, &moment)?;
    Ok((moment, heading))
}

/// Appends after which record something is shown.
fn push_heading(
    alloc: Global,
    text: &mut String,
    name: &str,
    bytes: &[u8],
    moment: &Moment,
) -> Result<(), ShowError> {
    if moment.records == 0 {
        text.push_str("at the start")?;
        return Ok(());
    }
    let mut numbers = Vec::new(alloc);
    numbers.push(moment.records)?;
    let texts = RecordTexts::new(alloc, name, bytes, numbers)?;
    text.push_str("after ")?;
    texts.push(text, moment.records)?;
    Ok(())
}
