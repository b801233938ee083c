//! The reply to a record, and why the record is refused.

use crate::error::ShowError;
use l4trace_checks::push_cause;
use l4trace_drawings::Moment;
use l4trace_texts::Places;
use std::alloc::Global;
use trace::{Refusal, Reply, TraceReader, push_reply};

/// Appends a line feed and the reply to the last record of a moment, as l4map writes it; behind a refusal the cause. At
/// the start nothing.
pub fn push_last_reply(
    alloc: Global,
    text: &mut String,
    bytes: &[u8],
    moment: &Moment,
) -> Result<(), ShowError> {
    let Some(reply) = &moment.reply else {
        return Ok(());
    };
    text.push_str("\nreply: ")?;
    push_reply_of(alloc, text, bytes, moment.records, reply)
}

/// Appends the reply to the record with this number, as l4map writes it; behind a refusal the cause.
pub fn push_reply_of(
    alloc: Global,
    text: &mut String,
    bytes: &[u8],
    number: u64,
    reply: &Reply,
) -> Result<(), ShowError> {
    let mut line = String::new(alloc);
    push_reply(&mut line, number, reply)?;
    text.push_str(line.as_str().strip_suffix('\n').unwrap_or(""))?;
    if let Reply::Refused(refusal) = reply {
        text.push_str(": ")?;
        push_cause_at(alloc, text, bytes, number, *refusal)?;
    }
    Ok(())
}

/// Appends why the record with this number is refused so.
fn push_cause_at(
    alloc: Global,
    text: &mut String,
    bytes: &[u8],
    number: u64,
    refusal: Refusal,
) -> Result<(), ShowError> {
    let reader = TraceReader::of_slice(alloc, bytes)?;
    let limits = reader.limits();
    if !limits.are_served() {
        return Err(ShowError::BadLimits);
    }
    let mut places = Places::new(alloc, bytes)?;
    places.next_place()?;
    for _ in 0..number {
        places.next_place()?;
    }
    let fields = places.fields(alloc)?;
    push_cause(text, reader.version(), &limits, &fields, refusal)?;
    Ok(())
}
