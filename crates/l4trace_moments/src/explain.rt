//! The records of a trace and their replies, in sentences.

ghost use Rattle.std.specs.Prelude.{◌≡◌, false, OnOk};

use crate::answer_text::push_answer;
use crate::answering::{answer_record, next_call, start};
use crate::asked::check_record;
use crate::call_text::push_call;
use crate::error::ShowError;
use crate::moment::record_count;
use crate::page::held_at;
use crate::reply_text::push_reply_of;
use l4trace_texts::RecordTexts;
use mapdb::{Database, Limits};
use replay::Watch;
use std::alloc::{AllocError, Global};
use std::fmt::Write;
use trace::{Call, Refusal, Reply, TraceReader};

/// What is explained of a trace.
#[derive(Clone, Copy, Debug)]
pub struct Excerpt {
    /// The record that is explained alone, 0 for the header; all records, if none is named.
    pub at: Option<u64>,
    /// How many records are explained at most, if none is named.
    pub most: u64,
}

/// A trace whose records are explained.
#[derive(Clone, Copy)]
struct Subject<'a> {
    bytes: &'a [u8],
    /// The number of the first record that is explained.
    first: u64,
    texts: &'a RecordTexts,
}

/// Appends an excerpt of a trace with this name: its header and its records, each with its reply in sentences. The watch
/// hears of each record.
pub fn push_explained<V: Watch>(
    alloc: Global,
    text: &mut String,
    name: &str,
    bytes: &[u8],
    excerpt: &Excerpt,
    watch: &mut V,
) -> Result<(), ShowError> {
    let Excerpt { at, most } = *excerpt;
    let records = record_count(alloc, bytes)?;
    check_record(records, at)?;
    let (first, last) = match at {
        Some(number) => (number, number),
        None => (0, records.min(most)),
    };
    let texts = RecordTexts::new(alloc, name, bytes, numbers(alloc, first, last)?)?;
    let subject = Subject {
        bytes,
        first,
        texts: &texts,
    };
    push_records(alloc, text, &subject, last, watch)?;
    if at.is_none() && last < records {
        let untold = records - last;
        write!(text, ".. and {untold} more; --max tells more of them\n")?;
    }
    Ok(())
}

/// The numbers from one to another.
fn numbers(alloc: Global, first: u64, last: u64) -> Result<Vec<u64>, AllocError> {
    let mut numbers = Vec::new(alloc);
    for number in first..=last {
        numbers.push(number)?;
    }
    Ok(numbers)
}

/// Answers the records of a trace up to the one with this number, and appends those that are to be explained.
fn push_records<V: Watch>(
    alloc: Global,
    text: &mut String,
    subject: &Subject<'_>,
    last: u64,
    watch: &mut V,
) -> Result<(), ShowError> {
    let mut reader = TraceReader::of_slice(alloc, subject.bytes)?;
    let limits = reader.limits();
    let mut database = start(alloc, &limits)?;
    if subject.first == 0 {
        push_header(text, subject.texts, &limits)?;
    }
    for i in 0..last {
        watch.hear(i + 1);
        explain_next(alloc, text, subject, i + 1, &mut database, &mut reader)?;
    }
    Ok(())
}

/// Appends a header, and what it says.
fn push_header(text: &mut String, texts: &RecordTexts, limits: &Limits) -> Result<(), AllocError> {
    let Limits {
        spaces,
        bits,
        frames,
    } = *limits;
    texts.push(text, 0)?;
    let pages = 1u32 << (bits.clamp(18, 32) - 12);
    write!(
        text,
        "\n  there are {spaces} spaces of {pages} pages; space 0 holds page "
    )?;
    if frames == 1 {
        text.push_str("0 as frame 0, with all rights\n")
    } else {
        let last = frames.saturating_sub(1);
        write!(
            text,
            "i as frame i for each i from 0 to {last}, with all rights\n"
        )
    }
}

/// Answers the record that comes next, which has this number, and appends it if it is to be explained.
fn explain_next(
    alloc: Global,
    text: &mut String,
    subject: &Subject<'_>,
    number: u64,
    database: &mut Database,
    reader: &mut TraceReader,
) -> Result<(), ShowError>
    requires { database.old.is_halted ≡ false }
    ensures { OnOk result (database.new.is_halted ≡ false) }
{
    let Some(asked) = next_call(database, reader)? else {
        return Ok(());
    };
    let reply = answer_record(alloc, database, &asked)?;
    if number >= subject.first {
        subject.texts.push(text, number)?;
        push_told(alloc, text, subject.bytes, number, database, &asked, &reply)?;
    }
    if let Ok(call) = asked {
        reader.reuse(call);
    }
    Ok(())
}

/// Appends what the record with this number asks for, unless it is refused, and its reply.
fn push_told(
    alloc: Global,
    text: &mut String,
    bytes: &[u8],
    number: u64,
    database: &Database,
    asked: &Result<Call, Refusal>,
    reply: &Reply,
) -> Result<(), ShowError> {
    if let (Ok(call), false) = (asked, matches!(reply, Reply::Refused(_))) {
        text.push_str("\n  ")?;
        push_call(text, call)?;
        text.push_str("\n  ")?;
        push_reply_of(alloc, text, bytes, number, reply)?;
        text.push_str(": ")?;
        let held = match call {
            Call::Access { place, access: _ } => held_at(database, *place)?,
            _ => None,
        };
        push_answer(text, call, reply, held)?;
    } else {
        text.push_str("\n  ")?;
        push_reply_of(alloc, text, bytes, number, reply)?;
    }
    text.push_str("\n")?;
    Ok(())
}
