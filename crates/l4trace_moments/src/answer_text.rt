//! Replies, in sentences.

use crate::call_text::push_fpage;
use fpage::{Fpage, Rights};
use l4trace_drawings::push_status;
use l4trace_texts::push_rights;
use mapdb::{Call, Mapping, Reply, SendReply};
use std::alloc::AllocError;
use std::fmt::Write;

/// Appends what a reply to a call says. Of an access, its page holds this.
pub fn push_answer(
    text: &mut String,
    call: &Call,
    reply: &Reply,
    held: Option<Mapping>,
) -> Result<(), AllocError> {
    match (call, reply) {
        (_, Reply::Sent(counts)) => push_counts(text, counts),
        (_, Reply::Accessed(made)) => push_accessed(text, *made, held),
        (
            Call::Unmap {
                space: _,
                control: _,
                words: _,
                fpages,
            },
            Reply::Unmapped(words),
        ) => push_found(text, fpages, words),
        (_, Reply::Cleared(status)) => {
            text.push_str("the status found is ")?;
            push_status(text, *status)
        }
        _ => Ok(()),
    }
}

/// Appends what became of the pages of a send.
fn push_counts(text: &mut String, counts: &SendReply) -> Result<(), AllocError> {
    let SendReply {
        absent,
        norights,
        origin,
        lost,
        extended,
        linked,
    } = *counts;
    let told = [
        (linked, "now held by the receiver"),
        (extended, "held by the receiver with more rights"),
        (absent, "not held by the sender"),
        (norights, "without a right to be sent"),
        (origin, "derived from the receiver's page"),
        (lost, "lost by the flush"),
    ];
    let mut is_first = true;
    for (count, what) in told {
        if count > 0 {
            let pages = if count == 1 { "page" } else { "pages" };
            text.push_str(if is_first { "" } else { ", " })?;
            write!(text, "{count} {pages} {what}")?;
            is_first = false;
        }
    }
    if is_first {
        text.push_str("no page was sent")?;
    }
    Ok(())
}

/// Appends why an access was made, or why it was a fault.
fn push_accessed(text: &mut String, made: bool, held: Option<Mapping>) -> Result<(), AllocError> {
    let Some(mapping) = held else {
        return text.push_str("the page is not held");
    };
    text.push_str("the page is held with ")?;
    push_rights(text, mapping.rights)?;
    text.push_str(if made { "" } else { " only" })
}

/// Appends the status that was found of each fpage, which the words have in place of rights.
fn push_found(text: &mut String, fpages: &[Fpage], words: &[u32]) -> Result<(), AllocError> {
    text.push_str("the status found is ")?;
    for (i, (fpage, word)) in fpages.iter().zip(words.iter()).enumerate() {
        text.push_str(if i > 0 { "; " } else { "" })?;
        push_status(text, Rights::of_bits(*word))?;
        text.push_str(" of ")?;
        push_fpage(text, *fpage)?;
    }
    Ok(())
}
