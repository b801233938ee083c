//! Where a page came from, and which records changed what it holds.

use crate::asked::{check_page, check_record};
use crate::change_text::push_change;
use crate::error::ShowError;
use crate::history::{Change, changes};
use crate::moment::moment_at;
use crate::page::is_within;
use crate::reply_text::push_last_reply;
use l4trace_drawings::{Moment, Question, mapping_at, push_mapping, push_place};
use l4trace_texts::{RecordTexts, push_rights};
use mapdb::Mapping;
use replay::Watch;
use space::Place;
use std::alloc::{AllocError, Global};
use std::fmt::Write;

/// A page, the page from which it came, and so on to the root.
fn chain_of(alloc: Global, mappings: &[Mapping], place: Place) -> Result<Vec<Mapping>, AllocError> {
    let mut chain = Vec::new(alloc);
    let mut next = Some(place);
    for _ in 0..mappings.len() {
        let Some(place) = next else {
            break;
        };
        let Some(mapping) = mapping_at(mappings, place) else {
            break;
        };
        next = mapping.origin;
        chain.push(mapping).map_err(AllocError::from)?;
    }
    Ok(chain)
}

/// The pages of a chain of mappings, or the page alone where the chain is empty.
fn places_of(
    alloc: Global,
    limits: &mapdb::Limits,
    chain: &[Mapping],
    place: Place,
) -> Result<Vec<Place>, AllocError> {
    let mut places = Vec::new(alloc);
    places.push(place)?;
    for mapping in chain.iter().skip(1) {
        if is_within(limits, mapping.place) {
            places.push(mapping.place)?;
        }
    }
    Ok(places)
}

/// Appends where a page of a trace with this name came from, and which records changed its frame, rights or origin.
pub fn push_why<V: Watch>(
    alloc: Global,
    text: &mut String,
    name: &str,
    bytes: &[u8],
    question: &Question,
    watch: &mut V,
) -> Result<(), ShowError> {
    let Question { place, at, most } = *question;
    let moment = moment_at(alloc, bytes, at.unwrap_or(u64::MAX), watch)?;
    check_record(moment.records, at)?;
    check_page(&moment.limits, place)?;
    let whole = chain_of(alloc, &moment.after, place)?;
    let chain = whole.get(..most as usize).unwrap_or(&whole);
    let places = places_of(alloc, &moment.limits, chain, place)?;
    let changes = changes(alloc, bytes, moment.records, &places, watch)?;
    let numbers = numbers_of(alloc, moment.records, place, &changes)?;
    let texts = RecordTexts::new(alloc, name, bytes, numbers)?;
    push_page(text, &moment, place, &texts)?;
    push_last_reply(alloc, text, bytes, &moment)?;
    text.push_str("\n")?;
    let untold = whole.len().saturating_sub(chain.len());
    push_chain(text, chain, untold, &changes, &texts)?;
    push_changes(text, place, &changes, most, &texts)?;
    Ok(())
}

/// The numbers of the records that are shown: the last, and those that changed the page or linked one of its chain.
fn numbers_of(
    alloc: Global,
    last: u64,
    place: Place,
    changes: &[Change],
) -> Result<Vec<u64>, AllocError> {
    let mut numbers = Vec::new(alloc);
    numbers.push(last)?;
    for change in changes {
        if change.is_link() || change.place == place {
            numbers.push(change.record)?;
        }
    }
    Ok(numbers)
}

/// Appends what a page holds, and after which record.
fn push_page(
    text: &mut String,
    moment: &Moment,
    place: Place,
    texts: &RecordTexts,
) -> Result<(), AllocError> {
    push_place(text, place)?;
    match mapping_at(&moment.after, place) {
        Some(mapping) => {
            write!(text, " holds frame {} with ", mapping.frame)?;
            push_rights(text, mapping.rights)?;
        }
        None => text.push_str(" holds nothing")?,
    }
    if moment.records == 0 {
        return text.push_str(", at the start");
    }
    text.push_str(", after ")?;
    texts.push(text, moment.records)
}

/// Appends a chain of origins, each page with the record since which it has its frame from there, and how many more are
/// above.
fn push_chain(
    text: &mut String,
    chain: &[Mapping],
    untold: usize,
    changes: &[Change],
    texts: &RecordTexts,
) -> Result<(), AllocError> {
    if chain.is_empty() && untold == 0 {
        return Ok(());
    }
    text.push_str("it came from\n")?;
    for mapping in chain {
        text.push_str("  ")?;
        push_mapping(text, mapping)?;
        match mapping.origin {
            Some(origin) => {
                text.push_str(" from ")?;
                push_place(text, origin)?;
            }
            None => text.push_str(", a root")?,
        }
        let made = changes
            .iter()
            .rev()
            .find(|change| change.place == mapping.place && change.is_link());
        match made {
            Some(change) => {
                text.push_str(", since ")?;
                texts.push(text, change.record)?;
            }
            None => text.push_str(", since the start")?,
        }
        text.push_str("\n")?;
    }
    if untold > 0 {
        write!(
            text,
            "  .. and {untold} more above; --max tells more of them\n"
        )?;
    }
    Ok(())
}

/// Appends the records that changed the frame, the rights or the origin of a page; the last ones, where there are many.
fn push_changes(
    text: &mut String,
    place: Place,
    changes: &[Change],
    most: u64,
    texts: &RecordTexts,
) -> Result<(), AllocError> {
    let count = changes
        .iter()
        .filter(|change| change.place == place)
        .count();
    if count == 0 {
        return text.push_str("no record changed its frame, rights or origin\n");
    }
    text.push_str("what changed its frame, rights or origin\n")?;
    let untold = count.saturating_sub(most as usize);
    if untold > 0 {
        write!(
            text,
            "  .. and {untold} more before; --max tells more of them\n"
        )?;
    }
    for change in changes
        .iter()
        .filter(|change| change.place == place)
        .skip(untold)
    {
        text.push_str("  ")?;
        texts.push(text, change.record)?;
        text.push_str("\n    ")?;
        push_change(text, change)?;
        text.push_str("\n")?;
    }
    Ok(())
}
