//! What a record changed of a mapping.

use crate::tree::index_of;
use fpage::Rights;
use l4trace_texts::push_rights;
use mapdb::Mapping;
use space::Place;
use std::alloc::AllocError;
use std::fmt::Write;

/// How a mapping differs from what its place held at another time.
#[derive(Clone, Copy, Debug, PartialEq, Eq)]
pub enum Mark {
    /// It is the same.
    Same,
    /// The place held nothing.
    Alone,
    /// The place held this.
    Changed(Mapping),
}

/// The mapping of a place, among mappings by rising place.
pub fn mapping_at(mappings: &[Mapping], place: Place) -> Option<Mapping> {
    mappings.get(index_of(mappings, place)?).copied()
}

/// How a mapping differs from what its place holds among others, by rising place.
pub fn mark_of(mapping: &Mapping, others: &[Mapping]) -> Mark {
    match mapping_at(others, mapping.place) {
        None => Mark::Alone,
        Some(other) if other == *mapping => Mark::Same,
        Some(other) => Mark::Changed(other),
    }
}

/// Appends a status as three characters: `R` or `-`, `W` or `-`, `X` or `-`.
pub fn push_status(text: &mut String, status: Rights) -> Result<(), AllocError> {
    text.push_str(if status.read { "R" } else { "-" })?;
    text.push_str(if status.write { "W" } else { "-" })?;
    text.push_str(if status.execute { "X" } else { "-" })
}

/// Appends a place as `space:page`.
pub fn push_place(text: &mut String, place: Place) -> Result<(), AllocError> {
    let Place { space, page } = place;
    write!(text, "{space}:{page}")
}

/// Appends an origin, or a dash for a root.
pub fn push_origin(text: &mut String, origin: Option<Place>) -> Result<(), AllocError> {
    match origin {
        Some(place) => push_place(text, place),
        None => text.push_str("-"),
    }
}

/// Appends a mapping: its place, rights and status.
pub fn push_mapping(text: &mut String, mapping: &Mapping) -> Result<(), AllocError> {
    push_place(text, mapping.place)?;
    text.push_str(" ")?;
    push_rights(text, mapping.rights)?;
    text.push_str(" ")?;
    push_status(text, mapping.status)
}

/// Appends what a mapping was where it differs now.
pub fn push_was(text: &mut String, now: &Mapping, was: &Mapping) -> Result<(), AllocError> {
    text.push_str(", was ")?;
    push_rights(text, was.rights)?;
    text.push_str(" ")?;
    push_status(text, was.status)?;
    if was.frame != now.frame {
        write!(text, " of frame {}", was.frame)?;
    }
    if was.origin != now.origin {
        text.push_str(" from ")?;
        push_origin(text, was.origin)?;
    }
    Ok(())
}
