//! The words for what a record did to a page.

use crate::effect::Effect;
use crate::history::Change;
use fpage::Rights;
use l4trace_drawings::{push_origin, push_place};
use l4trace_texts::push_rights;
use mapdb::Mapping;
use std::alloc::AllocError;
use std::fmt::Write;

/// Appends what a record changed of a page.
pub fn push_change(text: &mut String, change: &Change) -> Result<(), AllocError> {
    match (change.before, change.after) {
        (None, Some(after)) => push_come(text, &after),
        (Some(before), None) => push_gone(text, &before, change.effect),
        (Some(before), Some(after)) => push_changed(text, &before, &after, change.effect),
        (None, None) => Ok(()),
    }
}

/// Appends what came to be held, and from where.
fn push_come(text: &mut String, mapping: &Mapping) -> Result<(), AllocError> {
    text.push_str("gave ")?;
    push_rights(text, mapping.rights)?;
    write!(text, " of frame {}", mapping.frame)?;
    match mapping.origin {
        Some(origin) => {
            text.push_str(" from ")?;
            push_place(text, origin)
        }
        None => text.push_str(", as a root"),
    }
}

/// Appends how a page came to hold nothing.
fn push_gone(text: &mut String, before: &Mapping, effect: Effect) -> Result<(), AllocError> {
    match effect {
        Effect::Granted(target) => {
            text.push_str("granted to ")?;
            push_place(text, target)?;
        }
        _ => {
            text.push_str("took ")?;
            push_rights(text, before.rights)?;
        }
    }
    text.push_str("; nothing is left")
}

/// Appends how a page came to hold something else.
fn push_changed(
    text: &mut String,
    before: &Mapping,
    after: &Mapping,
    effect: Effect,
) -> Result<(), AllocError> {
    match effect {
        Effect::Moved => push_moved(text, before, after),
        Effect::Withheld => push_new_rights(text, "a grant withheld ", before.rights, after.rights),
        Effect::Changed => push_new_rights(text, "took ", before.rights, after.rights),
        _ => {
            text.push_str("replaced what was held: ")?;
            push_come(text, after)
        }
    }
}

/// Appends where the origin of a page went, and which rights the grant that moved it withheld.
fn push_moved(text: &mut String, before: &Mapping, after: &Mapping) -> Result<(), AllocError> {
    text.push_str("its origin moved from ")?;
    push_origin(text, before.origin)?;
    text.push_str(" to ")?;
    push_origin(text, after.origin)?;
    if before.rights == after.rights {
        return Ok(());
    }
    text.push_str("; ")?;
    push_new_rights(text, "the grant withheld ", before.rights, after.rights)
}

/// Appends which rights a page lost, behind words for how, which it gained, and what they were and are.
fn push_new_rights(
    text: &mut String,
    lost: &str,
    before: Rights,
    after: Rights,
) -> Result<(), AllocError> {
    let taken = before.without(after);
    let given = after.without(before);
    if !taken.is_empty() {
        text.push_str(lost)?;
        push_rights(text, taken)?;
        text.push_str(if given.is_empty() { "" } else { "; " })?;
    }
    if !given.is_empty() {
        text.push_str("gave ")?;
        push_rights(text, given)?;
    }
    text.push_str(": ")?;
    push_rights(text, before)?;
    text.push_str(" became ")?;
    push_rights(text, after)
}
