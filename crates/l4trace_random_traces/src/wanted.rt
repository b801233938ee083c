//! What slots are looked for by.

use crate::beliefs::{Beliefs, Slot};

/// What a slot is looked for by.
#[derive(Clone, Copy)]
pub enum Wanted {
    Any,
    Root,
    /// It has an origin, and does not lie in space 0.
    Derived,
    /// Its origin has an origin.
    Second,
    /// It derives from a place of its own space.
    Nested,
    /// The same outside space 0.
    NestedOutside,
    /// It has fewer rights than its origin.
    Narrower,
    /// Its origin has fewer rights than the origin of that.
    BelowNarrower,
    /// Its origin lies in another space than it and space 0, at another place of its block of four.
    Knot,
    /// Its origin lies in its space, and in its block of eight pages.
    Inner,
    /// It lies in a space.
    InSpace(u32),
    /// It derives from a slot.
    Under(u8),
    /// It derives directly from a slot.
    Child(u8),
    /// It derives directly from a slot, and lies in a space.
    ChildIn {
        parent: u8,
        space: u32,
    },
    /// It derives directly from the origin of a slot, and is not that slot.
    Sibling(u8),
    /// It derives from a slot, and lies outside a space.
    UnderOutside {
        above: u8,
        space: u32,
    },
    /// It does not derive from a slot, lies outside a space, and is not another slot.
    Stranger {
        above: u8,
        space: u32,
        other: Option<u8>,
    },
    /// It can be forgotten: it has an origin, and a source neither is it nor derives from it.
    Spare {
        source: u8,
    },
}

impl Wanted {
    /// Whether a slot that is held is as wanted.
    pub fn fits(self, beliefs: &Beliefs, slot: u8) -> bool {
        let known = beliefs.at(slot);
        match self {
            Wanted::Any => true,
            Wanted::Root => known.parent.is_none(),
            Wanted::Derived => known.place.space > 0 && known.parent.is_some(),
            Wanted::Second => beliefs.parent(known.parent).is_some(),
            Wanted::Nested => beliefs.outer(slot).is_some(),
            Wanted::NestedOutside => known.place.space > 0 && beliefs.outer(slot).is_some(),
            Wanted::Narrower => is_narrower(beliefs, known),
            Wanted::BelowNarrower => match known.parent {
                Some(parent) => is_narrower(beliefs, beliefs.at(parent)),
                None => false,
            },
            Wanted::Knot => is_knot(beliefs, known),
            Wanted::Inner => is_inner(beliefs, known),
            _ => self.is_related(beliefs, slot),
        }
    }

    /// Whether a slot stands to another, or to a space, as wanted.
    fn is_related(self, beliefs: &Beliefs, slot: u8) -> bool {
        let known = beliefs.at(slot);
        let lies_in = known.place.space;
        match self {
            Wanted::InSpace(space) => lies_in == space,
            Wanted::Under(above) => beliefs.is_under(slot, above),
            Wanted::Child(parent) => known.parent == Some(parent),
            Wanted::ChildIn { parent, space } => known.parent == Some(parent) && lies_in == space,
            Wanted::Sibling(other) => {
                known.parent.is_some() && known.parent == beliefs.at(other).parent && slot != other
            }
            Wanted::UnderOutside { above, space } => lies_in != space
                && beliefs.is_under(slot, above),
            Wanted::Stranger {
                above,
                space,
                other,
            } => { lies_in != space && !beliefs.is_under(slot, above) && other != Some(slot) }
            Wanted::Spare { source } => {
                slot != source && known.parent.is_some() && !beliefs.is_under(source, slot)
            }
            _ => false,
        }
    }
}

/// Whether a slot has an origin with other rights.
fn is_narrower(beliefs: &Beliefs, known: Slot) -> bool {
    match known.parent {
        Some(parent) => beliefs.at(parent).rights != known.rights,
        None => false,
    }
}

/// Whether a slot's origin lies in another space than it and space 0, at another place of its block of four.
pub fn is_knot(beliefs: &Beliefs, known: Slot) -> bool {
    let Some(parent) = known.parent else {
        return false;
    };
    let origin = beliefs.at(parent).place;
    let place = known.place;
    origin.space > 0
        && origin.space != place.space
        && place.space > 0
        && (origin.page ^ place.page) & 3 != 0
}

/// Whether a slot's origin lies in its space, which is not space 0, and in its block of eight pages.
fn is_inner(beliefs: &Beliefs, known: Slot) -> bool {
    let Some(parent) = known.parent else {
        return false;
    };
    let origin = beliefs.at(parent).place;
    let place = known.place;
    place.space > 0 && origin.space == place.space && origin.page >> 3 == place.page >> 3
}
