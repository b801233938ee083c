//! Which page a send sends, and to which place.

use crate::beliefs::{Block, Place};
use crate::changes::EVERYTHING;
use crate::items::Sizes;
use crate::record_parts::or_all;
use crate::traces::{Episode, Look, Traces};
use crate::wanted::Wanted;
use fpage::Rights;
use std::alloc::AllocError;

/// How the place that a page is sent to stands to the page.
#[derive(Clone, Copy, PartialEq, Eq)]
enum Relation {
    Fresh,
    /// The space of its origin, at the page's own place of the origin's block of four.
    Bounce,
    Ancestor,
    Seen,
    Held,
    Sibling,
    Descendant,
}

impl Traces {
    /// Makes a send.
    pub fn send(&mut self) -> Result<(), AllocError> {
        match self.dice.below(100) {
            0..=17 => self.send_extending(),
            18..=28 => self.send_granting(),
            29..=34 => self.begin_replacing(),
            _ => self.send_any(),
        }
    }

    /// Makes a send of one item or more, of pages that any other send may name.
    fn send_any(&mut self) -> Result<(), AllocError> {
        let Some(slot) = self.source() else {
            return self.access();
        };
        let place = self.target(slot);
        if place.space == 0 {
            // What replaced a root would leave nothing to send.
            let rights = self.rights();
            return self.send_page(slot, place, rights, false);
        }
        let mut sizes = self.sizes();
        if sizes.least() > 0 && !self.spares(place, sizes.least()) {
            sizes.sent = 0;
        }
        let items = match self.dice.below(100) {
            0..=51 => 1,
            52..=71 => 2,
            72..=85 => 3,
            86..=96 => 5,
            _ => 31,
        };
        self.send_items(slot, place, sizes, items)
    }

    /// The slot whose page is sent.
    fn source(&mut self) -> Option<u8> {
        let slot = match self.dice.below(100) {
            0..=44 => self.held(self.tip),
            45..=56 => self.held(self.seen),
            57..=66 => self.scan(Wanted::Root),
            _ => None,
        };
        match slot {
            None => self.scan(Wanted::Any),
            _ => slot,
        }
    }

    /// The sizes of a send fpage and of a window.
    fn sizes(&mut self) -> Sizes {
        let whole = self.whole();
        let (sent, window) = match self.dice.below(100) {
            0..=29 => (0, whole),
            30..=49 => (0, 1 + self.dice.below(3)),
            50..=57 => (1 + self.dice.below(3), 0),
            58..=65 => (2 + self.dice.below(2), 1),
            66..=82 => {
                let both = self.dice.below(4);
                (both, both)
            }
            83..=94 => {
                let sent = 1 + self.dice.below(2);
                (sent, 2 + self.dice.below(2))
            }
            95..=97 => (whole, self.dice.below(3)),
            _ => (whole, whole),
        };
        Sizes { sent, window }
    }

    /// Whether few places would go with `2^size` pages; else yes one time of four.
    pub fn spares(&mut self, place: Place, size: u32) -> bool {
        self.beliefs.removed(Block { place, size }, EVERYTHING) <= 2 || self.dice.chance(25)
    }

    /// The place that the page of a slot is sent to.
    fn target(&mut self, slot: u8) -> Place {
        let relation = self.relation();
        let known = self.known(slot);
        if relation == Relation::Bounce {
            if let Some(place) = self.bounce(slot) {
                return place;
            }
        } else if relation != Relation::Fresh {
            if let Some(found) = self.relative(slot, relation) {
                if relation == Relation::Ancestor || self.may_be_replaced(found) {
                    if relation == Relation::Seen {
                        self.then_ask(self.parent(Some(found)));
                    }
                    return self.place(found);
                }
            }
        }
        self.fresh(known.place.space)
    }

    /// How the place that a page is sent to stands to the page.
    fn relation(&mut self) -> Relation {
        let relation = match self.dice.below(100) {
            0..=45 => Relation::Fresh,
            46..=60 => Relation::Bounce,
            61..=74 => Relation::Ancestor,
            75..=81 => Relation::Seen,
            82..=88 => Relation::Held,
            89..=92 => Relation::Sibling,
            _ => Relation::Descendant,
        };
        if self.lacks(self.beliefs.origins()) {
            Relation::Ancestor
        } else {
            relation
        }
    }

    /// The place in the space of a slot's origin, at the slot's own place of the origin's block of four.
    fn bounce(&self, slot: u8) -> Option<Place> {
        let place = self.place(slot);
        let origin = self.place(self.known(slot).parent?);
        if origin.space == 0 || origin.space == place.space {
            return None;
        }
        Some(beside(origin, place))
    }

    /// A slot that stands so to another, and lies in another space.
    fn relative(&mut self, slot: u8, relation: Relation) -> Option<u8> {
        let found = match relation {
            Relation::Ancestor => self.ancestor(slot),
            Relation::Seen => self.held(self.seen),
            Relation::Sibling => self.scan(Wanted::Sibling(slot)),
            Relation::Descendant => self.scan(Wanted::Under(slot)),
            _ => self.scan(Wanted::Any),
        }?;
        if self.place(found).space == self.place(slot).space {
            return None;
        }
        Some(found)
    }

    /// A slot from which a slot derives, at any level.
    pub fn ancestor(&mut self, slot: u8) -> Option<u8> {
        let depth = self.beliefs.depth(slot);
        if depth == 0 {
            return None;
        }
        let levels = self.dice.below(depth).wrapping_add(1);
        Some(self.beliefs.above(slot, levels))
    }

    /// Whether a slot is no root, and what derives from it is little or can be spared.
    fn may_be_replaced(&mut self, slot: u8) -> bool {
        self.parent(Some(slot)).is_some() && self.spares(self.place(slot), 0)
    }

    // What a look follows

    /// Has an access follow.
    pub fn then_look(&mut self, place: Place, right: Rights) {
        if self.left == 0 {
            self.begin_look(place, right);
        }
    }

    /// Has an access follow, in place of what was to follow.
    pub fn begin_look(&mut self, place: Place, right: Rights) {
        self.episode = Episode::Look;
        self.left = 1;
        self.look = Look { place, right };
    }

    /// Has an unmap follow that asks a slot for its status.
    pub fn then_ask(&mut self, slot: Option<u8>) {
        if self.left == 0 && self.held(slot).is_some() {
            self.begin_at(Episode::Ask, 1, slot);
        }
    }

    /// Has an episode of so many records follow, about a slot.
    pub fn begin_at(&mut self, episode: Episode, left: u32, slot: Option<u8>) {
        self.episode = episode;
        self.left = left;
        self.knot = slot;
    }

    // Sends that extend

    /// Makes a map onto a place that derives directly from its source, if it can be with rights that the place lacks.
    fn send_extending(&mut self) -> Result<(), AllocError> {
        let mut child = self.held(self.seen);
        if self.parent(child).is_none() || self.dice.chance(40) {
            child = self.scan(Wanted::Narrower);
            if self.dice.chance(50) {
                let below = self.scan(Wanted::BelowNarrower);
                child = self.parent(below);
            }
        }
        let Some(slot) = child else {
            return self.access();
        };
        if child != self.seen && self.left == 0 && self.dice.chance(40) {
            self.begin_at(Episode::Extend, 1, child);
            return self.access_known(slot);
        }
        self.extend(slot)
    }

    /// Makes a map onto a place from its origin.
    pub fn extend(&mut self, child: u8) -> Result<(), AllocError> {
        let Some(parent) = self.parent(Some(child)) else {
            return self.access();
        };
        let place = self.place(child);
        if self.place(parent).space == place.space {
            return self.access();
        }
        let has = self.known(parent).rights;
        let lacking = has.without(self.known(child).rights);
        let rights = self.extending_rights(lacking);
        self.send_page(parent, place, rights, false)?;
        self.asked = Some(child);
        self.revoked = or_all(lacking);
        let how = self.dice.below(100);
        let below = if how < 28 {
            self.scan(Wanted::Under(child))
        } else {
            None
        };
        if let Some(below) = below {
            let right = self.right_of(or_all(lacking.meet(rights)));
            self.then_look(self.place(below), right);
        } else if how >= 70 {
            self.then_ask(Some(child));
        } else {
            let right = self.right_of(unlike(rights, has, lacking));
            self.then_look(place, right);
        }
        Ok(())
    }

    /// The rights of a map onto a place that lacks some of its origin's.
    fn extending_rights(&mut self, lacking: Rights) -> Rights {
        let missing = self.right_of(lacking);
        let there = self.right_of(Rights::all().without(lacking));
        let any = self.dice.below(8);
        match self.dice.below(100) {
            0..=25 => lacking,
            26..=45 => missing,
            46..=65 => there,
            66..=89 => Rights::all(),
            _ => Rights::of_bits(any),
        }
    }

    // Sends that replace

    /// Makes an access of a place, after which another page replaces it, and its origin is asked.
    fn begin_replacing(&mut self) -> Result<(), AllocError> {
        let Some(slot) = self.scan(Wanted::Derived) else {
            return self.access();
        };
        if !self.spares(self.place(slot), 0) {
            return self.access();
        }
        self.begin_at(Episode::Replace, 2, Some(slot));
        self.access_known(slot)
    }

    /// The next record of an episode by which a page takes the place of another.
    pub fn replace_on(&mut self) -> Result<(), AllocError> {
        let parent = self.parent(self.knot);
        let Some(knot) = self.held(self.knot) else {
            return self.ask();
        };
        if self.left == 0 {
            return self.ask();
        }
        let place = self.place(knot);
        let wanted = Wanted::Stranger {
            above: knot,
            space: place.space,
            other: parent,
        };
        let other = self.scan(wanted);
        self.knot = parent;
        match other {
            Some(other) => self.send_page(other, place, Rights::all(), false),
            None => self.access(),
        }
    }

    // Sends that grant

    /// Makes a grant of what was accessed last, or of a slot that has derived ones.
    fn send_granting(&mut self) -> Result<(), AllocError> {
        let mut slot = self.held(self.seen);
        if self.parent(slot).is_none() || self.dice.chance(50) {
            let second = self.scan(Wanted::Second);
            slot = self.parent(second);
        }
        let Some(granted) = slot else {
            return self.access();
        };
        if slot != self.seen && self.left == 0 && self.dice.chance(50) {
            self.begin_at(Episode::Grant, 1, slot);
            let below = if self.dice.chance(50) {
                None
            } else {
                self.scan(Wanted::Under(granted))
            };
            return self.access_known(below.unwrap_or(granted));
        }
        self.grant(granted)
    }

    /// Makes a grant of the page of a slot.
    pub fn grant(&mut self, slot: u8) -> Result<(), AllocError> {
        let parent = self.parent(Some(slot));
        if parent.is_none() {
            return self.access();
        }
        let withheld = self.withheld(slot);
        let place = self.place_granted_to(slot);
        self.send_page(slot, place, Rights::all().without(withheld), true)?;
        self.asked = self.tip;
        self.revoked = withheld;
        self.look_after_grant(parent, withheld);
        Ok(())
    }

    /// The right that a grant of the page of a slot withholds, or none.
    fn withheld(&mut self, slot: u8) -> Rights {
        let has = self.known(slot).rights;
        if self.dice.chance(40) {
            return Rights::none();
        }
        let withheld = self.right_of(has);
        if withheld == has {
            Rights::none()
        } else {
            withheld
        }
    }

    /// Where the page of a slot is granted to: now and then onto what derives directly from it.
    fn place_granted_to(&mut self, slot: u8) -> Place {
        let space = self.place(slot).space;
        let place = self.fresh(space);
        if self.dice.chance(12) {
            if let Some(child) = self.scan(Wanted::Child(slot)) {
                if self.place(child).space != space {
                    return self.place(child);
                }
            }
        }
        place
    }

    /// Has a record follow that shows what a grant did.
    fn look_after_grant(&mut self, parent: Option<u8>, withheld: Rights) {
        let how = self.dice.below(100);
        let mut below = None;
        if let Some(tip) = self.tip {
            if how >= 60 && !withheld.is_empty() {
                below = self.scan(Wanted::Under(tip));
            }
        }
        if let Some(below) = below {
            self.then_look(self.place(below), withheld);
            return;
        }
        match self.held(self.tip) {
            Some(tip) if how >= 40 && how < 60 => {
                let right = self.right_of(or_all(withheld));
                self.then_look(self.place(tip), right);
            }
            _ => self.then_ask(if how < 20 { parent } else { self.tip }),
        }
    }
}

/// A page in the block of four that holds a place, which lies in its own block as another place does in its.
pub fn beside(place: Place, other: Place) -> Place {
    Place {
        page: place.page & !3 | other.page & 3,
        ..place
    }
}

/// The rights that a map onto a place was given and its origin lacks, or those that the place lacks and was not
/// given.
fn unlike(rights: Rights, has: Rights, lacking: Rights) -> Rights {
    let given = rights.without(has);
    if given.is_empty() {
        or_all(lacking.without(rights))
    } else {
        given
    }
}
