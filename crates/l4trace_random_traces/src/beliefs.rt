//! What is believed to be held while a trace is made. Some few beliefs are wrong: it is no database.

use crate::dice::Dice;
use crate::wanted::Wanted;
use fpage::Rights;

/// How many slots there are.
const SLOTS: u32 = 256;

/// A page of a space.
#[derive(Clone, Copy, PartialEq, Eq)]
pub struct Place {
    pub space: u32,
    pub page: u32,
}

/// A place that is believed to be held with these rights, and the slot of its origin. A slot without rights is free.
#[derive(Clone, Copy)]
pub struct Slot {
    pub place: Place,
    pub rights: Rights,
    pub parent: Option<u8>,
}

/// A free slot.
const FREE: Slot = Slot {
    place: Place { space: 0, page: 0 },
    rights: Rights {
        read: false,
        write: false,
        execute: false,
    },
    parent: None,
};

/// `2^size` pages that an unmap names, the first of which has a multiple of that as its number.
#[derive(Clone, Copy)]
pub struct Block {
    pub place: Place,
    pub size: u32,
}

impl Block {
    /// Whether a place is one of its pages.
    pub fn holds(self, place: Place) -> bool {
        let size = self.size.min(31);
        place.space == self.place.space && place.page >> size == self.place.page >> size
    }
}

/// What an unmap takes from pages, and from what derives from them.
#[derive(Clone, Copy)]
pub struct Taking {
    pub rights: Rights,
    /// Whether the pages themselves lose the rights, too.
    pub flush: bool,
}

/// What is believed to be held, in 256 slots.
#[derive(Drop)]
pub struct Beliefs {
    slots: [Slot; 256],
    /// How many pairs went to an origin of their source.
    origins: u64,
}

impl Beliefs {
    /// The roots of so many frames are held.
    pub fn new(frames: u32) -> Self {
        let mut slots = [FREE; 256];
        for slot in 0..=u8::MAX {
            let page = u32::from(slot);
            if page < frames {
                let place = Place { space: 0, page };
                slots[slot as usize] = Slot {
                    place,
                    rights: Rights::all(),
                    parent: None,
                };
            }
        }
        Beliefs { slots, origins: 0 }
    }

    /// How many pairs went to an origin of their source.
    pub fn origins(&self) -> u64 {
        self.origins
    }

    /// A slot.
    pub fn at(&self, slot: u8) -> Slot {
        self.slots[slot as usize]
    }

    /// Fills a slot.
    pub fn put(&mut self, slot: u8, known: Slot) {
        self.slots[slot as usize] = known;
    }

    /// Gives a slot other rights; with none it is free.
    pub fn set_rights(&mut self, slot: u8, rights: Rights) {
        let known = self.at(slot);
        self.put(slot, Slot { rights, ..known });
    }

    /// Gives a slot another origin.
    pub fn set_parent(&mut self, slot: u8, parent: u8) {
        let known = self.at(slot);
        let parent = Some(parent);
        self.put(slot, Slot { parent, ..known });
    }

    /// Notes that a page went to an origin of its source.
    pub fn count_origin(&mut self) {
        self.origins = self.origins.wrapping_add(1);
    }

    /// Whether a slot is held.
    pub fn is_held(&self, slot: u8) -> bool {
        !self.at(slot).rights.is_empty()
    }

    /// The slot, if there is one and it is held.
    pub fn held(&self, slot: Option<u8>) -> Option<u8> {
        match slot {
            Some(slot) if self.is_held(slot) => Some(slot),
            _ => None,
        }
    }

    /// The slot of the origin of a slot that is held.
    pub fn parent(&self, slot: Option<u8>) -> Option<u8> {
        self.at(self.held(slot)?).parent
    }

    /// The first slot from a random one on that is as wanted.
    pub fn scan(&self, dice: &mut Dice, wanted: Wanted) -> Option<u8> {
        let start = (dice.below(SLOTS) & 255) as u8;
        for step in 0..=u8::MAX {
            let slot = start.wrapping_add(step);
            if self.is_held(slot) && wanted.fits(self, slot) {
                return Some(slot);
            }
        }
        None
    }

    /// The slot that holds a place.
    pub fn find(&self, place: Place) -> Option<u8> {
        for slot in 0..=u8::MAX {
            if self.is_held(slot) && self.at(slot).place == place {
                return Some(slot);
            }
        }
        None
    }

    /// Whether a slot derives from another.
    pub fn is_under(&self, slot: u8, above: u8) -> bool {
        let mut next = slot;
        for _ in 0..SLOTS {
            match self.at(next).parent {
                None => return false,
                Some(parent) if parent == above => return true,
                Some(parent) => next = parent,
            }
        }
        false
    }

    /// How many slots a slot derives from.
    pub fn depth(&self, slot: u8) -> u32 {
        let mut next = slot;
        for depth in 0..SLOTS {
            match self.at(next).parent {
                None => return depth,
                Some(parent) => next = parent,
            }
        }
        SLOTS
    }

    /// The slot from which a slot derives so many levels up, or the root.
    pub fn above(&self, slot: u8, levels: u32) -> u8 {
        let mut next = slot;
        for _ in 0..levels {
            next = self.at(next).parent.unwrap_or(next);
        }
        next
    }

    /// The next slot that a slot derives from and that lies in the slot's space.
    pub fn outer(&self, slot: u8) -> Option<u8> {
        let space = self.at(slot).place.space;
        let mut next = slot;
        for _ in 0..SLOTS {
            next = self.at(next).parent?;
            if self.at(next).place.space == space {
                return Some(next);
            }
        }
        None
    }

    /// How many places an unmap of a block would leave without rights.
    pub fn removed(&self, block: Block, taking: Taking) -> u32 {
        let mut count = 0u32;
        for slot in 0..=u8::MAX {
            let keeps = !self.at(slot).rights.without(taking.rights).is_empty();
            if self.is_held(slot) && !keeps && self.is_reached(slot, block, taking.flush) {
                count = count.wrapping_add(1);
            }
        }
        count
    }

    /// Whether a slot derives from a place of a block, or with `flush` is one.
    fn is_reached(&self, slot: u8, block: Block, flush: bool) -> bool {
        let mut next = if flush {
            Some(slot)
        } else {
            self.at(slot).parent
        };
        for _ in 0..SLOTS {
            let Some(reached) = next else {
                return false;
            };
            if block.holds(self.at(reached).place) {
                return true;
            }
            next = self.at(reached).parent;
        }
        false
    }
}
