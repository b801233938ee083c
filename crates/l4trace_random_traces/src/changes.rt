//! How sends and unmaps change what is believed to be held.

use crate::beliefs::{Beliefs, Block, Place, Slot, Taking};
use crate::dice::Dice;
use crate::wanted::Wanted;
use fpage::Rights;

/// What is sent of pages.
#[derive(Clone, Copy)]
pub struct Sending {
    pub rights: Rights,
    pub grants: bool,
}

impl Beliefs {
    /// Takes rights from what derives from a slot, and with `flush` from the slot.
    pub fn narrow(&mut self, above: u8, taking: Taking) {
        for slot in 0..=u8::MAX {
            let is_named = slot == above && taking.flush;
            if self.is_held(slot) && (is_named || self.is_under(slot, above)) {
                let left = self.at(slot).rights.without(taking.rights);
                self.set_rights(slot, left);
            }
        }
    }

    /// Takes what an unmap of a block takes.
    pub fn note_unmap(&mut self, block: Block, taking: Taking) {
        if taking.rights.is_empty() {
            return;
        }
        for slot in 0..=u8::MAX {
            if self.is_held(slot) && block.holds(self.at(slot).place) {
                self.narrow(slot, taking);
            }
        }
    }

    /// Sends the page of a slot to a place. The slot of the place where it is now held.
    pub fn note_pair(
        &mut self,
        dice: &mut Dice,
        source: u8,
        place: Place,
        sending: Sending,
    ) -> Option<u8> {
        let sent = self.at(source);
        let target = self.find(place);
        let given = sent.rights.meet(sending.rights);
        if given.is_empty() {
            return None;
        }
        if let Some(target) = target {
            if self.is_under(source, target) {
                self.count_origin();
                return None;
            }
            let held = self.at(target);
            if held.parent == Some(source) && !sending.grants {
                self.set_rights(target, held.rights.join(given));
                return Some(target);
            }
            self.narrow(target, EVERYTHING);
        }
        let free = self.free_slot(dice, source)?;
        let parent = if sending.grants {
            self.take_granted(source, free, sending.rights);
            sent.parent
        } else {
            Some(source)
        };
        self.put(
            free,
            Slot {
                place,
                rights: given,
                parent,
            },
        );
        Some(free)
    }

    /// Takes the slot of a page that is granted. What derives directly from it then derives from where it is now
    /// held.
    fn take_granted(&mut self, source: u8, free: u8, rights: Rights) {
        let withheld = Rights::all().without(rights);
        self.narrow(
            source,
            Taking {
                rights: withheld,
                flush: true,
            },
        );
        self.set_rights(source, Rights::none());
        for slot in 0..=u8::MAX {
            if self.is_held(slot) && self.at(slot).parent == Some(source) {
                self.set_parent(slot, free);
            }
        }
    }

    /// A free slot. Where there is none, one from which the source does not derive is forgotten.
    fn free_slot(&mut self, dice: &mut Dice, source: u8) -> Option<u8> {
        for slot in 0..=u8::MAX {
            if !self.is_held(slot) {
                return Some(slot);
            }
        }
        let forgotten = self.scan(dice, Wanted::Spare { source })?;
        self.narrow(forgotten, EVERYTHING);
        Some(forgotten)
    }
}

/// What an unmap takes that leaves nothing.
pub const EVERYTHING: Taking = Taking {
    rights: Rights {
        read: true,
        write: true,
        execute: true,
    },
    flush: true,
};
