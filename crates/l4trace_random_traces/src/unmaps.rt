//! Unmaps and clears.

ghost use Rattle.std.specs.Prelude.{◌≤◌};

use crate::beliefs::{Block, Place, Taking};
use crate::changes::EVERYTHING;
use crate::record_parts::size_of_both;
use crate::traces::{Episode, Traces};
use crate::wanted::Wanted;
use fpage::Rights;
use l4trace_texts::control_word;
use std::alloc::AllocError;

/// A slot that derives from another of its space, that one, and the size of the least block that holds both.
#[derive(Clone, Copy)]
pub struct Nested {
    pub outer: u8,
    pub inner: u8,
    pub size: u32,
}

/// What an unmap names: a slot, a block of at least a size, and the rights, where they are chosen.
#[derive(Clone, Copy)]
struct Named {
    slot: u8,
    least: u32,
    rights: Option<Rights>,
}

impl Traces {
    /// Makes an unmap.
    pub fn unmap(&mut self) -> Result<(), AllocError> {
        match self.named() {
            Some(named) => self.unmap_named(named),
            None => self.access(),
        }
    }

    /// What an unmap names.
    fn named(&mut self) -> Option<Named> {
        let slot = match self.dice.below(100) {
            0..=17 => self.parent(self.asked),
            18..=39 => match self.held(self.tip) {
                Some(tip) => self.ancestor(tip),
                None => None,
            },
            40..=61 => {
                let seen = self.held(self.seen);
                if self.dice.chance(40) {
                    seen
                } else {
                    self.parent(seen)
                }
            }
            62..=79 => match self.nested() {
                Some(nested) => return Some(self.named_by(nested)),
                None => None,
            },
            _ => None,
        };
        let slot = match slot {
            Some(slot) => slot,
            None => self.scan(Wanted::Any)?,
        };
        Some(Named {
            slot,
            least: 0,
            rights: None,
        })
    }

    /// What an unmap names that takes rights from a slot and from one of its space that derives from it.
    fn named_by(&mut self, nested: Nested) -> Named {
        let rights = self.right_of(self.known(nested.inner).rights);
        Named {
            slot: nested.outer,
            least: nested.size,
            rights: Some(rights),
        }
    }

    /// Two slots of one space, the second of which derives from the first.
    pub fn nested(&mut self) -> Option<Nested> {
        let inner = match self.held(self.seen) {
            Some(seen) if Wanted::NestedOutside.fits(&self.beliefs, seen) => seen,
            _ => self.scan(Wanted::NestedOutside)?,
        };
        let outer = self.beliefs.outer(inner)?;
        let size = size_of_both(self.place(outer).page, self.place(inner).page);
        Some(Nested { outer, inner, size })
    }

    /// Makes an unmap of one or more words, one of which names a slot.
    fn unmap_named(&mut self, named: Named) -> Result<(), AllocError> {
        let space = self.place(named.slot).space;
        let flush = space > 0 && self.dice.chance(28);
        let count = self.words();
        let chosen = if count < 12 {
            self.dice.below(count)
        } else {
            count - 1 - self.dice.below(3)
        };
        self.begin("unmap", space)?;
        self.line.push_word(control_word(flush, count))?;
        for number in 0..count {
            if number == chosen {
                self.push_named(named, flush, count)?;
            } else {
                self.push_other_word(space, flush)?;
            }
        }
        Ok(())
    }

    /// How many words an unmap has.
    fn words(&mut self) -> u32
        ensures some { 1 ≤ result }
        ensures at_most { result ≤ 64 }
    {
        match self.dice.below(100) {
            0..=61 => 1,
            62..=77 => 2,
            78..=87 => 3,
            88..=98 => 12,
            _ => 64,
        }
    }

    /// Appends the word that names a slot.
    fn push_named(&mut self, named: Named, flush: bool, count: u32) -> Result<(), AllocError> {
        let place = self.place(named.slot);
        let size = if named.least > 0 {
            named.least
        } else {
            self.unmapped_size()
        };
        let block = Block { place, size };
        let mut rights = match named.rights {
            Some(rights) => rights,
            None => self.taken(flush),
        };
        let most = if flush { 4 } else { 2 };
        let removed = self.beliefs.removed(block, Taking { rights, flush });
        if removed > most && self.dice.chance(85) {
            rights = Rights::none();
        }
        self.asked = Some(named.slot);
        self.revoked = rights;
        self.push_fpage(place.page, size, rights)?;
        self.beliefs.note_unmap(block, Taking { rights, flush });
        if !rights.is_empty() && (flush || count > 3) && self.dice.chance(60) {
            let right = self.right_of(rights);
            self.then_look(place, right);
        }
        Ok(())
    }

    /// The size of the block that an unmap names.
    fn unmapped_size(&mut self) -> u32 {
        match self.dice.below(100) {
            0..=67 => 0,
            68..=79 => 1,
            80..=91 => 2,
            _ => self.whole(),
        }
    }

    /// The rights that an unmap takes.
    fn taken(&mut self, flush: bool) -> Rights {
        let roll = self.dice.below(100);
        Rights::of_bits(if flush {
            match roll {
                0..=9 => 0,
                10..=33 => 1,
                34..=57 => 2,
                58..=81 => 4,
                _ => 7,
            }
        } else {
            match roll {
                0..=21 => 0,
                22..=39 => 1,
                40..=57 => 2,
                58..=75 => 4,
                76..=81 => 3,
                82..=87 => 5,
                88..=93 => 6,
                _ => 7,
            }
        })
    }

    /// Appends a word that names any pages, most often without rights; it leaves each place some.
    fn push_other_word(&mut self, space: u32, flush: bool) -> Result<(), AllocError> {
        if self.dice.chance(8) {
            let nil = self.dice.below(16);
            return self.line.push_word(nil);
        }
        let page = self.any_page();
        let size = match self.dice.below(100) {
            0..=79 => 0,
            80..=89 => 1,
            _ => 2,
        };
        let block = Block {
            place: Place { space, page },
            size,
        };
        let mut rights = Rights::of_bits(match self.dice.below(100) {
            0..=69 => 0,
            70..=78 => 1,
            79..=87 => 2,
            88..=96 => 4,
            _ => 7,
        });
        if self.beliefs.removed(block, Taking { rights, flush }) > 0 {
            rights = Rights::none();
        }
        self.beliefs.note_unmap(block, Taking { rights, flush });
        self.push_fpage(page, size, rights)
    }

    // Unmaps near the end of the trace

    /// Makes an access of a place with two origins or more, after which an unmap takes its status: the audit shows
    /// where it is passed to.
    pub fn late_unmap(&mut self) -> Result<(), AllocError> {
        let mut slot = self.held(self.tip);
        if self.parent(self.parent(slot)).is_none() || self.dice.chance(70) {
            slot = self.scan(Wanted::Second);
        }
        let Some(slot) = slot else {
            return self.access();
        };
        self.begin_at(Episode::Late, 1, Some(slot));
        self.access_known(slot)
    }

    /// The unmap of such a place.
    pub fn late_on(&mut self) -> Result<(), AllocError> {
        let Some(slot) = self.held(self.knot) else {
            return self.access();
        };
        let rights = Rights::of_bits(match self.dice.below(100) {
            0..=69 => 0,
            70..=79 => 1,
            80..=89 => 2,
            _ => 4,
        });
        self.asked = Some(slot);
        self.revoked = rights;
        self.revoke_slot(slot, rights)
    }

    /// Makes an unmap that asks the slot of the episode for its status.
    pub fn ask(&mut self) -> Result<(), AllocError> {
        match self.held(self.knot) {
            Some(slot) => self.unmap_slot(slot, Rights::none()),
            None => self.access(),
        }
    }

    // Clears

    /// Makes a clear of any space; or an access of a place, then a clear of its space, and then its origin is asked.
    pub fn clear(&mut self) -> Result<(), AllocError> {
        let mut slot = self.scan(Wanted::Derived);
        if let Some(above) = self.parent(slot) {
            if Wanted::Derived.fits(&self.beliefs, above) {
                slot = Some(above);
            }
        }
        match slot {
            Some(known) if self.dice.chance(70) => {
                self.begin_at(Episode::Clear, 2, slot);
                self.access_known(known)
            }
            _ => {
                let space = 1 + self.dice.below(self.plan.spaces - 1);
                self.clear_of(space)
            }
        }
    }

    /// Makes a clear of a space.
    fn clear_of(&mut self, space: u32) -> Result<(), AllocError> {
        let block = Block {
            place: Place { space, page: 0 },
            size: self.whole(),
        };
        self.beliefs.note_unmap(block, EVERYTHING);
        self.begin("clear", space)
    }

    /// The next record of an episode that clears a space.
    pub fn clear_on(&mut self) -> Result<(), AllocError> {
        let Some(knot) = self.held(self.knot) else {
            return self.ask();
        };
        if self.left == 0 {
            return self.ask();
        }
        let space = self.place(knot).space;
        self.knot = self.known(knot).parent;
        if let Some(below) = self.scan(Wanted::UnderOutside { above: knot, space }) {
            if self.dice.chance(50) {
                let right = self.right_of(self.known(below).rights);
                self.begin_look(self.place(below), right);
            }
        }
        self.clear_of(space)
    }
}
