//! The words of records, and records of one word.

use crate::beliefs::{Block, Place, Taking};
use crate::traces::{LARGEST, Traces, pages_of};
use fpage::Rights;
use std::alloc::AllocError;

/// The complete space, without rights.
const COMPLETE: u32 = 0x10;

/// The first word of an item, with the send base 0.
const MAP: u32 = 8;

const GRANT: u32 = 10;

/// The first page of the `2^size` pages that hold a page.
pub fn first_of(page: u32, size: u32) -> u32 {
    page & !pages_of(size).wrapping_sub(1)
}

/// The size of the least block that holds two pages.
pub fn size_of_both(page: u32, other: u32) -> u32 {
    for size in 0..LARGEST {
        if page >> size == other >> size {
            return size;
        }
    }
    LARGEST
}

/// A set, or all rights where it is empty.
pub fn or_all(rights: Rights) -> Rights {
    if rights.is_empty() {
        Rights::all()
    } else {
        rights
    }
}

impl Traces {
    /// Begins a record of a space.
    pub fn begin(&mut self, name: &str, space: u32) -> Result<(), AllocError> {
        self.line.push_str(name)?;
        self.line.push_space(space)
    }

    /// Appends the word of the `2^size` pages that hold a page; of all pages, where the size is that of the space.
    pub fn push_fpage(&mut self, page: u32, size: u32, rights: Rights) -> Result<(), AllocError> {
        let ignored = if self.dice.chance(15) { 8 } else { 0 };
        let low = ignored | rights.number();
        if size == self.whole() && self.dice.chance(60) {
            return self.line.push_word(COMPLETE | low);
        }
        let field = size.min(LARGEST) + 12;
        self.line
            .push_word(first_of(page, size) << 12 | field << 4 | low)
    }

    /// Appends the first word of an item whose send base is a page.
    pub fn push_first(&mut self, grants: bool, page: u32) -> Result<(), AllocError> {
        let mut low = if grants { GRANT } else { MAP };
        if self.dice.chance(25) {
            low |= self.dice.below(2);
            low |= self.dice.below(256) << 4;
        }
        self.line.push_word(page << 12 | low)
    }

    /// Makes an access of a page.
    pub fn access_of(&mut self, place: Place, right: Rights) -> Result<(), AllocError> {
        self.begin("access", place.space)?;
        let offset = self.dice.below(4096);
        self.line.push_word(place.page << 12 | offset)?;
        self.line.push_str(match right.number() {
            2 => ",w",
            1 => ",x",
            _ => ",r",
        })
    }

    /// Makes an access of the place of a slot, by one of some rights.
    pub fn access_slot(&mut self, slot: u8, rights: Rights) -> Result<(), AllocError> {
        let right = self.right_of(rights);
        self.access_of(self.place(slot), right)
    }

    /// Makes an access of the place of a slot, by one of its rights.
    pub fn access_known(&mut self, slot: u8) -> Result<(), AllocError> {
        self.access_slot(slot, self.known(slot).rights)
    }

    /// Makes an unmap of one block, without flush.
    pub fn unmap_of(&mut self, block: Block, rights: Rights) -> Result<(), AllocError> {
        self.begin("unmap", block.place.space)?;
        self.line.push_word(0)?;
        self.push_fpage(block.place.page, block.size, rights)
    }

    /// Makes an unmap of the page of a slot, without flush.
    pub fn unmap_slot(&mut self, slot: u8, rights: Rights) -> Result<(), AllocError> {
        let place = self.place(slot);
        self.unmap_of(Block { place, size: 0 }, rights)
    }

    /// Makes an unmap of the page of a slot, without flush, and believes that what derives from it loses the rights.
    pub fn revoke_slot(&mut self, slot: u8, rights: Rights) -> Result<(), AllocError> {
        let taking = Taking {
            rights,
            flush: false,
        };
        self.beliefs.narrow(slot, taking);
        self.unmap_slot(slot, rights)
    }
}
