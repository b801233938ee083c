//! Episodes about chains: a chain that grows and is cut, and two places of a space in one chain.

use crate::beliefs::{Block, Taking};
use crate::record_parts::size_of_both;
use crate::traces::Traces;
use fpage::Rights;
use std::alloc::AllocError;

impl Traces {
    /// Makes the next record of a chain: a send from its end on; at last a send back, an unmap near its start, two
    /// accesses, and the unmap again.
    pub fn chain_on(&mut self) -> Result<(), AllocError> {
        let Some(tip) = self.held(self.tip) else {
            self.left = 0;
            return self.access();
        };
        match self.left {
            0..=2 => self.end_chain(tip),
            3 => self.unmap_chain(tip),
            4 => match self.way_back(tip) {
                Some(back) => self.send_back(tip, back),
                None => self.lengthen_chain(tip),
            },
            _ => self.lengthen_chain(tip),
        }
    }

    /// A slot of another space that the end of a chain derives from.
    fn way_back(&mut self, tip: u8) -> Option<u8> {
        let back = self.ancestor(tip)?;
        if self.place(back).space == self.place(tip).space {
            return None;
        }
        Some(back)
    }

    /// Makes a send from the end of a chain to a place that it derives from.
    fn send_back(&mut self, tip: u8, back: u8) -> Result<(), AllocError> {
        let rights = if self.dice.chance(65) {
            Rights::all()
        } else {
            Rights::none()
        };
        let grants = self.dice.chance(45);
        self.send_page(tip, self.place(back), rights, grants)
    }

    /// Makes a send from the end of a chain on.
    fn lengthen_chain(&mut self, tip: u8) -> Result<(), AllocError> {
        let rights = Rights::of_bits(match self.dice.below(100) {
            0..=87 => 7,
            88..=91 => 6,
            92..=95 => 5,
            _ => 3,
        });
        let place = self.fresh(self.place(tip).space);
        let grants = self.dice.chance(2);
        self.send_page(tip, place, rights, grants)
    }

    /// Makes a record behind the unmap of a chain.
    fn end_chain(&mut self, tip: u8) -> Result<(), AllocError> {
        let Some(asked) = self.held(self.asked) else {
            return self.access();
        };
        match self.left {
            2 => self.access_below(asked),
            1 => self.access_known(tip),
            // It takes nothing more: the status alone is news.
            _ => self.unmap_slot(asked, self.revoked),
        }
    }

    /// Makes an unmap that takes one or two rights from all of a chain behind one of its first places.
    fn unmap_chain(&mut self, tip: u8) -> Result<(), AllocError> {
        let kept = self.dice.below(3);
        let levels = self.beliefs.depth(tip).saturating_sub(kept);
        let slot = self.beliefs.above(tip, levels);
        let has = self.known(tip).rights;
        let mut rights = self.right_of(has);
        self.asked = Some(slot);
        self.revoked = rights;
        if self.dice.chance(60) {
            let other = self.right_of(Rights::all().without(has));
            rights = rights.join(other);
        }
        self.revoke_slot(slot, rights)
    }

    /// Makes the next record about a place that derives from another of its space: an access, an unmap of both, and
    /// a look at what it did.
    pub fn fold_on(&mut self) -> Result<(), AllocError> {
        let Some(inner) = self.held(self.knot) else {
            self.left = 0;
            return self.access();
        };
        let Some(outer) = self.beliefs.outer(inner) else {
            self.left = 0;
            return self.access();
        };
        match self.left {
            3 => self.access_known(inner),
            1 if !self.revoked.is_empty() => self.access_of(self.place(inner), self.revoked),
            0..=1 => {
                self.knot = self.known(inner).parent;
                self.left = 0;
                self.ask()
            }
            _ => self.unmap_both(outer, inner),
        }
    }

    /// Makes an unmap of a place and of another of its space.
    fn unmap_both(&mut self, outer: u8, inner: u8) -> Result<(), AllocError> {
        let known = self.known(inner);
        let rights = if self.dice.chance(65) {
            self.right_of(known.rights)
        } else {
            Rights::none()
        };
        let block = Block {
            place: known.place,
            size: size_of_both(self.place(outer).page, known.place.page),
        };
        self.asked = Some(inner);
        self.revoked = rights;
        self.beliefs.note_unmap(
            block,
            Taking {
                rights,
                flush: false,
            },
        );
        self.unmap_of(block, rights)
    }
}
