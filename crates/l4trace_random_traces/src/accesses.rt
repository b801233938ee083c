//! Accesses.

use crate::beliefs::Place;
use crate::traces::Traces;
use crate::wanted::Wanted;
use fpage::Rights;
use std::alloc::AllocError;

impl Traces {
    /// Makes an access.
    pub fn access(&mut self) -> Result<(), AllocError> {
        let slot = match self.dice.below(100) {
            0..=11 => self.held(self.tip),
            12..=39 => match self.held(self.asked) {
                Some(asked) => return self.access_below(asked),
                None => None,
            },
            40..=47 => self.scan(Wanted::Nested),
            48..=91 => self.scan(Wanted::Any),
            _ => None,
        };
        let Some(slot) = slot else {
            return self.access_any();
        };
        self.seen = Some(slot);
        let rights = if self.dice.chance(80) {
            self.known(slot).rights
        } else {
            Rights::all()
        };
        self.access_slot(slot, rights)
    }

    /// Makes an access of any page that is used.
    fn access_any(&mut self) -> Result<(), AllocError> {
        let space = self.dice.below(self.plan.spaces);
        let page = self.any_page();
        let right = self.right_of(Rights::all());
        self.access_of(Place { space, page }, right)
    }

    /// Makes an access that shows whether the last unmap or grant reached a place that derives from the one it named.
    pub fn access_below(&mut self, asked: u8) -> Result<(), AllocError> {
        let mut slot = self.held(self.tip);
        let is_below = match slot {
            Some(tip) => self.beliefs.is_under(tip, asked),
            None => false,
        };
        if !is_below || self.dice.chance(40) {
            slot = self.scan(Wanted::Under(asked));
        }
        let slot = match slot {
            Some(slot) if !self.dice.chance(15) => slot,
            _ => asked,
        };
        let rights = if self.revoked.is_empty() {
            self.known(slot).rights
        } else {
            self.revoked
        };
        self.access_slot(slot, rights)
    }
}
