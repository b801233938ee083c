//! Sends, and their items.

ghost use Rattle.std.specs.Prelude.{◌≡◌, ◌≤◌, ◌<◌};

use crate::beliefs::Place;
use crate::changes::Sending;
use crate::record_parts::first_of;
use crate::traces::{Traces, pages_of};
use crate::wanted::Wanted;
use fpage::Rights;
use std::alloc::AllocError;

/// How the pages of an item lie to those of its window, each `2^size` of them.
#[derive(Clone, Copy)]
pub struct Sizes {
    pub sent: u32,
    pub window: u32,
}

impl Sizes {
    /// The lesser of them: the size of what an item pairs.
    pub fn least(self) -> u32 {
        self.sent.min(self.window)
    }

    /// The greater of them.
    fn most(self) -> u32 {
        self.sent.max(self.window)
    }
}

/// The sender and the receiver of a send, two spaces: those that are given, if they are such.
fn ends(from: u32, to: u32, spaces: u32) -> (u32, u32)
    requires { 2 ≤ spaces }
    ensures from { result.0 < spaces }
    ensures to { result.1 < spaces }
    ensures differ { result.0 ≡ result.1 → ⊥ }
{
    let from = from % spaces;
    let to = to % spaces;
    if from != to {
        (from, to)
    } else if from == 0 {
        (from, 1)
    } else {
        (from, 0)
    }
}

impl Traces {
    /// Begins a send with a window of `2^size` pages that holds a page.
    pub fn begin_send(
        &mut self,
        from: u32,
        to: Place,
        size: u32,
        rights: Rights,
    ) -> Result<(), AllocError> {
        let (from, receiver) = ends(from, to.space, self.plan.spaces);
        self.begin("send", from)?;
        self.line.push_space(receiver)?;
        self.push_fpage(to.page, size, rights)
    }

    /// Makes a send of the page of a slot to a place.
    pub fn send_page(
        &mut self,
        slot: u8,
        place: Place,
        rights: Rights,
        grants: bool,
    ) -> Result<(), AllocError> {
        let window = if self.dice.chance(50) {
            0
        } else {
            self.whole()
        };
        let ignored = Rights::of_bits(self.dice.below(8));
        self.begin_send(self.place(slot).space, place, window, ignored)?;
        let sizes = Sizes { sent: 0, window };
        self.push_item(slot, place, sizes, Sending { rights, grants })
    }

    /// Makes a send of so many items to a window that holds a place: first of a block that holds the page of a
    /// slot, to the place, and then of others of its space.
    pub fn send_items(
        &mut self,
        slot: u8,
        place: Place,
        sizes: Sizes,
        items: u32,
    ) -> Result<(), AllocError> {
        let sender = self.place(slot).space;
        let ignored = Rights::of_bits(self.dice.below(8));
        self.begin_send(sender, place, sizes.window, ignored)?;
        let sending = self.sending(slot, sizes.sent);
        self.push_item(slot, place, sizes, sending)?;
        for _ in 1..items {
            self.push_other_item(sender, place, sizes.window)?;
        }
        Ok(())
    }

    /// Appends an item of any block of the sender, or one without pages.
    fn push_other_item(
        &mut self,
        sender: u32,
        place: Place,
        window: u32,
    ) -> Result<(), AllocError> {
        let other = if self.dice.chance(8) {
            None
        } else {
            self.scan(Wanted::InSpace(sender))
        };
        let Some(other) = other else {
            return self.push_empty_item();
        };
        let sent = match self.dice.below(100) {
            0..=59 => 0,
            60..=79 => 1,
            _ => 2,
        };
        let inside = self.any_page() % pages_of(window);
        let to = Place {
            page: first_of(place.page, window) | inside,
            ..place
        };
        let sending = self.sending(other, sent);
        self.push_item(other, to, Sizes { sent, window }, sending)
    }

    /// Appends an item without pages.
    fn push_empty_item(&mut self) -> Result<(), AllocError> {
        let grants = self.dice.chance(10);
        let base = self.dice.below(16);
        self.push_first(grants, base)?;
        let nil = self.dice.below(16);
        self.line.push_word(nil)
    }

    /// What is sent of `2^size` pages that hold the page of a slot. Roots are granted seldom, one by one, and where
    /// there are many.
    fn sending(&mut self, slot: u8, size: u32) -> Sending {
        let rights = self.rights();
        let few = size > 0 || self.plan.frames < 8;
        let percent = match self.known(slot).parent {
            Some(_) => 10,
            None if few => 0,
            None => 2,
        };
        Sending {
            rights,
            grants: self.dice.chance(percent),
        }
    }

    /// Appends the words of an item by which the page of a slot goes to a place, or the blocks that hold them.
    pub fn push_item(
        &mut self,
        slot: u8,
        to: Place,
        sizes: Sizes,
        sending: Sending,
    ) -> Result<(), AllocError> {
        let from = self.place(slot);
        let base = self.send_base(from.page, to.page, sizes);
        self.push_first(sending.grants, base)?;
        self.push_fpage(from.page, sizes.sent, sending.rights)?;
        self.note_item(slot, to, sizes.least(), sending);
        Ok(())
    }

    /// The page of a send base by which a page goes to another.
    fn send_base(&mut self, from: u32, to: u32, sizes: Sizes) -> u32 {
        let count = pages_of(sizes.least());
        let larger = pages_of(sizes.most());
        let page = if sizes.sent > sizes.window { from } else { to };
        let mut base = first_of(page % larger, sizes.least()) | self.dice.below(count);
        if sizes.sent == sizes.window {
            base = self.dice.below(16);
        }
        if self.dice.chance(40) {
            let times = 1 + self.dice.below(3);
            base = base.wrapping_add(larger.wrapping_mul(times));
        }
        base
    }

    /// Notes what an item sends, slot by slot.
    fn note_item(&mut self, slot: u8, to: Place, size: u32, sending: Sending) {
        let from = self.place(slot);
        let first = first_of(from.page, size);
        for other in 0..=u8::MAX {
            let known = self.known(other);
            let is_sent = known.place.space == from.space
                && first_of(known.place.page, size) == first;
            if self.beliefs.is_held(other) && is_sent {
                let page = first_of(to.page, size) | known.place.page.wrapping_sub(first);
                let target = Place { page, ..to };
                let made = self
                    .beliefs
                    .note_pair(&mut self.dice, other, target, sending);
                self.note_tip(made, other == slot);
            }
        }
    }

    /// Notes what was linked last.
    fn note_tip(&mut self, made: Option<u8>, is_wanted: bool) {
        if made.is_some() && (is_wanted || self.held(self.tip).is_none()) {
            self.tip = made;
        }
    }
}
