//! Episodes by which pages go with others: back to where one of them came from, or out of a space that holds both.

use crate::beliefs::Place;
use crate::changes::Sending;
use crate::items::Sizes;
use crate::record_parts::size_of_both;
use crate::sends::beside;
use crate::traces::Traces;
use crate::wanted::Wanted;
use fpage::Rights;
use std::alloc::AllocError;

impl Traces {
    /// Makes the next record of an episode by which four pages go back to where one of them came from, so that it
    /// is lost: first what stands beside it, and what stands at its target, are put there.
    pub fn knot_on(&mut self) -> Result<(), AllocError> {
        let knot = match self.held(self.knot) {
            Some(knot) if Wanted::Knot.fits(&self.beliefs, knot) => knot,
            _ => {
                self.left = 0;
                return self.access();
            }
        };
        let Some(origin) = self.known(knot).parent else {
            return self.access();
        };
        let (place, from) = (self.place(knot), self.place(origin));
        let partner = beside(place, from);
        if !self.is_ready(partner, origin) {
            return self.send_something(origin, partner);
        }
        let front = beside(from, place);
        if self.is_in_the_way(front, knot) {
            return self.send_in_front(knot, origin, front);
        }
        self.send_knot(knot, from)
    }

    /// Whether a place is held, and does not derive from a slot.
    fn is_ready(&self, place: Place, origin: u8) -> bool {
        match self.beliefs.find(place) {
            Some(slot) => !self.beliefs.is_under(slot, origin),
            None => false,
        }
    }

    /// Whether a place is to be filled: it is not held, or by something that does not come from the knot and can be
    /// spared.
    fn is_in_the_way(&mut self, front: Place, knot: u8) -> bool {
        match self.beliefs.find(front) {
            None => true,
            Some(held) => {
                self.left > 0
                    && self.known(held).parent != Some(knot)
                    && self.spares(front, 0)
                    && self.dice.chance(30)
            }
        }
    }

    /// Makes a send to the place that the knot goes to, from the knot or from elsewhere.
    fn send_in_front(&mut self, knot: u8, origin: u8, front: Place) -> Result<(), AllocError> {
        if !self.dice.chance(50) {
            return self.send_something(origin, front);
        }
        let one = self.right_of(Rights::all());
        let other = self.right_of(Rights::all());
        self.send_page(knot, front, one.join(other), false)
    }

    /// Makes the send of four pages by which the knot is lost, and sometimes has another follow.
    fn send_knot(&mut self, knot: u8, to: Place) -> Result<(), AllocError> {
        self.left = 0;
        self.lost = self.lost.wrapping_add(1);
        let sending = Sending {
            rights: Rights::all(),
            grants: self.dice.chance(15),
        };
        self.begin_send(self.place(knot).space, to, 2, Rights::all())?;
        self.push_item(knot, to, Sizes { sent: 2, window: 2 }, sending)?;
        if self.dice.chance(45) {
            let another = self.scan(Wanted::Knot);
            self.begin_about(another);
        }
        Ok(())
    }

    /// Makes a send to a place from a slot of another space that neither is a slot nor derives from it.
    fn send_something(&mut self, origin: u8, place: Place) -> Result<(), AllocError> {
        let wanted = Wanted::Stranger {
            above: origin,
            space: place.space,
            other: Some(origin),
        };
        match self.scan(wanted) {
            Some(other) => self.send_page(other, place, Rights::all(), false),
            None => self.access(),
        }
    }

    /// Makes the next record of an episode by which a page goes with one of its space that derives directly from
    /// it: such a one is made first, by a grant to the space of its origin. At last an unmap of the page where it
    /// is now, and an access.
    pub fn nested_on(&mut self) -> Result<(), AllocError> {
        if self.left < 2 {
            return self.after_nested();
        }
        let Some(inner) = self.scan(Wanted::Inner) else {
            return self.make_inner();
        };
        let Some(outer) = self.known(inner).parent else {
            return self.access();
        };
        let from = self.place(outer);
        let size = size_of_both(from.page, self.place(inner).page);
        let to = self.fresh(from.space);
        if to.space == 0 {
            return self.access();
        }
        let window = if self.dice.chance(50) {
            size
        } else {
            self.whole()
        };
        let sending = Sending {
            rights: Rights::all(),
            grants: self.dice.chance(85),
        };
        self.left = 2;
        self.begin_send(from.space, to, window, Rights::none())?;
        self.push_item(outer, to, Sizes { sent: size, window }, sending)?;
        self.knot = self.tip;
        Ok(())
    }

    /// Makes a grant by which a place derives directly from one of its space.
    fn make_inner(&mut self) -> Result<(), AllocError> {
        let Some(slot) = self.scan(Wanted::Knot) else {
            return self.access();
        };
        let Some(origin) = self.known(slot).parent else {
            return self.access();
        };
        let to = beside(self.place(origin), self.place(slot));
        self.send_page(slot, to, Rights::all(), true)
    }

    /// Makes an unmap of the page where it is now, and has an access of the one that came with it follow.
    fn after_nested(&mut self) -> Result<(), AllocError> {
        let inner = self.came_with(self.knot);
        let (Some(knot), Some(inner)) = (self.held(self.knot), inner) else {
            self.left = 0;
            return self.access();
        };
        let rights = self.right_of(self.known(inner).rights);
        self.asked = Some(knot);
        self.revoked = rights;
        self.begin_look(self.place(inner), rights);
        self.revoke_slot(knot, rights)
    }

    /// The place that derives directly from a slot, in its space.
    fn came_with(&mut self, knot: Option<u8>) -> Option<u8> {
        let parent = self.held(knot)?;
        let space = self.place(parent).space;
        self.scan(Wanted::ChildIn { parent, space })
    }
}
