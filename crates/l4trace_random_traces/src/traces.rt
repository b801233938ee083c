//! Records that reach every rule, by what is believed to be held.

ghost use Rattle.std.specs.Prelude.{◌≤◌, ◌<◌};
ghost use Rattle.l4trace_random_traces.specs.Random.{IsPlan};

use crate::beliefs::{Beliefs, Place, Slot};
use crate::dice::Dice;
use crate::line::Line;
use crate::plan::Plan;
use crate::refusals::COUNT;
use crate::wanted::Wanted;
use fpage::Rights;
use std::alloc::Global;

/// The size of spaces of 32 bits: they have `2^20` pages.
pub const LARGEST: u32 = 20;

/// How many pages at the start of a space are used.
const LOW: u32 = 8;

/// How many pages at the end of a space are used.
const HIGH: u32 = 4;

/// Some records that belong together, and what the next of them does.
#[derive(Clone, Copy)]
pub enum Episode {
    /// Page after page is sent on, and then rights are taken near the first.
    Chain,
    /// Four pages go back to where one of them came from, so that it is lost.
    Knot,
    /// A page goes with one of its space that derives directly from it.
    Nested,
    /// Rights are taken from a page and from one of its space that derives from it.
    Fold,
    /// A page is accessed.
    Look,
    /// An unmap asks a page for its status.
    Ask,
    /// A page takes the place of another.
    Replace,
    /// An unmap near the end of the trace takes the status of a page.
    Late,
    /// A page is granted.
    Grant,
    /// A space is cleared.
    Clear,
    /// A mapping gets more rights.
    Extend,
}

/// An access that is to come next.
#[derive(Clone, Copy)]
pub struct Look {
    pub place: Place,
    pub right: Rights,
}

/// A trace as it is made.
#[derive(Drop)]
pub struct Traces {
    pub plan: Plan,
    pub dice: Dice,
    pub beliefs: Beliefs,
    /// The record that is made.
    pub line: Line,
    /// The slot that was linked last.
    pub tip: Option<u8>,
    /// The slot that was accessed last.
    pub seen: Option<u8>,
    /// The slot that an unmap, a grant or an extending map named last.
    pub asked: Option<u8>,
    /// The rights in which what derives from that slot differs since.
    pub revoked: Rights,
    pub episode: Episode,
    /// How many records the episode has left at most.
    pub left: u32,
    /// The slot of the episode.
    pub knot: Option<u8>,
    pub look: Look,
    /// Which form the next record has that is refused.
    pub form: u32,
    /// How many records were made, this one among them.
    pub made: u64,
    /// How many sends were made by which a pair is lost.
    pub lost: u64,
    ghost served: { IsPlan plan },
}

impl Traces {
    /// A trace of which no record is made.
    pub fn new(alloc: Global, plan: &Plan) -> Self
        requires { IsPlan plan.now }
    {
        let mut dice = Dice::new(plan.seed);
        let form = dice.below(COUNT);
        Traces {
            plan: *plan,
            dice,
            beliefs: Beliefs::new(plan.frames),
            line: Line::new(alloc),
            tip: Some(0),
            seen: Some(0),
            asked: Some(0),
            revoked: Rights::all(),
            episode: Episode::Chain,
            left: 0,
            knot: Some(0),
            look: Look {
                place: Place { space: 0, page: 0 },
                right: Rights::of_bits(4),
            },
            form,
            made: 0,
            lost: 0,
        }
    }

    /// The size of a space: it has two to the power of that many pages.
    pub fn whole(&self) -> u32 {
        self.plan.bits - 12
    }

    /// How many pages a space has.
    pub fn pages(&self) -> u32 {
        pages_of(self.whole())
    }

    /// Whether something came less often than in one of 36 records.
    pub fn lacks(&self, count: u64) -> bool {
        count.saturating_mul(36) < self.made
    }

    // Rights

    /// Rights, most often all.
    pub fn rights(&mut self) -> Rights {
        Rights::of_bits(match self.dice.below(100) {
            0..=66 => 7,
            67..=72 => 6,
            73..=78 => 5,
            79..=84 => 3,
            85..=87 => 4,
            88..=90 => 2,
            91..=93 => 1,
            _ => 0,
        })
    }

    /// One right of some, or none of none.
    pub fn right_of(&mut self, rights: Rights) -> Rights {
        let first = self.dice.below(3);
        for step in 0..3u32 {
            let right = Rights::of_bits(1 << ((first + step) % 3));
            if !rights.meet(right).is_empty() {
                return right;
            }
        }
        Rights::none()
    }

    // Slots and places

    /// What is known of a slot.
    pub fn known(&self, slot: u8) -> Slot {
        self.beliefs.at(slot)
    }

    /// The place of a slot.
    pub fn place(&self, slot: u8) -> Place {
        self.known(slot).place
    }

    /// The slot, if there is one and it is held.
    pub fn held(&self, slot: Option<u8>) -> Option<u8> {
        self.beliefs.held(slot)
    }

    /// The slot of the origin of a slot that is held.
    pub fn parent(&self, slot: Option<u8>) -> Option<u8> {
        self.beliefs.parent(slot)
    }

    /// The first slot from a random one on that is as wanted.
    pub fn scan(&mut self, wanted: Wanted) -> Option<u8> {
        self.beliefs.scan(&mut self.dice, wanted)
    }

    /// One of the pages that are used.
    pub fn any_page(&mut self) -> u32 {
        let page = self.dice.below(LOW + HIGH);
        if page < LOW {
            page
        } else {
            self.pages().wrapping_sub(HIGH + LOW).wrapping_add(page)
        }
    }

    /// Another space.
    pub fn other_space(&mut self, space: u32) -> u32 {
        let other = self.dice.below(self.plan.spaces - 1);
        if other < space { other } else { other + 1 }
    }

    /// A place of another space than the sender's: of four the first that is not held, or the last. In space 0 the
    /// pages at the end alone are taken.
    pub fn fresh(&mut self, sender: u32) -> Place {
        let mut place = Place { space: 0, page: 0 };
        for _ in 0..4 {
            let space = self.other_space(sender);
            let page = self.any_page();
            let high = self.pages().wrapping_sub(HIGH).wrapping_add(page % HIGH);
            place = Place {
                space,
                page: if space == 0 { high } else { page },
            };
            if self.beliefs.find(place).is_none() {
                break;
            }
        }
        place
    }
}

/// `2^size` pages.
pub fn pages_of(size: u32) -> u32
    ensures some { 0 < result }
    ensures few { result ≤ 1048576 }
{
    1 << size.min(LARGEST)
}
