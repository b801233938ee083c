use crate::limits::Limits;
use crate::next_held::next_held;
use crate::start::{root_trees, root_words};
use crate::tree;
use fpage::Access;
use maptree::Tree;
use space::{Entry, NoMemory, Place, Shards};
use std::alloc::Global;
use std::marker::Model;
use std::ops::Range;

/// What is held: which page holds which frame, with which rights and status, and from which page it came. A contract sees
/// the limits, the holdings of the definitions, and the layout: which places have a word, and at which index.
///
/// Frame, rights and status of a page are in its word, its origin in the derivation tree of its frame. A call that takes the
/// holdings by value gives them back as it left them. Where it is refused they are gone, since words and trees may be
/// half changed by then.
#[derive(Drop)]
pub struct Holdings {
    pub(crate) shards: Shards,
    /// The tree of each frame, at its number.
    pub(crate) trees: Vec<Tree>,
}

impl Model for Holdings {
    ghost use Rattle.holdings.specs.Contents.{Contents};
    ghost use Rattle.holdings.specs.Inner.Held.{contents_of};
    ghost use Rattle.holdings.specs.Inner.Sound.{AreSound};

    ghost Value = { Contents };

    ghost view = { λ h. contents_of h.shards h.trees.items };

    ghost invariant = { λ h. AreSound h.shards h.trees.items };
}

impl Holdings {
    ghost use Rattle.std.specs.Prelude.{◌≡◌, ◌<◌, ◌≤◌, true, IfOk, MatchOption, option_map};
    ghost use Rattle.space.specs.declared.place.Place.{Place};
    ghost use Rattle.space.specs.Directory.{pages_of};
    ghost use Rattle.model.specs.Definitions.Holdings.{at, is_held, origin_at};
    ghost use Rattle.model.specs.Definitions.Records.{are_limits};
    ghost use Rattle.model.specs.Definitions.Touch.{can_touch, touch};
    ghost use Rattle.holdings.specs.Meaning.{limits_of};
    ghost use Rattle.holdings.specs.Layout.{index_in};
    ghost use Rattle.holdings.specs.Places.{IsWithin};
    ghost use Rattle.holdings.specs.Contents.{IsConsistent, at_start, laid_out, left_with, entry_of};
    ghost use Rattle.holdings.specs.Mappings.{AreAbsentFrom, IsNextHeldOf};

    /// The holdings at the start: page `i` of space 0 holds frame `i` with all rights, for each frame.
    ///
    /// Refused, where memory is: `NoMemory`.
    pub fn new(alloc: Global, limits: &Limits) -> Result<Self, NoMemory>
        requires { are_limits (limits_of limits.now) ≡ true }
        ensures { IfOk result (λ held. held ≡ laid_out (at_start (limits_of limits.now)) held.layout) }
    {
        let shards = root_words(alloc, limits)?;
        let trees = root_trees(alloc, limits.frames)?;
        Ok(Holdings { shards, trees })
    }

    /// The same holdings, with memory for the words of so many shards more, if it can be had: then none of these is copied
    /// as they are made.
    pub fn with_room(self, more: usize) -> Self
        ensures { result ≡ self }
    {
        let Holdings { mut shards, trees } = self;
        let _ = shards.reserve(more);
        Holdings { shards, trees }
    }

    /// The limits that the holdings were made with.
    pub fn limits(&self) -> Limits
        ensures limits { limits_of result ≡ self.now.limits }
        ensures consistent { IsConsistent self.now }
    {
        Limits {
            spaces: self.shards.spaces(),
            bits: self.shards.bits(),
            frames: self.trees.len() as u32,
        }
    }

    /// Frame, rights and status of what a page holds.
    pub fn entry(&self, place: Place) -> Option<Entry>
        requires { IsWithin self.now.limits place }
        ensures { result ≡ option_map entry_of (at self.now.holdings place) }
    {
        self.shards.get(place)
    }

    /// The first page of a space, from one on, that holds something. It passes over shards that are not there without a
    /// look at their pages, but for the rest of the first one. Takes no memory.
    pub fn next_held(&self, space: u16, page: u32) -> Option<Place>
        requires { space < self.now.limits.spaces }
        ensures { MatchOption result
            (AreAbsentFrom self.now.holdings space page (pages_of self.now.limits.bits))
            (IsNextHeldOf self.now.holdings space page (pages_of self.now.limits.bits)) }
    {
        let (place, _) = next_held(&self.shards, Place { space, page })?;
        Some(place)
    }

    /// The pages of a space from one on, side by side, of which each holds something; none where that one does not. Behind
    /// them others may hold something too. Takes no memory.
    pub fn held_run(&self, place: Place) -> Range<u32>
        requires { IsWithin self.now.limits place }
        ensures start { result.start ≡ place.page }
        ensures held { (p : Place) → p.space ≡ place.space → result.start ≤ p.page → p.page < result.end → is_held self.now.holdings p ≡ true }
        ensures some { is_held self.now.holdings place ≡ true → place.page < result.end }
    {
        let start = place.page;
        if self.shards.get(place).is_none() {
            return start..start;
        }
        let pages = 1 << (self.shards.bits() - 12);
        start..self.shards.next_run(place, pages).pages.end
    }

    /// The page from which a page came; none for a root, and where nothing is held.
    pub fn origin(&self, place: Place) -> Option<Place>
        requires { IsWithin self.now.limits place }
        ensures { result ≡ origin_at self.now.holdings place }
    {
        let Some(entry) = self.shards.get(place) else {
            return None;
        };
        tree::origin(&self.trees[entry.frame as usize], place)
    }

    /// Which word is that of a page; none where no word stands for it. A page that is held has one, and it stays where
    /// it is: only `map` and `rename` make words, and they move none. Takes no memory.
    pub fn index(&self, place: Place) -> Option<usize>
        requires { IsWithin self.now.limits place }
        ensures { result ≡ index_in self.now.layout place }
    {
        if !self.shards.has(place) {
            return None;
        }
        Some(self.shards.index(place))
    }

    /// Makes one access, if the page is held with the right for it, and says whether it was.
    pub fn touch(&mut self, place: Place, access: Access) -> bool
        requires { IsWithin self.old.limits place }
        ensures answer { result ≡ can_touch self.old.holdings place access }
        ensures left { self.new ≡ left_with self.old (touch self.old.holdings place access) }
    {
        let Some(entry) = self.shards.get(place) else {
            return false;
        };
        if !entry.rights.holds(access) {
            return false;
        }
        self.shards.add_status(place, access.marks());
        true
    }
}
