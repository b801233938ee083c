//! Where places may stand.

use space::Place;
use std::alloc::{AllocError, Global};
use std::collections::BTreeMap;
use std::mem;

/// In which block of a list each place may stand, and where in it: it need not be so. Who asks looks whether the place stands
/// there, so no clause speaks of hints: a wrong one, or none, costs time and changes no answer.
///
/// Blocks are known by numbers, which stay when blocks before them come and go. A number is kept up to multiples of
/// `NUMBERS`, so a place may stand in one of several blocks where there are very many.
///
/// Places may be chosen so that many have slots near one another. So no more than `STEPS` slots are passed, and what
/// finds none among these stands in a map, where a search takes a logarithm of steps for all places alike.
#[derive(Drop)]
pub struct Hints {
    /// A power of two of slots, or none. A place has the first free one from its own on.
    slots: Vec<Slot>,
    /// How many of the slots have a place.
    taken: usize,
    /// How many of the slots are not free.
    used: usize,
    /// By their keys, the places that found no free slot.
    crowded: BTreeMap<u32, Slot>,
    /// For each number where its block stood when that was last told.
    blocks: Vec<u32>,
    /// Numbers that no block has any more.
    free: Vec<u32>,
}

/// Eight bytes, since there is one for every node and more.
#[derive(Clone, Copy)]
struct Slot {
    /// The key of a place.
    key: u32,
    /// The number of a block, up to multiples of `NUMBERS`; or `NUMBERS`, if the slot is free; or `LEFT`.
    number: u16,
    /// How many nodes of that block stood before it, when it was noted.
    before: u8,
    /// How many stood from it on, itself with them.
    from: u8,
}

/// How many numbers of blocks a slot can tell from one another.
const NUMBERS: u16 = u16::MAX - 1;

/// In place of a number: the slot has no place, and is not free, since places may stand behind it on their way.
const LEFT: u16 = u16::MAX;

/// How many slots are passed on the way to a place at most.
const STEPS: usize = 64;

const FREE: Slot = Slot {
    key: 0,
    number: NUMBERS,
    before: 0,
    from: 0,
};

/// A slot without a place that is not free.
const GAP: Slot = Slot {
    key: 0,
    number: LEFT,
    before: 0,
    from: 0,
};

impl Slot {
    fn has(&self, key: u32) -> bool {
        self.number < NUMBERS && self.key == key
    }
}

/// Where a place may stand.
#[derive(Clone, Copy)]
pub struct Hint {
    /// The number of the block.
    pub number: u32,
    /// Where it stood when that was last told.
    pub block: usize,
    /// How many nodes of the block stood before it, when it was noted. Since then nodes may have come or gone there.
    pub before: usize,
    /// How many stood from it on, itself with them. Where nodes come and go before it alone, this stays so.
    pub from: usize,
}

impl Hints {
    pub fn none(alloc: Global) -> Hints {
        Hints {
            slots: Vec::new(alloc),
            taken: 0,
            used: 0,
            crowded: BTreeMap::new(alloc),
            blocks: Vec::new(alloc),
            free: Vec::new(alloc),
        }
    }

    /// Memory for so many more places and blocks. Places that find no free slot take more as they come.
    pub fn reserve(&mut self, n: usize) -> Result<(), AllocError> {
        let used = self.used.saturating_add(n);
        if self.slots.len() - self.slots.len() / 4 < used {
            self.renew(n)?;
        }
        self.blocks.reserve(n)
    }

    /// Other slots for all places and so many more, of which a third at least is free.
    fn renew(&mut self, n: usize) -> Result<(), AllocError> {
        let wanted = self.taken.saturating_add(self.crowded.len());
        let wanted = wanted.saturating_add(n);
        let least = wanted.saturating_add(wanted / 2);
        let mut len: usize = 16;
        for _ in 0..usize::BITS {
            if len < least {
                len = len.checked_mul(2).ok_or(AllocError)?;
            }
        }
        let alloc = *self.slots.allocator();
        let new = vec![in alloc; FREE; len]?;
        let old = mem::replace(&mut self.slots, new);
        let crowded = mem::replace(&mut self.crowded, BTreeMap::new(alloc));
        self.taken = 0;
        self.used = 0;
        for slot in &old {
            if slot.number < NUMBERS {
                self.note(*slot);
            }
        }
        for slot in crowded.values() {
            self.note(*slot);
        }
        Ok(())
    }

    /// In how many blocks a place may stand.
    pub fn turns(&self) -> usize {
        self.blocks.len() / NUMBERS as usize + 1
    }

    /// The first of them, of a place that found a free slot.
    pub fn first(&self, place: Place) -> Option<Hint> {
        let at = self.slot_of(key_of(place))?;
        let slot = self.slots.get(at)?;
        self.hint_of(*slot, 0)
    }

    /// One of them.
    pub fn get(&self, place: Place, turn: usize) -> Option<Hint> {
        let slot = self.noted(key_of(place))?;
        self.hint_of(slot, turn)
    }

    /// What a slot tells in its turn.
    fn hint_of(&self, slot: Slot, turn: usize) -> Option<Hint> {
        let number = turn.checked_mul(NUMBERS as usize)?;
        let number = number.checked_add(slot.number as usize)?;
        let block = *self.blocks.get(number)?;
        Some(Hint {
            number: u32::try_from(number).ok()?,
            block: block as usize,
            before: slot.before as usize,
            from: slot.from as usize,
        })
    }

    /// What was noted of the place with this key.
    fn noted(&self, key: u32) -> Option<Slot> {
        match self.slot_of(key) {
            Some(at) => self.slots.get(at).copied(),
            None => self.crowded.get(&key).copied(),
        }
    }

    /// The place stands in the block with this number, at this position of so many. Without memory there is no hint.
    pub fn put(&mut self, place: Place, number: u32, offset: usize, len: usize) {
        self.note(Slot {
            key: key_of(place),
            number: (number % NUMBERS as u32) as u16,
            before: (offset % 256) as u8,
            from: (len.wrapping_sub(offset) % 256) as u8,
        });
    }

    /// Takes the slot of a place, or a free one for a place that has none, or puts it into the map.
    fn note(&mut self, slot: Slot) {
        let own = own_slot(slot.key);
        for step in 0..STEPS {
            let at = self.slot_at(own, step);
            let Some(there) = self.slots.get_mut(at) else {
                return;
            };
            let free = there.number == NUMBERS;
            if free || there.has(slot.key) {
                *there = slot;
                self.taken = self.taken.saturating_add(usize::from(free));
                self.used = self.used.saturating_add(usize::from(free));
                return;
            }
        }
        self.note_crowded(slot);
    }

    /// Puts a place into the map.
    // (The calls of the map are not compiled into those that rarely need them, which would have larger frames for it.)
    #[inline(never)]
    fn note_crowded(&mut self, slot: Slot) {
        let _ = self.crowded.insert(slot.key, slot);
    }

    /// No place stands anywhere.
    pub fn forget(&mut self) {
        for slot in &mut self.slots {
            *slot = FREE;
        }
        self.taken = 0;
        self.used = 0;
        let alloc = *self.slots.allocator();
        self.crowded = BTreeMap::new(alloc);
    }

    /// The place stands nowhere.
    pub fn remove(&mut self, place: Place) {
        if self.taken == 0 && self.crowded.is_empty() {
            return;
        }
        let key = key_of(place);
        if !self.crowded.is_empty() {
            self.remove_crowded(key);
        }
        if let Some(at) = self.slot_of(key) {
            self.taken = self.taken.saturating_sub(1);
            self.close_gap(at);
        }
    }

    /// The place with this key is not in the map.
    #[inline(never)]
    fn remove_crowded(&mut self, key: u32) {
        let _ = self.crowded.remove(&key);
    }

    /// Moves what stands behind a slot into it, where that is still on its way, and so on; no further than `STEPS`.
    fn close_gap(&mut self, from: usize) {
        let mut gap = from;
        for step in 1..STEPS {
            let at = self.slot_at(from, step);
            let Some(slot) = self.slots.get(at).copied() else {
                break;
            };
            if slot.number == NUMBERS {
                self.put_slot(gap, FREE);
                self.used = self.used.saturating_sub(1);
                return;
            }
            // What is on the way from its own slot to this one may stand in the gap.
            let own = own_slot(slot.key);
            if self.slot_at(at, 0_usize.wrapping_sub(gap))
                <= self.slot_at(at, 0_usize.wrapping_sub(own))
            {
                self.put_slot(gap, slot);
                gap = at;
            }
        }
        self.put_slot(gap, GAP);
    }

    fn put_slot(&mut self, at: usize, slot: Slot) {
        if let Some(there) = self.slots.get_mut(at) {
            *there = slot;
        }
    }

    /// The slot of the place with this key.
    fn slot_of(&self, key: u32) -> Option<usize> {
        let own = own_slot(key);
        for step in 0..STEPS {
            let at = self.slot_at(own, step);
            let slot = self.slots.get(at)?;
            if slot.has(key) {
                return Some(at);
            }
            if slot.number == NUMBERS {
                return None;
            }
        }
        None
    }

    /// The slot so many behind one, from the last on to the first.
    fn slot_at(&self, own: usize, step: usize) -> usize {
        own.wrapping_add(step) & self.slots.len().wrapping_sub(1)
    }

    /// A number for a new block.
    pub fn number(&mut self) -> u32 {
        if let Some(number) = self.free.pop() {
            return number;
        }
        let number = u32::try_from(self.blocks.len()).unwrap_or(u32::MAX);
        let _ = self.blocks.push(0);
        number
    }

    /// The block with this number is no more.
    pub fn free(&mut self, number: u32) {
        let _ = self.free.push(number);
    }

    /// The block with this number stands there.
    pub fn set_block(&mut self, number: u32, block: usize) {
        if let Some(stands) = self.blocks.get_mut(number as usize) {
            *stands = u32::try_from(block).unwrap_or(u32::MAX);
        }
    }
}

/// A key for a place; two places have the same only where there are more than 4,096 spaces, or more than 2^20 pages of a space.
fn key_of(place: Place) -> u32 {
    (place.space as u32) << 20 ^ place.page
}

/// The slot of the place with this key in so many slots that it can have any; of fewer, the slot is this one up to multiples of
/// their number.
fn own_slot(key: u32) -> usize {
    ((key as u64).wrapping_mul(0x9e37_79b9_7f4a_7c15) >> 32) as usize
}
