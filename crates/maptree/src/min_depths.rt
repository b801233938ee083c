//! For each block of a list a depth that none of its nodes goes below.

ghost use Rattle.std.specs.Prelude.{◌≡◌, ◌≤◌, ◌<◌, ◌+◌, ◌*◌, ◌/◌, ℕ, length, slice_index};

use std::alloc::{AllocError, Global};
use std::marker::Model;

/// How many blocks are a group.
const GROUP: usize = 64;

/// For each block a depth that none of its nodes goes below, and the same for groups of blocks, so that a search by depths
/// passes over whole groups.
#[derive(Drop)]
pub struct MinDepths {
    /// For each block.
    blocks: Vec<u32>,
    /// For each group of 64 blocks, a number that is no greater than those of its blocks.
    groups: Vec<u32>,
}

impl Model for MinDepths {
    ghost use Rattle.std.specs.Prelude.{◌*◌, min, vec_capacity};
    ghost use Rattle.maptree.specs.Blocks.{AreLow, Bounds};

    ghost Value = { Bounds };

    ghost view = { λ l. record { min_depths = l.blocks.items; capacity = min (vec_capacity l.blocks) (64 * vec_capacity l.groups) } };

    ghost invariant = { λ l. AreLow l.groups.items l.blocks.items };
}

impl MinDepths {
    ghost use Rattle.std.specs.Prelude.{◌≡◌, ◌≤◌, ◌<◌, ◌+◌, ℕ, [], ◌∷◌, ◌++◌, length, set, insert, slice_index, IfOk, OnOk};

    /// Of no blocks yet, with room for so many.
    pub fn with_capacity(alloc: Global, blocks: usize) -> Result<MinDepths, AllocError>
        ensures none { IfOk result (λ l. l.min_depths ≡ []) }
        ensures capacity { IfOk result (λ l. blocks ≤ l.capacity) }
    {
        let groups = Vec::with_capacity(alloc, blocks / GROUP + 1)?;
        let blocks = Vec::with_capacity(alloc, blocks)?;
        Ok(MinDepths { blocks, groups })
    }

    /// Memory for so many more blocks.
    pub fn reserve(&mut self, n: usize) -> Result<(), AllocError>
        ensures min_depths { self.new.min_depths ≡ self.old.min_depths }
        ensures ok { OnOk result (length self.old.min_depths + n ≤ self.new.capacity) }
        ensures grows { self.old.capacity ≤ self.new.capacity }
    {
        self.blocks.reserve(n)?;
        self.groups.reserve(n / GROUP + 1)?;
        Ok(())
    }

    /// The depth for a block.
    pub fn get(&self, block: usize) -> u32
        requires { block < length self.now.min_depths }
        ensures { result ≡ slice_index self.now.min_depths block }
    {
        self.blocks[block]
    }

    /// No blocks.
    pub fn clear(&mut self)
        ensures none { self.new.min_depths ≡ [] }
        ensures capacity { self.old.capacity ≤ self.new.capacity }
    {
        self.blocks.clear();
        self.groups.clear();
    }

    /// The depth for one block more.
    pub fn push(&mut self, least: u32)
        requires { length self.old.min_depths < self.old.capacity }
        ensures min_depths { self.new.min_depths ≡ self.old.min_depths ++ least ∷ [] }
        ensures capacity { self.old.capacity ≤ self.new.capacity }
    {
        let block = self.blocks.len();
        if block % GROUP == 0 {
            let opened = self.groups.push(least);
            prove!(opened.is_ok());
        }
        let pushed = self.blocks.push(least);
        prove!(pushed.is_ok());
        let group = block / GROUP;
        self.groups[group] = self.groups[group].min(least);
    }

    /// The depth for one block more, which stands before a block or behind the last.
    pub fn insert(&mut self, block: usize, least: u32)
        requires within { block ≤ length self.old.min_depths }
        requires room { length self.old.min_depths < self.old.capacity }
        ensures min_depths { self.new.min_depths ≡ insert self.old.min_depths block least }
        ensures capacity { self.old.capacity ≤ self.new.capacity }
    {
        if self.blocks.len() % GROUP == 0 {
            let opened = self.groups.push(0);
            prove!(opened.is_ok());
        }
        let inserted = self.blocks.insert(block, least);
        prove!(inserted.is_ok());
        lower_groups(&mut self.groups, &self.blocks, block / GROUP);
    }

    /// Another depth for a block.
    pub fn set(&mut self, block: usize, least: u32)
        requires { block < length self.old.min_depths }
        ensures min_depths { self.new.min_depths ≡ set self.old.min_depths block least }
        ensures capacity { self.old.capacity ≤ self.new.capacity }
    {
        self.blocks[block] = least;
        let group = block / GROUP;
        self.groups[group] = self.groups[group].min(least);
    }

    /// Passes over blocks from one on whose depths are above this: where it stops. The next seven may be above it too.
    pub fn pass_above(&self, from: usize, bound: usize) -> usize
        requires { from ≤ length self.now.min_depths }
        ensures from { from ≤ result }
        ensures within { result ≤ length self.now.min_depths }
        ensures above { (k : ℕ) → from ≤ k → k < result → bound < slice_index self.now.min_depths k }
    {
        let len = self.blocks.len();
        let mut at = from;
        while at < len {
            let group = at / GROUP;
            if bound < self.groups[group] as usize {
                at = ((group + 1) * GROUP).min(len);
            } else if 8 <= len - at && bound < least_of_eight(&self.blocks, at) as usize {
                at += 8;
            } else {
                break;
            }
        }
        at
    }

    /// Passes over blocks before one, the last one first, whose depths are not below this: where it stops. The seven before
    /// may not be below it either.
    pub fn pass_back(&self, end: usize, bound: usize) -> usize
        requires { end ≤ length self.now.min_depths }
        ensures within { result ≤ end }
        ensures not_below { (k : ℕ) → result ≤ k → k < end → bound ≤ slice_index self.now.min_depths k }
    {
        let mut at = end;
        while at > 0 {
            let group = (at - 1) / GROUP;
            if bound <= self.groups[group] as usize {
                at = group * GROUP;
            } else if 8 <= at && bound <= least_of_eight(&self.blocks, at - 8) as usize {
                at -= 8;
            } else {
                break;
            }
        }
        at
    }
}

/// The least of the eight numbers from a position on.
fn least_of_eight(numbers: &[u32], from: usize) -> u32
    requires { from + 8 ≤ length numbers.now }
    ensures { (k : ℕ) → from ≤ k → k < from + 8 → result ≤ slice_index numbers.now k }
{
    let mut least = numbers[from];
    for k in from + 1..from + 8 {
        least = least.min(numbers[k]);
    }
    least
}

/// Has each group from one on the least number of its blocks.
fn lower_groups(groups: &mut [u32], numbers: &[u32], from: usize)
    requires few { 64 * length groups.old < length numbers.now + 64 }
    ensures count { length groups.new ≡ length groups.old }
    ensures before { (g : ℕ) → g < from → slice_index groups.new g ≡ slice_index groups.old g }
    ensures low { (k : ℕ) → k < length numbers.now → from ≤ k / 64 → k / 64 < length groups.old → slice_index groups.new (k / 64) ≤ slice_index numbers.now k }
{
    for group in from..groups.len() {
        groups[group] = least_of_group(numbers, group);
    }
}

/// The least number of the blocks of a group.
fn least_of_group(numbers: &[u32], group: usize) -> u32
    requires { 64 * group < length numbers.now }
    ensures { (k : ℕ) → k < length numbers.now → k / 64 ≡ group → result ≤ slice_index numbers.now k }
{
    let from = group * GROUP;
    let mut least = numbers[from];
    for k in from..from + GROUP.min(numbers.len() - from) {
        least = least.min(numbers[k]);
    }
    least
}
