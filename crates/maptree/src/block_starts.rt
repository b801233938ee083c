//! How many nodes stand before each block of a list.

ghost use Rattle.std.specs.Prelude.{◌≡◌, ◌≤◌, ◌<◌, ◌+◌, ◌^◌, ℕ, length, slice_index};
ghost use Rattle.maptree.specs.Blocks.{AreGrouped, IsShifted, grouped, number_at};

use std::alloc::{AllocError, Global};
use std::marker::Model;

/// How many blocks are a group.
const GROUP: usize = 64;

/// For each block how many nodes stand before it. They are counted up to its group of blocks, and from there on, so that a
/// change of a block goes over the blocks of its group and the groups behind, and not over all blocks behind.
#[derive(Drop)]
pub struct Starts {
    /// For each block, how many nodes of its group stand before it.
    inside: Vec<usize>,
    /// For each group, how many nodes stand before it.
    groups: Vec<usize>,
}

impl Model for Starts {
    ghost use Rattle.std.specs.Prelude.{◌*◌, min, vec_capacity};
    ghost use Rattle.maptree.specs.Blocks.{AreGrouped, Grouped};

    ghost Value = { Grouped };

    ghost view = { λ s. record { groups = s.groups.items; inside = s.inside.items; capacity = min (vec_capacity s.inside) (64 * vec_capacity s.groups) } };

    ghost invariant = { λ s. AreGrouped (record { groups = s.groups.items; inside = s.inside.items; capacity = min (vec_capacity s.inside) (64 * vec_capacity s.groups) }) };
}

impl Starts {
    ghost use Rattle.std.specs.Prelude.{◌≡◌, ◌≤◌, ◌<◌, ◌+◌, ◌^◌, ℕ, length, IfOk, OnOk};
    ghost use Rattle.maptree.specs.Blocks.{number_at};

    /// Of no blocks yet, with room for so many.
    pub fn with_capacity(alloc: Global, blocks: usize) -> Result<Starts, AllocError>
        ensures none { IfOk result (λ s. length s.inside ≡ 0) }
        ensures capacity { IfOk result (λ s. blocks ≤ s.capacity) }
    {
        let inside = Vec::with_capacity(alloc, blocks)?;
        let groups = Vec::with_capacity(alloc, blocks / GROUP + 1)?;
        Ok(Starts { inside, groups })
    }

    /// Memory for so many more blocks.
    pub fn reserve(&mut self, n: usize) -> Result<(), AllocError>
        ensures count { length self.new.inside ≡ length self.old.inside }
        ensures before { (k : ℕ) → number_at self.new k ≡ number_at self.old k }
        ensures ok { OnOk result (length self.old.inside + n ≤ self.new.capacity) }
        ensures grows { self.old.capacity ≤ self.new.capacity }
    {
        self.inside.reserve(n)?;
        self.groups.reserve(n / GROUP + 1)?;
        Ok(())
    }

    /// How many nodes stand before a block.
    pub fn get(&self, block: usize) -> usize
        requires { block < length self.now.inside }
        ensures { result ≡ number_at self.now block }
    {
        self.groups[block / GROUP] + self.inside[block]
    }

    /// The last block before which fewer nodes stand than so many, and how many stand before it; of the first one, if there is none.
    /// It is looked for from a block on, block by block.
    pub fn last_below(&self, n: usize, near: usize) -> (usize, usize)
        requires { 0 < length self.now.inside }
        ensures within { result.0 < length self.now.inside }
        ensures before { result.1 ≡ number_at self.now result.0 }
        ensures below { 0 < result.0 → number_at self.now result.0 < n }
        ensures next { result.0 + 1 < length self.now.inside → n ≤ number_at self.now (result.0 + 1) }
    {
        let last = self.inside.len() - 1;
        let mut at = near.min(last);
        let mut before = self.get(at);
        while at > 0 && n <= before {
            at -= 1;
            before = self.get(at);
        }
        while at < last && self.get(at + 1) < n {
            at += 1;
            before = self.get(at);
        }
        (at, before)
    }

    /// No blocks.
    pub fn clear(&mut self)
        ensures none { length self.new.inside ≡ 0 }
        ensures capacity { self.old.capacity ≤ self.new.capacity }
    {
        self.inside.clear();
        self.groups.clear();
    }

    /// One block more, before which so many nodes stand.
    pub fn push(&mut self, before: usize)
        requires room { length self.old.inside < self.old.capacity }
        requires rising { (k : ℕ) → k < length self.old.inside → number_at self.old k ≤ before }
        ensures count { length self.new.inside ≡ length self.old.inside + 1 }
        ensures others { (k : ℕ) → k < length self.old.inside → number_at self.new k ≡ number_at self.old k }
        ensures last { number_at self.new (length self.old.inside) ≡ before }
        ensures capacity { self.old.capacity ≤ self.new.capacity }
    {
        let block = self.inside.len();
        if block % GROUP == 0 {
            let opened = self.groups.push(before);
            prove!(opened.is_ok());
        }
        let pushed = self.inside.push(before - self.groups[block / GROUP]);
        prove!(pushed.is_ok());
    }

    /// One block more, which stands before a block or behind the last, and before which so many nodes stand.
    pub fn insert(&mut self, block: usize, before: usize)
        requires within { block ≤ length self.old.inside }
        requires room { length self.old.inside < self.old.capacity }
        requires above { (k : ℕ) → k < block → number_at self.old k ≤ before }
        requires below { (k : ℕ) → block ≤ k → k < length self.old.inside → before ≤ number_at self.old k }
        requires rising { (j k : ℕ) → j ≤ k → k < length self.old.inside → number_at self.old j ≤ number_at self.old k }
        ensures count { length self.new.inside ≡ length self.old.inside + 1 }
        ensures upto { (k : ℕ) → k < block → number_at self.new k ≡ number_at self.old k }
        ensures here { number_at self.new block ≡ before }
        ensures behind { (k : ℕ) → block ≤ k → k < length self.old.inside → number_at self.new (k + 1) ≡ number_at self.old k }
        ensures capacity { self.old.capacity ≤ self.new.capacity }
    {
        let last = shift(&mut self.inside, &mut self.groups, block, before);
        self.push(last);
    }

    /// A block has so many more nodes.
    pub fn add(&mut self, block: usize, n: usize)
        requires within { block < length self.old.inside }
        requires fits { (k : ℕ) → block < k → k < length self.old.inside → number_at self.old k + n < 2 ^ 64 }
        ensures count { length self.new.inside ≡ length self.old.inside }
        ensures upto { (k : ℕ) → k ≤ block → number_at self.new k ≡ number_at self.old k }
        ensures behind { (k : ℕ) → block < k → k < length self.old.inside → number_at self.new k ≡ number_at self.old k + n }
        ensures capacity { self.old.capacity ≤ self.new.capacity }
    {
        let left = self.inside.len() - block;
        let end = block + left.min(GROUP - block % GROUP);
        add_to(&mut self.inside, block + 1, end, n);
        let groups = self.groups.len();
        add_to(&mut self.groups, block / GROUP + 1, groups, n);
    }

    /// A block has so many nodes less.
    pub fn subtract(&mut self, block: usize, n: usize)
        requires within { block < length self.old.inside }
        requires has { (k : ℕ) → block < k → k < length self.old.inside → number_at self.old block + n ≤ number_at self.old k }
        ensures count { length self.new.inside ≡ length self.old.inside }
        ensures upto { (k : ℕ) → k ≤ block → number_at self.new k ≡ number_at self.old k }
        ensures behind { (k : ℕ) → block < k → k < length self.old.inside → number_at self.new k + n ≡ number_at self.old k }
        ensures capacity { self.old.capacity ≤ self.new.capacity }
    {
        let left = self.inside.len() - block;
        let end = block + left.min(GROUP - block % GROUP);
        subtract_from(&mut self.inside, block + 1, end, n);
        let groups = self.groups.len();
        subtract_from(&mut self.groups, block / GROUP + 1, groups, n);
    }
}

/// Puts a number in at a block, and has each block from there on the number of the block before it. Gives back that of the
/// last.
fn shift(inside: &mut [usize], groups: &mut [usize], block: usize, before: usize) -> usize
    requires grouped { AreGrouped (grouped groups.old inside.old) }
    requires within { block ≤ length inside.old }
    requires above { (k : ℕ) → k < block → number_at (grouped groups.old inside.old) k ≤ before }
    requires below { (k : ℕ) → block ≤ k → k < length inside.old → before ≤ number_at (grouped groups.old inside.old) k }
    requires rising { (j k : ℕ) → j ≤ k → k < length inside.old → number_at (grouped groups.old inside.old) j ≤ number_at (grouped groups.old inside.old) k }
    ensures { IsShifted (grouped groups.old inside.old) (grouped groups.new inside.new) block before result }
{
    let mut carried = before;
    let mut base = if block < inside.len() {
        groups[block / GROUP]
    } else {
        0
    };
    for at in block..inside.len() {
        let group = at / GROUP;
        if at % GROUP == 0 {
            base = groups[group];
            groups[group] = carried;
        }
        let next = base + inside[at];
        inside[at] = carried - groups[group];
        carried = next;
    }
    carried
}

/// Adds a number to those from a position to another.
fn add_to(numbers: &mut [usize], from: usize, to: usize, n: usize)
    requires rising { from ≤ to }
    requires within { to ≤ length numbers.old }
    requires fits { (k : ℕ) → from ≤ k → k < to → slice_index numbers.old k + n < 2 ^ 64 }
    ensures count { length numbers.new ≡ length numbers.old }
    ensures before { (k : ℕ) → k < from → slice_index numbers.new k ≡ slice_index numbers.old k }
    ensures more { (k : ℕ) → from ≤ k → k < to → slice_index numbers.new k ≡ slice_index numbers.old k + n }
    ensures behind { (k : ℕ) → to ≤ k → slice_index numbers.new k ≡ slice_index numbers.old k }
{
    for k in from..to {
        numbers[k] += n;
    }
}

/// Subtracts a number from those from a position to another.
fn subtract_from(numbers: &mut [usize], from: usize, to: usize, n: usize)
    requires rising { from ≤ to }
    requires within { to ≤ length numbers.old }
    requires has { (k : ℕ) → from ≤ k → k < to → n ≤ slice_index numbers.old k }
    ensures count { length numbers.new ≡ length numbers.old }
    ensures before { (k : ℕ) → k < from → slice_index numbers.new k ≡ slice_index numbers.old k }
    ensures less { (k : ℕ) → from ≤ k → k < to → slice_index numbers.new k + n ≡ slice_index numbers.old k }
    ensures behind { (k : ℕ) → to ≤ k → slice_index numbers.new k ≡ slice_index numbers.old k }
{
    for k in from..to {
        numbers[k] -= n;
    }
}
