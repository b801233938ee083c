//! Where the words of each shard are found.

ghost use Rattle.std.specs.Prelude.{◌≡◌, ℕ, ◌+◌, ◌*◌, ◌/◌, ◌<◌, ◌≤◌, ◌^◌, length, slice_index, IfOk, OnOk, OnErr};

use crate::directory::{Directory, NOWHERE};
use std::alloc::{AllocError, Global};
use std::marker::Model;

/// With so many shards at most there is a list of their positions from the start: 128 KiB.
const FEW_SHARDS: u32 = 1 << 15;

/// A directory, and beside it a list of what it tells of each shard, where there can be few: so it need not be asked for a
/// word. A contract sees the directory.
#[derive(Drop)]
pub struct Finder {
    directory: Directory,
    positions: Vec<u32>,
}

impl Model for Finder {
    ghost use Rattle.space.specs.declared.directory.Directory.{Directory};
    ghost use Rattle.space.specs.Positions.{AreCopied};

    ghost Value = { Directory };

    ghost view = { λ f. f.directory };

    ghost invariant = { λ f. AreCopied f.directory f.positions.items };
}

impl Finder {
    ghost use Rattle.std.specs.Prelude.{◌≡◌, ℕ, ◌+◌, ◌*◌, ◌/◌, ◌<◌, ◌≤◌, ◌^◌, length, slice_index, IfOk, OnOk, OnErr};
    ghost use Rattle.space.specs.Leaves.{nowhere};
    ghost use Rattle.space.specs.Positions.{most_of, count_of, position_in, AreRunsOf, IsAdded, IsSame};

    /// Finds so many shards, none of which is there.
    ///
    /// Fails where memory is refused.
    pub fn new(alloc: Global, most: u32) -> Result<Self, AllocError>
        requires few { most ≤ 2 ^ 23 }
        ensures most { IfOk result (λ d. most_of d ≡ most) }
        ensures count { IfOk result (λ d. count_of d ≡ 0) }
        ensures none { IfOk result (λ d. (shard : ℕ) → position_in d shard ≡ nowhere) }
    {
        let directory = Directory::new(alloc, most)?;
        let listed = if most <= FEW_SHARDS { most } else { 0 };
        let positions = vec![in alloc; NOWHERE; listed as usize]?;
        Ok(Finder {
            directory,
            positions,
        })
    }

    /// How many shards there can be.
    pub fn most(&self) -> usize
        ensures { result ≡ most_of self.now }
    {
        self.directory.most()
    }

    /// How many shards are there.
    pub fn count(&self) -> u32
        ensures count { result ≡ count_of self.now }
        ensures few { count_of self.now ≤ most_of self.now }
    {
        self.directory.count()
    }

    /// Where the words of a shard stand; `NOWHERE` where it is not there.
    #[inline]
    pub fn position(&self, shard: usize) -> u32
        requires { shard < most_of self.now }
        ensures { result ≡ position_in self.now shard }
    {
        match self.positions.get(shard) {
            Some(position) => *position,
            None => self.directory.position(shard),
        }
    }

    /// Adds a shard that is not there, behind the others.
    ///
    /// Fails where memory is refused: then all shards are where they were.
    pub fn add(&mut self, shard: usize) -> Result<(), AllocError>
        requires within { shard < most_of self.old }
        requires absent { position_in self.old shard ≡ nowhere }
        ensures ok { OnOk result (IsAdded self.old self.new shard) }
        ensures err { OnErr result (IsSame self.old self.new) }
    {
        let position = self.directory.count();
        self.directory.add(shard)?;
        if shard < self.positions.len() {
            self.positions[shard] = position;
        }
        Ok(())
    }

    /// The first live shard from one on, or the end of those that are asked for, as the directory finds it.
    pub fn next(&self, from: usize, end: usize, live: &[u8], runs: &[u32]) -> usize
        requires from { from ≤ end }
        requires end { end ≤ most_of self.now }
        requires live { length live.now ≡ count_of self.now }
        requires all_runs { most_of self.now ≤ length runs.now * 256 }
        requires runs { AreRunsOf self.now live.now runs.now }
        ensures from { from ≤ result }
        ensures end { result ≤ end }
        ensures there { result < end → position_in self.now result < count_of self.now }
        ensures dead { (shard : ℕ) → from ≤ shard → shard < result → slice_index live.now (position_in self.now shard) ≡ 0 }
    {
        self.directory.next(from, end, live, runs)
    }

    /// The first live shard from one on, or the end, of shards of one run of 16.
    pub fn next_in_leaf(&self, from: usize, end: usize, live: &[u8]) -> usize
        requires from { from < end }
        requires end { end ≤ most_of self.now }
        requires run { end ≤ (from / 16 + 1) * 16 }
        requires live { length live.now ≡ count_of self.now }
        ensures from { from ≤ result }
        ensures end { result ≤ end }
        ensures there { result < end → position_in self.now result < count_of self.now }
        ensures dead { (shard : ℕ) → from ≤ shard → shard < result → slice_index live.now (position_in self.now shard) ≡ 0 }
    {
        self.directory.next_in_leaf(from, end, live)
    }
}
