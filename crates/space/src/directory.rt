//! Where the words of each shard stand.

ghost use Rattle.std.specs.Prelude.{◌≡◌, ◌+◌, ◌/◌, ◌%◌, ◌≤◌, ◌^◌, length, IsTrue, IfOk, OnOk, OnErr, ℕ, ◌<◌, slice_index};
ghost use Rattle.space.specs.Leaves.{nowhere, lone_leaf, alone, block_of, with_block, with_leaf, leaf_alone, in_branch, with_one, position_alone, IsFound};

use crate::runs::next_with_life;
use std::alloc::{AllocError, Global};

/// How many numbers stand in a block: in a leaf the positions of its shards, in a branch the entries of its leaves.
const BLOCK: usize = 16;

/// How many shards one leaf finds.
pub const LEAF_SHARDS: usize = BLOCK;

/// How many leaves one branch finds.
const BRANCH_LEAVES: usize = BLOCK;

/// How many shards the leaves of one branch find.
pub const BRANCH_SHARDS: usize = 256;

/// Stands for the position of a shard that is not there.
pub const NOWHERE: u32 = u32::MAX;

/// From here on an entry for a run of 256 shards is no number of a branch: it has the one leaf of the run.
const LONE_LEAF: u32 = 1 << 30;

/// From here on an entry for a run is no number and no leaf: it has the one shard that is there.
const ALONE: u32 = 1 << 31;

/// Where the words of each shard stand, counted in shards. A shard gets its position when it is added: the next one.
///
/// Positions stand in leaves of 16 shards each, and branches of 16 leaves each tell which leaf it is. A leaf is made
/// with the second shard of its run of 16, and a branch with the first shard of a second run of 16. Until then one
/// shard alone stands where the number of its leaf or its branch would, and one leaf alone where that of its branch
/// would. The empty branch and the empty leaf stand for those that are not made: they come first, and no shard is there
/// in them.
#[derive(Drop)]
pub struct Directory {
    /// How many shards there can be, by number.
    most: u32,
    /// How many are there.
    count: u32,
    /// Which branch finds the shards of each run of 256, or its one leaf or its one shard.
    branches: Vec<u32>,
    /// Which leaf finds the shards of each run of 16 of a branch, or its one shard, branch behind branch.
    leaves: Vec<u32>,
    /// The positions of the shards of each leaf, leaf behind leaf.
    positions: Vec<u32>,
    ghost found: { IsFound most count branches.items leaves.items positions.items },
}

impl Directory {
    ghost use Rattle.std.specs.Prelude.{◌≡◌, ℕ, ◌+◌, ◌*◌, ◌/◌, ◌<◌, ◌≤◌, ◌^◌, length, slice_index, IfOk, OnOk, OnErr, IsTrue, ◌↔◌};
    ghost use Rattle.space.specs.Positions.{most_of, count_of, position_in, first_in, entry_in, leaf_in, AreRunsOf, IsAdded, IsSame};
    ghost use Rattle.space.specs.Leaves.{lone_leaf, alone};

    /// A directory of so many shards, none of which is there.
    ///
    /// Fails where memory is refused.
    #[tactic(auto, unfolding(crate::specs::Positions::position_in))]
    pub fn new(alloc: Global, most: u32) -> Result<Self, AllocError>
        requires few { most ≤ 2 ^ 23 }
        ensures most { IfOk result (λ d. most_of d ≡ most) }
        ensures count { IfOk result (λ d. count_of d ≡ 0) }
        ensures none { IfOk result (λ d. (shard : ℕ) → position_in d shard ≡ nowhere) }
    {
        let runs = (most as usize).div_ceil(BRANCH_SHARDS);
        let branches = vec![in alloc; 0; runs]?;
        let leaves = vec![in alloc; 0; BRANCH_LEAVES]?;
        let positions = vec![in alloc; NOWHERE; LEAF_SHARDS]?;
        Ok(Directory {
            most,
            count: 0,
            branches,
            leaves,
            positions,
        })
    }

    /// How many shards there can be.
    pub fn most(&self) -> usize
        ensures { result ≡ most_of self.now }
    {
        self.most as usize
    }

    /// How many shards are there.
    pub fn count(&self) -> u32
        ensures count { result ≡ count_of self.now }
        ensures few { count_of self.now ≤ most_of self.now }
    {
        self.count
    }

    /// Where the words of a shard stand; `NOWHERE` where it is not there.
    #[inline(never)]
    #[tactic(auto, unfolding(crate::specs::Positions::position_in))]
    pub fn position(&self, shard: usize) -> u32
        requires { shard < most_of self.now }
        ensures { result ≡ position_in self.now shard }
    {
        let branch = self.branches[shard / BRANCH_SHARDS];
        if branch >= LONE_LEAF {
            return self.position_without_branch(branch, shard);
        }
        let run = shard / LEAF_SHARDS;
        let leaf = self.leaves[branch as usize * BRANCH_LEAVES + run % BRANCH_LEAVES];
        if leaf >= ALONE {
            return position_alone(leaf, shard);
        }
        self.positions[leaf as usize * LEAF_SHARDS + shard % LEAF_SHARDS]
    }

    /// The same, by the entry of a run of 256 that has one leaf or one shard.
    #[tactic(auto, unfolding(crate::specs::Positions::position_in))]
    fn position_without_branch(&self, entry: u32, shard: usize) -> u32
        requires within { shard < most_of self.now }
        requires entry { entry ≡ first_in self.now (shard / 256) }
        requires none { lone_leaf ≤ entry }
        ensures { result ≡ position_in self.now shard }
    {
        if entry >= ALONE {
            return position_alone(entry, shard);
        }
        let leaf = leaf_alone(entry, shard / LEAF_SHARDS);
        self.positions[leaf as usize * LEAF_SHARDS + shard % LEAF_SHARDS]
    }

    /// What the branch of a run of 16 shards has for it: the number of its leaf, or its one shard.
    fn entry(&self, run: usize) -> u32
        requires { run * 16 < most_of self.now }
        ensures { result ≡ entry_in self.now run }
    {
        let branch = block_of(self.branches[run / BRANCH_LEAVES], LONE_LEAF) as usize;
        self.leaves[branch * BRANCH_LEAVES + run % BRANCH_LEAVES]
    }

    /// The leaf of a run of 16 shards; the empty one where it has none.
    fn leaf(&self, run: usize) -> u32
        requires { run * 16 < most_of self.now }
        ensures { result ≡ leaf_in self.now run }
    {
        let first = self.branches[run / BRANCH_LEAVES];
        if first >= LONE_LEAF {
            return leaf_alone(first, run);
        }
        block_of(self.entry(run), ALONE)
    }

    /// Adds a shard that is not there, at the position behind the others.
    ///
    /// Fails where memory is refused; then each shard is where it was.
    pub fn add(&mut self, shard: usize) -> Result<(), AllocError>
        requires within { shard < most_of self.old }
        requires absent { position_in self.old shard ≡ nowhere }
        ensures ok { OnOk result (IsAdded self.old self.new shard) }
        ensures err { OnErr result (IsSame self.old self.new) }
    {
        self.part_run(shard / LEAF_SHARDS)?;
        self.part_leaf(shard / LEAF_SHARDS)?;
        self.put(shard);
        Ok(())
    }

    /// Makes way for one more shard of a run of 16 whose run of 256 has one leaf or one shard. If the one shard is of
    /// this run of 16, the run gets a leaf. If what is there is of another, the run of 256 gets a branch.
    fn part_run(&mut self, run: usize) -> Result<(), AllocError>
        requires within { run * 16 < most_of self.old }
        ensures same { IsSame self.old self.new }
        ensures parted { OnOk result (leaf_in self.new run ≡ 0 → first_in self.new (run / 16) < lone_leaf) }
    {
        let entry = self.branches[run / BRANCH_LEAVES];
        if entry < LONE_LEAF || self.leaf(run) != 0 {
            return Ok(());
        }
        if entry >= ALONE && entry as usize % BRANCH_SHARDS / LEAF_SHARDS == run % BRANCH_LEAVES {
            self.part_lone_leaf(run)
        } else {
            self.part_branch(run / BRANCH_LEAVES)
        }
    }

    /// Gives a run of 256 shards a branch, where one leaf or one shard is there alone.
    #[tactic(auto, unfolding(crate::specs::Positions::position_in))]
    fn part_branch(&mut self, run: usize) -> Result<(), AllocError>
        requires within { run * 256 < most_of self.old }
        requires none { lone_leaf ≤ first_in self.old run }
        ensures same { IsSame self.old self.new }
        ensures parted { OnOk result (first_in self.new run < lone_leaf) }
    {
        let entry = self.branches[run];
        let place = entry as usize % BRANCH_SHARDS / LEAF_SHARDS;
        let branch = push_block(&mut self.leaves, 0, place, in_branch(entry))?;
        self.branches[run] = branch;
        Ok(())
    }

    /// Gives a run of 16 shards a leaf, where one shard is there alone in its run of 256. Then the leaf is alone there.
    #[tactic(auto, unfolding(crate::specs::Positions::position_in))]
    fn part_lone_leaf(&mut self, run: usize) -> Result<(), AllocError>
        requires within { run * 16 < most_of self.old }
        requires one { alone ≤ first_in self.old (run / 16) }
        requires of_run { first_in self.old (run / 16) % 256 / 16 ≡ run % 16 }
        ensures same { IsSame self.old self.new }
        ensures parted { OnOk result (0 < leaf_in self.new run) }
    {
        let entry = self.branches[run / BRANCH_LEAVES];
        let place = entry as usize % LEAF_SHARDS;
        let position = position_alone(entry, run * LEAF_SHARDS + place);
        let leaf = push_block(&mut self.positions, NOWHERE, place, position)?;
        self.branches[run / BRANCH_LEAVES] = with_leaf(leaf, run);
        Ok(())
    }

    /// Gives a run of 16 shards a leaf, where one shard is there alone but not alone in its run of 256.
    #[tactic(auto, unfolding(crate::specs::Positions::position_in))]
    fn part_leaf(&mut self, run: usize) -> Result<(), AllocError>
        requires within { run * 16 < most_of self.old }
        requires branch { leaf_in self.old run ≡ 0 → first_in self.old (run / 16) < lone_leaf }
        ensures same { IsSame self.old self.new }
        ensures branch { OnOk result (leaf_in self.new run ≡ 0 → first_in self.new (run / 16) < lone_leaf) }
        ensures parted { OnOk result (entry_in self.new run < alone) }
    {
        let entry = self.entry(run);
        if entry < ALONE {
            return Ok(());
        }
        let branch = self.branches[run / BRANCH_LEAVES] as usize;
        let place = entry as usize % LEAF_SHARDS;
        let position = position_alone(entry, run * LEAF_SHARDS + place);
        let leaf = push_block(&mut self.positions, NOWHERE, place, position)?;
        self.leaves[branch * BRANCH_LEAVES + run % BRANCH_LEAVES] = leaf;
        Ok(())
    }

    /// Puts the next position at a shard. For its runs neither another shard stands alone nor a leaf of other shards.
    #[tactic(auto, unfolding(crate::specs::Positions::position_in))]
    fn put(&mut self, shard: usize)
        requires within { shard < most_of self.old }
        requires absent { position_in self.old shard ≡ nowhere }
        requires branch { leaf_in self.old (shard / 16) ≡ 0 → first_in self.old (shard / 256) < lone_leaf }
        requires leaf { entry_in self.old (shard / 16) < alone }
        ensures { IsAdded self.old self.new shard }
    {
        let run = shard / BRANCH_SHARDS;
        let branch = self.branches[run] as usize;
        let leaf = self.leaf(shard / LEAF_SHARDS) as usize;
        if leaf != 0 {
            self.positions[leaf * LEAF_SHARDS + shard % LEAF_SHARDS] = self.count;
        } else if branch == 0 {
            self.branches[run] = with_one(self.count, shard);
        } else {
            let at = branch * BRANCH_LEAVES + shard / LEAF_SHARDS % BRANCH_LEAVES;
            self.leaves[at] = with_one(self.count, shard);
        }
        self.count += 1;
    }

    /// The first live shard from one on, or the end of those that are asked for. What stands at the position of a shard
    /// in `live` is 0 where the shard is dead. `runs` has a number for each run of 256 shards, which tells which of its
    /// runs of 16 may have a live shard. The others are passed over.
    pub fn next(&self, from: usize, end: usize, live: &[u8], runs: &[u32]) -> usize
        requires from { from ≤ end }
        requires end { end ≤ most_of self.now }
        requires live { length live.now ≡ count_of self.now }
        requires all_runs { most_of self.now ≤ length runs.now * 256 }
        requires runs { AreRunsOf self.now live.now runs.now }
        ensures from { from ≤ result }
        ensures end { result ≤ end }
        ensures there { result < end → position_in self.now result < count_of self.now }
        ensures dead { (shard : ℕ) → from ≤ shard → shard < result → slice_index live.now (position_in self.now shard) ≡ 0 }
    {
        let mut shard = from;
        while shard < end {
            let run = next_with_life(runs, shard / LEAF_SHARDS, end.div_ceil(LEAF_SHARDS));
            let first = shard.max(run * LEAF_SHARDS);
            if first >= end {
                return end;
            }
            let upto = ((run + 1) * LEAF_SHARDS).min(end);
            let found = self.next_in_leaf(first, upto, live);
            if found < upto {
                return found;
            }
            shard = upto;
        }
        end
    }

    /// The first live shard from one on, or the end, of shards of one run of 16.
    pub fn next_in_leaf(&self, from: usize, end: usize, live: &[u8]) -> usize
        requires from { from < end }
        requires end { end ≤ most_of self.now }
        requires run { end ≤ (from / 16 + 1) * 16 }
        requires live { length live.now ≡ count_of self.now }
        ensures from { from ≤ result }
        ensures end { result ≤ end }
        ensures there { result < end → position_in self.now result < count_of self.now }
        ensures dead { (shard : ℕ) → from ≤ shard → shard < result → slice_index live.now (position_in self.now shard) ≡ 0 }
    {
        let leaf = self.leaf(from / LEAF_SHARDS) as usize;
        if leaf == 0 {
            return self.next_without_leaf(from, end, live);
        }
        let first = leaf * LEAF_SHARDS + from % LEAF_SHARDS;
        from + dead(&self.positions, live, first, first + (end - from))
    }

    /// The same of shards of a run of 16 without a leaf: one of these is there at most.
    #[tactic(auto, unfolding(crate::specs::Positions::position_in))]
    fn next_without_leaf(&self, from: usize, end: usize, live: &[u8]) -> usize
        requires from { from < end }
        requires end { end ≤ most_of self.now }
        requires run { end ≤ (from / 16 + 1) * 16 }
        requires none { leaf_in self.now (from / 16) ≡ 0 }
        requires live { length live.now ≡ count_of self.now }
        ensures from { from ≤ result }
        ensures end { result ≤ end }
        ensures there { result < end → position_in self.now result < count_of self.now }
        ensures dead { (shard : ℕ) → from ≤ shard → shard < result → slice_index live.now (position_in self.now shard) ≡ 0 }
    {
        let run = from / LEAF_SHARDS;
        let shard = run * LEAF_SHARDS + self.place_alone(run);
        if shard < from || shard >= end || life_at(live, self.position(shard) as usize) == 0 {
            return end;
        }
        shard
    }

    /// The place in a run of 16 shards of the one that may be there, where the run has no leaf.
    #[tactic(auto, unfolding(crate::specs::Positions::position_in))]
    fn place_alone(&self, run: usize) -> usize
        requires { run * 16 < most_of self.now }
        ensures place { result < 16 }
        ensures others { leaf_in self.now run ≡ 0 → (shard : ℕ) → shard / 16 ≡ run → (shard % 16 ≡ result → ⊥) → position_in self.now shard ≡ nowhere }
    {
        let first = self.branches[run / BRANCH_LEAVES];
        let entry = if first >= ALONE {
            first
        } else {
            self.entry(run)
        };
        entry as usize % LEAF_SHARDS
    }
}

/// Puts one block more behind some numbers, with a number at one place of it and a filler at the others. Returns which
/// block it is.
///
/// Fails where memory is refused; then the numbers are what they were.
fn push_block(
    numbers: &mut Vec<u32>,
    filler: u32,
    place: usize,
    number: u32,
) -> Result<u32, AllocError>
    requires few { length numbers.old.items < 2 ^ 24 }
    requires place { place < 16 }
    ensures block { IfOk result (λ block. block ≡ length numbers.old.items / 16) }
    ensures ok { OnOk result (numbers.new.items ≡ with_block filler numbers.old.items place number) }
    ensures err { OnErr result (numbers.new.items ≡ numbers.old.items) }
{
    let len = numbers.len();
    numbers.resize(len + BLOCK, filler)?;
    numbers[len + place] = number;
    Ok((len / BLOCK) as u32)
}

/// The block that an entry below a limit names; the first for another.
fn block_of(entry: u32, limit: u32) -> u32
    ensures { result ≡ block_of limit entry }
{
    if entry < limit { entry } else { 0 }
}

/// The entry with one leaf, of a run of 16 shards.
fn with_leaf(leaf: u32, run: usize) -> u32
    requires { leaf < 2 ^ 20 }
    ensures { result ≡ with_leaf leaf run }
{
    LONE_LEAF + leaf * BRANCH_SHARDS as u32 + (run % BRANCH_LEAVES * LEAF_SHARDS) as u32
}

/// The leaf of a run of 16 shards by an entry with one leaf or one shard; the empty one where it has none.
fn leaf_alone(entry: u32, run: usize) -> u32
    requires { lone_leaf ≤ entry }
    ensures { result ≡ leaf_alone entry run }
{
    if entry < ALONE && entry as usize % BRANCH_SHARDS / LEAF_SHARDS == run % BRANCH_LEAVES {
        (entry - LONE_LEAF) / BRANCH_SHARDS as u32
    } else {
        0
    }
}

/// What a branch has for the leaf or the shard of an entry that has it alone.
fn in_branch(entry: u32) -> u32
    requires { lone_leaf ≤ entry }
    ensures { result ≡ in_branch entry }
{
    if entry < ALONE {
        (entry - LONE_LEAF) / BRANCH_SHARDS as u32
    } else {
        entry
    }
}

/// The entry with one shard, at a position.
fn with_one(position: u32, shard: usize) -> u32
    requires { position < 2 ^ 23 }
    ensures { result ≡ with_one position shard }
{
    ALONE + position * BRANCH_SHARDS as u32 + (shard % BRANCH_SHARDS) as u32
}

/// The position of a shard by an entry with one shard.
fn position_alone(entry: u32, shard: usize) -> u32
    requires { alone ≤ entry }
    ensures { result ≡ position_alone entry shard }
{
    if entry as usize % BRANCH_SHARDS == shard % BRANCH_SHARDS {
        (entry - ALONE) / BRANCH_SHARDS as u32
    } else {
        NOWHERE
    }
}

/// How many positions from one on, and before an end, are those of no live shard.
fn dead(positions: &[u32], live: &[u8], from: usize, end: usize) -> usize
    requires order { from ≤ end }
    requires within { end ≤ length positions.now }
    ensures upto { from + result ≤ end }
    ensures dead { (k : ℕ) → from ≤ k → k < from + result → slice_index live.now (slice_index positions.now k) ≡ 0 }
    ensures live { from + result < end → slice_index live.now (slice_index positions.now (from + result)) ≡ 0 → ⊥ }
{
    let mut at = from;
    while at < end && life_at(live, positions[at] as usize) == 0 {
        at += 1;
    }
    at - from
}

/// What stands at a position; 0 behind all.
fn life_at(live: &[u8], position: usize) -> u8
    ensures { result ≡ slice_index live.now position }
{
    match live.get(position) {
        Some(life) => *life,
        None => 0,
    }
}
