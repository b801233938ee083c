//! The words and trees of a new database: page `i` of space 0 is the root of frame `i`.

ghost use Rattle.std.specs.Prelude.{◌≡◌, ◌<◌, ◌≤◌, ◌+◌, ◌*◌, ◌/◌, ℕ, true, [], ◌∷◌, length, IfOk, IsFalse, None};
ghost use Rattle.space.specs.declared.place.Place.{Place};
ghost use Rattle.space.specs.Directory.{pages_of};
ghost use Rattle.space.specs.Shards.{HasWord, IsLaidOutAs, spaces_of, bits_of, IsPlace, entry_at, is_taken};
ghost use Rattle.model.specs.Definitions.Records.{are_limits};
ghost use Rattle.holdings.specs.Meaning.{limits_of};
ghost use Rattle.holdings.specs.Inner.Held.{links_in};
ghost use Rattle.holdings.specs.Inner.Start.{root_entry, root_place};

use crate::limits::Limits;
use crate::shard::SHARD_PAGES;
use fpage::Rights;
use maptree::Tree;
use space::{Entry, NoMemory, Place, Shards, page_behind_shard};
use std::alloc::{AllocError, Global};

/// The place of a frame at the start.
fn root_place(frame: u32) -> Place
    ensures { result ≡ root_place frame }
{
    Place {
        space: 0,
        page: frame,
    }
}

/// Words that hold the root of each frame, with all rights, and nothing else.
pub fn root_words(alloc: Global, limits: &Limits) -> Result<Shards, NoMemory>
    requires { are_limits (limits_of limits.now) ≡ true }
    ensures spaces { IfOk result (λ s. spaces_of s ≡ limits.now.spaces) }
    ensures bits { IfOk result (λ s. bits_of s ≡ limits.now.bits) }
    ensures present { IfOk result (λ s. IsFalse (is_taken s)) }
    ensures entries { IfOk result (λ s.
        (p : Place) → IsPlace s p → entry_at s p ≡ root_entry limits.now.frames p) }
{
    let mut shards = Shards::new(alloc, limits.spaces, limits.bits)?;
    shards.reserve((limits.frames as usize).div_ceil(SHARD_PAGES as usize))?;
    let mut from = 0;
    while from < limits.frames {
        shards.make_one(root_place(from))?;
        let end = page_behind_shard(from).min(limits.frames);
        put_roots(&mut shards, from, end);
        from = end;
    }
    Ok(shards)
}

/// Puts the roots of the frames from one up to another, whose pages have their words in one shard that is there, beside those
/// of the frames before.
fn put_roots(shards: &mut Shards, from: u32, end: u32)
    requires order { from < end }
    requires shard { end ≤ (from / 64 + 1) * 64 }
    requires within { end ≤ pages_of (bits_of shards.old) }
    requires few { bits_of shards.old ≤ 32 }
    requires spaces { 0 < spaces_of shards.old }
    requires has { HasWord shards.old (root_place from) }
    requires present { IsFalse (is_taken shards.old) }
    requires before { (p : Place) → IsPlace shards.old p → entry_at shards.old p ≡ root_entry from p }
    ensures entries { (p : Place) → IsPlace shards.new p → entry_at shards.new p ≡ root_entry end p }
    ensures layout { IsLaidOutAs shards.old shards.new }
    ensures present { IsFalse (is_taken shards.new) }
{
    let first = root_place(from);
    let start = shards.start_of_shard(first);
    for frame in from..end {
        let place = root_place(frame);
        let entry = Entry {
            frame,
            rights: Rights::all(),
            status: Rights::none(),
        };
        shards.set_in_shard(start, place, entry);
    }
}

/// The tree of each frame, of its root alone.
pub fn root_trees(alloc: Global, frames: u32) -> Result<Vec<Tree>, NoMemory>
    ensures count { IfOk result (λ trees. length trees.items ≡ frames) }
    ensures roots { IfOk result (λ trees.
        (f : ℕ) → f < frames → links_in trees.items f ≡ (root_place f, None) ∷ []) }
{
    let mut trees = Vec::with_capacity(alloc, frames as usize)?;
    for frame in 0..frames {
        let tree = Tree::root(alloc, root_place(frame));
        trees.push(tree).map_err(AllocError::from)?;
    }
    Ok(trees)
}
