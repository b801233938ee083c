//! Unmap as a recursion, page by page.

ghost use Rattle.std.specs.Prelude.{◌≡◌, ◌<◌, ◌≤◌, ◌||◌, not, [], ◌∷◌, ◌++◌, length, IfOk, OnOk, IfSome, IfNone, IsFalse};
ghost use Rattle.std.specs.Option.{option_and_then};
ghost use Rattle.space.specs.declared.place.Place.{Place};
ghost use Rattle.space.specs.Place.{same_place};
ghost use Rattle.space.specs.Shards.{IsPlace, IsSetAt, IsLaidOutAs, entry_at, is_taken};
ghost use Rattle.maptree.specs.Origins.{place_at, IsRun};
ghost use Rattle.model.specs.Definitions.Holdings.{only};
ghost use Rattle.model.specs.Definitions.Strip.{strip, strip_word};
ghost use Rattle.holdings.specs.Inner.Held.{has_entry, links_in, holdings_in};
ghost use Rattle.space.specs.Entries.{narrowed, status_of};
ghost use Rattle.holdings.specs.Inner.Sound.{AreLoose};

use crate::holdings::Holdings;
use crate::notes::Notes;
use crate::one_by_one::Order;
use fpage::Rights;
use maptree::Tree;
use space::{Narrowed, NoMemory, Node, Place, Shards};
use std::alloc::{AllocError, Global};
use std::ops::Range;

impl Holdings {
    ghost use Rattle.std.specs.Prelude.{IfOk};
    ghost use Rattle.std.specs.List.{All};
    ghost use Rattle.holdings.specs.Contents.{IsStripped};
    ghost use Rattle.holdings.specs.Noting.{NotesFollow};
    ghost use Rattle.holdings.specs.Places.{IsWithin, any_of};

    /// The same as `strip`, by recursion: page by page of those that are still held, first what derives from the page, and
    /// then the page itself. It takes longer. Notes the pages that lose a right, where notes are asked for.
    ///
    /// Refused, where memory is: `NoMemory`.
    pub fn strip_by_recursion(
        self,
        alloc: Global,
        places: &[Place],
        revoked: Rights,
        flush: bool,
        notes: &mut Notes,
    ) -> Result<(Self, Rights), NoMemory>
        requires { All (IsWithin self.limits) places.now }
        ensures stripped { IfOk result (IsStripped self (any_of places.now) revoked flush) }
        ensures noted { IfOk result (λ r. NotesFollow self.holdings r.0.holdings notes.old notes.new) }
    {
        self.strip_one_by_one(alloc, places, revoked, flush, notes, Order::Recursion)
    }
}

/// Visits the first place of a run: first what derives from it directly, each in the same way, and then the place itself
/// loses the rights, if it is to, and its status is taken. What the visit took is added to the status of the origin.
///
/// The tree stays: it may then list places that hold nothing.
pub fn visit(
    alloc: Global,
    shards: &mut Shards,
    trees: &[Tree],
    frame: usize,
    run: &Range<usize>,
    revoked: Rights,
    flush: bool,
) -> Result<Rights, AllocError>
    requires loose { AreLoose shards.old trees.now }
    requires frame { frame < length trees.now }
    requires run { IsRun (links_in trees.now frame) run.now }
    requires some { run.now.start < run.now.end }
    requires within { run.now.end ≤ length (links_in trees.now frame) }
    ensures status { IfOk result (λ status. (d : Place) → status ≡ strip_word (holdings_in shards.old trees.now) (only (place_at (links_in trees.now frame) run.now.start d))) }
    ensures left { OnOk result ((d : Place) → holdings_in shards.new trees.now ≡ strip (holdings_in shards.old trees.now) (only (place_at (links_in trees.now frame) run.now.start d)) revoked flush) }
    ensures loose { OnOk result (AreLoose shards.new trees.now) }
    ensures layout { OnOk result (IsLaidOutAs shards.old shards.new) }
{
    let tree = &trees[frame];
    let first = tree.node(run.start).place;
    let mut status = Rights::none();
    // The pages whose visit has begun and not ended, each derived from the one before it: the stack of the recursion.
    let mut begun = Vec::with_capacity(alloc, run.end - run.start)?;
    for i in run.start..run.end {
        let node = tree.node(i);
        // This page derives from none that stands as deep, so their visits end.
        while let Some(page) = pop_from(&mut begun, node.depth) {
            status = status.join(
                take(shards, page.place, first, revoked, flush)
                    .status
                    .rights(),
            );
        }
        begun.push(node)?;
    }
    while let Some(page) = begun.pop() {
        status = status.join(
            take(shards, page.place, first, revoked, flush)
                .status
                .rights(),
        );
    }
    if let Some(origin) = tree.origin_of(run.start) {
        shards.add_status(tree.node(origin).place, status);
    }
    Ok(status)
}

/// Takes the last page off, if it stands at least so deep.
fn pop_from(begun: &mut Vec<Node>, depth: usize) -> Option<Node>
    ensures some { IfSome result (λ page. begun.old.items ≡ begun.new.items ++ page ∷ []) }
    ensures none { IfNone result (begun.new ≡ begun.old) }
{
    let last = begun.last()?;
    if last.depth < depth {
        return None;
    }
    begun.pop()
}

/// Ends the visit of a place: what it holds loses the rights, unless it is the first place of the recursion and is to keep
/// them, and its status is cleared. Gives back that status, and whether the place still holds anything.
fn take(shards: &mut Shards, place: Place, first: Place, revoked: Rights, flush: bool) -> Narrowed
    requires place { IsPlace shards.old place }
    requires present { IsFalse (is_taken shards.old) }
    ensures status { result.status ≡ status_of (entry_at shards.old place) }
    ensures held { result.held ≡ has_entry shards.new place }
    ensures set { IsSetAt shards.old shards.new place (option_and_then (narrowed (flush || not (same_place place first)) revoked) (entry_at shards.old place)) }
    ensures present { IsFalse (is_taken shards.new) }
    ensures layout { IsLaidOutAs shards.old shards.new }
{
    let loses = flush || place != first;
    shards.narrow(place, revoked, loses)
}
