//! Which pages derive from a page.

ghost use Rattle.std.specs.Prelude.{◌≡◌, ◌≤◌, true, length, Decides, MatchOption, IfSome};
ghost use Rattle.model.specs.Definitions.Holdings.{only};
ghost use Rattle.model.specs.Definitions.Derived.{is_under};
ghost use Rattle.maptree.specs.Origins.{LeadsTo};
ghost use Rattle.holdings.specs.Below.{IsNoneBelow, IsNextBelow};
ghost use Rattle.holdings.specs.Places.{IsWithin};
ghost use Rattle.holdings.specs.Inner.Derivation.{stands_in};
ghost use Rattle.holdings.specs.Inner.FirstFrom.{IsFirstFrom, earlier, is_from};
ghost use Rattle.holdings.specs.Inner.Held.{limits_in, holdings_in};
ghost use Rattle.holdings.specs.Inner.Sound.{AreSound};

use crate::holdings::Holdings;
use maptree::Tree;
use space::{Place, Shards};
use std::ops::Range;

impl Holdings {
    ghost use Rattle.std.specs.Prelude.{◌≡◌, MatchOption, IfSome};
    ghost use Rattle.model.specs.Definitions.Holdings.{only};
    ghost use Rattle.model.specs.Definitions.Derived.{is_below};
    ghost use Rattle.holdings.specs.Below.{IsNoneBelow, IsNextBelow};
    ghost use Rattle.holdings.specs.Places.{IsWithin};

    /// Whether a page derives from another, at any distance, or is that page. Takes no memory.
    pub fn is_below(&self, place: Place, above: Place) -> bool
        requires place { IsWithin self.now.limits place }
        requires above { IsWithin self.now.limits above }
        ensures { result ≡ is_below self.now.holdings (only above) place }
    {
        above == place || is_under(&self.shards, &self.trees, place, above)
    }

    /// The first page at or behind a place, by space and page, that is held and derives from a page, at any distance, or is
    /// that page. It looks at all that derives from the page. Takes no memory.
    pub fn next_below(&self, above: Place, from: Place) -> Option<Place>
        requires { IsWithin self.now.limits above }
        ensures next { MatchOption result (IsNoneBelow self.now.holdings above from) (IsNextBelow self.now.holdings above from) }
        ensures within { IfSome result (IsWithin self.now.limits) }
    {
        next_below(&self.shards, &self.trees, above, from)
    }

    /// Whether so many calls of `next_below` take less time than a look at all words. No clause speaks of it.
    pub fn is_next_below_fast(&self, above: Place, calls: usize) -> bool
        requires { IsWithin self.now.limits above }
    {
        let Some(entry) = self.shards.get(above) else {
            return true;
        };
        let tree = &self.trees[entry.frame as usize];
        let below = tree.find(above).map_or(0, |i| tree.run_of(i).len());
        below.saturating_mul(below.min(calls)) <= self.shards.words()
    }
}

/// Whether a page derives from another.
fn is_under(shards: &Shards, trees: &[Tree], place: Place, above: Place) -> bool
    requires sound { AreSound shards.now trees.now }
    requires place { IsWithin (limits_in shards.now trees.now) place }
    requires above { IsWithin (limits_in shards.now trees.now) above }
    ensures { result ≡ is_under (holdings_in shards.now trees.now) (only above) place }
{
    let Some(entry) = shards.get(place) else {
        return false;
    };
    let Some(from) = shards.get(above) else {
        return false;
    };
    if from.frame != entry.frame {
        return false;
    }
    derives(&trees[entry.frame as usize], place, above)
}

/// Whether a place of a tree derives from another of its places.
fn derives(tree: &Tree, place: Place, above: Place) -> bool
    requires place { stands_in tree.now.links place ≡ true }
    requires above { stands_in tree.now.links above ≡ true }
    ensures { Decides result (LeadsTo tree.now.links 1 place above) }
{
    let i = tree.find(place).unwrap();
    let j = tree.find(above).unwrap();
    tree.is_origin(j, i)
}

/// The first page at or behind a place that is held and derives from a page, or is that page.
fn next_below(shards: &Shards, trees: &[Tree], above: Place, from: Place) -> Option<Place>
    requires sound { AreSound shards.now trees.now }
    requires above { IsWithin (limits_in shards.now trees.now) above }
    ensures next { MatchOption result (IsNoneBelow (holdings_in shards.now trees.now) above from) (IsNextBelow (holdings_in shards.now trees.now) above from) }
    ensures within { IfSome result (IsWithin (limits_in shards.now trees.now)) }
{
    let entry = shards.get(above)?;
    let tree = &trees[entry.frame as usize];
    let i = tree.find(above).unwrap();
    first_from(tree, &tree.run_of(i), from)
}

/// The first of the places of a run that are at or behind a place.
fn first_from(tree: &Tree, run: &Range<usize>, from: Place) -> Option<Place>
    requires order { run.now.start ≤ run.now.end }
    requires within { run.now.end ≤ length tree.now.links }
    ensures { IsFirstFrom tree.now.links run.now.start run.now.end from result }
{
    let mut nodes = tree.nodes();
    let mut first = None;
    for i in run.start..run.end {
        first = earlier(from, first, nodes.at(i).place);
    }
    first
}

/// The first of two places, if the second one is at or behind a place.
fn earlier(from: Place, first: Option<Place>, place: Place) -> Option<Place>
    ensures { result ≡ earlier from first place }
{
    if !is_from(from, place) {
        return first;
    }
    match first {
        Some(first) if is_from(first, place) => Some(first),
        _ => Some(place),
    }
}

/// Whether a place is at or behind another one.
fn is_from(from: Place, place: Place) -> bool
    ensures { result ≡ is_from from place }
{
    place.space > from.space || place.space == from.space && place.page >= from.page
}
