//! What becomes of the pages of an item.

ghost use Rattle.std.specs.Prelude.{◌≡◌, [], false, true, ◌&&◌};
ghost use Rattle.model.specs.Definitions.Holdings.{is_held};
ghost use Rattle.model.specs.Definitions.Items.{fate, is_map};
ghost use Rattle.holdings.specs.Places.{IsWithin};
ghost use Rattle.holdings.specs.Inner.Held.{limits_in, holdings_in};
ghost use Rattle.holdings.specs.Inner.Sound.{AreSound};
ghost use Rattle.holdings.specs.Sending.{fate_of_outcome};
ghost use Rattle.space.specs.Place.{same_place};
ghost use Rattle.holdings.specs.Inner.Derivation.{stands_in};
ghost use Rattle.holdings.specs.Inner.Outcomes.{IsOutcomeIn};
ghost use Rattle.std.specs.Option.{option_map_or};

use crate::holdings::Holdings;
use crate::item_pages::ItemPages;
use fpage::{ItemKind, Rights};
use maptree::Tree;
use space::{Place, Run, Shards};

/// What becomes of a page of an item, as things stand at the item's start (profile).
#[derive(Clone, Copy, Debug, PartialEq, Eq)]
pub enum Outcome {
    /// The source is not held.
    Absent,
    /// The item lets none of the source's rights through.
    NoRights,
    /// The target is an origin of the source.
    Origin,
    /// The mapping that the target has from the source gains rights.
    Extends,
    /// The page goes to the target, and replaces what the target holds.
    Replaces,
    /// The page goes to the target, which holds nothing.
    Goes,
}

impl Holdings {
    ghost use Rattle.std.specs.Prelude.{◌≡◌, ℕ, ◌/◌, ◌<◌, ◌≤◌, None, true, false};
    ghost use Rattle.model.specs.Definitions.Holdings.{at, is_held};
    ghost use Rattle.model.specs.Definitions.Items.{fate};
    ghost use Rattle.holdings.specs.Contents.{IsConsistent};
    ghost use Rattle.holdings.specs.Places.{IsWithin};
    ghost use Rattle.holdings.specs.Sending.{fate_of_outcome, job_of_pages, page_on, AreItemPages};

    /// What becomes of a page of an item that is to go to another page, as things stand (profile).
    pub fn outcome(&self, pages: &ItemPages, source: Place, target: Place) -> Outcome
        requires source { IsWithin self.now.limits source }
        requires target { IsWithin self.now.limits target }
        requires differ { source.space ≡ target.space → ⊥ }
        ensures outcome { fate_of_outcome result ≡ fate self.now.holdings (job_of_pages pages.now) (source, target) }
        ensures free { result ≡ Outcome.Goes → is_held self.now.holdings target ≡ false }
        ensures held { result ≡ Outcome.Replaces → is_held self.now.holdings target ≡ true }
        ensures consistent { IsConsistent self.now }
    {
        let shards = &self.shards;
        let trees = self.trees.as_slice();
        outcome_of(shards, trees, pages.kind, pages.rights, source, target)
    }

    /// The next pages of an item, from one on, whose sources are held, side by side in one shard. The sources of all
    /// pages before them are absent. It passes over shards that are not there without a look at their pages.
    pub fn next_sources(&self, pages: &ItemPages, from: u32) -> Run
        requires pages { AreItemPages self.now.limits pages.now }
        requires within { from < pages.now.count }
        ensures from { from ≤ result.pages.start }
        ensures order { result.pages.start ≤ result.pages.end }
        ensures further { from < result.pages.end }
        ensures end { result.pages.end ≤ pages.now.count }
        ensures absent { (i : ℕ) → from ≤ i → i < result.pages.start → at self.now.holdings (page_on pages.now.source i) ≡ None }
        ensures shard { (i : ℕ) → result.pages.start ≤ i → i < result.pages.end
            → (page_on pages.now.source i).page / 64 ≡ (page_on pages.now.source result.pages.start).page / 64 }
        ensures consistent { IsConsistent self.now }
    {
        let shards = &self.shards;
        let (source, _) = pages.pair(from);
        let first = pages.source.page;
        let run = shards.next_run(source, first + pages.count);
        Run {
            pages: run.pages.start - first..run.pages.end - first,
            in_vain: run.in_vain,
        }
    }
}

/// The outcome of one page: the first that fits.
fn outcome_of(
    shards: &Shards,
    trees: &[Tree],
    kind: ItemKind,
    rights: Rights,
    source: Place,
    target: Place,
) -> Outcome
    requires sound { AreSound shards.now trees.now }
    requires source { IsWithin (limits_in shards.now trees.now) source }
    requires target { IsWithin (limits_in shards.now trees.now) target }
    requires differ { same_place source target ≡ false }
    ensures fate { fate_of_outcome result ≡ fate (holdings_in shards.now trees.now) (record { kind = kind; rights = rights; pairs = [] }) (source, target) }
    ensures free { result ≡ Outcome.Goes → is_held (holdings_in shards.now trees.now) target ≡ false }
    ensures held { result ≡ Outcome.Replaces → is_held (holdings_in shards.now trees.now) target ≡ true }
{
    let Some(sent) = shards.get(source) else {
        return Outcome::Absent;
    };
    if sent.rights.meet(rights).is_empty() {
        return Outcome::NoRights;
    }
    let Some(replaced) = shards.get(target) else {
        return Outcome::Goes;
    };
    // A page of another frame neither derives from the source, nor does the source from it.
    if replaced.frame != sent.frame {
        return Outcome::Replaces;
    }
    outcome_in(&trees[sent.frame as usize], kind, source, target)
}

/// The outcome of a page whose target is held with the same frame, by where both stand in the tree of that frame.
fn outcome_in(tree: &Tree, kind: ItemKind, source: Place, target: Place) -> Outcome
    requires source { stands_in tree.now.links source ≡ true }
    requires target { stands_in tree.now.links target ≡ true }
    ensures decided { IsOutcomeIn tree.now.links kind source target result }
    ensures held { result ≡ Outcome.Goes → ⊥ }
{
    let i = tree.find(source).unwrap();
    let j = tree.find(target).unwrap();
    if tree.is_origin(j, i) {
        return Outcome::Origin;
    }
    if extends(kind, source, tree.place_of_origin(j)) {
        return Outcome::Extends;
    }
    Outcome::Replaces
}

/// Whether an item maps a page to a mapping of this origin that derives from it.
fn extends(kind: ItemKind, source: Place, origin: Option<Place>) -> bool
    ensures { result ≡ (is_map kind && option_map_or (same_place source) origin false) }
{
    match (kind, origin) {
        (ItemKind::Map, Some(origin)) => source == origin,
        _ => false,
    }
}
