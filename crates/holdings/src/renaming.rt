//! Pages that move, in the trees: those of one frame in one pass, and the trees in parts side by side where they are many.

ghost use Rattle.std.specs.Prelude.{◌∷◌, [], None, OnOk, IsFalse, ◌≡◌, ◌<◌, ◌≤◌, length, IfOk};
ghost use Rattle.std.specs.List.{All};
ghost use Rattle.space.specs.Shards.{IsPlace, is_taken};
ghost use Rattle.holdings.specs.Inner.Links.{last_target, links_between, links_of, AreTargets};
ghost use Rattle.holdings.specs.Inner.Planning.{counts_in};
ghost use Rattle.holdings.specs.Inner.Renamings.{AreMovable, AreRenamed, CanBeRenamed};
ghost use Rattle.holdings.specs.Meaning.{counts_of};
ghost use Rattle.maptree.specs.PlaceMaps.{place_for};

use crate::batches::planners_for;
use crate::link::{Link, new_link, new_links};
use crate::transfer::Transfer;
use crate::transfer_counts::TransferCounts;
use crate::tree::replace;
use crate::tree_cuts::cuts_between;
use crew::{Changed, Workers};
use maptree::{PlaceMap, Tree};
use space::{NoMemory, Shards};
use std::alloc::{AllocError, Global};

/// Replaces the source of each transfer that goes, and whose source is held, by its target in the trees, as a place and as an
/// origin. Counts what becomes of the transfers. Where they are many, the workers rename parts of the trees side by side.
///
/// Refused, where memory is: `NoMemory`.
pub fn rename_all<W: Workers>(
    alloc: Global,
    shards: &Shards,
    trees: &mut [Tree],
    transfers: &[Transfer],
    workers: &W,
) -> Result<TransferCounts, NoMemory>
    requires present { IsFalse (is_taken shards.now) }
    requires places { All (λ t. IsPlace shards.now t.source) transfers.now }
    requires movable { AreMovable trees.old (links_of shards.now transfers.now) }
    ensures renamed { OnOk result (AreRenamed (λ p. last_target (links_of shards.now transfers.now) p None) (links_of shards.now transfers.now) trees.old trees.new) }
    ensures counts { IfOk result (λ counts. counts_of counts ≡ counts_in shards.now transfers.now) }
{
    if let [transfer] = transfers {
        // A list and a map of one link would cost more than the link.
        if let Some(link) = new_link(shards, *transfer) {
            rename_link(trees, link);
        }
        return Ok(TransferCounts::of_one(shards, *transfer));
    }
    let (links, counts) = new_links(alloc, shards, transfers)?;
    rename_links(alloc, trees, links, workers)?;
    Ok(counts)
}

/// Replaces the source of a link by its target in the tree of its frame.
fn rename_link(trees: &mut [Tree], link: Link)
    requires { AreMovable trees.old (link ∷ []) }
    ensures { AreRenamed (λ p. last_target (link ∷ []) p None) (link ∷ []) trees.old trees.new }
{
    let tree = &mut trees[link.frame as usize];
    replace(tree, link.source, link.target);
}

/// Replaces each source by its target in the trees.
///
/// Refused, where memory is: `NoMemory`.
fn rename_links<W: Workers>(
    alloc: Global,
    trees: &mut [Tree],
    mut links: Vec<Link>,
    workers: &W,
) -> Result<(), NoMemory>
    requires { AreMovable trees.old links.items }
    ensures { OnOk result (AreRenamed (λ p. last_target links.items p None) links.items trees.old trees.new) }
{
    let Some(first) = links.first() else {
        return Ok(());
    };
    let targets = targets_of(alloc, first.source.space, &links)?;
    links.sort_unstable_by_key(|link| link.frame);
    let parts = planners_for(links.len() / workers.piece_length(), workers);
    let cuts = cuts_between(alloc, &links, parts)?;
    rename_parts(trees, &links, &targets, &cuts, workers)
}

/// Replaces places by their targets in the trees of these links, side by side in the parts into which these numbers cut all trees.
fn rename_parts<W: Workers>(
    trees: &mut [Tree],
    links: &[Link],
    targets: &PlaceMap,
    cuts: &[usize],
    workers: &W,
) -> Changed
    requires can { CanBeRenamed (place_for targets.now) trees.old }
    requires frames { All (λ l. l.frame < length trees.old) links.now }
    ensures { OnOk result (AreRenamed (place_for targets.now) links.now trees.old trees.new) }
{
    let rename = move |start: usize, part: &mut [Tree]| -> Changed
        requires { CanBeRenamed (place_for targets.now) part.now }
        ensures { OnOk result (AreRenamed (place_for targets.entry.now) (links_between start (length part.entry.now) links.entry.now) part.entry.now part.exit.now) }
    {
        rename_part(start, part, links, targets);
        Ok(())
    };
    workers.change(trees, cuts, &rename)
}

/// The same in a part of the trees, which begins at the tree of this number. A tree is passed over once, however many of its
/// places move, where the links of its frame stand together.
fn rename_part(start: usize, part: &mut [Tree], links: &[Link], targets: &PlaceMap)
    requires { CanBeRenamed (place_for targets.now) part.old }
    ensures { AreRenamed (place_for targets.now) (links_between start (length part.old) links.now) part.old part.new }
{
    let mut passed = None;
    for link in links {
        let frame = link.frame as usize;
        if frame >= start && frame - start < part.len() && passed != Some(link.frame) {
            part[frame - start].rename_all(targets);
            passed = Some(link.frame);
        }
    }
}

/// The targets, each for its source.
fn targets_of(alloc: Global, space: u16, links: &[Link]) -> Result<PlaceMap, AllocError>
    requires { All (λ l. l.source.space ≡ space) links.now }
    ensures { IfOk result (λ targets. AreTargets links.now (place_for targets)) }
{
    let mut targets = PlaceMap::none(alloc, space, first_page(links));
    for link in links {
        targets.put(link.source, link.target)?;
    }
    Ok(targets)
}

/// The lowest page of the sources.
fn first_page(links: &[Link]) -> u32
    ensures { All (λ l. result ≤ l.source.page) links.now }
{
    let mut first = u32::MAX;
    for link in links {
        first = first.min(link.source.page);
    }
    first
}
