//! The origins of all pages that are held, found by their words.

ghost use Rattle.std.specs.Prelude.{◌≡◌, ◌<◌, ◌∷◌, [], true, length, IfOk, IfSome, ◌+◌, OnOk};
ghost use Rattle.std.specs.List.{All};
ghost use Rattle.space.specs.Shards.{index_of};
ghost use Rattle.holdings.specs.Inner.Words.{IsThere};
ghost use Rattle.maptree.specs.Origins.{are_once};
ghost use Rattle.holdings.specs.Inner.Sound.{AreSound};
ghost use Rattle.holdings.specs.Inner.OriginWords.{IsSmall};
ghost use Rattle.holdings.specs.Inner.WordOrigins.{AreOrigins, ArePut};

use crate::origin_word::OriginWord;
use maptree::{Links, Tree};
use space::{NoMemory, Place, Shards};
use std::alloc::Global;

/// How many mappings are so few that the origin of each may be searched for.
const FEW: usize = 4_096;

/// How many words there must be for each of these, so that a list of origins would be larger than all that is held.
const SPARSE: usize = 16;

/// The origin of each page that is held, at the index of its word; none where few pages are held and most words are of
/// others. The number of mappings is only looked at to choose.
///
/// Refused, where memory is: `NoMemory`.
pub fn origins_of_many(
    alloc: Global,
    shards: &Shards,
    trees: &[Tree],
    mappings: usize,
) -> Result<Option<Vec<OriginWord>>, NoMemory>
    requires { AreSound shards.now trees.now }
    ensures { IfOk result (λ list. IfSome list (λ origins. AreOrigins shards.now trees.now (length trees.now) origins.items)) }
{
    if mappings < FEW && shards.words() / SPARSE > mappings {
        return Ok(None);
    }
    let origins = origins_by_word(alloc, shards, trees)?;
    Ok(Some(origins))
}

/// The origin of each page that is held, at the index of its word, by one pass over the trees.
fn origins_by_word(
    alloc: Global,
    shards: &Shards,
    trees: &[Tree],
) -> Result<Vec<OriginWord>, NoMemory>
    requires { AreSound shards.now trees.now }
    ensures { IfOk result (λ origins. AreOrigins shards.now trees.now (length trees.now) origins.items) }
{
    let mut origins = vec![in alloc; OriginWord::of(None); shards.words()]?;
    for frame in 0..trees.len() {
        put_tree(alloc, shards, trees, frame, &mut origins)?;
    }
    Ok(origins)
}

/// Puts the origins of the places of the next frame to those of the frames before it.
fn put_tree(
    alloc: Global,
    shards: &Shards,
    trees: &[Tree],
    frame: usize,
    origins: &mut [OriginWord],
) -> Result<(), NoMemory>
    requires sound { AreSound shards.now trees.now }
    requires within { frame < length trees.now }
    requires before { AreOrigins shards.now trees.now frame origins.old }
    ensures { OnOk result (AreOrigins shards.now trees.now (frame + 1) origins.new) }
{
    let tree = &trees[frame];
    if tree.len() == 1 {
        // Most frames are not shared: their one page needs no path.
        put_origin(shards, tree.node(0).place, tree.place_of_origin(0), origins);
        return Ok(());
    }
    put_origins(shards, &mut tree.each_link(alloc), origins)
}

/// Puts the origin of each place of a tree at the index of the place's word.
fn put_origins(
    shards: &Shards,
    links: &mut Links<'_>,
    origins: &mut [OriginWord],
) -> Result<(), NoMemory>
    requires places { All (λ link. IsThere shards.now link.0) links.old }
    requires reached { All (λ link. index_of shards.now link.0 < length origins.old) links.old }
    requires origins { All (λ link. IfSome link.1 IsSmall) links.old }
    requires once { are_once links.old ≡ true }
    ensures { OnOk result (ArePut shards.now links.old origins.old origins.new) }
{
    while let Some((place, origin)) = links.next()? {
        origins[shards.index(place)] = OriginWord::of(origin);
    }
    Ok(())
}

/// Puts the origin of a place at the index of the place's word.
fn put_origin(shards: &Shards, place: Place, origin: Option<Place>, origins: &mut [OriginWord])
    requires place { IsThere shards.now place }
    requires reached { index_of shards.now place < length origins.old }
    requires origin { IfSome origin IsSmall }
    ensures { ArePut shards.now ((place, origin) ∷ []) origins.old origins.new }
{
    origins[shards.index(place)] = OriginWord::of(origin);
}
