//! The strip of a set of pages, planned: the outermost runs of the pages, frame by frame, and the pieces of these runs.

ghost use Rattle.std.specs.Prelude.{◌≡◌, ◌<◌, ◌≤◌, length, IfOk, ◌++◌, OnOk, map, option_map, Some};
ghost use Rattle.std.specs.List.{All};
ghost use Rattle.holdings.specs.Places.{IsWithin, any_of};
ghost use Rattle.holdings.specs.Inner.Held.{limits_in};
ghost use Rattle.holdings.specs.Inner.Sound.{AreSound};
ghost use Rattle.holdings.specs.Inner.StripPlans.{IsPlanned, AreOuterPlaces, HaveRuns, all_firsts, AreFrameRuns, AreRunsBetween, IsCut, ArePlannedStrips, AreAdded, HaveWords, IsRunAdded, pages_of};
ghost use Rattle.maptree.specs.Origins.{AreRising};
ghost use Rattle.holdings.specs.Inner.Stripping.{firsts, places_in};
ghost use Rattle.std.specs.List.Sorted.{IsNonDecreasingBy};
ghost use Rattle.space.specs.declared.place.Place.{Place};
ghost use Rattle.space.specs.Shards.{index_of};
ghost use Rattle.holdings.specs.Inner.Words.{IsThere};

use crate::batches::plan_pages;
use crate::group::group_end;
use crate::pages::{HeldPage, places_of, sorted_pages};
use crate::runs::outermost_runs;
use crew::Workers;
use fpage::Rights;
use maptree::{NodeOrigins, Tree};
use pieces::{FrameRuns, Piece, Runs, Strip, StripPlan, learn_are_pieces};
use space::{NoMemory, Node, Place, Shards};
use std::alloc::{AllocError, Global};
use std::ops::Range;

/// Plans the strip of some places: each piece is a part of at most so many nodes of one outermost run. Where they are many,
/// the workers plan them side by side.
///
/// Refused, where memory is: `NoMemory`.
pub fn plan_strip<W: Workers>(
    alloc: Global,
    shards: &Shards,
    trees: &[Tree],
    places: &[Place],
    revoked: Rights,
    flush: bool,
    most: usize,
    workers: &W,
) -> Result<StripPlan, NoMemory>
    requires sound { AreSound shards.now trees.now }
    requires within { All (IsWithin (limits_in shards.now trees.now)) places.now }
    requires most { 1 ≤ most }
    ensures { IfOk result (IsPlanned shards.now trees.now (any_of places.now) revoked flush) }
{
    let pages = sorted_pages(alloc, shards, places)?;
    let plan = plan_pages(alloc, shards, trees, &pages, revoked, flush, most, workers)?;
    learn_are_pieces(&plan.pieces);
    Ok(plan)
}

/// The first places of the outermost runs of some pages: all that derives from the pages derives from these, and none of
/// these from another.
///
/// Refused, where memory is: `NoMemory`.
pub fn outer_places(
    alloc: Global,
    shards: &Shards,
    trees: &[Tree],
    places: &[Place],
) -> Result<Vec<Place>, NoMemory>
    requires sound { AreSound shards.now trees.now }
    requires within { All (IsWithin (limits_in shards.now trees.now)) places.now }
    ensures { IfOk result (λ outer. AreOuterPlaces shards.now trees.now places.now outer.items) }
{
    let pages = sorted_pages(alloc, shards, places)?;
    let frames = runs_by_frame(alloc, trees, &pages)?;
    first_places(alloc, trees, &frames)
}

/// The first places of all these runs, one run after another.
///
/// Refused, where memory is: `NoMemory`.
fn first_places(alloc: Global, trees: &[Tree], frames: &[FrameRuns]) -> Result<Vec<Place>, NoMemory>
    requires { All (HaveRuns trees.now) frames.now }
    ensures { IfOk result (λ outer. outer.items ≡ all_firsts trees.now frames.now) }
{
    let mut outer = Vec::new(alloc);
    for frame in frames {
        add_firsts(&trees[frame.frame as usize], &frame.runs, &mut outer)?;
    }
    Ok(outer)
}

/// Adds the first places of runs of a tree to others.
fn add_firsts(tree: &Tree, runs: &Runs, outer: &mut Vec<Place>) -> Result<(), AllocError>
    requires { AreRising 0 runs.now (length tree.now.links) }
    ensures { OnOk result (outer.new.items ≡ outer.old.items ++ firsts tree.now.links runs.now) }
{
    for run in runs.as_slice() {
        outer.push(tree.node(run.start).place)?;
    }
    Ok(())
}

/// The outermost runs of pages, which are sorted by frame, in the trees of their frames.
///
/// Refused, where memory is: `NoMemory`.
fn runs_by_frame(
    alloc: Global,
    trees: &[Tree],
    pages: &[HeldPage],
) -> Result<Vec<FrameRuns>, NoMemory>
    requires sorted { IsNonDecreasingBy (λ h. h.frame) pages.now }
    requires frames { All (λ h. h.frame < length trees.now) pages.now }
    ensures { IfOk result (λ frames. AreFrameRuns trees.now pages.now frames.items) }
{
    let places = places_of(alloc, pages)?;
    runs_between(alloc, trees, pages, &places, 0, pages.len())
}

/// The same of the pages from one on up to another, which is the first of its frame. The places are those of all pages.
///
/// Refused, where memory is: `NoMemory`.
pub fn runs_between(
    alloc: Global,
    trees: &[Tree],
    pages: &[HeldPage],
    places: &[Place],
    from: usize,
    to: usize,
) -> Result<Vec<FrameRuns>, NoMemory>
    requires sorted { IsNonDecreasingBy (λ h. h.frame) pages.now }
    requires frames { All (λ h. h.frame < length trees.now) pages.now }
    requires places { places.now ≡ places_in pages.now }
    requires order { from ≤ to }
    requires within { to ≤ length pages.now }
    requires cut { IsCut pages.now to }
    ensures { IfOk result (λ frames. AreRunsBetween trees.now pages.now from to frames.items) }
{
    let mut frames = Vec::new(alloc);
    let mut first = from;
    while first < to {
        let frame = pages[first].frame;
        let end = group_end(pages, first);
        let runs = outermost_runs(alloc, &trees[frame as usize], &places[first..end])?;
        frames
            .push(FrameRuns { frame, runs })
            .map_err(AllocError::from)?;
        first = end;
    }
    Ok(frames)
}

/// The strips of all these runs, one run after another, in parts of at most so many nodes.
///
/// Refused, where memory is: `NoMemory`.
pub fn strips(
    alloc: Global,
    shards: &Shards,
    trees: &[Tree],
    frames: &[FrameRuns],
    revoked: Rights,
    flush: bool,
    most: usize,
) -> Result<Vec<Piece>, NoMemory>
    requires sound { AreSound shards.now trees.now }
    requires runs { All (HaveRuns trees.now) frames.now }
    requires most { 1 ≤ most }
    ensures { IfOk result (λ pieces. ArePlannedStrips shards.now trees.now revoked flush frames.now pieces.items) }
{
    let mut pieces = Vec::with_capacity(alloc, frames.len())?;
    for frame in frames {
        add_frame(
            alloc,
            shards,
            trees,
            frame,
            revoked,
            flush,
            most,
            &mut pieces,
        )?;
    }
    Ok(pieces)
}

/// Adds the strips of the runs of a frame to others.
///
/// Refused, where memory is: `NoMemory`.
fn add_frame(
    alloc: Global,
    shards: &Shards,
    trees: &[Tree],
    frame: &FrameRuns,
    revoked: Rights,
    flush: bool,
    most: usize,
    pieces: &mut Vec<Piece>,
) -> Result<(), NoMemory>
    requires sound { AreSound shards.now trees.now }
    requires runs { HaveRuns trees.now frame.now }
    requires most { 1 ≤ most }
    ensures { OnOk result (AreAdded shards.now trees.now revoked flush frame.now.frame frame.now.runs pieces.old.items pieces.new.items) }
{
    let tree = &trees[frame.frame as usize];
    tree.learn_places_are_distinct();
    let origins = NodeOrigins::of(alloc, tree, frame.runs.len())?;
    pieces.reserve(frame.runs.len())?;
    for run in frame.runs.as_slice() {
        let origin = origins.at(run.start);
        add_run(
            alloc, shards, tree, run, origin, revoked, flush, most, pieces,
        )?;
    }
    Ok(())
}

/// Adds the strips of a run to others, in parts of at most so many nodes. Their status goes to the origin of the run, and its
/// first page is spared where there is no flush.
///
/// Refused, where memory is: `NoMemory`.
fn add_run(
    alloc: Global,
    shards: &Shards,
    tree: &Tree,
    run: &Range<usize>,
    origin: Option<Place>,
    revoked: Rights,
    flush: bool,
    most: usize,
    pieces: &mut Vec<Piece>,
) -> Result<(), NoMemory>
    requires within { run.now.end ≤ length tree.now.links }
    requires words { HaveWords shards.now origin (pages_of tree.now.links run.now.start run.now.end) }
    requires most { 1 ≤ most }
    ensures { OnOk result (IsRunAdded shards.now revoked flush origin (pages_of tree.now.links run.now.start run.now.end) pieces.old.items pieces.new.items) }
{
    let fold = index_of_origin(shards, origin);
    let mut spared = !flush;
    let mut at = run.start;
    while at < run.end {
        let end = at + most.min(run.end - at);
        let part = tree.part(alloc, at, end)?;
        let indexes = indexes(alloc, shards, &part.nodes)?;
        let strip = Strip::of_part(part, indexes, fold, revoked, spared);
        pieces.push(Piece::Strip(strip)).map_err(AllocError::from)?;
        spared = false;
        at = end;
    }
    Ok(())
}

/// The index of the word of an origin, if there is one.
fn index_of_origin(shards: &Shards, origin: Option<Place>) -> Option<usize>
    requires { (o : Place) → origin ≡ Some o → IsThere shards.now o }
    ensures { result ≡ option_map (index_of shards.now) origin }
{
    let origin = origin?;
    Some(shards.index(origin))
}

/// The indexes of the words of nodes.
fn indexes(alloc: Global, shards: &Shards, nodes: &[Node]) -> Result<Vec<usize>, AllocError>
    requires { All (λ n. IsThere shards.now n.place) nodes.now }
    ensures { IfOk result (λ indexes. indexes.items ≡ map (λ n. index_of shards.now n.place) nodes.now) }
{
    let mut indexes = Vec::with_capacity(alloc, nodes.len())?;
    for node in nodes {
        indexes.push(shards.index(node.place))?;
    }
    Ok(indexes)
}
