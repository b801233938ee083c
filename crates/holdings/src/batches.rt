//! The strip of many pages, planned in batches of pages, side by side.

ghost use Rattle.std.specs.Prelude.{◌≡◌, ℕ, ◌+◌, ◌<◌, ◌≤◌, length, slice_index, slice_index_or, IfOk};
ghost use Rattle.std.specs.List.{All};
ghost use Rattle.std.specs.List.Sorted.{IsNonDecreasingBy};
ghost use Rattle.holdings.specs.Inner.Sound.{AreSound};
ghost use Rattle.holdings.specs.Inner.StripPlans.{AreCuts, ArePagesPlanned, CanBePlanned, IsBatchPlanned};

use crate::group::group_end;
use crate::pages::{HeldPage, places_of};
use crate::planning::{runs_between, strips};
use crew::{Planned, Workers};
use fpage::Rights;
use maptree::Tree;
use pieces::StripPlan;
use space::{NoMemory, Place, Shards};
use std::alloc::{AllocError, Global};

/// How many full pieces are planned in the time that the start of a thread takes.
const PIECES_A_START: usize = 16;

/// Plans the strip of pages that are held, sorted by frame, in pieces of at most so many nodes. Where they are many, the
/// workers plan batches of them side by side.
///
/// Refused, where memory is: `NoMemory`.
pub fn plan_pages<W: Workers>(
    alloc: Global,
    shards: &Shards,
    trees: &[Tree],
    pages: &[HeldPage],
    revoked: Rights,
    flush: bool,
    most: usize,
    workers: &W,
) -> Result<StripPlan, NoMemory>
    requires sound { AreSound shards.now trees.now }
    requires most { 1 ≤ most }
    requires sorted { IsNonDecreasingBy (λ h. h.frame) pages.now }
    requires frames { All (λ h. h.frame < length trees.now) pages.now }
    ensures { IfOk result (ArePagesPlanned shards.now trees.now revoked flush pages.now) }
{
    let places = places_of(alloc, pages)?;
    let cuts = cuts_of(alloc, pages, batches_for(trees, pages, most, workers))?;
    let batches = Batches {
        alloc,
        shards,
        trees,
        pages,
        places: &places,
        cuts: &cuts,
        revoked,
        flush,
        most,
    };
    let plan = move |batch: usize| -> Planned
        requires { CanBePlanned batches.shards.now batches.trees.now batches.pages.now batches.places.now batches.cuts.now batches.most × (batch + 1 < length batches.cuts.now) }
        ensures { IfOk result (λ plan. IsBatchPlanned batches.entry.shards.now batches.entry.trees.now batches.entry.revoked batches.entry.flush batches.entry.pages.now
            (slice_index batches.entry.cuts.now batch) (slice_index batches.entry.cuts.now (batch + 1)) plan.frames.items plan.pieces.items) }
    { batches.plan(batch) };
    let planned = workers.plan(alloc, cuts.len() - 1, &plan)?;
    joined(&batches, planned)
}

/// In how many batches pages are planned.
fn batches_for<W: Workers>(trees: &[Tree], pages: &[HeldPage], most: usize, workers: &W) -> usize
    requires { All (λ h. h.frame < length trees.now) pages.now }
    ensures { 1 ≤ result }
{
    let mut nodes: usize = 0;
    for page in pages {
        nodes = nodes.saturating_add(trees[page.frame as usize].len());
    }
    planners_for(nodes / most.max(1), workers)
}

/// By how many threads so many full pieces are planned soonest, of those that plan at once. Each more takes its start, and
/// saves the less the more there are: at the root of the ratio of plan and start the sum is least.
pub fn planners_for<W: Workers>(pieces: usize, workers: &W) -> usize
    ensures { 1 ≤ result }
{
    let best = (pieces / PIECES_A_START).isqrt();
    best.clamp(1, workers.planners())
}

/// Where batches of pages begin, that are so many at most and about as long, and the end of the last. No frame has pages in
/// two of them.
///
/// Refused, where memory is: `AllocError`.
fn cuts_of(alloc: Global, pages: &[HeldPage], batches: usize) -> Result<Vec<usize>, AllocError>
    requires { 1 ≤ batches }
    ensures { IfOk result (λ cuts. AreCuts pages.now cuts.items (length pages.now)) }
{
    let size = pages.len() / batches + 1;
    let mut cuts = Vec::new(alloc);
    cuts.push(0)?;
    let mut cut = 0;
    while pages.len() - cut > size {
        cut = group_end(pages, cut + size - 1);
        cuts.push(cut)?;
    }
    cuts.push(pages.len())?;
    Ok(cuts)
}

/// Pages that are held, sorted by frame, in batches.
#[derive(Clone, Copy)]
pub struct Batches<'a> {
    alloc: Global,
    shards: &'a Shards,
    trees: &'a [Tree],
    pages: &'a [HeldPage],
    /// The places of the pages.
    places: &'a [Place],
    /// Where each batch begins, and the end of the last.
    cuts: &'a [usize],
    revoked: Rights,
    flush: bool,
    /// The most nodes that a piece is to have.
    most: usize,
}

impl<'a> Batches<'a> {
    ghost use Rattle.std.specs.Prelude.{◌+◌, ◌<◌, length, slice_index, IfOk};
    ghost use Rattle.holdings.specs.Inner.StripPlans.{CanBePlanned, IsBatchPlanned};

    /// The plan of a batch.
    ///
    /// Refused, where memory is: `NoMemory`.
    fn plan(&self, batch: usize) -> Planned
        requires can { CanBePlanned self.now.shards.now self.now.trees.now self.now.pages.now self.now.places.now self.now.cuts.now self.now.most }
        requires within { batch + 1 < length self.now.cuts.now }
        ensures { IfOk result (λ plan. IsBatchPlanned self.now.shards.now self.now.trees.now self.now.revoked self.now.flush self.now.pages.now
            (slice_index self.now.cuts.now batch) (slice_index self.now.cuts.now (batch + 1)) plan.frames.items plan.pieces.items) }
    {
        let from = self.cuts[batch];
        let to = self.cuts[batch + 1];
        let frames = runs_between(self.alloc, self.trees, self.pages, self.places, from, to)?;
        let pieces = strips(
            self.alloc,
            self.shards,
            self.trees,
            &frames,
            self.revoked,
            self.flush,
            self.most,
        )?;
        Ok(StripPlan { frames, pieces })
    }
}

/// The plans of all batches, one after another.
///
/// Refused, where memory was, or is: `NoMemory`.
fn joined(batches: &Batches<'_>, planned: Vec<Planned>) -> Result<StripPlan, NoMemory>
    requires cuts { AreCuts batches.now.pages.now batches.now.cuts.now (length batches.now.pages.now) }
    requires many { length planned.items + 1 ≡ length batches.now.cuts.now }
    requires each { (k : ℕ) (d : _) → k < length planned.items → IfOk (slice_index_or planned.items k d) (λ plan. IsBatchPlanned batches.now.shards.now batches.now.trees.now batches.now.revoked batches.now.flush batches.now.pages.now
        (slice_index batches.now.cuts.now k) (slice_index batches.now.cuts.now (k + 1)) plan.frames.items plan.pieces.items) }
    ensures { IfOk result (ArePagesPlanned batches.now.shards.now batches.now.trees.now batches.now.revoked batches.now.flush batches.now.pages.now) }
{
    let mut frames = Vec::new(batches.alloc);
    let mut pieces = Vec::new(batches.alloc);
    for part in planned {
        let plan = part?;
        let StripPlan {
            frames: mut its_frames,
            pieces: mut its_pieces,
        } = plan;
        frames.append(&mut its_frames)?;
        pieces.append(&mut its_pieces)?;
    }
    Ok(StripPlan { frames, pieces })
}
