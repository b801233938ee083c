//! A tree loses the places that hold nothing any more.

ghost use Rattle.std.specs.Prelude.{◌≡◌, ◌≤◌, true, not, length, IfOk, OnOk, IsFalse, [], ◌∷◌, IfSome};
ghost use Rattle.std.specs.List.{All, list_all};
ghost use Rattle.space.specs.Shards.{IsPlace, is_taken};
ghost use Rattle.maptree.specs.Origins.{IsRun, AreRising};
ghost use Rattle.space.specs.Slices.{nodes_of};
ghost use Rattle.maptree.specs.Cuts.{outside, count_of};
ghost use Rattle.holdings.specs.Inner.Held.{has_entry};
ghost use Rattle.holdings.specs.Inner.Stripping.{pruned, AreGoneUpTo, OriginsHaveEntries, IsLeft};
ghost use Rattle.holdings.specs.Inner.StripPlans.{AllCanBePruned, ArePruned, AreKeptNodes, count_in_runs, count_in_frames, in_frames};

use maptree::Tree;
use pieces::FrameRuns;
use space::{NoMemory, Shards, Slice};
use std::alloc::{AllocError, Global};
use std::ops::Range;

/// Takes the places without an entry out of a tree. They lie in these runs, and with a place goes what derives from it.
/// Where every place of the runs has an entry, the tree stays as it is.
///
/// Refused, where memory is: `NoMemory`.
pub fn prune(
    alloc: Global,
    shards: &Shards,
    tree: &mut Tree,
    runs: &[Range<usize>],
) -> Result<(), NoMemory>
    requires present { IsFalse (is_taken shards.now) }
    requires places { All (λ o. IsPlace shards.now o.0) tree.old.links }
    requires rising { AreRising 0 runs.now (length tree.old.links) }
    requires runs { All (IsRun tree.old.links) runs.now }
    requires outside { list_all (λ o. has_entry shards.now o.0) (outside 0 runs.now tree.old.links) ≡ true }
    requires origins { OriginsHaveEntries shards.now tree.old.links }
    ensures { OnOk result (tree.new.links ≡ pruned shards.now tree.old.links) }
{
    let gone = gone_runs(alloc, shards, tree, runs)?;
    if !gone.is_empty() {
        tree.remove(&gone);
    }
    Ok(())
}

/// The outermost runs of a tree whose places have no entry. They lie in these runs.
///
/// Refused, where memory is.
fn gone_runs(
    alloc: Global,
    shards: &Shards,
    tree: &Tree,
    runs: &[Range<usize>],
) -> Result<Vec<Range<usize>>, AllocError>
    requires present { IsFalse (is_taken shards.now) }
    requires places { All (λ o. IsPlace shards.now o.0) tree.now.links }
    requires rising { AreRising 0 runs.now (length tree.now.links) }
    requires runs { All (IsRun tree.now.links) runs.now }
    requires outside { list_all (λ o. has_entry shards.now o.0) (outside 0 runs.now tree.now.links) ≡ true }
    requires origins { OriginsHaveEntries shards.now tree.now.links }
    ensures { IfOk result (λ gone. AreGoneUpTo shards.now tree.now.links (length tree.now.links) gone.items) }
{
    let mut gone = Vec::new(alloc);
    for run in runs {
        add_gone(shards, tree, run, &mut gone)?;
    }
    Ok(gone)
}

/// Adds those of one run to those before it.
fn add_gone(
    shards: &Shards,
    tree: &Tree,
    run: &Range<usize>,
    gone: &mut Vec<Range<usize>>,
) -> Result<(), AllocError>
    requires present { IsFalse (is_taken shards.now) }
    requires places { All (λ o. IsPlace shards.now o.0) tree.now.links }
    requires run { IsRun tree.now.links run.now }
    requires some { run.now.start ≤ run.now.end }
    requires within { run.now.end ≤ length tree.now.links }
    requires origins { OriginsHaveEntries shards.now tree.now.links }
    requires before { AreGoneUpTo shards.now tree.now.links run.now.start gone.old.items }
    ensures { OnOk result (AreGoneUpTo shards.now tree.now.links run.now.end gone.new.items) }
{
    let mut nodes = tree.nodes();
    let mut i = run.start;
    while i < run.end {
        if shards.get(nodes.at(i).place).is_some() {
            i += 1;
        } else {
            // With a place goes what derives from it.
            let its_run = tree.run_of(i);
            i = its_run.end;
            gone.push(its_run)?;
        }
    }
    Ok(())
}

/// What is known to be left of the places of a run.
#[derive(Clone, Copy)]
pub struct Left {
    /// Each of them before this position of the tree has an entry.
    pub held_to: usize,
    /// None of the others has one.
    pub rest_gone: bool,
}

impl Left {
    ghost use Rattle.std.specs.Prelude.{◌≡◌, ◌+◌, ◌<◌, ◌^◌, false, true};
    ghost use Rattle.holdings.specs.Inner.Stripping.{with_next};

    /// Of places that begin at a position nothing is known.
    pub fn unknown(start: usize) -> Left
        ensures { result ≡ record { held_to = start; rest_gone = false } }
    {
        Left {
            held_to: start,
            rest_gone: false,
        }
    }

    /// The same of no places.
    pub fn of_none(start: usize) -> Left
        ensures { result ≡ record { held_to = start; rest_gone = true } }
    {
        Left {
            held_to: start,
            rest_gone: true,
        }
    }

    /// The same of one place more, that at position `i`, which has an entry or none.
    pub fn with_next(self, i: usize, held: bool) -> Left
        requires { i + 1 < 2 ^ 64 }
        ensures { result ≡ with_next self i held }
    {
        if self.held_to == i && held {
            Left {
                held_to: i + 1,
                rest_gone: self.rest_gone,
            }
        } else {
            Left {
                held_to: self.held_to,
                rest_gone: self.rest_gone && !held,
            }
        }
    }
}

/// The same as `prune` for one run, of which so much is known: where its places in front have an entry and the others have none, no
/// entry is read, and no memory is taken.
///
/// Refused, where memory is: `NoMemory`.
pub fn prune_run(
    alloc: Global,
    shards: &Shards,
    tree: &mut Tree,
    run: Range<usize>,
    left: Left,
) -> Result<(), NoMemory>
    requires present { IsFalse (is_taken shards.now) }
    requires places { All (λ o. IsPlace shards.now o.0) tree.old.links }
    requires rising { AreRising 0 (run ∷ []) (length tree.old.links) }
    requires runs { All (IsRun tree.old.links) (run ∷ []) }
    requires outside { list_all (λ o. has_entry shards.now o.0) (outside 0 (run ∷ []) tree.old.links) ≡ true }
    requires origins { OriginsHaveEntries shards.now tree.old.links }
    requires left { IsLeft shards.now tree.old.links run left }
    ensures { OnOk result (tree.new.links ≡ pruned shards.now tree.old.links) }
{
    if left.held_to == run.end {
        return Ok(());
    }
    if left.rest_gone {
        tree.remove_end(&run, left.held_to);
        return Ok(());
    }
    prune(alloc, shards, tree, &[run])
}

/// Takes the places without an entry out of the trees of these frames. They lie in the runs of these.
///
/// Refused, where memory is: `NoMemory`.
pub fn prune_all(
    alloc: Global,
    shards: &Shards,
    trees: &mut [Tree],
    frames: &[FrameRuns],
) -> Result<(), NoMemory>
    requires present { IsFalse (is_taken shards.now) }
    requires can { AllCanBePruned shards.now trees.old frames.now }
    ensures { OnOk result (ArePruned shards.now frames.now trees.old trees.new) }
{
    for frame in frames {
        prune(
            alloc,
            shards,
            &mut trees[frame.frame as usize],
            frame.runs.as_slice(),
        )?;
    }
    Ok(())
}

/// The same, where these of the nodes of the runs were kept, in parts. Where all were kept, the trees stay as they are, and
/// where none was, the runs go; then no entry is read.
///
/// Refused, where memory is: `NoMemory`.
pub fn prune_gone(
    alloc: Global,
    shards: &Shards,
    trees: &mut [Tree],
    frames: &[FrameRuns],
    kept: &[Slice],
) -> Result<(), NoMemory>
    requires present { IsFalse (is_taken shards.now) }
    requires can { AllCanBePruned shards.now trees.old frames.now }
    requires kept { AreKeptNodes shards.now trees.old frames.now (nodes_of kept.now) }
    ensures { OnOk result (ArePruned shards.now frames.now trees.old trees.new) }
{
    if are_all_kept(frames, kept) {
        return Ok(());
    }
    if is_none_kept(kept) {
        remove_all(shards, trees, frames);
        return Ok(());
    }
    prune_all(alloc, shards, trees, frames)
}

/// Takes these runs out of the trees of their frames, where none of their places has an entry. This takes no memory.
fn remove_all(shards: &Shards, trees: &mut [Tree], frames: &[FrameRuns])
    requires can { AllCanBePruned shards.now trees.old frames.now }
    requires gone { list_all (λ p. not (has_entry shards.now p)) (in_frames trees.old frames.now) ≡ true }
    ensures { ArePruned shards.now frames.now trees.old trees.new }
{
    let _ = shards;
    for frame in frames {
        trees[frame.frame as usize].remove(frame.runs.as_slice());
    }
}

/// Whether as many nodes were kept as these runs have.
fn are_all_kept(frames: &[FrameRuns], kept: &[Slice]) -> bool
    requires { All (λ f. All (λ r. r.start ≤ r.end) f.runs) frames.now }
    ensures { result ≡ true → count_of (nodes_of kept.now) ≡ count_in_frames frames.now }
{
    match (count_in_frames(frames), count_in_slices(kept)) {
        (Some(all), Some(kept)) => kept == all,
        _ => false,
    }
}

/// Whether no node was kept.
fn is_none_kept(kept: &[Slice]) -> bool
    ensures { result ≡ true → count_of (nodes_of kept.now) ≡ 0 }
{
    count_in_slices(kept) == Some(0)
}

/// How many nodes some slices have, if the machine has such a number.
fn count_in_slices(slices: &[Slice]) -> Option<usize>
    ensures { IfSome result (λ count. count ≡ count_of (nodes_of slices.now)) }
{
    let mut count: usize = 0;
    for slice in slices {
        count = count.checked_add(slice.nodes.len())?;
    }
    Some(count)
}

/// The same of the runs of frames.
fn count_in_frames(frames: &[FrameRuns]) -> Option<usize>
    requires { All (λ f. All (λ r. r.start ≤ r.end) f.runs) frames.now }
    ensures { IfSome result (λ count. count ≡ count_in_frames frames.now) }
{
    let mut count: usize = 0;
    for frame in frames {
        count = count.checked_add(count_in_runs(frame.runs.as_slice())?)?;
    }
    Some(count)
}

/// The same of the runs of one frame.
fn count_in_runs(runs: &[Range<usize>]) -> Option<usize>
    requires { All (λ r. r.start ≤ r.end) runs.now }
    ensures { IfSome result (λ count. count ≡ count_in_runs runs.now) }
{
    let mut count: usize = 0;
    for run in runs {
        count = count.checked_add(run.end - run.start)?;
    }
    Some(count)
}
