//! The outermost runs of pages of one frame.

ghost use Rattle.std.specs.Prelude.{[], ◌∷◌, IfOk};
ghost use Rattle.maptree.specs.Origins.{AreOuterRuns};

use maptree::Tree;
use pieces::Runs;
use space::{NoMemory, Place};
use std::alloc::Global;
use std::slice;

/// The outermost runs of some places of a tree.
///
/// Refused, where memory is: `NoMemory`.
pub fn outermost_runs(alloc: Global, tree: &Tree, places: &[Place]) -> Result<Runs, NoMemory>
    ensures { IfOk result (AreOuterRuns tree.now.links places.now) }
{
    if let [place] = places {
        return runs_of_place(alloc, tree, *place);
    }
    let runs = tree.outer_runs(alloc, places)?;
    Ok(Runs::many(runs))
}

/// The same for one place, which takes no memory where the place is in the tree.
fn runs_of_place(alloc: Global, tree: &Tree, place: Place) -> Result<Runs, NoMemory>
    ensures { IfOk result (AreOuterRuns tree.now.links (place ∷ [])) }
{
    if let Some(i) = tree.find(place) {
        return Ok(Runs::one(tree.run_of(i)));
    }
    let runs = tree.outer_runs(alloc, slice::from_ref(&place))?;
    Ok(Runs::many(runs))
}
