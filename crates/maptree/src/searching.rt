//! The outermost runs of a few places of a long list, by a search for each of them.

ghost use Rattle.std.specs.Prelude.{◌≡◌, true, IfOk};
ghost use Rattle.std.specs.List.Sorted.{IsNonDecreasing};
ghost use Rattle.maptree.specs.Nodes.{are_distinct, is_forest, origins_of};
ghost use Rattle.maptree.specs.Origins.{AreOuterRuns};
ghost use Rattle.maptree.specs.Named.{ArePositions};

use crate::tree_nodes::TreeNodes;
use space::Place;
use std::alloc::{AllocError, Global};
use std::ops::Range;

/// The outermost runs of the nodes with these places.
pub fn runs_of(
    alloc: Global,
    nodes: &TreeNodes,
    places: &[Place],
) -> Result<Vec<Range<usize>>, AllocError>
    requires { is_forest nodes.now.nodes ≡ true }
    ensures { IfOk result (λ runs. AreOuterRuns (origins_of nodes.now.nodes) places.now runs.items) }
{
    let positions = positions_of(alloc, nodes, places)?;
    let mut runs = Vec::new(alloc);
    let mut end = 0;
    for m in 0..positions.len() {
        let i = positions[m];
        // What stands before the end is in the last run.
        if end <= i {
            let (_, derived) = nodes.run_of(i);
            end = i + 1 + derived;
            runs.push(i..end)?;
        }
    }
    Ok(runs)
}

/// The positions of the nodes with these places, in rising order.
fn positions_of(
    alloc: Global,
    nodes: &TreeNodes,
    places: &[Place],
) -> Result<Vec<usize>, AllocError>
    requires { are_distinct nodes.now.nodes ≡ true }
    ensures positions { IfOk result (λ at. ArePositions nodes.now.nodes places.now at.items) }
    ensures rising { IfOk result (λ at. IsNonDecreasing at.items) }
{
    let mut positions = Vec::new(alloc);
    for place in places {
        if let Some(i) = nodes.find(*place) {
            positions.push(i)?;
        }
    }
    positions.sort_unstable();
    Ok(positions)
}
