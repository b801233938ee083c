//! What is asked of a list of nodes by their depths and places.

ghost use Rattle.std.specs.Prelude.{◌≡◌, true, length, position, IfOk};
ghost use Rattle.space.specs.Place.{same_place};
ghost use Rattle.maptree.specs.Nodes.{is_forest, origins_of, run_len, last_less};
ghost use Rattle.maptree.specs.Origins.{AreOuterRuns};

use space::{Node, Place};
use std::alloc::{AllocError, Global};
use std::collections::BTreeSet;
use std::ops::Range;

/// How many of the last nodes are looked at together.
const NEAR: usize = 4;

/// How many nodes from the front on are deeper than this.
pub fn deeper(nodes: &[Node], depth: usize) -> usize
    ensures { result ≡ run_len depth nodes.now }
{
    for i in 0..nodes.len() {
        if nodes[i].depth <= depth {
            return i;
        }
    }
    nodes.len()
}

/// The position of the last node that is less deep than this.
pub fn last_above(nodes: &[Node], depth: usize) -> Option<usize>
    ensures { result ≡ last_less depth nodes.now }
{
    if nodes.len() < NEAR {
        return last_of_many(nodes, depth);
    }
    // Mostly it is one of the last few, and no branch predictor knows which.
    let (far, near) = nodes.split_at(nodes.len() - NEAR);
    if let Some(i) = last_of_four(near, depth) {
        return Some(far.len() + i);
    }
    last_of_many(far, depth)
}

/// The same of four nodes. All of them are looked at, with no branch that depends on their depths.
fn last_of_four(nodes: &[Node], depth: usize) -> Option<usize>
    requires { length nodes.now ≡ 4 }
    ensures { result ≡ last_less depth nodes.now }
{
    let mut last = None;
    for i in 0..NEAR {
        if nodes[i].depth < depth {
            last = Some(i);
        }
    }
    last
}

/// The same of many nodes, from the last one on.
fn last_of_many(nodes: &[Node], depth: usize) -> Option<usize>
    ensures { result ≡ last_less depth nodes.now }
{
    for i in (0..nodes.len()).rev() {
        if nodes[i].depth < depth {
            return Some(i);
        }
    }
    None
}

/// The position of the node with this place.
pub fn placed(nodes: &[Node], place: Place) -> Option<usize>
    ensures { result ≡ position (λ n. same_place place n.place) nodes.now }
{
    nodes.iter().position(|node| place == node.place)
}

/// The outermost runs of the nodes whose place is in the set.
pub fn outermost(
    nodes: &[Node],
    alloc: Global,
    named: &BTreeSet<Place>,
) -> Result<Vec<Range<usize>>, AllocError>
    requires { is_forest nodes.now ≡ true }
    ensures { IfOk result (λ runs. AreOuterRuns (origins_of nodes.now) named.now.keys runs.items) }
{
    let mut runs = Vec::new(alloc);
    let mut i = 0;
    while i < nodes.len() {
        let node = nodes[i];
        if named.contains(&node.place) {
            let end = i + 1 + deeper(&nodes[i + 1..], node.depth);
            runs.push(i..end)?;
            i = end;
        } else {
            i += 1;
        }
    }
    Ok(runs)
}
