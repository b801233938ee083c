//! Runs taken out of a list of nodes, and put back.

ghost use Rattle.std.specs.Prelude.{◌≡◌, ◌≤◌, IfOk, length, vec_capacity};
ghost use Rattle.maptree.specs.Origins.{AreRising};
ghost use Rattle.space.specs.Slices.{nodes_of};
ghost use Rattle.maptree.specs.Cuts.{AreGaps, joined, outside};

use crate::node_list::NodeList;
use space::{Node, Slice};
use std::alloc::{AllocError, Global};
use std::ops::Range;

/// The nodes of some runs of a list: what a cut takes out.
#[derive(Drop)]
pub struct Cutting {
    /// How many nodes that are in none of the runs stand before the next part.
    left: usize,
    /// For each part, how many nodes that are in none of the runs stand before it.
    pub gaps: Vec<usize>,
    /// The nodes of the runs.
    pub parts: Vec<Slice>,
}

impl Cutting {
    ghost use Rattle.std.specs.Prelude.{◌≡◌, ◌≤◌, ◌++◌, List, OnOk, IfOk, length};
    ghost use Rattle.std.specs.List.{slice_range};
    ghost use Rattle.space.specs.declared.node.Node.{Node};
    ghost use Rattle.maptree.specs.Origins.{AreRising};
    ghost use Rattle.space.specs.Slices.{nodes_of, pieces};
    ghost use Rattle.maptree.specs.Cuts.{AreGaps, IsCutting, joined, outside, pieces_of};

    /// The nodes of some ranges of a list, in parts of at most so many.
    pub fn of(
        alloc: Global,
        list: &NodeList,
        ranges: &[Range<usize>],
        most: usize,
    ) -> Result<Cutting, AllocError>
        requires rising { AreRising 0 ranges.now (length list.now.nodes) }
        requires most { 1 ≤ most }
        ensures parts { IfOk result (λ c. nodes_of c.parts.items ≡ pieces_of most ranges.now list.now.nodes) }
        ensures whole { IfOk result (λ c. IsCutting list.now.nodes (outside 0 ranges.now list.now.nodes) c.gaps.items c.parts.items) }
    {
        let mut cutting = Cutting {
            left: 0,
            gaps: Vec::with_capacity(alloc, ranges.len())?,
            parts: Vec::with_capacity(alloc, ranges.len())?,
        };
        let mut from = 0;
        for range in ranges {
            cutting.left += range.start - from;
            cutting.take(alloc, list, range.start, range.end, most)?;
            from = range.end;
        }
        Ok(cutting)
    }

    /// The nodes from a position to another too, in parts of at most so many.
    fn take(
        &mut self,
        alloc: Global,
        list: &NodeList,
        from: usize,
        to: usize,
        most: usize,
    ) -> Result<(), AllocError>
        requires rising { from ≤ to }
        requires within { to ≤ length list.now.nodes }
        requires most { 1 ≤ most }
        requires gaps { AreGaps 0 self.old.gaps.items self.old.left }
        requires each_part { length self.old.gaps.items ≡ length self.old.parts.items }
        ensures left { self.new.left ≡ self.old.left }
        ensures parts { OnOk result (nodes_of self.new.parts.items
            ≡ nodes_of self.old.parts.items ++ pieces (length (slice_range list.now.nodes from to)) most (slice_range list.now.nodes from to)) }
        ensures whole { OnOk result ((left : List Node) → length left ≡ self.old.left → IsCutting
            (joined 0 left self.old.gaps.items (nodes_of self.old.parts.items) ++ slice_range list.now.nodes from to)
            left self.new.gaps.items self.new.parts.items) }
    {
        let mut at = from;
        while at < to {
            let end = at + most.min(to - at);
            let nodes = list.copy(alloc, at, end)?;
            self.parts.push(Slice { nodes })?;
            self.gaps.push(self.left)?;
            at = end;
        }
        Ok(())
    }
}

/// Parts put back between the nodes that were left, with room for so many nodes at least.
pub fn joined(
    alloc: Global,
    left: &[Node],
    room: usize,
    gaps: &[usize],
    parts: &[Slice],
) -> Result<Vec<Node>, AllocError>
    requires gaps { AreGaps 0 gaps.now (length left.now) }
    requires each_part { length gaps.now ≡ length parts.now }
    ensures items { IfOk result (λ nodes. nodes.items ≡ joined 0 left.now gaps.now (nodes_of parts.now)) }
    ensures room { IfOk result (λ nodes. room ≤ vec_capacity nodes) }
{
    let mut nodes = Vec::with_capacity(alloc, room)?;
    let mut from = 0;
    for i in 0..parts.len() {
        let gap = gaps[i];
        nodes.extend_from_slice(&left[from..gap])?;
        nodes.extend_from_slice(&parts[i].nodes)?;
        from = gap;
    }
    nodes.extend_from_slice(&left[from..])?;
    Ok(nodes)
}
