//! Nodes of a list moved within it.

ghost use Rattle.std.specs.Prelude.{◌≡◌, ◌≤◌, ◌<◌, ◌-◌, length, take, insert};
ghost use Rattle.maptree.specs.Origins.{AreRising};
ghost use Rattle.maptree.specs.Cuts.{outside};

use space::Node;
use std::ops::Range;

/// Puts a node at a position and moves those from there on up by one; the last node falls off.
pub fn shift_in(nodes: &mut [Node], i: usize, node: Node)
    requires { i < length nodes.old }
    ensures { nodes.new ≡ insert (take (length nodes.old - 1) nodes.old) i node }
{
    let last = nodes.len() - 1;
    nodes.copy_within(i..last, i + 1);
    nodes[i] = node;
}

/// Moves the nodes that are in none of the ranges to the front of a list, in one pass, and says how many they are.
pub fn close_gaps(nodes: &mut [Node], ranges: &[Range<usize>]) -> usize
    requires { AreRising 0 ranges.now (length nodes.old) }
    ensures nodes { take result nodes.new ≡ outside 0 ranges.now nodes.old }
    ensures most { result ≤ length nodes.old }
{
    let mut kept = 0;
    let mut from = 0;
    for range in ranges {
        nodes.copy_within(from..range.start, kept);
        kept += range.start - from;
        from = range.end;
    }
    let len = nodes.len();
    nodes.copy_within(from..len, kept);
    kept + (len - from)
}
