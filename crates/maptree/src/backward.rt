//! A list of nodes kept in a vector with the last one first.
//!
//! A new node stands directly behind its origin, so where one page goes to many others all new nodes stand near the front of the
//! list. That is the end of the vector, where few nodes have to move.

ghost use Rattle.std.specs.Prelude.{◌≡◌, ◌+◌, ◌-◌, ◌<◌, ◌≤◌, ◌∷◌, [], true, length, take, drop, reverse, get_or, set, insert, position, IfOk};
ghost use Rattle.std.specs.List.{slice_range};
ghost use Rattle.space.specs.Place.{same_place};
ghost use Rattle.space.specs.declared.node.Node.{Node};
ghost use Rattle.maptree.specs.Nodes.{are_distinct, run_len, last_less};
ghost use Rattle.maptree.specs.Cuts.{outside};
ghost use Rattle.maptree.specs.Origins.{AreRising};
ghost use Rattle.maptree.specs.PlaceMaps.{place_for};
ghost use Rattle.maptree.specs.Renamings.{nodes_renamed};

use crate::place_map::PlaceMap;
use crate::replacing::replace_places;
use crate::shifts::{close_gaps, shift_in};
use smallvec::SmallVec;
use space::{Node, Place};
use std::alloc::{AllocError, Global};
use std::ops::Range;

/// How many nodes take no memory but the vector's own bytes.
pub const INLINE: usize = 3;

/// The node at a position of the list.
pub fn node_at(backward: &[Node], i: usize) -> Node
    requires { i < length backward.now }
    ensures { result ≡ get_or (reverse backward.now) i result }
{
    backward[backward.len() - 1 - i]
}

/// The position of the node with this place. That position is tried first.
pub fn find(backward: &[Node], place: Place, near: usize) -> Option<usize>
    requires { are_distinct (reverse backward.now) ≡ true }
    ensures { result ≡ position (λ n. same_place place n.place) (reverse backward.now) }
{
    if near < backward.len() && place == node_at(backward, near).place {
        return Some(near);
    }
    for i in 0..backward.len() {
        if place == node_at(backward, i).place {
            return Some(i);
        }
    }
    None
}

/// How many nodes behind a position are deeper than this, one after another.
pub fn deeper(backward: &[Node], i: usize, depth: usize) -> usize
    requires { i < length backward.now }
    ensures { result ≡ run_len depth (drop (i + 1) (reverse backward.now)) }
{
    for k in i + 1..backward.len() {
        if node_at(backward, k).depth <= depth {
            return k - (i + 1);
        }
    }
    backward.len() - (i + 1)
}

/// The position of the last of the nodes before a position that is less deep than this.
pub fn last_above(backward: &[Node], i: usize, depth: usize) -> Option<usize>
    requires { i ≤ length backward.now }
    ensures { result ≡ last_less depth (take i (reverse backward.now)) }
{
    for k in (0..i).rev() {
        if node_at(backward, k).depth < depth {
            return Some(k);
        }
    }
    None
}

/// Another place for the node at a position.
pub fn set_place(backward: &mut [Node], i: usize, place: Place)
    requires { i < length backward.old }
    ensures { (d : Node) → reverse backward.new ≡ set (reverse backward.old) i (record { place = place; depth = (get_or (reverse backward.old) i d).depth }) }
{
    let at = backward.len() - 1 - i;
    let node = &mut backward[at];
    node.place = place;
}

/// Puts a node at a position. The last node of the vector falls off.
pub fn put_in(backward: &mut [Node], i: usize, node: Node)
    requires { i < length backward.old }
    ensures { reverse backward.new ≡ insert (reverse (take (length backward.old - 1) backward.old)) i node }
{
    let behind = backward.len() - 1 - i;
    shift_in(backward, behind, node);
}

/// Each node whose place has one in the map gets that.
pub fn rename_all(backward: &mut [Node], new: &PlaceMap)
    ensures { reverse backward.new ≡ nodes_renamed (place_for new.now) (reverse backward.old) }
{
    replace_places(backward, new);
}

/// Takes ranges of the list out. This takes no memory.
pub fn take_out(backward: &mut SmallVec<Node, INLINE>, ranges: &[Range<usize>])
    requires { AreRising 0 ranges.now (length backward.old.items) }
    ensures nodes { reverse backward.new.items ≡ outside 0 ranges.now (reverse backward.old.items) }
    ensures fewer { length backward.new.items ≤ length backward.old.items }
    ensures capacity { backward.new.capacity ≡ backward.old.capacity }
{
    if let [range] = ranges {
        take_one_out(backward, range);
        return;
    }
    backward.reverse();
    let left = close_gaps(backward, ranges);
    backward.truncate(left);
    backward.reverse();
}

/// The same of one range. Only the nodes before it move.
fn take_one_out(backward: &mut SmallVec<Node, INLINE>, range: &Range<usize>)
    requires { AreRising 0 (range.now ∷ []) (length backward.old.items) }
    ensures nodes { reverse backward.new.items ≡ outside 0 (range.now ∷ []) (reverse backward.old.items) }
    ensures fewer { length backward.new.items ≤ length backward.old.items }
    ensures capacity { backward.new.capacity ≡ backward.old.capacity }
{
    let len = backward.len();
    let left = close_gaps(backward, &[len - range.end..len - range.start]);
    backward.truncate(left);
}

/// The nodes from a position to another, the first one first.
pub fn forward(
    alloc: Global,
    backward: &[Node],
    from: usize,
    to: usize,
) -> Result<Vec<Node>, AllocError>
    requires rising { from ≤ to }
    requires within { to ≤ length backward.now }
    ensures { IfOk result (λ nodes. nodes.items ≡ slice_range (reverse backward.now) from to) }
{
    let len = backward.len();
    let mut nodes = Vec::from_slice(alloc, &backward[len - to..len - from])?;
    nodes.reverse();
    Ok(nodes)
}
