//! A block of a list of nodes.

ghost use Rattle.std.specs.Prelude.{◌≡◌, true, drop};
ghost use Rattle.maptree.specs.Blocks.{is_least, is_most};

use crate::place_map::PlaceMap;
use crate::replacing::replace_places;
use crate::scans::{deeper, last_above, placed};
use crate::shifts::shift_in;
use space::{Node, Place};
use std::alloc::{AllocError, Global};
use std::marker::Model;

/// How many nodes a block has at most.
pub const BLOCK_SIZE: usize = 128;

/// Some nodes of a list, one after another; up to 128 find room without more memory.
#[derive(Drop)]
pub struct Block {
    nodes: Vec<Node>,
    /// None of its nodes is less deep than this.
    least: usize,
    /// None of its nodes but the first is less deep than this.
    behind: usize,
    /// The number by which `Hints` know it.
    number: u32,
}

impl Model for Block {
    ghost use Rattle.std.specs.Prelude.{◌≡◌, ◌≤◌, true, List, length, drop, vec_capacity};
    ghost use Rattle.space.specs.declared.node.Node.{Node};
    ghost use Rattle.maptree.specs.Blocks.{block_size, is_least};

    ghost Value = { List Node };

    ghost view = { λ b. b.nodes.items };

    ghost invariant = { λ b. (length b.nodes.items ≤ block_size) × (block_size ≤ vec_capacity b.nodes) × (is_least b.least b.nodes.items ≡ true) × (is_least b.behind (drop 1 b.nodes.items) ≡ true) };
}

impl Block {
    ghost use Rattle.std.specs.Prelude.{◌≡◌, ◌+◌, ◌<◌, ◌≤◌, ℕ, true, [], ◌++◌, length, take, drop, get_or, set, insert, position, IfOk, IfSome};
    ghost use Rattle.space.specs.Place.{same_place};
    ghost use Rattle.space.specs.declared.node.Node.{Node};
    ghost use Rattle.maptree.specs.Blocks.{block_size, is_least};
    ghost use Rattle.maptree.specs.Nodes.{run_len, last_less};
    ghost use Rattle.maptree.specs.PlaceMaps.{place_for};
    ghost use Rattle.maptree.specs.Renamings.{nodes_renamed};

    /// A block of no nodes.
    pub fn empty(alloc: Global) -> Result<Block, AllocError>
        ensures { IfOk result (λ b. b ≡ []) }
    {
        let nodes = Vec::with_capacity(alloc, BLOCK_SIZE)?;
        Ok(Block {
            nodes,
            least: usize::MAX,
            behind: usize::MAX,
            number: 0,
        })
    }

    /// How many nodes it has.
    pub fn len(&self) -> usize
        ensures len { result ≡ length self.now }
        ensures most { result ≤ block_size }
    {
        self.nodes.len()
    }

    /// Its nodes.
    pub fn nodes(&self) -> &[Node]
        ensures { result.now ≡ self.now }
    {
        &self.nodes
    }

    /// A depth that none of its nodes goes below.
    pub fn least(&self) -> u32
        ensures { is_least result self.now ≡ true }
    {
        self.least.min(u32::MAX as usize) as u32
    }

    /// Its number.
    pub fn number(&self) -> u32 {
        self.number
    }

    /// Another number for it.
    pub fn set_number(&mut self, number: u32)
        ensures { self.new ≡ self.old }
    {
        self.number = number;
    }

    /// The node at a position.
    pub fn get(&self, i: usize) -> Node
        requires { i < length self.now }
        ensures { result ≡ get_or self.now i result }
    {
        self.nodes[i]
    }

    /// The position of a place.
    pub fn find(&self, place: Place) -> Option<usize>
        ensures { result ≡ position (λ n. same_place place n.place) self.now }
    {
        placed(&self.nodes, place)
    }

    /// A position where a place stands, if it stands here. Two are looked at first: the one with so many nodes before it, and the
    /// one with so many from it on.
    pub fn find_from(&self, place: Place, before: usize, from: usize) -> Option<usize>
        ensures within { IfSome result (λ i. i < length self.now) }
        ensures there { (d : Node) → IfSome result (λ i. same_place place (get_or self.now i d).place ≡ true) }
    {
        if self.has_at(place, before) {
            return Some(before);
        }
        let behind = self.nodes.len().wrapping_sub(from);
        if self.has_at(place, behind) {
            return Some(behind);
        }
        self.look_from(place, before)
    }

    /// Whether a place stands at a position, which need not be one of the block.
    fn has_at(&self, place: Place, i: usize) -> bool
        ensures within { result ≡ true → i < length self.now }
        ensures there { (d : Node) → result ≡ true → same_place place (get_or self.now i d).place ≡ true }
    {
        i < self.nodes.len() && place == self.nodes[i].place
    }

    /// A position where a place stands, if it stands here. It is looked for from this position on first.
    fn look_from(&self, place: Place, from: usize) -> Option<usize>
        ensures within { IfSome result (λ i. i < length self.now) }
        ensures there { (d : Node) → IfSome result (λ i. same_place place (get_or self.now i d).place ≡ true) }
    {
        let (front, back) = self.nodes.split_at(from.min(self.nodes.len()));
        if let Some(i) = placed(back, place) {
            return Some(front.len() + i);
        }
        placed(front, place)
    }

    /// How many nodes from a position on are deeper than this.
    pub fn deeper(&self, from: usize, depth: usize) -> usize
        requires { from ≤ length self.now }
        ensures { result ≡ run_len depth (drop from self.now) }
    {
        if depth < self.least {
            return self.nodes.len() - from;
        }
        deeper(&self.nodes[from..], depth)
    }

    /// The position of the last of the first `end` nodes that is less deep than this.
    pub fn last_above(&self, end: usize, depth: usize) -> Option<usize>
        requires { end ≤ length self.now }
        ensures { result ≡ last_less depth (take end self.now) }
    {
        if depth <= self.least {
            return None;
        }
        // As in a fan, whose root stands in front: only the first node can be less deep.
        let end = if depth <= self.behind {
            end.min(1)
        } else {
            end
        };
        self.last_above_here(end, depth)
    }

    /// The same by the nodes alone, for where one near the end is likely to be less deep.
    pub fn last_above_here(&self, end: usize, depth: usize) -> Option<usize>
        requires { end ≤ length self.now }
        ensures { result ≡ last_less depth (take end self.now) }
    {
        last_above(&self.nodes[..end], depth)
    }

    /// The least depth of nodes that are put behind its own, without the first of all.
    fn least_behind(&self, nodes: &[Node]) -> usize
        ensures { (a : ℕ) → a ≤ result → is_least a (drop 1 self.now) ≡ true → is_least a (drop 1 (self.now ++ nodes.now)) ≡ true }
    {
        if self.nodes.is_empty() {
            least_of(behind_first(nodes))
        } else {
            least_of(nodes)
        }
    }

    /// Adds nodes behind the others.
    pub fn extend(&mut self, nodes: &[Node])
        requires { length self.old + length nodes.now ≤ block_size }
        ensures { self.new ≡ self.old ++ nodes.now }
    {
        self.behind = self.behind.min(self.least_behind(nodes));
        self.least = self.least.min(least_of(nodes));
        let extended = self.nodes.extend_from_slice(nodes);
        prove!(extended.is_ok());
    }

    /// Puts a node at a position.
    pub fn insert(&mut self, i: usize, node: Node)
        requires within { i ≤ length self.old }
        requires room { length self.old < block_size }
        ensures { self.new ≡ insert self.old i node }
    {
        // The node that was the first one stands behind the new one, if that comes first.
        self.behind = if i == 0 {
            self.least
        } else {
            self.behind.min(node.depth)
        };
        self.least = self.least.min(node.depth);
        // A push and a shift take fewer steps than `insert` of a vector (DECISIONS).
        let pushed = self.nodes.push(node);
        prove!(pushed.is_ok());
        shift_in(&mut self.nodes, i, node);
    }

    /// Another place for the node at a position.
    pub fn set_place(&mut self, i: usize, place: Place)
        requires { i < length self.old }
        ensures { (d : Node) → self.new ≡ set self.old i (record { place = place; depth = (get_or self.old i d).depth }) }
    {
        let node = &mut self.nodes[i];
        node.place = place;
    }

    /// Each node whose place has one in the map gets that.
    pub fn rename_all(&mut self, new: &PlaceMap)
        ensures { self.new ≡ nodes_renamed (place_for new.now) self.old }
    {
        replace_places(&mut self.nodes, new);
    }

    /// Takes the nodes from a position to another out.
    pub fn remove(&mut self, from: usize, to: usize)
        requires rising { from ≤ to }
        requires within { to ≤ length self.old }
        ensures { self.new ≡ take from self.old ++ drop to self.old }
    {
        let len = self.nodes.len();
        self.nodes.copy_within(to..len, from);
        self.nodes.truncate(from + (len - to));
    }

    /// Takes all nodes out.
    pub fn clear(&mut self)
        ensures { self.new ≡ [] }
    {
        self.nodes.clear();
        self.least = usize::MAX;
        self.behind = usize::MAX;
    }

    /// Moves the nodes from a position on to another block.
    pub fn split_into(&mut self, at: usize, other: &mut Block)
        requires { at ≤ length self.old }
        ensures front { self.new ≡ take at self.old }
        ensures back { other.new ≡ drop at self.old }
    {
        other.clear();
        other.extend(&self.nodes[at..]);
        self.nodes.truncate(at);
        self.least = least_of(&self.nodes);
    }
}

/// Some nodes without the first.
pub fn behind_first(nodes: &[Node]) -> &[Node]
    ensures { result.now ≡ drop 1 nodes.now }
{
    if nodes.is_empty() { nodes } else { &nodes[1..] }
}

/// The least depth of some nodes.
pub fn least_of(nodes: &[Node]) -> usize
    ensures { is_least result nodes.now ≡ true }
{
    let mut least = usize::MAX;
    for node in nodes {
        least = least.min(node.depth);
    }
    least
}

/// The greatest depth of some nodes.
pub fn most_of(nodes: &[Node]) -> usize
    ensures { is_most result nodes.now ≡ true }
{
    let mut most = 0;
    for node in nodes {
        most = most.max(node.depth);
    }
    most
}
