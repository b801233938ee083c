//! A list of nodes: one vector while it is short, blocks once it is long.

ghost use Rattle.std.specs.Prelude.{◌≡◌, ◌<◌, ◌≤◌, length, reverse, IfOk, IfSome};
ghost use Rattle.maptree.specs.Blocks.{nodes_in};
ghost use Rattle.space.specs.Slices.{nodes_of};
ghost use Rattle.maptree.specs.Cuts.{count_of};

use crate::backward::{self, INLINE, forward, node_at};
use crate::blocks::Blocks;
use crate::cutting::{Cutting, joined};
use crate::links::linked;
use crate::pair::Pair;
use crate::place_map::PlaceMap;
use crate::scans::outermost;
use smallvec::SmallVec;
use space::{Node, Place, Slice};
use std::alloc::{AllocError, Global};
use std::collections::BTreeSet;
use std::marker::Model;
use std::ops::Range;

/// How many nodes stand in one vector at most, where no more room is asked for at once.
const FEW: usize = 512;

/// So many nodes are put back one by one at most, if the list is no larger than `LARGER` times as many. For each of them
/// a block is held ready.
const PUT_BACK_IN_PLACE: usize = 512;

/// More nodes are put back one by one where the list has so many for each of them.
const LARGER: usize = 64;

/// A list of nodes.
#[derive(Drop)]
pub struct NodeList {
    form: Form,
    /// How many insertions were promised to take no memory.
    room: usize,
    /// Where the last node was put in. Its place is often the next to be asked for; no clause rests on it.
    last: usize,
}

#[derive(Drop)]
enum Form {
    /// One vector, the last node first (`backward`). The first few nodes stand in it, and take no other memory.
    Few(SmallVec<Node, INLINE>),
    /// Blocks, in a box since most lists are short.
    Many(Box<Blocks>),
}

impl Model for NodeList {
    ghost use Rattle.maptree.specs.Blocks.{Listed};
    ghost use Rattle.maptree.specs.Forms.{nodes_of_form, HasRoom};

    ghost Value = { Listed };

    ghost view = { λ l. record { nodes = nodes_of_form l.form; room = l.room } };

    ghost invariant = { λ l. HasRoom l.form l.room };
}

impl NodeList {
    ghost use Rattle.std.specs.Prelude.{◌≡◌, ◌+◌, ◌<◌, ◌≤◌, ◌^◌, true, [], ◌∷◌, length, take, drop, get_or, set, insert, position, IfOk, IfSome, OnOk, OnErr};
    ghost use Rattle.std.specs.List.{slice_range};
    ghost use Rattle.space.specs.Place.{same_place};
    ghost use Rattle.space.specs.declared.node.Node.{Node};
    ghost use Rattle.std.specs.Prelude.{option_map};
    ghost use Rattle.space.specs.declared.place.Place.{Place};
    ghost use Rattle.maptree.specs.Nodes.{are_distinct, is_forest, origin_at, origins_of, run_len, last_less};
    ghost use Rattle.maptree.specs.Origins.{AreRising, AreOuterRuns};
    ghost use Rattle.space.specs.Slices.{nodes_of};
    ghost use Rattle.maptree.specs.Cuts.{AreGaps, IsCutting, joined, outside, pieces_of};
    ghost use Rattle.maptree.specs.PlaceMaps.{place_for};
    ghost use Rattle.maptree.specs.Renamings.{nodes_renamed};
    ghost use Rattle.maptree.specs.Forms.{in_order};
    ghost use Rattle.maptree.specs.TreeForms.{nodes_of_pair};

    /// A list of one node. This takes no memory.
    pub fn one(alloc: Global, node: Node) -> NodeList
        ensures { result.nodes ≡ node ∷ [] }
    {
        let mut nodes = SmallVec::new(alloc);
        nodes.push_reserved(node);
        NodeList {
            form: Form::Few(nodes),
            room: 0,
            last: 0,
        }
    }

    /// A list of a root and of the node below it. This takes no memory.
    pub fn pair(alloc: Global, pair: &Pair) -> NodeList
        ensures { result.nodes ≡ nodes_of_pair pair.now }
    {
        let mut nodes = SmallVec::new(alloc);
        nodes.push_reserved(pair.node(1));
        nodes.push_reserved(pair.node(0));
        NodeList {
            form: Form::Few(nodes),
            room: 0,
            last: 1,
        }
    }

    /// A list of no nodes. This takes no memory.
    pub fn none(alloc: Global) -> NodeList
        ensures { result.nodes ≡ [] }
    {
        NodeList {
            form: Form::Few(SmallVec::new(alloc)),
            room: 0,
            last: 0,
        }
    }

    /// How many nodes there are.
    pub fn len(&self) -> usize
        ensures { result ≡ length self.now.nodes }
    {
        match &self.form {
            Form::Few(nodes) => nodes.len(),
            Form::Many(blocks) => blocks.len(),
        }
    }

    /// In how many blocks its nodes stand, if they stand in blocks; they do once there are many. No clause speaks of it.
    pub fn block_count(&self) -> Option<usize> {
        match &self.form {
            Form::Few(_) => None,
            Form::Many(blocks) => Some(blocks.block_count()),
        }
    }

    /// Whether it stands in blocks, where a search for a place does not pass over all nodes.
    pub fn is_in_blocks(&self) -> bool {
        matches!(&self.form, Form::Many(_))
    }

    /// The node at a position.
    pub fn get(&self, i: usize) -> Node
        requires { i < length self.now.nodes }
        ensures node { result ≡ get_or self.now.nodes i result }
        ensures fits { length self.now.nodes < 2 ^ 64 }
    {
        match &self.form {
            Form::Few(nodes) => node_at(nodes, i),
            Form::Many(blocks) => blocks.get(i),
        }
    }

    /// Some nodes, one after another, that have a position among them; the position of the first; and whether the last stands first.
    pub fn near(&self, i: usize) -> (usize, &[Node], bool)
        requires { i < length self.now.nodes }
        ensures before { result.0 ≤ i }
        ensures behind { i < result.0 + length result.1.now }
        ensures nodes { in_order result.2 result.1.now ≡ take (length result.1.now) (drop result.0 self.now.nodes) }
    {
        match &self.form {
            Form::Few(nodes) => (0, nodes, true),
            Form::Many(blocks) => {
                let (first, near) = blocks.near(i);
                (first, near, false)
            }
        }
    }

    /// The position of a place.
    pub fn find(&self, place: Place) -> Option<usize>
        requires { are_distinct self.now.nodes ≡ true }
        ensures { result ≡ position (λ n. same_place place n.place) self.now.nodes }
    {
        match &self.form {
            Form::Few(nodes) => backward::find(nodes, place, self.last),
            Form::Many(blocks) => blocks.find(place),
        }
    }

    /// The node at a position, and how many nodes behind it are deeper than it is, one after another.
    pub fn run_of(&self, i: usize) -> (Node, usize)
        requires { i < length self.now.nodes }
        ensures node { result.0 ≡ get_or self.now.nodes i result.0 }
        ensures run { result.1 ≡ run_len result.0.depth (drop (i + 1) self.now.nodes) }
        ensures fits { length self.now.nodes < 2 ^ 64 }
    {
        match &self.form {
            Form::Few(nodes) => {
                let node = node_at(nodes, i);
                (node, backward::deeper(nodes, i, node.depth))
            }
            Form::Many(blocks) => blocks.run_of(i),
        }
    }

    /// The position of the last node before a position that is less deep than the one there.
    pub fn origin_of(&self, i: usize) -> Option<usize>
        requires within { i < length self.now.nodes }
        requires forest { is_forest self.now.nodes ≡ true }
        ensures { (d : Node) → result ≡ origin_at self.now.nodes i d }
    {
        match &self.form {
            Form::Few(nodes) => backward::last_above(nodes, i, node_at(nodes, i).depth),
            Form::Many(blocks) => blocks.origin_of(i),
        }
    }

    /// The place of that node.
    pub fn place_of_origin(&self, i: usize) -> Option<Place>
        requires within { i < length self.now.nodes }
        requires forest { is_forest self.now.nodes ≡ true }
        ensures { (d : Node) → result ≡ option_map (λ r. (get_or self.now.nodes r d).place) (origin_at self.now.nodes i d) }
    {
        if let Form::Many(blocks) = &self.form {
            return blocks.place_of_origin(i);
        }
        let origin = self.origin_of(i)?;
        Some(self.get(origin).place)
    }

    /// Another place for the node at a position.
    pub fn set_place(&mut self, i: usize, place: Place)
        requires { i < length self.old.nodes }
        ensures nodes { (d : Node) → self.new.nodes ≡ set self.old.nodes i (record { place = place; depth = (get_or self.old.nodes i d).depth }) }
        ensures room { self.new.room ≡ self.old.room }
    {
        match &mut self.form {
            Form::Few(nodes) => backward::set_place(nodes, i, place),
            Form::Many(blocks) => blocks.set_place(i, place),
        }
    }

    /// Puts a node at a position. This takes no memory.
    pub fn insert(&mut self, i: usize, node: Node)
        requires within { i ≤ length self.old.nodes }
        requires room { 0 < self.old.room }
        ensures nodes { self.new.nodes ≡ insert self.old.nodes i node }
        ensures room { self.new.room + 1 ≡ self.old.room }
    {
        self.room -= 1;
        self.last = i;
        match &mut self.form {
            Form::Few(nodes) => {
                nodes.push_reserved(node);
                backward::put_in(nodes, i, node);
            }
            Form::Many(blocks) => blocks.insert(i, node),
        }
    }

    /// Each node whose place has one in the map gets that.
    pub fn rename_all(&mut self, new: &PlaceMap)
        ensures nodes { self.new.nodes ≡ nodes_renamed (place_for new.now) self.old.nodes }
        ensures room { self.new.room ≡ self.old.room }
    {
        match &mut self.form {
            Form::Few(nodes) => backward::rename_all(nodes, new),
            Form::Many(blocks) => blocks.rename_all(new),
        }
    }

    /// The nodes from a position to another.
    pub fn copy(&self, alloc: Global, from: usize, to: usize) -> Result<Vec<Node>, AllocError>
        requires rising { from ≤ to }
        requires within { to ≤ length self.now.nodes }
        ensures { IfOk result (λ nodes. nodes.items ≡ slice_range self.now.nodes from to) }
    {
        match &self.form {
            Form::Few(nodes) => forward(alloc, nodes, from, to),
            Form::Many(blocks) => blocks.copy(alloc, from, to),
        }
    }

    /// Memory for so many more nodes: after it so many insertions take none.
    pub fn reserve(&mut self, n: usize) -> Result<(), AllocError>
        ensures nodes { self.new.nodes ≡ self.old.nodes }
        ensures ok { OnOk result (n ≤ self.new.room) }
        ensures grows { self.old.room ≤ self.new.room }
        ensures err { OnErr result (self.new ≡ self.old) }
    {
        if n <= self.room {
            return Ok(());
        }
        if let Form::Few(nodes) = &mut self.form {
            if nodes.len() < FEW || FEW < n {
                if nodes.capacity() - nodes.len() < n {
                    nodes.reserve(n)?;
                }
                self.room = n;
                return Ok(());
            }
        }
        self.reserve_in_blocks(n)
    }

    /// The same for a list that is long, or becomes so: it stands in blocks afterwards. Apart from the other, so that a short
    /// list does not pay for the larger frame of this function.
    fn reserve_in_blocks(&mut self, n: usize) -> Result<(), AllocError>
        requires { self.old.room ≤ n }
        ensures nodes { self.new.nodes ≡ self.old.nodes }
        ensures ok { OnOk result (self.new.room ≡ n) }
        ensures err { OnErr result (self.new ≡ self.old) }
    {
        match &mut self.form {
            Form::Few(nodes) if nodes.is_empty() => nodes.reserve(n)?,
            Form::Few(nodes) => self.form = Form::Many(in_blocks(nodes, n)?),
            Form::Many(blocks) => blocks.reserve(n)?,
        }
        self.room = n;
        Ok(())
    }

    /// These nodes, with room for so many more.
    fn of(alloc: Global, mut nodes: Vec<Node>, room: usize) -> Result<NodeList, AllocError>
        ensures nodes { IfOk result (λ l. l.nodes ≡ nodes.items) }
        ensures room { IfOk result (λ l. room ≤ l.room) }
    {
        let form = if nodes.len() < FEW {
            nodes.reverse();
            Form::Few(SmallVec::from_vec(nodes))
        } else {
            Form::Many(Box::new(alloc, Blocks::of(alloc, &nodes)?)?)
        };
        let mut list = NodeList {
            form,
            room: 0,
            last: 0,
        };
        list.reserve(room)?;
        Ok(list)
    }

    /// Each node's place with its origin, in one pass.
    pub fn links(&self, alloc: Global) -> Result<Vec<(Place, Option<Place>)>, AllocError>
        ensures { IfOk result (λ links. links.items ≡ origins_of self.now.nodes) }
    {
        match &self.form {
            Form::Few(nodes) => linked(alloc, &forward(alloc, nodes, 0, nodes.len())?),
            Form::Many(blocks) => linked(alloc, &blocks.flat(alloc, blocks.len())?),
        }
    }

    /// The outermost runs of the nodes whose place is in the set, in one pass.
    pub fn outermost(
        &self,
        alloc: Global,
        named: &BTreeSet<Place>,
    ) -> Result<Vec<Range<usize>>, AllocError>
        requires { is_forest self.now.nodes ≡ true }
        ensures { IfOk result (λ runs. AreOuterRuns (origins_of self.now.nodes) named.now.keys runs.items) }
    {
        match &self.form {
            Form::Few(nodes) => outermost(&forward(alloc, nodes, 0, nodes.len())?, alloc, named),
            Form::Many(blocks) => outermost(&blocks.flat(alloc, blocks.len())?, alloc, named),
        }
    }

    /// Takes ranges out, in parts of at most so many nodes: behind how many of the nodes that are left each part stood,
    /// and the parts.
    pub fn cut(
        &mut self,
        alloc: Global,
        ranges: &[Range<usize>],
        most: usize,
    ) -> Result<(Vec<usize>, Vec<Slice>), AllocError>
        requires rising { AreRising 0 ranges.now (length self.old.nodes) }
        requires most { 1 ≤ most }
        ensures nodes { OnOk result (self.new.nodes ≡ outside 0 ranges.now self.old.nodes) }
        ensures parts { IfOk result (λ r. nodes_of r.1.items ≡ pieces_of most ranges.now self.old.nodes) }
        ensures whole { IfOk result (λ r. IsCutting self.old.nodes self.new.nodes r.0.items r.1.items) }
        ensures room { OnOk result (self.old.room ≤ self.new.room) }
        ensures err { OnErr result (self.new ≡ self.old) }
    {
        let Cutting { gaps, parts, .. } = Cutting::of(alloc, self, ranges, most)?;
        self.remove_all(ranges);
        Ok((gaps, parts))
    }

    /// Takes ranges out for good. This takes no memory.
    pub fn remove_all(&mut self, ranges: &[Range<usize>])
        requires { AreRising 0 ranges.now (length self.old.nodes) }
        ensures nodes { self.new.nodes ≡ outside 0 ranges.now self.old.nodes }
        ensures room { self.new.room ≡ self.old.room }
    {
        match &mut self.form {
            Form::Few(nodes) => backward::take_out(nodes, ranges),
            Form::Many(blocks) => blocks.remove_all(ranges),
        }
    }

    /// Puts parts into their gaps.
    pub fn put_back(
        &mut self,
        alloc: Global,
        gaps: &[usize],
        parts: &[Slice],
    ) -> Result<(), AllocError>
        requires gaps { AreGaps 0 gaps.now (length self.old.nodes) }
        requires each_part { length gaps.now ≡ length parts.now }
        ensures nodes { OnOk result (self.new.nodes ≡ joined 0 self.old.nodes gaps.now (nodes_of parts.now)) }
        ensures room { OnOk result (self.old.room ≤ self.new.room) }
        ensures err { OnErr result (self.new ≡ self.old) }
    {
        let room = self.room;
        let all = match &mut self.form {
            Form::Few(nodes) => {
                let left = forward(alloc, nodes, 0, nodes.len())?;
                joined(alloc, &left, nodes.capacity(), gaps, parts)?
            }
            Form::Many(blocks) => {
                if let Some(kept) = kept_up_to(
                    parts,
                    PUT_BACK_IN_PLACE.max(blocks.len() / LARGER),
                ) {
                    let room = blocks.room() + kept;
                    blocks.reserve(room)?;
                    blocks.put_back(gaps, parts);
                    blocks.free_spares();
                    return Ok(());
                }
                joined(alloc, &blocks.flat(alloc, blocks.len())?, 0, gaps, parts)?
            }
        };
        *self = NodeList::of(alloc, all, room)?;
        Ok(())
    }
}

/// How many nodes the parts have, if no more than this.
fn kept_up_to(parts: &[Slice], most: usize) -> Option<usize>
    ensures { IfSome result (λ n. (n ≡ count_of (nodes_of parts.now)) × (n ≤ most)) }
{
    let mut kept = 0;
    for part in parts {
        let more = part.nodes.len();
        if most - kept < more {
            return None;
        }
        kept += more;
    }
    Some(kept)
}

/// Nodes of which the last one stands first, in blocks, with room for so many more.
fn in_blocks(backward: &SmallVec<Node, INLINE>, room: usize) -> Result<Box<Blocks>, AllocError>
    requires { 0 < length backward.now.items }
    ensures nodes { IfOk result (λ b. nodes_in b.value.blocks ≡ reverse backward.now.items) }
    ensures room { IfOk result (λ b. room ≤ b.value.room) }
{
    let alloc = *backward.allocator();
    let mut blocks = Blocks::of(alloc, &forward(alloc, backward, 0, backward.len())?)?;
    blocks.reserve(room)?;
    Ok(Box::new(alloc, blocks)?)
}
