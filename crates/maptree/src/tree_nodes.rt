//! The nodes of one tree: a root, alone or with one node below it, which take no memory of their own, or a list of
//! nodes in a box.

ghost use Rattle.std.specs.Prelude.{◌≡◌, true, []};
ghost use Rattle.maptree.specs.Cuts.{outside};
ghost use Rattle.maptree.specs.Nodes.{is_forest};
ghost use Rattle.maptree.specs.Origins.{AreRising};
ghost use Rattle.maptree.specs.TreeForms.{gaps_of_tree, nodes_of_pair, nodes_of_tree, room_of_tree};

use crate::links::linked;
use crate::node_list::NodeList;
use crate::pair::Pair;
use crate::place_map::PlaceMap;
use crate::scans::outermost;
use space::{Node, Place, Slice};
use std::alloc::{AllocError, Global};
use std::collections::BTreeSet;
use std::marker::Model;
use std::ops::Range;

/// The nodes of a tree.
///
/// Most frames are never shared, or with one page, so most trees are a root alone or with one node below it. Such a
/// tree takes no memory but its own bytes. A tree gets a list when room for more nodes is reserved or when it is cut,
/// and keeps it from then on.
#[derive(Drop)]
pub struct TreeNodes {
    form: Form,
}

#[derive(Drop)]
enum Form {
    /// No nodes, and whether one insertion was promised to take no memory.
    Empty(Global, bool),
    /// A root alone, and the same.
    Root(Global, Place, bool),
    /// A root and a node below it.
    Pair(Global, Pair),
    /// Any nodes.
    Listed(Box<Listing>),
}

/// A list of nodes, and where the parts of the last cut stood in it.
#[derive(Drop)]
struct Listing {
    nodes: NodeList,
    /// For each part of the last cut, behind how many of the nodes that were left it stood.
    gaps: Vec<usize>,
}

impl Model for TreeNodes {
    ghost use Rattle.maptree.specs.TreeForms.{Gapped, nodes_of_tree, room_of_tree, gaps_of_tree};

    ghost Value = { Gapped };

    ghost view = { λ t. record { nodes = nodes_of_tree t.form; room = room_of_tree t.form; gaps = gaps_of_tree t.form } };
}

// Most of these calls only choose the form. They are inlined: on a list they cost little more than those of `NodeList`.
impl TreeNodes {
    ghost use Rattle.std.specs.Prelude.{◌≡◌, ◌+◌, ◌<◌, ◌≤◌, ◌^◌, true, [], ◌∷◌, length, take, drop, get_or, set, insert, position, IfOk, IfSome, OnOk, OnErr};
    ghost use Rattle.std.specs.List.{slice_range};
    ghost use Rattle.space.specs.Place.{same_place};
    ghost use Rattle.space.specs.declared.node.Node.{Node};
    ghost use Rattle.std.specs.Prelude.{option_map};
    ghost use Rattle.space.specs.declared.place.Place.{Place};
    ghost use Rattle.maptree.specs.Nodes.{are_distinct, is_forest, origin_at, origins_of, run_len};
    ghost use Rattle.maptree.specs.Origins.{AreRising, AreOuterRuns};
    ghost use Rattle.space.specs.Slices.{nodes_of};
    ghost use Rattle.maptree.specs.Cuts.{AreGaps, IsCutting, joined, outside, pieces_of};
    ghost use Rattle.maptree.specs.PlaceMaps.{place_for};
    ghost use Rattle.maptree.specs.Renamings.{nodes_renamed};
    ghost use Rattle.maptree.specs.Forms.{in_order};

    /// A root alone. This takes no memory.
    pub fn root(alloc: Global, place: Place) -> TreeNodes
        ensures { result.nodes ≡ record { place = place; depth = 0 } ∷ [] }
    {
        TreeNodes {
            form: Form::Root(alloc, place, false),
        }
    }

    /// How many nodes there are.
    #[inline(always)]
    pub fn len(&self) -> usize
        ensures { result ≡ length self.now.nodes }
    {
        match &self.form {
            Form::Listed(listing) => listing.nodes.len(),
            Form::Pair(_, _) => 2,
            Form::Root(_, _, _) => 1,
            Form::Empty(_, _) => 0,
        }
    }

    /// In how many blocks the nodes stand, if they stand in blocks.
    pub fn block_count(&self) -> Option<usize> {
        match &self.form {
            Form::Listed(listing) => listing.nodes.block_count(),
            _ => None,
        }
    }

    /// Whether a search for a place does not pass over all nodes.
    pub fn is_in_blocks(&self) -> bool {
        match &self.form {
            Form::Listed(listing) => listing.nodes.is_in_blocks(),
            _ => false,
        }
    }

    /// The node at a position.
    #[inline(always)]
    pub fn get(&self, i: usize) -> Node
        requires { i < length self.now.nodes }
        ensures node { result ≡ get_or self.now.nodes i result }
        ensures fits { length self.now.nodes < 2 ^ 64 }
    {
        match &self.form {
            Form::Listed(listing) => listing.nodes.get(i),
            Form::Pair(_, pair) => pair.node(i),
            Form::Root(_, place, _) => root_node(*place),
            Form::Empty(_, _) => unreachable!(),
        }
    }

    /// Some nodes, one after another, that have a position among them; the position of the first; and whether the last
    /// stands first. None where the nodes stand in no list.
    #[inline(always)]
    pub fn near(&self, i: usize) -> Option<(usize, &[Node], bool)>
        requires { i < length self.now.nodes }
        ensures before { IfSome result (λ r. r.0 ≤ i) }
        ensures behind { IfSome result (λ r. i < r.0 + length r.1.now) }
        ensures nodes { IfSome result (λ r. in_order r.2 r.1.now ≡ take (length r.1.now) (drop r.0 self.now.nodes)) }
    {
        match &self.form {
            Form::Listed(listing) => Some(listing.nodes.near(i)),
            _ => None,
        }
    }

    /// The position of a place.
    #[inline(always)]
    pub fn find(&self, place: Place) -> Option<usize>
        requires { are_distinct self.now.nodes ≡ true }
        ensures { result ≡ position (λ n. same_place place n.place) self.now.nodes }
    {
        match &self.form {
            Form::Listed(listing) => listing.nodes.find(place),
            Form::Pair(_, pair) => pair.find(place),
            Form::Root(_, root, _) if place == *root => Some(0),
            _ => None,
        }
    }

    /// The node at a position, and how many nodes behind it are deeper than it is, one after another.
    #[inline(always)]
    pub fn run_of(&self, i: usize) -> (Node, usize)
        requires { i < length self.now.nodes }
        ensures node { result.0 ≡ get_or self.now.nodes i result.0 }
        ensures run { result.1 ≡ run_len result.0.depth (drop (i + 1) self.now.nodes) }
        ensures fits { length self.now.nodes < 2 ^ 64 }
    {
        match &self.form {
            Form::Listed(listing) => listing.nodes.run_of(i),
            Form::Pair(_, pair) => pair.run_of(i),
            Form::Root(_, place, _) => (root_node(*place), 0),
            Form::Empty(_, _) => unreachable!(),
        }
    }

    /// The position of the last node before a position that is less deep than the one there.
    #[inline(always)]
    pub fn origin_of(&self, i: usize) -> Option<usize>
        requires within { i < length self.now.nodes }
        requires forest { is_forest self.now.nodes ≡ true }
        ensures { (d : Node) → result ≡ origin_at self.now.nodes i d }
    {
        match &self.form {
            Form::Listed(listing) => listing.nodes.origin_of(i),
            Form::Pair(_, pair) => pair.origin_of(i),
            _ => None,
        }
    }

    /// The place of that node.
    #[inline(always)]
    pub fn place_of_origin(&self, i: usize) -> Option<Place>
        requires within { i < length self.now.nodes }
        requires forest { is_forest self.now.nodes ≡ true }
        ensures { (d : Node) → result ≡ option_map (λ r. (get_or self.now.nodes r d).place) (origin_at self.now.nodes i d) }
    {
        match &self.form {
            Form::Listed(listing) => listing.nodes.place_of_origin(i),
            Form::Pair(_, pair) => pair.place_of_origin(i),
            _ => None,
        }
    }

    /// Another place for the node at a position.
    #[inline(always)]
    pub fn set_place(&mut self, i: usize, place: Place)
        requires { i < length self.old.nodes }
        ensures nodes { (d : Node) → self.new.nodes ≡ set self.old.nodes i (record { place = place; depth = (get_or self.old.nodes i d).depth }) }
        ensures room { self.new.room ≡ self.old.room }
    {
        match &mut self.form {
            Form::Listed(listing) => listing.nodes.set_place(i, place),
            Form::Pair(_, pair) => *pair = pair.with_place(i, place),
            Form::Root(_, root, _) => *root = place,
            Form::Empty(_, _) => unreachable!(),
        }
    }

    /// Puts a node directly behind the one at a position, one deeper. This takes no memory.
    pub fn insert_below(&mut self, i: usize, place: Place)
        requires within { i < length self.old.nodes }
        requires room { 0 < self.old.room }
        requires forest { is_forest self.old.nodes ≡ true }
        ensures nodes { (d : Node) → self.new.nodes ≡ insert self.old.nodes (i + 1) (record { place = place; depth = (get_or self.old.nodes i d).depth + 1 }) }
        ensures room { self.new.room + 1 ≡ self.old.room }
    {
        match &mut self.form {
            Form::Listed(listing) => listing.insert_below(i, place),
            Form::Root(alloc, root, _) => {
                self.form = Form::Pair(*alloc, Pair::of(*root, place));
            }
            // Where there is room, there is a list or a root alone.
            Form::Pair(_, _) | Form::Empty(_, _) => unreachable!(),
        }
    }

    /// Each node whose place has one in the map gets that.
    pub fn rename_all(&mut self, new: &PlaceMap)
        ensures nodes { self.new.nodes ≡ nodes_renamed (place_for new.now) self.old.nodes }
        ensures room { self.new.room ≡ self.old.room }
    {
        match &mut self.form {
            Form::Listed(listing) => listing.nodes.rename_all(new),
            Form::Pair(_, pair) => *pair = pair.renamed(new),
            Form::Root(_, root, _) => {
                if let Some(place) = new.get(*root) {
                    *root = place;
                }
            }
            Form::Empty(_, _) => {}
        }
    }

    /// The nodes from a position to another.
    pub fn copy(&self, alloc: Global, from: usize, to: usize) -> Result<Vec<Node>, AllocError>
        requires rising { from ≤ to }
        requires within { to ≤ length self.now.nodes }
        ensures { IfOk result (λ nodes. nodes.items ≡ slice_range self.now.nodes from to) }
    {
        match &self.form {
            Form::Listed(listing) => listing.nodes.copy(alloc, from, to),
            Form::Pair(_, pair) => Vec::from_slice(alloc, &pair.nodes()[from..to]),
            Form::Root(_, place, _) => Vec::from_slice(alloc, &[root_node(*place)][from..to]),
            Form::Empty(_, _) => Ok(Vec::new(alloc)),
        }
    }

    /// Memory for so many more nodes: after it so many insertions take none.
    pub fn reserve(&mut self, n: usize) -> Result<(), AllocError>
        ensures nodes { self.new.nodes ≡ self.old.nodes }
        ensures ok { OnOk result (n ≤ self.new.room) }
        ensures grows { self.old.room ≤ self.new.room }
        ensures err { OnErr result (self.new ≡ self.old) }
    {
        if n == 0 {
            return Ok(());
        }
        match &mut self.form {
            Form::Listed(listing) => listing.nodes.reserve(n),
            Form::Root(_, _, promised) if n == 1 => {
                *promised = true;
                Ok(())
            }
            Form::Root(alloc, place, _) => {
                let alloc = *alloc;
                let root = NodeList::one(alloc, root_node(*place));
                self.reserve_in_list(alloc, root, n)
            }
            Form::Pair(alloc, pair) => {
                let alloc = *alloc;
                let both = NodeList::pair(alloc, pair);
                self.reserve_in_list(alloc, both, n)
            }
            Form::Empty(alloc, _) => {
                let alloc = *alloc;
                self.reserve_in_list(alloc, NodeList::none(alloc), n)
            }
        }
    }

    /// The same for a tree that has these nodes and no list: afterwards it has one.
    fn reserve_in_list(
        &mut self,
        alloc: Global,
        mut nodes: NodeList,
        n: usize,
    ) -> Result<(), AllocError>
        requires nodes { nodes.nodes ≡ self.old.nodes }
        requires room { self.old.room ≤ n }
        ensures nodes { self.new.nodes ≡ self.old.nodes }
        ensures ok { OnOk result (n ≤ self.new.room) }
        ensures grows { self.old.room ≤ self.new.room }
        ensures err { OnErr result (self.new ≡ self.old) }
    {
        nodes.reserve(n)?;
        let listing = Listing::in_box(alloc, nodes)?;
        self.form = Form::Listed(listing);
        Ok(())
    }

    /// Each node's place with its origin, in one pass.
    pub fn links(&self, alloc: Global) -> Result<Vec<(Place, Option<Place>)>, AllocError>
        ensures { IfOk result (λ links. links.items ≡ origins_of self.now.nodes) }
    {
        match &self.form {
            Form::Listed(listing) => listing.nodes.links(alloc),
            Form::Pair(_, pair) => linked(alloc, &pair.nodes()),
            Form::Root(_, place, _) => linked(alloc, &[root_node(*place)]),
            Form::Empty(_, _) => Ok(Vec::new(alloc)),
        }
    }

    /// The outermost runs of the nodes whose place is in the set, in one pass.
    pub fn outermost(
        &self,
        alloc: Global,
        named: &BTreeSet<Place>,
    ) -> Result<Vec<Range<usize>>, AllocError>
        requires { is_forest self.now.nodes ≡ true }
        ensures { IfOk result (λ runs. AreOuterRuns (origins_of self.now.nodes) named.now.keys runs.items) }
    {
        match &self.form {
            Form::Listed(listing) => listing.nodes.outermost(alloc, named),
            Form::Pair(_, pair) => outermost(&pair.nodes(), alloc, named),
            Form::Root(_, place, _) => outermost(&[root_node(*place)], alloc, named),
            Form::Empty(_, _) => outermost(&[], alloc, named),
        }
    }

    /// Takes ranges out, in parts of at most so many nodes, and notes where they stood.
    pub fn cut(
        &mut self,
        alloc: Global,
        ranges: &[Range<usize>],
        most: usize,
    ) -> Result<Vec<Slice>, AllocError>
        requires rising { AreRising 0 ranges.now (length self.old.nodes) }
        requires most { 1 ≤ most }
        ensures nodes { OnOk result (self.new.nodes ≡ outside 0 ranges.now self.old.nodes) }
        ensures parts { IfOk result (λ parts. nodes_of parts.items ≡ pieces_of most ranges.now self.old.nodes) }
        ensures whole { IfOk result (λ parts. IsCutting self.old.nodes self.new.nodes self.new.gaps parts.items) }
        ensures room { OnOk result (self.old.room ≤ self.new.room) }
        ensures err { OnErr result (self.new ≡ self.old) }
    {
        match &mut self.form {
            Form::Listed(listing) => listing.cut(alloc, ranges, most),
            Form::Pair(_, pair) => {
                let both = NodeList::pair(alloc, pair);
                self.cut_in_list(alloc, both, 0, ranges, most)
            }
            Form::Root(_, place, promised) => {
                let root = NodeList::one(alloc, root_node(*place));
                let room = usize::from(*promised);
                self.cut_in_list(alloc, root, room, ranges, most)
            }
            Form::Empty(_, promised) => {
                let room = usize::from(*promised);
                self.cut_in_list(alloc, NodeList::none(alloc), room, ranges, most)
            }
        }
    }

    /// The same for a tree that has these nodes, this room and no list: afterwards it has one.
    fn cut_in_list(
        &mut self,
        alloc: Global,
        mut nodes: NodeList,
        room: usize,
        ranges: &[Range<usize>],
        most: usize,
    ) -> Result<Vec<Slice>, AllocError>
        requires nodes { nodes.nodes ≡ self.old.nodes }
        requires room { self.old.room ≡ room }
        requires rising { AreRising 0 ranges.now (length self.old.nodes) }
        requires most { 1 ≤ most }
        ensures nodes { OnOk result (self.new.nodes ≡ outside 0 ranges.now self.old.nodes) }
        ensures parts { IfOk result (λ parts. nodes_of parts.items ≡ pieces_of most ranges.now self.old.nodes) }
        ensures whole { IfOk result (λ parts. IsCutting self.old.nodes self.new.nodes self.new.gaps parts.items) }
        ensures room { OnOk result (self.old.room ≤ self.new.room) }
        ensures err { OnErr result (self.new ≡ self.old) }
    {
        nodes.reserve(room)?;
        let mut listing = Listing::in_box(alloc, nodes)?;
        let parts = listing.cut(alloc, ranges, most)?;
        self.form = Form::Listed(listing);
        Ok(parts)
    }

    /// Takes ranges out for good, which leave a forest. This takes no memory.
    pub fn remove_all(&mut self, ranges: &[Range<usize>])
        requires rising { AreRising 0 ranges.now (length self.old.nodes) }
        requires forest { is_forest (outside 0 ranges.now self.old.nodes) ≡ true }
        ensures nodes { self.new.nodes ≡ outside 0 ranges.now self.old.nodes }
        ensures room { self.new.room ≡ self.old.room }
    {
        match &mut self.form {
            Form::Listed(listing) => listing.nodes.remove_all(ranges),
            Form::Pair(alloc, pair) => self.form = left_of_pair(*alloc, pair, ranges),
            Form::Root(alloc, _, promised) => {
                if !ranges.is_empty() {
                    self.form = Form::Empty(*alloc, *promised);
                }
            }
            // There is no range.
            Form::Empty(_, _) => {}
        }
    }

    /// Puts parts into the gaps that the last cut has left.
    pub fn put_back(&mut self, parts: &[Slice]) -> Result<(), AllocError>
        requires gaps { AreGaps 0 self.old.gaps (length self.old.nodes) }
        requires each_part { length self.old.gaps ≡ length parts.now }
        ensures nodes { OnOk result (self.new.nodes ≡ joined 0 self.old.nodes self.old.gaps (nodes_of parts.now)) }
        ensures room { OnOk result (self.old.room ≤ self.new.room) }
        ensures err { OnErr result (self.new ≡ self.old) }
    {
        match &mut self.form {
            Form::Listed(listing) => listing.put_back(parts),
            // A cut leaves a list: there is no gap.
            Form::Pair(_, _) | Form::Root(_, _, _) | Form::Empty(_, _) => Ok(()),
        }
    }
}

impl Listing {
    ghost use Rattle.std.specs.Prelude.{◌≡◌, ◌+◌, ◌<◌, ◌≤◌, true, [], length, get_or, insert, IfOk, OnOk, OnErr};
    ghost use Rattle.space.specs.declared.node.Node.{Node};
    ghost use Rattle.maptree.specs.Nodes.{is_forest};
    ghost use Rattle.maptree.specs.Origins.{AreRising};
    ghost use Rattle.space.specs.Slices.{nodes_of};
    ghost use Rattle.maptree.specs.Cuts.{AreGaps, IsCutting, joined, outside, pieces_of};

    /// These nodes, of which none was cut out, in a box.
    fn in_box(alloc: Global, nodes: NodeList) -> Result<Box<Listing>, AllocError>
        ensures nodes { IfOk result (λ b. b.value.nodes ≡ nodes) }
        ensures gaps { IfOk result (λ b. b.value.gaps.items ≡ []) }
    {
        let gaps = Vec::new(alloc);
        let listing = Box::new(alloc, Listing { nodes, gaps })?;
        Ok(listing)
    }

    /// Puts a node directly behind the one at a position, one deeper. This takes no memory.
    fn insert_below(&mut self, i: usize, place: Place)
        requires within { i < length self.old.nodes.nodes }
        requires room { 0 < self.old.nodes.room }
        requires forest { is_forest self.old.nodes.nodes ≡ true }
        ensures nodes { (d : Node) → self.new.nodes.nodes ≡ insert self.old.nodes.nodes (i + 1) (record { place = place; depth = (get_or self.old.nodes.nodes i d).depth + 1 }) }
        ensures room { self.new.nodes.room + 1 ≡ self.old.nodes.room }
        ensures gaps { self.new.gaps ≡ self.old.gaps }
    {
        let depth = self.nodes.get(i).depth + 1;
        self.nodes.insert(i + 1, Node { place, depth });
    }

    /// Takes ranges out, in parts of at most so many nodes, and notes where they stood.
    fn cut(
        &mut self,
        alloc: Global,
        ranges: &[Range<usize>],
        most: usize,
    ) -> Result<Vec<Slice>, AllocError>
        requires rising { AreRising 0 ranges.now (length self.old.nodes.nodes) }
        requires most { 1 ≤ most }
        ensures nodes { OnOk result (self.new.nodes.nodes ≡ outside 0 ranges.now self.old.nodes.nodes) }
        ensures parts { IfOk result (λ parts. nodes_of parts.items ≡ pieces_of most ranges.now self.old.nodes.nodes) }
        ensures whole { IfOk result (λ parts. IsCutting self.old.nodes.nodes self.new.nodes.nodes self.new.gaps.items parts.items) }
        ensures room { OnOk result (self.old.nodes.room ≤ self.new.nodes.room) }
        ensures err { OnErr result (self.new ≡ self.old) }
    {
        let (gaps, parts) = self.nodes.cut(alloc, ranges, most)?;
        self.gaps = gaps;
        Ok(parts)
    }

    /// Puts parts into the gaps that the last cut has left.
    fn put_back(&mut self, parts: &[Slice]) -> Result<(), AllocError>
        requires gaps { AreGaps 0 self.old.gaps.items (length self.old.nodes.nodes) }
        requires each_part { length self.old.gaps.items ≡ length parts.now }
        ensures nodes { OnOk result (self.new.nodes.nodes ≡ joined 0 self.old.nodes.nodes self.old.gaps.items (nodes_of parts.now)) }
        ensures room { OnOk result (self.old.nodes.room ≤ self.new.nodes.room) }
        ensures err { OnErr result (self.new ≡ self.old) }
    {
        let alloc = *self.gaps.allocator();
        self.nodes.put_back(alloc, &self.gaps, parts)?;
        self.gaps = Vec::new(alloc);
        Ok(())
    }
}

/// The node of a root with this place.
fn root_node(place: Place) -> Node
    ensures { result ≡ record { place = place; depth = 0 } }
{
    Node { place, depth: 0 }
}

/// What is left of a root and the node below it, if these ranges go, which leave a forest.
fn left_of_pair(alloc: Global, pair: &Pair, ranges: &[Range<usize>]) -> Form
    requires rising { AreRising 0 ranges.now 2 }
    requires forest { is_forest (outside 0 ranges.now (nodes_of_pair pair.now)) ≡ true }
    ensures nodes { nodes_of_tree result ≡ outside 0 ranges.now (nodes_of_pair pair.now) }
    ensures room { room_of_tree result ≡ 0 }
    ensures gaps { gaps_of_tree result ≡ [] }
{
    if ranges.is_empty() {
        Form::Pair(alloc, *pair)
    } else if ranges[0].start == 0 {
        Form::Empty(alloc, false)
    } else {
        Form::Root(alloc, pair.root(), false)
    }
}
