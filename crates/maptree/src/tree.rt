ghost use Rattle.std.specs.Prelude.{◌≡◌, ◌<◌, true, length, position, option_map, IfSome, IfOk, Option, None, Some, if◌then◌else◌};
ghost use Rattle.std.specs.List.{list_any};
ghost use Rattle.space.specs.Place.{same_place};
ghost use Rattle.space.specs.declared.place.Place.{Place};
ghost use Rattle.maptree.specs.Origins.{origin_in, place_at, AreOuterRuns};
ghost use Rattle.maptree.specs.Nodes.{is_forest, are_distinct, origins_of, run_len};
ghost use Rattle.maptree.specs.PlaceMaps.{place_for, IsApart};
ghost use Rattle.maptree.specs.Renamings.{nodes_renamed, StayApart};

use crate::links::Links;
use crate::nodes::Nodes;
use crate::place_map::PlaceMap;
use crate::searching::runs_of;
use crate::tree_nodes::TreeNodes;
use space::{NoMemory, Node, Place, Slice};
use std::alloc::{AllocError, Global};
use std::collections::BTreeSet;
use std::marker::Model;
use std::mem::size_of;
use std::ops::Range;

/// Places are searched for one by one where the tree has so many nodes for each of them; where it has fewer, one pass over the
/// tree serves them all.
const SEARCHED: usize = 3;

/// Many places are replaced one by one where a list in blocks has so many nodes for each of them.
const REPLACED: usize = 4;

/// The derivation tree of one frame.
///
/// Its nodes stand in a list in preorder: what derives from a node stands right behind it, one deeper or more. Contracts
/// see the places in this order, each with its origin.
#[derive(Drop)]
pub struct Tree {
    nodes: TreeNodes,
}

// There is one for each frame.
const _: () = prove!(size_of::<Tree>() == 16);

impl Model for Tree {
    ghost use Rattle.std.specs.Prelude.{◌≡◌, true};
    ghost use Rattle.maptree.specs.Origins.{Shape};
    ghost use Rattle.maptree.specs.Nodes.{is_forest, origins_of};

    ghost Value = { Shape };

    ghost view = { λ t. record { links = origins_of t.nodes.nodes; room = t.nodes.room; gaps = t.nodes.gaps } };

    ghost invariant = { λ t. is_forest t.nodes.nodes ≡ true };
}

#[tactic(auto, using(crate::proofs::Positions::lengths))]
impl Tree {
    ghost use Rattle.std.specs.Prelude.{◌≡◌, ℕ, ◌+◌, ◌<◌, ◌≤◌, ◌&&◌, nat_le, nat_lt, Decides};
    ghost use Rattle.std.specs.Prelude.{[], ◌∷◌, length, insert, position};
    ghost use Rattle.std.specs.Prelude.{None, Some, option_map, IfSome, IfOk, OnOk, OnErr};
    ghost use Rattle.space.specs.declared.place.Place.{Place};
    ghost use Rattle.space.specs.Place.{same_place};
    ghost use Rattle.std.specs.Prelude.{filter, map};
    ghost use Rattle.std.specs.List.{All, slice_range};
    ghost use Rattle.maptree.specs.Origins.{are_once, OriginsStand, origin_in, place_at, renamed, LeadsTo, HasDepth, IsRun, AreRising, AreOuterRuns, IsOriginAt};
    ghost use Rattle.maptree.specs.PlaceMaps.{place_for};
    ghost use Rattle.maptree.specs.Renamings.{all_renamed, StayApart};
    ghost use Rattle.space.specs.Slices.{nodes_of};
    ghost use Rattle.maptree.specs.Cuts.{outside, ArePartsOf, IsCut, AreKept};

    /// A tree of one root. This takes no memory.
    pub fn root(alloc: Global, place: Place) -> Tree
        ensures { result.links ≡ (place, None) ∷ [] }
    {
        Tree {
            nodes: TreeNodes::root(alloc, place),
        }
    }

    /// Memory for so many more nodes: after it so many insertions take none.
    pub fn reserve(&mut self, n: usize) -> Result<(), NoMemory>
        ensures links { self.new.links ≡ self.old.links }
        ensures ok { OnOk result (n ≤ self.new.room) }
        ensures grows { self.old.room ≤ self.new.room }
        ensures err { OnErr result (self.new ≡ self.old) }
    {
        self.nodes.reserve(n)?;
        Ok(())
    }

    /// How many places it has.
    pub fn len(&self) -> usize
        ensures { result ≡ length self.now.links }
    {
        self.nodes.len()
    }

    /// In how many blocks of up to 128 nodes its nodes stand, once there are many; `None` before. The memory of a large
    /// tree is that of its blocks. No clause speaks of it.
    pub fn block_count(&self) -> Option<usize> {
        self.nodes.block_count()
    }

    /// The position of a place, if it is in the tree.
    pub fn find(&self, place: Place) -> Option<usize>
        ensures { result ≡ position (λ o. same_place place o.0) self.now.links }
    {
        self.nodes.find(place)
    }

    /// The node at a position. No other position has its place.
    pub fn node(&self, i: usize) -> Node
        requires { i < length self.now.links }
        ensures place { (d : Place) → result.place ≡ place_at self.now.links i d }
        ensures only { (j : ℕ) (d : Place) → j < length self.now.links → place_at self.now.links j d ≡ result.place → j ≡ i }
        ensures depth { HasDepth self.now.links result.place result.depth }
        ensures upto { result.depth ≤ i }
    {
        self.nodes.get(i)
    }

    /// The nodes, to be read one after another.
    pub fn nodes(&self) -> Nodes<'_>
        ensures { result ≡ self.now.links }
    {
        Nodes::of(&self.nodes)
    }

    /// The positions of a node and of all that derives from it.
    pub fn run_of(&self, i: usize) -> Range<usize>
        requires { i < length self.now.links }
        ensures start { result.start ≡ i }
        ensures end { result.end ≤ length self.now.links }
        ensures run { (j : ℕ) (d : Place) → j < length self.now.links
            → Decides (nat_le i j && nat_lt j result.end)
            (LeadsTo self.now.links 0 (place_at self.now.links j d) (place_at self.now.links i d)) }
    {
        let (_, derived) = self.nodes.run_of(i);
        i..i + 1 + derived
    }

    /// The position of the origin of a node; none for a root.
    #[inline(always)]
    pub fn origin_of(&self, i: usize) -> Option<usize>
        requires { i < length self.now.links }
        ensures before { IfSome result (λ r. r < i) }
        ensures origin { (d : Place) → origin_in self.now.links (place_at self.now.links i d)
            ≡ option_map (λ r. place_at self.now.links r d) result }
    {
        self.nodes.origin_of(i)
    }

    /// The place from which the node at a position derives; none for a root.
    pub fn place_of_origin(&self, i: usize) -> Option<Place>
        requires { i < length self.now.links }
        ensures { IsOriginAt self.now.links i result }
    {
        self.nodes.place_of_origin(i)
    }

    /// Whether a node is an origin of another, at any distance.
    pub fn is_origin(&self, a: usize, b: usize) -> bool
        requires a { a < length self.now.links }
        requires b { b < length self.now.links }
        ensures { (d : Place) → Decides result
            (LeadsTo self.now.links 1 (place_at self.now.links b d) (place_at self.now.links a d)) }
    {
        let nodes = &self.nodes;
        if b <= a {
            return false;
        }
        let (_, derived) = nodes.run_of(a);
        derived >= b - a
    }

    /// Every place in the order of positions, with its origin.
    ///
    /// Refused, where memory is: `NoMemory`.
    pub fn links(&self, alloc: Global) -> Result<Vec<(Place, Option<Place>)>, NoMemory>
        ensures links { IfOk result (λ links. links.items ≡ self.now.links) }
        ensures once { OnOk result (are_once self.now.links ≡ true) }
        ensures origins { OnOk result (OriginsStand self.now.links) }
    {
        let links = self.nodes.links(alloc)?;
        Ok(links)
    }

    /// Every place in the order of positions, with its origin, to be read one after another.
    pub fn each_link(&self, alloc: Global) -> Links<'_>
        ensures links { result ≡ self.now.links }
        ensures once { are_once self.now.links ≡ true }
        ensures origins { OriginsStand self.now.links }
    {
        Links::of(alloc, &self.nodes)
    }

    /// The outermost runs of the named places, in rising order. Places that are not in the tree are passed over.
    pub fn outer_runs(&self, alloc: Global, places: &[Place]) -> Result<Vec<Range<usize>>, NoMemory>
        ensures { IfOk result (λ runs. AreOuterRuns self.now.links places.now runs.items) }
    {
        if let [place] = places {
            return self.run_of_place(alloc, *place);
        }
        if places.len() <= self.nodes.len() / SEARCHED {
            let found = runs_of(alloc, &self.nodes, places)?;
            return Ok(found);
        }
        let named = set_of(alloc, places)?;
        let runs = self.nodes.outermost(alloc, &named)?;
        Ok(runs)
    }

    /// The same for one place: a search for it is faster than a pass that asks of each node whether it is named.
    fn run_of_place(&self, alloc: Global, place: Place) -> Result<Vec<Range<usize>>, NoMemory>
        ensures { IfOk result (λ runs. AreOuterRuns self.now.links (place ∷ []) runs.items) }
    {
        let Some(i) = self.nodes.find(place) else {
            return Ok(Vec::new(alloc));
        };
        let mut runs = Vec::with_capacity(alloc, 1)?;
        runs.push(self.run_of(i)).map_err(AllocError::from)?;
        Ok(runs)
    }

    /// No place stands twice in a tree, as its type says. The function does nothing: its contract is what it tells.
    pub fn learn_places_are_distinct(&self)
        ensures { are_once self.now.links ≡ true }
    {
        let _ = &self.nodes;
    }

    /// A copy of the nodes from a position up to another; the tree stays as it is.
    ///
    /// Refused, where memory is: `NoMemory`.
    pub fn part(&self, alloc: Global, from: usize, to: usize) -> Result<Slice, NoMemory>
        requires rising { from ≤ to }
        requires within { to ≤ length self.now.links }
        ensures places { IfOk result (λ s. map (λ n. n.place) s.nodes.items ≡ slice_range (map (λ o. o.0) self.now.links) from to) }
        ensures depths { IfOk result (λ s. All (λ n. HasDepth self.now.links n.place n.depth) s.nodes.items) }
    {
        let nodes = self.nodes.copy(alloc, from, to)?;
        Ok(Slice { nodes })
    }

    /// Cuts runs out of the tree, in parts of at most so many nodes, each within one run. `splice` puts back what is
    /// kept of them.
    ///
    /// Refused, where memory is: `NoMemory`. Then the tree is as it was.
    pub fn cut(
        &mut self,
        alloc: Global,
        ranges: &[Range<usize>],
        most: usize,
    ) -> Result<Vec<Slice>, NoMemory>
        requires rising { AreRising 0 ranges.now (length self.old.links) }
        requires runs { All (IsRun self.old.links) ranges.now }
        requires most { 1 ≤ most }
        ensures links { OnOk result (self.new.links ≡ outside 0 ranges.now self.old.links) }
        ensures parts { IfOk result (λ parts. ArePartsOf self.old.links ranges.now most parts.items) }
        ensures cut { IfOk result (λ parts. IsCut self.old.links (nodes_of parts.items) self.new) }
        ensures room { OnOk result (self.old.room ≤ self.new.room) }
        ensures err { OnErr result (self.new ≡ self.old) }
    {
        let parts = self.nodes.cut(alloc, ranges, most)?;
        Ok(parts)
    }

    /// Puts back what is kept of the parts of the last cut: all of them, in their order, each with any nodes left out.
    /// No call that changes the tree may come between.
    ///
    /// Refused, where memory is: `NoMemory`. Then the tree is as the cut left it, and the parts are gone.
    pub fn splice(&mut self, parts: Vec<Slice>) -> Result<(), NoMemory>
        requires { AreKept self.old parts.items }
        ensures links { OnOk result ((kept : AreKept self.old parts.items) →
            self.new.links ≡ filter (λ o. kept.keep o.0) kept.whole) }
        ensures room { OnOk result (self.old.room ≤ self.new.room) }
        ensures err { OnErr result (self.new ≡ self.old) }
    {
        self.nodes.put_back(&parts)?;
        Ok(())
    }

    /// Takes runs out of the tree for good. This takes no memory.
    pub fn remove(&mut self, ranges: &[Range<usize>])
        requires rising { AreRising 0 ranges.now (length self.old.links) }
        requires runs { All (IsRun self.old.links) ranges.now }
        ensures links { self.new.links ≡ outside 0 ranges.now self.old.links }
        ensures room { self.new.room ≡ self.old.room }
    {
        self.nodes.remove_all(ranges);
    }

    /// Takes the places of a run from a position on out of the tree for good. This takes no memory.
    pub fn remove_end(&mut self, run: &Range<usize>, from: usize)
        requires run { IsRun self.old.links run.now }
        requires behind { run.now.start ≤ from }
        requires some { from < run.now.end }
        requires within { run.now.end ≤ length self.old.links }
        ensures links { self.new.links ≡ outside 0 (record { start = from; end = run.now.end } ∷ []) self.old.links }
        ensures room { self.new.room ≡ self.old.room }
    {
        self.nodes.remove_all(&[from..run.end]);
    }

    /// Another place for a node; its depth and what derives from it stay.
    pub fn rename(&mut self, i: usize, place: Place)
        requires within { i < length self.old.links }
        requires new { position (λ o. same_place place o.0) self.old.links ≡ None }
        ensures links { (d : Place) →
            self.new.links ≡ renamed (place_at self.old.links i d) place self.old.links }
        ensures room { self.new.room ≡ self.old.room }
    {
        self.nodes.set_place(i, place);
    }

    /// Replaces each place that has one in the map by it, as a place and as an origin, all at once. Depths stay. This takes
    /// no memory.
    pub fn rename_all(&mut self, new: &PlaceMap)
        requires apart { StayApart (place_for new.now) self.old.links }
        ensures links { self.new.links ≡ all_renamed (place_for new.now) self.old.links }
        ensures room { self.new.room ≡ self.old.room }
    {
        replace(&mut self.nodes, new);
    }

    /// Puts a new node directly behind a node, one deeper. This takes no memory.
    pub fn insert_below(&mut self, i: usize, place: Place)
        requires within { i < length self.old.links }
        requires new { position (λ o. same_place place o.0) self.old.links ≡ None }
        requires room { 0 < self.old.room }
        ensures links { (d : Place) →
            self.new.links ≡ insert self.old.links (i + 1) (place, Some (place_at self.old.links i d)) }
        ensures room { self.new.room + 1 ≡ self.old.room }
    {
        self.nodes.insert_below(i, place);
    }
}

/// Each node whose place has one in the map gets that: in one pass, or one after another where they are few for the
/// list.
fn replace(nodes: &mut TreeNodes, new: &PlaceMap)
    requires distinct { are_distinct nodes.old.nodes ≡ true }
    requires apart { StayApart (place_for new.now) (origins_of nodes.old.nodes) }
    ensures nodes { nodes.new.nodes ≡ nodes_renamed (place_for new.now) nodes.old.nodes }
    ensures room { nodes.new.room ≡ nodes.old.room }
{
    let few = nodes.is_in_blocks() && new.len() <= nodes.len() / REPLACED;
    if few && new.is_apart() {
        replace_each(nodes, new);
        return;
    }
    replace_in(nodes, new);
}

/// The same one after another, each by a search.
fn replace_each(nodes: &mut TreeNodes, new: &PlaceMap)
    requires distinct { are_distinct nodes.old.nodes ≡ true }
    requires apart { StayApart (place_for new.now) (origins_of nodes.old.nodes) }
    requires alone { IsApart (place_for new.now) }
    ensures nodes { nodes.new.nodes ≡ nodes_renamed (place_for new.now) nodes.old.nodes }
    ensures room { nodes.new.room ≡ nodes.old.room }
{
    for k in 0..new.len() {
        let old = new.key(k);
        if let Some(place) = new.get(old) {
            replace_one(nodes, old, place);
        }
    }
}

/// A node that has a place gets another, if there is one.
fn replace_one(nodes: &mut TreeNodes, old: Place, place: Place)
    requires { are_distinct nodes.old.nodes ≡ true }
    ensures nodes { (new : Place → Option Place) → ((x : Place) → new x ≡ (if same_place x old then Some place else None)) → nodes.new.nodes ≡ nodes_renamed new nodes.old.nodes }
    ensures room { nodes.new.room ≡ nodes.old.room }
{
    if let Some(i) = nodes.find(old) {
        nodes.set_place(i, place);
    }
}

/// Each node whose place has one in the map gets that. The one entry of a map is searched for: a pass over all nodes would
/// look each of them up.
fn replace_in(nodes: &mut TreeNodes, new: &PlaceMap)
    requires { are_distinct nodes.old.nodes ≡ true }
    ensures nodes { nodes.new.nodes ≡ nodes_renamed (place_for new.now) nodes.old.nodes }
    ensures room { nodes.new.room ≡ nodes.old.room }
{
    let Some((old, place)) = new.only() else {
        nodes.rename_all(new);
        return;
    };
    if let Some(i) = nodes.find(old) {
        nodes.set_place(i, place);
    }
}

/// A set of these places.
fn set_of(alloc: Global, places: &[Place]) -> Result<BTreeSet<Place>, NoMemory>
    ensures { IfOk result (λ set. (q : Place) →
        list_any (same_place q) set.keys ≡ list_any (same_place q) places.now) }
{
    let mut set = BTreeSet::new(alloc);
    for place in places {
        set.insert(*place).map_err(AllocError::from)?;
    }
    Ok(set)
}
