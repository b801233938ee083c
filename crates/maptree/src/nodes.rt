//! The nodes of a tree, read one after another.

ghost use Rattle.std.specs.Prelude.{◌≡◌, ◌<◌, ◌≤◌, ℕ, length, get_or};
ghost use Rattle.space.specs.declared.place.Place.{Place};
ghost use Rattle.maptree.specs.Nodes.{is_forest, origins_of};
ghost use Rattle.maptree.specs.Origins.{place_at, HasDepth};
ghost use Rattle.maptree.specs.Forms.{in_order};

use crate::backward::node_at;
use crate::tree_nodes::TreeNodes;
use space::Node;
use std::marker::Model;

/// Reads nodes of a list. One that stands near the one that was read before is read without a search for it. A contract sees
/// the list.
#[derive(Drop)]
pub(crate) struct NearNodes<'a> {
    nodes: &'a TreeNodes,
    /// Some of the nodes, one after another.
    near: &'a [Node],
    /// The position of the first of these.
    first: usize,
    /// Whether they stand with the last one first.
    backward: bool,
}

impl<'a> Model for NearNodes<'a> {
    ghost use Rattle.std.specs.Prelude.{◌≡◌, List, length, take, drop};
    ghost use Rattle.space.specs.declared.node.Node.{Node};
    ghost use Rattle.maptree.specs.Forms.{in_order};

    ghost Value = { List Node };

    ghost view = { λ n. n.nodes.now.nodes };

    ghost invariant = { λ n. in_order n.backward n.near.now ≡ take (length n.near.now) (drop n.first n.nodes.now.nodes) };
}

impl<'a> NearNodes<'a> {
    /// The nodes of a list.
    pub(crate) fn of(nodes: &'a TreeNodes) -> NearNodes<'a>
        ensures { result ≡ nodes.now.nodes }
    {
        NearNodes {
            nodes,
            near: &[],
            first: 0,
            backward: false,
        }
    }

    /// How many they are.
    pub(crate) fn len(&self) -> usize
        ensures { result ≡ length self.now }
    {
        self.nodes.len()
    }

    /// The node at a position.
    #[inline(always)]
    pub(crate) fn at(&mut self, i: usize) -> Node
        requires { i < length self.old }
        ensures node { result ≡ get_or self.old i result }
        ensures same { self.new ≡ self.old }
    {
        if self.first <= i && i - self.first < self.near.len() {
            return nth(self.near, self.backward, i - self.first);
        }
        let Some((first, near, backward)) = self.nodes.near(i) else {
            return self.nodes.get(i);
        };
        self.first = first;
        self.near = near;
        self.backward = backward;
        nth(near, backward, i - first)
    }
}

/// Reads nodes of a tree. One that stands near the one that was read before is read without a search for it. A contract
/// sees the places of the tree with their origins.
#[derive(Drop)]
pub struct Nodes<'a> {
    nodes: NearNodes<'a>,
}

impl<'a> Model for Nodes<'a> {
    ghost use Rattle.std.specs.Prelude.{◌≡◌, true};
    ghost use Rattle.maptree.specs.Nodes.{is_forest, origins_of};
    ghost use Rattle.maptree.specs.Origins.{Origins};

    ghost Value = { Origins };

    ghost view = { λ n. origins_of n.nodes };

    ghost invariant = { λ n. is_forest n.nodes ≡ true };
}

impl<'a> Nodes<'a> {
    ghost use Rattle.std.specs.Prelude.{true};

    /// The nodes of a tree.
    pub fn of(nodes: &'a TreeNodes) -> Nodes<'a>
        requires { is_forest nodes.now.nodes ≡ true }
        ensures { result ≡ origins_of nodes.now.nodes }
    {
        Nodes {
            nodes: NearNodes::of(nodes),
        }
    }

    /// The node at a position. No other position has its place.
    #[inline(always)]
    pub fn at(&mut self, i: usize) -> Node
        requires { i < length self.old }
        ensures place { (d : Place) → result.place ≡ place_at self.old i d }
        ensures only { (j : ℕ) (d : Place) → j < length self.old → place_at self.old j d ≡ result.place → j ≡ i }
        ensures depth { HasDepth self.old result.place result.depth }
        ensures upto { result.depth ≤ i }
        ensures same { self.new ≡ self.old }
    {
        self.nodes.at(i)
    }
}

/// The node so far behind the first of some nodes, which may stand with the last one first.
fn nth(nodes: &[Node], backward: bool, k: usize) -> Node
    requires { k < length nodes.now }
    ensures { result ≡ get_or (in_order backward nodes.now) k result }
{
    if backward {
        node_at(nodes, k)
    } else {
        nodes[k]
    }
}
