//! A root and one node below it, in few bytes.

ghost use Rattle.std.specs.Prelude.{◌≡◌};
ghost use Rattle.maptree.specs.PlaceMaps.{place_for};
ghost use Rattle.maptree.specs.Renamings.{replaced_by};

use crate::place_map::PlaceMap;
use space::{Node, Place};

/// The places of a root and of a node that derives from it. They take 12 bytes, where two places take 16.
#[derive(Clone, Copy, Drop)]
pub struct Pair {
    root_space: u16,
    below_space: u16,
    root_page: u32,
    below_page: u32,
}

impl Pair {
    ghost use Rattle.std.specs.Prelude.{◌≡◌, ◌<◌, ◌+◌, [], ◌∷◌, drop, get_or, option_map, position, set};
    ghost use Rattle.space.specs.Place.{same_place};
    ghost use Rattle.space.specs.declared.node.Node.{Node};
    ghost use Rattle.maptree.specs.Nodes.{origin_at, run_len};
    ghost use Rattle.maptree.specs.Renamings.{nodes_renamed};
    ghost use Rattle.maptree.specs.TreeForms.{below_of, nodes_of_pair, root_of};

    /// A root and the node below it.
    pub fn of(root: Place, below: Place) -> Pair
        ensures root { root_of result ≡ root }
        ensures below { below_of result ≡ below }
    {
        Pair {
            root_space: root.space,
            below_space: below.space,
            root_page: root.page,
            below_page: below.page,
        }
    }

    /// The place of the root.
    pub fn root(&self) -> Place
        ensures { result ≡ root_of self.now }
    {
        Place {
            space: self.root_space,
            page: self.root_page,
        }
    }

    /// The place of the node below it.
    pub fn below(&self) -> Place
        ensures { result ≡ below_of self.now }
    {
        Place {
            space: self.below_space,
            page: self.below_page,
        }
    }

    /// Both nodes.
    pub fn nodes(&self) -> [Node; 2]
        ensures { result ≡ nodes_of_pair self.now }
    {
        [
            Node {
                place: self.root(),
                depth: 0,
            },
            Node {
                place: self.below(),
                depth: 1,
            },
        ]
    }

    /// The node at a position.
    pub fn node(&self, i: usize) -> Node
        requires { i < 2 }
        ensures { result ≡ get_or (nodes_of_pair self.now) i result }
    {
        if i == 0 {
            Node {
                place: self.root(),
                depth: 0,
            }
        } else {
            Node {
                place: self.below(),
                depth: 1,
            }
        }
    }

    /// The node at a position, and how many nodes derive from it.
    pub fn run_of(&self, i: usize) -> (Node, usize)
        requires { i < 2 }
        ensures node { result.0 ≡ get_or (nodes_of_pair self.now) i result.0 }
        ensures run { result.1 ≡ run_len result.0.depth (drop (i + 1) (nodes_of_pair self.now)) }
    {
        if i == 0 {
            (self.node(0), 1)
        } else {
            (self.node(1), 0)
        }
    }

    /// The position of the origin of the node at a position.
    pub fn origin_of(&self, i: usize) -> Option<usize>
        requires { i < 2 }
        ensures { (d : Node) → result ≡ origin_at (nodes_of_pair self.now) i d }
    {
        if i == 0 { None } else { Some(0) }
    }

    /// The place of that node.
    pub fn place_of_origin(&self, i: usize) -> Option<Place>
        requires { i < 2 }
        ensures { (d : Node) → result ≡ option_map (λ r. (get_or (nodes_of_pair self.now) r d).place) (origin_at (nodes_of_pair self.now) i d) }
    {
        if i == 0 { None } else { Some(self.root()) }
    }

    /// The position of a place.
    pub fn find(&self, place: Place) -> Option<usize>
        ensures { result ≡ position (λ n. same_place place n.place) (nodes_of_pair self.now) }
    {
        if place == self.root() {
            Some(0)
        } else if place == self.below() {
            Some(1)
        } else {
            None
        }
    }

    /// The same pair with another place for the node at a position.
    pub fn with_place(&self, i: usize, place: Place) -> Pair
        requires { i < 2 }
        ensures { (d : Node) → nodes_of_pair result ≡ set (nodes_of_pair self.now) i (record { place = place; depth = (get_or (nodes_of_pair self.now) i d).depth }) }
    {
        if i == 0 {
            Pair::of(place, self.below())
        } else {
            Pair::of(self.root(), place)
        }
    }

    /// The same pair, each node whose place has one in the map with that.
    pub fn renamed(&self, new: &PlaceMap) -> Pair
        ensures { nodes_of_pair result ≡ nodes_renamed (place_for new.now) (nodes_of_pair self.now) }
    {
        Pair::of(replaced(new, self.root()), replaced(new, self.below()))
    }
}

/// The place that a map has for a place; the same place, if it has none.
fn replaced(new: &PlaceMap, place: Place) -> Place
    ensures { result ≡ replaced_by (place_for new.now) place }
{
    match new.get(place) {
        Some(other) => other,
        None => place,
    }
}
