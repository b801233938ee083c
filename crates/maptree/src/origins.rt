//! From which places many nodes of a tree derive.

ghost use Rattle.std.specs.Prelude.{◌≡◌, IfOk};

use crate::tree::Tree;
use space::{NoMemory, Place};
use std::alloc::Global;
use std::marker::Model;

/// The origins of so many nodes are searched for one by one, however small the tree is.
const FEW: usize = 8;

/// A larger tree is searched where it has so many nodes for each of those whose origins are asked for.
const SEARCHED: usize = 16;

/// Tells from which places nodes of a tree derive. Of a few nodes each origin is searched for; for many, one pass over the tree
/// serves them all. A contract sees the tree.
#[derive(Drop)]
pub struct NodeOrigins<'a> {
    tree: &'a Tree,
    /// Each place with its origin, where one pass over the tree has found them.
    links: Option<Vec<(Place, Option<Place>)>>,
}

impl<'a> Model for NodeOrigins<'a> {
    ghost use Rattle.std.specs.Option.{ForSome};
    ghost use Rattle.maptree.specs.Origins.{Shape, AreLinksOf};

    ghost Value = { Shape };

    ghost view = { λ o. o.tree.now };

    ghost invariant = { λ o. ForSome o.links (λ l. AreLinksOf o.tree.now l.items) };
}

impl<'a> NodeOrigins<'a> {
    ghost use Rattle.std.specs.Prelude.{◌≡◌, ◌<◌, IfOk, length};
    ghost use Rattle.maptree.specs.Origins.{IsOriginAt};

    /// The origins of so many nodes of a tree.
    ///
    /// Refused, where memory is: `NoMemory`.
    pub fn of(alloc: Global, tree: &'a Tree, nodes: usize) -> Result<NodeOrigins<'a>, NoMemory>
        ensures { IfOk result (λ origins. origins ≡ tree.now) }
    {
        if nodes <= FEW || nodes <= tree.len() / SEARCHED {
            return Ok(NodeOrigins { tree, links: None });
        }
        let links = tree.links(alloc)?;
        Ok(NodeOrigins {
            tree,
            links: Some(links),
        })
    }

    /// The place from which the node at a position derives; none for a root.
    pub fn at(&self, i: usize) -> Option<Place>
        requires { i < length self.now.links }
        ensures { IsOriginAt self.now.links i result }
    {
        match &self.links {
            Some(links) => links[i].1,
            None => self.tree.place_of_origin(i),
        }
    }
}
