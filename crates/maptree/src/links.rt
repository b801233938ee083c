//! Nodes read as places with their origins.

ghost use Rattle.std.specs.Prelude.{◌≡◌, ◌-◌, ◌++◌, ◌∷◌, [], length, take, IfOk, OnOk, OnErr};
ghost use Rattle.std.specs.List.{slice_get};
ghost use Rattle.maptree.specs.Nodes.{origins_of};

use crate::nodes::NearNodes;
use crate::tree_nodes::TreeNodes;
use space::{NoMemory, Node, Place};
use std::alloc::{AllocError, Global};
use std::marker::Model;

/// Each node's place with its origin, in one pass.
pub fn linked(alloc: Global, nodes: &[Node]) -> Result<Vec<(Place, Option<Place>)>, AllocError>
    ensures { IfOk result (λ links. links.items ≡ origins_of nodes.now) }
{
    let mut links = Vec::with_capacity(alloc, nodes.len())?;
    // The places of the node before and of its origins, the root's first.
    let mut path = Vec::new(alloc);
    for node in nodes {
        path.truncate(node.depth);
        let origin = path.last().copied();
        links.push((node.place, origin))?;
        path.push(node.place)?;
    }
    Ok(links)
}

/// Reads the places of a tree one after another, each with its origin, without a list of them. A contract sees those that
/// are left.
#[derive(Drop)]
pub struct Links<'a> {
    nodes: NearNodes<'a>,
    /// The position of the next one.
    next: usize,
    /// The places of the node before it and of its origins, the root's first.
    path: Vec<Place>,
}

impl<'a> Model for Links<'a> {
    ghost use Rattle.std.specs.Prelude.{◌≡◌, ◌≤◌, length, drop, reverse};
    ghost use Rattle.maptree.specs.Origins.{Origins};
    ghost use Rattle.maptree.specs.Nodes.{links, origins_of};

    ghost Value = { Origins };

    ghost view = { λ l. drop l.next (origins_of l.nodes) };

    ghost invariant = { λ l. (l.next ≤ length l.nodes) × (links (reverse l.path.items) (drop l.next l.nodes) ≡ drop l.next (origins_of l.nodes)) };
}

impl<'a> Links<'a> {
    ghost use Rattle.std.specs.Prelude.{MatchOption};

    /// All places of a tree.
    pub(crate) fn of(alloc: Global, nodes: &'a TreeNodes) -> Links<'a>
        ensures { result ≡ origins_of nodes.now.nodes }
    {
        Links {
            nodes: NearNodes::of(nodes),
            next: 0,
            path: Vec::new(alloc),
        }
    }

    /// Takes the next place, with its origin; none if no place is left.
    ///
    /// Refused, where memory is: `NoMemory`. Then the same are left.
    pub fn next(&mut self) -> Result<Option<(Place, Option<Place>)>, NoMemory>
        ensures next { IfOk result (λ next. MatchOption next (self.old ≡ []) (λ link. self.old ≡ link ∷ self.new)) }
        ensures err { OnErr result (self.new ≡ self.old) }
    {
        if self.next == self.nodes.len() {
            return Ok(None);
        }
        let node = self.nodes.at(self.next);
        let origin = step(&mut self.path, node)?;
        self.next += 1;
        Ok(Some((node.place, origin)))
    }
}

/// Puts the place of a node behind those of its origins, which are the first of a path. Returns its origin.
///
/// Refused, where memory is: `NoMemory`. Then the path is the same.
fn step(path: &mut Vec<Place>, node: Node) -> Result<Option<Place>, NoMemory>
    ensures path { OnOk result (path.new.items ≡ take node.depth path.old.items ++ node.place ∷ []) }
    ensures origin { IfOk result (λ origin. origin ≡ slice_get (take node.depth path.old.items) (length (take node.depth path.old.items) - 1)) }
    ensures err { OnErr result (path.new.items ≡ path.old.items) }
{
    let depth = node.depth;
    if depth >= path.len() {
        path.reserve(1).map_err(AllocError::from)?;
        let origin = path.last().copied();
        path.push_reserved(node.place);
        return Ok(origin);
    }
    let origin = path[..depth].last().copied();
    path.truncate(depth + 1);
    path[depth] = node.place;
    Ok(origin)
}
