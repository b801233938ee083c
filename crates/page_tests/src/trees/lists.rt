//! Trees, parts and runs as the tables of the tests write them: the tree `0:5/0 1:0/1` has the place 0:5 at depth 0 and
//! behind it 1:0 at depth 1, `1..4` is a run, and ` | ` stands between parts.

ghost use Rattle.std.specs.Prelude.{◌≡◌, ◌<◌, ◌+◌, IfOk, length};

use super::{position, put_below};
use crate::assertions::assert_equal;
use maptree::Tree;
use space::{NoMemory, Node, Place, Slice};
use std::alloc::{AllocError, Global};
use std::ops::Range;
use std::process::Abort;

/// The place that a text names.
pub fn place_of(rt: &impl Abort, text: &str) -> Place {
    if let Some((space, page)) = text.split_once(':') {
        if let (Ok(space), Ok(page)) = (space.parse(), page.parse()) {
            return Place { space, page };
        }
    }
    panic!(rt; "{text} is no place")
}

/// The node that a text names.
fn node_of(rt: &impl Abort, text: &str) -> Node {
    if let Some((place, depth)) = text.split_once('/') {
        if let Ok(depth) = depth.parse() {
            let place = place_of(rt, place);
            return Node { place, depth };
        }
    }
    panic!(rt; "{text} is no node")
}

/// The places that a text lists.
pub fn places_of(rt: &impl Abort, alloc: Global, list: &str) -> Result<Vec<Place>, NoMemory> {
    let mut places = Vec::new(alloc);
    for text in list.split_whitespace() {
        places.push(place_of(rt, text)).map_err(AllocError::from)?;
    }
    Ok(places)
}

/// The nodes that a text lists.
fn nodes_of(rt: &impl Abort, alloc: Global, list: &str) -> Result<Vec<Node>, NoMemory> {
    let mut nodes = Vec::new(alloc);
    for text in list.split_whitespace() {
        nodes.push(node_of(rt, text)).map_err(AllocError::from)?;
    }
    Ok(nodes)
}

/// The place from which the node at a position derives in such a list.
fn origin_of(rt: &impl Abort, nodes: &[Node], i: usize) -> Place
    requires { i < length nodes.now }
{
    let node = nodes[i];
    for before in nodes[..i].iter().rev() {
        if before.depth < node.depth {
            return before.place;
        }
    }
    panic!(rt; "{} has no origin", node.place)
}

/// Puts a place below another, in a tree of so many nodes; how many there are then.
pub fn grown(
    rt: &impl Abort,
    tree: &mut Tree,
    len: usize,
    origin: Place,
    place: Place,
) -> Result<usize, NoMemory>
    requires { len ≡ length tree.old.links }
    ensures { IfOk result (λ len. len ≡ length tree.new.links) }
{
    tree.reserve(1)?;
    put_below(rt, tree, origin, place);
    match len.checked_add(1) {
        Some(more) => Ok(more),
        None => panic!(rt; "the tree is full"),
    }
}

/// Puts the nodes of such a list at a depth below their origins, from the last to the first, since each is put right behind
/// its origin; how many nodes the tree has then.
fn grown_at(
    rt: &impl Abort,
    tree: &mut Tree,
    mut len: usize,
    nodes: &[Node],
    depth: usize,
) -> Result<usize, NoMemory>
    requires { len ≡ length tree.old.links }
    ensures { IfOk result (λ len. len ≡ length tree.new.links) }
{
    for i in (0..nodes.len()).rev() {
        if nodes[i].depth == depth {
            len = grown(rt, tree, len, origin_of(rt, nodes, i), nodes[i].place)?;
        }
    }
    Ok(len)
}

/// The tree that a text lists, and how many nodes it has.
pub fn tree_of(rt: &impl Abort, alloc: Global, list: &str) -> Result<(Tree, usize), NoMemory>
    ensures { IfOk result (λ made. made.1 ≡ length made.0.links) }
{
    let nodes = nodes_of(rt, alloc, list)?;
    let Some(root) = nodes.first() else {
        panic!(rt; "a tree has a root");
    };
    let mut tree = Tree::root(alloc, root.place);
    let mut len = 1;
    for depth in 1..nodes.len() {
        len = grown_at(rt, &mut tree, len, &nodes, depth)?;
    }
    Ok((tree, len))
}

/// Whether a text lists a place.
fn lists(rt: &impl Abort, list: &str, place: Place) -> bool {
    for text in list.split_whitespace() {
        if node_of(rt, text).place == place {
            return true;
        }
    }
    false
}

/// A node of a list stands at a position.
fn stands(rt: &impl Abort, tree: &Tree, i: usize, node: Node, list: &str) {
    let at = position(rt, tree, node.place);
    assert_equal(rt, tree.node(at), node, list);
    assert_equal(rt, at, i, list);
}

/// The run of the root that a list begins with has so many nodes.
fn has_nodes(rt: &impl Abort, tree: &Tree, list: &str, len: usize) {
    if let Some(root) = list.split_whitespace().next() {
        let at = position(rt, tree, node_of(rt, root).place);
        assert_equal(rt, tree.run_of(at), 0..len, list);
    }
}

/// A tree has the nodes that a text lists, in this order, and no other place of those that another text lists. This takes
/// no memory.
pub fn assert_tree(rt: &impl Abort, tree: &Tree, list: &str, all: &str) {
    let mut len = 0_usize;
    for text in list.split_whitespace() {
        stands(rt, tree, len, node_of(rt, text), list);
        len = len.wrapping_add(1);
    }
    has_nodes(rt, tree, list, len);
    for text in all.split_whitespace() {
        let place = node_of(rt, text).place;
        let found = tree.find(place);
        assert_equal(rt, found.is_some(), lists(rt, list, place), text);
    }
}

/// The run that a text names.
fn run_of(rt: &impl Abort, text: &str) -> Range<usize> {
    if let Some((start, end)) = text.split_once("..") {
        if let (Ok(start), Ok(end)) = (start.parse(), end.parse()) {
            return start..end;
        }
    }
    panic!(rt; "{text} is no run")
}

/// The runs are those that a text lists. This takes no memory.
pub fn assert_runs(rt: &impl Abort, runs: &[Range<usize>], list: &str) {
    let mut wanted = list.split_whitespace();
    for run in runs {
        let Some(text) = wanted.next() else {
            panic!(rt; "more runs than {list}");
        };
        assert_equal(rt, run, &run_of(rt, text), list);
    }
    assert_equal(rt, wanted.next(), None, list);
}

/// The nodes are those that a text lists. This takes no memory.
fn assert_nodes(rt: &impl Abort, nodes: &[Node], list: &str) {
    let mut wanted = list.split_whitespace();
    for node in nodes {
        let Some(text) = wanted.next() else {
            panic!(rt; "a longer part than {list}");
        };
        assert_equal(rt, *node, node_of(rt, text), list);
    }
    assert_equal(rt, wanted.next(), None, list);
}

/// The parts are those that a text lists. This takes no memory.
pub fn assert_parts(rt: &impl Abort, parts: &[Slice], list: &str) {
    if list.is_empty() {
        assert_equal(rt, parts.len(), 0, "parts of an empty list");
        return;
    }
    let mut wanted = list.split(" | ");
    for part in parts {
        let Some(nodes) = wanted.next() else {
            panic!(rt; "more parts than {list}");
        };
        assert_nodes(rt, &part.nodes, nodes);
    }
    assert_equal(rt, wanted.next(), None, list);
}
