//! Runs cut out of a tree in parts, and what is kept of them put back.

ghost use Rattle.std.specs.Prelude.{◌≡◌, ◌≤◌, true, not, map, filter, IfOk, OnOk, length, Some};
ghost use Rattle.std.specs.List.{All, list_all, list_any};
ghost use Rattle.space.specs.declared.place.Place.{Place};
ghost use Rattle.space.specs.Place.{same_place};
ghost use Rattle.maptree.specs.Origins.{origin_in, AreRising, IsRun};
ghost use Rattle.space.specs.Slices.{nodes_of};
ghost use Rattle.maptree.specs.Cuts.{kept_of, IsCut};

use super::cases::{BETWEEN, CASES, Case, SAMPLE, case_of};
use super::lists::{assert_parts, assert_runs, assert_tree, place_of, places_of, tree_of};
use super::{place, sample};
use crate::assertions::assert_equal;
use maptree::Tree;
use space::{NoMemory, Node, Place, Slice};
use std::alloc::{AllocError, Global};
use std::ops::Range;
use std::process::Abort;
use std::slice;
use std::test::Fail;

/// The nodes of the tree of `sample`.
const NODES: &str = "0:5/0 1:0/1 2:0/2 1:3/3 2:4/1";

/// Whether a place is one of these.
fn is_one_of(places: &[Place], place: Place) -> bool
    ensures { result ≡ list_any (λ q. same_place q place) places.now }
{
    places.contains(&place)
}

/// Whether no node of a tree of so many nodes derives from one of some places and is none of them itself: then what is
/// left out with them leaves no node without its origin.
pub fn are_closed(tree: &Tree, len: usize, gone: &[Place]) -> bool
    requires { len ≡ length tree.now.links }
    ensures { result ≡ true → (p o : Place) → origin_in tree.now.links p ≡ Some o
        → not (list_any (λ q. same_place q p) gone.now) ≡ true
        → not (list_any (λ q. same_place q o) gone.now) ≡ true }
{
    for i in 0..len {
        if let Some(above) = tree.origin_of(i) {
            let origin = tree.node(above).place;
            if is_one_of(gone, origin) && !is_one_of(gone, tree.node(i).place) {
                return false;
            }
        }
    }
    true
}

/// Whether none of some places is in the tree.
pub fn are_absent(tree: &Tree, gone: &[Place]) -> bool
    ensures { result ≡ true
        → list_all (λ o. not (list_any (λ q. same_place q o.0) gone.now)) tree.now.links ≡ true }
{
    for place in gone {
        if tree.find(*place).is_some() {
            return false;
        }
    }
    true
}

/// Nodes without those at some places.
fn without(alloc: Global, nodes: &[Node], gone: &[Place]) -> Result<Vec<Node>, AllocError>
    ensures { IfOk result (λ kept.
        kept.items ≡ filter (λ n. not (list_any (λ q. same_place q n.place) gone.now)) nodes.now) }
{
    let mut kept = Vec::new(alloc);
    for node in nodes {
        if !is_one_of(gone, node.place) {
            kept.push(*node)?;
        }
    }
    Ok(kept)
}

/// Parts without the nodes at some places.
pub fn parts_without(
    alloc: Global,
    parts: &[Slice],
    gone: &[Place],
) -> Result<Vec<Slice>, AllocError>
    ensures { IfOk result (λ kept.
        nodes_of kept.items ≡ kept_of (λ p. not (list_any (λ q. same_place q p) gone.now)) (nodes_of parts.now)) }
{
    let mut kept = Vec::new(alloc);
    for part in parts {
        let nodes = without(alloc, &part.nodes, gone)?;
        kept.push(Slice { nodes })?;
    }
    Ok(kept)
}

/// What a call answered, once it is seen that the tree has these nodes of a case if memory was refused.
fn or_left<T: Drop>(
    rt: &impl Abort,
    tree: &Tree,
    list: &str,
    case: &Case,
    answer: Result<T, NoMemory>,
) -> Result<T, NoMemory>
    ensures { result ≡ answer }
{
    if answer.is_err() {
        assert_tree(rt, tree, list, case.tree);
    }
    answer
}

/// Asks for memory for many nodes. Given or refused, the tree has its nodes as before.
fn reserves(rt: &impl Abort, tree: &mut Tree, case: &Case) -> Result<(), NoMemory>
    ensures { tree.new.links ≡ tree.old.links }
{
    let reserved = tree.reserve(1_000);
    assert_tree(rt, tree, case.tree, case.tree);
    reserved
}

/// Cuts the runs of a case out of its tree: the parts.
fn cuts(
    rt: &impl Abort,
    alloc: Global,
    tree: &mut Tree,
    case: &Case,
) -> Result<Vec<Slice>, NoMemory>
    requires { 1 ≤ case.now.most }
    ensures { IfOk result (λ parts. IsCut tree.old.links (nodes_of parts.items) tree.new) }
{
    let named = places_of(rt, alloc, case.named)?;
    let runs = tree.outer_runs(alloc, &named);
    let runs = or_left(rt, tree, case.tree, case, runs)?;
    assert_runs(rt, &runs, case.runs);
    let parts = tree.cut(alloc, &runs, case.most);
    let parts = or_left(rt, tree, case.tree, case, parts)?;
    assert_parts(rt, &parts, case.parts);
    assert_tree(rt, tree, case.left, case.tree);
    Ok(parts)
}

/// Works a case on its tree, which has so many nodes.
fn works(
    rt: &impl Abort,
    alloc: Global,
    tree: &mut Tree,
    len: usize,
    case: &Case,
) -> Result<(), NoMemory>
    requires { len ≡ length tree.old.links }
{
    let gone = places_of(rt, alloc, case.gone)?;
    assert_tree(rt, tree, case.tree, case.tree);
    if !are_closed(tree, len, &gone) {
        panic!(rt; "a node would stay without its origin: {}", case.gone);
    }
    assert!(rt; 1 <= case.most);
    let parts = cuts(rt, alloc, tree, case)?;
    if !are_absent(tree, &gone) {
        panic!(rt; "not all in parts: {}", case.gone);
    }
    let kept = parts_without(alloc, &parts, &gone)?;
    let spliced = tree.splice(kept);
    or_left(rt, tree, case.left, case, spliced)?;
    assert_tree(rt, tree, case.whole, case.tree);
    Ok(())
}

/// How many nodes some parts have.
pub fn nodes_in(parts: &[Slice]) -> usize {
    let mut count = 0_usize;
    for part in parts {
        count = count.wrapping_add(part.nodes.len());
    }
    count
}

/// Cuts runs out and puts all of them back; how many nodes they were.
pub fn put_back(
    alloc: Global,
    tree: &mut Tree,
    runs: &[Range<usize>],
    most: usize,
) -> Result<usize, NoMemory>
    requires rising { AreRising 0 runs.now (length tree.old.links) }
    requires runs { All (IsRun tree.old.links) runs.now }
    requires most { 1 ≤ most }
    ensures { OnOk result (tree.new.links ≡ tree.old.links) }
{
    let parts = tree.cut(alloc, runs, most)?;
    let count = nodes_in(&parts);
    tree.splice(parts)?;
    Ok(count)
}

/// Cuts the outermost runs of some places out.
pub fn cut_at(
    alloc: Global,
    tree: &mut Tree,
    named: &[Place],
    most: usize,
) -> Result<Vec<Slice>, NoMemory>
    requires { 1 ≤ most }
{
    let runs = tree.outer_runs(alloc, named)?;
    tree.cut(alloc, &runs, most)
}

/// Cuts the outermost runs of some places out and puts all of them back; how many nodes they were.
pub fn put_back_at(
    alloc: Global,
    tree: &mut Tree,
    named: &[Place],
    most: usize,
) -> Result<usize, NoMemory>
    requires { 1 ≤ most }
{
    let runs = tree.outer_runs(alloc, named)?;
    put_back(alloc, tree, &runs, most)
}

/// A copy of all nodes of the tree of a case, which has so many, has its nodes, and the tree has them as before.
fn copies(
    rt: &impl Abort,
    alloc: Global,
    tree: &Tree,
    len: usize,
    case: &Case,
) -> Result<(), NoMemory>
    requires { len ≡ length tree.now.links }
{
    let whole = tree.part(alloc, 0, len)?;
    assert_parts(rt, slice::from_ref(&whole), case.tree);
    assert_tree(rt, tree, case.tree, case.tree);
    Ok(())
}

/// Copies the nodes of the tree of a case, which has so many, and works the case.
fn copies_and_works(
    rt: &impl Abort,
    alloc: Global,
    tree: &mut Tree,
    len: usize,
    case: &Case,
) -> Result<(), NoMemory>
    requires { len ≡ length tree.old.links }
{
    copies(rt, alloc, tree, len, case)?;
    reserves(rt, tree, case)?;
    works(rt, alloc, tree, len, case)
}

/// Makes the tree of a case, and works the case.
fn works_on_a_tree(rt: &impl Abort, alloc: Global, case: &Case) -> Result<(), NoMemory> {
    let (mut tree, len) = tree_of(rt, alloc, case.tree)?;
    copies_and_works(rt, alloc, &mut tree, len, case)
}

/// Cuts the run of a place out: so many parts of one node come, and the tree of `sample` has these nodes then.
fn cuts_and_leaves(
    rt: &impl Abort,
    alloc: Global,
    tree: &mut Tree,
    named: &str,
    parts: usize,
    left: &str,
) -> Result<(), NoMemory> {
    let count = cut_at(alloc, tree, &[place_of(rt, named)], 1)?.len();
    assert_equal(rt, count, parts, left);
    assert_tree(rt, tree, left, NODES);
    Ok(())
}

/// The runs of 1:0 and 2:4, cut out and put back, have so many nodes, and the tree of `sample` has these nodes then.
fn puts_back_and_leaves(
    rt: &impl Abort,
    alloc: Global,
    tree: &mut Tree,
    nodes: usize,
    left: &str,
) -> Result<(), NoMemory> {
    let count = put_back_at(alloc, tree, &[place(1, 0), place(2, 4)], 2)?;
    assert_equal(rt, count, nodes, left);
    assert_tree(rt, tree, left, NODES);
    Ok(())
}

#[test]
fn puts_back_one_node_of_a_run_of_three(rt: HostRuntime) -> Result<(), Fail> {
    let mut tree = sample(&rt, rt.alloc())?;
    let case = case_of(&rt, SAMPLE);
    reserves(&rt, &mut tree, &case)?;
    works(&rt, rt.alloc(), &mut tree, 5, &case)?;
    Ok(())
}

#[test]
fn cuts_runs_and_puts_back_what_is_kept(rt: HostRuntime) -> Result<(), Fail> {
    works_on_a_tree(&rt, rt.alloc(), &case_of(&rt, SAMPLE))?;
    for text in CASES.split(BETWEEN) {
        works_on_a_tree(&rt, rt.alloc(), &case_of(&rt, text))?;
    }
    Ok(())
}

#[test]
fn stays_as_the_last_cut_left_it_where_nothing_is_put_back(rt: HostRuntime) -> Result<(), Fail> {
    let mut tree = sample(&rt, rt.alloc())?;
    for (named, parts, left, nodes_then) in [
        ("2:0", 2, "0:5/0 1:0/1 2:4/1", 2),
        ("2:4", 1, "0:5/0 1:0/1", 1),
        ("2:4", 0, "0:5/0 1:0/1", 1),
        ("0:5", 2, "", 0),
        ("0:5", 0, "", 0),
    ] {
        cuts_and_leaves(&rt, rt.alloc(), &mut tree, named, parts, left)?;
        puts_back_and_leaves(&rt, rt.alloc(), &mut tree, nodes_then, left)?;
    }
    Ok(())
}
