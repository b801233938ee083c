//! The answers that are known for one tree.

ghost use Rattle.std.specs.Prelude.{◌≡◌, ◌<◌, ◌+◌, IfOk, OnOk, length};

mod block_counts;
mod cases;
mod cuts;
mod large;
mod lists;
mod many;

use crate::assertions::assert_equal;
use lists::{assert_runs, assert_tree, place_of, places_of, tree_of};
use maptree::{PlaceMap, Tree};
use space::{NoMemory, Place};
use std::alloc::Global;
use std::process::Abort;
use std::test::Fail;

fn place(space: u16, page: u32) -> Place
    ensures { result ≡ record { space = space; page = page } }
{
    Place { space, page }
}

/// The position of a place that is in the tree.
fn position(rt: &impl Abort, tree: &Tree, place: Place) -> usize
    ensures { result < length tree.now.links }
{
    match tree.find(place) {
        Some(i) => i,
        None => panic!(rt; "{place} is not in the tree"),
    }
}

/// Puts a place below another.
fn put_below(rt: &impl Abort, tree: &mut Tree, origin: Place, place: Place)
    requires { 0 < tree.old.room }
    ensures room { tree.new.room + 1 ≡ tree.old.room }
    ensures one_more { length tree.new.links ≡ length tree.old.links + 1 }
{
    let i = position(rt, tree, origin);
    match tree.find(place) {
        None => tree.insert_below(i, place),
        Some(_) => panic!(rt; "{place} is in the tree"),
    }
}

/// 0:5 with 1:0 and 2:4 below it, below 1:0 2:0, and below that 1:3.
fn sample(rt: &impl Abort, alloc: Global) -> Result<Tree, NoMemory>
    ensures { IfOk result (λ tree. length tree.links ≡ 5) }
{
    let mut tree = Tree::root(alloc, place(0, 5));
    tree.reserve(4)?;
    put_below(rt, &mut tree, place(0, 5), place(2, 4));
    put_below(rt, &mut tree, place(0, 5), place(1, 0));
    put_below(rt, &mut tree, place(1, 0), place(2, 0));
    put_below(rt, &mut tree, place(2, 0), place(1, 3));
    Ok(tree)
}

#[test]
fn stands_in_preorder(rt: HostRuntime) -> Result<(), Fail> {
    let tree = sample(&rt, rt.alloc())?;
    assert_tree(&rt, &tree, "0:5/0 1:0/1 2:0/2 1:3/3 2:4/1", "2:5/0");
    Ok(())
}

/// The run of a place, and the position of its origin.
fn has_run_and_origin(rt: &impl Abort, tree: &Tree, place: &str, run: &str, origin: Option<usize>) {
    let at = position(rt, tree, place_of(rt, place));
    assert_runs(rt, &[tree.run_of(at)], run);
    assert_equal(rt, tree.origin_of(at), origin, place);
}

#[test]
fn has_runs_and_origins(rt: HostRuntime) -> Result<(), Fail> {
    let tree = sample(&rt, rt.alloc())?;
    for (place, run, origin) in [
        ("0:5", "0..5", None),
        ("1:0", "1..4", Some(0)),
        ("2:0", "2..4", Some(1)),
        ("1:3", "3..4", Some(2)),
        ("2:4", "4..5", Some(0)),
    ] {
        has_run_and_origin(&rt, &tree, place, run, origin);
    }
    Ok(())
}

/// The two places that a text names, as `1:0<0:5`, or the one that it names.
fn link_of(rt: &impl Abort, text: &str) -> (Place, Option<Place>) {
    match text.split_once('<') {
        Some((place, origin)) => (place_of(rt, place), Some(place_of(rt, origin))),
        None => (place_of(rt, text), None),
    }
}

/// The places with their origins are those that a text lists.
fn are_links(rt: &impl Abort, links: &[(Place, Option<Place>)], list: &str) {
    let mut wanted = list.split_whitespace();
    for link in links {
        let Some(text) = wanted.next() else {
            panic!(rt; "more places than {list}");
        };
        assert_equal(rt, *link, link_of(rt, text), text);
    }
    assert_equal(rt, wanted.next(), None, list);
}

/// The tree has the places with their origins that a text lists, in this order.
fn has_links(rt: &impl Abort, alloc: Global, tree: &Tree, list: &str) -> Result<(), NoMemory> {
    let links = tree.links(alloc)?;
    are_links(rt, &links, list);
    Ok(())
}

#[test]
fn lists_its_places_with_their_origins(rt: HostRuntime) -> Result<(), Fail> {
    let tree = sample(&rt, rt.alloc())?;
    has_links(
        &rt,
        rt.alloc(),
        &tree,
        "0:5 1:0<0:5 2:0<1:0 1:3<2:0 2:4<0:5",
    )?;
    Ok(())
}

/// Whether a place derives from 1:0.
fn derives(rt: &impl Abort, tree: &Tree, place: &str, wanted: bool) {
    let middle = position(rt, tree, Place { space: 1, page: 0 });
    let at = position(rt, tree, place_of(rt, place));
    assert_equal(rt, tree.is_origin(middle, at), wanted, place);
}

#[test]
fn tells_origins_at_any_distance(rt: HostRuntime) -> Result<(), Fail> {
    let tree = sample(&rt, rt.alloc())?;
    for (place, wanted) in [
        ("0:5", false),
        ("1:0", false),
        ("2:0", true),
        ("1:3", true),
        ("2:4", false),
    ] {
        derives(&rt, &tree, place, wanted);
    }
    Ok(())
}

/// The outermost runs of the places that a text lists are those that another lists.
fn have_runs(
    rt: &impl Abort,
    alloc: Global,
    tree: &Tree,
    named: &str,
    runs: &str,
) -> Result<(), NoMemory> {
    let named = places_of(rt, alloc, named)?;
    assert_runs(rt, &tree.outer_runs(alloc, &named)?, runs);
    Ok(())
}

#[test]
fn has_outer_runs(rt: HostRuntime) -> Result<(), Fail> {
    let tree = sample(&rt, rt.alloc())?;
    for (named, runs) in [
        ("1:3 1:0", "1..4"),
        ("2:4 2:0", "2..4 4..5"),
        ("2:0 0:5 2:0", "0..5"),
        ("2:5 1:3", "3..4"),
        ("", ""),
    ] {
        have_runs(&rt, rt.alloc(), &tree, named, runs)?;
    }
    Ok(())
}

/// Gives the node at a place another place.
fn rename(rt: &impl Abort, tree: &mut Tree, place: Place, other: Place) {
    let at = position(rt, tree, place);
    match tree.find(other) {
        None => tree.rename(at, other),
        Some(_) => panic!(rt; "{other} is in the tree"),
    }
}

#[test]
fn renames_one_node(rt: HostRuntime) -> Result<(), Fail> {
    let mut tree = sample(&rt, rt.alloc())?;
    rename(&rt, &mut tree, place(1, 0), place(3, 7));
    assert_tree(&rt, &tree, "0:5/0 3:7/1 2:0/2 1:3/3 2:4/1", "1:0/1");
    has_run_and_origin(&rt, &tree, "3:7", "1..4", Some(0));
    Ok(())
}

/// The tree has these places with their origins, in this order.
fn assert_links(
    rt: &impl Abort,
    alloc: Global,
    tree: &Tree,
    expected: &[(Place, Option<Place>)],
) -> Result<(), NoMemory>
    ensures { OnOk result (tree.now.links ≡ expected.now) }
{
    let links = tree.links(alloc)?;
    if links.as_slice() != expected {
        panic!(rt; "the tree has other links");
    }
    Ok(())
}

/// What a map says of some places: `0:9<3:2` where it has 3:2 for 0:9, and 0:4 where it has none for that.
fn assert_map(rt: &impl Abort, map: &PlaceMap, list: &str) {
    for text in list.split_whitespace() {
        let (place, other) = link_of(rt, text);
        assert_equal(rt, map.get(place), other, text);
    }
}

/// A tree in which 0:5 and 0:7 got other places, and the map of those.
fn renamed(rt: &impl Abort, alloc: Global) -> Result<(Tree, PlaceMap), NoMemory> {
    let (mut tree, _) = tree_of(rt, alloc, "0:5/0 1:0/1 0:7/2 2:0/3 2:4/1")?;
    let root = Place { space: 0, page: 5 };
    let first = Place { space: 1, page: 0 };
    let second = Place { space: 0, page: 7 };
    let third = Place { space: 2, page: 0 };
    let leaf = Place { space: 2, page: 4 };
    let before = [
        (root, None),
        (first, Some(root)),
        (second, Some(first)),
        (third, Some(second)),
        (leaf, Some(root)),
    ];
    assert_links(rt, alloc, &tree, &before)?;
    let mut new = PlaceMap::none(alloc, 0, 5);
    new.put(root, Place { space: 3, page: 1 })?;
    new.put(second, root)?;
    new.put(Place { space: 0, page: 9 }, Place { space: 3, page: 2 })?;
    tree.rename_all(&new);
    Ok((tree, new))
}

#[test]
fn renames_many_nodes_at_once(rt: HostRuntime) -> Result<(), Fail> {
    let (tree, new) = renamed(&rt, rt.alloc())?;
    has_links(
        &rt,
        rt.alloc(),
        &tree,
        "3:1 1:0<3:1 0:5<1:0 2:0<0:5 2:4<3:1",
    )?;
    assert_map(&rt, &new, "0:4 0:6 0:9<3:2 0:10 1:9");
    Ok(())
}
