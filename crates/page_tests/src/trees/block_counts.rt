//! In how many blocks the nodes of a large tree stand.

use super::cuts::cut_at;
use super::large::nth_place;
use super::put_below;
use crate::assertions::{assert_equal, assert_holds};
use maptree::Tree;
use space::{NoMemory, Place};
use std::alloc::{AllocError, Global};
use std::process::Abort;
use std::test::Fail;

/// How many nodes the root and its children are at first.
const FIRST: u32 = 1_000;

/// How many nodes there are with those that come below one of them.
const ALL: u32 = 1_200;

/// How many nodes each block has at least, but for the first and the last of a tree.
const LEAST: usize = 43;

/// How many nodes of a fan come, of which a third stays.
const MANY: u32 = 6_000;

/// How many nodes two neighbours have together at least once nodes have gone, but for a few.
const PAIR: usize = 97;

/// Puts the places of some numbers below another, one after another.
fn grow(rt: &impl Abort, tree: &mut Tree, origin: u32, from: u32, to: u32) -> Result<(), NoMemory> {
    for n in from..to {
        tree.reserve(1)?;
        put_below(rt, tree, nth_place(origin), nth_place(n));
    }
    Ok(())
}

/// Of the blocks of a tree two at most have fewer nodes than the others have at least.
fn has_few_blocks(rt: &impl Abort, tree: &Tree, origin: u32) {
    let Some(blocks) = tree.block_count() else {
        panic!(rt; "the nodes stand in no blocks");
    };
    if blocks > tree.len() / LEAST + 2 {
        panic!(rt; "{blocks} blocks where nodes come below {origin}");
    }
}

/// The nodes come below one of the first ones.
fn grows_below(rt: &impl Abort, alloc: Global, origin: u32) -> Result<(), NoMemory> {
    let mut tree = Tree::root(alloc, nth_place(0));
    grow(rt, &mut tree, 0, 1, FIRST)?;
    grow(rt, &mut tree, origin, FIRST, ALL)?;
    has_few_blocks(rt, &tree, origin);
    Ok(())
}

#[test]
fn has_few_blocks_wherever_nodes_come(rt: HostRuntime) -> Result<(), Fail> {
    for origin in 0..FIRST {
        grows_below(&rt, rt.alloc(), origin)?;
    }
    Ok(())
}

/// The places of two of three numbers below this one, without that of 0.
fn two_thirds(alloc: Global, all: u32) -> Result<Vec<Place>, AllocError> {
    let mut places = Vec::new(alloc);
    for n in 1..all {
        if n % 3 != 0 {
            places.push(nth_place(n))?;
        }
    }
    Ok(places)
}

#[test]
fn has_few_blocks_where_nodes_have_gone(rt: HostRuntime) -> Result<(), Fail> {
    let mut tree = Tree::root(rt.alloc(), nth_place(0));
    grow(&rt, &mut tree, 0, 1, MANY)?;
    cut_at(rt.alloc(), &mut tree, &two_thirds(rt.alloc(), MANY)?, 64)?;
    let (blocks, nodes) = (tree.block_count(), tree.len());
    assert_equal(&rt, nodes, 2_000, "a third of the nodes");
    assert_holds(
        &rt,
        blocks.unwrap_or(usize::MAX) < 2 * (nodes / PAIR) + 4,
        "too many blocks",
    );
    Ok(())
}
