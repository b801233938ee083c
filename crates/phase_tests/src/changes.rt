//! Trees that workers change side by side.

use crate::assertions::assert_equal;
use crate::by_workers::wait_for;
use crew::{Alone, Changed, Crew, NoGate, Workers};
use maptree::Tree;
use space::{NoMemory, Place};
use std::alloc::{AllocError, Global};
use std::process::Abort;
use std::sync::atomic::{AtomicU64, Ordering};
use std::test::Fail;

/// Page `number` of space 0.
fn root(number: usize) -> Place {
    let page = u32::try_from(number).unwrap_or(u32::MAX);
    Place { space: 0, page }
}

/// So many trees, each of one root: the pages of space 0, in order.
fn roots(alloc: Global, count: usize) -> Result<Vec<Tree>, AllocError> {
    let mut trees = Vec::with_capacity(alloc, count)?;
    for number in 0..count {
        trees
            .push(Tree::root(alloc, root(number)))
            .map_err(AllocError::from)?;
    }
    Ok(trees)
}

/// Workers give so many parts of five trees, which are cut at these, each tree with its number.
fn gives_each(
    rt: &impl Abort,
    alloc: Global,
    workers: &impl Workers,
    cuts: &[usize],
    parts: u64,
) -> Result<(), NoMemory> {
    let given = AtomicU64::new(0);
    let found = AtomicU64::new(0);
    let change = |start: usize, part: &mut [Tree]| -> Changed {
        given.fetch_add(1, Ordering::SeqCst);
        for (i, tree) in part.iter().enumerate() {
            if tree.find(root(start.wrapping_add(i))).is_some() {
                found.fetch_add(1, Ordering::SeqCst);
            }
        }
        Ok(())
    };
    let mut trees = roots(alloc, 5)?;
    workers.change(&mut trees, cuts, &change)?;
    assert_equal(rt, found.load(Ordering::SeqCst), 5, "trees found");
    assert_equal(rt, given.load(Ordering::SeqCst), parts, "parts");
    Ok(())
}

#[test]
fn each_tree_is_in_one_part_which_is_told_where_it_begins(rt: HostRuntime) -> Result<(), Fail> {
    let alloc = rt.alloc();
    let crew = Crew::new(&rt, 4, 1, &NoGate);
    let cuts = [1, 2, 4];
    for count in 0..4 {
        let (first, _) = cuts.split_at(count);
        gives_each(&rt, alloc, &crew, first, count as u64 + 1)?;
        gives_each(&rt, alloc, &Alone, first, 1)?;
    }
    Ok(())
}

/// A part that would end before it begins, or lies behind the list, is empty.
#[test]
fn cuts_in_any_order_leave_no_tree_out(rt: HostRuntime) -> Result<(), Fail> {
    let alloc = rt.alloc();
    let crew = Crew::new(&rt, 4, 1, &NoGate);
    gives_each(&rt, alloc, &crew, &[0, 5], 3)?;
    gives_each(&rt, alloc, &crew, &[4, 2], 3)?;
    gives_each(&rt, alloc, &crew, &[3, 3, 3], 4)?;
    gives_each(&rt, alloc, &crew, &[9, usize::MAX], 3)?;
    Ok(())
}

/// The first part waits until the second has begun, which a thread of its own changes.
#[test]
fn two_parts_are_changed_side_by_side(rt: HostRuntime) -> Result<(), Fail> {
    let alloc = rt.alloc();
    let begun = AtomicU64::new(0);
    let met = AtomicU64::new(0);
    let change = |start: usize, _part: &mut [Tree]| -> Changed {
        if start == 0 {
            wait_for(&begun);
            met.fetch_add(begun.load(Ordering::SeqCst), Ordering::SeqCst);
        } else {
            begun.fetch_add(1, Ordering::SeqCst);
        }
        Ok(())
    };
    let crew = Crew::new(&rt, 2, 1, &NoGate);
    let mut trees = roots(alloc, 2)?;
    crew.change(&mut trees, &[1], &change)?;
    assert_equal(&rt, met.load(Ordering::SeqCst), 1, "parts begun");
    Ok(())
}

#[test]
fn a_part_that_is_refused_memory_refuses_the_change(rt: HostRuntime) -> Result<(), Fail> {
    let alloc = rt.alloc();
    let crew = Crew::new(&rt, 3, 1, &NoGate);
    for refused in 0..3 {
        let change = |start: usize, _part: &mut [Tree]| -> Changed {
            if start == refused {
                return Err(NoMemory);
            }
            Ok(())
        };
        let mut trees = roots(alloc, 3)?;
        let changed = crew.change(&mut trees, &[1, 2], &change);
        assert_equal(&rt, changed.is_err(), true, "the refusal");
    }
    Ok(())
}
