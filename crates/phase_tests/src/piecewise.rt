//! Pieces, what they hand in, and what is gathered of it, on known cases.

ghost use Rattle.std.specs.Prelude.{◌≡◌, ◌<◌, IfOk};

use crate::assertions::assert_equal;
use fpage::{Access, Rights};
use pieces::{
    Done, GatherFault, Pair, Piece, Store, Strip, Touch, WordAccess, are_distinct, gather, links,
    moves, touches,
};
use space::{NoMemory, Node, Place, Slice};
use std::alloc::{AllocError, Global};
use std::process::Abort;
use std::snapshot::Snapshot;
use std::test::Fail;

/// The right to write.
const W: Rights = Rights {
    read: false,
    write: true,
    execute: false,
};

/// A page with all rights.
const HELD: u64 = 0x1_0000_0507;

fn node(space: u16, page: u32, depth: usize) -> Node {
    Node {
        place: Place { space, page },
        depth,
    }
}

#[test]
fn masks_spare_the_first_node_of_a_run(rt: HostRuntime) -> Result<(), Fail> {
    let alloc = rt.alloc();
    for (spared, first) in [(true, Rights::none()), (false, W)] {
        let slice = Slice {
            nodes: vec![in alloc; node(0, 5, 0), node(1, 0, 1)]?,
        };
        let indexes = vec![in alloc; 4, 7]?;
        let strip = Strip::of_part(slice, indexes, Some(5), W, spared);
        assert_equal(
            &rt,
            (strip.len(), strip.fold()),
            (2, Some(5)),
            "nodes, fold",
        );
        assert_equal(&rt, (strip.mask(0), strip.mask(1)), (first, W), "masks");
        assert_equal(&rt, strip.indexes(), [4usize, 7].as_slice(), "indexes");
        assert_equal(&rt, strip.node(1), node(1, 0, 1), "a node");
    }
    Ok(())
}

/// The touches have so many accesses, and there are no more than those that have any.
fn have_lengths(rt: &impl Abort, pieces: &[Piece], lengths: &[usize]) {
    let mut at = 0;
    for piece in pieces {
        if let Piece::Touch(part) = piece {
            assert_equal(rt, lengths.get(at).copied(), Some(part.len()), at);
            at = at.wrapping_add(1);
        }
    }
    assert_equal(rt, at, pieces.len(), "touches");
    assert_equal(rt, lengths.get(at).copied().unwrap_or(0), 0, "more touches");
}

#[test]
fn cuts_lists_in_their_order(rt: HostRuntime) -> Result<(), Fail> {
    let alloc = rt.alloc();
    for (most, lengths) in [
        (1, [1, 1, 1]),
        (2, [2, 1, 0]),
        (3, [3, 0, 0]),
        (9, [3, 0, 0]),
    ] {
        let list = vec![in alloc; touch(0), touch(1), touch(0)]?;
        let pieces = touches(alloc, list, most)?;
        have_lengths(&rt, &pieces, &lengths);
    }
    let none = touches(alloc, Vec::new(alloc), 1)?;
    assert_equal(&rt, none.len(), 0, "no accesses");
    Ok(())
}

/// A read of a page.
fn touch(index: usize) -> WordAccess
    ensures { result ≡ record { index = index; access = Access.Read } }
{
    WordAccess {
        index,
        access: Access::Read,
    }
}

/// What a read of one of two pages found out, the first of which is held, as the result of this number.
fn answered(alloc: Global, number: usize, index: usize) -> Result<Done, AllocError>
    requires { index < 2 }
    ensures { IfOk result (λ d. d.number ≡ number) }
{
    let words = vec![in alloc; HELD, 0]?;
    let piece = Piece::Touch(Touch::new(vec![in alloc; touch(index)]?));
    let answers = vec![in alloc; index == 0]?;
    let kept = Slice {
        nodes: Vec::new(alloc),
    };
    let of = Snapshot::of(&piece);
    let words = Snapshot::of(&words);
    Ok(Done::new(number, kept, Rights::none(), answers, of, words))
}

/// The results of these numbers, each of which answers whether the number is even.
fn results(alloc: Global, numbers: &[usize]) -> Result<Vec<Done>, NoMemory> {
    let mut dones = Vec::new(alloc);
    for number in numbers {
        let done = answered(alloc, *number, *number % 2)?;
        dones.push(done).map_err(AllocError::from)?;
    }
    Ok(dones)
}

#[test]
fn gathers_by_number(rt: HostRuntime) -> Result<(), Fail> {
    let given = results(rt.alloc(), &[2, 0, 1])?;
    match gather(rt.alloc(), given, 3) {
        Ok(gathered) => {
            assert_equal(&rt, gathered.slices.len(), 3, "slices");
            assert_equal(
                &rt,
                gathered.answers.as_slice(),
                [true, false, true].as_slice(),
                "answers",
            );
            assert_equal(&rt, gathered.status, Rights::none(), "status");
        }
        Err(error) => {
            assert_equal(&rt, error.fault, GatherFault::NoMemory, "a fault");
            assert_equal(&rt, error.given.len(), 3, "what was given");
            Err(NoMemory)?;
        }
    }
    Ok(())
}

/// The results have these numbers, in this order.
fn are_numbered(rt: &impl Abort, dones: &[Done], numbers: &[usize]) {
    assert_equal(rt, dones.len(), numbers.len(), "results");
    for (done, number) in dones.iter().zip(numbers) {
        assert_equal(rt, done.number(), *number, "a number");
    }
}

#[test]
fn tells_why_nothing_is_gathered(rt: HostRuntime) -> Result<(), Fail> {
    let alloc = rt.alloc();
    for (numbers, pieces, fault) in [
        ([0, 2], 2, GatherFault::Stranger),
        ([0, 0], 3, GatherFault::Twice),
        ([0, 1], 3, GatherFault::Missing),
        ([3, 3], 3, GatherFault::Stranger),
        ([2, 2], 4, GatherFault::Twice),
    ] {
        let given = results(alloc, &numbers)?;
        match gather(alloc, given, pieces) {
            Ok(_) => panic!(rt; "a fault was passed over"),
            Err(error) => {
                assert_equal(&rt, error.fault, fault, "a fault");
                are_numbered(&rt, &error.given, &numbers);
            }
        }
    }
    Ok(())
}

#[test]
fn tells_distinct_indexes(rt: HostRuntime) -> Result<(), Fail> {
    let alloc = rt.alloc();
    for (indexes, wanted) in [([7, 0, 3], true), ([7, 0, 7], false), ([3, 7, 7], false)] {
        let found = are_distinct(alloc, &indexes)?;
        assert_equal(&rt, (indexes, found), (indexes, wanted), "distinct");
    }
    assert_equal(&rt, are_distinct(alloc, &[])?, true, "none");
    Ok(())
}

#[test]
fn links_and_moves_in_pieces(rt: HostRuntime) -> Result<(), Fail> {
    let alloc = rt.alloc();
    let store = Store {
        read: 0,
        put: 1,
        rights: W,
    };
    let stores = links(alloc, vec![in alloc; store, Store { put: 2, ..store }]?, 1)?;
    assert_equal(&rt, stores.len(), 2, "links");
    if let Piece::Link(link) = &stores[1] {
        assert_equal(&rt, (link.len(), link.store(0).put), (1, 2), "a link");
    }
    let pairs = moves(alloc, vec![in alloc; Pair { taken: 4, put: 3 }]?, 1)?;
    assert_equal(&rt, pairs.len(), 1, "moves");
    if let Piece::Move(piece) = &pairs[0] {
        assert_equal(
            &rt,
            (piece.len(), piece.pair(0)),
            (1, Pair { taken: 4, put: 3 }),
            "a move",
        );
    }
    Ok(())
}
