//! Words and pieces that can be worked, and others that break one rule each.

use fpage::{Access, Rights};
use pieces::{Link, Move, Pair, Piece, Store, Strip, Touch, WordAccess, can_be_worked};
use space::{Node, Place, Slice};
use std::alloc::Global;
use std::process::Abort;
use std::test::Fail;

/// A page with all rights.
const HELD: u64 = 0x1_0000_0507;

/// What a piece is of.
#[derive(Clone, Copy, Debug)]
enum Part {
    /// A node with the index of its word, and a fold word.
    Strip(usize, Option<usize>),
    /// A store: the index that is read, and the one that is put.
    Link(usize, usize),
    /// A pair: the index that is taken, and the one that is put.
    Move(usize, usize),
    /// A read of the page at an index.
    Touch(usize),
    /// A link of no stores.
    Nothing,
}

/// The piece of a part.
fn piece_of(alloc: Global, part: Part) -> Result<Piece, Fail> {
    match part {
        Part::Strip(index, fold) => strip_of(alloc, index, fold),
        Part::Link(read, put) => {
            let store = Store {
                read,
                put,
                rights: Rights::none(),
            };
            let stores = vec![in alloc; store]?;
            Ok(Piece::Link(Link::new(stores)))
        }
        Part::Move(taken, put) => {
            if taken == put {
                return Err(Fail::new("a page moves to where it is"));
            }
            let pairs = vec![in alloc; Pair { taken, put }]?;
            Ok(Piece::Move(Move::new(pairs)))
        }
        Part::Touch(index) => {
            let access = WordAccess {
                index,
                access: Access::Read,
            };
            let list = vec![in alloc; access]?;
            Ok(Piece::Touch(Touch::new(list)))
        }
        Part::Nothing => Ok(Piece::Link(Link::new(Vec::new(alloc)))),
    }
}

/// The strip of one node, with the index of its word and of the fold word.
fn strip_of(alloc: Global, index: usize, fold: Option<usize>) -> Result<Piece, Fail> {
    if fold == Some(index) {
        return Err(Fail::new("a fold word is that of the node"));
    }
    let node = Node {
        place: Place { space: 0, page: 0 },
        depth: 0,
    };
    let slice = Slice {
        nodes: vec![in alloc; node]?,
    };
    let indexes = vec![in alloc; index]?;
    Ok(Piece::Strip(Strip::of_part(slice, indexes, fold, Rights::none(), false)))
}

/// Whether two pieces can be worked beside one another on some words.
fn both_can(alloc: Global, words: &[u64], first: Part, second: Part) -> Result<bool, Fail> {
    let mut pieces = Vec::with_capacity(alloc, 2)?;
    pieces.push(piece_of(alloc, first)?)?;
    pieces.push(piece_of(alloc, second)?)?;
    let can = can_be_worked(alloc, words, &pieces)?;
    Ok(can)
}

/// It is told of each two pieces whether they can be worked beside one another on three words, of which the second is of no
/// held page.
fn are_told(rt: &impl Abort, alloc: Global, table: &[(Part, Part, bool)]) -> Result<(), Fail> {
    for (first, second, can) in table {
        let found = both_can(alloc, &[HELD, 0, HELD], *first, *second)?;
        assert_eq!(rt; found, *can, "{first:?} beside {second:?}");
    }
    Ok(())
}

/// It is told of a word, first and last of three, whether pieces can be worked on them.
fn is_told(rt: &impl Abort, alloc: Global, word: u64, can: bool) -> Result<(), Fail> {
    for words in [[word, HELD, 0], [HELD, 0, word]] {
        let found = both_can(alloc, &words, Part::Touch(0), Part::Touch(1))?;
        assert_eq!(rt; found, can, "{word}");
    }
    Ok(())
}

#[test]
fn words_are_there_and_stand_for_entries(rt: HostRuntime) -> Result<(), Fail> {
    let alloc = rt.alloc();
    for (word, can) in [
        (0, true),
        (HELD, true),
        (0x1_0000_0000, true),
        (0x1_ffff_ff3f, true),
        (0x507, false),
        (1, false),
        (0x1_0000_0547, false),
        (0x1_0000_0587, false),
        (0x2_0000_0507, false),
        (0x3_0000_0507, false),
        (0x8000_0001_0000_0507, false),
        (u64::MAX, false),
    ] {
        is_told(&rt, alloc, word, can)?;
    }
    assert!(rt; !can_be_worked(alloc, &[], &[])?);
    assert!(rt; can_be_worked(alloc, &[0], &[])?);
    Ok(())
}

#[test]
fn named_words_are_there(rt: HostRuntime) -> Result<(), Fail> {
    let table = [
        (Part::Strip(2, None), Part::Link(0, 1), true),
        (Part::Strip(3, None), Part::Nothing, false),
        (Part::Nothing, Part::Strip(2, Some(3)), false),
        (Part::Link(0, 3), Part::Nothing, false),
        (Part::Link(3, 0), Part::Nothing, false),
        (Part::Strip(0, None), Part::Move(2, 3), false),
        (Part::Move(3, 1), Part::Nothing, false),
        (Part::Touch(2), Part::Touch(0), true),
        (Part::Touch(2), Part::Touch(3), false),
        (Part::Touch(usize::MAX), Part::Touch(0), false),
    ];
    are_told(&rt, rt.alloc(), &table)
}

#[test]
fn pages_are_held_where_one_is_needed(rt: HostRuntime) -> Result<(), Fail> {
    let table = [
        (Part::Strip(1, None), Part::Link(0, 2), true),
        (Part::Strip(2, Some(0)), Part::Nothing, true),
        (Part::Strip(2, Some(1)), Part::Nothing, false),
        (Part::Nothing, Part::Link(1, 2), false),
        (Part::Move(0, 1), Part::Nothing, true),
        (Part::Nothing, Part::Move(1, 2), false),
        (Part::Touch(1), Part::Touch(1), true),
    ];
    are_told(&rt, rt.alloc(), &table)
}

#[test]
fn each_word_changes_under_one_step(rt: HostRuntime) -> Result<(), Fail> {
    let table = [
        (Part::Strip(1, None), Part::Strip(2, None), true),
        (Part::Strip(2, None), Part::Strip(2, None), false),
        (Part::Strip(2, None), Part::Link(0, 2), false),
        (Part::Strip(0, None), Part::Move(0, 1), false),
        (Part::Link(0, 1), Part::Link(2, 1), false),
        (Part::Link(0, 1), Part::Move(2, 1), false),
        (Part::Move(0, 1), Part::Link(2, 0), false),
        (Part::Move(0, 1), Part::Move(2, 1), false),
        (Part::Link(0, 1), Part::Link(0, 2), true),
        (Part::Link(2, 1), Part::Link(0, 2), true),
        (Part::Link(0, 0), Part::Strip(1, None), true),
    ];
    are_told(&rt, rt.alloc(), &table)
}

#[test]
fn no_fold_word_changes(rt: HostRuntime) -> Result<(), Fail> {
    let table = [
        (Part::Strip(1, Some(0)), Part::Strip(2, Some(0)), true),
        (Part::Strip(1, Some(0)), Part::Link(0, 2), true),
        (Part::Strip(1, Some(2)), Part::Strip(2, Some(0)), false),
        (Part::Strip(2, Some(0)), Part::Strip(0, None), false),
        (Part::Strip(2, Some(0)), Part::Link(2, 0), false),
        (Part::Link(2, 0), Part::Strip(2, Some(0)), false),
        (Part::Strip(2, Some(0)), Part::Move(0, 1), false),
    ];
    are_told(&rt, rt.alloc(), &table)
}

#[test]
fn touches_are_beside_touches_alone(rt: HostRuntime) -> Result<(), Fail> {
    let table = [
        (Part::Touch(0), Part::Touch(2), true),
        (Part::Touch(0), Part::Strip(2, None), false),
        (Part::Strip(2, None), Part::Touch(0), false),
        (Part::Touch(0), Part::Link(0, 1), false),
        (Part::Move(0, 1), Part::Touch(2), false),
        (Part::Touch(0), Part::Nothing, false),
        (Part::Nothing, Part::Nothing, true),
    ];
    are_told(&rt, rt.alloc(), &table)
}
