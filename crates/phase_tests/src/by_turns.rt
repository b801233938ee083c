//! Phases worked turn by turn, and closed in the middle.

ghost use Rattle.std.specs.Prelude.{◌≡◌, ◌⊎◌, ◌<◌, ◌∷◌, [], Some, length, IfOk, IfSome};
ghost use Rattle.std.specs.List.{All};
ghost use Rattle.pieces.specs.Phases.{CanBeWorked};

use crate::assertions::assert_equal;
use fpage::{Access, Rights};
use pieces::{Done, Link, Move, Pair, Piece, Store, Strip, Touch, WordAccess};
use space::{NoMemory, Node, Place, Slice};
use std::alloc::{AllocError, Global};
use std::process::Abort;
use std::test::Fail;
use turns::{NotAll, Open, Progress, Turn, Unended, Watcher};

/// The right to read.
const R: Rights = Rights {
    read: true,
    write: false,
    execute: false,
};

/// The right to write.
const W: Rights = Rights {
    read: false,
    write: true,
    execute: false,
};

/// The right to execute.
const X: Rights = Rights {
    read: false,
    write: false,
    execute: true,
};

/// Two strips of one node each, with a common fold word.
pub(crate) fn two_strips(alloc: Global) -> Result<(Vec<u64>, Vec<Piece>), NoMemory>
    ensures can { IfOk result (λ r. CanBeWorked r.0.items r.1.items) }
    ensures words { IfOk result (λ r. length r.0.items ≡ 3) }
    ensures some { IfOk result (λ r. 0 < length r.1.items) }
{
    let words = Vec::from_slice(alloc, &[0x1_0000_0507, 0x1_0000_0527, 0x1_0000_0537])?;
    let first = strip_of(alloc, 1, 1, Rights::none())?;
    let second = strip_of(alloc, 2, 2, W)?;
    let pieces = two_pieces(alloc, Piece::Strip(first), Piece::Strip(second))?;
    Ok((words, pieces))
}

/// A list of two pieces.
pub(crate) fn two_pieces(
    alloc: Global,
    first: Piece,
    second: Piece,
) -> Result<Vec<Piece>, AllocError>
    ensures { IfOk result (λ pieces. pieces.items ≡ first ∷ second ∷ []) }
{
    let mut pieces = Vec::with_capacity(alloc, 2)?;
    pieces.push(first)?;
    pieces.push(second)?;
    Ok(pieces)
}

/// A strip of the node of a space, whose word stands at an index. Its status goes to word 0.
pub(crate) fn strip_of(
    alloc: Global,
    space: u16,
    index: usize,
    mask: Rights,
) -> Result<Strip, NoMemory>
    requires { index ≡ 1 ⊎ index ≡ 2 }
    ensures { IfOk result (λ s. s ≡ record { nodes = record { place = record { space = space; page = 0 }; depth = 1 } ∷ []; masks = mask ∷ []; indexes = index ∷ []; fold = Some 0 }) }
{
    let node = Node {
        place: Place { space, page: 0 },
        depth: 1,
    };
    let slice = Slice {
        nodes: Vec::from_slice(alloc, &[node])?,
    };
    let masks = Vec::from_slice(alloc, &[mask])?;
    let indexes = Vec::from_slice(alloc, &[index])?;
    let strip = Strip::new(alloc, slice, masks, indexes, Some(0))?;
    Ok(strip)
}

/// One touch of a page with a read, then an execute that faults.
fn one_touch(alloc: Global) -> Result<(Vec<u64>, Vec<Piece>), NoMemory>
    ensures { IfOk result (λ r. CanBeWorked r.0.items r.1.items) }
{
    let words = Vec::from_slice(alloc, &[0x1_0000_0506])?;
    let reads = WordAccess {
        index: 0,
        access: Access::Read,
    };
    let executes = WordAccess {
        index: 0,
        access: Access::Execute,
    };
    let touch = Touch::new(Vec::from_slice(alloc, &[reads, executes])?);
    let pieces = one_piece(alloc, Piece::Touch(touch))?;
    Ok((words, pieces))
}

/// One page that moves.
fn one_move(alloc: Global) -> Result<(Vec<u64>, Vec<Piece>), NoMemory>
    ensures { IfOk result (λ r. CanBeWorked r.0.items r.1.items) }
{
    let words = Vec::from_slice(alloc, &[0x1_0000_0504, 0])?;
    let pairs = Move::new(Vec::from_slice(alloc, &[Pair { taken: 0, put: 1 }])?);
    let pieces = one_piece(alloc, Piece::Move(pairs))?;
    Ok((words, pieces))
}

/// One store that widens what is held.
fn one_link(alloc: Global) -> Result<(Vec<u64>, Vec<Piece>), NoMemory>
    ensures { IfOk result (λ r. CanBeWorked r.0.items r.1.items) }
{
    let words = Vec::from_slice(alloc, &[0x1_0000_0507, 0x1_0000_0526])?;
    let store = Store {
        read: 0,
        put: 1,
        rights: X,
    };
    let link = Link::new(Vec::from_slice(alloc, &[store])?);
    let pieces = one_piece(alloc, Piece::Link(link))?;
    Ok((words, pieces))
}

/// A list of one piece.
pub(crate) fn one_piece(alloc: Global, piece: Piece) -> Result<Vec<Piece>, AllocError>
    ensures { IfOk result (λ pieces. pieces.items ≡ piece ∷ []) }
{
    let mut pieces = Vec::with_capacity(alloc, 1)?;
    pieces.push(piece)?;
    Ok(pieces)
}

/// A turn after so many steps more.
fn stepped(phase: &Open, mut turn: Turn, steps: usize) -> Turn
    requires { turn.shared ≡ phase.now }
    ensures { result.shared ≡ phase.now }
{
    for _ in 0..steps {
        turn.step(phase);
    }
    turn
}

/// Turns after the first made so many steps, and each other as many as are named for it.
fn step_each(
    alloc: Global,
    phase: &Open,
    turns: Vec<Turn>,
    first: usize,
    others: usize,
) -> Result<Vec<Turn>, AllocError>
    requires { All (λ t. t.shared ≡ phase.now) turns.items }
    ensures { IfOk result (λ after. All (λ t. t.shared ≡ phase.now) after.items) }
{
    let mut after = Vec::with_capacity(alloc, turns.len())?;
    let mut steps = first;
    for turn in turns {
        after.push(stepped(phase, turn, steps))?;
        steps = others;
    }
    Ok(after)
}

/// No pieces, beside one word.
fn no_pieces(alloc: Global) -> Result<(Vec<u64>, Vec<Piece>), NoMemory>
    ensures { IfOk result (λ r. CanBeWorked r.0.items r.1.items) }
{
    let words = Vec::from_slice(alloc, &[0x1_0000_0507])?;
    Ok((words, Vec::new(alloc)))
}

/// The phases that the tests close.
#[derive(Clone, Copy)]
enum Phase {
    TwoStrips,
    OneTouch,
    OneMove,
    OneLink,
    NoPieces,
}

impl Phase {
    /// The words and the pieces of the phase.
    fn begin(self, alloc: Global) -> Result<(Vec<u64>, Vec<Piece>), NoMemory>
        ensures { IfOk result (λ r. CanBeWorked r.0.items r.1.items) }
    {
        match self {
            Phase::TwoStrips => two_strips(alloc),
            Phase::OneTouch => one_touch(alloc),
            Phase::OneMove => one_move(alloc),
            Phase::OneLink => one_link(alloc),
            Phase::NoPieces => no_pieces(alloc),
        }
    }
}

/// What is left of a phase whose first turn made so many steps, and each other as many as are named for it.
fn closed(
    alloc: Global,
    phase: Phase,
    first: usize,
    others: usize,
) -> Result<(Vec<u64>, Vec<Done>, Vec<Unended>), NoMemory> {
    let (words, pieces) = phase.begin(alloc)?;
    let (phase, turns) = Open::open(alloc, words, pieces)?;
    let turns = step_each(alloc, &phase, turns, first, others)?;
    match phase.close(turns, Vec::new(alloc)) {
        Ok(end) => Ok(end),
        Err(_) => Err(NoMemory),
    }
}

/// The words that are left of it are these.
fn leaves(
    rt: &impl Abort,
    alloc: Global,
    phase: Phase,
    first: usize,
    others: usize,
    after: &[u64],
) -> Result<(), NoMemory> {
    let (end, _, _) = closed(alloc, phase, first, others)?;
    assert_equal(
        rt,
        (first, others, end.as_slice()),
        (first, others, after),
        "steps and words",
    );
    Ok(())
}

#[test]
fn two_strips_closed_at_each_pair_of_counts(rt: HostRuntime) -> Result<(), Fail> {
    for (first, second, after) in [
        (0, 0, [0x1_0000_0507, 0x1_0000_0527, 0x1_0000_0537]),
        (0, 1, [0x1_0000_0507, 0x1_0000_0527, 0x1_0000_0505]),
        (0, 2, [0x1_0000_0537, 0x1_0000_0527, 0x1_0000_0505]),
        (1, 0, [0x1_0000_0507, 0x1_0000_0507, 0x1_0000_0537]),
        (1, 1, [0x1_0000_0507, 0x1_0000_0507, 0x1_0000_0505]),
        (1, 2, [0x1_0000_0537, 0x1_0000_0507, 0x1_0000_0505]),
        (2, 0, [0x1_0000_0527, 0x1_0000_0507, 0x1_0000_0537]),
        (2, 1, [0x1_0000_0527, 0x1_0000_0507, 0x1_0000_0505]),
        (2, 2, [0x1_0000_0537, 0x1_0000_0507, 0x1_0000_0505]),
    ] {
        leaves(&rt, rt.alloc(), Phase::TwoStrips, first, second, &after)?;
    }
    Ok(())
}

/// Two ended turns hand in their numbers and the status that they found.
fn both_hand_in(rt: &impl Abort, dones: &[Done]) {
    let status = [R, Rights { read: true, ..W }];
    for (k, done) in dones.iter().enumerate() {
        assert_equal(rt, done.number(), k, "a number");
        assert_equal(rt, Some(&done.status()), status.get(k), "a status");
    }
}

#[test]
fn turns_hand_in_what_they_found_or_how_far_they_came(rt: HostRuntime) -> Result<(), Fail> {
    let (_, dones, unended) = closed(rt.alloc(), Phase::TwoStrips, 2, 7)?;
    assert_equal(&rt, (dones.len(), unended.len()), (2, 0), "all steps");
    both_hand_in(&rt, &dones);
    let (_, dones, unended) = closed(rt.alloc(), Phase::TwoStrips, 0, 1)?;
    assert_equal(&rt, dones.len(), 0, "one step");
    let first = Unended { piece: 0, steps: 0 };
    let second = Unended { piece: 1, steps: 1 };
    assert_equal(
        &rt,
        unended.as_slice(),
        [first, second].as_slice(),
        "one step",
    );
    Ok(())
}

/// How often a piece is among those that have ended, and how often among those that have steps left.
fn times_in(dones: &[Done], unended: &[Unended], piece: usize) -> (usize, usize) {
    let ended = dones.iter().filter(|done| done.number() == piece).count();
    let left = unended.iter().filter(|turn| turn.piece == piece).count();
    (ended, left)
}

#[test]
fn each_piece_is_in_one_of_two_lists_once(rt: HostRuntime) -> Result<(), Fail> {
    for (first, second, wanted) in [
        (0, 0, [(0, 1), (0, 1)]),
        (0, 1, [(0, 1), (0, 1)]),
        (0, 2, [(0, 1), (1, 0)]),
        (1, 0, [(0, 1), (0, 1)]),
        (1, 1, [(0, 1), (0, 1)]),
        (1, 2, [(0, 1), (1, 0)]),
        (2, 0, [(1, 0), (0, 1)]),
        (2, 1, [(1, 0), (0, 1)]),
        (2, 2, [(1, 0), (1, 0)]),
    ] {
        let (_, dones, unended) = closed(rt.alloc(), Phase::TwoStrips, first, second)?;
        let found = [times_in(&dones, &unended, 0), times_in(&dones, &unended, 1)];
        assert_equal(
            &rt,
            (first, second, found),
            (first, second, wanted),
            "steps, and the lists",
        );
        assert_equal(
            &rt,
            dones.len().wrapping_add(unended.len()),
            2,
            "both lists together",
        );
    }
    Ok(())
}

/// What is left of the touch after so many steps: its page has this word, and its answers are there after the third step.
fn is_marked(rt: &impl Abort, words: &[u64], dones: &[Done], steps: usize, after: u64) {
    assert_equal(rt, words, [after].as_slice(), steps);
    for done in dones {
        assert_equal(rt, done.answers(), [true, false].as_slice(), steps);
    }
    assert_equal(rt, dones.is_empty(), steps < 3, steps);
}

#[test]
fn an_access_is_seen_and_then_marked(rt: HostRuntime) -> Result<(), Fail> {
    for (steps, after) in [
        (0, 0x1_0000_0506),
        (1, 0x1_0000_0506),
        (2, 0x1_0000_0526),
        (3, 0x1_0000_0526),
    ] {
        let (words, dones, _) = closed(rt.alloc(), Phase::OneTouch, steps, 0)?;
        is_marked(&rt, &words, &dones, steps, after);
    }
    Ok(())
}

#[test]
fn a_page_is_taken_and_then_put(rt: HostRuntime) -> Result<(), Fail> {
    for (phase, steps, after) in [
        (Phase::OneMove, 1, [0, 0]),
        (Phase::OneMove, 2, [0, 0x1_0000_0504]),
        (Phase::OneMove, 9, [0, 0x1_0000_0504]),
        (Phase::OneLink, 1, [0x1_0000_0507, 0x1_0000_0527]),
    ] {
        leaves(&rt, rt.alloc(), phase, steps, 0, &after)?;
    }
    Ok(())
}

/// Turns without the last one, and that one.
pub(crate) fn without_last(phase: &Open, mut turns: Vec<Turn>) -> (Vec<Turn>, Option<Turn>)
    requires { All (λ t. t.shared ≡ phase.now) turns.items }
    ensures others { All (λ t. t.shared ≡ phase.now) result.0.items }
    ensures last { IfSome result.1 (λ t. t.shared ≡ phase.now) }
{
    let _ = phase;
    let last = turns.pop();
    (turns, last)
}

/// These turns, and the last one.
pub(crate) fn with_last(
    phase: &Open,
    mut turns: Vec<Turn>,
    last: Option<Turn>,
) -> Result<Vec<Turn>, AllocError>
    requires others { All (λ t. t.shared ≡ phase.now) turns.items }
    requires last { IfSome last (λ t. t.shared ≡ phase.now) }
    ensures { IfOk result (λ after. All (λ t. t.shared ≡ phase.now) after.items) }
{
    let _ = phase;
    if let Some(turn) = last {
        turns.push(turn)?;
    }
    Ok(turns)
}

/// A phase of two turns is closed once both are there, and not without one.
fn closes_with_both(
    rt: &impl Abort,
    phase: Open,
    turns: Vec<Turn>,
    watchers: Vec<Watcher>,
) -> Result<(), AllocError>
    requires turns { All (λ t. t.shared ≡ phase) turns.items }
    requires watchers { All (λ w. w.shared ≡ phase) watchers.items }
{
    let (turns, last) = without_last(&phase, turns);
    let Err(
        NotAll {
            shared,
            turns,
            watchers,
        },
    ) = phase.close(turns, watchers)
    else {
        panic!(rt; "a turn was wanting")
    };
    assert_equal(
        rt,
        (turns.len(), last.is_some()),
        (1, true),
        "turns, and the last",
    );
    let turns = with_last(&shared, turns, last)?;
    let Ok((end, _, unended)) = shared.close(turns, watchers) else {
        panic!(rt; "all turns were there")
    };
    assert_equal(
        rt,
        (end.len(), unended.len()),
        (3, 2),
        "words and turns that have not ended",
    );
    Ok(())
}

#[test]
fn a_phase_is_closed_once_all_turns_are_there(rt: HostRuntime) -> Result<(), Fail> {
    let (words, pieces) = two_strips(rt.alloc())?;
    let (phase, turns, watchers) = Open::open_watched(rt.alloc(), words, pieces, 1)?;
    closes_with_both(&rt, phase, turns, watchers)?;
    let (end, dones, unended) = closed(rt.alloc(), Phase::NoPieces, 0, 0)?;
    assert_equal(&rt, end.as_slice(), [0x1_0000_0507].as_slice(), "no pieces");
    assert_equal(&rt, (dones.len(), unended.len()), (0, 0), "no pieces");
    Ok(())
}

/// A turn of a move of one page tells that it ends with its second step, and makes no more.
fn ends_with_its_second_step(rt: &impl Abort, phase: &Open, mut turn: Turn)
    requires { turn.shared ≡ phase.now }
{
    assert_equal(rt, (turn.piece(), turn.steps()), (0, 0), "at first");
    for wanted in [Progress::More, Progress::Ended, Progress::Ended] {
        assert_equal(rt, turn.step(phase), wanted, "a step");
    }
    assert_equal(rt, turn.steps(), 2, "at last");
}

#[test]
fn a_turn_says_when_it_has_ended(rt: HostRuntime) -> Result<(), Fail> {
    let (words, pieces) = one_move(rt.alloc())?;
    let (phase, turns) = Open::open(rt.alloc(), words, pieces)?;
    let (_, last) = without_last(&phase, turns);
    if let Some(turn) = last {
        ends_with_its_second_step(&rt, &phase, turn);
    }
    Ok(())
}

/// Turns without the last two, and those.
pub(crate) fn last_two(
    phase: &Open,
    turns: Vec<Turn>,
) -> Result<(Vec<Turn>, (Turn, Turn)), NoMemory>
    requires { All (λ t. t.shared ≡ phase.now) turns.items }
    ensures others { IfOk result (λ r. All (λ t. t.shared ≡ phase.now) r.0.items) }
    ensures first { IfOk result (λ r. r.1.0.shared ≡ phase.now) }
    ensures second { IfOk result (λ r. r.1.1.shared ≡ phase.now) }
{
    let (turns, second) = without_last(phase, turns);
    let (turns, first) = without_last(phase, turns);
    match (first, second) {
        (Some(first), Some(second)) => Ok((turns, (first, second))),
        _ => Err(NoMemory),
    }
}

/// What is left of a phase of two pieces that is closed with its second turn before the first.
pub(crate) fn closed_with(
    alloc: Global,
    phase: Open,
    first: Turn,
    second: Turn,
) -> Result<(Vec<u64>, Vec<Done>, Vec<Unended>), NoMemory>
    requires first { first.shared ≡ phase }
    requires second { second.shared ≡ phase }
{
    let turns = with_last(&phase, Vec::new(alloc), Some(second))?;
    let turns = with_last(&phase, turns, Some(first))?;
    match phase.close(turns, Vec::new(alloc)) {
        Ok(end) => Ok(end),
        Err(_) => Err(NoMemory),
    }
}

/// What is left of two strips of which the second made a step before and a step after two of the first.
fn stepped_in_turn(alloc: Global) -> Result<(Vec<u64>, Vec<Done>, Vec<Unended>), NoMemory> {
    let (words, pieces) = two_strips(alloc)?;
    let (phase, turns) = Open::open(alloc, words, pieces)?;
    let (_, (first, second)) = last_two(&phase, turns)?;
    let second = stepped(&phase, second, 1);
    let first = stepped(&phase, first, 2);
    let second = stepped(&phase, second, 1);
    closed_with(alloc, phase, first, second)
}

#[test]
fn turns_step_in_any_order(rt: HostRuntime) -> Result<(), Fail> {
    let (end, dones, _) = stepped_in_turn(rt.alloc())?;
    assert_equal(
        &rt,
        end.as_slice(),
        [0x1_0000_0537, 0x1_0000_0507, 0x1_0000_0505].as_slice(),
        "the words",
    );
    let mut numbers = [0usize; 2];
    for (k, done) in dones.iter().enumerate() {
        if k < 2 {
            numbers[k] = done.number();
        }
    }
    assert_equal(&rt, numbers, [1, 0], "the numbers");
    Ok(())
}
