//! Watchers beside turns.

ghost use Rattle.std.specs.Prelude.{◌≡◌, ◌∷◌, [], length, IfOk, IfSome};
ghost use Rattle.std.specs.List.{All};
ghost use Rattle.pieces.specs.Phases.{CanBeWorked};

use crate::assertions::assert_equal;
use crate::by_turns::{last_two, strip_of, two_pieces, two_strips, with_last, without_last};
use fpage::Rights;
use pieces::Piece;
use space::NoMemory;
use std::alloc::{AllocError, Global};
use std::process::Abort;
use std::test::Fail;
use std::thread::{self, Threads};
use turns::{NotAll, Open, Receipt, Turn, Watcher};

/// All rights.
const RWX: Rights = Rights {
    read: true,
    write: true,
    execute: true,
};

/// The rights to read and to execute.
const RX: Rights = Rights {
    read: true,
    write: false,
    execute: true,
};

/// The rights to read and to write.
const RW: Rights = Rights {
    read: true,
    write: true,
    execute: false,
};

/// The right to write.
const W: Rights = Rights {
    read: false,
    write: true,
    execute: false,
};

/// The only watcher of a phase.
fn only(rt: &impl Abort, phase: &Open, mut watchers: Vec<Watcher>) -> Watcher
    requires { All (λ w. w.shared ≡ phase.now) watchers.items }
    ensures { result.shared ≡ phase.now }
{
    let _ = phase;
    assert_equal(rt, watchers.len(), 1, "watchers");
    let Some(watcher) = watchers.pop() else {
        panic!(rt; "a watcher was given")
    };
    watcher
}

/// The receipt of a turn, after all its steps.
fn receipt_at_its_end(rt: &impl Abort, phase: &Open, turn: &mut Turn) -> Receipt
    requires { turn.old.shared ≡ phase.now }
    ensures turn { turn.new.shared ≡ phase.now }
    ensures receipt { result.shared ≡ phase.now }
{
    turn.step_to_end(phase);
    let Some(receipt) = turn.receipt(phase) else {
        panic!(rt; "the turn has ended")
    };
    assert_equal(rt, receipt.piece(), turn.piece(), "the piece of a receipt");
    receipt
}

/// A watcher sees two strips of words 1 and 2, of which the second takes a right: before any step, after the second
/// has ended, and later. The word that gains status stays as it was, frame and rights.
fn sees_the_second_strip(rt: &impl Abort, phase: &Open, second: &mut Turn, watcher: &mut Watcher)
    requires second { second.old.shared ≡ phase.now }
    requires watcher { watcher.old.shared ≡ phase.now }
    requires words { length phase.now.opening.words ≡ 3 }
    ensures second { second.new.shared ≡ phase.now }
    ensures watcher { watcher.new.shared ≡ phase.now }
{
    assert_equal(rt, phase.words(), 3, "words");
    assert_equal(
        rt,
        watcher.look(phase, 2),
        Some((5, RWX)),
        "word 2 at first",
    );
    assert_equal(
        rt,
        watcher.look(phase, 0),
        Some((5, RWX)),
        "word 0 at first",
    );
    let receipt = receipt_at_its_end(rt, phase, second);
    let found = watcher.look_after(phase, receipt, 2);
    assert_equal(rt, found, Some((5, RX)), "word 2 after the second turn");
    assert_equal(rt, watcher.look(phase, 2), Some((5, RX)), "word 2 later");
    assert_equal(rt, watcher.look(phase, 0), Some((5, RWX)), "word 0 later");
}

/// A turn of two steps gives a receipt when it has made both, and not before. Its watcher sees the word that gains
/// status as before.
fn gives_a_receipt_at_its_end(
    rt: &impl Abort,
    phase: &Open,
    first: &mut Turn,
    watcher: &mut Watcher,
)
    requires first { first.old.shared ≡ phase.now }
    requires watcher { watcher.old.shared ≡ phase.now }
    requires words { length phase.now.opening.words ≡ 3 }
{
    for (steps, ended) in [(0, false), (1, false), (2, true)] {
        assert_equal(rt, first.steps(), steps, "steps");
        assert_equal(rt, first.receipt(phase).is_some(), ended, steps);
        assert_equal(rt, watcher.look(phase, 0), Some((5, RWX)), steps);
        assert_equal(rt, watcher.look(phase, 2), Some((5, RX)), steps);
        first.step(phase);
    }
}

#[test]
fn a_watcher_sees_what_a_receipt_tells(rt: HostRuntime) -> Result<(), Fail> {
    let (words, pieces) = two_strips(rt.alloc())?;
    let (phase, turns, watchers) = Open::open_watched(rt.alloc(), words, pieces, 1)?;
    let (_, (mut first, mut second)) = last_two(&phase, turns)?;
    let mut watcher = only(&rt, &phase, watchers);
    sees_the_second_strip(&rt, &phase, &mut second, &mut watcher);
    gives_a_receipt_at_its_end(&rt, &phase, &mut first, &mut watcher);
    Ok(())
}

/// Two strips with a common fold word, between words that no step is about: of another page, and of none.
fn strips_beside_others(alloc: Global) -> Result<(Vec<u64>, Vec<Piece>), NoMemory>
    ensures can { IfOk result (λ r. CanBeWorked r.0.items r.1.items) }
    ensures words { IfOk result (λ r. length r.0.items ≡ 5) }
{
    let words = Vec::from_slice(
        alloc,
        &[
            0x1_0000_0507,
            0x1_0000_0527,
            0x1_0000_0537,
            0x1_0000_0936,
            0,
        ],
    )?;
    let first = strip_of(alloc, 1, 1, RWX)?;
    let second = strip_of(alloc, 2, 2, W)?;
    let pieces = two_pieces(alloc, Piece::Strip(first), Piece::Strip(second))?;
    Ok((words, pieces))
}

/// A watcher sees these entries.
fn sees(
    rt: &impl Abort,
    phase: &Open,
    watcher: &mut Watcher,
    entries: [Option<(u32, Rights)>; 5],
    when: usize,
)
    requires watcher { watcher.old.shared ≡ phase.now }
    requires words { length phase.now.opening.words ≡ 5 }
    ensures watcher { watcher.new.shared ≡ phase.now }
{
    for index in 0..5 {
        assert_equal(rt, watcher.look(phase, index), entries[index], when);
    }
}

#[test]
fn a_watcher_sees_each_word_of_a_phase(rt: HostRuntime) -> Result<(), Fail> {
    let (words, pieces) = strips_beside_others(rt.alloc())?;
    let (phase, turns, watchers) = Open::open_watched(rt.alloc(), words, pieces, 1)?;
    let (_, (mut first, mut second)) = last_two(&phase, turns)?;
    let mut watcher = only(&rt, &phase, watchers);
    let (all, other) = (Some((5, RWX)), Some((9, RW)));
    sees(&rt, &phase, &mut watcher, [all, all, all, other, None], 0);
    first.step(&phase);
    sees(&rt, &phase, &mut watcher, [all, None, all, other, None], 1);
    second.step(&phase);
    let narrowed = Some((5, RX));
    sees(
        &rt,
        &phase,
        &mut watcher,
        [all, None, narrowed, other, None],
        2,
    );
    Ok(())
}

/// Watchers without the last one, and that one.
fn without_last_watcher(phase: &Open, mut watchers: Vec<Watcher>) -> (Vec<Watcher>, Option<Watcher>)
    requires { All (λ w. w.shared ≡ phase.now) watchers.items }
    ensures others { All (λ w. w.shared ≡ phase.now) result.0.items }
    ensures last { IfSome result.1 (λ w. w.shared ≡ phase.now) }
{
    let _ = phase;
    let last = watchers.pop();
    (watchers, last)
}

/// These watchers, and the last one.
fn with_last_watcher(
    phase: &Open,
    mut watchers: Vec<Watcher>,
    last: Watcher,
) -> Result<Vec<Watcher>, AllocError>
    requires others { All (λ w. w.shared ≡ phase.now) watchers.items }
    requires last { last.shared ≡ phase.now }
    ensures { IfOk result (λ after. All (λ w. w.shared ≡ phase.now) after.items) }
{
    let _ = phase;
    watchers.push(last)?;
    Ok(watchers)
}

/// Two turns, of which the second has ended, and its receipt.
fn with_second_ended(
    rt: &impl Abort,
    phase: &Open,
    turns: Vec<Turn>,
) -> Result<(Vec<Turn>, Receipt), NoMemory>
    requires { All (λ t. t.shared ≡ phase.now) turns.items }
    ensures turns { IfOk result (λ r. All (λ t. t.shared ≡ phase.now) r.0.items) }
    ensures receipt { IfOk result (λ r. r.1.shared ≡ phase.now) }
{
    let (turns, (first, mut second)) = last_two(phase, turns)?;
    let receipt = receipt_at_its_end(rt, phase, &mut second);
    let turns = with_last(phase, turns, Some(first))?;
    let turns = with_last(phase, turns, Some(second))?;
    Ok((turns, receipt))
}

/// A watcher that was left behind still looks, with the receipt of a turn that ended long ago.
fn looks_with_an_old_receipt(rt: &impl Abort, phase: &Open, receipt: Receipt, watcher: &mut Watcher)
    requires receipt { receipt.shared ≡ phase.now }
    requires watcher { watcher.old.shared ≡ phase.now }
    requires words { length phase.now.opening.words ≡ 3 }
    ensures watcher { watcher.new.shared ≡ phase.now }
{
    let found = watcher.look_after(phase, receipt, 2);
    assert_equal(rt, found, Some((5, RX)), "word 2 by the receipt");
    assert_equal(rt, watcher.look(phase, 1), Some((5, RWX)), "word 1");
    assert_equal(rt, watcher.look(phase, 2), Some((5, RX)), "word 2 later");
}

/// A phase of two turns and two watchers is closed once both watchers are there, and not without one.
fn closes_with_both_watchers(
    rt: &impl Abort,
    phase: Open,
    turns: Vec<Turn>,
    watchers: Vec<Watcher>,
    receipt: Receipt,
) -> Result<(), AllocError>
    requires turns { All (λ t. t.shared ≡ phase) turns.items }
    requires watchers { All (λ w. w.shared ≡ phase) watchers.items }
    requires receipt { receipt.shared ≡ phase }
    requires words { length phase.opening.words ≡ 3 }
{
    let (watchers, last) = without_last_watcher(&phase, watchers);
    let Some(mut last) = last else {
        panic!(rt; "two watchers were given")
    };
    let Err(handed_back) = phase.close(turns, watchers) else {
        panic!(rt; "a watcher was wanting")
    };
    let NotAll {
        shared,
        turns,
        watchers,
    } = handed_back;
    assert_equal(rt, (turns.len(), watchers.len()), (2, 1), "handed back");
    looks_with_an_old_receipt(rt, &shared, receipt, &mut last);
    let watchers = with_last_watcher(&shared, watchers, last)?;
    ends_after_the_second_strip(rt, shared, turns, watchers);
    Ok(())
}

/// A phase of two strips, of which the second has ended, is closed.
fn ends_after_the_second_strip(
    rt: &impl Abort,
    phase: Open,
    turns: Vec<Turn>,
    watchers: Vec<Watcher>,
)
    requires turns { All (λ t. t.shared ≡ phase) turns.items }
    requires watchers { All (λ w. w.shared ≡ phase) watchers.items }
{
    let Ok((end, dones, unended)) = phase.close(turns, watchers) else {
        panic!(rt; "all turns and watchers were there")
    };
    let wanted = [0x1_0000_0537, 0x1_0000_0527, 0x1_0000_0505];
    assert_equal(rt, end.as_slice(), wanted.as_slice(), "the words");
    assert_equal(
        rt,
        (dones.len(), unended.len()),
        (1, 1),
        "what turns hand in",
    );
}

#[test]
fn a_phase_is_closed_once_all_watchers_are_there(rt: HostRuntime) -> Result<(), Fail> {
    let (words, pieces) = two_strips(rt.alloc())?;
    let (phase, turns, watchers) = Open::open_watched(rt.alloc(), words, pieces, 2)?;
    let (turns, receipt) = with_second_ended(&rt, &phase, turns)?;
    closes_with_both_watchers(&rt, phase, turns, watchers, receipt)?;
    Ok(())
}

/// A watcher after many looks at word 2, and whether it found the word as before the second strip, then as after it,
/// and nothing else.
fn many_looks(phase: &Open, mut watcher: Watcher) -> (Watcher, bool)
    requires watcher { watcher.shared ≡ phase.now }
    requires words { length phase.now.opening.words ≡ 3 }
    ensures { result.0.shared ≡ phase.now }
{
    let mut has_changed = false;
    let mut goes_on = true;
    for _ in 0..1000 {
        let found = watcher.look(phase, 2);
        has_changed = has_changed || found == Some((5, RX));
        goes_on = goes_on && (has_changed || found == Some((5, RWX)));
        goes_on = goes_on && (!has_changed || found == Some((5, RX)));
    }
    (watcher, goes_on)
}

/// A turn after all its steps.
fn ended(phase: &Open, mut turn: Turn) -> Turn
    requires { turn.shared ≡ phase.now }
    ensures { result.shared ≡ phase.now }
{
    turn.step_to_end(phase);
    turn
}

/// A watcher that looked on one thread while a turn stepped on another, and whether it saw what it may.
fn looked_beside<R: Threads + Sync>(
    rt: &R,
    phase: &Open,
    turn: Turn,
    watcher: Watcher,
) -> (Watcher, bool)
    requires turn { turn.shared ≡ phase.now }
    requires watcher { watcher.shared ≡ phase.now }
    requires words { length phase.now.opening.words ≡ 3 }
    ensures { result.0.shared ≡ phase.now }
{
    let (_, looked) = thread::join(
        rt,
        || -> Turn
            requires { turn.shared ≡ phase.now }
        { ended(phase, turn) },
        || -> (Watcher, bool)
            requires { (watcher.shared ≡ phase.now) × (length phase.now.opening.words ≡ 3) }
            ensures { result.0.shared ≡ phase.entry.now }
        { many_looks(phase, watcher) },
    );
    looked
}

/// A watcher looks at the second of two strips, on a thread of its own, while its turn steps on another.
fn looks_beside_a_turn(rt: &(impl Abort + Threads + Sync), alloc: Global) -> Result<(), NoMemory> {
    let (words, pieces) = two_strips(alloc)?;
    let (phase, turns, watchers) = Open::open_watched(alloc, words, pieces, 1)?;
    let (_, (_first, second)) = last_two(&phase, turns)?;
    let watcher = only(rt, &phase, watchers);
    let (mut watcher, goes_on) = looked_beside(rt, &phase, second, watcher);
    assert_equal(rt, goes_on, true, "before, then after");
    let found = watcher.look(&phase, 2);
    assert_equal(rt, found, Some((5, RX)), "after the turn has ended");
    Ok(())
}

#[test]
fn a_watcher_on_a_thread_of_its_own_never_goes_back(rt: HostRuntime) -> Result<(), Fail> {
    for _ in 0..100 {
        looks_beside_a_turn(&rt, rt.alloc())?;
    }
    Ok(())
}
