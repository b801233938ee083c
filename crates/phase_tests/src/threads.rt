//! Turns that step on threads of their own.

ghost use Rattle.std.specs.Prelude.{◌≡◌};
ghost use Rattle.pieces.specs.Phases.{CanBeWorked};

use crate::assertions::assert_equal;
use crate::by_turns::{closed_with, last_two, two_strips};
use pieces::Piece;
use space::NoMemory;
use std::alloc::Global;
use std::test::Fail;
use std::thread::{self, Threads};
use turns::{Open, Turn};

/// A turn after all its steps.
fn ended(phase: &Open, mut turn: Turn) -> Turn
    requires { turn.shared ≡ phase.now }
    ensures { result.shared ≡ phase.now }
{
    turn.step_to_end(phase);
    turn
}

/// Two turns after all their steps, which two threads made.
fn both_ended<R: Threads + Sync>(rt: &R, phase: &Open, left: Turn, right: Turn) -> (Turn, Turn)
    requires left { left.shared ≡ phase.now }
    requires right { right.shared ≡ phase.now }
    ensures left { result.0.shared ≡ phase.now }
    ensures right { result.1.shared ≡ phase.now }
{
    thread::join(
        rt,
        || -> Turn
            requires { left.shared ≡ phase.now }
            ensures { result.shared ≡ phase.entry.now }
        { ended(phase, left) },
        || -> Turn
            requires { right.shared ≡ phase.now }
            ensures { result.shared ≡ phase.entry.now }
        { ended(phase, right) },
    )
}

/// The words of a phase of two pieces, whose turns two threads stepped to their ends.
fn worked_by_two<R: Threads + Sync>(
    rt: &R,
    alloc: Global,
    words: Vec<u64>,
    pieces: Vec<Piece>,
) -> Result<Vec<u64>, NoMemory>
    requires { CanBeWorked words.items pieces.items }
{
    let (phase, turns) = Open::open(alloc, words, pieces)?;
    let (_, (first, second)) = last_two(&phase, turns)?;
    let (first, second) = both_ended(rt, &phase, first, second);
    let (words, _, _) = closed_with(alloc, phase, first, second)?;
    Ok(words)
}

#[test]
fn two_threads_step_strips_with_a_common_fold_word(rt: HostRuntime) -> Result<(), Fail> {
    let alloc = rt.alloc();
    for _ in 0..100 {
        let (words, pieces) = two_strips(alloc)?;
        let end = worked_by_two(&rt, alloc, words, pieces)?;
        assert_equal(
            &rt,
            end.as_slice(),
            [0x1_0000_0537, 0x1_0000_0507, 0x1_0000_0505].as_slice(),
            "the words",
        );
    }
    Ok(())
}
