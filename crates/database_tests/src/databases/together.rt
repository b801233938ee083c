//! Workers run at once, and each piece of a call is a turn that one of them works to its end: heard through a gate.

use super::calls::{At, GRANT, MAP, NO_PAIRS, Step, work, work_all};
use super::unmaps::CHAIN;
use crate::assertions::{assert_equal, assert_holds};
use crew::{Changed, Crew, CrewError, Gate, NoGate, Planned, Workers};
use fpage::Access;
use mapdb::{Database, DbError, SendReply};
use maptree::Tree;
use pieces::{Done, Piece};
use std::alloc::{AllocError, Global};
use std::process::Abort;
use std::sync::Wait;
use std::sync::atomic::{AtomicU64, Ordering};
use std::test::Fail;
use std::thread::{Threads, yield_now};
use turns::{Open, Turn};

/// How often the first piece looks whether another has begun.
const TRIES: u32 = 1_000_000;

/// Hears of phases of so many pieces each. It holds the piece that begins first of each until another has begun.
#[derive(Drop)]
struct Meeting {
    /// How many pieces each phase has.
    pieces: u64,
    begun: AtomicU64,
    ended: AtomicU64,
    /// A bit for each piece that ended with one step.
    stepped: AtomicU64,
    /// A bit for each worker that began a piece.
    workers: AtomicU64,
    /// In how many phases the first piece has met another.
    met: AtomicU64,
}

impl Meeting {
    fn new(pieces: u64) -> Meeting {
        Meeting {
            pieces,
            begun: AtomicU64::new(0),
            ended: AtomicU64::new(0),
            stepped: AtomicU64::new(0),
            workers: AtomicU64::new(0),
            met: AtomicU64::new(0),
        }
    }

    /// Waits until more pieces than these have begun, giving the processor away, until the tries run out.
    fn wait_for_more_than(&self, begun: u64) {
        for _ in 0..TRIES {
            if self.begun.load(Ordering::SeqCst) > begun {
                self.met.fetch_add(1, Ordering::SeqCst);
                return;
            }
            yield_now();
        }
    }
}

impl Gate for Meeting {
    fn begin(&self, worker: usize, _workers: usize, _turn: &Turn, _shared: &Open) {
        if worker < 64 {
            self.workers
                .fetch_or(1u64 << (worker as u32), Ordering::SeqCst);
        }
        let before = self.begun.fetch_add(1, Ordering::SeqCst);
        if before % self.pieces.max(1) == 0 {
            self.wait_for_more_than(before.wrapping_add(1));
        }
    }

    fn end(&self, _worker: usize, _workers: usize, turn: &Turn, _shared: &Open) {
        self.ended.fetch_add(1, Ordering::SeqCst);
        if turn.steps() == 1 && turn.piece() < 64 {
            let bit = 1u64 << (turn.piece() as u32);
            self.stepped.fetch_or(bit, Ordering::SeqCst);
        }
    }
}

/// A crew whose gate holds the piece that begins first.
#[derive(Drop)]
struct Held<'a, R> {
    crew: Crew<'a, R, Meeting>,
}

impl<'a, R: Threads + Wait> Workers for Held<'a, R> {
    ghost use Rattle.std.specs.Prelude.{◌≤◌};

    ghost starts_none = { λ held. held.crew.workers ≤ 1 };

    ghost length_of = { λ held. held.crew.piece_length };

    ghost least_of = { λ held. held.crew.least };

    fn piece_length(&self) -> usize {
        self.crew.piece_length()
    }

    fn shared_from(&self) -> usize {
        self.crew.shared_from()
    }

    fn planners(&self) -> usize {
        self.crew.planners()
    }

    fn plan(
        &self,
        alloc: Global,
        parts: usize,
        plan: &(dyn Fn(usize) -> Planned + Sync),
    ) -> Result<Vec<Planned>, AllocError> {
        self.crew.plan(alloc, parts, plan)
    }

    fn change(
        &self,
        trees: &mut [Tree],
        cuts: &[usize],
        change: &(dyn Fn(usize, &mut [Tree]) -> Changed + Sync),
    ) -> Changed {
        self.crew.change(trees, cuts, change)
    }

    fn work(
        &self,
        alloc: Global,
        words: Vec<u64>,
        pieces: Vec<Piece>,
    ) -> Result<(Vec<u64>, Vec<Done>), CrewError> {
        crew::work(&self.crew, alloc, words, pieces)
    }
}

/// Works some steps by a crew that hears nothing, and then one by a crew that this gate hears of, with pieces of one.
fn work_heard(
    rt: &(impl Abort + Threads + Wait + Sync),
    database: &mut Database,
    alloc: Global,
    gate: &Meeting,
    before: &[Step],
    step: &Step,
) -> Result<(), DbError> {
    let crew = Crew::new(rt, 4, 1, &NoGate);
    work_all(rt, database, alloc, &crew, before, false)?;
    let workers = Held {
        crew: Crew::new(rt, 4, 1, gate),
    };
    work(rt, database, alloc, &workers, step, false)
}

/// The same in a database of its own.
fn hears(
    rt: &(impl Abort + Threads + Wait + Sync),
    alloc: Global,
    gate: &Meeting,
    before: &[Step],
    step: &Step,
) -> Result<(), DbError> {
    let mut database = Database::new(alloc, 3, 18, 16)?;
    work_heard(rt, &mut database, alloc, gate, before, step)
}

/// What a gate has heard: in how many phases the first piece met another, and how many pieces began and ended.
fn heard(gate: &Meeting) -> [u64; 3] {
    [
        gate.met.load(Ordering::SeqCst),
        gate.begun.load(Ordering::SeqCst),
        gate.ended.load(Ordering::SeqCst),
    ]
}

/// Two workers or more began pieces.
fn are_several(rt: &impl Abort, gate: &Meeting) {
    let workers = gate.workers.load(Ordering::SeqCst).count_ones();
    assert_holds(rt, workers > 1, "the workers");
}

#[test]
fn two_pieces_of_eighteen_are_worked_at_once(rt: HostRuntime) -> Result<(), Fail> {
    let gate = Meeting::new(18);
    let status = Step::Unmap(0, 0, 0x10, 0x10);
    hears(&rt, rt.alloc(), &gate, &CHAIN, &status)?;
    assert_equal(&rt, heard(&gate), [1, 18, 18], "the gate");
    let stepped = gate.stepped.load(Ordering::SeqCst);
    assert_equal(&rt, stepped, (1 << 18) - 1, "pieces of one step");
    are_several(&rt, &gate);
    Ok(())
}

/// Four accesses, one of a page without a word.
static ACCESSES: [(At, Access, bool); 5] = [
    ((0, 0), Access::Read, true),
    ((0, 1), Access::Write, true),
    ((2, 5), Access::Read, false),
    ((0, 2), Access::Execute, true),
    ((0, 0), Access::Write, true),
];

#[test]
fn accesses_in_a_row_are_made_by_several_threads(rt: HostRuntime) -> Result<(), Fail> {
    let gate = Meeting::new(4);
    hears(&rt, rt.alloc(), &gate, &[], &Step::AccessAll(&ACCESSES))?;
    assert_equal(&rt, heard(&gate), [1, 4, 4], "the gate");
    are_several(&rt, &gate);
    Ok(())
}

/// The 16 pages from 0:0 on, with all rights, and what the receiver has in a window of the complete space.
const SIXTEEN: u32 = 0x107;

const COMPLETE: u32 = 0x10;

/// Sixteen new mappings.
const SIXTEEN_LINKED: SendReply = SendReply {
    linked: 16,
    ..NO_PAIRS
};

#[test]
fn the_pages_of_a_map_are_linked_by_several_threads(rt: HostRuntime) -> Result<(), Fail> {
    let gate = Meeting::new(16);
    let map = Step::Send(0, 1, COMPLETE, (MAP, SIXTEEN), SIXTEEN_LINKED);
    hears(&rt, rt.alloc(), &gate, &[], &map)?;
    // The receiver held nothing, so the links are the one phase.
    assert_equal(&rt, heard(&gate), [1, 16, 16], "the gate");
    are_several(&rt, &gate);
    Ok(())
}

#[test]
fn the_pages_of_a_grant_are_moved_by_several_threads(rt: HostRuntime) -> Result<(), Fail> {
    let gate = Meeting::new(16);
    let grant = Step::Send(0, 1, COMPLETE, (GRANT, SIXTEEN), SIXTEEN_LINKED);
    hears(&rt, rt.alloc(), &gate, &[], &grant)?;
    // What the item withholds is stripped from the sources, and then they move.
    assert_equal(&rt, heard(&gate), [2, 32, 32], "the gate");
    are_several(&rt, &gate);
    Ok(())
}
