//! What a gate hears of the pieces of a phase.

ghost use Rattle.std.specs.Prelude.{◌≤◌};

use crate::assertions::assert_equal;
use crate::times::{Size, are_stripped, phase};
use crew::{Crew, Gate, work};
use std::alloc::{AllocError, Global};
use std::process::Abort;
use std::sync::Wait;
use std::sync::atomic::{AtomicU64, Ordering};
use std::test::Fail;
use std::thread::Threads;
use turns::{Open, Turn};

/// What a gate heard of one piece.
#[derive(Drop)]
struct Heard {
    /// How often it began, and by whom.
    begun: AtomicU64,
    worker: AtomicU64,
    /// How often the worker that began it ended it.
    ended: AtomicU64,
}

/// Counts what it hears of each piece of a phase.
#[derive(Drop)]
struct Tally {
    heard: Vec<Heard>,
    /// How many workers the phase is to have.
    workers: usize,
    /// How often it heard of other workers, of a piece that the phase does not have, or of a begin after a step.
    strange: AtomicU64,
}

impl Tally {
    /// Has heard nothing of so many pieces, which so many workers are to work.
    fn new(alloc: Global, pieces: usize, workers: usize) -> Result<Tally, AllocError> {
        let mut heard = Vec::with_capacity(alloc, pieces)?;
        for _ in 0..pieces {
            heard.push(Heard {
                begun: AtomicU64::new(0),
                worker: AtomicU64::new(u64::MAX),
                ended: AtomicU64::new(0),
            })?;
        }
        Ok(Tally {
            heard,
            workers,
            strange: AtomicU64::new(0),
        })
    }

    /// What it heard of a piece, of which a worker of so many tells. What is strange it counts.
    fn of(&self, worker: usize, workers: usize, turn: &Turn) -> Option<&Heard> {
        let heard = self.heard.get(turn.piece());
        if heard.is_none() || workers != self.workers || worker >= workers {
            self.strange.fetch_add(1, Ordering::SeqCst);
        }
        heard
    }

    /// It heard once of each piece that it began and ended, and of nothing strange.
    fn expect_each_once(&self, rt: &impl Abort) {
        for (piece, heard) in self.heard.iter().enumerate() {
            assert_equal(rt, heard.begun.load(Ordering::SeqCst), 1, piece);
            assert_equal(rt, heard.ended.load(Ordering::SeqCst), 1, piece);
        }
        let strange = self.strange.load(Ordering::SeqCst);
        assert_equal(rt, strange, 0, "what is strange");
    }
}

impl Gate for Tally {
    fn begin(&self, worker: usize, workers: usize, turn: &Turn, _shared: &Open) {
        if turn.steps() != 0 {
            self.strange.fetch_add(1, Ordering::SeqCst);
        }
        if let Some(heard) = self.of(worker, workers, turn) {
            heard.begun.fetch_add(1, Ordering::SeqCst);
            heard.worker.store(worker as u64, Ordering::SeqCst);
        }
    }

    fn end(&self, worker: usize, workers: usize, turn: &Turn, _shared: &Open) {
        if let Some(heard) = self.of(worker, workers, turn) {
            if heard.worker.load(Ordering::SeqCst) == worker as u64 {
                heard.ended.fetch_add(1, Ordering::SeqCst);
            }
        }
    }
}

/// So many workers work a phase, but at most one for each piece: each piece begins once, and its worker ends it once.
fn is_heard_of_once<R: Threads + Wait + Abort>(
    rt: &R,
    alloc: Global,
    workers: usize,
    size: Size,
) -> Result<(), Fail>
    requires some { 1 ≤ workers }
    requires most { workers ≤ 64 }
{
    let gate = Tally::new(alloc, size.pieces(), workers.min(size.pieces()))?;
    let crew = Crew::new(rt, workers, size.most.max(1), &gate);
    assert_equal(rt, crew.workers_for(size.pieces()), gate.workers, "workers");
    let (words, pieces) = phase(alloc, size)?;
    let (words, _) = work(&crew, alloc, words, pieces)?;
    are_stripped(rt, &words, size);
    gate.expect_each_once(rt);
    Ok(())
}

#[test]
fn a_gate_hears_once_of_each_piece_by_the_worker_that_works_it(
    rt: HostRuntime,
) -> Result<(), Fail> {
    for (nodes, most) in [(100, 1), (100, 7), (3, 1), (3, 7)] {
        let size = Size { nodes, most };
        is_heard_of_once(&rt, rt.alloc(), 1, size)?;
        is_heard_of_once(&rt, rt.alloc(), 4, size)?;
        is_heard_of_once(&rt, rt.alloc(), 64, size)?;
    }
    Ok(())
}
