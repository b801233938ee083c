//! Observers beside the workers of an unmap.

ghost use Rattle.std.specs.Prelude.{◌≡◌, ℕ, List};
ghost use Rattle.pieces.specs.declared.piece.Piece.{Piece};
ghost use Rattle.model.specs.Definitions.Holdings.{Holdings};
ghost use Rattle.mapdb.specs.Held.{IsPhaseOf};

use super::calls::{ALL, Case, NONE, READ_EXECUTE, Step, expect, fpages, index_of, page, work_all};
use super::unmaps::CHAIN;
use crate::assertions::assert_equal;
use crew::{Crew, Gate, NoGate, Observe};
use fpage::{Control, with_status};
use mapdb::{Database, DbError, Unmap};
use std::alloc::Global;
use std::process::Abort;
use std::sync::Wait;
use std::sync::atomic::{AtomicU64, Ordering};
use std::test::Fail;
use std::thread::{Threads, yield_now};
use turns::{Open, Turn, Watcher};

/// How often a monitor looks, and a piece waits for it, at most.
const TRIES: u32 = 1_000_000;

/// Looks at the word of a page of frame 5 until it has lost the right to write. As a gate it holds each piece until
/// the monitor has seen the word with all rights.
#[derive(Drop)]
struct Monitor {
    index: usize,
    /// How often it was lent a watcher, and whether it saw the word with all rights, and then without the one.
    calls: AtomicU64,
    before: AtomicU64,
    after: AtomicU64,
}

impl Monitor {
    fn new(index: usize) -> Monitor
        ensures { result.index ≡ index }
    {
        Monitor {
            index,
            calls: AtomicU64::new(0),
            before: AtomicU64::new(0),
            after: AtomicU64::new(0),
        }
    }

    /// What it has seen.
    fn seen(&self) -> [u64; 3] {
        [
            self.calls.load(Ordering::SeqCst),
            self.before.load(Ordering::SeqCst),
            self.after.load(Ordering::SeqCst),
        ]
    }
}

impl Observe for Monitor {
    ghost use Rattle.std.specs.Prelude.{◌<◌, length};

    ghost told = { λ monitor words pieces. monitor.index < length words };

    fn observe(&self, watcher: &mut Watcher, shared: &Open) {
        self.calls.fetch_add(1, Ordering::SeqCst);
        if watcher.look(shared, self.index) == Some((5, ALL)) {
            self.before.store(1, Ordering::SeqCst);
        }
        for _ in 0..TRIES {
            if watcher.look(shared, self.index) == Some((5, READ_EXECUTE)) {
                self.after.store(1, Ordering::SeqCst);
                return;
            }
            yield_now();
        }
    }
}

impl Gate for Monitor {
    fn begin(&self, _worker: usize, _workers: usize, _turn: &Turn, _shared: &Open) {
        for _ in 0..TRIES {
            if self.before.load(Ordering::SeqCst) == 1 {
                return;
            }
            yield_now();
        }
    }

    fn end(&self, _worker: usize, _workers: usize, _turn: &Turn, _shared: &Open) {}
}

/// Unmaps a word while an observer looks, and looks at the word that comes back.
pub fn unmap_watched<R: Threads + Wait, G: Gate, O: Observe>(
    rt: &impl Abort,
    database: &mut Database,
    alloc: Global,
    crew: &Crew<'_, R, G>,
    observer: &O,
    space: u16,
    word: u32,
    reply: u32,
) -> Result<(), DbError>
    requires told { (h left : Holdings) (words : List ℕ) (pieces : List Piece) → IsPhaseOf database.old.layout h left words pieces → O.told observer.now words pieces }
{
    let Ok(control) = Control::read(0, 1) else {
        panic!(rt; "the control word is refused")
    };
    let fpages = fpages(rt, database, alloc, &[word])?;
    let unmap = Unmap {
        space,
        control,
        fpages: &fpages,
    };
    let status = database.unmap_watched(alloc, &unmap, crew, observer)?;
    assert_equal(rt, status.len(), 1, "words");
    for status in &status {
        assert_equal(rt, with_status(word, *status), reply, word);
    }
    Ok(())
}

/// Takes the right to write from what derives from a page that was mapped on twice. A monitor watches the last page.
fn revoke_watched(
    rt: &(impl Abort + Threads + Wait + Sync),
    alloc: Global,
) -> Result<[u64; 3], DbError> {
    let mut database = Database::new(alloc, 3, 18, 16)?;
    let workers = Crew::new(rt, 2, 1, &NoGate);
    work_all(rt, &mut database, alloc, &workers, &CHAIN, false)?;
    let watched = page(rt, &database, (2, 0));
    let monitor = Monitor::new(index_of(rt, &database, watched));
    let crew = Crew::new(rt, 2, 1, &monitor);
    unmap_watched(rt, &mut database, alloc, &crew, &monitor, 0, 0x50c2, 0x50c0)?;
    Ok(monitor.seen())
}

#[test]
fn a_monitor_sees_a_page_lose_a_right(rt: HostRuntime) -> Result<(), Fail> {
    let seen = revoke_watched(&rt, rt.alloc())?;
    assert_equal(&rt, seen, [1, 1, 1], "calls, before, after");
    Ok(())
}

/// Counts how often it is lent a watcher.
#[derive(Drop)]
pub struct Counter {
    pub calls: AtomicU64,
}

impl Observe for Counter {
    ghost told = { λ counter words pieces. Unit {0} };

    fn observe(&self, _watcher: &mut Watcher, _shared: &Open) {
        self.calls.fetch_add(1, Ordering::SeqCst);
    }
}

/// The chain goes on from 2:0 to a page of the caller's own space.
static NESTED: Case = Case {
    name: "a nested mapping in the caller's own space",
    steps: &[Step::Map((2, 0), (1, 3))],
    left: &[
        ((0, 5), Some((5, ALL, NONE, None))),
        ((1, 0), Some((5, ALL, NONE, Some((0, 5))))),
        ((2, 0), Some((5, READ_EXECUTE, NONE, Some((1, 0))))),
        ((1, 3), Some((5, READ_EXECUTE, NONE, Some((2, 0))))),
    ],
};

/// Words that space 1 unmaps, what comes back, and how often the observer was called by then: not for page 7, which
/// is not held, and not for the nilpage.
const COUNTED: [(u32, u32, u64); 4] = [
    (0x70c2, 0x70c0, 0),
    (0x12, 0x10, 1),
    (0x70c7, 0x70c0, 1),
    (0xf, 8, 1),
];

/// Unmaps words while an observer counts.
fn unmap_counted<R: Threads + Wait>(
    rt: &impl Abort,
    database: &mut Database,
    alloc: Global,
    crew: &Crew<'_, R, NoGate>,
) -> Result<(), DbError> {
    let counter = Counter {
        calls: AtomicU64::new(0),
    };
    for (word, reply, calls) in COUNTED {
        unmap_watched(rt, database, alloc, crew, &counter, 1, word, reply)?;
        assert_equal(rt, counter.calls.load(Ordering::SeqCst), calls, word);
    }
    Ok(())
}

#[test]
fn an_observer_is_called_for_a_word_of_which_a_page_is_held(rt: HostRuntime) -> Result<(), Fail> {
    let crew = Crew::new(&rt, 2, 1, &NoGate);
    let mut database = Database::new(rt.alloc(), 3, 18, 16)?;
    work_all(&rt, &mut database, rt.alloc(), &crew, &CHAIN, false)?;
    work_all(&rt, &mut database, rt.alloc(), &crew, NESTED.steps, false)?;
    unmap_counted(&rt, &mut database, rt.alloc(), &crew)?;
    for (at, held) in NESTED.left {
        expect(&rt, &database, NESTED.name, *at, *held);
    }
    Ok(())
}
