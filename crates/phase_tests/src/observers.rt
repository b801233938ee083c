//! An observer beside the workers of a phase.

use crate::assertions::assert_equal;
use crate::by_turns::two_strips;
use crate::by_workers::wait_for;
use crew::{Crew, Gate, Observe, work_watched};
use fpage::Rights;
use std::sync::atomic::{AtomicU64, Ordering};
use std::test::Fail;
use std::thread::yield_now;
use turns::{Open, Turn, Watcher};

/// Observes a phase of three words, of which the last loses a right. As a gate it holds each piece until it has seen
/// this word with all rights.
#[derive(Drop)]
struct Monitor {
    /// Whether the word was seen with all rights, and then without the one.
    before: AtomicU64,
    after: AtomicU64,
    /// How often it was lent a watcher.
    calls: AtomicU64,
}

impl Monitor {
    fn new() -> Monitor {
        Monitor {
            before: AtomicU64::new(0),
            after: AtomicU64::new(0),
            calls: AtomicU64::new(0),
        }
    }
}

/// The page of the word that the monitor watches: without the right to write, or with all rights.
fn watched_page(write: bool) -> Option<(u32, Rights)> {
    let rights = Rights {
        read: true,
        write,
        execute: true,
    };
    Some((5, rights))
}

impl Observe for Monitor {
    ghost use Rattle.std.specs.Prelude.{◌≡◌, length};

    ghost told = { λ monitor words pieces. length words ≡ 3 };

    fn observe(&self, watcher: &mut Watcher, shared: &Open) {
        self.calls.fetch_add(1, Ordering::SeqCst);
        if watcher.look(shared, 2) == watched_page(true) {
            self.before.store(1, Ordering::SeqCst);
        }
        for _ in 0..10_000_000u64 {
            if watcher.look(shared, 2) == watched_page(false) {
                self.after.store(1, Ordering::SeqCst);
                return;
            }
            yield_now();
        }
    }
}

impl Gate for Monitor {
    fn begin(&self, _worker: usize, _workers: usize, _turn: &Turn, _shared: &Open) {
        wait_for(&self.before);
    }

    fn end(&self, _worker: usize, _workers: usize, _turn: &Turn, _shared: &Open) {}
}

#[test]
fn an_observer_sees_a_word_change_while_workers_work(rt: HostRuntime) -> Result<(), Fail> {
    let monitor = Monitor::new();
    let crew = Crew::new(&rt, 2, 1, &monitor);
    let (words, pieces) = two_strips(rt.alloc())?;
    let (words, dones) = work_watched(&crew, rt.alloc(), words, pieces, &monitor)?;
    let worked = [0x1_0000_0537, 0x1_0000_0507, 0x1_0000_0505];
    assert_equal(&rt, words.as_slice(), worked.as_slice(), "the words");
    assert_equal(&rt, dones.len(), 2, "what the pieces found out");
    for (name, count) in [
        ("calls", &monitor.calls),
        ("before", &monitor.before),
        ("after", &monitor.after),
    ] {
        assert_equal(&rt, count.load(Ordering::SeqCst), 1, name);
    }
    Ok(())
}
