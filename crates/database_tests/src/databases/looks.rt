//! Many looks at random entries, beside the revokes of many mappings.

ghost use Rattle.std.specs.Prelude.{◌≡◌};

use super::calls::{ALL, MAP, NO_PAIRS, READ_EXECUTE, Step, index_of, page, work};
use super::watched::unmap_watched;
use crate::assertions::{assert_equal, assert_holds};
use crew::{Crew, Gate, NoGate, Observe};
use mapdb::{Database, SendReply};
use std::alloc::Global;
use std::process::Abort;
use std::sync::atomic::{AtomicU64, Ordering};
use std::test::Fail;
use std::thread::yield_now;
use turns::{Open, Turn, Watcher};

/// How many pages of space 0 are mapped to space 1, where they lose the right to write. Page `i` holds frame `i`.
const PAGES: u32 = 100_000;

/// How many looks come before the first step.
const BEFORE: u64 = 1_000;

/// How many looks are to find a page that has lost the right.
const AFTER: u64 = 300_000;

/// How often the observer looks, at most.
const LOOKS: u32 = 100_000_000;

/// How often a piece looks whether it may begin, at most.
const TRIES: u32 = 1_000_000;

/// Looks at pages of space 1, and keeps of each whether it was once found without the right to write. As a gate it
/// holds each piece until there were looks enough before the first step.
#[derive(Drop)]
struct Spectator {
    /// Which word is that of each page, and 1 for each page that was found changed.
    indexes: Vec<usize>,
    changed: Vec<AtomicU64>,
    /// How many looks found a page with all rights, and how many without the one.
    before: AtomicU64,
    after: AtomicU64,
    /// How many looks found something else, or a page with all rights that was changed before.
    wrong: AtomicU64,
}

impl Spectator {
    /// Looks at a page.
    fn look(&self, watcher: &mut Watcher, shared: &Open, page: u32)
        requires of { watcher.old.shared ≡ shared.now }
        ensures same { (watcher.new.shared ≡ watcher.old.shared) × (watcher.new.number ≡ watcher.old.number) }
    {
        let at = page as usize;
        let (Some(index), Some(changed)) = (self.indexes.get(at), self.changed.get(at)) else {
            return;
        };
        if *index >= shared.words() {
            return;
        }
        let found = watcher.look(shared, *index);
        if found == Some((page, READ_EXECUTE)) {
            changed.store(1, Ordering::SeqCst);
            self.after.fetch_add(1, Ordering::SeqCst);
        } else if found == Some((page, ALL)) && changed.load(Ordering::SeqCst) == 0 {
            self.before.fetch_add(1, Ordering::SeqCst);
        } else {
            self.wrong.fetch_add(1, Ordering::SeqCst);
        }
    }
}

/// The next of many numbers that follow no order.
fn next_random(state: u64) -> u64 {
    let state = state ^ (state << 13);
    let state = state ^ (state >> 7);
    state ^ (state << 17)
}

impl Observe for Spectator {
    ghost told = { λ spectator words pieces. Unit {0} };

    fn observe(&self, watcher: &mut Watcher, shared: &Open) {
        let mut state = 88_172_645_463_325_252;
        for _ in 0..LOOKS {
            if self.after.load(Ordering::SeqCst) == AFTER {
                return;
            }
            state = next_random(state);
            self.look(watcher, shared, (state % u64::from(PAGES)) as u32);
        }
    }
}

impl Gate for Spectator {
    fn begin(&self, _worker: usize, _workers: usize, _turn: &Turn, _shared: &Open) {
        for _ in 0..TRIES {
            if self.before.load(Ordering::SeqCst) >= BEFORE {
                return;
            }
            yield_now();
        }
    }

    fn end(&self, _worker: usize, _workers: usize, _turn: &Turn, _shared: &Open) {}
}

/// An observer of the pages of space 1 that are held.
fn observer_of(rt: &impl Abort, database: &Database, alloc: Global) -> Result<Spectator, Fail> {
    let mut indexes = Vec::new(alloc);
    let mut changed = Vec::new(alloc);
    for number in 0..PAGES {
        let page = page(rt, database, (1, number));
        indexes.push(index_of(rt, database, page))?;
        changed.push(AtomicU64::new(0))?;
    }
    Ok(Spectator {
        indexes,
        changed,
        before: AtomicU64::new(0),
        after: AtomicU64::new(0),
        wrong: AtomicU64::new(0),
    })
}

/// All frames are mapped from space 0 to space 1, page by page.
static MAP_ALL: Step = Step::Send(
    0,
    1,
    0x10,
    (MAP, 0x17),
    SendReply {
        absent: 948_576,
        linked: 100_000,
        ..NO_PAIRS
    },
);

#[test]
fn no_look_at_random_entries_is_wrong(rt: HostRuntime) -> Result<(), Fail> {
    let mut database = Database::new(rt.alloc(), 2, 32, PAGES)?;
    let workers = Crew::new(&rt, 4, 1_000, &NoGate);
    work(&rt, &mut database, rt.alloc(), &workers, &MAP_ALL, false)?;
    let spectator = observer_of(&rt, &database, rt.alloc())?;
    let crew = Crew::new(&rt, 4, 1_000, &spectator);
    unmap_watched(
        &rt,
        &mut database,
        rt.alloc(),
        &crew,
        &spectator,
        0,
        0x12,
        0x10,
    )?;
    assert_equal(
        &rt,
        spectator.wrong.load(Ordering::SeqCst),
        0,
        "wrong looks",
    );
    assert_equal(
        &rt,
        spectator.after.load(Ordering::SeqCst),
        AFTER,
        "looks after",
    );
    let before = spectator.before.load(Ordering::SeqCst);
    assert_holds(&rt, before >= BEFORE, "looks before");
    Ok(())
}
