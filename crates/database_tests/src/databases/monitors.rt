//! A monitor that looks at one page while a word is unmapped. It is proved to find what the page holds before the
//! unmap or after it, and nothing else.

ghost use Rattle.std.specs.Prelude.{◌≡◌, ◌⊎◌, ℕ, List, Some};
ghost use Rattle.pieces.specs.declared.piece.Piece.{Piece};
ghost use Rattle.mapdb.specs.Held.{index_in, IsPhaseOf};
ghost use Rattle.database_tests.specs.Monitors.{IsBeside, found_in, left_by};

use super::calls::{ALL, At, READ_EXECUTE, fpage, index_of, page, work_all};
use super::unmaps::CHAIN;
use crate::assertions::assert_equal;
use crew::{Crew, NoGate, Observe};
use fpage::{Control, Fpage, Rights};
use mapdb::{Database, DbError, Unmap};
use space::Place;
use std::alloc::Global;
use std::process::Abort;
use std::snapshot::Snapshot;
use std::sync::Wait;
use std::sync::atomic::{AtomicU64, Ordering};
use std::test::Fail;
use std::thread::Threads;
use turns::{Open, Watcher};

/// How often the monitor looks.
const LOOKS: u64 = 100;

/// Looks at one page while a word is unmapped.
#[derive(Drop)]
pub struct PageMonitor {
    page: Place,
    /// Which word is that of the page.
    index: usize,
    /// The unmap that it looks beside: the database as the call finds it, and what the call is given. Only contracts
    /// speak of these.
    database: Snapshot<Database>,
    space: u16,
    control: Control,
    fpage: Fpage,
    /// How many looks found the page with all rights, and how many without the right to write.
    before: AtomicU64,
    after: AtomicU64,
}

impl PageMonitor {
    /// A monitor of this unmap. What the call tells of its phase is what the monitor asks to know.
    fn new(
        database: &Database,
        page: Place,
        index: usize,
        space: u16,
        control: Control,
        fpage: Fpage,
    ) -> PageMonitor
        requires index { index_in database.now.layout page ≡ Some index }
        ensures beside { (words : List ℕ) (pieces : List Piece) → IsPhaseOf database.now.layout database.now.holdings (left_by database.now space control.flush fpage) words pieces
            → IsBeside result.database.value (left_by result.database.value result.space result.control.flush result.fpage) result.page result.index words pieces }
    {
        PageMonitor {
            page,
            index,
            database: Snapshot::of(database),
            space,
            control,
            fpage,
            before: AtomicU64::new(0),
            after: AtomicU64::new(0),
        }
    }

    /// Frame and rights of the page, or `None` where it is not held: those from before the unmap, or those from after
    /// it.
    fn look(&self, watcher: &mut Watcher, shared: &Open) -> Option<(u32, Rights)>
        requires of { watcher.old.shared ≡ shared.now }
        requires beside { let m = self.now in
            IsBeside m.database.value (left_by m.database.value m.space m.control.flush m.fpage) m.page m.index shared.now.opening.words shared.now.opening.pieces }
        ensures same { (watcher.new.shared ≡ watcher.old.shared) × (watcher.new.number ≡ watcher.old.number) }
        ensures found { let m = self.now in
            (result ≡ found_in m.database.value.holdings m.page)
            ⊎ (result ≡ found_in (left_by m.database.value m.space m.control.flush m.fpage) m.page) }
    {
        watcher.look(shared, self.index)
    }
}

impl Observe for PageMonitor {
    ghost use Rattle.database_tests.specs.Monitors.{IsBeside, left_by};

    ghost told = { λ m words pieces.
        IsBeside m.database.value (left_by m.database.value m.space m.control.flush m.fpage) m.page m.index words pieces };

    fn observe(&self, watcher: &mut Watcher, shared: &Open) {
        for _ in 0..LOOKS {
            let found = self.look(watcher, shared);
            if found == Some((5, ALL)) {
                self.before.fetch_add(1, Ordering::SeqCst);
            }
            if found == Some((5, READ_EXECUTE)) {
                self.after.fetch_add(1, Ordering::SeqCst);
            }
        }
    }
}

/// Unmaps a word while a monitor looks at a page, and tells what it found.
fn unmap_beside<R: Threads + Wait>(
    rt: &impl Abort,
    database: &mut Database,
    alloc: Global,
    crew: &Crew<'_, R, NoGate>,
    space: u16,
    word: u32,
    at: At,
) -> Result<(u64, u64), DbError> {
    let Ok(control) = Control::read(0, 1) else {
        panic!(rt; "the control word is refused")
    };
    let fpage = fpage(rt, database, word);
    let page = page(rt, database, at);
    let index = index_of(rt, database, page);
    let monitor = PageMonitor::new(database, page, index, space, control, fpage);
    let unmap = Unmap {
        space,
        control,
        fpages: &[fpage],
    };
    database.unmap_watched(alloc, &unmap, crew, &monitor)?;
    Ok((
        monitor.before.load(Ordering::SeqCst),
        monitor.after.load(Ordering::SeqCst),
    ))
}

#[test]
fn a_monitor_finds_a_page_as_before_or_after(rt: HostRuntime) -> Result<(), Fail> {
    let crew = Crew::new(&rt, 2, 1, &NoGate);
    let mut database = Database::new(rt.alloc(), 3, 18, 16)?;
    work_all(&rt, &mut database, rt.alloc(), &crew, &CHAIN, false)?;
    let (before, after) = unmap_beside(&rt, &mut database, rt.alloc(), &crew, 0, 0x50c2, (2, 0))?;
    assert_equal(&rt, before.wrapping_add(after), LOOKS, "looks");
    Ok(())
}
