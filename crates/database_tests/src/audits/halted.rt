//! A database that one of its calls left halted.

ghost use Rattle.std.specs.Prelude.{◌≡◌, ◌<◌};
ghost use Rattle.space.specs.Directory.{pages_of};
ghost use Rattle.fpage.specs.Fpage.{IsFpageOf};

use crate::assertions::{assert_equal, assert_holds};
use crate::databases::watched::Counter;
use audit::{AuditError, check_database, lines, report};
use crew::{Crew, NoGate, Workers};
use fpage::{Access, Control, Fpage, Item, Rights};
use mapdb::{Database, DbError, Limits, SendReply, Unmap};
use space::Place;
use std::alloc::Global;
use std::process::Abort;
use std::sync::Wait;
use std::sync::atomic::{AtomicU64, Ordering};
use std::test::Fail;
use std::thread::Threads;

/// The complete space with all rights.
const COMPLETE: u32 = 0x17;

/// The complete space with w.
const COMPLETE_WRITE: u32 = 0x12;

/// The nilpage.
const NIL: u32 = 0;

/// The fpage of a word in spaces of 512 pages.
fn fpage(rt: &impl Abort, word: u32) -> Fpage
    ensures { IsFpageOf 21 result }
{
    let Ok(fpage) = Fpage::read(word, 21) else {
        panic!(rt; "the word {word} is refused");
    };
    fpage
}

/// A page of space 1.
fn page(rt: &impl Abort, page: u32) -> Place
    ensures space { result.space < 3 }
    ensures page { result.page < pages_of 21 }
{
    assert!(rt; page < 512);
    Place { space: 1, page }
}

/// Looks at the limits, which a halted database tells too.
fn expect_limits(rt: &impl Abort, database: &Database)
    ensures { database.now.limits ≡ record { spaces = 3; bits = 21; frames = 256 } }
{
    let Limits {
        spaces,
        bits,
        frames,
    } = database.limits();
    assert!(rt; spaces == 3 && bits == 21 && frames == 256);
}

/// Maps the pages of a word from one space to another, in a window.
fn send<W: Workers>(
    rt: &impl Abort,
    database: &mut Database,
    alloc: Global,
    workers: &W,
    from: u16,
    to: u16,
    window: u32,
    sent: u32,
) -> Result<SendReply, DbError> {
    expect_limits(rt, database);
    let window = fpage(rt, window);
    let Ok(item) = Item::read(8, sent, 21) else {
        panic!(rt; "the item is refused");
    };
    database.send(alloc, from, to, &window, &[item], workers)
}

/// Makes one access of a page of space 1.
fn access<W: Workers>(
    rt: &impl Abort,
    database: &mut Database,
    alloc: Global,
    workers: &W,
    number: u32,
) -> Result<Vec<bool>, DbError> {
    expect_limits(rt, database);
    database.access_all(alloc, &[(page(rt, number), Access::Write)], workers)
}

/// Takes w from all that derives from the pages of a space, by recursion or not.
fn unmap<W: Workers>(
    rt: &impl Abort,
    database: &mut Database,
    alloc: Global,
    workers: &W,
    space: u16,
    plain: bool,
) -> Result<Vec<Rights>, DbError> {
    expect_limits(rt, database);
    let fpage = fpage(rt, COMPLETE_WRITE);
    let Ok(control) = Control::read(0, 1) else {
        panic!(rt; "the control word is refused");
    };
    if plain {
        database.unmap_plain(alloc, space, control, &[fpage])
    } else {
        database.unmap(alloc, space, control, &[fpage], workers)
    }
}

/// The same beside an observer that counts.
fn unmap_watched<R: Threads + Wait>(
    rt: &impl Abort,
    database: &mut Database,
    alloc: Global,
    crew: &Crew<'_, R, NoGate>,
    counter: &Counter,
    space: u16,
) -> Result<Vec<Rights>, DbError> {
    expect_limits(rt, database);
    let fpage = fpage(rt, COMPLETE_WRITE);
    let Ok(control) = Control::read(0, 1) else {
        panic!(rt; "the control word is refused");
    };
    let unmap = Unmap {
        space,
        control,
        fpages: &[fpage],
    };
    database.unmap_watched(alloc, &unmap, crew, counter)
}

/// Clears a space, by recursion or not.
fn clear<W: Workers>(
    database: &mut Database,
    alloc: Global,
    workers: &W,
    space: u16,
    plain: bool,
) -> Result<Rights, DbError> {
    if plain {
        database.clear_plain(alloc, space)
    } else {
        database.clear(alloc, space, workers)
    }
}

/// Maps 256 pages, writes to one of them, takes w from all 512, twice, and clears space 1, twice: where workers have
/// pieces of one, that starts threads.
fn work<W: Workers>(
    rt: &impl Abort,
    database: &mut Database,
    alloc: Global,
    workers: &W,
) -> Result<(), DbError> {
    let reply = send(rt, database, alloc, workers, 0, 1, COMPLETE, COMPLETE)?;
    assert_equal(rt, reply.linked, 256, "linked");
    let made = access(rt, database, alloc, workers, 5)?;
    assert_equal(rt, made.as_slice(), [true].as_slice(), "made");
    let made = access(rt, database, alloc, workers, 400)?;
    assert_equal(rt, made.as_slice(), [false].as_slice(), "fault");
    let seen = unmap(rt, database, alloc, workers, 0, false)?;
    assert_equal(
        rt,
        seen.as_slice(),
        [Rights::of_bits(6)].as_slice(),
        "status",
    );
    let seen = unmap(rt, database, alloc, workers, 0, true)?;
    assert_equal(
        rt,
        seen.as_slice(),
        [Rights::none()].as_slice(),
        "no status",
    );
    for plain in [false, true] {
        let seen = clear(database, alloc, workers, 1, plain)?;
        assert_equal(rt, seen, Rights::none(), "a clear");
    }
    Ok(())
}

/// Maps frame 5 from space 0 to space 1, on to space 2, and back to another page of space 1, which then takes w from
/// what derives from its pages: beside an observer, which has a thread of its own.
fn work_watched<R: Threads + Wait>(
    rt: &impl Abort,
    database: &mut Database,
    alloc: Global,
    crew: &Crew<'_, R, NoGate>,
    counter: &Counter,
) -> Result<(), DbError> {
    for (from, to, window, sent) in [
        (0, 1, 0xc7, 0x50c7),
        (1, 2, 0xc7, 0xc7),
        (2, 1, 0x30c7, 0xc7),
    ] {
        let reply = send(rt, database, alloc, crew, from, to, window, sent)?;
        assert_equal(rt, reply.linked, 1, window);
    }
    let status = unmap_watched(rt, database, alloc, crew, counter, 1)?;
    assert_equal(
        rt,
        status.as_slice(),
        [Rights::none()].as_slice(),
        "no status",
    );
    assert_equal(rt, counter.calls.load(Ordering::SeqCst), 1, "calls");
    Ok(())
}

/// Looks at a database that is halted: each call that changes one is refused as `Halted`, also where another refusal would fit.
fn expect_no_change<R: Threads + Wait>(
    rt: &impl Abort,
    database: &mut Database,
    alloc: Global,
    workers: &Crew<'_, R, NoGate>,
) {
    for (from, to, window) in [
        (0, 1, COMPLETE),
        (3, 1, COMPLETE),
        (0, 3, COMPLETE),
        (1, 1, COMPLETE),
        (0, 1, NIL),
        (3, 3, NIL),
    ] {
        let answer = send(rt, database, alloc, workers, from, to, window, COMPLETE);
        assert_equal(rt, answer, Err(DbError::Halted), window);
    }
    for (space, plain) in [(0, false), (0, true), (3, false), (3, true)] {
        let answer = unmap(rt, database, alloc, workers, space, plain);
        assert_equal(rt, answer.err(), Some(DbError::Halted), space);
        let answer = clear(database, alloc, workers, space, plain);
        assert_equal(rt, answer, Err(DbError::Halted), space);
    }
    let counter = Counter {
        calls: AtomicU64::new(0),
    };
    for space in [0, 3] {
        let answer = unmap_watched(rt, database, alloc, workers, &counter, space);
        assert_equal(rt, answer.err(), Some(DbError::Halted), space);
    }
    assert_equal(rt, counter.calls.load(Ordering::SeqCst), 0, "calls");
    let answer = access(rt, database, alloc, workers, 5);
    assert_equal(rt, answer.err(), Some(DbError::Halted), "an access");
    let answer = database.access_all(alloc, &[], workers);
    assert_equal(rt, answer.err(), Some(DbError::Halted), "no access");
    assert_holds(rt, database.is_halted(), "halted");
}

/// Looks at a database that is halted: each call that reads one is refused as `Halted`, but for its limits.
fn expect_no_answer(rt: &(impl Abort + AllocGlobal + Threads + Sync), database: &Database) {
    let alloc = rt.alloc();
    expect_limits(rt, database);
    let held = page(rt, 5);
    let refused = Some(DbError::Halted);
    assert_equal(rt, database.entry(held).err(), refused, "entry");
    assert_equal(rt, database.origin(held).err(), refused, "origin");
    assert_equal(rt, database.index(held).err(), refused, "index");
    let next = database.next_held(1, 0);
    assert_equal(rt, next.err(), refused, "next held page");
    assert_equal(rt, database.mappings(alloc).err(), refused, "mappings");
    let refused = Some(AuditError::Halted);
    assert_equal(rt, lines(alloc, database).err(), refused, "lines");
    assert_equal(rt, report(rt, database).err(), refused, "report");
    assert_equal(rt, check_database(alloc, database).err(), refused, "check");
}

/// Looks at a database after work. With ample memory and threads the work passes, and nothing is halted. Where an
/// allocation or a thread was refused to a call, the database must be halted, and every later call must say so.
fn expect_halted_if_refused<R: Threads + Wait>(
    rt: &(impl Abort + AllocGlobal + Threads + Sync),
    database: &mut Database,
    workers: &Crew<'_, R, NoGate>,
    worked: Result<(), DbError>,
) -> Result<(), DbError> {
    assert_equal(rt, database.is_halted(), worked.is_err(), "halted");
    if worked.is_err() {
        expect_no_answer(rt, database);
        expect_no_change(rt, database, rt.alloc(), workers);
    }
    worked
}

#[test]
fn a_halted_database_refuses_every_call(rt: HostRuntime) -> Result<(), Fail> {
    let workers = Crew::new(&rt, 4, 1, &NoGate);
    let mut database = Database::new(rt.alloc(), 3, 21, 256)?;
    let worked = work(&rt, &mut database, rt.alloc(), &workers);
    expect_halted_if_refused(&rt, &mut database, &workers, worked)?;
    Ok(())
}

#[test]
fn a_database_that_a_watched_unmap_halted_refuses_every_call(rt: HostRuntime) -> Result<(), Fail> {
    let workers = Crew::new(&rt, 4, 1, &NoGate);
    let mut database = Database::new(rt.alloc(), 3, 21, 256)?;
    let counter = Counter {
        calls: AtomicU64::new(0),
    };
    let worked = work_watched(&rt, &mut database, rt.alloc(), &workers, &counter);
    expect_halted_if_refused(&rt, &mut database, &workers, worked)?;
    Ok(())
}
