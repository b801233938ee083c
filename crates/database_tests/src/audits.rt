//! Lines that are lawful or not, and the audit of a small database, worked out by hand.

mod halted;

use crate::assertions::{assert_equal, assert_holds};
use audit::{Line, check, check_database, lines, report};
use crew::{Crew, NoGate};
use fpage::{Access, Fpage, Item, Rights};
use mapdb::Database;
use space::Place;
use std::alloc::Global;
use std::process::Abort;
use std::sync::Wait;
use std::test::Fail;
use std::thread::Threads;

/// The places 0:0 to 0:2 and 1:0 to 1:2, by number.
fn place(number: u16) -> Place {
    Place {
        space: number / 3,
        page: u32::from(number % 3),
    }
}

/// The line of a place, with rights by their number and an origin, if it has one.
fn line(number: u16, frame: u32, rights: u32, origin: Option<u16>) -> Line {
    Line {
        place: place(number),
        frame,
        rights: Rights::of_bits(rights),
        status: Rights::none(),
        origin: origin.map(place),
    }
}

#[test]
fn lawful_lines_pass_the_check(rt: HostRuntime) {
    assert_holds(&rt, check(&[]), "no lines");
    assert_holds(&rt, check(&[line(0, 5, 7, None)]), "a root");
    // A chain of three, whose rights do not grow, and a root of another frame.
    let chain = [
        line(0, 5, 7, Some(4)),
        line(1, 6, 1, None),
        line(3, 5, 3, Some(0)),
        line(4, 5, 7, None),
    ];
    assert_holds(&rt, check(&chain), "a chain");
}

#[test]
fn the_origin_has_a_line(rt: HostRuntime) {
    assert_holds(&rt, !check(&[line(3, 5, 6, Some(1))]), "one line");
    let beside_a_root = [line(0, 5, 7, None), line(3, 5, 6, Some(1))];
    assert_holds(&rt, !check(&beside_a_root), "beside a root");
}

#[test]
fn the_origin_has_the_frame_and_the_rights(rt: HostRuntime) {
    let other_frame = [line(0, 5, 7, None), line(3, 6, 7, Some(0))];
    assert_holds(&rt, !check(&other_frame), "another frame");
    let more_rights = [line(0, 5, 6, None), line(3, 5, 5, Some(0))];
    assert_holds(&rt, !check(&more_rights), "more rights");
}

#[test]
fn chains_end(rt: HostRuntime) {
    assert_holds(&rt, !check(&[line(0, 0, 7, Some(0))]), "its own origin");
    let circle = [
        line(0, 5, 7, Some(4)),
        line(1, 5, 7, None),
        line(3, 5, 7, Some(0)),
        line(4, 5, 7, Some(3)),
    ];
    assert_holds(&rt, !check(&circle), "a circle");
}

#[test]
fn a_frame_has_one_root(rt: HostRuntime) {
    let two_roots = [line(0, 0, 7, None), line(1, 0, 7, None)];
    assert_holds(&rt, !check(&two_roots), "two roots");
    let two_frames = [line(0, 0, 7, None), line(1, 1, 7, None)];
    assert_holds(&rt, check(&two_frames), "two frames");
}

#[test]
fn lines_rise_and_have_rights(rt: HostRuntime) {
    let falling = [line(3, 0, 7, None), line(1, 1, 7, None)];
    assert_holds(&rt, !check(&falling), "falling");
    let twice = [line(1, 0, 7, None), line(1, 1, 7, None)];
    assert_holds(&rt, !check(&twice), "twice");
    assert_holds(&rt, !check(&[line(0, 0, 0, None)]), "no rights");
}

/// A database of which page 0 of space 0 went to page 3 of space 1, read and write, and was written there.
fn small_database(
    rt: &(impl Abort + Threads + Wait + Sync),
    alloc: Global,
) -> Result<Database, Fail> {
    let crew = Crew::new(rt, 1, 1, &NoGate);
    let window = Fpage::read(0x30c0, 18)?;
    let item = Item::read(8, 0xc6, 18)?;
    let mut database = Database::new(alloc, 2, 18, 2)?;
    let sent = database.send(alloc, 0, 1, &window, &[item], &crew)?;
    assert_equal(rt, sent.linked, 1, "linked");
    let page = Place { space: 1, page: 3 };
    let made = database.access_all(alloc, &[(page, Access::Write)], &crew)?;
    assert_equal(rt, made.as_slice(), [true].as_slice(), "made");
    Ok(database)
}

/// The audit of this database has three lines.
fn is_reported(
    rt: &(impl Abort + AllocGlobal + Threads + Sync),
    database: &Database,
) -> Result<(), Fail> {
    let alloc = rt.alloc();
    let expected = b"0,0,0,rwx,---,-\n0,1,1,rwx,---,-\n1,3,0,rw-,RW-,0:0\n";
    let text = report(rt, database)?;
    assert_equal(rt, text.as_slice(), expected.as_slice(), "the report");
    let lines = lines(alloc, database)?;
    assert_equal(rt, (lines.len(), check(&lines)), (3, true), "the lines");
    assert_equal(rt, check_database(alloc, database)?, true, "the database");
    Ok(())
}

#[test]
fn reports_a_small_database(rt: HostRuntime) -> Result<(), Fail> {
    let database = small_database(&rt, rt.alloc())?;
    is_reported(&rt, &database)
}
