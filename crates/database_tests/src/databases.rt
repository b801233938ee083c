//! Databases at the smallest limits, with answers that are worked out by hand.

mod accesses;
mod calls;
mod chains;
mod clears;
mod cut_trees;
mod frames;
mod layouts;
mod looks;
mod monitors;
mod planned;
mod together;
mod unmaps;
pub mod watched;

use crate::assertions::assert_equal;
use calls::{
    ALL, Case, NO_PAIRS, NONE, READ, READ_EXECUTE, READ_WRITE, Step, WRITE_EXECUTE, expect, work,
    work_case,
};
use crew::{Crew, NoGate};
use mapdb::{Database, DbError, Limits, SendReply};
use space::Place;
use std::alloc::{AllocError, Global};
use std::process::Abort;
use std::test::Fail;

/// Spaces, bits and frames of databases, and whether they are served.
static LIMITS: [(u32, u32, u32, bool); 15] = [
    (2, 18, 1, true),
    (2, 18, 64, true),
    (3, 19, 128, true),
    (2, 25, 8192, true),
    (512, 32, 1048576, true),
    (1, 18, 1, false),
    (513, 18, 1, false),
    (2, 17, 1, false),
    (2, 33, 1, false),
    (2, 32, 1048577, false),
    (2, 18, 0, false),
    (2, 18, 65, false),
    (3, 19, 129, false),
    (0, 0, 0, false),
    (2, 4294967295, 1, false),
];

const NAMES: [(DbError, &str); 7] = [
    (DbError::BadLimits, "BadLimits"),
    (DbError::NoSuchSpace, "NoSuchSpace"),
    (DbError::SameSpace, "SameSpace"),
    (DbError::NoWindow, "NoWindow"),
    (DbError::NoMemory, "NoMemory"),
    (DbError::NoWorker, "NoWorker"),
    (DbError::Halted, "Halted"),
];

/// A page is mapped on twice; a page that holds nothing, and one without the rights, are not.
static MAPPED_ON: Case = Case {
    name: "a page that is mapped on",
    steps: &[
        Step::MapSome((0, 1), (1, 0), READ_EXECUTE),
        Step::MapSome((1, 0), (0, 7), READ_WRITE),
        Step::MapAnswered(
            (0, 63),
            (1, 5),
            READ_EXECUTE,
            SendReply {
                absent: 1,
                ..NO_PAIRS
            },
        ),
        Step::MapAnswered(
            (0, 7),
            (1, 9),
            WRITE_EXECUTE,
            SendReply {
                norights: 1,
                ..NO_PAIRS
            },
        ),
    ],
    left: &[
        ((0, 1), Some((1, ALL, NONE, None))),
        ((1, 0), Some((1, READ_EXECUTE, NONE, Some((0, 1))))),
        ((0, 7), Some((1, READ, NONE, Some((1, 0))))),
        ((1, 5), None),
        ((1, 9), None),
    ],
};

/// The limits of a new database, and whether it is halted.
fn made(alloc: Global, limits: Limits) -> Result<(Limits, bool), DbError> {
    let database = Database::new(alloc, limits.spaces, limits.bits, limits.frames)?;
    Ok((database.limits(), database.is_halted()))
}

#[test]
fn refuses_limits_that_are_not_served(rt: HostRuntime) {
    for (spaces, bits, frames, served) in &LIMITS {
        let limits = Limits {
            spaces: *spaces,
            bits: *bits,
            frames: *frames,
        };
        let expected = if *served {
            Ok((limits, false))
        } else {
            Err(DbError::BadLimits)
        };
        assert_equal(&rt, made(rt.alloc(), limits), expected, "limits");
    }
}

/// Looks at how an error is written.
fn expect_name(
    rt: &impl Abort,
    alloc: Global,
    error: DbError,
    name: &'static str,
) -> Result<(), AllocError> {
    let told = format!(in alloc; "{error}")?;
    assert_equal(rt, told.as_str(), name, name);
    Ok(())
}

#[test]
fn tells_its_errors_by_name(rt: HostRuntime) -> Result<(), Fail> {
    for (error, name) in &NAMES {
        expect_name(&rt, rt.alloc(), *error, name)?;
    }
    Ok(())
}

/// Looks at a database of three frames that no call has changed.
fn expect_roots(rt: &impl Abort, database: &Database) {
    for page in 0..64 {
        let root = if page < 3 {
            Some((page, ALL, NONE, None))
        } else {
            None
        };
        expect(rt, database, "a new database", (0, page), root);
        expect(rt, database, "a new database", (1, page), None);
    }
}

#[test]
fn holds_each_frame_once_at_the_start(rt: HostRuntime) -> Result<(), Fail> {
    let database = Database::new(rt.alloc(), 2, 18, 3)?;
    expect_roots(&rt, &database);
    Ok(())
}

#[test]
fn maps_a_page_on(rt: HostRuntime) -> Result<(), Fail> {
    let crew = Crew::new(&rt, 1, 256, &NoGate);
    let limits = Limits {
        spaces: 2,
        bits: 18,
        frames: 3,
    };
    work_case(&rt, rt.alloc(), &crew, limits, &[], &MAPPED_ON, false)?;
    Ok(())
}

/// The first held page of a space, from a page on.
fn next_held(
    rt: &impl Abort,
    database: &Database,
    space: u16,
    page: u32,
) -> Result<Option<Place>, DbError> {
    let limits = database.limits();
    assert!(rt; u32::from(space) < limits.spaces);
    database.next_held(space, page)
}

/// A page that is found.
fn held(space: u16, page: u32) -> Option<Place> {
    Some(Place { space, page })
}

#[test]
fn finds_the_first_held_page_from_a_page_on(rt: HostRuntime) -> Result<(), Fail> {
    let crew = Crew::new(&rt, 1, 256, &NoGate);
    let mut database = Database::new(rt.alloc(), 3, 32, 2)?;
    let step = Step::Map((0, 1), (1, 1_048_575));
    work(&rt, &mut database, rt.alloc(), &crew, &step, false)?;
    assert_equal(&rt, next_held(&rt, &database, 0, 0)?, held(0, 0), "0:0");
    assert_equal(&rt, next_held(&rt, &database, 0, 1)?, held(0, 1), "0:1");
    assert_equal(&rt, next_held(&rt, &database, 0, 2)?, None, "0:2");
    let last = held(1, 1_048_575);
    assert_equal(&rt, next_held(&rt, &database, 1, 0)?, last, "1:0");
    let found = next_held(&rt, &database, 1, 1_048_575)?;
    assert_equal(&rt, found, last, "1:1048575");
    let found = next_held(&rt, &database, 1, 1_048_576)?;
    assert_equal(&rt, found, None, "behind space 1");
    assert_equal(&rt, next_held(&rt, &database, 2, 0)?, None, "2:0");
    Ok(())
}
