//! A chain of ten thousand mappings, each below the one before, revoked by recursion.

use super::calls::{ALL, At, Case, NONE, READ_EXECUTE, Step, work, work_in};
use crew::{Crew, NoGate, Workers};
use mapdb::{Database, DbError};
use std::alloc::Global;
use std::process::Abort;
use std::sync::Wait;
use std::test::Fail;
use std::thread::Threads;

/// How many mappings stand below the root.
const LENGTH: u32 = 10_000;

/// The root, page 0 of space 0, has write and then all rights taken from what derives from it. No page has seen an access, so
/// no status comes back.
static CASES: [Case; 3] = [
    Case {
        name: "a chain",
        steps: &[],
        left: &[((0, 2500), Some((0, ALL, NONE, Some((3, 2499)))))],
    },
    Case {
        name: "a chain without write",
        steps: &[Step::Unmap(0, 0, 0xc2, 0xc0)],
        left: &[
            ((0, 0), Some((0, ALL, NONE, None))),
            ((0, 2500), Some((0, READ_EXECUTE, NONE, Some((3, 2499))))),
        ],
    },
    Case {
        name: "a chain that is revoked",
        steps: &[Step::Unmap(0, 0, 0xc7, 0xc0)],
        left: &[
            ((0, 0), Some((0, ALL, NONE, None))),
            ((1, 0), None),
            ((0, 1250), None),
            ((0, 2500), None),
        ],
    },
];

/// The page that so many mappings lead to from the root: the four spaces take turns.
fn at(below: u32) -> At {
    ((below % 4) as u16, below / 4)
}

/// Maps the last page of the chain on, to a page that holds nothing, until the chain has its length.
fn extend<T: Workers>(
    rt: &impl Abort,
    database: &mut Database,
    alloc: Global,
    workers: &T,
) -> Result<(), DbError> {
    for below in 0..LENGTH {
        let step = Step::Map(at(below), at(below + 1));
        work(rt, database, alloc, workers, &step, true)?;
    }
    Ok(())
}

/// Makes the chain, and works the cases one after another, by the recursion.
fn extend_and_revoke<T: Workers>(
    rt: &impl Abort,
    database: &mut Database,
    alloc: Global,
    workers: &T,
) -> Result<(), DbError> {
    extend(rt, database, alloc, workers)?;
    for case in &CASES {
        work_in(rt, database, alloc, workers, case, true)?;
    }
    Ok(())
}

/// The same in a database of its own.
fn work_chain(rt: &(impl Abort + Threads + Wait + Sync), alloc: Global) -> Result<(), DbError> {
    let mut database = Database::new(alloc, 4, 24, 1)?;
    let crew = Crew::new(rt, 1, 256, &NoGate);
    extend_and_revoke(rt, &mut database, alloc, &crew)
}

#[test]
fn revokes_a_long_chain(rt: HostRuntime) -> Result<(), Fail> {
    work_chain(&rt, rt.alloc())?;
    Ok(())
}
