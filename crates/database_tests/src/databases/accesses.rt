//! Accesses in pieces, with answers that are worked out by hand.

use super::calls::{ALL, At, Case, Held, NONE, READ_EXECUTE, READ_WRITE, Step, work_case};
use crew::{Crew, NoGate, Workers};
use fpage::Access;
use mapdb::{DbError, Limits};
use std::alloc::Global;
use std::process::Abort;
use std::test::Fail;

/// Accesses by one call.
const SIX: [(At, Access, bool); 6] = [
    ((0, 0), Access::Read, true),
    ((0, 4), Access::Read, false),
    ((0, 1), Access::Write, true),
    ((1, 0), Access::Execute, false),
    ((0, 2), Access::Execute, true),
    ((0, 0), Access::Execute, true),
];

/// Accesses of pages of which nothing was ever held, by one call.
const ABSENT: [(At, Access, bool); 2] = [
    ((1, 0), Access::Read, false),
    ((1, 63), Access::Write, false),
];

/// The six accesses and what they leave, also after a call of no access, and accesses that are all faults.
const CASES: [Case; 3] = [
    Case {
        name: "six accesses",
        steps: &[Step::AccessAll(&SIX)],
        left: &LEFT,
    },
    Case {
        name: "six accesses, and none",
        steps: &[Step::AccessAll(&SIX), Step::AccessAll(&[])],
        left: &LEFT,
    },
    Case {
        name: "accesses of absent pages",
        steps: &[Step::AccessAll(&ABSENT), Step::AccessAll(&SIX)],
        left: &LEFT,
    },
];

const LEFT: [(At, Option<Held>); 6] = [
    ((0, 0), Some((0, ALL, READ_EXECUTE, None))),
    ((0, 1), Some((1, ALL, READ_WRITE, None))),
    ((0, 2), Some((2, ALL, READ_EXECUTE, None))),
    ((0, 3), Some((3, ALL, NONE, None))),
    ((0, 4), None),
    ((1, 0), None),
];

/// Six accesses in two spaces of four frames, worked by these workers, and what they leave; and none.
fn access_six<T: Workers>(rt: &impl Abort, alloc: Global, workers: &T) -> Result<(), DbError> {
    let limits = Limits {
        spaces: 2,
        bits: 18,
        frames: 4,
    };
    for case in &CASES {
        work_case(rt, alloc, workers, limits, &[], case, false)?;
    }
    Ok(())
}

#[test]
fn marks_the_status_of_accesses_in_turn(rt: HostRuntime) -> Result<(), Fail> {
    for length in [1, 4, 256] {
        access_six(&rt, rt.alloc(), &Crew::new(&rt, 1, length, &NoGate))?;
    }
    Ok(())
}

#[test]
fn marks_the_same_with_a_crew(rt: HostRuntime) -> Result<(), Fail> {
    for (workers, length) in [(1, 1), (4, 1), (64, 4)] {
        access_six(&rt, rt.alloc(), &Crew::new(&rt, workers, length, &NoGate))?;
    }
    Ok(())
}
