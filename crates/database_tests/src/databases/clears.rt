//! Clears of spaces, with answers that are worked out by hand.

use super::calls::{
    ALL, Case, GRANT, Group, LINKED, NONE, READ, READ_EXECUTE, READ_WRITE, Step, work_groups,
};
use super::unmaps::CHAIN;
use crate::assertions::assert_equal;
use crew::{Crew, NoGate};
use fpage::Access;
use mapdb::{Database, DbError, Limits};
use std::test::Fail;

static CASES: [Case; 5] = [
    Case {
        name: "a space in the middle of a chain",
        steps: &[
            Step::Touch((2, 0), Access::Write),
            Step::Clear(1, READ_WRITE),
            Step::AccessAll(&[((1, 0), Access::Read, false), ((2, 0), Access::Read, false)]),
        ],
        left: &[
            ((0, 5), Some((5, ALL, READ_WRITE, None))),
            ((1, 0), None),
            ((2, 0), None),
        ],
    },
    Case {
        name: "the end of a chain, and then a space that holds nothing",
        steps: &[
            Step::Touch((2, 0), Access::Read),
            Step::Clear(2, READ),
            Step::Clear(2, NONE),
        ],
        left: &[
            ((0, 5), Some((5, ALL, NONE, None))),
            ((1, 0), Some((5, ALL, READ, Some((0, 5))))),
            ((2, 0), None),
        ],
    },
    Case {
        name: "a space with a nested mapping of its own",
        steps: &[
            Step::Map((2, 0), (1, 3)),
            Step::Touch((1, 3), Access::Execute),
            Step::Touch((2, 0), Access::Write),
            Step::Clear(1, ALL),
        ],
        left: &[
            ((0, 5), Some((5, ALL, ALL, None))),
            ((1, 0), None),
            ((1, 3), None),
            ((2, 0), None),
        ],
    },
    Case {
        name: "pages from two origins outside, and from one in the space itself",
        steps: &[
            Step::Send(2, 1, 0x40c0, (GRANT, 0xc7), LINKED),
            Step::Map((0, 6), (1, 6)),
            Step::Touch((1, 4), Access::Write),
            Step::Touch((1, 6), Access::Execute),
            Step::Touch((1, 0), Access::Read),
            Step::Clear(1, ALL),
        ],
        left: &[
            ((0, 5), Some((5, ALL, READ_WRITE, None))),
            ((0, 6), Some((6, ALL, READ_EXECUTE, None))),
            ((1, 0), None),
            ((1, 4), None),
            ((1, 6), None),
        ],
    },
    Case {
        name: "space 0, one of whose frames was granted away",
        steps: &[
            Step::Send(0, 1, 0x60c0, (GRANT, 0x60c7), LINKED),
            Step::Touch((2, 0), Access::Write),
            Step::Clear(0, READ_WRITE),
        ],
        left: &[
            ((0, 0), None),
            ((0, 5), None),
            ((0, 15), None),
            ((1, 0), None),
            ((2, 0), None),
            ((1, 6), Some((6, ALL, NONE, None))),
        ],
    },
];

/// The first and the last page of a space of 2^32 bytes.
static ENDS_OF_MANY: [Case; 1] = [Case {
    name: "the largest space, of which two pages are held",
    steps: &[
        Step::Map((0, 0), (1, 0)),
        Step::Map((0, 1), (1, 1_048_575)),
        Step::Touch((1, 1_048_575), Access::Write),
        Step::Clear(1, READ_WRITE),
    ],
    left: &[
        ((0, 0), Some((0, ALL, NONE, None))),
        ((0, 1), Some((1, ALL, READ_WRITE, None))),
        ((1, 0), None),
        ((1, 1_048_575), None),
    ],
}];

/// The cases, by the limits of their databases.
fn groups() -> [Group; 2] {
    [
        Group {
            limits: Limits {
                spaces: 3,
                bits: 18,
                frames: 16,
            },
            before: &CHAIN,
            cases: &CASES,
        },
        Group {
            limits: Limits {
                spaces: 2,
                bits: 32,
                frames: 2,
            },
            before: &[],
            cases: &ENDS_OF_MANY,
        },
    ]
}

#[test]
fn takes_all_pages_from_a_space(rt: HostRuntime) -> Result<(), Fail> {
    work_groups(
        &rt,
        rt.alloc(),
        &Crew::new(&rt, 1, 1, &NoGate),
        &groups(),
        false,
    )?;
    Ok(())
}

#[test]
fn takes_all_pages_from_a_space_with_a_crew(rt: HostRuntime) -> Result<(), Fail> {
    work_groups(
        &rt,
        rt.alloc(),
        &Crew::new(&rt, 4, 1, &NoGate),
        &groups(),
        false,
    )?;
    Ok(())
}

#[test]
fn takes_all_pages_from_a_space_by_recursion(rt: HostRuntime) -> Result<(), Fail> {
    work_groups(
        &rt,
        rt.alloc(),
        &Crew::new(&rt, 1, 256, &NoGate),
        &groups(),
        true,
    )?;
    Ok(())
}

#[test]
fn refuses_to_clear_a_space_that_there_is_not(rt: HostRuntime) -> Result<(), Fail> {
    let crew = Crew::new(&rt, 1, 256, &NoGate);
    let mut database = Database::new(rt.alloc(), 3, 18, 1)?;
    let refused = Err(DbError::NoSuchSpace);
    let answer = database.clear(rt.alloc(), 3, &crew);
    assert_equal(&rt, answer, refused, "a clear");
    let answer = database.clear_plain(rt.alloc(), 65535);
    assert_equal(&rt, answer, refused, "a clear by recursion");
    Ok(())
}
