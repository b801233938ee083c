//! Calls in three spaces of sixteen frames, with answers that are worked out by hand.

use super::calls::{
    ALL, Case, EXECUTE, Group, LINKED, MAP, NO_PAIRS, NONE, READ, READ_EXECUTE, READ_WRITE, Step,
    work_groups,
};
use crew::{Crew, NoGate};
use fpage::Access;
use mapdb::{Limits, SendReply};
use std::test::Fail;

/// Frame 5 goes from 0:5 to 1:0 and on to 2:0, before the steps of each case.
pub static CHAIN: [Step; 2] = [Step::Map((0, 5), (1, 0)), Step::Map((1, 0), (2, 0))];

static CASES: [Case; 17] = [
    Case {
        name: "what derives loses a right, and the caller keeps it",
        steps: &[Step::Unmap(0, 0, 0x50c2, 0x50c0)],
        left: &[
            ((0, 5), Some((5, ALL, NONE, None))),
            ((1, 0), Some((5, READ_EXECUTE, NONE, Some((0, 5))))),
            ((2, 0), Some((5, READ_EXECUTE, NONE, Some((1, 0))))),
        ],
    },
    Case {
        name: "status comes back once, and goes to the origin outside",
        steps: &[
            Step::Touch((2, 0), Access::Write),
            Step::Unmap(1, 0, 0x10, 0x16),
            Step::Unmap(1, 0, 0x10, 0x10),
            Step::Unmap(0, 0, 0x10, 0x16),
        ],
        left: &[
            ((0, 5), Some((5, ALL, NONE, None))),
            ((1, 0), Some((5, ALL, NONE, Some((0, 5))))),
            ((2, 0), Some((5, ALL, NONE, Some((1, 0))))),
        ],
    },
    Case {
        name: "a nested mapping in the caller's own space loses the right",
        steps: &[Step::Map((2, 0), (1, 3)), Step::Unmap(1, 0, 0x12, 0x10)],
        left: &[
            ((0, 5), Some((5, ALL, NONE, None))),
            ((1, 0), Some((5, ALL, NONE, Some((0, 5))))),
            ((2, 0), Some((5, READ_EXECUTE, NONE, Some((1, 0))))),
            ((1, 3), Some((5, READ_EXECUTE, NONE, Some((2, 0))))),
        ],
    },
    Case {
        name: "a flush of a nested mapping with the lower page takes the higher too",
        steps: &[Step::Map((2, 0), (1, 3)), Step::Unmap(1, 0x40, 0xc7, 0xc0)],
        left: &[
            ((0, 5), Some((5, ALL, NONE, None))),
            ((1, 0), None),
            ((2, 0), None),
            ((1, 3), None),
        ],
    },
    Case {
        name: "two branches add to the status of one origin",
        steps: &[
            Step::Map((0, 5), (1, 3)),
            Step::Touch((1, 0), Access::Read),
            Step::Touch((1, 3), Access::Execute),
            Step::Unmap(1, 0, 0x10, 0x15),
            Step::Unmap(0, 0, 0x50c0, 0x50c5),
        ],
        left: &[
            ((0, 5), Some((5, ALL, NONE, None))),
            ((1, 0), Some((5, ALL, NONE, Some((0, 5))))),
            ((1, 3), Some((5, ALL, NONE, Some((0, 5))))),
        ],
    },
    Case {
        name: "a nilpage names no page, and its bit 3 comes back as given",
        steps: &[Step::Unmap(1, 0, 0, 0), Step::Unmap(1, 0, 0xf, 8)],
        left: &[
            ((0, 5), Some((5, ALL, NONE, None))),
            ((1, 0), Some((5, ALL, NONE, Some((0, 5))))),
            ((2, 0), Some((5, ALL, NONE, Some((1, 0))))),
        ],
    },
    Case {
        name: "a flush of the complete space by the root leaves nothing",
        steps: &[Step::Unmap(0, 0x40, 0x17, 0x10)],
        left: &[((0, 5), None), ((1, 0), None), ((2, 0), None)],
    },
    Case {
        name: "two words of one flush: the page is gone when no right is left",
        steps: &[
            Step::Touch((2, 0), Access::Execute),
            Step::UnmapTwo(1, 0x41, [0xc2, 0xc5], [0xc5, 0xc0]),
        ],
        left: &[
            ((0, 5), Some((5, ALL, READ_EXECUTE, None))),
            ((1, 0), None),
            ((2, 0), None),
        ],
    },
    Case {
        name: "two words take two rights from what derives",
        steps: &[Step::UnmapTwo(0, 1, [0x50c2, 0x50c4], [0x50c0, 0x50c0])],
        left: &[
            ((0, 5), Some((5, ALL, NONE, None))),
            ((1, 0), Some((5, EXECUTE, NONE, Some((0, 5))))),
            ((2, 0), Some((5, EXECUTE, NONE, Some((1, 0))))),
        ],
    },
    Case {
        name: "a page mapped without execute keeps read, and its status comes back",
        steps: &[
            Step::MapSome((0, 5), (1, 3), READ_WRITE),
            Step::Touch((1, 3), Access::Write),
            Step::Unmap(0, 0, 0x50c2, 0x50c6),
        ],
        left: &[
            ((0, 5), Some((5, ALL, NONE, None))),
            ((1, 0), Some((5, READ_EXECUTE, NONE, Some((0, 5))))),
            ((2, 0), Some((5, READ_EXECUTE, NONE, Some((1, 0))))),
            ((1, 3), Some((5, READ, NONE, Some((0, 5))))),
        ],
    },
    Case {
        name: "a page that is granted takes what derives from it along, with the rights that are left",
        steps: &[Step::Send(1, 2, 0x40c0, (0xa, 0xc4), LINKED)],
        left: &[
            ((0, 5), Some((5, ALL, NONE, None))),
            ((1, 0), None),
            ((2, 0), Some((5, READ, NONE, Some((2, 4))))),
            ((2, 4), Some((5, READ, NONE, Some((0, 5))))),
        ],
    },
    Case {
        name: "two pages of one chain are granted at once",
        steps: &[
            Step::Map((2, 0), (1, 3)),
            Step::Send(
                1,
                2,
                0x40e0,
                (0xa, 0xe7),
                SendReply {
                    absent: 2,
                    linked: 2,
                    ..NO_PAIRS
                },
            ),
        ],
        left: &[
            ((1, 0), None),
            ((1, 3), None),
            ((2, 0), Some((5, ALL, NONE, Some((2, 4))))),
            ((2, 4), Some((5, ALL, NONE, Some((0, 5))))),
            ((2, 7), Some((5, ALL, NONE, Some((2, 0))))),
        ],
    },
    Case {
        name: "a source that the item's own flush takes is lost",
        steps: &[
            Step::Map((0, 5), (1, 2)),
            Step::Map((1, 2), (2, 3)),
            Step::Map((0, 5), (2, 2)),
            Step::Send(
                2,
                1,
                0x20d0,
                (8, 0x20d7),
                SendReply {
                    lost: 1,
                    linked: 1,
                    ..NO_PAIRS
                },
            ),
        ],
        left: &[
            ((2, 2), Some((5, ALL, NONE, Some((0, 5))))),
            ((1, 2), Some((5, ALL, NONE, Some((2, 2))))),
            ((2, 3), None),
            ((1, 3), None),
        ],
    },
    Case {
        name: "a mapping of the same page gains a right",
        steps: &[
            Step::MapSome((0, 5), (1, 3), READ),
            Step::Send(
                0,
                1,
                0x30c0,
                (8, 0x50c2),
                SendReply {
                    extended: 1,
                    ..NO_PAIRS
                },
            ),
        ],
        left: &[((1, 3), Some((5, READ_WRITE, NONE, Some((0, 5)))))],
    },
    Case {
        name: "an origin of the source is left alone",
        steps: &[Step::Send(
            2,
            1,
            0xc0,
            (8, 0xc7),
            SendReply {
                origin: 1,
                ..NO_PAIRS
            },
        )],
        left: &[
            ((1, 0), Some((5, ALL, NONE, Some((0, 5))))),
            ((2, 0), Some((5, ALL, NONE, Some((1, 0))))),
        ],
    },
    Case {
        name: "a target that is replaced takes along what derives from it",
        steps: &[Step::Send(0, 1, 0xc0, (8, 0x70c7), LINKED)],
        left: &[
            ((0, 7), Some((7, ALL, NONE, None))),
            ((1, 0), Some((7, ALL, NONE, Some((0, 7))))),
            ((2, 0), None),
        ],
    },
    Case {
        name: "the status of what is replaced goes to its origin",
        steps: &[
            Step::Touch((2, 0), Access::Write),
            Step::Send(0, 1, 0xc0, (8, 0x70c7), LINKED),
        ],
        left: &[((0, 5), Some((5, ALL, READ_WRITE, None))), ((2, 0), None)],
    },
];

/// Two pages of different shards are held, of a space whose other shards are not there.
static FEW_OF_MANY: [Case; 1] = [Case {
    name: "complete spaces of which two pages are held",
    steps: &[
        Step::Map((0, 0), (1, 70)),
        Step::Map((0, 1), (1, 4000)),
        Step::Send(
            1,
            2,
            0x10,
            (MAP, 0x17),
            SendReply {
                absent: 4094,
                linked: 2,
                ..NO_PAIRS
            },
        ),
        Step::Touch((2, 4000), Access::Write),
        Step::Unmap(1, 0, 0x12, 0x16),
        Step::Unmap(2, 0x40, 0x17, 0x10),
    ],
    left: &[
        ((0, 0), Some((0, ALL, NONE, None))),
        ((0, 1), Some((1, ALL, READ_WRITE, None))),
        ((1, 70), Some((0, ALL, NONE, Some((0, 0))))),
        ((1, 4000), Some((1, ALL, NONE, Some((0, 1))))),
        ((2, 70), None),
        ((2, 4000), None),
    ],
}];

/// The last page of a space of 2^32 bytes is mapped, written to, and loses a right.
static LAST_PAGE_OF_MANY: [Case; 1] = [Case {
    name: "the last page of the largest space",
    steps: &[
        Step::MapSome((0, 0), (1, 1_048_575), READ_WRITE),
        Step::Touch((1, 1_048_575), Access::Write),
        Step::Unmap(0, 0, 0xc2, 0xc6),
    ],
    left: &[
        ((0, 0), Some((0, ALL, NONE, None))),
        ((1, 1_048_575), Some((0, READ, NONE, Some((0, 0))))),
        ((1, 0), None),
        ((1, 1_048_574), None),
    ],
}];

/// The cases, by the limits of their databases.
fn groups() -> [Group; 3] {
    [
        Group {
            limits: Limits {
                spaces: 3,
                bits: 18,
                frames: 16,
            },
            before: &CHAIN,
            cases: &CASES,
        },
        Group {
            limits: Limits {
                spaces: 3,
                bits: 24,
                frames: 2,
            },
            before: &[],
            cases: &FEW_OF_MANY,
        },
        Group {
            limits: Limits {
                spaces: 2,
                bits: 32,
                frames: 1,
            },
            before: &[],
            cases: &LAST_PAGE_OF_MANY,
        },
    ]
}

#[test]
fn revokes_what_derives(rt: HostRuntime) -> Result<(), Fail> {
    work_groups(
        &rt,
        rt.alloc(),
        &Crew::new(&rt, 1, 1, &NoGate),
        &groups(),
        false,
    )?;
    Ok(())
}

#[test]
fn revokes_what_derives_with_a_crew(rt: HostRuntime) -> Result<(), Fail> {
    work_groups(
        &rt,
        rt.alloc(),
        &Crew::new(&rt, 4, 1, &NoGate),
        &groups(),
        false,
    )?;
    Ok(())
}

#[test]
fn revokes_by_recursion(rt: HostRuntime) -> Result<(), Fail> {
    work_groups(
        &rt,
        rt.alloc(),
        &Crew::new(&rt, 1, 256, &NoGate),
        &groups(),
        true,
    )?;
    Ok(())
}
