//! Items with many pages of one frame, with answers that are worked out by hand.

use super::calls::{ALL, Case, GRANT, MAP, NO_PAIRS, NONE, Step, work_case};
use crew::{Crew, NoGate};
use mapdb::{Limits, SendReply};
use std::test::Fail;

/// The word of pages 0 and 1, with all rights.
const TWO: u32 = 0xd7;

/// The word of pages 0 to 15, with all rights.
const SIXTEEN: u32 = 0x107;

/// The word of pages 16 to 31, with all rights.
const NEXT_SIXTEEN: u32 = 0x1_0107;

/// The root's page, passed on to pages 0 to 15 of the other space, one after another.
static PASSED_ON: [Step; 16] = [
    Step::Map((0, 0), (1, 0)),
    Step::Map((0, 0), (1, 1)),
    Step::Map((0, 0), (1, 2)),
    Step::Map((0, 0), (1, 3)),
    Step::Map((0, 0), (1, 4)),
    Step::Map((0, 0), (1, 5)),
    Step::Map((0, 0), (1, 6)),
    Step::Map((0, 0), (1, 7)),
    Step::Map((0, 0), (1, 8)),
    Step::Map((0, 0), (1, 9)),
    Step::Map((0, 0), (1, 10)),
    Step::Map((0, 0), (1, 11)),
    Step::Map((0, 0), (1, 12)),
    Step::Map((0, 0), (1, 13)),
    Step::Map((0, 0), (1, 14)),
    Step::Map((0, 0), (1, 15)),
];

static SENT: Case = Case {
    name: "many pages of one frame",
    steps: &[
        // The root is an origin of 1:0; 0:1 holds nothing.
        Step::Send(
            1,
            0,
            TWO,
            (MAP, TWO),
            SendReply {
                origin: 1,
                linked: 1,
                ..NO_PAIRS
            },
        ),
        Step::Send(
            1,
            0,
            TWO,
            (MAP, TWO),
            SendReply {
                origin: 1,
                extended: 1,
                ..NO_PAIRS
            },
        ),
        Step::Send(
            1,
            0,
            SIXTEEN,
            (MAP, SIXTEEN),
            SendReply {
                origin: 1,
                extended: 1,
                linked: 14,
                ..NO_PAIRS
            },
        ),
        Step::Send(
            1,
            0,
            SIXTEEN,
            (MAP, SIXTEEN),
            SendReply {
                origin: 1,
                extended: 15,
                ..NO_PAIRS
            },
        ),
        // 1:0 has the root's page from the root, and each other source has its page from its target.
        Step::Send(
            0,
            1,
            SIXTEEN,
            (MAP, SIXTEEN),
            SendReply {
                origin: 15,
                extended: 1,
                ..NO_PAIRS
            },
        ),
        // What the targets hold derives from the sources, and a grant replaces it.
        Step::Send(
            1,
            0,
            SIXTEEN,
            (GRANT, SIXTEEN),
            SendReply {
                origin: 1,
                linked: 15,
                ..NO_PAIRS
            },
        ),
        Step::Send(
            0,
            1,
            SIXTEEN,
            (MAP, SIXTEEN),
            SendReply {
                extended: 1,
                linked: 15,
                ..NO_PAIRS
            },
        ),
        Step::Send(
            0,
            1,
            NEXT_SIXTEEN,
            (MAP, SIXTEEN),
            SendReply {
                linked: 16,
                ..NO_PAIRS
            },
        ),
    ],
    left: &[
        ((0, 3), Some((0, ALL, NONE, Some((0, 0))))),
        ((1, 0), Some((0, ALL, NONE, Some((0, 0))))),
        ((1, 3), Some((0, ALL, NONE, Some((0, 3))))),
        ((1, 16), Some((0, ALL, NONE, Some((0, 0))))),
        ((1, 19), Some((0, ALL, NONE, Some((0, 3))))),
        ((1, 31), Some((0, ALL, NONE, Some((0, 15))))),
    ],
};

#[test]
fn works_many_pages_of_one_frame(rt: HostRuntime) -> Result<(), Fail> {
    let crew = Crew::new(&rt, 1, 2, &NoGate);
    let limits = Limits {
        spaces: 2,
        bits: 18,
        frames: 1,
    };
    work_case(&rt, rt.alloc(), &crew, limits, &PASSED_ON, &SENT, false)?;
    Ok(())
}
