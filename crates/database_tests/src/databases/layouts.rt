//! Which word is that of a page: a page has one once a page of its shard was held.

use super::calls::{At, Step, page, work_all};
use crate::assertions::assert_equal;
use crew::{Crew, NoGate};
use fpage::Access;
use mapdb::Database;
use std::process::Abort;
use std::test::Fail;

/// Steps, and the words of pages after them.
struct Moment {
    name: &'static str,
    steps: &'static [Step],
    words: &'static [(At, Option<usize>)],
}

/// A shard has the words of 64 pages. The first page of a shard of space `s` has word `8 * s` of it, the others follow,
/// and those past the end go round to its front. Shards stand in the order in which they were made.
static MOMENTS: [Moment; 4] = [
    Moment {
        name: "at the start",
        steps: &[],
        words: &[
            ((0, 5), Some(5)),
            ((0, 64), Some(64)),
            // The page holds nothing, and its shard is there.
            ((0, 127), Some(127)),
            ((0, 128), None),
            ((1, 0), None),
            ((2, 64), None),
        ],
    },
    Moment {
        name: "after a send",
        steps: &[Step::Map((0, 5), (1, 0))],
        words: &[
            ((0, 5), Some(5)),
            ((0, 127), Some(127)),
            ((0, 128), None),
            ((1, 0), Some(136)),
            ((1, 55), Some(191)),
            ((1, 63), Some(135)),
            ((1, 64), None),
            ((2, 64), None),
        ],
    },
    Moment {
        name: "after an access and a flush",
        steps: &[
            Step::Touch((1, 0), Access::Read),
            Step::Unmap(1, 0x40, 0xc7, 0xc4),
        ],
        words: &[
            ((0, 5), Some(5)),
            ((1, 0), Some(136)),
            ((1, 64), None),
            ((2, 64), None),
        ],
    },
    Moment {
        name: "after another send",
        steps: &[Step::Map((0, 5), (2, 64))],
        words: &[
            ((0, 5), Some(5)),
            ((0, 127), Some(127)),
            ((1, 0), Some(136)),
            ((1, 63), Some(135)),
            ((1, 64), None),
            ((2, 64), Some(208)),
            ((2, 63), None),
        ],
    },
];

/// Looks at the words of pages.
fn expect_words(rt: &impl Abort, database: &Database, name: &str, words: &[(At, Option<usize>)]) {
    for (at, word) in words {
        let place = page(rt, database, *at);
        let found = database.index(place);
        assert_equal(rt, found, Ok(*word), format_args!("{name}: {place}"));
    }
}

#[test]
fn a_word_stays_where_it_is(rt: HostRuntime) -> Result<(), Fail> {
    let crew = Crew::new(&rt, 2, 1, &NoGate);
    let mut database = Database::new(rt.alloc(), 3, 24, 65)?;
    for moment in &MOMENTS {
        work_all(&rt, &mut database, rt.alloc(), &crew, moment.steps, false)?;
        expect_words(&rt, &database, moment.name, moment.words);
    }
    Ok(())
}
