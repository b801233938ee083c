//! Calls of a database as data, and what its pages hold after them: each is worked, or looked at, by one function.

ghost use Rattle.std.specs.Prelude.{◌≡◌, Some, IfOk};
ghost use Rattle.std.specs.List.{All};
ghost use Rattle.fpage.specs.Fpage.{IsSpaceBits, IsFpageOf};
ghost use Rattle.space.specs.Directory.{pages_of};
ghost use Rattle.mapdb.specs.Held.{index_in, limits_of, IsWithin};

use crate::assertions::{assert_equal, assert_holds};
use crew::Workers;
use fpage::{Access, Control, Fpage, Item, Rights, with_status};
use mapdb::{Database, DbError, Limits, SendReply};
use space::{Entry, Place};
use std::alloc::Global;
use std::process::Abort;

/// All rights.
pub const ALL: Rights = Rights {
    read: true,
    write: true,
    execute: true,
};

/// No write.
pub const READ_EXECUTE: Rights = Rights {
    read: true,
    write: false,
    execute: true,
};

/// No execute.
pub const READ_WRITE: Rights = Rights {
    read: true,
    write: true,
    execute: false,
};

/// No read.
pub const WRITE_EXECUTE: Rights = Rights {
    read: false,
    write: true,
    execute: true,
};

/// Read alone.
pub const READ: Rights = Rights {
    read: true,
    write: false,
    execute: false,
};

/// Execute alone.
pub const EXECUTE: Rights = Rights {
    read: false,
    write: false,
    execute: true,
};

/// No rights, or no status.
pub const NONE: Rights = Rights {
    read: false,
    write: false,
    execute: false,
};

/// No pair of any outcome.
pub const NO_PAIRS: SendReply = SendReply {
    absent: 0,
    norights: 0,
    origin: 0,
    lost: 0,
    extended: 0,
    linked: 0,
};

/// One new mapping.
pub const LINKED: SendReply = SendReply {
    linked: 1,
    ..NO_PAIRS
};

/// The first word of a MapItem whose send base is 0.
pub const MAP: u32 = 8;

/// The first word of a GrantItem whose send base is 0.
pub const GRANT: u32 = 10;

/// A page: its space, and its number in the space.
pub type At = (u16, u32);

/// What is done, one after another.
#[derive(Clone, Copy)]
pub enum Step {
    /// Maps a page to a page of another space that holds nothing, with all its rights.
    Map(At, At),
    /// The same, with these of its rights.
    MapSome(At, At, Rights),
    /// Maps a page to a page of another space with these of its rights, and is answered these counts.
    MapAnswered(At, At, Rights, SendReply),
    /// Sends an item, which is answered these counts: sender, receiver, window, the item's words.
    Send(u16, u16, u32, (u32, u32), SendReply),
    /// Makes an access, which succeeds.
    Touch(At, Access),
    /// Makes accesses by one call: of each whether it succeeds.
    AccessAll(&'static [(At, Access, bool)]),
    /// Unmaps one word, which gives back another: space, control word, word, reply.
    Unmap(u16, u32, u32, u32),
    /// Unmaps two words.
    UnmapTwo(u16, u32, [u32; 2], [u32; 2]),
    /// Clears a space, whose pages and what derives from them have this status.
    Clear(u16, Rights),
}

/// What a page holds: frame, rights, status, and the page from which it came.
pub type Held = (u32, Rights, Rights, Option<At>);

/// What is done, and what pages hold then.
pub struct Case {
    pub name: &'static str,
    pub steps: &'static [Step],
    pub left: &'static [(At, Option<Held>)],
}

/// Cases in databases with these limits, each behind the same steps.
#[derive(Clone, Copy)]
pub struct Group {
    pub limits: Limits,
    pub before: &'static [Step],
    pub cases: &'static [Case],
}

/// The limits of a database of the tests: its spaces have 64 pages, 4,096, or 1,048,576.
fn known_limits(rt: &impl Abort, database: &Database) -> Limits
    ensures bits { IsSpaceBits result.bits }
    ensures limits { limits_of result ≡ database.now.limits }
{
    let limits = database.limits();
    assert!(rt; limits.bits == 18 || limits.bits == 24 || limits.bits == 32);
    limits
}

/// How many pages a space of `2^bits` bytes has, in the databases of the tests.
fn pages_in(rt: &impl Abort, bits: u32) -> u32
    ensures { result ≡ pages_of bits }
{
    match bits {
        18 => 64,
        24 => 4096,
        32 => 1_048_576,
        _ => panic!(rt; "no test has spaces of 2^{bits} bytes"),
    }
}

/// A page of a database's spaces.
pub fn page(rt: &impl Abort, database: &Database, at: At) -> Place
    ensures { IsWithin database.now.limits result }
{
    let limits = known_limits(rt, database);
    let pages = pages_in(rt, limits.bits);
    let (space, page) = at;
    assert!(rt; u32::from(space) < limits.spaces && page < pages);
    Place { space, page }
}

/// Which word is that of a page that has one.
pub fn index_of(rt: &impl Abort, database: &Database, page: Place) -> usize
    requires { IsWithin database.now.limits page }
    ensures { index_in database.now.layout page ≡ Some result }
{
    let Ok(Some(index)) = database.index(page) else {
        panic!(rt; "{page} has no word");
    };
    index
}

/// The word of one page, with these rights.
fn page_word(rt: &impl Abort, page: u32, rights: Rights) -> u32 {
    assert!(rt; page < 1_048_576);
    page * 4096 + 0xc0 + rights.number()
}

/// Looks at a database that was refused memory or a thread: it is halted, and says so to every call.
fn halted(rt: &impl Abort, database: &Database, error: DbError) -> DbError {
    let refused = error == DbError::NoMemory || error == DbError::NoWorker;
    assert_holds(rt, refused, "an error");
    assert!(rt; database.is_halted());
    let root = page(rt, database, (0, 5));
    let answers = (database.entry(root), database.origin(root));
    assert_equal(
        rt,
        answers,
        (Err(DbError::Halted), Err(DbError::Halted)),
        root,
    );
    error
}

/// Sends an item, and looks at the reply.
fn send<T: Workers>(
    rt: &impl Abort,
    database: &mut Database,
    alloc: Global,
    workers: &T,
    from: u16,
    to: u16,
    window: u32,
    item: (u32, u32),
    reply: SendReply,
) -> Result<(), DbError> {
    let bits = known_limits(rt, database).bits;
    let (Ok(window), Ok(item)) = (Fpage::read(window, bits), Item::read(item.0, item.1, bits))
    else {
        panic!(rt; "a word is refused");
    };
    match database.send(alloc, from, to, &window, &[item], workers) {
        Ok(answer) => {
            assert_equal(rt, answer, reply, "a send");
            Ok(())
        }
        Err(error) => Err(halted(rt, database, error)),
    }
}

/// Maps a page to a page of another space with these of its rights, and looks at the reply.
fn map<T: Workers>(
    rt: &impl Abort,
    database: &mut Database,
    alloc: Global,
    workers: &T,
    source: At,
    target: At,
    rights: Rights,
    reply: SendReply,
) -> Result<(), DbError> {
    let window = page_word(rt, target.1, rights);
    let item = (MAP, page_word(rt, source.1, rights));
    send(
        rt, database, alloc, workers, source.0, target.0, window, item, reply,
    )
}

/// The places and kinds of accesses.
fn placed(
    rt: &impl Abort,
    database: &Database,
    alloc: Global,
    accesses: &[(At, Access, bool)],
) -> Result<Vec<(Place, Access)>, DbError>
    ensures { IfOk result (λ placed. All (λ access. IsWithin database.now.limits access.0) placed.items) }
{
    let mut placed = Vec::new(alloc);
    for (at, access, _) in accesses {
        if placed.push((page(rt, database, *at), *access)).is_err() {
            return Err(DbError::NoMemory);
        }
    }
    Ok(placed)
}

/// Looks at what is answered to accesses.
fn expect_answers(rt: &impl Abort, accesses: &[(At, Access, bool)], answers: &[bool]) {
    assert_equal(rt, answers.len(), accesses.len(), "accesses");
    for (answer, (at, _, made)) in answers.iter().zip(accesses) {
        assert_equal(rt, *answer, *made, at.1);
    }
}

/// Makes accesses by one call, and looks at what is answered to each.
fn access_all<T: Workers>(
    rt: &impl Abort,
    database: &mut Database,
    alloc: Global,
    workers: &T,
    accesses: &[(At, Access, bool)],
) -> Result<(), DbError> {
    let placed = placed(rt, database, alloc, accesses)?;
    match database.access_all(alloc, &placed, workers) {
        Ok(answers) => {
            expect_answers(rt, accesses, &answers);
            Ok(())
        }
        Err(error) => Err(halted(rt, database, error)),
    }
}

/// The fpage of a word.
pub fn fpage(rt: &impl Abort, database: &Database, word: u32) -> Fpage
    ensures { IsFpageOf database.now.limits.bits result }
{
    let bits = known_limits(rt, database).bits;
    let Ok(fpage) = Fpage::read(word, bits) else {
        panic!(rt; "the word {word} is refused");
    };
    fpage
}

/// The fpages of words.
pub fn fpages(
    rt: &impl Abort,
    database: &Database,
    alloc: Global,
    words: &[u32],
) -> Result<Vec<Fpage>, DbError>
    ensures { IfOk result (λ fpages. All (IsFpageOf database.now.limits.bits) fpages.items) }
{
    let mut fpages = Vec::new(alloc);
    for word in words {
        if fpages.push(fpage(rt, database, *word)).is_err() {
            return Err(DbError::NoMemory);
        }
    }
    Ok(fpages)
}

/// Looks at the words that come back for words.
fn expect_words(rt: &impl Abort, words: &[u32], status: &[Rights], reply: &[u32]) {
    assert_equal(
        rt,
        (words.len(), status.len()),
        (reply.len(), reply.len()),
        "words",
    );
    for ((word, status), reply) in words.iter().zip(status).zip(reply) {
        assert_equal(rt, with_status(*word, *status), *reply, *word);
    }
}

/// Unmaps words, by recursion if `plain`, and looks at the words that come back.
fn unmap<T: Workers>(
    rt: &impl Abort,
    database: &mut Database,
    alloc: Global,
    workers: &T,
    space: u16,
    control: u32,
    words: &[u32],
    reply: &[u32],
    plain: bool,
) -> Result<(), DbError> {
    let Ok(control) = Control::read(control, words.len()) else {
        panic!(rt; "the control word {control} is refused");
    };
    let fpages = fpages(rt, database, alloc, words)?;
    let answer = if plain {
        database.unmap_plain(alloc, space, control, &fpages)
    } else {
        database.unmap(alloc, space, control, &fpages, workers)
    };
    match answer {
        Ok(status) => {
            expect_words(rt, words, &status, reply);
            Ok(())
        }
        Err(error) => Err(halted(rt, database, error)),
    }
}

/// Clears a space, by recursion if `plain`, and looks at the status that is told.
fn clear<T: Workers>(
    rt: &impl Abort,
    database: &mut Database,
    alloc: Global,
    workers: &T,
    space: u16,
    status: Rights,
    plain: bool,
) -> Result<(), DbError> {
    let answer = if plain {
        database.clear_plain(alloc, space)
    } else {
        database.clear(alloc, space, workers)
    };
    match answer {
        Ok(told) => {
            assert_equal(rt, told, status, space);
            Ok(())
        }
        Err(error) => Err(halted(rt, database, error)),
    }
}

/// Does one step, unmaps and clears by recursion if `plain`.
pub fn work<T: Workers>(
    rt: &impl Abort,
    database: &mut Database,
    alloc: Global,
    workers: &T,
    step: &Step,
    plain: bool,
) -> Result<(), DbError> {
    match step {
        Step::Map(source, target) => {
            map(rt, database, alloc, workers, *source, *target, ALL, LINKED)
        }
        Step::MapSome(source, target, rights) => {
            map(
                rt, database, alloc, workers, *source, *target, *rights, LINKED,
            )
        }
        Step::MapAnswered(source, target, rights, reply) => {
            map(
                rt, database, alloc, workers, *source, *target, *rights, *reply,
            )
        }
        Step::Send(from, to, window, item, reply) => {
            send(
                rt, database, alloc, workers, *from, *to, *window, *item, *reply,
            )
        }
        Step::Touch(at, access) => {
            access_all(rt, database, alloc, workers, &[(*at, *access, true)])
        }
        Step::AccessAll(accesses) => access_all(rt, database, alloc, workers, accesses),
        Step::Unmap(space, control, word, reply) => {
            unmap(
                rt,
                database,
                alloc,
                workers,
                *space,
                *control,
                &[*word],
                &[*reply],
                plain,
            )
        }
        Step::UnmapTwo(space, control, words, reply) => {
            unmap(
                rt, database, alloc, workers, *space, *control, words, reply, plain,
            )
        }
        Step::Clear(space, status) => {
            clear(rt, database, alloc, workers, *space, *status, plain)
        }
    }
}

/// Does steps, one after another.
pub fn work_all<T: Workers>(
    rt: &impl Abort,
    database: &mut Database,
    alloc: Global,
    workers: &T,
    steps: &[Step],
    plain: bool,
) -> Result<(), DbError> {
    for step in steps {
        work(rt, database, alloc, workers, step, plain)?;
    }
    Ok(())
}

/// The entry and the origin of a page.
fn contents(held: Option<Held>) -> (Option<Entry>, Option<Place>) {
    let Some((frame, rights, status, origin)) = held else {
        return (None, None);
    };
    let entry = Entry {
        frame,
        rights,
        status,
    };
    let origin = match origin {
        Some((space, page)) => Some(Place { space, page }),
        None => None,
    };
    (Some(entry), origin)
}

/// Looks at what a page holds.
pub fn expect(rt: &impl Abort, database: &Database, name: &str, at: At, held: Option<Held>) {
    let place = page(rt, database, at);
    let (entry, origin) = contents(held);
    let found = (database.entry(place), database.origin(place));
    assert_equal(
        rt,
        found,
        (Ok(entry), Ok(origin)),
        format_args!("{name}: {place}"),
    );
}

/// Works a case in a database, and looks at what is left.
pub fn work_in<T: Workers>(
    rt: &impl Abort,
    database: &mut Database,
    alloc: Global,
    workers: &T,
    case: &Case,
    plain: bool,
) -> Result<(), DbError> {
    work_all(rt, database, alloc, workers, case.steps, plain)?;
    for (at, held) in case.left {
        expect(rt, database, case.name, *at, *held);
    }
    assert!(rt; !database.is_halted());
    Ok(())
}

/// Works a case after other steps in a database, and looks at what is left.
fn work_after<T: Workers>(
    rt: &impl Abort,
    database: &mut Database,
    alloc: Global,
    workers: &T,
    before: &[Step],
    case: &Case,
    plain: bool,
) -> Result<(), DbError> {
    work_all(rt, database, alloc, workers, before, plain)?;
    work_in(rt, database, alloc, workers, case, plain)
}

/// The same in a database of its own with these limits.
pub fn work_case<T: Workers>(
    rt: &impl Abort,
    alloc: Global,
    workers: &T,
    limits: Limits,
    before: &[Step],
    case: &Case,
    plain: bool,
) -> Result<(), DbError> {
    let mut database = Database::new(alloc, limits.spaces, limits.bits, limits.frames)?;
    work_after(rt, &mut database, alloc, workers, before, case, plain)
}

/// The same with all cases of groups.
pub fn work_groups<T: Workers>(
    rt: &impl Abort,
    alloc: Global,
    workers: &T,
    groups: &[Group],
    plain: bool,
) -> Result<(), DbError> {
    for group in groups {
        for case in group.cases {
            work_case(rt, alloc, workers, group.limits, group.before, case, plain)?;
        }
    }
    Ok(())
}
