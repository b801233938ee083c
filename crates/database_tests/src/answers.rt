//! Calls as values: each is answered as its record is, also by recursion.

use crate::assertions::assert_equal;
use crate::traces::record_of;
use crew::Alone;
use mapdb::{Database, Scratch};
use std::alloc::Global;
use std::process::Abort;
use std::test::Fail;
use trace::{Reply, Version, reply_text};

/// Records for three spaces of 64 pages and two frames, and the lines of their replies, worked out by hand.
static ANSWERED: [(&str, &str); 12] = [
    (
        "send,0,1,10,8,c7",
        "1 send absent=0 norights=0 origin=0 lost=0 extended=0 linked=1\n",
    ),
    ("send,0,0,10,8,c7", "2 refused SameSpace\n"),
    ("send,0,7,10,8,c7", "3 refused NoSuchSpace\n"),
    ("send,0,1,0,8,c7", "4 refused NoWindow\n"),
    ("access,1,0,w", "5 access ok\n"),
    ("access,2,0,r", "6 access fault\n"),
    ("unmap,0,0,c2", "7 unmap 000000c6\n"),
    ("access,1,0,w", "8 access fault\n"),
    ("unmap,3,0,c2", "9 refused NoSuchSpace\n"),
    ("access,1,0,x", "10 access ok\n"),
    ("clear,1", "11 clear 00000015\n"),
    ("clear,3", "12 refused NoSuchSpace\n"),
];

/// The reply to a call; by recursion if `plain`.
fn answer(
    rt: &impl Abort,
    alloc: Global,
    database: &mut Database,
    text: &str,
    plain: bool,
) -> Result<Reply, Fail> {
    let limits = database.limits();
    assert!(rt; limits.are_served());
    let record = record_of(alloc, Version::Two, text)?;
    let call = match record.call(alloc, &limits)? {
        Ok(call) => call,
        Err(refusal) => return Ok(Reply::Refused(refusal)),
    };
    let mut scratch = Scratch::new(alloc);
    Ok(database.answer(alloc, &call, &mut scratch, &Alone, plain)?)
}

/// Answers the records one after another, and looks at the lines of the replies.
fn expect_lines(rt: &impl Abort, alloc: Global, plain: bool) -> Result<(), Fail> {
    let mut database = Database::new(alloc, 3, 18, 2)?;
    for (i, (text, line)) in ANSWERED.iter().enumerate() {
        let reply = answer(rt, alloc, &mut database, text, plain)?;
        let told = reply_text(alloc, i as u64 + 1, &reply)?;
        assert_equal(rt, told.as_slice(), line.as_bytes(), *text);
    }
    Ok(())
}

#[test]
fn answers_a_call_as_its_record(rt: HostRuntime) -> Result<(), Fail> {
    expect_lines(&rt, rt.alloc(), false)
}

#[test]
fn answers_a_call_by_recursion_as_its_record(rt: HostRuntime) -> Result<(), Fail> {
    expect_lines(&rt, rt.alloc(), true)
}
