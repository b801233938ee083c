//! Traces read from memory, records that mean calls and refusals, and the text of replies.

ghost use Rattle.std.specs.Prelude.{◌≡◌, false, true};
ghost use Rattle.model.specs.Definitions.Records.{are_limits};
ghost use Rattle.mapdb.specs.Held.{limits_of};

use crate::assertions::{assert_equal, assert_holds};
use fpage::{Access, Fpage, Item, ItemKind, Rights};
use mapdb::{Limits, SendReply};
use space::{NoMemory, Place};
use std::alloc::{AllocError, Global};
use std::fmt::Write;
use std::process::Abort;
use trace::{
    Call, Failed, Record, Refusal, Reply, Source, Std, Trace, TraceError, TraceReader, Version,
    push_reply, read_all, reply_text,
};

/// Appends the fields of a record, each in brackets, and a line end.
fn push_fields(text: &mut Vec<u8>, record: &Record) -> Result<(), AllocError> {
    let mut fields = record.fields();
    for _ in 0..u64::MAX {
        let Some(field) = fields.take() else {
            break;
        };
        text.push(b'[')?;
        text.extend_from_slice(field)?;
        text.push(b']')?;
    }
    text.push(b'\n')?;
    Ok(())
}

/// Looks at the fields of a trace's records, each in brackets, and each record on a line.
fn expect_records(
    rt: &impl Abort,
    alloc: Global,
    trace: &Trace,
    records: &str,
) -> Result<(), NoMemory> {
    let mut text = Vec::new(alloc);
    for record in &trace.records {
        push_fields(&mut text, record)?;
    }
    assert_equal(rt, text.as_slice(), records.as_bytes(), "the records");
    Ok(())
}

/// Traces, with the spaces, bits and frames of their limits, and the records as they are listed.
static TRACES: [(&str, (u32, u32, u32), &str); 10] = [
    ("l4map,1,3,18,16", (3, 18, 16), ""),
    (
        "l4map,1,3,18,16\nsend,0,1,10,8,50c6\naccess,1,fff,w\n",
        (3, 18, 16),
        "[send][0][1][10][8][50c6]\n[access][1][fff][w]\n",
    ),
    // Line ends of two bytes.
    (
        "l4map,1,3,18,16\r\naccess,1,fff,w\r\n",
        (3, 18, 16),
        "[access][1][fff][w]\n",
    ),
    // Empty lines are no records.
    (
        "\n\nl4map,1,3,18,16\n\n\r\nunmap,1,1,10\n\n",
        (3, 18, 16),
        "[unmap][1][1][10]\n",
    ),
    // A quoted name is the name.
    (
        "\"l4map\",\"1\",3,18,16\n\"send\",0,1\n",
        (3, 18, 16),
        "[send][0][1]\n",
    ),
    // A line of two quotes is a record with one empty field, and so is one comma a record with two.
    ("l4map,1,3,18,16\n\"\"\n,\n", (3, 18, 16), "[]\n[][]\n"),
    // A comma, a quote and a line feed within quotes.
    (
        "l4map,1,3,18,16\n\"a,\"\"b\",\"c\nd\"\n",
        (3, 18, 16),
        "[a,\"b][c\nd]\n",
    ),
    // Spaces are kept.
    (
        "l4map,1,3,18,16\n send,0 ,1\n",
        (3, 18, 16),
        "[ send][0 ][1]\n",
    ),
    // Version 2.
    ("l4map,2,3,18,16\nclear,1\n", (3, 18, 16), "[clear][1]\n"),
    // Leading zeros, and limits that no database serves.
    ("l4map,1,0000513,7,0\n", (513, 7, 0), ""),
];

/// Looks at what a source is read to: it works, and nothing is left.
fn expect_trace(
    rt: &impl Abort,
    alloc: Global,
    input: &str,
    limits: Limits,
    records: &str,
) -> Result<(), TraceError> {
    let mut reader = Std::new(input.as_bytes());
    let trace = read_all(alloc, &mut reader)?;
    assert_equal(rt, trace.limits, limits, input);
    expect_records(rt, alloc, &trace, records)?;
    assert_holds(rt, !reader.has_failed(), input);
    assert_holds(rt, reader.into_inner().is_empty(), input);
    Ok(())
}

#[test]
fn reads_the_limits_and_the_records(rt: HostRuntime) -> Result<(), TraceError> {
    for (input, (spaces, bits, frames), records) in &TRACES {
        let limits = Limits {
            spaces: *spaces,
            bits: *bits,
            frames: *frames,
        };
        expect_trace(&rt, rt.alloc(), input, limits, records)?;
    }
    Ok(())
}

/// Inputs whose first record does not have a header's form.
const NO_HEADERS: [&str; 16] = [
    "",
    "\n\r\n",
    "\"\"\n",
    "l4map,1,3,18\n",
    "l4map,1,3,18,16,\n",
    "L4map,1,3,18,16\n",
    "l4map,01,3,18,16\n",
    "l4map,02,3,18,16\n",
    "l4map,3,3,18,16\n",
    "L4map,2,3,18,16\n",
    "l4map,1,3,18,+16\n",
    "l4map,1,3,18,\n",
    "l4map,1,3,18,1f\n",
    "l4map,1,3,18, 16\n",
    "l4map,1,3,18,00000016\n",
    "send,0,1,10,8\nl4map,1,3,18,16\n",
];

/// Looks at how a source ends that has no header.
fn expect_bad_header(rt: &impl Abort, alloc: Global, input: &str) {
    let outcome = read_all(alloc, &mut Std::new(input.as_bytes()));
    assert_holds(rt, matches!(&outcome, Err(TraceError::BadHeader)), input);
}

#[test]
fn answers_a_first_record_without_a_headers_form(rt: HostRuntime) {
    for input in &NO_HEADERS {
        expect_bad_header(&rt, rt.alloc(), input);
    }
}

/// A source over memory that fails once so many bytes were read.
#[derive(Drop)]
struct FailingSource<'a> {
    rest: &'a [u8],
    left: usize,
    failed: bool,
}

impl Source for FailingSource<'_> {
    ghost failed = { λ s. s.failed };

    fn read(&mut self, buf: &mut [u8]) -> Result<usize, Failed> {
        if self.left == 0 {
            self.failed = true;
            return Err(Failed);
        }
        let count = self.left.min(self.rest.len()).min(buf.len());
        let (front, rest) = self.rest.split_at(count);
        buf[..count].copy_from_slice(front);
        self.rest = rest;
        self.left -= count;
        Ok(count)
    }

    fn has_failed(&self) -> bool {
        self.failed
    }
}

/// A trace of two records.
const SHORT: &str = "l4map,1,2,18,1\nsend,0,1,10,3008,c6\naccess,1,3abc,w\n";

/// A source of these that fails once so many bytes were read.
fn failing_source<'a>(left: usize) -> FailingSource<'a>
    ensures { result.failed ≡ false }
{
    FailingSource {
        rest: SHORT.as_bytes(),
        left,
        failed: false,
    }
}

/// Looks at how a source ends that fails after so many bytes.
fn expect_unreadable(rt: &impl Abort, alloc: Global, left: usize) {
    let mut source = failing_source(left);
    let outcome = read_all(alloc, &mut source);
    assert_holds(rt, matches!(&outcome, Err(TraceError::Unreadable)), left);
    assert_holds(rt, source.has_failed(), left);
}

/// Looks at a source that comes to its end one byte before it fails.
fn expect_readable(rt: &impl Abort, alloc: Global) -> Result<(), TraceError> {
    let mut source = failing_source(SHORT.len().saturating_add(1));
    let trace = read_all(alloc, &mut source)?;
    assert_equal(rt, trace.records.len(), 2, "records");
    assert_holds(rt, !source.has_failed(), "the source works");
    Ok(())
}

#[test]
fn a_source_that_fails_after_any_byte_is_unreadable(rt: HostRuntime) -> Result<(), TraceError> {
    for left in 0..=SHORT.len() {
        expect_unreadable(&rt, rt.alloc(), left);
    }
    expect_readable(&rt, rt.alloc())
}

/// The record of fields that commas part, in a trace of a version.
pub fn record_of(alloc: Global, version: Version, text: &str) -> Result<Record, NoMemory> {
    let mut fields = Vec::new(alloc);
    for field in text.split(',') {
        if fields.push(field.as_bytes()).is_err() {
            return Err(NoMemory);
        }
    }
    Record::new(alloc, version, &fields)
}

/// Three spaces of 64 pages, and 16 frames.
fn small_limits(rt: &impl Abort) -> Limits
    ensures { are_limits (limits_of result) ≡ true }
{
    let limits = Limits {
        spaces: 3,
        bits: 18,
        frames: 16,
    };
    assert!(rt; limits.are_served());
    limits
}

/// What the record of these fields asks for in a trace of version 1.
fn asked(rt: &impl Abort, alloc: Global, text: &str) -> Result<Result<Call, Refusal>, NoMemory> {
    asked_in(rt, alloc, Version::One, text)
}

/// What the record of these fields asks for in a trace of a version.
fn asked_in(
    rt: &impl Abort,
    alloc: Global,
    version: Version,
    text: &str,
) -> Result<Result<Call, Refusal>, NoMemory> {
    let record = record_of(alloc, version, text)?;
    assert_equal(rt, record.version(), version, text);
    record.call(alloc, &small_limits(rt))
}

/// Looks at an item.
fn expect_item(rt: &impl Abort, item: &Item, kind: ItemKind, base: u32) {
    assert_equal(rt, item.kind, kind, "the kind");
    assert_equal(rt, item.base, base, "the send base");
}

/// Looks at the pages of an fpage, and at its rights.
fn expect_fpage(rt: &impl Abort, fpage: &Fpage, from: u32, to: u32, rights: u32) {
    assert_equal(rt, fpage.pages(), from..to, "pages");
    assert_equal(rt, fpage.rights().number(), rights, "rights");
}

/// Looks at two items: page 5 is mapped, and nothing is granted.
fn expect_items(rt: &impl Abort, items: &[Item]) {
    let [first, second] = items else {
        panic!(rt; "there are not two items");
    };
    expect_item(rt, first, ItemKind::Map, 9);
    expect_fpage(rt, &first.sent, 5, 6, 6);
    expect_item(rt, second, ItemKind::Grant, 0);
    assert_holds(rt, second.sent.is_nil(), "the second is nil");
}

/// Looks at a send of two items to the complete space.
fn expect_send(rt: &impl Abort, asked: &Result<Call, Refusal>) {
    let Ok(
        Call::Send {
            from,
            to,
            window,
            items,
        },
    ) = asked
    else {
        panic!(rt; "it is no send");
    };
    assert_equal(rt, (*from, *to), (0, 65535), "spaces");
    assert_equal(rt, window.pages(), 0..64, "the window");
    expect_items(rt, items);
}

#[test]
fn a_send_names_spaces_window_and_items(rt: HostRuntime) -> Result<(), NoMemory> {
    let asked = asked(&rt, rt.alloc(), "send,0,65535,10,9008,50C6,ffa,0")?;
    expect_send(&rt, &asked);
    Ok(())
}

/// Records, with the page and the kind of access that they ask for.
static ACCESSES: [(&str, Place, Access); 3] = [
    (
        "access,1,3abc,w",
        Place { space: 1, page: 3 },
        Access::Write,
    ),
    (
        "access,00000,fff,r",
        Place { space: 0, page: 0 },
        Access::Read,
    ),
    (
        "access,2,3FFFF,x",
        Place { space: 2, page: 63 },
        Access::Execute,
    ),
];

/// Looks at an access.
fn expect_access(
    rt: &impl Abort,
    asked: &Result<Call, Refusal>,
    expected: (Place, Access),
    text: &str,
) {
    let Ok(Call::Access { place, access }) = asked else {
        panic!(rt; "{text} is no access");
    };
    assert_equal(rt, (*place, *access), expected, text);
}

#[test]
fn an_access_names_a_page_and_a_kind(rt: HostRuntime) -> Result<(), NoMemory> {
    for (text, place, kind) in &ACCESSES {
        let asked = asked(&rt, rt.alloc(), text)?;
        expect_access(&rt, &asked, (*place, *kind), text);
    }
    Ok(())
}

/// Looks at two fpages: page 5 without read and execute, and the complete space.
fn expect_fpages(rt: &impl Abort, fpages: &[Fpage]) {
    let [first, second] = fpages else {
        panic!(rt; "there are not two fpages");
    };
    expect_fpage(rt, first, 5, 6, 2);
    expect_fpage(rt, second, 0, 64, 7);
    assert_equal(rt, second.rights(), Rights::all(), "all rights");
}

/// Looks at an unmap of two words, which flushes.
fn expect_unmap(rt: &impl Abort, asked: &Result<Call, Refusal>) {
    let Ok(
        Call::Unmap {
            space,
            control,
            words,
            fpages,
        },
    ) = asked
    else {
        panic!(rt; "it is no unmap");
    };
    assert_equal(rt, *space, 7, "the space");
    assert_holds(rt, control.is_flush(), "it is a flush");
    assert_equal(rt, words.as_slice(), [0x50c2, 0x17].as_slice(), "words");
    expect_fpages(rt, fpages);
}

#[test]
fn an_unmap_names_a_space_words_and_their_pages(rt: HostRuntime) -> Result<(), NoMemory> {
    let asked = asked(&rt, rt.alloc(), "unmap,7,41,50c2,17")?;
    expect_unmap(&rt, &asked);
    Ok(())
}

/// Looks at a clear.
fn expect_clear(rt: &impl Abort, asked: &Result<Call, Refusal>, expected: u16) {
    let Ok(Call::Clear { space }) = asked else {
        panic!(rt; "it is no clear");
    };
    assert_equal(rt, *space, expected, "the space");
}

#[test]
fn a_clear_names_a_space(rt: HostRuntime) -> Result<(), NoMemory> {
    let asked = asked_in(&rt, rt.alloc(), Version::Two, "clear,00007")?;
    expect_clear(&rt, &asked, 7);
    Ok(())
}

/// Records of version 2 that are refused as `BadRecord`.
const NO_CLEARS: [&str; 7] = [
    "clear",
    "clear,",
    "clear,1,",
    "clear,65536",
    "clear,000001",
    "clear,f",
    "Clear,1",
];

#[test]
fn a_clear_of_another_form_is_no_record(rt: HostRuntime) -> Result<(), NoMemory> {
    for text in &NO_CLEARS {
        let asked = asked_in(&rt, rt.alloc(), Version::Two, text)?;
        expect_refusal(&rt, &asked, Refusal::BadRecord, text);
    }
    Ok(())
}

/// Records that are refused, each with the first reason that fits.
static REFUSED: [(&str, Refusal); 38] = [
    ("", Refusal::BadRecord),
    ("sends,0,1,10,8,50c6", Refusal::BadRecord),
    ("Access,1,0,r", Refusal::BadRecord),
    ("l4map,1,3,18,16", Refusal::BadRecord),
    // A trace of version 1 has no clear.
    ("clear,1", Refusal::BadRecord),
    // The form of a send: a word is missing, there is no item, a field is no number, one is too long.
    ("send,0,1,10,8", Refusal::BadRecord),
    ("send,0,1,10", Refusal::BadRecord),
    ("send,0,1,10,8,50g6", Refusal::BadRecord),
    ("send,0,1,10,8,0x50c6", Refusal::BadRecord),
    ("send,0,65536,10,8,50c6", Refusal::BadRecord),
    ("send,000001,1,10,8,50c6", Refusal::BadRecord),
    ("send,0,1,000000010,8,50c6", Refusal::BadRecord),
    ("send,0,,10,8,50c6", Refusal::BadRecord),
    ("access,1,0", Refusal::BadRecord),
    ("access,1,0,r,r", Refusal::BadRecord),
    ("access,1,0,R", Refusal::BadRecord),
    ("access,-1,0,r", Refusal::BadRecord),
    ("unmap,1", Refusal::BadRecord),
    ("unmap,1,0,10,", Refusal::BadRecord),
    // The window comes before the items, and of an item its first word before its second.
    ("send,0,1,450,0,50", Refusal::BadSize),
    ("send,0,1,410,c,50", Refusal::BadSize),
    ("send,0,1,4d0,8,50", Refusal::Misaligned),
    ("send,0,1,400c0,8,50c6", Refusal::OutOfSpace),
    ("send,0,1,10,c,50", Refusal::NotAnItem),
    ("send,0,1,10,0,50c6", Refusal::NotAnItem),
    ("send,0,1,10,8,50c6,8,20", Refusal::BadSize),
    ("send,0,1,10,8,4d6,0,50", Refusal::Misaligned),
    ("send,0,1,10,8,400c6", Refusal::OutOfSpace),
    // The space of an access comes before its page.
    ("access,3,40000,r", Refusal::NoSuchSpace),
    ("access,65535,0,r", Refusal::NoSuchSpace),
    ("access,2,40000,r", Refusal::OutOfSpace),
    // The control word comes before the others: bits above 6, too few words, too many.
    ("unmap,1,80,50", Refusal::BadControl),
    ("unmap,1,0", Refusal::BadControl),
    ("unmap,1,1,10", Refusal::BadControl),
    ("unmap,1,0,10,10", Refusal::BadControl),
    ("unmap,1,1,4d0,50", Refusal::Misaligned),
    ("unmap,1,1,10,50", Refusal::BadSize),
    ("unmap,1,0,fffff0c7", Refusal::OutOfSpace),
];

/// Looks at why a record is refused.
fn expect_refusal(rt: &impl Abort, asked: &Result<Call, Refusal>, refusal: Refusal, text: &str) {
    let Err(answer) = asked else {
        panic!(rt; "{text} is not refused");
    };
    assert_equal(rt, *answer, refusal, text);
}

/// Looks at why the record of these fields is refused.
fn expect_refused(
    rt: &impl Abort,
    alloc: Global,
    text: &str,
    refusal: Refusal,
) -> Result<(), NoMemory> {
    let asked = asked(rt, alloc, text)?;
    expect_refusal(rt, &asked, refusal, text);
    Ok(())
}

/// Looks at why a record without fields is refused.
fn expect_no_fields(rt: &impl Abort, alloc: Global) -> Result<(), NoMemory> {
    let record = Record::new(alloc, Version::One, &[])?;
    let asked = record.call(alloc, &small_limits(rt))?;
    expect_refusal(rt, &asked, Refusal::BadRecord, "no field");
    Ok(())
}

#[test]
fn a_record_is_refused_by_the_first_reason_that_fits(rt: HostRuntime) -> Result<(), NoMemory> {
    for (text, refusal) in &REFUSED {
        expect_refused(&rt, rt.alloc(), text, *refusal)?;
    }
    expect_no_fields(&rt, rt.alloc())
}

/// Appends what a record asks for, and how many items or words it has.
fn push_asked(
    text: &mut String,
    number: u64,
    asked: &Result<Call, Refusal>,
) -> Result<(), AllocError> {
    match asked {
        Ok(
            Call::Send {
                from,
                to,
                window: _,
                items,
            },
        ) => {
            let count = items.len();
            write!(text, "{number} send {from} {to} {count}\n")
        }
        Ok(Call::Access { place, access }) => push_access(text, number, *place, *access),
        Ok(
            Call::Unmap {
                space,
                control: _,
                words,
                fpages,
            },
        ) => {
            let count = words.len();
            let named = fpages.len();
            write!(text, "{number} unmap {space} {count} {named}\n")
        }
        Ok(Call::Clear { space }) => write!(text, "{number} clear {space}\n"),
        Err(refusal) => write!(text, "{number} {refusal:?}\n"),
    }
}

fn push_access(
    text: &mut String,
    number: u64,
    place: Place,
    access: Access,
) -> Result<(), AllocError> {
    let Place { space, page } = place;
    write!(text, "{number} access {space} {page} {access:?}\n")
}

/// Appends what the next record asks for, an access as such if `ahead`, and any other as a call. Returns whether there was one.
fn push_next(
    text: &mut String,
    trace: &mut TraceReader,
    limits: &Limits,
    ahead: bool,
) -> Result<bool, NoMemory>
    requires { are_limits (limits_of limits.now) ≡ true }
{
    let number = trace.number();
    if ahead {
        if let Some((place, access)) = trace.next_access(limits)? {
            push_access(text, number, place, access)?;
            return Ok(true);
        }
    }
    if trace.is_at_end() {
        return Ok(false);
    }
    let asked = trace.next_call(limits)?;
    push_asked(text, number, &asked)?;
    if let Ok(call) = asked {
        trace.reuse(call);
    }
    Ok(true)
}

/// Appends what the records of a trace ask for.
fn push_all(
    rt: &impl Abort,
    text: &mut String,
    trace: &mut TraceReader,
    ahead: bool,
) -> Result<(), NoMemory> {
    let limits = small_limits(rt);
    assert_equal(rt, trace.limits(), limits, "the limits");
    for _ in 0..u64::MAX {
        if !push_next(text, trace, &limits, ahead)? {
            break;
        }
    }
    assert_holds(rt, trace.next_record()?.is_none(), "no record is left");
    Ok(())
}

/// Looks at what the records of a trace ask for.
fn expect_asked(
    rt: &impl Abort,
    alloc: Global,
    trace: &mut TraceReader,
    ahead: bool,
    asked: &str,
) -> Result<(), NoMemory> {
    let mut text = String::new(alloc);
    push_all(rt, &mut text, trace, ahead)?;
    assert_equal(rt, text.as_str(), asked, ahead);
    Ok(())
}

/// Looks at what the records of an input ask for.
fn expect_asked_by(
    rt: &impl Abort,
    alloc: Global,
    input: &str,
    ahead: bool,
    asked: &str,
) -> Result<(), TraceError> {
    let mut trace = TraceReader::of_slice(alloc, input.as_bytes())?;
    expect_asked(rt, alloc, &mut trace, ahead, asked)?;
    Ok(())
}

/// Traces, and what their records ask for.
const ASKED: [(&str, &str); 6] = [
    ("l4map,1,3,18,16\n", ""),
    (
        "l4map,1,3,18,16\nsend,0,1,10,8,50c6,8,10c6\naccess,1,fff,w\naccess,2,1000,r\n",
        "1 send 0 1 2\n2 access 1 0 Write\n3 access 2 1 Read\n",
    ),
    // A refused access is taken as a record of its own.
    (
        "l4map,1,3,18,16\naccess,0,0,x\naccess,3,0,r\naccess,0,40000,r\naccess,0\n\"\"\naccess,0,2000,r\n",
        "1 access 0 0 Execute\n2 NoSuchSpace\n3 OutOfSpace\n4 BadRecord\n5 BadRecord\n6 access 0 2 Read\n",
    ),
    // Clears, in a trace of version 2 and in one of version 1.
    (
        "l4map,2,3,18,16\nclear,1\naccess,1,fff,w\nclear\nclear,3\nclear,0\n",
        "1 clear 1\n2 access 1 0 Write\n3 BadRecord\n4 clear 3\n5 clear 0\n",
    ),
    (
        "l4map,1,3,18,16\naccess,1,fff,w\nclear,1\naccess,1,fff,w\n",
        "1 access 1 0 Write\n2 BadRecord\n3 access 1 0 Write\n",
    ),
    // After many words few, and after a refused word others.
    (
        "l4map,1,3,18,16\nunmap,1,2,10,50c2,17\nunmap,7,0,16\nsend,0,1,10,8,50c6,8,4d6\nsend,2,1,10,8,50c6\nunmap,1,0\nunmap,1,0,10\n",
        "1 unmap 1 3 3\n2 unmap 7 1 1\n3 Misaligned\n4 send 2 1 1\n5 BadControl\n6 unmap 1 1 1\n",
    ),
];

#[test]
fn a_reader_takes_records_one_after_another(rt: HostRuntime) -> Result<(), TraceError> {
    for (input, asked) in &ASKED {
        for ahead in [false, true] {
            expect_asked_by(&rt, rt.alloc(), input, ahead, asked)?;
        }
    }
    Ok(())
}

/// Looks at the version that a header names, and that of the record behind it.
fn expect_version(
    rt: &impl Abort,
    alloc: Global,
    input: &str,
    version: Version,
) -> Result<(), TraceError> {
    let mut trace = TraceReader::of_slice(alloc, input.as_bytes())?;
    assert_equal(rt, trace.version(), version, input);
    let Some(record) = trace.next_record()? else {
        panic!(rt; "there is no record");
    };
    assert_equal(rt, record.version(), version, input);
    Ok(())
}

#[test]
fn a_reader_tells_the_version(rt: HostRuntime) -> Result<(), TraceError> {
    expect_version(&rt, rt.alloc(), "l4map,1,2,18,1\nclear,1\n", Version::One)?;
    expect_version(&rt, rt.alloc(), "l4map,2,2,18,1\nclear,1\n", Version::Two)
}

/// Looks at what a reader answers where there is no header.
fn expect_no_reader(rt: &impl Abort, alloc: Global, input: &str) {
    let outcome = TraceReader::of_slice(alloc, input.as_bytes());
    assert_holds(rt, matches!(&outcome, Err(TraceError::BadHeader)), input);
}

#[test]
fn a_reader_answers_a_bad_header(rt: HostRuntime) {
    for input in [
        "",
        "\n",
        "l4map,1,3,18\n",
        "send,0,1,10,8\nl4map,1,3,18,16\n",
    ] {
        expect_no_reader(&rt, rt.alloc(), input);
    }
}

/// Numbers and reasons of refused records, with their reply lines.
static REFUSALS: [(u64, Refusal, &str); 9] = [
    (5, Refusal::BadSize, "5 refused BadSize\n"),
    (6, Refusal::Misaligned, "6 refused Misaligned\n"),
    (7, Refusal::OutOfSpace, "7 refused OutOfSpace\n"),
    (8, Refusal::NotAnItem, "8 refused NotAnItem\n"),
    (9, Refusal::BadControl, "9 refused BadControl\n"),
    (10, Refusal::NoSuchSpace, "10 refused NoSuchSpace\n"),
    (11, Refusal::SameSpace, "11 refused SameSpace\n"),
    (12, Refusal::NoWindow, "12 refused NoWindow\n"),
    (13, Refusal::BadRecord, "13 refused BadRecord\n"),
];

/// The line of a send with these counts.
const SENT: (SendReply, &str) = (
    SendReply {
        absent: 1,
        norights: 20,
        origin: 0,
        lost: 4,
        extended: 5,
        linked: 18446744073709551616,
    },
    "1 send absent=1 norights=20 origin=0 lost=4 extended=5 linked=18446744073709551616\n",
);

/// Reply lines behind one another, as they are written and as they are expected.
#[derive(Drop)]
struct Lines {
    alloc: Global,
    written: String,
    expected: String,
}

impl Lines {
    /// Looks at the line of a reply, and appends it.
    fn expect(
        &mut self,
        rt: &impl Abort,
        number: u64,
        reply: &Reply,
        line: &str,
    ) -> Result<(), NoMemory> {
        let text = reply_text(self.alloc, number, reply)?;
        assert_equal(rt, text.as_slice(), line.as_bytes(), line);
        push_reply(&mut self.written, number, reply)?;
        self.expected.push_str(line)?;
        Ok(())
    }

    /// Looks at the replies that answer a call, and appends them.
    fn expect_answers(&mut self, rt: &impl Abort) -> Result<(), NoMemory> {
        let (counts, line) = SENT;
        self.expect(rt, 1, &Reply::Sent(counts), line)?;
        self.expect(rt, 20, &Reply::Accessed(true), "20 access ok\n")?;
        self.expect(rt, 3, &Reply::Accessed(false), "3 access fault\n")?;
        let cleared = Reply::Cleared(Rights::of_bits(6));
        self.expect(rt, 4, &cleared, "4 clear 00000016\n")?;
        let words = Vec::from_slice(self.alloc, &[0x16, 0xabcdef01])?;
        let unmapped = Reply::Unmapped(words);
        let line = "18446744073709551615 unmap 00000016 abcdef01\n";
        self.expect(rt, u64::MAX, &unmapped, line)
    }

    /// Looks at refusals, and appends them.
    fn expect_refusals(&mut self, rt: &impl Abort) -> Result<(), NoMemory> {
        for (number, refusal, line) in &REFUSALS {
            self.expect(rt, *number, &Reply::Refused(*refusal), line)?;
        }
        Ok(())
    }
}

#[test]
fn a_reply_is_a_numbered_line(rt: HostRuntime) -> Result<(), NoMemory> {
    let mut lines = Lines {
        alloc: rt.alloc(),
        written: String::new(rt.alloc()),
        expected: String::new(rt.alloc()),
    };
    lines.expect_answers(&rt)?;
    lines.expect_refusals(&rt)?;
    assert_equal(
        &rt,
        lines.written.as_str(),
        lines.expected.as_str(),
        "all lines",
    );
    Ok(())
}

/// Numbers of accesses, whether they were made, and their lines.
static ACCESS_LINES: [(u64, bool, &str); 4] = [
    (0, true, "0 access ok\n"),
    (7, false, "7 access fault\n"),
    (4294967296, true, "4294967296 access ok\n"),
    (u64::MAX, false, "18446744073709551615 access fault\n"),
];

#[test]
fn an_access_is_answered_by_a_line(rt: HostRuntime) -> Result<(), NoMemory> {
    let mut written = Vec::new(rt.alloc());
    let mut expected = String::new(rt.alloc());
    for (number, made, line) in &ACCESS_LINES {
        trace::push_access(&mut written, *number, *made)?;
        expected.push_str(line)?;
    }
    assert_equal(
        &rt,
        written.as_slice(),
        expected.as_bytes(),
        "the lines of accesses",
    );
    Ok(())
}

/// The counts of a send, in the order of its line.
fn sent([absent, norights, origin, lost, extended, linked]: [u128; 6]) -> SendReply {
    SendReply {
        absent,
        norights,
        origin,
        lost,
        extended,
        linked,
    }
}

/// Numbers of sends, their counts of one digit each, and their lines.
static SENT_LINES: [(u64, [u128; 6], &str); 3] = [
    (
        0,
        [0, 1, 2, 3, 4, 5],
        "0 send absent=0 norights=1 origin=2 lost=3 extended=4 linked=5\n",
    ),
    (
        4294967296,
        [9, 8, 7, 6, 5, 4],
        "4294967296 send absent=9 norights=8 origin=7 lost=6 extended=5 linked=4\n",
    ),
    (
        u64::MAX,
        [9, 9, 9, 9, 9, 9],
        "18446744073709551615 send absent=9 norights=9 origin=9 lost=9 extended=9 linked=9\n",
    ),
];

/// Counts of sends of which one has two digits or more.
static LARGER_COUNTS: [[u128; 6]; 7] = [
    [10, 0, 0, 0, 0, 0],
    [0, 10, 0, 0, 0, 0],
    [0, 0, 10, 0, 0, 0],
    [0, 0, 0, 10, 0, 0],
    [0, 0, 0, 0, 10, 0],
    [0, 0, 0, 0, 0, 10],
    [0, 0, 0, 0, 0, 18446744073709551616],
];

#[test]
fn a_send_with_counts_of_one_digit_is_answered_by_a_line(rt: HostRuntime) -> Result<(), NoMemory> {
    let mut written = Vec::new(rt.alloc());
    let mut expected = String::new(rt.alloc());
    for (number, counts, line) in &SENT_LINES {
        let pushed = trace::push_sent(&mut written, *number, &sent(*counts))?;
        assert_holds(&rt, pushed, line);
        expected.push_str(line)?;
    }
    for counts in &LARGER_COUNTS {
        let pushed = trace::push_sent(&mut written, 1, &sent(*counts))?;
        assert_holds(&rt, !pushed, "a count of two digits");
    }
    assert_equal(
        &rt,
        written.as_slice(),
        expected.as_bytes(),
        "the lines of sends",
    );
    Ok(())
}
