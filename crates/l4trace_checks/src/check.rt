//! The check of a trace: which of its records are refused, where and why.

ghost use Rattle.std.specs.Prelude.{◌≡◌, ◌+◌, ◌-◌, ◌^◌, ◌<◌, nat_lt, true, Some, None, IfOk, option_map, if◌then◌else◌};
ghost use Rattle.fpage.specs.Fpage.{IsSpaceBits};
ghost use Rattle.model.specs.Definitions.Calls.{no_such_space};
ghost use Rattle.model.specs.Definitions.Records.{are_limits};
ghost use Rattle.mapdb.specs.Held.{limits_of};
ghost use Rattle.trace.specs.Meaning.{refusal_of, request_of};
ghost use Rattle.l4trace_checks.specs.Check.{IsFound, CountsRest, is_refused_record, refusal_in};

use crate::fault::push_cause;
use crate::header::{push_bad_header, push_bad_limits};
use l4trace_texts::{Places, Span};
use mapdb::Limits;
use replay::Watch;
use space::NoMemory;
use std::alloc::{AllocError, AllocFailed, Global};
use std::fmt::Write;
use trace::{Call, Failed, Record, Refusal, Sink, TraceError, TraceReader};

/// What a check found.
#[derive(Clone, Copy, Debug, PartialEq, Eq)]
pub enum Found {
    /// There is no first record, or it does not have the form of a header.
    BadHeader,
    /// The header names limits that are not served.
    BadLimits,
    /// How many records the trace has behind its header, and how many of them are refused.
    Records { records: u64, refused: u64 },
}

/// Why a check ended early.
#[derive(Clone, Copy, Debug, PartialEq, Eq)]
pub enum CheckError {
    /// Out of memory.
    NoMemory,
    /// A write failed.
    WriteFailed,
}

impl From<NoMemory> for CheckError {
    fn from(_: NoMemory) -> Self {
        CheckError::NoMemory
    }
}

impl From<AllocError> for CheckError {
    fn from(_: AllocError) -> Self {
        CheckError::NoMemory
    }
}

impl<T: Drop> From<AllocFailed<T>> for CheckError {
    fn from(_: AllocFailed<T>) -> Self {
        CheckError::NoMemory
    }
}

impl From<Failed> for CheckError {
    fn from(_: Failed) -> Self {
        CheckError::WriteFailed
    }
}

/// A trace to be checked.
#[derive(Clone, Copy)]
pub struct Subject<'a> {
    /// Its name, for the lines that tell of it.
    pub name: &'a str,
    pub bytes: &'a [u8],
    /// How many refused records are told; all of them are counted.
    pub most: u64,
}

/// Checks a trace, and writes a line for each refused record: where it stands, its number, the refusal and its cause. The
/// number of refused records is that of the replay of the trace. The watch hears how far the check has come.
pub fn check_trace<W: Sink, V: Watch>(
    alloc: Global,
    subject: &Subject<'_>,
    writer: &mut W,
    watch: &mut V,
) -> Result<Found, CheckError>
    ensures { IfOk result (IsFound subject.now.bytes.now) }
{
    let mut reader = match TraceReader::of_slice(alloc, subject.bytes) {
        Ok(reader) => reader,
        Err(TraceError::BadHeader) => {
            tell_header(alloc, subject, None, writer)?;
            return Ok(Found::BadHeader);
        }
        Err(_) => return Err(CheckError::NoMemory),
    };
    let limits = reader.limits();
    if !limits.are_served() {
        tell_header(alloc, subject, Some(&limits), writer)?;
        return Ok(Found::BadLimits);
    }
    check_records(alloc, subject, &limits, &mut reader, writer, watch)
}

/// Writes the line of a header whose limits are not served, or, where there are none, of a first record that is no header.
fn tell_header<W: Sink>(
    alloc: Global,
    subject: &Subject<'_>,
    limits: Option<&Limits>,
    writer: &mut W,
) -> Result<(), CheckError> {
    let mut places = Places::new(alloc, subject.bytes)?;
    let span = places.next_place()?;
    let fields = places.fields(alloc)?;
    let mut cause = String::new(alloc);
    let (refusal, index) = match limits {
        None => ("BadHeader", push_bad_header(&mut cause, &fields)?),
        Some(limits) => ("BadLimits", push_bad_limits(&mut cause, limits)?),
    };
    let mut line = String::new(alloc);
    push_place(&mut line, subject, span, &fields, index)?;
    write!(line, "header: {refusal}: {cause}\n")?;
    writer.write_all(line.as_bytes())?;
    Ok(())
}

/// Checks the records behind a header.
fn check_records<W: Sink, V: Watch>(
    alloc: Global,
    subject: &Subject<'_>,
    limits: &Limits,
    reader: &mut TraceReader,
    writer: &mut W,
    watch: &mut V,
) -> Result<Found, CheckError>
    requires { are_limits (limits_of limits.now) ≡ true }
    ensures { IfOk result (CountsRest reader.old.version (limits_of limits.now) reader.old.records) }
{
    let mut places = Places::new(alloc, subject.bytes)?;
    places.next_place()?;
    let mut records = 0u64;
    let mut refused = 0u64;
    while let Some(record) = reader.next_record()? {
        if records == u64::MAX {
            return Err(CheckError::NoMemory);
        }
        records += 1;
        watch.hear(records);
        let span = places.next_place()?;
        let told = refused < subject.most;
        let is_refused = check_record(
            alloc, subject, limits, &record, records, span, told, writer,
        )?;
        refused = with_one(refused, is_refused);
    }
    tell_end(alloc, subject, records, refused, writer)?;
    Ok(Found::Records { records, refused })
}

/// One more than a number, if so.
fn with_one(count: u64, is_more: bool) -> u64
    requires { count < 2 ^ 64 - 1 }
    ensures { result ≡ count + (if is_more then 1 else 0) }
{
    if is_more { count + 1 } else { count }
}

/// Whether a record is refused. If so, its line is written where it is to be told.
fn check_record<W: Sink>(
    alloc: Global,
    subject: &Subject<'_>,
    limits: &Limits,
    row: &Record,
    number: u64,
    span: Span,
    told: bool,
    writer: &mut W,
) -> Result<bool, CheckError>
    requires { are_limits (limits_of limits.now) ≡ true }
    ensures { IfOk result (λ is. is ≡ is_refused_record row.now.version (limits_of limits.now) row.now.fields) }
{
    let asked = row.call(alloc, limits)?;
    let Some(refusal) = refusal(limits, &asked) else {
        return Ok(false);
    };
    if told {
        tell_refused(alloc, subject, limits, row, number, span, refusal, writer)?;
    }
    Ok(true)
}

/// Why a record is refused, if it is: for what it asks, or by the database.
pub fn refusal(limits: &Limits, asked: &Result<Call, Refusal>) -> Option<Refusal>
    ensures { option_map refusal_of result ≡ refusal_in (limits_of limits.now) (request_of asked.now) }
{
    match asked {
        Err(refusal) => Some(*refusal),
        Ok(
            Call::Send {
                from,
                to,
                window,
                items: _,
            },
        ) => {
            if u32::from(*from) >= limits.spaces || u32::from(*to) >= limits.spaces {
                Some(Refusal::NoSuchSpace)
            } else if *from == *to {
                Some(Refusal::SameSpace)
            } else if window.is_nil() {
                Some(Refusal::NoWindow)
            } else {
                None
            }
        }
        Ok(
            Call::Access {
                place: _,
                access: _,
            },
        ) => None,
        Ok(
            Call::Unmap {
                space,
                control: _,
                words: _,
                fpages: _,
            },
        ) => unknown_space(limits, *space),
        Ok(Call::Clear { space }) => unknown_space(limits, *space),
    }
}

/// `NoSuchSpace`, where a space is none of the limits.
fn unknown_space(limits: &Limits, space: u16) -> Option<Refusal>
    ensures { option_map refusal_of result ≡ (if nat_lt space limits.now.spaces then None else Some no_such_space) }
{
    if u32::from(space) >= limits.spaces {
        Some(Refusal::NoSuchSpace)
    } else {
        None
    }
}

/// The fields of a record.
fn fields_of(alloc: Global, record: &Record) -> Result<Vec<&[u8]>, AllocError> {
    let mut fields = record.fields();
    let mut all = Vec::new(alloc);
    while let Some(field) = fields.take() {
        all.push(field).map_err(AllocError::from)?;
    }
    Ok(all)
}

/// Writes the line of a refused record.
fn tell_refused<W: Sink>(
    alloc: Global,
    subject: &Subject<'_>,
    limits: &Limits,
    record: &Record,
    number: u64,
    span: Span,
    refusal: Refusal,
    writer: &mut W,
) -> Result<(), CheckError>
    requires { IsSpaceBits limits.now.bits }
{
    let fields = fields_of(alloc, record)?;
    let mut cause = String::new(alloc);
    let index = push_cause(&mut cause, record.version(), limits, &fields, refusal)?;
    let mut line = String::new(alloc);
    push_place(&mut line, subject, span, &fields, index)?;
    write!(line, "record {number}: {refusal:?}: {cause}\n")?;
    writer.write_all(line.as_bytes())?;
    Ok(())
}

/// Appends the name of the trace, the line and, where it is known, the column of a field.
fn push_place(
    text: &mut String,
    subject: &Subject<'_>,
    span: Span,
    fields: &[&[u8]],
    index: usize,
) -> Result<(), AllocError> {
    let name = subject.name;
    let line = span.line;
    write!(text, "{name}:{line}:")?;
    match span.column(subject.bytes, fields, index) {
        Some(column) => write!(text, "{column}: "),
        None => text.push_str(" "),
    }
}

/// Writes how many records there are, how many of them are refused, and how many of these were not told.
fn tell_end<W: Sink>(
    alloc: Global,
    subject: &Subject<'_>,
    records: u64,
    refused: u64,
    writer: &mut W,
) -> Result<(), CheckError> {
    let mut text = String::new(alloc);
    let untold = refused.saturating_sub(subject.most);
    if untold > 0 {
        write!(text, ".. and {untold} more; --max tells more of them\n")?;
    }
    let noun = if records == 1 { "record" } else { "records" };
    write!(text, "{records} {noun}, {refused} refused\n")?;
    writer.write_all(text.as_bytes())?;
    Ok(())
}
