//! The answers of another implementation to a trace, compared with those of l4map.

ghost use Rattle.std.specs.Prelude.{◌≡◌, ◌↔◌, ◌≤◌, false, take, length, IsNone, IfSome, IfOk, IsTrue};
ghost use Rattle.l4trace_differences.specs.Compare.{IsReplayOf, is_same};

use crate::all::{Differences, all_differences};
use crate::answers::{
    Key, audit_of, frame_of, key_of, line_count, line_of_mapping, line_of_page, named_lines,
    place_of, split_line,
};
use crate::form::push_form;
use crate::status::without_status;
use crew::Alone;
use l4trace_texts::{CompareOptions, Places, RecordTexts, Scope, Span, push_shown};
use replay::{RunError, Watch, run_by};
use space::NoMemory;
use std::alloc::{AllocError, Global};
use std::fmt::Write;
use std::thread::Threads;
use trace::{Failed, Sink, Std};

/// How many bytes of a line are shown.
const SHOWN: usize = 400;

/// How many changed mappings are shown.
const CHANGES: usize = 40;

/// Where two texts differ first.
#[derive(Clone, Copy, Debug, PartialEq, Eq)]
pub struct Difference<'a> {
    /// The number of the line, from 1.
    pub line: u64,
    /// The line of the first text; none where it has ended.
    pub ours: Option<&'a [u8]>,
    /// The line of the second text; none where it has ended.
    pub theirs: Option<&'a [u8]>,
}

/// How many bytes at the front of two texts are the same.
fn alike(ours: &[u8], theirs: &[u8]) -> usize
    ensures front { take result ours.now ≡ take result theirs.now }
    ensures within { result ≤ length ours.now }
{
    for (i, byte) in ours.iter().enumerate() {
        if theirs.get(i).copied() != Some(*byte) {
            return i;
        }
    }
    ours.len()
}

/// Where two texts differ first; none exactly where they are the same.
pub fn first_difference<'a>(ours: &'a [u8], theirs: &'a [u8]) -> Option<Difference<'a>>
    ensures { IsNone result ↔ (ours.now ≡ theirs.now) }
{
    if ours == theirs {
        return None;
    }
    let front = alike(ours, theirs);
    let ended = ours
        .get(..front)
        .unwrap_or(&[])
        .iter()
        .filter(|byte| **byte == b'\n')
        .count();
    Some(Difference {
        line: (ended as u64).saturating_add(1),
        ours: line_at(ours, front),
        theirs: line_at(theirs, front),
    })
}

/// The line of a text in which the byte at an index stands, without its line feed; none behind the last line.
fn line_at(text: &[u8], at: usize) -> Option<&[u8]> {
    let before = text.get(..at)?;
    let back = before
        .iter()
        .rev()
        .take_while(|byte| **byte != b'\n')
        .count();
    let rest = text.get(at.saturating_sub(back)..)?;
    if rest.is_empty() {
        return None;
    }
    let length = rest.iter().take_while(|byte| **byte != b'\n').count();
    rest.get(..length)
}

/// What l4map writes for a trace.
pub fn replayed<T: AllocGlobal + Threads + Sync, V: Watch>(
    rt: &T,
    bytes: &[u8],
    watch: &mut V,
) -> Result<Vec<u8>, RunError>
    ensures { IfOk result (λ text. IsReplayOf bytes.now text.items) }
{
    let mut reader = Std::new(bytes);
    let mut writer = Std::new(Vec::new(rt.alloc()));
    run_by(rt, &mut reader, &mut writer, false, &Alone, watch)?;
    Ok(writer.into_inner())
}

/// Appends the mappings that differ between two audits: a line with `-` for each of the first, and with `+` for each of the
/// second.
pub fn push_changes(text: &mut String, before: &[u8], after: &[u8]) -> Result<(), AllocError> {
    let mut old = before;
    let mut new = after;
    let mut shown = 0usize;
    for _ in 0..before.len().saturating_add(after.len()) {
        if old.is_empty() && new.is_empty() {
            return Ok(());
        }
        let (gone, old_rest) = split_line(old);
        let (come, new_rest) = split_line(new);
        let (left, right) = (place_of(gone), place_of(come));
        let is_old = !gone.is_empty() && (come.is_empty() || left <= right);
        let is_new = !come.is_empty() && (gone.is_empty() || right <= left);
        if !(is_old && is_new && gone == come) {
            if shown >= CHANGES {
                return text.push_str("    ..\n");
            }
            shown += 1;
            push_change(text, if is_old { Some(gone) } else { None }, "-")?;
            push_change(text, if is_new { Some(come) } else { None }, "+")?;
        }
        if is_old {
            old = old_rest;
        }
        if is_new {
            new = new_rest;
        }
    }
    Ok(())
}

/// Appends a line that differs, if there is one.
fn push_change(text: &mut String, line: Option<&[u8]>, sign: &str) -> Result<(), AllocError> {
    let Some(line) = line else {
        return Ok(());
    };
    write!(text, "    {sign} ")?;
    push_shown(text, line.strip_suffix(b"\n").unwrap_or(line), SHOWN)?;
    text.push_str("\n")
}

/// Why a comparison ended early.
#[derive(Clone, Copy, Debug, PartialEq, Eq)]
pub enum CompareError {
    /// The replay ended early.
    Run(RunError),
    /// Out of memory.
    NoMemory,
    /// A write failed.
    WriteFailed,
}

impl From<RunError> for CompareError {
    fn from(error: RunError) -> Self {
        CompareError::Run(error)
    }
}

impl From<AllocError> for CompareError {
    fn from(_: AllocError) -> Self {
        CompareError::NoMemory
    }
}

impl From<NoMemory> for CompareError {
    fn from(_: NoMemory) -> Self {
        CompareError::NoMemory
    }
}

impl From<Failed> for CompareError {
    fn from(_: Failed) -> Self {
        CompareError::WriteFailed
    }
}

/// A trace, and the answers to it that are compared with those of l4map.
#[derive(Clone, Copy)]
pub struct Comparison<'a> {
    /// The name of the trace.
    pub name: &'a str,
    pub trace: &'a [u8],
    pub answers: &'a [u8],
    pub options: CompareOptions,
}

/// The texts of which lines are compared.
#[derive(Clone, Copy)]
struct Sides<'a> {
    /// That of l4map.
    ours: &'a [u8],
    /// That of the answers.
    theirs: &'a [u8],
}

/// What a comparison found.
#[derive(Clone, Copy, Debug, PartialEq, Eq)]
pub enum Compared {
    /// Lines were compared, and none differs.
    Same,
    /// There was no line to compare.
    Nothing,
    /// A line differs. Trees tell more of the first, where it is of a record or of a page.
    Differs(Option<Trees>),
}

/// Trees that tell more of a line.
#[derive(Clone, Copy, Debug, PartialEq, Eq)]
pub enum Trees {
    /// Those that the record of this number changed.
    ChangedBy(u64),
    /// That of a frame, after the record of this number; after the last, if none is named.
    OfFrame { frame: u32, at: Option<u64> },
}

/// Compares answers with those of l4map, and writes where they differ: first, or everywhere. The watch hears of each
/// record that is replayed for it.
pub fn compare<T: AllocGlobal + Threads + Sync, W: Sink, V: Watch>(
    rt: &T,
    comparison: &Comparison<'_>,
    writer: &mut W,
    watch: &mut V,
) -> Result<Compared, CompareError>
    ensures { comparison.now.options.scope ≡ Scope.Whole → comparison.now.options.ignores_status ≡ false
        → IfOk result (λ found. IsTrue (is_same found) ↔ IsReplayOf comparison.now.trace.now comparison.now.answers.now) }
{
    let text = replayed(rt, comparison.trace, watch)?;
    if comparison.options.ignores_status {
        let ours = without_status(rt.alloc(), &text)?;
        let theirs = without_status(rt.alloc(), comparison.answers)?;
        return compare_texts(rt, comparison, &ours, &theirs, writer, watch);
    }
    compare_texts(rt, comparison, &text, comparison.answers, writer, watch)
}

/// Compares a text of answers with that of l4map.
fn compare_texts<T: AllocGlobal + Threads + Sync, W: Sink, V: Watch>(
    rt: &T,
    comparison: &Comparison<'_>,
    text: &[u8],
    answers: &[u8],
    writer: &mut W,
    watch: &mut V,
) -> Result<Compared, CompareError>
    ensures { comparison.now.options.scope ≡ Scope.Whole → IfOk result (λ found.
        IsTrue (is_same found) ↔ (text.now ≡ answers.now)) }
{
    match comparison.options.scope {
        Scope::Whole => compare_lines(rt, comparison, text, answers, writer, watch),
        Scope::Audit => compare_audits(rt, comparison, text, answers, writer, watch),
        Scope::Part => compare_parts(rt, comparison, text, answers, writer, watch),
    }
}

/// Compares the audit of answers with that of l4map's answers.
fn compare_audits<T: AllocGlobal + Threads + Sync, W: Sink, V: Watch>(
    rt: &T,
    comparison: &Comparison<'_>,
    text: &[u8],
    answers: &[u8],
    writer: &mut W,
    watch: &mut V,
) -> Result<Compared, CompareError> {
    let ours = audit_of(rt.alloc(), text)?;
    let theirs = audit_of(rt.alloc(), answers)?;
    if ours.is_empty() && theirs.is_empty() {
        writer.write_all(b"nothing was compared: both audits are empty\n")?;
        return Ok(Compared::Nothing);
    }
    let mut difference = first_difference(&ours, &theirs);
    if let Some(first) = &mut difference {
        first.line = line_of_mapping(answers, first.line);
    }
    let sides = Sides {
        ours: &ours,
        theirs: answers,
    };
    tell(rt, comparison, difference, &sides, writer, watch)
}

/// Compares answers with those of l4map's lines that they have too.
fn compare_parts<T: AllocGlobal + Threads + Sync, W: Sink, V: Watch>(
    rt: &T,
    comparison: &Comparison<'_>,
    text: &[u8],
    answers: &[u8],
    writer: &mut W,
    watch: &mut V,
) -> Result<Compared, CompareError> {
    if answers.is_empty() {
        writer.write_all(b"nothing was compared: the answers are empty\n")?;
        return Ok(Compared::Nothing);
    }
    let ours = named_lines(rt.alloc(), text, answers)?;
    compare_lines(rt, comparison, &ours, answers, writer, watch)
}

/// Compares lines of answers with lines of l4map's.
fn compare_lines<T: AllocGlobal + Threads + Sync, W: Sink, V: Watch>(
    rt: &T,
    comparison: &Comparison<'_>,
    ours: &[u8],
    theirs: &[u8],
    writer: &mut W,
    watch: &mut V,
) -> Result<Compared, CompareError>
    ensures { IfOk result (λ found. IsTrue (is_same found) ↔ (ours.now ≡ theirs.now)) }
{
    let difference = first_difference(ours, theirs);
    let sides = Sides { ours, theirs };
    tell(rt, comparison, difference, &sides, writer, watch)
}

/// Writes that l4map's lines and those of the answers are the same, or where they differ: first, or everywhere.
fn tell<T: AllocGlobal + Threads + Sync, W: Sink, V: Watch>(
    rt: &T,
    comparison: &Comparison<'_>,
    difference: Option<Difference<'_>>,
    sides: &Sides<'_>,
    writer: &mut W,
    watch: &mut V,
) -> Result<Compared, CompareError>
    ensures { IfOk result (λ found. IsTrue (is_same found) ↔ IsNone difference.entry) }
{
    let mut text = String::new(rt.alloc());
    let trees = match difference {
        None => {
            push_same(&mut text, line_count(sides.ours))?;
            writer.write_all(text.as_bytes())?;
            return Ok(Compared::Same);
        }
        Some(_) if comparison.options.tells_all => {
            push_all(rt.alloc(), &mut text, comparison, sides)?;
            None
        }
        Some(difference) => push_first(rt, &mut text, comparison, &difference, watch)?,
    };
    writer.write_all(text.as_bytes())?;
    Ok(Compared::Differs(trees))
}

/// Appends where texts differ first: the line of each, and for the reply to a record what stands in the trace and what
/// the record changed. Returns the trees that tell more of it.
fn push_first<T: AllocGlobal + Threads + Sync, V: Watch>(
    rt: &T,
    text: &mut String,
    comparison: &Comparison<'_>,
    difference: &Difference<'_>,
    watch: &mut V,
) -> Result<Option<Trees>, CompareError> {
    let number = difference.line;
    write!(text, "first difference: line {number}\n")?;
    push_sides(text, difference, "(the end)")?;
    match difference.ours.map(key_of) {
        Some(Key::Reply(record)) => push_record(rt, comparison, record, text, watch),
        _ => Ok(tree_at_end(difference)),
    }
}

/// Appends the differences between l4map's lines and those of the answers, as many as are to be told, and how many
/// there are.
fn push_all(
    alloc: Global,
    text: &mut String,
    comparison: &Comparison<'_>,
    sides: &Sides<'_>,
) -> Result<(), CompareError> {
    let CompareOptions { scope, most, .. } = comparison.options;
    let Differences { told, count } = all_differences(
        alloc,
        sides.ours,
        sides.theirs,
        scope == Scope::Audit,
        most,
    )?;
    let numbers = records_of(alloc, &told)?;
    let texts = RecordTexts::new(alloc, comparison.name, comparison.trace, numbers)?;
    for (i, difference) in told.iter().enumerate() {
        push_told(text, (i as u64).saturating_add(1), difference, &texts)?;
    }
    let untold = count.saturating_sub(told.len() as u64);
    if untold > 0 {
        write!(text, ".. and {untold} more; --max tells more of them\n")?;
    }
    let ending = if count == 1 { "" } else { "s" };
    write!(text, "{count} difference{ending} in all\n")?;
    Ok(())
}

/// The records to which l4map's lines of some differences are replies.
fn records_of(alloc: Global, told: &[Difference<'_>]) -> Result<Vec<u64>, AllocError> {
    let mut numbers = Vec::new(alloc);
    for difference in told {
        if let Some(Key::Reply(number)) = difference.ours.map(key_of) {
            numbers.push(u64::from(number))?;
        }
    }
    Ok(numbers)
}

/// Appends the difference with this number: the line of each, and for the reply to a record what stands in the trace.
fn push_told(
    text: &mut String,
    number: u64,
    difference: &Difference<'_>,
    texts: &RecordTexts,
) -> Result<(), AllocError> {
    let line = difference.line;
    write!(text, "difference {number}: line {line}\n")?;
    push_sides(text, difference, "(no such line)")?;
    if let Some(Key::Reply(record)) = difference.ours.map(key_of) {
        text.push_str("  ")?;
        texts.push(text, u64::from(record))?;
        text.push_str("\n")?;
    }
    Ok(())
}

/// Appends both lines of a difference, and what is to be said of their form.
fn push_sides(
    text: &mut String,
    difference: &Difference<'_>,
    none: &str,
) -> Result<(), AllocError> {
    push_side(text, "l4map:   ", difference.ours, none)?;
    push_side(text, "answers: ", difference.theirs, none)?;
    if difference.ours == difference.theirs {
        text.push_str("  the line feed is missing in one of them\n")?;
    }
    push_form(text, difference.ours, difference.theirs)
}

/// Appends that none of so many lines differs.
fn push_same(text: &mut String, lines: usize) -> Result<(), AllocError> {
    let ending = if lines == 1 { "" } else { "s" };
    write!(text, "no difference in {lines} line{ending}\n")
}

/// The tree of the frame that is told in the line of the lower page.
fn tree_at_end(difference: &Difference<'_>) -> Option<Trees> {
    let line = match (difference.ours, difference.theirs) {
        (Some(ours), Some(theirs)) if key_of(theirs) < key_of(ours) => theirs,
        (Some(line), _) | (None, Some(line)) => line,
        (None, None) => return None,
    };
    let frame = frame_of(line)?;
    Some(Trees::OfFrame { frame, at: None })
}

/// Appends one text's line of a difference.
fn push_side(
    text: &mut String,
    name: &str,
    line: Option<&[u8]>,
    none: &str,
) -> Result<(), AllocError> {
    text.push_str("  ")?;
    text.push_str(name)?;
    match line {
        Some(line) => push_shown(text, line, SHOWN)?,
        None => text.push_str(none)?,
    }
    text.push_str("\n")
}

/// Appends a record as it stands in the trace, and the mappings that it changed, and returns the trees that tell more of it.
fn push_record<T: AllocGlobal + Threads + Sync, V: Watch>(
    rt: &T,
    comparison: &Comparison<'_>,
    number: u32,
    text: &mut String,
    watch: &mut V,
) -> Result<Option<Trees>, CompareError> {
    let alloc = rt.alloc();
    let mut places = Places::new(alloc, comparison.trace)?;
    let (before, span) = nth_record(&mut places, number)?;
    push_place(comparison, number, &span, text)?;
    let old = audit_at(rt, comparison, before.end, watch)?;
    let new = audit_at(rt, comparison, span.end, watch)?;
    if old.as_slice() == new.as_slice() {
        text.push_str("\n  it changes no mapping\n")?;
        let fields = places.fields(alloc)?;
        return Ok(accessed_tree(&fields, &new, u64::from(number)));
    }
    text.push_str("\n  it changes these mappings:\n")?;
    push_changes(text, &old, &new)?;
    Ok(Some(Trees::ChangedBy(u64::from(number))))
}

/// Where what comes right before the record with this number stands, a record or the header, and then where that record stands.
fn nth_record(places: &mut Places<'_>, number: u32) -> Result<(Span, Span), NoMemory> {
    let mut before = places.next_place()?;
    let mut span = places.next_place()?;
    for _ in 1..number {
        before = span;
        span = places.next_place()?;
    }
    Ok((before, span))
}

/// Appends a record, with its number, the name of the trace and its line there.
fn push_place(
    comparison: &Comparison<'_>,
    number: u32,
    span: &Span,
    text: &mut String,
) -> Result<(), AllocError> {
    let name = comparison.name;
    let line = span.line;
    write!(text, "  record {number}, {name}:{line}: ")?;
    push_shown(text, span.text(comparison.trace), SHOWN)
}

/// The audit after the records of a trace that end before this byte of it.
fn audit_at<T: AllocGlobal + Threads + Sync, V: Watch>(
    rt: &T,
    comparison: &Comparison<'_>,
    end: usize,
    watch: &mut V,
) -> Result<Vec<u8>, CompareError> {
    let trace = comparison.trace;
    let text = replayed(rt, trace.get(..end).unwrap_or(trace), watch)?;
    Ok(audit_of(rt.alloc(), &text)?)
}

/// The tree of the page that a record with this number accesses, if an audit has the page.
fn accessed_tree(fields: &[&[u8]], audit: &[u8], number: u64) -> Option<Trees> {
    let [name, space, address, _] = fields else {
        return None;
    };
    if *name != b"access".as_slice() {
        return None;
    }
    let space = fields::number(space, 10, 5)?;
    let page = fields::word(address)? / 4096;
    let frame = frame_of(line_of_page(audit, (space, page))?)?;
    Some(Trees::OfFrame {
        frame,
        at: Some(number),
    })
}
