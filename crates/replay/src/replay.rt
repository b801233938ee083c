//! A run: from the bytes of a trace to the text of its replay.

ghost use Rattle.std.specs.Prelude.{◌≡◌, ◌<◌, ◌≤◌, ◌+◌, ◌-◌, ◌++◌, ◌⊎◌, false, true, map, length, string_bytes, IfOk, IfErr, IfSome, OnOk, OnErr};
ghost use Rattle.std.specs.Io.KnownBytes.{Appends};
ghost use Rattle.model.specs.Definitions.Calls.{accessed};
ghost use Rattle.model.specs.Definitions.Text.{reply_line, reply_lines, is_refused, refused_count, audit_lines, end_line};
ghost use Rattle.crew.specs.declared.error.CrewError.TheVariants.{NoMemory};
ghost use Rattle.mapdb.specs.Held.{limits_of};
ghost use Rattle.trace.specs.Meaning.{reply_of};
ghost use Rattle.trace.specs.Stream.{TellsFailure};
ghost use Rattle.replay.specs.Options.{AreServed};
ghost use Rattle.replay.specs.Run.{WritesReplay, EndsEarly, WritesNothing, IsNoWorker, TellsStreams};
ghost use Rattle.replay.specs.Steps.{replies_of, PassesOn, StopsAt, StopsAmong, IsStarted, StartsNot};
ghost use Rattle.replay.specs.Steps.{AwaitsAudit, StopsInput};

use crate::answer::{Replies, answer_first};
use crate::buffers::Buffers;
use crate::error::RunError;
use crate::lines::Lines;
use crate::options::Options;
use crate::watch::Watch;
use audit::Report;
use crew::{Alone, Crew, CrewError, NoGate, Workers};
use mapdb::{Database, DbError, Limits};
use std::alloc::{AllocError, Global};
use std::sync::Wait;
use std::thread::Threads;
use trace::{Bytes, Failed, ReadError, Reply, Sink, Source, TraceReader, read_to_end};

/// How many full pieces a phase must fill for several workers to share it (measured in docs/PERFORMANCE.md).
const LEAST_SHARED: usize = 256;

/// For the words of how many shards there is room at the start: 32 MiB, which the system gives only as they are used.
const ROOM: usize = 65_536;

/// With how many frames at most there is room at the start: the words of more roots would take long to copy there.
const FEW_FRAMES: u32 = 65_536;

/// The numbers of the last line of a run.
#[derive(Clone, Copy, Debug, PartialEq, Eq)]
pub struct Summary {
    /// How many records followed the header.
    pub records: u64,
    /// How many of them were refused.
    pub refused: u64,
}

/// Puts the line of a reply behind those that the sink was not given yet, and gives it all of them, if they are many.
fn write_line<W: Sink>(
    writer: &mut W,
    lines: &mut Lines,
    number: u64,
    reply: &Reply,
) -> Result<(), RunError>
    ensures ok { OnOk result (PassesOn (W.contents writer.old) (W.contents writer.new) (lines.old ++ reply_line number (reply_of reply.now)) lines.new) }
    ensures works { OnOk result (W.failed writer.new ≡ W.failed writer.old) }
    ensures err { IfErr result (StopsAt NoMemory number lines.old (W.contents writer.old) (W.contents writer.new) (W.failed writer.old) (W.failed writer.new)) }
{
    if lines.push(number, reply).is_err() {
        return Err(stop_at(writer, lines, number, CrewError::NoMemory));
    }
    match lines.pass_on_many(writer) {
        Ok(()) => Ok(()),
        Err(_) => Err(RunError::WriteFailed),
    }
}

/// Puts the lines of the replies to accesses behind the others, numbered from this number on.
fn write_accesses<W: Sink>(
    writer: &mut W,
    lines: &mut Lines,
    number: u64,
    answers: &[bool],
) -> Result<(), RunError>
    requires few { number + length answers.now ≤ 18446744073709551616 }
    ensures ok { OnOk result (PassesOn (W.contents writer.old) (W.contents writer.new) (lines.old ++ reply_lines number (map accessed answers.now)) lines.new) }
    ensures works { OnOk result (W.failed writer.new ≡ W.failed writer.old) }
    ensures err { IfErr result (StopsAmong number (map accessed answers.now) lines.old (W.contents writer.old) (W.contents writer.new) (W.failed writer.old) (W.failed writer.new)) }
{
    for (i, answer) in answers.iter().enumerate() {
        write_line(writer, lines, number + i as u64, &Reply::Accessed(*answer))?;
    }
    Ok(())
}

/// Puts the lines of replies behind the others, numbered from this number on. Returns how many of the replies are refusals.
fn write_replies<W: Sink>(
    writer: &mut W,
    lines: &mut Lines,
    number: u64,
    replies: &Replies,
) -> Result<u64, RunError>
    requires few { number + length (replies_of replies.now) ≤ 18446744073709551616 }
    ensures ok { OnOk result (PassesOn (W.contents writer.old) (W.contents writer.new) (lines.old ++ reply_lines number (replies_of replies.now)) lines.new) }
    ensures refused { IfOk result (λ refused. refused ≡ refused_count (replies_of replies.now)) }
    ensures works { OnOk result (W.failed writer.new ≡ W.failed writer.old) }
    ensures err { IfErr result (StopsAmong number (replies_of replies.now) lines.old (W.contents writer.old) (W.contents writer.new) (W.failed writer.old) (W.failed writer.new)) }
{
    match replies {
        Replies::One(reply) => {
            write_line(writer, lines, number, reply)?;
            Ok(u64::from(is_refused(reply)))
        }
        Replies::Accesses(answers) => {
            write_accesses(writer, lines, number, answers)?;
            Ok(0)
        }
    }
}

/// Whether a reply is a refusal.
fn is_refused(reply: &Reply) -> bool
    ensures { result ≡ is_refused (reply_of reply.now) }
{
    matches!(reply, Reply::Refused(_))
}

/// Gives the sink the audit lines, part by part.
fn write_audit<W: Sink>(
    rt: &(impl AllocGlobal + Threads + Sync),
    report: &mut Report<'_>,
    writer: &mut W,
) -> Result<(), Failed>
    ensures bytes { OnOk result (Appends (W.contents writer.old) (W.contents writer.new) report.old.rest) }
    ensures ok { OnOk result (W.failed writer.new ≡ W.failed writer.old) }
    ensures err { OnErr result (W.failed writer.new ≡ true) }
{
    while report.next(rt) {
        writer.write_all(report.part())?;
    }
    Ok(())
}

/// The end line.
fn end_text(alloc: Global, records: u64, refused: u64) -> Result<String, AllocError>
    ensures { IfOk result (λ text. string_bytes text ≡ end_line records refused) }
{
    format!(in alloc; "end {records} {refused}\n")
}

/// Replays a trace: reads it to its end, answers its records one by one, and writes the replies and the audit. The calling
/// thread works alone what is small, and all of it where there is one worker, or with `plain`; a crew shares the larger
/// phases. The watch hears how far the run has come.
///
/// Where memory runs out at a record, or a thread cannot be started, the reply lines before it have been written and flushed.
pub fn run<T: AllocGlobal + Threads + Wait + Sync, R: Source, W: Sink, V: Watch>(
    rt: &T,
    reader: &mut R,
    writer: &mut W,
    options: &Options,
    watch: &mut V,
) -> Result<Summary, RunError>
    requires reader { R.failed reader.old ≡ false }
    requires writer { W.failed writer.old ≡ false }
    requires options { AreServed options.now }

    // The replay theorem: what is written is the text of the replay of the calls that the input means.
    ensures replayed { IfOk result (λ summary. IfSome (R.remaining reader.old) (λ input.
        WritesReplay input (W.contents writer.old) (W.contents writer.new) summary)) }
    ensures ok { OnOk result ((R.failed reader.new ≡ false) × (W.failed writer.new ≡ false)) }

    // Why it ended early, and what was written by then.
    ensures ended { IfErr result (λ e. IfSome (R.remaining reader.old) (λ input.
        EndsEarly input (W.contents writer.old) (W.contents writer.new) e)) }
    ensures nothing { IfErr result (WritesNothing (W.contents writer.old) (W.contents writer.new)) }
    ensures streams { IfErr result (TellsStreams (R.failed reader.new) (W.failed writer.new)) }
    ensures needs_no_worker { (options.now.plain ≡ true) ⊎ (options.now.workers ≡ 1) → IfErr result (λ e. IsNoWorker e → ⊥) }
{
    let alloc = rt.alloc();
    let bytes = read_input(alloc, reader)?;
    if options.plain || options.workers == 1 {
        let replayed = replay_trace(alloc, bytes, writer, options.plain, &Alone, watch)?;
        return write_closing(rt, replayed, writer);
    }
    let workers = options.workers as usize;
    let crew = Crew::new(rt, workers, options.piece_length as usize, &NoGate).alone_below(
        LEAST_SHARED,
    );
    let replayed = replay_trace(alloc, bytes, writer, false, &crew, watch)?;
    write_closing(rt, replayed, writer)
}

/// The same, whoever works the calls; with `plain` unmaps and clears go by recursion on the calling thread.
pub fn run_by<T: AllocGlobal + Threads + Sync, R: Source, W: Sink, C: Workers, V: Watch>(
    rt: &T,
    reader: &mut R,
    writer: &mut W,
    plain: bool,
    workers: &C,
    watch: &mut V,
) -> Result<Summary, RunError>
    requires reader { R.failed reader.old ≡ false }
    requires writer { W.failed writer.old ≡ false }

    // The replay theorem: what is written is the text of the replay of the calls that the input means.
    ensures replayed { IfOk result (λ summary. IfSome (R.remaining reader.old) (λ input.
        WritesReplay input (W.contents writer.old) (W.contents writer.new) summary)) }
    ensures ok { OnOk result ((R.failed reader.new ≡ false) × (W.failed writer.new ≡ false)) }

    // Why it ended early, and what was written by then.
    ensures ended { IfErr result (λ e. IfSome (R.remaining reader.old) (λ input.
        EndsEarly input (W.contents writer.old) (W.contents writer.new) e)) }
    ensures nothing { IfErr result (WritesNothing (W.contents writer.old) (W.contents writer.new)) }
    ensures streams { IfErr result (TellsStreams (R.failed reader.new) (W.failed writer.new)) }
    ensures needs_no_worker { C.starts_none workers.now → IfErr result (λ e. IsNoWorker e → ⊥) }
{
    let alloc = rt.alloc();
    let bytes = read_input(alloc, reader)?;
    let replayed = replay_trace(alloc, bytes, writer, plain, workers, watch)?;
    write_closing(rt, replayed, writer)
}

/// Reads a source to its end.
// (It is not compiled into `run`, whose frame would hold what one read fills as long as the trace is replayed.)
#[inline(never)]
fn read_input<R: Source>(alloc: Global, reader: &mut R) -> Result<Bytes, ReadError>
    ensures bytes { IfOk result (λ bytes. IfSome (R.remaining reader.old) (λ input. bytes ≡ input)) }
    ensures ok { OnOk result (R.failed reader.new ≡ R.failed reader.old) }
    ensures err { IfErr result (TellsFailure (R.failed reader.old) (R.failed reader.new)) }
{
    read_to_end(alloc, reader)
}

/// A database at the start. It has room for the words of many shards, which are not copied then as these are made; but
/// not where many roots have their words already.
fn start(alloc: Global, limits: &Limits) -> Result<Database, RunError>
    ensures ok { IfOk result (IsStarted (limits_of limits.now)) }
    ensures err { IfErr result (StartsNot (limits_of limits.now)) }
{
    match Database::new(alloc, limits.spaces, limits.bits, limits.frames) {
        Ok(mut database) => {
            if limits.frames <= FEW_FRAMES {
                database.reserve(ROOM);
            }
            Ok(database)
        }
        Err(DbError::BadLimits) => Err(RunError::BadLimits),
        Err(_) => Err(RunError::NoMemory(0)),
    }
}

/// A trace of which all records are answered. Its audit is not written yet, nor are some lines.
#[derive(Drop)]
struct Replayed {
    database: Database,
    lines: Lines,
    /// The number that one record more would have.
    number: u64,
    /// How many of the records were refused.
    refused: u64,
}

/// Reads the header and the records of a trace, answers these in order on a database with its limits, and writes their reply
/// lines, but for some of the last. The bytes go as they are read. Where a record cannot be answered for want of memory
/// or of a worker, the reply lines before it are flushed.
fn replay_trace<W: Sink, C: Workers, V: Watch>(
    alloc: Global,
    bytes: Bytes,
    writer: &mut W,
    plain: bool,
    workers: &C,
    watch: &mut V,
) -> Result<Replayed, RunError>
    ensures ok { IfOk result (AwaitsAudit bytes (W.contents writer.old) (W.contents writer.new)) }
    ensures works { OnOk result (W.failed writer.new ≡ W.failed writer.old) }
    ensures err { IfErr result (StopsInput bytes (W.contents writer.old) (W.contents writer.new) (W.failed writer.old) (W.failed writer.new)) }
    ensures needs_no_worker { C.starts_none workers.now → IfErr result (λ e. IsNoWorker e → ⊥) }
{
    let mut trace = TraceReader::new(alloc, bytes)?;
    let mut database = start(alloc, &trace.limits())?;
    let mut lines = Lines::new(alloc, watch.block());
    let mut buffers = Buffers::new(alloc);
    let mut number = trace.number();
    let mut refused = 0;
    while !trace.is_at_end() {
        watch.hear(number);
        let replies = match answer_first(
            alloc,
            &mut database,
            &mut trace,
            workers,
            plain,
            &mut buffers,
        ) {
            Ok(replies) => replies,
            Err(why) => return Err(stop_at(writer, &mut lines, number, why)),
        };
        let next = trace.number();
        let refusals = write_replies(writer, &mut lines, number, &replies)?;
        buffers.keep(replies);
        refused += refusals;
        number = next;
    }
    Ok(Replayed {
        database,
        lines,
        number,
        refused,
    })
}

/// Writes the lines that are left, the audit lines and the end line, and flushes them.
fn write_closing<W: Sink>(
    rt: &(impl AllocGlobal + Threads + Sync),
    replayed: Replayed,
    writer: &mut W,
) -> Result<Summary, RunError>
    requires running { replayed.database.is_halted ≡ false }
    requires records { 0 < replayed.number }
    ensures ok { IfOk result (λ summary. summary ≡ record { records = replayed.number - 1; refused = replayed.refused }) }
    ensures written { OnOk result (Appends (W.contents writer.old) (W.contents writer.new)
        (replayed.lines ++ (audit_lines replayed.database.holdings ++ end_line (replayed.number - 1) replayed.refused))) }
    ensures works { OnOk result (W.failed writer.new ≡ W.failed writer.old) }
    ensures err { IfErr result (StopsAt NoMemory replayed.number replayed.lines (W.contents writer.old) (W.contents writer.new) (W.failed writer.old) (W.failed writer.new)) }
{
    let Replayed {
        database,
        mut lines,
        number,
        refused,
    } = replayed;
    let records = number - 1;
    let alloc = rt.alloc();
    let Ok(mut report) = Report::new(alloc, &database) else {
        return Err(stop_at(writer, &mut lines, number, CrewError::NoMemory));
    };
    let Ok(end) = end_text(alloc, records, refused) else {
        return Err(stop_at(writer, &mut lines, number, CrewError::NoMemory));
    };
    if lines.pass_on(writer).is_err()
        || write_audit(rt, &mut report, writer).is_err()
        || writer.write_all(end.as_bytes()).is_err()
        || writer.flush().is_err()
    {
        return Err(RunError::WriteFailed);
    }
    Ok(Summary { records, refused })
}

/// Gives the sink the lines before a record that was not answered, flushes them, and returns why the run ends there.
fn stop_at<W: Sink>(writer: &mut W, lines: &mut Lines, number: u64, why: CrewError) -> RunError
    ensures { StopsAt why number lines.old (W.contents writer.old) (W.contents writer.new) (W.failed writer.old) (W.failed writer.new) result }
{
    if lines.pass_on(writer).is_err() || writer.flush().is_err() {
        return RunError::WriteFailed;
    }
    match why {
        CrewError::NoMemory => RunError::NoMemory(number),
        CrewError::NoWorker => RunError::NoWorker(number),
    }
}
