//! Whole runs over memory, and streams that fail.

ghost use Rattle.std.specs.Prelude.{◌≡◌, false, true, IfOk, OnOk, OnErr};
ghost use Rattle.replay.specs.Options.{AreServed};

mod shared;
mod worked;

use crate::assertions::{assert_equal, assert_holds};
use audit::{AuditError, check, lines};
use crew::{Changed, Crew, CrewError, Gate, NoGate, Planned, Workers, work};
use mapdb::{Database, DbError};
use maptree::Tree;
use pieces::{Done, Piece};
use replay::{Buffers, NoWatch, Options, RunError, Summary, Watch, answer_first, run, run_by};
use space::NoMemory;
use std::alloc::{AllocError, Global};
use std::process::Abort;
use std::sync::Wait;
use std::sync::atomic::{AtomicU64, Ordering};
use std::test::Fail;
use std::thread::Threads;
use trace::{Failed, Sink, Std, TraceReader};
use turns::{Open, Turn};
use worked::TRACES;

/// The audit lines of sixteen frames that no call has changed.
const ROOTS: &str =
    "0,0,0,rwx,---,-\n0,1,1,rwx,---,-\n0,2,2,rwx,---,-\n0,3,3,rwx,---,-\n0,4,4,rwx,---,-\n0,5,5,rwx,---,-\n0,6,6,rwx,---,-\n0,7,7,rwx,---,-\n0,8,8,rwx,---,-\n0,9,9,rwx,---,-\n0,10,10,rwx,---,-\n0,11,11,rwx,---,-\n0,12,12,rwx,---,-\n0,13,13,rwx,---,-\n0,14,14,rwx,---,-\n0,15,15,rwx,---,-\n";

const OPTIONS: Options = Options {
    workers: 4,
    piece_length: 256,
    plain: false,
};

const LEAST_PIECES: Options = Options {
    workers: 64,
    piece_length: 1,
    plain: false,
};

const ONE_WORKER: Options = Options {
    workers: 1,
    piece_length: 65536,
    plain: false,
};

const PLAIN: Options = Options {
    workers: 4,
    piece_length: 256,
    plain: true,
};

/// Texts, one behind the other.
fn joined(alloc: Global, texts: &[&str]) -> Result<String, AllocError> {
    let mut joined = String::new(alloc);
    for text in texts {
        joined.push_str(text)?;
    }
    Ok(joined)
}

/// What a run over memory came to, and what it wrote.
fn outcome_of(
    rt: &(impl AllocGlobal + Threads + Wait + Sync),
    input: &str,
    options: &Options,
) -> (Result<Summary, RunError>, Vec<u8>)
    requires { AreServed options.now }
{
    let mut output = Std::new(Vec::new(rt.alloc()));
    let outcome = run(
        rt,
        &mut Std::new(input.as_bytes()),
        &mut output,
        options,
        &mut NoWatch,
    );
    (outcome, output.into_inner())
}

/// Traces, with their reply lines, the audit lines after the roots, and the end line.
const REPLAYS: [(&str, &str, &str, &str); 9] = [
    ("l4map,1,3,18,16\n", "", "", "end 0 0\n"),
    (
        "l4map,1,3,18,16\nsend,0,1,10,8,50c6\n",
        "1 send absent=0 norights=0 origin=0 lost=0 extended=0 linked=1\n",
        "1,0,5,rw-,---,0:5\n",
        "end 1 0\n",
    ),
    (
        "l4map,1,3,18,16\nsend,0,1,10,9008,50c7\n",
        "1 send absent=0 norights=0 origin=0 lost=0 extended=0 linked=1\n",
        "1,9,5,rwx,---,0:5\n",
        "end 1 0\n",
    ),
    (
        "l4map,1,3,18,16\nsend,0,1,10,8,50c6\nsend,1,2,10,8,c1\n",
        "1 send absent=0 norights=0 origin=0 lost=0 extended=0 linked=1\n2 send absent=0 norights=1 origin=0 lost=0 extended=0 linked=0\n",
        "1,0,5,rw-,---,0:5\n",
        "end 2 0\n",
    ),
    (
        "l4map,1,3,18,16\nsend,0,1,10,8,50c6\naccess,1,fff,w\naccess,1,ffc,x\naccess,1,1000,r\naccess,1,40000,r\naccess,3,0,r\n",
        "1 send absent=0 norights=0 origin=0 lost=0 extended=0 linked=1\n2 access ok\n3 access fault\n4 access fault\n5 refused OutOfSpace\n6 refused NoSuchSpace\n",
        "1,0,5,rw-,RW-,0:5\n",
        "end 6 2\n",
    ),
    (
        "l4map,1,3,18,16\nsend,0,1,c0,8,50c7\nsend,1,2,c0,8,c7\nunmap,0,0,50c2\n",
        "1 send absent=0 norights=0 origin=0 lost=0 extended=0 linked=1\n2 send absent=0 norights=0 origin=0 lost=0 extended=0 linked=1\n3 unmap 000050c0\n",
        "1,0,5,r-x,---,0:5\n2,0,5,r-x,---,1:0\n",
        "end 3 0\n",
    ),
    (
        "l4map,1,3,18,16\nsend,0,1,c0,8,50c7\nsend,1,2,c0,8,c7\naccess,2,0,w\nunmap,1,0,10\nunmap,1,0,10\nunmap,0,0,10\n",
        "1 send absent=0 norights=0 origin=0 lost=0 extended=0 linked=1\n2 send absent=0 norights=0 origin=0 lost=0 extended=0 linked=1\n3 access ok\n4 unmap 00000016\n5 unmap 00000010\n6 unmap 00000016\n",
        "1,0,5,rwx,---,0:5\n2,0,5,rwx,---,1:0\n",
        "end 6 0\n",
    ),
    (
        "l4map,1,3,18,16\nsend,0,1,c0,8,50c7\nsend,1,2,c0,8,c7\nunmap,0,1,50c2,50c4\n",
        "1 send absent=0 norights=0 origin=0 lost=0 extended=0 linked=1\n2 send absent=0 norights=0 origin=0 lost=0 extended=0 linked=1\n3 unmap 000050c0 000050c0\n",
        "1,0,5,--x,---,0:5\n2,0,5,--x,---,1:0\n",
        "end 3 0\n",
    ),
    (
        "l4map,1,3,18,16\nunmap,1,1,10\nunmap,1,0,0\nunmap,1,0,f\nunmap,3,0,10\n",
        "1 refused BadControl\n2 unmap 00000000\n3 unmap 00000008\n4 refused NoSuchSpace\n",
        "",
        "end 4 2\n",
    ),
];

/// Looks at what a run writes that ends well.
fn expect_output(
    rt: &(impl Abort + AllocGlobal + Threads + Wait + Sync),
    input: &str,
    options: &Options,
    expected: &str,
)
    requires { AreServed options.now }
{
    let (outcome, written) = outcome_of(rt, input, options);
    assert_holds(rt, outcome.is_ok(), input);
    assert_equal(rt, written.as_slice(), expected.as_bytes(), input);
}

/// Looks at the same of any number of workers, and by recursion.
fn expect_outputs(
    rt: &(impl Abort + AllocGlobal + Threads + Wait + Sync),
    input: &str,
    expected: &str,
) {
    expect_output(rt, input, &OPTIONS, expected);
    expect_output(rt, input, &LEAST_PIECES, expected);
    expect_output(rt, input, &ONE_WORKER, expected);
    expect_output(rt, input, &PLAIN, expected);
}

/// Traces of spaces of 2^32 bytes, and what is written of them.
const LARGE_REPLAYS: [(&str, &str); 2] = [
    (
        "l4map,1,2,32,1\nsend,0,1,10,fffff008,c6\naccess,1,fffff123,w\nunmap,0,0,c2\n",
        "1 send absent=0 norights=0 origin=0 lost=0 extended=0 linked=1\n2 access ok\n3 unmap 000000c6\n0,0,0,rwx,---,-\n1,1048575,0,r--,---,0:0\nend 3 0\n",
    ),
    (
        "l4map,1,2,32,1\nsend,0,1,200,8,207\nsend,0,1,200,8,217\n",
        "1 send absent=1048575 norights=0 origin=0 lost=0 extended=0 linked=1\n2 refused OutOfSpace\n0,0,0,rwx,---,-\n1,0,0,rwx,---,0:0\nend 2 1\n",
    ),
];

/// Traces with clears, of both versions, and what is written of them.
const CLEAR_REPLAYS: [(&str, &str); 5] = [
    (
        "l4map,2,3,18,16\nsend,0,1,c0,8,50c7\nsend,1,2,c0,8,c7\naccess,2,0,w\nclear,1\nclear,3\nclear\n",
        "1 send absent=0 norights=0 origin=0 lost=0 extended=0 linked=1\n2 send absent=0 norights=0 origin=0 lost=0 extended=0 linked=1\n3 access ok\n4 clear 00000016\n5 refused NoSuchSpace\n6 refused BadRecord\n0,0,0,rwx,---,-\n0,1,1,rwx,---,-\n0,2,2,rwx,---,-\n0,3,3,rwx,---,-\n0,4,4,rwx,---,-\n0,5,5,rwx,RW-,-\n0,6,6,rwx,---,-\n0,7,7,rwx,---,-\n0,8,8,rwx,---,-\n0,9,9,rwx,---,-\n0,10,10,rwx,---,-\n0,11,11,rwx,---,-\n0,12,12,rwx,---,-\n0,13,13,rwx,---,-\n0,14,14,rwx,---,-\n0,15,15,rwx,---,-\nend 6 2\n",
    ),
    (
        "l4map,1,3,18,16\nsend,0,1,c0,8,50c7\nsend,1,2,c0,8,c7\naccess,2,0,w\nclear,1\nclear,3\nclear\n",
        "1 send absent=0 norights=0 origin=0 lost=0 extended=0 linked=1\n2 send absent=0 norights=0 origin=0 lost=0 extended=0 linked=1\n3 access ok\n4 refused BadRecord\n5 refused BadRecord\n6 refused BadRecord\n0,0,0,rwx,---,-\n0,1,1,rwx,---,-\n0,2,2,rwx,---,-\n0,3,3,rwx,---,-\n0,4,4,rwx,---,-\n0,5,5,rwx,---,-\n0,6,6,rwx,---,-\n0,7,7,rwx,---,-\n0,8,8,rwx,---,-\n0,9,9,rwx,---,-\n0,10,10,rwx,---,-\n0,11,11,rwx,---,-\n0,12,12,rwx,---,-\n0,13,13,rwx,---,-\n0,14,14,rwx,---,-\n0,15,15,rwx,---,-\n1,0,5,rwx,---,0:5\n2,0,5,rwx,RW-,1:0\nend 6 3\n",
    ),
    // Space 0 is cleared, of whose two frames one was granted away and one was mapped on.
    (
        "l4map,2,3,18,2\nsend,0,1,10,a,c7\nsend,0,2,10,8,10c7\naccess,2,0,w\naccess,1,0,x\nclear,0\n",
        "1 send absent=0 norights=0 origin=0 lost=0 extended=0 linked=1\n2 send absent=0 norights=0 origin=0 lost=0 extended=0 linked=1\n3 access ok\n4 access ok\n5 clear 00000016\n1,0,0,rwx,R-X,-\nend 5 0\n",
    ),
    // Accesses in a row before and behind a clear.
    (
        "l4map,2,2,18,1\nsend,0,1,10,8,c7\naccess,1,0,r\naccess,1,ffc,x\nclear,1\naccess,1,0,r\naccess,0,0,w\n",
        "1 send absent=0 norights=0 origin=0 lost=0 extended=0 linked=1\n2 access ok\n3 access ok\n4 clear 00000015\n5 access fault\n6 access ok\n0,0,0,rwx,RWX,-\nend 6 0\n",
    ),
    // A space that holds nothing.
    (
        "l4map,2,2,32,1\nclear,1\n",
        "1 clear 00000010\n0,0,0,rwx,---,-\nend 1 0\n",
    ),
];

#[test]
fn writes_the_replies_and_the_audit_of_traces_with_clears(rt: HostRuntime) {
    for (input, expected) in &CLEAR_REPLAYS {
        expect_outputs(&rt, input, expected);
    }
}

#[test]
fn writes_the_replies_and_the_audit_of_large_spaces(rt: HostRuntime) {
    for (input, expected) in &LARGE_REPLAYS {
        expect_outputs(&rt, input, expected);
    }
}

#[test]
fn writes_the_replies_and_the_audit(rt: HostRuntime) -> Result<(), Fail> {
    for (input, replies, mappings, end) in &REPLAYS {
        let expected = joined(rt.alloc(), &[replies, ROOTS, mappings, end])?;
        expect_outputs(&rt, input, expected.as_str());
    }
    Ok(())
}

/// A database with the limits of a trace.
fn database_for(alloc: Global, trace: &TraceReader) -> Result<Database, DbError>
    ensures { IfOk result (λ database. database.is_halted ≡ false) }
{
    let limits = trace.limits();
    Database::new(alloc, limits.spaces, limits.bits, limits.frames)
}

/// Answers the records of a trace.
fn answer_all(
    rt: &(impl Threads + Wait + Sync),
    alloc: Global,
    database: &mut Database,
    trace: &mut TraceReader,
) -> Result<(), CrewError> {
    let crew = Crew::new(rt, 1, 256, &NoGate);
    let mut buffers = Buffers::new(alloc);
    for _ in 0..u64::MAX {
        if trace.is_at_end() || database.is_halted() {
            break;
        }
        answer_first(alloc, database, trace, &crew, false, &mut buffers)?;
    }
    Ok(())
}

/// Looks at how many lines the audit of a database has, and that they pass the check.
fn expect_lines(
    rt: &impl Abort,
    alloc: Global,
    database: &Database,
    count: usize,
    input: &str,
) -> Result<(), DbError> {
    let lines = match lines(alloc, database) {
        Ok(lines) => lines,
        Err(AuditError::Halted) => return Err(DbError::Halted),
        Err(AuditError::NoMemory) => return Err(DbError::NoMemory),
    };
    assert_equal(rt, lines.len(), count, input);
    assert_holds(rt, check(&lines), input);
    Ok(())
}

/// Looks at the audit after a trace.
fn expect_audit(
    rt: &(impl Abort + AllocGlobal + Threads + Wait + Sync),
    trace: &mut TraceReader,
    count: usize,
    input: &str,
) -> Result<(), DbError> {
    let mut database = database_for(rt.alloc(), trace)?;
    answer_all(rt, rt.alloc(), &mut database, trace)?;
    expect_lines(rt, rt.alloc(), &database, count, input)
}

/// Looks at the audit after the trace that a text is.
fn expect_audit_of(
    rt: &(impl Abort + AllocGlobal + Threads + Wait + Sync),
    input: &str,
    count: usize,
) -> Result<(), Fail> {
    let mut trace = TraceReader::of_slice(rt.alloc(), input.as_bytes())?;
    Ok(expect_audit(rt, &mut trace, count, input)?)
}

#[test]
fn audits_of_worked_traces_pass_the_check(rt: HostRuntime) -> Result<(), Fail> {
    for (input, count) in &TRACES {
        expect_audit_of(&rt, input, *count)?;
    }
    Ok(())
}

/// Counts the pieces that begin.
#[derive(Drop)]
struct Counter {
    begun: AtomicU64,
}

impl Gate for Counter {
    fn begin(&self, _worker: usize, _workers: usize, _turn: &Turn, _shared: &Open) {
        self.begun.fetch_add(1, Ordering::SeqCst);
    }

    fn end(&self, _worker: usize, _workers: usize, _turn: &Turn, _shared: &Open) {}
}

/// A crew of one worker, whose gate counts pieces.
#[derive(Drop)]
struct Counted<'a, R> {
    crew: Crew<'a, R, Counter>,
}

impl<'a, R: Threads + Wait> Workers for Counted<'a, R> {
    ghost use Rattle.std.specs.Prelude.{◌≤◌};

    ghost starts_none = { λ held. held.crew.workers ≤ 1 };

    ghost length_of = { λ held. held.crew.piece_length };

    ghost least_of = { λ held. held.crew.least };

    fn piece_length(&self) -> usize {
        self.crew.piece_length()
    }

    fn shared_from(&self) -> usize {
        self.crew.shared_from()
    }

    fn planners(&self) -> usize {
        self.crew.planners()
    }

    fn plan(
        &self,
        alloc: Global,
        parts: usize,
        plan: &(dyn Fn(usize) -> Planned + Sync),
    ) -> Result<Vec<Planned>, AllocError> {
        self.crew.plan(alloc, parts, plan)
    }

    fn change(
        &self,
        trees: &mut [Tree],
        cuts: &[usize],
        change: &(dyn Fn(usize, &mut [Tree]) -> Changed + Sync),
    ) -> Changed {
        self.crew.change(trees, cuts, change)
    }

    fn work(
        &self,
        alloc: Global,
        words: Vec<u64>,
        pieces: Vec<Piece>,
    ) -> Result<(Vec<u64>, Vec<Done>), CrewError> {
        work(&self.crew, alloc, words, pieces)
    }
}

/// Three accesses, a refused one, two accesses.
const ACCESSES: &str =
    "l4map,1,2,18,4\naccess,0,0,r\naccess,0,1000,w\naccess,0,4000,x\naccess,0,40000,r\naccess,1,0,r\naccess,0,0,x\n";

const ACCESSES_OUTPUT: &str =
    "1 access ok\n2 access ok\n3 access fault\n4 refused OutOfSpace\n5 access fault\n6 access ok\n0,0,0,rwx,R-X,-\n0,1,1,rwx,RW-,-\n0,2,2,rwx,---,-\n0,3,3,rwx,---,-\nend 6 1\n";

/// What a run of these accesses came to, and what it wrote, by a crew whose pieces are counted.
fn counted_outcome(
    rt: &(impl AllocGlobal + Threads + Wait + Sync),
    counter: &Counter,
) -> (Result<Summary, RunError>, Vec<u8>) {
    let workers = Counted {
        crew: Crew::new(rt, 4, 256, counter),
    };
    let mut output = Std::new(Vec::new(rt.alloc()));
    let mut input = Std::new(ACCESSES.as_bytes());
    let outcome = run_by(rt, &mut input, &mut output, false, &workers, &mut NoWatch);
    (outcome, output.into_inner())
}

/// The accesses are two calls, each of one piece.
#[test]
fn accesses_in_a_row_are_one_call(rt: HostRuntime) {
    let counter = Counter {
        begun: AtomicU64::new(0),
    };
    let (outcome, written) = counted_outcome(&rt, &counter);
    let summary = Summary {
        records: 6,
        refused: 1,
    };
    assert_equal(&rt, outcome, Ok(summary), "the accesses");
    assert_equal(
        &rt,
        written.as_slice(),
        ACCESSES_OUTPUT.as_bytes(),
        "the output",
    );
    assert_equal(&rt, counter.begun.load(Ordering::SeqCst), 2, "pieces");
}

#[test]
fn counts_the_records_and_the_refused_ones(rt: HostRuntime) {
    let (outcome, _) = outcome_of(
        &rt,
        "l4map,1,2,18,1\nsend,0,1,10,3008,c6\naccess,2,0,r\nunmap,0,80,10\n",
        &OPTIONS,
    );
    let summary = Summary {
        records: 3,
        refused: 2,
    };
    assert_equal(&rt, outcome, Ok(summary), "records");
}

/// Inputs that end a run before it writes, each with its error.
const BAD_HEADERS: [(&str, RunError); 12] = [
    ("", RunError::BadHeader),
    ("\n\n", RunError::BadHeader),
    ("l4map,01,3,18,16\n", RunError::BadHeader),
    ("l4map,1,3,18\n", RunError::BadHeader),
    ("l4map,1,3,17,+16\n", RunError::BadHeader),
    ("l4map,02,3,18,16\n", RunError::BadHeader),
    ("l4map,3,3,17,16\n", RunError::BadHeader),
    ("l4map,2,3,17,16\n", RunError::BadLimits),
    ("l4map,1,3,17,16\n", RunError::BadLimits),
    ("l4map,1,513,18,16\n", RunError::BadLimits),
    ("l4map,1,3,18,65\n", RunError::BadLimits),
    ("l4map,1,2,33,1\n", RunError::BadLimits),
];

/// Looks at a run that ends with an error before it writes.
fn expect_error(
    rt: &(impl Abort + AllocGlobal + Threads + Wait + Sync),
    input: &str,
    error: RunError,
) {
    let (outcome, written) = outcome_of(rt, input, &OPTIONS);
    assert_equal(rt, outcome, Err(error), input);
    assert_holds(rt, written.is_empty(), input);
}

#[test]
fn answers_a_bad_header_before_it_writes(rt: HostRuntime) {
    for (input, error) in &BAD_HEADERS {
        expect_error(&rt, input, *error);
    }
}

/// A sink that counts its calls, keeps what was written and how much of it was flushed, and fails at one of its calls.
#[derive(Drop)]
struct FailingSink {
    kept: Vec<u8>,
    flushed: usize,
    calls: u64,
    fails_at: u64,
    failed: bool,
}

impl FailingSink {
    fn call(&mut self, bytes: &[u8]) -> Result<(), Failed>
        ensures ok { OnOk result (self.new.failed ≡ self.old.failed) }
        ensures err { OnErr result (self.new.failed ≡ true) }
    {
        self.calls = self.calls.wrapping_add(1);
        if self.calls == self.fails_at || self.kept.extend_from_slice(bytes).is_err() {
            self.failed = true;
            return Err(Failed);
        }
        Ok(())
    }
}

impl Sink for FailingSink {
    ghost failed = { λ s. s.failed };

    fn write_all(&mut self, bytes: &[u8]) -> Result<(), Failed> {
        self.call(bytes)
    }

    fn flush(&mut self) -> Result<(), Failed> {
        self.call(&[])?;
        self.flushed = self.kept.len();
        Ok(())
    }

    fn has_failed(&self) -> bool {
        self.failed
    }
}

const SHORT: &str = "l4map,1,2,18,1\nsend,0,1,10,3008,c6\naccess,1,3abc,w\n";

const SHORT_OUTPUT: &str =
    "1 send absent=0 norights=0 origin=0 lost=0 extended=0 linked=1\n2 access ok\n0,0,0,rwx,---,-\n1,3,0,rw-,RW-,0:0\nend 2 0\n";

fn sink(rt: &impl AllocGlobal, fails_at: u64) -> FailingSink
    ensures { result.failed ≡ false }
{
    FailingSink {
        kept: Vec::new(rt.alloc()),
        flushed: 0,
        calls: 0,
        fails_at,
        failed: false,
    }
}

/// A run of the short trace.
fn run_short<V: Watch>(
    rt: &(impl AllocGlobal + Threads + Wait + Sync),
    output: &mut FailingSink,
    watch: &mut V,
) -> Result<Summary, RunError>
    requires { output.old.failed ≡ false }
{
    run(rt, &mut Std::new(SHORT.as_bytes()), output, &OPTIONS, watch)
}

/// Looks at what a run wrote that ended well, and by how many calls.
fn expect_written(rt: &impl Abort, output: &FailingSink, calls: u64) {
    assert_equal(
        rt,
        output.kept.as_slice(),
        SHORT_OUTPUT.as_bytes(),
        "the output",
    );
    assert_equal(rt, output.flushed, SHORT_OUTPUT.len(), "what is flushed");
    assert_equal(rt, output.calls, calls, "calls");
}

/// Looks at a run that no call disturbs.
fn expect_undisturbed(rt: &(impl Abort + AllocGlobal + Threads + Wait + Sync), calls: u64) {
    let mut output = sink(rt, 0);
    let outcome = run_short(rt, &mut output, &mut NoWatch);
    let summary = Summary {
        records: 2,
        refused: 0,
    };
    assert_equal(rt, outcome, Ok(summary), "the short trace");
    expect_written(rt, &output, calls);
}

/// Looks at a run that a call of its sink ends.
fn expect_write_failed(rt: &(impl Abort + AllocGlobal + Threads + Wait + Sync), fails_at: u64) {
    let mut output = sink(rt, fails_at);
    let outcome = run_short(rt, &mut output, &mut NoWatch);
    assert_equal(rt, outcome, Err(RunError::WriteFailed), fails_at);
    assert_equal(rt, output.calls, fails_at, fails_at);
    let is_start = SHORT_OUTPUT.as_bytes().starts_with(output.kept.as_slice());
    assert_holds(rt, is_start, fails_at);
}

#[test]
fn a_sink_that_fails_at_any_call_is_write_failed(rt: HostRuntime) {
    // The reply lines of two records, the audit, the end line, and the flush.
    expect_undisturbed(&rt, 4);
    for fails_at in 1..5 {
        expect_write_failed(&rt, fails_at);
    }
}

/// Has each reply line passed on as it comes, and counts what it hears.
#[derive(Drop)]
struct Eager {
    heard: u64,
    last: u64,
}

impl Watch for Eager {
    fn block(&self) -> usize {
        0
    }

    fn hear(&mut self, number: u64) {
        self.heard = self.heard.wrapping_add(1);
        self.last = number;
    }
}

#[test]
fn a_watch_hears_of_each_record_and_may_have_its_line_at_once(rt: HostRuntime) {
    let mut output = sink(&rt, 0);
    let mut watch = Eager { heard: 0, last: 0 };
    let outcome = run_short(&rt, &mut output, &mut watch);
    assert_holds(&rt, outcome.is_ok(), "the short trace");
    // Two reply lines, none that is left, the audit, the end line, and the flush.
    expect_written(&rt, &output, 6);
    assert_equal(&rt, (watch.heard, watch.last), (2, 2), "the watch");
}

/// Looks at how a run ended: where memory ran out, what its sink was given by then is flushed.
fn expect_flushed(
    rt: &impl Abort,
    output: &FailingSink,
    outcome: Result<Summary, RunError>,
) -> Result<(), Fail> {
    match outcome {
        Ok(_) | Err(RunError::WriteFailed) => Ok(()),
        Err(RunError::NoMemory(_)) => {
            assert_equal(rt, output.flushed, output.kept.len(), "what is flushed");
            Err(NoMemory.into())
        }
        Err(error) => Err(error.into()),
    }
}

/// With ample memory this is a run that ends well. Where an allocation is refused it is told by its error, and what the
/// sink was given by then is flushed.
#[test]
fn flushes_what_it_has_written_where_memory_runs_out(rt: HostRuntime) -> Result<(), Fail> {
    let mut output = sink(&rt, 0);
    let outcome = run_short(&rt, &mut output, &mut NoWatch);
    expect_flushed(&rt, &output, outcome)
}
