//! What phases cost that a crew works. Where a number of nodes is asked for behind the test's name, it tells how many nanoseconds the
//! work took, by so many workers: bench/phases.py reads these lines. It also tells what a million looks of a watcher took,
//! and how many looks were made beside four workers.

ghost use Rattle.std.specs.Prelude.{◌≡◌, ◌<◌, ◌≤◌, length, IfOk};
ghost use Rattle.pieces.specs.Distinct.{is_none_of};
ghost use Rattle.pieces.specs.Phases.{CanBeWorked};

use crate::assertions::assert_equal;
use crew::{Crew, Gate, Observe, work, work_watched};
use fpage::Rights;
use pieces::{Piece, Strip, are_distinct, can_be_worked};
use space::{NoMemory, Node, Place, Slice};
use std::alloc::{AllocError, Global};
use std::process::Abort;
use std::rt::Runtime;
use std::sync::Wait;
use std::sync::atomic::{AtomicU64, Ordering};
use std::test::Fail;
use std::thread::Threads;
use std::time::Instant;
use std::{env, io};
use turns::{Open, Turn, Watcher};

/// The right to write, which all nodes lose.
const W: Rights = Rights {
    read: false,
    write: true,
    execute: false,
};

/// The word of the page that all nodes were mapped from, before it gains their status, and after that.
const ORIGIN: u64 = 0x1_0000_0507;

const GAINED: u64 = 0x1_0000_0517;

/// The word of a page that is held with all rights and was written, before it loses one, and after that.
const HELD: u64 = 0x1_0000_0517;

const LEFT: u64 = 0x1_0000_0505;

/// How often each crew is timed.
const RUNS: u32 = 5;

/// How many looks are timed at most, and how many are made beside workers between two questions whether these have
/// ended.
const LOOKS: u64 = 1_000_000;

const LOOKS_AT_ONCE: u64 = 100;

/// How far apart the entries are that are looked at one after another.
const APART: usize = 389;

/// How many nodes a piece has.
const LENGTHS: [usize; 3] = [256, 1_024, 4_096];

/// Counts the pieces that end.
#[derive(Drop)]
struct Counter {
    ended: AtomicU64,
}

impl Gate for Counter {
    fn begin(&self, _worker: usize, _workers: usize, _turn: &Turn, _shared: &Open) {}

    fn end(&self, _worker: usize, _workers: usize, _turn: &Turn, _shared: &Open) {
        self.ended.fetch_add(1, Ordering::SeqCst);
    }
}

/// Looks at the entries of a phase until all of its pieces have ended.
#[derive(Drop)]
struct Looker<'a> {
    clock: &'a HostRuntime,
    gate: &'a Counter,
    pieces: u64,
    looks: AtomicU64,
    /// How many of them found a page.
    held: AtomicU64,
    /// How many nanoseconds they took.
    nanos: AtomicU64,
}

impl Observe for Looker<'_> {
    ghost use Rattle.std.specs.Prelude.{◌≤◌, length};

    ghost told = { λ looker words pieces. 0 ≤ length words };

    fn observe(&self, watcher: &mut Watcher, shared: &Open) {
        let Ok(start) = Instant::now(self.clock) else {
            return;
        };
        let mut seen = Looks::new();
        for _ in 0..LOOKS / LOOKS_AT_ONCE {
            if self.gate.ended.load(Ordering::SeqCst) == self.pieces {
                break;
            }
            seen.look(shared, watcher, LOOKS_AT_ONCE);
        }
        let Ok(nanos) = since(self.clock, start) else {
            return;
        };
        self.looks.store(seen.looks, Ordering::SeqCst);
        self.held.store(seen.held, Ordering::SeqCst);
        let nanos = u64::try_from(nanos).unwrap_or(u64::MAX);
        self.nanos.store(nanos, Ordering::SeqCst);
    }
}

/// Looks that were made, at entries that stand some way apart.
#[derive(Drop)]
struct Looks {
    looks: u64,
    /// How many of them found a page. None is absent in these phases.
    held: u64,
    /// Where the next one looks.
    index: usize,
}

/// How many nodes a phase has, and how many a piece of it at most.
#[derive(Clone, Copy)]
pub(crate) struct Size {
    pub(crate) nodes: usize,
    pub(crate) most: usize,
}

impl Size {
    /// How many pieces these are.
    pub(crate) fn pieces(self) -> usize {
        self.nodes.div_ceil(self.most.max(1))
    }
}

/// Whether an index is none of these.
fn is_none_of(indexes: &[usize], index: usize) -> bool
    ensures { result ≡ is_none_of indexes.now index }
{
    indexes.iter().all(|other| *other != index)
}

/// A strip of the nodes whose words stand at these indexes. Their status goes to the word of their origin.
fn strip(alloc: Global, from: usize, to: usize, origin: usize) -> Result<Strip, NoMemory> {
    let mut nodes = Vec::with_capacity(alloc, to.saturating_sub(from))?;
    let mut indexes = Vec::with_capacity(alloc, to.saturating_sub(from))?;
    for index in from..to {
        let place = Place {
            space: 1,
            page: (index % 4096) as u32,
        };
        nodes
            .push(Node { place, depth: 1 })
            .map_err(AllocError::from)?;
        indexes.push(index).map_err(AllocError::from)?;
    }
    if nodes.len() != indexes.len() || !is_none_of(&indexes, origin) {
        return Err(NoMemory);
    }
    if !are_distinct(alloc, &indexes)? {
        return Err(NoMemory);
    }
    Ok(Strip::of_part(Slice { nodes }, indexes, Some(origin), W, false))
}

/// The strips of all nodes, whose words stand before that of their origin.
fn strips(alloc: Global, size: Size) -> Result<Vec<Piece>, NoMemory> {
    let mut pieces = Vec::new(alloc);
    let mut at = 0_usize;
    for _ in 0..size.pieces() {
        let end = size.nodes.min(at.saturating_add(size.most));
        pieces
            .push(Piece::Strip(strip(alloc, at, end, size.nodes)?))
            .map_err(AllocError::from)?;
        at = end;
    }
    Ok(pieces)
}

/// The words of the nodes, and then that of their origin.
fn words(alloc: Global, nodes: usize) -> Result<Vec<u64>, NoMemory> {
    let mut words = vec![in alloc; HELD; nodes]?;
    words.push(ORIGIN).map_err(AllocError::from)?;
    Ok(words)
}

/// The words and the pieces of a phase.
pub(crate) fn phase(alloc: Global, size: Size) -> Result<(Vec<u64>, Vec<Piece>), NoMemory>
    ensures { IfOk result (λ r. (0 < length r.1.items) × CanBeWorked r.0.items r.1.items) }
{
    let words = words(alloc, size.nodes)?;
    let pieces = strips(alloc, size)?;
    if pieces.is_empty() {
        return Err(NoMemory);
    }
    match can_be_worked(alloc, &words, &pieces)? {
        true => Ok((words, pieces)),
        false => Err(NoMemory),
    }
}

/// The nanoseconds since an instant.
fn since(rt: &impl Runtime, start: Instant) -> io::Result<u128> {
    Ok(start.elapsed(rt)?.as_nanos())
}

/// The words that a crew leaves of a phase, and the nanoseconds of its work.
fn timed<R: Runtime + Threads + Wait, G: Gate>(
    rt: &R,
    alloc: Global,
    crew: &Crew<'_, R, G>,
    size: Size,
) -> Result<(Vec<u64>, u128), Fail> {
    let (words, pieces) = phase(alloc, size)?;
    let start = Instant::now(rt)?;
    let worked = work(crew, alloc, words, pieces)?;
    let nanos = since(rt, start)?;
    let (words, _) = worked;
    Ok((words, nanos))
}

/// How many of some words are this one.
fn count(words: &[u64], sought: u64) -> usize {
    let mut count = 0_usize;
    for word in words {
        if *word == sought {
            count = count.wrapping_add(1);
        }
    }
    count
}

/// All nodes have lost the right, and their origin has gained their status.
pub(crate) fn are_stripped(rt: &impl Abort, words: &[u64], size: Size) {
    assert_equal(rt, count(words, LEFT), size.nodes, "nodes");
    assert_equal(rt, words.get(size.nodes), Some(&GAINED), "the origin");
}

/// So many workers work a phase, and each piece ends once: the nanoseconds of their work.
fn times_turns<R: Runtime + Threads + Wait + Abort>(
    rt: &R,
    alloc: Global,
    workers: usize,
    size: Size,
) -> Result<u128, Fail>
    requires some { 1 ≤ workers }
    requires most { workers ≤ 64 }
{
    let gate = Counter {
        ended: AtomicU64::new(0),
    };
    let crew = Crew::new(rt, workers, size.most.max(1), &gate);
    let (words, nanos) = timed(rt, alloc, &crew, size)?;
    are_stripped(rt, &words, size);
    let ended = gate.ended.load(Ordering::SeqCst);
    assert_equal(rt, ended, size.pieces() as u64, "pieces");
    Ok(nanos)
}

impl Looks {
    /// No look yet.
    fn new() -> Looks {
        Looks {
            looks: 0,
            held: 0,
            index: 0,
        }
    }

    /// Makes so many looks.
    fn look(&mut self, shared: &Open, watcher: &mut Watcher, count: u64)
        requires { watcher.old.shared ≡ shared.now }
        ensures { (watcher.new.shared ≡ watcher.old.shared) × (watcher.new.number ≡ watcher.old.number) }
    {
        let words = shared.words();
        for _ in 0..count {
            let index = self.index;
            if index < words && watcher.look(shared, index).is_some() {
                self.held = self.held.wrapping_add(1);
            }
            self.looks = self.looks.wrapping_add(1);
            let next = index.wrapping_add(APART);
            self.index = match next < words {
                true => next,
                false => next.wrapping_sub(words),
            };
        }
    }
}

/// The nanoseconds of many looks at entries of a phase, of which no step is made.
fn times_looks<R: Runtime + Abort>(rt: &R, alloc: Global, size: Size) -> Result<u128, Fail> {
    let (words, pieces) = phase(alloc, size)?;
    let (shared, _turns, mut watchers) = Open::open_watched(alloc, words, pieces, 1)?;
    let Some(mut watcher) = watchers.pop() else {
        panic!(rt; "a watcher was given")
    };
    let start = Instant::now(rt)?;
    let mut seen = Looks::new();
    seen.look(&shared, &mut watcher, LOOKS);
    let nanos = since(rt, start)?;
    assert_equal(rt, seen.held, LOOKS, "looks that found a page");
    Ok(nanos)
}

/// The words that four workers leave of a phase while somebody looks.
fn timed_beside<R: Runtime + Threads + Wait>(
    alloc: Global,
    crew: &Crew<'_, R, Counter>,
    looker: &Looker<'_>,
    size: Size,
) -> Result<Vec<u64>, Fail> {
    let (words, pieces) = phase(alloc, size)?;
    let (words, _) = work_watched(crew, alloc, words, pieces, looker)?;
    Ok(words)
}

/// How many looks are made while four workers work a phase, and the nanoseconds that they take.
fn times_beside<R: Runtime + Threads + Wait + Abort>(
    rt: &R,
    clock: &HostRuntime,
    alloc: Global,
    size: Size,
) -> Result<(u64, u64), Fail> {
    let gate = Counter {
        ended: AtomicU64::new(0),
    };
    let looker = Looker {
        clock,
        gate: &gate,
        pieces: size.pieces() as u64,
        looks: AtomicU64::new(0),
        held: AtomicU64::new(0),
        nanos: AtomicU64::new(0),
    };
    let crew = Crew::new(rt, 4, size.most.max(1), &gate);
    let words = timed_beside(alloc, &crew, &looker, size)?;
    are_stripped(rt, &words, size);
    let looks = looker.looks.load(Ordering::SeqCst);
    let held = looker.held.load(Ordering::SeqCst);
    assert_equal(rt, held, looks, "looks that found a page");
    Ok((looks, looker.nanos.load(Ordering::SeqCst)))
}

/// The nanoseconds that 1, 2 and 4 workers take, in this order.
fn times_each<R: Runtime + Threads + Wait + Abort>(
    rt: &R,
    alloc: Global,
    size: Size,
) -> Result<[u128; 3], Fail> {
    let one = times_turns(rt, alloc, 1, size)?;
    let two = times_turns(rt, alloc, 2, size)?;
    let four = times_turns(rt, alloc, 4, size)?;
    Ok([one, two, four])
}

/// Tells what a phase of this size costs.
fn tells<R: Runtime + Threads + Wait + Abort>(
    rt: &R,
    clock: &HostRuntime,
    alloc: Global,
    size: Size,
) -> Result<(), Fail> {
    let [one, two, four] = times_each(rt, alloc, size)?;
    let most = size.most;
    for (workers, nanos) in [(1, one), (2, two), (4, four)] {
        println!(rt; "phase pieces-of {most} workers {workers} ns {nanos}")?;
    }
    let looks = times_looks(rt, alloc, size)?;
    println!(rt; "phase pieces-of {most} looks {LOOKS} ns {looks}")?;
    let (looks, nanos) = times_beside(rt, clock, alloc, size)?;
    println!(rt; "phase pieces-of {most} beside {looks} ns {nanos}")?;
    Ok(())
}

/// Tells what phases of so many nodes cost, some times each.
fn tells_all<R: Runtime + Threads + Wait + Abort>(
    rt: &R,
    clock: &HostRuntime,
    alloc: Global,
    nodes: usize,
) -> Result<(), Fail> {
    for _ in 0..RUNS {
        for most in LENGTHS {
            tells(rt, clock, alloc, Size { nodes, most })?;
        }
    }
    Ok(())
}

#[test]
fn works_a_thousand_nodes_or_as_many_as_are_asked_for(rt: HostRuntime) -> Result<(), Fail> {
    match env::args(&rt)?.nth(2) {
        Some(nodes) => tells_all(&rt, &rt, rt.alloc(), nodes.parse()?),
        None => {
            let size = Size {
                nodes: 1_000,
                most: 16,
            };
            times_each(&rt, rt.alloc(), size)?;
            times_looks(&rt, rt.alloc(), size)?;
            times_beside(&rt, &rt, rt.alloc(), size)?;
            Ok(())
        }
    }
}
