//! Phases worked by hand, by crews of one worker and of several.

ghost use Rattle.std.specs.Prelude.{◌≡◌, ◌<◌, ◌≤◌, nat_lt, true, length, map, IfOk};
ghost use Rattle.std.specs.List.{list_all};
ghost use Rattle.pieces.specs.Phases.{CanBeWorked};

use crate::assertions::assert_equal;
use crate::by_turns::one_piece;
use crew::{Alone, Changed, Crew, CrewError, Gate, NoGate, Planned, Workers, work};
use fpage::{Access, Rights};
use maptree::Tree;
use pieces::{
    Done, FrameRuns, Gathered, Pair, Piece, Runs, Store, Strip, StripPlan, WordAccess, gather,
    links, moves, touches,
};
use space::{NoMemory, Node, Place, Slice};
use std::alloc::{AllocError, Global};
use std::process::Abort;
use std::sync::Wait;
use std::sync::atomic::{AtomicU64, Ordering};
use std::test::Fail;
use std::thread::{Threads, yield_now};
use turns::{Open, Turn};

/// The right to write.
const W: Rights = Rights {
    read: false,
    write: true,
    execute: false,
};

/// The rights to write and to execute.
const WX: Rights = Rights {
    read: false,
    write: true,
    execute: true,
};

/// All rights.
const ALL: Rights = Rights {
    read: true,
    write: true,
    execute: true,
};

/// Three stores of which the last reads what the second puts.
const STORES: [Store; 3] = [
    Store {
        read: 0,
        put: 1,
        rights: WX,
    },
    Store {
        read: 0,
        put: 2,
        rights: W,
    },
    Store {
        read: 2,
        put: 3,
        rights: ALL,
    },
];

/// Three accesses, of which two are of one page.
const ACCESSES: [WordAccess; 3] = [
    WordAccess {
        index: 0,
        access: Access::Execute,
    },
    WordAccess {
        index: 1,
        access: Access::Write,
    },
    WordAccess {
        index: 0,
        access: Access::Write,
    },
];

/// Two pages that are moved.
const PAIRS: [Pair; 2] = [Pair { taken: 0, put: 3 }, Pair { taken: 2, put: 1 }];

/// The stores in pieces of two.
fn link_case(alloc: Global) -> Result<(Vec<u64>, Vec<Piece>), NoMemory>
    ensures { IfOk result (λ r. (0 < length r.1.items) × CanBeWorked r.0.items r.1.items) }
{
    let words = Vec::from_slice(alloc, &[0x1_0000_0926, 0, 0x1_0000_0505, 0])?;
    let pieces = links(alloc, Vec::from_slice(alloc, &STORES)?, 2)?;
    Ok((words, pieces))
}

/// The stores in one piece.
fn whole_link_case(alloc: Global) -> Result<(Vec<u64>, Vec<Piece>), NoMemory>
    ensures { IfOk result (λ r. (0 < length r.1.items) × CanBeWorked r.0.items r.1.items) }
{
    let words = Vec::from_slice(alloc, &[0x1_0000_0926, 0, 0x1_0000_0505, 0])?;
    let pieces = links(alloc, Vec::from_slice(alloc, &STORES)?, 3)?;
    Ok((words, pieces))
}

/// One store, to a target that is held.
fn one_store_case(alloc: Global) -> Result<(Vec<u64>, Vec<Piece>), NoMemory>
    ensures { IfOk result (λ r. (0 < length r.1.items) × CanBeWorked r.0.items r.1.items) }
{
    let words = Vec::from_slice(alloc, &[0x1_0000_0926, 0x1_0000_090c])?;
    let store = Store {
        read: 0,
        put: 1,
        rights: W,
    };
    let pieces = links(alloc, Vec::from_slice(alloc, &[store])?, 1)?;
    Ok((words, pieces))
}

/// The accesses in pieces of one.
fn touch_case(alloc: Global) -> Result<(Vec<u64>, Vec<Piece>), NoMemory>
    ensures { IfOk result (λ r. (0 < length r.1.items) × CanBeWorked r.0.items r.1.items) }
{
    let words = Vec::from_slice(alloc, &[0x1_0000_0507, 0])?;
    let pieces = touches(alloc, Vec::from_slice(alloc, &ACCESSES)?, 1)?;
    Ok((words, pieces))
}

/// The accesses in one piece.
fn whole_touch_case(alloc: Global) -> Result<(Vec<u64>, Vec<Piece>), NoMemory>
    ensures { IfOk result (λ r. (0 < length r.1.items) × CanBeWorked r.0.items r.1.items) }
{
    let words = Vec::from_slice(alloc, &[0x1_0000_0507, 0])?;
    let pieces = touches(alloc, Vec::from_slice(alloc, &ACCESSES)?, 3)?;
    Ok((words, pieces))
}

/// The pairs in pieces of one.
fn move_case(alloc: Global) -> Result<(Vec<u64>, Vec<Piece>), NoMemory>
    ensures { IfOk result (λ r. (0 < length r.1.items) × CanBeWorked r.0.items r.1.items) }
{
    let words = Vec::from_slice(alloc, &[0x1_0000_0536, 0, 0x1_0000_090c, 0])?;
    let pieces = moves(alloc, Vec::from_slice(alloc, &PAIRS)?, 1)?;
    Ok((words, pieces))
}

/// The pairs in one piece.
fn whole_move_case(alloc: Global) -> Result<(Vec<u64>, Vec<Piece>), NoMemory>
    ensures { IfOk result (λ r. (0 < length r.1.items) × CanBeWorked r.0.items r.1.items) }
{
    let words = Vec::from_slice(alloc, &[0x1_0000_0536, 0, 0x1_0000_090c, 0])?;
    let pieces = moves(alloc, Vec::from_slice(alloc, &PAIRS)?, 2)?;
    Ok((words, pieces))
}

/// A strip of three nodes, of which one is left with a right.
fn strip_case(alloc: Global) -> Result<(Vec<u64>, Vec<Piece>), NoMemory>
    ensures { IfOk result (λ r. (0 < length r.1.items) × CanBeWorked r.0.items r.1.items) }
{
    let words = Vec::from_slice(alloc, &[0x1_00ff_f507, 0x1_00ff_f52c, 0, 0x1_00ff_f516])?;
    let slice = Slice {
        nodes: Vec::from_slice(alloc, &[node(1), node(2), node(3)])?,
    };
    let indexes = Vec::from_slice(alloc, &[1, 2, 3])?;
    let read = Rights {
        read: true,
        write: false,
        execute: false,
    };
    let masks = Vec::from_slice(alloc, &[read, Rights::all(), read])?;
    let strip = Strip::new(alloc, slice, masks, indexes, Some(0))?;
    let pieces = one_piece(alloc, Piece::Strip(strip))?;
    Ok((words, pieces))
}

/// The words after the strip.
const STRIPPED: [u64; 4] = [0x1_00ff_f53f, 0, 0, 0x1_00ff_f502];

/// Page 0 of a space, a node below a root.
fn node(space: u16) -> Node {
    Node {
        place: Place { space, page: 0 },
        depth: 1,
    }
}

/// The results of so many pieces, in order.
fn found(alloc: Global, dones: Vec<Done>, pieces: usize) -> Result<Gathered, NoMemory> {
    match gather(alloc, dones, pieces) {
        Ok(gathered) => Ok(gathered),
        Err(_) => Err(NoMemory),
    }
}

/// The phases that the tests work.
#[derive(Clone, Copy)]
enum Phase {
    Link,
    WholeLink,
    OneStore,
    Touch,
    WholeTouch,
    Move,
    WholeMove,
    Strip,
    EighteenTouches,
}

impl Phase {
    /// The words and the pieces of the phase.
    fn begin(self, alloc: Global) -> Result<(Vec<u64>, Vec<Piece>), NoMemory>
        ensures { IfOk result (λ r. (0 < length r.1.items) × CanBeWorked r.0.items r.1.items) }
    {
        match self {
            Phase::Link => link_case(alloc),
            Phase::WholeLink => whole_link_case(alloc),
            Phase::OneStore => one_store_case(alloc),
            Phase::Touch => touch_case(alloc),
            Phase::WholeTouch => whole_touch_case(alloc),
            Phase::Move => move_case(alloc),
            Phase::WholeMove => whole_move_case(alloc),
            Phase::Strip => strip_case(alloc),
            Phase::EighteenTouches => eighteen_touches(alloc),
        }
    }
}

/// What workers leave of the words of a phase, and their results.
fn worked<W: Workers>(
    alloc: Global,
    workers: &W,
    phase: Phase,
) -> Result<(Vec<u64>, Vec<Done>), CrewError> {
    let (words, pieces) = phase.begin(alloc)?;
    workers.work(alloc, words, pieces)
}

/// Workers leave these words of a phase of so many pieces: what their results come to.
fn gathers<W: Workers>(
    rt: &impl Abort,
    alloc: Global,
    workers: &W,
    phase: Phase,
    pieces: usize,
    after: &[u64],
) -> Result<Gathered, CrewError> {
    let (words, dones) = worked(alloc, workers, phase)?;
    assert_equal(rt, words.as_slice(), after, "words");
    assert_equal(rt, dones.len(), pieces, "results");
    let gathered = found(alloc, dones, pieces)?;
    Ok(gathered)
}

/// They leave these words, and answer the accesses so.
fn answers<W: Workers>(
    rt: &impl Abort,
    alloc: Global,
    workers: &W,
    phase: Phase,
    pieces: usize,
    after: &[u64],
    answers: &[bool],
) -> Result<(), CrewError> {
    let gathered = gathers(rt, alloc, workers, phase, pieces, after)?;
    assert_equal(rt, gathered.answers.as_slice(), answers, "answers");
    Ok(())
}

/// So many workers link and mark.
fn link_and_mark(
    rt: &(impl Abort + Threads + Wait + Sync),
    alloc: Global,
    workers: usize,
) -> Result<(), CrewError>
    requires some { 1 ≤ workers }
    requires most { workers ≤ 64 }
{
    let crew = Crew::new(rt, workers, 2, &NoGate);
    let linked = [0x1_0000_0926, 0x1_0000_0902, 0x1_0000_0907, 0x1_0000_0505];
    answers(rt, alloc, &crew, Phase::Link, 2, &linked, &[])?;
    let touched = [0x1_0000_053f, 0];
    answers(
        rt,
        alloc,
        &crew,
        Phase::Touch,
        3,
        &touched,
        &[true, false, true],
    )
}

#[test]
fn crews_read_words_at_opening_and_add_marks_up(rt: HostRuntime) -> Result<(), Fail> {
    let alloc = rt.alloc();
    link_and_mark(&rt, alloc, 1)?;
    link_and_mark(&rt, alloc, 4)?;
    link_and_mark(&rt, alloc, 64)?;
    Ok(())
}

#[test]
fn a_crew_shares_every_phase_unless_it_is_told_from_which_on(rt: HostRuntime) {
    let crew = Crew::new(&rt, 64, 7, &NoGate);
    assert_equal(&rt, crew.piece_length(), 7, "the length of a piece");
    assert_equal(&rt, crew.shared_from(), 0, "full pieces");
    let crew = crew.alone_below(128);
    assert_equal(&rt, crew.piece_length(), 7, "the length of a piece");
    assert_equal(&rt, crew.shared_from(), 128, "full pieces");
    assert_equal(&rt, Alone.shared_from(), usize::MAX, "full pieces");
}

#[test]
fn the_calling_thread_alone_links_and_moves_in_several_pieces(rt: HostRuntime) -> Result<(), Fail> {
    for (phase, after) in [
        (
            Phase::Link,
            [0x1_0000_0926, 0x1_0000_0902, 0x1_0000_0907, 0x1_0000_0505],
        ),
        (Phase::Move, [0, 0x1_0000_0904, 0, 0x1_0000_0506]),
    ] {
        answers(
            &rt,
            rt.alloc(),
            &Crew::new(&rt, 1, 2, &NoGate),
            phase,
            2,
            &after,
            &[],
        )?;
        answers(&rt, rt.alloc(), &Alone, phase, 2, &after, &[])?;
    }
    Ok(())
}

#[test]
fn one_worker_links_in_a_single_piece(rt: HostRuntime) -> Result<(), Fail> {
    let alloc = rt.alloc();
    let crew = Crew::new(&rt, 1, 3, &NoGate);
    let linked = [0x1_0000_0926, 0x1_0000_0902, 0x1_0000_0907, 0x1_0000_0505];
    answers(&rt, alloc, &crew, Phase::WholeLink, 1, &linked, &[])?;
    let linked = [0x1_0000_0926, 0x1_0000_090e];
    answers(&rt, alloc, &crew, Phase::OneStore, 1, &linked, &[])?;
    Ok(())
}

#[test]
fn one_worker_moves_and_marks_in_a_single_piece(rt: HostRuntime) -> Result<(), Fail> {
    let alloc = rt.alloc();
    let crew = Crew::new(&rt, 1, 3, &NoGate);
    let moved = [0, 0x1_0000_0904, 0, 0x1_0000_0506];
    answers(&rt, alloc, &crew, Phase::WholeMove, 1, &moved, &[])?;
    let marked = [0x1_0000_053f, 0];
    answers(
        &rt,
        alloc,
        &crew,
        Phase::WholeTouch,
        1,
        &marked,
        &[true, false, true],
    )?;
    Ok(())
}

/// One node is kept, this one.
fn keeps(rt: &impl Abort, slices: &[Slice], node: Node) {
    let mut kept = 0_usize;
    for slice in slices {
        for kept_node in &slice.nodes {
            assert_equal(rt, *kept_node, node, "a node");
            kept = kept.wrapping_add(1);
        }
    }
    assert_equal(rt, kept, 1, "nodes");
}

#[test]
fn one_worker_strips_and_marks(rt: HostRuntime) -> Result<(), Fail> {
    let alloc = rt.alloc();
    let crew = Crew::new(&rt, 1, 1, &NoGate);
    let gathered = gathers(&rt, alloc, &crew, Phase::Strip, 1, &STRIPPED)?;
    assert_equal(&rt, gathered.status, Rights::all(), "status");
    keeps(&rt, &gathered.slices, node(3));
    let marked = [0x1_0000_053f, 0];
    answers(
        &rt,
        alloc,
        &crew,
        Phase::Touch,
        3,
        &marked,
        &[true, false, true],
    )?;
    Ok(())
}

/// Hears of a phase of two workers: how many pieces began and ended, who worked, and how many pieces were stolen. The second
/// worker waits with each piece until the first has begun one, and the first until the second has stolen one from it.
#[derive(Drop)]
struct Meeting {
    begun: AtomicU64,
    ended: AtomicU64,
    /// How many pieces the first worker began.
    first: AtomicU64,
    /// How many pieces the second worker began.
    second: AtomicU64,
    stolen: AtomicU64,
}

impl Meeting {
    fn new() -> Meeting {
        Meeting {
            begun: AtomicU64::new(0),
            ended: AtomicU64::new(0),
            first: AtomicU64::new(0),
            second: AtomicU64::new(0),
            stolen: AtomicU64::new(0),
        }
    }
}

impl Gate for Meeting {
    fn begin(&self, worker: usize, _workers: usize, turn: &Turn, _shared: &Open) {
        self.begun.fetch_add(1, Ordering::SeqCst);
        // Of eighteen pieces the first ten are dealt to the first worker.
        let dealt_to = if turn.piece() < 10 { 0 } else { 1 };
        if worker != dealt_to {
            self.stolen.fetch_add(1, Ordering::SeqCst);
        }
        if worker == 0 {
            self.first.fetch_add(1, Ordering::SeqCst);
            wait_for(&self.stolen);
        } else {
            self.second.fetch_add(1, Ordering::SeqCst);
            wait_for(&self.first);
        }
    }

    fn end(&self, _worker: usize, _workers: usize, _turn: &Turn, _shared: &Open) {
        self.ended.fetch_add(1, Ordering::SeqCst);
    }
}

/// A crew whose gate holds pieces until others have begun.
#[derive(Drop)]
struct Held<'a, R> {
    crew: Crew<'a, R, Meeting>,
}

impl<'a, R: Threads + Wait> Workers for Held<'a, R> {
    ghost use Rattle.std.specs.Prelude.{◌≤◌};

    ghost starts_none = { λ held. held.crew.workers ≤ 1 };

    ghost length_of = { λ held. held.crew.piece_length };

    ghost least_of = { λ held. held.crew.least };

    fn piece_length(&self) -> usize {
        self.crew.piece_length()
    }

    fn shared_from(&self) -> usize {
        self.crew.shared_from()
    }

    fn planners(&self) -> usize {
        self.crew.planners()
    }

    fn plan(
        &self,
        alloc: Global,
        parts: usize,
        plan: &(dyn Fn(usize) -> Planned + Sync),
    ) -> Result<Vec<Planned>, AllocError> {
        self.crew.plan(alloc, parts, plan)
    }

    fn change(
        &self,
        trees: &mut [Tree],
        cuts: &[usize],
        change: &(dyn Fn(usize, &mut [Tree]) -> Changed + Sync),
    ) -> Changed {
        self.crew.change(trees, cuts, change)
    }

    fn work(
        &self,
        alloc: Global,
        words: Vec<u64>,
        pieces: Vec<Piece>,
    ) -> Result<(Vec<u64>, Vec<Done>), CrewError> {
        work(&self.crew, alloc, words, pieces)
    }
}

/// Waits until a count is not 0, giving the processor away, or for some seconds.
pub(crate) fn wait_for(count: &AtomicU64) {
    for _ in 0..10_000_000u64 {
        if count.load(Ordering::SeqCst) != 0 {
            return;
        }
        yield_now();
    }
}

/// Eighteen accesses, by turns of the first of two words and of the other.
fn eighteen_accesses(alloc: Global) -> Result<Vec<WordAccess>, AllocError>
    ensures some { IfOk result (λ list. 0 < length list.items) }
    ensures within { IfOk result (λ list. list_all (λ i. nat_lt i 2) (map (λ x. x.index) list.items) ≡ true) }
{
    let mut list = Vec::with_capacity(alloc, 18)?;
    for number in 0..18 {
        list.push(WordAccess {
            index: number % 2,
            access: Access::Execute,
        })?;
    }
    Ok(list)
}

/// Eighteen accesses, in pieces of one: by turns of a page that is there and of one that is not.
fn eighteen_touches(alloc: Global) -> Result<(Vec<u64>, Vec<Piece>), NoMemory>
    ensures { IfOk result (λ r. (0 < length r.1.items) × CanBeWorked r.0.items r.1.items) }
{
    let words = Vec::from_slice(alloc, &[0x1_0000_0507, 0])?;
    let pieces = touches(alloc, eighteen_accesses(alloc)?, 1)?;
    Ok((words, pieces))
}

/// There are eighteen answers, by turns yes and no.
fn take_turns(rt: &impl Abort, answers: &[bool]) {
    for (number, answer) in answers.iter().enumerate() {
        assert_equal(rt, *answer, number % 2 == 0, number);
    }
    assert_equal(rt, answers.len(), 18, "answers");
}

/// A count is at least the one number and at most the other.
fn lies_within(rt: &impl Abort, count: &AtomicU64, least: u64, most: u64, name: &str) {
    let found = count.load(Ordering::SeqCst);
    assert_equal(rt, found, found.max(least).min(most), name);
}

#[test]
fn two_workers_work_eighteen_pieces_and_one_steals(rt: HostRuntime) -> Result<(), Fail> {
    let gate = Meeting::new();
    let crew = Held {
        crew: Crew::new(&rt, 2, 1, &gate),
    };
    let marked = [0x1_0000_052f, 0];
    let gathered = gathers(&rt, rt.alloc(), &crew, Phase::EighteenTouches, 18, &marked)?;
    take_turns(&rt, &gathered.answers);
    for (name, count, least, most) in [
        ("begun", &gate.begun, 18, 18),
        ("ended", &gate.ended, 18, 18),
        ("first", &gate.first, 1, u64::MAX),
        ("second", &gate.second, 9, u64::MAX),
        ("stolen", &gate.stolen, 1, u64::MAX),
    ] {
        lies_within(&rt, count, least, most, name);
    }
    Ok(())
}

#[test]
fn a_gate_hears_of_a_single_piece(rt: HostRuntime) -> Result<(), Fail> {
    let gate = Meeting::new();
    gate.stolen.store(1, Ordering::SeqCst);
    let crew = Held {
        crew: Crew::new(&rt, 4, 1, &gate),
    };
    gathers(&rt, rt.alloc(), &crew, Phase::Strip, 1, &STRIPPED)?;
    for (name, count) in [
        ("begun", &gate.begun),
        ("ended", &gate.ended),
        ("first", &gate.first),
    ] {
        lies_within(&rt, count, 1, 1, name);
    }
    Ok(())
}

/// A plan without pieces, of the frame of this number.
fn plan_of(alloc: Global, number: usize) -> Planned {
    let frame = u32::try_from(number).unwrap_or(u32::MAX);
    let mut frames = Vec::with_capacity(alloc, 1)?;
    frames
        .push(FrameRuns {
            frame,
            runs: Runs::one(0..1),
        })
        .map_err(AllocError::from)?;
    Ok(StripPlan {
        frames,
        pieces: Vec::new(alloc),
    })
}

/// The frame of such a plan; another number where there is none.
fn frame_of(planned: &Planned) -> u32 {
    match planned {
        Ok(plan) => match plan.frames.first() {
            Some(runs) => runs.frame,
            None => u32::MAX,
        },
        Err(_) => u32::MAX,
    }
}

#[test]
fn parts_are_planned_in_their_order(rt: HostRuntime) -> Result<(), Fail> {
    let alloc = rt.alloc();
    let plan = move |part: usize| -> Planned { plan_of(alloc, part) };
    let crew = Crew::new(&rt, 4, 1, &NoGate);
    for parts in 0..6 {
        for planned in [
            crew.plan(alloc, parts, &plan)?,
            Alone.plan(alloc, parts, &plan)?,
        ] {
            assert_equal(&rt, planned.len(), parts, "parts");
            for (part, its_plan) in planned.iter().enumerate() {
                assert_equal(&rt, frame_of(its_plan) as usize, part, "the plan of a part");
            }
        }
    }
    Ok(())
}

/// The first part waits until the second has begun, which a thread of its own plans.
#[test]
fn two_parts_are_planned_side_by_side(rt: HostRuntime) -> Result<(), Fail> {
    let alloc = rt.alloc();
    let begun = AtomicU64::new(0);
    let plan = |part: usize| -> Planned {
        if part == 0 {
            wait_for(&begun);
        } else {
            begun.fetch_add(1, Ordering::SeqCst);
        }
        plan_of(alloc, begun.load(Ordering::SeqCst) as usize)
    };
    let crew = Crew::new(&rt, 2, 1, &NoGate);
    for planned in &crew.plan(alloc, 2, &plan)? {
        assert_equal(&rt, frame_of(planned), 1, "parts begun");
    }
    Ok(())
}
