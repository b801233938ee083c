//! Random pieces whose turns step on two threads, closed in the middle.

ghost use Rattle.std.specs.Prelude.{◌≡◌, ◌<◌, IfOk};
ghost use Rattle.std.specs.List.{All};
ghost use Rattle.pieces.specs.Phases.{CanBeWorked};

use crate::assertions::assert_equal;
use crate::by_turns::{last_two, with_last};
use fpage::{Access, Rights};
use pieces::{
    Done, Link, Move, Pair, Piece, Store, Strip, Touch, WordAccess, are_distinct, can_be_worked,
};
use space::{NoMemory, Node, Place, Slice};
use std::alloc::{AllocError, Global};
use std::process::Abort;
use std::test::Fail;
use std::thread::{self, Threads};
use turns::{Open, Turn, Unended};

/// How many words a phase has.
const WORDS: usize = 16;

/// No piece has more steps.
const STEPS: usize = 6;

/// Numbers that look random, one after another (a linear congruential generator).
#[derive(Drop)]
struct Numbers {
    state: u64,
}

impl Numbers {
    ghost use Rattle.std.specs.Prelude.{◌<◌};

    /// The next number, below this one.
    fn below(&mut self, n: usize) -> usize
        requires { 0 < n }
        ensures { result < n }
    {
        self.state = self
            .state
            .wrapping_mul(6364136223846793005)
            .wrapping_add(1442695040888963407);
        (self.state / 0x2_0000_0000) as usize % n
    }
}

/// What a piece is of.
#[derive(Clone, Copy)]
enum Part {
    /// The indexes of two nodes, which lose the rights of these bits, and of the fold word.
    Strip([usize; 2], u64, usize),
    /// The indexes that two stores read, those that they put, and the bits of the rights that are let through.
    Link([usize; 2], [usize; 2], u64),
    /// The indexes that two pairs take, and those that they put.
    Move([usize; 2], [usize; 2]),
    /// The indexes of three accesses, and their kinds: 0 reads, 1 writes, 2 executes.
    Touch([usize; 3], [usize; 3]),
}

/// The rights of these bits.
fn rights(bits: u64) -> Rights {
    Rights {
        read: bits / 4 % 2 == 1,
        write: bits / 2 % 2 == 1,
        execute: bits % 2 == 1,
    }
}

/// The piece of a part.
fn piece_of(alloc: Global, part: Part) -> Result<Piece, Fail> {
    match part {
        Part::Strip(nodes, mask, fold) => strip_of(alloc, nodes, mask, fold),
        Part::Link(reads, puts, through) => link_of(alloc, reads, puts, through),
        Part::Move(takes, puts) => move_of(alloc, takes, puts),
        Part::Touch(indexes, kinds) => touch_of(alloc, indexes, kinds),
    }
}

/// A strip of two nodes.
fn strip_of(alloc: Global, nodes: [usize; 2], mask: u64, fold: usize) -> Result<Piece, Fail> {
    let [first, second] = nodes;
    if first == second || fold == first || fold == second {
        return Err(Fail::new("a strip names a word twice"));
    }
    let node = Node {
        place: Place { space: 1, page: 0 },
        depth: 1,
    };
    let slice = Slice {
        nodes: vec![in alloc; node, node]?,
    };
    let indexes = vec![in alloc; first, second]?;
    let strip = Strip::of_part(slice, indexes, Some(fold), rights(mask), false);
    Ok(Piece::Strip(strip))
}

/// A link of two stores.
fn link_of(
    alloc: Global,
    reads: [usize; 2],
    puts: [usize; 2],
    through: u64,
) -> Result<Piece, Fail> {
    let [first, second] = puts;
    if first == second {
        return Err(Fail::new("a link puts a word twice"));
    }
    let one = Store {
        read: reads[0],
        put: first,
        rights: rights(through),
    };
    let other = Store {
        read: reads[1],
        put: second,
        rights: rights(through),
    };
    let stores = vec![in alloc; one, other]?;
    Ok(Piece::Link(Link::new(stores)))
}

/// A move of two pages.
fn move_of(alloc: Global, takes: [usize; 2], puts: [usize; 2]) -> Result<Piece, Fail> {
    if !are_distinct(alloc, &[takes[0], puts[0], takes[1], puts[1]])? {
        return Err(Fail::new("a move names a word twice"));
    }
    let one = Pair {
        taken: takes[0],
        put: puts[0],
    };
    let other = Pair {
        taken: takes[1],
        put: puts[1],
    };
    let pairs = vec![in alloc; one, other]?;
    Ok(Piece::Move(Move::new(pairs)))
}

/// A touch of three accesses.
fn touch_of(alloc: Global, indexes: [usize; 3], kinds: [usize; 3]) -> Result<Piece, Fail> {
    let mut list = Vec::with_capacity(alloc, 3)?;
    for k in 0..3 {
        let access = match kinds[k] {
            0 => Access::Read,
            1 => Access::Write,
            _ => Access::Execute,
        };
        list.push(WordAccess {
            index: indexes[k],
            access,
        })?;
    }
    Ok(Piece::Touch(Touch::new(list)))
}

/// The pieces of parts.
fn pieces_of(alloc: Global, parts: &[Part; 4]) -> Result<Vec<Piece>, Fail> {
    let mut pieces = Vec::with_capacity(alloc, 4)?;
    for part in parts {
        pieces.push(piece_of(alloc, *part)?)?;
    }
    Ok(pieces)
}

/// The word at an index, or 0.
fn at(words: &[u64], index: usize) -> u64 {
    words.get(index).copied().unwrap_or(0)
}

/// Writes a word at an index.
fn put(words: &mut [u64], index: usize, word: u64) {
    if let Some(old) = words.get_mut(index) {
        *old = word;
    }
}

/// What the first steps of a part make of the words at opening: `after` has what the other parts made of them.
fn work(part: Part, steps: usize, before: &[u64], after: &mut [u64]) {
    match part {
        Part::Strip(nodes, mask, fold) => strip(nodes, mask, fold, steps, before, after),
        Part::Link(reads, puts, through) => link(reads, puts, through, steps, before, after),
        Part::Move(takes, puts) => shift(takes, puts, steps, before, after),
        Part::Touch(indexes, kinds) => touch(indexes, kinds, steps, before, after),
    }
}

/// What the first steps of a strip make: each node's word loses rights and status, and then the fold word gains the status.
fn strip(
    nodes: [usize; 2],
    mask: u64,
    fold: usize,
    steps: usize,
    before: &[u64],
    after: &mut [u64],
) {
    for k in 0..2 {
        if k < steps {
            let word = at(before, nodes[k]);
            let left = word & 7 & !mask;
            put(
                after,
                nodes[k],
                if left == 0 { 0 } else { (word & !0x3f) | left },
            );
        }
    }
    if 2 < steps {
        let status = (at(before, nodes[0]) | at(before, nodes[1])) & 0x38;
        let word = at(after, fold) | status;
        put(after, fold, word);
    }
}

/// What the first steps of a link make: each target gains rights of its source.
fn link(
    reads: [usize; 2],
    puts: [usize; 2],
    through: u64,
    steps: usize,
    before: &[u64],
    after: &mut [u64],
) {
    for k in 0..2 {
        if k < steps {
            let word = linked(at(before, puts[k]), at(before, reads[k]), through);
            put(after, puts[k], word);
        }
    }
}

/// What the first steps of a move make: each page is taken, and then put without its status.
fn shift(takes: [usize; 2], puts: [usize; 2], steps: usize, before: &[u64], after: &mut [u64]) {
    for k in 0..2 {
        if 2 * k < steps {
            put(after, takes[k], 0);
        }
        if 2 * k + 1 < steps {
            put(after, puts[k], at(before, takes[k]) & !0x38);
        }
    }
}

/// The word of a target that gains the rights of a source that are let through.
fn linked(target: u64, source: u64, through: u64) -> u64 {
    (source & !0x3f) | (target & 0x3f) | (source & through & 7)
}

/// What the first steps of a touch make: for each access a look, and a mark of what may be made.
fn touch(indexes: [usize; 3], kinds: [usize; 3], steps: usize, before: &[u64], after: &mut [u64]) {
    let mut step: usize = 0;
    for k in 0..3 {
        step = step.wrapping_add(1);
        let (right, marks) = bits_of(kinds[k]);
        if at(before, indexes[k]) & right != 0 {
            if step < steps {
                let word = at(after, indexes[k]) | marks;
                put(after, indexes[k], word);
            }
            step = step.wrapping_add(1);
        }
    }
}

/// The bit of the right that a kind of access needs, and those of the status that it leaves.
fn bits_of(kind: usize) -> (u64, u64) {
    match kind {
        0 => (4, 0x20),
        1 => (2, 0x30),
        _ => (1, 0x28),
    }
}

/// How many steps a part has.
fn steps_of(part: Part, before: &[u64]) -> usize {
    match part {
        Part::Strip(_, _, _) => 3,
        Part::Link(_, _, _) => 2,
        Part::Move(_, _) => 4,
        Part::Touch(indexes, kinds) => {
            let mut steps: usize = 3;
            for k in 0..3 {
                if at(before, indexes[k]) & bits_of(kinds[k]).0 != 0 {
                    steps = steps.wrapping_add(1);
                }
            }
            steps
        }
    }
}

/// Random words, of which the first ones that are counted here are those of held pages.
fn random_words(
    alloc: Global,
    numbers: &mut Numbers,
    at: &[usize; 16],
) -> Result<Vec<u64>, AllocError> {
    let mut words = vec![in alloc; 0u64; WORDS]?;
    for k in 0..16 {
        if k < 8 || numbers.below(2) == 0 {
            let frame = numbers.below(0x100_0000) as u64;
            let status = numbers.below(8) as u64;
            let rights = numbers.below(8) as u64;
            put(
                &mut words,
                at[k],
                0x1_0000_0000 | (frame * 256) | (status * 8) | rights,
            );
        }
    }
    Ok(words)
}

/// The numbers below 16 in random order.
fn shuffled(numbers: &mut Numbers) -> [usize; 16] {
    let mut order = [0usize; 16];
    for k in 0..16 {
        order[k] = k;
    }
    for k in 1..16 {
        let other = numbers.below(k + 1);
        let index = order[k];
        order[k] = order[other];
        order[other] = index;
    }
    order
}

/// Random parts that can be worked beside one another, where pages are held at the first eight of these indexes: strips with one
/// fold word, a link and a move; strips alone; or touches.
fn random_parts(numbers: &mut Numbers, at: &[usize; 16]) -> [Part; 4] {
    let mask = 1 + numbers.below(7) as u64;
    let through = numbers.below(8) as u64;
    let read = at[numbers.below(8)];
    let first = Part::Strip([at[3], at[8]], mask, at[0]);
    let second = Part::Strip([at[9], at[4]], through, at[0]);
    match numbers.below(3) {
        0 => [
            first,
            Part::Link([read, at[3]], [at[10], at[5]], through),
            second,
            Part::Move([at[1], at[2]], [at[11], at[12]]),
        ],
        1 => [
            first,
            second,
            Part::Strip([at[5], at[6]], mask, at[0]),
            Part::Strip([at[7], at[10]], through, at[2]),
        ],
        _ => [
            random_touch(numbers, at),
            random_touch(numbers, at),
            random_touch(numbers, at),
            random_touch(numbers, at),
        ],
    }
}

/// Three random accesses of six pages, some of which are not held.
fn random_touch(numbers: &mut Numbers, at: &[usize; 16]) -> Part {
    let mut indexes = [0usize; 3];
    let mut kinds = [0usize; 3];
    for k in 0..3 {
        indexes[k] = at[5 + numbers.below(6)];
        kinds[k] = numbers.below(3);
    }
    Part::Touch(indexes, kinds)
}

/// Two turns after as many steps each as are named for it, in turn.
fn step_two(phase: &Open, mut first: Turn, mut second: Turn, steps: (usize, usize)) -> (Turn, Turn)
    requires first { first.shared ≡ phase.now }
    requires second { second.shared ≡ phase.now }
    ensures first { result.0.shared ≡ phase.now }
    ensures second { result.1.shared ≡ phase.now }
{
    for k in 0..STEPS {
        if k < steps.0 {
            first.step(phase);
        }
        if k < steps.1 {
            second.step(phase);
        }
    }
    (first, second)
}

/// Four turns after as many steps each as are named for it, which two threads made.
fn step_four<R: Threads + Sync>(
    rt: &R,
    phase: &Open,
    left: (Turn, Turn),
    right: (Turn, Turn),
    steps: [usize; 4],
) -> ((Turn, Turn), (Turn, Turn))
    requires left { (left.0.shared ≡ phase.now) × (left.1.shared ≡ phase.now) }
    requires right { (right.0.shared ≡ phase.now) × (right.1.shared ≡ phase.now) }
    ensures left { (result.0.0.shared ≡ phase.now) × (result.0.1.shared ≡ phase.now) }
    ensures right { (result.1.0.shared ≡ phase.now) × (result.1.1.shared ≡ phase.now) }
{
    let (first, third) = left;
    let (second, fourth) = right;
    let [one, two, three, four] = steps;
    thread::join(
        rt,
        || -> (Turn, Turn)
            requires { (first.shared ≡ phase.now) × (third.shared ≡ phase.now) }
            ensures { (result.0.shared ≡ phase.entry.now) × (result.1.shared ≡ phase.entry.now) }
        { step_two(phase, first, third, (one, three)) },
        || -> (Turn, Turn)
            requires { (second.shared ≡ phase.now) × (fourth.shared ≡ phase.now) }
            ensures { (result.0.shared ≡ phase.entry.now) × (result.1.shared ≡ phase.entry.now) }
        { step_two(phase, second, fourth, (two, four)) },
    )
}

/// These turns, and two more.
fn with_both(
    phase: &Open,
    turns: Vec<Turn>,
    first: Turn,
    second: Turn,
) -> Result<Vec<Turn>, AllocError>
    requires others { All (λ t. t.shared ≡ phase.now) turns.items }
    requires first { first.shared ≡ phase.now }
    requires second { second.shared ≡ phase.now }
    ensures { IfOk result (λ after. All (λ t. t.shared ≡ phase.now) after.items) }
{
    let turns = with_last(phase, turns, Some(first))?;
    with_last(phase, turns, Some(second))
}

/// The turns of a phase of four pieces: the first and the third, and the second and the fourth.
fn four_turns(phase: &Open, turns: Vec<Turn>) -> Result<((Turn, Turn), (Turn, Turn)), NoMemory>
    requires { All (λ t. t.shared ≡ phase.now) turns.items }
    ensures left { IfOk result (λ r. (r.0.0.shared ≡ phase.now) × (r.0.1.shared ≡ phase.now)) }
    ensures right { IfOk result (λ r. (r.1.0.shared ≡ phase.now) × (r.1.1.shared ≡ phase.now)) }
{
    let (turns, (third, fourth)) = last_two(phase, turns)?;
    let (_, (first, second)) = last_two(phase, turns)?;
    Ok(((first, third), (second, fourth)))
}

/// Four turns after so many steps each, which two threads made.
fn step_all<R: Threads + Sync>(
    rt: &R,
    alloc: Global,
    phase: &Open,
    turns: Vec<Turn>,
    steps: [usize; 4],
) -> Result<Vec<Turn>, NoMemory>
    requires { All (λ t. t.shared ≡ phase.now) turns.items }
    ensures { IfOk result (λ after. All (λ t. t.shared ≡ phase.now) after.items) }
{
    let (left, right) = four_turns(phase, turns)?;
    let (left, right) = step_four(rt, phase, left, right, steps);
    let turns = with_both(phase, Vec::new(alloc), left.0, right.0)?;
    let turns = with_both(phase, turns, left.1, right.1)?;
    Ok(turns)
}

/// What is left of a phase of four pieces whose turns made so many steps on two threads.
fn closed<R: Threads + Sync>(
    rt: &R,
    alloc: Global,
    words: Vec<u64>,
    pieces: Vec<Piece>,
    steps: [usize; 4],
) -> Result<(Vec<u64>, Vec<Done>, Vec<Unended>), NoMemory>
    requires { CanBeWorked words.items pieces.items }
{
    let (phase, turns) = Open::open(alloc, words, pieces)?;
    let turns = step_all(rt, alloc, &phase, turns, steps)?;
    match phase.close(turns, Vec::new(alloc)) {
        Ok(end) => Ok(end),
        Err(_) => Err(NoMemory),
    }
}

/// The same of words and pieces that are asked first whether they can be worked.
fn worked<R: Threads + Sync>(
    rt: &R,
    alloc: Global,
    words: Vec<u64>,
    pieces: Vec<Piece>,
    steps: [usize; 4],
) -> Result<(Vec<u64>, Vec<Done>, Vec<Unended>), Fail> {
    if !can_be_worked(alloc, &words, &pieces)? {
        return Err(Fail::new("they cannot be worked"));
    }
    let end = closed(rt, alloc, words, pieces, steps)?;
    Ok(end)
}

/// What is left of a phase.
#[derive(Drop)]
struct End {
    words: Vec<u64>,
    /// The numbers of the parts of which all steps were made.
    ended: Vec<usize>,
    /// How many were made of the others.
    unended: Vec<Unended>,
}

/// What the first steps of parts leave of the words at opening.
fn expected(
    alloc: Global,
    parts: &[Part; 4],
    steps: [usize; 4],
    before: &[u64],
) -> Result<End, AllocError> {
    let mut words = Vec::from_slice(alloc, before)?;
    for k in 0..4 {
        work(parts[k], steps[k], before, &mut words);
    }
    let (ended, unended) = split(alloc, parts, steps, before)?;
    Ok(End {
        words,
        ended,
        unended,
    })
}

/// Whether results have these numbers, in this order.
fn are_numbered(dones: &[Done], numbers: &[usize]) -> bool {
    for (done, number) in dones.iter().zip(numbers) {
        if done.number() != *number {
            return false;
        }
    }
    dones.len() == numbers.len()
}

/// What is left is what was expected.
fn assert_end(
    rt: &impl Abort,
    words: &[u64],
    dones: &[Done],
    unended: &[Unended],
    end: &End,
    seed: u64,
    round: u32,
) {
    assert_equal(
        rt,
        (seed, round, words),
        (seed, round, end.words.as_slice()),
        "words",
    );
    assert_equal(
        rt,
        (seed, round, unended),
        (seed, round, end.unended.as_slice()),
        "unended",
    );
    assert_equal(
        rt,
        (seed, round, are_numbered(dones, &end.ended)),
        (seed, round, true),
        "ended",
    );
}

/// A phase of random words, parts and steps leaves what is expected.
fn works_a_round<R: Threads + Sync + Abort>(
    rt: &R,
    alloc: Global,
    numbers: &mut Numbers,
    seed: u64,
    round: u32,
) -> Result<(), Fail> {
    let at = shuffled(numbers);
    let words = random_words(alloc, numbers, &at)?;
    let parts = random_parts(numbers, &at);
    let steps = random_steps(numbers);
    let end = expected(alloc, &parts, steps, &words)?;
    let pieces = pieces_of(alloc, &parts)?;
    let (words, dones, unended) = worked(rt, alloc, words, pieces, steps)?;
    assert_end(rt, &words, &dones, &unended, &end, seed, round);
    Ok(())
}

#[test]
fn two_threads_step_random_pieces_and_the_phase_is_closed_in_the_middle(
    rt: HostRuntime,
) -> Result<(), Fail> {
    for seed in [1, 2, 3, 5, 8, 13, 21, 34, 55, 89] {
        let mut numbers = Numbers { state: seed };
        for round in 0..30 {
            works_a_round(&rt, rt.alloc(), &mut numbers, seed, round)?;
        }
    }
    Ok(())
}

/// How many steps each of four turns is to make: from none to more than its piece has.
fn random_steps(numbers: &mut Numbers) -> [usize; 4] {
    let mut steps = [0usize; 4];
    for k in 0..4 {
        steps[k] = numbers.below(STEPS + 1);
    }
    steps
}

/// The numbers of the parts of which all steps are made, and how many of the others.
fn split(
    alloc: Global,
    parts: &[Part; 4],
    steps: [usize; 4],
    before: &[u64],
) -> Result<(Vec<usize>, Vec<Unended>), AllocError> {
    let mut ends = Vec::new(alloc);
    let mut rest = Vec::new(alloc);
    for k in 0..4 {
        if steps_of(parts[k], before) <= steps[k] {
            ends.push(k)?;
        } else {
            rest.push(Unended {
                piece: k,
                steps: steps[k],
            })?;
        }
    }
    Ok((ends, rest))
}
