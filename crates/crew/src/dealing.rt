//! Turns are dealt to deques, and the deques to workers.

ghost use Rattle.std.specs.Prelude.{◌≡◌, ◌+◌, ◌-◌, ◌/◌, ◌<◌, ◌≤◌, [], map, length, IfOk, OnOk};
ghost use Rattle.std.specs.List.{All, range_with_len};
ghost use Rattle.turns.specs.Closing.{numbers_of};
ghost use Rattle.crew.specs.Crews.{DealtContent, OwnDequeContent, AreNumberedFrom, AreNumbered, pass_on, fewer, new_owns, AreRows, AreDealt};
ghost use Rattle.crew.specs.Hands.{all_parts, IsFresh};

use crate::hand::Which;
use crate::own_deque::{Crewed, Dealt, OwnDeque, StealPass};
use crate::worker::Worker;
use std::alloc::{AllocError, Global};
use turns::Turn;

/// Deals turns to so many deques: the first to that of the first worker, as many behind them to that of the next, and so on.
/// Words of pieces side by side share cache lines, so that what one worker takes is far from what the others take.
pub fn deal<N: Which>(
    alloc: Global,
    workers: usize,
    turns: Vec<Turn>,
) -> Result<Vec<Dealt<N>>, AllocError>
    requires some { 1 ≤ workers }
    requires fresh { All (IsFresh N.shared) turns.items }
    ensures { IfOk result (λ deques. AreDealt (length turns.items / workers + 1) workers (numbers_of turns.items) deques.items) }
{
    let room = turns.len() / workers + 1;
    let mut deques = empty_deques(alloc, workers, room)?;
    for turn in turns {
        let worker = (turn.piece() / room).min(workers - 1);
        deques[worker].put(turn)?;
    }
    Ok(deques)
}

/// So many deques with room for so many turns each.
fn empty_deques<N: Which>(
    alloc: Global,
    workers: usize,
    room: usize,
) -> Result<Vec<Dealt<N>>, AllocError>
    ensures { IfOk result (λ deques. AreDealt room workers [] deques.items) }
{
    let mut deques = Vec::with_capacity(alloc, workers)?;
    for worker in 0..workers {
        deques.push(Dealt::<N>::new(alloc, room)?)?;
    }
    Ok(deques)
}

/// The deques with the numbers of their workers.
pub fn owns_of<N: Which, M: Crewed>(
    alloc: Global,
    deques: Vec<Dealt<N>>,
) -> Result<Vec<OwnDeque<N, M>>, AllocError>
    requires { deques.items ≡ M.crew }
    ensures { IfOk result (λ owns. owns.items ≡ new_owns all_parts 0 M.crew) }
{
    let mut owns = Vec::with_capacity(alloc, deques.len())?;
    for dealt in deques {
        owns.push(OwnDeque::new(dealt, owns.len()))?;
    }
    Ok(owns)
}

/// A worker for each deque, with the right to steal from all of them, and room for so many turns: a thread that takes no
/// memory needs none of its own.
pub fn workers_of<N: Which, M: Crewed>(
    alloc: Global,
    mut owns: Vec<OwnDeque<N, M>>,
    room: usize,
) -> Result<Vec<Worker<N, M>>, AllocError>
    requires owns { owns.items ≡ new_owns all_parts 0 M.crew }
    requires few { length M.crew < all_parts }
    ensures { IfOk result (λ workers. AreNumberedFrom 0 workers.items × (length workers.items ≡ length M.crew)) }
{
    let rows = rows_of(alloc, owns.as_mut_slice())?;
    with_rows(alloc, owns, rows, room)
}

/// For each worker the right to steal from each deque.
fn rows_of<N: Which, M: Crewed>(
    alloc: Global,
    owns: &mut [OwnDeque<N, M>],
) -> Result<Vec<Vec<StealPass<N, M>>>, AllocError>
    requires owns { owns.old ≡ new_owns all_parts 0 M.crew }
    requires few { length M.crew < all_parts }
    ensures owns { OnOk result (owns.new ≡ new_owns (all_parts - length M.crew) 0 M.crew) }
    ensures rows { IfOk result (λ rows. AreRows (length M.crew) (length M.crew) rows.items) }
{
    let workers = owns.len();
    let mut rows = Vec::with_capacity(alloc, workers)?;
    for worker in 0..workers {
        rows.push(row_of(alloc, owns)?)?;
    }
    Ok(rows)
}

/// The right to steal from each deque.
fn row_of<N: Which, M: Crewed>(
    alloc: Global,
    owns: &mut [OwnDeque<N, M>],
) -> Result<Vec<StealPass<N, M>>, AllocError>
    requires { All (λ o. 1 < o.hand.parts) owns.old }
    ensures owns { OnOk result (owns.new ≡ map fewer owns.old) }
    ensures passes { IfOk result (λ passes. passes.items ≡ map pass_on owns.old) }
{
    let mut passes = Vec::with_capacity(alloc, owns.len())?;
    for own in owns.iter_mut() {
        passes.push(own.hand_out())?;
    }
    Ok(passes)
}

/// Each worker with a row of passes, and room for so many turns.
fn with_rows<N: Which, M: Crewed>(
    alloc: Global,
    owns: Vec<OwnDeque<N, M>>,
    mut rows: Vec<Vec<StealPass<N, M>>>,
    room: usize,
) -> Result<Vec<Worker<N, M>>, AllocError>
    requires owns { owns.items ≡ new_owns (all_parts - length M.crew) 0 M.crew }
    requires few { length M.crew < all_parts }
    requires rows { AreRows (length M.crew) (length M.crew) rows.items }
    ensures { IfOk result (λ workers. AreNumberedFrom 0 workers.items × (length workers.items ≡ length M.crew)) }
{
    let mut workers = Vec::with_capacity(alloc, owns.len())?;
    for own in owns {
        let passes = rows.pop().unwrap();
        let turns = Vec::with_capacity(alloc, room)?;
        workers.push(Worker::new(own, passes, turns))?;
    }
    Ok(workers)
}
