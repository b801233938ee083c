//! The pieces of a phase, worked on words that the workers share.

ghost use Rattle.std.specs.Prelude.{◌≡◌, ℕ, ◌<◌, ◌≤◌, min, length, IfOk, IsErrOf};
ghost use Rattle.std.specs.List.{All};
ghost use Rattle.pieces.specs.Phases.{CanBeWorked};
ghost use Rattle.turns.specs.Closing.{numbers_of};
ghost use Rattle.crew.specs.Crews.{IsEnded, dealt};
ghost use Rattle.crew.specs.Hands.{all_parts, IsFresh, weigh};
ghost use Rattle.crew.specs.Worked.{IsWorked};
ghost use Rattle.crew.specs.declared.error.CrewError.TheVariants.{NoWorker};

use crate::crew::Crew;
use crate::dealing::{deal, owns_of, workers_of};
use crate::error::CrewError;
use crate::gate::Gate;
use crate::hand::Which;
use crate::own_deque::{Crewed, Dealt};
use crate::settling::settle;
use crate::shared_state::SharedState;
use crate::team::work_together;
use pieces::{Done, Piece};
use std::alloc::Global;
use std::marker::Brand;
use std::sync::Wait;
use std::thread::Threads;
use turns::{Open, Turn};

/// Works all pieces of a phase, and returns the words as they leave them and what each piece found out. The pieces are
/// numbered from 0, in the order in which they are given.
///
/// Each piece is a turn on shared words. There are as many workers as `workers_for` says of these pieces. The calling
/// thread is the first, and each other a thread of its own; one alone starts none. Pieces that can be worked beside
/// one another may be worked in any order, and their steps may be mixed: what comes of it is always the same.
///
/// Refused: `NoMemory`; `NoWorker`, where a thread could not be started. Then what was given is gone.
pub fn work<R: Threads + Wait, G: Gate>(
    crew: &Crew<'_, R, G>,
    alloc: Global,
    words: Vec<u64>,
    pieces: Vec<Piece>,
) -> Result<(Vec<u64>, Vec<Done>), CrewError>
    requires some { 0 < length pieces.items }
    requires can { CanBeWorked words.items pieces.items }
    ensures worked { IfOk result (λ r. IsWorked words.items pieces.items r.0.items r.1.items) }
    ensures no_worker { IsErrOf result NoWorker → 1 < crew.now.workers }
    ensures no_worker_for_one { IsErrOf result NoWorker → 1 < length pieces.items }
{
    let (shared, turns) = Open::open(alloc, words, pieces)?;
    let turns = work_turns::<Brand, R, G>(crew, alloc, &shared, turns)?;
    match shared.close(turns, Vec::new(alloc)) {
        Ok((words, dones, _)) => Ok((words, dones)),
        Err(_) => unreachable!(),
    }
}

/// Works the turns of a phase to their end, dealt to as many workers as the crew has for so many pieces.
pub fn work_turns<N: Which + Send + Sync, R: Threads + Wait, G: Gate>(
    crew: &Crew<'_, R, G>,
    alloc: Global,
    shared: &Open,
    turns: Vec<Turn>,
) -> Result<Vec<Turn>, CrewError>
    requires some { 0 < length turns.items }
    requires each { length turns.items ≡ length N.shared.opening.pieces }
    requires phase { shared.now ≡ N.shared }
    requires fresh { All (IsFresh N.shared) turns.items }
    ensures ended { IfOk result (λ ended. All (IsEnded N.shared) ended.items) }
    ensures sums { IfOk result (λ ended. (h : ℕ → ℕ) → weigh h (numbers_of ended.items) ≡ weigh h (numbers_of turns.items)) }
    ensures no_worker { IsErrOf result NoWorker → 1 < min crew.now.workers (length turns.items) }
{
    let workers = crew.workers_for(turns.len());
    let room = 2 * (turns.len() / workers) + 1;
    let deques = deal::<N>(alloc, workers, turns)?;
    work_deques::<N, Brand, R, G>(crew, alloc, shared, deques, room)
}

/// Works the turns that were dealt, with a worker for each deque, which has room for so many turns. There are as many workers
/// as the crew has for so many pieces.
fn work_deques<N: Which + Send + Sync, M: Crewed + Send + Sync, R: Threads + Wait, G: Gate>(
    crew: &Crew<'_, R, G>,
    alloc: Global,
    shared: &Open,
    deques: Vec<Dealt<N>>,
    room: usize,
) -> Result<Vec<Turn>, CrewError>
    requires some { 1 ≤ length M.crew }
    requires few { length M.crew < all_parts }
    requires count { length M.crew ≡ min crew.now.workers (length N.shared.opening.pieces) }
    requires phase { shared.now ≡ N.shared }
    requires deques { deques.items ≡ M.crew }
    ensures ended { IfOk result (λ ended. All (IsEnded N.shared) ended.items) }
    ensures sums { IfOk result (λ ended. (h : ℕ → ℕ) → weigh h (numbers_of ended.items) ≡ dealt h M.crew) }
    ensures no_worker { IsErrOf result NoWorker → 1 < length M.crew }
{
    let owns = owns_of::<N, M>(alloc, deques)?;
    let state = SharedState::new(alloc, shared, crew.gate, &owns)?;
    let mut workers = workers_of(alloc, owns, room)?;
    let first = workers.remove(0);
    let workers = work_together(crew.rt, alloc, &state, first, workers)?;
    let turns = settle(alloc, &state, workers)?;
    Ok(turns)
}
