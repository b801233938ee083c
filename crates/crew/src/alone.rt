//! The calling thread works a phase alone.

ghost use Rattle.std.specs.Prelude.{◌≡◌, IfOk, IsErrOf};
ghost use Rattle.std.specs.List.{All};
ghost use Rattle.pieces.specs.Phases.{CanBeWorked};
ghost use Rattle.turns.specs.Closing.{numbers_of};
ghost use Rattle.crew.specs.Crews.{IsEnded};
ghost use Rattle.crew.specs.Hands.{IsFresh};
ghost use Rattle.crew.specs.Worked.{IsWorked};
ghost use Rattle.crew.specs.declared.error.CrewError.TheVariants.{NoWorker};

use crate::change::change_alone;
use crate::error::CrewError;
use crate::plan::plan_in_turn;
use crate::workers::{Alone, Changed, Planned, Workers};
use maptree::Tree;
use pieces::{Done, Piece};
use std::alloc::{AllocError, Global};
use turns::{Open, Turn};

/// The most that a piece has where the calling thread works alone: it shares nothing out, and a piece has what it has at once.
const LENGTH_ALONE: usize = 65536;

/// Works the pieces of a phase on shared words, which nobody else has, one turn after another.
///
/// Refused, where memory is: `NoMemory`.
fn work_alone(
    alloc: Global,
    words: Vec<u64>,
    pieces: Vec<Piece>,
) -> Result<(Vec<u64>, Vec<Done>), CrewError>
    requires can { CanBeWorked words.items pieces.items }
    ensures worked { IfOk result (λ r. IsWorked words.items pieces.items r.0.items r.1.items) }
    ensures needs_no_worker { IsErrOf result NoWorker → ⊥ }
{
    let (shared, turns) = Open::open(alloc, words, pieces)?;
    let turns = step_all(alloc, &shared, turns)?;
    match shared.close(turns, Vec::new(alloc)) {
        Ok((words, dones, _)) => Ok((words, dones)),
        Err(_) => unreachable!(),
    }
}

/// Steps each turn to its end.
fn step_all(alloc: Global, shared: &Open, turns: Vec<Turn>) -> Result<Vec<Turn>, AllocError>
    requires fresh { All (IsFresh shared.now) turns.items }
    ensures ended { IfOk result (λ ended. All (IsEnded shared.now) ended.items) }
    ensures numbers { IfOk result (λ ended. numbers_of ended.items ≡ numbers_of turns.items) }
{
    let mut ended = Vec::with_capacity(alloc, turns.len())?;
    for mut turn in turns {
        turn.step_to_end(shared);
        ended.push(turn)?;
    }
    Ok(ended)
}

impl Workers for Alone {
    ghost use Rattle.std.specs.Prelude.{⊤};

    ghost starts_none = { λ _. ⊤ };

    ghost length_of = { λ _. 65536 };

    ghost least_of = { λ _. 18446744073709551615 };

    fn piece_length(&self) -> usize {
        LENGTH_ALONE
    }

    fn shared_from(&self) -> usize {
        usize::MAX
    }

    fn planners(&self) -> usize {
        1
    }

    fn plan(
        &self,
        alloc: Global,
        parts: usize,
        plan: &(dyn Fn(usize) -> Planned + Sync),
    ) -> Result<Vec<Planned>, AllocError> {
        plan_in_turn(alloc, parts, plan)
    }

    fn change(
        &self,
        trees: &mut [Tree],
        _cuts: &[usize],
        change: &(dyn Fn(usize, &mut [Tree]) -> Changed + Sync),
    ) -> Changed {
        change_alone(trees, change)
    }

    fn work(
        &self,
        alloc: Global,
        words: Vec<u64>,
        pieces: Vec<Piece>,
    ) -> Result<(Vec<u64>, Vec<Done>), CrewError> {
        work_alone(alloc, words, pieces)
    }
}
