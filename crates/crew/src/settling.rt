//! What the workers of a phase held is put together.

ghost use Rattle.std.specs.Prelude.{◌≡◌, ℕ, ◌+◌, ◌<◌, length, get_or, IfOk, OnOk, MatchBool};
ghost use Rattle.std.specs.List.{All};
ghost use Rattle.turns.specs.Closing.{numbers_of};
ghost use Rattle.crew.specs.Crews.{OwnDequeContent, AreNumbered, AreNumberedFrom, AreApart, AreTakenBack, IsEnded, dealt, dealt_to, took};
ghost use Rattle.crew.specs.Hands.{all_parts, weigh, IsWithin, WasEmpty};

use crate::gate::Gate;
use crate::hand::Which;
use crate::own_deque::{Crewed, OwnDeque, StealPass};
use crate::shared_state::SharedState;
use crate::worker::Emptied;
use std::alloc::{AllocError, Global};
use turns::Turn;

/// All turns that were dealt, each worked to its end: by the workers who held these, or else now.
pub fn settle<N: Which, M: Crewed, G: Gate>(
    alloc: Global,
    state: &SharedState<'_, N, M, G>,
    workers: Vec<Emptied<N, M>>,
) -> Result<Vec<Turn>, AllocError>
    requires each { length workers.items ≡ length M.crew }
    requires numbers { AreNumberedFrom 0 workers.items }
    ensures ended { IfOk result (λ turns. All (IsEnded N.shared) turns.items) }
    ensures sums { IfOk result (λ turns. (h : ℕ → ℕ) → weigh h (numbers_of turns.items) ≡ dealt h M.crew) }
{
    let (mut owns, passes, turns) = take_apart(alloc, workers)?;
    take_back(owns.as_mut_slice(), passes);
    settle_all(state, owns, turns)
}

/// Takes workers apart: their own deques, and the passes and turns of all.
fn take_apart<N: Which, M: Crewed>(
    alloc: Global,
    workers: Vec<Emptied<N, M>>,
) -> Result<(Vec<OwnDeque<N, M>>, Vec<StealPass<N, M>>, Vec<Turn>), AllocError>
    requires numbers { AreNumberedFrom 0 workers.items }
    ensures { IfOk result (λ r. AreApart N.shared M.crew (length workers.items) r.0.items r.1.items r.2.items) }
{
    let mut owns = Vec::with_capacity(alloc, workers.len())?;
    let mut passes = Vec::new(alloc);
    let mut turns = Vec::new(alloc);
    for worker in workers {
        let (own, mut its_passes, mut its_turns) = worker.into_worker().into_parts();
        passes.append(&mut its_passes)?;
        turns.append(&mut its_turns)?;
        owns.push(own)?;
    }
    Ok((owns, passes, turns))
}

/// Takes all passes back.
fn take_back<N: Which, M: Crewed>(owns: &mut [OwnDeque<N, M>], passes: Vec<StealPass<N, M>>)
    requires numbers { AreNumbered owns.old }
    requires within { All (λ c. c.number < length owns.old) passes.items }
    ensures { AreTakenBack owns.old passes.items owns.new }
{
    for pass in passes {
        owns[pass.number()].take_back(pass);
    }
}

/// Settles each deque.
fn settle_all<N: Which, M: Crewed, G: Gate>(
    state: &SharedState<'_, N, M, G>,
    owns: Vec<OwnDeque<N, M>>,
    mut turns: Vec<Turn>,
) -> Result<Vec<Turn>, AllocError>
    requires each { length owns.items ≡ length M.crew }
    requires numbers { AreNumbered owns.items }
    requires all { (k : ℕ) (d : OwnDequeContent) → k < length owns.items → (get_or owns.items k d).hand.parts ≡ all_parts }
    requires ended { All (IsEnded N.shared) turns.items }
    requires sums { (h : ℕ → ℕ) → weigh h (numbers_of turns.items) ≡ took h owns.items }
    ensures ended { IfOk result (λ turns. All (IsEnded N.shared) turns.items) }
    ensures sums { IfOk result (λ turns. (h : ℕ → ℕ) → weigh h (numbers_of turns.items) ≡ dealt h M.crew) }
{
    for own in owns {
        settle_one(state, own, &mut turns)?;
    }
    Ok(turns)
}

/// Works what is left in a deque. Where all workers have ended nothing is left, and then it learns just that.
fn settle_one<N: Which, M: Crewed, G: Gate>(
    state: &SharedState<'_, N, M, G>,
    mut own: OwnDeque<N, M>,
    turns: &mut Vec<Turn>,
) -> Result<(), AllocError>
    requires all { own.hand.parts ≡ all_parts }
    requires ended { All (IsEnded N.shared) turns.old.items }
    ensures ended { OnOk result (All (IsEnded N.shared) turns.new.items) }
    ensures sums { OnOk result ((h : ℕ → ℕ) → weigh h (numbers_of turns.new.items) + weigh h own.hand.taken ≡ weigh h (numbers_of turns.old.items) + weigh h (dealt_to M.crew own.number)) }
{
    while work_next(state, &mut own, turns)? {}
    Ok(())
}

/// Works the next turn of a deque, if there is one.
fn work_next<N: Which, M: Crewed, G: Gate>(
    state: &SharedState<'_, N, M, G>,
    own: &mut OwnDeque<N, M>,
    turns: &mut Vec<Turn>,
) -> Result<bool, AllocError>
    requires { All (IsEnded N.shared) turns.old.items }
    ensures number { own.new.number ≡ own.old.number }
    ensures ended { OnOk result (All (IsEnded N.shared) turns.new.items) }
    ensures parts { own.new.hand.parts ≡ own.old.hand.parts }
    ensures put { (own.new.hand.put ≡ own.old.hand.put) × (own.old.hand.put ≡ dealt_to M.crew own.old.number) }
    ensures sums { OnOk result ((h : ℕ → ℕ) → weigh h (numbers_of turns.new.items) + weigh h own.old.hand.taken ≡ weigh h (numbers_of turns.old.items) + weigh h own.new.hand.taken) }
    ensures worked { IfOk result (λ worked. MatchBool worked ((length own.new.hand.taken ≡ length own.old.hand.taken + 1) × IsWithin own.new.hand) (WasEmpty N.shared own.new.hand)) }
{
    // Its contract tells what was dealt to this deque.
    let _ = own.number();
    turns.reserve(1)?;
    let Some(turn) = own.take() else {
        return Ok(false);
    };
    let turn = state.work(own, turn);
    turns.push_reserved(turn);
    Ok(true)
}
