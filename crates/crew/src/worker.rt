//! A worker with all that it holds, and its work.

ghost use Rattle.std.specs.Prelude.{◌≡◌, ◌+◌, ◌<◌, ◌≤◌, true, false, [], length, IfOk, OnOk, MatchBool};
ghost use Rattle.crew.specs.Crews.{IsWorker, new_passes};
ghost use Rattle.crew.specs.Hands.{all_parts, IsWithin, WasEmpty};

use crate::gate::Gate;
use crate::hand::Which;
use crate::own_deque::{Crewed, OwnDeque, StealPass};
use crate::shared_state::SharedState;
use crossbeam_deque::Steal;
use std::alloc::{AllocError, Global};
use std::marker::Model;
use turns::Turn;

/// How many turns a worker steals from one deque before it goes on to the next.
const STOLEN_IN_A_ROW: usize = 16;

/// How many workers begin to steal from one deque each, far from each other.
const WORKERS_APART: usize = 8;

/// What a worker holds: its own deque, the right to steal from each deque, and the turns that it has worked to their end.
#[derive(Drop)]
pub struct Worker<N: Which, M: Crewed> {
    own: OwnDeque<N, M>,
    passes: Vec<StealPass<N, M>>,
    turns: Vec<Turn>,
}

impl<N: Which, M: Crewed> Model for Worker<N, M> {
    ghost use Rattle.crew.specs.Crews.{WorkerContent};

    ghost Value = { WorkerContent };

    ghost use Rattle.crew.specs.Crews.{IsWorker};

    ghost view = { λ l. record { own = l.own; passes = l.passes.items; turns = l.turns.items } };

    ghost invariant = { λ l. IsWorker N.shared M.crew l.own l.passes.items l.turns.items };
}

impl<N: Which, M: Crewed> Worker<N, M> {
    /// A worker that has not begun, with a list for the turns that it works.
    pub fn new(own: OwnDeque<N, M>, passes: Vec<StealPass<N, M>>, turns: Vec<Turn>) -> Worker<N, M>
        requires none { own.hand.taken ≡ [] }
        requires parts { own.hand.parts + length M.crew ≡ all_parts }
        requires passes { passes.items ≡ new_passes (length M.crew) }
        requires turns { turns.items ≡ [] }
        ensures { result.own ≡ own }
    {
        Worker { own, passes, turns }
    }

    /// Its number.
    pub fn number(&self) -> usize
        ensures number { result ≡ self.now.own.number }
        ensures below { result < length M.crew }
        ensures few { length M.crew ≤ all_parts }
    {
        self.own.number()
    }

    /// Works turns until its own deque is empty, and then a whole round of the others finds none.
    pub fn work_all<G: Gate>(
        mut self,
        state: &SharedState<'_, N, M, G>,
    ) -> Result<Emptied<N, M>, AllocError>
        ensures { IfOk result (λ e. e.own.number ≡ self.own.number) }
    {
        self.empty_own(state)?;
        self.steal_all(state)?;
        Ok(Emptied::new(self))
    }

    /// Works turns of its own deque until it is empty.
    fn empty_own<G: Gate>(&mut self, state: &SharedState<'_, N, M, G>) -> Result<(), AllocError>
        ensures number { self.new.own.number ≡ self.old.own.number }
        ensures none { OnOk result (WasEmpty N.shared self.new.own.hand) }
    {
        while self.work_own(state)? {}
        Ok(())
    }

    /// Works the next turn of its own deque, if there is one.
    fn work_own<G: Gate>(&mut self, state: &SharedState<'_, N, M, G>) -> Result<bool, AllocError>
        ensures number { self.new.own.number ≡ self.old.own.number }
        ensures put { self.new.own.hand.put ≡ self.old.own.hand.put }
        ensures worked { IfOk result (λ worked. MatchBool worked ((length self.new.own.hand.taken ≡ length self.old.own.hand.taken + 1) × IsWithin self.new.own.hand) (WasEmpty N.shared self.new.own.hand)) }
    {
        self.turns.reserve(1)?;
        let Some(turn) = self.own.take() else {
            return Ok(false);
        };
        let turn = state.work(&self.own, turn);
        self.turns.push_reserved(turn);
        Ok(true)
    }

    /// Steals turns and works them, until a whole round finds none.
    fn steal_all<G: Gate>(&mut self, state: &SharedState<'_, N, M, G>) -> Result<(), AllocError>
        ensures { self.new.own ≡ self.old.own }
    {
        for _ in 0..u64::MAX {
            if !self.steal_round(state)? {
                break;
            }
        }
        Ok(())
    }

    /// Steals from each of the others: from which first, tells its number, so that those who come at once begin far from each
    /// other. Answers whether there may be more.
    fn steal_round<G: Gate>(&mut self, state: &SharedState<'_, N, M, G>) -> Result<bool, AllocError>
        ensures { self.new.own ≡ self.old.own }
    {
        let workers = state.workers();
        let stride = 1 + workers / WORKERS_APART;
        let first = self.number().wrapping_mul(stride);
        let mut found = false;
        for ahead in 1..=workers {
            let number = first.wrapping_add(ahead) % workers;
            if self.steal_some(state, number)? {
                found = true;
            }
        }
        Ok(found)
    }

    /// Steals turns from the deque of the worker with this number, one after another, until some are worked or none is left.
    /// Words of pieces side by side share cache lines. Answers whether there may be more.
    fn steal_some<G: Gate>(
        &mut self,
        state: &SharedState<'_, N, M, G>,
        number: usize,
    ) -> Result<bool, AllocError>
        requires { number < length M.crew }
        ensures { self.new.own ≡ self.old.own }
    {
        let mut found = false;
        for _ in 0..STOLEN_IN_A_ROW {
            if !self.steal_from(state, number)? {
                break;
            }
            found = true;
        }
        Ok(found)
    }

    /// Steals a turn from the deque of the worker with this number and works it. Answers whether there may be more: not where the deque was empty.
    fn steal_from<G: Gate>(
        &mut self,
        state: &SharedState<'_, N, M, G>,
        number: usize,
    ) -> Result<bool, AllocError>
        requires { number < length M.crew }
        ensures { self.new.own ≡ self.old.own }
    {
        self.turns.reserve(1)?;
        match state.steal(&mut self.passes[number]) {
            Steal::Success(turn) => {
                let turn = state.work(&self.own, turn);
                self.turns.push_reserved(turn);
                Ok(true)
            }
            Steal::Retry => Ok(true),
            Steal::Empty => Ok(false),
        }
    }

    /// Its own deque, the passes and the turns.
    pub fn into_parts(self) -> (OwnDeque<N, M>, Vec<StealPass<N, M>>, Vec<Turn>)
        ensures own { result.0 ≡ self.own }
        ensures worker { IsWorker N.shared M.crew result.0 result.1.items result.2.items }
    {
        let Worker { own, passes, turns } = self;
        (own, passes, turns)
    }
}

/// A worker that has ended: its own deque was seen empty.
#[derive(Drop)]
pub struct Emptied<N: Which, M: Crewed> {
    worker: Worker<N, M>,
}

impl<N: Which, M: Crewed> Model for Emptied<N, M> {
    ghost use Rattle.crew.specs.Crews.{WorkerContent};

    ghost Value = { WorkerContent };

    ghost use Rattle.crew.specs.Hands.{WasEmpty};

    ghost view = { λ e. e.worker };

    ghost invariant = { λ e. WasEmpty N.shared e.worker.own.hand };
}

impl<N: Which, M: Crewed> Emptied<N, M> {
    /// The worker has seen its own deque empty.
    fn new(worker: Worker<N, M>) -> Emptied<N, M>
        requires { WasEmpty N.shared worker.own.hand }
        ensures { result ≡ worker }
    {
        Emptied { worker }
    }

    /// What it holds.
    pub fn into_worker(self) -> Worker<N, M>
        ensures { result ≡ self }
    {
        self.worker
    }
}
