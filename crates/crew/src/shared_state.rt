//! What the workers of a phase share.

ghost use Rattle.std.specs.Prelude.{◌≡◌, ◌<◌, ◌≤◌, ◌++◌, ◌∷◌, [], length, map, IfOk};
ghost use Rattle.crossbeam_deque.specs.Handles.{stealer_deque};
ghost use Rattle.crossbeam_deque.specs.Steals.{MatchSteal};
ghost use Rattle.crew.specs.Crews.{IsEnded, AreNumbered, deques_of};
ghost use Rattle.crew.specs.Hands.{IsFresh};

use crate::gate::Gate;
use crate::hand::{Fair, Hand, Which};
use crate::own_deque::{Crewed, OwnDeque, StealPass};
use crossbeam_deque::{Steal, Stealer};
use std::alloc::{AllocError, Global};
use std::marker::{Model, PhantomData};
use turns::{Open, Turn};

/// The words of the phase, the gate that hears of its pieces, and what workers steal by from one another.
#[derive(Drop)]
pub struct SharedState<'a, N: Which, M: Crewed, G: Gate> {
    shared: &'a Open,
    gate: &'a G,
    stealers: Vec<Stealer<Turn, Global, Hand, Fair<N>>>,
    of: PhantomData<M>,
}

impl<'a, N: Which, M: Crewed, G: Gate> Model for SharedState<'a, N, M, G> {
    ghost use Rattle.std.specs.Prelude.{◌≡◌, ℕ, ◌≤◌, length, map};
    ghost use Rattle.crossbeam_deque.specs.Handles.{stealer_deque};
    ghost use Rattle.crew.specs.Crews.{deques_of};

    ghost Value = { ℕ };

    ghost view = { λ b. length b.stealers.items };

    ghost invariant = { λ b. (b.shared.now ≡ N.shared) × (map stealer_deque b.stealers.items ≡ deques_of M.crew) × (length M.crew ≤ length N.shared.opening.pieces) };
}

impl<'a, N: Which, M: Crewed, G: Gate> SharedState<'a, N, M, G> {
    /// Of this phase, for the workers of these deques.
    pub fn new(
        alloc: Global,
        shared: &'a Open,
        gate: &'a G,
        owns: &[OwnDeque<N, M>],
    ) -> Result<SharedState<'a, N, M, G>, AllocError>
        requires phase { shared.now ≡ N.shared }
        requires few { length M.crew ≤ length N.shared.opening.pieces }
        requires each { length owns.now ≡ length M.crew }
        requires numbers { AreNumbered owns.now }
    {
        let stealers = stealers_of(alloc, owns)?;
        Ok(SharedState {
            shared,
            gate,
            stealers,
            of: PhantomData,
        })
    }

    /// How many workers there are.
    pub fn workers(&self) -> usize
        ensures workers { result ≡ self.now }
        ensures each { result ≡ length M.crew }
    {
        self.stealers.len()
    }

    /// The worker of a deque works a turn to its end.
    pub fn work(&self, own: &OwnDeque<N, M>, mut turn: Turn) -> Turn
        requires { IsFresh N.shared turn }
        ensures ended { IsEnded N.shared result }
        ensures number { result.number ≡ turn.number }
    {
        let worker = own.number();
        let workers = self.workers();
        self.gate.begin(worker, workers, &turn, self.shared);
        turn.step_to_end(self.shared);
        self.gate.end(worker, workers, &turn, self.shared);
        turn
    }

    /// Steals from the deque of a pass.
    pub fn steal(&self, pass: &mut StealPass<N, M>) -> Steal<Turn>
        requires { pass.old.number < length M.crew }
        ensures number { pass.new.number ≡ pass.old.number }
        ensures taken { MatchSteal result (pass.new ≡ pass.old) (pass.new ≡ pass.old) (λ t. IsFresh N.shared t × (pass.new.taken ≡ pass.old.taken ++ t.number ∷ [])) }
    {
        pass.steal(&self.stealers[pass.number()])
    }
}

/// What others steal by from each of these deques.
fn stealers_of<N: Which, M: Crewed>(
    alloc: Global,
    owns: &[OwnDeque<N, M>],
) -> Result<Vec<Stealer<Turn, Global, Hand, Fair<N>>>, AllocError>
    requires each { length owns.now ≡ length M.crew }
    requires numbers { AreNumbered owns.now }
    ensures { IfOk result (λ stealers. map stealer_deque stealers.items ≡ deques_of M.crew) }
{
    let mut stealers = Vec::with_capacity(alloc, owns.len())?;
    for own in owns {
        stealers.push(own.stealer()?)?;
    }
    Ok(stealers)
}
