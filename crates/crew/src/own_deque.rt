//! The deques of a crew, each with its worker.

ghost use Rattle.std.specs.Prelude.{◌≡◌, ◌+◌, ◌-◌, ◌<◌, ◌++◌, ◌∷◌, [], Some, None, length, slice_get, IfSome, IfNone, IfOk, OnOk};
ghost use Rattle.turns.specs.Turns.{steps_to_do};
ghost use Rattle.crew.specs.Hands.{all_parts, hand, IsFresh, IsWithin, WasEmpty};

use crate::hand::{Deque, Fair, Hand, HandsOut, Puts, Steals, Takes, TakesBack, Which};
use crossbeam_deque::{Pass, Steal, Stealer};
use std::alloc::{AllocError, Global};
use std::marker::{Brand, Model, PhantomData};
use turns::Turn;

/// Names the deques of a crew, and what was dealt to each. It is picked once the turns are dealt.
pub trait Crewed {
    ghost use Rattle.std.specs.Prelude.{List};
    ghost use Rattle.crew.specs.Crews.{DealtContent};

    /// By the numbers of their workers.
    ghost crew: { List DealtContent };
}

impl Crewed for Brand {
    ghost use Rattle.std.specs.Prelude.{[]};

    ghost crew = { [] };
}

/// A deque, first in first out, that turns are dealt to.
#[derive(Drop)]
pub struct Dealt<N: Which> {
    deque: Deque<N>,
}

impl<N: Which> Model for Dealt<N> {
    ghost use Rattle.crew.specs.Crews.{DealtContent};

    ghost Value = { DealtContent };

    ghost use Rattle.std.specs.Prelude.{◌≡◌, []};
    ghost use Rattle.crossbeam_deque.specs.Handles.{worker_deque, worker_flavor, worker_port, worker_view};
    ghost use Rattle.crew.specs.Hands.{all_parts, hand};

    ghost view = { λ d. record { deque = worker_deque d.deque; put = (worker_view d.deque).put } };

    ghost invariant = { λ d. (worker_flavor d.deque ≡ 0) × (worker_port d.deque ≡ 0) × (worker_view d.deque ≡ hand all_parts (worker_view d.deque).put []) };
}

impl<N: Which> Dealt<N> {
    /// An empty deque with room for so many turns.
    pub fn new(alloc: Global, room: usize) -> Result<Dealt<N>, AllocError>
        ensures { IfOk result (λ d. d.put ≡ []) }
    {
        Ok(Dealt {
            deque: Deque::<N>::fifo_as(alloc, room)?,
        })
    }

    /// Deals a turn to it.
    pub fn put(&mut self, turn: Turn) -> Result<(), AllocError>
        requires { IsFresh N.shared turn }
        ensures same { self.new.deque ≡ self.old.deque }
        ensures put { OnOk result (self.new.put ≡ self.old.put ++ turn.number ∷ []) }
    {
        match self.deque.push_as::<Puts>(turn) {
            Ok(()) => Ok(()),
            Err(_) => Err(AllocError),
        }
    }
}

/// The deque of a worker, with the number of the worker.
#[derive(Drop)]
pub struct OwnDeque<N: Which, M: Crewed> {
    deque: Deque<N>,
    number: usize,
    of: PhantomData<M>,
}

impl<N: Which, M: Crewed> Model for OwnDeque<N, M> {
    ghost use Rattle.crew.specs.Crews.{OwnDequeContent};

    ghost Value = { OwnDequeContent };

    ghost use Rattle.crossbeam_deque.specs.Handles.{worker_deque, worker_flavor, worker_port, worker_view};
    ghost use Rattle.crew.specs.Crews.{IsOwnDeque};

    ghost view = { λ o. record { number = o.number; hand = worker_view o.deque } };

    ghost invariant = { λ o. IsOwnDeque M.crew o.number (worker_deque o.deque) (worker_flavor o.deque) (worker_port o.deque) (worker_view o.deque) };
}

impl<N: Which, M: Crewed> OwnDeque<N, M> {
    ghost use Rattle.crew.specs.Crews.{deques_of, dealt_to};
    ghost use Rattle.crossbeam_deque.specs.Handles.{stealer_deque};

    /// The deque of the worker with this number.
    pub fn new(dealt: Dealt<N>, number: usize) -> OwnDeque<N, M>
        requires { slice_get M.crew number ≡ Some dealt }
        ensures { result ≡ record { number = number; hand = hand all_parts dealt.put [] } }
    {
        OwnDeque {
            deque: dealt.deque,
            number,
            of: PhantomData,
        }
    }

    /// The number of its worker.
    pub fn number(&self) -> usize
        ensures number { result ≡ self.now.number }
        ensures below { result < length M.crew }
        ensures dealt { dealt_to M.crew self.now.number ≡ self.now.hand.put }
    {
        self.number
    }

    /// What others steal by.
    pub fn stealer(&self) -> Result<Stealer<Turn, Global, Hand, Fair<N>>, AllocError>
        ensures { IfOk result (λ s. slice_get (deques_of M.crew) self.now.number ≡ Some (stealer_deque s)) }
    {
        self.deque.stealer()
    }

    /// Takes the turn that was dealt first, of those that are left.
    pub fn take(&mut self) -> Option<Turn>
        ensures number { self.new.number ≡ self.old.number }
        ensures taken { IfSome result (λ t. IsFresh N.shared t × (self.new.hand ≡ hand self.old.hand.parts self.old.hand.put (self.old.hand.taken ++ t.number ∷ [])) × IsWithin self.new.hand) }
        ensures none { IfNone result ((self.new.hand ≡ self.old.hand) × WasEmpty N.shared self.new.hand) }
    {
        self.deque.pop_as::<Takes<N>>()
    }

    /// Hands out the right to steal from it.
    pub fn hand_out(&mut self) -> StealPass<N, M>
        requires { 1 < self.old.hand.parts }
        ensures own { self.new ≡ record { number = self.old.number; hand = hand (self.old.hand.parts - 1) self.old.hand.put self.old.hand.taken } }
        ensures pass { result ≡ record { number = self.old.number; taken = [] } }
    {
        StealPass {
            right: self.deque.another::<HandsOut>(),
            number: self.number,
            of: PhantomData,
        }
    }

    /// Takes back a right to steal from it.
    pub fn take_back(&mut self, pass: StealPass<N, M>)
        requires { pass.number ≡ self.old.number }
        ensures { self.new ≡ record { number = self.old.number; hand = hand (self.old.hand.parts + 1) self.old.hand.put (self.old.hand.taken ++ pass.taken) } }
    {
        self.deque.absorb::<TakesBack>(pass.right);
    }
}

/// The right to steal from the deque of one worker: one part of the right to know the whole.
#[derive(Drop)]
pub struct StealPass<N: Which, M: Crewed> {
    right: Pass<Turn, Hand>,
    number: usize,
    of: PhantomData<(N, M)>,
}

impl<N: Which, M: Crewed> Model for StealPass<N, M> {
    ghost use Rattle.crew.specs.Crews.{StealPassContent};

    ghost Value = { StealPassContent };

    ghost use Rattle.std.specs.Prelude.{◌≡◌, Some, None, slice_get};
    ghost use Rattle.crew.specs.Crews.{deques_of};

    ghost view = { λ c. record { number = c.number; taken = c.right.me.view.client.taken } };

    ghost invariant = { λ c. (slice_get (deques_of M.crew) c.number ≡ Some (c.right.rows, c.right.heap)) × (c.right.me.hand ≡ None) × (c.right.me.spare ≡ None) × (c.right.me.view.client.parts ≡ 1) };
}

impl<N: Which, M: Crewed> StealPass<N, M> {
    ghost use Rattle.crew.specs.Crews.{deques_of};
    ghost use Rattle.crossbeam_deque.specs.Handles.{stealer_deque};
    ghost use Rattle.crossbeam_deque.specs.Steals.{MatchSteal};

    /// The number of that worker.
    pub fn number(&self) -> usize
        ensures { result ≡ self.now.number }
    {
        self.number
    }

    /// Steals the turn that was dealt first to that deque, of those that are left.
    pub fn steal(&mut self, from: &Stealer<Turn, Global, Hand, Fair<N>>) -> Steal<Turn>
        requires { slice_get (deques_of M.crew) self.old.number ≡ Some (stealer_deque from.now) }
        ensures number { self.new.number ≡ self.old.number }
        ensures taken { MatchSteal result (self.new ≡ self.old) (self.new ≡ self.old) (λ t. IsFresh N.shared t × (self.new.taken ≡ self.old.taken ++ t.number ∷ [])) }
    {
        from.steal_as::<Steals<N>>(&mut self.right)
    }
}
