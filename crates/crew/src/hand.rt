//! The rule of a worker's deque: what the workers know of it.
use crossbeam_deque::Worker;
use crossbeam_deque::protocol::{Join, Outcome, Protocol, Split};
use std::alloc::Global;
use std::collections::LinkedList;
use std::marker::{Brand, PhantomData};
use turns::Turn;

/// Which phase it is. Each call of `work` picks it.
pub trait Which {
    ghost use Rattle.turns.specs.SharedWords.{SharedContent};

    /// What its turns share.
    ghost shared: { SharedContent };
}

impl Which for Brand {
    ghost use Rattle.crew.specs.Hands.{no_shared};

    ghost shared = { no_shared };
}

/// What one of those who use a deque knows of it. No value of it is ever made: it is for contracts alone.
pub struct Hand {
    /// Its parts, of `all_parts`, of the right to know the whole.
    pub parts: u64,
    /// The numbers of the turns that it put, in order.
    pub put: LinkedList<usize>,
    /// The numbers of the turns that it took, in order.
    pub taken: LinkedList<usize>,
}

/// The rule of a deque of turns: what was put is what was taken and what is there.
pub struct Fair<N> {
    of: PhantomData<N>,
}

impl<N: Which> Protocol<Turn, Hand> for Fair<N> {
    ghost use Rattle.std.specs.Prelude.{[]};
    ghost use Rattle.crew.specs.Hands.{all_parts, hand, Balanced};

    ghost holds = { Balanced N.shared };

    ghost first = { hand all_parts [] [] };

    ghost guest = { hand 0 [] [] };
}

/// A turn is put.
pub struct Puts;

impl Outcome<Turn, Hand> for Puts {
    ghost use Rattle.std.specs.Prelude.{◌≡◌, ◌++◌};
    ghost use Rattle.turns.specs.Closing.{numbers_of};
    ghost use Rattle.crew.specs.Hands.{all_parts, hand};

    ghost then = { λ v xs w. w ≡ hand v.parts (v.put ++ numbers_of xs) v.taken };
}

/// The worker of the deque takes a turn, or finds none.
pub struct Takes<N> {
    of: PhantomData<N>,
}

impl<N: Which> Outcome<Turn, Hand> for Takes<N> {
    ghost use Rattle.crew.specs.Hands.{IsTaken, IsWithin, WasEmpty};

    ghost then = { λ v xs w. IsTaken N.shared v xs w × IsWithin w };

    ghost empty = { WasEmpty N.shared };
}

/// Another worker takes a turn.
pub struct Steals<N> {
    of: PhantomData<N>,
}

impl<N: Which> Outcome<Turn, Hand> for Steals<N> {
    ghost use Rattle.crew.specs.Hands.{IsTaken};

    ghost then = { IsTaken N.shared };
}

/// A part of the right to know the whole is handed out.
pub struct HandsOut;

impl Split<Hand> for HandsOut {
    ghost use Rattle.std.specs.Prelude.{◌-◌, []};
    ghost use Rattle.crew.specs.Hands.{all_parts, hand};

    ghost left = { λ v. hand (v.parts - 1) v.put v.taken };

    ghost right = { λ v. hand 1 [] [] };
}

/// What another knew is taken back.
pub struct TakesBack;

impl Join<Hand> for TakesBack {
    ghost use Rattle.std.specs.Prelude.{◌+◌, ◌++◌, []};
    ghost use Rattle.crew.specs.Hands.{all_parts, hand};

    ghost both = { λ v w. hand (v.parts + w.parts) v.put (v.taken ++ w.taken) };

    ghost spent = { hand 0 [] [] };
}

/// A deque of turns.
pub type Deque<N> = Worker<Turn, Global, Hand, Fair<N>>;
