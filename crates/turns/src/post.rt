//! A piece at work.

use crate::shared_words::{Seat, SharedWords};
use std::marker::Model;

/// A seat that has one piece, whose number it knows, and how many of the piece's steps were done.
#[derive(Drop)]
pub(crate) struct Post {
    seat: Seat,
    number: usize,
    steps: usize,
}

impl Model for Post {
    ghost use Rattle.turns.specs.Posts.{PostContent};

    ghost Value = { PostContent };

    ghost use Rattle.turns.specs.Posts.{IsPost};

    ghost view = { λ p. record { shared = record { id = p.seat.table_id; opening = p.seat.me.0.opening }; number = p.number; steps = p.steps } };

    ghost invariant = { λ p. IsPost (record { shared = record { id = p.seat.table_id; opening = p.seat.me.0.opening }; number = p.number; steps = p.steps }) p.seat.table_id p.seat.me };
}

impl Post {
    ghost use Rattle.std.specs.Prelude.{◌≡◌, ◌+◌, ◌^◌, ◌<◌, [], ◌∷◌, Some, slice_index};
    ghost use Rattle.pieces.specs.Effects.{keeps, adds, writes};
    ghost use Rattle.turns.specs.Posts.{next_of, IsFound, IsToWrite};
    ghost use Rattle.turns.specs.SharedWords.{IsSeat};
    ghost use Rattle.turns.specs.Views.{IsNoted};

    /// The post of a piece of which no step was done.
    pub(crate) fn new(shared: &SharedWords, seat: Seat, number: usize) -> Post
        requires seat { IsSeat shared.now seat.table_id seat.me }
        requires first { seat.me.0.counts ≡ (number, 0) ∷ [] }
        ensures { result ≡ record { shared = shared.now; number = number; steps = 0 } }
    {
        let _ = shared;
        Post {
            seat,
            number,
            steps: 0,
        }
    }

    /// The number of the piece.
    pub(crate) fn number(&self) -> usize
        ensures { result ≡ self.now.number }
    {
        self.number
    }

    /// How many of its steps were done.
    pub(crate) fn steps(&self) -> usize
        ensures { result ≡ self.now.steps }
    {
        self.steps
    }

    /// Finds the word at an index, which the piece is still to write: it is as it was at opening. This is no step.
    pub(crate) fn see(&mut self, shared: &SharedWords, index: usize, hint: usize) -> u64
        requires of { self.old.shared ≡ shared.now }
        requires to_write { IsToWrite self.old index }
        ensures same { self.new ≡ self.old }
        ensures word { result ≡ slice_index self.old.shared.opening.words index }
    {
        shared.learn_can_be_worked();
        shared.see(&mut self.seat, index, hint)
    }

    /// The step that finds the word at an index.
    pub(crate) fn look(&mut self, shared: &SharedWords, index: usize, hint: usize) -> u64
        requires of { self.old.shared ≡ shared.now }
        requires next { next_of self.old ≡ Some (keeps index) }
        requires fits { self.old.steps + 1 < 2 ^ 64 }
        ensures post { self.new ≡ record self.old { steps = self.old.steps + 1 } }
        ensures found { IsFound self.old index result }
    {
        let found = shared.look(&mut self.seat, index, hint);
        self.steps += 1;
        found
    }

    /// The step that adds bits to the word at an index. Returns the word as it was.
    pub(crate) fn add(&mut self, shared: &SharedWords, index: usize, bits: u64, hint: usize) -> u64
        requires of { self.old.shared ≡ shared.now }
        requires next { next_of self.old ≡ Some (adds index bits) }
        requires fits { self.old.steps + 1 < 2 ^ 64 }
        ensures post { self.new ≡ record self.old { steps = self.old.steps + 1 } }
        ensures found { IsFound self.old index result }
    {
        let found = shared.add(&mut self.seat, index, bits, hint);
        self.steps += 1;
        found
    }

    /// The step that writes the word at an index. Returns the word as it was.
    pub(crate) fn write(
        &mut self,
        shared: &SharedWords,
        index: usize,
        word: u64,
        hint: usize,
    ) -> u64
        requires of { self.old.shared ≡ shared.now }
        requires next { next_of self.old ≡ Some (writes index word) }
        requires fits { self.old.steps + 1 < 2 ^ 64 }
        ensures post { self.new ≡ record self.old { steps = self.old.steps + 1 } }
        ensures alone { result ≡ slice_index self.old.shared.opening.words index }
    {
        shared.learn_can_be_worked();
        let found = shared.write(&mut self.seat, index, word, hint);
        self.steps += 1;
        found
    }

    /// A seat that has no piece, and knows how many steps of this one were done.
    pub(crate) fn tell(&mut self, shared: &SharedWords) -> Seat
        requires of { self.old.shared ≡ shared.now }
        ensures same { self.new ≡ self.old }
        ensures told { IsSeat shared.now result.table_id result.me × IsNoted result.me.0.notes self.old.number self.old.steps }
    {
        shared.tell(&mut self.seat)
    }

    /// The seat.
    pub(crate) fn into_seat(self) -> Seat
        ensures seat { IsSeat self.shared result.table_id result.me }
        ensures counts { result.me.0.counts ≡ (self.number, self.steps) ∷ [] }
    {
        let Post {
            seat,
            number: _,
            steps: _,
        } = self;
        seat
    }
}
