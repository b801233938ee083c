//! A piece at work.

ghost use Rattle.std.specs.Prelude.{◌≡◌, []};

use crate::post::Post;
use crate::shared_words::SharedWords;
use crate::strip_work::StripWork;
use crate::touch_work::TouchWork;
use crate::{link_work, move_work};
use fpage::Rights;
use pieces::{Link, Move, Piece};
use space::Slice;
use std::alloc::{AllocError, Global};

/// A piece, some of whose steps were done, and what it has found out so far. The numbers are hints: where its words are shared.
#[derive(Drop)]
pub(crate) enum Work {
    Strip(StripWork),
    Link(Link, usize),
    Move(Move, usize),
    Touch(TouchWork),
}

impl Work {
    ghost use Rattle.std.specs.Prelude.{◌≡◌, ℕ, List, ◌+◌, ◌<◌, ◌≤◌, ◌==◌, Some, slice_get, IfOk};
    ghost use Rattle.pieces.specs.declared.piece.Piece.{Piece};
    ghost use Rattle.pieces.specs.Dones.{found_as};
    ghost use Rattle.pieces.specs.Values.{value};
    ghost use Rattle.turns.specs.Works.{IsWork, step_count};

    /// A piece of which no step was done. Only a touch takes memory, for its answers.
    pub(crate) fn new(alloc: Global, piece: Piece, hint: usize) -> Result<Work, AllocError>
        ensures { IfOk result (λ r. (w : List ℕ) → IsWork w piece r 0) }
    {
        match piece {
            Piece::Strip(strip) => Ok(Work::Strip(StripWork::new(strip, hint))),
            Piece::Link(link) => Ok(Work::Link(link, hint)),
            Piece::Move(pairs) => Ok(Work::Move(pairs, hint)),
            Piece::Touch(touch) => {
                let touch = TouchWork::new(alloc, touch)?;
                Ok(Work::Touch(touch))
            }
        }
    }

    /// Whether all its steps were done, of which so many were.
    pub(crate) fn has_ended(&self, steps: usize) -> bool
        requires { (w : List ℕ) × (p : Piece) × IsWork w p self.now steps }
        ensures { (w : List ℕ) (p : Piece) → IsWork w p self.now steps → result ≡ (steps == step_count w p) }
    {
        match self {
            Work::Strip(strip) => steps == strip.len(),
            Work::Link(link, _) => steps == link.len(),
            Work::Move(pairs, _) => steps == pairs.len() * 2,
            Work::Touch(touch) => touch.is_done(),
        }
    }

    /// What the piece found out, when all its steps were done: the nodes that it keeps, the status that it found, and its answers.
    pub(crate) fn into_found(self, alloc: Global) -> (Slice, Rights, Vec<bool>)
        ensures { (w : List ℕ) (p : Piece) → IsWork w p self (step_count w p) → found_as result.0 result.1 result.2 ≡ value w p }
    {
        match self {
            Work::Strip(strip) => {
                let (kept, status) = strip.into_found();
                (kept, status, Vec::new(alloc))
            }
            Work::Link(_, _) => (no_nodes(alloc), Rights::none(), Vec::new(alloc)),
            Work::Move(_, _) => (no_nodes(alloc), Rights::none(), Vec::new(alloc)),
            Work::Touch(touch) => (no_nodes(alloc), Rights::none(), touch.into_answers()),
        }
    }

    /// The next step.
    pub(crate) fn step(&mut self, post: &mut Post, shared: &SharedWords)
        requires of { post.old.shared ≡ shared.now }
        requires work { (p : Piece) × (slice_get shared.now.opening.pieces post.old.number ≡ Some p) × IsWork shared.now.opening.words p self.old post.old.steps × (post.old.steps < step_count shared.now.opening.words p) }
        ensures post { post.new ≡ record post.old { steps = post.old.steps + 1 } }
        ensures work { (p : Piece) → IsWork shared.now.opening.words p self.old post.old.steps → IsWork shared.now.opening.words p self.new (post.old.steps + 1) }
    {
        match self {
            Work::Strip(strip) => strip.step(post, shared),
            Work::Link(link, hint) => link_work::step(link, *hint, post, shared),
            Work::Move(pairs, hint) => move_work::step(pairs, *hint, post, shared),
            Work::Touch(touch) => touch.step(post, shared),
        }
    }

    /// All steps that are left, of a piece of many like steps in one loop.
    pub(crate) fn step_to_end(&mut self, post: &mut Post, shared: &SharedWords)
        requires of { post.old.shared ≡ shared.now }
        requires work { (p : Piece) × (slice_get shared.now.opening.pieces post.old.number ≡ Some p) × IsWork shared.now.opening.words p self.old post.old.steps × (post.old.steps ≤ step_count shared.now.opening.words p) }
        ensures post { (p : Piece) → IsWork shared.now.opening.words p self.old post.old.steps → post.new ≡ record post.old { steps = step_count shared.now.opening.words p } }
        ensures work { (p : Piece) → IsWork shared.now.opening.words p self.old post.old.steps → IsWork shared.now.opening.words p self.new post.new.steps }
    {
        if let Work::Strip(strip) = self {
            strip.step_to_end(post, shared);
            return;
        }
        while !self.has_ended(post.steps()) {
            self.step(post, shared);
        }
    }
}

/// No nodes.
fn no_nodes(alloc: Global) -> Slice
    ensures { result.nodes.items ≡ [] }
{
    Slice {
        nodes: Vec::new(alloc),
    }
}
