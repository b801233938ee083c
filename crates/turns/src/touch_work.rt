//! A touch at work.

use crate::post::Post;
use crate::shared_words::SharedWords;
use pieces::Touch;
use pieces::steps::{bits, permits};
use std::alloc::{AllocError, Global};

/// A touch, some of whose steps were done.
#[derive(Drop)]
pub(crate) struct TouchWork {
    touch: Touch,
    /// For each access that was seen whether it may be made; `false` for the others.
    answers: Vec<bool>,
    /// How many accesses were seen.
    seen: usize,
    /// Whether the last that was seen is to be marked.
    marks: bool,
}

impl TouchWork {
    ghost use Rattle.std.specs.Prelude.{◌≡◌, ℕ, List, ◌+◌, ◌<◌, ◌==◌, true, false, Some, length, map, slice_get, IfOk};
    ghost use Rattle.pieces.specs.Steps.{steps, may_access};
    ghost use Rattle.pieces.specs.declared.piece.Piece.TheVariants as piece;
    ghost use Rattle.turns.specs.Works.{IsTouchWork, step_count};

    /// A touch of which no step was done.
    pub(crate) fn new(alloc: Global, touch: Touch) -> Result<TouchWork, AllocError>
        ensures of { IfOk result (λ r. r.touch ≡ touch) }
        ensures work { IfOk result (λ r. (w : List ℕ) → IsTouchWork w r 0) }
    {
        let answers = vec![in alloc; false; touch.len()]?;
        Ok(TouchWork {
            touch,
            answers,
            seen: 0,
            marks: false,
        })
    }

    /// Whether all its steps were done.
    pub(crate) fn is_done(&self) -> bool
        ensures { (w : List ℕ) (k : ℕ) → IsTouchWork w self.now k → result ≡ (k == length (steps w (piece.Touch self.now.touch))) }
    {
        !self.marks && self.seen == self.touch.len()
    }

    /// What it found out, when all its steps were done: for each access whether it may be made.
    pub(crate) fn into_answers(self) -> Vec<bool>
        ensures { (w : List ℕ) → IsTouchWork w self (step_count w (piece.Touch self.touch)) → result.items ≡ map (may_access w) self.touch }
    {
        let TouchWork {
            touch: _,
            answers,
            seen: _,
            marks: _,
        } = self;
        answers
    }

    /// The next step: it is found out whether an access may be made; if it may, its status is marked by the step behind.
    pub(crate) fn step(&mut self, post: &mut Post, shared: &SharedWords)
        requires of { post.old.shared ≡ shared.now }
        requires piece { slice_get shared.now.opening.pieces post.old.number ≡ Some (piece.Touch self.old.touch) }
        requires work { IsTouchWork shared.now.opening.words self.old post.old.steps }
        requires left { post.old.steps < length (steps shared.now.opening.words (piece.Touch self.old.touch)) }
        ensures post { post.new ≡ record post.old { steps = post.old.steps + 1 } }
        ensures of { self.new.touch ≡ self.old.touch }
        ensures work { IsTouchWork shared.now.opening.words self.new (post.old.steps + 1) }
    {
        if self.marks {
            self.mark(post, shared);
        } else if self.seen < self.touch.len() {
            self.see(post, shared);
        }
    }

    /// The step that marks the status of the access that was seen last.
    fn mark(&mut self, post: &mut Post, shared: &SharedWords)
        requires of { post.old.shared ≡ shared.now }
        requires piece { slice_get shared.now.opening.pieces post.old.number ≡ Some (piece.Touch self.old.touch) }
        requires work { IsTouchWork shared.now.opening.words self.old post.old.steps }
        requires marks { self.old.marks ≡ true }
        ensures post { post.new ≡ record post.old { steps = post.old.steps + 1 } }
        ensures of { self.new.touch ≡ self.old.touch }
        ensures work { IsTouchWork shared.now.opening.words self.new (post.old.steps + 1) }
    {
        shared.learn_can_be_worked();
        let access = self.touch.access(self.seen - 1);
        post.add(shared, access.index, bits(access.access.marks()), 0);
        self.marks = false;
    }

    /// The step that finds out whether the next access may be made.
    fn see(&mut self, post: &mut Post, shared: &SharedWords)
        requires of { post.old.shared ≡ shared.now }
        requires piece { slice_get shared.now.opening.pieces post.old.number ≡ Some (piece.Touch self.old.touch) }
        requires work { IsTouchWork shared.now.opening.words self.old post.old.steps }
        requires marks { self.old.marks ≡ false }
        requires left { self.old.seen < length self.old.touch }
        ensures post { post.new ≡ record post.old { steps = post.old.steps + 1 } }
        ensures of { self.new.touch ≡ self.old.touch }
        ensures work { IsTouchWork shared.now.opening.words self.new (post.old.steps + 1) }
    {
        shared.learn_can_be_worked();
        let access = self.touch.access(self.seen);
        let found = post.look(shared, access.index, 0);
        let may = permits(found, access.access);
        self.answers[self.seen] = may;
        self.seen += 1;
        self.marks = may;
    }
}
