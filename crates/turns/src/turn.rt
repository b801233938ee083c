//! A turn works one piece, step by step.

use crate::open::Open;
use crate::post::Post;
use crate::receipt::Receipt;
use crate::shared_words::{Seat, SharedWords};
use crate::work::Work;
use pieces::{Done, Piece};
use std::alloc::{AllocError, Global};
use std::marker::Model;
use std::snapshot::Snapshot;

/// Whether a turn has steps left.
#[derive(Clone, Copy, Debug, PartialEq, Eq)]
pub enum Progress {
    /// It has.
    More,
    /// It has none.
    Ended,
}

/// Works one piece of a phase, one atomic operation a step. It moves between threads, and steps beside the other turns of its
/// phase. It cannot be cloned.
#[derive(Drop)]
pub struct Turn {
    /// Boxed, since turns are moved from list to list.
    job: Box<Job>,
}

/// A piece at work, and the seat that makes its steps.
#[derive(Drop)]
struct Job {
    post: Post,
    work: Work,
    of: Snapshot<Piece>,
}

impl Model for Turn {
    ghost use Rattle.turns.specs.Posts.{PostContent};

    ghost Value = { PostContent };

    ghost use Rattle.turns.specs.Turns.{IsTurn};

    ghost view = { λ t. t.job.value.post };

    ghost invariant = { λ t. IsTurn t.job.value.post t.job.value.work t.job.value.of.value };
}

impl Turn {
    ghost use Rattle.std.specs.Prelude.{◌≡◌, ◌+◌, ◌<◌, ◌≤◌, ◌==◌, [], ◌∷◌, Some, length, slice_get, IfOk};
    ghost use Rattle.std.specs.Option.{option_to_list};
    ghost use Rattle.turns.specs.SharedWords.{IsSeat};
    ghost use Rattle.turns.specs.declared.turn.Progress.TheVariants.{More};
    ghost use Rattle.turns.specs.Turns.{steps_to_do, progress_of, done_of};
    ghost use Rattle.turns.specs.Watching.{receipt_of};

    /// The turn of a piece of which no step was done.
    pub(crate) fn new(
        alloc: Global,
        shared: &SharedWords,
        seat: Seat,
        number: usize,
        piece: Piece,
        hint: usize,
    ) -> Result<Turn, AllocError>
        requires seat { IsSeat shared.now seat.table_id seat.me }
        requires first { seat.me.0.counts ≡ (number, 0) ∷ [] }
        requires piece { slice_get shared.now.opening.pieces number ≡ Some piece }
        ensures { IfOk result (λ t. t ≡ record { shared = shared.now; number = number; steps = 0 }) }
    {
        let of = Snapshot::of(&piece);
        let work = Work::new(alloc, piece, hint)?;
        let post = Post::new(shared, seat, number);
        let job = Box::new(alloc, Job { post, work, of })?;
        Ok(Turn { job })
    }

    /// Makes the next step of its piece: one atomic operation on one shared word, whatever the other turns do meanwhile. Where it
    /// has ended, nothing is done.
    ///
    /// It is a turn of this phase. It takes no memory, and waits for nobody.
    pub fn step(&mut self, shared: &Open) -> Progress
        requires of { self.old.shared ≡ shared.now }
        ensures same { (self.new.shared ≡ self.old.shared) × (self.new.number ≡ self.old.number) }
        ensures made { self.old.steps < steps_to_do self.old → self.new ≡ record self.old { steps = self.old.steps + 1 } }
        ensures still { steps_to_do self.old ≤ self.old.steps → self.new ≡ self.old }
        ensures progress { result ≡ progress_of self.new }
        ensures more { result ≡ More → self.new.steps < steps_to_do self.new }
    {
        if !self.has_ended() {
            let job = self.job.as_mut();
            job.work.step(&mut job.post, shared.shared_words());
        }
        if self.has_ended() {
            Progress::Ended
        } else {
            Progress::More
        }
    }

    /// Makes all steps that its piece has left.
    ///
    /// It is a turn of this phase. It takes no memory, and waits for nobody.
    pub fn step_to_end(&mut self, shared: &Open)
        requires of { self.old.shared ≡ shared.now }
        ensures same { (self.new.shared ≡ self.old.shared) × (self.new.number ≡ self.old.number) }
        ensures ended { self.new.steps ≡ steps_to_do self.new }
    {
        let job = self.job.as_mut();
        job.work.step_to_end(&mut job.post, shared.shared_words());
    }

    /// A receipt for its piece, if all steps were done.
    ///
    /// It is a turn of this phase. It takes no memory, and waits for nobody.
    pub fn receipt(&mut self, shared: &Open) -> Option<Receipt>
        requires of { self.old.shared ≡ shared.now }
        ensures same { self.new ≡ self.old }
        ensures receipt { result ≡ receipt_of self.old }
    {
        if !self.has_ended() {
            return None;
        }
        let shared = shared.shared_words();
        let post = &mut self.job.post;
        let seat = post.tell(shared);
        Some(Receipt::new(shared, seat, post.number()))
    }

    /// Gives up its seat, and what its piece found out, if all steps were done.
    pub(crate) fn end(self, alloc: Global, shared: &SharedWords) -> (Seat, Option<Done>)
        requires of { self.shared ≡ shared.now }
        ensures seat { IsSeat shared.now result.0.table_id result.0.me × (result.0.me.0.counts ≡ (self.number, self.steps) ∷ []) }
        ensures below { self.number < length shared.now.opening.pieces }
        ensures done { option_to_list result.1 ≡ done_of self }
    {
        let ended = self.has_ended();
        let number = self.piece();
        let Job { post, work, of } = Box::into_inner(self.job);
        let seat = post.into_seat();
        if !ended {
            return (seat, None);
        }
        let (kept, status, answers) = work.into_found(alloc);
        let done = Done::new(number, kept, status, answers, of, shared.opening());
        (seat, Some(done))
    }

    /// Whether all steps of its piece were done.
    fn has_ended(&self) -> bool
        ensures { result ≡ (self.now.steps == steps_to_do self.now) }
    {
        self.job.work.has_ended(self.job.post.steps())
    }

    /// The number of its piece.
    pub fn piece(&self) -> usize
        ensures number { result ≡ self.now.number }
        ensures below { self.now.number < length self.now.shared.opening.pieces }
    {
        self.job.post.number()
    }

    /// How many steps of its piece were done.
    pub fn steps(&self) -> usize
        ensures { result ≡ self.now.steps }
    {
        self.job.post.steps()
    }
}
