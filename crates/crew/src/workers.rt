ghost use Rattle.std.specs.Prelude.{◌≡◌};

use crate::error::CrewError;
use maptree::Tree;
use pieces::{Done, Piece, StripPlan};
use space::NoMemory;
use std::alloc::{AllocError, Global};

/// What comes of planning a part of a phase: its plan, or that memory was refused.
pub type Planned = Result<StripPlan, NoMemory>;

/// What comes of changing a part of a list of trees: it is changed, or memory was refused.
pub type Changed = Result<(), NoMemory>;

/// Who works the pieces of a phase: a `Crew`, or the calling thread, `Alone`.
pub trait Workers {
    ghost use Rattle.std.specs.Prelude.{◌≡◌, ℕ, ◌<◌, ◌≤◌, length, slice_index_or, IfOk, OnOk, IsErrOf};
    ghost use Rattle.pieces.specs.Phases.{CanBeWorked};
    ghost use Rattle.crew.specs.Changes.{MayChange, IsChanged};
    ghost use Rattle.crew.specs.Worked.{IsWorked};
    ghost use Rattle.crew.specs.declared.error.CrewError.TheVariants.{NoWorker};

    /// That they start no thread to work pieces.
    ghost starts_none: { Self → Type 0 };

    /// The most nodes, stores, pairs or accesses that a piece of theirs is to have.
    ghost length_of: { Self → ℕ };

    /// How many full pieces a phase must fill for them to share it.
    ghost least_of: { Self → ℕ };

    /// The most nodes, stores, pairs or accesses that a piece is to have.
    fn piece_length(&self) -> usize
        ensures own { result ≡ Self.length_of self.now }
        ensures some { 1 ≤ result };

    /// How many full pieces a phase must fill for its pieces to be worked by `work`. Where it fills fewer, the calling thread
    /// works it alone, in place, and tells nobody; with 0 it never does.
    fn shared_from(&self) -> usize
        ensures { result ≡ Self.least_of self.now };

    /// In how many parts the plan of a phase is made side by side, if it is large.
    fn planners(&self) -> usize
        ensures { 1 ≤ result };

    /// Asks a function for the plan of each of so many parts of a phase, side by side, and returns what it answers, part
    /// after part. Where a thread is refused the calling thread plans the part.
    ///
    /// Refused, where memory is: `AllocError`.
    fn plan(
        &self,
        alloc: Global,
        parts: usize,
        plan: &(dyn Fn(usize) -> Planned + Sync),
    ) -> Result<Vec<Planned>, AllocError>
        requires each { (part : ℕ) → part < parts → pre plan.now part }
        ensures count { IfOk result (λ planned. length planned.items ≡ parts) }
        ensures each { IfOk result (λ planned. (part : ℕ) (d : _) → part < parts → post plan.now part (slice_index_or planned.items part d)) };

    /// Gives a function the parts of a list of trees, side by side, each with where it begins. The list is cut at the trees of
    /// these numbers, which should ascend: a part that would end before it begins is empty. Where the list is cut decides no
    /// more than who changes which tree. Where a thread is refused the calling thread changes the part.
    ///
    /// Refused, where memory is for one of them: `NoMemory`. Then nothing is known of the trees.
    fn change(
        &self,
        trees: &mut [Tree],
        cuts: &[usize],
        change: &(dyn Fn(usize, &mut [Tree]) -> Changed + Sync),
    ) -> Changed
        requires may { MayChange (pre change.now) 0 trees.old }
        ensures { OnOk result (IsChanged (post change.now) 0 trees.old trees.new) };

    /// Works all pieces of a phase, and returns the words as they leave them and what each piece found out. The pieces are
    /// numbered from 0, in the order in which they are given.
    ///
    /// Refused: `NoMemory`; `NoWorker`, where a thread could not be started. Then what was given is gone.
    fn work(
        &self,
        alloc: Global,
        words: Vec<u64>,
        pieces: Vec<Piece>,
    ) -> Result<(Vec<u64>, Vec<Done>), CrewError>
        requires some { 0 < length pieces.items }
        requires can { CanBeWorked words.items pieces.items }
        ensures worked { IfOk result (λ r. IsWorked words.items pieces.items r.0.items r.1.items) }
        ensures needs_no_worker { Self.starts_none self.now → IsErrOf result NoWorker → ⊥ };
}

/// The calling thread works alone: it starts no thread and waits for none.
#[derive(Clone, Copy, Debug, PartialEq, Eq)]
pub struct Alone;
