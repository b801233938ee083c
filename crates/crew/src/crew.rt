ghost use Rattle.std.specs.Prelude.{◌≡◌, ℕ, ◌<◌, ◌≤◌, min, length, slice_index_or, IfOk, OnOk};
ghost use Rattle.crew.specs.Changes.{MayChange, IsChanged};

use crate::change::change_together;
use crate::error::CrewError;
use crate::gate::{Gate, NoGate};
use crate::plan::plan_together;
use crate::shared::work;
use crate::workers::{Changed, Planned, Workers};
use maptree::Tree;
use pieces::{Done, Piece};
use std::alloc::{AllocError, Global};
use std::sync::Wait;
use std::thread::Threads;

/// Worker threads, who work the pieces of a phase beside one another.
#[derive(Drop)]
pub struct Crew<'a, R, G> {
    pub(crate) rt: &'a R,
    pub(crate) gate: &'a G,
    workers: usize,
    piece_length: usize,
    /// How many full pieces a phase must fill for them to share it.
    least: usize,
    ghost some: { 1 ≤ piece_length },
    ghost workers_some: { 1 ≤ workers },
    ghost workers_most: { workers ≤ 64 },
}

impl<'a, R: Threads + Wait, G: Gate> Crew<'a, R, G> {
    /// So many workers, at most 64, with the most nodes, stores, pairs or accesses of a piece. They share the words of every
    /// phase, and the gate will hear of each piece.
    pub fn new(rt: &'a R, workers: usize, piece_length: usize, gate: &'a G) -> Crew<'a, R, G>
        requires some { 1 ≤ workers }
        requires most { workers ≤ 64 }
        requires length { 1 ≤ piece_length }
        ensures workers { result.workers ≡ workers }
        ensures length { result.piece_length ≡ piece_length }
        ensures least { result.least ≡ 0 }
    {
        Crew {
            rt,
            gate,
            workers,
            piece_length,
            least: 0,
        }
    }

    /// The same crew, which leaves phases of fewer full pieces than this to the calling thread alone.
    pub fn alone_below(self, least: usize) -> Crew<'a, R, G>
        ensures workers { result.workers ≡ self.entry.workers }
        ensures length { result.piece_length ≡ self.entry.piece_length }
        ensures least { result.least ≡ least }
    {
        Crew {
            rt: self.rt,
            gate: self.gate,
            workers: self.workers,
            piece_length: self.piece_length,
            least,
        }
    }

    /// The most nodes, stores, pairs or accesses that a piece is to have.
    pub fn piece_length(&self) -> usize
        ensures is { result ≡ self.now.piece_length }
        ensures some { 1 ≤ result }
    {
        self.piece_length
    }

    /// How many full pieces a phase must fill for the workers to share it.
    pub fn shared_from(&self) -> usize
        ensures { result ≡ self.now.least }
    {
        self.least
    }

    /// How many of the workers work a phase of so many pieces: all, but at most one for each piece.
    pub fn workers_for(&self, pieces: usize) -> usize
        ensures count { result ≡ min self.now.workers pieces }
        ensures some { 1 ≤ pieces → 1 ≤ result }
        ensures most { result ≤ 64 }
    {
        self.workers.min(pieces)
    }

    /// How many of the workers plan a phase side by side: all.
    pub fn planners(&self) -> usize
        ensures { 1 ≤ result }
    {
        self.workers
    }

    /// Asks a function for the plan of each of so many parts of a phase, each but the first on a thread of its own, and
    /// returns what it answers, part after part. Where a thread is refused the calling thread plans the part.
    ///
    /// Refused, where memory is: `AllocError`.
    pub fn plan(
        &self,
        alloc: Global,
        parts: usize,
        plan: &(dyn Fn(usize) -> Planned + Sync),
    ) -> Result<Vec<Planned>, AllocError>
        requires each { (part : ℕ) → part < parts → pre plan.now part }
        ensures count { IfOk result (λ planned. length planned.items ≡ parts) }
        ensures each { IfOk result (λ planned. (part : ℕ) (d : _) → part < parts → post plan.now part (slice_index_or planned.items part d)) }
    {
        plan_together(self.rt, alloc, parts, plan)
    }

    /// Gives a function the parts of a list of trees, each but the first on a thread of its own, and with where it begins. The
    /// list is cut at the trees of these numbers, which should ascend: a part that would end before it begins is empty. Where a
    /// thread is refused the calling thread changes the part.
    ///
    /// Refused, where memory is for one of them: `NoMemory`. Then nothing is known of the trees.
    pub fn change(
        &self,
        trees: &mut [Tree],
        cuts: &[usize],
        change: &(dyn Fn(usize, &mut [Tree]) -> Changed + Sync),
    ) -> Changed
        requires may { MayChange (pre change.now) 0 trees.old }
        ensures { OnOk result (IsChanged (post change.now) 0 trees.old trees.new) }
    {
        change_together(self.rt, trees, cuts, change)
    }
}

/// A crew whose gate listens does the work for a type of its user's: an impl for every gate is refused (docs/DECISIONS.md).
impl<'a, R: Threads + Wait> Workers for Crew<'a, R, NoGate> {
    ghost use Rattle.std.specs.Prelude.{◌≤◌};

    ghost starts_none = { λ crew. crew.workers ≤ 1 };

    ghost length_of = { λ crew. crew.piece_length };

    ghost least_of = { λ crew. crew.least };

    fn piece_length(&self) -> usize {
        self.piece_length
    }

    fn shared_from(&self) -> usize {
        self.least
    }

    fn planners(&self) -> usize {
        self.planners()
    }

    fn plan(
        &self,
        alloc: Global,
        parts: usize,
        plan: &(dyn Fn(usize) -> Planned + Sync),
    ) -> Result<Vec<Planned>, AllocError> {
        self.plan(alloc, parts, plan)
    }

    fn change(
        &self,
        trees: &mut [Tree],
        cuts: &[usize],
        change: &(dyn Fn(usize, &mut [Tree]) -> Changed + Sync),
    ) -> Changed {
        self.change(trees, cuts, change)
    }

    fn work(
        &self,
        alloc: Global,
        words: Vec<u64>,
        pieces: Vec<Piece>,
    ) -> Result<(Vec<u64>, Vec<Done>), CrewError> {
        work(self, alloc, words, pieces)
    }
}
