//! The pieces of accesses, planned in batches, side by side.

ghost use Rattle.std.specs.Prelude.{◌≤◌, IfOk};
ghost use Rattle.std.specs.List.{All};
ghost use Rattle.space.specs.Shards.{IsPlace};
ghost use Rattle.pieces.specs.declared.piece.Piece.TheVariants as variant;
ghost use Rattle.holdings.specs.Inner.Faults.{word_accesses};
ghost use Rattle.holdings.specs.Inner.Phases.{ArePieces, batch_of};

use crate::access::word_accesses;
use crate::batches::planners_for;
use crate::plans::{all_pieces, batch_of};
use crew::{Planned, Workers};
use fpage::Access;
use pieces::{Piece, StripPlan, touches};
use space::{NoMemory, Place, Shards};
use std::alloc::Global;

/// Plans the pieces of those accesses whose shards are there, in their order. Where they are many, the workers plan batches
/// of them side by side.
///
/// Refused, where memory is: `NoMemory`.
pub fn access_pieces<W: Workers>(
    alloc: Global,
    shards: &Shards,
    accesses: &[(Place, Access)],
    workers: &W,
) -> Result<Vec<Piece>, NoMemory>
    requires { All (λ access. IsPlace shards.now access.0) accesses.now }
    ensures { IfOk result (λ pieces. ArePieces variant.Touch (word_accesses shards.now accesses.now) pieces.items) }
{
    let most = workers.piece_length();
    let planners = planners_for(accesses.len() / most, workers);
    let size = accesses.len().div_ceil(planners).max(1);
    let count = accesses.len().div_ceil(size);
    let batches = AccessBatches {
        alloc,
        shards,
        accesses,
        most,
        size,
    };
    let plan = move |batch: usize| -> Planned
        requires { All (λ access. IsPlace batches.shards.now access.0) batches.accesses.now × (1 ≤ batches.most) }
        ensures { IfOk result (λ plan. ArePieces variant.Touch (word_accesses batches.entry.shards.now (batch_of batches.entry.size batches.entry.accesses.now batch)) plan.pieces.items) }
    { batches.plan(batch) };
    let planned = workers.plan(alloc, count, &plan)?;
    all_pieces(alloc, planned)
}

/// Accesses, in batches.
#[derive(Clone, Copy)]
pub struct AccessBatches<'a> {
    alloc: Global,
    shards: &'a Shards,
    accesses: &'a [(Place, Access)],
    /// The most accesses that a piece is to have.
    most: usize,
    /// How many accesses a batch has; the last may have fewer.
    size: usize,
}

impl<'a> AccessBatches<'a> {
    ghost use Rattle.std.specs.Prelude.{◌≤◌, IfOk};
    ghost use Rattle.std.specs.List.{All};
    ghost use Rattle.space.specs.Shards.{IsPlace};
    ghost use Rattle.pieces.specs.declared.piece.Piece.TheVariants as variant;
    ghost use Rattle.holdings.specs.Inner.Faults.{word_accesses};
    ghost use Rattle.holdings.specs.Inner.Phases.{ArePieces, batch_of};

    /// The pieces of a batch: a plan without frames.
    ///
    /// Refused, where memory is: `NoMemory`.
    fn plan(&self, batch: usize) -> Planned
        requires places { All (λ access. IsPlace self.now.shards.now access.0) self.now.accesses.now }
        requires most { 1 ≤ self.now.most }
        ensures { IfOk result (λ plan. ArePieces variant.Touch (word_accesses self.now.shards.now (batch_of self.now.size self.now.accesses.now batch)) plan.pieces.items) }
    {
        let accesses = batch_of(self.accesses, self.size, batch);
        let list = word_accesses(self.alloc, self.shards, accesses)?;
        let pieces = touches(self.alloc, list, self.most)?;
        let frames = Vec::new(self.alloc);
        Ok(StripPlan { frames, pieces })
    }
}
