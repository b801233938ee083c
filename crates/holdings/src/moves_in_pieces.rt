//! Pages that move to other places, moved as one phase by pieces.

ghost use Rattle.std.specs.Prelude.{◌≡◌, ◌≤◌, true, IfOk, IsFalse};
ghost use Rattle.std.specs.List.{All};
ghost use Rattle.space.specs.Shards.{IsPlace, is_taken};
ghost use Rattle.holdings.specs.Inner.Words.{IsThere};
ghost use Rattle.pieces.specs.Contents.{ends_of};
ghost use Rattle.pieces.specs.Distinct.{are_distinct};
ghost use Rattle.pieces.specs.declared.piece.Piece.TheVariants as variant;
ghost use Rattle.holdings.specs.Inner.Phases.{ArePieces};
ghost use Rattle.holdings.specs.Inner.Planning.{word_pairs};

use crate::holdings::Holdings;
use crate::item_batches::{Passing, item_pieces};
use crate::making::make_targets;
use crate::renaming::rename_all;
use crate::transfer::Transfer;
use crate::transfer_counts::TransferCounts;
use crate::writes::write_phase;
use crew::{CrewError, Workers};
use maptree::Tree;
use pieces::{Pair, Piece, moves};
use space::{NoMemory, Place, Shards};
use std::alloc::{AllocError, Global};

impl Holdings {
    ghost use Rattle.std.specs.Prelude.{IfOk, IsErrOf};
    ghost use Rattle.crew.specs.declared.error.CrewError.TheVariants.{NoWorker};
    ghost use Rattle.holdings.specs.Contents.{AreMoved};
    ghost use Rattle.holdings.specs.Sending.{ArePlanned, AllGo, AreFree};

    /// The same as `rename`, by pieces.
    ///
    /// Refused, where memory or a worker is: `NoMemory`, `NoWorker`.
    pub(crate) fn rename_in_pieces<W: Workers>(
        self,
        alloc: Global,
        transfers: &[Transfer],
        workers: &W,
    ) -> Result<(Self, TransferCounts), CrewError>
        requires planned { ArePlanned self.limits transfers.now }
        requires all_go { AllGo transfers.now }
        requires free { AreFree self.holdings transfers.now }
        ensures moved { IfOk result (AreMoved self transfers.now) }
        ensures needs_no_worker { W.starts_none workers.now → IsErrOf result NoWorker → ⊥ }
    {
        let Holdings {
            mut shards,
            mut trees,
        } = self;
        make_targets(&mut shards, transfers)?;
        let pieces = item_pieces(alloc, &shards, transfers, Passing::Moved, workers)?;
        let counts = rename_all(alloc, &shards, &mut trees, transfers, workers)?;
        write_phase(alloc, &mut shards, pieces, workers)?;
        Ok((Holdings { shards, trees }, counts))
    }
}

/// The pieces of the transfers whose source is held, in their order: of so many transfers each, so that no list of all
/// pairs is made.
///
/// Refused, where memory is: `NoMemory`.
pub fn move_pieces(
    alloc: Global,
    shards: &Shards,
    transfers: &[Transfer],
    most: usize,
) -> Result<Vec<Piece>, NoMemory>
    requires present { IsFalse (is_taken shards.now) }
    requires places { All (λ t. IsPlace shards.now t.source × IsThere shards.now t.target) transfers.now }
    requires most { 1 ≤ most }
    requires distinct { are_distinct (ends_of (word_pairs shards.now transfers.now)) ≡ true }
    ensures { IfOk result (λ pieces. ArePieces variant.Move (word_pairs shards.now transfers.now) pieces.items) }
{
    let mut pieces = Vec::with_capacity(alloc, transfers.len().div_ceil(most))?;
    let mut rest = transfers;
    while !rest.is_empty() {
        let (first, others) = rest.split_at(most.min(rest.len()));
        let pairs = pairs(alloc, shards, first)?;
        let mut its_pieces = moves(alloc, pairs, most)?;
        pieces.append(&mut its_pieces)?;
        rest = others;
    }
    Ok(pieces)
}

/// The transfers whose source is held, by the words of their pages.
fn pairs(alloc: Global, shards: &Shards, transfers: &[Transfer]) -> Result<Vec<Pair>, AllocError>
    requires present { IsFalse (is_taken shards.now) }
    requires places { All (λ t. IsPlace shards.now t.source × IsThere shards.now t.target) transfers.now }
    ensures { IfOk result (λ pairs. pairs.items ≡ word_pairs shards.now transfers.now) }
{
    let mut pairs = Vec::with_capacity(alloc, transfers.len())?;
    for transfer in transfers {
        if let Some(taken) = shards.held_index(transfer.source) {
            let put = shards.index(transfer.target);
            pairs.push(Pair { taken, put })?;
        }
    }
    Ok(pairs)
}
