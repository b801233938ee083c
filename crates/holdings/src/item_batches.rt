//! The pieces of the pages of an item, planned in batches of pages, side by side.

ghost use Rattle.std.specs.Prelude.{IfOk, IsFalse};
ghost use Rattle.std.specs.List.{All};
ghost use Rattle.space.specs.Shards.{IsPlace, is_taken};
ghost use Rattle.holdings.specs.Inner.Words.{IsThere};
ghost use Rattle.holdings.specs.Inner.Phases.{AreItemPieces, AreItemsApart, CanBeBatched, batch_of};

use crate::batches::planners_for;
use crate::map_in_pieces::link_pieces;
use crate::moves_in_pieces::move_pieces;
use crate::plans::{all_pieces, batch_of};
use crate::transfer::Transfer;
use crew::{Planned, Workers};
use fpage::Rights;
use pieces::{Piece, StripPlan};
use space::{NoMemory, Place, Shards};
use std::alloc::Global;

/// How the pages of an item are passed on.
#[derive(Clone, Copy)]
pub enum Passing {
    /// They are mapped, with these rights at most.
    Mapped(Rights),
    /// They move.
    Moved,
}

/// Plans the pieces of the transfers whose source is held, in their order. Where they are many, the workers plan
/// batches of them side by side.
///
/// Refused, where memory is: `NoMemory`.
pub fn item_pieces<W: Workers>(
    alloc: Global,
    shards: &Shards,
    transfers: &[Transfer],
    passing: Passing,
    workers: &W,
) -> Result<Vec<Piece>, NoMemory>
    requires present { IsFalse (is_taken shards.now) }
    requires places { All (λ t. IsPlace shards.now t.source × IsThere shards.now t.target) transfers.now }
    requires apart { AreItemsApart passing shards.now transfers.now }
    ensures { IfOk result (λ pieces. AreItemPieces passing shards.now transfers.now pieces.items) }
{
    let most = workers.piece_length();
    let planners = planners_for(transfers.len() / most, workers);
    let size = transfers.len().div_ceil(planners).max(1);
    let count = transfers.len().div_ceil(size);
    let batches = ItemBatches {
        alloc,
        shards,
        transfers,
        passing,
        most,
        size,
    };
    let plan = move |batch: usize| -> Planned
        requires { CanBeBatched batches.passing batches.shards.now batches.transfers.now batches.most }
        ensures { IfOk result (λ plan. AreItemPieces batches.entry.passing batches.entry.shards.now (batch_of batches.entry.size batches.entry.transfers.now batch) plan.pieces.items) }
    { batches.plan(batch) };
    let planned = workers.plan(alloc, count, &plan)?;
    all_pieces(alloc, planned)
}

/// Transfers of an item, in batches.
#[derive(Clone, Copy)]
pub struct ItemBatches<'a> {
    alloc: Global,
    shards: &'a Shards,
    transfers: &'a [Transfer],
    passing: Passing,
    /// The most stores or pairs that a piece is to have.
    most: usize,
    /// How many transfers a batch has; the last may have fewer.
    size: usize,
}

impl<'a> ItemBatches<'a> {
    ghost use Rattle.std.specs.Prelude.{IfOk};
    ghost use Rattle.holdings.specs.Inner.Phases.{AreItemPieces, CanBeBatched, batch_of};

    /// The pieces of a batch: a plan without frames.
    ///
    /// Refused, where memory is: `NoMemory`.
    fn plan(&self, batch: usize) -> Planned
        requires { CanBeBatched self.now.passing self.now.shards.now self.now.transfers.now self.now.most }
        ensures { IfOk result (λ plan. AreItemPieces self.now.passing self.now.shards.now (batch_of self.now.size self.now.transfers.now batch) plan.pieces.items) }
    {
        let transfers = batch_of(self.transfers, self.size, batch);
        let pieces = match self.passing {
            Passing::Mapped(rights) => {
                link_pieces(self.alloc, self.shards, transfers, rights, self.most)?
            }
            Passing::Moved => move_pieces(self.alloc, self.shards, transfers, self.most)?,
        };
        let frames = Vec::new(self.alloc);
        Ok(StripPlan { frames, pieces })
    }
}
