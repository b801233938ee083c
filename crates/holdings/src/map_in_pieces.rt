//! The pages of a MapItem, worked as one phase by pieces.

ghost use Rattle.std.specs.Prelude.{◌≡◌, ◌≤◌, true, IfOk, IsFalse};
ghost use Rattle.std.specs.List.{All};
ghost use Rattle.space.specs.Shards.{IsPlace, is_taken};
ghost use Rattle.holdings.specs.Inner.Words.{IsThere};
ghost use Rattle.pieces.specs.Contents.{puts_of};
ghost use Rattle.pieces.specs.Distinct.{are_distinct};
ghost use Rattle.pieces.specs.declared.piece.Piece.TheVariants as variant;
ghost use Rattle.holdings.specs.Inner.Phases.{ArePieces};
ghost use Rattle.holdings.specs.Inner.Planning.{stores_of};

use crate::holdings::Holdings;
use crate::item_batches::{Passing, item_pieces};
use crate::link::link_together;
use crate::making::make_targets;
use crate::transfer::Transfer;
use crate::transfer_counts::TransferCounts;
use crate::writes::write_phase;
use crew::{CrewError, Workers};
use fpage::Rights;
use maptree::Tree;
use pieces::{Piece, Store, links};
use space::{NoMemory, Place, Shards};
use std::alloc::{AllocError, Global};

impl Holdings {
    ghost use Rattle.std.specs.Prelude.{IfOk, IsErrOf};
    ghost use Rattle.crew.specs.declared.error.CrewError.TheVariants.{NoWorker};
    ghost use Rattle.holdings.specs.Contents.{AreMapped};
    ghost use Rattle.holdings.specs.Sending.{ArePlanned, AreReady};

    /// The same as `map`, by pieces.
    ///
    /// Refused, where memory or a worker is: `NoMemory`, `NoWorker`.
    pub(crate) fn map_in_pieces<W: Workers>(
        self,
        alloc: Global,
        transfers: &[Transfer],
        rights: Rights,
        workers: &W,
    ) -> Result<(Self, TransferCounts), CrewError>
        requires planned { ArePlanned self.limits transfers.now }
        requires ready { AreReady self.holdings rights transfers.now }
        ensures mapped { IfOk result (AreMapped self transfers.now rights) }
        ensures needs_no_worker { W.starts_none workers.now → IsErrOf result NoWorker → ⊥ }
    {
        let Holdings {
            mut shards,
            mut trees,
        } = self;
        make_targets(&mut shards, transfers)?;
        let passing = Passing::Mapped(rights);
        let pieces = item_pieces(alloc, &shards, transfers, passing, workers)?;
        let counts = link_together(alloc, &shards, &mut trees, transfers, workers)?;
        write_phase(alloc, &mut shards, pieces, workers)?;
        Ok((Holdings { shards, trees }, counts))
    }
}

/// The pieces of the transfers whose source is held, in their order: of so many transfers each, so that no list of all
/// stores is made.
///
/// Refused, where memory is: `NoMemory`.
pub fn link_pieces(
    alloc: Global,
    shards: &Shards,
    transfers: &[Transfer],
    rights: Rights,
    most: usize,
) -> Result<Vec<Piece>, NoMemory>
    requires present { IsFalse (is_taken shards.now) }
    requires places { All (λ t. IsPlace shards.now t.source × IsThere shards.now t.target) transfers.now }
    requires most { 1 ≤ most }
    requires distinct { are_distinct (puts_of (stores_of shards.now rights transfers.now)) ≡ true }
    ensures { IfOk result (λ pieces. ArePieces variant.Link (stores_of shards.now rights transfers.now) pieces.items) }
{
    let mut pieces = Vec::with_capacity(alloc, transfers.len().div_ceil(most))?;
    let mut rest = transfers;
    while !rest.is_empty() {
        let (first, others) = rest.split_at(most.min(rest.len()));
        let stores = stores(alloc, shards, first, rights)?;
        let mut its_pieces = links(alloc, stores, most)?;
        pieces.append(&mut its_pieces)?;
        rest = others;
    }
    Ok(pieces)
}

/// The stores of the transfers whose source is held, by the words of their pages.
fn stores(
    alloc: Global,
    shards: &Shards,
    transfers: &[Transfer],
    rights: Rights,
) -> Result<Vec<Store>, AllocError>
    requires present { IsFalse (is_taken shards.now) }
    requires places { All (λ t. IsPlace shards.now t.source × IsThere shards.now t.target) transfers.now }
    ensures { IfOk result (λ stores. stores.items ≡ stores_of shards.now rights transfers.now) }
{
    let mut stores = Vec::with_capacity(alloc, transfers.len())?;
    for transfer in transfers {
        if let Some(read) = shards.held_index(transfer.source) {
            let put = shards.index(transfer.target);
            stores.push(Store { read, put, rights })?;
        }
    }
    Ok(stores)
}
