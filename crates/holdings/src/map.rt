//! The pages of a MapItem, after the flush: each is linked to its source, or extended.

ghost use Rattle.std.specs.Prelude.{◌≡◌, true, None, Some, IsFalse};
ghost use Rattle.space.specs.declared.place.Entry.{Entry};
ghost use Rattle.space.specs.Shards.{HasWord, IsPlace, entry_at, is_taken};
ghost use Rattle.holdings.specs.Inner.Links.{IsPageMapped};

use crate::holdings::Holdings;
use crate::link::link_all;
use crate::making::make_targets;
use crate::notes::Notes;
use crate::phase::is_small;
use crate::transfer::Transfer;
use crate::transfer_counts::TransferCounts;
use crew::{CrewError, Workers};
use fpage::{ItemKind, Rights};
use maptree::Tree;
use space::{Place, Shards};
use std::alloc::Global;

impl Holdings {
    ghost use Rattle.std.specs.Prelude.{IfOk, IsErrOf};
    ghost use Rattle.crew.specs.declared.error.CrewError.TheVariants.{NoWorker};
    ghost use Rattle.holdings.specs.Contents.{AreMapped};
    ghost use Rattle.holdings.specs.Noting.{NotesFollow};
    ghost use Rattle.holdings.specs.Sending.{ArePlanned, AreReady};

    /// Maps pages on: the target of each transfer becomes a new mapping of what its source holds, with these rights as far as
    /// the source has them; or the mapping there gains them. A transfer whose source is not held is lost. Notes the targets
    /// of the others, where notes are asked for.
    ///
    /// Refused, where memory or a worker is: `NoMemory`, `NoWorker`.
    pub fn map<W: Workers>(
        self,
        alloc: Global,
        transfers: &[Transfer],
        rights: Rights,
        notes: &mut Notes,
        workers: &W,
    ) -> Result<(Self, TransferCounts), CrewError>
        requires planned { ArePlanned self.limits transfers.now }
        requires ready { AreReady self.holdings rights transfers.now }
        ensures mapped { IfOk result (AreMapped self transfers.now rights) }
        ensures noted { IfOk result (λ r. NotesFollow self.holdings r.0.holdings notes.old notes.new) }
        ensures needs_no_worker { W.starts_none workers.now → IsErrOf result NoWorker → ⊥ }
    {
        self.note_transfers(transfers, ItemKind::Map, notes)?;
        if !is_small(transfers.len(), workers) {
            return self.map_in_pieces(alloc, transfers, rights, workers);
        }
        let Holdings {
            mut shards,
            mut trees,
        } = self;
        make_targets(&mut shards, transfers)?;
        let counts = link_all(&shards, &mut trees, transfers)?;
        for transfer in transfers {
            map_page(&mut shards, *transfer, rights);
        }
        Ok((Holdings { shards, trees }, counts))
    }
}

/// Works one page of a MapItem, whose new mapping stands in the tree already.
fn map_page(shards: &mut Shards, transfer: Transfer, rights: Rights)
    requires source { IsPlace shards.old transfer.source }
    requires target { IsPlace shards.old transfer.target }
    requires there { HasWord shards.old transfer.target }
    requires present { IsFalse (is_taken shards.old) }
    ensures lost { entry_at shards.old transfer.source ≡ None → shards.new ≡ shards.old }
    ensures mapped { (e : Entry) → entry_at shards.old transfer.source ≡ Some e → IsPageMapped shards.old shards.new rights transfer e }
{
    if transfer.extends {
        extend_page(shards, transfer, rights);
    } else {
        let _ = shards.put_mapped(transfer.source, transfer.target, rights);
    }
}

/// The same of a page whose target gains rights.
fn extend_page(shards: &mut Shards, transfer: Transfer, rights: Rights)
    requires source { IsPlace shards.old transfer.source }
    requires target { IsPlace shards.old transfer.target }
    requires present { IsFalse (is_taken shards.old) }
    requires extends { transfer.extends ≡ true }
    ensures lost { entry_at shards.old transfer.source ≡ None → shards.new ≡ shards.old }
    ensures mapped { (e : Entry) → entry_at shards.old transfer.source ≡ Some e → IsPageMapped shards.old shards.new rights transfer e }
{
    if let Some(source) = shards.get(transfer.source) {
        shards.extend(transfer.target, source.rights.meet(rights));
    }
}
