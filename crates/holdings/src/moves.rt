//! Pages that move to other places, with all that derives from them.

ghost use Rattle.std.specs.Prelude.{◌≡◌, None, Some, false, IsFalse};
ghost use Rattle.space.specs.declared.place.Entry.{Entry};
ghost use Rattle.space.specs.Place.{same_place};
ghost use Rattle.space.specs.Shards.{HasWord, IsPlace, entry_at, is_taken};
ghost use Rattle.holdings.specs.Inner.Renamings.{IsPageMoved};

use crate::holdings::Holdings;
use crate::making::make_targets;
use crate::notes::Notes;
use crate::phase::is_small;
use crate::renaming::rename_all;
use crate::transfer::Transfer;
use crate::transfer_counts::TransferCounts;
use crew::{Alone, CrewError, Workers};
use fpage::{ItemKind, Rights};
use maptree::Tree;
use space::{Place, Shards};
use std::alloc::Global;

impl Holdings {
    ghost use Rattle.std.specs.Prelude.{IfOk, IsErrOf};
    ghost use Rattle.crew.specs.declared.error.CrewError.TheVariants.{NoWorker};
    ghost use Rattle.holdings.specs.Contents.{AreMoved};
    ghost use Rattle.holdings.specs.Noting.{NotesFollow};
    ghost use Rattle.holdings.specs.Sending.{ArePlanned, AllGo, AreFree};

    /// Moves pages: what the source of each transfer holds stands at its target instead, without status, and what derives
    /// from the source derives from the target. A transfer whose source is not held is lost. Notes the sources and targets
    /// of the others, where notes are asked for.
    ///
    /// Refused, where memory or a worker is: `NoMemory`, `NoWorker`.
    pub fn rename<W: Workers>(
        self,
        alloc: Global,
        transfers: &[Transfer],
        notes: &mut Notes,
        workers: &W,
    ) -> Result<(Self, TransferCounts), CrewError>
        requires planned { ArePlanned self.limits transfers.now }
        requires all_go { AllGo transfers.now }
        requires free { AreFree self.holdings transfers.now }
        ensures moved { IfOk result (AreMoved self transfers.now) }
        ensures noted { IfOk result (λ r. NotesFollow self.holdings r.0.holdings notes.old notes.new) }
        ensures needs_no_worker { W.starts_none workers.now → IsErrOf result NoWorker → ⊥ }
    {
        self.note_transfers(transfers, ItemKind::Grant, notes)?;
        if !is_small(transfers.len(), workers) {
            return self.rename_in_pieces(alloc, transfers, workers);
        }
        let Holdings {
            mut shards,
            mut trees,
        } = self;
        make_targets(&mut shards, transfers)?;
        let counts = rename_all(alloc, &shards, &mut trees, transfers, &Alone)?;
        for transfer in transfers {
            move_page(&mut shards, transfer.source, transfer.target);
        }
        Ok((Holdings { shards, trees }, counts))
    }
}

/// Moves what a page holds, without its status, to the target, which stands in its place in the tree already.
fn move_page(shards: &mut Shards, source: Place, target: Place)
    requires source { IsPlace shards.old source }
    requires target { IsPlace shards.old target }
    requires there { HasWord shards.old target }
    requires apart { same_place source target ≡ false }
    requires present { IsFalse (is_taken shards.old) }
    ensures lost { entry_at shards.old source ≡ None → shards.new ≡ shards.old }
    ensures moved { (e : Entry) → entry_at shards.old source ≡ Some e → IsPageMoved shards.old shards.new source target e }
{
    // With all rights let through it is as a mapping of the source, which has no status.
    if !shards.put_mapped(source, target, Rights::all()) {
        return;
    }
    shards.set(source, None);
}
