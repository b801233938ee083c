ghost use Rattle.std.specs.Prelude.{◌≡◌, ◌+◌, ◌^◌, ◌<◌, IsFalse};
ghost use Rattle.std.specs.List.{All};
ghost use Rattle.space.specs.Shards.{IsPlace, is_taken};
ghost use Rattle.model.specs.Definitions.Items.{no_counts, add_counts};
ghost use Rattle.model.specs.Laws.SendLaws.{total};
ghost use Rattle.holdings.specs.Inner.Planning.{count_in, counts_in};
ghost use Rattle.holdings.specs.Meaning.{counts_of};

use crate::transfer::Transfer;
use space::{Place, Shards};

/// The transfers of a phase, counted by what became of them.
#[derive(Clone, Copy, Debug, PartialEq, Eq)]
pub struct TransferCounts {
    /// How many sources were not held.
    pub lost: u64,
    /// How many mappings gained rights.
    pub extended: u64,
    /// How many targets became new mappings.
    pub linked: u64,
}

/// No transfers.
const NONE: TransferCounts = TransferCounts {
    lost: 0,
    extended: 0,
    linked: 0,
};

impl TransferCounts {
    /// No transfers.
    pub(crate) fn none() -> Self
        ensures { counts_of result ≡ no_counts }
    {
        NONE
    }

    /// One transfer, whose source is not held.
    pub(crate) fn one_lost() -> Self
        ensures { counts_of result ≡ record no_counts { lost = 1 } }
    {
        TransferCounts { lost: 1, ..NONE }
    }

    /// One transfer, which gave rights to a mapping.
    pub(crate) fn one_extended() -> Self
        ensures { counts_of result ≡ record no_counts { extended = 1 } }
    {
        TransferCounts {
            extended: 1,
            ..NONE
        }
    }

    /// One transfer, which made a new mapping.
    pub(crate) fn one_linked() -> Self
        ensures { counts_of result ≡ record no_counts { linked = 1 } }
    {
        TransferCounts { linked: 1, ..NONE }
    }

    /// One transfer: it is lost where its source is not held; else it gives rights to a mapping, or makes a new one.
    pub(crate) fn of_one(shards: &Shards, transfer: Transfer) -> Self
        requires present { IsFalse (is_taken shards.now) }
        requires place { IsPlace shards.now transfer.source }
        ensures counts { counts_of result ≡ count_in shards.now transfer }
        ensures one { total (counts_of result) ≡ 1 }
    {
        if shards.get(transfer.source).is_none() {
            TransferCounts::one_lost()
        } else if transfer.extends {
            TransferCounts::one_extended()
        } else {
            TransferCounts::one_linked()
        }
    }

    /// All of these transfers.
    pub(crate) fn of_all(shards: &Shards, transfers: &[Transfer]) -> Self
        requires present { IsFalse (is_taken shards.now) }
        requires places { All (λ t. IsPlace shards.now t.source) transfers.now }
        ensures { counts_of result ≡ counts_in shards.now transfers.now }
    {
        let mut counts = TransferCounts::none();
        for transfer in transfers {
            let one = TransferCounts::of_one(shards, *transfer);
            counts = counts.plus(one);
        }
        counts
    }

    /// The transfers of both.
    pub(crate) fn plus(self, more: TransferCounts) -> Self
        requires { total (counts_of self) + total (counts_of more) < 2 ^ 64 }
        ensures { counts_of result ≡ add_counts (counts_of self) (counts_of more) }
    {
        TransferCounts {
            lost: self.lost + more.lost,
            extended: self.extended + more.extended,
            linked: self.linked + more.linked,
        }
    }
}
