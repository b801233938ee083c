ghost use Rattle.std.specs.Prelude.{◌≡◌, ◌+◌, ◌^◌, ◌<◌};
ghost use Rattle.model.specs.Definitions.Items.{no_counts, add_counts};
ghost use Rattle.model.specs.Laws.SendLaws.{total};
ghost use Rattle.holdings.specs.Meaning as phase;
ghost use Rattle.holdings.specs.Sending.{fate_of_outcome};
ghost use Rattle.mapdb.specs.Meaning.{counts_of};
ghost use Rattle.mapdb.specs.Sending.{count_before_flush};

use crate::call::Refusal;
use fpage::Rights;
use holdings::{Outcome, TransferCounts};

/// The answer to a call, or to a record that is refused before it is one.
#[derive(Debug, Drop)]
pub enum Reply {
    /// What became of the pages of a send.
    Sent(SendReply),
    /// Whether the access was made; otherwise it was a fault.
    Accessed(bool),
    /// The words of an unmap, each with the status of its pages in place of its rights.
    Unmapped(Vec<u32>),
    /// The status of the pages that a clear took.
    Cleared(Rights),
    /// Nothing was done.
    Refused(Refusal),
}

/// How many pairs of a send had which outcome. Their numbers have no bound but that of a slice of items.
#[derive(Clone, Copy, Debug, PartialEq, Eq)]
pub struct SendReply {
    /// The source was not held.
    pub absent: u128,
    /// No right was left.
    pub norights: u128,
    /// The target was an origin of the source.
    pub origin: u128,
    /// The source was gone after the flush.
    pub lost: u128,
    /// The mapping that the target had from the source gained rights.
    pub extended: u128,
    /// The target became a new mapping.
    pub linked: u128,
}

/// No pairs.
const NONE: SendReply = SendReply {
    absent: 0,
    norights: 0,
    origin: 0,
    lost: 0,
    extended: 0,
    linked: 0,
};

impl SendReply {
    /// No pairs.
    pub(crate) fn none() -> Self
        ensures { counts_of result ≡ no_counts }
    {
        NONE
    }

    /// One pair that is decided at an item's start, if it neither goes nor extends.
    pub(crate) fn of_outcome(outcome: Outcome) -> Self
        ensures { counts_of result ≡ count_before_flush (fate_of_outcome outcome) }
    {
        match outcome {
            Outcome::Absent => SendReply { absent: 1, ..NONE },
            Outcome::NoRights => SendReply {
                norights: 1,
                ..NONE
            },
            Outcome::Origin => SendReply { origin: 1, ..NONE },
            Outcome::Extends | Outcome::Replaces | Outcome::Goes => NONE,
        }
    }

    /// So many pairs whose sources are absent.
    pub(crate) fn of_absent(count: u32) -> Self
        ensures { counts_of result ≡ record no_counts { absent = count } }
    {
        SendReply {
            absent: u128::from(count),
            ..NONE
        }
    }

    /// The pairs that were worked after the flush.
    pub(crate) fn of_transfers(worked: TransferCounts) -> Self
        ensures { counts_of result ≡ phase.counts_of worked }
    {
        SendReply {
            lost: u128::from(worked.lost),
            extended: u128::from(worked.extended),
            linked: u128::from(worked.linked),
            ..NONE
        }
    }

    /// The pairs of both.
    pub(crate) fn plus(self, more: SendReply) -> Self
        requires { total (counts_of self) + total (counts_of more) < 2 ^ 128 }
        ensures { counts_of result ≡ add_counts (counts_of self) (counts_of more) }
    {
        SendReply {
            absent: self.absent + more.absent,
            norights: self.norights + more.norights,
            origin: self.origin + more.origin,
            lost: self.lost + more.lost,
            extended: self.extended + more.extended,
            linked: self.linked + more.linked,
        }
    }
}
