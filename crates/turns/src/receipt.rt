//! What tells a watcher that a piece has ended.

use crate::shared_words::{Seat, SharedWords};
use std::marker::Model;

/// Says that all steps of a piece were done. A turn that has ended gives it out, and a watcher takes it in.
#[derive(Drop)]
pub struct Receipt {
    seat: Seat,
    piece: usize,
}

impl Model for Receipt {
    ghost use Rattle.turns.specs.Watching.{ReceiptContent};

    ghost Value = { ReceiptContent };

    ghost use Rattle.turns.specs.Watching.{IsReceipt};

    ghost view = { λ r. record { shared = record { id = r.seat.table_id; opening = r.seat.me.0.opening }; piece = r.piece } };

    ghost invariant = { λ r. IsReceipt (record { shared = record { id = r.seat.table_id; opening = r.seat.me.0.opening }; piece = r.piece }) r.seat.table_id r.seat.me };
}

impl Receipt {
    ghost use Rattle.std.specs.Prelude.{◌≡◌};
    ghost use Rattle.turns.specs.SharedWords.{IsSeat};
    ghost use Rattle.turns.specs.Views.{IsNoted};
    ghost use Rattle.turns.specs.Watching.{steps_of_piece};

    /// The receipt of a piece, by a seat that knows that it has ended.
    pub(crate) fn new(shared: &SharedWords, seat: Seat, piece: usize) -> Receipt
        requires seat { IsSeat shared.now seat.table_id seat.me }
        requires ended { IsNoted seat.me.0.notes piece (steps_of_piece shared.now piece) }
        ensures { result ≡ record { shared = shared.now; piece = piece } }
    {
        let _ = shared;
        Receipt { seat, piece }
    }

    /// The number of the piece.
    pub fn piece(&self) -> usize
        ensures { result ≡ self.now.piece }
    {
        self.piece
    }

    /// Its seat.
    pub(crate) fn into_seat(self) -> Seat
        ensures seat { IsSeat self.shared result.table_id result.me }
        ensures ended { IsNoted result.me.0.notes self.piece (steps_of_piece self.shared self.piece) }
    {
        let Receipt { seat, piece: _ } = self;
        seat
    }
}
