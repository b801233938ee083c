ghost use Rattle.std.specs.Prelude.{◌≡◌, ◌==◌};
ghost use Rattle.std.specs.List.{All};
ghost use Rattle.pieces.specs.Phases.{IsPiece, length_of};

use crate::link::Link;
use crate::moving::Move;
use crate::strip::Strip;
use crate::touch::Touch;

/// A part of the work of a phase, which one worker works at a time.
#[derive(Drop)]
pub enum Piece {
    /// Pages lose rights.
    Strip(Strip),
    /// Pages are mapped.
    Link(Link),
    /// Pages move.
    Move(Move),
    /// Pages are accessed.
    Touch(Touch),
}

impl Piece {
    /// How many nodes, stores, pairs or accesses it has.
    pub fn len(&self) -> usize
        ensures len { result ≡ length_of self.now }
        ensures piece { IsPiece self.now }
    {
        match self {
            Piece::Strip(strip) => strip.len(),
            Piece::Link(link) => link.len(),
            Piece::Move(pairs) => pairs.len(),
            Piece::Touch(touch) => touch.len(),
        }
    }

    /// Whether it has none.
    pub fn is_empty(&self) -> bool
        ensures { result ≡ (length_of self.now == 0) }
    {
        self.len() == 0
    }
}

/// Each of these is a piece, as its type says. The function does nothing: its contract is what it tells.
pub fn learn_are_pieces(pieces: &[Piece])
    ensures { All IsPiece pieces.now }
{
    for piece in pieces {
        let _ = piece.len();
    }
}
