//! The words that pieces change, each of which one piece alone has a step about.

ghost use Rattle.std.specs.Prelude.{◌≡◌, ◌++◌, IfOk, OnOk};
ghost use Rattle.std.specs.List.{flat_map};
ghost use Rattle.pieces.specs.Contents.{puts_of, ends_of};
ghost use Rattle.pieces.specs.Phases.{changes};

use crate::link::Link;
use crate::moving::Move;
use crate::piece::Piece;
use std::alloc::{AllocError, Global};

/// How many words a piece narrows, puts or takes.
pub fn changed_words(piece: &Piece) -> usize {
    match piece {
        Piece::Strip(strip) => strip.len(),
        Piece::Link(link) => link.len(),
        Piece::Move(pairs) => pairs.len().saturating_mul(2),
        Piece::Touch(_) => 0,
    }
}

/// The indexes that pieces narrow, put or take, in the order of the pieces and of their steps. The list has room for so many more.
///
/// Refused, where memory is.
pub fn changed_indexes(
    alloc: Global,
    pieces: &[Piece],
    more: usize,
) -> Result<Vec<usize>, AllocError>
    ensures { IfOk result (λ indexes. indexes.items ≡ flat_map changes pieces.now) }
{
    let mut indexes = Vec::with_capacity(alloc, all_changed_words(pieces).saturating_add(more))?;
    for piece in pieces {
        match piece {
            Piece::Strip(strip) => indexes.extend_from_slice(strip.indexes())?,
            Piece::Link(link) => push_puts(&mut indexes, link)?,
            Piece::Move(pairs) => push_ends(&mut indexes, pairs)?,
            Piece::Touch(_) => {}
        }
    }
    Ok(indexes)
}

/// How many words pieces change: so much room is made.
fn all_changed_words(pieces: &[Piece]) -> usize {
    let mut count: usize = 0;
    for piece in pieces {
        count = count.saturating_add(changed_words(piece));
    }
    count
}

/// Adds the indexes of the words that are put.
fn push_puts(indexes: &mut Vec<usize>, link: &Link) -> Result<(), AllocError>
    ensures { OnOk result (indexes.new.items ≡ indexes.old.items ++ puts_of link.now) }
{
    for store in link.stores() {
        indexes.push(store.put)?;
    }
    Ok(())
}

/// Adds the indexes of the words that are taken, and of those that are put.
fn push_ends(indexes: &mut Vec<usize>, pairs: &Move) -> Result<(), AllocError>
    ensures { OnOk result (indexes.new.items ≡ indexes.old.items ++ ends_of pairs.now) }
{
    for pair in pairs.pairs() {
        indexes.push(pair.taken)?;
        indexes.push(pair.put)?;
    }
    Ok(())
}
