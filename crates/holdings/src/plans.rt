//! Plans that are made in batches of a list, side by side.

ghost use Rattle.std.specs.Prelude.{◌≡◌, true, is_ok, IfOk};
ghost use Rattle.std.specs.List.{All};
ghost use Rattle.holdings.specs.Inner.Phases.{all_pieces, batch_of};

use crew::Planned;
use pieces::{Piece, StripPlan};
use space::NoMemory;
use std::alloc::Global;

/// A batch of a list, of which each has so many but the last.
pub fn batch_of<T>(list: &[T], size: usize, batch: usize) -> &[T]
    ensures { result.now ≡ batch_of size list.now batch }
{
    let from = size.saturating_mul(batch);
    let (_, rest) = list.split_at(from.min(list.len()));
    let (its, _) = rest.split_at(size.min(rest.len()));
    its
}

/// The pieces of all plans, one plan after another.
///
/// Refused, where memory was for one of them, or is: `NoMemory`.
pub fn all_pieces(alloc: Global, planned: Vec<Planned>) -> Result<Vec<Piece>, NoMemory>
    ensures made { IfOk result (λ _. All (λ plan. is_ok plan ≡ true) planned.items) }
    ensures pieces { IfOk result (λ pieces. pieces.items ≡ all_pieces planned.items) }
{
    let mut pieces = Vec::new(alloc);
    for part in planned {
        let plan = part?;
        let StripPlan {
            frames: _,
            pieces: mut its_pieces,
        } = plan;
        pieces.append(&mut its_pieces)?;
    }
    Ok(pieces)
}
