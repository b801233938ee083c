//! A test of what pieces require of indexes.

ghost use Rattle.std.specs.Prelude.{◌≡◌, ℕ, not, is_some, IfOk, IfSome};
ghost use Rattle.std.specs.List.{list_any};
ghost use Rattle.std.specs.Ordering.{nat_cmp, is_eq};
ghost use Rattle.pieces.specs.Distinct.{is_none_of, are_distinct};

use space::NoMemory;
use std::alloc::Global;
use std::collections::BTreeSet;

/// Whether no index comes twice: the indexes of a strip, the puts of a link, the ends of a move, or all that the pieces of a
/// phase narrow, put or take.
///
/// Refused, where memory is: `NoMemory`.
pub fn are_distinct(alloc: Global, indexes: &[usize]) -> Result<bool, NoMemory>
    ensures { IfOk result (λ distinct. distinct ≡ are_distinct indexes.now) }
{
    let set = distinct_set(alloc, indexes)?;
    Ok(set.is_some())
}

/// The set of these indexes, if none comes twice.
pub(crate) fn distinct_set(
    alloc: Global,
    indexes: &[usize],
) -> Result<Option<BTreeSet<usize>>, NoMemory>
    ensures distinct { IfOk result (λ set. is_some set ≡ are_distinct indexes.now) }
    ensures set { IfOk result (λ set. IfSome set (λ s. (i : ℕ) → list_any (λ k. is_eq (nat_cmp i k)) s.keys ≡ not (is_none_of indexes.now i))) }
{
    let mut seen = BTreeSet::new(alloc);
    let mut i = indexes.len();
    while i > 0 {
        i -= 1;
        match seen.insert(indexes[i]) {
            Ok(true) => {}
            Ok(false) => return Ok(None),
            Err(_) => return Err(NoMemory),
        }
    }
    Ok(Some(seen))
}
