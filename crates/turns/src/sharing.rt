//! Which words of a phase are shared.

ghost use Rattle.std.specs.Prelude.{◌≡◌, ◌<◌, ◌++◌, ℕ, Bool, true, false, length, map, IfOk, OnOk};
ghost use Rattle.std.specs.List.{All, flat_map, list_all};
ghost use Rattle.std.specs.List.Sorted.{IsStrictlyIncreasing};
ghost use Rattle.std.specs.Option.{option_to_list};
ghost use Rattle.pieces.specs.Distinct.{is_none_of, are_distinct};
ghost use Rattle.pieces.specs.Phases.{CanBeWorked, IsPiece, changes};
ghost use Rattle.turns.specs.SharedWords.{IsPhase, common};
ghost use Rattle.turns.specs.Tables.{indexes_of};

use pieces::{Piece, Strip, Touch, changed_indexes, changed_words};
use std::alloc::{AllocError, Global};

/// Of more pieces than this not all are looked at: how long a piece is stands in no cache near.
const LOOKED_AT: usize = 64;

/// How many words are copied in and out in the time that an access takes in a list, which is sorted and searched.
const WORDS_AN_ACCESS: usize = 4;

/// Which words of a phase are shared.
#[derive(Drop)]
pub enum Indexes {
    /// All, in their order.
    All,
    /// Those at these indexes, in the order of these.
    Listed(Vec<usize>),
}

impl Indexes {
    ghost use Rattle.std.specs.Prelude.{◌≡◌};
    ghost use Rattle.turns.specs.Tables.{listed};

    /// The indexes, if they are listed; else none.
    pub(crate) fn listed(&self) -> &[usize]
        ensures { result.now ≡ listed self.now }
    {
        match self {
            Indexes::All => &[],
            Indexes::Listed(at) => at,
        }
    }
}

/// The words that are shared, and how many of them stand in front that one piece alone has a step about. Where pieces change
/// at least a third of all words, all are shared: that takes less than a list of those that are. So it does where accesses
/// are many, whose list is sorted, and searched at each.
pub(crate) fn shared_indexes(
    alloc: Global,
    words: &[u64],
    pieces: &[Piece],
) -> Result<(Indexes, usize), AllocError>
    requires each { All IsPiece pieces.now }
    requires can { CanBeWorked words.now pieces.now }
    ensures phase { IfOk result (λ r. IsPhase (record { words = words.now; pieces = pieces.now; indexes = indexes_of (length words.now) r.0; watchers = 0 })) }
    ensures some { IfOk result (λ r. 0 < length (indexes_of (length words.now) r.0)) }
    ensures within { IfOk result (λ r. All (λ i. i < length words.now) (indexes_of (length words.now) r.0)) }
{
    if are_all_shared(words, pieces) {
        return Ok((Indexes::All, 0));
    }
    let (at, own) = listed_indexes(alloc, pieces)?;
    Ok((Indexes::Listed(at), own))
}

/// The words that are shared where somebody watches: those that the steps of pieces are about. They rise, so that a
/// look finds its word in few steps.
pub(crate) fn watched_indexes(
    alloc: Global,
    words: &[u64],
    pieces: &[Piece],
) -> Result<Indexes, AllocError>
    requires each { All IsPiece pieces.now }
    requires can { CanBeWorked words.now pieces.now }
    ensures phase { IfOk result (λ r. (n : ℕ) → IsPhase (record { words = words.now; pieces = pieces.now; indexes = indexes_of (length words.now) r; watchers = n })) }
    ensures some { IfOk result (λ r. 0 < length (indexes_of (length words.now) r)) }
    ensures within { IfOk result (λ r. All (λ i. i < length words.now) (indexes_of (length words.now) r)) }
    ensures rise { IfOk result (λ r. IsStrictlyIncreasing (indexes_of (length words.now) r)) }
{
    let _ = words;
    let (at, _) = listed_indexes(alloc, pieces)?;
    Ok(Indexes::Listed(rising(at)))
}

/// Whether all words are shared, as far as some of the pieces tell.
fn are_all_shared(words: &[u64], pieces: &[Piece]) -> bool {
    let step = (pieces.len() / LOOKED_AT).max(1);
    let mut wanting = words.len() / 3 / step;
    for piece in pieces.iter().step_by(step) {
        wanting = wanting.saturating_sub(weight(piece));
    }
    wanting == 0
}

/// How many words may be shared instead of a list of those of a piece.
fn weight(piece: &Piece) -> usize {
    match piece {
        Piece::Touch(touch) => touch.len().saturating_mul(WORDS_AN_ACCESS),
        _ => changed_words(piece),
    }
}

/// The indexes of the words that the steps of pieces are about, each once, and how many of these one piece alone has a step about.
/// Those are in front, in the order of the pieces and of their steps; behind them the others rise. With no step, the first word is
/// shared, since a table has one at least.
fn listed_indexes(alloc: Global, pieces: &[Piece]) -> Result<(Vec<usize>, usize), AllocError>
    requires distinct { are_distinct (flat_map changes pieces.now) ≡ true }
    requires apart { list_all (is_none_of (flat_map changes pieces.now)) (flat_map common pieces.now) ≡ true }
    ensures distinct { IfOk result (λ r. are_distinct r.0.items ≡ true) }
    ensures own { IfOk result (λ r. (i : ℕ) → is_none_of (flat_map changes pieces.now) i ≡ false → is_none_of r.0.items i ≡ false) }
    ensures common { IfOk result (λ r. (i : ℕ) → is_none_of (flat_map common pieces.now) i ≡ false → is_none_of r.0.items i ≡ false) }
    ensures some { IfOk result (λ r. 0 < length r.0.items) }
    ensures within { IfOk result (λ r. (test : ℕ → Bool) → test 0 ≡ true → list_all test (flat_map changes pieces.now) ≡ true → list_all test (flat_map common pieces.now) ≡ true → list_all test r.0.items ≡ true) }
{
    let common = rising(common_indexes(alloc, pieces)?);
    let mut at = changed_indexes(alloc, pieces, common.len())?;
    let own = at.len();
    at.extend_from_slice(&common)?;
    if at.is_empty() {
        at.push(0)?;
    }
    Ok((at, own))
}

/// The indexes of the words that several pieces may have steps about.
fn common_indexes(alloc: Global, pieces: &[Piece]) -> Result<Vec<usize>, AllocError>
    ensures { IfOk result (λ r. r.items ≡ flat_map common pieces.now) }
{
    let mut at = Vec::new(alloc);
    for piece in pieces {
        match piece {
            Piece::Strip(strip) => push_fold(&mut at, strip)?,
            Piece::Link(_) => {}
            Piece::Move(_) => {}
            Piece::Touch(touch) => push_accesses(&mut at, touch)?,
        }
    }
    Ok(at)
}

/// The same indexes, rising, each once.
fn rising(mut at: Vec<usize>) -> Vec<usize>
    ensures rise { IsStrictlyIncreasing result.items }
    ensures distinct { are_distinct result.items ≡ true }
    ensures all { (i : ℕ) → is_none_of at.items i ≡ false → is_none_of result.items i ≡ false }
    ensures kept { (test : ℕ → Bool) → list_all test at.items ≡ true → list_all test result.items ≡ true }
{
    at.sort_unstable();
    at.dedup();
    at
}

/// Adds the index of a fold word, if there is one.
fn push_fold(at: &mut Vec<usize>, strip: &Strip) -> Result<(), AllocError>
    ensures { OnOk result (at.new.items ≡ at.old.items ++ option_to_list strip.now.fold) }
{
    if let Some(index) = strip.fold() {
        at.push(index)?;
    }
    Ok(())
}

/// Adds the indexes of the words that are accessed.
fn push_accesses(at: &mut Vec<usize>, touch: &Touch) -> Result<(), AllocError>
    ensures { OnOk result (at.new.items ≡ at.old.items ++ map (λ t. t.index) touch.now) }
{
    for k in 0..touch.len() {
        at.push(touch.access(k).index)?;
    }
    Ok(())
}
