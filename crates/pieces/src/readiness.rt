//! A test of all that is asked of words and pieces that are worked beside one another.

ghost use Rattle.std.specs.Prelude.{◌≡◌, ◌↔◌, ◌&&◌, nat_lt, true, not, length, is_some, IfOk};
ghost use Rattle.std.specs.List.{flat_map, list_all, list_any};
ghost use Rattle.std.specs.Ordering.{nat_cmp, is_eq};
ghost use Rattle.space.specs.Word.{is_pack};
ghost use Rattle.pieces.specs.Steps.{entry_in};
ghost use Rattle.pieces.specs.Phases.{changes, folds, held, named, is_touch, are_alike, CanBeWorked};
ghost use Rattle.pieces.specs.Readiness.{words_suit, are_apart};

use crate::changes::changed_indexes;
use crate::distinct::distinct_set;
use crate::piece::Piece;
use space::NoMemory;
use std::alloc::Global;
use std::collections::BTreeSet;

/// Whether pieces can be worked beside one another on some words, in any order of steps. Words and pieces that pass may be given
/// to those who work them, and no others may.
///
/// There is a word, and each is 0 or that of an entry. Each index that a piece names is that of a word, and a fold word, one
/// that a store reads and one that is taken are not 0. No index is narrowed, put or taken twice, and none of these is that of a
/// fold word. All pieces are touches, or none is.
///
/// The time is that of sorting the indexes that are narrowed, put or taken, and of one pass over all words and pieces.
///
/// Refused, where memory is: `NoMemory`.
pub fn can_be_worked(alloc: Global, words: &[u64], pieces: &[Piece]) -> Result<bool, NoMemory>
    ensures { IfOk result (λ can. (can ≡ true) ↔ CanBeWorked words.now pieces.now) }
{
    if !words_suit(words, pieces) {
        return Ok(false);
    }
    are_apart(alloc, pieces)
}

/// Whether the words are such as pieces need.
fn words_suit(words: &[u64], pieces: &[Piece]) -> bool
    ensures { result ≡ words_suit words.now pieces.now }
{
    !words.is_empty()
        && are_packs(words)
        && all_name_words(pieces, words)
        && all_hold_pages(pieces, words)
        && are_alike(pieces)
}

/// Whether each word is 0 or that of an entry.
fn are_packs(words: &[u64]) -> bool
    ensures { result ≡ list_all is_pack words.now }
{
    words.iter().all(|word| is_pack(*word))
}

/// Whether a word is 0 or that of an entry (profile, entry word).
fn is_pack(word: u64) -> bool
    ensures { result ≡ is_pack word }
{
    word == 0 || (word / 0x1_0000_0000 == 1 && word / 64 % 4 == 0)
}

/// Whether all pieces are touches, or none is.
fn are_alike(pieces: &[Piece]) -> bool
    ensures { result ≡ are_alike pieces.now }
{
    are_touches(pieces) || !have_touch(pieces)
}

/// Whether all pieces are touches.
fn are_touches(pieces: &[Piece]) -> bool
    ensures { result ≡ list_all is_touch pieces.now }
{
    pieces.iter().all(|piece| is_touch(piece))
}

/// Whether one is.
fn have_touch(pieces: &[Piece]) -> bool
    ensures { result ≡ list_any is_touch pieces.now }
{
    pieces.iter().any(|piece| is_touch(piece))
}

/// Whether it is a touch.
fn is_touch(piece: &Piece) -> bool
    ensures { result ≡ is_touch piece.now }
{
    match piece {
        Piece::Strip(_) => false,
        Piece::Link(_) => false,
        Piece::Move(_) => false,
        Piece::Touch(_) => true,
    }
}

/// Whether each index that pieces name is that of a word.
fn all_name_words(pieces: &[Piece], words: &[u64]) -> bool
    ensures { result ≡ list_all (λ i. nat_lt i (length words.now)) (flat_map named pieces.now) }
{
    pieces.iter().all(|piece| names_words(piece, words.len()))
}

/// Whether each index that a piece names is that of one of so many words.
fn names_words(piece: &Piece, words: usize) -> bool
    ensures { result ≡ list_all (λ i. nat_lt i words) (named piece.now) }
{
    match piece {
        Piece::Strip(strip) => {
            strip.indexes().iter().all(|index| *index < words)
                && strip.fold().is_none_or(|fold| fold < words)
        }
        Piece::Link(link) => {
            let stores = link.stores();
            stores
                .iter()
                .all(|store| store.read < words && store.put < words)
        }
        Piece::Move(pairs) => {
            let pairs = pairs.pairs();
            pairs
                .iter()
                .all(|pair| pair.taken < words && pair.put < words)
        }
        Piece::Touch(touch) => touch.accesses().iter().all(|access| access.index < words),
    }
}

/// Whether a page is held where pieces need one.
fn all_hold_pages(pieces: &[Piece], words: &[u64]) -> bool
    ensures { result ≡ list_all (λ i. is_some (entry_in words.now i)) (flat_map held pieces.now) }
{
    pieces.iter().all(|piece| holds_pages(piece, words))
}

/// Whether a page is held where a piece needs one: its fold word, those that its stores read, and those that it takes.
fn holds_pages(piece: &Piece, words: &[u64]) -> bool
    ensures { result ≡ list_all (λ i. is_some (entry_in words.now i)) (held piece.now) }
{
    match piece {
        Piece::Strip(strip) => strip.fold().is_none_or(|fold| is_held(words, fold)),
        Piece::Link(link) => link.stores().iter().all(|store| is_held(words, store.read)),
        Piece::Move(pairs) => pairs.pairs().iter().all(|pair| is_held(words, pair.taken)),
        Piece::Touch(_) => true,
    }
}

/// Whether a page is held at an index.
fn is_held(words: &[u64], index: usize) -> bool
    ensures { result ≡ is_some (entry_in words.now index) }
{
    match words.get(index) {
        None => false,
        Some(word) => *word != 0,
    }
}

/// Whether no index is changed twice, and none that is changed is that of a fold word.
fn are_apart(alloc: Global, pieces: &[Piece]) -> Result<bool, NoMemory>
    ensures { IfOk result (λ apart. apart ≡ are_apart pieces.now) }
{
    let changed = changed_indexes(alloc, pieces, 0)?;
    match distinct_set(alloc, &changed)? {
        None => Ok(false),
        Some(changed) => Ok(pieces.iter().all(|piece| spares(piece, &changed))),
    }
}

/// Whether the fold word of a piece, if it has one, is none of those at some indexes.
fn spares(piece: &Piece, changed: &BTreeSet<usize>) -> bool
    ensures { result ≡ list_all (λ i. not (list_any (λ k. is_eq (nat_cmp i k)) changed.now.keys)) (folds piece.now) }
{
    match piece {
        Piece::Strip(strip) => strip.fold().is_none_or(|fold| !changed.contains(&fold)),
        Piece::Link(_) => true,
        Piece::Move(_) => true,
        Piece::Touch(_) => true,
    }
}
