//! Lists of stores, pairs and accesses cut into pieces.

ghost use Rattle.std.specs.Prelude.{◌≡◌, ◌≤◌, true, length, map, IfOk};
ghost use Rattle.space.specs.Slices.{pieces};
ghost use Rattle.pieces.specs.Distinct.{are_distinct};
ghost use Rattle.pieces.specs.Contents.{puts_of, ends_of};

use crate::link::{Link, Store};
use crate::moving::{Move, Pair};
use crate::piece::Piece;
use crate::touch::{Touch, WordAccess};
use space::NoMemory;
use std::alloc::{AllocError, Global};

/// What a piece carries a list of.
trait Carried: Copy {
    ghost use Rattle.std.specs.Prelude.{◌≡◌, ℕ, Bool, true, List, take, drop};
    ghost use Rattle.pieces.specs.declared.piece.Piece.{Piece};

    /// Whether a list of them may be one piece.
    ghost fits: { List Self → Bool };

    /// The piece that a list is.
    ghost piece: { List Self → Piece };

    /// The piece of a list.
    fn piece_of(list: Vec<Self>) -> Piece
        requires { fits list.items ≡ true }
        ensures { result ≡ piece list.items };

    /// Parts of a list that fits fit too.
    ghost parts_fit: { (n : ℕ) (xs : List Self) → fits xs ≡ true → (fits (take n xs) ≡ true) × (fits (drop n xs) ≡ true) };
}

impl Carried for Store {
    ghost use Rattle.std.specs.Prelude.{◌≡◌, true};
    ghost use Rattle.pieces.specs.Distinct.{are_distinct};
    ghost use Rattle.pieces.specs.Contents.{puts_of};
    ghost use Rattle.pieces.specs.declared.piece.Piece.TheVariants as variant;
    ghost use Rattle.pieces.specs.DistinctParts.{parts_of_stores};

    ghost fits = { λ stores. are_distinct (puts_of stores) };

    ghost piece = { λ stores. variant.Link stores };

    ghost parts_fit = { parts_of_stores };

    fn piece_of(list: Vec<Store>) -> Piece
        requires { are_distinct (puts_of list.items) ≡ true }
        ensures { result ≡ variant.Link list.items }
    {
        Piece::Link(Link::new(list))
    }
}

impl Carried for Pair {
    ghost use Rattle.std.specs.Prelude.{◌≡◌, true};
    ghost use Rattle.pieces.specs.Distinct.{are_distinct};
    ghost use Rattle.pieces.specs.Contents.{ends_of};
    ghost use Rattle.pieces.specs.declared.piece.Piece.TheVariants as variant;
    ghost use Rattle.pieces.specs.DistinctParts.{parts_of_pairs};

    ghost fits = { λ pairs. are_distinct (ends_of pairs) };

    ghost piece = { λ pairs. variant.Move pairs };

    ghost parts_fit = { parts_of_pairs };

    fn piece_of(list: Vec<Pair>) -> Piece
        requires { are_distinct (ends_of list.items) ≡ true }
        ensures { result ≡ variant.Move list.items }
    {
        Piece::Move(Move::new(list))
    }
}

impl Carried for WordAccess {
    ghost use Rattle.std.specs.Prelude.{◌≡◌, true, refl};
    ghost use Rattle.pieces.specs.declared.piece.Piece.TheVariants as variant;

    ghost fits = { λ list. true };

    ghost piece = { λ list. variant.Touch list };

    ghost parts_fit = { λ n xs h. (refl, refl) };

    fn piece_of(list: Vec<WordAccess>) -> Piece
        ensures { result ≡ variant.Touch list.items }
    {
        Piece::Touch(Touch::new(list))
    }
}

/// A list in pieces of at most so many, in its order, none empty. A list that is short enough is not copied.
fn cut<T: Carried>(alloc: Global, list: Vec<T>, most: usize) -> Result<Vec<Piece>, AllocError>
    requires most { 1 ≤ most }
    requires fits { T.fits list.items ≡ true }
    ensures { IfOk result (λ ps. ps.items ≡ map T.piece (pieces (length list.items) most list.items)) }
{
    if list.is_empty() || most < list.len() {
        return cut_parts(alloc, &list, most);
    }
    let mut whole = Vec::with_capacity(alloc, 1)?;
    whole.push(T::piece_of(list))?;
    Ok(whole)
}

/// The same of a list that is copied.
fn cut_parts<T: Carried>(alloc: Global, list: &[T], most: usize) -> Result<Vec<Piece>, AllocError>
    requires most { 1 ≤ most }
    requires fits { T.fits list.now ≡ true }
    ensures { IfOk result (λ ps. ps.items ≡ map T.piece (pieces (length list.now) most list.now)) }
{
    let mut parts = Vec::with_capacity(alloc, list.len().div_ceil(most))?;
    let mut rest = list;
    while !rest.is_empty() {
        let (first, others) = rest.split_at(most.min(rest.len()));
        parts.push(T::piece_of(Vec::from_slice(alloc, first)?))?;
        rest = others;
    }
    Ok(parts)
}

/// Accesses in pieces of at most so many, in their order, none empty. The empty list gives no piece.
///
/// Refused, where memory is: `NoMemory`. Then the list is gone.
pub fn touches(alloc: Global, list: Vec<WordAccess>, most: usize) -> Result<Vec<Piece>, NoMemory>
    requires { 1 ≤ most }
    ensures { IfOk result (λ ps. ps.items ≡ map Piece.Touch (pieces (length list.items) most list.items)) }
{
    let pieces = cut(alloc, list, most)?;
    Ok(pieces)
}

/// Stores in pieces of at most so many, in their order, none empty. The empty list gives no piece.
///
/// Refused, where memory is: `NoMemory`. Then the list is gone.
pub fn links(alloc: Global, list: Vec<Store>, most: usize) -> Result<Vec<Piece>, NoMemory>
    requires most { 1 ≤ most }
    requires distinct { are_distinct (puts_of list.items) ≡ true }
    ensures { IfOk result (λ ps. ps.items ≡ map Piece.Link (pieces (length list.items) most list.items)) }
{
    let pieces = cut(alloc, list, most)?;
    Ok(pieces)
}

/// Pairs in pieces of at most so many, in their order, none empty. The empty list gives no piece.
///
/// Refused, where memory is: `NoMemory`. Then the list is gone.
pub fn moves(alloc: Global, list: Vec<Pair>, most: usize) -> Result<Vec<Piece>, NoMemory>
    requires most { 1 ≤ most }
    requires distinct { are_distinct (ends_of list.items) ≡ true }
    ensures { IfOk result (λ ps. ps.items ≡ map Piece.Move (pieces (length list.items) most list.items)) }
{
    let pieces = cut(alloc, list, most)?;
    Ok(pieces)
}
