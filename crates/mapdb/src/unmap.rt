//! The words of an unmap, one after another.

ghost use Rattle.std.specs.Prelude.{◌≡◌, ◌<◌, true, IfOk, IsErrOf, ℕ, ◌+◌, List, length, take};
ghost use Rattle.std.specs.List.{All};
ghost use Rattle.fpage.specs.Fpage.{IsFpageOf};
ghost use Rattle.model.specs.Definitions.Answers.{pages_in};
ghost use Rattle.crew.specs.declared.error.CrewError.TheVariants.{NoWorker};
ghost use Rattle.holdings.specs.Contents.{IsStripped, left_with};
ghost use Rattle.holdings.specs.Noting.{NotesFollow};
ghost use Rattle.mapdb.specs.State.{unmap_status, unmap_left};
ghost use Rattle.pieces.specs.declared.piece.Piece.{Piece};
ghost use Rattle.model.specs.Definitions.Strip.{strip};
ghost use Rattle.holdings.specs.Observing.{IsPhaseOf};

use crate::call::{Unmap, UnmapWord};
use crew::{Crew, CrewError, Gate, Observe, Workers};
use fpage::Rights;
use holdings::{Holdings, Notes};
use space::Place;
use std::alloc::{AllocError, Global};
use std::sync::Wait;
use std::thread::Threads;

/// Works the words of an unmap one after another. Each tells the status of its pages and of all that derives from them, and
/// these lose its rights; with `flush` the pages themselves do. What they tell is returned. Notes the pages that the words
/// change.
///
/// With `plain` each word goes by recursion, on the calling thread.
///
/// Refused, where memory or a worker is: `NoMemory`, `NoWorker`.
pub fn unmap_words<W: Workers>(
    alloc: Global,
    held: Holdings,
    unmap: &Unmap<'_>,
    notes: &mut Notes,
    workers: &W,
    plain: bool,
) -> Result<(Holdings, Vec<Rights>), CrewError>
    requires space { unmap.now.space < held.limits.spaces }
    requires fpages { All (IsFpageOf held.limits.bits) unmap.now.fpages.now }
    ensures left { IfOk result (λ r. r.0 ≡ left_with held (unmap_left unmap.now.space unmap.now.control.flush unmap.now.fpages.now held.holdings)) }
    ensures status { IfOk result (λ r. r.1.items ≡ unmap_status unmap.now.space unmap.now.control.flush unmap.now.fpages.now held.holdings) }
    ensures noted { IfOk result (λ r. NotesFollow held.holdings r.0.holdings notes.old notes.new) }
    ensures needs_no_worker { W.starts_none workers.now → IsErrOf result NoWorker → ⊥ }
    ensures plain { plain ≡ true → IsErrOf result NoWorker → ⊥ }
{
    let mut held = held;
    let mut status = Vec::with_capacity(alloc, unmap.fpages.len())?;
    for fpage in unmap.fpages {
        let word = unmap.word(*fpage);
        let (left, told) = unmap_word(alloc, held, &word, notes, workers, plain)?;
        held = left;
        status.push(told).map_err(AllocError::from)?;
    }
    Ok((held, status))
}

/// Works one word of an unmap. Notes the pages that it changes.
///
/// With `plain` it goes by recursion, on the calling thread.
///
/// Refused, where memory or a worker is: `NoMemory`, `NoWorker`.
pub fn unmap_word<W: Workers>(
    alloc: Global,
    held: Holdings,
    word: &UnmapWord,
    notes: &mut Notes,
    workers: &W,
    plain: bool,
) -> Result<(Holdings, Rights), CrewError>
    requires space { word.now.space < held.limits.spaces }
    requires fpage { IsFpageOf held.limits.bits word.now.fpage }
    ensures stripped { IfOk result (IsStripped held (pages_in word.now.space word.now.fpage) word.now.fpage.rights word.now.flush) }
    ensures noted { IfOk result (λ r. NotesFollow held.holdings r.0.holdings notes.old notes.new) }
    ensures needs_no_worker { W.starts_none workers.now → IsErrOf result NoWorker → ⊥ }
    ensures plain { plain ≡ true → IsErrOf result NoWorker → ⊥ }
{
    let pages = word.fpage.pages();
    let revoked = word.fpage.rights();
    if pages.end - pages.start == 1 && !plain {
        // A list of one page would cost more than the look at its word.
        let place = Place {
            space: word.space,
            page: pages.start,
        };
        return held.strip(alloc, &[place], revoked, word.flush, notes, workers);
    }
    let named = held.held_among(alloc, word.space, pages)?;
    let places = named.places.as_slice();
    let (left, status) = if plain {
        held.strip_by_recursion(alloc, places, revoked, word.flush, notes)?
    } else {
        held.strip(alloc, places, revoked, word.flush, notes, workers)?
    };
    let left = left.swept(word.space, word.fpage.pages(), places.len(), named.in_vain);
    Ok((left, status))
}

/// Works the words of an unmap as `unmap_words` does, while an observer looks at the entries: once for each word of
/// which a page is held.
///
/// Refused, where memory or a worker is: `NoMemory`; `NoWorker`, also where a thread of the observer is.
pub fn unmap_words_watched<R: Threads + Wait, G: Gate, O: Observe>(
    alloc: Global,
    held: Holdings,
    unmap: &Unmap<'_>,
    crew: &Crew<'_, R, G>,
    observer: &O,
) -> Result<(Holdings, Vec<Rights>), CrewError>
    requires space { unmap.now.space < held.limits.spaces }
    requires fpages { All (IsFpageOf held.limits.bits) unmap.now.fpages.now }
    requires told { (i : ℕ) (words : List ℕ) (pieces : List Piece) → i < length unmap.now.fpages.now
        → IsPhaseOf held.layout (unmap_left unmap.now.space unmap.now.control.flush (take i unmap.now.fpages.now) held.holdings)
        (unmap_left unmap.now.space unmap.now.control.flush (take (i + 1) unmap.now.fpages.now) held.holdings) words pieces
        → O.told observer.now words pieces }
    ensures left { IfOk result (λ r. r.0 ≡ left_with held (unmap_left unmap.now.space unmap.now.control.flush unmap.now.fpages.now held.holdings)) }
    ensures status { IfOk result (λ r. r.1.items ≡ unmap_status unmap.now.space unmap.now.control.flush unmap.now.fpages.now held.holdings) }
{
    let mut held = held;
    let mut status = Vec::with_capacity(alloc, unmap.fpages.len())?;
    for fpage in unmap.fpages {
        let word = unmap.word(*fpage);
        let (left, told) = unmap_word_watched(alloc, held, &word, crew, observer)?;
        held = left;
        status.push(told).map_err(AllocError::from)?;
    }
    Ok((held, status))
}

/// Works one word of a watched unmap.
///
/// Refused, where memory or a worker is: `NoMemory`, `NoWorker`.
fn unmap_word_watched<R: Threads + Wait, G: Gate, O: Observe>(
    alloc: Global,
    held: Holdings,
    word: &UnmapWord,
    crew: &Crew<'_, R, G>,
    observer: &O,
) -> Result<(Holdings, Rights), CrewError>
    requires space { word.now.space < held.limits.spaces }
    requires fpage { IsFpageOf held.limits.bits word.now.fpage }
    requires told { (words : List ℕ) (pieces : List Piece)
        → IsPhaseOf held.layout held.holdings (strip held.holdings (pages_in word.now.space word.now.fpage) word.now.fpage.rights word.now.flush) words pieces
        → O.told observer.now words pieces }
    ensures { IfOk result (IsStripped held (pages_in word.now.space word.now.fpage) word.now.fpage.rights word.now.flush) }
{
    let named = held.held_among(alloc, word.space, word.fpage.pages())?;
    held.strip_watched(
        alloc,
        &named.places,
        word.fpage.rights(),
        word.flush,
        crew,
        observer,
    )
}
