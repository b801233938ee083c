//! Rights revoked while an observer looks at the entries.

use crate::holdings::Holdings;
use crew::{Alone, Crew, CrewError, Gate, Observe, work_watched};
use fpage::Rights;
use pieces::{Done, Piece};
use space::Place;
use std::alloc::Global;
use std::sync::Wait;
use std::thread::Threads;

impl Holdings {
    ghost use Rattle.std.specs.Prelude.{ℕ, ◌<◌, List, length, IfOk};
    ghost use Rattle.std.specs.List.{All};
    ghost use Rattle.model.specs.Definitions.Strip.{strip};
    ghost use Rattle.pieces.specs.Phases.{CanBeWorked};
    ghost use Rattle.pieces.specs.declared.piece.Piece.{Piece};
    ghost use Rattle.crew.specs.Worked.{IsWorked};
    ghost use Rattle.holdings.specs.Contents.{IsStripped};
    ghost use Rattle.holdings.specs.Observing.{IsPhaseOf};
    ghost use Rattle.holdings.specs.Places.{IsWithin, any_of};

    /// Takes rights from pages and from all that derives from them as `strip` does, while an observer looks at the
    /// entries, on a thread of its own: once, where any of the pages is held, and else not at all.
    ///
    /// Refused, where memory or a worker is: `NoMemory`; `NoWorker`, also where the observer's thread is.
    pub fn strip_watched<R: Threads + Wait, G: Gate, O: Observe>(
        self,
        alloc: Global,
        places: &[Place],
        revoked: Rights,
        flush: bool,
        crew: &Crew<'_, R, G>,
        observer: &O,
    ) -> Result<(Self, Rights), CrewError>
        requires within { All (IsWithin self.limits) places.now }
        requires told { (words : List ℕ) (pieces : List Piece) → IsPhaseOf self.layout self.holdings (strip self.holdings (any_of places.now) revoked flush) words pieces → O.told observer.now words pieces }
        ensures { IfOk result (IsStripped self (any_of places.now) revoked flush) }
    {
        let most = crew.piece_length();
        let work = |words: Vec<u64>, pieces: Vec<Piece>| -> Result<(Vec<u64>, Vec<Done>), CrewError>
            requires { (0 < length pieces.items) × CanBeWorked words.items pieces.items × O.told observer.now words.items pieces.items }
            ensures { IfOk result (λ w. IsWorked words.items pieces.items w.0.items w.1.items) }
        { work_watched(crew, alloc, words, pieces, observer) };
        self.strip_in_pieces(alloc, places, revoked, flush, most, &Alone, work)
    }
}
