//! Rights revoked from pages and from all that derives from them.

use crate::holdings::Holdings;
use crate::notes::Notes;
use crate::one_by_one::Order;
use crate::phase::work_phase_by;
use crate::planning::{outer_places, plan_strip};
use crate::prune::prune_gone;
use crew::{CrewError, Workers};
use fpage::Rights;
use pieces::{Done, Piece, StripPlan};
use space::{NoMemory, Place};
use std::alloc::Global;

impl Holdings {
    ghost use Rattle.std.specs.Prelude.{◌<◌, ◌≤◌, length, IfOk, IsErrOf};
    ghost use Rattle.std.specs.List.{All};
    ghost use Rattle.pieces.specs.Phases.{CanBeWorked};
    ghost use Rattle.crew.specs.Worked.{IsWorked};
    ghost use Rattle.crew.specs.declared.error.CrewError.TheVariants.{NoWorker};
    ghost use Rattle.model.specs.Definitions.Strip.{strip};
    ghost use Rattle.holdings.specs.Contents.{IsStripped};
    ghost use Rattle.holdings.specs.Inner.StripPlans.{StandFor};
    ghost use Rattle.holdings.specs.Noting.{NotesFollow};
    ghost use Rattle.holdings.specs.Observing.{IsPhaseOf};
    ghost use Rattle.holdings.specs.Places.{IsWithin, any_of};

    /// Takes rights from all that derives from some pages, and with `flush` from these pages too. The status of all of
    /// them is cleared and returned, and what it was is added to that of the page from which they come. A page that has no
    /// rights left is no longer held (L4 X.2, Unmap).
    ///
    /// Each tree is passed over by the outermost runs of the pages that it has, once each. Notes the pages that lose a right,
    /// where notes are asked for.
    ///
    /// Refused, where memory or a worker is: `NoMemory`, `NoWorker`.
    pub fn strip<W: Workers>(
        self,
        alloc: Global,
        places: &[Place],
        revoked: Rights,
        flush: bool,
        notes: &mut Notes,
        workers: &W,
    ) -> Result<(Self, Rights), CrewError>
        requires within { All (IsWithin self.limits) places.now }
        ensures stripped { IfOk result (IsStripped self (any_of places.now) revoked flush) }
        ensures noted { IfOk result (λ r. NotesFollow self.holdings r.0.holdings notes.old notes.new) }
        ensures needs_no_worker { W.starts_none workers.now → IsErrOf result NoWorker → ⊥ }
    {
        let outlook = self.outlook(places, workers);
        let mut room = Vec::new(alloc);
        let places = self.outermost(alloc, places, outlook.are_apart, &mut room)?;
        if self.are_stripped_alone(places, outlook.most_mappings, workers) {
            let order = Order::List;
            let stripped = self.strip_one_by_one(alloc, places, revoked, flush, notes, order)?;
            return Ok(stripped);
        }
        self.note_strip(places, revoked, flush, notes)?;
        let most = workers.piece_length();
        self.strip_in_pieces(
            alloc,
            places,
            revoked,
            flush,
            most,
            workers,
            |words, pieces| workers.work(alloc, words, pieces),
        )
    }

    /// Pages of which none derives from another, and from which all derives that derives from these: these, where they are
    /// told apart, or some of them, which are put into the room.
    fn outermost<'a>(
        &self,
        alloc: Global,
        places: &'a [Place],
        are_apart: bool,
        room: &'a mut Vec<Place>,
    ) -> Result<&'a [Place], NoMemory>
        requires { All (IsWithin self.now.limits) places.now }
        ensures within { IfOk result (λ outer. All (IsWithin self.now.limits) outer.now) }
        ensures stand { IfOk result (λ outer. StandFor self.now places.now outer.now) }
    {
        if places.len() < 2 || are_apart {
            return Ok(places);
        }
        *room = outer_places(alloc, &self.shards, &self.trees, places)?;
        Ok(room)
    }

    /// The same strip as one phase, if any of the pages is held. Workers plan it. A function is given the words and the
    /// pieces, and works them.
    ///
    /// Refused, where memory is, `NoMemory`, and as the function is.
    pub(crate) fn strip_in_pieces<W: Workers, F>(
        self,
        alloc: Global,
        places: &[Place],
        revoked: Rights,
        flush: bool,
        most: usize,
        planners: &W,
        work: F,
    ) -> Result<(Self, Rights), CrewError>
    where
        F: FnOnce(Vec<u64>, Vec<Piece>) -> Result<(Vec<u64>, Vec<Done>), CrewError>,
        requires within { All (IsWithin self.limits) places.now }
        requires most { 1 ≤ most }
        requires may { (words pieces : _) → IsPhaseOf self.layout self.holdings (strip self.holdings (any_of places.now) revoked flush) words.items pieces.items → F.pre work words pieces }
        requires does { (words pieces r : _) → 0 < length pieces.items → CanBeWorked words.items pieces.items → F.post work words pieces r
            → IfOk r (λ w. IsWorked words.items pieces.items w.0.items w.1.items) }
        ensures stripped { IfOk result (IsStripped self (any_of places.now) revoked flush) }
        ensures needs_no_worker { ((words pieces r : _) → F.post work words pieces r → IsErrOf r NoWorker → ⊥) → IsErrOf result NoWorker → ⊥ }
    {
        let Holdings {
            mut shards,
            mut trees,
        } = self;
        let plan = plan_strip(
            alloc, &shards, &trees, places, revoked, flush, most, planners,
        )?;
        let StripPlan { frames, pieces } = plan;
        if pieces.is_empty() {
            return Ok((Holdings { shards, trees }, Rights::none()));
        }
        let found = work_phase_by(alloc, &mut shards, pieces, work)?;
        prune_gone(alloc, &shards, &mut trees, &frames, &found.slices)?;
        Ok((Holdings { shards, trees }, found.status))
    }
}
