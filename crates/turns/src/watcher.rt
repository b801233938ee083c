//! A watcher looks at the entries of a phase while its turns step.

ghost use Rattle.std.specs.Prelude.{◌≡◌, IsTrue};
ghost use Rattle.space.specs.Word.{is_pack};
ghost use Rattle.turns.specs.Watching.{page_in};

use crate::open::Open;
use crate::receipt::Receipt;
use crate::shared_words::{Seat, SharedWords};
use fpage::Rights;
use space::unpack;
use std::marker::Model;

/// Looks at the entries of a phase, beside its turns and other watchers. It moves between threads. It cannot be cloned.
#[derive(Drop)]
pub struct Watcher {
    seat: Seat,
    number: usize,
}

impl Model for Watcher {
    ghost use Rattle.turns.specs.Watching.{WatcherContent};

    ghost Value = { WatcherContent };

    ghost use Rattle.turns.specs.Watching.{IsWatcher};

    ghost view = { λ w. record { shared = record { id = w.seat.table_id; opening = w.seat.me.0.opening }; number = w.number; notes = w.seat.me.0.notes } };

    ghost invariant = { λ w. IsWatcher (record { shared = record { id = w.seat.table_id; opening = w.seat.me.0.opening }; number = w.number; notes = w.seat.me.0.notes }) w.seat.table_id w.seat.me };
}

impl Watcher {
    ghost use Rattle.std.specs.Prelude.{◌≡◌, ◌≢◌, ◌⊎◌, ℕ, ◌<◌, [], false, length};
    ghost use Rattle.pieces.specs.Distinct.{is_none_of};
    ghost use Rattle.turns.specs.SharedWords.{IsSeat};
    ghost use Rattle.turns.specs.Watching.{IsMoment, KnowsMore, KnowsTheEnd, HasSeen, HasSeenAllOf, entry_before, entry_after, changed_by};

    /// A watcher that knows nothing yet.
    pub(crate) fn new(shared: &SharedWords, seat: Seat, number: usize) -> Watcher
        requires seat { IsSeat shared.now seat.table_id seat.me }
        requires new { seat.me.0.notes ≡ [] }
        requires below { number < shared.now.opening.watchers }
        ensures { result ≡ record { shared = shared.now; number = number; notes = [] } }
    {
        let _ = shared;
        Watcher { seat, number }
    }

    /// Its number among the watchers of its phase.
    pub fn number(&self) -> usize
        ensures number { result ≡ self.now.number }
        ensures below { self.now.number < self.now.shared.opening.watchers }
    {
        self.number
    }

    /// Frame and rights of the entry at an index, or `None` where no page is held, as they are at this moment: those
    /// before all steps of the phase, or those after them. Where these differ and a look has found those after, each
    /// later look of this watcher finds them. A look, whatever its index, is of no earlier moment than the looks of
    /// this watcher before it.
    ///
    /// It is a watcher of this phase. It takes no memory, and waits for nobody.
    pub fn look(&mut self, shared: &Open, index: usize) -> Option<(u32, Rights)>
        requires of { self.old.shared ≡ shared.now }
        requires within { index < length shared.now.opening.words }
        ensures same { (self.new.shared ≡ self.old.shared) × (self.new.number ≡ self.old.number) }
        ensures one { (result ≡ entry_before shared.now.opening index) ⊎ (result ≡ entry_after shared.now.opening index) }
        ensures forward { HasSeen self.old index → result ≡ entry_after shared.now.opening index }
        ensures seen { result ≡ entry_after shared.now.opening index → entry_before shared.now.opening index ≢ entry_after shared.now.opening index → HasSeen self.new index }
        ensures still { (i : ℕ) → HasSeen self.old i → HasSeen self.new i }
        ensures moment { IsMoment self.old index result self.new }
    {
        let shared = shared.shared_words();
        shared.learn_can_be_worked();
        let word = shared.peek(&mut self.seat, index);
        frame_and_rights(word)
    }

    /// A look after a piece has ended: it finds each word that this piece narrowed, put or took as after all steps,
    /// and so does each later look of this watcher.
    ///
    /// Watcher and receipt are of this phase. It takes no memory, and waits for nobody.
    pub fn look_after(
        &mut self,
        shared: &Open,
        receipt: Receipt,
        index: usize,
    ) -> Option<(u32, Rights)>
        requires of { self.old.shared ≡ shared.now }
        requires receipt { receipt.shared ≡ shared.now }
        requires within { index < length shared.now.opening.words }
        ensures same { (self.new.shared ≡ self.old.shared) × (self.new.number ≡ self.old.number) }
        ensures one { (result ≡ entry_before shared.now.opening index) ⊎ (result ≡ entry_after shared.now.opening index) }
        ensures forward { HasSeen self.old index → result ≡ entry_after shared.now.opening index }
        ensures seen { result ≡ entry_after shared.now.opening index → entry_before shared.now.opening index ≢ entry_after shared.now.opening index → HasSeen self.new index }
        ensures still { (i : ℕ) → HasSeen self.old i → HasSeen self.new i }
        ensures moment { IsMoment self.old index result self.new }
        ensures after { is_none_of (changed_by shared.now receipt.piece) index ≡ false → result ≡ entry_after shared.now.opening index }
        ensures told { KnowsTheEnd self.new receipt.piece }
        ensures ended { HasSeenAllOf self.new receipt.piece }
    {
        self.learn(shared.shared_words(), receipt);
        self.look(shared, index)
    }

    /// Learns that a piece has ended.
    fn learn(&mut self, shared: &SharedWords, receipt: Receipt)
        requires of { self.old.shared ≡ shared.now }
        requires receipt { receipt.shared ≡ shared.now }
        ensures same { (self.new.shared ≡ self.old.shared) × (self.new.number ≡ self.old.number) }
        ensures kept { KnowsMore self.old self.new }
        ensures told { KnowsTheEnd self.new receipt.piece }
        ensures ended { HasSeenAllOf self.new receipt.piece }
    {
        shared.learn_can_be_worked();
        shared.collect(&mut self.seat, receipt.into_seat());
    }
}

/// Frame and rights in a word.
fn frame_and_rights(word: u64) -> Option<(u32, Rights)>
    requires { IsTrue (is_pack word) }
    ensures { result ≡ page_in word }
{
    let entry = unpack(word)?;
    Some((entry.frame, entry.rights))
}
