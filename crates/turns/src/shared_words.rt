//! The shared words of a phase. Nothing but this file calls `atomic_table`.

ghost use Rattle.std.specs.Prelude.{◌≡◌, ◌<◌, true, false, Some, length, map, slice_get, slice_index, IfOk, MatchOption};
ghost use Rattle.std.specs.List.{All, range_with_len};
ghost use Rattle.std.specs.List.Sorted.{IsStrictlyIncreasing};
ghost use Rattle.std.specs.Slots.{slots_items, slots_len, IsFull};
ghost use Rattle.pieces.specs.Distinct.{is_none_of};
ghost use Rattle.turns.specs.SharedWords.{replaced};
ghost use Rattle.turns.specs.Tables.{indexes_of, listed};

use crate::rule::{Dealt, Entered, Fixed, Looked, Made, Once, Rule, Seen, TakenBack, Told};
use crate::sharing::Indexes;
use crate::starts::Starts;
use crate::view::View;
use atomic_table::{Closed, Table};
use pieces::Piece;
use std::alloc::{AllocError, Global};
use std::marker::Model;
use std::snapshot::Snapshot;

/// A seat at shared words.
pub(crate) type Seat = atomic_table::Seat<(), View>;

/// All words of a phase, and those of them that are shared.
#[derive(Drop)]
pub(crate) struct SharedWords {
    /// The shared words.
    table: Table<(), View, Fixed, Rule, Global>,
    /// All words, as they were at opening.
    words: Vec<u64>,
    /// Which words are shared.
    indexes: Indexes,
    /// How many of those that are listed stand in front that one piece alone has a step about. The others rise. No proof rests on it.
    /// Where somebody watches, all rise.
    own_words: usize,
    /// Where a look begins to search for its word, where somebody watches.
    starts: Starts,
}

impl Model for SharedWords {
    ghost use Rattle.turns.specs.SharedWords.{SharedContent};

    ghost Value = { SharedContent };

    ghost use Rattle.std.specs.Prelude.{length};
    ghost use Rattle.turns.specs.Tables.{opened, indexes_of};
    ghost use Rattle.turns.specs.SharedWords.{AreShared};

    ghost view = { λ s. record { id = s.table.shared.table_id; opening = opened s.table.shared.key } };

    ghost invariant = { λ s. AreShared (record { id = s.table.shared.table_id; opening = opened s.table.shared.key }) s.words.items (indexes_of (length s.words.items) s.indexes) };
}

impl SharedWords {
    ghost use Rattle.std.specs.Prelude.{◌≡◌, ℕ, ◌<◌, ◌++◌, [], false, length, slice_index, IfOk};
    ghost use Rattle.pieces.specs.Distinct.{is_none_of};
    ghost use Rattle.std.specs.List.{All};
    ghost use Rattle.std.specs.List.Sorted.{IsStrictlyIncreasing};
    ghost use Rattle.pieces.specs.Effects.{keeps, adds, writes, done, words_after};
    ghost use Rattle.turns.specs.Views.{count_in, names_in, none_done, first_of, behind_first, told, HasOnce};
    ghost use Rattle.turns.specs.Rules.{IsNext, IsMade, IsSeen, IsLooked, steps_in};
    ghost use Rattle.turns.specs.SharedWords.{IsPhase, IsSeat};
    ghost use Rattle.turns.specs.Tables.{indexes_of};

    /// Shares words. The first seat has all pieces, and no step is done.
    pub(crate) fn lay(
        alloc: Global,
        words: Vec<u64>,
        pieces: Snapshot<Vec<Piece>>,
        indexes: Indexes,
        own_words: usize,
        watchers: usize,
    ) -> Result<(SharedWords, Seat), AllocError>
        requires phase { IsPhase (record { words = words.items; pieces = pieces.value.items; indexes = indexes_of (length words.items) indexes; watchers = watchers }) }
        requires some { 0 < length (indexes_of (length words.items) indexes) }
        requires within { All (λ i. i < length words.items) (indexes_of (length words.items) indexes) }
        requires rise { 0 < watchers → IsStrictlyIncreasing (indexes_of (length words.items) indexes) }
        ensures opening { IfOk result (λ r. r.0.opening ≡ record { words = words.items; pieces = pieces.value.items; indexes = indexes_of (length words.items) indexes; watchers = watchers }) }
        ensures seat { IfOk result (λ r. IsSeat r.0 r.1.table_id r.1.me × (r.1.me.0.counts ≡ none_done (length pieces.value.items))) }
    {
        let fixed = Fixed {
            words: Snapshot::of(&words),
            pieces,
            indexes: Snapshot::of(&indexes),
            watchers: Snapshot::of(&watchers),
        };
        let listed_words = gathered(alloc, &words, indexes.listed())?;
        let starts = search_starts(alloc, &indexes, words.len(), watchers)?;
        let (table, seat) = Table::of_words(
            alloc,
            words_to_share(&words, &listed_words, &indexes),
            &fixed,
        )?;
        Ok((
            SharedWords {
                table,
                words,
                indexes,
                own_words,
                starts,
            },
            seat,
        ))
    }

    /// Deals a seat for the first piece of another.
    pub(crate) fn deal(&self, seat: &mut Seat) -> Seat
        requires { IsSeat self.now seat.old.table_id seat.old.me }
        ensures others { IsSeat self.now seat.new.table_id seat.new.me × (seat.new.me.0.counts ≡ behind_first seat.old.me.0.counts) }
        ensures first { IsSeat self.now result.table_id result.me × (result.me.0.counts ≡ first_of seat.old.me.0.counts) }
    {
        self.table.shared.split_seat::<Dealt>(seat)
    }

    /// Deals a seat that has no piece, and knows what the other counts.
    pub(crate) fn tell(&self, seat: &mut Seat) -> Seat
        requires { IsSeat self.now seat.old.table_id seat.old.me }
        ensures same { (seat.new.table_id ≡ seat.old.table_id) × (seat.new.me ≡ seat.old.me) }
        ensures told { IsSeat self.now result.table_id result.me × (result.me.0 ≡ told seat.old.me.0) }
    {
        self.table.shared.split_seat::<Told>(seat)
    }

    /// A seat that has no piece.
    pub(crate) fn enter(&self) -> Seat
        ensures { IsSeat self.now result.table_id result.me × (result.me.0.counts ≡ []) × (result.me.0.notes ≡ []) }
    {
        let (_, seat) = self.table.shared.load_new_seat::<Entered>(0);
        seat
    }

    /// Takes another seat back, with its pieces.
    pub(crate) fn collect(&self, seat: &mut Seat, other: Seat)
        requires seat { IsSeat self.now seat.old.table_id seat.old.me }
        requires other { IsSeat self.now other.table_id other.me }
        ensures { IsSeat self.now seat.new.table_id seat.new.me × (seat.new.me.0.counts ≡ seat.old.me.0.counts ++ other.me.0.counts) × (seat.new.me.0.notes ≡ seat.old.me.0.notes ++ other.me.0.notes) }
    {
        self.table.shared.join_seat::<TakenBack>(seat, other);
    }

    /// No two seats have one piece, so none has one twice, however many it took back. A load of a word tells it.
    pub(crate) fn learn_has_once(&self, seat: &mut Seat)
        requires { IsSeat self.now seat.old.table_id seat.old.me }
        ensures same { (seat.new.table_id ≡ seat.old.table_id) × (seat.new.me ≡ seat.old.me) }
        ensures once { HasOnce seat.new.me.0 }
    {
        self.table.shared.load::<Once>(seat, 0);
    }

    /// Ends the sharing: all words, those that were shared as they are now.
    pub(crate) fn finish(self, seat: Seat) -> Vec<u64>
        requires seat { IsSeat self seat.table_id seat.me }
        requires all { (p : ℕ) → p < length self.opening.pieces → 0 < names_in p seat.me.0.counts }
        ensures { result.items ≡ words_after self.opening.words (done (λ p. count_in p seat.me.0.counts) (steps_in self.opening)) }
    {
        let SharedWords {
            table,
            mut words,
            indexes,
            own_words: _,
            starts: _,
        } = self;
        let closed = table.close_with(seat);
        put_back(&mut words, &indexes, &closed);
        closed.free();
        words
    }

    /// Finds the word at an index as it is, which is the next step of a seat's piece.
    pub(crate) fn look(&self, seat: &mut Seat, index: usize, hint: usize) -> u64
        requires seat { IsSeat self.now seat.old.table_id seat.old.me }
        requires next { IsNext seat.old.me.0 (keeps index) }
        ensures seat { IsSeat self.now seat.new.table_id seat.new.me }
        ensures made { IsMade index seat.old.me.0 result seat.new.me.0 }
    {
        let at = place(&self.indexes, &self.words, self.own_words, index, hint);
        self.table.shared.load::<Made>(seat, at)
    }

    /// Finds the word at an index as it is, which is no step of a piece. The seat stays as it is.
    pub(crate) fn see(&self, seat: &mut Seat, index: usize, hint: usize) -> u64
        requires seat { IsSeat self.now seat.old.table_id seat.old.me }
        requires shared { is_none_of self.now.opening.indexes index ≡ false }
        ensures same { (seat.new.table_id ≡ seat.old.table_id) × (seat.new.me ≡ seat.old.me) }
        ensures seen { IsSeen index seat.old.me.0 result }
    {
        let at = place(&self.indexes, &self.words, self.own_words, index, hint);
        self.table.shared.load::<Seen>(seat, at)
    }

    /// Finds the word at an index as it is, for a watcher. A word that is not shared is as it was at opening: no step
    /// is about it.
    pub(crate) fn peek(&self, seat: &mut Seat, index: usize) -> u64
        requires seat { IsSeat self.now seat.old.table_id seat.old.me }
        requires watched { 0 < self.now.opening.watchers }
        requires within { index < length self.now.opening.words }
        ensures seat { IsSeat self.now seat.new.table_id seat.new.me }
        ensures looked { IsLooked index seat.old.me.0 result seat.new.me.0 }
    {
        match shared_place(&self.indexes, &self.words, &self.starts, index) {
            Some(at) => self.table.shared.load::<Looked>(seat, at),
            None => self.words[index],
        }
    }

    /// Adds bits to the word at an index, which is the next step of a seat's piece. Returns the word as it was.
    pub(crate) fn add(&self, seat: &mut Seat, index: usize, bits: u64, hint: usize) -> u64
        requires seat { IsSeat self.now seat.old.table_id seat.old.me }
        requires next { IsNext seat.old.me.0 (adds index bits) }
        ensures seat { IsSeat self.now seat.new.table_id seat.new.me }
        ensures made { IsMade index seat.old.me.0 result seat.new.me.0 }
    {
        let at = place(&self.indexes, &self.words, self.own_words, index, hint);
        self.table.shared.fetch_or::<Made>(seat, at, bits)
    }

    /// Writes the word at an index, which is the next step of a seat's piece. Returns the word as it was.
    pub(crate) fn write(&self, seat: &mut Seat, index: usize, word: u64, hint: usize) -> u64
        requires seat { IsSeat self.now seat.old.table_id seat.old.me }
        requires next { IsNext seat.old.me.0 (writes index word) }
        ensures seat { IsSeat self.now seat.new.table_id seat.new.me }
        ensures made { IsMade index seat.old.me.0 result seat.new.me.0 }
    {
        let at = place(&self.indexes, &self.words, self.own_words, index, hint);
        self.table.shared.swap::<Made>(seat, at, word)
    }

    /// The pieces can be worked on these words. The function does nothing: its contract is what it tells.
    pub(crate) fn learn_can_be_worked(&self)
        ensures { IsPhase self.now.opening }
    {
        let _ = self.words.len();
    }

    /// How many words there are.
    pub(crate) fn len(&self) -> usize
        ensures { result ≡ length self.now.opening.words }
    {
        self.words.len()
    }

    /// The words at opening, for contracts alone.
    pub(crate) fn opening(&self) -> Snapshot<Vec<u64>>
        ensures { result.value.items ≡ self.now.opening.words }
    {
        Snapshot::of(&self.words)
    }

    /// The word at an index as it was at opening.
    pub(crate) fn word(&self, index: usize) -> u64
        requires { index < length self.now.opening.words }
        ensures { result ≡ slice_index self.now.opening.words index }
    {
        self.words[index]
    }
}

/// Where looks of so many watchers begin to search among the words that are shared, of so many.
fn search_starts(
    alloc: Global,
    at: &Indexes,
    words: usize,
    watchers: usize,
) -> Result<Starts, AllocError> {
    if watchers == 0 {
        return Ok(Starts::none(alloc));
    }
    Starts::among(alloc, at.listed(), words)
}

/// The words at some indexes.
fn gathered(alloc: Global, words: &[u64], at: &[usize]) -> Result<Vec<u64>, AllocError>
    requires { All (λ i. i < length words.now) at.now }
    ensures { IfOk result (λ r. r.items ≡ map (slice_index words.now) at.now) }
{
    let mut found = Vec::with_capacity(alloc, at.len())?;
    for index in at {
        found.push(words[*index])?;
    }
    Ok(found)
}

/// The words that are shared, of which those that are listed were gathered.
fn words_to_share<'a>(words: &'a [u64], then: &'a [u64], at: &Indexes) -> &'a [u64]
    requires { then.now ≡ map (slice_index words.now) (listed at.now) }
    ensures { result.now ≡ map (slice_index words.now) (indexes_of (length words.now) at.now) }
{
    match at {
        Indexes::All => words,
        Indexes::Listed(_) => then,
    }
}

/// Puts back the words that were shared, each at its index.
fn put_back(words: &mut [u64], at: &Indexes, shared: &Closed<(), Global>)
    requires within { All (λ i. i < length words.old) (indexes_of (length words.old) at.now) }
    requires full { IsFull shared.now.words }
    requires each { slots_len shared.now.words ≡ length (indexes_of (length words.old) at.now) }
    ensures { words.new ≡ replaced words.old (indexes_of (length words.old) at.now) (slots_items shared.now.words) }
{
    match at {
        Indexes::All => put_all_back(words, shared),
        Indexes::Listed(at) => put_listed_back(words, at, shared),
    }
}

/// Puts back all words, which were shared in their order.
fn put_all_back(words: &mut [u64], shared: &Closed<(), Global>)
    requires full { IsFull shared.now.words }
    requires each { slots_len shared.now.words ≡ length words.old }
    ensures { words.new ≡ replaced words.old (range_with_len 0 (length words.old)) (slots_items shared.now.words) }
{
    for k in 0..words.len() {
        words[k] = shared.word(k);
    }
}

/// Puts back the words that were shared at these indexes.
fn put_listed_back(words: &mut [u64], at: &[usize], shared: &Closed<(), Global>)
    requires within { All (λ i. i < length words.old) at.now }
    requires full { IsFull shared.now.words }
    requires each { slots_len shared.now.words ≡ length at.now }
    ensures { words.new ≡ replaced words.old at.now (slots_items shared.now.words) }
{
    for k in 0..at.len() {
        words[at[k]] = shared.word(k);
    }
}

/// Where the word at an index stands among those that are shared. The hint says where among those that are listed.
fn place(at: &Indexes, words: &[u64], rising: usize, index: usize, hint: usize) -> usize
    requires { is_none_of (indexes_of (length words.now) at.now) index ≡ false }
    ensures { slice_get (indexes_of (length words.now) at.now) result ≡ Some index }
{
    match at {
        Indexes::All => index,
        Indexes::Listed(at) => position(at, rising, index, hint),
    }
}

/// Where the word at an index stands among those that are shared, if it is shared.
fn shared_place(at: &Indexes, words: &[u64], starts: &Starts, index: usize) -> Option<usize>
    requires rise { IsStrictlyIncreasing (indexes_of (length words.now) at.now) }
    requires within { index < length words.now }
    ensures { MatchOption result (is_none_of (indexes_of (length words.now) at.now) index ≡ true) (λ k. slice_get (indexes_of (length words.now) at.now) k ≡ Some index) }
{
    match at {
        Indexes::All => Some(index),
        Indexes::Listed(at) => listed_place(at, starts.start(index), index),
    }
}

/// Where an index stands among these, if it does. The search begins at a position, and goes back and then on from there.
fn listed_place(at: &[usize], start: usize, index: usize) -> Option<usize>
    requires rise { IsStrictlyIncreasing at.now }
    ensures { MatchOption result (is_none_of at.now index ≡ true) (λ k. slice_get at.now k ≡ Some index) }
{
    let mut k = start.min(at.len());
    while k > 0 && at[k - 1] >= index {
        k -= 1;
    }
    while k < at.len() && at[k] < index {
        k += 1;
    }
    if k < at.len() && at[k] == index {
        Some(k)
    } else {
        None
    }
}

/// Where an index stands among these, of which those from `rising` on rise: where the hint says, if it stands there; else where it
/// stands among those that rise; else wherever it is found.
fn position(at: &[usize], rising: usize, index: usize, hint: usize) -> usize
    requires { is_none_of at.now index ≡ false }
    ensures { slice_get at.now result ≡ Some index }
{
    if hint < at.len() && at[hint] == index {
        return hint;
    }
    if rising <= at.len() {
        if let Ok(found) = at[rising..].binary_search(&index) {
            let found = rising + found;
            if found < at.len() && at[found] == index {
                return found;
            }
        }
    }
    first(at, index)
}

/// Where an index stands first among these.
fn first(at: &[usize], index: usize) -> usize
    requires { is_none_of at.now index ≡ false }
    ensures { slice_get at.now result ≡ Some index }
{
    let mut i = 0;
    while at[i] != index {
        i += 1;
    }
    i
}
