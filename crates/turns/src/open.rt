//! A phase whose words are shared.

ghost use Rattle.std.specs.Prelude.{◌≡◌, ℕ, ◌<◌, ◌≤◌, Bool, true, false, [], length, slice_index_or, IfOk};
ghost use Rattle.std.specs.List.{All};
ghost use Rattle.std.specs.List.Sorted.{IsStrictlyIncreasing};
ghost use Rattle.turns.specs.Closing.{AreAll, AreAllWatchers, OneIsWanting, OneWatcherIsWanting, AreMarked, numbers_of, watcher_numbers};
ghost use Rattle.turns.specs.Views.{none_done};
ghost use Rattle.turns.specs.SharedWords.{IsPhase, IsSeat};
ghost use Rattle.turns.specs.Tables.{indexes_of};
ghost use Rattle.turns.specs.Turns.{new_turns};
ghost use Rattle.turns.specs.Watching.{new_watchers};

use crate::shared_words::{Seat, SharedWords};
use crate::sharing::{Indexes, shared_indexes, watched_indexes};
use crate::turn::Turn;
use crate::watcher::Watcher;
use pieces::{Done, Piece, Shedding, changed_words, learn_are_pieces};
use space::NoMemory;
use std::alloc::{AllocError, Global};
use std::marker::Model;
use std::snapshot::Snapshot;

/// The words of a phase, shared by its turns. Threads have it by reference.
#[derive(Drop)]
pub struct Open {
    shared: SharedWords,
    alloc: Global,
    /// Room for `close`: a flag for each piece and for each watcher, and what the turns hand in.
    flags: Vec<bool>,
    watcher_flags: Vec<bool>,
    dones: Vec<Done>,
    unended: Vec<Unended>,
}

impl Model for Open {
    ghost use Rattle.turns.specs.SharedWords.{SharedContent};

    ghost Value = { SharedContent };

    ghost use Rattle.turns.specs.Closing.{HasRoom};

    ghost view = { λ o. o.shared };

    ghost invariant = { λ o. HasRoom o.shared o.flags o.watcher_flags o.dones o.unended };
}

/// A turn that had steps left when its phase was closed.
#[derive(Clone, Copy, Debug, PartialEq, Eq)]
pub struct Unended {
    /// The number of its piece.
    pub piece: usize,
    /// How many steps of it were done.
    pub steps: usize,
}

/// A turn or a watcher is wanting, so the phase is not closed. All that was given comes back.
#[derive(Drop)]
pub struct NotAll {
    pub shared: Open,
    pub turns: Vec<Turn>,
    pub watchers: Vec<Watcher>,
}

impl Open {
    ghost use Rattle.std.specs.Prelude.{◌≡◌, ◌⊎◌, ℕ, ◌+◌, ◌<◌, true, false, length, IfOk, IfErr, OnOk, OnErr};
    ghost use Rattle.std.specs.List.{All, flat_map};
    ghost use Rattle.pieces.specs.Applied.{applied};
    ghost use Rattle.pieces.specs.Distinct.{is_none_of, are_distinct};
    ghost use Rattle.pieces.specs.Phases.{CanBeWorked};
    ghost use Rattle.turns.specs.Turns.{new_turns, done_of};
    ghost use Rattle.turns.specs.Closing.{unended_of, steps_made, numbers_in, AreAll, AreAllWatchers, OneIsWanting, OneWatcherIsWanting};
    ghost use Rattle.turns.specs.Watching.{new_watchers};

    /// Shares the words that the pieces of a phase name, and gives one turn for each piece, in their order.
    ///
    /// Refused, where memory is: `NoMemory`. Then what was given is gone.
    pub fn open(
        alloc: Global,
        words: Vec<u64>,
        pieces: Vec<Piece>,
    ) -> Result<(Open, Vec<Turn>), NoMemory>
        requires { CanBeWorked words.items pieces.items }
        ensures words { IfOk result (λ r. r.0.opening.words ≡ words.items) }
        ensures pieces { IfOk result (λ r. r.0.opening.pieces ≡ pieces.items) }
        ensures turns { IfOk result (λ r. r.1.items ≡ new_turns r.0 (length pieces.items)) }
        ensures of { IfOk result (λ r. All (λ t. t.shared ≡ r.0) r.1.items) }
        ensures unwatched { IfOk result (λ r. r.0.opening.watchers ≡ 0) }
    {
        learn_are_pieces(&pieces);
        let (at, own) = shared_indexes(alloc, &words, &pieces)?;
        Ok(share(alloc, words, pieces, at, own, 0)?)
    }

    /// Shares the words as `open` does, and also gives so many watchers. They are numbered from 0.
    ///
    /// Refused, where memory is: `NoMemory`. Then what was given is gone.
    pub fn open_watched(
        alloc: Global,
        words: Vec<u64>,
        pieces: Vec<Piece>,
        watchers: usize,
    ) -> Result<(Open, Vec<Turn>, Vec<Watcher>), NoMemory>
        requires { CanBeWorked words.items pieces.items }
        ensures words { IfOk result (λ r. r.0.opening.words ≡ words.items) }
        ensures pieces { IfOk result (λ r. r.0.opening.pieces ≡ pieces.items) }
        ensures turns { IfOk result (λ r. r.1.items ≡ new_turns r.0 (length pieces.items)) }
        ensures of { IfOk result (λ r. All (λ t. t.shared ≡ r.0) r.1.items) }
        ensures watched { IfOk result (λ r. r.0.opening.watchers ≡ watchers) }
        ensures watchers { IfOk result (λ r. r.2.items ≡ new_watchers r.0 watchers) }
        ensures watchers_of { IfOk result (λ r. All (λ w. w.shared ≡ r.0) r.2.items) }
    {
        learn_are_pieces(&pieces);
        let at = watched_indexes(alloc, &words, &pieces)?;
        let (shared, turns) = share(alloc, words, pieces, at, 0, watchers)?;
        let watchers = deal_watchers(alloc, shared.shared_words(), watchers)?;
        Ok((shared, turns, watchers))
    }

    /// How many words there are.
    pub fn words(&self) -> usize
        ensures { result ≡ length self.now.opening.words }
    {
        self.shared.len()
    }

    /// Ends the sharing. The words are those at opening with exactly the steps that the turns made, in whatever order they made
    /// them: also in the middle of their pieces. Each turn hands in what its piece found out, or how many steps were done.
    /// Each piece of the phase is in one of these two lists, once, and nothing else is.
    ///
    /// They are turns and watchers of this phase. With all of them it takes no memory.
    ///
    /// Refused, where a turn or a watcher is wanting: `NotAll`. Then all that was given comes back.
    pub fn close(
        mut self,
        turns: Vec<Turn>,
        watchers: Vec<Watcher>,
    ) -> Result<(Vec<u64>, Vec<Done>, Vec<Unended>), NotAll>
        requires of { All (λ t. t.shared ≡ self) turns.items }
        requires watchers { All (λ w. w.shared ≡ self) watchers.items }
        ensures words { IfOk result (λ r. r.0.items ≡ applied self.opening.words self.opening.pieces (steps_made turns.items)) }
        ensures dones { IfOk result (λ r. r.1.items ≡ flat_map done_of turns.items) }
        ensures unended { IfOk result (λ r. r.2.items ≡ flat_map unended_of turns.items) }
        ensures once { IfOk result (λ r. are_distinct (numbers_in r.1.items r.2.items) ≡ true) }
        ensures each { IfOk result (λ r. (p : ℕ) → p < length self.opening.pieces → is_none_of (numbers_in r.1.items r.2.items) p ≡ false) }
        ensures how_many { IfOk result (λ r. length r.1.items + length r.2.items ≡ length self.opening.pieces) }
        ensures all { OnOk result (AreAll self turns.items) }
        ensures all_watchers { OnOk result (AreAllWatchers self watchers.items) }
        ensures wanting { OnErr result (OneIsWanting self turns.items ⊎ OneWatcherIsWanting self watchers.items) }
        ensures handed_back { IfErr result (λ e. (e.shared ≡ self) × (e.turns.items ≡ turns.items) × (e.watchers.items ≡ watchers.items)) }
    {
        if is_one_wanting(&self.shared, &mut self.flags, &turns)
            || is_watcher_wanting(&self.shared, &mut self.watcher_flags, &watchers)
        {
            return Err(NotAll {
                shared: self,
                turns,
                watchers,
            });
        }
        let Open {
            shared,
            alloc,
            flags: _,
            watcher_flags: _,
            mut dones,
            mut unended,
        } = self;
        let mut seat = shared.enter();
        for turn in turns {
            let piece = turn.piece();
            let steps = turn.steps();
            let (other, done) = turn.end(alloc, &shared);
            shared.collect(&mut seat, other);
            shared.learn_has_once(&mut seat);
            match done {
                Some(done) => dones.push_reserved(done),
                None => unended.push_reserved(Unended { piece, steps }),
            }
        }
        Ok((shared.finish(seat), dones, unended))
    }

    /// The words.
    pub(crate) fn shared_words(&self) -> &SharedWords
        ensures { result.now ≡ self.now }
    {
        &self.shared
    }
}

/// Shares the words at some indexes, of which so many stand in front that one piece alone has a step about, and gives
/// one turn for each piece.
fn share(
    alloc: Global,
    words: Vec<u64>,
    pieces: Vec<Piece>,
    indexes: Indexes,
    own: usize,
    watchers: usize,
) -> Result<(Open, Vec<Turn>), AllocError>
    requires phase { IsPhase (record { words = words.items; pieces = pieces.items; indexes = indexes_of (length words.items) indexes; watchers = watchers }) }
    requires some { 0 < length (indexes_of (length words.items) indexes) }
    requires within { All (λ i. i < length words.items) (indexes_of (length words.items) indexes) }
    requires rise { 0 < watchers → IsStrictlyIncreasing (indexes_of (length words.items) indexes) }
    ensures words { IfOk result (λ r. r.0.opening.words ≡ words.items) }
    ensures pieces { IfOk result (λ r. r.0.opening.pieces ≡ pieces.items) }
    ensures watched { IfOk result (λ r. r.0.opening.watchers ≡ watchers) }
    ensures turns { IfOk result (λ r. r.1.items ≡ new_turns r.0 (length pieces.items)) }
    ensures of { IfOk result (λ r. All (λ t. t.shared ≡ r.0) r.1.items) }
{
    let opening = Snapshot::of(&pieces);
    let (shared, seat) = SharedWords::lay(alloc, words, opening, indexes, own, watchers)?;
    let flags = vec![in alloc; false; pieces.len()]?;
    let watcher_flags = vec![in alloc; false; watchers]?;
    let dones = Vec::with_capacity(alloc, pieces.len())?;
    let unended = Vec::with_capacity(alloc, pieces.len())?;
    let turns = deal(alloc, &shared, seat, pieces)?;
    let open = Open {
        shared,
        alloc,
        flags,
        watcher_flags,
        dones,
        unended,
    };
    Ok((open, turns))
}

/// A turn for each piece.
fn deal(
    alloc: Global,
    shared: &SharedWords,
    mut seat: Seat,
    pieces: Vec<Piece>,
) -> Result<Vec<Turn>, AllocError>
    requires seat { IsSeat shared.now seat.table_id seat.me }
    requires pieces { shared.now.opening.pieces ≡ pieces.items }
    requires all { seat.me.0.counts ≡ none_done (length pieces.items) }
    ensures turns { IfOk result (λ turns. turns.items ≡ new_turns shared.now (length pieces.items)) }
    ensures of { IfOk result (λ turns. All (λ t. t.shared ≡ shared.now) turns.items) }
{
    let mut turns = Vec::with_capacity(alloc, pieces.len())?;
    let mut hint: usize = 0;
    let mut left = Shedding::new(pieces);
    while let Some(piece) = left.next() {
        let own = shared.deal(&mut seat);
        let number = turns.len();
        let next = hint.wrapping_add(changed_words(&piece));
        turns.push(Turn::new(alloc, shared, own, number, piece, hint)?)?;
        hint = next;
    }
    Ok(turns)
}

/// So many watchers, which are all of the phase.
fn deal_watchers(
    alloc: Global,
    shared: &SharedWords,
    count: usize,
) -> Result<Vec<Watcher>, AllocError>
    requires { shared.now.opening.watchers ≡ count }
    ensures watchers { IfOk result (λ watchers. watchers.items ≡ new_watchers shared.now count) }
    ensures of { IfOk result (λ watchers. All (λ w. w.shared ≡ shared.now) watchers.items) }
{
    let mut watchers = Vec::with_capacity(alloc, count)?;
    for number in 0..count {
        watchers.push(Watcher::new(shared, shared.enter(), number))?;
    }
    Ok(watchers)
}

/// Whether a piece has no turn among these.
fn is_one_wanting(shared: &SharedWords, flags: &mut [bool], turns: &[Turn]) -> bool
    requires each { length flags.old ≡ length shared.now.opening.pieces }
    requires of { All (λ t. t.shared ≡ shared.now) turns.now }
    ensures each { length flags.new ≡ length flags.old }
    ensures yes { result ≡ true → OneIsWanting shared.now turns.now }
    ensures no { result ≡ false → AreAll shared.now turns.now }
{
    clear(flags);
    mark(shared, flags, turns);
    first_unmarked(flags) < flags.len()
}

/// Whether a watcher of the phase is none of these.
fn is_watcher_wanting(shared: &SharedWords, flags: &mut [bool], watchers: &[Watcher]) -> bool
    requires each { length flags.old ≡ shared.now.opening.watchers }
    requires of { All (λ w. w.shared ≡ shared.now) watchers.now }
    ensures each { length flags.new ≡ length flags.old }
    ensures yes { result ≡ true → OneWatcherIsWanting shared.now watchers.now }
    ensures no { result ≡ false → AreAllWatchers shared.now watchers.now }
{
    clear(flags);
    mark_watchers(shared, flags, watchers);
    first_unmarked(flags) < flags.len()
}

/// Where the first flag stands that is not set; the number of flags where all are.
fn first_unmarked(flags: &[bool]) -> usize
    ensures within { result ≤ length flags.now }
    ensures before { (q : ℕ) → q < result → (d : Bool) → slice_index_or flags.now q d ≡ true }
    ensures here { result < length flags.now → (d : Bool) → slice_index_or flags.now result d ≡ false }
{
    let mut p = 0;
    while p < flags.len() && flags[p] {
        p += 1;
    }
    p
}

/// Takes all flags away.
fn clear(flags: &mut [bool])
    ensures each { length flags.new ≡ length flags.old }
    ensures none { AreMarked flags.new [] }
{
    for p in 0..flags.len() {
        flags[p] = false;
    }
}

/// Flags the pieces of turns.
fn mark(shared: &SharedWords, flags: &mut [bool], turns: &[Turn])
    requires each { length flags.old ≡ length shared.now.opening.pieces }
    requires none { AreMarked flags.old [] }
    requires of { All (λ t. t.shared ≡ shared.now) turns.now }
    ensures each { length flags.new ≡ length flags.old }
    ensures marked { AreMarked flags.new (numbers_of turns.now) }
{
    let _ = shared;
    for turn in turns {
        flags[turn.piece()] = true;
    }
}

/// Flags the numbers of watchers.
fn mark_watchers(shared: &SharedWords, flags: &mut [bool], watchers: &[Watcher])
    requires each { length flags.old ≡ shared.now.opening.watchers }
    requires none { AreMarked flags.old [] }
    requires of { All (λ w. w.shared ≡ shared.now) watchers.now }
    ensures each { length flags.new ≡ length flags.old }
    ensures marked { AreMarked flags.new (watcher_numbers watchers.now) }
{
    let _ = shared;
    for watcher in watchers {
        flags[watcher.number()] = true;
    }
}
