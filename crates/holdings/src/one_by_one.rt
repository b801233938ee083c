//! Pages that are stripped one after another, each with all that derives from it, on the words and trees themselves.

ghost use Rattle.std.specs.Prelude.{◌≡◌, ℕ, ◌+◌, ◌-◌, ◌<◌, ◌≤◌, true, length, slice_index, IfOk, OnOk};
ghost use Rattle.space.specs.declared.place.Place.{Place};
ghost use Rattle.space.specs.Shards.{IsLaidOutAs, index_of};
ghost use Rattle.maptree.specs.Origins.{place_at, IsRun};
ghost use Rattle.model.specs.Definitions.Holdings.{only};
ghost use Rattle.model.specs.Definitions.Strip.{strip, strip_word};
ghost use Rattle.holdings.specs.Inner.Held.{is_listed, links_in, limits_in, holdings_in};
ghost use Rattle.holdings.specs.Inner.Notes.{AreLosersNoted, NotesAdd, losing_from};
ghost use Rattle.holdings.specs.Inner.Sound.{AreSound, AreLoose};
ghost use Rattle.holdings.specs.Inner.Stripping.{IsLeft};
ghost use Rattle.holdings.specs.Inner.Words.{IsThere};
ghost use Rattle.holdings.specs.Noting.{NotesFollow};

use crate::holdings::Holdings;
use crate::notes::Notes;
use crate::noting::{note_lost, note_run_if_asked};
use crate::prune::{Left, prune_run};
use crate::recursion::visit;
use fpage::Rights;
use maptree::{Nodes, Tree};
use space::{NoMemory, Place, Shards};
use std::alloc::{AllocError, Global};
use std::ops::Range;

/// How many words a walk finds before it changes them, so that their loads go on side by side.
const FOUND_AT_ONCE: usize = 16;

/// How many nodes are so few that their words are found one by one.
const SHORT: usize = 32;

/// For how many notes there is room at once, so that few do not take memory time and again.
const FIRST_NOTES: usize = 32;

/// The order in which a page and all that derives from it lose their rights.
#[derive(Clone, Copy, Debug, PartialEq, Eq)]
pub enum Order {
    /// That of the recursion: first what derives from a page, and then the page.
    Recursion,
    /// That of the tree's list.
    List,
}

impl Holdings {
    ghost use Rattle.std.specs.Prelude.{IfOk};
    ghost use Rattle.std.specs.List.{All};
    ghost use Rattle.holdings.specs.Contents.{IsStripped};
    ghost use Rattle.holdings.specs.Noting.{NotesFollow};
    ghost use Rattle.holdings.specs.Places.{IsWithin, any_of};

    /// The same as `strip`, page by page of those that are still held.
    ///
    /// Refused, where memory is: `NoMemory`.
    pub(crate) fn strip_one_by_one(
        self,
        alloc: Global,
        places: &[Place],
        revoked: Rights,
        flush: bool,
        notes: &mut Notes,
        order: Order,
    ) -> Result<(Self, Rights), NoMemory>
        requires { All (IsWithin self.limits) places.now }
        ensures stripped { IfOk result (IsStripped self (any_of places.now) revoked flush) }
        ensures noted { IfOk result (λ r. NotesFollow self.holdings r.0.holdings notes.old notes.new) }
    {
        let Holdings {
            mut shards,
            mut trees,
        } = self;
        notes.make_room(FIRST_NOTES)?;
        let mut status = Rights::none();
        for place in places {
            let Some((entry, index)) = shards.get_with_index(*place) else {
                continue;
            };
            let frame = entry.frame as usize;
            let gained = strip_place(
                alloc,
                &mut shards,
                &mut trees,
                frame,
                *place,
                index,
                revoked,
                flush,
                notes,
                order,
            )?;
            status = status.join(gained);
        }
        Ok((Holdings { shards, trees }, status))
    }
}

/// Strips a place, whose word has this index, takes out of its tree what is gone then, and gives back the status that was
/// gathered. Notes what changes.
fn strip_place(
    alloc: Global,
    shards: &mut Shards,
    trees: &mut [Tree],
    frame: usize,
    place: Place,
    index: usize,
    revoked: Rights,
    flush: bool,
    notes: &mut Notes,
    order: Order,
) -> Result<Rights, NoMemory>
    requires sound { AreSound shards.old trees.old }
    requires frame { frame < length trees.old }
    requires listed { is_listed trees.old frame place ≡ true }
    requires index { index ≡ index_of shards.old place }
    ensures status { IfOk result (λ status. status ≡ strip_word (holdings_in shards.old trees.old) (only place)) }
    ensures left { OnOk result (holdings_in shards.new trees.new ≡ strip (holdings_in shards.old trees.old) (only place) revoked flush) }
    ensures sound { OnOk result (AreSound shards.new trees.new) }
    ensures limits { OnOk result (limits_in shards.new trees.new ≡ limits_in shards.old trees.old) }
    ensures layout { OnOk result (IsLaidOutAs shards.old shards.new) }
    ensures noted { OnOk result (NotesFollow (holdings_in shards.old trees.old) (holdings_in shards.new trees.new) notes.old notes.new) }
{
    let tree = &trees[frame];
    let i = tree.find(place).unwrap();
    let run = tree.run_of(i);
    let stripped = strip_run(
        alloc, shards, trees, frame, &run, index, revoked, flush, notes, order,
    )?;
    prune_run(alloc, shards, &mut trees[frame], run, stripped.left)?;
    Ok(stripped.status)
}

/// What a strip of the first place of a run gathered and left.
#[derive(Clone, Copy)]
struct Stripped {
    status: Rights,
    /// What is known to be left of the places of the run.
    left: Left,
}

/// Strips the first place of a run, whose word has this index: each of its places loses the rights, the first one if it
/// is to, and its status is taken. What was taken is added to the status of the origin of the run. Gives back what was
/// taken, and what is left of the places. Notes the places that lose a right. The tree stays: it may then list places that
/// hold nothing.
fn strip_run(
    alloc: Global,
    shards: &mut Shards,
    trees: &[Tree],
    frame: usize,
    run: &Range<usize>,
    index: usize,
    revoked: Rights,
    flush: bool,
    notes: &mut Notes,
    order: Order,
) -> Result<Stripped, AllocError>
    requires loose { AreLoose shards.old trees.now }
    requires frame { frame < length trees.now }
    requires run { IsRun (links_in trees.now frame) run.now }
    requires some { run.now.start < run.now.end }
    requires within { run.now.end ≤ length (links_in trees.now frame) }
    requires index { (d : Place) → index ≡ index_of shards.old (place_at (links_in trees.now frame) run.now.start d) }
    ensures status { IfOk result (λ stripped. (d : Place) → stripped.status ≡ strip_word (holdings_in shards.old trees.now) (only (place_at (links_in trees.now frame) run.now.start d))) }
    ensures left { OnOk result ((d : Place) → holdings_in shards.new trees.now ≡ strip (holdings_in shards.old trees.now) (only (place_at (links_in trees.now frame) run.now.start d)) revoked flush) }
    ensures loose { OnOk result (AreLoose shards.new trees.now) }
    ensures layout { OnOk result (IsLaidOutAs shards.old shards.new) }
    ensures run_left { IfOk result (λ stripped. IsLeft shards.new (links_in trees.now frame) run.now stripped.left) }
    ensures noted { OnOk result (NotesAdd (AreLosersNoted shards.old (links_in trees.now frame) (losing_from flush run.now.start) run.now.end revoked) notes.old notes.new) }
{
    if let Order::Recursion = order {
        return strip_run_by_recursion(alloc, shards, trees, frame, run, revoked, flush, notes);
    }
    let tree = &trees[frame];
    tree.learn_places_are_distinct();
    let mut nodes = tree.nodes();
    let narrowed = shards.narrow_at(index, revoked, flush);
    note_lost(&mut nodes, run.start, flush && narrowed.lost, notes)?;
    let mut status = narrowed.status;
    let mut left = Left::of_none(run.start).with_next(run.start, narrowed.held);
    let is_short = run.end - run.start <= SHORT;
    let mut found = [0; FOUND_AT_ONCE];
    let mut from = run.start + 1;
    while from < run.end {
        let to = from + FOUND_AT_ONCE.min(run.end - from);
        if !is_short {
            find_words(shards, &mut nodes, from, to, &mut found);
        }
        for i in from..to {
            let index = if is_short {
                shards.index(nodes.at(i).place)
            } else {
                found[i - from]
            };
            let narrowed = shards.narrow_at(index, revoked, true);
            note_lost(&mut nodes, i, narrowed.lost, notes)?;
            status = status.join(narrowed.status);
            left = left.with_next(i, narrowed.held);
        }
        from = to;
    }
    let status = status.rights();
    if status.is_empty() {
        // No origin gains anything.
        return Ok(Stripped { status, left });
    }
    if let Some(origin) = tree.origin_of(run.start) {
        shards.add_status(nodes.at(origin).place, status);
    }
    Ok(Stripped { status, left })
}

/// Strips the first place of a run, first what derives from it.
fn strip_run_by_recursion(
    alloc: Global,
    shards: &mut Shards,
    trees: &[Tree],
    frame: usize,
    run: &Range<usize>,
    revoked: Rights,
    flush: bool,
    notes: &mut Notes,
) -> Result<Stripped, AllocError>
    requires loose { AreLoose shards.old trees.now }
    requires frame { frame < length trees.now }
    requires run { IsRun (links_in trees.now frame) run.now }
    requires some { run.now.start < run.now.end }
    requires within { run.now.end ≤ length (links_in trees.now frame) }
    ensures status { IfOk result (λ stripped. (d : Place) → stripped.status ≡ strip_word (holdings_in shards.old trees.now) (only (place_at (links_in trees.now frame) run.now.start d))) }
    ensures left { OnOk result ((d : Place) → holdings_in shards.new trees.now ≡ strip (holdings_in shards.old trees.now) (only (place_at (links_in trees.now frame) run.now.start d)) revoked flush) }
    ensures loose { OnOk result (AreLoose shards.new trees.now) }
    ensures layout { OnOk result (IsLaidOutAs shards.old shards.new) }
    ensures run_left { IfOk result (λ stripped. IsLeft shards.new (links_in trees.now frame) run.now stripped.left) }
    ensures noted { OnOk result (NotesAdd (AreLosersNoted shards.old (links_in trees.now frame) (losing_from flush run.now.start) run.now.end revoked) notes.old notes.new) }
{
    note_run_if_asked(shards, &trees[frame], run, revoked, flush, notes)?;
    let status = visit(alloc, shards, trees, frame, run, revoked, flush)?;
    // The recursion keeps no account of what it leaves.
    let left = Left::unknown(run.start);
    Ok(Stripped { status, left })
}

/// Finds the indexes of the words of the nodes from a position up to another, which are 16 at most.
#[inline(never)]
fn find_words(
    shards: &Shards,
    nodes: &mut Nodes<'_>,
    from: usize,
    to: usize,
    found: &mut [usize; FOUND_AT_ONCE],
)
    requires order { from ≤ to }
    requires few { to ≤ from + 16 }
    requires within { to ≤ length nodes.old }
    requires words { (j : ℕ) (d : Place) → j < length nodes.old → IsThere shards.now (place_at nodes.old j d) }
    ensures found { (j : ℕ) (d : Place) → from ≤ j → j < to → slice_index found.new (j - from) ≡ index_of shards.now (place_at nodes.old j d) }
    ensures same { nodes.new ≡ nodes.old }
{
    for j in from..to {
        found[j - from] = shards.index(nodes.at(j).place);
    }
}
