//! A strip at work.

use crate::post::Post;
use crate::shared_words::SharedWords;
use fpage::Rights;
use pieces::steps::{bits, narrowed, remains, status};
use pieces::{Masks, Strip, move_node};
use space::Slice;
use std::snapshot::Snapshot;

/// How many words are found at once.
const AT_ONCE: usize = 16;

/// A strip, some of whose steps were done. The nodes that are kept stand in front, in their order.
#[derive(Drop)]
pub(crate) struct StripWork {
    slice: Slice,
    masks: Masks,
    indexes: Vec<usize>,
    fold: Option<usize>,
    /// How many nodes are kept so far.
    kept: usize,
    /// The union of the status that was found.
    status: Rights,
    /// Where the words of its nodes are shared: a hint.
    hint: u32,
    /// The strip.
    of: Snapshot<Strip>,
}

impl StripWork {
    ghost use Rattle.std.specs.Prelude.{◌≡◌, ℕ, List, ◌+◌, ◌-◌, ◌<◌, ◌≤◌, Some, length, slice_get, slice_index};
    ghost use Rattle.pieces.specs.Steps.{steps, status_in};
    ghost use Rattle.pieces.specs.Values.{kept_nodes};
    ghost use Rattle.pieces.specs.declared.piece.Piece.TheVariants as piece;
    ghost use Rattle.turns.specs.Works.{IsStripWork};

    /// A strip of which no step was done.
    pub(crate) fn new(strip: Strip, hint: usize) -> StripWork
        ensures of { result.of.value ≡ strip }
        ensures work { (w : List ℕ) → IsStripWork w result 0 }
    {
        let of = Snapshot::of(&strip);
        let _ = strip.len();
        let (slice, masks, indexes, fold) = strip.into_parts();
        StripWork {
            slice,
            masks,
            indexes,
            fold,
            kept: 0,
            status: Rights::none(),
            hint: u32::try_from(hint).unwrap_or(u32::MAX),
            of,
        }
    }

    /// How many steps it has.
    pub(crate) fn len(&self) -> usize
        requires { (w : List ℕ) × (k : ℕ) × IsStripWork w self.now k }
        ensures { (w : List ℕ) → result ≡ length (steps w (piece.Strip self.now.of.value)) }
    {
        let folds = if self.fold.is_some() { 1 } else { 0 };
        self.indexes.len() + folds
    }

    /// Where the word of the node at a position is shared: a hint.
    fn hint(&self, k: usize) -> usize {
        (self.hint as usize).wrapping_add(k)
    }

    /// What it found out, when all its steps were done: the nodes that are kept, and their status.
    pub(crate) fn into_found(self) -> (Slice, Rights)
        ensures kept { (w : List ℕ) (k : ℕ) → IsStripWork w self k → length self.of.value.nodes ≤ k → result.0.nodes.items ≡ kept_nodes w self.of.value }
        ensures status { (w : List ℕ) (k : ℕ) → IsStripWork w self k → length self.of.value.nodes ≤ k → result.1 ≡ status_in w self.of.value.indexes }
    {
        let StripWork {
            mut slice,
            masks: _,
            indexes: _,
            fold: _,
            kept,
            status,
            hint: _,
            of: _,
        } = self;
        slice.nodes.truncate(kept);
        (slice, status)
    }

    /// The next step: a word loses rights; behind the last, the fold word gains the status that was found.
    pub(crate) fn step(&mut self, post: &mut Post, shared: &SharedWords)
        requires of { post.old.shared ≡ shared.now }
        requires piece { slice_get shared.now.opening.pieces post.old.number ≡ Some (piece.Strip self.old.of.value) }
        requires work { IsStripWork shared.now.opening.words self.old post.old.steps }
        requires left { post.old.steps < length (steps shared.now.opening.words (piece.Strip self.old.of.value)) }
        ensures post { post.new ≡ record post.old { steps = post.old.steps + 1 } }
        ensures of { self.new.of.value ≡ self.old.of.value }
        ensures work { IsStripWork shared.now.opening.words self.new (post.old.steps + 1) }
    {
        let k = post.steps();
        if k < self.indexes.len() {
            let word = post.see(shared, self.indexes[k], self.hint(k));
            self.narrow(post, shared, k, word);
        } else if let Some(index) = self.fold {
            let found = bits(self.status);
            post.add(shared, index, found, self.hint(0));
        }
    }

    /// All steps that are left.
    pub(crate) fn step_to_end(&mut self, post: &mut Post, shared: &SharedWords)
        requires of { post.old.shared ≡ shared.now }
        requires piece { slice_get shared.now.opening.pieces post.old.number ≡ Some (piece.Strip self.old.of.value) }
        requires work { IsStripWork shared.now.opening.words self.old post.old.steps }
        requires few { post.old.steps ≤ length (steps shared.now.opening.words (piece.Strip self.old.of.value)) }
        ensures post { post.new ≡ record post.old { steps = length (steps shared.now.opening.words (piece.Strip self.old.of.value)) } }
        ensures of { self.new.of.value ≡ self.old.of.value }
        ensures work { IsStripWork shared.now.opening.words self.new post.new.steps }
    {
        let len = self.len();
        while post.steps() < len {
            if post.steps() < self.indexes.len() {
                self.narrow_some(post, shared);
            } else {
                self.step(post, shared);
            }
        }
    }

    /// The steps of the next nodes, of some at once.
    fn narrow_some(&mut self, post: &mut Post, shared: &SharedWords)
        requires of { post.old.shared ≡ shared.now }
        requires piece { slice_get shared.now.opening.pieces post.old.number ≡ Some (piece.Strip self.old.of.value) }
        requires work { IsStripWork shared.now.opening.words self.old post.old.steps }
        requires left { post.old.steps < length self.old.of.value.nodes }
        ensures post { post.new ≡ record post.old { steps = post.new.steps } }
        ensures more { post.old.steps < post.new.steps }
        ensures few { post.new.steps ≤ length self.old.of.value.nodes }
        ensures of { self.new.of.value ≡ self.old.of.value }
        ensures work { IsStripWork shared.now.opening.words self.new post.new.steps }
    {
        let from = post.steps();
        let to = from + AT_ONCE.min(self.indexes.len() - from);
        let found = self.find_words(post, shared, from, to);
        for k in from..to {
            self.narrow(post, shared, k, found[k - from]);
        }
    }

    /// The words of the nodes from a position up to another, which were not narrowed yet: as they were at opening. Their loads go
    /// on side by side; swaps would wait for each other.
    fn find_words(
        &self,
        post: &mut Post,
        shared: &SharedWords,
        from: usize,
        to: usize,
    ) -> [u64; AT_ONCE]
        requires of { post.old.shared ≡ shared.now }
        requires piece { slice_get shared.now.opening.pieces post.old.number ≡ Some (piece.Strip self.now.of.value) }
        requires work { IsStripWork shared.now.opening.words self.now post.old.steps }
        requires to_come { post.old.steps ≤ from }
        requires order { from ≤ to }
        requires few { to ≤ from + 16 }
        requires within { to ≤ length self.now.indexes.items }
        ensures post { post.new ≡ post.old }
        ensures found { (k : ℕ) → from ≤ k → k < to → slice_index result (k - from) ≡ slice_index shared.now.opening.words (slice_index self.now.indexes.items k) }
    {
        let mut found = [0; AT_ONCE];
        for k in from..to {
            found[k - from] = post.see(shared, self.indexes[k], self.hint(k));
        }
        found
    }

    /// The step of the node at a position, whose word was this at opening.
    fn narrow(&mut self, post: &mut Post, shared: &SharedWords, k: usize, word: u64)
        requires of { post.old.shared ≡ shared.now }
        requires piece { slice_get shared.now.opening.pieces post.old.number ≡ Some (piece.Strip self.old.of.value) }
        requires work { IsStripWork shared.now.opening.words self.old post.old.steps }
        requires next { post.old.steps ≡ k }
        requires within { k < length self.old.of.value.nodes }
        requires word { word ≡ slice_index shared.now.opening.words (slice_index self.old.indexes.items k) }
        ensures post { post.new ≡ record post.old { steps = post.old.steps + 1 } }
        ensures of { self.new.of.value ≡ self.old.of.value }
        ensures work { IsStripWork shared.now.opening.words self.new (post.old.steps + 1) }
    {
        shared.learn_can_be_worked();
        let index = self.indexes[k];
        let mask = self.masks.get(k);
        let hint = self.hint(k);
        let found = post.write(shared, index, narrowed(word, mask), hint);
        self.status = self.status.join(status(found));
        if remains(found, mask) {
            move_node(&mut self.slice.nodes, k, self.kept);
            self.kept += 1;
        }
    }
}
