use crate::masks::Masks;
use fpage::Rights;
use space::{Node, Slice};
use std::alloc::{AllocError, Global};
use std::marker::Model;

/// A part of a tree's list whose pages lose rights (L4 X.2, Unmap).
///
/// Each node has a mask, the rights that it loses, and the index of its word. The status of all of them goes to the fold word,
/// the word of the origin of the run in which the part lies; where the run begins with a root there is none. No two nodes have
/// one word, and the fold word is none of theirs.
#[derive(Drop)]
pub struct Strip {
    slice: Slice,
    masks: Masks,
    indexes: Vec<usize>,
    fold: Option<usize>,
}

impl Model for Strip {
    ghost use Rattle.pieces.specs.Contents.{StripContent};

    ghost Value = { StripContent };

    ghost use Rattle.pieces.specs.Contents.{IsStrip};
    ghost use Rattle.pieces.specs.Forms.{content_of};

    ghost view = { λ s. content_of s.slice s.masks s.indexes s.fold };

    ghost invariant = { λ s. IsStrip (content_of s.slice s.masks s.indexes s.fold) };
}

impl Strip {
    ghost use Rattle.std.specs.Prelude.{◌≡◌, ◌<◌, ◌==◌, true, length, get_or, IfOk};
    ghost use Rattle.pieces.specs.Distinct.{are_distinct};
    ghost use Rattle.pieces.specs.Masks.{masks_of};
    ghost use Rattle.pieces.specs.Contents.{IsStrip, is_fold_apart};
    ghost use Rattle.pieces.specs.Forms.{content_of};

    /// The nodes of a part, with as many masks and indexes of words, and the index of the fold word.
    ///
    /// Refused, where memory is: `AllocError`.
    pub fn new(
        alloc: Global,
        slice: Slice,
        masks: Vec<Rights>,
        indexes: Vec<usize>,
        fold: Option<usize>,
    ) -> Result<Strip, AllocError>
        requires { IsStrip (content_of slice masks.items indexes fold) }
        ensures { IfOk result (λ strip. strip ≡ content_of slice masks.items indexes fold) }
    {
        let masks = Masks::new(alloc, masks)?;
        Ok(Strip {
            slice,
            masks,
            indexes,
            fold,
        })
    }

    /// The nodes of a part of a run, which all lose these rights; the first is spared if `spared` says so. It is spared where
    /// the part begins its run and there is no flush. This takes no memory.
    pub fn of_part(
        slice: Slice,
        indexes: Vec<usize>,
        fold: Option<usize>,
        revoked: Rights,
        spared: bool,
    ) -> Strip
        requires each { length indexes.items ≡ length slice.nodes.items }
        requires distinct { are_distinct indexes.items ≡ true }
        requires apart { is_fold_apart fold indexes.items ≡ true }
        ensures { result ≡ record { nodes = slice.nodes.items; masks = masks_of spared revoked (length slice.nodes.items); indexes = indexes.items; fold = fold } }
    {
        let masks = Masks::of_run(slice.nodes.len(), revoked, spared);
        Strip {
            slice,
            masks,
            indexes,
            fold,
        }
    }

    /// How many nodes it has.
    pub fn len(&self) -> usize
        ensures len { result ≡ length self.now.nodes }
        ensures strip { IsStrip self.now }
    {
        self.slice.nodes.len()
    }

    /// Whether it has no nodes.
    pub fn is_empty(&self) -> bool
        ensures { result ≡ (length self.now.nodes == 0) }
    {
        self.slice.nodes.is_empty()
    }

    /// The node at a position.
    pub fn node(&self, i: usize) -> Node
        requires { i < length self.now.nodes }
        ensures { result ≡ get_or self.now.nodes i result }
    {
        self.slice.nodes[i]
    }

    /// The rights that the node at a position loses.
    pub fn mask(&self, i: usize) -> Rights
        requires { i < length self.now.nodes }
        ensures { result ≡ get_or self.now.masks i result }
    {
        self.masks.get(i)
    }

    /// The indexes of the words of all nodes, in order.
    pub fn indexes(&self) -> &[usize]
        ensures { result.now ≡ self.now.indexes }
    {
        &self.indexes
    }

    /// The index of the fold word, if there is one.
    pub fn fold(&self) -> Option<usize>
        ensures { result ≡ self.now.fold }
    {
        self.fold
    }

    /// What it was made from.
    pub fn into_parts(self) -> (Slice, Masks, Vec<usize>, Option<usize>)
        ensures { content_of result.0 result.1 result.2 result.3 ≡ self }
    {
        let Strip {
            slice,
            masks,
            indexes,
            fold,
        } = self;
        (slice, masks, indexes, fold)
    }
}
