//! What is held, as a list of mappings.

use crate::holdings::Holdings;
use crate::mappings::Mappings;
use crate::origins::origins_of_many;
use fpage::Rights;
use maptree::Tree;
use space::{NoMemory, Place};
use std::alloc::Global;

/// What a page holds, and from which page it came.
#[derive(Clone, Copy, Debug, PartialEq, Eq)]
pub struct Mapping {
    pub place: Place,
    pub frame: u32,
    pub rights: Rights,
    /// Which kinds of access the page has seen since its status was last cleared.
    pub status: Rights,
    /// None for a root.
    pub origin: Option<Place>,
}

impl Holdings {
    ghost use Rattle.std.specs.Prelude.{◌≡◌, IfOk, map};
    ghost use Rattle.holdings.specs.Mappings.{mapped_of};

    /// A reader of what is held, by rising place. To make it takes time by what is held, and not by how many pages there are.
    ///
    /// Refused, where memory is: `NoMemory`.
    pub fn by_place(&self, alloc: Global) -> Result<Mappings<'_>, NoMemory>
        ensures { IfOk result (λ mappings. mappings ≡ self.now) }
    {
        let len = count_nodes(&self.trees);
        let origins = origins_of_many(alloc, &self.shards, &self.trees, len)?;
        Ok(Mappings {
            shards: &self.shards,
            trees: &self.trees,
            origins,
            len,
        })
    }

    /// Every mapping, by rising place.
    ///
    /// Refused, where memory is: `NoMemory`.
    pub fn mappings(&self, alloc: Global) -> Result<Vec<Mapping>, NoMemory>
        ensures { IfOk result (λ mappings. map mapped_of mappings.items ≡ self.now.holdings) }
    {
        let reader = self.by_place(alloc)?;
        let mappings = reader.list(alloc)?;
        Ok(mappings)
    }
}

/// How many places trees have together.
fn count_nodes(trees: &[Tree]) -> usize {
    let mut count: usize = 0;
    for tree in trees {
        count = count.saturating_add(tree.len());
    }
    count
}
