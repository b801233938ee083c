//! Lists that are used again from record to record.

use crate::answer::Replies;
use fpage::Access;
use mapdb::Scratch;
use space::Place;
use std::alloc::Global;

/// Lists that are used again from record to record, so that a record takes no memory of its own. What they have means nothing.
#[derive(Drop)]
pub struct Buffers {
    /// The accesses of a call of the database.
    pub(crate) accesses: Vec<(Place, Access)>,
    /// What an answer needs.
    pub(crate) scratch: Scratch,
}

impl Buffers {
    /// Empty lists. This takes no memory.
    pub fn new(alloc: Global) -> Buffers {
        Buffers {
            accesses: Vec::new(alloc),
            scratch: Scratch::new(alloc),
        }
    }

    /// Keeps the memory of replies that were written for those to come.
    pub fn keep(&mut self, replies: Replies) {
        if let Replies::One(reply) = replies {
            self.scratch.keep(reply);
        }
    }
}
