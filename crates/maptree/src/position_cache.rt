//! Which blocks have which positions.

use std::alloc::{AllocError, Global};

/// For how many positions, one after another, a block is noted.
const STRIDE: usize = 32;

/// A cache is old once one in so many nodes has come or gone, and `FEW` more.
const STEADY: usize = 1_024;

const FEW: usize = 16;

/// Which block of a list had each position when that was noted; by now it may be another. Who asks searches from that block
/// on, so no clause speaks of the cache: a wrong block, or none, costs time and changes no answer.
#[derive(Drop)]
pub struct PositionCache {
    /// For the first of each 32 positions its block.
    blocks: Vec<u32>,
    /// How many nodes have come or gone since.
    moved: usize,
}

impl PositionCache {
    pub fn none(alloc: Global) -> PositionCache {
        PositionCache {
            blocks: Vec::new(alloc),
            moved: 0,
        }
    }

    /// Memory for so many more nodes.
    pub fn reserve(&mut self, n: usize) -> Result<(), AllocError> {
        self.blocks.reserve(n / STRIDE + 1)
    }

    /// The block that had a position.
    pub fn block_at(&self, position: usize) -> usize {
        match self.blocks.get(position / STRIDE) {
            Some(block) => *block as usize,
            None => usize::MAX,
        }
    }

    /// So many nodes came or went.
    pub fn tell(&mut self, moved: usize) {
        self.moved = self.moved.saturating_add(moved);
    }

    /// Whether many of so many nodes came or went.
    pub fn are_old(&self, nodes: usize) -> bool {
        self.moved > nodes / STEADY + FEW
    }

    /// Nothing is noted.
    pub fn clear(&mut self) {
        self.moved = 0;
        self.blocks.clear();
    }

    /// Those of the first so many positions for which no block is noted yet have this one. This takes no memory: what there is no
    /// room for is not noted.
    pub fn put(&mut self, end: usize, block: usize) {
        let number = u32::try_from(block).unwrap_or(u32::MAX);
        let len = (end / STRIDE + 1).min(self.blocks.capacity());
        for _ in self.blocks.len()..len {
            let _ = self.blocks.push(number);
        }
    }
}
