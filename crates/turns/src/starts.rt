//! Where the search for an index among rising ones begins.

ghost use Rattle.std.specs.Prelude.{◌≤◌, length};

use std::alloc::{AllocError, Global};

/// How many words a block has, and how many a run of blocks.
const BLOCK_WORDS: usize = 16;

const RUN_BLOCKS: usize = 256;

const RUN_WORDS: usize = BLOCK_WORDS * RUN_BLOCKS;

/// Where the search for an index among rising ones begins: few steps from where it stands. It finds the same wherever it
/// begins, so no proof rests on this.
#[derive(Drop)]
pub(crate) struct Starts {
    runs: Vec<Run>,
    /// For each block of a run, how many indexes of the run are of the blocks before it, and then how many are of all:
    /// first those of a run without any, then those of each run that has some.
    blocks: Vec<u16>,
}

/// A run of 4,096 words.
#[derive(Clone, Copy)]
struct Run {
    /// How many indexes are of the runs before it.
    before: usize,
    /// Where its blocks stand.
    blocks: usize,
}

impl Starts {
    /// No starts: each search begins in front. Takes no memory.
    pub(crate) fn none(alloc: Global) -> Starts {
        Starts {
            runs: Vec::new(alloc),
            blocks: Vec::new(alloc),
        }
    }

    /// The starts among rising indexes of so many words.
    pub(crate) fn among(alloc: Global, at: &[usize], words: usize) -> Result<Starts, AllocError> {
        let count = words.div_ceil(RUN_WORDS);
        let mut starts = Starts {
            runs: Vec::with_capacity(alloc, count)?,
            blocks: vec![in alloc; 0; RUN_BLOCKS + 1]?,
        };
        let mut limit: usize = 0;
        let mut before = 0;
        for _ in 0..count {
            let first = limit;
            limit = first.saturating_add(RUN_WORDS);
            let behind = first_from(at, before, limit);
            let blocks = starts.add_blocks(&at[before..behind], first)?;
            starts.runs.push(Run { before, blocks })?;
            before = behind;
        }
        Ok(starts)
    }

    /// Adds the blocks of a run that begins with a word and has these indexes. Returns where they stand.
    fn add_blocks(&mut self, at: &[usize], first: usize) -> Result<usize, AllocError> {
        if at.is_empty() {
            return Ok(0);
        }
        let blocks = self.blocks.len();
        let mut limit = first;
        let mut before = 0;
        for _ in 0..=RUN_BLOCKS {
            before = first_from(at, before, limit);
            self.blocks.push(before.min(RUN_WORDS) as u16)?;
            limit = limit.saturating_add(BLOCK_WORDS);
        }
        Ok(blocks)
    }

    /// Where the search for an index begins. Where all words of its block are shared, that is where it stands.
    pub(crate) fn start(&self, index: usize) -> usize {
        let Some(run) = self.runs.get(index / RUN_WORDS) else {
            return 0;
        };
        let block = run.blocks.saturating_add(index / BLOCK_WORDS % RUN_BLOCKS);
        let Some([before, behind]) = self.blocks.get(block..block.saturating_add(2)) else {
            return 0;
        };
        let most = usize::from(*before) + index % BLOCK_WORDS;
        run.before.saturating_add(most.min(usize::from(*behind)))
    }
}

/// The first position from one on whose index is not below a limit; the end where there is none.
fn first_from(at: &[usize], from: usize, limit: usize) -> usize
    requires { from ≤ length at.now }
    ensures from { from ≤ result }
    ensures within { result ≤ length at.now }
{
    let mut k = from;
    while k < at.len() && at[k] < limit {
        k += 1;
    }
    k
}
