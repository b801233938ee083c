//! The bytes of a trace, in blocks that go as they are read.

ghost use Rattle.std.specs.Prelude.{◌≡◌, ◌≤◌, ◌++◌, [], length, reverse, OnOk};
ghost use Rattle.trace.specs.Blocks.{all_of};

use std::alloc::{AllocError, Global};
use std::io::{self, Read};
use std::marker::Model;
use std::mem;

/// How many bytes a block has room for.
const BLOCK: usize = 1 << 18;

/// Bytes in memory, which are read from the front. They stand in blocks, and a block that was read is given up, so that its
/// room serves what the records make. A contract sees the bytes that are left.
#[derive(Drop)]
pub struct Bytes {
    /// The block in front.
    front: Vec<u8>,
    /// How many bytes of it were read.
    read: usize,
    /// The blocks behind it, the last one first.
    behind: Vec<Vec<u8>>,
}

impl Model for Bytes {
    ghost use Rattle.std.specs.Prelude.{ℕ, List, ◌≤◌, length};
    ghost use Rattle.trace.specs.Blocks.{left_of};

    ghost Value = { List ℕ };

    ghost view = { λ b. left_of b.read b.front b.behind.items };

    ghost invariant = { λ b. b.read ≤ length b.front.items };
}

impl Bytes {
    ghost use Rattle.std.specs.Prelude.{◌≡◌, IfOk};
    ghost use Rattle.trace.specs.Blocks.{all_of};

    /// The bytes of a slice, copied.
    ///
    /// Refused, where memory is: `AllocError`.
    pub fn from_slice(alloc: Global, bytes: &[u8]) -> Result<Bytes, AllocError>
        ensures { IfOk result (λ made. made ≡ bytes.now) }
    {
        let front = Vec::from_slice(alloc, bytes)?;
        Ok(Bytes {
            front,
            read: 0,
            behind: Vec::new(alloc),
        })
    }

    /// The bytes of blocks, in their order.
    fn of_blocks(alloc: Global, mut blocks: Vec<Vec<u8>>) -> Bytes
        ensures { result ≡ all_of blocks.items }
    {
        blocks.reverse();
        Bytes {
            front: Vec::new(alloc),
            read: 0,
            behind: blocks,
        }
    }
}

impl Read for Bytes {
    ghost use Rattle.std.specs.Prelude.{Some};

    ghost remaining = { λ b. Some b };

    fn read(&mut self, buf: &mut [u8]) -> io::Result<usize> {
        while self.read == self.front.len() {
            let Some(block) = self.behind.pop() else {
                return Ok(0);
            };
            self.front = block;
            self.read = 0;
        }
        let mut left = &self.front[self.read..];
        let count = left.read(buf)?;
        self.read += count;
        Ok(count)
    }
}

/// Bytes that come one after another. A contract sees those that came.
#[derive(Drop)]
pub(crate) struct Incoming {
    blocks: Vec<Vec<u8>>,
    /// The block that is not full.
    last: Vec<u8>,
}

impl Model for Incoming {
    ghost use Rattle.std.specs.Prelude.{ℕ, List, ◌++◌};
    ghost use Rattle.trace.specs.Blocks.{all_of};

    ghost Value = { List ℕ };

    ghost view = { λ i. all_of i.blocks.items ++ i.last.items };
}

impl Incoming {
    ghost use Rattle.std.specs.Prelude.{◌≡◌, ◌++◌, [], IfOk, OnOk};

    /// None so far.
    pub(crate) fn new(alloc: Global) -> Incoming
        ensures { result ≡ [] }
    {
        Incoming {
            blocks: Vec::new(alloc),
            last: Vec::new(alloc),
        }
    }

    /// Puts bytes behind the others.
    pub(crate) fn push(&mut self, alloc: Global, bytes: &[u8]) -> Result<(), AllocError>
        ensures { OnOk result (self.new ≡ self.old ++ bytes.now) }
    {
        if self.last.capacity() - self.last.len() < bytes.len() {
            let block = Vec::with_capacity(alloc, BLOCK.max(bytes.len()))?;
            let full = mem::replace(&mut self.last, block);
            self.blocks.push(full)?;
        }
        self.last.extend_from_slice(bytes)?;
        Ok(())
    }

    /// All that came.
    pub(crate) fn into_bytes(self, alloc: Global) -> Result<Bytes, AllocError>
        ensures { IfOk result (λ bytes. bytes ≡ self) }
    {
        let Incoming { mut blocks, last } = self;
        blocks.push(last)?;
        Ok(Bytes::of_blocks(alloc, blocks))
    }
}
