//! Where the trees are cut that workers change side by side.

use super::calls::{GRANT, MAP, NO_PAIRS, Step, work};
use crate::assertions::assert_equal;
use crew::{Alone, Changed, CrewError, Planned, Workers};
use mapdb::{Database, DbError, SendReply};
use maptree::Tree;
use pieces::{Done, Piece};
use std::alloc::{AllocError, Global};
use std::process::Abort;
use std::sync::atomic::{AtomicU64, Ordering};
use std::test::Fail;

/// The calling thread, which says that it plans by four, and looks at where the trees are cut that it is to change.
#[derive(Drop)]
struct Cut<'a, T> {
    rt: &'a T,
    /// At which trees they are to be cut.
    cuts: &'a [usize],
    /// How often trees were changed.
    changes: AtomicU64,
}

impl<'a, T: Abort> Workers for Cut<'a, T> {
    ghost use Rattle.std.specs.Prelude.{⊤};

    ghost starts_none = { λ _. ⊤ };

    ghost length_of = { λ _. 1 };

    ghost least_of = { λ _. 0 };

    fn piece_length(&self) -> usize {
        1
    }

    fn shared_from(&self) -> usize {
        0
    }

    fn planners(&self) -> usize {
        4
    }

    fn plan(
        &self,
        alloc: Global,
        parts: usize,
        plan: &(dyn Fn(usize) -> Planned + Sync),
    ) -> Result<Vec<Planned>, AllocError> {
        Alone.plan(alloc, parts, plan)
    }

    fn change(
        &self,
        trees: &mut [Tree],
        cuts: &[usize],
        change: &(dyn Fn(usize, &mut [Tree]) -> Changed + Sync),
    ) -> Changed {
        assert_equal(self.rt, cuts.len(), self.cuts.len(), "cuts");
        for (cut, wanted) in cuts.iter().zip(self.cuts) {
            assert_equal(self.rt, *cut, *wanted, "where the trees are cut");
        }
        self.changes.fetch_add(1, Ordering::SeqCst);
        Alone.change(trees, cuts, change)
    }

    fn work(
        &self,
        alloc: Global,
        words: Vec<u64>,
        pieces: Vec<Piece>,
    ) -> Result<(Vec<u64>, Vec<Done>), CrewError> {
        Alone.work(alloc, words, pieces)
    }
}

/// The complete fpage, as a window.
const COMPLETE: u32 = 0x10;

/// 256 new mappings.
const MANY_LINKED: SendReply = SendReply {
    linked: 256,
    ..NO_PAIRS
};

/// The pages of space 0 from 256 to 511, with all rights.
const MANY: u32 = 0x10_0147;

/// Among 4,096 frames an item of 256 pages, whose frames are those from 256 to 511, is sent by space 0 to space 1.
fn cuts_where_its_frames_lie(rt: &impl Abort, alloc: Global, first: u32) -> Result<(), DbError> {
    let workers = Cut {
        rt,
        cuts: &[320, 384, 448],
        changes: AtomicU64::new(0),
    };
    let mut database = Database::new(alloc, 2, 24, 4096)?;
    let send = Step::Send(0, 1, COMPLETE, (first, MANY), MANY_LINKED);
    work(rt, &mut database, alloc, &workers, &send, false)?;
    let changes = workers.changes.load(Ordering::SeqCst);
    assert_equal(rt, changes, 1, "changes of trees");
    Ok(())
}

#[test]
fn new_mappings_are_parted_by_their_own_frames(rt: HostRuntime) -> Result<(), Fail> {
    cuts_where_its_frames_lie(&rt, rt.alloc(), MAP)?;
    Ok(())
}

#[test]
fn places_that_move_are_parted_by_their_own_frames(rt: HostRuntime) -> Result<(), Fail> {
    cuts_where_its_frames_lie(&rt, rt.alloc(), GRANT)?;
    Ok(())
}
