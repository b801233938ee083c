//! How a strip is cut into pieces that workers share.

use super::calls::{At, Step, index_of, page, work, work_all};
use super::unmaps::CHAIN;
use crate::assertions::assert_equal;
use crew::{Alone, Changed, CrewError, Planned, Workers};
use fpage::Rights;
use mapdb::{Database, DbError};
use maptree::Tree;
use pieces::{Done, Piece, Strip};
use space::Place;
use std::alloc::{AllocError, Global};
use std::process::Abort;
use std::sync::atomic::{AtomicU64, Ordering};
use std::test::Fail;

/// No rights.
const NONE: Rights = Rights {
    read: false,
    write: false,
    execute: false,
};

/// The right to write.
const W: Rights = Rights {
    read: false,
    write: true,
    execute: false,
};

/// The calling thread, which looks at the pieces that it is given before it works them.
#[derive(Drop)]
struct Looking<'a, T> {
    rt: &'a T,
    strips: &'a [&'a [(At, Rights)]],
    fold: Option<usize>,
    /// How many phases were worked.
    phases: AtomicU64,
}

impl<'a, T: Abort> Looking<'a, T> {
    /// A strip has these nodes and masks, and folds into the word.
    fn look(&self, strip: &Strip, nodes: &[(At, Rights)]) {
        assert_equal(self.rt, strip.len(), nodes.len(), "nodes");
        assert_equal(self.rt, strip.fold(), self.fold, "the fold word");
        for (i, (at, mask)) in nodes.iter().enumerate() {
            if i < strip.len() {
                let (space, page) = *at;
                let place = Place { space, page };
                assert_equal(self.rt, strip.node(i).place, place, "a node");
                assert_equal(
                    self.rt,
                    strip.mask(i),
                    *mask,
                    format_args!("the mask of {place}"),
                );
            }
        }
    }
}

impl<'a, T: Abort> Workers for Looking<'a, T> {
    ghost use Rattle.std.specs.Prelude.{⊤};

    ghost starts_none = { λ _. ⊤ };

    ghost length_of = { λ _. 2 };

    ghost least_of = { λ _. 0 };

    fn piece_length(&self) -> usize {
        2
    }

    fn shared_from(&self) -> usize {
        0
    }

    fn planners(&self) -> usize {
        Alone.planners()
    }

    fn plan(
        &self,
        alloc: Global,
        parts: usize,
        plan: &(dyn Fn(usize) -> Planned + Sync),
    ) -> Result<Vec<Planned>, AllocError> {
        Alone.plan(alloc, parts, plan)
    }

    fn change(
        &self,
        trees: &mut [Tree],
        cuts: &[usize],
        change: &(dyn Fn(usize, &mut [Tree]) -> Changed + Sync),
    ) -> Changed {
        Alone.change(trees, cuts, change)
    }

    fn work(
        &self,
        alloc: Global,
        words: Vec<u64>,
        pieces: Vec<Piece>,
    ) -> Result<(Vec<u64>, Vec<Done>), CrewError> {
        assert_equal(self.rt, pieces.len(), self.strips.len(), "pieces");
        for (piece, nodes) in pieces.iter().zip(self.strips) {
            match piece {
                Piece::Strip(strip) => self.look(strip, nodes),
                _ => panic!(self.rt; "a piece is no strip"),
            }
        }
        self.phases.fetch_add(1, Ordering::SeqCst);
        Alone.work(alloc, words, pieces)
    }
}

/// After the chain and a mapping of 2:0 to 1:3, works an unmap that is to be one phase of these strips, which fold into the
/// word of a page, if any.
fn plans(
    rt: &impl Abort,
    alloc: Global,
    unmap: &Step,
    strips: &[&[(At, Rights)]],
    fold: Option<At>,
) -> Result<(), DbError> {
    let mut database = Database::new(alloc, 3, 18, 16)?;
    plans_in(rt, &mut database, alloc, unmap, strips, fold)
}

/// The same in a database.
fn plans_in(
    rt: &impl Abort,
    database: &mut Database,
    alloc: Global,
    unmap: &Step,
    strips: &[&[(At, Rights)]],
    fold: Option<At>,
) -> Result<(), DbError> {
    work_all(rt, database, alloc, &Alone, &CHAIN, false)?;
    work(
        rt,
        database,
        alloc,
        &Alone,
        &Step::Map((2, 0), (1, 3)),
        false,
    )?;
    let fold = fold.map(|at| index_of(rt, database, page(rt, database, at)));
    let workers = Looking {
        rt,
        strips,
        fold,
        phases: AtomicU64::new(0),
    };
    work(rt, database, alloc, &workers, unmap, false)?;
    assert_equal(rt, workers.phases.load(Ordering::SeqCst), 1, "phases");
    Ok(())
}

#[test]
fn a_run_that_begins_with_a_root_has_no_fold_word(rt: HostRuntime) -> Result<(), Fail> {
    let unmap = Step::Unmap(0, 0, 0x50c2, 0x50c0);
    plans(
        &rt,
        rt.alloc(),
        &unmap,
        &[&[((0, 5), NONE), ((1, 0), W)], &[((2, 0), W), ((1, 3), W)]],
        None,
    )?;
    Ok(())
}

#[test]
fn the_strips_of_a_run_fold_into_the_word_of_its_origin(rt: HostRuntime) -> Result<(), Fail> {
    let unmap = Step::Unmap(1, 0, 0x12, 0x10);
    plans(
        &rt,
        rt.alloc(),
        &unmap,
        &[&[((1, 0), NONE), ((2, 0), W)], &[((1, 3), W)]],
        Some((0, 5)),
    )?;
    Ok(())
}
