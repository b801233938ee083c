//! Trees that are changed side by side.

ghost use Rattle.std.specs.Prelude.{◌≡◌, length, OnOk};
ghost use Rattle.crew.specs.Changes.{MayChange, IsChanged};
ghost use denote.Param.Send.{IsSync};

use crate::workers::Changed;
use maptree::Tree;
use std::thread;
use std::thread::Threads;

/// Gives a function all of a list of trees at once.
pub fn change_alone(
    trees: &mut [Tree],
    change: &(dyn Fn(usize, &mut [Tree]) -> Changed + Sync),
) -> Changed
    requires may { MayChange (pre change.now) 0 trees.old }
    ensures { OnOk result (IsChanged (post change.now) 0 trees.old trees.new) }
{
    let one = move |start: usize, part: &mut [Tree]| -> Changed
        requires { (p : _) → p.now ≡ part.now → pre change.now start p }
        ensures { (before : _) × (after : _) × (before.now ≡ part.entry.now) × (after.now ≡ part.exit.now) × post change.entry.now start before result after }
    { change(start, part) };
    change_at_once(trees, 0, &one)
}

/// Gives a function the parts of a list of trees, which is cut at these trees: the first on the calling thread, and each other
/// on a thread of its own, or else, where that is refused, on the calling thread.
pub fn change_together<R: Threads>(
    rt: &R,
    trees: &mut [Tree],
    cuts: &[usize],
    change: &(dyn Fn(usize, &mut [Tree]) -> Changed + Sync),
) -> Changed
    requires may { MayChange (pre change.now) 0 trees.old }
    ensures { OnOk result (IsChanged (post change.now) 0 trees.old trees.new) }
{
    let one = move |start: usize, part: &mut [Tree]| -> Changed
        requires { (p : _) → p.now ≡ part.now → pre change.now start p }
        ensures { (before : _) × (after : _) × (before.now ≡ part.entry.now) × (after.now ≡ part.exit.now) × post change.entry.now start before result after }
    { change(start, part) };
    change_parts(rt, trees, cuts, &one)
}

/// The same for a function whose type is known. The part behind the last cut goes to a thread, and then the parts before it are
/// changed.
#[cycle(parts)]
fn change_parts<R: Threads, F: Fn(usize, &mut [Tree]) -> Changed + Sync>(
    rt: &R,
    trees: &mut [Tree],
    cuts: &[usize],
    change: &F,
) -> Changed
    requires { MayChange (F.pre change.now) 0 trees.old }
    ensures { OnOk result (IsChanged (F.post change.now) 0 trees.old trees.new) }
{
    let [earlier @ .., cut] = cuts else {
        return change_at_once(trees, 0, change);
    };
    let middle = (*cut).min(trees.len());
    let (front, behind) = trees.split_at_mut(middle);
    change_both(rt, front, behind, earlier, change)
}

/// Changes the last part on a thread, and the parts of all that stands before it.
#[cycle(parts)]
fn change_both<R: Threads, F: Fn(usize, &mut [Tree]) -> Changed + Sync>(
    rt: &R,
    front: &mut [Tree],
    behind: &mut [Tree],
    cuts: &[usize],
    change: &F,
) -> Changed
    requires front { MayChange (F.pre change.now) 0 front.old }
    requires behind { MayChange (F.pre change.now) (length front.old) behind.old }
    ensures front { OnOk result (IsChanged (F.post change.now) 0 front.old front.new) }
    ensures behind { OnOk result (IsChanged (F.post change.now) (length front.old) behind.old behind.new) }
{
    let middle = front.len();
    let mut theirs = || -> Changed
        requires { MayChange (F.pre change.now) middle behind.now }
        ensures { OnOk result (IsChanged (F.post change.entry.now) middle behind.entry.now behind.exit.now) }
    { change_at_once(behind, middle, change) };
    let mut ours = || -> Changed
        requires { IsSync F.row × MayChange (F.pre change.now) 0 front.now }
        ensures { OnOk result (IsChanged (F.post change.entry.now) 0 front.entry.now front.exit.now) }
    { change_parts(rt, front, cuts, change) };
    let (last, before) = thread::join_mut(rt, &mut theirs, &mut ours);
    last?;
    before
}

/// Gives a function all of a list that begins at `start`.
fn change_at_once<F: Fn(usize, &mut [Tree]) -> Changed>(
    trees: &mut [Tree],
    start: usize,
    change: &F,
) -> Changed
    requires may { MayChange (F.pre change.now) start trees.old }
    ensures { OnOk result (IsChanged (F.post change.now) start trees.old trees.new) }
{
    change(start, trees)
}
