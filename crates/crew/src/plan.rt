//! The plan of a phase, whose parts are made side by side.

ghost use Rattle.std.specs.Prelude.{◌≡◌, ℕ, ◌<◌, length, slice_index_or, IfOk};
ghost use denote.Param.Send.{IsSync};

use crate::workers::Planned;
use std::alloc::{AllocError, Global};
use std::thread;
use std::thread::Threads;

/// How many bytes a planning thread has its allocator hold ready.
const PLAN_BYTES: usize = 8 << 20;

/// Asks a function for the plans of so many parts, one after another.
pub fn plan_in_turn(
    alloc: Global,
    parts: usize,
    plan: &(dyn Fn(usize) -> Planned + Sync),
) -> Result<Vec<Planned>, AllocError>
    requires each { (part : ℕ) → part < parts → pre plan.now part }
    ensures count { IfOk result (λ planned. length planned.items ≡ parts) }
    ensures each { IfOk result (λ planned. (part : ℕ) (d : _) → part < parts → post plan.now part (slice_index_or planned.items part d)) }
{
    let one = move |part: usize| -> Planned
        requires { pre plan.now part }
        ensures { post plan.entry.now part result }
    { plan(part) };
    plan_each(alloc, parts, &one)
}

/// The same for a function whose type is known.
fn plan_each<F: Fn(usize) -> Planned>(
    alloc: Global,
    parts: usize,
    plan: &F,
) -> Result<Vec<Planned>, AllocError>
    requires each { (part : ℕ) → part < parts → F.pre plan.now part }
    ensures count { IfOk result (λ planned. length planned.items ≡ parts) }
    ensures each { IfOk result (λ planned. (part : ℕ) (d : _) → part < parts → F.post plan.now part (slice_index_or planned.items part d)) }
{
    let mut planned = Vec::with_capacity(alloc, parts)?;
    for part in 0..parts {
        planned.push(plan(part))?;
    }
    Ok(planned)
}

/// Asks a function for the plans of so many parts: for those of the first on the calling thread, for those of each other on a
/// thread of its own, or else, where that is refused, on the calling thread.
pub fn plan_together<R: Threads>(
    rt: &R,
    alloc: Global,
    parts: usize,
    plan: &(dyn Fn(usize) -> Planned + Sync),
) -> Result<Vec<Planned>, AllocError>
    requires each { (part : ℕ) → part < parts → pre plan.now part }
    ensures count { IfOk result (λ planned. length planned.items ≡ parts) }
    ensures each { IfOk result (λ planned. (part : ℕ) (d : _) → part < parts → post plan.now part (slice_index_or planned.items part d)) }
{
    let one = move |part: usize| -> Planned
        requires { pre plan.now part }
        ensures { post plan.entry.now part result }
    { plan(part) };
    plan_parts(rt, alloc, parts, &one)
}

/// The same for a function whose type is known. The last part goes to a thread, and then the parts before it are planned.
#[cycle(parts)]
fn plan_parts<R: Threads, F: Fn(usize) -> Planned + Sync>(
    rt: &R,
    alloc: Global,
    parts: usize,
    plan: &F,
) -> Result<Vec<Planned>, AllocError>
    requires { (part : ℕ) → part < parts → F.pre plan.now part }
    ensures count { IfOk result (λ planned. length planned.items ≡ parts) }
    ensures each { IfOk result (λ planned. (part : ℕ) (d : _) → part < parts → F.post plan.now part (slice_index_or planned.items part d)) }
{
    if parts < 2 {
        return plan_each(alloc, parts, plan);
    }
    let last = parts - 1;
    let theirs = move || -> Planned
        requires { F.pre plan.now last }
        ensures { F.post plan.entry.now last result }
    {
        hold_memory_ready(alloc);
        plan(last)
    };
    let ours = move || -> Result<Vec<Planned>, AllocError>
        requires { IsSync F.row × ((part : ℕ) → part < last → F.pre plan.now part) }
        ensures { IfOk result (λ planned. (length planned.items ≡ last) × ((part : ℕ) (d : _) → part < last → F.post plan.entry.now part (slice_index_or planned.items part d))) }
    { plan_parts(rt, alloc, last, plan) };
    let (behind, front) = thread::join(rt, theirs, ours);
    let mut planned = front?;
    planned.push(behind)?;
    Ok(planned)
}

/// Takes a block and gives it back, untouched. glibc gives each thread memory of its own, which it asks the system for page by
/// page as pieces are made, and all threads wait for one another there. Now it asks once. It is a matter of speed alone, so
/// where the block is refused nothing is lost.
fn hold_memory_ready(alloc: Global) {
    let _ = Vec::<u8>::with_capacity(alloc, PLAN_BYTES);
}
