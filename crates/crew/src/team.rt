//! The threads of the workers of a phase.

ghost use Rattle.std.specs.Prelude.{◌≡◌, ◌<◌, ◌+◌, ◌++◌, ◌∷◌, ℕ, [], get_or, length, IfOk, IfErr, OnOk, IsErrOf};
ghost use Rattle.crew.specs.Crews.{AreNumberedFrom};
ghost use Rattle.crew.specs.declared.error.CrewError.TheVariants.{NoWorker};

use crate::error::CrewError;
use crate::gate::Gate;
use crate::hand::Which;
use crate::own_deque::Crewed;
use crate::shared_state::SharedState;
use crate::worker::{Emptied, Worker};
use core::thread::Stack;
use std::alloc::{AllocError, Global};
use std::sync::Wait;
use std::thread;
use std::thread::{Promise, PromisedHandle, Scope, Threads};

/// The bytes of a worker's stack. The C library keeps 40 MiB of stacks whose threads have ended: so those of 64 workers are
/// there again for the next phase, and none is unmapped, for which each processor would have to wait.
const STACK: usize = 256 * 1024;

/// The number of a worker. Its own deque stays where it is.
#[derive(Clone, Copy)]
pub struct OfNumber(usize);

impl<N: Which, M: Crewed> Promise<Result<Emptied<N, M>, AllocError>> for OfNumber {
    ghost use Rattle.std.specs.Prelude.{◌≡◌, IfOk};

    ghost kept_by = { λ p r. IfOk r (λ e. e.own.number ≡ p.0) };
}

/// A worker that was started, and whose number is known.
type Started<N, M> = PromisedHandle<Result<Emptied<N, M>, AllocError>, OfNumber>;

/// Starts a worker on a thread of its own.
fn start<'s, 'e, N: Which + Send + Sync + 'e, M: Crewed + Send + Sync + 'e, G: Gate + 'e>(
    scope: &'s Scope<'s, &'e ()>,
    state: &'e SharedState<'e, N, M, G>,
    worker: Worker<N, M>,
) -> Result<Started<N, M>, CrewError>
    ensures number { IfOk result (λ h. h.promise.0 ≡ worker.own.number) }
    ensures refused { IfErr result (λ e. e ≡ NoWorker) }
{
    let promise = OfNumber(worker.number());
    let stack = Stack::new().stack_size(STACK);
    match stack.spawn_scoped_with(scope, promise, move || worker.work_all(state)) {
        Ok(handle) => Ok(handle),
        Err(_) => Err(CrewError::NoWorker),
    }
}

/// The workers work, each on a thread of its own but the first, which is the calling thread. With one no thread is started.
///
/// Refused: `NoMemory`; `NoWorker`, where a thread could not be started. Those that were started have ended by then.
pub fn work_together<N: Which + Send + Sync, M: Crewed + Send + Sync, R: Threads + Wait, G: Gate>(
    rt: &R,
    alloc: Global,
    state: &SharedState<'_, N, M, G>,
    first: Worker<N, M>,
    others: Vec<Worker<N, M>>,
) -> Result<Vec<Emptied<N, M>>, CrewError>
    requires first { first.own.number ≡ 0 }
    requires others { AreNumberedFrom 1 others.items }
    ensures numbered { IfOk result (λ workers. AreNumberedFrom 0 workers.items × (length workers.items ≡ length others.items + 1)) }
    ensures no_worker { IsErrOf result NoWorker → 0 < length others.items }
{
    if others.is_empty() {
        let mut workers = Vec::with_capacity(alloc, 1)?;
        add(&mut workers, first.work_all(state)?)?;
        return Ok(workers);
    }
    thread::scope(
        thread::scope_env(),
        rt,
        move |scope| -> Result<Vec<Emptied<N, M>>, CrewError>
            requires { (first.own.number ≡ 0) × AreNumberedFrom 1 others.items }
            ensures { IfOk result (λ workers. AreNumberedFrom 0 workers.items × (length workers.items ≡ length others.items + 1)) }
        { work_in(scope, rt, alloc, state, first, others) },
    )
}

/// The workers work: the first on the calling thread, each other on a thread of its own.
fn work_in<
    's,
    'e,
    N: Which + Send + Sync + 'e,
    M: Crewed + Send + Sync + 'e,
    R: Threads,
    G: Gate + 'e,
>(
    scope: &'s Scope<'s, &'e ()>,
    rt: &R,
    alloc: Global,
    state: &'e SharedState<'e, N, M, G>,
    first: Worker<N, M>,
    others: Vec<Worker<N, M>>,
) -> Result<Vec<Emptied<N, M>>, CrewError>
    requires first { first.own.number ≡ 0 }
    requires others { AreNumberedFrom 1 others.items }
    ensures { IfOk result (λ workers. AreNumberedFrom 0 workers.items × (length workers.items ≡ length others.items + 1)) }
{
    let mut workers = Vec::with_capacity(alloc, others.len())?;
    let handles = start_all(scope, alloc, state, others)?;
    add(&mut workers, first.work_all(state)?)?;
    join_all(rt, handles, &mut workers)?;
    Ok(workers)
}

/// Starts workers, each on a thread of its own.
fn start_all<'s, 'e, N: Which + Send + Sync + 'e, M: Crewed + Send + Sync + 'e, G: Gate + 'e>(
    scope: &'s Scope<'s, &'e ()>,
    alloc: Global,
    state: &'e SharedState<'e, N, M, G>,
    workers: Vec<Worker<N, M>>,
) -> Result<Vec<Started<N, M>>, CrewError>
    requires { AreNumberedFrom 1 workers.items }
    ensures { IfOk result (λ handles. (length handles.items ≡ length workers.items)
        × ((k : ℕ) (d : _) → k < length handles.items → (get_or handles.items k d).promise.0 ≡ 1 + k)) }
{
    let mut handles = Vec::with_capacity(alloc, workers.len())?;
    for worker in workers {
        add(&mut handles, start(scope, state, worker)?)?;
    }
    Ok(handles)
}

/// Waits for workers, and adds each behind the first.
fn join_all<N: Which, M: Crewed, R: Threads>(
    rt: &R,
    handles: Vec<Started<N, M>>,
    workers: &mut Vec<Emptied<N, M>>,
) -> Result<(), CrewError>
    requires handles { (k : ℕ) (d : _) → k < length handles.items → (get_or handles.items k d).promise.0 ≡ 1 + k }
    requires numbered { AreNumberedFrom 0 workers.old.items }
    requires first { length workers.old.items ≡ 1 }
    ensures { OnOk result (AreNumberedFrom 0 workers.new.items × (length workers.new.items ≡ length handles.items + 1)) }
{
    for handle in handles {
        add(workers, handle.join(rt)?)?;
    }
    Ok(())
}

/// Adds an element at the end.
fn add<T: Drop>(list: &mut Vec<T>, element: T) -> Result<(), AllocError>
    ensures { OnOk result (list.new.items ≡ list.old.items ++ element ∷ []) }
{
    list.push(element)?;
    Ok(())
}
