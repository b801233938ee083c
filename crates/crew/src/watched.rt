//! The pieces of a phase, worked on shared words while an observer looks at these.

ghost use Rattle.std.specs.Prelude.{◌≡◌, ◌≤◌, ◌<◌, ℕ, length, IfOk, IfErr};
ghost use Rattle.std.specs.List.{All};
ghost use Rattle.pieces.specs.Phases.{CanBeWorked};
ghost use Rattle.turns.specs.Closing.{numbers_of};
ghost use Rattle.crew.specs.Crews.{IsEnded};
ghost use Rattle.crew.specs.Hands.{IsFresh, weigh};
ghost use Rattle.crew.specs.Worked.{IsWorked};
ghost use Rattle.crew.specs.declared.error.CrewError.TheVariants.{NoWorker};

use crate::crew::Crew;
use crate::error::CrewError;
use crate::gate::Gate;
use crate::hand::Which;
use crate::observe::Observe;
use crate::shared::work_turns;
use pieces::{Done, Piece};
use std::alloc::Global;
use std::marker::Brand;
use std::snapshot::Snapshot;
use std::sync::Wait;
use std::thread;
use std::thread::{Promise, PromisedHandle, Scope, Threads};
use turns::{Open, Turn, Watcher};

/// The watcher that went to a thread comes back: with the same number, and of the same phase.
#[derive(Drop)]
pub struct SameWatcher(Snapshot<Watcher>);

impl Promise<Watcher> for SameWatcher {
    ghost use Rattle.std.specs.Prelude.{◌≡◌};

    ghost kept_by = { λ p r. (r.shared ≡ p.0.value.shared) × (r.number ≡ p.0.value.number) };
}

/// Works all pieces of a phase as `work` does, while an observer looks at the entries with one watcher, on a thread
/// of its own. The words are always shared, also where one worker is enough. It returns when the observer has
/// returned too.
///
/// Refused: `NoMemory`; `NoWorker`, where a thread could not be started, that of the observer too. Then what was
/// given is gone.
pub fn work_watched<R: Threads + Wait, G: Gate, O: Observe>(
    crew: &Crew<'_, R, G>,
    alloc: Global,
    words: Vec<u64>,
    pieces: Vec<Piece>,
    observer: &O,
) -> Result<(Vec<u64>, Vec<Done>), CrewError>
    requires some { 0 < length pieces.items }
    requires can { CanBeWorked words.items pieces.items }
    requires told { O.told observer.now words.items pieces.items }
    ensures { IfOk result (λ r. IsWorked words.items pieces.items r.0.items r.1.items) }
{
    let (shared, turns, mut watchers) = Open::open_watched(alloc, words, pieces, 1)?;
    let Some(watcher) = watchers.pop() else {
        unreachable!()
    };
    let (turns, watcher) = work_turns_watched::<Brand, R, G, O>(
        crew, alloc, observer, &shared, turns, watcher,
    )?;
    watchers.push_reserved(watcher);
    match shared.close(turns, watchers) {
        Ok((words, dones, _)) => Ok((words, dones)),
        Err(_) => unreachable!(),
    }
}

/// Works the turns of a phase to their end while an observer has a watcher, which comes back.
fn work_turns_watched<N: Which + Send + Sync, R: Threads + Wait, G: Gate, O: Observe>(
    crew: &Crew<'_, R, G>,
    alloc: Global,
    observer: &O,
    shared: &Open,
    turns: Vec<Turn>,
    watcher: Watcher,
) -> Result<(Vec<Turn>, Watcher), CrewError>
    requires some { 0 < length turns.items }
    requires each { length turns.items ≡ length N.shared.opening.pieces }
    requires phase { shared.now ≡ N.shared }
    requires fresh { All (IsFresh N.shared) turns.items }
    requires watcher { watcher.shared ≡ shared.now }
    requires told { O.told observer.now shared.now.opening.words shared.now.opening.pieces }
    ensures ended { IfOk result (λ r. All (IsEnded N.shared) r.0.items) }
    ensures sums { IfOk result (λ r. (h : ℕ → ℕ) → weigh h (numbers_of r.0.items) ≡ weigh h (numbers_of turns.items)) }
    ensures watcher { IfOk result (λ r. (r.1.shared ≡ watcher.shared) × (r.1.number ≡ watcher.number)) }
{
    thread::scope(
        thread::scope_env(),
        crew.rt,
        move |scope| -> Result<(Vec<Turn>, Watcher), CrewError>
            requires { (0 < length turns.items) × (length turns.items ≡ length N.shared.opening.pieces) × (shared.now ≡ N.shared) × All (IsFresh N.shared) turns.items × (watcher.shared ≡ shared.now) × O.told observer.now shared.now.opening.words shared.now.opening.pieces }
            ensures { IfOk result (λ r. All (IsEnded N.shared) r.0.items × ((h : ℕ → ℕ) → weigh h (numbers_of r.0.items) ≡ weigh h (numbers_of turns.items)) × (r.1.shared ≡ watcher.shared) × (r.1.number ≡ watcher.number)) }
        { work_in::<N, R, G, O>(scope, crew, alloc, observer, shared, turns, watcher) },
    )
}

/// Works the turns, with the observer's thread in this scope.
fn work_in<'s, 'e, N: Which + Send + Sync, R: Threads + Wait, G: Gate, O: Observe + 'e>(
    scope: &'s Scope<'s, &'e ()>,
    crew: &Crew<'_, R, G>,
    alloc: Global,
    observer: &'e O,
    shared: &'e Open,
    turns: Vec<Turn>,
    watcher: Watcher,
) -> Result<(Vec<Turn>, Watcher), CrewError>
    requires some { 0 < length turns.items }
    requires each { length turns.items ≡ length N.shared.opening.pieces }
    requires phase { shared.now ≡ N.shared }
    requires fresh { All (IsFresh N.shared) turns.items }
    requires watcher { watcher.shared ≡ shared.now }
    requires told { O.told observer.now shared.now.opening.words shared.now.opening.pieces }
    ensures ended { IfOk result (λ r. All (IsEnded N.shared) r.0.items) }
    ensures sums { IfOk result (λ r. (h : ℕ → ℕ) → weigh h (numbers_of r.0.items) ≡ weigh h (numbers_of turns.items)) }
    ensures watcher { IfOk result (λ r. (r.1.shared ≡ watcher.shared) × (r.1.number ≡ watcher.number)) }
{
    let handle = start(scope, observer, shared, watcher)?;
    let turns = work_turns::<N, R, G>(crew, alloc, shared, turns)?;
    Ok((turns, handle.join(crew.rt)))
}

/// Starts an observer on a thread of its own.
fn start<'s, 'e, O: Observe + 'e>(
    scope: &'s Scope<'s, &'e ()>,
    observer: &'e O,
    shared: &'e Open,
    watcher: Watcher,
) -> Result<PromisedHandle<Watcher, SameWatcher>, CrewError>
    requires of { watcher.shared ≡ shared.now }
    requires told { O.told observer.now shared.now.opening.words shared.now.opening.pieces }
    ensures watcher { IfOk result (λ h. h.promise.0.value ≡ watcher) }
    ensures refused { IfErr result (λ e. e ≡ NoWorker) }
{
    let promise = SameWatcher(Snapshot::of(&watcher));
    match scope.spawn_with(
        promise,
        move || -> Watcher
            requires { (watcher.shared ≡ shared.now) × O.told observer.now shared.now.opening.words shared.now.opening.pieces }
        { lend(observer, watcher, shared) },
    ) {
        Ok(handle) => Ok(handle),
        Err(_) => Err(CrewError::NoWorker),
    }
}

/// Lends a watcher to an observer, and returns it when the observer has done.
fn lend<O: Observe>(observer: &O, mut watcher: Watcher, shared: &Open) -> Watcher
    requires of { watcher.shared ≡ shared.now }
    requires told { O.told observer.now shared.now.opening.words shared.now.opening.pieces }
    ensures same { (result.shared ≡ watcher.shared) × (result.number ≡ watcher.number) }
{
    observer.observe(&mut watcher, shared);
    watcher
}
