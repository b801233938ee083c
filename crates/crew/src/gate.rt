ghost use Rattle.std.specs.Prelude.{◌≡◌, ◌<◌, ◌≤◌, length};
ghost use Rattle.turns.specs.Turns.{steps_to_do};

use turns::{Open, Turn};

/// Hears when work on a piece begins and ends, on the stack of the worker: 256 KiB, but for the first worker, who has the
/// caller's.
pub trait Gate: Sync {
    /// A worker, of so many, begins a turn of this phase: no step of its piece was made. Workers are numbered from 0, and
    /// there are at most as many as pieces.
    fn begin(&self, worker: usize, workers: usize, turn: &Turn, shared: &Open)
        requires below { worker < workers }
        requires few { workers ≤ length shared.now.opening.pieces }
        requires of { turn.now.shared ≡ shared.now }
        requires fresh { turn.now.steps ≡ 0 };

    /// A worker, of so many, has ended a turn of this phase: no step of its piece is left.
    fn end(&self, worker: usize, workers: usize, turn: &Turn, shared: &Open)
        requires below { worker < workers }
        requires few { workers ≤ length shared.now.opening.pieces }
        requires of { turn.now.shared ≡ shared.now }
        requires ended { turn.now.steps ≡ steps_to_do turn.now };
}

/// Hears nothing.
#[derive(Clone, Copy, Debug, PartialEq, Eq)]
pub struct NoGate;

impl Gate for NoGate {
    fn begin(&self, worker: usize, workers: usize, turn: &Turn, shared: &Open) {}

    fn end(&self, worker: usize, workers: usize, turn: &Turn, shared: &Open) {}
}
