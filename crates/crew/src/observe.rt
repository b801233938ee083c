ghost use Rattle.std.specs.Prelude.{◌≡◌, ℕ, List};
ghost use Rattle.pieces.specs.declared.piece.Piece.{Piece};

use turns::{Open, Watcher};

/// Looks at the entries of a phase while its pieces are worked.
pub trait Observe: Sync {
    /// What an observer may know of a phase: a fact about itself, the words at opening and the pieces, which those owe
    /// who work a phase that it observes.
    ghost told: { Self → List ℕ → List Piece → Type 0 };

    /// Looks with a watcher of this phase, beside the workers. The phase is closed only after it has returned. It
    /// leaves the same watcher there.
    fn observe(&self, watcher: &mut Watcher, shared: &Open)
        requires of { watcher.old.shared ≡ shared.now }
        requires told { Self.told self.now shared.now.opening.words shared.now.opening.pieces }
        ensures same { (watcher.new.shared ≡ watcher.old.shared) × (watcher.new.number ≡ watcher.old.number) };
}
