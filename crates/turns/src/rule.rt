//! The rule of a table of shared words, and what its steps tell.
use crate::sharing::Indexes;
use crate::view::View;
use atomic_table::{Join, Play, Split, TableRule};
use pieces::Piece;
use std::snapshot::Snapshot;

/// What the table is told once, when it is made: words, pieces, shared indexes and the number of watchers, as
/// contracts see them. It has no bytes.
#[derive(Drop)]
pub struct Fixed {
    /// The words at opening.
    pub words: Snapshot<Vec<u64>>,
    /// The pieces.
    pub pieces: Snapshot<Vec<Piece>>,
    /// Which words are shared.
    pub indexes: Snapshot<Indexes>,
    /// How many watchers there are.
    pub watchers: Snapshot<usize>,
}

/// The shared words are those at opening with the steps that all seats together count.
pub struct Rule;

impl TableRule<(), View, Fixed> for Rule {
    ghost use Rattle.turns.specs.Tables.{opened, Ruled};
    ghost use Rattle.turns.specs.Views.{first_view};

    ghost holds = { λ key. Ruled (opened key) };

    ghost first = { λ key. first_view (opened key) };
}

/// A step of a piece.
pub(crate) struct Made;

impl Play<(), View> for Made {
    ghost use Rattle.std.specs.Prelude.{◌≡◌, slice_index};
    ghost use Rattle.turns.specs.Rules.{IsMade};

    ghost then = { λ step me found after. (after.1 ≡ me.1) × IsMade (slice_index me.0.opening.indexes step.word) me.0 found after.0 };
}

/// A look at a word that leaves the seat as it is.
pub(crate) struct Seen;

impl Play<(), View> for Seen {
    ghost use Rattle.std.specs.Prelude.{◌≡◌, slice_index};
    ghost use Rattle.turns.specs.Rules.{IsSeen};

    ghost then = { λ step me found after. (after ≡ me) × IsSeen (slice_index me.0.opening.indexes step.word) me.0 found };
}

/// A look at a word. The seat knows from then on how many steps of each piece were done by then.
pub(crate) struct Looked;

impl Play<(), View> for Looked {
    ghost use Rattle.std.specs.Prelude.{◌≡◌, slice_index};
    ghost use Rattle.turns.specs.Rules.{IsLooked};

    ghost then = { λ step me found after. (after.1 ≡ me.1) × IsLooked (slice_index me.0.opening.indexes step.word) me.0 found after.0 };
}

/// A seat has no piece twice.
pub(crate) struct Once;

impl Play<(), View> for Once {
    ghost use Rattle.std.specs.Prelude.{◌≡◌};
    ghost use Rattle.turns.specs.Views.{HasOnce};

    ghost then = { λ step me found after. (after ≡ me) × HasOnce me.0 };
}

/// A seat comes that has no piece.
pub(crate) struct Entered;

impl Play<(), View> for Entered {
    ghost use Rattle.std.specs.Prelude.{◌≡◌};
    ghost use Rattle.turns.specs.Views.{entered};

    ghost then = { λ step me found after. after.0 ≡ entered me.0 };
}

/// A seat is dealt for the first piece.
pub(crate) struct Dealt;

impl Split<View> for Dealt {
    ghost use Rattle.turns.specs.Views.{others_of, first_only};

    ghost left = { others_of };

    ghost right = { first_only };
}

/// A seat is dealt that has no piece and knows what the other counts.
pub(crate) struct Told;

impl Split<View> for Told {
    ghost use Rattle.turns.specs.Views.{told};

    ghost left = { λ v. v };

    ghost right = { told };
}

/// A seat takes back what another has.
pub(crate) struct TakenBack;

impl Join<View> for TakenBack {
    ghost use Rattle.turns.specs.Views.{joined, spent};

    ghost both = { joined };

    ghost spent = { spent };
}
