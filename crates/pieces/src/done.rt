use crate::piece::Piece;
use fpage::Rights;
use space::Slice;
use std::alloc::Global;
use std::marker::Model;
use std::snapshot::Snapshot;

/// What a piece that was worked hands in: the nodes that it keeps, the status that it found, and its answers.
///
/// It is what the piece finds out of the words at opening, and nothing else: the type says so.
#[derive(Drop)]
pub struct Done {
    number: usize,
    found: Found,
    of: Snapshot<Piece>,
    words: Snapshot<Vec<u64>>,
}

/// What a piece found out. No piece has both.
#[derive(Drop)]
enum Found {
    /// The nodes that are kept, and a status.
    Nodes(Slice, Rights),
    /// Answers.
    Answers(Vec<bool>),
}

impl Model for Done {
    ghost use Rattle.pieces.specs.Dones.{DoneContent};

    ghost Value = { DoneContent };

    ghost use Rattle.pieces.specs.Dones.{IsDone};
    ghost use Rattle.pieces.specs.Forms.{value_in};

    ghost view = { λ d. record { number = d.number; found = value_in d.found; of = d.of.value; words = d.words.value.items } };

    ghost invariant = { λ d. IsDone (record { number = d.number; found = value_in d.found; of = d.of.value; words = d.words.value.items }) };
}

impl Done {
    ghost use Rattle.std.specs.Prelude.{◌≡◌};
    ghost use Rattle.pieces.specs.Values.{value};
    ghost use Rattle.pieces.specs.Dones.{IsDone, found_as};

    /// What the piece of a number found out of the words at opening. Piece and words are there for contracts alone.
    pub fn new(
        number: usize,
        kept: Slice,
        status: Rights,
        answers: Vec<bool>,
        of: Snapshot<Piece>,
        words: Snapshot<Vec<u64>>,
    ) -> Done
        requires { found_as kept status answers ≡ value words.value.items of.value }
        ensures { result ≡ record { number = number; found = found_as kept status answers; of = of.value; words = words.value.items } }
    {
        let found = if answers.is_empty() {
            Found::Nodes(kept, status)
        } else {
            Found::Answers(answers)
        };
        Done {
            number,
            found,
            of,
            words,
        }
    }

    /// The number of the piece.
    pub fn number(&self) -> usize
        ensures number { result ≡ self.now.number }
        ensures value { IsDone self.now }
    {
        self.number
    }

    /// The union of the status of a strip's nodes at opening.
    pub fn status(&self) -> Rights
        ensures { result ≡ self.now.found.status }
    {
        match &self.found {
            Found::Nodes(_, status) => *status,
            Found::Answers(_) => Rights::none(),
        }
    }

    /// For each access of a touch whether it may be made, in order.
    pub fn answers(&self) -> &[bool]
        ensures { result.now ≡ self.now.found.answers }
    {
        match &self.found {
            Found::Nodes(_, _) => &[],
            Found::Answers(answers) => answers,
        }
    }

    /// The nodes of a strip that are kept, in order. This takes no memory.
    pub fn into_kept(self, alloc: Global) -> Slice
        ensures { result.nodes.items ≡ self.found.kept }
    {
        let Done {
            number: _,
            found,
            of: _,
            words: _,
        } = self;
        match found {
            Found::Nodes(kept, _) => kept,
            Found::Answers(_) => Slice {
                nodes: Vec::new(alloc),
            },
        }
    }
}
