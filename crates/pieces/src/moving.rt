use std::marker::Model;

/// A page to be moved (L4 X.2, GrantItem): the word of the source is taken, and put at the target without its status.
#[derive(Clone, Copy, Debug, PartialEq, Eq)]
pub struct Pair {
    /// The index of the source's word.
    pub taken: usize,
    /// The index of the target's word.
    pub put: usize,
}

/// Pages to be moved, each with a source and a target that no other has as either.
#[derive(Drop)]
pub struct Move {
    pairs: Vec<Pair>,
}

impl Model for Move {
    ghost use Rattle.std.specs.Prelude.{◌≡◌, true, List};
    ghost use Rattle.pieces.specs.declared.moving.Pair.{Pair};
    ghost use Rattle.pieces.specs.Distinct.{are_distinct};
    ghost use Rattle.pieces.specs.Contents.{ends_of};

    ghost Value = { List Pair };

    ghost view = { λ m. m.pairs.items };

    ghost invariant = { λ m. are_distinct (ends_of m.pairs.items) ≡ true };
}

impl Move {
    ghost use Rattle.std.specs.Prelude.{◌≡◌, ◌<◌, ◌==◌, ◌^◌, true, length, get_or};
    ghost use Rattle.pieces.specs.Distinct.{are_distinct};
    ghost use Rattle.pieces.specs.Contents.{ends_of};

    /// These pairs.
    pub fn new(pairs: Vec<Pair>) -> Move
        requires { are_distinct (ends_of pairs.items) ≡ true }
        ensures { result ≡ pairs.items }
    {
        Move { pairs }
    }

    /// How many pairs it has.
    pub fn len(&self) -> usize
        ensures len { result ≡ length self.now }
        ensures distinct { are_distinct (ends_of self.now) ≡ true }
        ensures few { length self.now < 2 ^ 63 }
    {
        self.pairs.len()
    }

    /// Whether it has none.
    pub fn is_empty(&self) -> bool
        ensures { result ≡ (length self.now == 0) }
    {
        self.pairs.is_empty()
    }

    /// The pair at a position.
    pub fn pair(&self, i: usize) -> Pair
        requires { i < length self.now }
        ensures { result ≡ get_or self.now i result }
    {
        self.pairs[i]
    }

    /// All pairs, in order.
    pub fn pairs(&self) -> &[Pair]
        ensures { result.now ≡ self.now }
    {
        &self.pairs
    }
}
