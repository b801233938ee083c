use fpage::Access;
use std::marker::Model;

/// An access of a page (profile).
#[derive(Clone, Copy, Debug, PartialEq, Eq)]
pub struct WordAccess {
    /// The index of the page's word.
    pub index: usize,
    pub access: Access,
}

/// Accesses in order. A page may come more than once.
#[derive(Drop)]
pub struct Touch {
    list: Vec<WordAccess>,
}

impl Model for Touch {
    ghost use Rattle.std.specs.Prelude.{List};
    ghost use Rattle.pieces.specs.declared.touch.WordAccess.{WordAccess};

    ghost Value = { List WordAccess };

    ghost view = { λ t. t.list.items };
}

impl Touch {
    ghost use Rattle.std.specs.Prelude.{◌≡◌, ◌<◌, ◌==◌, ◌^◌, length, get_or};

    /// These accesses.
    pub fn new(list: Vec<WordAccess>) -> Touch
        ensures { result ≡ list.items }
    {
        Touch { list }
    }

    /// How many accesses it has.
    pub fn len(&self) -> usize
        ensures len { result ≡ length self.now }
        ensures few { length self.now < 2 ^ 63 }
    {
        self.list.len()
    }

    /// Whether it has none.
    pub fn is_empty(&self) -> bool
        ensures { result ≡ (length self.now == 0) }
    {
        self.list.is_empty()
    }

    /// The access at a position.
    pub fn access(&self, i: usize) -> WordAccess
        requires { i < length self.now }
        ensures { result ≡ get_or self.now i result }
    {
        self.list[i]
    }

    /// All accesses, in order.
    pub fn accesses(&self) -> &[WordAccess]
        ensures { result.now ≡ self.now }
    {
        &self.list
    }
}
