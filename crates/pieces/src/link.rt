use fpage::Rights;
use std::marker::Model;

/// A page to be mapped (L4 X.2, MapItem): the word of the source is read, and the word of the target is put. A target that is
/// held gains rights.
#[derive(Clone, Copy, Debug, PartialEq, Eq)]
pub struct Store {
    /// The index of the source's word.
    pub read: usize,
    /// The index of the target's word.
    pub put: usize,
    /// Those of the source's rights that are let through.
    pub rights: Rights,
}

/// Pages to be mapped, to targets that are distinct.
#[derive(Drop)]
pub struct Link {
    stores: Vec<Store>,
}

impl Model for Link {
    ghost use Rattle.std.specs.Prelude.{◌≡◌, true, List};
    ghost use Rattle.pieces.specs.declared.link.Store.{Store};
    ghost use Rattle.pieces.specs.Distinct.{are_distinct};
    ghost use Rattle.pieces.specs.Contents.{puts_of};

    ghost Value = { List Store };

    ghost view = { λ l. l.stores.items };

    ghost invariant = { λ l. are_distinct (puts_of l.stores.items) ≡ true };
}

impl Link {
    ghost use Rattle.std.specs.Prelude.{◌≡◌, ◌<◌, ◌==◌, true, length, get_or};
    ghost use Rattle.pieces.specs.Distinct.{are_distinct};
    ghost use Rattle.pieces.specs.Contents.{puts_of};

    /// These stores.
    pub fn new(stores: Vec<Store>) -> Link
        requires { are_distinct (puts_of stores.items) ≡ true }
        ensures { result ≡ stores.items }
    {
        Link { stores }
    }

    /// How many stores it has.
    pub fn len(&self) -> usize
        ensures len { result ≡ length self.now }
        ensures distinct { are_distinct (puts_of self.now) ≡ true }
    {
        self.stores.len()
    }

    /// Whether it has none.
    pub fn is_empty(&self) -> bool
        ensures { result ≡ (length self.now == 0) }
    {
        self.stores.is_empty()
    }

    /// The store at a position.
    pub fn store(&self, i: usize) -> Store
        requires { i < length self.now }
        ensures { result ≡ get_or self.now i result }
    {
        self.stores[i]
    }

    /// All stores, in order.
    pub fn stores(&self) -> &[Store]
        ensures { result.now ≡ self.now }
    {
        &self.stores
    }
}
