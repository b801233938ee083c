//! A list whose room is given back while it is used up.

ghost use Rattle.std.specs.Prelude.{◌≡◌};

use std::marker::Model;

/// The elements of a list, the first of which is taken each time. Whenever half of its room is unused, that is given back, so
/// that it serves what is made of the elements. A contract sees those that are left.
#[derive(Drop)]
pub struct Shedding<T> {
    /// The elements that are left, the next one last.
    reversed: Vec<T>,
}

impl<T> Model for Shedding<T> {
    ghost use Rattle.std.specs.Prelude.{List, reverse};

    ghost Value = { List T };

    ghost view = { λ s. reverse s.reversed.items };
}

impl<T> Shedding<T> {
    ghost use Rattle.std.specs.Prelude.{◌≡◌, ◌∷◌, [], MatchOption};

    /// The elements of a list.
    pub fn new(items: Vec<T>) -> Self
        ensures { result ≡ items.items }
    {
        let mut reversed = items;
        reversed.reverse();
        Shedding { reversed }
    }

    /// Takes the first of the elements that are left, if there is one.
    pub fn next(&mut self) -> Option<T>
        ensures { MatchOption result ((self.old ≡ []) × (self.new ≡ [])) (λ first. self.old ≡ first ∷ self.new) }
    {
        let first = self.reversed.pop();
        if self.reversed.len() <= self.reversed.capacity() / 2 {
            self.reversed.shrink_to_fit();
        }
        first
    }
}
