use crate::place::Place;

/// A node of a derivation tree.
#[derive(Clone, Copy, Debug, PartialEq, Eq)]
pub struct Node {
    pub place: Place,
    /// How many origins it has, one after another; none for a root.
    pub depth: usize,
}

/// The root at page 0 of space 0: what a short vector has in places that it does not use.
impl Default for Node {
    fn default() -> Node {
        let place = Place { space: 0, page: 0 };
        Node { place, depth: 0 }
    }
}
