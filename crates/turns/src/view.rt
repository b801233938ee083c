//! What a seat at the shared words knows. No value of these types is ever made: they are for contracts alone.
use pieces::Piece;
use std::collections::LinkedList;

/// A phase at its opening: all words, the pieces, and the indexes of the words that are shared.
pub struct Opening {
    /// The words at opening.
    pub words: LinkedList<u64>,
    /// The pieces, by their numbers.
    pub pieces: LinkedList<Piece>,
    /// The indexes of the words that are shared: all, or those that pieces have steps about.
    pub indexes: LinkedList<usize>,
    /// How many watchers there are.
    pub watchers: usize,
}

/// What a seat knows.
pub struct View {
    /// The phase that it is of.
    pub opening: Opening,
    /// The pieces that it has, by their numbers, and how many steps of each were done.
    pub counts: LinkedList<(usize, usize)>,
    /// Of any pieces: at least so many steps were done.
    pub notes: LinkedList<(usize, usize)>,
    /// Whether it is a seat still: one that was taken back is none.
    pub live: bool,
}
