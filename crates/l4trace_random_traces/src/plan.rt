//! What a trace that is made at random is to be like.

use trace::Version;

/// What a trace is like.
#[derive(Clone, Copy, Debug, PartialEq, Eq)]
pub enum Shape {
    /// Records that are picked by what is believed to be held, so that every rule is reached.
    Rules,
    /// Sends go from each space to the next.
    Chain,
    /// Sends go from each space to any with a higher number.
    Tree,
    /// Sends go from space 0 to pagers, and from these to their clients, by maps and grants.
    Pagers,
    /// Sends go between any spaces, to few pages, by many items at once.
    Conflicts,
    /// Fpages have any size, and so have windows.
    Fpages,
}

impl Shape {
    /// The shape that a text names.
    pub fn of_name(name: &str) -> Option<Self> {
        match name {
            "rules" => Some(Shape::Rules),
            "chain" => Some(Shape::Chain),
            "tree" => Some(Shape::Tree),
            "pagers" => Some(Shape::Pagers),
            "conflicts" => Some(Shape::Conflicts),
            "fpages" => Some(Shape::Fpages),
            _ => None,
        }
    }
}

/// What a trace that is made at random is to be like.
#[derive(Clone, Copy, Debug, PartialEq, Eq)]
pub struct Plan {
    /// The version of its format.
    pub version: Version,
    /// Where the random numbers start.
    pub seed: u64,
    /// How many records stand behind the header.
    pub records: u64,
    /// How many spaces there are, 2 to 512.
    pub spaces: u32,
    /// Spaces have `2^bits` bytes, 18 to 32.
    pub bits: u32,
    /// How many frames there are, 1 to 64.
    pub frames: u32,
    /// How many of 100 records are refused, in the long run.
    pub refused: u32,
    pub shape: Shape,
}
