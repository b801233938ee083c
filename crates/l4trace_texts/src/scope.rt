//! What of answers is compared, and how much is told.

/// Which lines of the answers are compared.
#[derive(Clone, Copy, Debug, PartialEq, Eq)]
pub enum Scope {
    /// All.
    Whole,
    /// Those of the audit alone.
    Audit,
    /// Those that the answers have: of each, the reply to the record of its number, or the mapping of its page.
    Part,
}

/// How answers are compared.
#[derive(Clone, Copy, Debug)]
pub struct CompareOptions {
    pub scope: Scope,
    /// Whether status counts as none.
    pub ignores_status: bool,
    /// Whether every difference is told, and not the first alone.
    pub tells_all: bool,
    /// How many differences are told, or how many mappings are drawn with the first.
    pub most: u64,
}
