//! How a trace is replayed.

/// How a trace is replayed.
#[derive(Clone, Copy, Debug, PartialEq, Eq)]
pub struct Options {
    /// How many workers work the pieces of a call, 1 to 64; with `plain` one does.
    pub workers: u32,
    /// How many parts of a call a piece has at most, 1 to 65536.
    pub piece_length: u32,
    /// Whether every unmap and every clear is worked by recursion, page by page, and all else by one worker.
    pub plain: bool,
}

impl Options {
    ghost use Rattle.std.specs.Prelude.{◌≡◌, ◌↔◌, true};
    ghost use Rattle.replay.specs.Options.{AreServed};

    /// Whether a trace can be replayed so: 1 to 64 workers, and pieces of 1 to 65536.
    pub fn are_served(&self) -> bool
        ensures { (result ≡ true) ↔ AreServed self.now }
    {
        1 <= self.workers
            && self.workers <= 64
            && 1 <= self.piece_length
            && self.piece_length <= 65536
    }
}
