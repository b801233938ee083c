//! A text that is written from its end to its start.

use itoa::write_digits;
use std::marker::Model;

/// How many bytes a text can have.
const ROOM: usize = 64;

/// A text of at most 64 bytes that is written from its end to its start. A contract sees what is written.
#[derive(Drop)]
pub struct Backward {
    bytes: [u8; ROOM],
    /// Where what is written starts.
    start: usize,
}

impl Model for Backward {
    ghost use Rattle.std.specs.Prelude.{ℕ, List, ◌≤◌, drop};

    ghost Value = { List ℕ };

    ghost view = { λ b. drop b.start b.bytes };

    ghost invariant = { λ b. b.start ≤ 64 };
}

impl Backward {
    ghost use Rattle.std.specs.Prelude.{◌≡◌, ◌+◌, ◌<◌, ◌≤◌, ◌++◌, ◌∷◌, [], length};
    ghost use Rattle.std.specs.Fmt.{decimal};

    /// Nothing is written.
    pub fn new() -> Self
        ensures { result ≡ [] }
    {
        Backward {
            bytes: [0; ROOM],
            start: ROOM,
        }
    }

    /// Writes a byte before what is written.
    pub fn byte(&mut self, byte: u8)
        requires room { length self.old < 64 }
        ensures text { self.new ≡ byte ∷ self.old }
    {
        self.start -= 1;
        self.bytes[self.start] = byte;
    }

    /// Writes a number in decimal digits before what is written.
    pub fn number(&mut self, number: u32)
        requires room { length self.old + 10 ≤ 64 }
        ensures text { self.new ≡ decimal number ++ self.old }
        ensures room { length self.new ≤ length self.old + 10 }
    {
        self.start = write_digits(u64::from(number), &mut self.bytes, self.start);
    }

    /// What is written.
    pub fn text(&self) -> &[u8]
        ensures { result.now ≡ self.now }
    {
        &self.bytes[self.start..]
    }
}
