ghost use Rattle.std.specs.Prelude.{◌≡◌, ◌/◌, ◌%◌, ◌≤◌, IfOk};
ghost use Rattle.fpage.specs.Control.{control_with, read_control, with_status, words_named};
ghost use Rattle.fpage.specs.Rights.{number};

use crate::error::FpageError;
use crate::rights::Rights;
use std::marker::Model;

/// What the control word of an Unmap tells: whether it flushes, and how many fpage words follow (L4 X.2, Unmap).
#[derive(Clone, Copy, Debug, PartialEq, Eq)]
pub struct Control {
    flush: bool,
    words: usize,
}

impl Model for Control {
    ghost use Rattle.std.specs.Prelude.{◌≤◌};
    ghost use Rattle.fpage.specs.Control.{ControlWord};

    ghost Value = { ControlWord };

    ghost view = { λ c. record { flush = c.flush; words = c.words } };

    ghost invariant = { λ c. (1 ≤ c.words) × (c.words ≤ 64) };

    ghost inverse = { λ c. record { flush = c.flush; words = c.words } };
}

impl Control {
    /// Reads a control word that comes with so many fpage words.
    ///
    /// Refused as `BadControl`: a word with a bit above its fields, or that names another number of words.
    pub fn read(word: u32, words_given: usize) -> Result<Self, FpageError>
        ensures read { result ≡ control_with words_given (read_control word words_given) }
        ensures words { IfOk result (λ c. c.words ≡ words_named word) }
    {
        let words = (word % 64) as usize + 1;
        if word / 128 != 0 || words_given != words {
            return Err(FpageError::BadControl);
        }
        Ok(Control {
            flush: word / 64 % 2 == 1,
            words,
        })
    }

    /// Whether the caller's own pages lose the rights too (f).
    pub fn is_flush(self) -> bool
        ensures { result ≡ self.flush }
    {
        self.flush
    }

    /// How many fpage words follow it, 1 to 64 (k + 1).
    pub fn words(self) -> usize
        ensures words { result ≡ self.words }
        ensures some { 1 ≤ result }
        ensures at_most { result ≤ 64 }
    {
        self.words
    }
}

/// A word of the reply to an Unmap: the fpage word as given, with the status in place of its rights (L4 X.2, Unmap).
pub fn with_status(word: u32, status: Rights) -> u32
    ensures replaced { result ≡ with_status word status }
    ensures status { result % 8 ≡ number status }
    ensures others { result / 8 ≡ word / 8 }
{
    word / 8 * 8 + status.number()
}
