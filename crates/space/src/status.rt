//! A status as words have it.

use fpage::Rights;
use std::marker::Model;

/// A status as words have it: two are joined in one step.
#[derive(Clone, Copy)]
pub struct Status {
    /// 4 for read, 2 for write, 1 for execute.
    bits: u64,
}

impl Model for Status {
    ghost use Rattle.std.specs.Prelude.{◌<◌};
    ghost use Rattle.fpage.specs.declared.rights.Rights.{Rights};
    ghost use Rattle.fpage.specs.Rights.{number, of_bits};

    ghost Value = { Rights };

    ghost view = { λ s. of_bits s.bits };

    ghost inverse = { λ status. record { bits = number status } };

    ghost invariant = { λ s. s.bits < 8 };
}

impl Status {
    ghost use Rattle.std.specs.Prelude.{◌≡◌, IsTrue};
    ghost use Rattle.fpage.specs.Rights.{no_rights, join};
    ghost use Rattle.space.specs.Word.{entry_of, is_pack};
    ghost use Rattle.space.specs.Entries.{status_of};

    /// No kind of access.
    pub fn none() -> Status
        ensures { result ≡ no_rights }
    {
        Status { bits: 0 }
    }

    /// The status of what a word says.
    pub fn of_word(word: u64) -> Status
        requires { IsTrue (is_pack word) }
        ensures { result ≡ status_of (entry_of word) }
    {
        Status { bits: word / 8 % 8 }
    }

    /// What either has.
    pub fn join(self, other: Status) -> Status
        ensures { result ≡ join self other }
    {
        Status {
            bits: self.bits | other.bits,
        }
    }

    /// The same as a set.
    pub fn rights(self) -> Rights
        ensures { result ≡ self }
    {
        Rights::of_bits(self.bits as u32)
    }
}
