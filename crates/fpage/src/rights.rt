ghost use Rattle.std.specs.Prelude.{◌≡◌};

/// One kind of access to a page.
#[derive(Clone, Copy, Debug, PartialEq, Eq)]
pub enum Access {
    Read,
    Write,
    Execute,
}

/// A set of the rights to read, write and execute (L4 X.2, Fpage).
///
/// The status of a page is such a set too: which kinds of access it has seen.
#[derive(Clone, Copy, Debug, PartialEq, Eq)]
pub struct Rights {
    pub read: bool,
    pub write: bool,
    pub execute: bool,
}

impl Rights {
    ghost use Rattle.std.specs.Prelude.{◌≡◌};
    ghost use Rattle.fpage.specs.Rights.{all_rights, no_rights, of_bits, meet, join, without, is_empty, number, has};

    /// The three rights.
    pub fn all() -> Self
        ensures { result ≡ all_rights }
    {
        Rights {
            read: true,
            write: true,
            execute: true,
        }
    }

    /// No right.
    pub fn none() -> Self
        ensures { result ≡ no_rights }
    {
        Rights {
            read: false,
            write: false,
            execute: false,
        }
    }

    /// The rights in bits 0 to 2 of a word: 4 for read, 2 for write, 1 for execute.
    pub fn of_bits(word: u32) -> Self
        ensures { result ≡ of_bits word }
    {
        Rights {
            read: word / 4 % 2 == 1,
            write: word / 2 % 2 == 1,
            execute: word % 2 == 1,
        }
    }

    /// The rights that are in both sets.
    pub fn meet(self, other: Self) -> Self
        ensures { result ≡ meet self other }
    {
        Rights {
            read: self.read && other.read,
            write: self.write && other.write,
            execute: self.execute && other.execute,
        }
    }

    /// The rights that are in either set.
    pub fn join(self, other: Self) -> Self
        ensures { result ≡ join self other }
    {
        Rights {
            read: self.read || other.read,
            write: self.write || other.write,
            execute: self.execute || other.execute,
        }
    }

    /// The rights that are in this set and not in the other.
    pub fn without(self, other: Self) -> Self
        ensures { result ≡ without self other }
    {
        Rights {
            read: self.read && !other.read,
            write: self.write && !other.write,
            execute: self.execute && !other.execute,
        }
    }

    /// Whether there is no right in the set.
    pub fn is_empty(self) -> bool
        ensures { result ≡ is_empty self }
    {
        !(self.read || self.write || self.execute)
    }

    /// 4 for read, 2 for write and 1 for execute, added up.
    pub fn number(self) -> u32
        ensures { result ≡ number self }
    {
        u32::from(self.read) * 4 + u32::from(self.write) * 2 + u32::from(self.execute)
    }

    /// Whether the set has the right that this kind of access needs.
    pub fn holds(self, access: Access) -> bool
        ensures { result ≡ has self access }
    {
        match access {
            Access::Read => self.read,
            Access::Write => self.write,
            Access::Execute => self.execute,
        }
    }
}

impl Access {
    ghost use Rattle.std.specs.Prelude.{◌≡◌};
    ghost use Rattle.fpage.specs.Rights.{marks};

    /// The status that an access leaves: a read R, a write R and W, an execute R and X (profile).
    pub fn marks(self) -> Rights
        ensures { result ≡ marks self }
    {
        Rights {
            read: true,
            write: self == Access::Write,
            execute: self == Access::Execute,
        }
    }
}
