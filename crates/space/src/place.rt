use fpage::Rights;
use std::fmt;

/// A page of an address space. Places are ordered by space, then by page.
#[derive(Clone, Copy, Debug, PartialEq, Eq, PartialOrd, Ord, Hash)]
pub struct Place {
    pub space: u16,
    pub page: u32,
}

/// What a page that is held has: its frame, its rights and its status.
#[derive(Clone, Copy, Debug, PartialEq, Eq)]
pub struct Entry {
    pub frame: u32,
    pub rights: Rights,
    /// Which kinds of access the page has seen since its status was last cleared.
    pub status: Rights,
}

impl Entry {
    ghost use Rattle.std.specs.Prelude.{◌≡◌};
    ghost use Rattle.space.specs.Entries.{extended};

    /// The same with more rights.
    pub fn extended(self, rights: Rights) -> Entry
        ensures { result ≡ extended rights self }
    {
        let rights = self.rights.join(rights);
        Entry { rights, ..self }
    }
}

/// Written as `space:page`, both in decimal.
impl fmt::Display for Place {
    ghost use Rattle.std.specs.Prelude.{Some};
    ghost use Rattle.space.specs.Place.{place_text};

    ghost output = { λ place. Some (place_text place) };

    fn fmt<W: fmt::Write>(&self, f: &mut fmt::Formatter<W>) -> fmt::Result {
        let Place { space, page } = *self;
        write!(f, "{space}:{page}")
    }
}
