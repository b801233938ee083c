//! Calls, and why they are refused.

use fpage::{Access, Control, Fpage, FpageError, Item};
use space::Place;

/// A call on the mapping database.
#[derive(Debug, Drop)]
pub enum Call {
    /// Maps or grants pages of one space into a window of another.
    Send {
        from: u16,
        to: u16,
        window: Fpage,
        items: Vec<Item>,
    },
    /// Reads, writes or executes a page.
    Access {
        place: Place,
        access: Access,
    },
    /// Takes rights from pages of a space, and from all that derives from them.
    Unmap {
        space: u16,
        control: Control,
        /// The fpage words as given.
        words: Vec<u32>,
        /// The fpage of each word.
        fpages: Vec<Fpage>,
    },
    /// Takes all pages from a space, and all that derives from them.
    Clear {
        space: u16,
    },
}

/// What a send asks for.
#[derive(Clone, Copy)]
pub struct Sending<'a> {
    pub from: u16,
    pub to: u16,
    pub window: Fpage,
    pub items: &'a [Item],
}

/// What an unmap asks for.
#[derive(Clone, Copy)]
pub struct Unmap<'a> {
    pub space: u16,
    pub control: Control,
    /// The fpage of each word.
    pub fpages: &'a [Fpage],
}

impl Unmap<'_> {
    ghost use Rattle.std.specs.Prelude.{◌≡◌};

    /// One of its words.
    pub(crate) fn word(&self, fpage: Fpage) -> UnmapWord
        ensures { result ≡ record { space = self.now.space; flush = self.now.control.flush; fpage = fpage } }
    {
        UnmapWord {
            space: self.space,
            flush: self.control.is_flush(),
            fpage,
        }
    }
}

/// One word of an unmap.
#[derive(Clone, Copy)]
pub struct UnmapWord {
    pub space: u16,
    /// Whether the pages themselves lose the rights too.
    pub flush: bool,
    pub fpage: Fpage,
}

/// Why a call, or a record that would ask for one, is refused. It changes nothing.
#[derive(Clone, Copy, Debug, PartialEq, Eq)]
pub enum Refusal {
    /// The size of an fpage is none that there is.
    BadSize,
    /// The base of an fpage is no multiple of its size.
    Misaligned,
    /// A page lies past the end of its space.
    OutOfSpace,
    /// The first word of an item is neither a MapItem's nor a GrantItem's.
    NotAnItem,
    /// A control word has a bit that is not served, or names another number of words.
    BadControl,
    /// A space is named that there is not.
    NoSuchSpace,
    /// Sender and receiver are one space.
    SameSpace,
    /// The receiver's window is nil.
    NoWindow,
    /// The record does not have the form of one.
    BadRecord,
}

impl From<FpageError> for Refusal {
    ghost use Rattle.mapdb.specs.Calls.{IsRefusalOf};

    ghost from_gives = { IsRefusalOf };

    fn from(error: FpageError) -> Self {
        match error {
            FpageError::BadSize => Refusal::BadSize,
            FpageError::Misaligned => Refusal::Misaligned,
            FpageError::OutOfSpace => Refusal::OutOfSpace,
            FpageError::NotAnItem => Refusal::NotAnItem,
            FpageError::BadControl => Refusal::BadControl,
        }
    }
}
