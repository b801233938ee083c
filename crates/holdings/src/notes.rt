//! The pages that a call changes, as its phases note them.

use space::Place;
use std::alloc::{AllocError, Global};
use std::marker::Model;

/// A page that a phase changes, in eight bytes.
#[derive(Clone, Copy, Debug, PartialEq, Eq)]
pub struct Note {
    page: u32,
    space: u16,
    was_held: bool,
}

impl Model for Note {
    ghost use Rattle.holdings.specs.NoteContents.{NoteContent};

    ghost Value = { NoteContent };

    ghost view = { λ n. record { place = record { space = n.space; page = n.page }; was_held = n.was_held } };

    ghost inverse = { λ n. record { page = n.place.page; space = n.place.space; was_held = n.was_held } };
}

impl Note {
    ghost use Rattle.std.specs.Prelude.{◌≡◌};

    /// A page, and whether it held something before the phase.
    pub fn of(place: Place, was_held: bool) -> Note
        ensures { result ≡ record { place = place; was_held = was_held } }
    {
        Note {
            page: place.page,
            space: place.space,
            was_held,
        }
    }

    /// The page.
    pub fn place(self) -> Place
        ensures { result ≡ self.place }
    {
        Place {
            space: self.space,
            page: self.page,
        }
    }

    /// Whether the page held something before the phase.
    pub fn was_held(self) -> bool
        ensures { result ≡ self.was_held }
    {
        self.was_held
    }
}

/// The pages that the phases of a call change, where they are asked for. A page may come more than once.
#[derive(Drop)]
pub struct Notes {
    /// Whether phases note pages at all.
    pub asked: bool,
    pub list: Vec<Note>,
}

impl Notes {
    ghost use Rattle.std.specs.Prelude.{◌≡◌, [], true, false};

    /// No notes are asked for.
    pub fn none(alloc: Global) -> Notes
        ensures asked { result.asked ≡ false }
        ensures list { result.list.items ≡ [] }
    {
        Notes {
            asked: false,
            list: Vec::new(alloc),
        }
    }

    /// Whether notes are asked for from now on. What was noted is forgotten.
    pub fn ask(&mut self, asked: bool)
        ensures asked { self.new.asked ≡ asked }
        ensures list { self.new.list.items ≡ [] }
    {
        self.asked = asked;
        self.list.clear();
    }

    /// Room for so many more notes, where they are asked for.
    ///
    /// Refused where memory is.
    pub(crate) fn make_room(&mut self, n: usize) -> Result<(), AllocError>
        ensures asked { self.new.asked ≡ self.old.asked }
        ensures list { self.new.list.items ≡ self.old.list.items }
    {
        if self.asked {
            self.list.reserve(n)?;
        }
        Ok(())
    }

    /// Forgets what was noted.
    pub fn forget(&mut self)
        ensures asked { self.new.asked ≡ self.old.asked }
        ensures list { self.new.list.items ≡ [] }
    {
        self.list.clear();
    }
}
