//! What a call has changed, page by page.

ghost use Rattle.std.specs.Prelude.{◌≡◌, Some};
ghost use Rattle.c_handle.specs.Changed.{change_at, changes_from, changes_of, IsAskedHere};
ghost use Rattle.c_handle.specs.Listed.{IsWritten};

use crate::code::{DONE, HALTED};
use crate::kept::Kept;
use crate::look::{EntryReply, entry};
use mapdb::{Database, Note};
use space::Place;

/// A page that a call noted, and what it holds now.
#[repr(C)]
#[derive(Clone, Copy, Debug, PartialEq, Eq)]
pub struct ChangeReply {
    pub space: u32,
    pub page: u32,
    /// 1 if the page holds something; otherwise `frame` and `rights` are 0.
    pub held: u32,
    pub frame: u32,
    /// 4 for read, 2 for write and 1 for execute, added up.
    pub rights: u32,
}

/// What a page that holds nothing is told to hold.
const NOTHING: EntryReply = EntryReply {
    held: 0,
    frame: 0,
    rights: 0,
    status: 0,
};

/// A page, and what it holds.
fn change_at(database: &Database, place: Place) -> ChangeReply
    ensures { result ≡ change_at database.now place }
{
    let mut reply = NOTHING;
    let _ = entry(database, place.space, place.page, &mut reply);
    ChangeReply {
        space: u32::from(place.space),
        page: place.page,
        held: reply.held,
        frame: reply.frame,
        rights: reply.rights,
    }
}

/// Writes some pages that were noted, as many as there is room for, and returns how many they are.
fn write_changes(database: &Database, notes: &[Note], changes: &mut [ChangeReply]) -> usize
    ensures { IsWritten changes.old (changes_from database.now notes.now) changes.new result }
{
    let count = changes.len().min(notes.len());
    for i in 0..count {
        changes[i] = change_at(database, notes[i].place());
    }
    count
}

/// Whether the calls from now on note what they change, if the database is not halted.
pub fn ask(kept: &mut Kept, asked: bool) -> u32
    ensures { IsAskedHere kept.old asked result (Some kept.new) }
{
    if kept.database.is_halted() {
        return HALTED;
    }
    kept.scratch.notes.ask(asked);
    DONE
}

/// Writes what the last call noted, from a number on, and how many pages that are to `count`, if the database is not
/// halted.
pub fn list_changes(kept: &Kept, from: usize, changes: &mut [ChangeReply], count: &mut usize) -> u32
    ensures { record { code = result; changes = changes.new; count = count.new } ≡ changes_of (Some kept.now) from changes.old count.old }
{
    if kept.database.is_halted() {
        return HALTED;
    }
    let notes = &kept.scratch.notes.list;
    let first = from.min(notes.len());
    *count = write_changes(&kept.database, &notes[first..], changes);
    DONE
}
