//! The calls of a handle. Each answers a code (`code`): `DONE`, or why it was refused. A refused call changes nothing of what is
//! held, and writes nothing to what is lent to it; one that runs out of memory in the middle loses what was held (`HALTED`).

ghost use Rattle.std.specs.Prelude.{◌≡◌, None, Some, option_map};
ghost use Rattle.c_handle.specs.Boxed.{value_of};

use crate::access::access;
use crate::asked::{AccessAsked, SendAsked, UnmapAsked};
use crate::changes::{ChangeReply, ask, list_changes};
use crate::clear::clear_space;
use crate::code::{BAD_LIMITS, DONE, EMPTY, HOLDS_ONE, NO_MEMORY};
use crate::error::result_code;
use crate::handle::Handle;
use crate::kept::Kept;
use crate::look::{EntryReply, OriginReply, entry, origin};
use crate::mappings::{Listing, MappingReply, list};
use crate::raw_box::RawBox;
use crate::send::{SendReply, send};
use crate::unmap::unmap;
use mapdb::{Database, DbError, Scratch};
use std::alloc::Global;
use std::mem;

impl Handle {
    ghost use Rattle.std.specs.Prelude.{◌≡◌, None};
    ghost use Rattle.c_handle.specs.New.{IsMade};
    ghost use Rattle.c_handle.specs.Look.{held_code, held_entry, held_origin};
    ghost use Rattle.c_handle.specs.Asked.{send_asked, unmap_asked, access_asked, clear_asked};
    ghost use Rattle.c_handle.specs.Called.{IsCalledOf};
    ghost use Rattle.c_handle.specs.Replied.{words_told, made_told, status_told};
    ghost use Rattle.c_handle.specs.Sent.{IsSentOf};
    ghost use Rattle.c_handle.specs.Listed.{listed_of};
    ghost use Rattle.c_handle.specs.Held.{held_of};
    ghost use Rattle.c_handle.specs.Changed.{IsTold, IsAsked, changes_of};

    /// Makes a database of so many spaces of `2^bits` bytes, and of so many frames, which space 0 holds at the start.
    ///
    /// Refused: `HOLDS_ONE`, where the handle holds a database, which stays; `BAD_LIMITS`, where the limits are not served;
    /// `NO_MEMORY`.
    pub fn make(&mut self, alloc: Global, spaces: u32, bits: u32, frames: u32) -> u32
        ensures { IsMade (held_of self.old.kept) (record { spaces = spaces; bits = bits; frames = frames }) result (held_of self.new.kept) }
    {
        if let Some(whole) = take(self, alloc) {
            put(self, alloc, whole);
            return HOLDS_ONE;
        }
        let made = match Database::new(alloc, spaces, bits, frames) {
            Ok(made) => made,
            Err(DbError::BadLimits) => return BAD_LIMITS,
            Err(_) => return NO_MEMORY,
        };
        let kept = Kept {
            database: made,
            scratch: Scratch::new(alloc),
        };
        match Box::new(alloc, kept) {
            Ok(whole) => {
                put(self, alloc, whole);
                DONE
            }
            Err(_) => NO_MEMORY,
        }
    }

    /// Gives all memory of the database back, if there is one. The handle holds nothing afterwards.
    pub fn clear(&mut self, alloc: Global)
        ensures { self.new.kept ≡ None }
    {
        if let Some(whole) = take(self, alloc) {
            drop(whole);
        }
    }

    /// Maps or grants the pages that items name, two words each, through a window of the receiver, and writes how many pages had
    /// which outcome to `reply`.
    ///
    /// Refused: `EMPTY`, where the handle holds nothing; and what `send` refuses, in its order.
    pub fn send(&mut self, alloc: Global, asked: &SendAsked<'_>, reply: &mut SendReply) -> u32
        ensures called { IsSentOf (send_asked asked.now.from asked.now.to asked.now.window asked.now.words.now) (held_of self.old.kept) reply.old
            (record { code = result; held = held_of self.new.kept; lent = reply.new }) }
        ensures told { IsTold self.old.kept result self.new.kept }
    {
        let Some(mut whole) = take(self, alloc) else {
            return EMPTY;
        };
        let sent = send(alloc, &mut whole, asked, reply);
        put(self, alloc, whole);
        result_code(sent)
    }

    /// Takes rights from the pages that words name, and from all that derives from them. Each word comes back with the status
    /// found in place of its rights.
    ///
    /// Refused: `EMPTY`, where the handle holds nothing; and what `unmap` refuses, in its order.
    pub fn unmap(&mut self, alloc: Global, asked: UnmapAsked, words: &mut [u32]) -> u32
        ensures called { IsCalledOf words_told (unmap_asked asked.space asked.control words.old) (held_of self.old.kept) words.old
            (record { code = result; held = held_of self.new.kept; lent = words.new }) }
        ensures told { IsTold self.old.kept result self.new.kept }
    {
        let Some(mut whole) = take(self, alloc) else {
            return EMPTY;
        };
        let unmapped = unmap(alloc, &mut whole, asked, words);
        put(self, alloc, whole);
        result_code(unmapped)
    }

    /// Takes all pages from a space, as where it is deleted, and with each page all that derives from it. `status` is
    /// then that of all of them: 4 for read, 2 for write and 1 for execute, added up.
    ///
    /// Refused: `EMPTY`, where the handle holds nothing; and what `Database::clear` refuses, in its order.
    pub fn clear_space(&mut self, alloc: Global, space: u16, status: &mut u32) -> u32
        ensures called { IsCalledOf status_told (clear_asked space) (held_of self.old.kept) status.old
            (record { code = result; held = held_of self.new.kept; lent = status.new }) }
        ensures told { IsTold self.old.kept result self.new.kept }
    {
        let Some(mut whole) = take(self, alloc) else {
            return EMPTY;
        };
        let cleared = clear_space(alloc, &mut whole, space, status);
        put(self, alloc, whole);
        result_code(cleared)
    }

    /// Accesses the page of an address. `made` is then 1, or 0 for a fault.
    ///
    /// Refused: `EMPTY`, where the handle holds nothing; and what `access` refuses, in its order.
    pub fn access(&mut self, alloc: Global, asked: AccessAsked, made: &mut u32) -> u32
        ensures called { IsCalledOf made_told (access_asked asked.space asked.address asked.kind) (held_of self.old.kept) made.old
            (record { code = result; held = held_of self.new.kept; lent = made.new }) }
        ensures told { IsTold self.old.kept result self.new.kept }
    {
        let Some(mut whole) = take(self, alloc) else {
            return EMPTY;
        };
        let accessed = access(alloc, &mut whole, asked, made);
        put(self, alloc, whole);
        result_code(accessed)
    }

    /// Writes what a page holds to `reply`.
    ///
    /// Refused, the first that fits: `EMPTY`, `HALTED`, `NO_SUCH_SPACE`, `OUT_OF_SPACE`.
    pub fn entry(&mut self, alloc: Global, space: u16, page: u32, reply: &mut EntryReply) -> u32
        ensures code { result ≡ held_code (held_of self.old.kept) space page }
        ensures reply { reply.new ≡ held_entry (held_of self.old.kept) space page reply.old }
        ensures kept { self.new.kept ≡ self.old.kept }
    {
        let Some(whole) = take(self, alloc) else {
            return EMPTY;
        };
        let code = entry(&whole.database, space, page, reply);
        put(self, alloc, whole);
        code
    }

    /// Writes from where a page came to `reply`.
    ///
    /// Refused, the first that fits: `EMPTY`, `HALTED`, `NO_SUCH_SPACE`, `OUT_OF_SPACE`.
    pub fn origin(&mut self, alloc: Global, space: u16, page: u32, reply: &mut OriginReply) -> u32
        ensures code { result ≡ held_code (held_of self.old.kept) space page }
        ensures reply { reply.new ≡ held_origin (held_of self.old.kept) space page reply.old }
        ensures kept { self.new.kept ≡ self.old.kept }
    {
        let Some(whole) = take(self, alloc) else {
            return EMPTY;
        };
        let code = origin(&whole.database, space, page, reply);
        put(self, alloc, whole);
        code
    }

    /// Writes the first mappings that a listing asks for to `mappings`, as many as there is room for, by rising place, and how
    /// many they are to `count`. A first page that there is not is no error.
    ///
    /// Refused, the first that fits: `EMPTY`, `HALTED`, `NO_SUCH_SPACE` where that space alone is asked for, and for the page
    /// that others are below `NO_SUCH_SPACE`, `OUT_OF_SPACE`.
    pub fn list(
        &mut self,
        alloc: Global,
        listing: Listing,
        mappings: &mut [MappingReply],
        count: &mut usize,
    ) -> u32
        ensures listed { record { code = result; held = held_of self.new.kept; mappings = mappings.new; count = count.new }
            ≡ listed_of (held_of self.old.kept) listing mappings.old count.old }
        ensures kept { self.new.kept ≡ self.old.kept }
    {
        let Some(whole) = take(self, alloc) else {
            return EMPTY;
        };
        let code = list(&whole.database, listing, mappings, count);
        put(self, alloc, whole);
        code
    }

    /// Whether the calls from now on note what they change.
    ///
    /// Refused: `EMPTY`, `HALTED`.
    pub fn note_changes(&mut self, alloc: Global, asked: bool) -> u32
        ensures { IsAsked self.old.kept asked result self.new.kept }
    {
        let Some(mut whole) = take(self, alloc) else {
            return EMPTY;
        };
        let code = ask(&mut whole, asked);
        put(self, alloc, whole);
        code
    }

    /// Writes what the last call noted, from a number on, to `changes`, as many pages as there is room for, and how many
    /// they are to `count`.
    ///
    /// Refused: `EMPTY`, `HALTED`.
    pub fn changes(
        &mut self,
        alloc: Global,
        from: usize,
        changes: &mut [ChangeReply],
        count: &mut usize,
    ) -> u32
        ensures told { record { code = result; changes = changes.new; count = count.new } ≡ changes_of self.old.kept from changes.old count.old }
        ensures kept { self.new.kept ≡ self.old.kept }
    {
        let Some(whole) = take(self, alloc) else {
            return EMPTY;
        };
        let code = list_changes(&whole, from, changes, count);
        put(self, alloc, whole);
        code
    }
}

/// Takes the database out of a handle, which is then empty.
fn take(db: &mut Handle, alloc: Global) -> Option<Box<Kept>>
    ensures taken { option_map value_of result ≡ db.old.kept }
    ensures empty { db.new.kept ≡ None }
{
    let raw = mem::replace(db, Handle::empty()).into_raw_box(alloc)?;
    Some(raw.into_box())
}

/// Puts a database in place of what a handle holds.
fn put(db: &mut Handle, alloc: Global, whole: Box<Kept>)
    ensures { db.new.kept ≡ Some whole.value }
{
    let before = mem::replace(db, Handle::holding(RawBox::of(whole)));
    if let Some(raw) = before.into_raw_box(alloc) {
        drop(raw.into_box());
    }
}
