//! What a page holds, and from where it came, in numbers.

ghost use Rattle.std.specs.Prelude.{◌≡◌, option_map};
ghost use Rattle.mapdb.specs.Held.{entry_of};
ghost use Rattle.c_handle.specs.Told.{entry_numbers};
ghost use Rattle.c_handle.specs.Look.{space_code, place_code, entry_left, origin_left, origin_told};
ghost use Rattle.fpage.specs.Fpage.{IsSpaceBits};
ghost use Rattle.space.specs.Directory.{pages_of};

use crate::code::{DONE, HALTED, NO_SUCH_SPACE, OUT_OF_SPACE};
use mapdb::Database;
use space::{Entry, Place};

/// What a page holds.
#[repr(C)]
#[derive(Clone, Copy, Debug, PartialEq, Eq)]
pub struct EntryReply {
    /// 1 if the page is held; otherwise all numbers are 0.
    pub held: u32,
    pub frame: u32,
    /// 4 for read, 2 for write and 1 for execute, added up.
    pub rights: u32,
    /// The same, of the accesses that the page has seen.
    pub status: u32,
}

/// From where a page came.
#[repr(C)]
#[derive(Clone, Copy, Debug, PartialEq, Eq)]
pub struct OriginReply {
    /// 1 if the page is held and came from another; otherwise all numbers are 0.
    pub known: u32,
    pub space: u32,
    pub page: u32,
}

/// What a page holds, in numbers.
fn entry_numbers(found: Option<Entry>) -> EntryReply
    ensures { result ≡ entry_numbers found }
{
    match found {
        None => EntryReply {
            held: 0,
            frame: 0,
            rights: 0,
            status: 0,
        },
        Some(entry) => EntryReply {
            held: 1,
            frame: entry.frame,
            rights: entry.rights.number(),
            status: entry.status.number(),
        },
    }
}

/// A place, in numbers.
pub fn origin_numbers(origin: Option<Place>) -> OriginReply
    ensures { result ≡ origin_told origin }
{
    match origin {
        None => OriginReply {
            known: 0,
            space: 0,
            page: 0,
        },
        Some(place) => OriginReply {
            known: 1,
            space: u32::from(place.space),
            page: place.page,
        },
    }
}

/// Whether a space can be asked about: `DONE`, or the code of the first refusal that fits.
pub fn space_code(database: &Database, space: u16) -> u32
    ensures { result ≡ space_code database.now space }
{
    if database.is_halted() {
        return HALTED;
    }
    if u32::from(space) >= database.limits().spaces {
        return NO_SUCH_SPACE;
    }
    DONE
}

/// Whether a page can be asked for: `DONE`, or the code of the first refusal that fits.
pub fn place_code(database: &Database, space: u16, page: u32) -> u32
    ensures { result ≡ place_code database.now space page }
{
    if database.is_halted() {
        return HALTED;
    }
    let limits = database.limits();
    if u32::from(space) >= limits.spaces {
        return NO_SUCH_SPACE;
    }
    if page >= pages(limits.bits) {
        return OUT_OF_SPACE;
    }
    DONE
}

/// How many pages a space of `2^bits` bytes has.
pub fn pages(bits: u32) -> u32
    requires { IsSpaceBits bits }
    ensures { result ≡ pages_of bits }
{
    1 << (bits - 12)
}

/// Writes what a page holds to `reply`, if the page can be asked for.
pub fn entry(database: &Database, space: u16, page: u32, reply: &mut EntryReply) -> u32
    ensures code { result ≡ place_code database.now space page }
    ensures reply { reply.new ≡ entry_left database.now space page reply.old }
{
    let code = place_code(database, space, page);
    if code != DONE {
        return code;
    }
    match database.entry(Place { space, page }) {
        Ok(found) => {
            *reply = entry_numbers(found);
            DONE
        }
        Err(_) => HALTED,
    }
}

/// Writes from where a page came to `reply`, if the page can be asked for.
pub fn origin(database: &Database, space: u16, page: u32, reply: &mut OriginReply) -> u32
    ensures code { result ≡ place_code database.now space page }
    ensures reply { reply.new ≡ origin_left database.now space page reply.old }
{
    let code = place_code(database, space, page);
    if code != DONE {
        return code;
    }
    match database.origin(Place { space, page }) {
        Ok(origin) => {
            *reply = origin_numbers(origin);
            DONE
        }
        Err(_) => HALTED,
    }
}
