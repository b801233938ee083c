//! What a C program calls.

ghost use Rattle.std.specs.Prelude.{◌≡◌, ◌==◌, not, None};
ghost use Rattle.c_handle.specs.New.{IsMade};
ghost use Rattle.c_handle.specs.Look.{held_code, held_entry, held_origin};
ghost use Rattle.c_handle.specs.Asked.{send_asked, unmap_asked, access_asked, clear_asked};
ghost use Rattle.c_handle.specs.Called.{IsCalledOf};
ghost use Rattle.c_handle.specs.Replied.{words_told, made_told, status_told};
ghost use Rattle.c_handle.specs.Sent.{IsSentOf};
ghost use Rattle.c_handle.specs.Listed.{listed_of};
ghost use Rattle.c_handle.specs.declared.mappings.Listing.TheVariants.{From, OfSpace, Below};
ghost use Rattle.c_handle.specs.Held.{held_of};
ghost use Rattle.c_handle.specs.Changed.{IsTold, IsAsked, changes_of};

use c_handle::{
    AccessAsked, ChangeReply, EntryReply, Handle, Listing, MappingReply, OriginReply, SendAsked,
    SendReply, UnmapAsked,
};
use space::Place;
use std::alloc::Global;

/// The version of the interface.
const VERSION: u32 = 3;

/// The version of the interface: 3.
#[unsafe(no_mangle)]
pub extern "C" fn l4map_version() -> u32
    ensures { result ≡ 3 }
{
    VERSION
}

/// Makes a database.
#[unsafe(no_mangle)]
pub extern "C" fn l4map_new(
    alloc: Global,
    db: &mut Handle,
    spaces: u32,
    bits: u32,
    frames: u32,
) -> u32
    ensures { IsMade (held_of db.old.kept) (record { spaces = spaces; bits = bits; frames = frames }) result (held_of db.new.kept) }
{
    db.make(alloc, spaces, bits, frames)
}

/// Gives all memory of a database back.
#[unsafe(no_mangle)]
pub extern "C" fn l4map_free(alloc: Global, db: &mut Handle)
    ensures { db.new.kept ≡ None }
{
    db.clear(alloc);
}

/// Maps or grants the pages that items name.
#[unsafe(no_mangle)]
pub extern "C" fn l4map_send(
    alloc: Global,
    db: &mut Handle,
    from: u16,
    to: u16,
    window: u32,
    words: &[u32],
    reply: &mut SendReply,
) -> u32
    ensures called { IsSentOf (send_asked from to window words.now) (held_of db.old.kept) reply.old
        (record { code = result; held = held_of db.new.kept; lent = reply.new }) }
    ensures told { IsTold db.old.kept result db.new.kept }
{
    let asked = SendAsked {
        from,
        to,
        window,
        words,
    };
    db.send(alloc, &asked, reply)
}

/// Takes rights from the pages that words name, and from all that derives from them.
#[unsafe(no_mangle)]
pub extern "C" fn l4map_unmap(
    alloc: Global,
    db: &mut Handle,
    space: u16,
    control: u32,
    words: &mut [u32],
) -> u32
    ensures called { IsCalledOf words_told (unmap_asked space control words.old) (held_of db.old.kept) words.old
        (record { code = result; held = held_of db.new.kept; lent = words.new }) }
    ensures told { IsTold db.old.kept result db.new.kept }
{
    db.unmap(alloc, UnmapAsked { space, control }, words)
}

/// Takes all pages from a space, and all that derives from them.
#[unsafe(no_mangle)]
pub extern "C" fn l4map_clear(alloc: Global, db: &mut Handle, space: u16, status: &mut u32) -> u32
    ensures called { IsCalledOf status_told (clear_asked space) (held_of db.old.kept) status.old
        (record { code = result; held = held_of db.new.kept; lent = status.new }) }
    ensures told { IsTold db.old.kept result db.new.kept }
{
    db.clear_space(alloc, space, status)
}

/// Accesses the page of an address.
#[unsafe(no_mangle)]
pub extern "C" fn l4map_access(
    alloc: Global,
    db: &mut Handle,
    space: u16,
    address: u32,
    kind: u32,
    made: &mut u32,
) -> u32
    ensures called { IsCalledOf made_told (access_asked space address kind) (held_of db.old.kept) made.old
        (record { code = result; held = held_of db.new.kept; lent = made.new }) }
    ensures told { IsTold db.old.kept result db.new.kept }
{
    let asked = AccessAsked {
        space,
        address,
        kind,
    };
    db.access(alloc, asked, made)
}

/// What a page holds.
#[unsafe(no_mangle)]
pub extern "C" fn l4map_entry(
    alloc: Global,
    db: &mut Handle,
    space: u16,
    page: u32,
    reply: &mut EntryReply,
) -> u32
    ensures code { result ≡ held_code (held_of db.old.kept) space page }
    ensures reply { reply.new ≡ held_entry (held_of db.old.kept) space page reply.old }
    ensures kept { db.new.kept ≡ db.old.kept }
{
    db.entry(alloc, space, page, reply)
}

/// From where a page came.
#[unsafe(no_mangle)]
pub extern "C" fn l4map_origin(
    alloc: Global,
    db: &mut Handle,
    space: u16,
    page: u32,
    reply: &mut OriginReply,
) -> u32
    ensures code { result ≡ held_code (held_of db.old.kept) space page }
    ensures reply { reply.new ≡ held_origin (held_of db.old.kept) space page reply.old }
    ensures kept { db.new.kept ≡ db.old.kept }
{
    db.origin(alloc, space, page, reply)
}

/// The first mappings at or behind a page of a space.
#[unsafe(no_mangle)]
pub extern "C" fn l4map_mappings(
    alloc: Global,
    db: &mut Handle,
    space: u16,
    page: u32,
    mappings: &mut [MappingReply],
    count: &mut usize,
) -> u32
    ensures listed { record { code = result; held = held_of db.new.kept; mappings = mappings.new; count = count.new }
        ≡ listed_of (held_of db.old.kept) (From (record { space = space; page = page })) mappings.old count.old }
    ensures kept { db.new.kept ≡ db.old.kept }
{
    db.list(alloc, Listing::From(Place { space, page }), mappings, count)
}

/// The first mappings of a space at or behind a page of it.
#[unsafe(no_mangle)]
pub extern "C" fn l4map_space_mappings(
    alloc: Global,
    db: &mut Handle,
    space: u16,
    page: u32,
    mappings: &mut [MappingReply],
    count: &mut usize,
) -> u32
    ensures listed { record { code = result; held = held_of db.new.kept; mappings = mappings.new; count = count.new }
        ≡ listed_of (held_of db.old.kept) (OfSpace (record { space = space; page = page })) mappings.old count.old }
    ensures kept { db.new.kept ≡ db.old.kept }
{
    db.list(
        alloc,
        Listing::OfSpace(Place { space, page }),
        mappings,
        count,
    )
}

/// The first mappings at or behind a page of those of another page and of all that derives from it.
#[unsafe(no_mangle)]
pub extern "C" fn l4map_below(
    alloc: Global,
    db: &mut Handle,
    space: u16,
    page: u32,
    from_space: u16,
    from_page: u32,
    mappings: &mut [MappingReply],
    count: &mut usize,
) -> u32
    ensures listed { record { code = result; held = held_of db.new.kept; mappings = mappings.new; count = count.new }
        ≡ listed_of (held_of db.old.kept) (Below (record { space = space; page = page }) (record { space = from_space; page = from_page }))
        mappings.old count.old }
    ensures kept { db.new.kept ≡ db.old.kept }
{
    let listing = Listing::Below {
        above: Place { space, page },
        first: Place {
            space: from_space,
            page: from_page,
        },
    };
    db.list(alloc, listing, mappings, count)
}

/// Whether calls note what they change.
#[unsafe(no_mangle)]
pub extern "C" fn l4map_note_changes(alloc: Global, db: &mut Handle, on: u32) -> u32
    ensures { IsAsked db.old.kept (not (on == 0)) result db.new.kept }
{
    db.note_changes(alloc, on != 0)
}

/// What the last call changed, page by page.
#[unsafe(no_mangle)]
pub extern "C" fn l4map_changes(
    alloc: Global,
    db: &mut Handle,
    from: usize,
    changes: &mut [ChangeReply],
    count: &mut usize,
) -> u32
    ensures told { record { code = result; changes = changes.new; count = count.new } ≡ changes_of db.old.kept from changes.old count.old }
    ensures kept { db.new.kept ≡ db.old.kept }
{
    db.changes(alloc, from, changes, count)
}
