//! Listings: the mappings at or behind a place, those of one space, and that of a page with those that derive from it.

ghost use Rattle.std.specs.Prelude.{◌≡◌, ◌<◌, ◌≤◌, ◌-◌, ◌^◌, false, [], ◌∷◌, length, IfSome, MatchOption, Some};
ghost use Rattle.std.specs.Option.{option_map};
ghost use Rattle.space.specs.Directory.{pages_of};
ghost use Rattle.mapdb.specs.Held.{IsWithin, pages_from, AreAbsentFrom, IsNextHeldOf, IsNoneBelow, IsNextBelow};
ghost use Rattle.c_handle.specs.declared.mappings.Listing.TheVariants.{Below};
ghost use Rattle.c_handle.specs.Listed.{IsListingOf, chosen, is_chosen, listed_of, listing_code, mapping_told, mappings_at, mappings_of, places_to, IsWritten, WritesBehind};

use crate::code::{DONE, HALTED};
use crate::look::{origin_numbers, place_code, space_code};
use mapdb::Database;
use space::{Entry, Place};

/// What a page holds, and from which page it came.
#[repr(C)]
#[derive(Clone, Copy, Debug, PartialEq, Eq)]
pub struct MappingReply {
    pub space: u32,
    pub page: u32,
    pub frame: u32,
    /// 4 for read, 2 for write and 1 for execute, added up.
    pub rights: u32,
    /// The same, of the accesses that the page has seen.
    pub status: u32,
    /// 1 if the page came from another; 0 for a root, and then both numbers of its origin are 0.
    pub has_origin: u32,
    pub origin_space: u32,
    pub origin_page: u32,
}

/// Which mappings are asked for, by rising place.
#[derive(Clone, Copy)]
pub enum Listing {
    /// Those at or behind a page. One past the end of its space stands for the start of the next space.
    From(Place),
    /// Those of its space alone.
    OfSpace(Place),
    /// Those at or behind a page that derive from another page, at any distance, and that page's own.
    Below { above: Place, first: Place },
}

impl Listing {
    ghost use Rattle.std.specs.Prelude.{◌≡◌, ◌<◌};
    ghost use Rattle.c_handle.specs.Listed.{first_of, end_of};

    /// Where it begins.
    fn first(self) -> Place
        ensures { result ≡ first_of self }
    {
        match self {
            Listing::From(first) | Listing::OfSpace(first) | Listing::Below { first, .. } => first,
        }
    }

    /// At which space it ends, of so many.
    fn end(self, spaces: u16) -> u16
        requires { (first_of self).space < spaces }
        ensures { result ≡ end_of self spaces }
    {
        match self {
            Listing::From(_) | Listing::Below { .. } => spaces,
            Listing::OfSpace(first) => first.space + 1,
        }
    }
}

/// A mapping in numbers.
fn mapping_numbers(place: Place, entry: Entry, origin: Option<Place>) -> MappingReply
    ensures { result ≡ mapping_told (place, record { frame = entry.frame; rights = entry.rights; status = entry.status; origin = origin }) }
{
    let origin = origin_numbers(origin);
    MappingReply {
        space: u32::from(place.space),
        page: place.page,
        frame: entry.frame,
        rights: entry.rights.number(),
        status: entry.status.number(),
        has_origin: origin.known,
        origin_space: origin.space,
        origin_page: origin.page,
    }
}

/// Whether the mapping of a page is asked for.
fn is_chosen(database: &Database, listing: Listing, place: Place) -> bool
    requires running { database.now.is_halted ≡ false }
    requires listing { IsListingOf database.now.limits listing }
    requires within { IsWithin database.now.limits place }
    ensures { result ≡ is_chosen listing database.now.holdings place }
{
    match listing {
        Listing::From(_) | Listing::OfSpace(_) => true,
        Listing::Below { above, .. } => database.is_below(place, above).unwrap(),
    }
}

/// The mapping of a page, if it holds anything and is asked for.
fn mapping_at(database: &Database, listing: Listing, place: Place) -> Option<MappingReply>
    requires running { database.now.is_halted ≡ false }
    requires listing { IsListingOf database.now.limits listing }
    requires within { IsWithin database.now.limits place }
    ensures { result ≡ option_map (λ m. mapping_told (place, m)) (chosen listing database.now.holdings place) }
{
    if !is_chosen(database, listing, place) {
        return None;
    }
    let entry = database.entry(place).ok()??;
    let origin = database.origin(place).ok()?;
    Some(mapping_numbers(place, entry, origin))
}

/// Writes the mapping of a page, if it holds anything and is asked for, behind the first `told` of `mappings`, and returns
/// how many are there then.
fn write_page(
    database: &Database,
    listing: Listing,
    place: Place,
    mappings: &mut [MappingReply],
    told: usize,
) -> usize
    requires running { database.now.is_halted ≡ false }
    requires listing { IsListingOf database.now.limits listing }
    requires within { IsWithin database.now.limits place }
    requires room { told < length mappings.old }
    ensures told { result ≤ length mappings.old }
    ensures written { WritesBehind mappings.old told (mappings_at (chosen listing database.now.holdings) (place ∷ [])) mappings.new result }
{
    match mapping_at(database, listing, place) {
        None => told,
        Some(mapping) => {
            mappings[told] = mapping;
            told + 1
        }
    }
}

/// The first page of a space, from one on, that holds something.
fn next_page(database: &Database, space: u16, page: u32) -> Option<Place>
    requires running { database.now.is_halted ≡ false }
    requires space { space < database.now.limits.spaces }
    ensures next { MatchOption result
        (AreAbsentFrom database.now.holdings space page (pages_of database.now.limits.bits))
        (IsNextHeldOf database.now.holdings space page (pages_of database.now.limits.bits)) }
    ensures small { pages_of database.now.limits.bits ≤ 2 ^ 20 }
{
    // Its contract says that the limits are served.
    let _ = database.limits();
    match database.next_held(space, page) {
        Ok(found) => found,
        Err(_) => None,
    }
}

/// Writes the mappings of a space from a page on behind the first `told` of `mappings`, as many as there is room for, and
/// returns how many are there then.
fn write_space(
    database: &Database,
    listing: Listing,
    from: Place,
    mappings: &mut [MappingReply],
    told: usize,
) -> usize
    requires running { database.now.is_halted ≡ false }
    requires listing { IsListingOf database.now.limits listing }
    requires space { from.space < database.now.limits.spaces }
    requires told { told ≤ length mappings.old }
    ensures told { result ≤ length mappings.old }
    ensures written { WritesBehind mappings.old told
        (mappings_at (chosen listing database.now.holdings) (pages_from from.space from.page (pages_of database.now.limits.bits - from.page)))
        mappings.new result }
{
    let mut told = told;
    let mut page = from.page;
    while told < mappings.len() {
        let Some(place) = next_page(database, from.space, page) else {
            return told;
        };
        told = write_page(database, listing, place, mappings, told);
        page = place.page + 1;
    }
    told
}

/// The first page at or behind a place that is held and derives from a page, or is that page.
fn next_below(database: &Database, above: Place, from: Place) -> Option<Place>
    requires running { database.now.is_halted ≡ false }
    requires above { IsWithin database.now.limits above }
    ensures next { MatchOption result (IsNoneBelow database.now.holdings above from) (IsNextBelow database.now.holdings above from) }
    ensures within { IfSome result (IsWithin database.now.limits) }
    ensures small { pages_of database.now.limits.bits ≤ 2 ^ 20 }
{
    // Its contract says that the limits are served.
    let _ = database.limits();
    match database.next_below(above, from) {
        Ok(found) => found,
        Err(_) => None,
    }
}

/// Writes the mappings below a page, from a place on, as many as there is room for, and returns how many they are. It
/// looks for each among all that derive from the page.
fn write_below(
    database: &Database,
    above: Place,
    first: Place,
    mappings: &mut [MappingReply],
) -> usize
    requires running { database.now.is_halted ≡ false }
    requires above { IsWithin database.now.limits above }
    ensures { IsWritten mappings.old (mappings_of (Below above first) database.now.holdings) mappings.new result }
{
    // Its contract says in which order what is held is listed.
    let _ = database.limits();
    let listing = Listing::Below { above, first };
    let mut told = 0;
    let mut from = first;
    while told < mappings.len() {
        let Some(place) = next_below(database, above, from) else {
            return told;
        };
        told = write_page(database, listing, place, mappings, told);
        from = Place {
            space: place.space,
            page: place.page + 1,
        };
    }
    told
}

/// Writes the mappings that a listing asks for, as many as there is room for, and returns how many they are. It looks at
/// all pages that are held.
fn write_spaces(database: &Database, listing: Listing, mappings: &mut [MappingReply]) -> usize
    requires running { database.now.is_halted ≡ false }
    requires listing { IsListingOf database.now.limits listing }
    ensures { IsWritten mappings.old (mappings_of listing database.now.holdings) mappings.new result }
{
    let first = listing.first();
    let spaces = database.limits().spaces as u16;
    if first.space >= spaces {
        return 0;
    }
    let mut told = write_space(database, listing, first, mappings, 0);
    for space in first.space + 1..listing.end(spaces) {
        let start = Place { space, page: 0 };
        told = write_space(database, listing, start, mappings, told);
    }
    told
}

/// Writes the mappings that a listing asks for, as many as there is room for, and returns how many they are.
fn write_mappings(database: &Database, listing: Listing, mappings: &mut [MappingReply]) -> usize
    requires running { database.now.is_halted ≡ false }
    requires listing { IsListingOf database.now.limits listing }
    ensures { IsWritten mappings.old (mappings_of listing database.now.holdings) mappings.new result }
{
    match listing {
        Listing::Below { above, first } if database.is_next_below_fast(above, mappings.len()) => {
            write_below(database, above, first, mappings)
        }
        _ => write_spaces(database, listing, mappings),
    }
}

/// Whether the mappings can be listed: `DONE`, or the code of the first refusal that fits.
fn listing_code(database: &Database, listing: Listing) -> u32
    ensures { result ≡ listing_code listing database.now }
{
    match listing {
        Listing::From(_) => if database.is_halted() { HALTED } else { DONE },
        Listing::OfSpace(first) => space_code(database, first.space),
        Listing::Below { above, .. } => place_code(database, above.space, above.page),
    }
}

/// Writes the first mappings that a listing asks for to `mappings`, and how many they are to `count`, if they can be listed.
pub fn list(
    database: &Database,
    listing: Listing,
    mappings: &mut [MappingReply],
    count: &mut usize,
) -> u32
    ensures { record { code = result; held = Some database.now; mappings = mappings.new; count = count.new }
        ≡ listed_of (Some database.now) listing mappings.old count.old }
{
    let code = listing_code(database, listing);
    if code == DONE {
        *count = write_mappings(database, listing, mappings);
    }
    code
}
