//! What the notes of a call tell, once it was worked.

ghost use Rattle.std.specs.Prelude.{◌≡◌, true, false, Some, filter, IfOk, OnOk};
ghost use Rattle.std.specs.List.{list_all};
ghost use Rattle.std.specs.BTreeMap.{get};
ghost use Rattle.fpage.specs.Fpage.{IsSpaceBits};
ghost use Rattle.space.specs.Directory.{pages_of};
ghost use Rattle.space.specs.Place.{place_cmp};
ghost use Rattle.space.specs.declared.place.Place.{Place};
ghost use Rattle.model.specs.Definitions.Holdings.{is_held};
ghost use Rattle.holdings.specs.Noting.{first_note};
ghost use Rattle.holdings.specs.Places.{IsWithin};
ghost use Rattle.mapdb.specs.Noted.{is_told, unless_held, IsInRun, Tells};

use holdings::{Holdings, Note, Notes};
use space::{NoMemory, Place};
use std::alloc::{AllocError, Global};
use std::collections::BTreeMap;

/// Takes from the notes of a call the pages that were held neither before it nor after it: what one item of a send
/// mapped, and a later item took away.
///
/// Refused, where memory is: `NoMemory`.
pub fn keep_told(alloc: Global, held: &Holdings, notes: &mut Notes) -> Result<(), NoMemory>
    ensures asked { notes.new.asked ≡ notes.old.asked }
    ensures told { OnOk result (Tells held.now.holdings notes.old.list.items notes.new.list.items) }
{
    if are_told(held, &notes.list) {
        return Ok(());
    }
    let firsts = first_notes(alloc, held, &notes.list)?;
    notes.list = told_notes(alloc, held, &firsts, &notes.list)?;
    Ok(())
}

/// Whether each page was held when it was noted, or is held now. Pages of one run are looked at together.
fn are_told(held: &Holdings, notes: &[Note]) -> bool
    ensures { result ≡ list_all (λ n. is_told (Some n.was_held) (is_held held.now.holdings n.place)) notes.now }
{
    let mut run = HeldRun {
        space: 0,
        start: 0,
        end: 0,
    };
    for note in notes {
        let place = note.place();
        if !note.was_held() && !run.has(place) {
            run = held_run(held, place);
            if !run.has(place) {
                return false;
            }
        }
    }
    true
}

/// Pages of a space, side by side, each of which is held.
#[derive(Clone, Copy)]
struct HeldRun {
    space: u16,
    start: u32,
    end: u32,
}

impl HeldRun {
    ghost use Rattle.std.specs.Prelude.{IsTrue, ◌↔◌};
    ghost use Rattle.mapdb.specs.Noted.{IsInRun};

    /// Whether a page is one of them.
    fn has(&self, place: Place) -> bool
        ensures { IsTrue result ↔ IsInRun self.now place }
    {
        place.space == self.space && self.start <= place.page && place.page < self.end
    }
}

/// The run of held pages that begins with a page; an empty one where it is not held.
fn held_run(held: &Holdings, place: Place) -> HeldRun
    ensures held { (p : Place) → IsInRun result p → is_held held.now.holdings p ≡ true }
    ensures some { is_held held.now.holdings place ≡ true → IsInRun result place }
{
    let space = place.space;
    if !is_within(held, place) {
        return HeldRun {
            space,
            start: 0,
            end: 0,
        };
    }
    let pages = held.held_run(place);
    HeldRun {
        space,
        start: pages.start,
        end: pages.end,
    }
}

/// What the first note says of each page that is held no longer.
fn first_notes(
    alloc: Global,
    held: &Holdings,
    notes: &[Note],
) -> Result<BTreeMap<Place, bool>, AllocError>
    ensures { IfOk result (λ firsts. (p : Place) → get place_cmp firsts p ≡ unless_held (is_held held.now.holdings p) (first_note notes.now p)) }
{
    let mut firsts = BTreeMap::new(alloc);
    // From the last note on, so that an earlier one takes the place of a later one.
    for i in 0..notes.len() {
        let note = notes[notes.len() - 1 - i];
        let place = note.place();
        if !is_held(held, place) {
            firsts.insert(place, note.was_held())?;
        }
    }
    Ok(firsts)
}

/// The notes of pages whose first note says that they were held, or that are held now.
fn told_notes(
    alloc: Global,
    held: &Holdings,
    firsts: &BTreeMap<Place, bool>,
    notes: &[Note],
) -> Result<Vec<Note>, AllocError>
    ensures { IfOk result (λ told. told.items ≡ filter (λ n. is_told (get place_cmp firsts.now n.place) (is_held held.now.holdings n.place)) notes.now) }
{
    let mut told = Vec::with_capacity(alloc, notes.len())?;
    for note in notes {
        let place = note.place();
        let first = firsts.get(&place).copied();
        if is_told(held, first, place) {
            told.push(*note)?;
        }
    }
    Ok(told)
}

/// Whether a page was held before the call, as its first note says, or is held now.
fn is_told(held: &Holdings, first: Option<bool>, place: Place) -> bool
    ensures { result ≡ is_told first (is_held held.now.holdings place) }
{
    first == Some(true) || is_held(held, place)
}

/// Whether a page holds something, also one of no space.
fn is_held(held: &Holdings, place: Place) -> bool
    ensures { result ≡ is_held held.now.holdings place }
{
    is_within(held, place) && held.entry(place).is_some()
}

/// Whether a page is one of a space; any other holds nothing.
fn is_within(held: &Holdings, place: Place) -> bool
    ensures within { result ≡ true → IsWithin held.now.limits place }
    ensures outside { result ≡ false → is_held held.now.holdings place ≡ false }
{
    let limits = held.limits();
    if u32::from(place.space) >= limits.spaces {
        return false;
    }
    if place.page >= pages(limits.bits) {
        return false;
    }
    true
}

/// How many pages a space of `2^bits` bytes has.
fn pages(bits: u32) -> u32
    requires { IsSpaceBits bits }
    ensures { result ≡ pages_of bits }
{
    1 << (bits - 12)
}
