//! Those of some pages that are held.

ghost use Rattle.std.specs.Prelude.{◌≡◌, IfOk, IsFalse};
ghost use Rattle.std.specs.List.{All};
ghost use Rattle.space.specs.Shards.{IsPlace, is_taken};
ghost use Rattle.holdings.specs.Inner.Stripping.{AreHeldPages, places_in};
ghost use Rattle.holdings.specs.Places.{any_of};
ghost use Rattle.std.specs.List.Sorted.{IsNonDecreasingBy};

use crate::group::OfFrame;
use space::{Place, Shards};
use std::alloc::{AllocError, Global};

/// A page that is held, and its frame.
#[derive(Clone, Copy, Debug, PartialEq, Eq)]
pub struct HeldPage {
    pub frame: u32,
    pub place: Place,
}

impl OfFrame for HeldPage {
    ghost frame_of = { λ h. h.frame };

    fn frame(&self) -> u32 {
        self.frame
    }
}

/// Those of some places that are held, with their frames.
pub fn held_pages(
    alloc: Global,
    shards: &Shards,
    places: &[Place],
) -> Result<Vec<HeldPage>, AllocError>
    requires present { IsFalse (is_taken shards.now) }
    requires places { All (IsPlace shards.now) places.now }
    ensures { IfOk result (λ pages. AreHeldPages shards.now (any_of places.now) pages.items) }
{
    let mut pages = Vec::new(alloc);
    for place in places {
        if let Some(entry) = shards.get(*place) {
            pages.push(HeldPage {
                frame: entry.frame,
                place: *place,
            })?;
        }
    }
    Ok(pages)
}

/// The same, sorted by frame.
pub fn sorted_pages(
    alloc: Global,
    shards: &Shards,
    places: &[Place],
) -> Result<Vec<HeldPage>, AllocError>
    requires present { IsFalse (is_taken shards.now) }
    requires places { All (IsPlace shards.now) places.now }
    ensures held { IfOk result (λ pages. AreHeldPages shards.now (any_of places.now) pages.items) }
    ensures sorted { IfOk result (λ pages. IsNonDecreasingBy (λ h. h.frame) pages.items) }
{
    let mut pages = held_pages(alloc, shards, places)?;
    pages.sort_unstable_by_key(|page| page.frame);
    Ok(pages)
}

/// The places of pages.
pub fn places_of(alloc: Global, pages: &[HeldPage]) -> Result<Vec<Place>, AllocError>
    ensures { IfOk result (λ places. places.items ≡ places_in pages.now) }
{
    let mut places = Vec::with_capacity(alloc, pages.len())?;
    for page in pages {
        places.push(page.place)?;
    }
    Ok(places)
}
