//! Those of some pages of a space that are held.

ghost use Rattle.std.specs.Prelude.{◌≡◌, ◌+◌, ◌-◌, ◌*◌, ◌/◌, ◌<◌, ◌≤◌, ◌++◌, true, filter, IsFalse, OnOk};
ghost use Rattle.space.specs.Directory.{pages_of};
ghost use Rattle.space.specs.Shards.{HasWord, IsPlace, bits_of, is_taken, spaces_of};
ghost use Rattle.holdings.specs.Places.{pages_from};
ghost use Rattle.holdings.specs.Inner.Held.{has_entry};

use crate::holdings::Holdings;
use crate::shard::SHARD_PAGES;
use space::{Place, Shards, page_behind_shard};
use std::alloc::{AllocError, Global};
use std::ops::Range;

/// How many more shards a search may look at than it finds pages before those that hold nothing are dead. The two at the
/// ends of the pages may hold others.
const FEW_IN_VAIN: usize = 2;

/// Held pages among those that a word names.
#[derive(Drop)]
pub struct Named {
    /// By rising page.
    pub places: Vec<Place>,
    /// How many more shards were looked at than pages were found. No clause says how many.
    pub in_vain: usize,
}

impl Named {
    ghost use Rattle.std.specs.Prelude.{◌≡◌};

    /// These places, for which so many shards were looked at.
    fn of(places: Vec<Place>, looked: usize) -> Named
        ensures { result.places ≡ places }
    {
        let in_vain = looked.saturating_sub(places.len());
        Named { places, in_vain }
    }
}

impl Holdings {
    ghost use Rattle.std.specs.Prelude.{◌≡◌, ◌-◌, ◌<◌, ◌≤◌, filter, IfOk};
    ghost use Rattle.space.specs.Directory.{pages_of};
    ghost use Rattle.model.specs.Definitions.Holdings.{is_held};
    ghost use Rattle.holdings.specs.Contents.{IsConsistent};
    ghost use Rattle.holdings.specs.Places.{pages_from};

    /// Those of some pages of a space that are held.
    ///
    /// It passes over shards that are not there, and dead ones, without a look at their pages.
    ///
    /// Fails where memory is refused.
    pub fn held_among(
        &self,
        alloc: Global,
        space: u16,
        pages: Range<u32>,
    ) -> Result<Named, AllocError>
        requires space { space < self.now.limits.spaces }
        requires pages { pages.end ≤ pages_of self.now.limits.bits }
        ensures held { IfOk result (λ named. named.places.items ≡ filter (is_held self.now.holdings) (pages_from space pages.start (pages.end - pages.start))) }
        ensures consistent { IsConsistent self.now }
    {
        let shards = &self.shards;
        let named = pages.end.saturating_sub(pages.start);
        let mut places = Vec::with_capacity(alloc, named.min(SHARD_PAGES) as usize)?;
        let mut looked: usize = 0;
        let mut page = pages.start;
        while page < pages.end {
            let first = shards.first_from(Place { space, page }, pages.end);
            if first == pages.end {
                return Ok(Named::of(places, looked));
            }
            page = page_behind_shard(first).min(pages.end);
            add_held(shards, Place { space, page: first }, page, &mut places)?;
            looked = looked.saturating_add(1);
        }
        Ok(Named::of(places, looked))
    }

    /// The same holdings. Where a search among these pages looked at many more shards in vain than it found pages, those
    /// that hold nothing are dead now. So looks in vain are paid for by what was put there before.
    pub fn swept(self, space: u16, pages: Range<u32>, found: usize, in_vain: usize) -> Self
        ensures { result ≡ self }
    {
        if in_vain <= found.saturating_add(FEW_IN_VAIN) || !has_pages(&self.shards, space, &pages) {
            return self;
        }
        let Holdings { mut shards, trees } = self;
        let from = Place {
            space,
            page: pages.start,
        };
        shards.sweep(from, pages.end);
        Holdings { shards, trees }
    }
}

/// Whether these are pages of a space, and some.
fn has_pages(shards: &Shards, space: u16, pages: &Range<u32>) -> bool
    ensures space { result ≡ true → space < spaces_of shards.now }
    ensures some { result ≡ true → pages.now.start < pages.now.end }
    ensures within { result ≡ true → pages.now.end ≤ pages_of (bits_of shards.now) }
{
    u32::from(space) < shards.spaces()
        && pages.start < pages.end
        && pages.end <= 1 << (shards.bits() - 12)
}

/// Adds those pages of one shard that is there which are held, from a page on and before an end.
fn add_held(
    shards: &Shards,
    first: Place,
    end: u32,
    places: &mut Vec<Place>,
) -> Result<(), AllocError>
    requires place { IsPlace shards.now first }
    requires from { first.page ≤ end }
    requires end { end ≤ (first.page / 64 + 1) * 64 }
    requires within { end ≤ pages_of (bits_of shards.now) }
    requires present { IsFalse (is_taken shards.now) }
    requires has { HasWord shards.now first }
    ensures { OnOk result (places.new.items ≡ places.old.items ++ filter (has_entry shards.now) (pages_from first.space first.page (end - first.page))) }
{
    let start = shards.start_of_shard(first);
    let space = first.space;
    let mut page = first.page;
    while page < end {
        page = shards.first_held_of_shard(start, first, page, end);
        if page < end {
            places.push(Place { space, page })?;
            page += 1;
        }
    }
    Ok(())
}
