//! The pages of a space that hold something, one after another.

ghost use Rattle.std.specs.Prelude.{◌≡◌, ◌<◌, ◌≤◌, None, IfNone, IfSome, IsFalse};
ghost use Rattle.space.specs.declared.place.Place.{Place};
ghost use Rattle.space.specs.Directory.{pages_of};
ghost use Rattle.space.specs.Shards.{spaces_of, bits_of, entry_at, is_taken};
ghost use Rattle.holdings.specs.Inner.NextHeld.{IsNextHeld};

use space::{Entry, Place, Shards};

/// The first page of a space, from one on, that holds something, and what it holds. It passes over shards that are not
/// there without a look at their pages.
pub fn next_held(shards: &Shards, from: Place) -> Option<(Place, Entry)>
    requires present { IsFalse (is_taken shards.now) }
    requires space { from.space < spaces_of shards.now }
    ensures none { IfNone result ((p : Place) → p.space ≡ from.space → from.page ≤ p.page → p.page < pages_of (bits_of shards.now) → entry_at shards.now p ≡ None) }
    ensures some { IfSome result (λ found. IsNextHeld shards.now from found.0 found.1) }
{
    let pages = 1 << (shards.bits() - 12);
    if from.page >= pages {
        return None;
    }
    if let Some(entry) = shards.get(from) {
        return Some((from, entry));
    }
    let page = shards.first_held(from, pages);
    if page == pages {
        return None;
    }
    let place = Place {
        space: from.space,
        page,
    };
    let entry = shards.get(place)?;
    Some((place, entry))
}
