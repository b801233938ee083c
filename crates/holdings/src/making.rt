//! Words for pages that are about to hold something.

ghost use Rattle.std.specs.Prelude.{OnOk, IsFalse, IfSome, ◌≡◌, false};
ghost use Rattle.std.specs.List.{All, list_any};
ghost use Rattle.space.specs.Shards.{HasWord, IsMade, AreOnlyMade, IsPlace, are_beside, is_taken};
ghost use Rattle.std.specs.Option.{option_map_or};

use crate::shard::SHARD_PAGES;
use crate::transfer::Transfer;
use space::{NoMemory, Place, Shards};

/// Makes the shards of the targets of transfers, where they are not there yet, and no others. What is held stays. Of
/// targets side by side in one shard the first is looked at.
///
/// Refused, where memory is, `NoMemory`: some of the shards may then be there, and nothing else has changed.
pub fn make_targets(shards: &mut Shards, transfers: &[Transfer]) -> Result<(), NoMemory>
    requires present { IsFalse (is_taken shards.old) }
    requires places { All (λ t. IsPlace shards.old t.target) transfers.now }
    ensures made { IsMade shards.old shards.new }
    ensures there { OnOk result (All (λ t. HasWord shards.new t.target) transfers.now) }
    ensures only { AreOnlyMade shards.old shards.new (λ p. list_any (λ t. are_beside t.target p) transfers.now) }
    ensures present { IsFalse (is_taken shards.new) }
{
    let mut made = None;
    for transfer in transfers {
        make_behind(shards, made, transfer.target)?;
        made = Some(transfer.target);
    }
    Ok(())
}

/// Makes the shard of a page, behind another whose shard is there, if there is another.
fn make_behind(shards: &mut Shards, other: Option<Place>, place: Place) -> Result<(), NoMemory>
    requires place { IsPlace shards.old place }
    requires other { IfSome other (HasWord shards.old) }
    requires present { IsFalse (is_taken shards.old) }
    ensures made { IsMade shards.old shards.new }
    ensures there { OnOk result (HasWord shards.new place) }
    ensures only { AreOnlyMade shards.old shards.new (are_beside place) }
    ensures present { IsFalse (is_taken shards.new) }
{
    if is_beside(other, place) {
        return Ok(());
    }
    shards.make_one(place)
}

/// Whether a page has its word in the shard of another, if there is another.
fn is_beside(other: Option<Place>, place: Place) -> bool
    ensures { result ≡ option_map_or (λ other. are_beside other place) other false }
{
    match other {
        Some(other) => {
            other.space == place.space && other.page / SHARD_PAGES == place.page / SHARD_PAGES
        }
        None => false,
    }
}
