//! What a page of a database holds.

ghost use Rattle.std.specs.Prelude.{◌≡◌, true, IfOk, option_map};
ghost use Rattle.model.specs.Definitions.Holdings.{at};
ghost use Rattle.mapdb.specs.Held.{limits_of, IsWithin};
ghost use Rattle.l4trace_moments.specs.History.{held_of};

use crate::error::ShowError;
use mapdb::{Database, Limits, Mapping};
use space::Place;

/// Whether there is such a page.
pub fn is_within(limits: &Limits, place: Place) -> bool
    ensures { result ≡ true → IsWithin (limits_of limits.now) place }
{
    if limits.bits < 12 || limits.bits > 32 {
        return false;
    }
    u32::from(place.space) < limits.spaces && place.page < 1 << (limits.bits - 12)
}

/// What a page holds.
pub fn mapping_of(database: &Database, place: Place) -> Result<Option<Mapping>, ShowError>
    requires { IsWithin database.now.limits place }
    ensures { IfOk result (λ held. option_map held_of held ≡ at database.now.holdings place) }
{
    let (Ok(entry), Ok(origin)) = (database.entry(place), database.origin(place)) else {
        return Err(ShowError::NoMemory);
    };
    let Some(entry) = entry else {
        return Ok(None);
    };
    Ok(Some(Mapping {
        place,
        frame: entry.frame,
        rights: entry.rights,
        status: entry.status,
        origin,
    }))
}

/// What a page holds, if there is such a page.
pub fn held_at(database: &Database, place: Place) -> Result<Option<Mapping>, ShowError> {
    if !is_within(&database.limits(), place) {
        return Ok(None);
    }
    mapping_of(database, place)
}
