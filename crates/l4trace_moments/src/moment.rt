//! What a trace holds after one of its records.

ghost use Rattle.std.specs.Prelude.{◌≡◌, IfOk, map};
ghost use Rattle.mapdb.specs.Held.{mapped_of};
ghost use Rattle.l4trace_moments.specs.Moment.{IsMoment, IsRecordCount};

use crate::answering::{answer_last, answer_records, start};
use crate::error::ShowError;
use l4trace_drawings::Moment;
use mapdb::{Database, Mapping};
use replay::Watch;
use std::alloc::Global;
use trace::TraceReader;

/// How many records a trace has behind its header.
pub fn record_count(alloc: Global, bytes: &[u8]) -> Result<u64, ShowError>
    ensures { IfOk result (IsRecordCount bytes.now) }
{
    let mut reader = TraceReader::of_slice(alloc, bytes)?;
    let mut count = 0u64;
    while !reader.is_at_end() {
        match reader.next_record() {
            Ok(Some(_)) if count < u64::MAX => count += 1,
            _ => return Err(ShowError::NoMemory),
        }
    }
    Ok(count)
}

/// Every mapping of a database, by rising place.
fn held(alloc: Global, database: &Database) -> Result<Vec<Mapping>, ShowError>
    ensures { IfOk result (λ held. map mapped_of held.items ≡ database.now.holdings) }
{
    match database.mappings(alloc) {
        Ok(mappings) => Ok(mappings),
        Err(_) => Err(ShowError::NoMemory),
    }
}

/// The reply to the record with this number, or to the last where there are fewer, and what is held before it and
/// after it. The watch hears of the records before it.
pub fn moment_at<V: Watch>(
    alloc: Global,
    bytes: &[u8],
    at: u64,
    watch: &mut V,
) -> Result<Moment, ShowError>
    ensures { IfOk result (IsMoment bytes.now at) }
{
    let count = record_count(alloc, bytes)?;
    let mut reader = TraceReader::of_slice(alloc, bytes)?;
    let limits = reader.limits();
    let mut database = start(alloc, &limits)?;
    let records = at.min(count);
    let earlier = records.saturating_sub(1);
    answer_records(alloc, &mut database, &mut reader, earlier, watch)?;
    let before = held(alloc, &database)?;
    let reply = answer_last(alloc, &mut database, &mut reader, records - earlier)?;
    let after = held(alloc, &database)?;
    Ok(Moment {
        limits,
        records,
        reply,
        before,
        after,
    })
}
