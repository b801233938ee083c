//! The audit after a record of a trace.

ghost use Rattle.std.specs.Prelude.{IfOk};
ghost use Rattle.l4trace_moments.specs.Moment.{IsAuditAfter};

use crate::answering::{answer_records, start};
use crate::asked::check_record;
use crate::error::ShowError;
use crate::moment::record_count;
use audit::report;
use replay::Watch;
use std::thread::Threads;
use trace::TraceReader;

/// The audit after the record with this number, or after the last if none is given, as l4map writes it. The watch
/// hears of each record.
pub fn audit_after<T: AllocGlobal + Threads + Sync, V: Watch>(
    rt: &T,
    bytes: &[u8],
    at: Option<u64>,
    watch: &mut V,
) -> Result<Vec<u8>, ShowError>
    ensures { IfOk result (λ text. IsAuditAfter bytes.now at text.items) }
{
    let alloc = rt.alloc();
    let count = record_count(alloc, bytes)?;
    check_record(count, at)?;
    let mut reader = TraceReader::of_slice(alloc, bytes)?;
    let limits = reader.limits();
    let mut database = start(alloc, &limits)?;
    let records = at.unwrap_or(count);
    answer_records(alloc, &mut database, &mut reader, records, watch)?;
    let text = report(rt, &database)?;
    Ok(text)
}
