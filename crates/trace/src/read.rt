//! A trace: its limits, and its records.

ghost use Rattle.std.specs.Prelude.{◌≡◌, false, IfOk, IfErr, IfSome, OnOk};
ghost use Rattle.trace.specs.Trace.{IsTraceOf, IsFaultOf, TellsReader};
ghost use Rattle.trace.specs.Unread.{IsFaultIn};

use crate::bytes::Bytes;
use crate::reader::TraceReader;
use crate::records::Record;
use crate::stream::{ReadError, Source, read_to_end};
use mapdb::Limits;
use space::NoMemory;
use std::alloc::Global;
use thiserror::Error;

/// A trace that was read.
#[derive(Drop)]
pub struct Trace {
    /// The limits that the header names, whether or not a database serves them.
    pub limits: Limits,
    /// The records after the header, each with the version that the header names.
    pub records: Vec<Record>,
}

/// Why a source is no trace.
#[derive(Clone, Copy, Debug, PartialEq, Eq, Error)]
pub enum TraceError {
    /// A read failed.
    #[error("Unreadable")]
    Unreadable,
    /// There is no first record, or it does not have a header's form.
    #[error("BadHeader")]
    BadHeader,
    /// Out of memory.
    #[error("NoMemory")]
    NoMemory,
}

impl From<ReadError> for TraceError {
    ghost use Rattle.trace.specs.Stream.{IsOfRead};

    ghost from_gives = { IsOfRead };

    fn from(error: ReadError) -> Self {
        match error {
            ReadError::Failed => TraceError::Unreadable,
            ReadError::NoMemory => TraceError::NoMemory,
        }
    }
}

impl From<NoMemory> for TraceError {
    ghost use Rattle.std.specs.Prelude.{◌≡◌};
    ghost use Rattle.trace.specs.declared.read.TraceError.TheVariants.{NoMemory};

    ghost from_gives = { λ _ e. e ≡ NoMemory };

    fn from(_: NoMemory) -> Self {
        TraceError::NoMemory
    }
}

/// Reads a source to its end, and then its bytes as `csv` does: no header row, any number of fields, nothing trimmed.
///
/// The errors are `Unreadable`, if a read fails, `NoMemory`, if memory runs out, and `BadHeader`, if there is no first
/// record or it does not have a header's form. Whether the limits are served is for the database to say.
pub fn read_all<R: Source>(alloc: Global, reader: &mut R) -> Result<Trace, TraceError>
    requires { R.failed reader.old ≡ false }
    ensures trace { IfOk result (λ trace. IfSome (R.remaining reader.old) (λ input. IsTraceOf input trace)) }
    ensures ok { OnOk result (R.failed reader.new ≡ false) }
    ensures fault { IfErr result (λ e. IfSome (R.remaining reader.old) (λ input. IsFaultOf input e)) }
    ensures err { IfErr result (TellsReader (R.failed reader.new)) }
{
    let bytes = read_to_end(alloc, reader)?;
    read_trace(alloc, bytes)
}

/// Returns the trace that bytes are.
fn read_trace(alloc: Global, bytes: Bytes) -> Result<Trace, TraceError>
    ensures ok { IfOk result (IsTraceOf bytes) }
    ensures err { IfErr result (IsFaultIn bytes) }
{
    let mut reader = TraceReader::new(alloc, bytes)?;
    let limits = reader.limits();
    let mut records = Vec::new(alloc);
    while let Some(record) = reader.next_record()? {
        if records.push(record).is_err() {
            return Err(TraceError::NoMemory);
        }
    }
    Ok(Trace { limits, records })
}
