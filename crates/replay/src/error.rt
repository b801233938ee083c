//! Why a run ended early.

use thiserror::Error;
use trace::{ReadError, TraceError};

/// Why a run ended early.
#[derive(Clone, Copy, Debug, PartialEq, Eq, Error)]
pub enum RunError {
    /// There is no first record, or it does not have a header's form. Nothing was written.
    #[error("BadHeader")]
    BadHeader,
    /// The header names limits that are not served. Nothing was written.
    #[error("BadLimits")]
    BadLimits,
    /// Out of memory. The number is that of the first record whose reply line was not written: 0 before the first
    /// record, and one more than the number of records in the audit. The reply lines before it were written.
    #[error("record {0}: NoMemory")]
    NoMemory(u64),
    /// A thread could not be started. The number is that of the first record whose reply line was not written. The reply
    /// lines before it were written.
    #[error("record {0}: NoWorker")]
    NoWorker(u64),
    /// A read failed. Nothing was written.
    #[error("Unreadable")]
    Unreadable,
    /// A write or the last flush failed. Nothing is known of what was written.
    #[error("WriteFailed")]
    WriteFailed,
}

impl From<TraceError> for RunError {
    ghost use Rattle.replay.specs.Error.{IsOfTrace};

    ghost from_gives = { IsOfTrace };

    fn from(error: TraceError) -> Self {
        match error {
            TraceError::Unreadable => RunError::Unreadable,
            TraceError::BadHeader => RunError::BadHeader,
            TraceError::NoMemory => RunError::NoMemory(0),
        }
    }
}

impl From<ReadError> for RunError {
    ghost use Rattle.replay.specs.Error.{IsOfRead};

    ghost from_gives = { IsOfRead };

    fn from(error: ReadError) -> Self {
        match error {
            ReadError::Failed => RunError::Unreadable,
            ReadError::NoMemory => RunError::NoMemory(0),
        }
    }
}
