//! Why nothing is shown.

use audit::AuditError;
use space::NoMemory;
use std::alloc::{AllocError, AllocFailed};
use trace::TraceError;

/// Why nothing is shown.
#[derive(Clone, Copy, Debug, PartialEq, Eq)]
pub enum ShowError {
    /// There is no first record, or it does not have a header's form.
    BadHeader,
    /// The header names limits that are not served.
    BadLimits,
    /// Out of memory.
    NoMemory,
    /// There is no record of this number: the trace has so many.
    NoRecord { number: u64, records: u64 },
    /// There is no space of this number: there are so many, from 0 on.
    NoSpace { number: u32, spaces: u32 },
    /// There is no frame of this number: there are so many, from 0 on.
    NoFrame { number: u32, frames: u32 },
    /// There is no page of this number: a space has so many, from 0 on.
    NoPage { number: u32, pages: u32 },
    /// A record had no answer, for a cause other than memory.
    Ended,
}

impl From<TraceError> for ShowError {
    fn from(error: TraceError) -> Self {
        match error {
            TraceError::Unreadable => ShowError::Ended,
            TraceError::BadHeader => ShowError::BadHeader,
            TraceError::NoMemory => ShowError::NoMemory,
        }
    }
}

impl From<AllocError> for ShowError {
    fn from(_: AllocError) -> Self {
        ShowError::NoMemory
    }
}

impl<T: Drop> From<AllocFailed<T>> for ShowError {
    fn from(_: AllocFailed<T>) -> Self {
        ShowError::NoMemory
    }
}

impl From<AuditError> for ShowError {
    fn from(_: AuditError) -> Self {
        ShowError::NoMemory
    }
}

impl From<NoMemory> for ShowError {
    fn from(_: NoMemory) -> Self {
        ShowError::NoMemory
    }
}
