//! Why the program ends early, and what it says then.

use l4trace_checks::{CheckError, Subject, check_trace};
use l4trace_differences::CompareError;
use l4trace_moments::ShowError;
use l4trace_random_traces::RandomError;
use replay::{NoWatch, RunError};
use std::alloc::{AllocError, Global};
use trace::Std;

/// Why the program ends early.
#[derive(Debug, Drop)]
pub enum ToolError {
    /// Out of memory.
    NoMemory,
    /// A write failed.
    WriteFailed,
    /// A replay ended early.
    Ended,
    /// A file cannot be opened or read; the line that says so.
    Unreadable(String),
    /// A trace has no such record, space, frame or page; the line that says so.
    Unknown(String),
    /// The header of a trace is bad; the line of a check that says where and why.
    BadHeader(Vec<u8>),
}

impl From<AllocError> for ToolError {
    fn from(_: AllocError) -> Self {
        ToolError::NoMemory
    }
}

impl From<CheckError> for ToolError {
    fn from(error: CheckError) -> Self {
        match error {
            CheckError::NoMemory => ToolError::NoMemory,
            CheckError::WriteFailed => ToolError::WriteFailed,
        }
    }
}

impl From<RandomError> for ToolError {
    fn from(error: RandomError) -> Self {
        match error {
            RandomError::NoMemory => ToolError::NoMemory,
            RandomError::WriteFailed => ToolError::WriteFailed,
        }
    }
}

/// Why nothing is shown of a trace with this name.
pub fn show_error(
    alloc: Global,
    name: &str,
    bytes: &[u8],
    error: ShowError,
) -> Result<ToolError, ToolError> {
    match error {
        ShowError::BadHeader | ShowError::BadLimits => bad_header(alloc, name, bytes),
        ShowError::NoRecord { number, records } => no_record(alloc, name, number, records),
        ShowError::NoSpace { number, spaces } => unknown(alloc, name, "space", number, spaces),
        ShowError::NoFrame { number, frames } => unknown(alloc, name, "frame", number, frames),
        ShowError::NoPage { number, pages } => unknown(alloc, name, "page", number, pages),
        ShowError::NoMemory => Ok(ToolError::NoMemory),
        ShowError::Ended => Ok(ToolError::Ended),
    }
}

/// That a trace with so many records has none of this number.
pub fn no_record(
    alloc: Global,
    name: &str,
    number: u64,
    records: u64,
) -> Result<ToolError, ToolError> {
    let ending = if records == 1 { "" } else { "s" };
    let line = format!(in alloc;
        "l4trace: {name}: there is no record {number}; the trace has {records} record{ending}\n"
    )?;
    Ok(ToolError::Unknown(line))
}

/// That there is none of this number of what a noun names, of which there are so many.
fn unknown(
    alloc: Global,
    name: &str,
    noun: &str,
    number: u32,
    count: u32,
) -> Result<ToolError, ToolError> {
    let line = match count {
        1 => format!(in alloc;
            "l4trace: {name}: there is no {noun} {number}; the only one is 0\n"
        )?,
        _ => {
            let last = count.saturating_sub(1);
            format!(in alloc;
                "l4trace: {name}: there is no {noun} {number}; {noun}s are 0 to {last}\n"
            )?
        }
    };
    Ok(ToolError::Unknown(line))
}

/// Why answers are not compared with those to a trace with this name.
pub fn compare_error(
    alloc: Global,
    name: &str,
    bytes: &[u8],
    error: CompareError,
) -> Result<ToolError, ToolError> {
    match error {
        CompareError::Run(RunError::BadHeader | RunError::BadLimits) => {
            bad_header(alloc, name, bytes)
        }
        CompareError::Run(_) => Ok(ToolError::Ended),
        CompareError::NoMemory => Ok(ToolError::NoMemory),
        CompareError::WriteFailed => Ok(ToolError::WriteFailed),
    }
}

/// What a check says of a trace whose header is bad.
fn bad_header(alloc: Global, name: &str, bytes: &[u8]) -> Result<ToolError, ToolError> {
    let subject = Subject {
        name,
        bytes,
        most: 0,
    };
    let mut writer = Std::new(Vec::new(alloc));
    check_trace(alloc, &subject, &mut writer, &mut NoWatch)?;
    Ok(ToolError::BadHeader(writer.into_inner()))
}

/// The line and the exit status of an error.
pub fn told(error: &ToolError) -> (&[u8], u8) {
    match error {
        ToolError::BadHeader(line) => (line.as_slice(), 2),
        ToolError::Unknown(line) => (line.as_bytes(), 2),
        ToolError::Ended => ("l4trace: the replay ended early\n".as_bytes(), 3),
        ToolError::NoMemory => ("l4trace: NoMemory\n".as_bytes(), 3),
        ToolError::Unreadable(line) => (line.as_bytes(), 4),
        ToolError::WriteFailed => ("l4trace: WriteFailed\n".as_bytes(), 4),
    }
}
