//! Files and standard input, and why they cannot be read.

use crate::error::ToolError;
use std::alloc::{AllocError, Global};
use std::io::{Error, ErrorKind, Read};
use std::rt::Files;
use std::{fs, io};

/// Reads a file, or standard input where its name is `-`.
pub fn read_trace(
    rt: &(impl AllocGlobal + Input + Files),
    name: &str,
) -> Result<Vec<u8>, ToolError> {
    let alloc = rt.alloc();
    if name == "-" {
        return read_whole(alloc, name, rt.reader());
    }
    match fs::open(rt, name) {
        Ok(file) => read_whole(alloc, name, file),
        Err(error) => Err(unreadable(alloc, name, &error)?),
    }
}

/// Reads what has this name to its end.
fn read_whole<R: Read + Drop>(
    alloc: Global,
    name: &str,
    mut reader: R,
) -> Result<Vec<u8>, ToolError> {
    let mut bytes = Vec::new(alloc);
    match reader.read_to_end(&mut bytes) {
        Ok(_) => Ok(bytes),
        Err(error) if error.kind() == ErrorKind::OutOfMemory => Err(ToolError::NoMemory),
        Err(error) => Err(unreadable(alloc, name, &error)?),
    }
}

/// Why what has this name is not read, as a line.
fn unreadable(alloc: Global, name: &str, error: &Error) -> Result<ToolError, AllocError> {
    let line = match cause(error.kind()) {
        Some(cause) => format!(in alloc; "l4trace: {name}: {cause}\n")?,
        None => format!(in alloc; "l4trace: {name}: {error}\n")?,
    };
    Ok(ToolError::Unreadable(line))
}

/// The usual causes in plain words.
fn cause(kind: ErrorKind) -> Option<&'static str> {
    match kind {
        ErrorKind::NotFound => Some("there is no such file"),
        ErrorKind::IsADirectory => Some("it is a folder"),
        ErrorKind::PermissionDenied => Some("permission denied"),
        _ => None,
    }
}
