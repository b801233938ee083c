//! What a command line asks for, and why it is refused.

use crate::color_choice::ColorChoice;
use l4trace_drawings::{Question, View};
use l4trace_random_traces::Plan;
use l4trace_texts::CompareOptions;
use std::alloc::{AllocError, Global};

/// What is to be done.
#[derive(Debug, Drop)]
pub enum Task {
    /// Explain these words, for spaces of `2^bits` bytes.
    Explain {
        words: Vec<u32>,
        bits: u32,
    },
    /// Write the words that were made.
    Tell(String),
    /// Compare answers with those of l4map to a trace, or to so many of its records. Each is a file, or `-` for standard
    /// input.
    Compare {
        trace: String,
        answers: String,
        at: Option<u64>,
        options: CompareOptions,
        color: ColorChoice,
    },
    /// Show what a trace, a file or `-` for standard input, holds.
    Show {
        trace: String,
        view: View,
        color: ColorChoice,
    },
    /// Write the audit after a record of a trace, a file or `-` for standard input, or after the last.
    Audit {
        trace: String,
        at: Option<u64>,
    },
    /// Explain a record of a trace, a file or `-` for standard input, or all but at most so many.
    Sentences {
        trace: String,
        at: Option<u64>,
        most: u64,
    },
    /// Tell where a page of a trace, a file or `-` for standard input, came from.
    Why {
        trace: String,
        question: Question,
        color: ColorChoice,
    },
    /// Write a trace made at random.
    Random(Plan),
    /// Check a trace, a file or `-` for standard input, and tell at most so many refused records.
    Check {
        trace: String,
        most: u64,
    },
}

/// Why a command line gives no task.
#[derive(Debug, Drop)]
pub enum TaskError {
    /// Help, or the version, was asked for: its text.
    Help(String),
    /// The command line was refused: why.
    Refused(String),
    /// Out of memory.
    NoMemory,
}

impl From<AllocError> for TaskError {
    fn from(_: AllocError) -> Self {
        TaskError::NoMemory
    }
}

/// A refusal of the command line.
pub fn refused(alloc: Global, why: &str) -> TaskError {
    match format!(in alloc; "error: {why}\n") {
        Ok(text) => TaskError::Refused(text),
        Err(_) => TaskError::NoMemory,
    }
}

/// A refusal of one word of the command line.
pub fn refused_value(alloc: Global, value: &str, wanted: &str) -> TaskError {
    match format!(in alloc; "error: '{value}' is not {wanted}\n") {
        Ok(text) => TaskError::Refused(text),
        Err(_) => TaskError::NoMemory,
    }
}
