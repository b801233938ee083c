//! Answers in which status counts as none.

use crate::answers::split_line;
use std::alloc::{AllocError, Global};

/// How many commas a line of a mapping has.
const COMMAS: usize = 5;

/// Which field of it is the status, from 0.
const STATUS: usize = 4;

/// Which digit of a reply word has the status, from 0.
const DIGIT: usize = 7;

/// A text of answers in which no status was found: that of each mapping is `---`, and each word of an unmap or a clear
/// comes back without any.
pub fn without_status(alloc: Global, text: &[u8]) -> Result<Vec<u8>, AllocError> {
    let mut all = Vec::with_capacity(alloc, text.len())?;
    let mut rest = text;
    for _ in 0..text.len() {
        if rest.is_empty() {
            break;
        }
        let (line, behind) = split_line(rest);
        push_line(&mut all, line)?;
        rest = behind;
    }
    Ok(all)
}

/// Appends a line.
fn push_line(all: &mut Vec<u8>, line: &[u8]) -> Result<(), AllocError> {
    if line.iter().filter(|byte| **byte == b',').count() == COMMAS {
        push_mapping(all, line)
    } else if has_words(line) {
        push_words(all, line)
    } else {
        all.extend_from_slice(line)
    }
}

/// Whether a line is the reply to an unmap or to a clear.
fn has_words(line: &[u8]) -> bool {
    match line.split(|byte| *byte == b' ').nth(1) {
        Some(name) => name == b"unmap".as_slice() || name == b"clear".as_slice(),
        None => false,
    }
}

/// Appends the line of a mapping.
fn push_mapping(all: &mut Vec<u8>, line: &[u8]) -> Result<(), AllocError> {
    for (i, field) in line.split(|byte| *byte == b',').enumerate() {
        if i > 0 {
            all.extend_from_slice(b",")?;
        }
        all.extend_from_slice(if i == STATUS { b"---" } else { field })?;
    }
    Ok(())
}

/// Appends a reply with words.
fn push_words(all: &mut Vec<u8>, line: &[u8]) -> Result<(), AllocError> {
    for (i, word) in line.split(|byte| *byte == b' ').enumerate() {
        if i > 0 {
            all.extend_from_slice(b" ")?;
        }
        if i > 1 {
            push_word(all, word)?;
        } else {
            all.extend_from_slice(word)?;
        }
    }
    Ok(())
}

/// Appends a word, and what stands behind it.
fn push_word(all: &mut Vec<u8>, word: &[u8]) -> Result<(), AllocError> {
    for (i, byte) in word.iter().enumerate() {
        let digit = if i == DIGIT {
            digit_without_status(*byte)
        } else {
            *byte
        };
        all.push(digit).map_err(AllocError::from)?;
    }
    Ok(())
}

/// The last digit of a word without the status.
fn digit_without_status(digit: u8) -> u8 {
    match digit {
        b'0'..=b'7' => b'0',
        b'8' | b'9' | b'a'..=b'f' | b'A'..=b'F' => b'8',
        _ => digit,
    }
}
