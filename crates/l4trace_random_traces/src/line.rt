//! The text of a record.

use std::alloc::{AllocError, Global};
use std::fmt::Write;

/// The text of a record, as it is made.
#[derive(Drop)]
pub struct Line {
    pub text: String,
    /// Whether its numbers are written with zeros before them, and with upper case digits.
    is_wide: bool,
}

impl Line {
    /// A line without text.
    pub fn new(alloc: Global) -> Self {
        Line {
            text: String::new(alloc),
            is_wide: false,
        }
    }

    /// Begins another line.
    pub fn clear(&mut self, is_wide: bool) {
        self.text.clear();
        self.is_wide = is_wide;
    }

    /// Appends a text.
    pub fn push_str(&mut self, text: &str) -> Result<(), AllocError> {
        self.text.push_str(text)
    }

    /// Appends a space, behind a comma.
    pub fn push_space(&mut self, space: u32) -> Result<(), AllocError> {
        if self.is_wide {
            write!(self.text, ",{space:05}")
        } else {
            write!(self.text, ",{space}")
        }
    }

    /// Appends a word, behind a comma.
    pub fn push_word(&mut self, word: u32) -> Result<(), AllocError> {
        if self.is_wide {
            write!(self.text, ",{word:08X}")
        } else {
            write!(self.text, ",{word:x}")
        }
    }
}
