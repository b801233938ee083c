//! A record as it stands in a trace.

use crate::places::Places;
use crate::shown::push_shown;
use space::NoMemory;
use std::alloc::{AllocError, Global};
use std::fmt::Write;

/// How many bytes of a record are shown.
const SHOWN: usize = 400;

/// Some records as they stand in a trace.
#[derive(Drop)]
pub struct RecordTexts {
    /// The numbers of the records, by rising number.
    numbers: Vec<u64>,
    texts: Vec<String>,
}

impl RecordTexts {
    /// The records with these numbers, of a trace with this name.
    pub fn new(
        alloc: Global,
        name: &str,
        bytes: &[u8],
        numbers: Vec<u64>,
    ) -> Result<Self, NoMemory> {
        let mut numbers = numbers;
        numbers.sort_unstable();
        let mut texts = Vec::with_capacity(alloc, numbers.len())?;
        let mut places = Places::new(alloc, bytes)?;
        let mut span = places.next_place()?;
        let mut at = 0u64;
        for number in &numbers {
            for _ in at..*number {
                span = places.next_place()?;
            }
            at = at.max(*number);
            let line = span.line;
            let mut text = String::new(alloc);
            push_number(&mut text, *number)?;
            write!(text, ", {name}:{line}: ")?;
            push_shown(&mut text, span.text(bytes), SHOWN)?;
            if texts.push(text).is_err() {
                return Err(NoMemory);
            }
        }
        Ok(RecordTexts { numbers, texts })
    }

    /// Appends the record with this number, and where it stands.
    pub fn push(&self, text: &mut String, number: u64) -> Result<(), AllocError> {
        let index = self
            .numbers
            .iter()
            .take_while(|other| **other < number)
            .count();
        match self.texts.get(index) {
            Some(record) => text.push_str(record.as_str()),
            None => push_number(text, number),
        }
    }
}

/// Appends the number of a record, of which 0 is the header.
fn push_number(text: &mut String, number: u64) -> Result<(), AllocError> {
    if number == 0 {
        return text.push_str("header");
    }
    write!(text, "record {number}")
}
