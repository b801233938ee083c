//! Where the records of a trace stand in its text.

use csv::{ByteRecord, Reader, ReaderBuilder};
use space::NoMemory;
use std::alloc::{AllocError, Global};

/// The bytes of a byte order mark, over which `csv` passes at the start.
const BYTE_ORDER_MARK: &[u8] = b"\xef\xbb\xbf";

/// Where a record stands in the text of a trace.
#[derive(Clone, Copy, Debug, PartialEq, Eq)]
pub struct Span {
    /// The line of its first byte, from 1.
    pub line: u64,
    /// How many bytes of the text stand before it.
    pub start: usize,
    /// How many bytes of the text were read once it was read.
    pub end: usize,
}

impl Span {
    /// The record as it stands in the text, without its line end.
    pub fn text(self, bytes: &[u8]) -> &[u8] {
        let record = bytes.get(self.start..self.end).unwrap_or(&[]);
        let ends = record
            .iter()
            .rev()
            .take_while(|byte| is_line_end(**byte))
            .count();
        record
            .get(..record.len().saturating_sub(ends))
            .unwrap_or(record)
    }

    /// The column of a field, from 1, where the record has no quotes; none otherwise.
    pub fn column(self, bytes: &[u8], fields: &[&[u8]], index: usize) -> Option<u64> {
        let record = self.text(bytes);
        let mut length = 0u64;
        let mut column = 1u64;
        for (i, field) in fields.iter().enumerate() {
            if i == index {
                column = length.saturating_add(1);
            }
            length = length.saturating_add(field.len() as u64).saturating_add(1);
        }
        // Each field but the last has a comma behind it, and no byte more.
        if length == (record.len() as u64).saturating_add(1) {
            Some(column)
        } else {
            None
        }
    }
}

/// The places of a trace's records, one after another.
#[derive(Drop)]
pub struct Places<'a> {
    bytes: &'a [u8],
    rows: Box<Reader<&'a [u8]>>,
    row: ByteRecord,
    /// Up to where line ends were counted.
    counted: usize,
    line: u64,
}

impl<'a> Places<'a> {
    /// The places of the records of these bytes, from the header on.
    pub fn new(alloc: Global, bytes: &'a [u8]) -> Result<Self, NoMemory> {
        let rows = ReaderBuilder::new()
            .has_headers(false)
            .flexible(true)
            .from_reader(alloc, bytes);
        let Ok(rows) = Box::new(alloc, rows) else {
            return Err(NoMemory);
        };
        Ok(Places {
            bytes,
            rows,
            row: ByteRecord::new(alloc),
            counted: 0,
            line: 1,
        })
    }

    /// Where the next record stands; the end of the text, where there is none.
    pub fn next_place(&mut self) -> Result<Span, NoMemory> {
        let from = self.rows.position().byte() as usize;
        if self.rows.read_byte_record(&mut self.row).is_err() {
            return Err(NoMemory);
        }
        let start = first_byte(self.bytes, from);
        let passed = self.bytes.get(self.counted..start).unwrap_or(&[]);
        self.line = self.line.saturating_add(line_ends(passed));
        self.counted = start;
        Ok(Span {
            line: self.line,
            start,
            end: self.rows.position().byte() as usize,
        })
    }

    /// The fields of the record whose place was given last.
    pub fn fields(&self, alloc: Global) -> Result<Vec<&[u8]>, AllocError> {
        let mut fields = Vec::with_capacity(alloc, self.row.len())?;
        for field in self.row.iter() {
            fields.push(field).map_err(AllocError::from)?;
        }
        Ok(fields)
    }
}

/// The front of a trace.
#[derive(Clone, Copy, Debug, PartialEq, Eq)]
pub struct Front<'a> {
    pub bytes: &'a [u8],
    /// How many records it has behind the header.
    pub records: u64,
}

/// The front of a trace with so many records behind the header, or with all where there are fewer.
pub fn front_of(alloc: Global, bytes: &[u8], most: u64) -> Result<Front<'_>, NoMemory> {
    let mut places = Places::new(alloc, bytes)?;
    let mut end = places.next_place()?.end;
    let mut records = 0u64;
    for _ in 0..most {
        let span = places.next_place()?;
        if span.start >= bytes.len() {
            break;
        }
        end = span.end;
        records = records.saturating_add(1);
    }
    Ok(Front {
        bytes: bytes.get(..end).unwrap_or(bytes),
        records,
    })
}

/// Whether a byte ends a line.
fn is_line_end(byte: u8) -> bool {
    byte == b'\n' || byte == b'\r'
}

/// Where the first record from here on begins: behind a byte order mark and empty lines.
fn first_byte(bytes: &[u8], from: usize) -> usize {
    let from = if from == 0 && bytes.starts_with(BYTE_ORDER_MARK) {
        BYTE_ORDER_MARK.len()
    } else {
        from
    };
    let rest = bytes.get(from..).unwrap_or(&[]);
    let empty = rest.iter().take_while(|byte| is_line_end(**byte)).count();
    from.saturating_add(empty)
}

/// How many lines end in these bytes: at each line feed, and at each carriage return without one.
fn line_ends(bytes: &[u8]) -> u64 {
    let mut count = 0u64;
    for (i, byte) in bytes.iter().enumerate() {
        let is_alone = bytes.get(i + 1).copied() != Some(b'\n');
        if *byte == b'\n' || (*byte == b'\r' && is_alone) {
            count = count.saturating_add(1);
        }
    }
    count
}
