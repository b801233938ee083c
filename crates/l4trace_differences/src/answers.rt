//! The lines of answers: replies to records, mappings, and the end line.

use std::alloc::{AllocError, Global};

/// What a line tells of, in the order of a run's lines.
#[derive(Clone, Copy, Debug, PartialEq, Eq, PartialOrd, Ord)]
pub enum Key {
    /// The record of this number.
    Reply(u32),
    /// What a page of a space holds: the space and the page.
    Mapping(u32, u32),
    /// How many records there were.
    End,
    /// Nothing that a run tells of.
    Other,
}

/// What a line tells of.
pub fn key_of(line: &[u8]) -> Key {
    if is_comment(line) {
        return Key::Other;
    }
    if line.contains(&b',') {
        let (space, page) = place_of(line);
        return Key::Mapping(space, page);
    }
    let length = line.iter().take_while(|byte| **byte != b' ').count();
    match fields::number(line.get(..length).unwrap_or(&[]), 10, 9) {
        Some(number) => Key::Reply(number),
        None if line.starts_with(b"end ") => Key::End,
        None => Key::Other,
    }
}

/// Whether a line is a comment, which no answers have.
pub fn is_comment(line: &[u8]) -> bool {
    line.starts_with(b"#")
}

/// Whether a line tells of a mapping.
fn is_mapping(line: &[u8]) -> bool {
    matches!(key_of(line), Key::Mapping(_, _))
}

/// The lines of a text, one after another.
#[derive(Clone, Copy)]
pub struct Lines<'a> {
    rest: &'a [u8],
    /// The number of the line that is next, from 1.
    number: u64,
    /// Whether lines that tell of no mapping are passed over.
    is_audit: bool,
}

impl<'a> Lines<'a> {
    /// The lines of a text, all or those of mappings alone.
    pub fn new(text: &'a [u8], is_audit: bool) -> Self {
        let mut lines = Lines {
            rest: text,
            number: 1,
            is_audit,
        };
        lines.pass();
        lines
    }

    /// The line that is next, without its line feed; none at the end.
    pub fn line(&self) -> Option<&'a [u8]> {
        if self.rest.is_empty() {
            return None;
        }
        let (line, _) = split_line(self.rest);
        Some(line.strip_suffix(b"\n").unwrap_or(line))
    }

    /// Whether the line that is next is the last, without a line feed.
    pub fn is_cut(&self) -> bool {
        !self.rest.contains(&b'\n')
    }

    /// The number of the line that is next, from 1.
    pub fn number(&self) -> u64 {
        self.number
    }

    /// Goes on to the line behind the one that is next.
    pub fn advance(&mut self) {
        self.step();
        self.pass();
    }

    /// Passes over one line.
    fn step(&mut self) {
        let (_, behind) = split_line(self.rest);
        self.rest = behind;
        self.number = self.number.saturating_add(1);
    }

    /// Passes over lines that do not count.
    fn pass(&mut self) {
        for _ in 0..self.rest.len() {
            if !self.is_audit || self.rest.is_empty() || is_mapping(split_line(self.rest).0) {
                break;
            }
            self.step();
        }
    }
}

/// The lines of one text that tell of what a line of the other tells of too. The lines of both are in the order of a run's.
pub fn named_lines(alloc: Global, text: &[u8], named: &[u8]) -> Result<Vec<u8>, AllocError> {
    let mut lines = Vec::new(alloc);
    let mut rest = text;
    let mut left = named;
    for _ in 0..text.len() {
        if rest.is_empty() {
            break;
        }
        let (line, behind) = split_line(rest);
        let key = key_of(line);
        left = from_key(left, key);
        if !left.is_empty() && key_of(split_line(left).0) == key {
            lines.extend_from_slice(line)?;
        }
        rest = behind;
    }
    Ok(lines)
}

/// A text from its first line on that tells of this or of what comes behind it.
fn from_key(text: &[u8], key: Key) -> &[u8] {
    let mut rest = text;
    for _ in 0..text.len() {
        let (line, behind) = split_line(rest);
        if rest.is_empty() || is_at_or_behind(key_of(line), key) {
            break;
        }
        rest = behind;
    }
    rest
}

/// Whether a line with a key tells of this or of what comes behind it.
fn is_at_or_behind(found: Key, key: Key) -> bool {
    found >= key && found != Key::Other
}

/// The lines of a text that tell of mappings, each with its line feed.
pub fn audit_of(alloc: Global, text: &[u8]) -> Result<Vec<u8>, AllocError> {
    let mut audit = Vec::new(alloc);
    let mut rest = text;
    for _ in 0..text.len() {
        if rest.is_empty() {
            break;
        }
        let (line, behind) = split_line(rest);
        if is_mapping(line) {
            audit.extend_from_slice(line)?;
        }
        rest = behind;
    }
    Ok(audit)
}

/// The line of a text, from 1, in which the mapping of this number stands, from 1. Where there are fewer, it is the
/// line behind the last reply or mapping.
pub fn line_of_mapping(text: &[u8], number: u64) -> u64 {
    let mut rest = text;
    let mut found = 0u64;
    let mut last = 0u64;
    for i in 0..text.len() {
        if rest.is_empty() || found >= number {
            break;
        }
        let (line, behind) = split_line(rest);
        let key = key_of(line);
        if key < Key::End {
            last = (i as u64).saturating_add(1);
        }
        if matches!(key, Key::Mapping(_, _)) {
            found = found.saturating_add(1);
        }
        rest = behind;
    }
    if found >= number {
        last
    } else {
        last.saturating_add(1)
    }
}

/// How many lines end in a text.
pub fn line_count(text: &[u8]) -> usize {
    text.iter().filter(|byte| **byte == b'\n').count()
}

/// The first line of a text with its line feed, and what is behind it.
pub fn split_line(text: &[u8]) -> (&[u8], &[u8]) {
    let length = text.iter().take_while(|byte| **byte != b'\n').count();
    let end = length.saturating_add(1).min(text.len());
    text.split_at(end)
}

/// The space and the page of an audit line; the last place of all where a line has none.
pub fn place_of(line: &[u8]) -> (u32, u32) {
    let (space, rest) = split_cell(line);
    let (page, _) = split_cell(rest);
    match (fields::number(space, 10, 5), fields::number(page, 10, 7)) {
        (Some(space), Some(page)) => (space, page),
        _ => (u32::MAX, u32::MAX),
    }
}

/// The frame of an audit line, if it has one.
pub fn frame_of(line: &[u8]) -> Option<u32> {
    let (_, rest) = split_cell(line);
    let (_, rest) = split_cell(rest);
    let (frame, _) = split_cell(rest);
    fields::number(frame, 10, 7)
}

/// The line of an audit that tells of a space and a page.
pub fn line_of_page(audit: &[u8], place: (u32, u32)) -> Option<&[u8]> {
    let mut rest = audit;
    for _ in 0..audit.len() {
        let (line, behind) = split_line(rest);
        if line.is_empty() {
            break;
        }
        if place_of(line) == place {
            return Some(line);
        }
        rest = behind;
    }
    None
}

/// What stands before the first comma, and what behind it.
fn split_cell(line: &[u8]) -> (&[u8], &[u8]) {
    let length = line.iter().take_while(|byte| **byte != b',').count();
    let cell = line.get(..length).unwrap_or(&[]);
    let rest = line.get(length.saturating_add(1)..).unwrap_or(&[]);
    (cell, rest)
}
