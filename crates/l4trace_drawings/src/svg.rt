//! Derivation trees as a picture.

use crate::layout::{Layout, Spot, layout_of};
use crate::mark::{Mark, mapping_at, mark_of, push_mapping};
use crate::tree::Row;
use mapdb::Mapping;
use std::alloc::{AllocError, Global};
use std::fmt::Write;

/// How many levels of a tree stand to the right of one another; deeper ones tell their number.
const LEVELS: usize = 8;

/// How far a mapping stands to the right of its origin, in the units of the picture.
const STEP: u64 = 24;

/// How wide a letter is at most.
const LETTER: u64 = 9;

/// How letters, boxes and branches look.
const STYLE: &str =
    "<style>text { font: 14px monospace; } .title, .frame { font-weight: bold; } path, rect { fill: none; stroke: #888; } text.new { fill: #087f23; } text.changed { fill: #b45309; } text.taken { fill: #b91c1c; } rect.new, path.new { stroke: #087f23; } rect.changed, path.changed { stroke: #b45309; } rect.taken, path.taken { stroke: #b91c1c; stroke-dasharray: 4 3; }</style>\n";

/// What a record did to a mapping.
#[derive(Clone, Copy, PartialEq, Eq)]
pub enum Change {
    Same,
    New,
    Changed,
    Taken,
}

impl Change {
    /// The changes that the legend explains.
    const ALL: [Change; 4] = [Change::Same, Change::New, Change::Changed, Change::Taken];

    /// What it is called, in the picture and by its style.
    fn name(self) -> &'static str {
        match self {
            Change::Same => "same",
            Change::New => "new",
            Change::Changed => "changed",
            Change::Taken => "taken",
        }
    }
}

/// What is held around a record.
#[derive(Clone, Copy)]
pub struct Sides<'a> {
    /// Every mapping before it, by rising place.
    pub before: &'a [Mapping],
    /// Every mapping after it, by rising place.
    pub after: &'a [Mapping],
}

impl<'a> Sides<'a> {
    /// What the record did to a mapping that is held before it or after it.
    fn change(&self, mapping: &Mapping) -> Change {
        if mapping_at(self.after, mapping.place).is_none() {
            return Change::Taken;
        }
        match mark_of(mapping, self.before) {
            Mark::Same => Change::Same,
            Mark::Alone => Change::New,
            Mark::Changed(_) => Change::Changed,
        }
    }
}

/// A picture that is being drawn.
#[derive(Drop)]
pub struct Picture {
    body: String,
    layout: Layout,
    /// Where the last row of each level stands, from the root down.
    spots: Vec<Spot>,
    /// The index of the next line.
    next: u64,
}

impl Picture {
    /// A picture with no line yet.
    pub fn new(alloc: Global, layout: Layout) -> Self {
        Picture {
            body: String::new(alloc),
            layout,
            spots: Vec::new(alloc),
            next: 0,
        }
    }

    /// Goes on at a line of a column, both from 0.
    pub fn go_to(&mut self, column: u64, line: u64) {
        self.next = self.layout.index(column, line);
    }

    /// Where the next line stands.
    fn next_spot(&mut self) -> Spot {
        let spot = self.layout.spot(self.next);
        self.next = self.next.saturating_add(1);
        spot
    }

    /// Draws a line of plain text.
    pub fn push_text(&mut self, class: &str, words: &str) -> Result<(), AllocError> {
        let Spot { left, y, .. } = self.next_spot();
        let x = left.saturating_add(8);
        write!(
            self.body,
            "<text class=\"{class}\" x=\"{x}\" y=\"{y}\">{words}</text>\n"
        )
    }

    /// Draws a row, and the branch to it from its origin.
    pub fn push_row(&mut self, alloc: Global, row: &Row, change: Change) -> Result<(), AllocError> {
        let spot = self.next_spot();
        let level = row.depth.min(LEVELS) as u64;
        let x = spot
            .left
            .saturating_add(level.saturating_mul(STEP))
            .saturating_add(16);
        self.spots.truncate(row.depth);
        let mut words = String::new(alloc);
        if row.depth > LEVELS {
            write!(words, "(level {}) ", row.depth)?;
        } else {
            self.push_branch(x, spot, change)?;
        }
        self.spots.push(spot).map_err(AllocError::from)?;
        push_mapping(&mut words, &row.mapping)?;
        push_words(&mut self.body, x, spot.y, words.as_str(), change)
    }

    /// Draws the branch to a row from its origin, if it has one. Where that stands in another column, the branch begins
    /// at the top.
    fn push_branch(&mut self, x: u64, spot: Spot, change: Change) -> Result<(), AllocError> {
        let Some(above) = self.spots.last() else {
            return Ok(());
        };
        let from = if above.left == spot.left {
            above.y.saturating_add(6)
        } else {
            self.layout.top
        };
        let (left, middle) = (x.saturating_sub(16), spot.y.saturating_sub(5));
        let class = change.name();
        write!(
            self.body,
            "<path class=\"{class}\" d=\"M{left} {from}V{middle}h12\"/>\n"
        )
    }
}

/// Draws words, in a box unless they are the same as before.
fn push_words(
    body: &mut String,
    x: u64,
    y: u64,
    words: &str,
    change: Change,
) -> Result<(), AllocError> {
    let class = change.name();
    if change != Change::Same {
        let (left, top) = (x.saturating_sub(4), y.saturating_sub(16));
        let width = (words.len() as u64)
            .saturating_mul(LETTER)
            .saturating_add(8);
        write!(
            body,
            "<rect class=\"{class}\" x=\"{left}\" y=\"{top}\" width=\"{width}\" height=\"21\" rx=\"4\"/>\n"
        )?;
    }
    write!(
        body,
        "<text class=\"page {class}\" x=\"{x}\" y=\"{y}\">{words}</text>\n"
    )
}

/// Appends a picture with a line for each row, at most so many, under its frame: an SVG document. Its title is the
/// first line of the heading. What is new, changed or taken has a box, as the legend says.
pub fn push_svg(
    alloc: Global,
    text: &mut String,
    heading: &str,
    rows: &[Row],
    sides: &Sides<'_>,
    most: u64,
) -> Result<(), AllocError> {
    let shown = rows.get(..most as usize).unwrap_or(rows);
    let untold = rows.len().saturating_sub(shown.len());
    let lines = lines_of(shown).saturating_add(u64::from(untold > 0));
    let layout = layout_of(lines, indent_of(shown), heading);
    let mut picture = Picture::new(alloc, layout);
    let mut last = None;
    for row in shown {
        if last != Some(row.mapping.frame) {
            last = Some(row.mapping.frame);
            let frame = format!(in alloc; "frame {}", row.mapping.frame)?;
            picture.push_text("frame", frame.as_str())?;
        }
        picture.push_row(alloc, row, sides.change(&row.mapping))?;
    }
    if untold > 0 {
        let more = format!(in alloc; ".. and {untold} more")?;
        picture.push_text("more", more.as_str())?;
    }
    push_document(text, heading, &picture)
}

/// How far to the right the deepest of some rows stands.
pub fn indent_of(rows: &[Row]) -> u64 {
    let levels = rows.iter().map(|row| row.depth).max().unwrap_or(0);
    (levels.min(LEVELS) as u64).saturating_mul(STEP)
}

/// How many lines some rows take, with a line for each frame.
fn lines_of(rows: &[Row]) -> u64 {
    let mut count = 0u64;
    let mut last = None;
    for row in rows {
        if last != Some(row.mapping.frame) {
            last = Some(row.mapping.frame);
            count = count.saturating_add(1);
        }
        count = count.saturating_add(1);
    }
    count
}

/// Appends the document of a picture: its title, its style, the heading, the legend and what is drawn.
pub fn push_document(
    text: &mut String,
    heading: &str,
    picture: &Picture,
) -> Result<(), AllocError> {
    let (width, height) = (picture.layout.width(), picture.layout.height());
    write!(
        text,
        "<svg xmlns=\"http://www.w3.org/2000/svg\" width=\"{width}\" height=\"{height}\" viewBox=\"0 0 {width} {height}\">\n<title>"
    )?;
    push_escaped(text, heading.lines().next().unwrap_or(""))?;
    text.push_str("</title>\n")?;
    text.push_str(STYLE)?;
    text.push_str("<rect width=\"100%\" height=\"100%\" style=\"fill: #fff; stroke: none\"/>\n")?;
    push_heading(text, heading, picture.layout)?;
    push_legend(text, picture.layout)?;
    text.push_str(picture.body.as_str())?;
    text.push_str("</svg>\n")
}

/// Appends the lines of a heading, each in as many lines as it needs.
fn push_heading(text: &mut String, heading: &str, layout: Layout) -> Result<(), AllocError> {
    let mut y = 0u64;
    for line in heading.lines() {
        let mut room = 0u64;
        for letter in line.chars() {
            if room == 0 {
                y = y.saturating_add(layout.line());
                text.push_str(if y > layout.line() { "</text>\n" } else { "" })?;
                write!(text, "<text class=\"title\" x=\"8\" y=\"{y}\">")?;
                room = layout.letters();
            }
            push_letter(text, letter)?;
            room = room.saturating_sub(1);
        }
    }
    text.push_str(if y > 0 { "</text>\n" } else { "" })
}

/// Appends the legend: a sample of each change.
fn push_legend(text: &mut String, layout: Layout) -> Result<(), AllocError> {
    let y = layout.top.saturating_sub(8);
    let mut x = 16u64;
    for change in Change::ALL {
        push_words(text, x, y, change.name(), change)?;
        x = x.saturating_add(110);
    }
    Ok(())
}

/// Appends a text as XML has it.
fn push_escaped(text: &mut String, words: &str) -> Result<(), AllocError> {
    for letter in words.chars() {
        push_letter(text, letter)?;
    }
    Ok(())
}

/// Appends a letter as XML has it.
fn push_letter(text: &mut String, letter: char) -> Result<(), AllocError> {
    match letter {
        '<' => text.push_str("&lt;"),
        '>' => text.push_str("&gt;"),
        '&' => text.push_str("&amp;"),
        _ => text.push(letter),
    }
}
