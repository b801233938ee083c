//! Where the lines of a picture stand.

/// How high a line of the picture is, in its units.
const LINE: u64 = 24;

/// How wide a mapping is, with the room around it.
const MAPPING: u64 = 310;

/// How wide a page is.
const PAGE: u64 = 1100;

/// How wide a picture is at least.
const LEAST: u64 = 700;

/// How many lines there are before a second column is begun.
const LINES: u64 = 24;

/// How wide a letter is at most.
const LETTER: u64 = 9;

/// Where the lines of a picture stand: in columns beside one another, below a heading and a legend.
#[derive(Clone, Copy, Debug, PartialEq, Eq)]
pub struct Layout {
    /// Where the columns begin, from above.
    pub top: u64,
    /// How wide a column is.
    column: u64,
    columns: u64,
    /// How many lines a column has.
    lines: u64,
}

/// Where a line stands.
#[derive(Clone, Copy, Debug, PartialEq, Eq)]
pub struct Spot {
    /// The left side of its column.
    pub left: u64,
    pub y: u64,
}

/// The layout of so many lines, the last of which stands so far to the right, below a heading.
pub fn layout_of(lines: u64, indent: u64, heading: &str) -> Layout {
    let column = indent.saturating_add(MAPPING);
    let fit = PAGE.checked_div(column).unwrap_or(1);
    let columns = part_count(lines, LINES).min(fit).max(1);
    layout_below(heading, columns, column, part_count(lines, columns))
}

/// The layout of two columns of so many lines, the last of which stands so far to the right, below a heading.
pub fn layout_of_two(lines: u64, indent: u64, heading: &str) -> Layout {
    layout_below(heading, 2, indent.saturating_add(MAPPING), lines)
}

/// The layout of so many columns of this width, with so many lines each, below a heading.
fn layout_below(heading: &str, columns: u64, column: u64, lines: u64) -> Layout {
    let mut layout = Layout {
        top: 0,
        column,
        columns,
        lines: lines.max(1),
    };
    let heading_lines = line_count(heading, layout.letters());
    layout.top = heading_lines
        .saturating_add(1)
        .saturating_mul(LINE)
        .saturating_add(8);
    layout
}

/// How many parts of a size hold so many things.
fn part_count(count: u64, size: u64) -> u64 {
    count
        .saturating_add(size.saturating_sub(1))
        .checked_div(size)
        .unwrap_or(count)
}

/// How many lines of so many letters a heading takes.
fn line_count(heading: &str, letters: u64) -> u64 {
    let mut count = 0u64;
    for line in heading.lines() {
        count = count.saturating_add(part_count(line.chars().count() as u64, letters));
    }
    count
}

impl Layout {
    /// Where the line with this index stands.
    pub fn spot(&self, index: u64) -> Spot {
        let column = index.checked_div(self.lines).unwrap_or(0);
        let line = index.saturating_sub(column.saturating_mul(self.lines));
        Spot {
            left: column.saturating_mul(self.column),
            y: line
                .saturating_add(1)
                .saturating_mul(LINE)
                .saturating_add(self.top),
        }
    }

    /// The index of a line of a column, both from 0.
    pub fn index(&self, column: u64, line: u64) -> u64 {
        column.saturating_mul(self.lines).saturating_add(line)
    }

    /// How high a line is.
    pub fn line(&self) -> u64 {
        LINE
    }

    /// How many letters a line of the heading has.
    pub fn letters(&self) -> u64 {
        self.width().saturating_sub(16) / LETTER
    }

    /// How wide the picture is.
    pub fn width(&self) -> u64 {
        self.columns.saturating_mul(self.column).max(LEAST)
    }

    /// How high the picture is.
    pub fn height(&self) -> u64 {
        self.lines
            .saturating_add(1)
            .saturating_mul(LINE)
            .saturating_add(self.top)
    }
}
