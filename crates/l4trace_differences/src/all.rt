//! All differences between two texts of answers.

use crate::answers::{Key, Lines, key_of};
use crate::comparison::Difference;
use std::alloc::{AllocError, Global};

/// The differences between two texts.
#[derive(Drop)]
pub struct Differences<'a> {
    /// The first of them, in their order.
    pub told: Vec<Difference<'a>>,
    /// How many there are.
    pub count: u64,
}

/// The differences between two texts of answers, all or those of their audits alone, of which so many are told. Lines
/// that tell of the same are set beside each other.
pub fn all_differences<'a>(
    alloc: Global,
    ours: &'a [u8],
    theirs: &'a [u8],
    is_audit: bool,
    most: u64,
) -> Result<Differences<'a>, AllocError> {
    let mut left = Lines::new(ours, is_audit);
    let mut right = Lines::new(theirs, is_audit);
    let mut told = Vec::new(alloc);
    let mut count = 0u64;
    for _ in 0..ours.len().saturating_add(theirs.len()) {
        let line = right.number();
        let pair = next_pair(&mut left, &mut right);
        match pair {
            Pair::End => break,
            Pair::Alike => {}
            Pair::Differs {
                ours: our_line,
                theirs: their_line,
            } => {
                if count < most {
                    let difference = Difference {
                        line,
                        ours: our_line,
                        theirs: their_line,
                    };
                    told.push(difference).map_err(AllocError::from)?;
                }
                count = count.saturating_add(1);
            }
        }
    }
    Ok(Differences { told, count })
}

/// What stands next in two texts.
enum Pair<'a> {
    /// Both have ended.
    End,
    /// The same line.
    Alike,
    /// Lines that differ; none where the text has no line that tells of this.
    Differs {
        ours: Option<&'a [u8]>,
        theirs: Option<&'a [u8]>,
    },
}

/// Takes what stands next in two texts.
fn next_pair<'a>(left: &mut Lines<'a>, right: &mut Lines<'a>) -> Pair<'a> {
    let (ours, theirs) = (left.line(), right.line());
    let side = side_of(ours, theirs);
    let is_alike = ours == theirs && left.is_cut() == right.is_cut();
    match side {
        Side::None => Pair::End,
        Side::Ours => {
            left.advance();
            Pair::Differs { ours, theirs: None }
        }
        Side::Theirs => {
            right.advance();
            Pair::Differs { ours: None, theirs }
        }
        Side::Both => {
            left.advance();
            right.advance();
            if is_alike {
                Pair::Alike
            } else {
                Pair::Differs { ours, theirs }
            }
        }
    }
}

/// In which of two texts a line is next.
enum Side {
    None,
    Ours,
    Theirs,
    /// In both: they tell of the same.
    Both,
}

/// In which text a line is next.
fn side_of(ours: Option<&[u8]>, theirs: Option<&[u8]>) -> Side {
    let (Some(left), Some(right)) = (ours, theirs) else {
        return if ours.is_some() {
            Side::Ours
        } else if theirs.is_some() {
            Side::Theirs
        } else {
            Side::None
        };
    };
    let (mine, other) = (key_of(left), key_of(right));
    // What tells of nothing stands beside nothing.
    if mine == other {
        Side::Both
    } else if other == Key::Other || other < mine {
        Side::Theirs
    } else {
        Side::Ours
    }
}
