//! What is wrong with the header of a trace.

use crate::fault::{push_hint, push_padding};
use crate::hint::{number_hint, separator_hint};
use l4trace_texts::push_quoted;
use mapdb::Limits;
use std::alloc::AllocError;
use std::fmt::Write;
use trace::Version;

/// How many fields a header has.
const FIELDS: usize = 5;

/// Appends why a first record is no header, and returns the index of the field at fault.
pub fn push_bad_header(text: &mut String, fields: &[&[u8]]) -> Result<usize, AllocError> {
    match fields {
        [] => {
            text.push_str("there is no record")?;
            Ok(0)
        }
        [name, ..] if *name != b"l4map".as_slice() => {
            text.push_str("the first field is ")?;
            push_quoted(text, name)?;
            text.push_str(", not l4map")?;
            push_hint(text, separator_hint(name).or(number_hint(name)))?;
            Ok(0)
        }
        [_, version, ..] if Version::of_field(version).is_none() => {
            text.push_str("the version is ")?;
            push_quoted(text, version)?;
            text.push_str(", not 1 or 2")?;
            push_hint(text, number_hint(version))?;
            Ok(1)
        }
        _ => push_bad_numbers(text, fields),
    }
}

/// Appends which number of a header does not have its form, or that there are not three of them.
fn push_bad_numbers(text: &mut String, fields: &[&[u8]]) -> Result<usize, AllocError> {
    if let Some(index) = push_padding(text, fields)? {
        return Ok(index);
    }
    for (index, field) in fields.iter().enumerate() {
        if index >= 2 && index < FIELDS && fields::number(field, 10, 7).is_none() {
            text.push_str(number_name(index))?;
            text.push_str(" is ")?;
            push_quoted(text, field)?;
            text.push_str(", not 1 to 7 decimal digits")?;
            push_hint(text, number_hint(field))?;
            return Ok(index);
        }
    }
    let count = fields.len();
    write!(
        text,
        "a header has {FIELDS} fields: l4map, version, spaces, bits, frames; here are {count}"
    )?;
    Ok(count.saturating_sub(1))
}

/// The name of a header's number.
fn number_name(index: usize) -> &'static str {
    match index {
        2 => "the number of spaces",
        3 => "the number of bits",
        _ => "the number of frames",
    }
}

/// Appends which limit of a header is not served, and returns the index of its field.
pub fn push_bad_limits(text: &mut String, limits: &Limits) -> Result<usize, AllocError> {
    let Limits {
        spaces,
        bits,
        frames,
    } = *limits;
    if !(2..=512).contains(&spaces) {
        write!(text, "{spaces} spaces; there are 2 to 512")?;
        return Ok(2);
    }
    if bits < 18 || bits > 32 {
        write!(text, "{bits} bits; a space has 18 to 32")?;
        return Ok(3);
    }
    let pages = 1u32 << (bits - 12);
    write!(
        text,
        "{frames} frames; there are 1 to {pages}, as many as a space of {bits} bits has pages"
    )?;
    Ok(4)
}
