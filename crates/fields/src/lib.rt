//! The fields of a record: numbers, words, spaces, kinds of access, and the version of a trace; and the items and fpages
//! that words are.
#![tactic(auto)]

ghost use Rattle.std.specs.Prelude.{◌≡◌, ◌≤◌, ◌<◌, ◌^◌};
ghost use Rattle.model.specs.Definitions.Records.{number_field, word_field, space_field, kind_field};

mod digits;
mod version;
mod words;

use digits::digit;
use fpage::Access;
pub use version::Version;
pub use words::{read_fpages, read_items};

/// Returns the number that a field of 1 to `most` digits of a base spells.
pub fn number(field: &[u8], base: u32, most: usize) -> Option<u32>
    requires base { 0 < base }
    requires fits { base ^ most ≤ 2 ^ 32 }
    ensures { result ≡ number_field base most field.now }
{
    if field.is_empty() || field.len() > most {
        return None;
    }
    let mut value = 0;
    for byte in field {
        value = value * base + digit(*byte, base)?;
    }
    Some(value)
}

/// Reads the number of a space: 1 to 5 decimal digits, at most 65535.
pub fn space(field: &[u8]) -> Option<u16>
    ensures { result ≡ space_field field.now }
{
    let space = number(field, 10, 5)?;
    u16::try_from(space).ok()
}

/// Reads a word: 1 to 8 hexadecimal digits.
pub fn word(field: &[u8]) -> Option<u32>
    ensures { result ≡ word_field field.now }
{
    number(field, 16, 8)
}

/// Reads a kind of access: `r`, `w` or `x`.
pub fn kind(field: &[u8]) -> Option<Access>
    ensures { result ≡ kind_field field.now }
{
    match field {
        b"r" => Some(Access::Read),
        b"w" => Some(Access::Write),
        b"x" => Some(Access::Execute),
        _ => None,
    }
}
