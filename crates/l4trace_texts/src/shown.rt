//! Bytes as they are shown.

use std::alloc::AllocError;
use std::fmt::Write;

/// How many bytes of a field are shown.
const SHOWN: usize = 40;

/// Appends a field in quotes, at most its first 40 bytes.
pub fn push_quoted(text: &mut String, field: &[u8]) -> Result<(), AllocError> {
    text.push_str("'")?;
    push_shown(text, field, SHOWN)?;
    text.push_str("'")
}

/// Appends bytes, at most so many of them; one that is no printable character of ASCII as `\x` and two hexadecimal digits.
pub fn push_shown(text: &mut String, bytes: &[u8], most: usize) -> Result<(), AllocError> {
    for byte in bytes.iter().take(most) {
        if *byte == b' ' || byte.is_ascii_graphic() {
            text.push(char::from(*byte))?;
        } else {
            write!(text, "\\x{byte:02x}")?;
        }
    }
    if bytes.len() > most {
        text.push_str("..")?;
    }
    Ok(())
}
