//! The parts of a word, as they are written on a command line.

ghost use Rattle.std.specs.Prelude.{◌≤◌, IfSome};
ghost use Rattle.l4trace_texts.specs.Asked.{IsSize};

use crate::make::Size;
use fpage::Rights;

/// The size that a text names: `nil`, `complete`, or a power of two of bytes from 4096 on, also in `K`, `M` or `G`.
pub fn size_of(text: &str) -> Option<Size>
    ensures { IfSome result IsSize }
{
    if text == "nil" {
        return Some(Size::Nil);
    }
    if text == "complete" {
        return Some(Size::Complete);
    }
    let (digits, unit) = split_unit(text);
    if digits.starts_with('+') {
        return None;
    }
    let count = digits.parse::<u64>().ok()?;
    let bytes = count.checked_mul(1 << unit)?;
    if !bytes.is_power_of_two() {
        return None;
    }
    let size = bytes.trailing_zeros();
    if size < 12 || size >= 64 {
        return None;
    }
    Some(Size::Bytes(size))
}

/// A text without the letter of a unit at its end, and the unit as a power of two.
fn split_unit(text: &str) -> (&str, u32)
    ensures { result.1 ≤ 30 }
{
    if let Some(digits) = text.strip_suffix('K') {
        return (digits, 10);
    }
    if let Some(digits) = text.strip_suffix('M') {
        return (digits, 20);
    }
    if let Some(digits) = text.strip_suffix('G') {
        return (digits, 30);
    }
    (text, 0)
}

/// The rights that a text names: letters of `r`, `w` and `x`, and dashes.
pub fn rights_of(text: &str) -> Option<Rights> {
    let mut rights = Rights::none();
    for byte in text.as_bytes() {
        match byte {
            b'r' => rights.read = true,
            b'w' => rights.write = true,
            b'x' => rights.execute = true,
            b'-' => {}
            _ => return None,
        }
    }
    Some(rights)
}
