//! Usual mistakes, by what a field looks like.

use crate::role::Role;

/// The bytes of a byte order mark.
const BYTE_ORDER_MARK: &[u8] = b"\xef\xbb\xbf";

/// What may have gone wrong with a field that does not have its form.
pub fn field_hint(role: Role, field: &[u8]) -> Option<&'static str> {
    if let Some(hint) = text_hint(field) {
        return Some(hint);
    }
    match role {
        Role::Kind if matches!(field, b"R" | b"W" | b"X") => Some("kinds are in lower case"),
        Role::Sender | Role::Receiver | Role::Space if is_hexadecimal(field) => {
            Some("spaces are decimal")
        }
        _ => None,
    }
}

/// Whether a field is a word with a letter.
fn is_hexadecimal(field: &[u8]) -> bool {
    fields::word(field).is_some() && field.iter().any(|byte| byte.is_ascii_alphabetic())
}

/// What may have gone wrong with a number of a header.
pub fn number_hint(field: &[u8]) -> Option<&'static str> {
    text_hint(field).or(case_hint(field))
}

/// What may have gone wrong with any field.
fn text_hint(field: &[u8]) -> Option<&'static str> {
    if field.contains(&0) {
        return Some("the file is UTF-16: save it as UTF-8");
    }
    if field.starts_with(BYTE_ORDER_MARK) {
        return Some("a byte order mark stands before it: leave it out");
    }
    if has_space_around(field) {
        return Some("leave out the spaces around it");
    }
    if field.starts_with(b"0x") || field.starts_with(b"0X") {
        return Some("leave out the 0x");
    }
    if field.contains(&b'+') || field.contains(&b'.') {
        return Some(
            "a spreadsheet may have made a number of it: give its column the format of text",
        );
    }
    if field.contains(&b'\'') || field.contains(&b'"') {
        return Some("leave out the quotes");
    }
    if field.ends_with(b"h") {
        return Some("leave out the h");
    }
    None
}

/// Whether a field begins or ends with a space or a tab.
fn has_space_around(field: &[u8]) -> bool {
    match field {
        [] => false,
        [first, ..] if is_space(*first) => true,
        [.., last] => is_space(*last),
    }
}

fn is_space(byte: u8) -> bool {
    byte == b' ' || byte == b'\t'
}

/// What may have gone wrong with a record whose name is none.
pub fn name_hint(name: &[u8]) -> Option<&'static str> {
    if name == b"l4map".as_slice() {
        return Some("a header stands only at the start");
    }
    // In a trace of version 2 it is the name of a record.
    if name == b"clear".as_slice() {
        return Some("a trace with clear has a header of version 2: l4map,2,..");
    }
    separator_hint(name).or(text_hint(name)).or(case_hint(name))
}

/// What may have gone wrong with the separators of a record, by its first field; or that it is a comment.
pub fn separator_hint(name: &[u8]) -> Option<&'static str> {
    if name.contains(&0) {
        return Some("the file is UTF-16: save it as UTF-8");
    }
    if name.starts_with(b"#") {
        return Some("a trace has no comments: grep -v '^#' takes such lines out");
    }
    if name.contains(&b';') {
        return Some("fields are separated by commas, not by semicolons");
    }
    if name.contains(&b'\t') {
        return Some("fields are separated by commas, not by tabs");
    }
    if name.contains(&b',') {
        return Some("a quote joins fields: leave out the quotes");
    }
    None
}

/// Whether a name is in capitals that should not be.
fn case_hint(name: &[u8]) -> Option<&'static str> {
    if name.iter().any(|byte| byte.is_ascii_uppercase()) {
        return Some("names are in lower case");
    }
    None
}
