//! Which field of a refused record is at fault, and why.

ghost use Rattle.fpage.specs.Fpage.{IsSpaceBits};

use crate::hint::{field_hint, name_hint};
use crate::role::{Form, Role};
use fpage::{Control, Fpage, FpageError, Item};
use l4trace_texts::{push_fpage_fault, push_item_fault, push_quoted};
use mapdb::Limits;
use std::alloc::AllocError;
use std::fmt::Write;
use trace::{Refusal, Version};

/// Appends why a record with these fields is refused so in a trace of a version, and returns the index of the field at
/// fault.
pub fn push_cause(
    text: &mut String,
    version: Version,
    limits: &Limits,
    fields: &[&[u8]],
    refusal: Refusal,
) -> Result<usize, AllocError>
    requires { IsSpaceBits limits.now.bits }
{
    let Some(form) = form_of(version, fields) else {
        return push_bad_name(text, version, fields);
    };
    match refusal {
        Refusal::BadRecord => push_bad_form(text, form, fields),
        Refusal::NoSuchSpace => push_unknown_space(text, form, fields, limits.spaces),
        Refusal::SameSpace => {
            text.push_str("the sender is the receiver too")?;
            Ok(2)
        }
        Refusal::NoWindow => {
            text.push_str("the window is the nilpage, which has no pages")?;
            Ok(3)
        }
        _ => push_bad_word(text, form, fields, limits.bits),
    }
}

/// The form that the first field names in a trace of a version.
fn form_of(version: Version, fields: &[&[u8]]) -> Option<Form> {
    match fields.first() {
        Some(name) => Form::of_name(version, name),
        None => None,
    }
}

/// Appends that a record has no name that a trace of a version knows.
fn push_bad_name(
    text: &mut String,
    version: Version,
    fields: &[&[u8]],
) -> Result<usize, AllocError> {
    let Some(name) = fields.first() else {
        text.push_str("there is no field")?;
        return Ok(0);
    };
    text.push_str("the name is ")?;
    push_quoted(text, name)?;
    text.push_str(match version {
        Version::One => ", not send, access or unmap",
        Version::Two => ", not send, access, unmap or clear",
    })?;
    push_hint(text, name_hint(name))?;
    Ok(0)
}

/// Appends a hint, if there is one.
pub fn push_hint(text: &mut String, hint: Option<&str>) -> Result<(), AllocError> {
    match hint {
        Some(hint) => write!(text, "; {hint}"),
        None => Ok(()),
    }
}

/// Appends which field of a record does not have its form, or that fields are missing or too many.
fn push_bad_form(text: &mut String, form: Form, fields: &[&[u8]]) -> Result<usize, AllocError> {
    if let Some(index) = push_padding(text, fields)? {
        return Ok(index);
    }
    for (index, field) in fields.iter().enumerate() {
        if index == 0 {
            continue;
        }
        let role = form.role(index);
        if !role.fits(field) {
            role.push(text)?;
            text.push_str(" is ")?;
            push_quoted(text, field)?;
            write!(text, ", not {}", role.wanted())?;
            push_hint(text, field_hint(role, field))?;
            return Ok(index);
        }
    }
    push_bad_count(text, form, fields.len())?;
    Ok(fields.len().saturating_sub(1))
}

/// Appends that the last fields of a record are empty, where they are and others are not, and returns which is the first of them.
pub fn push_padding(text: &mut String, fields: &[&[u8]]) -> Result<Option<usize>, AllocError> {
    let empty = fields
        .iter()
        .rev()
        .take_while(|field| field.is_empty())
        .count();
    if empty == 0 || empty >= fields.len() {
        return Ok(None);
    }
    if empty == 1 {
        text.push_str("the last field is empty")?;
    } else {
        write!(text, "the last {empty} fields are empty")?;
    }
    text.push_str("; a spreadsheet fills its rows up so: leave out the commas at the end")?;
    Ok(Some(fields.len() - empty))
}

/// Appends how many fields a record should have.
fn push_bad_count(text: &mut String, form: Form, count: usize) -> Result<(), AllocError> {
    match form {
        Form::Send => text.push_str(
            "a send has a sender, a receiver, a window, and two words for each of 1 to 31 items",
        )?,
        Form::Access => text.push_str("an access has a space, an address and a kind")?,
        Form::Unmap => text.push_str("an unmap has a space, a control word, and fpage words")?,
        Form::Clear => text.push_str("a clear has a space")?,
    }
    let behind = count.saturating_sub(1);
    if behind == 1 {
        text.push_str("; 1 field stands behind the name")
    } else {
        write!(text, "; {behind} fields stand behind the name")
    }
}

/// Appends which space there is not.
fn push_unknown_space(
    text: &mut String,
    form: Form,
    fields: &[&[u8]],
    spaces: u32,
) -> Result<usize, AllocError> {
    let sender = fields.get(1).copied().and_then(fields::space).unwrap_or(0);
    let index = if u32::from(sender) < spaces { 2 } else { 1 };
    let space = fields
        .get(index)
        .copied()
        .and_then(fields::space)
        .unwrap_or(sender);
    form.role(index).push(text)?;
    let last = spaces.saturating_sub(1);
    write!(text, " is {space}; spaces are 0 to {last}")?;
    Ok(index)
}

/// Appends which word of a record is refused.
fn push_bad_word(
    text: &mut String,
    form: Form,
    fields: &[&[u8]],
    bits: u32,
) -> Result<usize, AllocError>
    requires { IsSpaceBits bits }
{
    let behind = fields.len().saturating_sub(3);
    for (index, field) in fields.iter().enumerate() {
        if index == 0 {
            continue;
        }
        let role = form.role(index);
        let word = fields::word(field).unwrap_or(0);
        if let Some(error) = word_error(role, word, behind, bits) {
            role.push(text)?;
            write!(text, " is {word:x}: ")?;
            push_word_fault(text, role, word, behind, bits, error)?;
            return Ok(index);
        }
    }
    Ok(0)
}

/// Why the word of a field is refused, if it is; so many fields stand behind a control word.
fn word_error(role: Role, word: u32, behind: usize, bits: u32) -> Option<FpageError>
    requires { IsSpaceBits bits }
{
    match role {
        Role::Window | Role::SendFpage(_) | Role::FpageWord(_) => Fpage::read(word, bits).err(),
        // The second word of an item has its own place.
        Role::ItemWord(_) => Item::read(word, 0, bits).err(),
        Role::Control => Control::read(word, behind).err(),
        Role::Address if u64::from(word) >= 1 << bits => Some(FpageError::OutOfSpace),
        _ => None,
    }
}

/// Appends why the word of a field is refused so.
fn push_word_fault(
    text: &mut String,
    role: Role,
    word: u32,
    behind: usize,
    bits: u32,
    error: FpageError,
) -> Result<(), AllocError>
    requires { IsSpaceBits bits }
{
    match role {
        Role::ItemWord(_) => push_item_fault(text, word),
        Role::Control if word / 128 != 0 => text.push_str("it has a bit above bit 6"),
        Role::Control => {
            let named = word % 64 + 1;
            write!(
                text,
                "the fpage words behind it are {behind}, and it says {named}"
            )
        }
        Role::Address => {
            let limit = 1u64 << bits;
            write!(text, "a space of {bits} bits ends at {limit:x}")
        }
        _ => push_fpage_fault(text, word, bits, error),
    }
}
