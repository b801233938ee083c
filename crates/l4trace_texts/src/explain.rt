//! What a word means: as an fpage, as the first word of an item and as a control word.

ghost use Rattle.std.specs.Prelude.{◌≡◌, ◌*◌, ◌%◌, ◌<◌, IfSome, IsOk};
ghost use Rattle.fpage.specs.Fpage.{IsSpaceBits, base_of, read_fpage, size_of};

use fpage::{Control, Fpage, FpageError, Item, ItemKind, Rights};
use std::alloc::AllocError;
use std::fmt::Write;

/// The address and the size field that a word has.
#[derive(Clone, Copy, Debug, PartialEq, Eq)]
pub struct Extent {
    /// The base, in bytes.
    pub base: u32,
    /// s, where the fpage has `2^s` bytes.
    pub size: u32,
}

/// The base and the size field of a word, whatever they are.
pub fn extent_of(word: u32) -> Extent
    ensures base { result.base ≡ base_of word * 1024 }
    ensures size { result.size ≡ size_of word }
    ensures field { result.size < 64 }
{
    Extent {
        base: word / 1024 * 1024,
        size: word / 16 % 64,
    }
}

/// The word with the next base that is a multiple of the word's size, where that is an fpage of a space of `2^bits` bytes.
pub fn next_aligned(word: u32, bits: u32) -> Option<u32>
    requires { IsSpaceBits bits }
    ensures fpage { IfSome result (λ next. IsOk (read_fpage bits next)) }
    ensures behind { IfSome result (λ next. word < next) }
    ensures same { IfSome result (λ next. next % 1024 ≡ word % 1024) }
{
    let size = extent_of(word).size;
    if size < 12 || size > 32 {
        return None;
    }
    let unit = 1u64 << (size - 10);
    let base = u64::from(word / 1024) / unit * unit + unit;
    let next = u32::try_from(base * 1024 + u64::from(word % 1024)).ok()?;
    if Fpage::read(next, bits).is_ok() && word < next {
        Some(next)
    } else {
        None
    }
}

/// Appends what some words mean in spaces of `2^bits` bytes.
pub fn explain_all(text: &mut String, words: &[u32], bits: u32) -> Result<(), AllocError>
    requires { IsSpaceBits bits }
{
    for word in words {
        explain(text, *word, bits)?;
    }
    Ok(())
}

/// Appends four lines: the word, and what it means as an fpage, as the first word of an item and as a control word.
fn explain(text: &mut String, word: u32, bits: u32) -> Result<(), AllocError>
    requires { IsSpaceBits bits }
{
    write!(text, "{word:x}\n  fpage: ")?;
    match Fpage::read(word, bits) {
        Ok(fpage) => push_fpage(text, word, fpage)?,
        Err(error) => {
            write!(text, "{error}: ")?;
            push_fpage_fault(text, word, bits, error)?;
        }
    }
    text.push_str("\n  first word of an item: ")?;
    push_item_word(text, word, bits)?;
    text.push_str("\n  control word: ")?;
    push_control(text, word)?;
    text.push_str("\n")
}

/// Appends the pages and the rights of an fpage, and how its word says them.
fn push_fpage(text: &mut String, word: u32, fpage: Fpage) -> Result<(), AllocError> {
    let pages = fpage.pages();
    match pages.end - pages.start {
        0 => text.push_str("no page")?,
        1 => write!(text, "page {}", pages.start)?,
        count => {
            let last = pages.end - 1;
            write!(text, "pages {} to {last} ({count} pages)", pages.start)?;
        }
    }
    text.push_str(", rights ")?;
    push_rights(text, fpage.rights())?;
    let Extent { base, size } = extent_of(word);
    match size {
        0 => text.push_str("; the nilpage"),
        1 => text.push_str("; the complete space"),
        _ => {
            write!(text, "; base {base:x}, s {size}: ")?;
            push_size(text, size)
        }
    }
}

/// Appends rights as three characters: `r` or `-`, `w` or `-`, `x` or `-`.
pub fn push_rights(text: &mut String, rights: Rights) -> Result<(), AllocError> {
    text.push_str(if rights.read { "r" } else { "-" })?;
    text.push_str(if rights.write { "w" } else { "-" })?;
    text.push_str(if rights.execute { "x" } else { "-" })
}

/// Appends a size of `2^size` bytes in K, M or G where it has a whole number of them.
pub fn push_size(text: &mut String, size: u32) -> Result<(), AllocError> {
    match size {
        10..=19 => write!(text, "{}K", 1u32 << (size - 10)),
        20..=29 => write!(text, "{}M", 1u32 << (size - 20)),
        30..=39 => write!(text, "{}G", 1u32 << (size - 30)),
        _ => write!(text, "2^{size} bytes"),
    }
}

/// Appends why a word is no fpage of a space of `2^bits` bytes.
pub fn push_fpage_fault(
    text: &mut String,
    word: u32,
    bits: u32,
    error: FpageError,
) -> Result<(), AllocError>
    requires { IsSpaceBits bits }
{
    push_extent_fault(text, extent_of(word), bits, error)?;
    if error == FpageError::Misaligned {
        if let Some(next) = next_aligned(word, bits) {
            let good = extent_of(next).base;
            write!(text, "; the next good base is {good:x}: {next:x}")?;
        }
    }
    Ok(())
}

/// Appends why a base and a size are no fpage of a space of `2^bits` bytes.
pub fn push_extent_fault(
    text: &mut String,
    extent: Extent,
    bits: u32,
    error: FpageError,
) -> Result<(), AllocError>
    requires bits { IsSpaceBits bits }
    requires size { extent.size < 64 }
{
    let Extent { base, size } = extent;
    match error {
        FpageError::BadSize if size == 0 => {
            write!(text, "s is 0, the nilpage, but there is a base, {base:x}")
        }
        FpageError::BadSize if size == 1 => {
            write!(
                text,
                "s is 1, the complete space, but there is a base, {base:x}"
            )
        }
        FpageError::BadSize => write!(text, "s is {size}; that of one page is 12"),
        FpageError::Misaligned => {
            write!(text, "base {base:x} is no multiple of the size, ")?;
            push_size(text, size)
        }
        _ => push_end(text, extent, bits),
    }
}

/// Appends that an fpage ends past the end of a space of `2^bits` bytes.
fn push_end(text: &mut String, extent: Extent, bits: u32) -> Result<(), AllocError>
    requires bits { IsSpaceBits bits }
    requires size { extent.size < 64 }
{
    let end = u64::from(extent.base).saturating_add(1 << extent.size);
    let limit = 1u64 << bits;
    write!(
        text,
        "it ends at {end:x}, and a space of {bits} bits at {limit:x}"
    )
}

/// Appends what a word means as the first word of an item.
fn push_item_word(text: &mut String, word: u32, bits: u32) -> Result<(), AllocError>
    requires { IsSpaceBits bits }
{
    // The second word of an item can be the nilpage.
    match Item::read(word, 0, bits) {
        Ok(item) => {
            let name = match item.kind {
                ItemKind::Map => "MapItem",
                ItemKind::Grant => "GrantItem",
            };
            let base = extent_of(word).base;
            let page = item.base;
            write!(text, "{name}, send base {base:x}: page {page}")
        }
        Err(error) => {
            write!(text, "{error}: ")?;
            push_item_fault(text, word)
        }
    }
}

/// Appends why a word is not the first word of an item.
pub fn push_item_fault(text: &mut String, word: u32) -> Result<(), AllocError> {
    let digit = word % 16;
    write!(
        text,
        "its last digit is {digit:x}; that of a MapItem is 8 or 9, of a GrantItem a or b"
    )
}

/// Appends what a word means as a control word.
fn push_control(text: &mut String, word: u32) -> Result<(), AllocError> {
    let words = (word % 64) as usize + 1;
    match Control::read(word, words) {
        Ok(control) => {
            let follow = if control.words() == 1 {
                "fpage word follows"
            } else {
                "fpage words follow"
            };
            let flush = if control.is_flush() {
                "with"
            } else {
                "without"
            };
            write!(text, "{} {follow}, {flush} flush", control.words())
        }
        Err(error) => write!(text, "{error}: it has a bit above bit 6"),
    }
}
