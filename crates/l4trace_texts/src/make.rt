//! Words that are made of their parts.

ghost use Rattle.std.specs.Prelude.{◌≡◌, ◌/◌, ◌%◌, ◌≤◌, true, Ok, IfOk, IfErr, IsOk};
ghost use Rattle.fpage.specs.Control.{read_control};
ghost use Rattle.fpage.specs.Fpage.{IsSpaceBits, read_fpage};
ghost use Rattle.fpage.specs.Item.{is_item_word, kind_of};
ghost use Rattle.l4trace_texts.specs.Asked.{IsSize, asked_fpage};

use fpage::{Fpage, FpageError, ItemKind, Rights};

/// How large an fpage is to be.
#[derive(Clone, Copy, Debug, PartialEq, Eq)]
pub enum Size {
    /// The nilpage, which has no pages.
    Nil,
    /// The complete space.
    Complete,
    /// `2^s` bytes, a page at least.
    Bytes(u32),
}

impl Size {
    ghost use Rattle.std.specs.Prelude.{◌≡◌, ◌<◌};
    ghost use Rattle.l4trace_texts.specs.Asked.{IsSize, size_field};

    /// The size field of a word (s).
    pub fn field(self) -> u32
        requires { IsSize self }
        ensures value { result ≡ size_field self }
        ensures field { result < 64 }
    {
        match self {
            Size::Nil => 0,
            Size::Complete => 1,
            Size::Bytes(s) => s,
        }
    }
}

/// The word of an fpage with this base (an address), size and rights, for a space of `2^bits` bytes. It reads back as the
/// fpage that was asked for.
///
/// Refused, the first that fits: `Misaligned`, where the base is no multiple of 1024 or of the size; `BadSize`, where the
/// nilpage or the complete space is to have a base; `OutOfSpace`.
pub fn fpage_word(base: u32, size: Size, rights: Rights, bits: u32) -> Result<u32, FpageError>
    requires bits { IsSpaceBits bits }
    requires size { IsSize size }
    ensures reads { IfOk result (λ word. read_fpage bits word ≡ asked_fpage bits base rights size) }
    ensures asked { IfOk result (λ _. IsOk (asked_fpage bits base rights size)) }
    ensures err { IfErr result (λ e. asked_fpage bits base rights size ≡ Err e) }
{
    if base % 1024 != 0 {
        return Err(FpageError::Misaligned);
    }
    let word = base + 16 * size.field() + rights.number();
    match Fpage::read(word, bits) {
        Ok(_) => Ok(word),
        Err(error) => Err(error),
    }
}

/// The first word of an item, with a send base that is a multiple of 1024.
pub fn item_word(kind: ItemKind, base: u32) -> u32
    requires { base % 1024 ≡ 0 }
    ensures item { is_item_word result ≡ true }
    ensures kind { kind_of result ≡ kind }
    ensures base { result / 1024 ≡ base / 1024 }
{
    match kind {
        ItemKind::Map => base + 8,
        ItemKind::Grant => base + 10,
    }
}

/// The control word of an Unmap with so many fpage words.
pub fn control_word(flush: bool, words: u32) -> u32
    requires some { 1 ≤ words }
    requires at_most { words ≤ 64 }
    ensures { read_control result words ≡ Ok flush }
{
    u32::from(flush) * 64 + (words - 1)
}
