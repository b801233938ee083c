ghost use Rattle.std.specs.Prelude.{◌≡◌, ℕ, ◌+◌, ◌^◌, ◌<◌, ◌≤◌, ◌==◌, IfOk, IsTrue};
ghost use Rattle.fpage.specs.Fpage.{IsSpaceBits, read_fpage, read_sized, starts_within, is_page, is_page_of, is_aligned, IsFpageOf};

use crate::error::FpageError;
use crate::rights::Rights;
use std::marker::Model;
use std::ops::Range;

/// The bytes of a page, as a power of two.
const PAGE_BITS: u32 = 12;

/// A flexpage: a run of pages of one space, with rights (L4 X.2, Fpage).
#[derive(Clone, Copy, Debug, PartialEq, Eq)]
pub struct Fpage {
    first: u32,
    count: u32,
    rights: Rights,
}

impl Model for Fpage {
    ghost use Rattle.std.specs.Prelude.{◌+◌, ◌≤◌, ◌^◌, IsTrue};
    ghost use Rattle.fpage.specs.Fpage.{Flexpage, is_aligned};

    ghost Value = { Flexpage };

    ghost view = { λ f. record { first = f.first; count = f.count; rights = f.rights } };

    ghost invariant = { λ f. (f.first + f.count ≤ 2 ^ 20) × IsTrue (is_aligned f.first f.count) };

    ghost inverse = { λ f. record { first = f.first; count = f.count; rights = f.rights } };
}

impl Fpage {
    /// Reads an fpage word for a space of `2^bits` bytes.
    ///
    /// Refused, the first that fits: `BadSize`, `Misaligned`, `OutOfSpace`.
    pub fn read(word: u32, bits: u32) -> Result<Self, FpageError>
        requires { IsSpaceBits bits }
        ensures read { result ≡ read_fpage bits word }
        ensures pages { IfOk result (λ f. (g : ℕ) → is_page_of f g ≡ is_page bits word g) }
        ensures within { IfOk result (IsFpageOf bits) }
    {
        let size = word / 16 % 64;
        let base = word / 1024;
        let rights = Rights::of_bits(word);
        if size == 0 && base == 0 {
            return Ok(Fpage {
                first: 0,
                count: 0,
                rights,
            });
        }
        if size == 1 && base == 0 {
            return Ok(Fpage {
                first: 0,
                count: 1 << (bits - PAGE_BITS),
                rights,
            });
        }
        if size < PAGE_BITS {
            return Err(FpageError::BadSize);
        }
        sized(bits, size, base, rights)
    }

    /// The numbers of its pages.
    pub fn pages(self) -> Range<u32>
        ensures start { result.start ≡ self.first }
        ensures end { result.end ≡ self.first + self.count }
        ensures aligned { IsTrue (is_aligned self.first self.count) }
    {
        self.first..self.first + self.count
    }

    /// The rights in its word.
    pub fn rights(self) -> Rights
        ensures { result ≡ self.rights }
    {
        self.rights
    }

    /// Whether it is the nilpage, which has no pages.
    pub fn is_nil(self) -> bool
        ensures { result ≡ (self.count == 0) }
    {
        self.count == 0
    }
}

/// The fpage of `2^size` bytes, a page at least, from a base in units of 1024 bytes.
fn sized(bits: u32, size: u32, base: u32, rights: Rights) -> Result<Fpage, FpageError>
    requires bits { IsSpaceBits bits }
    requires a_page { PAGE_BITS ≤ size }
    requires shift { size < 64 }
    requires base { base < 2 ^ 22 }
    ensures read { result ≡ read_sized bits size base rights }
    ensures pages { IfOk result (λ f. (g : ℕ) → is_page_of f g ≡ starts_within size base g) }
    ensures within { IfOk result (IsFpageOf bits) }
{
    let start = 1024 * u64::from(base);
    let bytes = 1u64 << size;
    if start % bytes != 0 {
        return Err(FpageError::Misaligned);
    }
    if start + bytes > 1 << bits {
        return Err(FpageError::OutOfSpace);
    }
    Ok(Fpage {
        first: base / 4,
        count: 1 << (size - PAGE_BITS),
        rights,
    })
}
