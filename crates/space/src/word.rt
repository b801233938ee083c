ghost use Rattle.std.specs.Prelude.{◌≡◌, ◌*◌, ◌%◌, ◌^◌, IsTrue};
ghost use Rattle.std.specs.Option.{option_and_then, option_map};
ghost use Rattle.fpage.specs.Rights.{number, of_bits, without};
ghost use Rattle.space.specs.Word.{word_of, entry_of, is_pack, FrameFits};
ghost use Rattle.space.specs.Entries.{has_any, mapped, narrowed, status_of};

use crate::place::Entry;
use fpage::Rights;

/// Bit 32, which the word of each entry has.
const HELD: u64 = 0x1_0000_0000;

/// How many frames have room in a word.
const FRAMES: u64 = 0x100_0000;

/// The word of what stands at a page (profile, entry word); 0 where nothing does.
pub fn pack(entry: Option<Entry>) -> u64
    requires { FrameFits entry }
    ensures { result ≡ word_of entry }
{
    match entry {
        None => 0,
        Some(entry) => {
            HELD + u64::from(entry.frame) * 256
                + u64::from(entry.status.number()) * 8
                + u64::from(entry.rights.number())
        }
    }
}

/// What a word that `pack` made says stands at its page (profile, entry word).
pub fn unpack(word: u64) -> Option<Entry>
    requires { IsTrue (is_pack word) }
    ensures { result ≡ entry_of word }
{
    if word == 0 {
        return None;
    }
    Some(Entry {
        frame: (word / 256 % FRAMES) as u32,
        rights: Rights::of_bits((word % 8) as u32),
        status: Rights::of_bits((word / 8 % 8) as u32),
    })
}

/// The word of what is left where these rights are withheld from what a word says, if they are: the status is cleared, and with
/// no right left nothing is.
pub fn narrowed_word(word: u64, revoked: Rights, flush: bool) -> u64
    requires { IsTrue (is_pack word) }
    ensures { result ≡ word_of (option_and_then (narrowed flush revoked) (entry_of word)) }
{
    // Rights and status are the six lowest bits, and the two above them are clear.
    if !flush {
        return word - word % 64 + word % 8;
    }
    let left = rights_left(word, revoked);
    if left == 0 {
        return 0;
    }
    word - word % 64 + left
}

/// The word of a page to which another is mapped, whose word this is: of its rights some are let through.
pub fn mapped_word(word: u64, through: Rights) -> u64
    requires { IsTrue (is_pack word) }
    ensures { result ≡ word_of (option_map (mapped through) (entry_of word)) }
{
    word - word % 64 + (word % 8 & u64::from(through.number()))
}

/// The number of the rights of a word that are not withheld.
pub fn rights_left(word: u64, revoked: Rights) -> u64
    ensures { result ≡ number (without (of_bits (word % 8)) revoked) }
{
    word % 8 & u64::from(7 - revoked.number())
}

/// Whether what a word says has one of these rights.
pub fn has_any(word: u64, rights: Rights) -> bool
    requires { IsTrue (is_pack word) }
    ensures { result ≡ has_any rights (entry_of word) }
{
    word % 8 & u64::from(rights.number()) != 0
}

/// The status of what a word says.
pub fn word_status(word: u64) -> Rights
    requires { IsTrue (is_pack word) }
    ensures { result ≡ status_of (entry_of word) }
{
    Rights::of_bits((word / 8 % 8) as u32)
}

/// The bits of status in a word.
pub fn word_bits(status: Rights) -> u64
    ensures { result ≡ 2 ^ 3 * number status }
{
    u64::from(status.number()) * 8
}
