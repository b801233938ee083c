//! What steps make of one entry word.

ghost use Rattle.std.specs.Prelude.{◌≡◌, true, false, is_some};
ghost use Rattle.std.specs.Option.{option_map, option_map_or};
ghost use Rattle.fpage.specs.Rights.{has};
ghost use Rattle.space.specs.Word.{word_of, entry_of, is_pack, FrameFits};
ghost use Rattle.space.specs.Entries.{status_of};
ghost use Rattle.pieces.specs.Steps.{narrowed_by, linked, without_status, status_bits};

use fpage::{Access, Rights};
use space::{Entry, narrowed_word, pack, rights_left, unpack, word_bits, word_status};

/// A word that loses rights and its status; 0 where no right is left.
pub fn narrowed(word: u64, mask: Rights) -> u64
    requires { is_pack word ≡ true }
    ensures { result ≡ word_of (narrowed_by mask (entry_of word)) }
{
    narrowed_word(word, mask, true)
}

/// The word of a target once a source is mapped there with those of its rights that are let through.
pub fn linked(target: u64, source: u64, through: Rights) -> u64
    requires target { is_pack target ≡ true }
    requires source { is_pack source ≡ true }
    ensures { result ≡ word_of (option_map (linked through (entry_of target)) (entry_of source)) }
{
    pack(linked_entry(unpack(target), unpack(source), through))
}

/// The same of entries.
fn linked_entry(target: Option<Entry>, source: Option<Entry>, through: Rights) -> Option<Entry>
    requires { FrameFits source }
    ensures linked { result ≡ option_map (linked through target) source }
    ensures fits { FrameFits result }
{
    let source = source?;
    let through = source.rights.meet(through);
    match target {
        None => Some(Entry {
            frame: source.frame,
            rights: through,
            status: Rights::none(),
        }),
        Some(target) => Some(Entry {
            frame: source.frame,
            rights: target.rights.join(through),
            status: target.status,
        }),
    }
}

/// The word of a page that is moved: the status goes.
pub fn moved(word: u64) -> u64
    requires { is_pack word ≡ true }
    ensures { result ≡ word_of (option_map without_status (entry_of word)) }
{
    word - word % 64 + word % 8
}

/// The status of a word.
pub fn status(word: u64) -> Rights
    requires { is_pack word ≡ true }
    ensures { result ≡ status_of (entry_of word) }
{
    word_status(word)
}

/// Whether an access of a page with this word may be made.
pub fn permits(word: u64, access: Access) -> bool
    requires { is_pack word ≡ true }
    ensures { result ≡ option_map_or (λ e. has e.rights access) (entry_of word) false }
{
    Rights::of_bits((word % 8) as u32).holds(access)
}

/// The bits of status in a word.
pub fn bits(status: Rights) -> u64
    ensures { result ≡ status_bits status }
{
    word_bits(status)
}

/// Whether a page with this word is left with a right that is not withdrawn.
pub fn remains(word: u64, mask: Rights) -> bool
    requires { is_pack word ≡ true }
    ensures { result ≡ is_some (narrowed_by mask (entry_of word)) }
{
    rights_left(word, mask) != 0
}
