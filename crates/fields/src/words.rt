//! Items and fpages from the words of a call, without taking memory.

ghost use Rattle.std.specs.Prelude.{◌≡◌, ◌≤◌, ◌/◌, ◌%◌, length, take, OnOk};
ghost use Rattle.std.specs.List.{All, zip};
ghost use Rattle.fpage.specs.Fpage.{IsSpaceBits, IsFpageOf};
ghost use Rattle.model.specs.Definitions.Records.{read_items, read_words};
ghost use Rattle.fields.specs.Words.{with_value};

use fpage::{Fpage, FpageError, Item};

/// Puts the items of words, two by two, in place of the first of `items`; otherwise returns the first refusal, and has
/// put the items before it.
pub fn read_items(words: &[u32], bits: u32, items: &mut [Item]) -> Result<(), FpageError>
    requires bits { IsSpaceBits bits }
    requires pairs { length words.now % 2 ≡ 0 }
    requires room { length words.now / 2 ≤ length items.old }
    ensures items { with_value (take (length words.now / 2) items.new) result ≡ read_items bits words.now }
    ensures within { OnOk result (All (λ item. IsFpageOf bits item.sent) (take (length words.now / 2) items.new)) }
{
    for i in 0..words.len() / 2 {
        items[i] = Item::read(words[2 * i], words[2 * i + 1], bits)?;
    }
    Ok(())
}

/// Puts the fpage of each word in place of the first of `fpages`; otherwise returns the first refusal, and has put the
/// fpages before it.
pub fn read_fpages(words: &[u32], bits: u32, fpages: &mut [Fpage]) -> Result<(), FpageError>
    requires bits { IsSpaceBits bits }
    requires room { length words.now ≤ length fpages.old }
    ensures fpages { with_value (zip words.now (take (length words.now) fpages.new)) result ≡ read_words bits words.now }
    ensures within { OnOk result (All (IsFpageOf bits) (take (length words.now) fpages.new)) }
{
    for i in 0..words.len() {
        fpages[i] = Fpage::read(words[i], bits)?;
    }
    Ok(())
}
