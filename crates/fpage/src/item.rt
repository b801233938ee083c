ghost use Rattle.std.specs.Prelude.{◌≡◌, IfOk};
ghost use Rattle.fpage.specs.Fpage.{IsSpaceBits, IsFpageOf};
ghost use Rattle.fpage.specs.Item.{read_item};

use crate::error::FpageError;
use crate::word::Fpage;

/// What an item does with the sender's pages.
#[derive(Clone, Copy, Debug, PartialEq, Eq)]
pub enum ItemKind {
    /// The sender keeps its pages, and the receiver's derive from them (L4 X.2, MapItem).
    Map,
    /// The pages go from the sender to the receiver (L4 X.2, GrantItem).
    Grant,
}

/// A MapItem or a GrantItem: two words of a message (L4 X.2, MapItem, GrantItem).
#[derive(Clone, Copy, Debug, PartialEq, Eq)]
pub struct Item {
    pub kind: ItemKind,
    /// The page in which the send base lies.
    pub base: u32,
    /// The sender's pages, with the rights that the receiver may have at most.
    pub sent: Fpage,
}

impl Item {
    /// Reads the two words of an item for spaces of `2^bits` bytes.
    ///
    /// Refused, the first that fits: `NotAnItem`, and then what `Fpage::read` refuses of the second word.
    pub fn read(first: u32, second: u32, bits: u32) -> Result<Self, FpageError>
        requires { IsSpaceBits bits }
        ensures read { result ≡ read_item bits first second }
        ensures within { IfOk result (λ item. IsFpageOf bits item.sent) }
    {
        if first / 8 % 2 != 1 || first / 4 % 2 != 0 {
            return Err(FpageError::NotAnItem);
        }
        let kind = if first / 2 % 2 == 1 {
            ItemKind::Grant
        } else {
            ItemKind::Map
        };
        let sent = Fpage::read(second, bits)?;
        Ok(Item {
            kind,
            base: first / 4096,
            sent,
        })
    }
}
