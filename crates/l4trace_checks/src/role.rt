//! What the fields of a record are.

use std::alloc::AllocError;
use std::fmt::Write;
use trace::Version;

/// The form of a record, by its name.
#[derive(Clone, Copy, Debug, PartialEq, Eq)]
pub enum Form {
    Send,
    Access,
    Unmap,
    Clear,
}

impl Form {
    /// The form that a record's first field names in a trace of a version.
    pub fn of_name(version: Version, name: &[u8]) -> Option<Self> {
        match name {
            b"send" => Some(Form::Send),
            b"access" => Some(Form::Access),
            b"unmap" => Some(Form::Unmap),
            b"clear" if version.has_clear() => Some(Form::Clear),
            _ => None,
        }
    }

    /// What the field at an index behind the name is.
    pub fn role(self, index: usize) -> Role {
        match (self, index) {
            (Form::Send, 1) => Role::Sender,
            (Form::Send, 2) => Role::Receiver,
            (Form::Send, 3) => Role::Window,
            (Form::Send, _) if index % 2 == 0 => Role::ItemWord((index / 2).saturating_sub(1)),
            (Form::Send, _) => Role::SendFpage((index / 2).saturating_sub(1)),
            (Form::Access, 1) | (Form::Unmap, 1) | (Form::Clear, 1) => Role::Space,
            (Form::Access, 2) => Role::Address,
            (Form::Access, 3) => Role::Kind,
            (Form::Access, _) | (Form::Clear, _) => Role::Surplus,
            (Form::Unmap, 2) => Role::Control,
            (Form::Unmap, _) => Role::FpageWord(index.saturating_sub(2)),
        }
    }
}

/// What a field of a record is. Items and words are counted from 1.
#[derive(Clone, Copy, Debug, PartialEq, Eq)]
pub enum Role {
    Sender,
    Receiver,
    /// The space of an access, an unmap or a clear.
    Space,
    Window,
    /// The first word of an item.
    ItemWord(usize),
    /// The second word of an item.
    SendFpage(usize),
    Address,
    Kind,
    Control,
    FpageWord(usize),
    /// A field behind the last that the record has.
    Surplus,
}

impl Role {
    /// Whether the field has the form that it should have.
    pub fn fits(self, field: &[u8]) -> bool {
        match self {
            Role::Sender | Role::Receiver | Role::Space => fields::space(field).is_some(),
            Role::Kind => matches!(field, b"r" | b"w" | b"x"),
            // That it is there at all is told by the number of fields.
            Role::Surplus => true,
            _ => fields::word(field).is_some(),
        }
    }

    /// The form that the field should have.
    pub fn wanted(self) -> &'static str {
        match self {
            Role::Sender | Role::Receiver | Role::Space => "1 to 5 decimal digits, at most 65535",
            Role::Kind => "r, w or x",
            Role::Surplus => "there",
            _ => "1 to 8 hexadecimal digits",
        }
    }

    /// Appends what the field is.
    pub fn push(self, text: &mut String) -> Result<(), AllocError> {
        match self {
            Role::Sender => text.push_str("the sender"),
            Role::Receiver => text.push_str("the receiver"),
            Role::Space => text.push_str("the space"),
            Role::Window => text.push_str("the window"),
            Role::ItemWord(item) => write!(text, "the first word of item {item}"),
            Role::SendFpage(item) => write!(text, "the send fpage of item {item}"),
            Role::Address => text.push_str("the address"),
            Role::Kind => text.push_str("the kind of access"),
            Role::Control => text.push_str("the control word"),
            Role::FpageWord(word) => write!(text, "fpage word {word}"),
            Role::Surplus => text.push_str("a field too many"),
        }
    }
}
