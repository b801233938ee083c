//! What a C program asks for, as the words that it gives.

/// A map or a grant.
#[derive(Clone, Copy)]
pub struct SendAsked<'a> {
    pub from: u16,
    pub to: u16,
    /// The fpage of the receiver's window.
    pub window: u32,
    /// The words of the items, two each.
    pub words: &'a [u32],
}

/// An unmap, but for the words of its fpages, which come back with their status.
#[derive(Clone, Copy)]
pub struct UnmapAsked {
    pub space: u16,
    pub control: u32,
}

/// An access.
#[derive(Clone, Copy)]
pub struct AccessAsked {
    pub space: u16,
    /// An address in bytes.
    pub address: u32,
    /// 4 for read, 2 for write, 1 for execute.
    pub kind: u32,
}
