//! The handle by which a program in C holds a database, with calls that take words and answer codes.
#![tactic(auto)]

mod access;
mod answer;
mod asked;
mod calls;
mod changes;
mod clear;
mod code;
mod error;
mod handle;
mod kept;
mod look;
mod mappings;
mod raw_box;
mod send;
mod unmap;

pub use asked::{AccessAsked, SendAsked, UnmapAsked};
pub use changes::ChangeReply;
pub use handle::Handle;
pub use look::{EntryReply, OriginReply};
pub use mappings::{Listing, MappingReply};
pub use send::SendReply;
