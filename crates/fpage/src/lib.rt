//! Fpages, rights, items and control words of the L4 X.2 Reference Manual, in 32-bit words.
#![tactic(auto)]

mod control;
mod error;
mod item;
mod pairing;
mod rights;
mod word;

pub use control::{Control, with_status};
pub use error::FpageError;
pub use item::{Item, ItemKind};
pub use pairing::{Pairing, pair};
pub use rights::{Access, Rights};
pub use word::Fpage;
