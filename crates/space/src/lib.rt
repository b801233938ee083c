//! Places, that is pages of spaces, the entries of pages that are held, their words, a map from place to entry, and the
//! nodes of derivation trees.
#![tactic(auto)]

mod directory;
mod error;
mod finder;
mod laws;
mod node;
mod place;
mod runs;
mod shards;
mod slice;
mod status;
mod word;

pub use error::NoMemory;
pub use laws::{entry_words, shard_words};
pub use node::Node;
pub use place::{Entry, Place};
pub use shards::{Narrowed, Run, Shards, page_behind_shard};
pub use slice::Slice;
pub use status::Status;
pub use word::{narrowed_word, pack, rights_left, unpack, word_bits, word_status};
