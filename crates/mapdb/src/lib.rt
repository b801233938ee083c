//! The mapping database: which space holds which page, with which rights, and from whom the page came.
#![tactic(auto)]

mod answer;
mod call;
mod clear;
mod database;
mod error;
mod item;
mod item_pages;
mod plan;
mod reply;
mod told;
mod unmap;

pub use answer::Scratch;
pub use call::{Call, Refusal, Sending, Unmap};
pub use database::Database;
pub use error::DbError;
pub use holdings::{Limits, Mapping, Mappings, Note, Notes};
pub use reply::{Reply, SendReply};
