//! What a trace holds after each of its records, and where its pages came from.
#![tactic(auto)]

mod answer_text;
mod answering;
mod asked;
mod audit_text;
mod call_text;
mod change_text;
mod effect;
mod error;
mod explain;
mod history;
mod moment;
mod page;
mod reply_text;
mod show;
mod why;

pub use audit_text::audit_after;
pub use error::ShowError;
pub use explain::{Excerpt, push_explained};
pub use show::{push_changed_trees, push_tree, push_view};
pub use why::push_why;
