//! The texts of a trace: its words, its numbers, and where its records stand.
#![tactic(auto)]

mod explain;
mod make;
mod parts;
mod places;
mod record_text;
mod scope;
mod shown;

pub use explain::{
    Extent, explain_all, push_extent_fault, push_fpage_fault, push_item_fault, push_rights,
};
pub use make::{Size, control_word, fpage_word, item_word};
pub use parts::{rights_of, size_of};
pub use places::{Front, Places, Span, front_of};
pub use record_text::RecordTexts;
pub use scope::{CompareOptions, Scope};
pub use shown::{push_quoted, push_shown};
