//! Derivation trees and the pages of spaces, drawn as text and as pictures.
#![tactic(auto)]

mod diff;
mod dot;
mod drawing;
mod gone;
mod layout;
mod lines;
mod mark;
mod moment;
mod pair;
mod question;
mod svg;
mod table;
mod tree;
mod view;

pub use drawing::{chosen, push_drawing};
pub use mark::{mapping_at, push_mapping, push_origin, push_place, push_status};
pub use moment::Moment;
pub use question::Question;
pub use table::push_table;
pub use view::{Form, View};
