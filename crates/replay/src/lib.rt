//! The replay of a trace: from its bytes to the text of the replies and of the audit.
#![tactic(auto)]

mod answer;
mod buffers;
mod error;
mod lines;
mod options;
mod replay;
mod watch;

pub use answer::{Replies, answer_first};
pub use buffers::Buffers;
pub use error::RunError;
pub use options::Options;
pub use replay::{Summary, run, run_by};
pub use watch::{BLOCK, NoWatch, Watch};
