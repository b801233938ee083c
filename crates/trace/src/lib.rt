//! Traces of calls on a mapping database: their bytes read into calls, and the replies to these put into text.
#![tactic(auto)]

mod bytes;
mod call;
mod read;
mod reader;
mod records;
mod reply;
mod request;
mod stream;

pub use bytes::Bytes;
pub use fields::Version;
pub use mapdb::{Call, Refusal, Reply};
pub use read::{Trace, TraceError, read_all};
pub use reader::TraceReader;
pub use records::{Fields, Record};
pub use reply::{push_access, push_reply, push_sent, reply_text};
pub use stream::{Failed, ReadError, Sink, Source, Std, read_to_end};
