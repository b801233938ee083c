//! What is held around a record of a trace.

use mapdb::{Limits, Mapping, Reply};

/// What is held before a record of a trace and after it.
#[derive(Drop)]
pub struct Moment {
    pub limits: Limits,
    /// How many records were answered, the record among them.
    pub records: u64,
    /// The reply to that record; none at the start.
    pub reply: Option<Reply>,
    /// Every mapping before it, by rising place; at the start the same as after.
    pub before: Vec<Mapping>,
    /// Every mapping after it, by rising place.
    pub after: Vec<Mapping>,
}
