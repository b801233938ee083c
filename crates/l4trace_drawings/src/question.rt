//! What is asked of a page.

use space::Place;

/// A page of which is asked.
#[derive(Clone, Copy, Debug)]
pub struct Question {
    pub place: Place,
    /// After which record; the last of the trace, if none is named.
    pub at: Option<u64>,
    /// How many pages of its chain of origins are told, and how many records that changed it.
    pub most: u64,
}
