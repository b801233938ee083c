use space::Place;

/// A page of an item that goes to its target, or that extends the mapping there.
#[derive(Clone, Copy, Debug, PartialEq, Eq)]
pub struct Transfer {
    pub source: Place,
    pub target: Place,
    /// The mapping that the target has from the source gains rights; otherwise the target becomes a new mapping.
    pub extends: bool,
}
