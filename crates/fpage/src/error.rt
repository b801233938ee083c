use thiserror::Error;

/// Why an fpage word, an item or a control word is refused.
#[derive(Clone, Copy, Debug, PartialEq, Eq, Error)]
pub enum FpageError {
    /// The size field is 2 to 11, or it is 0 or 1 and there is a base.
    #[error("BadSize")]
    BadSize,
    /// The base is no multiple of the size.
    #[error("Misaligned")]
    Misaligned,
    /// The fpage ends past the end of its space.
    #[error("OutOfSpace")]
    OutOfSpace,
    /// The first word is neither a MapItem's nor a GrantItem's.
    #[error("NotAnItem")]
    NotAnItem,
    /// The control word has a bit above its fields, or names another number of words.
    #[error("BadControl")]
    BadControl,
}
