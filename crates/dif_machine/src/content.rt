//! What registers hold.

/// What a register holds, as a word.
#[derive(Clone, Copy, Debug)]
pub(crate) enum Content {
    /// Nothing.
    Unset,
    /// An integer.
    Int(u64),
    /// The number of a text.
    Text(u64),
}
