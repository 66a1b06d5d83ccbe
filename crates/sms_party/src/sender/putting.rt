//! Which segment a sender puts out.

/// Which segment a sender puts out.
#[derive(Clone, Copy, Debug, PartialEq, Eq)]
pub(crate) enum Putting {
    /// The waiting one once more: duplicates are to be rejected.
    Again,
    /// The one after the waiting one, of the same text.
    NextSegment,
    /// The first one of the text after the first.
    NextText,
}
