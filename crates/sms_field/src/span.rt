//! Where a part of the octets lies.

/// Octets in a row of those of an input: the place of the first, and how many there are.
#[derive(Clone, Copy, Debug, PartialEq, Eq)]
pub struct Span {
    pub offset: usize,
    pub length: usize,
}
