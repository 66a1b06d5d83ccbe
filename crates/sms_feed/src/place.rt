//! Where lines lie.

/// Where a line ends.
#[derive(Clone, Copy)]
pub(crate) struct End {
    /// How many octets it has.
    pub length: usize,
    /// Whether a line feed follows.
    pub has_feed: bool,
}

/// Where a line lies.
#[derive(Clone, Copy)]
pub(crate) struct Lies {
    pub start: usize,
    /// Where it ends, counted from there.
    pub end: End,
    /// Whether its front was thrown away.
    pub is_long: bool,
}
