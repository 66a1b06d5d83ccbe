//! Which way a packet goes.

/// A way: up to the centre, and not down to the phone; and the phone that it comes from or goes to.
#[derive(Clone, Copy, Debug)]
pub(crate) struct Way {
    pub up: bool,
    pub phone: usize,
}
