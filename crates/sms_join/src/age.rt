//! For how long sets may stay open.

ghost use Rattle.std.specs.Prelude.{◌≡◌, ◌+◌, nat_le};

/// For how many seconds a set may be open where nothing else is said: seven days.
pub(crate) const LONGEST_OPEN: u64 = 604_800;

/// How old a set may become by a moment.
#[derive(Clone, Copy)]
pub(crate) struct Age {
    /// The moment, in seconds.
    pub(crate) now: u64,
    /// Where this many seconds have gone since its first piece, a set is old.
    pub(crate) longest: u64,
}

impl Age {
    /// Seven days.
    pub(crate) fn week(now: u64) -> Age
        ensures { result ≡ record { now = now; longest = 604800 } }
    {
        Age {
            now,
            longest: LONGEST_OPEN,
        }
    }

    /// Whether a set that was opened at a moment is old.
    pub(crate) fn is_past(self, opened: u64) -> bool
        ensures { result ≡ nat_le (opened + self.longest) self.now }
    {
        match self.now.checked_sub(opened) {
            None => false,
            Some(passed) => passed >= self.longest,
        }
    }
}
