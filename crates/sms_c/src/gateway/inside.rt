//! What a joiner for many recipients of C holds.

ghost use Rattle.std.specs.Prelude.{◌≡◌};
ghost use Rattle.sms_c.specs.Changes.{next_number};

use sms_join::Gateway;

/// A joiner for many recipients, the text that finished last, and a number that no cursor has which
/// began before the last change.
#[derive(Drop)]
pub struct Inside {
    pub gateway: Gateway,
    pub text: String,
    /// 1, and one more for each offer that was taken and each aging.
    pub changes: u64,
}

impl Inside {
    /// Counts a change.
    pub fn count_change(&mut self)
        ensures { self.new ≡ record self.old { changes = next_number self.old.changes } }
    {
        self.changes = self.changes.saturating_add(1);
    }
}
