//! The clock of a joiner that was read back.

ghost use Rattle.std.specs.Prelude.{◌≡◌};

use sms_join::Gateway;
use sms_stream::Clock;

/// The clock after the messages that a joiner remembers, the oldest first: each counts as a unit of
/// its origin that came when it finished. At the moment 0 no clock was set.
fn clock_of_keys(gateway: &Gateway) -> Clock {
    let mut clock = Clock::new();
    let count = gateway.remembered_count();
    for later in 1..=count {
        match gateway.remembered_at(count - later) {
            Some(own) if own.moment > 0 => clock.take(own.key.origin(), own.moment),
            _ => {}
        }
    }
    clock
}

/// The clock of a joiner that was read back, where its first unit is still to come: after the
/// messages that it remembers, and then its open sets in their order, each a unit that came when it
/// was opened. A set that was opened more than a week ahead moves no clock: it was not believed.
pub fn clock_after(gateway: &Gateway) -> Clock {
    let mut clock = clock_of_keys(gateway);
    for set in gateway.open_sets() {
        if set.moment() > 0 {
            clock.take_near(set.key().origin(), set.moment());
        }
    }
    clock
}
