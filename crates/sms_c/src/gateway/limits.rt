//! How much a joiner for many recipients of C keeps.

ghost use Rattle.std.specs.Prelude.{◌≡◌, ◌<◌, true, Some};
ghost use Rattle.sms_join.specs.Gateway.Value.{with_alone};
ghost use Rattle.sms_c.specs.GatewayLimits as given;

use crate::class::{SPARE, are_spare};
use crate::writing::is_set;
use sms_join::{Alone, GatewayLimits};

/// What goes in when a joiner for many recipients is opened.
#[repr(C)]
#[derive(Clone, Copy)]
pub struct Limits {
    /// How many messages of all recipients may be open at a time.
    pub open_max: usize,
    /// How many finished messages of all recipients are remembered.
    pub remembered: usize,
    /// For how many seconds a message may be open.
    pub open_for: u64,
    /// For how many seconds a finished message is remembered; with 0 as long as it is among the
    /// last.
    pub remember_for: u64,
    /// The one half of the seed, where there is one.
    pub seed_low: u64,
    /// The other.
    pub seed_high: u64,
    /// Whether there is a seed: 0 is no, all else yes.
    pub has_seed: u8,
    /// Whether messages in one piece are passed: 0 is no, all else yes.
    pub pass_alone: u8,
    /// All 0.
    pub spare: [u8; SPARE],
}

/// Whether there may be such limits.
pub fn fits(limits: &Limits) -> bool
    ensures { result ≡ given.fits_limits limits.now }
{
    limits.open_max != 0 && limits.remembered != 0 && are_spare(&limits.spare)
}

/// What becomes of messages in one piece.
fn alone_of(limits: &Limits) -> Alone
    ensures { result ≡ given.alone_of limits.now.pass_alone }
{
    if is_set(limits.pass_alone) {
        Alone::Passed
    } else {
        Alone::Remembered
    }
}

/// The limits of the joiner.
pub fn limits_of(limits: &Limits) -> GatewayLimits
    requires { given.fits_limits limits.now ≡ true }
    ensures { result ≡ given.limits_of limits.now }
{
    let told = GatewayLimits::new(limits.open_max, limits.remembered)
        .alone(alone_of(limits))
        .open_for(limits.open_for);
    if limits.remember_for == 0 {
        return told;
    }
    told.remember_for(limits.remember_for)
}

/// The seed by which the tables hash, if there is one.
pub fn seed_of(limits: &Limits) -> Option<u128> {
    if !is_set(limits.has_seed) {
        return None;
    }
    Some(u128::from(limits.seed_high) << 64 | u128::from(limits.seed_low))
}
