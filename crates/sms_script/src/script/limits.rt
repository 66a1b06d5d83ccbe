//! The limits of a world, and the two settings of its phones.

ghost use Rattle.std.specs.Prelude.{◌≡◌};
ghost use Rattle.sms_script.specs.Script.Limits.{default_limits, with_limit, AreLimits, IsIn};

use crate::meaning::Limit;

/// The limits of a world, and the two settings of its phones.
#[derive(Clone, Copy, Debug, PartialEq, Eq)]
pub struct Limits {
    /// Messages held by the centre, delivered ones included: 1 to 1,000.
    pub held: usize,
    /// Open sets of a phone: 1 to 16.
    pub open_max: usize,
    /// Remembered keys of a phone: 1 to 32.
    pub remembered: usize,
    /// Texts in the store of a phone: 1 to 500.
    pub store: usize,
    /// Whether segments have references of 16 bits.
    pub wide: bool,
    /// Whether a submission asks for the rejection of duplicates (TP-RD) from the first one on.
    pub reject: bool,
}

impl Limits {
    /// The greatest limits, with 8-bit references, and no rejection before a repeat.
    pub fn new() -> Limits
        ensures limits { result ≡ default_limits }
        ensures ranges { AreLimits result }
    {
        Limits {
            held: Limit::Held.greatest() as usize,
            open_max: Limit::Open.greatest() as usize,
            remembered: Limit::Remembered.greatest() as usize,
            store: Limit::Store.greatest() as usize,
            wide: false,
            reject: false,
        }
    }

    /// Sets one limit to a number in its range. All limits are in their ranges before.
    pub fn set(&mut self, which: Limit, n: u64)
        requires limits { AreLimits self.old }
        requires range { IsIn which n }
        ensures limits { self.new ≡ with_limit self.old which n }
        ensures ranges { AreLimits self.new }
    {
        match which {
            Limit::Held => self.held = n as usize,
            Limit::Open => self.open_max = n as usize,
            Limit::Remembered => self.remembered = n as usize,
            Limit::Store => self.store = n as usize,
        }
    }
}
