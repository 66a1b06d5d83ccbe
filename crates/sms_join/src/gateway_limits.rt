//! How much a joiner for many recipients keeps.

ghost use Rattle.std.specs.Prelude.{◌≡◌, ◌<◌, ℕ, List, Option, None};
ghost use Rattle.sms_field.specs.Address.Value.{AddressValue};
ghost use Rattle.sms_join.specs.Piece.{key_to};
ghost use Rattle.sms_join.specs.Gateway.Value.{with_alone, with_open_for, with_remember_for};
ghost use Rattle.sms_join.specs.Gateway.Answers.{is_passed};
ghost use Rattle.sms_join.specs.declared.gateway_limits.Alone.TheVariants.{Remembered};

use crate::age::LONGEST_OPEN;
use sms_tpdu::Concat;
use std::marker::Model;

/// What becomes of a message in one piece, which has no place among segments.
#[derive(Clone, Copy, Debug, PartialEq, Eq)]
pub enum Alone {
    /// It is remembered, so that a second one of its recipient, origin and time stamp is a repeat.
    Remembered,
    /// It is passed: it finishes with its text each time it comes.
    Passed,
}

impl Alone {
    /// Whether a message of such a place, or of none, is passed.
    pub(crate) fn passes(self, concat: Option<Concat>) -> bool
        ensures { (to : Option AddressValue) (origin : AddressValue) (stamp : List ℕ)
            → result ≡ is_passed self (key_to to origin stamp concat) }
    {
        match (self, concat) {
            (Alone::Passed, None) => true,
            _ => false,
        }
    }
}

/// How many sets may be open and for how long, how many keys are remembered and for how long, and
/// what becomes of messages in one piece.
#[derive(Clone, Copy, Debug)]
pub struct GatewayLimits {
    open_max: usize,
    remembered: usize,
    alone: Alone,
    open_for: u64,
    remember_for: Option<u64>,
}

impl Model for GatewayLimits {
    ghost use Rattle.std.specs.Prelude.{◌<◌};
    ghost use Rattle.sms_join.specs.Gateway.Value.{LimitsValue};

    ghost Value = { LimitsValue };

    ghost view = { λ l. record {
      open_max = l.open_max;
      remembered = l.remembered;
      alone = l.alone;
      open_for = l.open_for;
      remember_for = l.remember_for;
    } };

    ghost inverse = { λ v. record {
      open_max = v.open_max;
      remembered = v.remembered;
      alone = v.alone;
      open_for = v.open_for;
      remember_for = v.remember_for;
    } };

    ghost invariant = { λ l. (0 < l.open_max) × (0 < l.remembered) };
}

impl GatewayLimits {
    /// At most `open_max` open sets and `remembered` keys. Messages in one piece are remembered, a
    /// set may be open for 604,800 seconds, and no key is forgotten by its age. Both numbers must
    /// be above 0.
    pub fn new(open_max: usize, remembered: usize) -> GatewayLimits
        requires sets { 0 < open_max }
        requires keys { 0 < remembered }
        ensures { result ≡ record {
          open_max = open_max;
          remembered = remembered;
          alone = Remembered;
          open_for = 604800;
          remember_for = None;
        } }
    {
        GatewayLimits {
            open_max,
            remembered,
            alone: Alone::Remembered,
            open_for: LONGEST_OPEN,
            remember_for: None,
        }
    }

    /// The same, where this becomes of messages in one piece.
    pub fn alone(self, alone: Alone) -> GatewayLimits
        ensures { result ≡ with_alone self alone }
    {
        GatewayLimits { alone, ..self }
    }

    /// The same, where sets may be open for so many seconds.
    pub fn open_for(self, seconds: u64) -> GatewayLimits
        ensures { result ≡ with_open_for self seconds }
    {
        GatewayLimits {
            open_for: seconds,
            ..self
        }
    }

    /// The same, where a key is forgotten so many seconds after its message finished.
    pub fn remember_for(self, seconds: u64) -> GatewayLimits
        ensures { result ≡ with_remember_for self seconds }
    {
        GatewayLimits {
            remember_for: Some(seconds),
            ..self
        }
    }

    /// How many sets may be open.
    pub fn open_max(&self) -> usize
        ensures is { result ≡ self.now.open_max }
        ensures some { 0 < result }
    {
        self.open_max
    }

    /// How many keys are remembered.
    pub fn remembered(&self) -> usize
        ensures is { result ≡ self.now.remembered }
        ensures some { 0 < result }
    {
        self.remembered
    }

    /// For how many seconds a set may be open.
    pub fn longest_open(&self) -> u64
        ensures { result ≡ self.now.open_for }
    {
        self.open_for
    }

    /// For how many seconds a key is remembered, where keys are forgotten by their age.
    pub fn longest_remembered(&self) -> Option<u64>
        ensures { result ≡ self.now.remember_for }
    {
        self.remember_for
    }

    /// What becomes of messages in one piece.
    pub fn of_alone(&self) -> Alone
        ensures { result ≡ self.now.alone }
    {
        self.alone
    }
}
