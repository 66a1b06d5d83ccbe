//! A list of octets.

ghost use Rattle.std.specs.Prelude.{◌≡◌, IfOk};
ghost use Rattle.sms_text.specs.Octets.{IsOctets};

use std::alloc::{AllocError, Global};
use std::marker::Model;

/// Octets in their order. Contracts see them as their list.
#[derive(Debug, Drop)]
pub struct Octets {
    values: Vec<u8>,
}

impl Model for Octets {
    ghost use Rattle.std.specs.Prelude.{ℕ, List};

    ghost Value = { List ℕ };

    ghost view = { λ s. s.values.items };
}

impl Octets {
    /// These octets.
    pub fn new(values: Vec<u8>) -> Octets
        ensures { result ≡ values.items }
    {
        Octets { values }
    }

    /// A copy of these octets.
    pub fn from_slice(alloc: Global, octets: &[u8]) -> Result<Octets, AllocError>
        ensures same { IfOk result (λ copy. copy ≡ octets.now) }
        ensures octets { IfOk result IsOctets }
    {
        Ok(Octets::new(Vec::from_slice(alloc, octets)?))
    }

    /// The octets.
    pub fn as_slice(&self) -> &[u8]
        ensures { result.now ≡ self.now }
    {
        self.values.as_slice()
    }
}
