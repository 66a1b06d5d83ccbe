//! The octets of an address.

ghost use Rattle.std.specs.Prelude.{◌≡◌, ◌+◌, ◌≤◌, ◌↔◌, length, take, IsSome, IfSome};
ghost use Rattle.sms_saved.specs.Spelling.{address};

use std::fmt::{self, Debug, Formatter};
use std::marker::Model;

/// The most octets of an address: its length, its type and ten of its value (3GPP TS 23.040,
/// 9.1.2.5).
pub const ADDRESS_MAX: usize = 12;

/// The octets of an address in the form of TP-OA, at most `ADDRESS_MAX`, be they well formed or
/// not. They lie in the value itself.
#[derive(Drop)]
pub struct AddressOctets {
    octets: [u8; ADDRESS_MAX],
    /// How many of them there are.
    count: u8,
}

impl Model for AddressOctets {
    ghost use Rattle.std.specs.Prelude.{ℕ, List, take, ◌≤◌};

    ghost Value = { List ℕ };

    ghost view = { λ a. take a.count a.octets };

    ghost invariant = { λ a. a.count ≤ 12 };
}

impl Debug for AddressOctets {
    fn fmt<W: fmt::Write>(&self, f: &mut Formatter<W>) -> fmt::Result {
        f.debug_struct("AddressOctets")
            .field("octets", &self.as_slice())
            .finish()
    }
}

impl AddressOctets {
    /// These octets, or `None` where they are too many.
    pub fn new(octets: &[u8]) -> Option<AddressOctets>
        ensures few { IsSome result ↔ (length octets.now ≤ ADDRESS_MAX) }
        ensures value { IfSome result (λ a. a ≡ octets.now) }
    {
        if octets.len() > ADDRESS_MAX {
            return None;
        }
        Some(AddressOctets::of(octets))
    }

    /// The octets at the front of this room, as many as are counted.
    #[inline(always)]
    pub fn in_room(octets: [u8; ADDRESS_MAX], count: u8) -> AddressOctets
        requires { count ≤ ADDRESS_MAX }
        ensures { result ≡ take count octets }
    {
        AddressOctets { octets, count }
    }

    /// These octets, of which there are few enough.
    pub(crate) fn of(octets: &[u8]) -> AddressOctets
        requires { length octets.now ≤ ADDRESS_MAX }
        ensures { result ≡ octets.now }
    {
        let mut room = [0; ADDRESS_MAX];
        room[..octets.len()].copy_from_slice(octets);
        AddressOctets {
            octets: room,
            count: octets.len() as u8,
        }
    }

    /// How many octets there are, and these, at the front of a room.
    #[inline(always)]
    pub(crate) fn spelled(&self) -> [u8; ADDRESS_MAX + 1]
        ensures { take (1 + length self.now) result ≡ address self.now }
    {
        let mut room = [0; ADDRESS_MAX + 1];
        room[0] = self.count;
        room[1..].copy_from_slice(&self.octets);
        room
    }

    /// The octets.
    pub fn as_slice(&self) -> &[u8]
        ensures value { result.now ≡ self.now }
        ensures few { length result.now ≤ ADDRESS_MAX }
    {
        &self.octets[..usize::from(self.count)]
    }
}
