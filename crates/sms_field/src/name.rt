//! The name in an alphanumeric address.

ghost use Rattle.std.specs.Prelude.{◌≡◌, ℕ, ◌≤◌, ◌∷◌, ◌++◌, length, IfOk, OnOk, OnErr};
ghost use Rattle.sms_text.specs.Bits.{AreSeptets};
ghost use Rattle.sms_field.specs.Address.NameOctets.{IsName, name_octets};
ghost use Rattle.sms_field.specs.Address.Padded.{padded};
ghost use Rattle.std.specs.Prelude.{nat_eq};
ghost use Rattle.std.specs.Cmp.Lexicographic.{pointwise};
ghost use Rattle.std.specs.Cmp.Rules.{comparing, hashing};
ghost use Rattle.std.specs.Hash as fed;
ghost use Rattle.std.proofs.Common.{rules};

use arrayvec::ArrayVec;
use sms_text::pack_into;
use std::alloc::{AllocError, Global};
use std::fmt::{self, Debug, Formatter};
use std::hash::{Hash, Hasher};
use std::marker::Model;

/// The most septets of a name (3GPP TS 23.040, 9.1.2.5).
pub const NAME_MAX: usize = 11;

/// A name: up to 11 septets of the 7-bit default alphabet. They lie in the value itself.
#[derive(Drop)]
pub struct Name {
    /// They lie at the front. Behind them is 0.
    septets: [u8; NAME_MAX],
    /// How many of them there are.
    count: u8,
}

impl Model for Name {
    ghost use Rattle.std.specs.Prelude.{◌≡◌, ◌≤◌, ℕ, List, take};

    ghost Value = { List ℕ };

    ghost use Rattle.sms_field.specs.Address.NameOctets.{IsName};
    ghost use Rattle.sms_field.specs.Address.Padded.{padded};

    ghost view = { λ n. take n.count n.septets };

    ghost invariant = { λ n. (n.count ≤ 11) × IsName (take n.count n.septets)
        × (n.septets ≡ padded 11 (take n.count n.septets)) };
}

impl Debug for Name {
    fn fmt<W: fmt::Write>(&self, f: &mut Formatter<W>) -> fmt::Result {
        f.debug_struct("Name")
            .field("septets", &self.as_slice())
            .finish()
    }
}

impl PartialEq for Name {
    ghost eq = { λ a b. pointwise nat_eq a b };

    ghost laws = { Prim.search (comparing, rules) };

    fn eq(&self, other: &Name) -> bool {
        self.count == other.count && self.septets == other.septets
    }
}

impl Eq for Name {
    ghost laws = { Prim.search (comparing, rules) };
}

impl Hash for Name {
    ghost hash_input = { λ a. fed.slice fed.u8 a };

    ghost respects_eq = { Prim.search (hashing, rules) };

    fn hash<H: Hasher>(&self, state: &mut H) {
        self.as_slice().hash(state);
    }
}

impl Name {
    /// The name of these septets.
    pub fn new(septets: &[u8]) -> Name
        requires { IsName septets.now }
        ensures { result ≡ septets.now }
    {
        let mut room = [0; NAME_MAX];
        room[..septets.len()].copy_from_slice(septets);
        Name {
            septets: room,
            count: septets.len() as u8,
        }
    }

    /// The name of the septets that lie in this room.
    pub(crate) fn of(septets: ArrayVec<u8, NAME_MAX>) -> Name
        requires { IsName septets.items }
        ensures { result ≡ septets.items }
    {
        Name::new(septets.as_slice())
    }

    /// The septets, each below 128.
    pub fn as_slice(&self) -> &[u8]
        ensures value { result.now ≡ self.now }
        ensures few { length result.now ≤ NAME_MAX }
        ensures each { AreSeptets result.now }
    {
        &self.septets[..usize::from(self.count)]
    }

    /// The room that the septets lie in: they are at its front, and behind them it holds 0.
    #[inline(always)]
    pub fn as_room(&self) -> &[u8; NAME_MAX]
        ensures value { result.now ≡ padded 11 self.now }
        ensures few { length self.now ≤ NAME_MAX }
    {
        &self.septets
    }

    /// The same name.
    pub fn copy(&self) -> Name
        ensures { result ≡ self.now }
    {
        Name {
            septets: self.septets,
            count: self.count,
        }
    }
}

/// Adds two octets, and those of a name.
pub fn put_name(out: &mut Vec<u8>, first: u8, second: u8, name: &Name) -> Result<(), AllocError>
    ensures ok { OnOk result (out.new.items ≡ out.old.items ++
        first ∷ second ∷ name_octets name.now) }
    ensures err { OnErr result (out.new.items ≡ out.old.items) }
{
    let septets = name.as_slice();
    out.reserve(2 + septets.len() + 1)?;
    out.push_reserved(first);
    out.push_reserved(second);
    pack_into(out, septets, 0)?;
    Ok(())
}
