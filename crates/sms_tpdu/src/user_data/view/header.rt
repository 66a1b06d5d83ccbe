//! A user data header where it lies in a unit's octets.

ghost use Rattle.std.specs.Prelude.{◌≡◌, ◌≤◌, length, Option, Some, IfOk, IfErr};
ghost use Rattle.sms_field.specs.Reading.{Reads};
ghost use Rattle.sms_field.specs.Reading.WholeAnswer.{IsFaultOf, SeesExactly};
ghost use Rattle.sms_tpdu.specs.UserData.Header.{header};
ghost use Rattle.sms_tpdu.specs.declared.user_data.concat.Concat.{Concat};
ghost use Rattle.sms_tpdu.specs.UserData.ConcatenationFound.{IsPlace, concat_of_header};
ghost use Rattle.sms_tpdu.specs.UserData.Concatenation.{ToldBy, IsConcatOf};
ghost use Rattle.sms_tpdu.specs.declared.fault.UnitFault.TheVariants.{Short};

use crate::fault::UnitFault;
use crate::user_data::concat::{Concat, Width};
use crate::user_data::header::{HEADER_MAX, Header};
use crate::view::{View, see};
use sms_field::{Cursor, Fault};
use std::alloc::{AllocError, Global};
use std::marker::Model;

/// A user data header that lies in a unit's octets. Contracts see it as the octets after its length
/// octet.
#[derive(Drop)]
pub struct HeaderView<'a> {
    octets: &'a [u8],
}

impl<'a> Model for HeaderView<'a> {
    ghost use Rattle.std.specs.Prelude.{ℕ, List};
    ghost use Rattle.sms_tpdu.specs.UserData.Header.{IsHeader};

    ghost Value = { List ℕ };

    ghost view = { λ h. h.octets.now };

    ghost invariant = { λ h. IsHeader h.octets.now };
}

impl<'a> HeaderView<'a> {
    /// The header of these octets, which are those after the length octet.
    #[tactic(auto, using(sms_field::specs::Inside::OctetLists::octets_are))]
    pub fn new(octets: &'a [u8]) -> HeaderView<'a>
        requires { length octets.now ≤ HEADER_MAX }
        ensures { result ≡ octets.now }
    {
        HeaderView { octets }
    }

    /// The octets after the length octet.
    pub fn as_slice(&self) -> &'a [u8]
        ensures value { result.now ≡ self.now }
        ensures few { length result.now ≤ HEADER_MAX }
    {
        self.octets
    }

    /// The place of a segment that the header tells, if it tells one.
    ///
    /// Of several elements that tell one the last counts. An element whose sequence is not 1 to its
    /// maximum tells none; nor does a header whose last element is cut.
    pub fn concat(&self) -> Option<Concat>
        ensures told { IsConcatOf self.now result }
        ensures only { (other : Option Concat) → IsConcatOf self.now other → other ≡ result }
        ensures value { result ≡ concat_of_header (Some self.now) }
        ensures in_range { IsPlace result }
    {
        let mut last = None;
        let mut rest = self.octets;
        while let [identifier, length, after @ ..] = rest {
            let length = *length as usize;
            if after.len() < length {
                return None;
            }
            let (octets, others) = after.split_at(length);
            last = told_by(*identifier, octets).or(last);
            rest = others;
        }
        if rest.is_empty() { last } else { None }
    }

    /// Sees a length octet and the header after it at the front of the octets, and says how many
    /// octets they take.
    pub fn read(input: &'a [u8]) -> Result<(HeaderView<'a>, usize), Fault<UnitFault>>
        ensures found { IfOk result (λ x. Reads header x.0 input.now x.1) }
        ensures refused { IfErr result (IsFaultOf header Short input.now) }
        ensures exact { SeesExactly (λ view. view) header input.now result }
    {
        see(input)
    }
}

/// The place of a segment that an element tells.
fn told_by(identifier: u8, octets: &[u8]) -> Option<Concat>
    ensures { ToldBy (record { identifier = identifier; octets = octets.now }) result }
{
    let concat = match (identifier, octets) {
        (0, [reference, maximum, sequence]) => Concat {
            width: Width::Eight,
            reference: *reference as u16,
            maximum: *maximum,
            sequence: *sequence,
        },
        (8, [high, low, maximum, sequence]) => Concat {
            width: Width::Sixteen,
            reference: u16::from_be_bytes([*high, *low]),
            maximum: *maximum,
            sequence: *sequence,
        },
        _ => return None,
    };
    (1 <= concat.sequence && concat.sequence <= concat.maximum).then_some(concat)
}

/// The length octet and the octets; a length above 139 is `UnitFault::HeaderTooLong`.
impl<'a> View<'a> for HeaderView<'a> {
    type Owned = Header;

    ghost value = { λ h. h };

    #[tactic(auto, unfolding(crate::specs::UserData::Header::header))]
    fn read_at(input: &mut Cursor<'a>) -> Result<HeaderView<'a>, Fault<UnitFault>> {
        let size = input.take_octet_up_to(HEADER_MAX, UnitFault::HeaderTooLong)?;
        let octets = input.take_octets(usize::from(size))?;
        Ok(HeaderView::new(octets))
    }

    fn to_value(&self, alloc: Global) -> Result<Header, AllocError> {
        Header::from_slice(alloc, self.octets)
    }
}
