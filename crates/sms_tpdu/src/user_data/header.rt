//! User data headers.

ghost use Rattle.std.specs.Prelude.{◌≡◌, ◌<◌, ◌≤◌, ◌++◌, length, Option, Some, IfOk, IsOk, OnOk};
ghost use Rattle.sms_tpdu.specs.UserData.Header.{header};
ghost use Rattle.sms_tpdu.specs.declared.user_data.concat.Concat.{Concat};
ghost use Rattle.sms_tpdu.specs.declared.user_data.concat.Width.TheVariants.{Eight};
ghost use Rattle.sms_tpdu.specs.UserData.Elements.{element_octets};
ghost use Rattle.sms_tpdu.specs.UserData.ConcatenationFound.{IsPlace, concat_of_header};
ghost use Rattle.sms_tpdu.specs.UserData.Concatenation.{concat_element, IsInOrder, ToldBy, IsConcatOf};

use crate::fault::UnitFault;
use crate::unit::Unit;
use crate::user_data::concat::{Concat, Width};
use crate::user_data::view::header::HeaderView;
use crate::view::View;
use arrayvec::ArrayVec;
use sms_field::{Cursor, Refusal};
use std::alloc::{AllocError, Global};
use std::marker::Model;

/// The most octets of a header, its length octet apart (3GPP TS 23.040, 9.2.3.24).
pub const HEADER_MAX: u8 = 139;

/// The most octets of a header that lie in the value itself. A concatenation takes 5 or 6.
const FEW_MAX: usize = 16;

/// The octets of a header: few lie in the value itself, many on the heap.
#[derive(Drop)]
enum HeaderOctets {
    Few(ArrayVec<u8, FEW_MAX>),
    Many(Vec<u8>),
}

/// A user data header, UDH: the octets after its length octet, at most 139 (3GPP TS 23.040,
/// 9.2.3.24).
///
/// Contracts see it as the list of these octets.
#[derive(Drop)]
pub struct Header {
    octets: HeaderOctets,
}

impl Model for Header {
    ghost use Rattle.std.specs.Prelude.{ℕ, List};
    ghost use Rattle.sms_tpdu.specs.UserData.Header.{IsHeader};
    ghost use Rattle.sms_tpdu.specs.Inside.HeaderOctets.{octets_held};

    ghost Value = { List ℕ };

    ghost view = { λ h. octets_held h.octets };

    ghost invariant = { λ h. IsHeader (octets_held h.octets) };
}

impl Header {
    /// The header of these octets, which are those after the length octet.
    pub fn new(octets: Vec<u8>) -> Header
        requires { length octets.items ≤ HEADER_MAX }
        ensures { result ≡ octets.items }
    {
        Header {
            octets: HeaderOctets::Many(octets),
        }
    }

    /// The header of a copy of these octets, which are those after the length octet. Up to 16 take
    /// no memory.
    pub fn from_slice(alloc: Global, octets: &[u8]) -> Result<Header, AllocError>
        requires { length octets.now ≤ HEADER_MAX }
        ensures octets { IfOk result (λ h. h ≡ octets.now) }
        ensures succeeds { length octets.now ≤ 16 → IsOk result }
    {
        match ArrayVec::try_from(octets) {
            Ok(few) => Ok(Header {
                octets: HeaderOctets::Few(few),
            }),
            Err(_) => Ok(Header::new(Vec::from_slice(alloc, octets)?)),
        }
    }

    /// The header of a segment of a concatenated message.
    ///
    /// It tells the place where the sequence is 1 to the maximum. It takes no memory.
    pub fn of(alloc: Global, concat: Concat) -> Result<Header, AllocError>
        requires { concat.width ≡ Eight → concat.reference < 256 }
        ensures octets { IfOk result (λ h. h ≡ element_octets (concat_element concat)) }
        ensures told { IfOk result (λ h. IsInOrder concat → IsConcatOf h (Some concat)) }
        ensures succeeds { IsOk result }
    {
        header_of_element(alloc, concat)
    }

    /// The octets after the length octet.
    pub fn as_slice(&self) -> &[u8]
        ensures value { result.now ≡ self.now }
        ensures few { length result.now ≤ HEADER_MAX }
    {
        match &self.octets {
            HeaderOctets::Few(octets) => octets.as_slice(),
            HeaderOctets::Many(octets) => octets.as_slice(),
        }
    }

    /// The octets after the length octet, in a vector. Up to 16 may lie in the value itself, and
    /// take memory; more are handed on as they lie.
    pub fn into_vec(self, alloc: Global) -> Result<Vec<u8>, AllocError>
        ensures octets { IfOk result (λ octets. octets.items ≡ self) }
        ensures succeeds { 16 < length self → IsOk result }
    {
        match self.octets {
            HeaderOctets::Few(octets) => Vec::from_slice(alloc, octets.as_slice()),
            HeaderOctets::Many(octets) => Ok(octets),
        }
    }

    /// The place of a segment that the header tells, if it tells one.
    ///
    /// Of several elements that tell one the last counts. An element whose sequence is not 1 to its
    /// maximum tells none; nor does a header whose last element is cut.
    pub fn concat(&self) -> Option<Concat>
        ensures told { IsConcatOf self.now result }
        ensures only { (other : Option Concat) → IsConcatOf self.now other → other ≡ result }
        ensures value { result ≡ concat_of_header (Some self.now) }
        ensures in_range { IsPlace result }
    {
        HeaderView::new(self.as_slice()).concat()
    }

    /// The same header. Up to 16 octets take no memory.
    pub fn copy(&self, alloc: Global) -> Result<Header, AllocError>
        ensures octets { IfOk result (λ h. h ≡ self.now) }
        ensures succeeds { length self.now ≤ 16 → IsOk result }
    {
        Header::from_slice(alloc, self.as_slice())
    }
}

/// The header of the element that tells the place of a segment.
fn header_of_element(alloc: Global, concat: Concat) -> Result<Header, AllocError>
    requires { concat.width ≡ Eight → concat.reference < 256 }
    ensures octets { IfOk result (λ h. h ≡ element_octets (concat_element concat)) }
    ensures succeeds { IsOk result }
{
    let (reference, maximum, sequence) = (concat.reference, concat.maximum, concat.sequence);
    match concat.width {
        Width::Eight => { Header::from_slice(alloc, &[0, 3, reference as u8, maximum, sequence]) }
        Width::Sixteen => Header::from_slice(
            alloc,
            &[
                8,
                4,
                (reference / 256) as u8,
                (reference % 256) as u8,
                maximum,
                sequence,
            ],
        ),
    }
}

/// The length octet and the octets; a length above 139 is `UnitFault::HeaderTooLong`.
impl Unit for Header {
    ghost use Rattle.sms_tpdu.specs.UserData.Header.{header, SpellsHeader};
    ghost use Rattle.sms_tpdu.specs.Inside.HeaderLaws.{header_laws};

    type Why = UnitFault;

    ghost field = { header };

    ghost spells = { SpellsHeader };

    fn read_at(alloc: Global, input: &mut Cursor) -> Result<Header, Refusal<UnitFault>> {
        let view = HeaderView::read_at(input)?;
        Ok(view.to_value(alloc)?)
    }

    fn write(&self, alloc: Global) -> Result<Vec<u8>, AllocError> {
        let octets = self.as_slice();
        let mut out = Vec::with_capacity(alloc, octets.len() + 1)?;
        out.push(octets.len() as u8)?;
        out.extend_from_slice(octets)?;
        Ok(out)
    }

    ghost laws = { header_laws };
}
