//! Addresses in units.

ghost use Rattle.sms_field.specs.Field.{map_reason};
ghost use Rattle.std.specs.Prelude.{◌≡◌, drop, IfOk};
ghost use Rattle.sms_field.specs.Address.Value.{HasSpelling};
ghost use Rattle.sms_field.specs.Address.{address};
ghost use Rattle.sms_field.specs.Reading.Answer.{Sees};
ghost use Rattle.sms_field.specs.Reading.Lies.{TakesOctets};
ghost use Rattle.sms_tpdu.specs.Fault.{unit_fault};

use crate::fault::UnitFault;
use sms_field::{AddressView, Cursor, Fault, Span};

/// An address, refused for a unit's reasons.
#[inline(always)]
pub fn address_seen_at<'a>(input: &mut Cursor<'a>) -> Result<AddressView<'a>, Fault<UnitFault>>
    ensures read { Sees (map_reason unit_fault address) input.old result input.new }
    ensures fits { IfOk result HasSpelling }
{
    AddressView::read_at(input).map_err(Fault::map_reason)
}

/// Where the address lies that begins after so many octets. Not looked at is whether it can be
/// read.
pub fn address_after(octets: &[u8], before: usize) -> Span
    ensures begins { result.offset ≡ before }
    ensures takes { TakesOctets address (drop before octets.now) result.length }
{
    let (_, after) = octets.split_at(before.min(octets.len()));
    Span {
        offset: before,
        length: AddressView::length_in(after),
    }
}
