//! Addresses in RP messages.

ghost use Rattle.std.specs.Prelude.{◌≡◌, ◌++◌, IfOk, OnOk, option_copied};
ghost use Rattle.sms_field.specs.Field.{map_reason};
ghost use Rattle.sms_field.specs.RelayAddress.{relay_address, optional_address_octets};
ghost use Rattle.sms_field.specs.RelayAddress.Value.{HasRelaySpelling, HasOptionalSpelling};
ghost use Rattle.sms_field.specs.Reading.Answer.{Sees};
ghost use Rattle.sms_relay.specs.Fault.{relay_fault};

use crate::fault::RelayFault;
use sms_field::{Cursor, Fault, RpAddress, RpAddressView};
use std::alloc::AllocError;

/// An address, or none, refused for a message's reasons.
pub fn address_seen_at<'a>(
    input: &mut Cursor<'a>,
) -> Result<Option<RpAddressView<'a>>, Fault<RelayFault>>
    ensures fits { IfOk result HasOptionalSpelling }
    ensures read { Sees (map_reason relay_fault relay_address) input.old result input.new }
{
    RpAddressView::read_at(input).map_err(Fault::map_reason)
}

/// Does nothing: its contract says that an address has a spelling.
#[inline(always)]
fn has_spelling(address: &RpAddress)
    ensures { HasRelaySpelling address.now }
{
    let _kind = address.type_of_number;
}

/// Adds the octets of an address that is lent, or of none.
pub fn put_some_address(out: &mut Vec<u8>, address: Option<&RpAddress>) -> Result<(), AllocError>
    ensures fits { OnOk result (HasOptionalSpelling (option_copied address.entry)) }
    ensures added { OnOk result (out.new.items
        ≡ out.old.items ++ optional_address_octets (option_copied address.entry)) }
{
    match address {
        Some(address) => {
            has_spelling(address);
            address.write_to(out)
        }
        None => {
            out.push(0)?;
            Ok(())
        }
    }
}

/// Adds the octets of an address, or of none.
pub fn put_address(out: &mut Vec<u8>, address: &Option<RpAddress>) -> Result<(), AllocError>
    ensures { OnOk result (out.new.items ≡ out.old.items ++ optional_address_octets address.now) }
{
    put_some_address(out, address.as_ref())
}
