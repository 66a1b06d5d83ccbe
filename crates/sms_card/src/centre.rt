//! The address of the service centre in a record.

ghost use Rattle.std.specs.Prelude.{◌≡◌, ◌++◌, OnOk};
ghost use Rattle.sms_field.specs.Field.{map_reason};
ghost use Rattle.sms_field.specs.Reading.Answer.{Sees};
ghost use Rattle.sms_field.specs.RelayAddress.{relay_address, optional_address_octets};
ghost use Rattle.sms_field.specs.RelayAddress.Value.{HasRelaySpelling, HasOptionalSpelling};
ghost use Rattle.sms_card.specs.Fault.{centre_fault};

use crate::fault::RecordFault;
use sms_field::{Cursor, Fault, RpAddress, RpAddressView};
use std::alloc::AllocError;

/// An address, or none, refused for a record's reasons.
pub fn centre_at<'a>(
    input: &mut Cursor<'a>,
) -> Result<Option<RpAddressView<'a>>, Fault<RecordFault>>
    ensures { Sees (map_reason centre_fault relay_address) input.old result input.new }
{
    RpAddressView::read_at(input).map_err(Fault::map_reason)
}

/// Does nothing: its contract says that an address has a spelling.
fn address_is_spelled(address: &RpAddress)
    ensures { HasRelaySpelling address.now }
{
    let _kind = address.type_of_number;
}

/// Does nothing: its contract says that an address, or none, has a spelling.
pub fn centre_is_spelled(centre: &Option<RpAddress>)
    ensures { HasOptionalSpelling centre.now }
{
    match centre {
        Some(address) => address_is_spelled(address),
        None => (),
    }
}

/// Adds the octets of an address, or of none.
pub fn put_centre(out: &mut Vec<u8>, centre: &Option<RpAddress>) -> Result<(), AllocError>
    ensures { OnOk result (out.new.items ≡ out.old.items ++ optional_address_octets centre.now) }
{
    match centre {
        Some(address) => address.write_to(out),
        None => {
            out.push(0)?;
            Ok(())
        }
    }
}
