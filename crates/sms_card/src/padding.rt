//! What stands after a unit to the end of its record.

ghost use Rattle.std.specs.Prelude.{◌≡◌};
ghost use Rattle.sms_field.specs.Reading.Answer.{Sees};
ghost use Rattle.sms_card.specs.Padding.{padding, anything};

use crate::fault::RecordFault;
use sms_field::{Cursor, Fault};

/// The octet that fills a record (TS 51.011, 10.5.3).
pub const PAD: u8 = 0xff;

/// Passes FF to the end.
pub fn padding_at(input: &mut Cursor) -> Result<(), Fault<RecordFault>>
    ensures { Sees padding input.old result input.new }
{
    while let [first, ..] = input.rest() {
        let place = input.place();
        if *first != PAD {
            return Err(Fault {
                place,
                why: RecordFault::NotPadding,
            });
        }
        input.take_octet::<RecordFault>()?;
    }
    Ok(())
}

/// Passes any octets to the end.
pub fn anything_at(input: &mut Cursor) -> Result<(), Fault<RecordFault>>
    ensures { Sees anything input.old result input.new }
{
    let count = input.rest().len();
    input.take_octets::<RecordFault>(count)?;
    Ok(())
}
