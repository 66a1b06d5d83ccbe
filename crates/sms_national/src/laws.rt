//! What follows from the definitions alone. No function does anything: its contract is the law.

ghost use Rattle.sms_national.specs.Cut.{CutIsReadAsText, HasOneCut};
ghost use Rattle.sms_national.specs.Told.{HeadersTellTables, HeadersTellPlaces};

use sms_language::{parts_are_read_alone, texts_come_back};
use sms_tpdu::laws::elements_are_one;

/// The pieces of a text have its septets, and their texts under its tables together are the text.
pub fn national_cuts_are_read_as_text()
    ensures { CutIsReadAsText }
{
    texts_come_back();
    parts_are_read_alone();
}

/// A text has no second cut under tables.
pub fn national_cuts_are_one()
    ensures { HasOneCut }
{}

/// The header of a segment tells the tables of the text and no others, and the place of the segment
/// where there are other segments.
pub fn national_headers_are_told()
    ensures tables { HeadersTellTables }
    ensures places { HeadersTellPlaces }
{
    elements_are_one();
}
