//! The first octet of a report: its type, TP-MTI, and whether its data begin with a header,
//! TP-UDHI.

ghost use Rattle.std.specs.Prelude.{◌≡◌};
ghost use Rattle.sms_tpdu.specs.Report.Octet as octets;

use crate::fault::UnitFault;
use sms_field::{bit_weight, has_bit};

/// Whether the data of a report on a submission begin with a header.
pub fn submit_report(octet: u8) -> Result<bool, UnitFault>
    ensures { result ≡ octets.submit_report octet }
{
    if has_bit(octet, 1) || !has_bit(octet, 0) {
        return Err(UnitFault::WrongType);
    }
    Ok(has_bit(octet, 6))
}

/// Whether the data of a report on a delivery begin with a header.
pub fn deliver_report(octet: u8) -> Result<bool, UnitFault>
    ensures { result ≡ octets.deliver_report octet }
{
    if has_bit(octet, 0) || has_bit(octet, 1) {
        return Err(UnitFault::WrongType);
    }
    Ok(has_bit(octet, 6))
}

/// The first octet of a report on a submission.
pub fn submit_report_octet(has_header: bool) -> u8
    ensures { result ≡ octets.submit_report_octet has_header }
{
    bit_weight(0, true) + bit_weight(6, has_header)
}

/// The first octet of a report on a delivery.
pub fn deliver_report_octet(has_header: bool) -> u8
    ensures { result ≡ octets.deliver_report_octet has_header }
{
    bit_weight(6, has_header)
}
