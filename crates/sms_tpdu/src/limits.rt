//! The limits of the code that definitions name, as numbers.

ghost use Rattle.std.specs.Prelude.{◌≡◌};
ghost use Rattle.sms_tpdu.specs.declared.report.parts.TheConstants.{REPORT_DATA_MAX};
ghost use Rattle.sms_tpdu.specs.declared.user_data.header.TheConstants.{HEADER_MAX};
ghost use Rattle.sms_tpdu.specs.declared.user_data.lengths.TheConstants.{OCTETS_MAX, SEPTETS_MAX};

/// The limits that the definitions name: the septets and the octets of TP-User-Data (3GPP TS
/// 23.040, 9.2.3.16 and 9.2.3.24), the octets of its header behind the length octet (9.2.3.24: 140
/// with it), and the octets of a report's data (9.2.2.1a and 9.2.2.2a).
pub fn limits_are_told()
    ensures septets { SEPTETS_MAX ≡ 160 }
    ensures octets { OCTETS_MAX ≡ 140 }
    ensures header { HEADER_MAX ≡ 139 }
    ensures report { REPORT_DATA_MAX ≡ 159 }
{}
