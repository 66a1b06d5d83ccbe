//! What follows from the definitions of user data alone. Each function is empty: its contract is
//! the law.

ghost use Rattle.sms_tpdu.specs.UserData.Alone.{UnitsReadTheSame, AloneComesBack, WholeIsLength, AloneIsKept, AloneIsRewritten};
ghost use Rattle.sms_tpdu.specs.UserData.Singles.{SinglesComeBack, SinglesAreWritten};

/// After its length a unit reads what is read alone under that length; what is written alone is
/// read back under its length, and that is the length of the octets, if fewer than seven bits of
/// them are spare. What is read and written again is read as the same, of as many octets; under an
/// alphabet of octets they are the same octets.
pub fn user_data_alone_are_those_of_a_unit()
    ensures same { UnitsReadTheSame }
    ensures back { AloneComesBack }
    ensures length { WholeIsLength }
    ensures kept { AloneIsKept }
    ensures rewritten { AloneIsRewritten }
{}

/// What is written a septet an octet is read back, and nothing else is read: what is read and
/// written again is the octets that were read.
pub fn single_septets_come_back()
    ensures back { SinglesComeBack }
    ensures written { SinglesAreWritten }
{}
