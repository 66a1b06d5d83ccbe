//! How long a gateway's joiner remembers keys. The function is empty: its contract is the law.

ghost use Rattle.sms_join.specs.Gateway.InTime.{RemembersInTime};

/// An aging leaves each key of which a finishing is not as long ago as keys are remembered, and no
/// other: so such a piece is a repeat still, and any other one joins anew.
pub fn remembers_in_time()
    ensures { RemembersInTime }
{}
