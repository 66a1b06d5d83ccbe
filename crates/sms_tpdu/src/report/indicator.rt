//! The parameter indicator of a report, TP-PI.

ghost use Rattle.std.specs.Prelude.{◌≡◌};
ghost use Rattle.sms_field.specs.Bit.{bit};
ghost use Rattle.sms_field.specs.Reading.Answer.{Sees};
ghost use Rattle.sms_tpdu.specs.Report.ParameterIndicator.{further, indicated, indicator, indicator_octet};
ghost use Rattle.sms_tpdu.specs.declared.fault.UnitFault.TheVariants.{Short};

use crate::fault::UnitFault;
use sms_field::{Cursor, Fault, bit_weight, has_bit};

/// TP-PI: which parts of a report are there (TS 23.040, 9.2.3.27).
#[derive(Clone, Copy)]
pub struct Indicator {
    /// Bit 0: TP-PID is there.
    pub pid: bool,
    /// Bit 1: TP-DCS is there.
    pub dcs: bool,
    /// Bit 2: TP-UDL and TP-UD are there.
    pub user: bool,
}

impl Indicator {
    /// What the first octet of an indicator says.
    fn from_octet(octet: u8) -> Indicator
        ensures { result ≡ indicated octet }
    {
        Indicator {
            pid: has_bit(octet, 0),
            dcs: has_bit(octet, 1),
            user: has_bit(octet, 2),
        }
    }

    /// The one octet that is written.
    pub fn to_octet(self) -> u8
        ensures { result ≡ indicator_octet self }
    {
        bit_weight(0, self.pid) + bit_weight(1, self.dcs) + bit_weight(2, self.user)
    }
}

/// Skips the octets of an indicator that follow its first one.
fn skip_further(input: &mut Cursor, first: u8) -> Result<(), Fault<UnitFault>>
    ensures { Sees (further Short (bit 7 first)) input.old result input.new }
{
    let mut last = first;
    while has_bit(last, 7) {
        last = input.take_octet()?;
    }
    Ok(())
}

/// An indicator, of as many octets as it has.
#[tactic(auto, unfolding(crate::specs::Report::ParameterIndicator::indicator))]
pub fn indicator_at(input: &mut Cursor) -> Result<Indicator, Fault<UnitFault>>
    ensures { Sees indicator input.old result input.new }
{
    let first = input.take_octet()?;
    skip_further(input, first)?;
    Ok(Indicator::from_octet(first))
}
