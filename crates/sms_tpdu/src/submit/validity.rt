//! The validity period of a submission, in the format that its first octet names.

ghost use Rattle.std.specs.Prelude.{◌≡◌, ◌++◌, OnOk, IfOk};
ghost use Rattle.sms_field.specs.Field.{octets_of};
ghost use Rattle.sms_field.specs.Reading.Answer.{Sees};
ghost use Rattle.sms_field.specs.Time.Stamp.{IsStamp};
ghost use Rattle.sms_tpdu.specs.declared.fault.UnitFault.TheVariants.{Short};
ghost use Rattle.sms_tpdu.specs.Submit.ValidityPeriod as formats;
ghost use Rattle.sms_tpdu.specs.Submit.ValidityPeriod.{validity, format_of, validity_octets, IsInRange};

use crate::fault::UnitFault;
use sms_field::{Cursor, Fault, Stamp, Validity};
use std::alloc::AllocError;

/// TP-VPF: how a submission gives its validity period (TS 23.040, 9.2.3.3). The bits are 4 and 3 of
/// the first octet.
#[derive(Clone, Copy, Debug, PartialEq, Eq)]
pub enum ValidityFormat {
    /// Bits 00: there is no TP-VP.
    Absent,
    /// Bits 10: TP-VP is one octet.
    Relative,
    /// Bits 01: TP-VP is seven octets in the enhanced format.
    Enhanced,
    /// Bits 11: TP-VP is a stamp.
    Absolute,
}

impl ValidityFormat {
    /// The format that bits 4 and 3 of the first octet name.
    pub fn from_bits(high: bool, low: bool) -> ValidityFormat
        ensures { result ≡ formats.validity_format high low }
    {
        match (high, low) {
            (false, false) => ValidityFormat::Absent,
            (true, false) => ValidityFormat::Relative,
            (false, true) => ValidityFormat::Enhanced,
            (true, true) => ValidityFormat::Absolute,
        }
    }

    /// Bits 4 and 3 of the first octet.
    pub fn to_bits(self) -> (bool, bool)
        ensures { result ≡ formats.format_bits self }
    {
        match self {
            ValidityFormat::Absent => (false, false),
            ValidityFormat::Relative => (true, false),
            ValidityFormat::Enhanced => (false, true),
            ValidityFormat::Absolute => (true, true),
        }
    }

    /// The format of a validity period.
    pub fn of(period: &Validity) -> ValidityFormat
        ensures { result ≡ format_of period.now }
    {
        match period {
            Validity::Absent => ValidityFormat::Absent,
            Validity::Relative(_) => ValidityFormat::Relative,
            Validity::Enhanced(_) => ValidityFormat::Enhanced,
            Validity::Absolute(_) => ValidityFormat::Absolute,
        }
    }
}

/// TP-VP of seven octets in the enhanced format.
fn enhanced_at(input: &mut Cursor) -> Result<[u8; 7], Fault<UnitFault>>
    ensures in_range { IfOk result IsStamp }
    ensures read { Sees (octets_of Short 7) input.old result input.new }
{
    let stamp = Stamp::read_at(input)?;
    Ok(stamp.octets())
}

/// TP-VP in a format.
#[tactic(auto, unfolding(crate::specs::Submit::ValidityPeriod::validity))]
pub fn validity_at(input: &mut Cursor, format: ValidityFormat) -> Result<Validity, Fault<UnitFault>>
    ensures in_range { IfOk result IsInRange }
    ensures read { Sees (validity format) input.old result input.new }
{
    match format {
        ValidityFormat::Absent => Ok(Validity::Absent),
        ValidityFormat::Relative => {
            let octet = input.take_octet()?;
            Ok(Validity::Relative(octet))
        }
        ValidityFormat::Enhanced => {
            let octets = enhanced_at(input)?;
            Ok(Validity::Enhanced(octets))
        }
        ValidityFormat::Absolute => {
            let stamp = Stamp::read_at(input)?;
            Ok(Validity::Absolute(stamp))
        }
    }
}

/// Adds the octets of TP-VP.
pub fn put_validity(out: &mut Vec<u8>, period: &Validity) -> Result<(), AllocError>
    ensures { OnOk result (out.new.items ≡ out.old.items ++ validity_octets period.now) }
{
    match period {
        Validity::Absent => {}
        Validity::Relative(octet) => out.push(*octet)?,
        Validity::Enhanced(octets) => out.extend_from_slice(octets)?,
        Validity::Absolute(stamp) => out.extend_from_slice(&stamp.octets())?,
    }
    Ok(())
}
