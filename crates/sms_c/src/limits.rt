//! The octets that are always enough for an answer.

ghost use Rattle.sms_c.specs.Lengths.{AddressTextsFit, PacketsFit, ReportsFit, TextsFit, UnitsFit};

/// Does nothing: its contract says that the numbers of `sms.h` are enough.
#[tactic(auto, using(crate::proofs::Lengths::texts_fit, crate::proofs::Lengths::units_fit, crate::proofs::Lengths::reports_fit, crate::proofs::Lengths::packets_fit, crate::proofs::Lengths::address_texts_fit))]
pub fn answers_fit()
    ensures texts { TextsFit }
    ensures units { UnitsFit }
    ensures reports { ReportsFit }
    ensures packets { PacketsFit }
    ensures addresses { AddressTextsFit }
{}
