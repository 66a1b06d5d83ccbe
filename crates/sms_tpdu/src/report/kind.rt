//! What the kind of a report decides: whether it has a failure cause and a stamp, and its first
//! octet.

ghost use Rattle.std.specs.Prelude.{◌≡◌, ◌++◌, IfOk, OnOk};
ghost use Rattle.sms_field.specs.Reading.Answer.{Sees};
ghost use Rattle.sms_tpdu.specs.Report.Kind.{KindPart, AreKindPartLaws, no_part, failure_cause, centre_stamp};
ghost use Rattle.sms_tpdu.specs.Report.Octet.{FirstOctet, AreFirstOctetLaws, on_submission, on_delivery};
ghost use Rattle.sms_tpdu.specs.Inside.ReportKindLaws.{no_part_laws, failure_cause_laws, centre_stamp_laws};
ghost use Rattle.sms_tpdu.specs.Inside.ReportOctetLaws.{on_submission_laws, on_delivery_laws};

use crate::fault::UnitFault;
use crate::report::octet::{
    deliver_report, deliver_report_octet, submit_report, submit_report_octet,
};
use sms_field::{Cursor, Fault, Stamp};
use std::alloc::AllocError;

/// A part that is there or not by the kind of a report; `()` where it is not.
pub trait ReportPart: Copy {
    /// How it is read, which values have a spelling, and how they are written.
    ghost part: { KindPart Self };

    /// Reads it at a cursor.
    fn read_at(input: &mut Cursor) -> Result<Self, Fault<UnitFault>>
        ensures fits { IfOk result part.is }
        ensures read { Sees part.field input.old result input.new };

    /// Adds its octets.
    fn put(self, out: &mut Vec<u8>) -> Result<(), AllocError>
        ensures { OnOk result (out.new.items ≡ out.old.items ++ part.octets self) };

    /// The field is lawful and does not look at what follows; what is written is read back.
    ghost part_laws: { AreKindPartLaws part };
}

/// A stamp, or `()`. A report on a submission has one, a report on a delivery none; the first octet
/// says which of the two it is.
pub trait ReportStamp: ReportPart {
    /// What the first octet says, and how it is written.
    ghost first: { FirstOctet };

    /// Whether the data begin with a header, as the first octet says.
    fn has_header(octet: u8) -> Result<bool, UnitFault>
        ensures { result ≡ first.meaning octet };

    /// The first octet.
    fn first_octet(has_header: bool) -> u8
        ensures { result ≡ first.octet has_header };

    /// The first octet is a lawful field, and what is written is read back.
    ghost first_laws: { AreFirstOctetLaws first };
}

impl ReportPart for () {
    ghost part = { no_part };

    fn read_at(_input: &mut Cursor) -> Result<(), Fault<UnitFault>> {
        Ok(())
    }

    fn put(self, _out: &mut Vec<u8>) -> Result<(), AllocError> {
        Ok(())
    }

    ghost part_laws = { no_part_laws };
}

/// TP-FCS.
impl ReportPart for u8 {
    ghost part = { failure_cause };

    fn read_at(input: &mut Cursor) -> Result<u8, Fault<UnitFault>> {
        input.take_octet()
    }

    fn put(self, out: &mut Vec<u8>) -> Result<(), AllocError> {
        out.push(self)?;
        Ok(())
    }

    ghost part_laws = { failure_cause_laws };
}

/// TP-SCTS.
impl ReportPart for Stamp {
    ghost part = { centre_stamp };

    fn read_at(input: &mut Cursor) -> Result<Stamp, Fault<UnitFault>> {
        Stamp::read_at(input)
    }

    fn put(self, out: &mut Vec<u8>) -> Result<(), AllocError> {
        out.extend_from_slice(&self.octets())?;
        Ok(())
    }

    ghost part_laws = { centre_stamp_laws };
}

impl ReportStamp for () {
    ghost first = { on_delivery };

    fn has_header(octet: u8) -> Result<bool, UnitFault> {
        deliver_report(octet)
    }

    fn first_octet(has_header: bool) -> u8 {
        deliver_report_octet(has_header)
    }

    ghost first_laws = { on_delivery_laws };
}

impl ReportStamp for Stamp {
    ghost first = { on_submission };

    fn has_header(octet: u8) -> Result<bool, UnitFault> {
        submit_report(octet)
    }

    fn first_octet(has_header: bool) -> u8 {
        submit_report_octet(has_header)
    }

    ghost first_laws = { on_submission_laws };
}
