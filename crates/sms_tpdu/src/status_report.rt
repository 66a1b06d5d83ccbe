//! SMS-STATUS-REPORT.

ghost use Rattle.std.specs.Prelude.{◌≡◌, ◌∷◌, [], ◌++◌, OnOk};
ghost use Rattle.sms_field.specs.Address.{address_octets};
ghost use Rattle.sms_tpdu.specs.StatusReport.{status_report, flags_in};
ghost use Rattle.sms_tpdu.specs.StatusReport.Flags.{status_report_octet};

pub mod flags;
pub mod spans;
pub mod status;
pub mod view;

use crate::fault::UnitFault;
use crate::report::optional::put_optional_parts;
use crate::report::parts::ReportData;
use crate::report::writing::room_for_parts;
use crate::status_report::flags::StatusReportFlags;
use crate::status_report::view::StatusReportView;
use crate::unit::Unit;
use crate::view::View;
use sms_field::{Address, Cursor, Refusal, Stamp};
use std::alloc::{AllocError, Global};
use std::marker::Model;

/// SMS-STATUS-REPORT: how it stands with a message that a phone has submitted (TS 23.040, 9.2.2.3).
#[derive(Drop)]
pub struct StatusReport {
    /// TP-MMS: more messages wait in the service centre.
    pub more: bool,
    /// TP-LP: the report was forwarded before, or was made because of another message. A centre
    /// does not forward it again.
    pub looped: bool,
    /// TP-SRQ: the report is the result of an SMS-COMMAND, and not of an SMS-SUBMIT.
    pub qualifier: bool,
    /// TP-UDHI: the data begin with a header.
    pub has_header: bool,
    /// TP-MR: the reference of the submission, where a command enquired after it too; of any other
    /// command its own.
    pub reference: u8,
    /// TP-RA: the recipient of the message.
    pub recipient: Address,
    /// TP-SCTS: when the service centre took the message.
    pub stamp: Stamp,
    /// TP-DT: when the message came to its recipient, or else when the centre last tried or gave
    /// up.
    pub discharged: Stamp,
    /// TP-ST: how it stands with the message; `Status::of` says it in words.
    pub status: u8,
    /// TP-PID: the protocol identifier.
    pub pid: Option<u8>,
    /// TP-DCS: the data coding scheme.
    pub dcs: Option<u8>,
    /// TP-UDL and TP-UD, counted under the 7-bit alphabet where there is no data coding scheme.
    pub user: Option<ReportData>,
}

impl Model for StatusReport {
    ghost use Rattle.sms_tpdu.specs.StatusReport.{StatusReportValue, IsStatusReport};

    ghost Value = { StatusReportValue };

    ghost view = { λ r. record {
      more = r.more;
      looped = r.looped;
      qualifier = r.qualifier;
      has_header = r.has_header;
      reference = r.reference;
      recipient = r.recipient;
      stamp = r.stamp;
      discharged = r.discharged;
      status = r.status;
      pid = r.pid;
      dcs = r.dcs;
      user = r.user;
    } };

    ghost invariant = { λ r. IsStatusReport (record {
      more = r.more;
      looped = r.looped;
      qualifier = r.qualifier;
      has_header = r.has_header;
      reference = r.reference;
      recipient = r.recipient;
      stamp = r.stamp;
      discharged = r.discharged;
      status = r.status;
      pid = r.pid;
      dcs = r.dcs;
      user = r.user;
    }) };
}

/// The most octets up to the indicator.
const FRONT_MAX: usize = 30;

impl StatusReport {
    /// The flags in the first octet.
    fn flags(&self) -> StatusReportFlags
        ensures { result ≡ flags_in self.now }
    {
        StatusReportFlags {
            more: self.more,
            looped: self.looped,
            qualifier: self.qualifier,
            header: self.has_header,
        }
    }

    /// Adds the octets before the indicator.
    fn put_front(&self, out: &mut Vec<u8>) -> Result<(), AllocError>
        ensures { OnOk result (out.new.items ≡ out.old.items ++
            (status_report_octet (flags_in self.now) ∷ self.now.reference ∷
            (address_octets self.now.recipient ++ (self.now.stamp ++
            (self.now.discharged ++ (self.now.status ∷ [])))))) }
    {
        out.extend_from_slice(&[self.flags().to_octet(), self.reference])?;
        self.recipient.write_to(out)?;
        out.extend_from_slice(&self.stamp.octets())?;
        out.extend_from_slice(&self.discharged.octets())?;
        out.extend_from_slice(&[self.status])
    }
}

/// Another type is `UnitFault::WrongType`, and data above 159 octets are `UnitFault::DataTooLong`.
/// TP-PI is read where another octet follows TP-ST, and is written where one of the parts after it
/// is there.
impl Unit for StatusReport {
    ghost use Rattle.sms_tpdu.specs.StatusReport.{status_report, SpellsStatusReport, MayFollow};
    ghost use Rattle.sms_tpdu.specs.Inside.StatusReportLaws.{status_report_laws};

    type Why = UnitFault;

    ghost field = { status_report };

    ghost spells = { SpellsStatusReport };

    ghost may_follow = { MayFollow };

    fn read_at(alloc: Global, input: &mut Cursor) -> Result<StatusReport, Refusal<UnitFault>> {
        let view = StatusReportView::read_at(input)?;
        Ok(view.to_value(alloc)?)
    }

    fn write(&self, alloc: Global) -> Result<Vec<u8>, AllocError> {
        let room = room_for_parts(&self.user).saturating_add(FRONT_MAX);
        let mut out = Vec::with_capacity(alloc, room)?;
        self.put_front(&mut out)?;
        put_optional_parts(&mut out, self.pid, self.dcs, &self.user)?;
        Ok(out)
    }

    ghost laws = { status_report_laws };
}
