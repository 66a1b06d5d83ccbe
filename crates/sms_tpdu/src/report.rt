//! A report: SMS-DELIVER-REPORT and SMS-SUBMIT-REPORT, each under an acknowledgement and under an
//! error of the relay.

pub mod indicator;
pub mod kind;
pub mod octet;
pub mod optional;
pub mod parts;
pub mod text;
pub mod view;
pub mod writing;

use crate::fault::UnitFault;
use crate::report::kind::{ReportPart, ReportStamp};
use crate::report::parts::ReportData;
use crate::report::view::ReportView;
use crate::report::writing::{indicator_of, put_parts, room_for_parts};
use crate::unit::Unit;
use crate::view::View;
use sms_field::{Cursor, Refusal, Stamp};
use std::alloc::{AllocError, Global};
use std::marker::Model;

/// The most octets of a report before its parts: type, failure cause, indicator and stamp.
const FRONT_MAX: usize = 10;

/// A report, with a failure cause or `()`, and with a stamp or `()` (TS 23.040, 9.2.2.1a and
/// 9.2.2.2a). With a stamp it is an SMS-SUBMIT-REPORT, else an SMS-DELIVER-REPORT.
#[derive(Drop)]
pub struct Report<C: ReportPart, S: ReportStamp> {
    /// TP-UDHI: the data begin with a header.
    pub has_header: bool,
    /// TP-FCS: why the delivery or the submission was refused (TS 23.040, 9.2.3.22).
    pub cause: C,
    /// TP-SCTS: when the service centre received the submission.
    pub stamp: S,
    /// TP-PID: the protocol identifier.
    pub pid: Option<u8>,
    /// TP-DCS: the data coding scheme.
    pub dcs: Option<u8>,
    /// TP-UDL and TP-UD, counted under the 7-bit alphabet where there is no data coding scheme.
    pub user: Option<ReportData>,
}

/// SMS-DELIVER-REPORT for RP-ACK: the phone has taken a delivery.
pub type DeliverAck = Report<(), ()>;

/// SMS-DELIVER-REPORT for RP-ERROR: the phone has refused a delivery.
pub type DeliverError = Report<u8, ()>;

/// SMS-SUBMIT-REPORT for RP-ACK: the service centre has taken a submission.
pub type SubmitAck = Report<(), Stamp>;

/// SMS-SUBMIT-REPORT for RP-ERROR: the service centre has refused a submission.
pub type SubmitError = Report<u8, Stamp>;

impl<C: ReportPart, S: ReportStamp> Model for Report<C, S> {
    ghost use Rattle.sms_tpdu.specs.Report.{ReportValue, IsReport};

    ghost Value = { ReportValue C S };

    ghost view = { λ r. record {
      has_header = r.has_header;
      cause = r.cause;
      stamp = r.stamp;
      pid = r.pid;
      dcs = r.dcs;
      user = r.user;
    } };

    ghost invariant = { λ r. IsReport C.part S.part (record {
      has_header = r.has_header;
      cause = r.cause;
      stamp = r.stamp;
      pid = r.pid;
      dcs = r.dcs;
      user = r.user;
    }) };
}

/// Another type is `UnitFault::WrongType`, and data above 159 octets are `UnitFault::DataTooLong`.
impl<C: ReportPart, S: ReportStamp> Unit for Report<C, S> {
    ghost use Rattle.sms_tpdu.specs.Report.{report, SpellsReport};
    ghost use Rattle.sms_tpdu.specs.Inside.ReportLaws.{report_laws};

    type Why = UnitFault;

    ghost field = { report S.first C.part S.part };

    ghost spells = { SpellsReport S.first C.part S.part };

    fn read_at(alloc: Global, input: &mut Cursor) -> Result<Report<C, S>, Refusal<UnitFault>> {
        let view = ReportView::<C, S>::read_at(input)?;
        Ok(view.to_value(alloc)?)
    }

    fn write(&self, alloc: Global) -> Result<Vec<u8>, AllocError> {
        let room = room_for_parts(&self.user).saturating_add(FRONT_MAX);
        let mut out = Vec::with_capacity(alloc, room)?;
        self.write_to(&mut out)?;
        Ok(out)
    }

    fn write_to(&self, out: &mut Vec<u8>) -> Result<(), AllocError> {
        let there = indicator_of(self.pid, self.dcs, &self.user);
        out.push(S::first_octet(self.has_header))?;
        self.cause.put(out)?;
        out.push(there.to_octet())?;
        self.stamp.put(out)?;
        put_parts(out, self.pid, self.dcs, &self.user)?;
        Ok(())
    }

    ghost laws = { report_laws S.first C.part S.part S.first_laws C.part_laws S.part_laws };
}
