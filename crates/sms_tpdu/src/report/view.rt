//! A report, seen in its octets.

ghost use Rattle.std.specs.Prelude.{ℕ, List, IfOk, IfErr};
ghost use Rattle.sms_field.specs.Reading.{Reads};
ghost use Rattle.sms_field.specs.Reading.WholeAnswer.{IsFaultOf, SeesExactly};
ghost use Rattle.sms_tpdu.specs.DataSpans.{DataLieIf};
ghost use Rattle.sms_tpdu.specs.Report.{report};
ghost use Rattle.sms_tpdu.specs.Report.Text.{text_of_report};
ghost use Rattle.sms_tpdu.specs.declared.fault.UnitFault.TheVariants.{Short};
ghost use Rattle.sms_tpdu.specs.UserData.Text.{AnswersText};

use crate::data_spans::{DataSpans, report_data_spans};
use crate::fault::UnitFault;
use crate::report::Report;
use crate::report::indicator::indicator_at;
use crate::report::kind::{ReportPart, ReportStamp};
use crate::report::parts::{PartsView, ReportDataView, data_of};
use crate::report::text::text_of_report;
use crate::view::{View, see};
use sms_field::{Cursor, Fault, Stamp};
use std::alloc::{AllocError, Global};
use std::marker::Model;

/// A report where it lies in its octets. Contracts see it as the report.
#[derive(Drop)]
pub struct ReportView<'a, C: ReportPart, S: ReportStamp> {
    /// TP-UDHI: the data begin with a header.
    pub has_header: bool,
    /// TP-FCS: why the delivery or the submission was refused (TS 23.040, 9.2.3.22).
    pub cause: C,
    /// TP-SCTS: when the service centre received the submission.
    pub stamp: S,
    /// TP-PID: the protocol identifier.
    pub pid: Option<u8>,
    /// TP-DCS: the data coding scheme.
    pub dcs: Option<u8>,
    /// TP-UDL and TP-UD, counted under the 7-bit alphabet where there is no data coding scheme.
    pub user: Option<ReportDataView<'a>>,
}

/// An SMS-DELIVER-REPORT for RP-ACK where it lies.
pub type DeliverAckView<'a> = ReportView<'a, (), ()>;

/// An SMS-DELIVER-REPORT for RP-ERROR where it lies.
pub type DeliverErrorView<'a> = ReportView<'a, u8, ()>;

/// An SMS-SUBMIT-REPORT for RP-ACK where it lies.
pub type SubmitAckView<'a> = ReportView<'a, (), Stamp>;

/// An SMS-SUBMIT-REPORT for RP-ERROR where it lies.
pub type SubmitErrorView<'a> = ReportView<'a, u8, Stamp>;

impl<'a, C: ReportPart, S: ReportStamp> Model for ReportView<'a, C, S> {
    ghost use Rattle.sms_tpdu.specs.Report.{ReportValue, IsReport};

    ghost Value = { ReportValue C S };

    ghost view = { λ r. record {
      has_header = r.has_header;
      cause = r.cause;
      stamp = r.stamp;
      pid = r.pid;
      dcs = r.dcs;
      user = r.user;
    } };

    ghost invariant = { λ r. IsReport C.part S.part (record {
      has_header = r.has_header;
      cause = r.cause;
      stamp = r.stamp;
      pid = r.pid;
      dcs = r.dcs;
      user = r.user;
    }) };
}

impl<'a, C: ReportPart, S: ReportStamp> View<'a> for ReportView<'a, C, S> {
    type Owned = Report<C, S>;

    ghost value = { λ r. r };

    #[tactic(auto, unfolding(crate::specs::Report::report))]
    fn read_at(input: &mut Cursor<'a>) -> Result<ReportView<'a, C, S>, Fault<UnitFault>> {
        let has_header = input.take_octet_by(|octet| S::has_header(octet))?;
        let cause = C::read_at(input)?;
        let there = indicator_at(input)?;
        let stamp = S::read_at(input)?;
        let parts = PartsView::read_at(input, there)?;
        Ok(ReportView {
            has_header,
            cause,
            stamp,
            pid: parts.pid,
            dcs: parts.dcs,
            user: parts.user,
        })
    }

    fn to_value(&self, alloc: Global) -> Result<Report<C, S>, AllocError> {
        let user = data_of(alloc, &self.user)?;
        Ok(Report {
            has_header: self.has_header,
            cause: self.cause,
            stamp: self.stamp,
            pid: self.pid,
            dcs: self.dcs,
            user,
        })
    }
}

impl<'a, C: ReportPart + 'a, S: ReportStamp + 'a> ReportView<'a, C, S> {
    /// Sees a report at the front of the octets, and says how many it takes.
    pub fn read(input: &'a [u8]) -> Result<(ReportView<'a, C, S>, usize), Fault<UnitFault>>
        ensures found { IfOk result (λ x. Reads (report S.first C.part S.part) x.0 input.now x.1) }
        ensures refused { IfErr result (IsFaultOf (report S.first C.part S.part) Short input.now) }
        ensures exact { let format = report S.first C.part S.part in
            SeesExactly (λ view. view) format input.now result }
    {
        see(input)
    }

    /// The text that the data carry, after their header, made straight from the octets; none where
    /// there are no data, they end within the header, or their data coding scheme tells another
    /// alphabet than the default one and UCS-2. Without a scheme they are in the default alphabet.
    pub fn text(&self, alloc: Global) -> Result<Option<String>, AllocError>
        ensures { let text = text_of_report self.now.has_header self.now.dcs self.now.user in
            AnswersText text result }
    {
        text_of_report(alloc, &self.user, self.has_header, self.dcs)
    }

    /// Where the data lie in the octets at whose front this report was read, `used` of them.
    pub fn spans(&self, used: usize) -> Option<DataSpans>
        ensures { (input : List ℕ) → Reads (report S.first C.part S.part) self.now input used
            → DataLieIf self.now.has_header self.now.user input used result }
    {
        report_data_spans(&self.user, self.has_header, used)
    }
}
