//! SMS-STATUS-REPORT, seen in its octets.

ghost use Rattle.std.specs.Prelude.{IfOk, IfErr};
ghost use Rattle.sms_field.specs.Reading.{Reads};
ghost use Rattle.sms_field.specs.Reading.WholeAnswer.{IsFaultOf, SeesExactly};
ghost use Rattle.sms_tpdu.specs.Report.Text.{text_of_report};
ghost use Rattle.sms_tpdu.specs.StatusReport.{status_report};
ghost use Rattle.sms_tpdu.specs.declared.fault.UnitFault.TheVariants.{Short};
ghost use Rattle.sms_tpdu.specs.UserData.Text.{AnswersText};

use crate::address::address_seen_at;
use crate::fault::UnitFault;
use crate::report::optional::optional_parts_at;
use crate::report::parts::{ReportDataView, data_of};
use crate::report::text::text_of_report;
use crate::status_report::StatusReport;
use crate::status_report::flags::StatusReportFlags;
use crate::view::{View, see};
use sms_field::{AddressView, Cursor, Fault, Stamp};
use std::alloc::{AllocError, Global};
use std::marker::Model;

/// An SMS-STATUS-REPORT where it lies in its octets. Contracts see it as the report.
#[derive(Drop)]
pub struct StatusReportView<'a> {
    /// TP-MMS: more messages wait in the service centre.
    pub more: bool,
    /// TP-LP: the report was forwarded before, or was made because of another message. A centre
    /// does not forward it again.
    pub looped: bool,
    /// TP-SRQ: the report is the result of an SMS-COMMAND, and not of an SMS-SUBMIT.
    pub qualifier: bool,
    /// TP-UDHI: the data begin with a header.
    pub has_header: bool,
    /// TP-MR: the reference of the submission, where a command enquired after it too; of any other
    /// command its own.
    pub reference: u8,
    /// TP-RA: the recipient of the message.
    pub recipient: AddressView<'a>,
    /// TP-SCTS: when the service centre took the message.
    pub stamp: Stamp,
    /// TP-DT: when the message came to its recipient, or else when the centre last tried or gave
    /// up.
    pub discharged: Stamp,
    /// TP-ST: how it stands with the message; `Status::of` says it in words.
    pub status: u8,
    /// TP-PID: the protocol identifier.
    pub pid: Option<u8>,
    /// TP-DCS: the data coding scheme.
    pub dcs: Option<u8>,
    /// TP-UDL and TP-UD, counted under the 7-bit alphabet where there is no data coding scheme.
    pub user: Option<ReportDataView<'a>>,
}

impl<'a> Model for StatusReportView<'a> {
    ghost use Rattle.sms_tpdu.specs.StatusReport.{StatusReportValue, IsStatusReport};

    ghost Value = { StatusReportValue };

    ghost view = { λ r. record {
      more = r.more;
      looped = r.looped;
      qualifier = r.qualifier;
      has_header = r.has_header;
      reference = r.reference;
      recipient = r.recipient;
      stamp = r.stamp;
      discharged = r.discharged;
      status = r.status;
      pid = r.pid;
      dcs = r.dcs;
      user = r.user;
    } };

    ghost invariant = { λ r. IsStatusReport (record {
      more = r.more;
      looped = r.looped;
      qualifier = r.qualifier;
      has_header = r.has_header;
      reference = r.reference;
      recipient = r.recipient;
      stamp = r.stamp;
      discharged = r.discharged;
      status = r.status;
      pid = r.pid;
      dcs = r.dcs;
      user = r.user;
    }) };
}

impl<'a> View<'a> for StatusReportView<'a> {
    type Owned = StatusReport;

    ghost value = { λ r. r };

    #[tactic(auto, unfolding(crate::specs::StatusReport::status_report))]
    fn read_at(input: &mut Cursor<'a>) -> Result<StatusReportView<'a>, Fault<UnitFault>> {
        let flags = input.take_octet_by(StatusReportFlags::from_octet)?;
        let reference = input.take_octet()?;
        let recipient = address_seen_at(input)?;
        let stamp = Stamp::read_at(input)?;
        let discharged = Stamp::read_at(input)?;
        let status = input.take_octet()?;
        let parts = optional_parts_at(input)?;
        Ok(StatusReportView {
            more: flags.more,
            looped: flags.looped,
            qualifier: flags.qualifier,
            has_header: flags.header,
            reference,
            recipient,
            stamp,
            discharged,
            status,
            pid: parts.pid,
            dcs: parts.dcs,
            user: parts.user,
        })
    }

    fn to_value(&self, alloc: Global) -> Result<StatusReport, AllocError> {
        let recipient = self.recipient.to_value(alloc)?;
        let user = data_of(alloc, &self.user)?;
        Ok(StatusReport {
            more: self.more,
            looped: self.looped,
            qualifier: self.qualifier,
            has_header: self.has_header,
            reference: self.reference,
            recipient,
            stamp: self.stamp,
            discharged: self.discharged,
            status: self.status,
            pid: self.pid,
            dcs: self.dcs,
            user,
        })
    }
}

impl<'a> StatusReportView<'a> {
    /// Sees a status report at the front of the octets, and says how many it takes.
    pub fn read(input: &'a [u8]) -> Result<(StatusReportView<'a>, usize), Fault<UnitFault>>
        ensures found { IfOk result (λ x. Reads status_report x.0 input.now x.1) }
        ensures refused { IfErr result (IsFaultOf status_report Short input.now) }
        ensures exact { SeesExactly (λ view. view) status_report input.now result }
    {
        see(input)
    }

    /// The text that the data carry, after their header, made straight from the octets; none where
    /// there are no data, they end within the header, or their data coding scheme tells another
    /// alphabet than the default one and UCS-2. Without a scheme they are in the default alphabet.
    pub fn text(&self, alloc: Global) -> Result<Option<String>, AllocError>
        ensures { let text = text_of_report self.now.has_header self.now.dcs self.now.user in
            AnswersText text result }
    {
        text_of_report(alloc, &self.user, self.has_header, self.dcs)
    }
}
