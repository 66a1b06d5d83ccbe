//! The four reports (3GPP TS 23.040, 9.2.2.1a and 9.2.2.2a).

ghost use Rattle.std.specs.Prelude.{◌≡◌, ◌<◌, ℕ, List, is_some, unwrap_or, IfSome};
ghost use Rattle.sms_field.specs.Reading.{Reads};
ghost use Rattle.sms_field.specs.Reading.WholeAnswer.{IsFaultOf};
ghost use Rattle.sms_field.specs.declared.refusal.Fault.{Fault as TheFault};
ghost use Rattle.sms_tpdu.specs.Report.AnnouncedParts.{report_alphabet};
ghost use Rattle.sms_tpdu.specs.Report.{report, DeliverAckValue, deliver_ack, DeliverErrorValue, deliver_error, SubmitAckValue, submit_ack, SubmitErrorValue, submit_error};
ghost use Rattle.sms_tpdu.specs.declared.fault.UnitFault.{UnitFault};
ghost use Rattle.sms_tpdu.specs.declared.fault.UnitFault.TheVariants.{Short};
ghost use Rattle.sms_c.specs.Parts as seen;
ghost use Rattle.sms_c.specs.Status.{unit_refused as told};
ghost use Rattle.sms_c.specs.SeenReport as shown;
ghost use Rattle.sms_c.specs.SeenReport.{ShowsReport, ShowsDeliverAck, ShowsDeliverError, ShowsSubmitAck, ShowsSubmitError};

use crate::parts::{Span, alphabet_number, bit, some_span};
use crate::status::{OK, Refused, unit_refused};
use crate::times::StampOctets;
use sms_field::{Alphabet, Stamp, alphabet_of};
use sms_tpdu::{
    DataSpans, DeliverAckView, DeliverErrorView, ReportDataView, ReportPart, ReportStamp,
    ReportView, SubmitAckView, SubmitErrorView,
};

/// A report, and where its data lie.
#[repr(C)]
#[derive(Clone, Copy)]
pub struct ReportSeen {
    /// The octets of TP-UD.
    pub data: Span,
    /// The header at their front, after its length octet.
    pub header: Span,
    /// How many octets the report takes.
    pub used: usize,
    /// TP-UDHI.
    pub has_header: u8,
    pub has_cause: u8,
    /// TP-FCS.
    pub cause: u8,
    pub has_stamp: u8,
    /// TP-SCTS.
    pub stamp: StampOctets,
    pub has_pid: u8,
    /// TP-PID.
    pub pid: u8,
    pub has_dcs: u8,
    /// TP-DCS.
    pub dcs: u8,
    pub has_data: u8,
    /// TP-UDL.
    pub length: u8,
    /// The number of the alphabet by which TP-UDL counts.
    pub alphabet: u8,
}

/// 1 and an octet that is there; 0 and 0 where it is not.
pub fn octet_seen(octet: Option<u8>) -> (u8, u8)
    ensures there { result.0 ≡ seen.bit (is_some octet) }
    ensures value { result.1 ≡ unwrap_or octet 0 }
{
    match octet {
        Some(octet) => (1, octet),
        None => (0, 0),
    }
}

/// TP-UDL, where there are data.
pub fn length_of(user: &Option<ReportDataView>) -> u8
    ensures { result ≡ shown.length_of user.now }
{
    match user {
        Some(user) => user.length,
        None => 0,
    }
}

/// Where the data of a report lie.
pub fn data_at(spans: Option<DataSpans>) -> Span
    ensures { result ≡ shown.data_at spans }
{
    match spans {
        Some(spans) => Span::at(spans.octets),
        None => Span::NONE,
    }
}

/// Where the header of the data lies.
pub fn header_at(spans: Option<DataSpans>) -> Span
    ensures { result ≡ shown.header_at spans }
{
    match spans {
        Some(spans) => some_span(spans.header),
        None => Span::NONE,
    }
}

/// The number of the alphabet by which the data are counted.
pub fn counted_by(dcs: Option<u8>) -> u8
    ensures { result ≡ seen.alphabet_number (report_alphabet dcs) }
{
    match dcs {
        Some(dcs) => alphabet_number(alphabet_of(dcs)),
        None => alphabet_number(Alphabet::Gsm7),
    }
}

/// 1 and a stamp that is there; 0 and seven times 0 where it is not.
fn stamp_seen(stamp: Option<Stamp>) -> (u8, StampOctets)
    ensures there { result.0 ≡ seen.bit (is_some stamp) }
    ensures value { IfSome stamp (λ octets. result.1.octets ≡ octets) }
{
    match stamp {
        Some(stamp) => (1, StampOctets::of(stamp)),
        None => (0, StampOctets { octets: [0; 7] }),
    }
}

/// What C sees of a report that takes so many octets.
fn report_seen<C: ReportPart, S: ReportStamp>(
    view: &ReportView<C, S>,
    cause: Option<u8>,
    stamp: Option<Stamp>,
    used: usize,
) -> ReportSeen
    ensures used { result.used ≡ used }
    ensures shows { (octets : List ℕ)
        → Reads (report S.first C.part S.part) view.now octets used
        → ShowsReport cause stamp view.now octets result }
{
    let spans = view.spans(used);
    let (has_cause, cause) = octet_seen(cause);
    let (has_stamp, stamp) = stamp_seen(stamp);
    let (has_pid, pid) = octet_seen(view.pid);
    let (has_dcs, dcs) = octet_seen(view.dcs);
    ReportSeen {
        data: data_at(spans),
        header: header_at(spans),
        used,
        has_header: bit(view.has_header),
        has_cause,
        cause,
        has_stamp,
        stamp,
        has_pid,
        pid,
        has_dcs,
        dcs,
        has_data: bit(view.user.is_some()),
        length: length_of(&view.user),
        alphabet: counted_by(view.dcs),
    }
}

/// Sees an SMS-DELIVER-REPORT of an RP-ACK at the front of the octets.
#[unsafe(no_mangle)]
pub extern "C" fn sms_deliver_ack_read(
    octets: &[u8],
    out: &mut ReportSeen,
    refused: &mut Refused,
) -> u32
    ensures status { result < 2 }
    ensures untold { result ≡ 0 → refused.new ≡ refused.old }
    ensures read { result ≡ 0 → (value : DeliverAckValue)
        × Reads deliver_ack value octets.now out.new.used
        × ShowsDeliverAck value octets.now out.new }
    ensures refused { result ≡ 1 → (fault : TheFault UnitFault)
        × IsFaultOf deliver_ack Short octets.now fault × (refused.new ≡ told fault)
        × (out.new ≡ out.old) }
{
    match DeliverAckView::read(octets) {
        Ok((view, used)) => {
            *out = report_seen(&view, None, None, used);
            OK
        }
        Err(fault) => unit_refused(refused, fault),
    }
}

/// Sees an SMS-DELIVER-REPORT of an RP-ERROR at the front of the octets.
#[unsafe(no_mangle)]
pub extern "C" fn sms_deliver_error_read(
    octets: &[u8],
    out: &mut ReportSeen,
    refused: &mut Refused,
) -> u32
    ensures status { result < 2 }
    ensures untold { result ≡ 0 → refused.new ≡ refused.old }
    ensures read { result ≡ 0 → (value : DeliverErrorValue)
        × Reads deliver_error value octets.now out.new.used
        × ShowsDeliverError value octets.now out.new }
    ensures refused { result ≡ 1 → (fault : TheFault UnitFault)
        × IsFaultOf deliver_error Short octets.now fault × (refused.new ≡ told fault)
        × (out.new ≡ out.old) }
{
    match DeliverErrorView::read(octets) {
        Ok((view, used)) => {
            *out = report_seen(&view, Some(view.cause), None, used);
            OK
        }
        Err(fault) => unit_refused(refused, fault),
    }
}

/// Sees an SMS-SUBMIT-REPORT of an RP-ACK at the front of the octets.
#[unsafe(no_mangle)]
pub extern "C" fn sms_submit_ack_read(
    octets: &[u8],
    out: &mut ReportSeen,
    refused: &mut Refused,
) -> u32
    ensures status { result < 2 }
    ensures untold { result ≡ 0 → refused.new ≡ refused.old }
    ensures read { result ≡ 0 → (value : SubmitAckValue)
        × Reads submit_ack value octets.now out.new.used
        × ShowsSubmitAck value octets.now out.new }
    ensures refused { result ≡ 1 → (fault : TheFault UnitFault)
        × IsFaultOf submit_ack Short octets.now fault × (refused.new ≡ told fault)
        × (out.new ≡ out.old) }
{
    match SubmitAckView::read(octets) {
        Ok((view, used)) => {
            *out = report_seen(&view, None, Some(view.stamp), used);
            OK
        }
        Err(fault) => unit_refused(refused, fault),
    }
}

/// Sees an SMS-SUBMIT-REPORT of an RP-ERROR at the front of the octets.
#[unsafe(no_mangle)]
pub extern "C" fn sms_submit_error_read(
    octets: &[u8],
    out: &mut ReportSeen,
    refused: &mut Refused,
) -> u32
    ensures status { result < 2 }
    ensures untold { result ≡ 0 → refused.new ≡ refused.old }
    ensures read { result ≡ 0 → (value : SubmitErrorValue)
        × Reads submit_error value octets.now out.new.used
        × ShowsSubmitError value octets.now out.new }
    ensures refused { result ≡ 1 → (fault : TheFault UnitFault)
        × IsFaultOf submit_error Short octets.now fault × (refused.new ≡ told fault)
        × (out.new ≡ out.old) }
{
    match SubmitErrorView::read(octets) {
        Ok((view, used)) => {
            *out = report_seen(&view, Some(view.cause), Some(view.stamp), used);
            OK
        }
        Err(fault) => unit_refused(refused, fault),
    }
}
