//! SMS-STATUS-REPORT (3GPP TS 23.040, 9.2.2.3).

ghost use Rattle.std.specs.Prelude.{◌≡◌, ◌<◌};
ghost use Rattle.sms_field.specs.Reading.{Reads};
ghost use Rattle.sms_field.specs.Reading.WholeAnswer.{IsFaultOf};
ghost use Rattle.sms_field.specs.declared.refusal.Fault.{Fault as TheFault};
ghost use Rattle.sms_tpdu.specs.StatusReport.{StatusReportValue, status_report};
ghost use Rattle.sms_tpdu.specs.declared.fault.UnitFault.{UnitFault};
ghost use Rattle.sms_tpdu.specs.declared.fault.UnitFault.TheVariants.{Short};
ghost use Rattle.sms_c.specs.Status.{unit_refused as told};
ghost use Rattle.sms_c.specs.SeenStatusReport.{ShowsStatusReport};

use crate::parts::{AddressSeen, Span, address_seen, bit};
use crate::reading::report::{counted_by, data_at, header_at, length_of, octet_seen};
use crate::status::{OK, Refused, unit_refused};
use crate::times::StampOctets;
use sms_tpdu::StatusReportView;

/// An SMS-STATUS-REPORT, and where its parts lie.
#[repr(C)]
#[derive(Clone, Copy)]
pub struct StatusReportSeen {
    /// TP-RA.
    pub recipient: AddressSeen,
    /// The octets of TP-UD.
    pub data: Span,
    /// The header at their front, after its length octet.
    pub header: Span,
    /// How many octets the unit takes.
    pub used: usize,
    pub more: u8,
    pub looped: u8,
    /// TP-SRQ.
    pub qualifier: u8,
    /// TP-UDHI.
    pub has_header: u8,
    /// TP-MR.
    pub reference: u8,
    /// TP-SCTS.
    pub stamp: StampOctets,
    /// TP-DT.
    pub discharged: StampOctets,
    /// TP-ST.
    pub status: u8,
    pub has_pid: u8,
    /// TP-PID.
    pub pid: u8,
    pub has_dcs: u8,
    /// TP-DCS.
    pub dcs: u8,
    pub has_data: u8,
    /// TP-UDL.
    pub length: u8,
    /// The number of the alphabet by which TP-UDL counts.
    pub alphabet: u8,
}

/// What C sees of an SMS-STATUS-REPORT that takes so many of the octets.
fn status_report_seen(octets: &[u8], view: &StatusReportView, used: usize) -> StatusReportSeen
    requires { Reads status_report view.now octets.now used }
    ensures used { result.used ≡ used }
    ensures shows { ShowsStatusReport view.now octets.now result }
{
    let spans = view.spans(octets, used);
    let (has_pid, pid) = octet_seen(view.pid);
    let (has_dcs, dcs) = octet_seen(view.dcs);
    StatusReportSeen {
        recipient: address_seen(&view.recipient, spans.recipient),
        data: data_at(spans.user),
        header: header_at(spans.user),
        used,
        more: bit(view.more),
        looped: bit(view.looped),
        qualifier: bit(view.qualifier),
        has_header: bit(view.has_header),
        reference: view.reference,
        stamp: StampOctets::of(view.stamp),
        discharged: StampOctets::of(view.discharged),
        status: view.status,
        has_pid,
        pid,
        has_dcs,
        dcs,
        has_data: bit(view.user.is_some()),
        length: length_of(&view.user),
        alphabet: counted_by(view.dcs),
    }
}

/// Sees an SMS-STATUS-REPORT at the front of the octets.
#[unsafe(no_mangle)]
pub extern "C" fn sms_status_report_read(
    octets: &[u8],
    out: &mut StatusReportSeen,
    refused: &mut Refused,
) -> u32
    ensures status { result < 2 }
    ensures untold { result ≡ 0 → refused.new ≡ refused.old }
    ensures read { result ≡ 0 → (value : StatusReportValue)
        × Reads status_report value octets.now out.new.used
        × ShowsStatusReport value octets.now out.new }
    ensures refused { result ≡ 1 → (fault : TheFault UnitFault)
        × IsFaultOf status_report Short octets.now fault × (refused.new ≡ told fault)
        × (out.new ≡ out.old) }
{
    match StatusReportView::read(octets) {
        Ok((view, used)) => {
            *out = status_report_seen(octets, &view, used);
            OK
        }
        Err(fault) => unit_refused(refused, fault),
    }
}
