//! Records of a card.

ghost use Rattle.std.specs.Prelude.{◌≡◌, ◌<◌, ◌^◌, false, true, is_some, length, drop, slice_get};
ghost use Rattle.sms_field.specs.Reading.Lies.{TakesOctets};
ghost use Rattle.sms_field.specs.RelayAddress.{relay_address};
ghost use Rattle.sms_field.specs.declared.refusal.Fault.{Fault as TheFault};
ghost use Rattle.sms_tpdu.specs.Command.{command};
ghost use Rattle.sms_tpdu.specs.Deliver.{deliver};
ghost use Rattle.sms_tpdu.specs.StatusReport.{status_report};
ghost use Rattle.sms_tpdu.specs.Submit.{submit};
ghost use Rattle.sms_card.specs.Report.{report_front};
ghost use Rattle.sms_card.specs.Stored.Reading.{IsRecordFault, IsRecordIn};
ghost use Rattle.sms_card.specs.Stored.Seen.{seen_record};
ghost use Rattle.sms_card.specs.declared.fault.RecordFault.{RecordFault as TheRecordFault};
ghost use Rattle.sms_card.specs.declared.stored.Record.{Record};
ghost use Rattle.sms_c.specs.Inside.UnitLengths.{ReportTakes, UnitTakes};
ghost use Rattle.sms_c.specs.Records as seen;
ghost use Rattle.sms_c.specs.Parts.{no_span};
ghost use Rattle.sms_c.specs.Records.{ShowsRecord, UnitLies};
ghost use Rattle.sms_c.specs.Status.{record_refused as told};

use crate::parts::{Span, bit};
use crate::status::{OK, Refused, record_refused};
use sms_card::{OriginatedView, ReceivedView, RecordView};
use sms_field::{AddressView, RpAddressView};
use sms_tpdu::{CommandView, DeliverView, StatusReportView, SubmitView};

/// A record, and where its parts lie.
#[repr(C)]
#[derive(Clone, Copy)]
pub struct RecordSeen {
    /// TS-Service-Centre-Address, with its length octet.
    pub address: Span,
    /// The unit.
    pub unit: Span,
    /// The status, as it is written.
    pub status: u8,
    /// Whether there is an address: 0 or 1.
    pub has_address: u8,
    /// The number of the unit.
    pub kind: u8,
}

/// The octet that fills a record.
pub const PAD: u8 = 0xff;

/// How many octets an SMS-DELIVER takes.
fn deliver_length(octets: &[u8]) -> usize
    ensures { TakesOctets deliver octets.now result }
{
    match DeliverView::read(octets) {
        Ok((_, used)) => used,
        Err(_) => 0,
    }
}

/// How many octets an SMS-SUBMIT takes.
fn submit_length(octets: &[u8]) -> usize
    ensures { TakesOctets submit octets.now result }
{
    match SubmitView::read(octets) {
        Ok((_, used)) => used,
        Err(_) => 0,
    }
}

/// How many octets an SMS-COMMAND takes.
fn command_length(octets: &[u8]) -> usize
    ensures { TakesOctets command octets.now result }
{
    match CommandView::read(octets) {
        Ok((_, used)) => used,
        Err(_) => 0,
    }
}

/// How many octets an SMS-STATUS-REPORT takes, of which parts follow TP-ST.
fn whole_report_length(octets: &[u8]) -> usize
    ensures { TakesOctets status_report octets.now result }
{
    match StatusReportView::read(octets) {
        Ok((_, used)) => used,
        Err(_) => 0,
    }
}

/// The octets from a place on.
fn octets_from(octets: &[u8], place: usize) -> &[u8]
    ensures from { result.now ≡ drop place octets.now }
    ensures short { length octets.now < 2 ^ 64 }
{
    let (_, rest) = octets.split_at(place.min(octets.len()));
    rest
}

/// The first octet, if there is one.
fn first_of(octets: &[u8]) -> Option<u8>
    ensures { result ≡ slice_get octets.now 0 }
{
    match octets {
        [first, ..] => Some(*first),
        [] => None,
    }
}

/// How many octets an SMS-STATUS-REPORT takes up to TP-ST: its address stands after two of them,
/// and before fifteen.
fn report_front_length(octets: &[u8]) -> usize
    ensures { TakesOctets report_front octets.now result }
{
    AddressView::length_in(octets_from(octets, 2)).saturating_add(17)
}

/// How many octets an SMS-STATUS-REPORT takes in a record, where FF after TP-ST is padding.
fn report_length(octets: &[u8]) -> usize
    ensures { ReportTakes octets.now result }
{
    let front = report_front_length(octets);
    match first_of(octets_from(octets, front)) {
        None => front,
        Some(PAD) => front,
        Some(_) => whole_report_length(octets),
    }
}

/// How many octets the unit takes that begins here.
fn unit_length(view: &RecordView, octets: &[u8]) -> usize
    ensures { UnitTakes (seen_record view.now) octets.now result }
{
    match view {
        RecordView::Free => 0,
        RecordView::Received { unit, .. } => match unit {
            ReceivedView::Deliver(_) => deliver_length(octets),
            ReceivedView::StatusReport(_) => report_length(octets),
        },
        RecordView::Originated { unit, .. } => match unit {
            OriginatedView::Submit(_) => submit_length(octets),
            OriginatedView::Command(_) => command_length(octets),
        },
    }
}

/// The number of the unit that a record has.
fn unit_number(view: &RecordView) -> u8
    ensures { result ≡ seen.unit_kind (seen_record view.now) }
{
    match view {
        RecordView::Free => 0,
        RecordView::Received { unit, .. } => match unit {
            ReceivedView::Deliver(_) => 1,
            ReceivedView::StatusReport(_) => 2,
        },
        RecordView::Originated { unit, .. } => match unit {
            OriginatedView::Submit(_) => 3,
            OriginatedView::Command(_) => 4,
        },
    }
}

/// Whether there is an address of a service centre.
fn has_centre(view: &RecordView) -> bool
    ensures { result ≡ is_some (seen.centre_of (seen_record view.now)) }
{
    match view {
        RecordView::Free => false,
        RecordView::Received { centre, .. } => centre.is_some(),
        RecordView::Originated { centre, .. } => centre.is_some(),
    }
}

/// Where the unit of a record lies whose address takes so many octets.
fn unit_span(octets: &[u8], view: &RecordView, length: usize) -> Span
    requires whole { IsRecordIn octets.now (seen_record view.now) }
    requires taken { TakesOctets relay_address (drop 1 octets.now) length }
    ensures { UnitLies (seen_record view.now) octets.now result }
{
    if let RecordView::Free = view {
        return Span::NONE;
    }
    let offset = length.saturating_add(1);
    Span {
        offset,
        length: unit_length(view, octets_from(octets, offset)),
    }
}

/// Where the address of a record lies, if there is one, that takes so many octets.
fn centre_span(there: bool, length: usize) -> Span
    ensures none { there ≡ false → result ≡ no_span }
    ensures some { there ≡ true → result ≡ record { offset = 1; length = length } }
{
    if there {
        Span { offset: 1, length }
    } else {
        Span::NONE
    }
}

/// A record, and where its parts lie.
fn record_seen(octets: &[u8], view: &RecordView) -> RecordSeen
    requires { IsRecordIn octets.now (seen_record view.now) }
    ensures { ShowsRecord (seen_record view.now) octets.now result }
{
    let length = RpAddressView::length_in(octets_from(octets, 1));
    let there = has_centre(view);
    RecordSeen {
        address: centre_span(there, length),
        unit: unit_span(octets, view, length),
        status: view.status().to_octet(),
        has_address: bit(there),
        kind: unit_number(view),
    }
}

/// Sees the record of a card that all the octets are.
#[unsafe(no_mangle)]
pub extern "C" fn sms_record_read(octets: &[u8], out: &mut RecordSeen, refused: &mut Refused) -> u32
    ensures status { result < 2 }
    ensures untold { result ≡ 0 → refused.new ≡ refused.old }
    ensures read { result ≡ 0 → (value : Record)
        × IsRecordIn octets.now value × ShowsRecord value octets.now out.new }
    ensures refused { result ≡ 1 → (fault : TheFault TheRecordFault)
        × IsRecordFault octets.now fault × (refused.new ≡ told fault)
        × (out.new ≡ out.old) }
{
    match RecordView::read(octets) {
        Ok(view) => {
            *out = record_seen(octets, &view);
            OK
        }
        Err(fault) => record_refused(refused, fault),
    }
}
