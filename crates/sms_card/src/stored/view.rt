//! A record, where it lies in its octets.

ghost use Rattle.std.specs.Prelude.{◌≡◌, ◌≤◌, length, Option, IfOk, IfErr, IsOkAnd};
ghost use Rattle.sms_field.specs.Reading.Answer.{SeesAs};
ghost use Rattle.sms_field.specs.Reading.WholeAnswer.{IsFaultOf};
ghost use Rattle.sms_card.specs.Stored.{card_record, received_after, originated_after, status_in, after_status};
ghost use Rattle.sms_card.specs.Stored.Reading as reading;
ghost use Rattle.sms_card.specs.Stored.Reading.{IsRecordIn, IsRecordFault};
ghost use Rattle.sms_card.specs.Stored.Seen.{seen_record};
ghost use Rattle.sms_card.specs.declared.fault.RecordFault.TheVariants.{Short};
ghost use Rattle.sms_card.specs.declared.stored.Record.{Record};

use crate::centre::centre_at;
use crate::fault::RecordFault;
use crate::originated::view::{OriginatedView, originated_at};
use crate::padding::anything_at;
use crate::received::view::{ReceivedView, received_at};
use crate::status::{ReportState, Status};
use crate::stored::{RECORD_LENGTH, Record};
use sms_field::{Cursor, Fault, RpAddressView};
use std::alloc::{AllocError, Global};

/// A record of a card's file of short messages, EF-SMS, where it lies in its octets (TS 51.011,
/// 10.5.3; TS 31.102, 4.2.25).
#[derive(Drop)]
pub enum RecordView<'a> {
    /// Free space, whose octets tell nothing.
    Free,
    /// What came from the network.
    Received {
        /// It is to be read.
        unread: bool,
        /// TS-Service-Centre-Address.
        centre: Option<RpAddressView<'a>>,
        /// The unit.
        unit: ReceivedView<'a>,
    },
    /// What the phone wrote.
    Originated {
        /// What became of its status report; none where it is to be sent.
        report: Option<ReportState>,
        /// TS-Service-Centre-Address.
        centre: Option<RpAddressView<'a>>,
        /// The unit.
        unit: OriginatedView<'a>,
    },
}

/// What came from the network, after its status.
#[tactic(auto, unfolding(crate::specs::Stored::received_after))]
fn received_after_at<'a>(
    input: &mut Cursor<'a>,
    unread: bool,
) -> Result<RecordView<'a>, Fault<RecordFault>>
    ensures { SeesAs seen_record (received_after unread) input.old result input.new }
{
    let centre = centre_at(input)?;
    let unit = received_at(input)?;
    Ok(RecordView::Received {
        unread,
        centre,
        unit,
    })
}

/// What the phone wrote, after its status.
#[tactic(auto, unfolding(crate::specs::Stored::originated_after))]
fn originated_after_at<'a>(
    input: &mut Cursor<'a>,
    report: Option<ReportState>,
) -> Result<RecordView<'a>, Fault<RecordFault>>
    ensures { SeesAs seen_record (originated_after report) input.old result input.new }
{
    let centre = centre_at(input)?;
    let unit = originated_at(input)?;
    Ok(RecordView::Originated {
        report,
        centre,
        unit,
    })
}

/// A record after its status.
#[tactic(auto, unfolding(crate::specs::Stored::after_status))]
fn after_status_at<'a>(
    input: &mut Cursor<'a>,
    status: Status,
) -> Result<RecordView<'a>, Fault<RecordFault>>
    ensures { SeesAs seen_record (after_status status) input.old result input.new }
{
    match status {
        Status::Free => {
            anything_at(input)?;
            Ok(RecordView::Free)
        }
        Status::Read => received_after_at(input, false),
        Status::Unread => received_after_at(input, true),
        Status::ToBeSent => originated_after_at(input, None),
        Status::Sent(report) => originated_after_at(input, Some(report)),
    }
}

/// A record at a cursor.
#[tactic(auto, unfolding(crate::specs::Stored::card_record))]
fn record_at<'a>(input: &mut Cursor<'a>) -> Result<RecordView<'a>, Fault<RecordFault>>
    ensures { SeesAs seen_record card_record input.old result input.new }
{
    let status = input.take_octet_by(Status::from_octet)?;
    after_status_at(input, status)
}

/// A record of all the octets, however many they are.
fn see<'a>(input: &'a [u8]) -> Result<RecordView<'a>, Fault<RecordFault>>
    requires { length input.now ≤ RECORD_LENGTH }
    ensures found { IfOk result (λ view. IsRecordIn input.now (seen_record view)) }
    ensures refused { IfErr result (IsFaultOf card_record Short input.now) }
    ensures exact { (r : Record) → IsRecordIn input.now r
        → IsOkAnd result (λ view. seen_record view ≡ r) }
{
    let mut cursor = Cursor::new(input);
    record_at(&mut cursor)
}

/// The octet after the last one of a record.
fn octet_too_many() -> Fault<RecordFault>
    ensures { result ≡ reading.octet_too_many }
{
    Fault {
        place: RECORD_LENGTH,
        why: RecordFault::OtherLength,
    }
}

/// What is at fault where an octet follows that is too many.
fn of_too_many(fault: Fault<RecordFault>) -> Fault<RecordFault>
    ensures short { fault.why ≡ Short → result ≡ reading.octet_too_many }
    ensures other { (fault.why ≡ Short → ⊥) → result ≡ fault }
{
    match fault.why {
        RecordFault::Short => octet_too_many(),
        _ => fault,
    }
}

impl<'a> RecordView<'a> {
    /// Sees the record that all the octets are: 176, or fewer where FF were cut from the end. Of
    /// more than 176 octets the first one at fault is told, at the latest the one at place 176.
    pub fn read(input: &'a [u8]) -> Result<RecordView<'a>, Fault<RecordFault>>
        ensures found { IfOk result (λ view. IsRecordIn input.now (seen_record view)) }
        ensures refused { IfErr result (IsRecordFault input.now) }
        ensures exact { (r : Record) → IsRecordIn input.now r
            → IsOkAnd result (λ view. seen_record view ≡ r) }
    {
        if input.len() <= RECORD_LENGTH {
            return see(input);
        }
        let (front, _) = input.split_at(RECORD_LENGTH);
        match see(front) {
            Ok(_) => Err(octet_too_many()),
            Err(fault) => Err(of_too_many(fault)),
        }
    }

    /// How it stands with the record.
    pub fn status(&self) -> Status
        ensures { result ≡ status_in (seen_record self.now) }
    {
        match self {
            RecordView::Free => Status::Free,
            RecordView::Received { unread: false, .. } => Status::Read,
            RecordView::Received { unread: true, .. } => Status::Unread,
            RecordView::Originated { report: None, .. } => Status::ToBeSent,
            RecordView::Originated {
                report: Some(report),
                ..
            } => Status::Sent(*report),
        }
    }

    /// The record itself.
    pub fn to_value(&self, alloc: Global) -> Result<Record, AllocError>
        ensures { IfOk result (λ entry. entry ≡ seen_record self.now) }
    {
        match self {
            RecordView::Free => Ok(Record::Free),
            RecordView::Received {
                unread,
                centre,
                unit,
            } => {
                let centre = RpAddressView::some_to_value(alloc, centre)?;
                let unit = unit.to_value(alloc)?;
                Ok(Record::Received {
                    unread: *unread,
                    centre,
                    unit,
                })
            }
            RecordView::Originated {
                report,
                centre,
                unit,
            } => {
                let centre = RpAddressView::some_to_value(alloc, centre)?;
                let unit = unit.to_value(alloc)?;
                Ok(Record::Originated {
                    report: *report,
                    centre,
                    unit,
                })
            }
        }
    }
}
