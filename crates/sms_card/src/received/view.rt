//! What came from the network, where it lies in a record.

ghost use Rattle.std.specs.Prelude.{◌≡◌, IfOk};
ghost use Rattle.sms_field.specs.Field.{map_reason};
ghost use Rattle.sms_field.specs.Reading.Answer.{Sees, SeesAs};
ghost use Rattle.sms_tpdu.specs.Deliver.{deliver};
ghost use Rattle.sms_card.specs.Fault.{record_fault};
ghost use Rattle.sms_card.specs.Received.{received_unit, received_as};
ghost use Rattle.sms_card.specs.Received.Seen.{seen_received};

use crate::fault::RecordFault;
use crate::padding::padding_at;
use crate::received::{ReceivedKind, ReceivedUnit};
use crate::report::stored_report_at;
use sms_field::{Cursor, Fault};
use sms_tpdu::{DeliverView, StatusReportView, View};
use std::alloc::{AllocError, Global};

/// A unit that came from the network, where it lies: TP-MTI tells which.
#[derive(Drop)]
pub enum ReceivedView<'a> {
    /// SMS-DELIVER.
    Deliver(DeliverView<'a>),
    /// SMS-STATUS-REPORT. An FF after TP-ST is padding, and no TP-PI.
    StatusReport(StatusReportView<'a>),
}

/// A delivery, refused for a record's reasons.
fn deliver_at<'a>(input: &mut Cursor<'a>) -> Result<DeliverView<'a>, Fault<RecordFault>>
    ensures { Sees (map_reason record_fault deliver) input.old result input.new }
{
    DeliverView::read_at(input).map_err(Fault::map_reason)
}

/// A unit of a kind, and FF to the end.
#[tactic(auto, unfolding(crate::specs::Received::received_as))]
fn received_as_at<'a>(
    input: &mut Cursor<'a>,
    kind: ReceivedKind,
) -> Result<ReceivedView<'a>, Fault<RecordFault>>
    ensures { SeesAs seen_received (received_as kind) input.old result input.new }
{
    match kind {
        ReceivedKind::Deliver => {
            let deliver = deliver_at(input)?;
            padding_at(input)?;
            Ok(ReceivedView::Deliver(deliver))
        }
        ReceivedKind::StatusReport => {
            let report = stored_report_at(input)?;
            Ok(ReceivedView::StatusReport(report))
        }
    }
}

/// A unit, and FF to the end.
pub fn received_at<'a>(input: &mut Cursor<'a>) -> Result<ReceivedView<'a>, Fault<RecordFault>>
    ensures { SeesAs seen_received received_unit input.old result input.new }
{
    let place = input.place();
    match input.rest() {
        [] => Err(Fault {
            place,
            why: RecordFault::Short,
        }),
        [first, ..] => match ReceivedKind::from_octet(*first) {
            Ok(kind) => received_as_at(input, kind),
            Err(why) => Err(Fault { place, why }),
        },
    }
}

impl<'a> ReceivedView<'a> {
    /// The unit itself.
    pub fn to_value(&self, alloc: Global) -> Result<ReceivedUnit, AllocError>
        ensures { IfOk result (λ unit. unit ≡ seen_received self.now) }
    {
        match self {
            ReceivedView::Deliver(deliver) => {
                let deliver = deliver.to_value(alloc)?;
                Ok(ReceivedUnit::Deliver(deliver))
            }
            ReceivedView::StatusReport(report) => {
                let report = report.to_value(alloc)?;
                Ok(ReceivedUnit::StatusReport(report))
            }
        }
    }
}
