//! What came from the network, in a record.

ghost use Rattle.std.specs.Prelude.{◌≡◌, IfOk};
ghost use Rattle.sms_card.specs.Received as formats;
ghost use Rattle.sms_card.specs.Received.{SpellsReceived};

pub mod view;

use crate::fault::RecordFault;
use sms_field::has_bit;
use sms_tpdu::{Deliver, StatusReport, Unit, UnitFault};
use std::alloc::{AllocError, Global};

/// A unit that came from the network: TP-MTI tells which.
#[derive(Drop)]
pub enum ReceivedUnit {
    /// SMS-DELIVER.
    Deliver(Deliver),
    /// SMS-STATUS-REPORT.
    StatusReport(StatusReport),
}

/// Which unit came from the network.
#[derive(Clone, Copy)]
pub enum ReceivedKind {
    /// SMS-DELIVER.
    Deliver,
    /// SMS-STATUS-REPORT.
    StatusReport,
}

impl ReceivedKind {
    /// The kind that the first octet of a unit tells (TP-MTI).
    pub fn from_octet(octet: u8) -> Result<ReceivedKind, RecordFault>
        ensures { result ≡ formats.received_kind octet }
    {
        match (has_bit(octet, 1), has_bit(octet, 0)) {
            (false, false) => Ok(ReceivedKind::Deliver),
            (true, false) => Ok(ReceivedKind::StatusReport),
            (_, true) => Err(RecordFault::Unit(UnitFault::WrongType)),
        }
    }
}

impl ReceivedUnit {
    /// The octets of the unit.
    pub(crate) fn write(&self, alloc: Global) -> Result<Vec<u8>, AllocError>
        ensures { IfOk result (λ octets. SpellsReceived self.now octets.items) }
    {
        match self {
            ReceivedUnit::Deliver(deliver) => deliver.write(alloc),
            ReceivedUnit::StatusReport(report) => report.write(alloc),
        }
    }
}
