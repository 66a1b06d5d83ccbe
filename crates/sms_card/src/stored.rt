//! Records.

ghost use Rattle.std.specs.Prelude.{◌≡◌, Err, IfOk};
ghost use Rattle.sms_card.specs.Stored.{status_in, SpellsRecord, IsTooLong};
ghost use Rattle.sms_card.specs.declared.fault.WriteFault.TheVariants.{TooLong};

pub mod view;
mod writing;

use crate::fault::WriteFault;
use crate::originated::OriginatedUnit;
use crate::received::ReceivedUnit;
use crate::status::{ReportState, Status};
use crate::stored::writing::{fill, put_front};
use sms_field::RpAddress;
use std::alloc::Global;

/// The octets of a record (TS 51.011, 10.5.3).
pub const RECORD_LENGTH: usize = 176;

/// A record of a card's file of short messages, EF-SMS (TS 51.011, 10.5.3; TS 31.102, 4.2.25).
#[derive(Drop)]
pub enum Record {
    /// Free space.
    Free,
    /// What came from the network.
    Received {
        /// It is to be read.
        unread: bool,
        /// TS-Service-Centre-Address.
        centre: Option<RpAddress>,
        /// The unit.
        unit: ReceivedUnit,
    },
    /// What the phone wrote.
    Originated {
        /// What became of its status report; none where it is to be sent.
        report: Option<ReportState>,
        /// TS-Service-Centre-Address.
        centre: Option<RpAddress>,
        /// The unit.
        unit: OriginatedUnit,
    },
}

impl Record {
    /// How it stands with the record.
    pub fn status(&self) -> Status
        ensures { result ≡ status_in self.now }
    {
        match self {
            Record::Free => Status::Free,
            Record::Received { unread: false, .. } => Status::Read,
            Record::Received { unread: true, .. } => Status::Unread,
            Record::Originated { report: None, .. } => Status::ToBeSent,
            Record::Originated {
                report: Some(report),
                ..
            } => Status::Sent(*report),
        }
    }

    /// The 176 octets of the record. It is refused where status, centre and unit have more.
    pub fn write(&self, alloc: Global) -> Result<Vec<u8>, WriteFault>
        ensures written { IfOk result (λ octets. SpellsRecord self.now octets.items) }
        ensures too_long { result ≡ Err TooLong → IsTooLong self.now }
    {
        let mut out = Vec::with_capacity(alloc, RECORD_LENGTH)?;
        put_front(&mut out, self, alloc)?;
        fill(&mut out)?;
        Ok(out)
    }
}
