//! Why there is no answer, or not the whole of it.

use crate::digits::Spot;
use sms_answer::{Line, Reason};
use sms_card::RecordFault;
use sms_feed::FeedFault;
use sms_page::PageFault;
use sms_relay::RelayFault;
use sms_tpdu::{DataFault, UnitFault};
use std::alloc::{AllocError, Global};
use std::io;
use thiserror::Error;

/// Why octets are not shown, or not to their end. Its text is what a line tells of it.
#[derive(Debug, Drop, Error)]
pub enum ShowFault {
    /// An octet of a unit cannot stand where it does.
    #[error("{0}")]
    Unit(sms_field::Fault<UnitFault>),
    /// An octet of a relay or connection message, or of a service centre's address, cannot stand
    /// where it does.
    #[error("{0}")]
    Message(sms_field::Fault<RelayFault>),
    /// An octet of a record of a card cannot stand where it does.
    #[error("{0}")]
    Record(sms_field::Fault<RecordFault>),
    /// An octet of user data alone, one for each septet, cannot stand where it does.
    #[error("{0}")]
    Septets(sms_field::Fault<DataFault>),
    /// A data coding scheme is no octet in hexadecimal.
    #[error("bad coding scheme")]
    BadScheme,
    /// A word or a line is no hexadecimal text of octets.
    #[error("bad hex")]
    BadHex(Spot),
    /// A line has more octets than a line may have.
    #[error("line too long")]
    LineTooLong,
    /// The input gives no more.
    #[error("read failed")]
    Read,
    /// The output takes no more.
    #[error("write failed")]
    Write,
    /// Memory ran out.
    #[error("out of memory")]
    Memory,
}

impl ShowFault {
    /// Whether the input is refused.
    pub fn is_of_input(&self) -> bool {
        match self {
            ShowFault::Unit(_) | ShowFault::Message(_) | ShowFault::BadHex(_) => true,
            ShowFault::Record(_) | ShowFault::Septets(_) | ShowFault::LineTooLong => true,
            ShowFault::BadScheme | ShowFault::Read | ShowFault::Write => false,
            ShowFault::Memory => false,
        }
    }
}

impl Reason for ShowFault {
    fn words(&self, alloc: Global) -> Result<String, AllocError> {
        self.to_string(alloc)
    }

    fn explain(&self, line: &mut Line) {
        if let ShowFault::BadHex(spot) = self {
            spot.put(line);
        }
    }

    fn place(&self) -> Option<usize> {
        match self {
            ShowFault::Unit(fault) => Some(fault.place),
            ShowFault::Message(fault) => Some(fault.place),
            ShowFault::Record(fault) => Some(fault.place),
            ShowFault::Septets(fault) => Some(fault.place),
            ShowFault::BadHex(spot) => Some(spot.place),
            _ => None,
        }
    }

    fn reason(&self, alloc: Global) -> Result<String, AllocError> {
        match self {
            ShowFault::Unit(fault) => fault.why.to_string(alloc),
            ShowFault::Message(fault) => fault.why.to_string(alloc),
            ShowFault::Record(fault) => fault.why.to_string(alloc),
            ShowFault::Septets(fault) => fault.why.to_string(alloc),
            _ => self.to_string(alloc),
        }
    }
}

impl From<AllocError> for ShowFault {
    fn from(_error: AllocError) -> ShowFault {
        ShowFault::Memory
    }
}

impl From<PageFault> for ShowFault {
    fn from(fault: PageFault) -> ShowFault {
        match fault {
            PageFault::Output(error) if error.kind() != io::ErrorKind::OutOfMemory => {
                ShowFault::Write
            }
            _ => ShowFault::Memory,
        }
    }
}

impl From<FeedFault> for ShowFault {
    fn from(fault: FeedFault) -> ShowFault {
        match fault {
            FeedFault::Page(fault) => ShowFault::from(fault),
            FeedFault::Read(_) => ShowFault::Read,
        }
    }
}

impl From<sms_field::Fault<UnitFault>> for ShowFault {
    fn from(fault: sms_field::Fault<UnitFault>) -> ShowFault {
        ShowFault::Unit(fault)
    }
}

impl From<sms_field::Fault<RelayFault>> for ShowFault {
    fn from(fault: sms_field::Fault<RelayFault>) -> ShowFault {
        ShowFault::Message(fault)
    }
}

impl From<sms_field::Fault<RecordFault>> for ShowFault {
    fn from(fault: sms_field::Fault<RecordFault>) -> ShowFault {
        ShowFault::Record(fault)
    }
}

impl From<sms_field::Fault<DataFault>> for ShowFault {
    fn from(fault: sms_field::Fault<DataFault>) -> ShowFault {
        ShowFault::Septets(fault)
    }
}
