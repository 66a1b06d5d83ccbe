//! Why a unit is not encoded.

ghost use Rattle.sms_encode.specs.Inside.Faults.{IsOther};

use crate::addresses::NoAddress;
use sms_page::PageFault;
use sms_show::{ShowFault, Spot};
use std::alloc::{AllocError, AllocFailed};
use std::io;
use thiserror::Error;

/// Why a unit is not encoded. Its text is what a line tells of it.
#[derive(Debug, Drop, Error)]
pub enum EncodeFault {
    /// An option was given that the kind of unit, or a text in one piece, does not have.
    #[error("option not for this kind")]
    WrongOption,
    /// A concatenation reference does not fit its width.
    #[error("reference too large")]
    ReferenceTooLarge,
    /// The word of a stamp is no hexadecimal text of octets.
    #[error("bad hex")]
    BadHex(Spot),
    /// The word of a stamp is no hexadecimal text of seven octets.
    #[error("bad hex")]
    BadStamp,
    /// A text is no address: a character cannot stand where it does, or else it is too long.
    #[error("bad address")]
    BadAddress(Option<Spot>),
    /// The text needs more than one piece.
    #[error("text too long")]
    TextTooLong,
    /// The text needs more segments than can be numbered.
    #[error("too many segments")]
    TooManySegments,
    /// The output takes no more.
    #[error("write failed")]
    Write,
    /// Memory ran out.
    #[error("out of memory")]
    Memory,
}

impl From<AllocError> for EncodeFault {
    ghost from_gives = { λ _ fault. IsOther fault };

    fn from(_error: AllocError) -> EncodeFault {
        EncodeFault::Memory
    }
}

impl<T: Drop> From<AllocFailed<T>> for EncodeFault {
    ghost from_gives = { λ _ fault. IsOther fault };

    fn from(_error: AllocFailed<T>) -> EncodeFault {
        EncodeFault::Memory
    }
}

impl From<NoAddress> for EncodeFault {
    ghost from_gives = { λ _ fault. IsOther fault };

    fn from(fault: NoAddress) -> EncodeFault {
        match fault {
            NoAddress::Bad(spot) => EncodeFault::BadAddress(spot),
            NoAddress::Memory => EncodeFault::Memory,
        }
    }
}

impl From<ShowFault> for EncodeFault {
    ghost from_gives = { λ _ fault. IsOther fault };

    fn from(fault: ShowFault) -> EncodeFault {
        match fault {
            ShowFault::BadHex(spot) => EncodeFault::BadHex(spot),
            _ => EncodeFault::Memory,
        }
    }
}

impl From<PageFault> for EncodeFault {
    ghost from_gives = { λ _ fault. IsOther fault };

    fn from(fault: PageFault) -> EncodeFault {
        match fault {
            PageFault::Output(error) if error.kind() != io::ErrorKind::OutOfMemory => {
                EncodeFault::Write
            }
            _ => EncodeFault::Memory,
        }
    }
}
