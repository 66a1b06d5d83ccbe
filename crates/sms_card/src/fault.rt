//! What is wrong with a record.

ghost use Rattle.std.specs.Prelude.{◌≡◌};
ghost use Rattle.sms_card.specs.Fault.{centre_fault, record_fault};
ghost use Rattle.sms_card.specs.declared.fault.WriteFault.TheVariants.{Memory};

use sms_field::{AddressFault, FieldFault, Reason};
use sms_tpdu::UnitFault;
use std::alloc::{AllocError, AllocFailed};
use thiserror::Error;

/// What is wrong with a record.
#[derive(Clone, Copy, Debug, PartialEq, Eq, Error)]
pub enum RecordFault {
    /// Octets are missing at the end.
    #[error("short")]
    Short,
    /// The first octet is no status.
    #[error("bad status")]
    BadStatus,
    /// The address of the service centre is none.
    #[error(transparent)]
    Centre(AddressFault),
    /// The unit is none, or none that the status allows; not `UnitFault::Short`.
    #[error(transparent)]
    Unit(UnitFault),
    /// After the unit stands another octet than FF.
    #[error("not padding")]
    NotPadding,
    /// There are more than 176 octets.
    #[error("other length")]
    OtherLength,
}

impl Reason for RecordFault {
    ghost use Rattle.sms_card.specs.declared.fault.RecordFault.TheVariants.{Short};

    ghost short = { Short };

    fn short() -> RecordFault {
        RecordFault::Short
    }
}

impl From<FieldFault> for RecordFault {
    ghost from_gives = { λ f r. r ≡ centre_fault f };

    fn from(fault: FieldFault) -> RecordFault {
        match fault {
            FieldFault::Short => RecordFault::Short,
            FieldFault::Address(why) => RecordFault::Centre(why),
        }
    }
}

impl From<UnitFault> for RecordFault {
    ghost from_gives = { λ f r. r ≡ record_fault f };

    fn from(fault: UnitFault) -> RecordFault {
        match fault {
            UnitFault::Short => RecordFault::Short,
            UnitFault::WrongType => RecordFault::Unit(UnitFault::WrongType),
            UnitFault::AddressTooLong => RecordFault::Unit(UnitFault::AddressTooLong),
            UnitFault::BadDigit => RecordFault::Unit(UnitFault::BadDigit),
            UnitFault::DataTooLong => RecordFault::Unit(UnitFault::DataTooLong),
            UnitFault::HeaderTooLong => RecordFault::Unit(UnitFault::HeaderTooLong),
        }
    }
}

/// Why a record was not written.
#[derive(Clone, Copy, Debug, PartialEq, Eq, Error)]
pub enum WriteFault {
    /// Status, centre and unit have more than 176 octets.
    #[error("data too long")]
    TooLong,
    /// Memory ran out.
    #[error("out of memory")]
    Memory,
}

impl From<AllocError> for WriteFault {
    ghost from_gives = { λ _ e. e ≡ Memory };

    fn from(_e: AllocError) -> WriteFault {
        WriteFault::Memory
    }
}

impl<T: Drop> From<AllocFailed<T>> for WriteFault {
    ghost from_gives = { λ _ e. e ≡ Memory };

    fn from(_e: AllocFailed<T>) -> WriteFault {
        WriteFault::Memory
    }
}
