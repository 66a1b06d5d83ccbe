//! What is wrong with a message of the relay or the connection.

ghost use Rattle.std.specs.Prelude.{◌≡◌};
ghost use Rattle.sms_relay.specs.Fault.{relay_fault};
ghost use Rattle.sms_relay.specs.declared.fault.WrapFault.TheVariants.{Memory};

use sms_field::{FieldFault, Reason};
use std::alloc::{AllocError, AllocFailed};
use thiserror::Error;

/// What is wrong with a message of the relay or the connection.
#[derive(Clone, Copy, Debug, PartialEq, Eq, Error)]
pub enum RelayFault {
    /// Octets are missing at the end.
    #[error("short")]
    Short,
    /// The octets are of another protocol.
    #[error("not sms")]
    NotSms,
    /// The transaction value is reserved.
    #[error("bad transaction")]
    BadTransaction,
    /// The octets are of no known type of message.
    #[error("unknown type")]
    UnknownType,
    /// The address is too long, has a bad digit, or stands where the side has none.
    #[error("bad address")]
    BadAddress,
    /// The cause has another length than 1 or 2.
    #[error("bad cause")]
    BadCause,
    /// The user data are too long.
    #[error("data too long")]
    DataTooLong,
}

impl Reason for RelayFault {
    ghost use Rattle.sms_relay.specs.declared.fault.RelayFault.TheVariants.{Short};

    ghost short = { Short };

    fn short() -> RelayFault {
        RelayFault::Short
    }
}

impl From<FieldFault> for RelayFault {
    ghost from_gives = { λ f r. r ≡ relay_fault f };

    fn from(fault: FieldFault) -> RelayFault {
        match fault {
            FieldFault::Short => RelayFault::Short,
            FieldFault::Address(_) => RelayFault::BadAddress,
        }
    }
}

/// Why a unit was not wrapped.
#[derive(Clone, Copy, Debug, PartialEq, Eq, Error)]
pub enum WrapFault {
    /// The unit has more than 233 octets.
    #[error("data too long")]
    DataTooLong,
    /// Memory ran out.
    #[error("out of memory")]
    Memory,
}

impl From<AllocError> for WrapFault {
    ghost from_gives = { λ _ e. e ≡ Memory };

    fn from(_e: AllocError) -> WrapFault {
        WrapFault::Memory
    }
}

impl<T: Drop> From<AllocFailed<T>> for WrapFault {
    ghost from_gives = { λ _ e. e ≡ Memory };

    fn from(_e: AllocFailed<T>) -> WrapFault {
        WrapFault::Memory
    }
}
