//! Why octets are no state.

ghost use Rattle.std.specs.Prelude.{◌≡◌, length};
ghost use Rattle.sms_saved.specs.declared.fault.Stop.TheVariants.{Memory, At};

use std::alloc::{AllocError, AllocFailed};
use thiserror::Error;

/// What is wrong with octets that are no state.
#[derive(Clone, Copy, Debug, PartialEq, Eq, Error)]
pub enum StateFault {
    /// They do not begin as a state does.
    #[error("no saved state")]
    NotAState,
    /// They are a state of this higher version.
    #[error("saved state of version {0}")]
    Newer(u8),
    /// A field passes the end.
    #[error("short")]
    Short,
    /// An octet says none of the forms that may follow it.
    #[error("bad flag")]
    Flag,
    /// The limits are not those of the joiner.
    #[error("other limits")]
    OtherLimits,
    /// An address has more than `ADDRESS_MAX` octets.
    #[error("address too long")]
    LongAddress,
    /// A septet is 128 or above.
    #[error("not a septet")]
    NotSeptet,
    /// There are more than the limits say.
    #[error("too many")]
    TooMany,
    /// A set has no piece, or each.
    #[error("set not open")]
    NotOpen,
    /// The number of an opening is not above the one before, or not below the next.
    #[error("openings out of order")]
    OutOfOrder,
    /// The key stands before.
    #[error("key repeated")]
    Repeated,
    /// More than a checksum stands after the last field.
    #[error("octets after the end")]
    Trailing,
    /// The checksum is not that of the octets before it.
    #[error("bad checksum")]
    Checksum,
}

/// The first fault from the left.
#[derive(Clone, Copy, Debug, PartialEq, Eq, Error)]
#[error("at {place}: {why}")]
pub struct Fault {
    /// At which octet it is, counted from 0.
    pub place: usize,
    /// What is wrong.
    pub why: StateFault,
}

/// Why no state was read.
#[derive(Clone, Copy, Debug, PartialEq, Eq, Error)]
pub enum ReadFault {
    /// Memory ran out.
    #[error("out of memory")]
    Memory,
    /// The octets are no state.
    #[error("{0}")]
    At(Fault),
}

/// A fault by the number of octets that are left where it stands.
#[derive(Clone, Copy, Debug, PartialEq, Eq)]
pub(crate) struct Halt {
    pub(crate) left: usize,
    pub(crate) why: StateFault,
}

/// Why a field was not read.
#[derive(Debug, Drop)]
pub(crate) enum Stop {
    Memory,
    At(Halt),
}

/// A fault where these octets are left.
pub(crate) fn halted(rest: &[u8], why: StateFault) -> Stop
    ensures { result ≡ At (record { left = length rest.now; why = why }) }
{
    Stop::At(Halt {
        left: rest.len(),
        why,
    })
}

impl From<AllocError> for Stop {
    ghost from_gives = { λ _ e. e ≡ Memory };

    fn from(_e: AllocError) -> Stop {
        Stop::Memory
    }
}

impl<T: Drop> From<AllocFailed<T>> for Stop {
    ghost from_gives = { λ _ e. e ≡ Memory };

    fn from(_e: AllocFailed<T>) -> Stop {
        Stop::Memory
    }
}
