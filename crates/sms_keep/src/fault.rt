//! Why no joiner was read back.

ghost use Rattle.std.specs.Prelude.{◌≡◌};
ghost use Rattle.sms_keep.specs.declared.fault.ReadFault.TheVariants.{Memory};

use sms_saved::StateFault;
use std::alloc::AllocError;
use thiserror::Error;

/// What is wrong with octets that are no state of a joiner.
#[derive(Clone, Copy, Debug, PartialEq, Eq, Error)]
pub enum HeldFault {
    /// They are no state, or of a joiner with other limits.
    #[error("{0}")]
    State(StateFault),
    /// A key has octets that are no address, or are not those that it is written as.
    #[error("bad address")]
    Address,
    /// A remembered key finished before the one ahead of it.
    #[error("moments out of order")]
    Moments,
}

/// The first fault from the left.
#[derive(Clone, Copy, Debug, PartialEq, Eq, Error)]
#[error("at {place}: {why}")]
pub struct Fault {
    /// At which octet it is, counted from 0: of an address or a moment the first octet of the set
    /// or remembered key.
    pub place: usize,
    /// What is wrong.
    pub why: HeldFault,
}

/// Why no joiner was read back.
#[derive(Clone, Copy, Debug, PartialEq, Eq, Error)]
pub enum ReadFault {
    /// Memory ran out.
    #[error("out of memory")]
    Memory,
    /// The octets are no state of this joiner.
    #[error("{0}")]
    At(Fault),
}

impl From<AllocError> for ReadFault {
    ghost from_gives = { λ _ e. e ≡ Memory };

    fn from(_e: AllocError) -> ReadFault {
        ReadFault::Memory
    }
}
