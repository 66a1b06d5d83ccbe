//! What becomes of a piece that is offered.

ghost use Rattle.std.specs.Prelude.{◌≡◌};
ghost use Rattle.sms_join.specs.declared.offer.OfferFault.TheVariants.{Memory};

use std::alloc::AllocError;
use thiserror::Error;

/// The answer to a piece.
#[derive(Drop)]
pub enum Offer {
    /// The piece is there already, or its set is among the last that finished, as many as are
    /// remembered, however long ago: nothing changes.
    Repeat,
    /// The piece is kept, and others are missing.
    Kept,
    /// With the piece its set is whole: the text.
    Finished(String),
}

/// Why a piece is not taken. The joiner is then as it was.
#[derive(Clone, Copy, Debug, PartialEq, Eq, Error)]
pub enum OfferFault {
    /// The piece is of a new set, and as many sets are open as may be.
    #[error("too many open")]
    TooManyOpen,
    /// Memory ran out.
    #[error("out of memory")]
    Memory,
}

impl From<AllocError> for OfferFault {
    ghost from_gives = { λ _ e. e ≡ Memory };

    fn from(_e: AllocError) -> OfferFault {
        OfferFault::Memory
    }
}
