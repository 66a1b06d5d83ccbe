//! Why nothing came of an event.

ghost use Rattle.std.specs.Prelude.{◌≡◌};
ghost use Rattle.sms_message.specs.declared.outcome.Dropped.TheVariants.{Memory};
ghost use Rattle.sms_world.specs.declared.fault.WorldFault.TheVariants.{Party};

use sms_message::Dropped;
use std::alloc::AllocError;
use thiserror::Error;

/// Why nothing came of an event.
#[derive(Clone, Copy, Debug, PartialEq, Eq, Error)]
pub enum WorldFault {
    /// No packet of this number was put out.
    #[error("fault no such packet")]
    NoSuchPacket,
    /// There is no phone of this number.
    #[error("fault no such phone")]
    NoSuchPhone,
    /// The clock would reach the end of 2099.
    #[error("fault clock end")]
    ClockEnd,
    /// A party dropped what came.
    #[error("{0}")]
    Party(Dropped),
}

impl From<Dropped> for WorldFault {
    ghost from_gives = { λ d f. f ≡ Party d };

    fn from(d: Dropped) -> WorldFault {
        WorldFault::Party(d)
    }
}

impl From<AllocError> for WorldFault {
    ghost from_gives = { λ _ f. f ≡ Party Memory };

    fn from(_e: AllocError) -> WorldFault {
        WorldFault::Party(Dropped::Memory)
    }
}
