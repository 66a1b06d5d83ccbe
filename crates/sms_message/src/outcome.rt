//! What a party answers to a call.

ghost use Rattle.std.specs.Prelude.{◌≡◌};
ghost use Rattle.sms_message.specs.declared.outcome.Dropped.TheVariants.{Memory};
ghost use Rattle.sms_message.specs.Inside.Splitting.{dropped_of};

use arrayvec::ArrayVec;
use sms_join::SplitFault;
use std::alloc::{AllocError, AllocFailed, Global};
use thiserror::Error;

/// What a party did. Texts of a sender are numbered from 1, and so are the segments of a text.
#[derive(Clone, Copy, Debug, PartialEq, Eq)]
pub enum Outcome {
    /// A text was taken, as this one of its phone.
    Typed {
        text: usize,
    },
    /// A segment was accepted, and others of its text follow.
    Segment {
        text: usize,
        segment: usize,
    },
    /// The last segment of a text was accepted.
    Accepted {
        text: usize,
    },
    /// An RP-ERROR has ended a text.
    Failed {
        text: usize,
        /// RP-Cause.
        cause: u8,
        /// TP-FCS, if the RP-ERROR has a report.
        failure: Option<u8>,
    },
    /// The segment that waits for its answer was put out once more.
    Repeated {
        text: usize,
    },
    /// It was put out often enough: its text has failed.
    GaveUp {
        text: usize,
    },
    /// No segment waits for its answer.
    Idle,
    /// The centre accepted a submission.
    Held,
    /// The centre or a receiver refused what came.
    Refused {
        /// RP-Cause.
        cause: u8,
        /// TP-FCS, if the RP-ERROR has a report.
        failure: Option<u8>,
    },
    /// The centre put out a delivery.
    Pushed,
    /// No message waits for this phone.
    NothingWaits,
    /// The latest push was acknowledged.
    Delivered,
    /// The latest push was refused for want of room: the message waits on.
    Returned,
    /// The latest push was refused for good.
    Abandoned,
    /// With the piece that came a text was whole, and was stored.
    Finished,
    /// The piece that came is kept, and others are missing.
    Kept,
    /// The piece that came was there already, or its text is among the last that finished, as many
    /// as are remembered, however long ago.
    Repeat,
    /// The clock has moved.
    Ticked,
    /// A CP-ACK or CP-ERROR came.
    Noted,
}

/// Why nothing came of a call.
#[derive(Clone, Copy, Debug, PartialEq, Eq, Error)]
pub enum Dropped {
    /// The octets are no CP message.
    #[error("drop not cp")]
    NotCp,
    /// No message of this kind is waited for.
    #[error("drop unmatched")]
    Unmatched,
    /// As many texts wait as may.
    #[error("drop busy")]
    Busy,
    /// Memory ran out.
    #[error("drop memory")]
    Memory,
    /// The text has more than 255 segments.
    #[error("drop too many segments")]
    TooManySegments,
}

/// The packets that a party puts out in a step, the first first. They lie in the value itself.
pub type Packets = ArrayVec<Vec<u8>, 2, Global>;

/// What a party did, and the packets that it put out, two at most.
#[derive(Drop)]
pub struct Step {
    pub outcome: Outcome,
    pub packets: Packets,
}

impl From<AllocError> for Dropped {
    ghost from_gives = { λ _ d. d ≡ Memory };

    fn from(_e: AllocError) -> Dropped {
        Dropped::Memory
    }
}

impl<T: Drop> From<AllocFailed<T>> for Dropped {
    ghost from_gives = { λ _ d. d ≡ Memory };

    fn from(_e: AllocFailed<T>) -> Dropped {
        Dropped::Memory
    }
}

impl From<SplitFault> for Dropped {
    ghost from_gives = { λ e d. d ≡ dropped_of e };

    fn from(e: SplitFault) -> Dropped {
        match e {
            SplitFault::TooManySegments => Dropped::TooManySegments,
            SplitFault::Memory => Dropped::Memory,
        }
    }
}
