//! Whether `accepted` means accepted in what has happened.

use crate::order::TextSegment;

/// How an event came after which a text may be shown as accepted that was not: each breaks one of
/// the three conditions under which what is shown as accepted was.
#[derive(Clone, Copy, Debug, PartialEq, Eq)]
pub enum Ground {
    /// An RP-ACK or RP-ERROR came to this phone with the transaction value and the RP reference of
    /// the last submission that the phone has put out, and it answers an earlier one: answers are
    /// to answer what they name.
    AnswerToAnother {
        /// The phone, counted from 0.
        phone: usize,
    },
    /// An SMS-SUBMIT with TP-RD 1 came to the centre where an accepted one of another segment, with
    /// its phone, its message reference and its destination address, had not ended: no message
    /// reference is to be used again meanwhile.
    ReferenceUsedAgain {
        /// The segment that it brought.
        segment: TextSegment,
    },
    /// Octets came that nobody had put out: nothing is to be injected.
    Injected,
}

/// The first event that broke one of the conditions.
#[derive(Clone, Copy, Debug, PartialEq, Eq)]
pub struct Doubt {
    /// Its number among all events, counted from 1.
    pub event: u64,
    /// How it broke the condition.
    pub why: Ground,
}
