//! Whether what has happened came in order.

/// How an event came out of order: each breaks one of the four conditions under which each phone's
/// store is exactly the texts typed to it of which every segment was taken. Where one event breaks
/// two of them, a key used again is told, and not the late segment.
#[derive(Clone, Copy, Debug, PartialEq, Eq)]
pub enum Disorder {
    /// An SMS-SUBMIT came to the centre although the validity of an accepted one of the same
    /// segment had ended: repeats are to come in time.
    RepeatAfterTheEnd,
    /// An SMS-SUBMIT with TP-RD 0 came to the centre although one of the same segment was accepted
    /// whose validity has not ended: repeats are to ask for the rejection of duplicates.
    RepeatWithoutRejection,
    /// A segment of a concatenated text came to a phone where another text with its key was open,
    /// or among the last that finished: no key is to be used again meanwhile.
    KeyUsedAgain,
    /// A segment of a finished text came to its phone once more, and the text was not among the
    /// last that finished: late segments are to fall within what is remembered.
    LateSegmentForgotten,
    /// Octets came that nobody had put out: nothing is to be injected.
    Injected,
}

/// A segment of a typed text.
#[derive(Clone, Copy, Debug, PartialEq, Eq)]
pub struct TextSegment {
    /// The phone at which the text was typed, counted from 0.
    pub phone: usize,
    /// As which of the texts of this phone, counted from 1.
    pub text: usize,
    /// Which of its segments, counted from 1.
    pub segment: usize,
}

/// The first event that came out of order.
#[derive(Clone, Copy, Debug, PartialEq, Eq)]
pub struct Breach {
    /// Its number among all events, counted from 1.
    pub event: u64,
    /// How it came out of order.
    pub disorder: Disorder,
    /// The segment that it brought. An injection brings none.
    pub segment: Option<TextSegment>,
}
