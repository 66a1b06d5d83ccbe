//! What is noted of packets and of texts.

/// What a packet brings, as far as it matters whether events come in order.
#[derive(Clone, Copy, Debug, PartialEq, Eq)]
pub(crate) enum Mark {
    /// An SMS-SUBMIT with a segment of a text, and its TP-RD.
    Submits {
        text: usize,
        segment: usize,
        reject: bool,
    },
    /// An SMS-DELIVER with a segment of a text, to a phone.
    Delivers {
        phone: usize,
        text: usize,
        segment: usize,
    },
    /// Neither.
    Neither,
}

/// What does not change of a text.
#[derive(Clone, Copy, Debug, PartialEq, Eq)]
pub(crate) struct TextNote {
    /// At which phone it was typed.
    pub phone: usize,
    /// As which of the texts of this phone, counted from 1.
    pub number: usize,
    /// For which phone, if one has the address.
    pub recipient: Option<usize>,
    /// Of how many segments.
    pub size: usize,
    /// With which concatenation reference, where there is more than one.
    pub reference: u16,
}

/// A segment of a text.
#[derive(Clone, Copy, Debug, PartialEq, Eq, Hash)]
pub(crate) struct Part {
    pub text: usize,
    pub segment: usize,
}

/// The stamp of a message to a recipient.
#[derive(Clone, Copy, Debug, PartialEq, Eq, Hash)]
pub(crate) struct Stamped {
    pub recipient: usize,
    pub stamp: u64,
}

/// What a world tells after an event, beside its answer.
#[derive(Clone, Copy, Debug)]
pub(crate) struct Facts {
    /// How many packets were put out.
    pub put: usize,
    /// The text, where one was typed.
    pub text: TextNote,
    /// The stamp of what was pushed, where something was.
    pub stamp: u64,
    /// Whether what came went up to the centre, and not down to the phone.
    pub up: bool,
    /// The phone that the event is for.
    pub phone: usize,
}
