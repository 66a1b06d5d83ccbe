//! What a joiner holds.

use crate::address::AddressOctets;

/// What a joiner is made with.
#[derive(Clone, Copy, Debug, PartialEq, Eq)]
pub struct Limits {
    /// How many sets may be open.
    pub sets: u64,
    /// How many keys of finished messages are remembered.
    pub keys: u64,
    /// For how many seconds a set may be open.
    pub age_of_sets: u64,
    /// For how many seconds a key is remembered, or for ever.
    pub age_of_keys: Option<u64>,
    /// Whether messages in one piece are passed through.
    pub passes_singles: bool,
}

/// Which information element tells a segment's place: of 00 the reference has eight bits, of 08
/// sixteen (3GPP TS 23.040, 9.2.3.24.1 and 9.2.3.24.8).
#[derive(Clone, Copy, Debug, PartialEq, Eq)]
pub enum Width {
    Eight,
    Sixteen,
}

/// Which message of a sender it is.
#[derive(Clone, Copy, Debug, PartialEq, Eq)]
pub enum Message {
    /// A message in one piece.
    Single {
        /// Its time stamp (TP-SCTS), as its seven octets.
        stamp: [u8; 7],
    },
    /// A message in segments, by what their information elements share.
    Segmented {
        /// Which element it is.
        width: Width,
        /// The reference number of the concatenated short message.
        reference: u16,
        /// The maximum number of short messages in the concatenated short message.
        maximum: u8,
    },
}

/// What a message is known by.
#[derive(Debug, Drop)]
pub struct Key {
    /// Whom it is from (TP-OA).
    pub origin: AddressOctets,
    /// For whom it is, if this is told.
    pub recipient: Option<AddressOctets>,
    /// Which of the sender's messages it is.
    pub message: Message,
}

/// The units of a piece.
#[derive(Debug, Drop)]
pub enum Units {
    /// Septets of the default alphabet, each below 128.
    Gsm(Vec<u8>),
    /// 16-bit units of UCS-2.
    Ucs2(Vec<u16>),
}

/// The pieces of a message that is not whole.
#[derive(Debug, Drop)]
pub struct OpenSet {
    /// What it is known by.
    pub key: Key,
    /// When its first piece came, in seconds.
    pub moment: u64,
    /// The number of its opening.
    pub opening: u64,
    /// For each sequence from 1 to the maximum the units, if they have come.
    pub places: Vec<Option<Units>>,
}

/// The key of a message that finished.
#[derive(Debug, Drop)]
pub struct Remembered {
    /// What it is known by.
    pub key: Key,
    /// When it finished, in seconds.
    pub moment: u64,
}

/// All that a joiner holds, and how far its input was taken.
#[derive(Debug, Drop)]
pub struct State {
    /// What the joiner was made with.
    pub limits: Limits,
    /// How many lines of its input were taken.
    pub taken: u64,
    /// The number of the next opening.
    pub next: u64,
    /// The open sets, in order of their openings.
    pub sets: Vec<OpenSet>,
    /// The remembered keys, the oldest first.
    pub keys: Vec<Remembered>,
}
