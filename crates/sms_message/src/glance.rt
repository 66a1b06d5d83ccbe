//! What octets are at a glance: as much of the message as is known without memory.

ghost use Rattle.std.specs.Prelude.{◌≡◌};
ghost use Rattle.sms_relay.specs.Carried.InnerSeen.{seen_inner};
ghost use Rattle.sms_message.specs.Message.Glance.{relay_glance, glance_of, IsSeenAs, HasGlanceTag, glance_in, flag_of};

use crate::look::look_at;
use crate::message::{Message, Relay, Tag};
use sms_relay::{InnerView, RpBodyView, Side};

/// The octets of a CP-DATA at a glance.
#[derive(Clone, Copy, Debug, PartialEq, Eq)]
pub enum RelayGlance {
    /// RP-DATA of this side.
    Transfer(Side),
    /// RP-ACK or RP-ERROR of this side.
    Answer(Side),
    /// They are no RP message.
    NoRelay,
}

/// A message at a glance: its unit and its report are not looked at.
#[derive(Clone, Copy, Debug, PartialEq, Eq)]
pub enum Glance {
    /// The octets are no CP message.
    NotCp,
    /// CP-ACK or CP-ERROR.
    Note {
        flag: bool,
        value: u8,
    },
    /// CP-DATA of fewer than two octets.
    Tiny {
        flag: bool,
        value: u8,
    },
    /// CP-DATA; the reference is the second of its octets.
    Data {
        flag: bool,
        tag: Tag,
        relay: RelayGlance,
    },
}

impl Glance {
    /// Whether the message is of a transaction that the side it comes to has opened.
    pub fn flag(self) -> bool
        ensures { result ≡ flag_of self }
    {
        match self {
            Glance::NotCp => false,
            Glance::Note { flag, .. } => flag,
            Glance::Tiny { flag, .. } => flag,
            Glance::Data { flag, .. } => flag,
        }
    }
}

impl Relay {
    /// The octets at a glance.
    pub fn glance(&self) -> RelayGlance
        ensures { result ≡ relay_glance self.now }
    {
        match self {
            Relay::Transfer { side, .. } => RelayGlance::Transfer(*side),
            Relay::Answer { side, .. } => RelayGlance::Answer(*side),
            Relay::UnknownType => RelayGlance::NoRelay,
            Relay::Unreadable => RelayGlance::NoRelay,
        }
    }
}

impl Message {
    /// The message at a glance.
    pub fn glance(&self) -> Glance
        ensures { result ≡ glance_of self.now }
    {
        match self {
            Message::NotCp => Glance::NotCp,
            Message::Note { flag, value } => Glance::Note {
                flag: *flag,
                value: *value,
            },
            Message::Tiny { flag, value } => Glance::Tiny {
                flag: *flag,
                value: *value,
            },
            Message::Data { flag, tag, relay } => Glance::Data {
                flag: *flag,
                tag: *tag,
                relay: relay.glance(),
            },
        }
    }
}

/// What is found in a CP-DATA.
pub(crate) fn relay_at(inner: &InnerView<'_>) -> RelayGlance
    ensures { result ≡ glance_in (seen_inner inner.now) }
{
    match inner {
        InnerView::Relay(message) => match &message.body {
            RpBodyView::Transfer { .. } => RelayGlance::Transfer(message.side),
            RpBodyView::Ack { .. } => RelayGlance::Answer(message.side),
            RpBodyView::Fail { .. } => RelayGlance::Answer(message.side),
        },
        InnerView::Bad { .. } => RelayGlance::NoRelay,
        InnerView::Empty => RelayGlance::NoRelay,
    }
}

/// The message as which octets are read, at a glance. It takes no memory.
pub fn glance_at(octets: &[u8]) -> Glance
    ensures seen { IsSeenAs octets.now result }
    ensures tagged { HasGlanceTag result }
{
    look_at(octets).glance()
}
