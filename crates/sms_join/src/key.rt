//! The identity of a set of segments.

ghost use Rattle.std.specs.Prelude.{◌≡◌, option_copied};
ghost use Rattle.sms_join.specs.Key.{same_key, is_for, origin_of, recipient_of, maximum_of};
ghost use Rattle.sms_join.specs.Piece.{key_to};
ghost use Rattle.sms_join.specs.Inside.KeyParts.{same_place, has_numbers};

use sms_field::{Address, Stamp};
use sms_tpdu::{Concat, Width};
use std::alloc::Global;

/// What a set of segments is known by.
#[derive(Debug, PartialEq, Eq, Drop)]
pub enum Key {
    /// A message in one piece.
    Single {
        /// Whom it is from (TP-OA).
        origin: Address,
        /// Its time stamp (TP-SCTS).
        stamp: Stamp,
    },
    /// A message in segments: whom it is from, and what the information elements 00 or 08 of its
    /// segments share (3GPP TS 23.040, 9.2.3.24.1 and 9.2.3.24.8).
    Segmented {
        /// Whom it is from (TP-OA).
        origin: Address,
        /// Which element it is: of 00 the reference has eight bits, of 08 sixteen.
        width: Width,
        /// The reference number of the concatenated short message.
        reference: u16,
        /// The maximum number of short messages in the concatenated short message.
        maximum: u8,
    },
    /// A message in one piece for a recipient.
    SingleTo {
        /// For whom it is, as the gateway says.
        recipient: Address,
        /// Whom it is from (TP-OA).
        origin: Address,
        /// Its time stamp (TP-SCTS).
        stamp: Stamp,
    },
    /// A message in segments for a recipient.
    SegmentedTo {
        /// For whom it is, as the gateway says.
        recipient: Address,
        /// Whom it is from (TP-OA).
        origin: Address,
        /// Which element it is: of 00 the reference has eight bits, of 08 sixteen.
        width: Width,
        /// The reference number of the concatenated short message.
        reference: u16,
        /// The maximum number of short messages in the concatenated short message.
        maximum: u8,
    },
}

/// Whether these are the numbers of a place.
#[inline(always)]
#[tactic(auto, unfolding(crate::specs::Key::same_width))]
fn are_of(width: Width, reference: u16, maximum: u8, place: Concat) -> bool
    ensures { result ≡ same_place width reference maximum place }
{
    reference == place.reference && maximum == place.maximum && width == place.width
}

impl Key {
    /// The key of a message without a recipient, or of the message that a segment is of.
    fn alone(origin: Address, stamp: Stamp, concat: Option<Concat>) -> Key
        ensures { result ≡ key_to None origin stamp concat }
    {
        match concat {
            None => Key::Single { origin, stamp },
            Some(concat) => Key::Segmented {
                origin,
                width: concat.width,
                reference: concat.reference,
                maximum: concat.maximum,
            },
        }
    }

    /// The same for a recipient.
    fn to(recipient: Address, origin: Address, stamp: Stamp, concat: Option<Concat>) -> Key
        ensures { result ≡ key_to (Some recipient) origin stamp concat }
    {
        match concat {
            None => Key::SingleTo {
                recipient,
                origin,
                stamp,
            },
            Some(concat) => Key::SegmentedTo {
                recipient,
                origin,
                width: concat.width,
                reference: concat.reference,
                maximum: concat.maximum,
            },
        }
    }

    /// The key of a message, or of the message that a segment is of. It takes no memory.
    pub(crate) fn of(
        alloc: Global,
        to: Option<&Address>,
        origin: &Address,
        stamp: Stamp,
        concat: Option<Concat>,
    ) -> Key
        ensures { result ≡ key_to (option_copied to.entry) origin.now stamp concat }
    {
        let origin = origin.copy(alloc).unwrap();
        match to {
            None => Key::alone(origin, stamp, concat),
            Some(recipient) => { Key::to(recipient.copy(alloc).unwrap(), origin, stamp, concat) }
        }
    }

    /// Whether it has the time stamp of such a message, or the numbers of such a segment.
    #[inline(always)]
    fn has_numbers(&self, stamp: Stamp, concat: Option<Concat>) -> bool
        ensures { result ≡ has_numbers self.now stamp concat }
    {
        match (self, concat) {
            (Key::Single { stamp: own, .. }, None) => *own == stamp,
            (Key::SingleTo { stamp: own, .. }, None) => *own == stamp,
            (
                Key::Segmented {
                    width,
                    reference,
                    maximum,
                    ..
                },
                Some(place),
            ) => are_of(*width, *reference, *maximum, place),
            (
                Key::SegmentedTo {
                    width,
                    reference,
                    maximum,
                    ..
                },
                Some(place),
            ) => are_of(*width, *reference, *maximum, place),
            _ => false,
        }
    }

    /// Whether it is for this recipient, or for none.
    #[inline(always)]
    #[tactic(auto, unfolding(crate::specs::Key::same_recipient))]
    fn is_to(&self, to: Option<&Address>) -> bool
        ensures { result ≡ is_for (option_copied to.entry) self.now }
    {
        match (self.recipient(), to) {
            (None, None) => true,
            (Some(own), Some(to)) => own.is_same(to),
            _ => false,
        }
    }

    /// Whether it is the key of such a message or segment. The numbers are compared first: they
    /// differ more often than addresses, and in less time.
    pub(crate) fn is_of(
        &self,
        to: Option<&Address>,
        origin: &Address,
        stamp: Stamp,
        concat: Option<Concat>,
    ) -> bool
        ensures { result
            ≡ same_key self.now (key_to (option_copied to.entry) origin.now stamp concat) }
    {
        if !self.has_numbers(stamp, concat) {
            return false;
        }
        self.is_to(to) && self.origin().is_same(origin)
    }

    /// A time stamp and a place of its pieces: a message or segment with these, from its origin and
    /// for its recipient, has this key.
    #[inline(always)]
    pub(crate) fn piece(&self) -> (Stamp, Option<Concat>)
        ensures { key_to (recipient_of self.now) (origin_of self.now) result.0 result.1
            ≡ self.now }
    {
        match self {
            Key::Single { stamp, .. } | Key::SingleTo { stamp, .. } => (*stamp, None),
            Key::Segmented {
                width,
                reference,
                maximum,
                ..
            }
            | Key::SegmentedTo {
                width,
                reference,
                maximum,
                ..
            } => {
                let place = Concat {
                    width: *width,
                    reference: *reference,
                    maximum: *maximum,
                    sequence: 1,
                };
                (Stamp::new([0; 7]), Some(place))
            }
        }
    }

    /// Whom its pieces are from (TP-OA).
    pub fn origin(&self) -> &Address
        ensures { result.now ≡ origin_of self.now }
    {
        match self {
            Key::Single { origin, .. } => origin,
            Key::Segmented { origin, .. } => origin,
            Key::SingleTo { origin, .. } => origin,
            Key::SegmentedTo { origin, .. } => origin,
        }
    }

    /// For whom they are, as the gateway says, where it says so.
    pub fn recipient(&self) -> Option<&Address>
        ensures { option_copied result ≡ recipient_of self.now }
    {
        match self {
            Key::Single { .. } => None,
            Key::Segmented { .. } => None,
            Key::SingleTo { recipient, .. } => Some(recipient),
            Key::SegmentedTo { recipient, .. } => Some(recipient),
        }
    }

    /// How many pieces the set has: one for a message in one piece.
    pub fn maximum(&self) -> u8
        ensures { result ≡ maximum_of self.now }
    {
        match self {
            Key::Single { .. } => 1,
            Key::Segmented { maximum, .. } => *maximum,
            Key::SingleTo { .. } => 1,
            Key::SegmentedTo { maximum, .. } => *maximum,
        }
    }
}
