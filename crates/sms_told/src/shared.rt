//! What the segments of a set share.

ghost use Rattle.std.specs.Prelude.{◌≡◌, option_map, IfSome};
ghost use Rattle.sms_join.specs.Key.{maximum_of};
ghost use Rattle.sms_told.specs.Sets.{bits_of, shared_in};

use sms_field::Address;
use sms_join::Key;
use sms_tpdu::Width;
use std::marker::Model;

/// What the segments of a set share.
#[derive(Drop)]
pub(crate) struct Shared<'a> {
    /// For whom they are, where that is told.
    pub(crate) recipient: Option<&'a Address>,
    /// Whom they are from (TP-OA).
    pub(crate) origin: &'a Address,
    /// Of eight bits the reference is told by element 00, of sixteen by 08.
    pub(crate) width: Width,
    /// The reference number of the concatenated short message.
    pub(crate) reference: u16,
    /// The maximum number of short messages in the concatenated short message.
    pub(crate) maximum: u8,
}

impl<'a> Model for Shared<'a> {
    ghost use Rattle.std.specs.Prelude.{option_copied};
    ghost use Rattle.sms_told.specs.Sets.{SharedValue};

    ghost Value = { SharedValue };

    ghost view = { λ s. record {
      recipient = option_copied s.recipient;
      origin = s.origin.now;
      width = s.width;
      reference = s.reference;
      maximum = s.maximum;
    } };
}

/// The bits of a reference.
pub fn bits_of(width: Width) -> u64
    ensures { result ≡ bits_of width }
{
    match width {
        Width::Eight => 8,
        Width::Sixteen => 16,
    }
}

/// What the segments of a set share, where it has segments.
pub(crate) fn shared_in<'a>(key: &'a Key) -> Option<Shared<'a>>
    ensures shared { result ≡ shared_in key.now }
    ensures maximum { IfSome result (λ shared. shared.maximum ≡ maximum_of key.now) }
{
    match key {
        Key::Segmented {
            origin,
            width,
            reference,
            maximum,
        } => Some(Shared {
            recipient: None,
            origin,
            width: *width,
            reference: *reference,
            maximum: *maximum,
        }),
        Key::SegmentedTo {
            recipient,
            origin,
            width,
            reference,
            maximum,
        } => Some(Shared {
            recipient: Some(recipient),
            origin,
            width: *width,
            reference: *reference,
            maximum: *maximum,
        }),
        Key::Single { .. } | Key::SingleTo { .. } => None,
    }
}
