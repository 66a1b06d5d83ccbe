//! Messages that wait for their delivery.

ghost use Rattle.std.specs.Prelude.{◌≡◌, ◌≤◌, length, IfOk};
ghost use Rattle.sms_tpdu.specs.Deliver.{SpellsDeliver};
ghost use Rattle.sms_relay.specs.declared.user.TheConstants.{USER_DATA_MAX};
ghost use Rattle.sms_centre.specs.Inside.Lines.{delivery_of, front_of, is_awaited};

use crate::centre::stamping::stamp_of;
use sms_field::Address;
use sms_message::{Spare, Tag};
use sms_tpdu::{DeliverFront, Submit};
use std::alloc::{AllocError, Global};
use std::marker::Model;

/// The latest push to a phone.
#[derive(Drop)]
pub struct Push {
    /// The tag of its packet.
    pub tag: Tag,
    /// The moment of its TP-SCTS, in seconds since the beginning of 2000.
    pub stamp: u64,
    /// The end of the message's validity (TP-VP), in seconds since the beginning of 2000.
    pub ends: u64,
}

impl Push {
    /// Whether an answer with this tag is awaited at this moment: the tag is its own, and the
    /// message has not ended.
    pub(crate) fn is_awaited(&self, now: u64, tag: Tag) -> bool
        ensures { result ≡ is_awaited now tag self.now }
    {
        tag.is_same(self.tag) && self.ends > now
    }
}

/// A message that is to be delivered.
#[derive(Drop)]
pub(crate) struct WaitingMessage {
    pub origin: Address,
    pub submission: Submit,
    /// Below the first moment that has no stamp.
    pub stamp: u64,
    pub ends: u64,
}

impl Model for WaitingMessage {
    ghost use Rattle.std.specs.Prelude.{◌<◌};
    ghost use Rattle.sms_field.specs.Time.Computed.{end_of_2099};
    ghost use Rattle.sms_centre.specs.Centre.Value.{WaitingValue};

    ghost Value = { WaitingValue };

    ghost view = { λ m. record {
      origin = m.origin;
      submission = m.submission;
      stamp = m.stamp;
      ends = m.ends;
    } };

    ghost invariant = { λ m. m.stamp < end_of_2099 };
}

impl WaitingMessage {
    /// What stands before the user data of the message on its way to its recipient; `more` says
    /// whether another one waits.
    fn front(&self, alloc: Global, more: bool) -> Result<DeliverFront, AllocError>
        ensures { IfOk result (λ f. f ≡ front_of self.now more) }
    {
        Ok(DeliverFront {
            more,
            looped: false,
            report: false,
            reply: self.submission.reply,
            origin: self.origin.copy(alloc)?,
            pid: self.submission.pid,
            dcs: self.submission.dcs,
            stamp: stamp_of(self.stamp),
        })
    }

    /// The octets of the message on its way to its recipient, in the room of a list that is spare;
    /// `more` says whether another one waits.
    pub(crate) fn delivery(&self, spare: &mut Spare, more: bool) -> Result<Vec<u8>, AllocError>
        ensures spelled { IfOk result (λ octets.
            SpellsDeliver (delivery_of self.now more) octets.items) }
        ensures few { IfOk result (λ octets. length octets.items ≤ USER_DATA_MAX) }
    {
        let front = self.front(spare.alloc(), more)?;
        front.write_with_in(spare.room(), &self.submission.user)
    }
}
