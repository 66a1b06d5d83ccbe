//! A packet that was looked at once: what it is at a glance, and then the message.

ghost use Rattle.std.specs.Prelude.{◌≡◌, IfOk, IfErr, OnErr};
ghost use Rattle.sms_text.specs.Octets.{IsOctets};
ghost use Rattle.sms_message.specs.Message.Glance.{IsSeenAs, HasGlanceTag};
ghost use Rattle.sms_message.specs.Message.Reading.{ReadsAs, IsLongData, HasTag};
ghost use Rattle.sms_message.specs.declared.outcome.Dropped.TheVariants.{Memory};

use crate::glance::{Glance, relay_at};
use crate::message::{Message, Tag};
use crate::outcome::Dropped;
use crate::reading::relay_in;
use sms_relay::{CpBodyView, InnerView, unwrap_view};
use std::alloc::Global;
use std::marker::Model;

/// A packet that was unwrapped once. Of its octets only the unit or report is still to be read,
/// where the message is asked for. Contracts see it as the octets.
#[derive(Drop)]
pub struct Look<'a> {
    octets: &'a [u8],
    /// What the octets are at a glance.
    glance: Glance,
    /// What is found in a CP-DATA.
    inner: InnerView<'a>,
}

impl<'a> Model for Look<'a> {
    ghost use Rattle.std.specs.Prelude.{ℕ, List};
    ghost use Rattle.sms_relay.specs.Carried.InnerSeen.{seen_inner};
    ghost use Rattle.sms_message.specs.Inside.Looked.{IsLookedAt};

    ghost Value = { List ℕ };

    ghost view = { λ l. l.octets.now };

    ghost invariant = { λ l. IsLookedAt l.octets.now l.glance (seen_inner l.inner) };
}

/// Looks at the octets of a packet. It takes no memory.
pub fn look_at<'a>(octets: &'a [u8]) -> Look<'a>
    ensures { result ≡ octets.now }
{
    let Ok((connection, inner)) = unwrap_view(octets) else {
        return Look {
            octets,
            glance: Glance::NotCp,
            inner: InnerView::Empty,
        };
    };
    let flag = connection.flag;
    let value = connection.value;
    let CpBodyView::Transfer(user) = connection.body else {
        return Look {
            octets,
            glance: Glance::Note { flag, value },
            inner,
        };
    };
    let [_, reference, ..] = user.as_slice() else {
        return Look {
            octets,
            glance: Glance::Tiny { flag, value },
            inner,
        };
    };
    let tag = Tag {
        value,
        reference: *reference,
    };
    let relay = relay_at(&inner);
    Look {
        octets,
        glance: Glance::Data { flag, tag, relay },
        inner,
    }
}

impl<'a> Look<'a> {
    /// The message as which the octets are read, at a glance.
    pub fn glance(&self) -> Glance
        ensures seen { IsSeenAs self.now result }
        ensures tagged { HasGlanceTag result }
        ensures octets { IsOctets self.now }
    {
        self.glance
    }

    /// The message as which the octets are read. Memory is asked for a CP-DATA of two octets or
    /// more alone.
    pub fn message(&self, alloc: Global) -> Result<Message, Dropped>
        ensures read { IfOk result (ReadsAs self.now) }
        ensures tagged { IfOk result HasTag }
        ensures err { IfErr result (λ e. e ≡ Memory) }
        ensures data { OnErr result (IsLongData self.now) }
    {
        match self.glance {
            Glance::NotCp => Ok(Message::NotCp),
            Glance::Note { flag, value } => Ok(Message::Note { flag, value }),
            Glance::Tiny { flag, value } => Ok(Message::Tiny { flag, value }),
            Glance::Data { flag, tag, .. } => {
                let relay = relay_in(alloc, &self.inner)?;
                Ok(Message::Data { flag, tag, relay })
            }
        }
    }
}
