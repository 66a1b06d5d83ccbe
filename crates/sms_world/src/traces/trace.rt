//! What is noted of packets, and what a packet brings.

ghost use Rattle.std.specs.Prelude.{◌≡◌};
ghost use Rattle.sms_centre.specs.Centre.Value.{phones_of};
ghost use Rattle.sms_message.specs.declared.message.Message.{Message};
ghost use Rattle.sms_message.specs.Message.Carrying.{Carries};
ghost use Rattle.sms_tpdu.specs.Submit.{Submission, SpellsSubmit};
ghost use Rattle.sms_world.specs.Inside.TraceValue.{IsBroughtBy};
ghost use Rattle.sms_world.specs.Traces.{seen_of, seen_submission};
ghost use Rattle.sms_world.specs.World.Steps.{event_of};

use crate::notes::mark::Part;
use crate::world::World;
use sms_message::Tag;
use sms_relay::{InnerView, RpBodyView, Side, unwrap_view};
use sms_script::Event;
use sms_tpdu::SubmitView;
use std::alloc::Global;

/// What is noted of a packet.
#[derive(Clone, Copy, Debug, PartialEq, Eq)]
pub(crate) struct Trace {
    /// Of one to the centre, the segment that it is of.
    pub segment: Option<Part>,
    /// Which putting out of its phone it is, or came of.
    pub putting: Option<u64>,
}

/// What a packet is, as far as it matters whether `accepted` means accepted.
#[derive(Clone, Copy, Debug, PartialEq, Eq)]
pub(crate) enum Seen {
    /// An SMS-SUBMIT: its TP-RD and its TP-MR, the phone that has its TP-DA, and the end of its
    /// validity if it is accepted now.
    Submits {
        reject: bool,
        reference: u8,
        recipient: Option<usize>,
        ends: Option<u64>,
    },
    /// An answer to what a phone has sent.
    Answers {
        tag: Tag,
    },
    /// Neither.
    Other,
}

/// What a packet brings, and where it goes.
#[derive(Clone, Copy, Debug, PartialEq, Eq)]
pub(crate) struct Brought {
    /// Whether it goes up to the centre, and not down to the phone.
    pub up: bool,
    pub phone: usize,
    pub seen: Seen,
}

/// What an event brings. It takes no memory.
pub(crate) fn brought_by(alloc: Global, world: &World, event: &Event) -> Option<Brought>
    ensures { IsBroughtBy world.now (event_of event.now) result }
{
    let Event::Carry(number) = event else {
        return None;
    };
    if *number == 0 || *number > world.packet_count() as u64 {
        return None;
    }
    let packet = world.packet_on_way(*number as usize)?;
    Some(Brought {
        up: packet.up,
        phone: packet.phone,
        seen: seen_in(alloc, world, packet.octets),
    })
}

/// What octets are that a packet carries.
fn seen_in(alloc: Global, world: &World, octets: &[u8]) -> Seen
    ensures { (v : Message) → Carries octets.now v
        → result ≡ seen_of (phones_of world.now.parties.centre) world.now.clock v }
{
    let Ok((connection, inner)) = unwrap_view(octets) else {
        return Seen::Other;
    };
    let InnerView::Relay(relay) = inner else {
        return Seen::Other;
    };
    match &relay.body {
        RpBodyView::Transfer { user, .. } => match (connection.flag, relay.side) {
            (false, Side::FromPhone) => submission_in(alloc, world, user.as_slice()),
            _ => Seen::Other,
        },
        RpBodyView::Ack { .. } | RpBodyView::Fail { .. } => {
            if !connection.flag {
                return Seen::Other;
            }
            Seen::Answers {
                tag: Tag {
                    value: connection.value,
                    reference: relay.reference,
                },
            }
        }
    }
}

/// What an SMS-SUBMIT in these octets is.
fn submission_in(alloc: Global, world: &World, octets: &[u8]) -> Seen
    ensures { (s : Submission) → SpellsSubmit s octets.now
        → result ≡ seen_submission (phones_of world.now.parties.centre) world.now.clock s }
{
    let Ok((view, _)) = SubmitView::read(octets) else {
        return Seen::Other;
    };
    let Ok(target) = view.target.to_value(alloc) else {
        return Seen::Other;
    };
    let recipient = world.recipient_of(&target);
    Seen::Submits {
        reject: view.reject,
        reference: view.reference,
        recipient,
        ends: view.validity.ends(world.clock()).ok(),
    }
}
