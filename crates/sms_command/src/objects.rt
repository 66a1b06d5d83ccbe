//! What the objects have that tell a run.

ghost use Rattle.std.specs.Prelude.{◌≡◌, true};
ghost use Rattle.std.specs.List.{list_all};
ghost use Rattle.sms_page.specs.Plain.{is_plain};

use crate::run::Running;
use sms_answer::{Line, Members, Printed};
use sms_run::Happened;
use sms_script::{Packet, Script};
use sms_show::put_address;
use sms_world::{
    Breach, Doubt, Ground, Status, TextSegment, disorder_text, ground_text, number_told,
};
use std::alloc::Global;

/// The packets that an event put out.
#[derive(Clone, Copy)]
pub struct Packets<'a>(pub &'a Happened<'a, Running>);

impl Printed for Packets<'_> {
    fn plain(&self, _line: &mut Line) {}

    fn json(&self, members: &mut Members) {
        let happened = self.0;
        let world = happened.machine.world();
        members.open_list();
        for place in happened.packets_before..world.packet_count() {
            if let Some(packet) = world.packet_on_way(place + 1) {
                put_packet(members, happened.script, place, packet);
            }
        }
        members.close_list();
    }
}

/// Adds a packet, whose place counts from 0.
fn put_packet(members: &mut Members, script: &Script, place: usize, packet: Packet<'_>)
    ensures { members.new ≡ members.old }
{
    let name = script.name(packet.phone);
    let (from, to) = if packet.up {
        (name, "centre")
    } else {
        ("centre", name)
    };
    members.open();
    members.name("number");
    members.number((place as u64).saturating_add(1));
    members.text_named("from", from);
    members.text_named("to", to);
    if script.is_brief() {
        members.number_named("length", packet.octets.len() as u64);
    } else {
        members.octets_named("octets", packet.octets);
    }
    members.close();
}

/// What became of the texts that were typed at a phone.
#[derive(Clone, Copy)]
pub struct Sent<'a> {
    pub running: &'a Running,
    pub phone: usize,
}

/// What became of a text, in a word.
pub fn status_word(status: Status) -> &'static str {
    match status {
        Status::Waiting => "waiting",
        Status::Accepted => "accepted",
        Status::Failed => "failed",
    }
}

impl Printed for Sent<'_> {
    fn plain(&self, _line: &mut Line) {}

    fn json(&self, members: &mut Members) {
        members.open_list();
        for place in 0..self.running.typed(self.phone) {
            let number = place.saturating_add(1);
            if let Some(status) = self.running.status(self.phone, number) {
                members.open();
                members.number_named("number", number as u64);
                members.text_named("status", status_word(status));
                members.close();
            }
        }
        members.close_list();
    }
}

/// The texts that came to a phone.
#[derive(Clone, Copy)]
pub struct Stored<'a> {
    pub alloc: Global,
    pub running: &'a Running,
    pub phone: usize,
}

impl Printed for Stored<'_> {
    fn plain(&self, _line: &mut Line) {}

    fn json(&self, members: &mut Members) {
        members.open_list();
        for entry in self.running.store(self.phone) {
            members.open();
            members.name("origin");
            put_address(self.alloc, members, &entry.origin);
            members.text_named("text", entry.text.as_str());
            members.close();
        }
        members.close_list();
    }
}

/// What is told of the order of a run.
#[derive(Clone, Copy)]
pub struct Order<'a> {
    pub script: &'a Script,
    /// The first event that came out of order, if one did.
    pub breach: Option<Breach>,
}

impl Printed for Order<'_> {
    fn plain(&self, _line: &mut Line) {}

    fn json(&self, members: &mut Members) {
        members.open();
        members.name("kept");
        members.flag(self.breach.is_none());
        if let Some(breach) = self.breach {
            let number = number_told(self.script, breach.event);
            members.number_named("event", number);
            members.text_named("condition", disorder_text(breach.disorder));
            put_segment(members, self.script, breach.segment);
        }
        members.close();
    }
}

/// Adds the segment that an event brought, if it brought one.
fn put_segment(members: &mut Members, script: &Script, segment: Option<TextSegment>)
    ensures { members.new ≡ members.old }
{
    let Some(brought) = segment else {
        return;
    };
    members.text_named("phone", script.name(brought.phone));
    members.number_named("text", brought.text as u64);
    members.number_named("segment", brought.segment as u64);
}

/// What is told of `accepted` in a run.
#[derive(Clone, Copy)]
pub struct Acceptance<'a> {
    pub script: &'a Script,
    /// The first event after which it need not mean accepted, if there is one.
    pub doubt: Option<Doubt>,
}

impl Printed for Acceptance<'_> {
    fn plain(&self, _line: &mut Line) {}

    fn json(&self, members: &mut Members) {
        members.open();
        members.name("means");
        members.flag(self.doubt.is_none());
        if let Some(doubt) = self.doubt {
            let number = number_told(self.script, doubt.event);
            members.number_named("event", number);
            members.text_named("condition", ground_text(doubt.why));
            put_bearer(members, self.script, doubt.why);
        }
        members.close();
    }
}

/// Adds the phone to which an answer came, or the segment that was brought.
fn put_bearer(members: &mut Members, script: &Script, why: Ground)
    ensures { members.new ≡ members.old }
{
    match why {
        Ground::AnswerToAnother { phone } => members.text_named("phone", script.name(phone)),
        Ground::ReferenceUsedAgain { segment } => put_segment(members, script, Some(segment)),
        Ground::Injected => {}
    }
}
