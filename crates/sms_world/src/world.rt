//! A world of phones, the centre, and all packets.

mod parties;
mod sent_packets;
pub(crate) mod way;

ghost use Rattle.std.specs.Prelude.{◌≡◌, ◌≢◌, ◌≤◌, ◌<◌, ◌-◌, ◌+◌, ◌++◌, IfOk, IfSome, OnErr, length, slice_get};
ghost use Rattle.std.specs.Str.{chars};
ghost use Rattle.std.specs.Option.{option_map};
ghost use Rattle.sms_field.specs.Time.Computed.{end_of_2099};
ghost use Rattle.sms_party.specs.Sender.Value.{status_among};
ghost use Rattle.sms_script.specs.Meaning.Known.{ArePhones};
ghost use Rattle.sms_script.specs.Play.Runs.{IsTick};
ghost use Rattle.sms_script.specs.Script.Limits.{AreLimits};
ghost use Rattle.sms_script.specs.Transcript.Shown.{shown};
ghost use Rattle.sms_world.specs.Headline.OfRun.{KeepsPromises};
ghost use Rattle.sms_world.specs.Machine.{start};
ghost use Rattle.sms_world.specs.Machine.Event.{Compose, Carry, Timeout, Push, Tick, Inject};
ghost use Rattle.sms_centre.specs.Centre.Latest.{latest_at};
ghost use Rattle.sms_centre.specs.Centre.Value.{phones_of};
ghost use Rattle.sms_message.specs.Address.{phone_at};
ghost use Rattle.sms_world.specs.World.Asked.{newest_at};
ghost use Rattle.sms_world.specs.Inside.Asked.{way_at, way_at_phone, way_of_packet};
ghost use Rattle.sms_world.specs.World.Parties.{place_at};
ghost use Rattle.sms_world.specs.World.Phones.{store_in, statuses_at};
ghost use Rattle.sms_world.specs.World.Standing.{StandsFor, ComesOfRun};
ghost use Rattle.sms_world.specs.World.Claims.{StoresAreWhole, RefusesOnlyWhereFull};
ghost use Rattle.sms_world.specs.World.Claims.{AcceptsOnce, AcceptedWereAccepted, CopiesMayComeInTime};
ghost use Rattle.sms_world.specs.World.Steps.{event_of, PutsMore, Steps, IfNowhere};
ghost use Rattle.sms_world.specs.World.Steps.{GivesPacket, GivesStore, GivesStatus};

use crate::fault::WorldFault;
use crate::laws::{claims_hold, deliveries_are_refused_only_where_full, laws_below};
use crate::world::parties::Parties;
use crate::world::sent_packets::SentPackets;
use crate::world::way::Way;
use sms_field::{Address, END_OF_2099};
use sms_message::{Dropped, Outcome, Spare};
use sms_party::{Entry, Status};
use sms_script::{Event, Limits, Packet};
use std::alloc::{AllocError, Global};
use std::marker::Model;

/// Phones that send and receive, the service centre between them, and every packet that was ever
/// put out. Phones are counted from 0, packets and the texts of a phone from 1. The clock counts
/// seconds since the beginning of 2000, and stands below the end of 2099.
#[derive(Drop)]
pub struct World {
    limits: Limits,
    clock: u64,
    parties: Parties,
    packets: SentPackets,
    /// Lists that packets came in, for those that are put out next.
    spare: Spare,
}

impl Model for World {
    ghost use Rattle.sms_world.specs.World.Standing.{IsWorld};
    ghost use Rattle.sms_world.specs.World.Value.{WorldValue};

    ghost Value = { WorldValue };

    ghost view = { λ w. record {
      limits = w.limits;
      clock = w.clock;
      parties = w.parties;
      packets = w.packets.items;
    } };

    ghost invariant = { λ w. IsWorld (record {
      limits = w.limits;
      clock = w.clock;
      parties = w.parties;
      packets = w.packets.items;
    }) };
}

impl World {
    /// A world in which nothing has happened: phones of these addresses, which are different and at
    /// most 100, and a centre between them. The limits are in their ranges. The clock stands at the
    /// beginning of 2000.
    pub fn new(alloc: Global, limits: Limits, phones: &[Address]) -> Result<World, AllocError>
        requires limits { AreLimits limits }
        requires phones { ArePhones phones.now }
        ensures stands { IfOk result (λ w. StandsFor w (start limits phones.now)) }
        ensures phones { IfOk result (λ w. length w.parties.phones ≡ length phones.now) }
    {
        laws_below();
        Ok(World {
            limits,
            clock: 0,
            parties: Parties::new(alloc, limits, phones)?,
            packets: SentPackets::new(alloc),
            spare: Spare::new(alloc),
        })
    }

    /// Each world stands for a state that some run led to. The contract is this law; nothing is
    /// done.
    pub fn comes_of_a_run(&self)
        ensures { ComesOfRun self.now }
    {
        let _limits = self.limits;
    }

    /// What happens at an event. If it answers a fault, the clock, the phones, the centre and the
    /// packets stand as before; where there is no such packet or phone, or the clock would reach
    /// its end, the world is as it was.
    ///
    /// A text is typed at a phone, a packet comes to its destination, a phone has waited long
    /// enough for an answer, the centre hands a message to a phone, the clock moves on by some
    /// seconds, or octets come that nobody put out.
    pub fn step(&mut self, event: &Event) -> Result<Outcome, WorldFault>
        ensures steps { Steps (event_of event.now) self.old result self.new }
        ensures phones { length self.new.parties.phones ≡ length self.old.parties.phones }
        ensures packets { PutsMore self.old self.new }
        ensures kept { OnErr result (self.new.packets ≡ self.old.packets) }
        ensures unmoved { IfNowhere result (self.new ≡ self.old) }
        ensures ticks { IsTick event.now → self.new.packets ≡ self.old.packets }
        ensures whole { StoresAreWhole self.new }
        ensures refused { RefusesOnlyWhereFull (event_of event.now) self.old result self.new }
        ensures once { AcceptsOnce self.new }
        ensures accepted { AcceptedWereAccepted self.new }
        ensures copies { CopiesMayComeInTime self.new }
        ensures promised { KeepsPromises self.new }
    {
        claims_hold();
        deliveries_are_refused_only_where_full();
        self.happen(event)
    }

    /// What happens at an event, by cases.
    fn happen(&mut self, event: &Event) -> Result<Outcome, WorldFault>
        ensures steps { Steps (event_of event.now) self.old result self.new }
        ensures phones { length self.new.parties.phones ≡ length self.old.parties.phones }
        ensures packets { PutsMore self.old self.new }
        ensures kept { OnErr result (self.new.packets ≡ self.old.packets) }
        ensures unmoved { IfNowhere result (self.new ≡ self.old) }
        ensures ticks { IsTick event.now → self.new.packets ≡ self.old.packets }
    {
        match event {
            Event::Compose {
                phone,
                target,
                text,
            } => self.compose(*phone, target, text.as_str()),
            Event::Carry(number) => self.carry(*number),
            Event::Timeout(phone) => self.time_out(*phone),
            Event::Push(phone) => self.push(*phone),
            Event::Tick(seconds) => self.tick(*seconds),
            Event::Inject { up, phone, octets } => self.inject(*up, *phone, octets.as_slice()),
        }
    }

    /// A text is typed at a phone.
    fn compose(&mut self, phone: usize, target: &Address, text: &str) -> Result<Outcome, WorldFault>
        ensures steps { Steps (Compose phone target.now (chars text.now)) self.old result self.new }
        ensures phones { length self.new.parties.phones ≡ length self.old.parties.phones }
        ensures packets { PutsMore self.old self.new }
        ensures kept { OnErr result (self.new.packets ≡ self.old.packets) }
        ensures unmoved { IfNowhere result (self.new ≡ self.old) }
    {
        laws_below();
        if phone >= self.parties.count() {
            return Err(WorldFault::NoSuchPhone);
        }
        self.packets.make_room()?;
        let step = self
            .parties
            .type_text(&mut self.spare, phone, target, text)?;
        Ok(self.packets.keep(&mut self.spare, true, phone, step))
    }

    /// A packet comes to its destination.
    fn carry(&mut self, number: u64) -> Result<Outcome, WorldFault>
        ensures steps { Steps (Carry number) self.old result self.new }
        ensures phones { length self.new.parties.phones ≡ length self.old.parties.phones }
        ensures packets { PutsMore self.old self.new }
        ensures kept { OnErr result (self.new.packets ≡ self.old.packets) }
        ensures unmoved { IfNowhere result (self.new ≡ self.old) }
    {
        laws_below();
        if number == 0 || number > self.packets.len() as u64 {
            return Err(WorldFault::NoSuchPacket);
        }
        self.packets.make_room()?;
        let packet = self.packets.at(number as usize - 1);
        let (up, phone) = (packet.up, packet.phone);
        let step = self
            .parties
            .receive(&mut self.spare, self.clock, up, phone, packet.octets)?;
        Ok(self.packets.keep(&mut self.spare, !up, phone, step))
    }

    /// A phone has waited long enough for an answer.
    fn time_out(&mut self, phone: usize) -> Result<Outcome, WorldFault>
        ensures steps { Steps (Timeout phone) self.old result self.new }
        ensures phones { length self.new.parties.phones ≡ length self.old.parties.phones }
        ensures packets { PutsMore self.old self.new }
        ensures kept { OnErr result (self.new.packets ≡ self.old.packets) }
        ensures unmoved { IfNowhere result (self.new ≡ self.old) }
    {
        laws_below();
        if phone >= self.parties.count() {
            return Err(WorldFault::NoSuchPhone);
        }
        self.packets.make_room()?;
        let step = self.parties.timeout(&mut self.spare, phone)?;
        Ok(self.packets.keep(&mut self.spare, true, phone, step))
    }

    /// The centre hands a message to a phone.
    fn push(&mut self, phone: usize) -> Result<Outcome, WorldFault>
        ensures steps { Steps (Push phone) self.old result self.new }
        ensures phones { length self.new.parties.phones ≡ length self.old.parties.phones }
        ensures packets { PutsMore self.old self.new }
        ensures kept { OnErr result (self.new.packets ≡ self.old.packets) }
        ensures unmoved { IfNowhere result (self.new ≡ self.old) }
    {
        laws_below();
        if phone >= self.parties.count() {
            return Err(WorldFault::NoSuchPhone);
        }
        self.packets.make_room()?;
        let step = self.parties.push(&mut self.spare, self.clock, phone)?;
        Ok(self.packets.keep(&mut self.spare, false, phone, step))
    }

    /// The clock moves on by some seconds. It takes no memory.
    fn tick(&mut self, seconds: u64) -> Result<Outcome, WorldFault>
        ensures steps { Steps (Tick seconds) self.old result self.new }
        ensures phones { length self.new.parties.phones ≡ length self.old.parties.phones }
        ensures packets { self.new.packets ≡ self.old.packets }
        ensures unmoved { IfNowhere result (self.new ≡ self.old) }
    {
        if seconds >= END_OF_2099 - self.clock {
            return Err(WorldFault::ClockEnd);
        }
        self.clock += seconds;
        self.parties.advance(self.clock);
        Ok(Outcome::Ticked)
    }

    /// Octets that nobody put out come to the centre from a phone, or to a phone.
    fn inject(&mut self, up: bool, phone: usize, octets: &[u8]) -> Result<Outcome, WorldFault>
        ensures steps { Steps (Inject (place_at up phone) octets.now) self.old result self.new }
        ensures phones { length self.new.parties.phones ≡ length self.old.parties.phones }
        ensures packets { PutsMore self.old self.new }
        ensures kept { OnErr result (self.new.packets ≡ self.old.packets) }
        ensures unmoved { IfNowhere result (self.new ≡ self.old) }
    {
        laws_below();
        if phone >= self.parties.count() {
            return Err(WorldFault::NoSuchPhone);
        }
        self.packets.make_room()?;
        let step = self
            .parties
            .receive(&mut self.spare, self.clock, up, phone, octets)?;
        Ok(self.packets.keep(&mut self.spare, !up, phone, step))
    }

    /// The octets of the packet of this number, if as many were put out. It takes no memory.
    pub fn packet(&self, number: u64) -> Option<&[u8]>
        ensures carries { let told = option_map (λ octets. octets.now) result in
            GivesPacket self.now number told }
        ensures kept { number ≢ 0 → option_map (λ octets. octets.now) result
            ≡ option_map (λ packet. packet.octets) (slice_get self.now.packets (number - 1)) }
    {
        if number == 0 || number > self.packets.len() as u64 {
            return None;
        }
        Some(self.packets.at(number as usize - 1).octets)
    }

    /// How many packets were ever put out.
    pub fn packet_count(&self) -> usize
        ensures { result ≡ length self.now.packets }
    {
        self.packets.len()
    }

    /// The packet of this number with its way, if as many were put out. The number must be above 0.
    pub fn packet_on_way(&self, number: usize) -> Option<Packet<'_>>
        requires { 1 ≤ number }
        ensures { option_map shown result ≡ slice_get self.now.packets (number - 1) }
    {
        self.packets.get(number - 1)
    }

    /// The texts that came to a phone, in order of completion. The phone must be one of the
    /// world's. It takes no memory.
    pub fn store(&self, phone: usize) -> &[Entry]
        requires { phone < length self.now.parties.phones }
        ensures store { result.now ≡ store_in self.now.parties.phones phone }
        ensures stands { GivesStore self.now phone result.now }
    {
        self.parties.store(phone)
    }

    /// How many texts were typed at a phone. The phone must be one of the world's.
    pub fn typed(&self, phone: usize) -> usize
        requires { phone < length self.now.parties.phones }
        ensures { result ≡ length (statuses_at self.now.parties.phones phone) }
    {
        self.parties.typed(phone)
    }

    /// How many phones there are.
    pub fn phone_count(&self) -> usize
        ensures { result ≡ length self.now.parties.phones }
    {
        self.parties.count()
    }

    /// The limits, and the settings of the phones.
    pub(crate) fn limits(&self) -> Limits
        ensures { result ≡ self.now.limits }
    {
        self.limits
    }

    /// The way of an event that is for a phone or a packet that there is: up to the centre or down
    /// to a phone, and the phone that it is for. A tick has none, nor has an injection.
    pub(crate) fn way_of(&self, event: &Event) -> Option<Way>
        ensures way { result ≡ way_at self.now (event_of event.now) }
        ensures within { IfSome result (λ w. w.phone < length self.now.parties.phones) }
    {
        match event {
            Event::Compose { phone, .. } | Event::Timeout(phone) | Event::Push(phone) => {
                self.way_at_phone(*phone)
            }
            Event::Carry(number) => self.way_of_packet(*number),
            Event::Tick(_) | Event::Inject { .. } => None,
        }
    }

    /// The way of what happens at a phone, if there is one of this number.
    fn way_at_phone(&self, phone: usize) -> Option<Way>
        ensures way { result ≡ way_at_phone self.now phone }
        ensures within { IfSome result (λ w. w.phone < length self.now.parties.phones) }
    {
        if phone >= self.parties.count() {
            return None;
        }
        Some(Way { up: true, phone })
    }

    /// The way of the packet of this number, if as many were put out.
    fn way_of_packet(&self, number: u64) -> Option<Way>
        ensures way { result ≡ way_of_packet self.now number }
        ensures within { IfSome result (λ w. w.phone < length self.now.parties.phones) }
    {
        if number == 0 || number > self.packets.len() as u64 {
            return None;
        }
        let packet = self.packets.at(number as usize - 1);
        Some(Way {
            up: packet.up,
            phone: packet.phone,
        })
    }

    /// Seconds since the beginning of 2000.
    pub(crate) fn clock(&self) -> u64
        ensures clock { result ≡ self.now.clock }
        ensures within { result < end_of_2099 }
    {
        self.clock
    }

    /// Of the text that was typed last at a phone, if one waits: how many segments it has, and its
    /// concatenation reference.
    pub(crate) fn newest(&self, phone: usize) -> Option<(usize, u16)>
        requires { phone < length self.now.parties.phones }
        ensures { result ≡ newest_at self.now.parties.phones phone }
    {
        self.parties.newest(phone)
    }

    /// The stamp of the latest push to a phone, until it is answered.
    pub(crate) fn latest_stamp(&self, phone: usize) -> Option<u64>
        requires { phone < length self.now.parties.phones }
        ensures { result ≡ latest_at self.now.parties.centre.lines phone }
    {
        self.parties.latest_stamp(phone)
    }

    /// The phone with this address.
    pub(crate) fn recipient_of(&self, target: &Address) -> Option<usize>
        ensures { result ≡ phone_at (phones_of self.now.parties.centre) target.now }
    {
        self.parties.recipient_of(target)
    }

    /// How the text of this number of a phone stands; the first typed text has number 1. The phone
    /// must be one of the world's. It takes no memory.
    pub fn status(&self, phone: usize, number: usize) -> Option<Status>
        requires { phone < length self.now.parties.phones }
        ensures status { let all = statuses_at self.now.parties.phones phone in
            result ≡ status_among all number }
        ensures stands { GivesStatus self.now phone number result }
        ensures accepted { AcceptedWereAccepted self.now }
    {
        claims_hold();
        self.parties.status(phone, number)
    }
}
