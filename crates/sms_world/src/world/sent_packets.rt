//! The packets that were put out, and their octets.

ghost use Rattle.std.specs.Prelude.{◌≡◌, ◌≤◌, ◌<◌, ◌+◌, ◌++◌, ◌∷◌, [], length, IfOk, IfSome, Some, None, slice_get};
ghost use Rattle.std.specs.Option.{option_map, IfNone};
ghost use Rattle.sms_message.specs.Does.{packets_of};
ghost use Rattle.sms_script.specs.Transcript.Shown.{shown};
ghost use Rattle.sms_world.specs.Inside.Parties.{on_way};
ghost use Rattle.sms_world.specs.Inside.SentPackets.{octets_among, CopiedBehind};

use sms_message::{Outcome, Spare, Step};
use sms_script::Packet;
use std::alloc::{AllocError, Global};
use std::marker::Model;

/// Where the octets of a packet begin among those of all packets, and how many they are.
#[derive(Clone, Copy)]
struct Place {
    start: u32,
    size: u16,
}

/// A packet that was put out, with its way. Its octets lie among those of all packets, from
/// `start` on, as many as `size` says; or, where they could not be copied, in a list of its own.
#[derive(Drop)]
struct Kept {
    own: Vec<u8>,
    /// The phone that it comes from or goes to.
    phone: usize,
    start: u32,
    size: u16,
    /// Whether it goes from the phone up to the centre, and not down to the phone.
    up: bool,
}

/// Packets in the order in which they were put out. The octets of all lie in one list, which grows
/// by doubling: it is simpler than pages, and where it cannot grow a packet keeps the list that it
/// came in, so that keeping a packet takes no memory that must be there.
#[derive(Drop)]
pub(crate) struct SentPackets {
    alloc: Global,
    octets: Vec<u8>,
    packets: Vec<Kept>,
}

impl Model for SentPackets {
    ghost use Rattle.sms_world.specs.Inside.SentPackets.{SentPacketsValue, packets_in, LieWithin};
    ghost use Rattle.std.specs.Prelude.{◌-◌, length};
    ghost use Rattle.std.specs.Vec.{vec_len, vec_capacity};

    ghost Value = { SentPacketsValue };

    ghost view = { λ s. record {
      items = packets_in s.octets.items s.packets.items;
      room = vec_capacity s.packets - vec_len s.packets;
    } };

    ghost invariant = { λ s. LieWithin (length s.octets.items) s.packets.items };
}

/// Copies octets behind all others. If there is no room for them, and none is to be had, nothing
/// has changed.
fn copy_behind(all: &mut Vec<u8>, octets: &[u8]) -> Option<Place>
    ensures copied { CopiedBehind all.old.items octets.now result all.new.items }
{
    if all.len() > u32::MAX as usize || octets.len() > u16::MAX as usize {
        return None;
    }
    let place = Place {
        start: all.len() as u32,
        size: octets.len() as u16,
    };
    all.extend_from_slice(octets).ok()?;
    Some(place)
}

/// The octets of a packet, those of all packets given.
fn octets_of<'a>(all: &'a [u8], kept: &'a Kept) -> &'a [u8]
    requires { kept.now.start + kept.now.size ≤ length all.now }
    ensures { result.now ≡ octets_among all.now kept.now.start kept.now.size kept.now.own.items }
{
    if !kept.own.is_empty() {
        return kept.own.as_slice();
    }
    let start = kept.start as usize;
    &all[start..start + kept.size as usize]
}

impl SentPackets {
    /// No packets.
    pub(crate) fn new(alloc: Global) -> SentPackets
        ensures { result.items ≡ [] }
    {
        SentPackets {
            alloc,
            octets: Vec::new(alloc),
            packets: Vec::new(alloc),
        }
    }

    /// How many packets there are.
    pub(crate) fn len(&self) -> usize
        ensures { result ≡ length self.now.items }
    {
        self.packets.len()
    }

    /// The packet at this place, counted from 0.
    pub(crate) fn at(&self, index: usize) -> Packet<'_>
        requires { index < length self.now.items }
        ensures { slice_get self.now.items index ≡ Some (shown result) }
    {
        let kept = &self.packets[index];
        Packet {
            up: kept.up,
            phone: kept.phone,
            octets: octets_of(self.octets.as_slice(), kept),
        }
    }

    /// The packet at this place, counted from 0, if there are as many.
    pub(crate) fn get(&self, index: usize) -> Option<Packet<'_>>
        ensures { option_map shown result ≡ slice_get self.now.items index }
    {
        if index >= self.len() {
            return None;
        }
        Some(self.at(index))
    }

    /// Makes room for the packets of a step, two at most. If memory runs out, nothing has changed.
    pub(crate) fn make_room(&mut self) -> Result<(), AllocError>
        ensures items { self.new.items ≡ self.old.items }
        ensures room { IfOk result (λ _. 2 ≤ self.new.room) }
    {
        self.packets.reserve(2)
    }

    /// Puts a packet behind all others, for which there is room. The list that its octets came in
    /// is spare where they were copied.
    fn push(&mut self, spare: &mut Spare, up: bool, phone: usize, octets: Vec<u8>)
        requires { 1 ≤ self.old.room }
        ensures items { self.new.items
            ≡ self.old.items ++ record { is_up = up; phone = phone; octets = octets.items } ∷ [] }
        ensures room { self.new.room + 1 ≡ self.old.room }
    {
        match copy_behind(&mut self.octets, octets.as_slice()) {
            Some(place) => {
                self.packets.push_reserved(Kept {
                    own: Vec::new(self.alloc),
                    phone,
                    start: place.start,
                    size: place.size,
                    up,
                });
                spare.give(octets);
            }
            None => {
                self.packets.push_reserved(Kept {
                    own: octets,
                    phone,
                    start: 0,
                    size: 0,
                    up,
                });
            }
        }
    }

    /// Keeps the packets of a step, for which there is room. The lists that they came in are spare
    /// from then on.
    pub(crate) fn keep(&mut self, spare: &mut Spare, up: bool, phone: usize, step: Step) -> Outcome
        requires { length step.packets.items ≤ self.old.room }
        ensures outcome { result ≡ step.outcome }
        ensures packets { self.new.items ≡ self.old.items ++ on_way up phone (packets_of step) }
    {
        for octets in step.packets {
            self.push(spare, up, phone, octets);
        }
        step.outcome
    }
}
