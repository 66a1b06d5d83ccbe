//! A gateway's traffic: SMS-DELIVERs of many origins, one a line, segments of some texts at a time
//! among each other.

ghost use Rattle.std.specs.Prelude.{◌≡◌, ◌+◌, ◌-◌, ◌%◌, ◌≤◌};

use crate::chance::Chance;
use crate::date::date_of;
use crate::lines::Maker;
use crate::pool::Units;
use std::alloc::AllocError;
use std::collections::VecDeque;

/// Of what shape the traffic is.
#[derive(Clone, Copy)]
pub struct Shape {
    /// How many texts are on their way at a time.
    pub flights: usize,
    /// How many origins there are.
    pub origins: usize,
    /// One line in so many is at fault. A segment that was spoiled comes once more.
    pub fault: usize,
    /// One line in so many is a unit that came before and was not spoiled; none at 0.
    pub repeat: usize,
    /// Among so many lines such a unit was sent.
    pub recent: usize,
    /// Whether most of these came shortly before.
    pub is_soon: bool,
    /// Of so many texts of several segments one lacks a segment; none at 0.
    pub lost: usize,
    /// Of so many segments one never comes; none at 0.
    pub lost_segments: usize,
    /// How many seconds the clock goes on before each line.
    pub pace: u64,
    /// Whether the address of a service centre stands before each unit, and other units than
    /// SMS-DELIVER are among them.
    pub has_centre: bool,
    /// Whether the texts have letters that are escaped, and come from names too, in lines that have
    /// lower case digits or blanks.
    pub has_letters: bool,
}

/// A text of which segments are on their way.
#[derive(Clone, Copy)]
pub struct Flight {
    /// Which of the pool's texts it is.
    text: usize,
    /// The number of its origin.
    origin: usize,
    /// The reference of its segments.
    reference: u8,
    /// The segment that comes first; the others follow, the first of all after the last.
    first: usize,
    /// How many segments have come.
    come: usize,
    /// How many of its segments come.
    comes: usize,
    /// When the segment that comes next was taken by its centre, in seconds.
    taken: u64,
}

/// What makes traffic.
#[derive(Drop)]
pub struct Traffic {
    pub shape: Shape,
    pub chance: Chance,
    pub pool: Vec<Units>,
    pub flights: Vec<Flight>,
    /// The flights of the last units that were not spoiled, each as it was before its unit.
    pub sent: VecDeque<Flight>,
    /// How many lines are still to come.
    pub left: u64,
    /// The seconds of the stamps.
    pub clock: u64,
    /// The number of the text begun last.
    pub begun: usize,
    /// Room for the digits of a line, which is kept.
    pub digits: Vec<u8>,
}

/// The last digit of a number.
fn digit(number: u64) -> u8
    ensures { result ≡ 48 + number % 10 }
{
    b'0' + (number % 10) as u8
}

/// Puts two digits, of which the lower one stands first.
fn put_two(room: &mut [u8], place: usize, number: u64) {
    if let Some(own) = room.get_mut(place..) {
        if let [low, high, ..] = own {
            *low = digit(number);
            *high = digit(number / 10);
        }
    }
}

/// Puts the stamp (TP-SCTS) of so many seconds.
fn put_stamp(room: &mut [u8], seconds: u64) {
    let mut place = 0_usize;
    for number in date_of(seconds) {
        put_two(room, place, number);
        place = place.saturating_add(2);
    }
}

/// Puts the last eight digits, and the half octet that is none, of the address +4670 with seven
/// digits of a number after it (TP-OA).
fn put_origin(room: &mut [u8], number: usize) {
    let number = number as u64;
    put_two(room, 4, number / 100_000);
    put_two(room, 6, number / 1_000);
    put_two(room, 8, number / 10);
    if let Some(own) = room.get_mut(10..) {
        if let [none, last, ..] = own {
            *none = b'F';
            *last = digit(number);
        }
    }
}

/// Puts a reference in two hexadecimal digits.
fn put_reference(room: &mut [u8], reference: u8) {
    if let [high, low, ..] = room {
        *high = b"0123456789ABCDEF"[usize::from(reference / 16)];
        *low = b"0123456789ABCDEF"[usize::from(reference % 16)];
    }
}

/// Puts what is a unit's own: its origin where that is a number, its stamp, and its reference where
/// it is a segment of several, behind the stamp, TP-UDL, the header's length, and the identifier
/// and the length of its first element.
fn put_own(unit: &mut [u8], flight: Flight, units: &Units) {
    if !units.is_named {
        if let Some(room) = unit.get_mut(6..18) {
            put_origin(room, flight.origin);
        }
    }
    if let Some(room) = unit.get_mut(units.stamp..) {
        put_stamp(room, flight.taken);
    }
    if units.lines.len() > 1 {
        if let Some(room) = unit.get_mut(units.stamp.saturating_add(22)..) {
            put_reference(room, flight.reference);
        }
    }
}

/// The address of a service centre.
static CENTRE: &[u8] = b"07917283010010F5";

/// A status report, of which the stamp stands at 20.
static STATUS_REPORT: &[u8] = b"06070B916407000000F0421010000000004210100000000000";

/// A report of an accepted submission, of which the stamp stands at 4.
static ACCEPTED: &[u8] = b"010042101000000000";

/// Among so many of the last units are most that come again shortly after.
const SOON: usize = 100;

/// Makes the digits that stand from a place on lower case.
fn lower(room: &mut Vec<u8>, start: usize) {
    for octet in room.as_mut_slice().get_mut(start..).into_iter().flatten() {
        *octet = octet.to_ascii_lowercase();
    }
}

/// Adds digits with a blank behind each octet.
fn put_spread(room: &mut Vec<u8>, digits: &[u8]) -> Result<(), AllocError> {
    let (octets, last) = digits.as_chunks::<2>();
    for octet in octets {
        room.extend_from_slice(octet.as_slice())?;
        room.push(b' ')?;
    }
    room.extend_from_slice(last)
}

/// Puts an octet at a place.
fn put_octet(room: &mut Vec<u8>, place: usize, octet: u8) {
    if let Some(own) = room.as_mut_slice().get_mut(place) {
        *own = octet;
    }
}

/// Puts the stamp of a report that stands from a place on.
fn put_report_stamp(room: &mut Vec<u8>, place: usize, clock: u64) {
    if let Some(own) = room.as_mut_slice().get_mut(place..) {
        put_stamp(own, clock);
    }
}

impl Traffic {
    /// A text that begins.
    fn begin(&mut self) -> Flight {
        self.begun = self.begun.wrapping_add(1);
        let text = self.chance.below(self.pool.len());
        let count = self.count_of(text);
        let lost = self.lost_of(count);
        Flight {
            text,
            origin: self.chance.below(self.shape.origins),
            reference: (self.begun % 256) as u8,
            first: self.chance.below(count),
            come: 0,
            comes: count.saturating_sub(lost),
            taken: self.clock,
        }
    }

    /// How many segments of a text of so many never come. One comes always.
    fn lost_of(&mut self, count: usize) -> usize
        ensures { result ≤ count - 1 }
    {
        if count < 2 {
            return 0;
        }
        let mut lost = usize::from(self.chance.once_in(self.shape.lost));
        for _ in 0..count {
            if self.chance.once_in(self.shape.lost_segments) {
                lost = lost.saturating_add(1);
            }
        }
        lost.min(count - 1)
    }

    /// How many segments a text has.
    fn count_of(&self, text: usize) -> usize {
        match self.pool.get(text) {
            Some(units) => units.lines.len(),
            None => 0,
        }
    }

    /// The flights, each with a text that begins.
    pub fn fill(&mut self) -> Result<(), AllocError> {
        for _ in 0..self.shape.flights {
            let flight = self.begin();
            self.flights.push(flight)?;
        }
        Ok(())
    }

    /// Adds the next segment of a flight.
    fn put_segment(&mut self, flight: Flight, room: &mut Vec<u8>) -> Result<(), AllocError> {
        let count = self.count_of(flight.text);
        let Some(units) = self.pool.get(flight.text) else {
            return Ok(());
        };
        let place = match flight.first.wrapping_add(flight.come).checked_rem(count) {
            Some(place) => place,
            None => 0,
        };
        let start = room.len();
        if let Some(line) = units.lines.get(place) {
            room.extend_from_slice(line.as_bytes())?;
        }
        if let Some(unit) = room.as_mut_slice().get_mut(start..) {
            put_own(unit, flight, units);
        }
        Ok(())
    }

    /// Notes a unit that was sent.
    fn note(&mut self, flight: Flight) -> Result<(), AllocError> {
        self.sent.push_back(flight)?;
        if self.sent.len() > self.shape.recent {
            let _ = self.sent.pop_front();
        }
        Ok(())
    }

    /// A flight goes on: its next segment is taken, or another text begins after its last one.
    fn after(&mut self, flight: Flight) -> Flight {
        let come = flight.come.wrapping_add(1);
        if come >= flight.comes {
            return self.begin();
        }
        Flight {
            come,
            taken: self.clock,
            ..flight
        }
    }

    /// Adds a unit of a flight, which goes on where the unit is not spoiled.
    fn put_next(&mut self, room: &mut Vec<u8>, is_spoiled: bool) -> Result<(), AllocError> {
        let which = self.chance.below(self.flights.len());
        let Some(flight) = self.flights.get(which).copied() else {
            return Ok(());
        };
        self.put_segment(flight, room)?;
        if is_spoiled {
            return Ok(());
        }
        self.note(flight)?;
        let next = self.after(flight);
        if let Some(own) = self.flights.as_mut_slice().get_mut(which) {
            *own = next;
        }
        Ok(())
    }

    /// Which of the last units comes again.
    fn sent_before(&mut self) -> usize {
        let count = self.sent.len();
        if !self.shape.is_soon {
            return self.chance.below(count);
        }
        let among = if self.chance.once_in(10) {
            count
        } else {
            count.min(SOON)
        };
        count
            .saturating_sub(1)
            .saturating_sub(self.chance.below(among))
    }

    /// Adds a unit: the next one of a flight, or one that was sent before.
    fn put_unit(&mut self, room: &mut Vec<u8>, is_spoiled: bool) -> Result<(), AllocError> {
        if self.chance.once_in(self.shape.repeat) {
            let which = self.sent_before();
            if let Some(flight) = self.sent.get(which).copied() {
                return self.put_segment(flight, room);
            }
        }
        self.put_next(room, is_spoiled)
    }

    /// Adds a report of either kind.
    fn put_report(&mut self, room: &mut Vec<u8>) -> Result<(), AllocError> {
        let start = room.len();
        if self.chance.once_in(2) {
            room.extend_from_slice(STATUS_REPORT)?;
            put_report_stamp(room, start.saturating_add(20), self.clock);
        } else {
            room.extend_from_slice(ACCEPTED)?;
            put_report_stamp(room, start.saturating_add(4), self.clock);
        }
        Ok(())
    }

    /// Adds a unit of any kind, after the address of a centre where there is one.
    fn put_any(&mut self, room: &mut Vec<u8>, is_spoiled: bool) -> Result<(), AllocError> {
        if !self.shape.has_centre {
            return self.put_unit(room, is_spoiled);
        }
        room.extend_from_slice(CENTRE)?;
        if self.chance.once_in(4) {
            self.put_report(room)
        } else {
            self.put_unit(room, is_spoiled)
        }
    }

    /// Spoils the line that stands from a place on: it is cut after its first digit or a later one,
    /// has a wrong digit there, or its first length, that of a centre's address or of an origin, is
    /// above what there may be.
    fn spoil(&mut self, room: &mut Vec<u8>, start: usize) {
        let later = room.len().saturating_sub(start).saturating_sub(1);
        let place = start
            .saturating_add(1)
            .saturating_add(self.chance.below(later));
        let length = start.saturating_add(if self.shape.has_centre { 0 } else { 2 });
        match self.chance.below(3) {
            0 => room.truncate(place),
            1 => put_octet(room, place, b'G'),
            _ => put_octet(room, length, b'9'),
        }
    }

    /// Writes the line that stands from a place on with a blank behind each octet.
    fn spread(&mut self, room: &mut Vec<u8>, start: usize) -> Result<(), AllocError> {
        self.digits.clear();
        self.digits
            .extend_from_slice(room.get(start..).unwrap_or(&[]))?;
        room.truncate(start);
        put_spread(room, self.digits.as_slice())
    }

    /// Leaves the line that stands from a place on, or writes it with lower case digits, with
    /// blanks, or with both.
    fn write_otherwise(&mut self, room: &mut Vec<u8>, start: usize) -> Result<(), AllocError> {
        let way = self.chance.below(4);
        if way % 2 == 1 {
            lower(room, start);
        }
        if way >= 2 {
            self.spread(room, start)?;
        }
        Ok(())
    }
}

impl Maker for Traffic {
    fn make(&mut self, room: &mut Vec<u8>) -> Result<bool, AllocError> {
        if self.left == 0 {
            return Ok(false);
        }
        self.left -= 1;
        self.clock = self.clock.wrapping_add(self.shape.pace);
        let start = room.len();
        let is_spoiled = self.chance.once_in(self.shape.fault);
        self.put_any(room, is_spoiled)?;
        if is_spoiled {
            self.spoil(room, start);
        }
        if self.shape.has_letters {
            self.write_otherwise(room, start)?;
        }
        room.push(b'\n')?;
        Ok(true)
    }
}
