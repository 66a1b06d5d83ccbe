//! The rows and the packets of a chart, in which each arrival is searched for and counted: the
//! plain form, with which the other is compared.

use sms_world::{Event, Outcome, World, WorldFault};
use std::alloc::Global;
use std::test::Fail;

/// What happens in a row of the chart, as far as packets arrive.
#[derive(Clone, Copy, Debug, PartialEq, Eq)]
pub enum Doing {
    /// A packet arrives, as this one counted from 0.
    Arrival(usize),
    /// Something else.
    Else,
}

/// A row of the chart: an event.
#[derive(Clone, Copy)]
pub struct Row {
    pub doing: Doing,
}

/// A packet of the chart.
#[derive(Clone, Copy)]
pub struct Sent {
    pub up: bool,
    /// How often it was carried.
    pub carried: usize,
}

/// Collects a run for its chart.
#[derive(Drop)]
pub struct Collected {
    pub rows: Vec<Row>,
    pub packets: Vec<Sent>,
}

/// Where an event has its place.
fn doing_of(event: &Event, answer: Result<Outcome, WorldFault>) -> Doing {
    if answer == Err(WorldFault::NoSuchPacket) {
        return Doing::Else;
    }
    match event {
        Event::Carry(number) => match usize::try_from(*number) {
            Ok(number) => Doing::Arrival(number.saturating_sub(1)),
            Err(_) => Doing::Else,
        },
        _ => Doing::Else,
    }
}

impl Collected {
    /// Before the first event.
    pub fn new(alloc: Global) -> Collected {
        Collected {
            rows: Vec::new(alloc),
            packets: Vec::new(alloc),
        }
    }

    /// Adds the packet of a place.
    fn add_packet(&mut self, world: &World, place: usize) -> Result<(), Fail> {
        let Some(packet) = world.packet_on_way(place.saturating_add(1)) else {
            return Ok(());
        };
        self.packets.push(Sent {
            up: packet.up,
            carried: 0,
        })?;
        Ok(())
    }

    /// A packet arrives.
    fn count_arrival(&mut self, doing: Doing) {
        if let Doing::Arrival(place) = doing {
            if let Some(packet) = self.packets.get_mut(place) {
                packet.carried = packet.carried.saturating_add(1);
            }
        }
    }

    /// Lets an event happen, and adds its row and the packets that it put out.
    pub fn happen(&mut self, world: &mut World, event: &Event) -> Result<(), Fail> {
        let packets_before = world.packet_count();
        let answer = world.step(event);
        let doing = doing_of(event, answer);
        self.rows.push(Row { doing })?;
        self.count_arrival(doing);
        for place in packets_before..world.packet_count() {
            self.add_packet(world, place)?;
        }
        Ok(())
    }
}

/// Whether a packet arrived in a row before this one.
pub fn came_before(rows: &[Row], row: usize, packet: usize) -> bool {
    rows.iter()
        .take(row)
        .any(|row| row.doing == Doing::Arrival(packet))
}
