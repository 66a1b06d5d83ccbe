//! A run as a sequence chart in SVG: a lifeline for each phone and for the centre, time downwards.

mod arrows;
mod head;
mod labels;
mod messages;
mod places;
mod rows;
mod shapes;
mod stores;

ghost use Rattle.std.specs.Prelude.{◌≡◌, ◌+◌, OnOk, length};
ghost use Rattle.sms_command.specs.Inside.Answers.{OfInput};
ghost use Rattle.sms_command.specs.Inside.Tellers.{WritesChart};

use crate::chart::arrows::put_arrows;
use crate::chart::head::put_head;
use crate::chart::labels::{put_gaps, put_labels};
use crate::chart::messages::message_name;
use crate::chart::places::Places;
use crate::chart::rows::{Doing, Row, asked_of, doing_of, told_text};
use crate::chart::stores::put_stores;
use crate::fault::Fault;
use crate::run::{Running, Watching};
use sms_page::Page;
use sms_run::{Happened, Teller, run_script};
use sms_script::Script;
use std::alloc::Global;
use std::io::{Read, Write};

/// A packet of the chart.
#[derive(Drop)]
pub struct Sent {
    pub up: bool,
    pub phone: usize,
    /// What it carries.
    pub name: String,
    /// The row in which it was put out.
    pub row: usize,
    /// Which of the packets of its row it is, counted from 0.
    pub place: usize,
    /// The first row in which it arrived; none where it is never carried.
    pub arrived: Option<usize>,
}

/// Collects a run for its chart.
#[derive(Drop)]
struct Collected {
    rows: Vec<Row>,
    packets: Vec<Sent>,
}

impl Collected {
    /// Adds the row of an event.
    fn add_row(&mut self, alloc: Global, happened: &Happened<'_, Running>) -> Result<(), Fault>
        ensures { OnOk result (length self.new.rows.items ≡ length self.old.rows.items + 1) }
    {
        let asked = asked_of(alloc, happened.script, happened.event)?;
        let told = match told_text(alloc, happened) {
            Ok(told) => told,
            Err(fault) => {
                drop(asked);
                return Err(fault);
            }
        };
        let count = happened.machine.world().packet_count();
        self.rows.push(Row {
            doing: doing_of(happened),
            asked,
            told,
            packets: count.saturating_sub(happened.packets_before),
        })?;
        Ok(())
    }

    /// Adds the packet of a place.
    fn add_packet(
        &mut self,
        alloc: Global,
        happened: &Happened<'_, Running>,
        place: usize,
    ) -> Result<(), Fault>
        ensures { self.new.rows ≡ self.old.rows }
    {
        let Some(packet) = happened
            .machine
            .world()
            .packet_on_way(place.saturating_add(1))
        else {
            return Ok(());
        };
        let name = message_name(alloc, packet.octets)?;
        self.packets.push(Sent {
            up: packet.up,
            phone: packet.phone,
            name,
            row: self.rows.len().saturating_sub(1),
            place: place.saturating_sub(happened.packets_before),
            arrived: None,
        })?;
        Ok(())
    }

    /// Adds the packets that an event has put out.
    fn add_packets(&mut self, alloc: Global, happened: &Happened<'_, Running>) -> Result<(), Fault>
        ensures { self.new.rows ≡ self.old.rows }
    {
        for place in happened.packets_before..happened.machine.world().packet_count() {
            self.add_packet(alloc, happened, place)?;
        }
        Ok(())
    }
}

/// A packet arrives in a row.
fn note_arrival(happened: &Happened<'_, Running>, row: usize, packets: &mut Vec<Sent>) {
    if let Doing::Arrival(place) = doing_of(happened) {
        if let Some(packet) = packets.get_mut(place) {
            packet.arrived = packet.arrived.or(Some(row));
        }
    }
}

impl Teller<Running> for Collected {
    type Fault = Fault;

    ghost use Rattle.sms_command.specs.Inside.Tellers.{adds_row, any_end};

    ghost tells = { adds_row };

    ghost finishes = { any_end };

    fn tell(
        &mut self,
        alloc: Global,
        happened: &Happened<'_, Running>,
        _page: &mut Page,
    ) -> Result<(), Fault> {
        self.add_row(alloc, happened)?;
        let row = self.rows.len().saturating_sub(1);
        note_arrival(happened, row, &mut self.packets);
        self.add_packets(alloc, happened)
    }

    fn finish(
        &mut self,
        alloc: Global,
        script: &Script,
        running: &Running,
        page: &mut Page,
    ) -> Result<(), Fault> {
        draw(alloc, self, script, running, page)
    }
}

/// Draws a run.
fn draw(
    alloc: Global,
    run: &Collected,
    script: &Script,
    running: &Running,
    page: &mut Page,
) -> Result<(), Fault> {
    let rows = run.rows.as_slice();
    let packets = run.packets.as_slice();
    let places = Places::new(alloc, running.phones(), rows)?;
    put_head(&places, script, running, page);
    put_gaps(&places, rows, page);
    put_arrows(&places, rows, packets, page);
    put_labels(&places, rows, packets, page);
    let stores = put_stores(alloc, &places, script, running, page);
    page.put(b"</svg>\n");
    drop(places);
    stores
}

/// Plays the script that an input has, and writes its chart.
pub fn put_chart<R: Read, W: Write>(
    alloc: Global,
    input: &mut R,
    output: &mut W,
) -> Result<(), Fault>
    ensures { OnOk result (OfInput (R.remaining input.old)
        (λ octets. WritesChart octets (W.contents output.old) (W.contents output.new))) }
{
    let run = Collected {
        rows: Vec::new(alloc),
        packets: Vec::new(alloc),
    };
    let mut page = Page::new(alloc);
    let (run, drawn) = run_script::<Running, Collected, R, W>(
        alloc,
        Watching::Nothing,
        run,
        &mut page,
        input,
        output,
    );
    drop(run);
    let written = page.write_to(output);
    drop(page);
    written?;
    drawn
}
