//! The packets of a chart.

use crate::chart::Sent;
use crate::chart::places::Places;
use crate::chart::rows::{Doing, Row};
use crate::chart::shapes::{Point, Side, beside, close_text, open_text, put_line, put_words};
use sms_page::Page;

/// How many characters of a packet's name stand beside its start.
const NAME_MAX: usize = 26;

/// Where a packet starts.
fn start_of(places: &Places, packet: &Sent) -> Point {
    let x = if packet.up {
        places.phone(packet.phone)
    } else {
        places.centre()
    };
    Point {
        x,
        y: places.start(packet.row, packet.place),
    }
}

/// The lifeline at which a packet arrives, from the left.
fn end_of(places: &Places, packet: &Sent) -> u64 {
    if packet.up {
        places.centre()
    } else {
        places.phone(packet.phone)
    }
}

/// The side of its start to which a packet goes.
pub fn way_of(places: &Places, packet: &Sent) -> Side {
    if packet.up == places.is_left(packet.phone) {
        Side::Right
    } else {
        Side::Left
    }
}

/// Adds a cross.
fn put_cross(page: &mut Page, at: Point) {
    let (left, right) = (at.x.saturating_sub(5), at.x.saturating_add(5));
    let (above, below) = (at.y.saturating_sub(5), at.y.saturating_add(5));
    put_line(
        page,
        "cross",
        Point { x: left, y: above },
        Point { x: right, y: below },
    );
    put_line(
        page,
        "cross",
        Point { x: left, y: below },
        Point { x: right, y: above },
    );
}

/// Adds a packet that is never carried: it ends in a cross.
fn put_lost(page: &mut Page, places: &Places, packet: &Sent) {
    let start = start_of(places, packet);
    let end = beside(start, way_of(places, packet), 120);
    put_line(page, class_of(packet), start, end);
    put_cross(page, end);
}

/// How the line of a packet looks: whole up to the centre, broken down to a phone.
fn class_of(packet: &Sent) -> &'static str {
    if packet.up { "up" } else { "down" }
}

/// Adds the number and the name of a packet beside its start.
fn put_name(page: &mut Page, places: &Places, packet: &Sent, number: usize) {
    let start = start_of(places, packet);
    let side = way_of(places, packet);
    let at = Point {
        x: beside(start, side, 8).x,
        y: start.y.saturating_sub(3),
    };
    open_text(page, class_of(packet), at, side);
    page.put(b"#");
    page.put_decimal(number as u64);
    page.put(b" ");
    put_words(page, &packet.name, NAME_MAX);
    close_text(page);
}

/// Adds the arrow of a packet that arrives in a row.
fn put_arrival(page: &mut Page, places: &Places, packet: &Sent, row: usize, is_again: bool) {
    let class = if is_again { "again" } else { class_of(packet) };
    let end = Point {
        x: end_of(places, packet),
        y: places.event(row),
    };
    put_line_with_head(page, class, start_of(places, packet), end);
}

/// Adds a line with an arrow's head.
fn put_line_with_head(page: &mut Page, class: &str, from: Point, to: Point) {
    page.put(b"<g marker-end=\"url(#head)\">");
    put_line(page, class, from, to);
    page.put(b"</g>\n");
}

/// Adds the arrows, and the names of the packets beside their starts.
pub fn put_arrows(places: &Places, rows: &[Row], packets: &[Sent], page: &mut Page) {
    for (number, row) in rows.iter().enumerate() {
        if let Doing::Arrival(packet) = row.doing {
            if let Some(sent) = packets.get(packet) {
                let is_again = sent.arrived != Some(number);
                put_arrival(page, places, sent, number, is_again);
            }
        }
    }
    for (place, packet) in packets.iter().enumerate() {
        if packet.arrived.is_none() {
            put_lost(page, places, packet);
        }
        put_name(page, places, packet, place.saturating_add(1));
    }
}
