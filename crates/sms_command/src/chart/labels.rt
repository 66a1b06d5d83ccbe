//! What happens in the rows of a chart.

use crate::chart::Sent;
use crate::chart::arrows::way_of;
use crate::chart::places::Places;
use crate::chart::rows::{Doing, Row};
use crate::chart::shapes::{
    Point, Side, beside, close_text, open_text, put_dot, put_line, put_number, put_words,
};
use sms_page::Page;

/// How many characters of a label stand beside a lifeline.
const LABEL_MAX: usize = 24;

/// How many characters of a label stand in a row that has no lifeline.
const WHOLE_MAX: usize = 60;

/// Begins a label with the number of its event, counted from 1.
fn open_label(page: &mut Page, class: &str, at: Point, side: Side, number: usize) {
    open_text(page, class, at, side);
    page.put_decimal((number as u64).saturating_add(1));
    page.put(b" ");
}

/// Adds what was asked at a lifeline, and below it what was told.
fn put_own(page: &mut Page, row: &Row, number: usize, at: Point, side: Side) {
    put_dot(page, at);
    let beside = beside(at, side, 10);
    open_label(page, "asked", beside, side, number);
    put_words(page, &row.asked, LABEL_MAX);
    close_text(page);
    let below = Point {
        x: beside.x,
        y: beside.y.saturating_add(14),
    };
    open_text(page, "told", below, side);
    put_words(page, &row.told, LABEL_MAX);
    close_text(page);
}

/// Adds what was told where a packet arrives.
fn put_outcome(page: &mut Page, row: &Row, number: usize, at: Point, side: Side) {
    let at = beside(at, side, 10);
    let at = Point {
        x: at.x,
        y: at.y.saturating_add(4),
    };
    open_label(page, "told", at, side, number);
    put_words(page, &row.told, LABEL_MAX);
    close_text(page);
}

/// Adds a whole row in one line.
fn put_whole(page: &mut Page, row: &Row, number: usize, at: Point, side: Side) {
    open_label(page, "told", at, side, number);
    put_words(page, &row.asked, WHOLE_MAX);
    page.put(b": ");
    put_words(page, &row.told, WHOLE_MAX);
    close_text(page);
}

/// The side of a lifeline that is not that of the centre.
fn outside(places: &Places, phone: usize) -> Side {
    if places.is_left(phone) {
        Side::Left
    } else {
        Side::Right
    }
}

/// Adds the label of a row.
fn put_label(places: &Places, row: &Row, number: usize, packets: &[Sent], page: &mut Page) {
    let y = places.event(number);
    match row.doing {
        Doing::AtPhone(phone) => {
            let x = places.phone(phone);
            put_own(page, row, number, Point { x, y }, outside(places, phone));
        }
        Doing::AtCentre(phone) => {
            let x = places.centre();
            let side = outside(places, phone).other();
            put_own(page, row, number, Point { x, y }, side);
        }
        Doing::Arrival(packet) => {
            if let Some(sent) = packets.get(packet) {
                let x = if sent.up {
                    places.centre()
                } else {
                    places.phone(sent.phone)
                };
                let side = way_of(places, sent);
                put_outcome(page, row, number, Point { x, y }, side);
            }
        }
        Doing::Gap => {
            let x = places.width() / 2;
            let at = Point {
                x,
                y: y.saturating_add(4),
            };
            put_whole(page, row, number, at, Side::Middle);
        }
        Doing::Nowhere => {
            let at = Point { x: 12, y };
            put_whole(page, row, number, at, Side::Right);
        }
    }
}

/// Adds the gap of a row in which the clock goes on.
fn put_gap(places: &Places, number: usize, page: &mut Page) {
    let y = places.event(number).saturating_sub(10);
    page.put(b"<rect x=\"0\"");
    put_number(page, "y", y);
    put_number(page, "width", places.width());
    page.put(b" height=\"20\"/>\n");
    for y in [y, y.saturating_add(20)] {
        let end = Point {
            x: places.width(),
            y,
        };
        put_line(page, "gap", Point { x: 0, y }, end);
    }
}

/// Adds the gaps of the rows in which the clock goes on.
pub fn put_gaps(places: &Places, rows: &[Row], page: &mut Page) {
    for (number, row) in rows.iter().enumerate() {
        if row.doing == Doing::Gap {
            put_gap(places, number, page);
        }
    }
}

/// Adds the labels of the rows.
pub fn put_labels(places: &Places, rows: &[Row], packets: &[Sent], page: &mut Page) {
    for (number, row) in rows.iter().enumerate() {
        put_label(places, row, number, packets, page);
    }
}
