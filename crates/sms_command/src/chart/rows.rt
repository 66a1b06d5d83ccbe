//! The rows of a chart.

use crate::fault::Fault;
use crate::outcomes::told_of;
use crate::run::Running;
use sms_page::{Page, put_line};
use sms_run::Happened;
use sms_script::Script;
use sms_world::{Event, WorldFault};
use std::alloc::Global;

/// What happens in a row of the chart.
#[derive(Clone, Copy, Debug, PartialEq, Eq)]
pub enum Doing {
    /// At a phone, of its own.
    AtPhone(usize),
    /// At the centre, for a phone.
    AtCentre(usize),
    /// A packet arrives, as this one counted from 0.
    Arrival(usize),
    /// The clock goes on.
    Gap,
    /// Nothing that has a place.
    Nowhere,
}

/// A row of the chart: an event.
#[derive(Drop)]
pub struct Row {
    pub doing: Doing,
    /// What the script said.
    pub asked: String,
    /// What was answered.
    pub told: String,
    /// How many packets were put out.
    pub packets: usize,
}

/// Where an event has its place.
pub fn doing_of(happened: &Happened<'_, Running>) -> Doing {
    if happened.answer == Err(WorldFault::NoSuchPacket) {
        return Doing::Nowhere;
    }
    match happened.event {
        Event::Compose { phone, .. } | Event::Timeout(phone) => Doing::AtPhone(*phone),
        Event::Push(phone) => Doing::AtCentre(*phone),
        Event::Carry(number) => match usize::try_from(*number) {
            Ok(number) => Doing::Arrival(number.saturating_sub(1)),
            Err(_) => Doing::Nowhere,
        },
        Event::Tick(_) => Doing::Gap,
        Event::Inject { up, phone, .. } => {
            if *up {
                Doing::AtCentre(*phone)
            } else {
                Doing::AtPhone(*phone)
            }
        }
    }
}

/// What the script said, in a few words.
pub fn asked_of(alloc: Global, script: &Script, event: &Event) -> Result<String, Fault> {
    let mut page = Page::new(alloc);
    match event {
        Event::Compose {
            phone,
            target,
            text,
        } => {
            page.put(b"type ");
            page.put(script.name(*phone).as_bytes());
            page.put(b" ");
            let to = target.to_text(alloc)?;
            put_line(&mut page, to.as_bytes());
            page.put(b" ");
            put_line(&mut page, text.as_str().as_bytes());
        }
        Event::Carry(number) => put_numbered(&mut page, b"carry ", *number),
        Event::Timeout(phone) => put_named(&mut page, b"timeout ", script.name(*phone)),
        Event::Push(phone) => put_named(&mut page, b"push ", script.name(*phone)),
        Event::Tick(seconds) => put_numbered(&mut page, b"tick ", *seconds),
        Event::Inject { up, phone, .. } => {
            let words = if *up { "inject up " } else { "inject down " };
            put_named(&mut page, words.as_bytes(), script.name(*phone));
        }
    }
    Ok(page.into_text()?)
}

/// Adds words and a number.
fn put_numbered(page: &mut Page, words: &[u8], number: u64) {
    page.put(words);
    page.put_decimal(number);
}

/// Adds words and a name.
fn put_named(page: &mut Page, words: &[u8], name: &str) {
    page.put(words);
    page.put(name.as_bytes());
}

/// The line of what was answered, as a transcript has it.
pub fn told_text(alloc: Global, happened: &Happened<'_, Running>) -> Result<String, Fault> {
    let told = told_of(happened.answer);
    let mut page = Page::new(alloc);
    page.put(told.word.as_bytes());
    for number in [told.text, told.segment, told.cause.map(usize::from)] {
        if let Some(number) = number {
            page.put(b" ");
            page.put_decimal(number as u64);
        }
    }
    match told.failure {
        Some(failure) => {
            page.put(b" ");
            page.put_octet(failure);
        }
        None if told.cause.is_some() => page.put(b" -"),
        None => {}
    }
    Ok(page.into_text()?)
}
