//! What stands at the phones in the end.

use crate::chart::places::Places;
use crate::chart::shapes::{Point, Side, close_text, open_text, put_words};
use crate::fault::Fault;
use crate::objects::status_word;
use crate::run::Running;
use sms_page::{Page, put_line};
use sms_script::Script;
use sms_world::Entry;
use std::alloc::Global;

/// How many characters of a line stand there.
const LINE_MAX: usize = 110;

/// How many lines there are.
pub fn count_lines(running: &Running) -> u64 {
    let mut count = 0u64;
    for phone in 0..running.phones() {
        let own = running
            .typed(phone)
            .saturating_add(running.store(phone).len());
        count = count.saturating_add(own as u64).saturating_add(1);
    }
    count
}

/// A line below the lifelines.
#[derive(Drop)]
struct Below {
    y: u64,
}

impl Below {
    /// Adds a line with these words.
    fn put(&mut self, page: &mut Page, words: &str) {
        self.y = self.y.saturating_add(16);
        open_text(page, "end", Point { x: 24, y: self.y }, Side::Right);
        put_words(page, words, LINE_MAX);
        close_text(page);
    }
}

/// The line of a text that was typed.
fn sent_line(alloc: Global, name: &str, number: usize, word: &str) -> Result<String, Fault> {
    Ok(format!(in alloc; "sent {name} {number} {word}")?)
}

/// The line that begins a store.
fn store_line(alloc: Global, name: &str, count: usize) -> Result<String, Fault> {
    Ok(format!(in alloc; "store {name} {count}")?)
}

/// The line of a text in a store.
fn entry_line(alloc: Global, entry: &Entry) -> Result<String, Fault> {
    let origin = entry.origin.to_text(alloc)?;
    let mut page = Page::new(alloc);
    put_line(&mut page, origin.as_bytes());
    page.put(b" ");
    put_line(&mut page, entry.text.as_str().as_bytes());
    drop(origin);
    Ok(page.into_text()?)
}

/// Adds the lines of the texts that were typed at a phone.
fn put_sent(
    alloc: Global,
    running: &Running,
    phone: usize,
    name: &str,
    below: &mut Below,
    page: &mut Page,
) -> Result<(), Fault> {
    for place in 0..running.typed(phone) {
        let number = place.saturating_add(1);
        if let Some(status) = running.status(phone, number) {
            let line = sent_line(alloc, name, number, status_word(status))?;
            below.put(page, &line);
            drop(line);
        }
    }
    Ok(())
}

/// Adds the lines of the store of a phone.
fn put_store(
    alloc: Global,
    running: &Running,
    phone: usize,
    name: &str,
    below: &mut Below,
    page: &mut Page,
) -> Result<(), Fault> {
    let entries = running.store(phone);
    let line = store_line(alloc, name, entries.len())?;
    below.put(page, &line);
    drop(line);
    for entry in entries {
        let line = entry_line(alloc, entry)?;
        below.put(page, &line);
        drop(line);
    }
    Ok(())
}

/// Adds what stands at each phone, as a transcript has it.
pub fn put_stores(
    alloc: Global,
    places: &Places,
    script: &Script,
    running: &Running,
    page: &mut Page,
) -> Result<(), Fault> {
    let mut below = Below {
        y: places.bottom.saturating_add(16),
    };
    for phone in 0..running.phones() {
        let name = script.name(phone);
        put_sent(alloc, running, phone, name, &mut below, page)?;
        put_store(alloc, running, phone, name, &mut below, page)?;
    }
    Ok(())
}
