//! Scripts of a lossy network: texts of one segment or many, packets that are lost, come twice,
//! late or in another order, and messages that wait till their validity ends.

use crate::chance::Chance;
use crate::lines::Maker;
use crate::texts::{long_text, short_text, very_long_text};
use anyhow::Result;
use sms_join::cut_text;
use sms_tpdu::Width;
use std::alloc::{AllocError, Global};

/// How many phones there are.
const PHONES: usize = 100;

/// How many of them most texts go to.
const BUSY: usize = 10;

/// How many messages may be held before the clock moves on past their validity.
const HELD: u64 = 900;

/// The most lines of an exchange but for those of its segments.
const FEW_LINES: u64 = 10;

/// The most lines of a segment.
const SEGMENT_LINES: u64 = 20;

/// The first of the numbers that stand behind the texts.
const FIRST_NUMBER: u64 = 100_000_000;

/// How many deliveries are under way at a time.
const GROUP: usize = 5;

/// A text, and how many segments it has.
#[derive(Drop)]
pub struct Typed {
    text: String,
    count: u64,
}

/// A text as a phone cuts it, with a number of nine digits behind it.
fn typed_of(alloc: Global, text: String) -> Result<Typed> {
    let whole = format!(in alloc; "{text} {FIRST_NUMBER}")?;
    let count = cut_text(alloc, whole.as_str(), Width::Eight)?.len() as u64;
    Ok(Typed { text, count })
}

/// The text of a number: the first is very long, of five others one is long.
fn text_of(alloc: Global, chance: &mut Chance, number: usize) -> Result<Typed> {
    if number == 0 {
        return typed_of(alloc, very_long_text(alloc, chance)?);
    }
    if number % 5 == 0 {
        return typed_of(alloc, long_text(alloc, chance)?);
    }
    typed_of(alloc, short_text(alloc, chance)?)
}

/// So many texts.
pub fn texts_of(alloc: Global, chance: &mut Chance, count: usize) -> Result<Vec<Typed>> {
    let mut texts = Vec::new(alloc);
    for number in 0..count {
        texts.push(text_of(alloc, chance, number)?)?;
    }
    Ok(texts)
}

/// What makes a script.
#[derive(Drop)]
pub struct Script {
    chance: Chance,
    texts: Vec<Typed>,
    /// How many lines may still come.
    left: u64,
    /// How many packets were put out.
    packets: u64,
    /// How many messages the centre holds at most.
    held: u64,
    /// Whether the phones were told.
    has_phones: bool,
}

/// Whom a text is from, and to whom.
#[derive(Clone, Copy)]
struct Way {
    from: usize,
    to: usize,
}

/// Adds a number in decimal digits.
fn put_number(room: &mut Vec<u8>, number: u64) -> Result<(), AllocError> {
    let mut digits = itoa::Buffer::new();
    room.extend_from_slice(digits.format(number).as_bytes())
}

/// Adds a line of a word and a number.
fn put_line(room: &mut Vec<u8>, word: &str, number: u64) -> Result<(), AllocError> {
    room.extend_from_slice(word.as_bytes())?;
    put_number(room, number)?;
    room.push(b'\n')?;
    Ok(())
}

/// Adds the line of a phone and its address.
fn put_phone(room: &mut Vec<u8>, phone: u64) -> Result<(), AllocError> {
    room.extend_from_slice(b"phone p")?;
    put_number(room, phone)?;
    put_line(room, " +1", phone.saturating_add(100))
}

impl Script {
    /// A script of so many lines at most.
    pub fn new(chance: Chance, texts: Vec<Typed>, lines: u64) -> Script {
        Script {
            chance,
            texts,
            left: lines,
            packets: 0,
            held: 0,
            has_phones: false,
        }
    }

    /// Adds a line that puts out so many packets.
    fn put(
        &mut self,
        room: &mut Vec<u8>,
        word: &str,
        number: u64,
        packets: u64,
    ) -> Result<(), AllocError> {
        self.left = self.left.saturating_sub(1);
        self.packets = self.packets.wrapping_add(packets);
        put_line(room, word, number)
    }

    /// The phones.
    fn put_phones(&mut self, room: &mut Vec<u8>) -> Result<(), AllocError> {
        self.has_phones = true;
        for phone in 0..PHONES as u64 {
            put_phone(room, phone)?;
        }
        self.left = self.left.saturating_sub(PHONES as u64);
        Ok(())
    }

    /// Whom the next text is from, and to whom.
    fn way(&mut self) -> Way {
        let from = self.chance.below(PHONES);
        let to = match self.chance.below(5) {
            0 => self.chance.below(PHONES),
            _ => self.chance.below(BUSY),
        };
        if from == to {
            return Way {
                from,
                to: (to + 1) % PHONES,
            };
        }
        Way { from, to }
    }

    /// A text is typed.
    fn put_typed(&mut self, room: &mut Vec<u8>, way: Way, number: usize) -> Result<(), AllocError> {
        room.extend_from_slice(b"type p")?;
        put_number(room, way.from as u64)?;
        room.extend_from_slice(b" +1")?;
        put_number(room, (way.to as u64).saturating_add(100))?;
        room.push(b' ')?;
        if let Some(typed) = self.texts.get(number) {
            room.extend_from_slice(typed.text.as_bytes())?;
        }
        self.put(room, " ", FIRST_NUMBER.wrapping_add(self.packets), 1)
    }

    /// The last packet that was put out is a submission. It may be lost, or come before it is
    /// repeated.
    fn put_submission(&mut self, room: &mut Vec<u8>, way: Way) -> Result<(), AllocError> {
        if self.chance.once_in(10) {
            if self.chance.once_in(3) {
                self.put(room, "carry ", self.packets, 2)?;
            }
            self.put(room, "timeout p", way.from as u64, 1)?;
        }
        self.put(room, "carry ", self.packets, 2)
    }

    /// The segments of a text are submitted, one after the other.
    fn put_submissions(
        &mut self,
        room: &mut Vec<u8>,
        way: Way,
        count: u64,
    ) -> Result<(), AllocError> {
        for place in 1..=count {
            self.put_submission(room, way)?;
            let report = self.packets;
            let further = if place < count { 2 } else { 1 };
            self.put(room, "carry ", report, further)?;
            if self.chance.once_in(2) {
                self.put(room, "carry ", report.wrapping_sub(1), 0)?;
            }
        }
        Ok(())
    }

    /// A delivery arrives, once or twice.
    fn put_arrival(&mut self, room: &mut Vec<u8>, delivery: u64) -> Result<(), AllocError> {
        if self.chance.once_in(12) {
            self.put(room, "carry ", delivery, 2)?;
        }
        self.put(room, "carry ", delivery, 2)
    }

    /// A message is pushed, again where it is lost, and its answer is carried back.
    fn put_delivery(&mut self, room: &mut Vec<u8>, way: Way) -> Result<(), AllocError> {
        if self.chance.once_in(12) {
            self.put(room, "push p", way.to as u64, 1)?;
        }
        self.put(room, "push p", way.to as u64, 1)?;
        self.put_arrival(room, self.packets)?;
        let answer = self.packets;
        self.put(room, "carry ", answer.wrapping_sub(1), 0)?;
        self.put(room, "carry ", answer, 1)
    }

    /// So many messages are pushed one after the other.
    fn put_in_order(
        &mut self,
        room: &mut Vec<u8>,
        way: Way,
        count: usize,
    ) -> Result<(), AllocError> {
        for _ in 0..count {
            self.put_delivery(room, way)?;
        }
        Ok(())
    }

    /// So many messages are pushed at once, and arrive in an order of their own. The centre waits
    /// for the answer to the last alone, so the others are pushed once more.
    fn put_at_once(
        &mut self,
        room: &mut Vec<u8>,
        way: Way,
        count: usize,
    ) -> Result<(), AllocError> {
        let before = self.packets;
        for _ in 0..count {
            self.put(room, "push p", way.to as u64, 1)?;
        }
        let last = self.packets;
        let first = self.chance.below(count) as u64;
        let mut answer = last;
        for place in 0..count as u64 {
            let turned = first.wrapping_add(place) % (count as u64).max(1);
            let delivery = before.wrapping_add(turned).wrapping_add(1);
            self.put_arrival(room, delivery)?;
            if delivery == last {
                answer = self.packets;
            }
        }
        self.put(room, "carry ", answer, 1)?;
        self.put_in_order(room, way, count.saturating_sub(1))
    }

    /// So many messages are pushed.
    fn put_group(&mut self, room: &mut Vec<u8>, way: Way, count: usize) -> Result<(), AllocError> {
        if count > 1 && self.chance.once_in(2) {
            self.put_at_once(room, way, count)
        } else {
            self.put_in_order(room, way, count)
        }
    }

    /// The messages of a text are pushed, some at a time.
    fn put_deliveries(
        &mut self,
        room: &mut Vec<u8>,
        way: Way,
        count: u64,
    ) -> Result<(), AllocError> {
        let mut left = count as usize;
        for _ in 0..count {
            let some = left.min(GROUP);
            if some == 0 {
                break;
            }
            left -= some;
            self.put_group(room, way, some)?;
        }
        Ok(())
    }

    /// The clock goes on: by a moment, or past the end of all validity where many messages are
    /// held.
    fn put_tick(&mut self, room: &mut Vec<u8>) -> Result<(), AllocError> {
        if self.held < HELD {
            let seconds = 1 + self.chance.below(9) as u64;
            return self.put(room, "tick ", seconds, 0);
        }
        self.held = 0;
        self.put(room, "tick ", 172_800, 0)
    }

    /// Which text is typed next: of forty one is the very long one.
    fn next_text(&mut self) -> usize {
        if self.chance.once_in(40) {
            return 0;
        }
        1 + self.chance.below(self.texts.len().saturating_sub(1))
    }

    /// A text goes from one phone to the centre, and most often on to another phone.
    fn put_exchange(
        &mut self,
        room: &mut Vec<u8>,
        number: usize,
        count: u64,
    ) -> Result<(), AllocError> {
        let way = self.way();
        self.put_tick(room)?;
        self.put_typed(room, way, number)?;
        self.put_submissions(room, way, count)?;
        self.held = self.held.wrapping_add(count);
        if self.chance.once_in(12) {
            return Ok(());
        }
        self.put_deliveries(room, way, count)
    }
}

impl Maker for Script {
    fn make(&mut self, room: &mut Vec<u8>) -> Result<bool, AllocError> {
        if !self.has_phones {
            self.put_phones(room)?;
            return Ok(true);
        }
        let number = self.next_text();
        let count = match self.texts.get(number) {
            Some(typed) => typed.count,
            None => 0,
        };
        if self.left
            < count
                .saturating_mul(SEGMENT_LINES)
                .saturating_add(FEW_LINES)
        {
            return Ok(false);
        }
        self.put_exchange(room, number, count)?;
        Ok(true)
    }
}
