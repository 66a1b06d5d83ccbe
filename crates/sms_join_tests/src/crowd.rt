//! Many pieces in a made order, and what a plain walk through lists answers to each.

use crate::found::{holds, same};
use crate::joiner::checked;
use sms_field::{Address, Stamp};
use sms_join::{Joiner, Offer, OfferFault, Ucs2Units, Units};
use sms_tpdu::{Concat, Width};
use std::alloc::{AllocError, Global};
use std::process::Abort;
use std::test::Fail;

/// What a set is known by: the number of its origin, and what its segments share.
#[derive(Clone, Copy, Debug, PartialEq, Eq)]
struct Mark {
    origin: u64,
    width: Width,
    reference: u16,
    /// Where it is 1, the message is no segment, and the reference is that of its time stamp.
    maximum: u8,
}

/// A piece that is offered.
#[derive(Clone, Copy, Debug)]
struct Piece {
    mark: Mark,
    sequence: u8,
}

/// What is answered to a piece.
#[derive(Clone, Copy, Debug, PartialEq, Eq)]
pub enum Told {
    Repeat,
    Kept,
    Finished,
    TooManyOpen,
    NoMemory,
}

/// An open set, and a bit for each piece that has come.
#[derive(Clone, Copy)]
struct Open {
    mark: Mark,
    come: u8,
}

/// The bit of a piece.
fn bit_of(sequence: u8) -> u8 {
    match sequence {
        1 => 1,
        2 => 2,
        _ => 4,
    }
}

/// The bits of all pieces.
fn bits_of(maximum: u8) -> u8 {
    match maximum {
        1 => 1,
        2 => 3,
        _ => 7,
    }
}

/// A joiner that walks through all that it holds.
#[derive(Drop)]
struct Plain {
    open_max: usize,
    remembered: usize,
    open: Vec<Open>,
    /// The newest is the last.
    finished: Vec<Mark>,
}

impl Plain {
    /// One that holds nothing.
    fn new(alloc: Global, open_max: usize, remembered: usize) -> Plain {
        Plain {
            open_max,
            remembered,
            open: Vec::new(alloc),
            finished: Vec::new(alloc),
        }
    }

    /// Remembers a set in place of the one that finished first, where there are too many.
    fn remember(&mut self, mark: Mark) -> Result<(), AllocError> {
        self.finished.push(mark)?;
        if self.finished.len() > self.remembered {
            self.finished.remove(0);
        }
        Ok(())
    }

    /// What is answered to the first piece of a set.
    fn begin(&mut self, piece: Piece) -> Result<Told, AllocError> {
        if piece.mark.maximum == 1 {
            self.remember(piece.mark)?;
            return Ok(Told::Finished);
        }
        if self.open.len() >= self.open_max {
            return Ok(Told::TooManyOpen);
        }
        self.open.push(Open {
            mark: piece.mark,
            come: bit_of(piece.sequence),
        })?;
        Ok(Told::Kept)
    }

    /// What is answered to a further piece of the open set of an index.
    fn go_on(&mut self, index: usize, piece: Piece) -> Result<Told, AllocError> {
        let Some(set) = self.open.get_mut(index) else {
            return Ok(Told::NoMemory);
        };
        if set.come & bit_of(piece.sequence) != 0 {
            return Ok(Told::Repeat);
        }
        set.come |= bit_of(piece.sequence);
        if set.come != bits_of(piece.mark.maximum) {
            return Ok(Told::Kept);
        }
        if index < self.open.len() {
            self.open.remove(index);
        }
        self.remember(piece.mark)?;
        Ok(Told::Finished)
    }

    /// What is answered to a piece.
    fn offer(&mut self, piece: Piece) -> Result<Told, AllocError> {
        if self.finished.iter().any(|mark| *mark == piece.mark) {
            return Ok(Told::Repeat);
        }
        match self.open.iter().position(|set| set.mark == piece.mark) {
            Some(index) => self.go_on(index, piece),
            None => self.begin(piece),
        }
    }
}

/// Numbers that a seed gives.
#[derive(Drop)]
pub struct Chance(pub u64);

impl Chance {
    /// A number below a limit.
    pub fn below(&mut self, limit: u64) -> u64 {
        self.0 = self
            .0
            .wrapping_mul(6_364_136_223_846_793_005)
            .wrapping_add(1_442_695_040_888_963_407);
        match limit {
            0 => 0,
            _ => (self.0 >> 33) % limit,
        }
    }

    /// A piece of one of the sets of so many references.
    fn piece(&mut self, references: u64) -> Piece {
        let maximum = 1 + (self.below(3) % 3) as u8;
        let sequence = 1 + (self.below(u64::from(maximum)) % 3) as u8;
        let width = match self.below(2) {
            0 => Width::Eight,
            _ => Width::Sixteen,
        };
        Piece {
            mark: Mark {
                origin: self.below(3),
                width: if maximum == 1 { Width::Eight } else { width },
                reference: (self.below(references) % 256) as u16,
                maximum,
            },
            sequence,
        }
    }
}

/// The address of a number.
fn text_of(origin: u64) -> &'static str {
    match origin {
        0 => "+1001",
        1 => "1001",
        _ => "+46708123456",
    }
}

/// The time stamp of a message: that of a segment tells nothing of its set.
fn stamp_of(piece: Piece) -> Stamp {
    let mark = piece.mark;
    let own = if mark.maximum == 1 {
        mark.reference % 256
    } else {
        u16::from(piece.sequence)
    };
    Stamp::new([own as u8, 0, 0, 0, 0, 0, 0])
}

/// The place of a piece, where it is a segment.
fn place_of(piece: Piece) -> Option<Concat> {
    if piece.mark.maximum == 1 {
        return None;
    }
    Some(Concat {
        width: piece.mark.width,
        reference: piece.mark.reference,
        maximum: piece.mark.maximum,
        sequence: piece.sequence,
    })
}

/// The letter of a piece.
fn letter_of(mark: Mark, sequence: u8) -> u8 {
    b'a' + ((mark.reference % 256 + u16::from(sequence)) % 26) as u8
}

/// The units of a piece: its letter.
fn units_of(alloc: Global, piece: Piece) -> Result<Units, AllocError> {
    let letter = u16::from(letter_of(piece.mark, piece.sequence));
    Ok(Units::Ucs2(Ucs2Units::new(vec![in alloc; letter]?)))
}

/// The text of a set.
fn whole_text(alloc: Global, mark: Mark) -> Result<String, AllocError> {
    let mut text = String::new(alloc);
    for sequence in 1..=mark.maximum {
        text.push(char::from(letter_of(mark, sequence)))?;
    }
    Ok(text)
}

/// What a joiner answered, where a set that is whole must have its text.
pub fn told_of(answer: &Result<Offer, OfferFault>, text: &str) -> Told {
    match answer {
        Ok(Offer::Repeat) => Told::Repeat,
        Ok(Offer::Kept) => Told::Kept,
        Ok(Offer::Finished(found)) if found.as_str() == text => Told::Finished,
        Err(OfferFault::TooManyOpen) => Told::TooManyOpen,
        _ => Told::NoMemory,
    }
}

/// What a joiner answers to a piece, and whether it said before that the piece finishes its set.
fn answer_to(alloc: Global, joiner: &mut Joiner, piece: Piece) -> Result<(bool, Told), Fail> {
    let origin = Address::from_text(alloc, text_of(piece.mark.origin))?;
    let (stamp, place) = (stamp_of(piece), checked(place_of(piece)));
    let text = whole_text(alloc, piece.mark)?;
    let units = units_of(alloc, piece)?;
    let finishes = joiner.would_finish(&origin, stamp, place);
    let answer = joiner.offer(0, &origin, stamp, place, units);
    Ok((finishes, told_of(&answer, &text)))
}

/// A piece is answered as the plain joiner does, and as many sets are open then.
fn answers_alike(
    rt: &impl Abort,
    alloc: Global,
    joiner: &mut Joiner,
    plain: &mut Plain,
    piece: Piece,
) -> Result<(), Fail> {
    let told = plain.offer(piece)?;
    let found = answer_to(alloc, joiner, piece)?;
    same(rt, &piece, &found, &(told == Told::Finished, told));
    same(rt, &piece, &joiner.open_count(), &plain.open.len());
    Ok(())
}

/// Offers pieces of the sets of so many references, and says how many sets were open at most.
fn offers_many(
    rt: &impl Abort,
    alloc: Global,
    open_max: usize,
    remembered: usize,
    references: u64,
) -> Result<usize, Fail> {
    let mut joiner = Joiner::new(alloc, open_max.max(1), remembered.max(1))?;
    let mut plain = Plain::new(alloc, open_max.max(1), remembered.max(1));
    let mut chance = Chance(references);
    let mut most = 0;
    for _ in 0..2_000 {
        let piece = chance.piece(references);
        answers_alike(rt, alloc, &mut joiner, &mut plain, piece)?;
        most = joiner.open_count().max(most);
    }
    Ok(most)
}

/// How many sets may be open, how many are remembered, and of how many references the pieces are.
static LIMITS: [(usize, usize, u64); 8] = [
    (15, 31, 20),
    (16, 32, 20),
    (17, 33, 20),
    (16, 33, 40),
    (17, 32, 40),
    (200, 66, 60),
    (300, 400, 120),
    (1_000, 1, 256),
];

/// On both sides of each limit below which a walk takes less time.
#[test]
fn answers_a_crowd(rt: HostRuntime) -> Result<(), Fail> {
    for (open_max, remembered, references) in LIMITS.as_slice() {
        let most = offers_many(&rt, rt.alloc(), *open_max, *remembered, *references)?;
        holds(&rt, open_max, most >= (*open_max).min(100));
    }
    Ok(())
}
