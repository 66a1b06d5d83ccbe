//! Many messages in one piece, and which of them a joiner remembers.
//!
//! Their texts are empty: neither a piece nor its text takes memory, so an offer that were answered
//! with want of memory would have asked for it to remember the key.

use crate::crowd::Chance;
use crate::found::same;
use sms_field::{Address, Stamp, Symbols};
use sms_join::{Joiner, Offer, OfferFault, Units};
use sms_tpdu::Septets;
use std::alloc::{AllocError, Global};
use std::hash::{FoldHasher, Hasher};
use std::process::Abort;
use std::test::Fail;

/// What may be answered to a message.
#[derive(Clone, Copy, Debug, PartialEq, Eq)]
enum Told {
    Repeat,
    Finished,
    Other,
}

/// What a joiner answered, where the text must be empty.
fn told_of(answer: &Result<Offer, OfferFault>) -> Told {
    match answer {
        Ok(Offer::Repeat) => Told::Repeat,
        Ok(Offer::Finished(text)) if text.is_empty() => Told::Finished,
        _ => Told::Other,
    }
}

/// The time stamp of a number.
fn stamp_of(number: u32) -> Stamp {
    let [first, second, third, fourth] = number.to_le_bytes();
    Stamp::new([first, second, third, fourth, 0, 0, 0])
}

/// What is answered to a message.
fn answer_to(alloc: Global, joiner: &mut Joiner, origin: &Address, stamp: Stamp) -> Told {
    let units = Units::Gsm(Septets::new(Vec::new(alloc)));
    let answer = joiner.offer(0, origin, stamp, None, units);
    told_of(&answer)
}

/// Whether a message would finish, what is answered to it, and what once more.
fn answers_to(
    alloc: Global,
    joiner: &mut Joiner,
    origin: &Address,
    number: u32,
) -> (bool, Told, Told) {
    let stamp = stamp_of(number);
    let finishes = joiner.would_finish(origin, stamp, None);
    let first = answer_to(alloc, joiner, origin, stamp);
    let second = answer_to(alloc, joiner, origin, stamp);
    (finishes, first, second)
}

/// The digits of an address.
fn digits_of(origin: &Address) -> &[u8] {
    match &origin.symbols {
        Symbols::Digits(digits) => digits.as_slice(),
        Symbols::Name(name) => name.as_slice(),
    }
}

/// By what a joiner finds such a message among many: the hash of the digits and of the time stamp.
fn hash_of(origin: &Address, number: u32) -> u64 {
    let mut hasher = FoldHasher::default();
    hasher.write(digits_of(origin));
    hasher.write(&stamp_of(number).octets());
    hasher.finish()
}

/// How many numbers a crowd has.
const CROWD: usize = 1_200;

/// As many numbers whose hashes have the same last eight bits: of up to 256 heads they share one,
/// and of more a few.
fn crowd_of(alloc: Global, origin: &Address) -> Result<Vec<u32>, AllocError> {
    let mut numbers = Vec::with_capacity(alloc, CROWD)?;
    for number in 0..100_000_000 {
        if hash_of(origin, number) % 256 == 0 {
            numbers.push(number)?;
        }
        if numbers.len() >= CROWD {
            break;
        }
    }
    Ok(numbers)
}

/// The number of an index: first those of the crowd, and then others.
fn number_at(crowd: &[u32], index: usize) -> u32 {
    match crowd.get(index) {
        Some(number) => *number,
        None => (index % 1_000_000_000) as u32 + 1_000_000_000,
    }
}

/// Whether the oldest message that is remembered would finish again, and whether that would which
/// finished before it, if there is one.
fn would_finish_again(
    joiner: &Joiner,
    origin: &Address,
    crowd: &[u32],
    oldest: usize,
) -> (bool, bool) {
    let known = joiner.would_finish(origin, stamp_of(number_at(crowd, oldest)), None);
    let Some(before) = oldest.checked_sub(1) else {
        return (known, true);
    };
    let forgotten = joiner.would_finish(origin, stamp_of(number_at(crowd, before)), None);
    (known, forgotten)
}

/// Messages finish in turn, twice as many as are remembered. Where one in some hundred has, just as
/// many as are remembered do not finish again.
fn remembers_the_last(
    rt: &impl Abort,
    alloc: Global,
    joiner: &mut Joiner,
    origin: &Address,
    crowd: &[u32],
    remembered: usize,
) {
    for index in 0..remembered.saturating_mul(2).max(CROWD) {
        let told = answer_to(alloc, joiner, origin, stamp_of(number_at(crowd, index)));
        same(rt, &(remembered, index), &told, &Told::Finished);
        if index % 97 == 0 {
            let oldest = index.saturating_add(1).saturating_sub(remembered);
            let again = would_finish_again(joiner, origin, crowd, oldest);
            same(rt, &(remembered, index), &again, &(false, true));
        }
    }
}

/// A joiner of one open set, where one request for memory may be refused.
fn made(alloc: Global, remembered: usize) -> Result<Joiner, AllocError> {
    match Joiner::new(alloc, 1, remembered.max(1)) {
        Ok(joiner) => Ok(joiner),
        Err(_) => Joiner::new(alloc, 1, remembered.max(1)),
    }
}

/// The numbers of a crowd, where one request for memory may be refused.
fn crowd_made(alloc: Global, origin: &Address) -> Result<Vec<u32>, AllocError> {
    match crowd_of(alloc, origin) {
        Ok(numbers) => Ok(numbers),
        Err(_) => crowd_of(alloc, origin),
    }
}

/// How many keys are remembered: on both sides of each limit at which they lie otherwise, and of
/// powers of two.
static LIMITS: [usize; 8] = [1, 16, 17, 32, 33, 1_000, 65_536, 65_537];

/// One growth is refused, whichever it is (docs/CONTRIBUTING.md says how), and never is an offer
/// answered with want of memory: to remember a key takes none.
#[test]
fn remembers_in_its_room_after_a_refused_growth(rt: HostRuntime) -> Result<(), Fail> {
    let origin = Address::from_text(rt.alloc(), "+1001")?;
    let crowd = crowd_made(rt.alloc(), &origin)?;
    for remembered in LIMITS.as_slice() {
        let mut joiner = made(rt.alloc(), *remembered)?;
        remembers_the_last(&rt, rt.alloc(), &mut joiner, &origin, &crowd, *remembered);
    }
    Ok(())
}

/// When the message of each index finished last, and how many did since.
#[derive(Drop)]
struct Finishes {
    /// How many had finished then, itself among them; 0 where it has not finished.
    last: Vec<usize>,
    count: usize,
    remembered: usize,
}

impl Finishes {
    /// None of so many messages has finished.
    fn new(alloc: Global, messages: usize, remembered: usize) -> Result<Finishes, AllocError> {
        Ok(Finishes {
            last: vec![in alloc; 0; messages]?,
            count: 0,
            remembered,
        })
    }

    /// What is answered to the message of an index that is offered twice.
    fn offer(&mut self, index: usize) -> (bool, Told, Told) {
        let Some(last) = self.last.get_mut(index) else {
            return (false, Told::Other, Told::Other);
        };
        if *last > 0 && self.count.saturating_sub(*last) < self.remembered {
            return (false, Told::Repeat, Told::Repeat);
        }
        self.count = self.count.saturating_add(1);
        *last = self.count;
        (true, Told::Finished, Told::Repeat)
    }
}

/// Messages by chance, half as many again as are remembered.
fn offers_by_chance(
    rt: &impl Abort,
    alloc: Global,
    origin: &Address,
    crowd: &[u32],
    remembered: usize,
) -> Result<(), Fail> {
    let messages = remembered.saturating_add(remembered / 2);
    let mut joiner = Joiner::new(alloc, 1, remembered.max(1))?;
    let mut finishes = Finishes::new(alloc, messages, remembered)?;
    let mut chance = Chance(remembered as u64);
    for _ in 0..remembered.saturating_mul(3) {
        let index = chance.below(messages as u64) as usize;
        let told = answers_to(alloc, &mut joiner, origin, number_at(crowd, index));
        same(rt, &(remembered, index), &told, &finishes.offer(index));
    }
    Ok(())
}

/// Above and at powers of two, and between them.
static MANY: [usize; 5] = [33, 512, 513, 1_000, 5_000];

/// Messages that come again, some of them when they are forgotten.
#[test]
fn remembers_what_came_again(rt: HostRuntime) -> Result<(), Fail> {
    let origin = Address::from_text(rt.alloc(), "+1001")?;
    let crowd = crowd_of(rt.alloc(), &origin)?;
    for remembered in MANY.as_slice() {
        offers_by_chance(&rt, rt.alloc(), &origin, &crowd, *remembered)?;
    }
    Ok(())
}
