//! Sets of segments whose stamps jump by more than a week, in a made order, beside a clock that
//! keeps the units of a row and a list of the sets from which those that are old are taken out.

use crate::clocks::{origin_of, stamp_of};
use crate::coming::Coming;
use crate::found::holds;
use sms_trial::{Made, fed_with};
use std::alloc::{AllocError, Global};
use std::process::Abort;
use std::test::Fail;

/// How many seconds a week has.
const WEEK: u64 = 604_800;

/// The seconds of a day.
const DAY: u64 = 86_400;

/// The beginning of 2024, in seconds since the beginning of 2000.
const START: u64 = 8_766 * DAY;

/// No stamp is made after this moment.
const LAST: u64 = 3_155_000_000;

/// The texts of the origins.
static NAMES: [&str; 3] = ["+1001", "+1002", "+1003"];

/// How many sets may be open, as the words say it.
static LIMITS: [(usize, &str); 2] = [(16, "16"), (1_000, "1000")];

/// A unit with a stamp.
#[derive(Clone, Copy)]
struct Stamped {
    origin: usize,
    moment: u64,
}

/// A clock that keeps the units of which it is not sure.
#[derive(Drop)]
struct PlainClock {
    time: u64,
    /// The units with a stamp, as long as they are all of one origin and fewer than four.
    first: Vec<Stamped>,
    is_sure: bool,
    /// The units that came last, each more than a week ahead, all of one origin.
    row: Vec<Stamped>,
}

impl PlainClock {
    /// Before the first unit.
    fn new(alloc: Global) -> PlainClock {
        PlainClock {
            time: 0,
            first: Vec::new(alloc),
            is_sure: false,
            row: Vec::new(alloc),
        }
    }

    /// Whether a moment is at most a week after the time.
    fn is_near(&self, moment: u64) -> bool {
        moment <= self.time.saturating_add(WEEK)
    }

    /// A unit comes while the clock is not sure.
    fn take_early(&mut self, unit: Stamped) -> Result<(), AllocError> {
        let is_other = self.first.iter().any(|first| first.origin != unit.origin);
        if is_other && unit.moment.saturating_add(WEEK) < self.time {
            self.time = unit.moment;
            self.is_sure = true;
            return Ok(());
        }
        if self.first.is_empty() || self.is_near(unit.moment) {
            self.time = self.time.max(unit.moment);
            self.first.push(unit)?;
            self.is_sure = is_other || self.first.len() > 3;
            return Ok(());
        }
        self.is_sure = true;
        self.row.push(unit)?;
        Ok(())
    }

    /// Whether a unit that lies more than a week ahead bears the row out.
    fn bears_out(&self, unit: Stamped) -> bool {
        self.row.len() == 3 || self.row.iter().any(|own| own.origin != unit.origin)
    }

    /// The clock moves to the least moment of the row and of one more unit.
    fn move_to_row(&mut self, unit: Stamped) {
        self.time = unit.moment;
        for own in &self.row {
            self.time = self.time.min(own.moment);
        }
        self.row.clear();
    }

    /// A unit comes.
    fn take(&mut self, unit: Stamped) -> Result<(), AllocError> {
        if !self.is_sure {
            return self.take_early(unit);
        }
        if !self.is_near(unit.moment) && self.bears_out(unit) {
            self.move_to_row(unit);
        }
        if !self.is_near(unit.moment) {
            self.row.push(unit)?;
            return Ok(());
        }
        self.row.clear();
        self.time = self.time.max(unit.moment);
        Ok(())
    }
}

/// A set that is open.
#[derive(Drop)]
struct OpenSet {
    reference: usize,
    opened: u64,
    /// Which of its segments came.
    come: [bool; 3],
}

/// The sets that are open, in the order in which they were opened, and the lines that are told.
#[derive(Drop)]
struct Listed {
    sets: Vec<OpenSet>,
    clock: PlainClock,
    /// How many may be open.
    most: usize,
    told: String,
}

/// The line that tells a set.
fn line_of_set(alloc: Global, name: &str, set: &OpenSet) -> Result<String, Fail> {
    let origin = NAMES[set.reference % 3];
    let mut line = format!(in alloc; "{name}: {origin} 16 {} 3 missing", set.reference)?;
    for (place, has_come) in set.come.iter().enumerate() {
        if !*has_come {
            let number = format!(in alloc; " {}", place.saturating_add(1))?;
            line.push_str(&number)?;
        }
    }
    line.push('\n')?;
    Ok(line)
}

impl Listed {
    /// None, of which as many may be open.
    fn new(alloc: Global, most: usize) -> Listed {
        Listed {
            sets: Vec::new(alloc),
            clock: PlainClock::new(alloc),
            most,
            told: String::new(alloc),
        }
    }

    /// Tells the sets that are old at a moment.
    fn tell(&mut self, alloc: Global, name: &str, now: u64) -> Result<(), Fail> {
        for set in &self.sets {
            if set.opened.saturating_add(WEEK) <= now {
                let line = line_of_set(alloc, name, set)?;
                self.told.push_str(&line)?;
            }
        }
        Ok(())
    }

    /// A stamp comes, and the sets that are old then are taken out.
    fn go_on(&mut self, alloc: Global, origin: usize, moment: Option<u64>) -> Result<(), Fail> {
        if let Some(moment) = moment {
            self.clock.take(Stamped { origin, moment })?;
        }
        let now = self.clock.time;
        self.tell(alloc, "dropped", now)?;
        self.sets.retain(|set: &OpenSet| -> bool { set.opened.saturating_add(WEEK) > now });
        Ok(())
    }

    /// The place of the set of a reference, which is opened where it is not there and may be.
    fn place_of(&mut self, reference: usize, opened: u64) -> Result<Option<usize>, Fail> {
        for (place, set) in self.sets.iter().enumerate() {
            if set.reference == reference {
                return Ok(Some(place));
            }
        }
        let place = self.sets.len();
        if place >= self.most {
            return Ok(None);
        }
        self.sets.push(OpenSet {
            reference,
            opened,
            come: [false; 3],
        })?;
        Ok(Some(place))
    }

    /// Notes a segment of the set at a place, and says whether it is whole now.
    fn note(&mut self, place: usize, sequence: usize) -> bool {
        let Some(set) = self.sets.get_mut(place) else {
            return false;
        };
        if let Some(own) = set.come.get_mut(sequence) {
            *own = true;
        }
        let [first, second, third] = set.come;
        first && second && third
    }

    /// A segment comes, with a stamp of this moment if it has one.
    fn take(&mut self, reference: usize, sequence: usize, moment: Option<u64>) -> Result<(), Fail> {
        let opened = moment.unwrap_or(0).max(self.clock.time);
        let Some(place) = self.place_of(reference, opened)? else {
            return Ok(());
        };
        if self.note(place, sequence) && place < self.sets.len() {
            drop(self.sets.remove(place));
        }
        Ok(())
    }

    /// When a set was opened; now where there is none.
    fn opened_at(&self, place: usize) -> u64 {
        match self.sets.get(place) {
            Some(set) => set.opened,
            None => self.clock.time,
        }
    }
}

/// Makes moments, some of which lie far ahead, one by one or in a row.
#[derive(Drop)]
struct Jumping {
    made: Made,
    /// How many more units come of a row.
    left: usize,
    /// The origin of a row.
    origin: usize,
}

impl Jumping {
    /// A moment that lies far ahead.
    fn far(&mut self, now: u64) -> u64 {
        let days = self.made.below(60).saturating_add(7) as u64;
        now.saturating_add(days.saturating_mul(DAY))
    }

    /// A moment around the one at which one of the sets is old.
    fn due(&mut self, listed: &Listed) -> u64 {
        let opened = listed.opened_at(self.made.below(8));
        let due = opened.saturating_add(WEEK).saturating_sub(1);
        due.saturating_add(self.made.below(3) as u64)
    }

    /// Some units that lie far ahead come one after another.
    fn begin_row(&mut self) {
        self.left = self.made.below(6);
        self.origin = self.made.below(3);
    }

    /// The moment of the stamp that follows, if it has one.
    fn next(&mut self, listed: &Listed) -> Option<u64> {
        let now = listed.clock.time.max(START);
        if self.left > 0 {
            self.left = self.left.saturating_sub(1);
            return Some(self.far(now));
        }
        match self.made.below(32) {
            0 => None,
            1 => Some(now.saturating_sub((self.made.below(30_000) as u64).saturating_mul(60))),
            2..=4 => Some(self.due(listed)),
            5 | 6 => Some(self.far(now)),
            7 => {
                self.begin_row();
                Some(self.far(now))
            }
            8 => Some(
                now.saturating_add(WEEK)
                    .saturating_add(self.made.below(2) as u64),
            ),
            _ => Some(now.saturating_add(self.made.below(14_400) as u64)),
        }
    }

    /// Whether a unit of an origin may come: in a row only those of its own.
    fn takes(&self, origin: usize) -> bool {
        self.left == 0 || self.origin == origin
    }
}

/// The line of a segment, whose sequence counts from 0.
pub fn line_of(
    alloc: Global,
    reference: usize,
    sequence: usize,
    moment: Option<u64>,
) -> Result<String, Fail> {
    let stamp = stamp_of(alloc, moment)?;
    let place = format!(in alloc; "{reference:04X}03{:02X}", sequence.saturating_add(1))?;
    let origin = origin_of(reference);
    Ok(format!(in alloc; "44{origin}{stamp}09060804{place}0061\n")?)
}

/// The lines of an input, and the sets that it leaves open.
fn filled(alloc: Global, seed: u64, listed: &mut Listed) -> Result<String, Fail> {
    let mut coming = Coming::new(seed);
    let mut jumping = Jumping {
        made: Made::new(seed),
        left: 0,
        origin: 0,
    };
    let mut input = String::new(alloc);
    for _ in 0..1_200 {
        if let Some((reference, sequence)) = coming.next()
            && jumping.takes(reference % 3)
        {
            let moment = jumping.next(listed).map(|moment| moment.min(LAST));
            let line = line_of(alloc, reference, sequence, moment)?;
            input.push_str(&line)?;
            listed.go_on(alloc, reference % 3, moment)?;
            listed.take(reference, sequence, moment)?;
        }
    }
    listed.tell(alloc, "open", u64::MAX)?;
    Ok(input)
}

/// The lines of an output that tell sets.
fn lines_of_sets(alloc: Global, output: &str) -> Result<String, Fail> {
    let mut lines = String::new(alloc);
    for line in output.lines() {
        if line.starts_with("dropped") || line.starts_with("open") {
            lines.push_str(line)?;
            lines.push('\n')?;
        }
    }
    Ok(lines)
}

/// Sets whose stamps jump are dropped and told as the list says.
fn are_told(rt: &impl Abort, alloc: Global, seed: u64) -> Result<(), Fail> {
    for (most, word) in LIMITS {
        let mut listed = Listed::new(alloc, most);
        let input = filled(alloc, seed, &mut listed)?;
        let words = ["sms", "join", "--verbose", "--open", word];
        let (status, output) = fed_with(alloc, &words, &input)?;
        holds(rt, &(seed, most), status == 0);
        let lines = lines_of_sets(alloc, &output)?;
        holds(rt, &(seed, most), lines.as_str() == listed.told.as_str());
    }
    Ok(())
}

#[test]
fn tells_sets_whose_stamps_jump(rt: HostRuntime) -> Result<(), Fail> {
    for seed in 0..6 {
        are_told(&rt, rt.alloc(), seed)?;
    }
    Ok(())
}
