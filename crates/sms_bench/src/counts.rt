//! How much of what came out of a job, by how its lines begin and end.

use memchr::{memchr, memrchr};
use std::fmt;

/// Whose answers are counted, and in which form.
#[derive(Clone, Copy)]
pub enum Form {
    Joined,
    JoinedJson,
    Shown,
    ShownJson,
    Played,
    PlayedJson,
    Drawn,
}

/// How much came out.
#[derive(Drop)]
pub struct Counts {
    /// Lines, or of `show` without `--json` answers of some lines.
    pub lines: u64,
    /// Texts of one unit, and of several.
    pub single: u64,
    pub several: u64,
    /// Units that came before, where that is told.
    pub repeats: u64,
    /// Segments for which there was no place, and events of `play` with an RP-ERROR.
    pub refused: u64,
    /// Sets of segments that were too old, and that were open at the end.
    pub dropped: u64,
    pub open: u64,
    pub faults: u64,
    /// Events, and among them texts typed, segments kept, and texts that are whole.
    pub events: u64,
    pub typed: u64,
    pub kept: u64,
    pub finished: u64,
    /// Arrows that are drawn.
    pub arrows: u64,
    /// Units that are written, read as values, and seen where they lie.
    pub written: u64,
    pub read: u64,
    pub seen: u64,
}

/// Counts one more.
pub fn add_one(count: &mut u64) {
    *count = count.saturating_add(1);
}

/// What a text of several units begins with.
static MARK: &[u8] = b"* ";

/// What stands behind the first blank.
fn after_blank(line: &[u8]) -> &[u8] {
    match memchr(b' ', line) {
        Some(place) => line.get(place.saturating_add(1)..).unwrap_or(&[]),
        None => &[],
    }
}

/// The text in a line of `join`, behind the moment and the origin, in which there is no blank.
fn text_in(line: &[u8]) -> &[u8] {
    after_blank(after_blank(line))
}

/// The text in a line of `join --json`, and what stands behind it.
fn text_in_json(line: &[u8]) -> &[u8] {
    line.get(9..).unwrap_or(&[])
}

/// What stands after the digits in front.
fn after_digits(line: &[u8]) -> &[u8] {
    let mut rest = line;
    for _ in 0..line.len() {
        match rest {
            [b'0'..=b'9', after @ ..] => rest = after,
            _ => break,
        }
    }
    rest
}

/// The last of some lines.
fn last_line(lines: &[u8]) -> &[u8] {
    let start = match memrchr(b'\n', lines) {
        Some(place) => place.saturating_add(1),
        None => 0,
    };
    lines.get(start..).unwrap_or(&[])
}

impl Counts {
    /// Of nothing.
    pub fn new() -> Counts {
        Counts {
            lines: 0,
            single: 0,
            several: 0,
            repeats: 0,
            refused: 0,
            dropped: 0,
            open: 0,
            faults: 0,
            events: 0,
            typed: 0,
            kept: 0,
            finished: 0,
            arrows: 0,
            written: 0,
            read: 0,
            seen: 0,
        }
    }

    /// Counts a text that is whole.
    fn take_text(&mut self, text: &[u8]) {
        if text.starts_with(MARK) {
            add_one(&mut self.several);
        } else {
            add_one(&mut self.single);
        }
    }

    /// Counts a line of `join`.
    fn take_joined(&mut self, line: &[u8]) {
        match line {
            [b'o', ..] => add_one(&mut self.open),
            [b'd', ..] => add_one(&mut self.dropped),
            [b'l', .., b'e', b'a', b't'] => add_one(&mut self.repeats),
            [b'l', .., b'e', b't', b's'] => add_one(&mut self.refused),
            [b'l', ..] => add_one(&mut self.faults),
            _ => self.take_text(text_in(line)),
        }
    }

    /// Counts a line of `join --json`.
    fn take_joined_json(&mut self, line: &[u8]) {
        match line {
            [b'{', b'"', b't', ..] => self.take_text(text_in_json(line)),
            [b'{', b'"', b'o', ..] => add_one(&mut self.open),
            [b'{', b'"', b'd', ..] => add_one(&mut self.dropped),
            [.., b'e', b'a', b't', b'"', b'}'] => add_one(&mut self.repeats),
            [.., b'e', b't', b's', b'"', b'}'] => add_one(&mut self.refused),
            _ => add_one(&mut self.faults),
        }
    }

    /// Counts an event of `play`, of which the word is given and what follows it.
    fn take_event(&mut self, word: &[u8]) {
        add_one(&mut self.events);
        match word {
            [b't', b'y', ..] => add_one(&mut self.typed),
            [b'k', ..] => add_one(&mut self.kept),
            [b'f', b'i', ..] => add_one(&mut self.finished),
            [b'f', b'a', b'u', ..] => add_one(&mut self.faults),
            [b'r', b'e', b'p', b'e', b'a', b't', b'e', ..] => {}
            [b'r', b'e', b'p', ..] => add_one(&mut self.repeats),
            [b'r', b'e', b'f', ..] => add_one(&mut self.refused),
            [b'd', b'r', ..] => add_one(&mut self.dropped),
            _ => {}
        }
    }

    /// Counts a line of `play`, which is an event where it begins with a number.
    fn take_played(&mut self, line: &[u8]) {
        if let [b'0'..=b'9', ..] = line {
            self.take_event(after_digits(line).get(1..).unwrap_or(&[]));
        }
    }

    /// Counts a line of `play --json`, which is an event where its first name says so.
    fn take_played_json(&mut self, line: &[u8]) {
        if let [
            b'{',
            b'"',
            b'e',
            b'v',
            b'e',
            b'n',
            b't',
            b'"',
            b':',
            number @ ..,
        ] = line
        {
            self.take_event(after_digits(number).get(9..).unwrap_or(&[]));
        }
    }

    /// Counts a line of `chart`: an event is told in one, and an arrow drawn in another.
    fn take_drawn(&mut self, line: &[u8]) {
        if line.starts_with(b"<g ") {
            add_one(&mut self.arrows);
        } else if line.starts_with(b"<text class=\"told\"") {
            add_one(&mut self.events);
        }
    }

    /// Counts a line, or of `show` without `--json` the lines of an answer.
    pub fn take(&mut self, form: Form, lines: &[u8]) {
        add_one(&mut self.lines);
        match (form, lines) {
            (Form::Joined, _) => self.take_joined(lines),
            (Form::JoinedJson, _) => self.take_joined_json(lines),
            (Form::Played, _) => self.take_played(lines),
            (Form::PlayedJson, _) => self.take_played_json(lines),
            (Form::Shown, _) => {
                if last_line(lines).starts_with(b"line ") {
                    add_one(&mut self.faults);
                }
            }
            (Form::ShownJson, [.., b'}', b'}']) => add_one(&mut self.faults),
            (Form::Drawn, _) => self.take_drawn(lines),
            _ => {}
        }
    }
}

impl fmt::Display for Counts {
    fn fmt<W: fmt::Write>(&self, f: &mut fmt::Formatter<W>) -> fmt::Result {
        for (count, name) in [
            (self.lines, "lines"),
            (self.single, "texts of one unit"),
            (self.several, "texts of several"),
            (self.repeats, "repeats"),
            (self.refused, "refused"),
            (self.dropped, "dropped"),
            (self.open, "open at the end"),
            (self.faults, "faults"),
            (self.events, "events"),
            (self.typed, "typed"),
            (self.kept, "kept"),
            (self.finished, "finished"),
            (self.arrows, "arrows"),
            (self.written, "written"),
            (self.read, "read"),
            (self.seen, "seen"),
        ] {
            if count > 0 {
                write!(f, ", {count} {name}")?;
            }
        }
        Ok(())
    }
}
