//! The lines of a reader.

ghost use Rattle.std.specs.Prelude.{◌≡◌, ◌≤◌, ◌<◌, ◌+◌, ◌-◌, ◌++◌, ℕ, List, [], true, false, length, take, drop, IfErr, IfOk, IfNone, IfSome, OnErr, OnOk, Option, Some, option_copied};
ghost use Rattle.std.specs.Io.KnownBytes.{Appends, Keeps, ReadConsumes};
ghost use Rattle.sms_script.specs.Lines.{HasNoLineFeed};
ghost use Rattle.sms_feed.specs.Faults.{IsTold};
ghost use Rattle.sms_feed.specs.Feed.{FeedValue, Awaits};
ghost use Rattle.sms_feed.specs.Inside.Ends.{Ends, EndsAt, behind};
ghost use Rattle.sms_feed.specs.Next.{GoesOn, number_then};
ghost use Rattle.sms_feed.specs.Shown.{Stays, shown};

use crate::fault::FeedFault;
use crate::line::{Line, octets_of};
use crate::place::{End, Lies};
use crate::room::{KEPT_MAX, keep, read_behind};
use crate::writing::write_out;
use memchr::memchr;
use sms_page::Page;
use std::alloc::{AllocError, Global};
use std::io::{Error, ErrorKind, Read, Write};
use std::marker::Model;

/// How many octets are read at once.
const ROOM: usize = 65_536;

/// The lines of a reader, one after another. It keeps what was read of the lines that follow, and
/// never more than it has room for.
#[derive(Drop)]
pub struct Feed {
    room: Vec<u8>,
    /// The line at which it stands.
    line: Lies,
    /// Where the octets begin that no line had yet.
    start: usize,
    /// Where the octets end that were read.
    end: usize,
    number: u64,
    /// Whether the front of the next line was thrown away, since it is too long.
    is_long: bool,
    has_ended: bool,
}

impl Model for Feed {
    ghost use Rattle.std.specs.Prelude.{◌≡◌, ◌≤◌, ◌+◌, ◌-◌, length, take, drop};
    ghost use Rattle.sms_feed.specs.Feed.{FeedValue};
    ghost use Rattle.sms_feed.specs.Inside.Ends.{octets_at};

    ghost Value = { FeedValue };

    ghost view = { λ f. record {
      number = f.number;
      line = octets_at f.room.items f.line;
      left = take (f.end - f.start) (drop f.start f.room.items);
      is_long = f.is_long;
      has_ended = f.has_ended;
    } };

    ghost invariant = { λ f. (f.start ≤ f.end) × (f.end ≤ length f.room.items)
        × (length f.room.items ≡ 65536)
        × (f.line.start + f.line.end.length ≤ length f.room.items) };
}

impl Feed {
    /// One that stands before the first line, as if at a line of no octets.
    pub fn new(alloc: Global) -> Result<Feed, AllocError>
        ensures { IfOk result (λ feed. feed ≡ record {
          number = 0;
          line = Some [];
          left = [];
          is_long = false;
          has_ended = false;
        }) }
    {
        let end = End {
            length: 0,
            has_feed: false,
        };
        Ok(Feed {
            room: vec![in alloc; 0; ROOM]?,
            line: Lies {
                start: 0,
                end,
                is_long: false,
            },
            start: 0,
            end: 0,
            number: 0,
            is_long: false,
            has_ended: false,
        })
    }
}

impl Feed {
    /// The octets that were read and that no line had yet.
    fn left(&self) -> &[u8]
        ensures { result.now ≡ self.now.left }
    {
        self.room.get(self.start..self.end).unwrap_or(&[])
    }

    /// Where the next line ends, if its end was read.
    fn line_end(&self) -> Option<End>
        ensures { Ends self.now result }
    {
        let left = self.left();
        if let Some(length) = memchr(b'\n', left) {
            return Some(End {
                length,
                has_feed: true,
            });
        }
        if self.has_ended && (!left.is_empty() || self.is_long) {
            return Some(End {
                length: left.len(),
                has_feed: false,
            });
        }
        None
    }

    /// Goes on to the next line, which ends there.
    fn step(&mut self, end: End)
        requires { EndsAt self.old end }
        ensures { self.new ≡ behind self.old end }
    {
        let stop = self.start + end.length;
        self.line = Lies {
            start: self.start,
            end,
            is_long: self.is_long,
        };
        self.start = if end.has_feed { stop + 1 } else { stop };
        self.number = self.number.saturating_add(1);
        self.is_long = false;
    }

    /// Reads more behind what is left, which goes to the front, or is thrown away where it is longer
    /// than a line may be.
    fn read_more<R: Read>(&mut self, input: &mut R) -> std::io::Result<()>
        requires { HasNoLineFeed self.old.left }
        ensures awaits { (octets : List ℕ) → Awaits self.old (R.remaining input.old) octets
            → Awaits self.new (R.remaining input.new) octets }
        ensures number { self.new.number ≡ self.old.number }
    {
        self.is_long |= self.end - self.start > KEPT_MAX;
        self.end = keep(&mut self.room, self.start, self.end);
        self.start = 0;
        let count = read_behind(input, &mut self.room, self.end)?;
        self.end += count;
        self.has_ended = count == 0;
        Ok(())
    }

    /// Reads more, after all that is to be written was written.
    fn fill<R: Read, W: Write>(
        &mut self,
        input: &mut R,
        page: &mut Page,
        output: &mut W,
    ) -> Result<(), FeedFault>
        requires { HasNoLineFeed self.old.left }
        ensures awaits { (octets : List ℕ) → Awaits self.old (R.remaining input.old) octets
            → Awaits self.new (R.remaining input.new) octets }
        ensures number { self.new.number ≡ self.old.number }
        ensures page { OnOk result ((page.old.is_cut ≡ false)
            × (page.new ≡ record { octets = []; is_cut = false })
            × Appends (W.contents output.old) (W.contents output.new) page.old.octets) }
        ensures written { IfErr result (λ fault. IsTold fault (W.contents output.old) page.old
            (W.contents output.new)) }
    {
        write_out(page, output)?;
        self.read_more(input).map_err(FeedFault::Read)
    }

    /// Where the next line ends, or none where none is left. Before more is read, which may take
    /// long, all that stands on the page is written, and the output flushed.
    fn find_end<R: Read, W: Write>(
        &mut self,
        input: &mut R,
        page: &mut Page,
        output: &mut W,
    ) -> Result<Option<End>, FeedFault>
        ensures end { IfOk result (λ end. Ends self.new end) }
        ensures ended { IfOk result (λ end. IfNone end (self.new.has_ended ≡ true)) }
        ensures awaits { (octets : List ℕ) → Awaits self.old (R.remaining input.old) octets
            → Awaits self.new (R.remaining input.new) octets }
        ensures number { self.new.number ≡ self.old.number }
        ensures page { OnOk result ((page.new.is_cut ≡ page.old.is_cut)
            × Keeps (shown (W.contents output.old) page.old)
            (shown (W.contents output.new) page.new)) }
        ensures written { IfErr result (λ fault. IsTold fault (W.contents output.old) page.old
            (W.contents output.new)) }
    {
        for _ in 0..u64::MAX {
            match self.line_end() {
                Some(end) => return Ok(Some(end)),
                None if self.has_ended => return Ok(None),
                None => self.fill(input, page, output)?,
            }
        }
        Err(FeedFault::Read(Error::from(ErrorKind::Other)))
    }

    /// Goes on to the next line, and says whether there is one. Before more is read, which may take
    /// long, all that stands on the page is written, and the output flushed. Where that fails, or the
    /// input does, no line is lost: it may be called again.
    pub fn advance<R: Read, W: Write>(
        &mut self,
        input: &mut R,
        page: &mut Page,
        output: &mut W,
    ) -> Result<bool, FeedFault>
        ensures line { (octets : List ℕ) → Awaits self.old (R.remaining input.old) octets
            → GoesOn octets result self.new (R.remaining input.new) }
        ensures number { self.new.number ≡ number_then self.old.number result }
        ensures page { OnOk result
            (Stays (W.contents output.old) page.old (W.contents output.new) page.new) }
        ensures written { IfErr result (λ fault. IsTold fault (W.contents output.old) page.old
            (W.contents output.new)) }
    {
        match self.find_end(input, page, output)? {
            Some(end) => {
                self.step(end);
                Ok(true)
            }
            None => Ok(false),
        }
    }

    /// The line at which it stands.
    pub fn line(&self) -> Line<'_>
        ensures number { result.number ≡ self.now.number }
        ensures octets { option_copied result.octets ≡ self.now.line }
    {
        let Lies {
            start,
            end,
            is_long,
        } = self.line;
        let octets = self.room.get(start..start + end.length).unwrap_or(&[]);
        Line {
            number: self.number,
            octets: if is_long {
                None
            } else {
                octets_of(end.has_feed, octets)
            },
        }
    }
}
