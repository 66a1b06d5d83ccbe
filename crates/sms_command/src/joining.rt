//! What joins the pieces of lines, and tells what comes of it.

ghost use Rattle.std.specs.Prelude.{◌≡◌, IsOk, OnOk};
ghost use Rattle.sms_command.specs.Inside.Joins.{JoinsLine};

use crate::fault::Fault;
use crate::losses::tell_losses;
use crate::piece::Pieces;
use crate::recipient::{Addressed, addressed_in};
use crate::shown::Done;
use crate::words::Joined;
use sms_answer::{Layer, Lines};
use sms_feed::Taker;
use sms_file::FileFault;
use sms_join::{Gateway, GatewayLimits};
use sms_keep::save;
use sms_kept::Keeper;
use sms_page::Page;
use sms_stream::{Arrival, Clock, Stream};
use sms_told::Telling;
use std::alloc::{AllocError, Global};
use std::io::Write;

/// What a run joins by.
#[derive(Clone, Copy)]
pub struct Way<'a> {
    /// What the options say.
    pub joined: &'a Joined<'a>,
    /// How lines have their pieces.
    pub pieces: Pieces,
    /// How much the joiner keeps.
    pub limits: GatewayLimits,
    /// What its tables hash with, if they hash with a seed.
    pub seed: Option<u128>,
}

/// A joiner that holds nothing, whose tables hash with a seed or without.
pub fn joiner_of(alloc: Global, way: &Way<'_>) -> Result<Gateway, AllocError> {
    match way.seed {
        Some(seed) => Gateway::with_seed(alloc, way.limits, seed),
        None => Gateway::new(alloc, way.limits),
    }
}

/// Joins the units of lines.
#[derive(Drop)]
pub struct Joining {
    alloc: Global,
    /// How lines have their pieces.
    pieces: Pieces,
    /// Whether each line begins with its recipient.
    has_recipients: bool,
    /// What joins the pieces, and tells what comes of them.
    stream: Stream,
    /// Room for the octets of a line, which is kept.
    room: Vec<u8>,
    /// Whether a line was at fault.
    is_faulty: bool,
}

impl Joining {
    /// One that goes on from what a joiner holds, at a clock.
    pub fn new(alloc: Global, way: &Way<'_>, joiner: Gateway, clock: Clock) -> Joining {
        let joined = way.joined;
        let telling = Telling {
            form: joined.form,
            is_verbose: joined.is_verbose,
            tells_lines: joined.state.is_some(),
        };
        Joining {
            alloc,
            pieces: way.pieces,
            has_recipients: joined.has_recipients,
            stream: Stream::new(telling, joiner, clock),
            room: Vec::new(alloc),
            is_faulty: false,
        }
    }

    /// Ends the run, of which it is given how the lines ended: tells what is lost.
    pub fn end<N: Write>(self, taken: Result<(), Fault>, notes: &mut N) -> Result<Done, Fault>
        ensures { OnOk result (IsOk taken) }
    {
        let done = Done::unless(self.is_faulty);
        if !self.stream.telling().is_verbose {
            tell_losses(
                self.stream.losses(),
                self.stream.joiner().open_count(),
                notes,
            );
        }
        drop(self);
        taken?;
        Ok(done)
    }

    /// Adds a fault of a line.
    fn tell_fault(
        &mut self,
        number: u64,
        layer: Layer,
        fault: &Fault,
        page: &mut Page,
    ) -> Result<(), Fault>
        ensures stays { self.new.stream ≡ self.old.stream }
    {
        self.is_faulty = true;
        let form = self.stream.telling().form;
        let mut lines = Lines::numbered(form, page.take(self.alloc), number);
        lines.begin(layer);
        lines.finish_with(self.alloc, false, fault, page)?;
        Ok(())
    }

    /// A line with its recipient, where lines have one.
    fn addressed<'a>(&self, line: Result<&'a [u8], Fault>) -> Result<Addressed<'a>, Fault> {
        let line = line?;
        if self.has_recipients {
            return addressed_in(self.alloc, line);
        }
        Ok(Addressed {
            recipient: None,
            line,
        })
    }

    /// Takes a line with its recipient.
    fn take_addressed(
        &mut self,
        number: u64,
        addressed: &Addressed<'_>,
        page: &mut Page,
    ) -> Result<(), Fault>
        ensures { OnOk result
            (JoinsLine self.old.stream self.new.stream number page.old page.new) }
    {
        let arrival = Arrival {
            number,
            recipient: addressed.recipient.as_ref(),
        };
        let mut layer = Layer::Digits;
        let room = &mut self.room;
        match self
            .pieces
            .take(self.alloc, addressed.line, room, &mut layer)
        {
            Ok(Some(piece)) => Ok(self.stream.take(self.alloc, arrival, piece, page)?),
            Ok(None) => Ok(()),
            Err(fault) => self.take_fault(number, layer, fault, page),
        }
    }

    /// Takes a fault of a line, which ends the run unless it is of the input.
    fn take_fault(
        &mut self,
        number: u64,
        layer: Layer,
        fault: Fault,
        page: &mut Page,
    ) -> Result<(), Fault>
        ensures stays { self.new.stream ≡ self.old.stream }
    {
        if fault.is_of_input() {
            return self.tell_fault(number, layer, &fault, page);
        }
        Err(fault)
    }
}

impl Taker for Joining {
    type Fault = Fault;

    ghost use Rattle.sms_command.specs.Inside.Joins.{ends, joins};

    ghost takes = { joins };

    ghost ends = { ends };

    fn take(&mut self, number: u64, line: Option<&[u8]>, page: &mut Page) -> Result<(), Fault> {
        match self.addressed(line.ok_or(Fault::LineTooLong)) {
            Ok(addressed) => self.take_addressed(number, &addressed, page),
            Err(fault) => self.take_fault(number, Layer::Digits, fault, page),
        }
    }

    /// A piece that is offered once more is told as a repeat.
    fn tells_again(&self) -> bool {
        false
    }

    fn finish(&mut self, page: &mut Page) -> Result<(), Fault> {
        self.stream.finish(self.alloc, page)?;
        Ok(())
    }
}

impl Keeper for Joining {
    ghost use Rattle.sms_saved.specs.Spelling.{spelling};
    ghost use Rattle.sms_keep.specs.Saved.{saved};

    ghost state = { λ joining taken. spelling (saved joining.stream.joiner taken) };

    /// All that the joiner holds, as octets, and how many lines were taken.
    fn save(&self, taken: u64) -> Result<Vec<u8>, AllocError> {
        save(self.alloc, self.stream.joiner(), taken)
    }

    fn not_kept(fault: FileFault) -> Fault {
        Fault::File(fault)
    }
}
