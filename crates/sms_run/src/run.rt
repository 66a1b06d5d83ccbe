//! A script that is played event by event.

ghost use Rattle.std.specs.Prelude.{◌≡◌, ℕ, List, Some, IfOk, OnOk, option_copied};
ghost use Rattle.sms_script.specs.Lines.{lines};
ghost use Rattle.sms_run.specs.Inside.{HappensOn};
ghost use Rattle.sms_run.specs.Runs.{EndsRun, Happens, Plays, PlaysLine, RunsToEnd, TakesNext};

use crate::machine::Machine;
use crate::started::started;
use crate::teller::{Happened, Teller};
use crate::writing::{make_room, write_full};
use sms_feed::Line;
use sms_page::Page;
use sms_script::{Event, PlayFault, Script, ScriptFault};
use sms_work::{Worker, work_through};
use std::alloc::Global;
use std::io::{Read, Write};
use std::marker::Model;

/// The greatest number of lines of a script.
const LINES_MAX: u64 = 100_000;

/// A script and the machine that it is played on, which is there from the first event on.
#[derive(Drop)]
struct Run<M: Drop, W: Copy, T: Drop> {
    alloc: Global,
    script: Script,
    /// How the machine is made.
    way: W,
    machine: Option<M>,
    events: u64,
    /// What tells the events.
    teller: T,
}

impl<M: Drop, W: Copy, T: Drop> Model for Run<M, W, T> {
    ghost use Rattle.sms_run.specs.Runs.{RunValue};

    ghost Value = { RunValue M W T };

    ghost view = { λ r. record {
      settings = r.script;
      way = r.way;
      machine = r.machine;
      events = r.events;
      teller = r.teller;
    } };
}

/// The fault of a line of a script.
fn fault_in<F: From<PlayFault>>(line: u64, why: ScriptFault) -> F {
    F::from(PlayFault::Script { line, why })
}

/// Lets an event of this number happen on a machine, and tells it.
fn happen_on<M: Machine, T: Teller<M>>(
    alloc: Global,
    script: &Script,
    number: u64,
    event: &Event,
    machine: &mut M,
    teller: &mut T,
    page: &mut Page,
) -> Result<(), T::Fault>
    ensures { OnOk result (HappensOn M.conduct T.tells script.now number event.now
        machine.old teller.old page.old machine.new teller.new page.new) }
{
    let packets_before = machine.packet_count();
    let answer = machine.step(event);
    let happened = Happened {
        script,
        machine: &*machine,
        number,
        event,
        answer,
        packets_before,
    };
    teller.tell(alloc, &happened, page)
}

impl<M: Machine, T: Teller<M>> Run<M, M::Way, T> {
    /// The event that a line says, if it says one.
    fn event_in(&mut self, line: Line<'_>) -> Result<Option<Event>, T::Fault>
        ensures { IfOk result (λ event.
            TakesNext self.old (option_copied line.entry.octets) event self.new) }
    {
        if self.script.lines() >= LINES_MAX {
            return Err(fault_in(line.number, ScriptFault::TooManyLines));
        }
        match line.octets {
            Some(octets) => Ok(self.script.take(self.alloc, octets)?),
            None => Err(fault_in(line.number, ScriptFault::LineTooLong)),
        }
    }

    /// Lets an event happen on the machine that there is, where it stands, or on one that starts.
    fn happen(&mut self, event: &Event, page: &mut Page) -> Result<(), T::Fault>
        ensures { OnOk result
            (Happens M.conduct T.tells self.old event.now page.old self.new page.new) }
    {
        self.events = self.events.saturating_add(1);
        let (alloc, number) = (self.alloc, self.events);
        if let Some(machine) = &mut self.machine {
            return happen_on(
                alloc,
                &self.script,
                number,
                event,
                machine,
                &mut self.teller,
                page,
            );
        }
        let mut machine = started(alloc, self.way, &self.script)?;
        let told = happen_on(
            alloc,
            &self.script,
            number,
            event,
            &mut machine,
            &mut self.teller,
            page,
        );
        self.machine = Some(machine);
        told
    }

    /// Plays a line.
    fn play(&mut self, line: Line<'_>, page: &mut Page) -> Result<(), T::Fault>
        ensures { OnOk result (Plays M.conduct T.tells self.old
            (option_copied line.entry.octets) page.old self.new page.new) }
    {
        match self.event_in(line)? {
            Some(event) => self.happen(&event, page),
            None => Ok(()),
        }
    }
}

impl<M: Machine, T: Teller<M>> Worker for Run<M, M::Way, T> {
    type Fault = T::Fault;

    ghost does = { PlaysLine M.conduct T.tells };

    ghost fails = { λ old number line new. Unit {0} };

    ghost ends = { EndsRun M.conduct T.finishes };

    ghost fails_at_end = { λ old new. Unit {0} };

    fn take<W: Write>(
        &mut self,
        line: Line<'_>,
        page: &mut Page,
        output: &mut W,
    ) -> Result<(), T::Fault> {
        make_room(page, output)?;
        self.play(line, page)?;
        write_full(page, output)?;
        Ok(())
    }

    fn finish<W: Write>(&mut self, page: &mut Page, _output: &mut W) -> Result<(), T::Fault> {
        if let Some(machine) = &self.machine {
            return self.teller.finish(self.alloc, &self.script, machine, page);
        }
        let machine = started(self.alloc, self.way, &self.script)?;
        self.teller.finish(self.alloc, &self.script, &machine, page)
    }
}

/// Plays the script that an input has, on a machine that is made in this way, and gives the teller
/// back, which tells each event, and in the end how all stands. The machine begins at the first
/// event, or else at the end, as the script has set.
///
/// A line that is at fault, too long or one too many ends all, and what was told before stands.
/// Before more is read, which may take long, what stands on the page is written, and the output
/// flushed. What stands on the page at the end stays there.
pub fn run_script<M: Machine, T: Teller<M>, R: Read, W: Write>(
    alloc: Global,
    way: M::Way,
    teller: T,
    page: &mut Page,
    input: &mut R,
    output: &mut W,
) -> (T, Result<(), T::Fault>)
    ensures { (octets : List ℕ) → R.remaining input.old ≡ Some octets
        → OnOk result.1 (RunsToEnd M.conduct T.tells T.finishes way
        teller (W.contents output.old) page.old (lines octets)
        result.0 (W.contents output.new) page.new) }
{
    let mut run = Run {
        alloc,
        script: Script::new(alloc),
        way,
        machine: None,
        events: 0,
        teller,
    };
    let told = work_through(alloc, &mut run, page, input, output);
    let Run { teller, .. } = run;
    (teller, told)
}
