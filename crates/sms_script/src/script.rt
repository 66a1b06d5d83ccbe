//! What the lines of a script have said so far.

mod limits;

ghost use Rattle.std.specs.Prelude.{◌≡◌, ◌+◌, ◌<◌, ◌^◌, IfOk, OnOk, OnErr, None, Ok, length};
ghost use Rattle.sms_script.specs.Meaning.{Fits, meaning};
ghost use Rattle.sms_script.specs.Meaning.Memory.{TakesMemory};
ghost use Rattle.sms_script.specs.Meaning.Known.{ArePhones, name_of};
ghost use Rattle.sms_script.specs.Script.{before_all, after, event_of, TakesLine};
ghost use Rattle.sms_script.specs.Script.Limits.{AreLimits};
ghost use Rattle.sms_script.specs.declared.fault.PlayFault.TheVariants.{Memory};

use crate::fault::{MeaningFault, PlayFault};
use crate::meaning::{Event, Known, Statement, meaning_of};
pub use limits::Limits;
use sms_field::Address;
use std::alloc::{AllocError, Global};
use std::marker::Model;

/// What the lines of a script have said so far.
#[derive(Drop)]
pub struct Script {
    known: Known,
    limits: Limits,
    clock: Option<u64>,
    brief: bool,
    lines: u64,
}

impl Model for Script {
    ghost use Rattle.sms_script.specs.Script.Settings.{SettingsValue};
    ghost use Rattle.sms_script.specs.Script.Limits.{AreLimits};

    ghost Value = { SettingsValue };

    ghost view = { λ s. record {
      known = s.known;
      limits = s.limits;
      clock = s.clock;
      is_brief = s.brief;
      lines = s.lines;
    } };

    ghost invariant = { λ s. AreLimits s.limits };
}

impl Script {
    /// Before the first line.
    pub fn new(alloc: Global) -> Script
        ensures { result ≡ before_all }
    {
        Script {
            known: Known::new(alloc),
            limits: Limits::new(),
            clock: None,
            brief: false,
            lines: 0,
        }
    }

    /// How many lines were taken.
    pub fn lines(&self) -> u64
        ensures { result ≡ self.now.lines }
    {
        self.lines
    }

    /// Whether packets are printed as their length.
    pub fn is_brief(&self) -> bool
        ensures { result ≡ self.now.is_brief }
    {
        self.brief
    }

    /// The name of a phone, and an empty one where there is no such phone.
    pub fn name(&self, phone: usize) -> &str
        ensures { result.now ≡ name_of self.now.known.names phone }
    {
        match self.known.name(phone) {
            Some(name) => name,
            None => "",
        }
    }

    /// The addresses of the phones.
    pub fn addresses(&self) -> &[Address]
        ensures addresses { result.now ≡ self.now.known.addresses }
        ensures phones { ArePhones self.now.known.addresses }
        ensures names { length self.now.known.names ≡ length self.now.known.addresses }
    {
        self.known.addresses()
    }

    /// The limits.
    pub fn limits(&self) -> Limits
        ensures limits { result ≡ self.now.limits }
        ensures ranges { AreLimits result }
    {
        self.limits
    }

    /// Where the clock starts.
    pub fn clock(&self) -> Option<u64>
        ensures { result ≡ self.now.clock }
    {
        self.clock
    }

    /// Takes what a line says, and answers the event that it is. Where memory runs out, it takes
    /// nothing.
    #[tactic(auto, unfolding(crate::specs::Script::after))]
    fn take_statement(&mut self, statement: Statement) -> Result<Option<Event>, AllocError>
        requires lines { self.old.lines < 2 ^ 60 }
        requires fits { Fits self.old.known statement }
        ensures settings { OnOk result (self.new ≡ after self.old statement) }
        ensures kept { OnErr result (self.new ≡ self.old) }
        ensures event { IfOk result (λ e. e ≡ event_of statement) }
        ensures memory { OnErr result (TakesMemory ⊥ (Ok statement)) }
    {
        match statement {
            Statement::Nothing => {}
            Statement::Limit(which, n) => self.limits.set(which, n),
            Statement::Clock(n) => self.clock = Some(n),
            Statement::Brief => self.brief = true,
            Statement::Wide => self.limits.wide = true,
            Statement::Reject => self.limits.reject = true,
            Statement::Phone(phone) => self.known.add(phone)?,
            Statement::Event(event) => {
                self.known.start();
                self.lines += 1;
                return Ok(Some(event));
            }
        }
        self.lines += 1;
        Ok(None)
    }

    /// Takes the next line, without its line feed, and answers the event that it is. A line that is
    /// at fault is not taken, nor one for which memory runs out: then all is as it was. Memory runs
    /// out for a phone and for an event alone, and for a text typed to a bad name: every other
    /// fault is told whatever memory there is.
    ///
    /// How long the line is and how many came before it are not looked at here: `play` does that.
    /// Fewer than 2^60 lines were taken before.
    pub fn take(&mut self, alloc: Global, line: &[u8]) -> Result<Option<Event>, PlayFault>
        requires { self.old.lines < 2 ^ 60 }
        ensures takes { TakesLine self.old self.new line.now result }
    {
        match meaning_of(alloc, &self.known, line) {
            Ok(statement) => Ok(self.take_statement(statement)?),
            Err(MeaningFault::Script(why)) => Err(PlayFault::Script {
                line: self.lines + 1,
                why,
            }),
            Err(MeaningFault::Memory) => Err(PlayFault::Memory),
        }
    }
}
