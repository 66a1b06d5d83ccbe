//! What tells a run.

ghost use Rattle.std.specs.Prelude.{OnOk};
ghost use Rattle.sms_page.specs.Page.{PageValue};
ghost use Rattle.sms_script.specs.Script.Settings.{SettingsValue};
ghost use Rattle.sms_run.specs.Runs.{Told};

use crate::machine::Machine;
use sms_feed::FeedFault;
use sms_page::Page;
use sms_script::{Event, PlayFault, Script};
use std::alloc::{AllocError, Global};

/// An event that has happened.
#[derive(Drop)]
pub struct Happened<'a, M: Machine> {
    /// What the script has said.
    pub script: &'a Script,
    /// The machine afterwards.
    pub machine: &'a M,
    /// The number of the event, counted from 1.
    pub number: u64,
    /// The event.
    pub event: &'a Event,
    /// What it answered.
    pub answer: M::Answer,
    /// How many packets were put out before.
    pub packets_before: usize,
}

/// What tells a run.
pub trait Teller<M: Machine>: Drop {
    /// Why an event, or what is told of it, ends all.
    type Fault: From<FeedFault> + From<PlayFault> + From<AllocError> + Drop;

    /// What it does with an event: how it and the page stand before and after.
    ghost tells: { Self → Told M M.Answer → PageValue → Self → PageValue → Type 0 };

    /// What it does at the end, by what the script has said and the machine.
    ghost finishes: { Self → SettingsValue → M → PageValue → Self → PageValue → Type 0 };

    /// Adds what is told of an event to the page.
    fn tell(
        &mut self,
        alloc: Global,
        happened: &Happened<'_, M>,
        page: &mut Page,
    ) -> Result<(), Self::Fault>
        ensures { OnOk result (tells self.old
            (record {
              settings = happened.now.script.now;
              machine = happened.now.machine.now;
              number = happened.now.number;
              event = happened.now.event.now;
              answer = happened.now.answer;
              packets_before = happened.now.packets_before;
            })
            page.old self.new page.new) };

    /// Adds what is told at the end to the page.
    fn finish(
        &mut self,
        alloc: Global,
        script: &Script,
        machine: &M,
        page: &mut Page,
    ) -> Result<(), Self::Fault>
        ensures { OnOk result
            (finishes self.old script.now machine.now page.old self.new page.new) };
}
