//! What a script is played on.

ghost use Rattle.std.specs.Prelude.{◌≡◌, ◌-◌, ◌<◌, ◌≤◌, [], IfOk, length, slice_get};
ghost use Rattle.std.specs.Option.{option_map};
ghost use Rattle.sms_script.specs.Meaning.Known.{ArePhones};
ghost use Rattle.sms_script.specs.Play.Network.{Conduct};
ghost use Rattle.sms_script.specs.Play.Runs.{IsTick, Answers, PutsOut, statuses_at, store_at};
ghost use Rattle.sms_script.specs.Script.Limits.{AreLimits};
ghost use Rattle.sms_script.specs.Transcript.Shown.{shown, stored};

use crate::meaning::Event;
use crate::script::Limits;
use crate::transcript::{Entry, Packet};
use sms_field::Address;
use std::alloc::{AllocError, Global};

/// What a script is played on: phones, the service centre between them, and every packet that was
/// ever put out. Phones are counted from 0, packets and the texts of a phone from 1.
pub trait Network: Sized + Drop {
    /// What it does.
    ghost conduct: { Conduct Self };

    /// A network that begins.
    fn begin(alloc: Global, limits: Limits, phones: &[Address]) -> Result<Self, AllocError>
        requires limits { AreLimits limits }
        requires phones { ArePhones phones.now }
        ensures begins { IfOk result (λ n. conduct.Begins limits phones.now n) }
        ensures packets { IfOk result (λ n. conduct.put_out n ≡ []) }
        ensures phones { IfOk result (λ n. length (conduct.ends n) ≡ length phones.now) };

    /// An event. What it answers in words is written in the place of what stood there. Where memory
    /// runs out for the words, the event has happened all the same.
    fn step(&mut self, event: &Event, words: &mut Vec<u8>) -> Result<(), AllocError>
        ensures steps { Answers conduct self.old event.now self.new words.new.items result }
        ensures packets { PutsOut conduct self.old self.new }
        ensures ticks { IsTick event.now → conduct.put_out self.new ≡ conduct.put_out self.old }
        ensures phones { length (conduct.ends self.new) ≡ length (conduct.ends self.old) };

    /// How many packets were ever put out.
    fn packet_count(&self) -> usize
        ensures { result ≡ length (conduct.put_out self.now) };

    /// The packet of this number.
    fn packet(&self, number: usize) -> Option<Packet<'_>>
        requires { 1 ≤ number }
        ensures { option_map shown result ≡ slice_get (conduct.put_out self.now) (number - 1) };

    /// How many texts were typed at a phone.
    fn typed(&self, phone: usize) -> usize
        requires { phone < length (conduct.ends self.now) }
        ensures { result ≡ length (statuses_at (conduct.ends self.now) phone) };

    /// What became of a text, in a word.
    fn status(&self, phone: usize, text: usize) -> Option<&str>
        requires phone { phone < length (conduct.ends self.now) }
        requires text { 1 ≤ text }
        ensures { let all = statuses_at (conduct.ends self.now) phone in
            option_map (λ word. word.now) result ≡ slice_get all (text - 1) };

    /// How many texts stand in the store of a phone.
    fn stored(&self, phone: usize) -> usize
        requires { phone < length (conduct.ends self.now) }
        ensures { result ≡ length (store_at (conduct.ends self.now) phone) };

    /// The text at this place of the store of a phone. Places are counted from 0, and the oldest
    /// text comes first.
    fn entry(&self, phone: usize, place: usize) -> Option<Entry<'_>>
        requires { phone < length (conduct.ends self.now) }
        ensures { let all = store_at (conduct.ends self.now) phone in
            option_map stored result ≡ slice_get all place };
}
