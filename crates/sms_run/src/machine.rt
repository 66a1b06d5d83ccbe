//! What a script is played on.

ghost use Rattle.std.specs.Prelude.{◌≡◌, IfOk};
ghost use Rattle.sms_script.specs.Meaning.Known.{ArePhones};
ghost use Rattle.sms_script.specs.Script.Limits.{AreLimits};
ghost use Rattle.sms_run.specs.Machines.{Conduct};

use sms_field::Address;
use sms_script::{Event, Limits};
use std::alloc::{AllocError, Global};

/// What a script is played on.
pub trait Machine: Sized + Drop {
    /// How it is made.
    type Way: Copy;

    /// What an event answers.
    type Answer: Copy;

    /// What it does.
    ghost conduct: { Conduct Self Self.Way Self.Answer };

    /// A machine that begins.
    fn begin(
        alloc: Global,
        way: Self::Way,
        limits: Limits,
        phones: &[Address],
    ) -> Result<Self, AllocError>
        requires limits { AreLimits limits }
        requires phones { ArePhones phones.now }
        ensures { IfOk result (λ machine. conduct.Begins way limits phones.now machine) };

    /// Lets an event happen.
    fn step(&mut self, event: &Event) -> Self::Answer
        ensures { conduct.Steps self.old event.now result self.new };

    /// How many packets were ever put out.
    fn packet_count(&self) -> usize
        ensures { result ≡ conduct.put_out self.now };
}
