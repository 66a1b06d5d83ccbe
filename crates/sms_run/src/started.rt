//! The machine of a script before its first event.

ghost use Rattle.std.specs.Prelude.{IfOk};
ghost use Rattle.sms_run.specs.Machines.{Starts};

use crate::machine::Machine;
use sms_script::{Event, Script};
use std::alloc::{AllocError, Global};

/// A machine that starts as the script has set. What the tick answers with which a clock starts is
/// not told.
pub(crate) fn started<M: Machine>(
    alloc: Global,
    way: M::Way,
    script: &Script,
) -> Result<M, AllocError>
    ensures { IfOk result (λ m. Starts M.conduct way script.now m) }
{
    let mut machine = M::begin(alloc, way, script.limits(), script.addresses())?;
    if let Some(seconds) = script.clock() {
        let _ = machine.step(&Event::Tick(seconds));
    }
    Ok(machine)
}
