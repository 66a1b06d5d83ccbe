//! A watched world and a list of events.

ghost use Rattle.std.specs.Prelude.{◌≡◌, IfOk, length};
ghost use Rattle.sms_script.specs.Meaning.Known.{ArePhones};
ghost use Rattle.sms_script.specs.Script.Limits.{AreLimits};
ghost use Rattle.sms_world.specs.Inside.Watching.{AllGoOnWatched};
ghost use Rattle.sms_world.specs.Watched.{RunsWatched};

use crate::fault::WorldFault;
use crate::watched::WatchedWorld;
use sms_field::Address;
use sms_message::Outcome;
use sms_script::{Event, Limits};
use std::alloc::{AllocError, Global};

/// As `run`, in a world that is watched: its `order` tells whether this run was orderly.
pub fn run_watched(
    alloc: Global,
    limits: Limits,
    phones: &[Address],
    events: &[Event],
) -> Result<(WatchedWorld, Vec<Result<Outcome, WorldFault>>), AllocError>
    requires limits { AreLimits limits }
    requires phones { ArePhones phones.now }
    ensures runs { IfOk result (λ r. RunsWatched limits phones.now events.now r.1.items r.0) }
    ensures phones { IfOk result
        (λ r. length r.0.world.parties.phones ≡ length phones.now) }
{
    let mut world = WatchedWorld::new(alloc, limits, phones)?;
    match let_happen_watched(alloc, &mut world, events) {
        Ok(answers) => Ok((world, answers)),
        Err(error) => {
            drop(world);
            Err(error)
        }
    }
}

/// Lets these events happen in a watched world, one after another, and answers what each has
/// answered.
fn let_happen_watched(
    alloc: Global,
    world: &mut WatchedWorld,
    events: &[Event],
) -> Result<Vec<Result<Outcome, WorldFault>>, AllocError>
    ensures goes { IfOk result
        (λ answers. AllGoOnWatched events.now answers.items world.old world.new) }
    ensures phones { length world.new.world.parties.phones
        ≡ length world.old.world.parties.phones }
{
    let mut answers = Vec::with_capacity(alloc, events.len())?;
    for event in events {
        answers.push_reserved(world.step(event));
    }
    Ok(answers)
}
