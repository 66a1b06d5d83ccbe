//! A world and a list of events.

ghost use Rattle.std.specs.Prelude.{◌≡◌, IfOk, length};
ghost use Rattle.sms_script.specs.Meaning.Known.{ArePhones};
ghost use Rattle.sms_script.specs.Script.Limits.{AreLimits};
ghost use Rattle.sms_world.specs.Headline.OfRun.{Promised};
ghost use Rattle.sms_world.specs.World.Claims.{CopiesMayComeInTime};
ghost use Rattle.sms_world.specs.World.Steps.{Runs, GoesOn, told_past};

use crate::fault::WorldFault;
use crate::laws::{claims_hold, deliveries_are_refused_only_where_full};
use crate::world::World;
use sms_field::Address;
use sms_message::Outcome;
use sms_script::{Event, Limits};
use std::alloc::{AllocError, Global};

/// Makes a world with these limits and phones, and lets these events happen, one after another. It
/// answers the world afterwards, and what each event has answered. After an event that answers a
/// fault the clock, the phones, the centre and the packets stand as before, and the next one
/// happens all the same.
///
/// Limits are in their ranges; phones are different and at most 100.
pub fn run(
    alloc: Global,
    limits: Limits,
    phones: &[Address],
    events: &[Event],
) -> Result<(World, Vec<Result<Outcome, WorldFault>>), AllocError>
    requires limits { AreLimits limits }
    requires phones { ArePhones phones.now }
    ensures runs { IfOk result (λ r. Runs limits phones.now events.now r.1.items r.0) }
    ensures phones { IfOk result (λ r. length r.0.parties.phones ≡ length phones.now) }
    ensures promised { IfOk result
        (λ r. Promised limits phones.now (told_past events.now r.1.items) r.0) }
    ensures copies { IfOk result (λ r. CopiesMayComeInTime r.0) }
{
    claims_hold();
    deliveries_are_refused_only_where_full();
    let mut world = World::new(alloc, limits, phones)?;
    match let_happen(alloc, &mut world, events) {
        Ok(answers) => Ok((world, answers)),
        Err(error) => {
            drop(world);
            Err(error)
        }
    }
}

/// Lets these events happen in a world, one after another, and answers what each has answered.
fn let_happen(
    alloc: Global,
    world: &mut World,
    events: &[Event],
) -> Result<Vec<Result<Outcome, WorldFault>>, AllocError>
    ensures goes { IfOk result (λ answers. GoesOn events.now answers.items world.old world.new) }
    ensures phones { length world.new.parties.phones ≡ length world.old.parties.phones }
{
    let mut answers = Vec::with_capacity(alloc, events.len())?;
    for event in events {
        answers.push_reserved(world.step(event));
    }
    Ok(answers)
}
