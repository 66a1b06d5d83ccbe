//! Scripts that are played.

ghost use Rattle.std.specs.Prelude.{◌≡◌, false};

use crate::fault::Fault;
use crate::shown::Done;
use crate::talk::{Ear, Mouth, Outlet, write_page};
use crate::words::Played;
use sms_world::{PlayFault, Sink, Source};
use std::alloc::Global;
use std::cell::RefCell;
use std::io::{Read, Write};

impl From<PlayFault> for Fault {
    fn from(fault: PlayFault) -> Fault {
        Fault::Play(fault)
    }
}

/// Plays a script, and writes its transcript, and what else is asked for: whether its run was
/// orderly, and whether `accepted` means accepted in it.
fn play_from<S: Source, K: Sink>(
    alloc: Global,
    asked: Played,
    source: &mut S,
    sink: &mut K,
) -> Result<(), PlayFault>
    requires reads { S.has_failed source.old ≡ false }
    requires begins { S.has_ended source.old ≡ false }
    requires writes { K.has_failed sink.old ≡ false }
{
    if asked.tells_accepted {
        sms_world::play_with_accepted(alloc, asked.tells_order, source, sink)
    } else if asked.tells_order {
        sms_world::play_with_order(alloc, source, sink)
    } else {
        sms_world::play(alloc, source, sink)
    }
}

/// Plays the script that a reader gives to its end, and writes its transcript. Before more is read,
/// what was told is flushed. Where events that name nothing count, they are faults.
pub fn play_script<R: Read, W: Write>(
    alloc: Global,
    asked: Played,
    input: &mut R,
    output: &mut W,
) -> Result<Done, Fault> {
    let outlet = RefCell::new(Outlet::new(alloc, output)?);
    let mut ear = Ear::new(alloc, input, &outlet)?;
    let mut mouth = Mouth::new(&outlet, asked.is_checked);
    let played = play_from(alloc, asked, &mut ear, &mut mouth);
    let is_mute = ear.is_mute();
    let has_fault = mouth.has_found_fault();
    drop(ear);
    if is_mute || !write_page(&outlet) {
        return Err(Fault::Write);
    }
    played?;
    Ok(Done::unless(has_fault))
}
