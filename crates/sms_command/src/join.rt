//! Texts that are joined from units, one a line of the input.

ghost use Rattle.std.specs.Prelude.{◌≡◌, ◌<◌, OnOk};
ghost use Rattle.sms_command.specs.Inside.Answers.{OfInput, WritesJoined};
ghost use Rattle.sms_command.specs.Inside.Joins.{JoinsLines};

use crate::fault::Fault;
use crate::folders::Folders;
use crate::joining::{Joining, Way, joiner_of};
use crate::kept::join_kept;
use crate::shown::Done;
use crate::words::Joined;
use sms_feed::take_lines;
use sms_join::GatewayLimits;
use sms_stream::Clock;
use std::alloc::Global;
use std::io::{Read, Write};

/// How much the joiner keeps, as the options say.
fn limits_of(joined: &Joined<'_>) -> GatewayLimits
    requires sets { 0 < joined.now.open }
    requires keys { 0 < joined.now.remembered }
    ensures { result ≡ record {
      open_max = joined.now.open;
      remembered = joined.now.remembered;
      alone = joined.now.alone;
      open_for = 604800;
      remember_for = joined.now.remember_for;
    } }
{
    let limits = GatewayLimits::new(joined.open, joined.remembered).alone(joined.alone);
    match joined.remember_for {
        None => limits,
        Some(seconds) => limits.remember_for(seconds),
    }
}

/// Joins what lines have, from nothing on.
fn join_anew<R: Read, W: Write, N: Write>(
    alloc: Global,
    way: &Way<'_>,
    input: &mut R,
    output: &mut W,
    notes: &mut N,
) -> Result<Done, Fault>
    ensures { OnOk result (OfInput (R.remaining input.old)
        (λ octets. JoinsLines octets (W.contents output.old) (W.contents output.new))) }
{
    let joiner = joiner_of(alloc, way)?;
    let mut joining = Joining::new(alloc, way, joiner, Clock::new());
    let taken = take_lines(alloc, &mut joining, input, output);
    joining.end(taken, notes)
}

/// Joins the units that the lines of an input have, and writes each text when it is whole. What is
/// lost goes to the notes. What the joiner holds is kept in a file, where the options say so.
pub fn join<F: Folders, R: Read, W: Write, N: Write>(
    alloc: Global,
    joined: &Joined<'_>,
    seed: Option<u128>,
    folders: F,
    input: &mut R,
    output: &mut W,
    notes: &mut N,
) -> Result<Done, Fault>
    ensures { OnOk result (WritesJoined joined.now.state (R.remaining input.old)
        (W.contents output.old) (W.contents output.new)) }
{
    let Some(pieces) = joined.pieces else {
        return Err(Fault::WrongOption);
    };
    if joined.open == 0 || joined.remembered == 0 {
        return Err(Fault::WrongOption);
    }
    let way = Way {
        joined,
        pieces,
        limits: limits_of(joined),
        seed,
    };
    match joined.state {
        None => join_anew(alloc, &way, input, output, notes),
        Some(state) => join_kept(alloc, &way, state, folders, input, output, notes),
    }
}
