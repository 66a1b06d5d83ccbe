//! A script played on a world that tells whether `accepted` means accepted.

ghost use Rattle.std.specs.Prelude.{◌≡◌, ◌≢◌, Err, IfOk, true, false};
ghost use Rattle.sms_script.specs.Play.{Plays};
ghost use Rattle.sms_script.specs.declared.fault.PlayFault.TheVariants.{Read, Write};
ghost use Rattle.sms_script.specs.Script.{before_all};
ghost use Rattle.sms_world.specs.Network.{conduct};
ghost use Rattle.sms_world.specs.Playing.Trusted.{JudgesAccepted, PlaysWithAccepted};
ghost use Rattle.sms_world.specs.Playing.Order.{as_played};

use crate::doubt::Doubt;
use crate::laws::{claims_hold, deliveries_are_refused_only_where_full, laws_below};
use crate::order::Breach;
use crate::playing::told_stores_stand;
use crate::trusted::TrustedWorld;
use crate::words::doubts::verdict_lines;
use sms_script::{PlayFault, Script, Sink, Source, play_on, write_whole};
use std::alloc::Global;

/// What is told of a run.
#[derive(Clone, Copy, Debug, PartialEq, Eq)]
pub struct Verdicts {
    /// The first event that came out of order, if one did.
    pub breach: Option<Breach>,
    /// The first event after which `accepted` need not mean accepted, if there is one.
    pub doubt: Option<Doubt>,
}

/// As `play_watched`, on a world that tells besides whether `accepted` means accepted.
///
/// The transcript is that of `play`. Where the answer has no doubt, each text that the transcript
/// shows as accepted was: the centre has accepted every segment of it. Else this is the first event
/// of the run that breaks a condition under which it is so.
pub fn play_trusted<S: Source, K: Sink>(
    alloc: Global,
    source: &mut S,
    script: &mut Script,
    sink: &mut K,
) -> Result<Verdicts, PlayFault>
    requires reads { S.has_failed source.old ≡ false }
    requires begins { S.has_ended source.old ≡ false }
    requires writes { K.has_failed sink.old ≡ false }
    requires script { script.old ≡ before_all }
    ensures plays { let left = S.remaining source.old in
        let now_left = S.remaining source.new in
        let had = K.contents sink.old in
        Plays conduct left now_left had (K.contents sink.new) (as_played result) }
    ensures judges { let left = S.remaining source.old in
        let now_left = S.remaining source.new in
        let had = K.contents sink.old in
        IfOk result (JudgesAccepted left now_left had (K.contents sink.new) script.new) }
    ensures read_fails { result ≡ Err Read → S.has_failed source.new ≡ true }
    ensures read_works { result ≢ Err Read → S.has_failed source.new ≡ false }
    ensures write_fails { result ≡ Err Write → K.has_failed sink.new ≡ true }
    ensures write_works { result ≢ Err Write → K.has_failed sink.new ≡ false }
{
    laws_below();
    claims_hold();
    deliveries_are_refused_only_where_full();
    told_stores_stand();
    let mut network: Option<TrustedWorld> = None;
    play_on::<TrustedWorld, S, K>(alloc, source, script, &mut network, sink)?;
    let Some(world) = network else { unreachable!() };
    Ok(Verdicts {
        breach: world.watched().order(),
        doubt: world.accepted(),
    })
}

/// As `play`, and after the transcript come the lines that tell what `play_trusted` answers:
/// whether its run was orderly, where that is asked for, and whether `accepted` means accepted.
/// Where the script is at fault, a read fails or memory runs out, none of them comes, and nothing
/// is told of the events before. Where a write fails within them, a front of them has come.
pub fn play_with_accepted<S: Source, K: Sink>(
    alloc: Global,
    tells_order: bool,
    source: &mut S,
    sink: &mut K,
) -> Result<(), PlayFault>
    requires reads { S.has_failed source.old ≡ false }
    requires begins { S.has_ended source.old ≡ false }
    requires writes { K.has_failed sink.old ≡ false }
    ensures plays { let left = S.remaining source.old in
        let now_left = S.remaining source.new in
        let had = K.contents sink.old in
        PlaysWithAccepted tells_order left now_left had (K.contents sink.new) result }
    ensures read_fails { result ≡ Err Read → S.has_failed source.new ≡ true }
    ensures read_works { result ≢ Err Read → S.has_failed source.new ≡ false }
    ensures write_fails { result ≡ Err Write → K.has_failed sink.new ≡ true }
    ensures write_works { result ≢ Err Write → K.has_failed sink.new ≡ false }
{
    let mut script = Script::new(alloc);
    let verdicts = play_trusted(alloc, source, &mut script, sink)?;
    let lines = verdict_lines(alloc, &script, tells_order, verdicts)?;
    match write_whole(sink, lines.as_bytes()) {
        Ok(()) => Ok(()),
        Err(_) => Err(PlayFault::Write),
    }
}
