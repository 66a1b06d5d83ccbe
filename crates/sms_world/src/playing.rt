//! A script played on the world, watched or not.

pub(crate) mod trusted;

ghost use Rattle.std.specs.Prelude.{◌≡◌, ◌≢◌, Err, IfOk, true, false};
ghost use Rattle.sms_script.specs.Play.{Plays};
ghost use Rattle.sms_script.specs.declared.fault.PlayFault.TheVariants.{Read, Write};
ghost use Rattle.sms_script.specs.Script.{before_all};
ghost use Rattle.sms_world.specs.Network.{conduct};
ghost use Rattle.sms_world.specs.Playing.{ToldStoresStand, Transcribes};
ghost use Rattle.sms_world.specs.Playing.Order.{as_played, Judges, PlaysWithOrder};

use crate::laws::{claims_hold, deliveries_are_refused_only_where_full, laws_below, stores_stand};
use crate::order::Breach;
use crate::watched::WatchedWorld;
use crate::words::order::order_line;
use crate::world::World;
use sms_script::{PlayFault, Script, Sink, Source, play_on, write_whole};
use std::alloc::Global;

/// Plays the script that a source gives on phones and a service centre, and writes its transcript
/// into a sink: what every event answered and put out, and what stands at the phones in the end.
///
/// Neither may have failed yet, nor may the source have told its end. A script that is at fault, a
/// read that fails, a write that fails and want of memory end it at once; what was written for the
/// lines before stands. Where memory runs out within an event, the event is told as `drop memory`
/// and the script goes on. The sink is not flushed.
pub fn play<S: Source, K: Sink>(
    alloc: Global,
    source: &mut S,
    sink: &mut K,
) -> Result<(), PlayFault>
    requires reads { S.has_failed source.old ≡ false }
    requires begins { S.has_ended source.old ≡ false }
    requires writes { K.has_failed sink.old ≡ false }
    ensures plays { let left = S.remaining source.old in
        let now_left = S.remaining source.new in
        Plays conduct left now_left (K.contents sink.old) (K.contents sink.new) result }
    ensures transcribes { let left = S.remaining source.old in
        let now_left = S.remaining source.new in
        let had = K.contents sink.old in
        IfOk result (λ _. Transcribes left now_left had (K.contents sink.new)) }
    ensures read_fails { result ≡ Err Read → S.has_failed source.new ≡ true }
    ensures read_works { result ≢ Err Read → S.has_failed source.new ≡ false }
    ensures write_fails { result ≡ Err Write → K.has_failed sink.new ≡ true }
    ensures write_works { result ≢ Err Write → K.has_failed sink.new ≡ false }
{
    claims_hold();
    deliveries_are_refused_only_where_full();
    told_stores_stand();
    sms_script::play::<World, S, K>(alloc, source, sink)
}

/// As `play`, on a world that is watched: it answers the first event of the run that came out of
/// order, if one did. No line of the script is taken yet; it is left with what its lines have said,
/// from which `order_line` makes the line that tells this answer.
///
/// The transcript is that of `play`. Where the answer is none, its run was orderly, and each
/// phone's store is, in order of completion, exactly the texts typed to it of which every segment
/// was taken, each once, whole and as typed. Else the run was not orderly, and this was its first
/// event that did not meet the condition.
pub fn play_watched<S: Source, K: Sink>(
    alloc: Global,
    source: &mut S,
    script: &mut Script,
    sink: &mut K,
) -> Result<Option<Breach>, PlayFault>
    requires reads { S.has_failed source.old ≡ false }
    requires begins { S.has_ended source.old ≡ false }
    requires writes { K.has_failed sink.old ≡ false }
    requires script { script.old ≡ before_all }
    ensures plays { let left = S.remaining source.old in
        let now_left = S.remaining source.new in
        let had = K.contents sink.old in
        Plays conduct left now_left had (K.contents sink.new) (as_played result) }
    ensures transcribes { let left = S.remaining source.old in
        let now_left = S.remaining source.new in
        let had = K.contents sink.old in
        IfOk result (λ _. Transcribes left now_left had (K.contents sink.new)) }
    ensures judges { let left = S.remaining source.old in
        let now_left = S.remaining source.new in
        let had = K.contents sink.old in
        IfOk result (Judges left now_left had (K.contents sink.new) script.new) }
    ensures read_fails { result ≡ Err Read → S.has_failed source.new ≡ true }
    ensures read_works { result ≢ Err Read → S.has_failed source.new ≡ false }
    ensures write_fails { result ≡ Err Write → K.has_failed sink.new ≡ true }
    ensures write_works { result ≢ Err Write → K.has_failed sink.new ≡ false }
{
    laws_below();
    claims_hold();
    deliveries_are_refused_only_where_full();
    told_stores_stand();
    let mut network: Option<WatchedWorld> = None;
    play_on::<WatchedWorld, S, K>(alloc, source, script, &mut network, sink)?;
    let Some(world) = network else { unreachable!() };
    Ok(world.order())
}

/// As `play`, and after the transcript comes the line that tells whether its run was orderly: that
/// of `order_line`, of what `play_watched` answers. Where the script is at fault, a read fails or
/// memory runs out, none of it comes, and nothing is told of the events before. Where a write fails
/// within it, a front of it has come.
pub fn play_with_order<S: Source, K: Sink>(
    alloc: Global,
    source: &mut S,
    sink: &mut K,
) -> Result<(), PlayFault>
    requires reads { S.has_failed source.old ≡ false }
    requires begins { S.has_ended source.old ≡ false }
    requires writes { K.has_failed sink.old ≡ false }
    ensures plays { let left = S.remaining source.old in
        let now_left = S.remaining source.new in
        PlaysWithOrder left now_left (K.contents sink.old) (K.contents sink.new) result }
    ensures read_fails { result ≡ Err Read → S.has_failed source.new ≡ true }
    ensures read_works { result ≢ Err Read → S.has_failed source.new ≡ false }
    ensures write_fails { result ≡ Err Write → K.has_failed sink.new ≡ true }
    ensures write_works { result ≢ Err Write → K.has_failed sink.new ≡ false }
{
    let mut script = Script::new(alloc);
    let breach = play_watched(alloc, source, &mut script, sink)?;
    let line = order_line(alloc, &script, breach)?;
    match write_whole(sink, line.as_bytes()) {
        Ok(()) => Ok(()),
        Err(_) => Err(PlayFault::Write),
    }
}

/// After an orderly run each store in the transcript is just the texts that have finished at the
/// phone, as typed, in order of completion. The contract is this law; nothing is done.
pub fn told_stores_stand()
    ensures { ToldStoresStand }
{
    stores_stand();
}
