//! A script played.

mod end;
mod event;
mod line;
mod lines;
mod network;
mod next_line;
mod page;
mod put;
mod start;

ghost use Rattle.std.specs.Prelude.{◌≡◌, ◌≢◌, None, Err, true, false};
ghost use Rattle.sms_script.specs.Play.{Plays, Leaves};
ghost use Rattle.sms_script.specs.Script.{before_all};
ghost use Rattle.sms_script.specs.declared.fault.PlayFault.TheVariants.{Read, Write};

use crate::devices::{Sink, Source};
use crate::fault::PlayFault;
use crate::playing::end::put_phones;
use crate::playing::lines::play_lines;
use crate::playing::page::Page;
use crate::playing::start::started;
use crate::script::Script;
pub use network::Network;
pub use next_line::Next;
use std::alloc::Global;

/// Plays the script that a source gives, and writes its transcript into a sink: as `play`, which
/// calls it. No line of the script is taken yet, and there is no network. Where all is played, the
/// script is left with what its lines have said, and the network as it stands in the end.
pub fn play_on<N: Network, S: Source, K: Sink>(
    alloc: Global,
    source: &mut S,
    script: &mut Script,
    network: &mut Option<N>,
    sink: &mut K,
) -> Result<(), PlayFault>
    requires reads { S.has_failed source.old ≡ false }
    requires begins { S.has_ended source.old ≡ false }
    requires writes { K.has_failed sink.old ≡ false }
    requires script { script.old ≡ before_all }
    requires network { network.old ≡ None }
    ensures plays { let left = S.remaining source.old in
        let now_left = S.remaining source.new in
        Plays N.conduct left now_left (K.contents sink.old) (K.contents sink.new) result }
    ensures leaves { let left = S.remaining source.old in
        let now_left = S.remaining source.new in
        let had = K.contents sink.old in
        let has = K.contents sink.new in
        Leaves N.conduct left now_left had has script.new network.new result }
    ensures read_fails { result ≡ Err Read → S.has_failed source.new ≡ true }
    ensures read_works { result ≢ Err Read → S.has_failed source.new ≡ false }
    ensures write_fails { result ≡ Err Write → K.has_failed sink.new ≡ true }
    ensures write_works { result ≢ Err Write → K.has_failed sink.new ≡ false }
{
    let mut page = Page::new(alloc);
    play_lines(alloc, source, script, network, &mut page, sink)?;
    let last = started(alloc, script, network.take(), &mut page.words)?;
    let put = put_phones(alloc, script, &last, &mut page.lines, sink);
    *network = Some(last);
    put
}

/// Plays the script that a source gives, and writes its transcript into a sink.
///
/// Neither may have failed yet, nor may the source have told its end. A script that is at fault, a
/// read that fails, a write that fails and want of memory end it at once; what was written for the
/// lines before stands. The sink is not flushed.
pub fn play<N: Network, S: Source, K: Sink>(
    alloc: Global,
    source: &mut S,
    sink: &mut K,
) -> Result<(), PlayFault>
    requires reads { S.has_failed source.old ≡ false }
    requires begins { S.has_ended source.old ≡ false }
    requires writes { K.has_failed sink.old ≡ false }
    ensures plays { let left = S.remaining source.old in
        let now_left = S.remaining source.new in
        Plays N.conduct left now_left (K.contents sink.old) (K.contents sink.new) result }
    ensures read_fails { result ≡ Err Read → S.has_failed source.new ≡ true }
    ensures read_works { result ≢ Err Read → S.has_failed source.new ≡ false }
    ensures write_fails { result ≡ Err Write → K.has_failed sink.new ≡ true }
    ensures write_works { result ≢ Err Write → K.has_failed sink.new ≡ false }
{
    let mut script = Script::new(alloc);
    let mut network: Option<N> = None;
    play_on::<N, S, K>(alloc, source, &mut script, &mut network, sink)
}
