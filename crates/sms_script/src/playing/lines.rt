//! The lines of a script played.

ghost use Rattle.std.specs.Prelude.{◌≡◌, ◌≢◌, None, Err, true, false};
ghost use Rattle.sms_script.specs.Script.{before_all};
ghost use Rattle.sms_script.specs.Inside.Standing.{PlaysLines};
ghost use Rattle.sms_script.specs.declared.fault.PlayFault.TheVariants.{Read, Write};

use crate::devices::{Sink, Source};
use crate::fault::PlayFault;
use crate::playing::line::play_line;
use crate::playing::network::Network;
use crate::playing::next_line::{Next, next_line};
use crate::playing::page::Page;
use crate::script::Script;
use std::alloc::Global;

/// Plays the lines that a source gives, and puts what they tell into the sink. It is written on the
/// page first.
pub fn play_lines<N: Network, S: Source, K: Sink>(
    alloc: Global,
    source: &mut S,
    script: &mut Script,
    network: &mut Option<N>,
    page: &mut Page,
    sink: &mut K,
) -> Result<(), PlayFault>
    requires reads { S.has_failed source.old ≡ false }
    requires begins { S.has_ended source.old ≡ false }
    requires writes { K.has_failed sink.old ≡ false }
    requires script { script.old ≡ before_all }
    requires network { network.old ≡ None }
    ensures plays { let left = S.remaining source.old in
        let now_left = S.remaining source.new in
        let had = K.contents sink.old in
        let has = K.contents sink.new in
        PlaysLines N.conduct left now_left script.new network.new had has result }
    ensures read_fails { result ≡ Err Read → S.has_failed source.new ≡ true }
    ensures read_works { result ≢ Err Read → S.has_failed source.new ≡ false }
    ensures write_fails { result ≡ Err Write → K.has_failed sink.new ≡ true }
    ensures write_works { result ≢ Err Write → K.has_failed sink.new ≡ false }
{
    let mut events = 0u64;
    let mut line = Vec::new(alloc);
    loop {
        match next_line(source, &mut line, script.lines())? {
            Next::Line => { play_line(alloc, script, network, &mut events, &line, page, sink)? }
            Next::Last => {
                return play_line(alloc, script, network, &mut events, &line, page, sink);
            }
            Next::End => return Ok(()),
        }
    }
}
