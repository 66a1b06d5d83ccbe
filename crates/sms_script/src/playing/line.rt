//! One line of a script played.

ghost use Rattle.std.specs.Prelude.{◌≡◌, ◌≢◌, ◌+◌, ◌<◌, ◌≤◌, ◌^◌, ℕ, List, Some, Ok, Err, OnOk, true, false, length};
ghost use Rattle.sms_script.specs.Lines.{line_limit};
ghost use Rattle.sms_script.specs.Script.{lines_limit, TakesLine};
ghost use Rattle.sms_script.specs.Script.Settings.{SettingsValue};
ghost use Rattle.sms_script.specs.Inside.Standing.{at, Advances};
ghost use Rattle.sms_script.specs.declared.fault.PlayFault.TheVariants.{Write};

use crate::devices::Sink;
use crate::fault::PlayFault;
use crate::meaning::Event;
use crate::playing::event::take_event;
use crate::playing::network::Network;
use crate::playing::page::Page;
use crate::playing::start::start;
use crate::script::Script;
use std::alloc::Global;

/// Plays the event that a line said, and puts what it tells into the sink.
fn play_event<N: Network, K: Sink>(
    alloc: Global,
    script: &Script,
    network: &mut Option<N>,
    events: &mut u64,
    event: &Event,
    page: &mut Page,
    sink: &mut K,
) -> Result<(), PlayFault>
    requires works { K.has_failed sink.old ≡ false }
    requires events { events.old < 2 ^ 60 }
    ensures advances { (before : SettingsValue) (line : List ℕ)
        → TakesLine before script.now line (Ok (Some event.now))
        → before.lines < lines_limit → length line ≤ line_limit
        → Advances N.conduct
        (at before network.old events.old (K.contents sink.old)) line
        (at script.now network.new events.new (K.contents sink.new)) result }
    ensures events { OnOk result (events.new ≤ events.old + 1) }
    ensures fails { result ≡ Err Write → K.has_failed sink.new ≡ true }
    ensures works { result ≢ Err Write → K.has_failed sink.new ≡ false }
{
    start(alloc, script, network, &mut page.words)?;
    *events += 1;
    match network {
        Some(current) => take_event(script, current, *events, event, page, sink),
        None => unreachable!(),
    }
}

/// Plays the next line of a script, and puts what it tells into the sink.
pub fn play_line<N: Network, K: Sink>(
    alloc: Global,
    script: &mut Script,
    network: &mut Option<N>,
    events: &mut u64,
    line: &[u8],
    page: &mut Page,
    sink: &mut K,
) -> Result<(), PlayFault>
    requires works { K.has_failed sink.old ≡ false }
    requires lines { script.old.lines < lines_limit }
    requires octets { length line.now ≤ line_limit }
    requires events { events.old < 2 ^ 60 }
    ensures advances { let from = at script.old network.old events.old (K.contents sink.old) in
        let to = at script.new network.new events.new (K.contents sink.new) in
        Advances N.conduct from line.now to result }
    ensures lines { OnOk result (script.new.lines ≡ script.old.lines + 1) }
    ensures events { OnOk result (events.new ≤ events.old + 1) }
    ensures fails { result ≡ Err Write → K.has_failed sink.new ≡ true }
    ensures works { result ≢ Err Write → K.has_failed sink.new ≡ false }
{
    match script.take(alloc, line)? {
        Some(event) => play_event(alloc, script, network, events, &event, page, sink),
        None => Ok(()),
    }
}
