//! One event of a script, and its lines.

ghost use Rattle.std.specs.Prelude.{◌≡◌, ◌+◌, ◌++◌, ◌≤◌, false, OnOk, length, drop};
ghost use Rattle.sms_script.specs.Inside.Events.{event_text, new_packet_lines, TakesEvent};
ghost use Rattle.sms_script.specs.Play.Puts.{HasFailed};

use crate::devices::Sink;
use crate::fault::PlayFault;
use crate::meaning::Event;
use crate::playing::network::Network;
use crate::playing::page::Page;
use crate::playing::put::put;
use crate::script::Script;
use crate::transcript::{push_event_line, push_packet_line};
use std::alloc::AllocError;

/// Adds the lines of the packets that were put out after the first ones.
fn push_packets<N: Network>(
    out: &mut Vec<u8>,
    script: &Script,
    network: &N,
    first: usize,
) -> Result<(), AllocError>
    requires { first ≤ length (N.conduct.put_out network.now) }
    ensures { let text = new_packet_lines script.now first (N.conduct.put_out network.now) in
        OnOk result (out.new.items ≡ out.old.items ++ text) }
{
    for place in first..network.packet_count() {
        let Some(packet) = network.packet(place + 1) else {
            unreachable!()
        };
        let name = script.name(packet.phone);
        push_packet_line(out, script.is_brief(), place + 1, name, packet)?;
    }
    Ok(())
}

/// Writes the lines of an event on the page in the place of what stands there: its own, and those
/// of the packets that were put out after the first ones.
fn write_event<N: Network>(
    page: &mut Vec<u8>,
    script: &Script,
    network: &N,
    number: u64,
    words: &[u8],
    first: usize,
) -> Result<(), AllocError>
    requires { first ≤ length (N.conduct.put_out network.now) }
    ensures { let new = drop first (N.conduct.put_out network.now) in
        let lines = event_text script.now number words.now (first + 1) new in
        OnOk result (page.new.items ≡ lines) }
{
    page.clear();
    push_event_line(page, number, words)?;
    push_packets(page, script, network, first)
}

/// Plays the event of this number, and puts its lines into the sink. They are written on the page
/// first.
pub fn take_event<N: Network, K: Sink>(
    script: &Script,
    network: &mut N,
    number: u64,
    event: &Event,
    page: &mut Page,
    sink: &mut K,
) -> Result<(), PlayFault>
    requires { K.has_failed sink.old ≡ false }
    ensures takes { let had = K.contents sink.old in
        let has = K.contents sink.new in
        TakesEvent N.conduct network.old event.now network.new script.now number had has result }
    ensures failed { HasFailed result (K.has_failed sink.new) }
    ensures phones { length (N.conduct.ends network.new) ≡ length (N.conduct.ends network.old) }
{
    let first = network.packet_count();
    network.step(event, &mut page.words)?;
    write_event(&mut page.lines, script, network, number, &page.words, first)?;
    put(sink, &page.lines)
}
