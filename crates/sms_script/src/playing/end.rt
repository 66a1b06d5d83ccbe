//! What stands at the phones in the end. Each line is written on a page first, in the place of what
//! stands there.

ghost use Rattle.std.specs.Prelude.{◌≡◌, ◌<◌, false, length, flat_map};
ghost use Rattle.sms_script.specs.Play.Played.{told_in_the_end};
ghost use Rattle.sms_script.specs.Play.Puts.{Puts, HasFailed};
ghost use Rattle.sms_script.specs.Play.Runs.{statuses_at, store_at, ended_at};
ghost use Rattle.sms_script.specs.Transcript.{sent_lines, phone_lines};
ghost use Rattle.sms_script.specs.Transcript.Lines.{entry_line, sent_line, store_line};
ghost use Rattle.sms_script.specs.Transcript.Shown.{stored};

use crate::devices::Sink;
use crate::fault::PlayFault;
use crate::playing::network::Network;
use crate::playing::put::put;
use crate::script::Script;
use crate::transcript::{Entry, push_entry_line, push_sent_line, push_store_line};
use std::alloc::Global;

/// Puts the line of a text that was typed, from what became of it in a word.
fn put_status<K: Sink>(
    name: &str,
    number: usize,
    word: &str,
    page: &mut Vec<u8>,
    sink: &mut K,
) -> Result<(), PlayFault>
    requires { K.has_failed sink.old ≡ false }
    ensures puts { let text = sent_line name.now number word.now in
        Puts (K.contents sink.old) (K.contents sink.new) text result }
    ensures failed { HasFailed result (K.has_failed sink.new) }
{
    page.clear();
    push_sent_line(page, name, number, word)?;
    put(sink, page)
}

/// Puts the lines of the texts that were typed at a phone.
fn put_statuses<N: Network, K: Sink>(
    name: &str,
    network: &N,
    phone: usize,
    page: &mut Vec<u8>,
    sink: &mut K,
) -> Result<(), PlayFault>
    requires works { K.has_failed sink.old ≡ false }
    requires phone { phone < length (N.conduct.ends network.now) }
    ensures puts { let all = statuses_at (N.conduct.ends network.now) phone in
        Puts (K.contents sink.old) (K.contents sink.new) (sent_lines name.now 1 all) result }
    ensures failed { HasFailed result (K.has_failed sink.new) }
{
    for place in 0..network.typed(phone) {
        let Some(word) = network.status(phone, place + 1) else {
            unreachable!()
        };
        put_status(name, place + 1, word, page, sink)?;
    }
    Ok(())
}

/// Puts the line that begins a store.
fn put_store<K: Sink>(
    name: &str,
    count: usize,
    page: &mut Vec<u8>,
    sink: &mut K,
) -> Result<(), PlayFault>
    requires { K.has_failed sink.old ≡ false }
    ensures puts { let text = store_line name.now count in
        Puts (K.contents sink.old) (K.contents sink.new) text result }
    ensures failed { HasFailed result (K.has_failed sink.new) }
{
    page.clear();
    push_store_line(page, name, count)?;
    put(sink, page)
}

/// Puts the line of a text in a store.
fn put_entry<K: Sink>(
    alloc: Global,
    entry: Entry<'_>,
    page: &mut Vec<u8>,
    sink: &mut K,
) -> Result<(), PlayFault>
    requires { K.has_failed sink.old ≡ false }
    ensures puts { let text = entry_line (stored entry.entry) in
        Puts (K.contents sink.old) (K.contents sink.new) text result }
    ensures failed { HasFailed result (K.has_failed sink.new) }
{
    page.clear();
    push_entry_line(alloc, page, entry)?;
    put(sink, page)
}

/// Puts the lines of the texts in the store of a phone.
fn put_entries<N: Network, K: Sink>(
    alloc: Global,
    network: &N,
    phone: usize,
    page: &mut Vec<u8>,
    sink: &mut K,
) -> Result<(), PlayFault>
    requires works { K.has_failed sink.old ≡ false }
    requires phone { phone < length (N.conduct.ends network.now) }
    ensures puts { let text = flat_map entry_line (store_at (N.conduct.ends network.now) phone) in
        Puts (K.contents sink.old) (K.contents sink.new) text result }
    ensures failed { HasFailed result (K.has_failed sink.new) }
{
    for place in 0..network.stored(phone) {
        let Some(entry) = network.entry(phone, place) else {
            unreachable!()
        };
        put_entry(alloc, entry, page, sink)?;
    }
    Ok(())
}

/// Puts what stands at a phone.
fn put_phone<N: Network, K: Sink>(
    alloc: Global,
    name: &str,
    network: &N,
    phone: usize,
    page: &mut Vec<u8>,
    sink: &mut K,
) -> Result<(), PlayFault>
    requires works { K.has_failed sink.old ≡ false }
    requires phone { phone < length (N.conduct.ends network.now) }
    ensures puts { let text = phone_lines name.now (ended_at (N.conduct.ends network.now) phone) in
        Puts (K.contents sink.old) (K.contents sink.new) text result }
    ensures failed { HasFailed result (K.has_failed sink.new) }
{
    put_statuses(name, network, phone, page, sink)?;
    put_store(name, network.stored(phone), page, sink)?;
    put_entries(alloc, network, phone, page, sink)
}

/// Puts what stands at each phone, in their order.
pub fn put_phones<N: Network, K: Sink>(
    alloc: Global,
    script: &Script,
    network: &N,
    page: &mut Vec<u8>,
    sink: &mut K,
) -> Result<(), PlayFault>
    requires works { K.has_failed sink.old ≡ false }
    requires phones { length script.now.known.addresses ≡ length (N.conduct.ends network.now) }
    ensures puts { let text = told_in_the_end script.now (N.conduct.ends network.now) in
        Puts (K.contents sink.old) (K.contents sink.new) text result }
    ensures failed { HasFailed result (K.has_failed sink.new) }
{
    for phone in 0..script.addresses().len() {
        put_phone(alloc, script.name(phone), network, phone, page, sink)?;
    }
    Ok(())
}
