//! The lines of a transcript.

mod digits;
mod escapes;

ghost use Rattle.std.specs.Prelude.{◌≡◌, ◌++◌, IfOk, OnOk, codes, if◌then◌else◌};
ghost use Rattle.std.specs.String.{string_bytes};
ghost use Rattle.std.specs.Str.{encode_utf8_all};
ghost use Rattle.sms_field.specs.Address.Text.{address_text};
ghost use Rattle.sms_script.specs.Transcript.Appended.{◌⊕◌};
ghost use Rattle.sms_script.specs.Transcript.Escapes.{escaped};
ghost use Rattle.sms_script.specs.Transcript.Lines.{event_line, packet_line, sent_line, store_line, entry_line, octets_text, line_end};
ghost use Rattle.sms_script.specs.Transcript.Shown.{shown, stored};

use crate::transcript::escapes::push_escaped;
pub use digits::{push_decimal, push_hexadecimal};
pub use escapes::Escape;
use sms_field::Address;
use std::alloc::{AllocError, Global};

/// A packet, as a network put it out.
#[derive(Clone, Copy, Debug)]
pub struct Packet<'a> {
    /// Whether it goes from the phone up to the centre, and not down to the phone.
    pub up: bool,
    /// The phone that it comes from or goes to, counted from 0.
    pub phone: usize,
    pub octets: &'a [u8],
}

/// A text in the store of a phone.
#[derive(Clone, Copy, Debug)]
pub struct Entry<'a> {
    /// Whom it is from (TP-OA).
    pub origin: &'a Address,
    pub text: &'a str,
}

/// Adds the line of an event, from what it answered in words.
pub fn push_event_line(out: &mut Vec<u8>, number: u64, words: &[u8]) -> Result<(), AllocError>
    ensures { OnOk result (out.new.items ≡ out.old.items ++ event_line number words.now) }
{
    push_decimal(out, number)?;
    out.push(b' ')?;
    out.extend_from_slice(words)?;
    out.extend_from_slice(b"\n")
}

/// Adds the octets of a packet in hexadecimal, none as `-`, or how many they are.
fn push_octets(out: &mut Vec<u8>, brief: bool, octets: &[u8]) -> Result<(), AllocError>
    ensures { OnOk result (out.new.items ≡ out.old.items ++ octets_text brief octets.now) }
{
    if brief {
        return push_decimal(out, octets.len() as u64);
    }
    if octets.is_empty() {
        return out.extend_from_slice(b"-");
    }
    push_hexadecimal(out, octets)
}

/// Adds from whom a packet comes, and to whom it goes.
fn push_way(out: &mut Vec<u8>, up: bool, name: &str) -> Result<(), AllocError>
    ensures { let way = if up then name.now ⊕ codes ">centre" else codes "centre>" ⊕ name.now in
        OnOk result (out.new.items ≡ out.old.items ++ way) }
{
    let (from, to) = if up {
        (name, "centre")
    } else {
        ("centre", name)
    };
    out.extend_from_slice(from.as_bytes())?;
    out.push(b'>')?;
    out.extend_from_slice(to.as_bytes())
}

/// Adds the line of the packet of this number, between the centre and the phone of this name.
pub fn push_packet_line(
    out: &mut Vec<u8>,
    brief: bool,
    number: usize,
    name: &str,
    packet: Packet<'_>,
) -> Result<(), AllocError>
    ensures { let text = packet_line brief number name.now (shown packet.entry) in
        OnOk result (out.new.items ≡ out.old.items ++ text) }
{
    out.push(b'#')?;
    push_decimal(out, number as u64)?;
    out.push(b' ')?;
    push_way(out, packet.up, name)?;
    out.push(b' ')?;
    push_octets(out, brief, packet.octets)?;
    out.push(b'\n')?;
    Ok(())
}

/// Adds the line of a text that was typed, from what became of it in a word.
pub fn push_sent_line(
    out: &mut Vec<u8>,
    name: &str,
    number: usize,
    word: &str,
) -> Result<(), AllocError>
    ensures { let text = sent_line name.now number word.now in
        OnOk result (out.new.items ≡ out.old.items ++ text) }
{
    out.extend_from_slice(b"sent ")?;
    out.extend_from_slice(name.as_bytes())?;
    out.push(b' ')?;
    push_decimal(out, number as u64)?;
    out.push(b' ')?;
    out.extend_from_slice(word.as_bytes())?;
    out.push(b'\n')?;
    Ok(())
}

/// Adds the line that begins a store.
pub fn push_store_line(out: &mut Vec<u8>, name: &str, count: usize) -> Result<(), AllocError>
    ensures { OnOk result (out.new.items ≡ out.old.items ++ store_line name.now count) }
{
    out.extend_from_slice(b"store ")?;
    out.extend_from_slice(name.as_bytes())?;
    out.push(b' ')?;
    push_decimal(out, count as u64)?;
    out.extend_from_slice(b"\n")
}

/// The text of an address, in octets.
fn origin_text(alloc: Global, origin: &Address) -> Result<String, AllocError>
    ensures { IfOk result (λ s. string_bytes s ≡ encode_utf8_all (address_text origin.now)) }
{
    let text = origin.to_text(alloc)?;
    Ok(text)
}

/// Adds the line of a text in a store, from the text of its origin.
fn push_entry(line: &mut Vec<u8>, origin: &[u8], text: &[u8]) -> Result<(), AllocError>
    ensures { let all = escaped origin.now ⊕ codes " " ⊕ escaped text.now ⊕ line_end in
        OnOk result (line.new.items ≡ line.old.items ++ all) }
{
    push_escaped(line, origin)?;
    line.push(b' ')?;
    push_escaped(line, text)?;
    line.extend_from_slice(b"\n")
}

/// Adds the line of a text in a store.
pub fn push_entry_line(alloc: Global, out: &mut Vec<u8>, entry: Entry<'_>) -> Result<(), AllocError>
    ensures { OnOk result (out.new.items ≡ out.old.items ++ entry_line (stored entry.entry)) }
{
    let origin = origin_text(alloc, entry.origin)?;
    push_entry(out, origin.as_bytes(), entry.text.as_bytes())
}
