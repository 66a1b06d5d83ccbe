//! Texts split: the user data of all segments.

ghost use Rattle.std.specs.Prelude.{◌≡◌, ◌≢◌, ◌<◌, ◌⊎◌, ◌↔◌, All, Err, IfOk, IfErr, OnErr};
ghost use Rattle.std.specs.Str.{IsUtf8};
ghost use Rattle.sms_tpdu.specs.declared.user_data.concat.Width.TheVariants.{Eight};
ghost use Rattle.sms_join.specs.Segments.User.{IsSendable};
ghost use Rattle.sms_c.specs.Splitting.{first_scheme, AreUsers, OfSplit, BothArePut, OneLacksRoom};
ghost use Rattle.sms_c.specs.Status.{status_in, IsNotRoom};
ghost use Rattle.sms_c.specs.WritingFaults.{FitsReference, TakesTooMany};
ghost use Rattle.sms_c.specs.declared.status.Failure.TheVariants.{NoRoom};

use crate::handed_out::{hand_out, text_of};
use crate::parts::Span;
use crate::status::{Failure, status_of};
use crate::writing::{Reference, segments_of, width_of};
use sms_join::{Segments, texts_have_one_cut};
use sms_tpdu::Width;
use std::alloc::{AllocError, Global};

/// The TP-DCS of the segments.
fn coding_scheme(segments: &Segments) -> u8
    ensures { result ≡ first_scheme segments.now }
{
    match segments.get(0) {
        Some(segment) => segment.coding_scheme(),
        None => 0,
    }
}

/// The user data of each segment, one after another, and where each lies.
fn users_of(
    alloc: Global,
    segments: &Segments,
    width: Width,
    reference: u16,
) -> Result<(Vec<u8>, Vec<Span>), AllocError>
    requires sendable { All (IsSendable width) segments.now }
    requires reference { width ≡ Eight → reference < 256 }
    ensures { IfOk result (λ all.
        AreUsers width reference segments.now all.0.items all.1.items) }
{
    let mut octets = Vec::new(alloc);
    let mut spans = Vec::with_capacity(alloc, segments.len())?;
    for index in 0..segments.len() {
        if let Some(segment) = segments.get(index) {
            let user = segment.write_user(alloc, width, reference)?;
            spans.push(Span {
                offset: octets.len(),
                length: user.len(),
            })?;
            octets.extend_from_slice(&user)?;
        }
    }
    Ok((octets, spans))
}

/// Hands out octets, and spans, where there is room for both.
fn hand_out_both(
    octets: &[u8],
    told: &[Span],
    out: &mut [u8],
    needed: &mut usize,
    spans: &mut [Span],
) -> Result<(), Failure>
    ensures put { IfOk result (λ _. BothArePut out.old out.new needed.new spans.old spans.new
        octets.now told.now) }
    ensures no_room { IfErr result (λ why. (why ≡ NoRoom)
        × OneLacksRoom out.old out.new needed.new spans.old spans.new octets.now told.now) }
{
    *needed = octets.len();
    if told.len() > spans.len() {
        return Err(Failure::NoRoom);
    }
    hand_out(octets, out, needed)?;
    spans[..told.len()].copy_from_slice(told);
    Ok(())
}

/// Cuts a text, and hands out the user data of its segments.
fn put_split(
    alloc: Global,
    reference: Reference,
    text: &[u8],
    out: &mut [u8],
    needed: &mut usize,
    spans: &mut [Span],
    count: &mut usize,
    dcs: &mut u8,
) -> Result<(), Failure>
    ensures range { (status_in result ≡ 7) ↔ (FitsReference reference → ⊥) }
    ensures not_utf8 { (status_in result ≡ 4)
        ↔ (FitsReference reference × (IsUtf8 text.now → ⊥)) }
    ensures too_long { status_in result ≡ 6 → TakesTooMany reference text.now }
    ensures answered { (status_in result < 8)
        × (status_in result ≢ 1) × (status_in result ≢ 5) }
    ensures put { IfOk result (λ _. OfSplit reference text.now count.new dcs.new
        (BothArePut out.old out.new needed.new spans.old spans.new)) }
    ensures no_room { result ≡ Err NoRoom → OfSplit reference text.now count.new dcs.new
        (OneLacksRoom out.old out.new needed.new spans.old spans.new) }
    ensures none { OnErr result ((out.new ≡ out.old) × (spans.new ≡ spans.old)) }
    ensures needed { IfErr result (λ why. IsNotRoom why → needed.new ≡ needed.old) }
    ensures told { IfErr result (λ why. IsNotRoom why
        → (count.new ≡ count.old) × (dcs.new ≡ dcs.old)) }
{
    let width = width_of(reference)?;
    let text = text_of(text)?;
    let segments = segments_of(alloc, text, reference, width)?;
    let (octets, told) = users_of(alloc, &segments, width, reference.reference)?;
    *count = segments.len();
    *dcs = coding_scheme(&segments);
    hand_out_both(&octets, &told, out, needed, spans)
}

/// Writes the user data of the segments of a text, each with its TP-UDL, one after another.
#[unsafe(no_mangle)]
pub extern "C" fn sms_split(
    alloc: Global,
    reference: &Reference,
    text: &[u8],
    out: &mut [u8],
    needed: &mut usize,
    spans: &mut [Span],
    count: &mut usize,
    dcs: &mut u8,
) -> u32
    ensures range { (result ≡ 7) ↔ (FitsReference reference.now → ⊥) }
    ensures not_utf8 { (result ≡ 4)
        ↔ (FitsReference reference.now × (IsUtf8 text.now → ⊥)) }
    ensures too_long { result ≡ 6 → TakesTooMany reference.now text.now }
    ensures too_many { FitsReference reference.now → IsUtf8 text.now
        → TakesTooMany reference.now text.now → (result ≡ 6) ⊎ (result ≡ 2) }
    ensures answered { (result < 8) × (result ≢ 1) × (result ≢ 5) }
    ensures put { result ≡ 0 → OfSplit reference.now text.now count.new dcs.new
        (BothArePut out.old out.new needed.new spans.old spans.new) }
    ensures no_room { result ≡ 3 → OfSplit reference.now text.now count.new dcs.new
        (OneLacksRoom out.old out.new needed.new spans.old spans.new) }
    ensures none { (result ≡ 0 → ⊥) → (out.new ≡ out.old) × (spans.new ≡ spans.old) }
    ensures needed { (result ≡ 0 → ⊥) → (result ≡ 3 → ⊥) → needed.new ≡ 0 }
    ensures told { (result ≡ 0 → ⊥) → (result ≡ 3 → ⊥)
        → (count.new ≡ count.old) × (dcs.new ≡ dcs.old) }
{
    texts_have_one_cut();
    *needed = 0;
    status_of(put_split(alloc, *reference, text, out, needed, spans, count, dcs))
}
