//! Texts split as user data alone, with no unit around them.

ghost use Rattle.std.specs.Prelude.{◌≡◌, ◌≢◌, ◌<◌, ◌⊎◌, ◌↔◌, ◌++◌, ℕ, List, length, All, Err, IfOk, IfErr, OnErr};
ghost use Rattle.std.specs.Str.{IsUtf8};
ghost use Rattle.sms_field.specs.declared.coding.Alphabet.TheVariants.{Gsm7};
ghost use Rattle.sms_tpdu.specs.UserData.{length_in};
ghost use Rattle.sms_tpdu.specs.UserData.Alone.{SpellsAlone};
ghost use Rattle.sms_tpdu.specs.UserData.Singles.{single_octets};
ghost use Rattle.sms_tpdu.specs.declared.user_data.concat.Width.TheVariants.{Eight};
ghost use Rattle.sms_join.specs.Segments.User.{IsSendable, coding_of, user_of};
ghost use Rattle.sms_c.specs.DataSplitting.{AreApart, FitsData, OfDataSplit, PartsArePut, PartsLackRoom, SpellsApart, segment_told};
ghost use Rattle.sms_c.specs.Parts.{bits_of};
ghost use Rattle.sms_c.specs.Status.{status_in, IsNotRoom};
ghost use Rattle.sms_c.specs.WritingFaults.{TakesTooMany};
ghost use Rattle.sms_c.specs.declared.status.Failure.TheVariants.{NoRoom, OutOfRange};

use crate::class::{SPARE, are_spare};
use crate::handed_out::{hand_out, text_of};
use crate::parts::{Span, bit};
use crate::status::{Failure, status_of};
use crate::writing::{Reference, is_set, segments_of, width_of};
use sms_join::{SegmentView, Segments, texts_have_one_cut};
use sms_tpdu::{UnitsView, Width};
use std::alloc::{AllocError, Global};

/// How a text is split as user data alone.
#[repr(C)]
#[derive(Clone, Copy)]
pub struct DataFields {
    pub segments: Reference,
    /// Whether septets stand one an octet: 0 is no, all else yes.
    pub single: u8,
    /// All 0.
    pub spare: [u8; SPARE],
}

/// A segment as user data alone.
#[repr(C)]
#[derive(Clone, Copy)]
pub struct DataSegment {
    /// Its octets.
    pub octets: Span,
    /// TP-DCS.
    pub dcs: u8,
    /// TP-UDHI, whether a header stands in front: 0 or 1.
    pub has_header: u8,
    /// TP-UDL.
    pub length: u8,
}

/// Adds the octets of a segment as they stand in a unit after TP-UDL, and tells TP-UDL.
fn put_packed(
    alloc: Global,
    segment: &SegmentView,
    width: Width,
    reference: u16,
    out: &mut Vec<u8>,
) -> Result<u8, AllocError>
    requires sendable { IsSendable width segment.now }
    requires reference { width ≡ Eight → reference < 256 }
    ensures { IfOk result (λ length. (written : List ℕ)
        × SpellsAlone (user_of width reference segment.now) written
        × (out.new.items ≡ out.old.items ++ written)
        × (length ≡ length_in (user_of width reference segment.now))) }
{
    let octets = segment.write_user(alloc, width, reference)?;
    out.extend_from_slice(&octets[1..])?;
    Ok(octets[0])
}

/// Adds the octets of a segment of septets, which stand one an octet, and tells TP-UDL.
fn put_singles(
    alloc: Global,
    segment: &SegmentView,
    width: Width,
    reference: u16,
    out: &mut Vec<u8>,
) -> Result<u8, AllocError>
    requires sendable { IsSendable width segment.now }
    requires reference { width ≡ Eight → reference < 256 }
    requires septets { coding_of segment.now.units ≡ Gsm7 }
    ensures { IfOk result (λ length.
        (out.new.items ≡ out.old.items ++ single_octets (user_of width reference segment.now))
        × (length ≡ length_in (user_of width reference segment.now))) }
{
    let octets = segment.write_user(alloc, width, reference)?;
    let user = segment.user(alloc, width, reference)?;
    let singles = user.write_singles(alloc)?;
    out.extend_from_slice(&singles)?;
    Ok(octets[0])
}

/// Adds the octets of a segment alone, and tells TP-UDL.
fn put_apart(
    alloc: Global,
    segment: &SegmentView,
    single: bool,
    width: Width,
    reference: u16,
    out: &mut Vec<u8>,
) -> Result<u8, AllocError>
    requires sendable { IsSendable width segment.now }
    requires reference { width ≡ Eight → reference < 256 }
    ensures { IfOk result (λ length. (written : List ℕ)
        × SpellsApart single segment.now.units (user_of width reference segment.now) written
        × (out.new.items ≡ out.old.items ++ written)
        × (length ≡ length_in (user_of width reference segment.now))) }
{
    match (single, segment.units()) {
        (true, UnitsView::Gsm(_)) => put_singles(alloc, segment, width, reference, out),
        _ => put_packed(alloc, segment, width, reference, out),
    }
}

/// Adds a segment alone, and tells where it lies and how it stands.
fn put_told(
    alloc: Global,
    segment: &SegmentView,
    single: bool,
    width: Width,
    reference: u16,
    out: &mut Vec<u8>,
) -> Result<DataSegment, AllocError>
    requires sendable { IsSendable width segment.now }
    requires reference { width ≡ Eight → reference < 256 }
    ensures { IfOk result (λ told. (written : List ℕ)
        × SpellsApart single segment.now.units (user_of width reference segment.now) written
        × (out.new.items ≡ out.old.items ++ written)
        × (told ≡ segment_told (length out.old.items) (length written) segment.now.units
        (user_of width reference segment.now))) }
{
    let offset = out.len();
    let length = put_apart(alloc, segment, single, width, reference, out)?;
    Ok(DataSegment {
        octets: Span {
            offset,
            length: out.len() - offset,
        },
        dcs: segment.coding_scheme(),
        has_header: bit(segment.maximum() != 1),
        length,
    })
}

/// The segments alone, one after another, and what is told of each.
fn apart_of(
    alloc: Global,
    segments: &Segments,
    single: bool,
    width: Width,
    reference: u16,
) -> Result<(Vec<u8>, Vec<DataSegment>), AllocError>
    requires sendable { All (IsSendable width) segments.now }
    requires reference { width ≡ Eight → reference < 256 }
    ensures { IfOk result (λ all.
        AreApart single width reference segments.now all.0.items all.1.items) }
{
    let mut octets = Vec::new(alloc);
    let mut parts = Vec::with_capacity(alloc, segments.len())?;
    for index in 0..segments.len() {
        if let Some(segment) = segments.get(index) {
            let told = put_told(alloc, &segment, single, width, reference, &mut octets)?;
            parts.push(told)?;
        }
    }
    Ok((octets, parts))
}

/// Hands out octets, and what is told of them, where there is room for both.
fn hand_out_parts(
    octets: &[u8],
    told: &[DataSegment],
    out: &mut [u8],
    needed: &mut usize,
    parts: &mut [DataSegment],
) -> Result<(), Failure>
    ensures put { IfOk result (λ _. PartsArePut out.old out.new needed.new parts.old parts.new
        octets.now told.now) }
    ensures no_room { IfErr result (λ why. (why ≡ NoRoom)
        × PartsLackRoom out.old out.new needed.new parts.old parts.new octets.now told.now) }
{
    *needed = octets.len();
    if told.len() > parts.len() {
        return Err(Failure::NoRoom);
    }
    hand_out(octets, out, needed)?;
    parts[..told.len()].copy_from_slice(told);
    Ok(())
}

/// The width of a reference that it can hold, where all spare octets are 0.
fn width_given(fields: DataFields) -> Result<Width, Failure>
    ensures width { IfOk result (λ width. fields.segments.width ≡ bits_of width) }
    ensures in_range { IfOk result (λ width.
        width ≡ Eight → fields.segments.reference < 256) }
    ensures fits { IfOk result (λ _. FitsData fields) }
    ensures unfit { IfErr result (λ why. (why ≡ OutOfRange) × (FitsData fields → ⊥)) }
{
    if !are_spare(&fields.spare) {
        return Err(Failure::OutOfRange);
    }
    width_of(fields.segments)
}

/// Cuts a text, and hands out its segments alone.
fn put_split(
    alloc: Global,
    fields: DataFields,
    text: &[u8],
    out: &mut [u8],
    needed: &mut usize,
    parts: &mut [DataSegment],
    count: &mut usize,
) -> Result<(), Failure>
    ensures range { (status_in result ≡ 7) ↔ (FitsData fields → ⊥) }
    ensures not_utf8 { (status_in result ≡ 4) ↔ (FitsData fields × (IsUtf8 text.now → ⊥)) }
    ensures too_long { status_in result ≡ 6 → TakesTooMany fields.segments text.now }
    ensures answered { (status_in result < 8)
        × (status_in result ≢ 1) × (status_in result ≢ 5) }
    ensures put { IfOk result (λ _. OfDataSplit fields text.now count.new
        (PartsArePut out.old out.new needed.new parts.old parts.new)) }
    ensures no_room { result ≡ Err NoRoom → OfDataSplit fields text.now count.new
        (PartsLackRoom out.old out.new needed.new parts.old parts.new) }
    ensures none { OnErr result ((out.new ≡ out.old) × (parts.new ≡ parts.old)) }
    ensures needed { IfErr result (λ why. IsNotRoom why → needed.new ≡ needed.old) }
    ensures told { IfErr result (λ why. IsNotRoom why → count.new ≡ count.old) }
{
    let width = width_given(fields)?;
    let text = text_of(text)?;
    let reference = fields.segments;
    let segments = segments_of(alloc, text, reference, width)?;
    let single = is_set(fields.single);
    let (octets, told) = apart_of(alloc, &segments, single, width, reference.reference)?;
    *count = segments.len();
    hand_out_parts(&octets, &told, out, needed, parts)
}

/// Writes the segments of a text as user data alone, one after another, and tells of each where it
/// lies and how it stands.
#[unsafe(no_mangle)]
pub extern "C" fn sms_data_split(
    alloc: Global,
    fields: &DataFields,
    text: &[u8],
    out: &mut [u8],
    needed: &mut usize,
    parts: &mut [DataSegment],
    count: &mut usize,
) -> u32
    ensures range { (result ≡ 7) ↔ (FitsData fields.now → ⊥) }
    ensures not_utf8 { (result ≡ 4) ↔ (FitsData fields.now × (IsUtf8 text.now → ⊥)) }
    ensures too_long { result ≡ 6 → TakesTooMany fields.now.segments text.now }
    ensures too_many { FitsData fields.now → IsUtf8 text.now
        → TakesTooMany fields.now.segments text.now → (result ≡ 6) ⊎ (result ≡ 2) }
    ensures answered { (result < 8) × (result ≢ 1) × (result ≢ 5) }
    ensures put { result ≡ 0 → OfDataSplit fields.now text.now count.new
        (PartsArePut out.old out.new needed.new parts.old parts.new) }
    ensures no_room { result ≡ 3 → OfDataSplit fields.now text.now count.new
        (PartsLackRoom out.old out.new needed.new parts.old parts.new) }
    ensures none { (result ≡ 0 → ⊥) → (out.new ≡ out.old) × (parts.new ≡ parts.old) }
    ensures needed { (result ≡ 0 → ⊥) → (result ≡ 3 → ⊥) → needed.new ≡ 0 }
    ensures told { (result ≡ 0 → ⊥) → (result ≡ 3 → ⊥) → count.new ≡ count.old }
{
    texts_have_one_cut();
    *needed = 0;
    status_of(put_split(alloc, *fields, text, out, needed, parts, count))
}
