//! The segments of a text written as SMS-SUBMIT.

ghost use Rattle.std.specs.Prelude.{◌≡◌, ◌≢◌, ◌<◌, ◌≤◌, ◌⊎◌, ◌↔◌, ℕ, Err, IfOk, IfErr, OnErr};
ghost use Rattle.sms_tpdu.specs.Submit.{SpellsSubmit};
ghost use Rattle.sms_tpdu.specs.Submit.ValidityPeriod.{IsInRange};
ghost use Rattle.sms_tpdu.specs.declared.user_data.concat.Width.TheVariants.{Eight};
ghost use Rattle.sms_join.specs.Segments.User.{IsSendable};
ghost use Rattle.sms_c.specs.Class.{are_allowed};
ghost use Rattle.sms_c.specs.Writing as seen;
ghost use Rattle.sms_c.specs.HandedOut.{ArePut, LackRoom};
ghost use Rattle.sms_c.specs.Status.{status_in, IsNotRoom};
ghost use Rattle.sms_c.specs.WritingFaults.{AreTexts, EndsBefore, FitsSubmit, IsAfterAddress, IsCutInto, SaysNoAddress, TakesTooMany};
ghost use Rattle.sms_c.specs.Writing.{OfSubmit};
ghost use Rattle.sms_c.specs.declared.status.Failure.TheVariants.{NoRoom, OutOfRange};

use crate::class::{are_allowed, scheme_of};
use crate::handed_out::{hand_out, text_of};
use crate::status::{Failure, status_of};
use crate::writing::{SubmitFields, address_of, is_set, segments_of, width_of};
use sms_field::{Address, Validity};
use sms_join::{SegmentView, texts_have_one_cut};
use sms_tpdu::{SubmitFront, Width};
use std::alloc::{AllocError, Global};

/// The octets of a segment as an SMS-SUBMIT.
fn submitted(
    alloc: Global,
    fields: SubmitFields,
    validity: Validity,
    target: Address,
    width: Width,
    segment: &SegmentView,
) -> Result<Vec<u8>, AllocError>
    requires validity { IsInRange validity }
    requires sendable { IsSendable width segment.now }
    requires reference { width ≡ Eight → fields.segments.reference < 256 }
    requires class { fields.message_class ≤ 4 }
    ensures { IfOk result (λ octets. SpellsSubmit
        (seen.submission fields validity target width segment.now) octets.items) }
{
    let front = SubmitFront {
        reject: is_set(fields.reject),
        validity,
        report: is_set(fields.report),
        reply: is_set(fields.reply),
        reference: fields.reference,
        target,
        pid: fields.pid,
        dcs: scheme_of(segment, fields.message_class),
    };
    segment.write_submit(alloc, &front, width, fields.segments.reference)
}

/// Hands out the segment of an index as an SMS-SUBMIT.
fn put_submit(
    alloc: Global,
    fields: SubmitFields,
    target: &[u8],
    text: &[u8],
    index: usize,
    out: &mut [u8],
    needed: &mut usize,
    count: &mut usize,
) -> Result<(), Failure>
    ensures range { (status_in result ≡ 7) ↔ (FitsSubmit fields → ⊥) }
    ensures not_utf8 { (status_in result ≡ 4)
        ↔ (FitsSubmit fields × (AreTexts target.now text.now → ⊥)) }
    ensures bad_address { status_in result ≡ 5
        → FitsSubmit fields × AreTexts target.now text.now × SaysNoAddress target.now }
    ensures address { FitsSubmit fields → AreTexts target.now text.now
        → SaysNoAddress target.now → (status_in result ≡ 5) ⊎ (status_in result ≡ 2) }
    ensures too_long { status_in result ≡ 6 → TakesTooMany fields.segments text.now }
    ensures not_there { status_in result ≡ 8
        → EndsBefore fields.segments text.now index count.new }
    ensures answered { (status_in result < 9) × (status_in result ≢ 1) }
    ensures uncounted { 3 < status_in result → status_in result < 8 → count.new ≡ count.old }
    ensures counted { status_in result ≡ 2 → (count.new ≡ count.old)
        ⊎ IsCutInto fields.segments text.now count.new }
    ensures put { IfOk result (λ _. OfSubmit fields target.now text.now index count.new
        (ArePut out.old out.new needed.new)) }
    ensures no_room { result ≡ Err NoRoom → OfSubmit fields target.now text.now index count.new
        (LackRoom out.old out.new needed.new) }
    ensures none { OnErr result (out.new ≡ out.old) }
    ensures needed { IfErr result (λ why. IsNotRoom why → needed.new ≡ needed.old) }
{
    if !are_allowed(fields.message_class, &fields.spare) {
        return Err(Failure::OutOfRange);
    }
    let width = width_of(fields.segments)?;
    let Some(validity) = fields.validity.validity() else {
        return Err(Failure::OutOfRange);
    };
    let target = text_of(target)?;
    let text = text_of(text)?;
    let target = address_of(alloc, target)?;
    let segments = segments_of(alloc, text, fields.segments, width)?;
    *count = segments.len();
    let Some(segment) = segments.get(index) else {
        return Err(Failure::NotThere);
    };
    let octets = submitted(alloc, fields, validity, target, width, &segment)?;
    hand_out(&octets, out, needed)
}

/// Writes the segment of an index of a text as an SMS-SUBMIT, and tells how many there are.
#[unsafe(no_mangle)]
pub extern "C" fn sms_submit_write(
    alloc: Global,
    fields: &SubmitFields,
    target: &[u8],
    text: &[u8],
    index: usize,
    out: &mut [u8],
    needed: &mut usize,
    count: &mut usize,
) -> u32
    ensures range { (result ≡ 7) ↔ (FitsSubmit fields.now → ⊥) }
    ensures not_utf8 { (result ≡ 4)
        ↔ (FitsSubmit fields.now × (AreTexts target.now text.now → ⊥)) }
    ensures bad_address { result ≡ 5
        → FitsSubmit fields.now × AreTexts target.now text.now × SaysNoAddress target.now }
    ensures address { FitsSubmit fields.now → AreTexts target.now text.now
        → SaysNoAddress target.now → (result ≡ 5) ⊎ (result ≡ 2) }
    ensures too_long { result ≡ 6 → TakesTooMany fields.now.segments text.now }
    ensures too_many { FitsSubmit fields.now → AreTexts target.now text.now
        → TakesTooMany fields.now.segments text.now → IsAfterAddress 6 result }
    ensures not_there { result ≡ 8
        → EndsBefore fields.now.segments text.now index count.new }
    ensures no_segment { (n : ℕ) → FitsSubmit fields.now → AreTexts target.now text.now
        → EndsBefore fields.now.segments text.now index n → IsAfterAddress 8 result }
    ensures answered { (result < 9) × (result ≢ 1) }
    ensures uncounted { 3 < result → result < 8 → count.new ≡ 0 }
    ensures counted { result ≡ 2 → (count.new ≡ 0)
        ⊎ IsCutInto fields.now.segments text.now count.new }
    ensures put { result ≡ 0 → OfSubmit fields.now target.now text.now index count.new
        (ArePut out.old out.new needed.new) }
    ensures no_room { result ≡ 3 → OfSubmit fields.now target.now text.now index count.new
        (LackRoom out.old out.new needed.new) }
    ensures none { (result ≡ 0 → ⊥) → out.new ≡ out.old }
    ensures needed { (result ≡ 0 → ⊥) → (result ≡ 3 → ⊥) → needed.new ≡ 0 }
{
    texts_have_one_cut();
    *needed = 0;
    *count = 0;
    status_of(put_submit(alloc, *fields, target, text, index, out, needed, count))
}
