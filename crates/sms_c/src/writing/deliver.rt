//! The segments of a text written as SMS-DELIVER.

ghost use Rattle.std.specs.Prelude.{◌≡◌, ◌≢◌, ◌<◌, ◌≤◌, ◌⊎◌, ◌↔◌, ℕ, Err, IfOk, IfErr, OnErr};
ghost use Rattle.sms_tpdu.specs.Deliver.{SpellsDeliver};
ghost use Rattle.sms_tpdu.specs.declared.user_data.concat.Width.TheVariants.{Eight};
ghost use Rattle.sms_join.specs.Segments.User.{IsSendable};
ghost use Rattle.sms_c.specs.Class.{are_allowed};
ghost use Rattle.sms_c.specs.Writing as seen;
ghost use Rattle.sms_c.specs.HandedOut.{ArePut, LackRoom};
ghost use Rattle.sms_c.specs.Status.{status_in, IsNotRoom};
ghost use Rattle.sms_c.specs.WritingFaults.{AreTexts, EndsBefore, FitsDeliver, IsAfterAddress, IsCutInto, SaysNoAddress, TakesTooMany};
ghost use Rattle.sms_c.specs.Writing.{OfDeliver};
ghost use Rattle.sms_c.specs.declared.status.Failure.TheVariants.{NoRoom, OutOfRange};

use crate::class::{are_allowed, scheme_of};
use crate::handed_out::{hand_out, text_of};
use crate::status::{Failure, status_of};
use crate::writing::{DeliverFields, address_of, is_set, segments_of, width_of};
use sms_field::{Address, Stamp};
use sms_join::{SegmentView, texts_have_one_cut};
use sms_tpdu::{Deliver, Unit, Width};
use std::alloc::{AllocError, Global};

/// The octets of a segment as an SMS-DELIVER.
fn delivered(
    alloc: Global,
    fields: DeliverFields,
    origin: Address,
    width: Width,
    segment: &SegmentView,
) -> Result<Vec<u8>, AllocError>
    requires sendable { IsSendable width segment.now }
    requires reference { width ≡ Eight → fields.segments.reference < 256 }
    requires class { fields.message_class ≤ 4 }
    ensures { IfOk result (λ octets. SpellsDeliver
        (seen.delivery fields origin width segment.now) octets.items) }
{
    let user = segment.user(alloc, width, fields.segments.reference)?;
    let deliver = Deliver {
        more: is_set(fields.more),
        looped: is_set(fields.looped),
        report: is_set(fields.report),
        reply: is_set(fields.reply),
        origin,
        pid: fields.pid,
        dcs: scheme_of(segment, fields.message_class),
        stamp: Stamp::new(fields.stamp.octets),
        user,
    };
    deliver.write(alloc)
}

/// Hands out the segment of an index as an SMS-DELIVER.
fn put_deliver(
    alloc: Global,
    fields: DeliverFields,
    origin: &[u8],
    text: &[u8],
    index: usize,
    out: &mut [u8],
    needed: &mut usize,
    count: &mut usize,
) -> Result<(), Failure>
    ensures range { (status_in result ≡ 7) ↔ (FitsDeliver fields → ⊥) }
    ensures not_utf8 { (status_in result ≡ 4)
        ↔ (FitsDeliver fields × (AreTexts origin.now text.now → ⊥)) }
    ensures bad_address { status_in result ≡ 5
        → FitsDeliver fields × AreTexts origin.now text.now × SaysNoAddress origin.now }
    ensures address { FitsDeliver fields → AreTexts origin.now text.now
        → SaysNoAddress origin.now → (status_in result ≡ 5) ⊎ (status_in result ≡ 2) }
    ensures too_long { status_in result ≡ 6 → TakesTooMany fields.segments text.now }
    ensures not_there { status_in result ≡ 8
        → EndsBefore fields.segments text.now index count.new }
    ensures answered { (status_in result < 9) × (status_in result ≢ 1) }
    ensures uncounted { 3 < status_in result → status_in result < 8 → count.new ≡ count.old }
    ensures counted { status_in result ≡ 2 → (count.new ≡ count.old)
        ⊎ IsCutInto fields.segments text.now count.new }
    ensures put { IfOk result (λ _. OfDeliver fields origin.now text.now index count.new
        (ArePut out.old out.new needed.new)) }
    ensures no_room { result ≡ Err NoRoom → OfDeliver fields origin.now text.now index count.new
        (LackRoom out.old out.new needed.new) }
    ensures none { OnErr result (out.new ≡ out.old) }
    ensures needed { IfErr result (λ why. IsNotRoom why → needed.new ≡ needed.old) }
{
    if !are_allowed(fields.message_class, &fields.spare) {
        return Err(Failure::OutOfRange);
    }
    let width = width_of(fields.segments)?;
    let origin = text_of(origin)?;
    let text = text_of(text)?;
    let origin = address_of(alloc, origin)?;
    let segments = segments_of(alloc, text, fields.segments, width)?;
    *count = segments.len();
    let Some(segment) = segments.get(index) else {
        return Err(Failure::NotThere);
    };
    let octets = delivered(alloc, fields, origin, width, &segment)?;
    hand_out(&octets, out, needed)
}

/// Writes the segment of an index of a text as an SMS-DELIVER, and tells how many there are.
#[unsafe(no_mangle)]
pub extern "C" fn sms_deliver_write(
    alloc: Global,
    fields: &DeliverFields,
    origin: &[u8],
    text: &[u8],
    index: usize,
    out: &mut [u8],
    needed: &mut usize,
    count: &mut usize,
) -> u32
    ensures range { (result ≡ 7) ↔ (FitsDeliver fields.now → ⊥) }
    ensures not_utf8 { (result ≡ 4)
        ↔ (FitsDeliver fields.now × (AreTexts origin.now text.now → ⊥)) }
    ensures bad_address { result ≡ 5
        → FitsDeliver fields.now × AreTexts origin.now text.now × SaysNoAddress origin.now }
    ensures address { FitsDeliver fields.now → AreTexts origin.now text.now
        → SaysNoAddress origin.now → (result ≡ 5) ⊎ (result ≡ 2) }
    ensures too_long { result ≡ 6 → TakesTooMany fields.now.segments text.now }
    ensures too_many { FitsDeliver fields.now → AreTexts origin.now text.now
        → TakesTooMany fields.now.segments text.now → IsAfterAddress 6 result }
    ensures not_there { result ≡ 8
        → EndsBefore fields.now.segments text.now index count.new }
    ensures no_segment { (n : ℕ) → FitsDeliver fields.now → AreTexts origin.now text.now
        → EndsBefore fields.now.segments text.now index n → IsAfterAddress 8 result }
    ensures answered { (result < 9) × (result ≢ 1) }
    ensures uncounted { 3 < result → result < 8 → count.new ≡ 0 }
    ensures counted { result ≡ 2 → (count.new ≡ 0)
        ⊎ IsCutInto fields.now.segments text.now count.new }
    ensures put { result ≡ 0 → OfDeliver fields.now origin.now text.now index count.new
        (ArePut out.old out.new needed.new) }
    ensures no_room { result ≡ 3 → OfDeliver fields.now origin.now text.now index count.new
        (LackRoom out.old out.new needed.new) }
    ensures none { (result ≡ 0 → ⊥) → out.new ≡ out.old }
    ensures needed { (result ≡ 0 → ⊥) → (result ≡ 3 → ⊥) → needed.new ≡ 0 }
{
    texts_have_one_cut();
    *needed = 0;
    *count = 0;
    status_of(put_deliver(alloc, *fields, origin, text, index, out, needed, count))
}
