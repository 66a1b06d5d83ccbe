//! The lines of segments in the default alphabet or in UCS-2.

ghost use Rattle.std.specs.Prelude.{◌≡◌, ◌<◌, ℕ, All, IfOk, OnOk, map, true};
ghost use Rattle.sms_tpdu.specs.declared.user_data.concat.Width.TheVariants.{Eight};
ghost use Rattle.sms_tpdu.specs.UserData.{length_in};
ghost use Rattle.sms_join.specs.Segments.User.{IsSendable, user_of};
ghost use Rattle.sms_split.specs.Lines.{WritesEach};
ghost use Rattle.sms_split.specs.Octets.{HasOctets};
ghost use Rattle.sms_split.specs.Told.{told_of};
ghost use Rattle.sms_split.specs.Inside.Heads.{IsHead, WritesLine};

use crate::fault::CutFault;
use crate::head::{Head, parted};
use crate::line::put_line;
use crate::long_text::LongText;
use crate::names::alphabet_name;
use sms_join::{SegmentView, Segments};
use sms_tpdu::{UnitsView, Width};
use std::alloc::{AllocError, Global};
use std::io::Write;

/// The octets of the user data alone, septets one an octet.
fn singles_of(
    alloc: Global,
    segment: &SegmentView<'_>,
    width: Width,
    reference: u16,
) -> Result<Vec<u8>, AllocError>
    requires sendable { IsSendable width segment.now }
    requires reference { width ≡ Eight → reference < 256 }
    ensures { IfOk result (λ octets.
        HasOctets true (user_of width reference segment.now) octets.items) }
{
    let user = segment.user(alloc, width, reference)?;
    match segment.units() {
        UnitsView::Gsm(_) => user.write_singles(alloc),
        UnitsView::Ucs2(_) => user.write_alone(alloc),
    }
}

/// What the line of a segment tells before its octets. They are of this length.
fn head_of(segment: &SegmentView<'_>, udl: u8) -> Head
    ensures { (width : Width) (reference : ℕ) → IsSendable width segment.now
        → udl ≡ length_in (user_of width reference segment.now)
        → IsHead result (told_of width reference segment.now) }
{
    Head {
        sequence: segment.sequence(),
        maximum: segment.maximum(),
        alphabet: alphabet_name(segment.units()),
        coding_scheme: segment.coding_scheme(),
        has_header: segment.maximum() > 1,
        length: udl,
    }
}

/// Writes the line of a segment: its place, its alphabet, and its user data with their length.
fn put_segment<W: Write>(
    alloc: Global,
    segment: &SegmentView<'_>,
    width: Width,
    long: &LongText<'_>,
    output: &mut W,
) -> Result<(), CutFault>
    requires sendable { IsSendable width segment.now }
    requires reference { width ≡ Eight → long.now.reference < 256 }
    ensures { OnOk result (WritesLine long.now (told_of width long.now.reference segment.now)
        (W.contents output.old) (W.contents output.new)) }
{
    let octets = segment.write_user(alloc, width, long.reference)?;
    let (udl, rest) = parted(&octets);
    let head = head_of(segment, udl);
    if long.is_single {
        let singles = singles_of(alloc, segment, width, long.reference)?;
        return put_line(alloc, &head, long, &singles, output);
    }
    put_line(alloc, &head, long, rest, output)
}

/// Writes the lines of segments, in order.
pub(crate) fn put_each<W: Write>(
    alloc: Global,
    segments: &Segments,
    width: Width,
    long: &LongText<'_>,
    output: &mut W,
) -> Result<(), CutFault>
    requires sendable { All (IsSendable width) segments.now }
    requires reference { width ≡ Eight → long.now.reference < 256 }
    ensures { OnOk result (WritesEach long.now
        (map (told_of width long.now.reference) segments.now)
        (W.contents output.old) (W.contents output.new)) }
{
    for index in 0..segments.len() {
        if let Some(segment) = segments.get(index) {
            put_segment(alloc, &segment, width, long, output)?;
        }
    }
    Ok(())
}
