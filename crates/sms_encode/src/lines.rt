//! The lines of a text's segments.

ghost use Rattle.std.specs.Prelude.{◌≡◌, ◌↔◌, List, ℕ, All, Err, IfErr, IfOk, OnOk, true};
ghost use Rattle.sms_join.specs.Segments.User.{IsSendable};
ghost use Rattle.sms_page.specs.Page.{Puts};
ghost use Rattle.sms_encode.specs.Drafts.{AreSegmentsOf, WritesDraft, count_of, line_of};
ghost use Rattle.sms_encode.specs.Options.{has_wrong_option};
ghost use Rattle.sms_encode.specs.Units.{SpellsUnit};
ghost use Rattle.sms_encode.specs.Inside.Faults.{IsOther};
ghost use Rattle.sms_encode.specs.Inside.Pages.{IsPageOf, PutsUnits};
ghost use Rattle.sms_encode.specs.declared.fault.EncodeFault.TheVariants.{WrongOption};

use crate::draft::Draft;
use crate::fault::EncodeFault;
use crate::frame::{Frame, frame_of};
use crate::options::has_wrong_option;
use crate::unit::encode;
use sms_join::{SegmentView, Segments, SplitFault, cut_text};
use sms_page::Page;
use sms_tpdu::Width;
use std::alloc::{AllocError, Global};
use std::io::Write;

/// Adds for a modem how many octets a unit has, which AT+CMGS wants, and a blank.
fn put_count(page: &mut Page, is_for_modem: bool, unit: &[u8])
    ensures { Puts page.old page.new (count_of is_for_modem unit.now) }
{
    if is_for_modem {
        page.put_decimal(unit.len() as u64);
        page.put(b" ");
    }
}

/// Adds the line of a unit after the octets before it; for a modem the number of the octets of the
/// unit alone comes first.
fn put_line(page: &mut Page, is_for_modem: bool, before: &[u8], unit: &[u8])
    ensures { Puts page.old page.new (line_of is_for_modem before.now unit.now) }
{
    put_count(page, is_for_modem, unit);
    page.put_digits(before);
    page.put_digits(unit);
    page.put(b"\n");
}

/// Adds the line of a segment, whose place counts from 0.
fn put_segment(
    alloc: Global,
    draft: &Draft<'_>,
    frame: &Frame,
    segment: &SegmentView<'_>,
    place: usize,
    page: &mut Page,
) -> Result<(), AllocError>
    requires { IsSendable frame.now.width segment.now }
    ensures { OnOk result ((unit : List ℕ)
        × SpellsUnit draft.now frame.now place segment.now unit
        × Puts page.old page.new (line_of draft.now.is_for_modem frame.now.before unit)) }
{
    let unit = encode(alloc, draft, frame, segment, place)?;
    put_line(page, draft.is_for_modem, &frame.before, &unit);
    Ok(())
}

/// Adds the lines of segments, in order.
fn put_segments(
    alloc: Global,
    draft: &Draft<'_>,
    frame: &Frame,
    segments: &Segments,
    page: &mut Page,
) -> Result<(), AllocError>
    requires { All (IsSendable frame.now.width) segments.now }
    ensures { OnOk result (PutsUnits draft.now frame.now segments.now page.old page.new) }
{
    for place in 0..segments.len() {
        if let Some(segment) = segments.get(place) {
            put_segment(alloc, draft, frame, &segment, place, page)?;
        }
    }
    Ok(())
}

/// Why a text is not cut: where it may not be split, too many segments are a text that is too long.
fn not_cut(draft: &Draft<'_>, fault: SplitFault) -> EncodeFault
    ensures { IsOther result }
{
    match fault {
        SplitFault::TooManySegments if !draft.is_split => EncodeFault::TextTooLong,
        SplitFault::TooManySegments => EncodeFault::TooManySegments,
        SplitFault::Memory => EncodeFault::Memory,
    }
}

/// The segments of a text. Unless it may be split it is in one piece.
fn segments_of(alloc: Global, draft: &Draft<'_>, width: Width) -> Result<Segments, EncodeFault>
    ensures segments { IfOk result (AreSegmentsOf draft.now width) }
    ensures sendable { IfOk result (λ segments. All (IsSendable width) segments) }
    ensures other { IfErr result IsOther }
{
    let segments = match cut_text(alloc, draft.text, width) {
        Ok(segments) => segments,
        Err(fault) => return Err(not_cut(draft, fault)),
    };
    if segments.len() > 1 && !draft.is_split {
        return Err(EncodeFault::TextTooLong);
    }
    Ok(segments)
}

/// A page with the lines of the segments of a text.
fn page_of(alloc: Global, draft: &Draft<'_>) -> Result<Page, EncodeFault>
    ensures page { IfOk result (IsPageOf draft.now) }
    ensures other { IfErr result IsOther }
{
    let frame = frame_of(alloc, draft)?;
    let segments = segments_of(alloc, draft, frame.width)?;
    let mut page = Page::new(alloc);
    put_segments(alloc, draft, &frame, &segments, &mut page)?;
    Ok(page)
}

/// Writes the octets of a unit, or those of a unit for each segment, one a line. `WrongOption`
/// comes exactly where an option was given that the unit does not have.
pub fn put_units<W: Write>(
    alloc: Global,
    draft: &Draft<'_>,
    output: &mut W,
) -> Result<(), EncodeFault>
    ensures options { (result ≡ Err WrongOption) ↔ (has_wrong_option draft.now ≡ true) }
    ensures written { OnOk result
        (WritesDraft draft.now (W.contents output.old) (W.contents output.new)) }
{
    if has_wrong_option(draft) {
        return Err(EncodeFault::WrongOption);
    }
    let mut page = page_of(alloc, draft)?;
    Ok(page.write_to(output)?)
}
