//! Texts cut into segments.

ghost use Rattle.std.specs.Prelude.{◌≡◌, ◌<◌, ◌≤◌, ℕ, List, All, length, IfOk};
ghost use Rattle.std.specs.Str.{chars};
ghost use Rattle.sms_join.specs.declared.units.Units.{Units as TheUnits};
ghost use Rattle.sms_join.specs.declared.cut.SplitFault.TheVariants.{TooManySegments, Memory};
ghost use Rattle.sms_join.specs.UnitsOfText.{IsText, units_of_text, numbers};
ghost use Rattle.sms_join.specs.Cut.{IsParted, IsCut};
ghost use Rattle.sms_join.specs.Segments.{AreSegments};
ghost use Rattle.sms_join.specs.Inside.SegmentsAt.{RiseTo, pieces_at};
ghost use Rattle.sms_join.specs.Segments.User.{IsSendable};

use crate::segment::Segment;
use crate::segments::Segments;
use crate::units::{Ucs2Units, Units};
use sms_text::{gsm_of, ucs2_of};
use sms_tpdu::{Septets, Width};
use std::alloc::{AllocError, AllocFailed, Global};
use thiserror::Error;

/// The most segments that a concatenated short message may have (3GPP TS 23.040, 9.2.3.24.1).
pub const SEGMENTS_MAX: usize = 255;

/// Why a text is not cut.
#[derive(Clone, Copy, Debug, PartialEq, Eq, Error)]
pub enum SplitFault {
    /// It takes more than 255 segments.
    #[error("too many segments")]
    TooManySegments,
    /// Memory ran out.
    #[error("out of memory")]
    Memory,
}

impl From<AllocError> for SplitFault {
    ghost from_gives = { λ _ e. e ≡ Memory };

    fn from(_e: AllocError) -> SplitFault {
        SplitFault::Memory
    }
}

impl<T: Drop> From<AllocFailed<T>> for SplitFault {
    ghost from_gives = { λ _ e. e ≡ Memory };

    fn from(_e: AllocFailed<T>) -> SplitFault {
        SplitFault::Memory
    }
}

/// The units of a text: septets where each character has some, else 16-bit units.
fn units_of(alloc: Global, text: &str) -> Result<Units, AllocError>
    ensures { IfOk result (λ units. units ≡ units_of_text (chars text.now)) }
{
    match gsm_of(alloc, text)? {
        Some(septets) => Ok(Units::Gsm(Septets::new(septets))),
        None => {
            let units = ucs2_of(alloc, text)?;
            Ok(Units::Ucs2(Ucs2Units::new(units)))
        }
    }
}

/// How many pieces a text's units have by a room.
fn count_parts(units: &Units, room: usize) -> usize
    requires { 2 ≤ room }
    ensures { (text : List ℕ) → IsText text → units.now ≡ units_of_text text
        → (pieces : List TheUnits) × IsParted room text pieces × (result ≡ length pieces) }
{
    let count = units.len();
    let mut parts = 0;
    let mut start = 0;
    while start < count {
        start = units.piece_end(start, room);
        parts += 1;
    }
    parts
}

/// In how many pieces a text's units are sent.
fn count_pieces(units: &Units, width: Width) -> usize
    ensures { (text : List ℕ) → IsText text → units.now ≡ units_of_text text
        → (pieces : List TheUnits) × IsCut width text pieces × (result ≡ length pieces) }
{
    if units.len() <= units.room_alone() {
        return 1;
    }
    count_parts(units, units.room_beside(width))
}

/// Where the pieces of a text's units by a room end. There are `many`, and room is made for all at
/// once.
fn ends_by(alloc: Global, units: &Units, room: usize, many: u8) -> Result<Vec<usize>, AllocError>
    requires { 2 ≤ room }
    ensures parted { (text : List ℕ) → IsText text → units.now ≡ units_of_text text
        → IfOk result (λ ends. IsParted room text (pieces_at units.now 0 ends.items)) }
    ensures rising { IfOk result (λ ends. RiseTo 0 ends.items (length (numbers units.now))) }
{
    let count = units.len();
    let mut ends = Vec::with_capacity(alloc, usize::from(many))?;
    let mut start = 0;
    while start < count {
        start = units.piece_end(start, room);
        ends.push(start)?;
    }
    Ok(ends)
}

/// Where the pieces end in which a text's units are sent. There are `many`.
fn ends_of(alloc: Global, units: &Units, width: Width, many: u8) -> Result<Vec<usize>, AllocError>
    ensures cut { (text : List ℕ) → IsText text → units.now ≡ units_of_text text
        → IfOk result (λ ends. IsCut width text (pieces_at units.now 0 ends.items)) }
    ensures rising { IfOk result (λ ends. RiseTo 0 ends.items (length (numbers units.now))) }
{
    if units.len() <= units.room_alone() {
        return Ok(vec![in alloc; units.len()]?);
    }
    ends_by(alloc, units, units.room_beside(width), many)
}

/// Cuts a text into its segments, which lend its units, for references of this width (3GPP TS
/// 23.040, 9.2.3.24.1 and 9.2.3.24.8).
///
/// The text is sent as septets where the default alphabet and its extension have all its
/// characters, else as UTF-16 units. It is one segment where it fits 160 septets or 70 units. Else
/// each segment has as many whole characters as fit 153 septets or 67 units, or 152 and 66 with
/// `Width::Sixteen`.
pub fn cut_text(alloc: Global, text: &str, width: Width) -> Result<Segments, SplitFault>
    ensures segments { IfOk result (λ segments.
        AreSegments width (chars text.now) segments) }
    ensures few { IfOk result (λ segments. length segments ≤ SEGMENTS_MAX) }
    ensures sendable { IfOk result (λ segments. All (IsSendable width) segments) }
    ensures too_many { result ≡ Err TooManySegments
        → (pieces : List TheUnits) × IsCut width (chars text.now) pieces
        × (SEGMENTS_MAX < length pieces) }
{
    let units = units_of(alloc, text)?;
    let Ok(maximum) = u8::try_from(count_pieces(&units, width)) else {
        return Err(SplitFault::TooManySegments);
    };
    let ends = ends_of(alloc, &units, width, maximum)?;
    Ok(Segments::new(units, ends))
}

/// The segments of a text as `cut_text` cuts it, each with units of its own.
pub fn split(alloc: Global, text: &str, width: Width) -> Result<Vec<Segment>, SplitFault>
    ensures segments { IfOk result (λ segments.
        AreSegments width (chars text.now) segments.items) }
    ensures few { IfOk result (λ segments. length segments.items ≤ SEGMENTS_MAX) }
    ensures sendable { IfOk result (λ segments. All (IsSendable width) segments.items) }
    ensures too_many { result ≡ Err TooManySegments
        → (pieces : List TheUnits) × IsCut width (chars text.now) pieces
        × (SEGMENTS_MAX < length pieces) }
{
    let segments = cut_text(alloc, text, width)?;
    Ok(segments.to_vec(alloc)?)
}
