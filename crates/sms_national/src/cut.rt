//! Texts cut under national language tables.

ghost use Rattle.std.specs.Prelude.{◌≡◌, ◌<◌, ◌≤◌, ◌∷◌, [], ℕ, List, true, length, None, IfOk, IfSome, MatchOption, Err};
ghost use Rattle.std.specs.Str.{chars};
ghost use Rattle.sms_join.specs.declared.cut.SplitFault.TheVariants.{TooManySegments};
ghost use Rattle.sms_text.specs.Bits.{AreSeptets};
ghost use Rattle.sms_language.specs.SeptetsUnder.{septets_under};
ghost use Rattle.sms_language.specs.TextUnder.{ends_whole};
ghost use Rattle.sms_national.specs.Cut.{AreSent, IsCutUnder};
ghost use Rattle.sms_national.specs.Inside.Escapes.{stand_apart};

use crate::pieces::{count_pieces, pieces_by};
use crate::rooms::{room_alone, room_beside};
use crate::segments::NationalSegments;
use sms_join::{SEGMENTS_MAX, SplitFault};
use sms_language::{Tables, septets_end_whole, septets_of_text};
use sms_tpdu::{Septets, Width};
use std::alloc::{AllocError, Global};

/// One piece of septets.
fn one_piece(alloc: Global, septets: Vec<u8>) -> Result<Vec<Septets>, AllocError>
    requires { AreSeptets septets.items }
    ensures { IfOk result (λ pieces. pieces.items ≡ septets.items ∷ []) }
{
    let mut pieces = Vec::with_capacity(alloc, 1)?;
    pieces.push(Septets::new(septets))?;
    Ok(pieces)
}

/// The pieces in which septets are sent.
fn sent_pieces(
    alloc: Global,
    septets: Vec<u8>,
    tables: Tables,
    width: Width,
) -> Result<Vec<Septets>, SplitFault>
    requires septets { AreSeptets septets.items }
    requires whole { ends_whole septets.items ≡ true }
    requires apart { stand_apart septets.items ≡ true }
    ensures sent { IfOk result (λ pieces. AreSent width tables septets.items pieces.items) }
    ensures few { IfOk result (λ pieces. length pieces.items ≤ SEGMENTS_MAX) }
    ensures too_many { result ≡ Err TooManySegments
        → (pieces : List (List ℕ)) × AreSent width tables septets.items pieces
        × (SEGMENTS_MAX < length pieces) }
{
    if septets.len() <= room_alone(tables) {
        return Ok(one_piece(alloc, septets)?);
    }
    let room = room_beside(width, tables);
    let count = count_pieces(&septets, room);
    if count > SEGMENTS_MAX {
        return Err(SplitFault::TooManySegments);
    }
    Ok(pieces_by(alloc, &septets, room, count)?)
}

/// The segments of a text under national language tables, for references of this width; `None` where
/// a character is in neither table (3GPP TS 23.038, 6.2.1.2).
///
/// A text that fits its message alone is one segment, whose header tells the tables: it has room for
/// 160 septets under the tables of the default alphabet, 155 where one table is another, 152 where
/// both are. Else each segment has as many whole characters as there is room for beside its place:
/// 153, 149 or 146 septets, or 152, 148 or 145 with `Width::Sixteen`.
pub fn cut_under(
    alloc: Global,
    text: &str,
    tables: Tables,
    width: Width,
) -> Result<Option<NationalSegments>, SplitFault>
    ensures segments { IfOk result (λ found. MatchOption found
        (septets_under tables (chars text.now) ≡ None)
        (λ cut. (cut.tables ≡ tables) × (cut.width ≡ width)
        × IsCutUnder width tables (chars text.now) cut.pieces)) }
    ensures few { IfOk result (λ found.
        IfSome found (λ cut. length cut.pieces ≤ SEGMENTS_MAX)) }
    ensures too_many { result ≡ Err TooManySegments
        → (pieces : List (List ℕ)) × IsCutUnder width tables (chars text.now) pieces
        × (SEGMENTS_MAX < length pieces) }
{
    let Some(septets) = septets_of_text(alloc, text, tables)? else {
        return Ok(None);
    };
    septets_end_whole();
    let pieces = sent_pieces(alloc, septets, tables, width)?;
    Ok(Some(NationalSegments::new(tables, width, pieces)))
}
