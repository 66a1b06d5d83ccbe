//! Septets cut into pieces.

ghost use Rattle.std.specs.Prelude.{◌≡◌, ◌<◌, ◌≤◌, ℕ, List, true, length, take, drop, IfOk};
ghost use Rattle.sms_text.specs.Bits.{AreSeptets};
ghost use Rattle.sms_language.specs.TextUnder.{ends_whole};
ghost use Rattle.sms_national.specs.Cut.{IsPiece, ArePieces};
ghost use Rattle.sms_national.specs.Inside.Escapes.{stand_apart};

use sms_text::ESCAPE;
use sms_tpdu::Septets;
use std::alloc::{AllocError, Global};

/// How many septets at the front are the first piece: as many as there is room for, and no escape
/// without its code.
fn piece_len(septets: &[u8], room: usize) -> usize
    requires room { 2 ≤ room }
    requires some { 0 < length septets.now }
    requires whole { ends_whole septets.now ≡ true }
    requires apart { stand_apart septets.now ≡ true }
    ensures within { result ≤ length septets.now }
    ensures piece { IsPiece room (take result septets.now) (drop result septets.now) }
{
    if septets.len() <= room {
        return septets.len();
    }
    if septets[room - 1] == ESCAPE {
        room - 1
    } else {
        room
    }
}

/// How many pieces septets have by a room.
pub fn count_pieces(septets: &[u8], room: usize) -> usize
    requires room { 2 ≤ room }
    requires whole { ends_whole septets.now ≡ true }
    requires apart { stand_apart septets.now ≡ true }
    ensures { (pieces : List (List ℕ)) × ArePieces room pieces septets.now
        × (result ≡ length pieces) }
{
    let mut rest = septets;
    let mut count = 0;
    while rest.len() > 0 {
        let (_, behind) = rest.split_at(piece_len(rest, room));
        rest = behind;
        count += 1;
    }
    count
}

/// Septets with an owner of their own.
fn copy_of(alloc: Global, septets: &[u8]) -> Result<Septets, AllocError>
    requires { AreSeptets septets.now }
    ensures { IfOk result (λ copy. copy ≡ septets.now) }
{
    let septets = Vec::from_slice(alloc, septets)?;
    Ok(Septets::new(septets))
}

/// The pieces of septets by a room, of which there are `count`.
pub fn pieces_by(
    alloc: Global,
    septets: &[u8],
    room: usize,
    count: usize,
) -> Result<Vec<Septets>, AllocError>
    requires room { 2 ≤ room }
    requires septets { AreSeptets septets.now }
    requires whole { ends_whole septets.now ≡ true }
    requires apart { stand_apart septets.now ≡ true }
    ensures { IfOk result (λ pieces. ArePieces room pieces.items septets.now) }
{
    let mut pieces = Vec::with_capacity(alloc, count)?;
    let mut rest = septets;
    while rest.len() > 0 {
        let (piece, behind) = rest.split_at(piece_len(rest, room));
        pieces.push(copy_of(alloc, piece)?)?;
        rest = behind;
    }
    Ok(pieces)
}
