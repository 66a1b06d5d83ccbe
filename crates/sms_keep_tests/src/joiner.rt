//! The joiner of the tests, and what is offered to it.

ghost use Rattle.std.specs.Prelude.{◌≡◌, ◌<◌, ◌≤◌};
ghost use Rattle.sms_tpdu.specs.UserData.ConcatenationFound.{IsPlace};

use sms_field::{Address, Stamp};
use sms_join::{Gateway, GatewayLimits, Offer, OfferFault, Ucs2Units, Units};
use sms_tpdu::{Concat, Width};
use std::alloc::{AllocError, Global};

/// The limits of the joiner.
pub fn limits() -> GatewayLimits {
    GatewayLimits::new(4, 8).open_for(600).remember_for(1_000)
}

/// What is offered: when, for whom, the last digit of the time stamp, which of three segments, and
/// its two letters. All are from one sender.
#[derive(Clone, Copy)]
pub struct Piece {
    pub now: u64,
    pub recipient: Option<&'static str>,
    pub stamp: u8,
    pub sequence: Option<u8>,
    pub text: [u16; 2],
}

/// What the joiner has taken.
pub const TAKEN: [Piece; 4] = [
    Piece {
        now: 40,
        recipient: Some("+1003"),
        stamp: 1,
        sequence: None,
        text: [0x78, 0x79],
    },
    Piece {
        now: 60,
        recipient: None,
        stamp: 2,
        sequence: None,
        text: [0x78, 0x79],
    },
    Piece {
        now: 100,
        recipient: Some("+1002"),
        stamp: 3,
        sequence: Some(1),
        text: [0x61, 0x62],
    },
    Piece {
        now: 110,
        recipient: Some("+1002"),
        stamp: 4,
        sequence: Some(3),
        text: [0x65, 0x66],
    },
];

/// The segment that the set lacks.
pub const LAST: Piece = Piece {
    now: 120,
    recipient: Some("+1002"),
    stamp: 5,
    sequence: Some(2),
    text: [0x63, 0x64],
};

/// The place of a segment; none where it is no place of three.
fn place_of(sequence: Option<u8>) -> Option<Concat>
    ensures { IsPlace result }
{
    let sequence = sequence?;
    if sequence == 0 || sequence > 3 {
        return None;
    }
    Some(Concat {
        width: Width::Sixteen,
        reference: 7,
        maximum: 3,
        sequence,
    })
}

/// The address of a text.
fn address_of(alloc: Global, text: &str) -> Result<Address, AllocError> {
    Address::from_text(alloc, text).map_err(|_| AllocError)
}

/// What is answered to a piece.
pub fn offered(
    alloc: Global,
    gateway: &mut Gateway,
    piece: Piece,
) -> Result<Result<Offer, OfferFault>, AllocError> {
    let origin = address_of(alloc, "+1001")?;
    let recipient = match piece.recipient {
        None => None,
        Some(text) => Some(address_of(alloc, text)?),
    };
    let units = Units::Ucs2(Ucs2Units::new(vec![in alloc; piece.text[0], piece.text[1]]?));
    Ok(gateway.offer(
        piece.now,
        recipient.as_ref(),
        &origin,
        Stamp::new([piece.stamp; 7]),
        place_of(piece.sequence),
        units,
    ))
}

/// The joiner that took its pieces.
pub fn joiner(alloc: Global) -> Result<Gateway, AllocError> {
    let mut gateway = Gateway::new(alloc, limits())?;
    for piece in TAKEN {
        if let Err(OfferFault::Memory) = offered(alloc, &mut gateway, piece)? {
            return Err(AllocError);
        }
    }
    Ok(gateway)
}
