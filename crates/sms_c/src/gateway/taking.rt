//! A piece that a joiner for many recipients of C is offered.

ghost use Rattle.std.specs.Prelude.{◌≡◌, ◌⊎◌, ◌↔◌, Err, IfErr, OnErr, option_copied};
ghost use Rattle.sms_tpdu.specs.UserData.ConcatenationFound.{IsPlace};
ghost use Rattle.sms_join.specs.Piece.{piece_to};
ghost use Rattle.sms_join.specs.declared.offer.OfferFault.TheVariants.{TooManyOpen};
ghost use Rattle.sms_c.specs.GatewayOffers.{IsPassedTo, IsTakenTo, SaysTo};
ghost use Rattle.sms_c.specs.Offers.{OnOkIs};
ghost use Rattle.sms_c.specs.Status as numbers;

use crate::gateway::inside::Inside;
use crate::status::Failure;
use sms_field::{Address, Stamp};
use sms_join::{Offer, OfferFault, Units, read_units};
use sms_tpdu::Concat;
use std::alloc::{AllocError, Global};

/// Offers a piece, and says what becomes of it.
pub fn take(
    inside: &mut Inside,
    seconds: u64,
    recipient: Option<&Address>,
    origin: &Address,
    stamp: Stamp,
    place: Option<Concat>,
    units: Units,
) -> Result<u32, Failure>
    requires { IsPlace place }
    ensures same { OnErr result (inside.new ≡ inside.old) }
    ensures taken { OnOkIs result (IsTakenTo inside.old inside.new
        (piece_to seconds (option_copied recipient.entry) origin.now stamp place units)) }
    ensures too_many { (numbers.status_in result ≡ 9) ↔ SaysTo inside.old.gateway
        (piece_to seconds (option_copied recipient.entry) origin.now stamp place units)
        (Err TooManyOpen) }
    ensures answered { IfErr result (λ why.
        (numbers.status_of why ≡ 9) ⊎ (numbers.status_of why ≡ 2)) }
    ensures changes { inside.new.changes ≡ inside.old.changes }
{
    match inside
        .gateway
        .offer(seconds, recipient, origin, stamp, place, units)
    {
        Ok(Offer::Repeat) => Ok(0),
        Ok(Offer::Kept) => Ok(1),
        Ok(Offer::Finished(text)) => {
            inside.text = text;
            Ok(2)
        }
        Err(OfferFault::TooManyOpen) => Err(Failure::TooManyOpen),
        Err(OfferFault::Memory) => Err(Failure::Memory),
    }
}

/// Tells the text of a message in one piece that is known by nothing.
pub fn pass(alloc: Global, inside: &mut Inside, units: Units) -> Result<u32, AllocError>
    ensures same { OnErr result (inside.new ≡ inside.old) }
    ensures passed { OnOkIs result (IsPassedTo inside.old inside.new units) }
    ensures changes { inside.new.changes ≡ inside.old.changes }
{
    let text = read_units(alloc, &[units])?;
    inside.text = text;
    Ok(2)
}
