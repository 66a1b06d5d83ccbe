//! A piece that a joiner of C is offered.

ghost use Rattle.std.specs.Prelude.{◌≡◌, ◌⊎◌, ◌↔◌, Err, IfErr, OnErr};
ghost use Rattle.sms_tpdu.specs.UserData.ConcatenationFound.{IsPlace};
ghost use Rattle.sms_join.specs.Joiner.Offering.{Says};
ghost use Rattle.sms_join.specs.Piece.{piece_of};
ghost use Rattle.sms_join.specs.declared.offer.OfferFault.TheVariants.{TooManyOpen};
ghost use Rattle.sms_c.specs.DataOffers.{IsTaken};
ghost use Rattle.sms_c.specs.Offers.{OnOkIs};
ghost use Rattle.sms_c.specs.Status as numbers;

use crate::joiner::inside::Inside;
use crate::status::Failure;
use sms_field::{Address, Stamp};
use sms_join::{Offer, OfferFault, Units};
use sms_tpdu::Concat;

/// Offers a piece, and says what becomes of it.
pub fn take(
    inside: &mut Inside,
    seconds: u64,
    origin: &Address,
    stamp: Stamp,
    place: Option<Concat>,
    units: Units,
) -> Result<u32, Failure>
    requires { IsPlace place }
    ensures same { OnErr result (inside.new ≡ inside.old) }
    ensures taken { OnOkIs result (IsTaken inside.old inside.new
        (piece_of seconds origin.now stamp place units)) }
    ensures too_many { (numbers.status_in result ≡ 9)
        ↔ Says inside.old.joiner.open_max inside.old.joiner.holds
        (piece_of seconds origin.now stamp place units) (Err TooManyOpen) }
    ensures answered { IfErr result (λ why.
        (numbers.status_of why ≡ 9) ⊎ (numbers.status_of why ≡ 2)) }
    ensures changes { inside.new.changes ≡ inside.old.changes }
{
    match inside.joiner.offer(seconds, origin, stamp, place, units) {
        Ok(Offer::Repeat) => Ok(0),
        Ok(Offer::Kept) => Ok(1),
        Ok(Offer::Finished(text)) => {
            inside.text = text;
            Ok(2)
        }
        Err(OfferFault::TooManyOpen) => Err(Failure::TooManyOpen),
        Err(OfferFault::Memory) => Err(Failure::Memory),
    }
}
