//! User data alone for a recipient offered to a joiner of C.

ghost use Rattle.std.specs.Prelude.{◌≡◌, ◌≢◌, ◌<◌, ◌⊎◌, ◌↔◌, false, true, None, IsSome, IfSome, IfErr, OnErr};
ghost use Rattle.sms_c.specs.Changes.{next_number};
ghost use Rattle.sms_c.specs.DataAlone as seen;
ghost use Rattle.sms_c.specs.DataAlone.{IsUnreadData, LacksText, RefusesData};
ghost use Rattle.sms_c.specs.DataOffers.{HasTextIn};
ghost use Rattle.sms_c.specs.GatewayKept.{count};
ghost use Rattle.sms_c.specs.GatewayOffers.{OffersDataTo, OpensTooManyDataTo, SayNoAddress};
ghost use Rattle.sms_c.specs.Offers.{OnOkIs};
ghost use Rattle.sms_c.specs.Status as numbers;
ghost use Rattle.sms_c.specs.WritingFaults.{AreTexts};

use crate::gateway::GatewayHandle;
use crate::gateway::ends::ends_of;
use crate::gateway::inside::Inside;
use crate::gateway::taking::{pass, take};
use crate::joiner::data_offering::{DataOffer, is_known};
use crate::joiner::data_view::told;
use crate::status::{Failure, OK, Refused};
use sms_field::Stamp;
use std::alloc::Global;
use std::mem;

/// Offers user data alone for a recipient, and says what becomes of them.
fn offered(
    alloc: Global,
    inside: &mut Inside,
    seconds: u64,
    offer: DataOffer,
    recipient: &[u8],
    origin: &[u8],
    octets: &[u8],
    refused: &mut Refused,
) -> Result<u32, Failure>
    ensures same { OnErr result (inside.new ≡ inside.old) }
    ensures range { (numbers.status_in result ≡ 7) ↔ (seen.fits_form offer.form ≡ false) }
    ensures unread { (numbers.status_in result ≡ 1)
        ↔ (seen.fits_form offer.form ≡ true) × IsUnreadData offer.form octets.now }
    ensures no_text { (numbers.status_in result ≡ 8)
        ↔ (seen.fits_form offer.form ≡ true) × LacksText offer.form octets.now }
    ensures not_utf8 { (numbers.status_in result ≡ 4)
        ↔ HasTextIn offer.form octets.now × (AreTexts recipient.now origin.now → ⊥) }
    ensures bad_address { numbers.status_in result ≡ 5
        → HasTextIn offer.form octets.now × SayNoAddress recipient.now origin.now }
    ensures address { HasTextIn offer.form octets.now → SayNoAddress recipient.now origin.now
        → (numbers.status_in result ≡ 5) ⊎ (numbers.status_in result ≡ 2) }
    ensures refused { numbers.status_in result ≡ 1
        → RefusesData offer.form octets.now refused.new }
    ensures untold { (numbers.status_in result ≡ 1 → ⊥) → refused.new ≡ refused.old }
    ensures too_many { numbers.status_in result ≡ 9
        → OpensTooManyDataTo inside.old seconds offer recipient.now origin.now octets.now }
    ensures turned { OpensTooManyDataTo inside.old seconds offer recipient.now origin.now octets.now
        → (numbers.status_in result ≡ 9) ⊎ (numbers.status_in result ≡ 2) }
    ensures memory { numbers.status_in result ≡ 2
        → HasTextIn offer.form octets.now × AreTexts recipient.now origin.now }
    ensures answered { IfErr result (λ why. (numbers.status_of why < 10)
        × (numbers.status_of why ≢ 0) × (numbers.status_of why ≢ 3)
        × (numbers.status_of why ≢ 6)) }
    ensures offers { OnOkIs result (OffersDataTo inside.old inside.new seconds offer
        recipient.now origin.now octets.now) }
    ensures changes { inside.new.changes ≡ inside.old.changes }
{
    let view = told(octets, offer.form, refused)?;
    let ends = ends_of(alloc, recipient, origin)?;
    let place = view.place();
    let units = view.units(alloc, offer.form)?;
    if !is_known(offer, place) {
        return Ok(pass(alloc, inside, units)?);
    }
    let stamp = Stamp::new(offer.stamp.octets);
    let to = ends.recipient.as_ref();
    take(inside, seconds, to, &ends.origin, stamp, place, units)
}

/// Offers a joiner user data alone, for a recipient and from an origin, that came at a moment.
#[unsafe(no_mangle)]
pub extern "C" fn sms_gateway_offer_data(
    alloc: Global,
    gateway: &mut GatewayHandle,
    seconds: u64,
    offer: &DataOffer,
    recipient: &[u8],
    origin: &[u8],
    octets: &[u8],
    outcome: &mut u32,
    refused: &mut Refused,
) -> u32
    ensures closed { gateway.old.kept.held ≡ None → result ≡ 10 }
    ensures held { count gateway.new.kept.held ≡ count gateway.old.kept.held }
    ensures same { (result ≡ 0 → ⊥) → gateway.new.kept.held ≡ gateway.old.kept.held }
    ensures outcome { (result ≡ 0 → ⊥) → outcome.new ≡ outcome.old }
    ensures range { IsSome gateway.old.kept.held
        → (result ≡ 7) ↔ (seen.fits_form offer.now.form ≡ false) }
    ensures unread { IsSome gateway.old.kept.held → (result ≡ 1)
        ↔ (seen.fits_form offer.now.form ≡ true) × IsUnreadData offer.now.form octets.now }
    ensures no_text { IsSome gateway.old.kept.held → (result ≡ 8)
        ↔ (seen.fits_form offer.now.form ≡ true) × LacksText offer.now.form octets.now }
    ensures not_utf8 { IsSome gateway.old.kept.held → (result ≡ 4)
        ↔ HasTextIn offer.now.form octets.now × (AreTexts recipient.now origin.now → ⊥) }
    ensures bad_address { result ≡ 5
        → HasTextIn offer.now.form octets.now × SayNoAddress recipient.now origin.now }
    ensures address { IsSome gateway.old.kept.held → HasTextIn offer.now.form octets.now
        → SayNoAddress recipient.now origin.now → (result ≡ 5) ⊎ (result ≡ 2) }
    ensures refused { result ≡ 1 → RefusesData offer.now.form octets.now refused.new }
    ensures untold { (result ≡ 1 → ⊥) → refused.new ≡ refused.old }
    ensures too_many { result ≡ 9 → IfSome gateway.old.kept.held (λ before.
        OpensTooManyDataTo before seconds offer.now recipient.now origin.now octets.now) }
    ensures turned { IfSome gateway.old.kept.held (λ before.
        OpensTooManyDataTo before seconds offer.now recipient.now origin.now octets.now
        → (result ≡ 9) ⊎ (result ≡ 2)) }
    ensures memory { result ≡ 2
        → HasTextIn offer.now.form octets.now × AreTexts recipient.now origin.now }
    ensures answered { IsSome gateway.old.kept.held
        → (result < 10) × (result ≢ 3) × (result ≢ 6) }
    ensures offers { result ≡ 0 → IfSome gateway.old.kept.held (λ before.
        IfSome gateway.new.kept.held (λ after. OffersDataTo before after seconds offer.now
        recipient.now origin.now octets.now outcome.new)) }
    ensures changes { result ≡ 0 → IfSome gateway.old.kept.held (λ before.
        IfSome gateway.new.kept.held (λ after.
        after.changes ≡ next_number before.changes)) }
{
    let Some(mut inside) = mem::replace(gateway, GatewayHandle::closed(alloc)).into_box() else {
        return Failure::Closed.status();
    };
    match offered(
        alloc,
        &mut inside,
        seconds,
        *offer,
        recipient,
        origin,
        octets,
        refused,
    ) {
        Ok(what) => {
            inside.count_change();
            *gateway = GatewayHandle::of(inside);
            *outcome = what;
            OK
        }
        Err(failure) => {
            *gateway = GatewayHandle::of(inside);
            failure.status()
        }
    }
}
