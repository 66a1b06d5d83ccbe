//! Whether user data alone would finish their message in a joiner of C.

ghost use Rattle.std.specs.Prelude.{◌≡◌, ◌≢◌, ◌<◌, ◌⊎◌, ◌↔◌, false, true, None, IsSome, IfSome, IfErr};
ghost use Rattle.std.specs.Str.{IsUtf8};
ghost use Rattle.sms_c.specs.DataAlone as seen;
ghost use Rattle.sms_c.specs.DataAlone.{IsUnreadData, LacksText, RefusesData};
ghost use Rattle.sms_c.specs.DataOffers.{HasTextIn, WouldFinishData};
ghost use Rattle.sms_c.specs.Offers.{OnOkIs};
ghost use Rattle.sms_c.specs.Status as numbers;
ghost use Rattle.sms_c.specs.WritingFaults.{SaysNoAddress};

use crate::handed_out::text_of;
use crate::joiner::Handle;
use crate::joiner::data_offering::{DataOffer, is_known};
use crate::joiner::data_view::told;
use crate::joiner::inside::Inside;
use crate::parts::bit;
use crate::status::{Failure, OK, Refused};
use crate::writing::address_of;
use sms_field::Stamp;
use std::alloc::Global;
use std::mem;

/// Whether user data alone would finish their message: 1, or 0.
fn finishes(
    alloc: Global,
    inside: &Inside,
    offer: DataOffer,
    origin: &[u8],
    octets: &[u8],
    refused: &mut Refused,
) -> Result<u8, Failure>
    ensures range { (numbers.status_in result ≡ 7) ↔ (seen.fits_form offer.form ≡ false) }
    ensures unread { (numbers.status_in result ≡ 1)
        ↔ (seen.fits_form offer.form ≡ true) × IsUnreadData offer.form octets.now }
    ensures no_text { (numbers.status_in result ≡ 8)
        ↔ (seen.fits_form offer.form ≡ true) × LacksText offer.form octets.now }
    ensures not_utf8 { (numbers.status_in result ≡ 4)
        ↔ HasTextIn offer.form octets.now × (IsUtf8 origin.now → ⊥) }
    ensures bad_address { numbers.status_in result ≡ 5
        → HasTextIn offer.form octets.now × IsUtf8 origin.now × SaysNoAddress origin.now }
    ensures address { HasTextIn offer.form octets.now → IsUtf8 origin.now
        → SaysNoAddress origin.now
        → (numbers.status_in result ≡ 5) ⊎ (numbers.status_in result ≡ 2) }
    ensures refused { numbers.status_in result ≡ 1
        → RefusesData offer.form octets.now refused.new }
    ensures untold { (numbers.status_in result ≡ 1 → ⊥) → refused.new ≡ refused.old }
    ensures memory { numbers.status_in result ≡ 2
        → HasTextIn offer.form octets.now × IsUtf8 origin.now }
    ensures answered { IfErr result (λ why. (numbers.status_of why < 9)
        × (numbers.status_of why ≢ 0) × (numbers.status_of why ≢ 3)
        × (numbers.status_of why ≢ 6)) }
    ensures finishes { OnOkIs result (WouldFinishData inside.now offer origin.now octets.now) }
{
    let view = told(octets, offer.form, refused)?;
    let origin = text_of(origin)?;
    let origin = address_of(alloc, origin)?;
    let place = view.place();
    if !is_known(offer, place) {
        return Ok(1);
    }
    let stamp = Stamp::new(offer.stamp.octets);
    Ok(bit(inside.joiner.would_finish(&origin, stamp, place)))
}

/// Tells whether user data alone would finish their message.
#[unsafe(no_mangle)]
pub extern "C" fn sms_joiner_would_finish_data(
    alloc: Global,
    handle: &mut Handle,
    offer: &DataOffer,
    origin: &[u8],
    octets: &[u8],
    answer: &mut u8,
    refused: &mut Refused,
) -> u32
    ensures closed { handle.old.kept.held ≡ None → result ≡ 10 }
    ensures same { handle.new.kept.held ≡ handle.old.kept.held }
    ensures none { (result ≡ 0 → ⊥) → answer.new ≡ answer.old }
    ensures range { IsSome handle.old.kept.held
        → (result ≡ 7) ↔ (seen.fits_form offer.now.form ≡ false) }
    ensures unread { IsSome handle.old.kept.held → (result ≡ 1)
        ↔ (seen.fits_form offer.now.form ≡ true) × IsUnreadData offer.now.form octets.now }
    ensures no_text { IsSome handle.old.kept.held → (result ≡ 8)
        ↔ (seen.fits_form offer.now.form ≡ true) × LacksText offer.now.form octets.now }
    ensures not_utf8 { IsSome handle.old.kept.held → (result ≡ 4)
        ↔ HasTextIn offer.now.form octets.now × (IsUtf8 origin.now → ⊥) }
    ensures bad_address { result ≡ 5 → HasTextIn offer.now.form octets.now
        × IsUtf8 origin.now × SaysNoAddress origin.now }
    ensures address { IsSome handle.old.kept.held → HasTextIn offer.now.form octets.now
        → IsUtf8 origin.now → SaysNoAddress origin.now → (result ≡ 5) ⊎ (result ≡ 2) }
    ensures refused { result ≡ 1 → RefusesData offer.now.form octets.now refused.new }
    ensures untold { (result ≡ 1 → ⊥) → refused.new ≡ refused.old }
    ensures memory { result ≡ 2 → HasTextIn offer.now.form octets.now × IsUtf8 origin.now }
    ensures answered { IsSome handle.old.kept.held
        → (result < 9) × (result ≢ 3) × (result ≢ 6) }
    ensures finishes { result ≡ 0 → IfSome handle.old.kept.held (λ inside.
        WouldFinishData inside offer.now origin.now octets.now answer.new) }
{
    let Some(inside) = mem::replace(handle, Handle::closed(alloc)).into_box() else {
        return Failure::Closed.status();
    };
    let found = finishes(alloc, &inside, *offer, origin, octets, refused);
    *handle = Handle::of(inside);
    match found {
        Ok(finishes) => {
            *answer = finishes;
            OK
        }
        Err(failure) => failure.status(),
    }
}
