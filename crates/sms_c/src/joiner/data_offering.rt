//! User data alone offered to a joiner of C.

ghost use Rattle.std.specs.Prelude.{◌≡◌, ◌≢◌, ◌<◌, ◌⊎◌, ◌↔◌, false, true, None, IsSome, IfSome, IfErr, OnErr};
ghost use Rattle.std.specs.Str.{IsUtf8};
ghost use Rattle.sms_c.specs.Changes.{next_number};
ghost use Rattle.sms_c.specs.DataAlone as seen;
ghost use Rattle.sms_c.specs.DataAlone.{IsUnreadData, LacksText, RefusesData};
ghost use Rattle.sms_c.specs.DataOffers as offers;
ghost use Rattle.sms_c.specs.DataOffers.{HasTextIn, IsPassed, OffersData, OpensTooManyData};
ghost use Rattle.sms_c.specs.Kept.{count};
ghost use Rattle.sms_c.specs.Offers.{OnOkIs};
ghost use Rattle.sms_c.specs.Status as numbers;
ghost use Rattle.sms_c.specs.WritingFaults.{SaysNoAddress};

use crate::handed_out::text_of;
use crate::joiner::Handle;
use crate::joiner::data_view::told;
use crate::joiner::inside::Inside;
use crate::joiner::taking::take;
use crate::reading::data::DataForm;
use crate::status::{Failure, OK, Refused};
use crate::times::StampOctets;
use crate::writing::{address_of, is_set};
use sms_field::Stamp;
use sms_join::{Units, read_units};
use sms_tpdu::Concat;
use std::alloc::{AllocError, Global};
use std::mem;

/// What stands beside user data alone that are offered.
#[repr(C)]
#[derive(Clone, Copy)]
pub struct DataOffer {
    /// Whether there is a time stamp: 0 is no, all else yes.
    pub has_stamp: u8,
    /// TP-SCTS, if there is one.
    pub stamp: StampOctets,
    pub form: DataForm,
}

/// Whether data of a place are known by something: a segment is by its place, and a message in one
/// piece by its stamp.
pub fn is_known(offer: DataOffer, place: Option<Concat>) -> bool
    ensures { result ≡ offers.is_known offer place }
{
    is_set(offer.has_stamp) || place.is_some()
}

/// Tells the text of a message in one piece that is known by nothing.
fn pass(alloc: Global, inside: &mut Inside, units: Units) -> Result<u32, AllocError>
    ensures same { OnErr result (inside.new ≡ inside.old) }
    ensures passed { OnOkIs result (IsPassed inside.old inside.new units) }
    ensures changes { inside.new.changes ≡ inside.old.changes }
{
    let text = read_units(alloc, &[units])?;
    inside.text = text;
    Ok(2)
}

/// Offers user data alone, and says what becomes of them.
fn offered(
    alloc: Global,
    inside: &mut Inside,
    seconds: u64,
    offer: DataOffer,
    origin: &[u8],
    octets: &[u8],
    refused: &mut Refused,
) -> Result<u32, Failure>
    ensures same { OnErr result (inside.new ≡ inside.old) }
    ensures range { (numbers.status_in result ≡ 7) ↔ (seen.fits_form offer.form ≡ false) }
    ensures unread { (numbers.status_in result ≡ 1)
        ↔ (seen.fits_form offer.form ≡ true) × IsUnreadData offer.form octets.now }
    ensures no_text { (numbers.status_in result ≡ 8)
        ↔ (seen.fits_form offer.form ≡ true) × LacksText offer.form octets.now }
    ensures not_utf8 { (numbers.status_in result ≡ 4)
        ↔ HasTextIn offer.form octets.now × (IsUtf8 origin.now → ⊥) }
    ensures bad_address { numbers.status_in result ≡ 5
        → HasTextIn offer.form octets.now × IsUtf8 origin.now × SaysNoAddress origin.now }
    ensures address { HasTextIn offer.form octets.now → IsUtf8 origin.now
        → SaysNoAddress origin.now
        → (numbers.status_in result ≡ 5) ⊎ (numbers.status_in result ≡ 2) }
    ensures refused { numbers.status_in result ≡ 1
        → RefusesData offer.form octets.now refused.new }
    ensures untold { (numbers.status_in result ≡ 1 → ⊥) → refused.new ≡ refused.old }
    ensures too_many { numbers.status_in result ≡ 9
        → OpensTooManyData inside.old seconds offer origin.now octets.now }
    ensures turned { OpensTooManyData inside.old seconds offer origin.now octets.now
        → (numbers.status_in result ≡ 9) ⊎ (numbers.status_in result ≡ 2) }
    ensures memory { numbers.status_in result ≡ 2
        → HasTextIn offer.form octets.now × IsUtf8 origin.now }
    ensures answered { IfErr result (λ why. (numbers.status_of why < 10)
        × (numbers.status_of why ≢ 0) × (numbers.status_of why ≢ 3)
        × (numbers.status_of why ≢ 6)) }
    ensures offers { OnOkIs result
        (OffersData inside.old inside.new seconds offer origin.now octets.now) }
    ensures changes { inside.new.changes ≡ inside.old.changes }
{
    let view = told(octets, offer.form, refused)?;
    let origin = text_of(origin)?;
    let origin = address_of(alloc, origin)?;
    let place = view.place();
    let units = view.units(alloc, offer.form)?;
    if !is_known(offer, place) {
        return Ok(pass(alloc, inside, units)?);
    }
    let stamp = Stamp::new(offer.stamp.octets);
    take(inside, seconds, &origin, stamp, place, units)
}

/// Offers a joiner user data alone, from an origin, that came at a moment.
#[unsafe(no_mangle)]
pub extern "C" fn sms_joiner_offer_data(
    alloc: Global,
    handle: &mut Handle,
    seconds: u64,
    offer: &DataOffer,
    origin: &[u8],
    octets: &[u8],
    outcome: &mut u32,
    refused: &mut Refused,
) -> u32
    ensures closed { handle.old.kept.held ≡ None → result ≡ 10 }
    ensures held { count handle.new.kept.held ≡ count handle.old.kept.held }
    ensures same { (result ≡ 0 → ⊥) → handle.new.kept.held ≡ handle.old.kept.held }
    ensures outcome { (result ≡ 0 → ⊥) → outcome.new ≡ outcome.old }
    ensures range { IsSome handle.old.kept.held
        → (result ≡ 7) ↔ (seen.fits_form offer.now.form ≡ false) }
    ensures unread { IsSome handle.old.kept.held → (result ≡ 1)
        ↔ (seen.fits_form offer.now.form ≡ true) × IsUnreadData offer.now.form octets.now }
    ensures no_text { IsSome handle.old.kept.held → (result ≡ 8)
        ↔ (seen.fits_form offer.now.form ≡ true) × LacksText offer.now.form octets.now }
    ensures not_utf8 { IsSome handle.old.kept.held → (result ≡ 4)
        ↔ HasTextIn offer.now.form octets.now × (IsUtf8 origin.now → ⊥) }
    ensures bad_address { result ≡ 5 → HasTextIn offer.now.form octets.now
        × IsUtf8 origin.now × SaysNoAddress origin.now }
    ensures address { IsSome handle.old.kept.held → HasTextIn offer.now.form octets.now
        → IsUtf8 origin.now → SaysNoAddress origin.now → (result ≡ 5) ⊎ (result ≡ 2) }
    ensures refused { result ≡ 1 → RefusesData offer.now.form octets.now refused.new }
    ensures untold { (result ≡ 1 → ⊥) → refused.new ≡ refused.old }
    ensures too_many { result ≡ 9 → IfSome handle.old.kept.held (λ before.
        OpensTooManyData before seconds offer.now origin.now octets.now) }
    ensures turned { IfSome handle.old.kept.held (λ before.
        OpensTooManyData before seconds offer.now origin.now octets.now
        → (result ≡ 9) ⊎ (result ≡ 2)) }
    ensures memory { result ≡ 2 → HasTextIn offer.now.form octets.now × IsUtf8 origin.now }
    ensures answered { IsSome handle.old.kept.held
        → (result < 10) × (result ≢ 3) × (result ≢ 6) }
    ensures offers { result ≡ 0 → IfSome handle.old.kept.held (λ before.
        IfSome handle.new.kept.held (λ after.
        OffersData before after seconds offer.now origin.now octets.now outcome.new)) }
    ensures changes { result ≡ 0 → IfSome handle.old.kept.held (λ before.
        IfSome handle.new.kept.held (λ after.
        after.changes ≡ next_number before.changes)) }
{
    let Some(mut inside) = mem::replace(handle, Handle::closed(alloc)).into_box() else {
        return Failure::Closed.status();
    };
    match offered(alloc, &mut inside, seconds, *offer, origin, octets, refused) {
        Ok(what) => {
            inside.count_change();
            *handle = Handle::of(inside);
            *outcome = what;
            OK
        }
        Err(failure) => {
            *handle = Handle::of(inside);
            failure.status()
        }
    }
}
