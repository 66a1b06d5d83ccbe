//! What a joiner of C is offered: an SMS-DELIVER that has a text.

ghost use Rattle.std.specs.Prelude.{◌≡◌, ◌<◌, ◌⊎◌, ◌↔◌, ℕ, true, false, is_some, Some, None, Err, MatchResult, IfOk, IfErr};
ghost use Rattle.sms_field.specs.Reading.{Reads};
ghost use Rattle.sms_tpdu.specs.Deliver.{Delivery, deliver};
ghost use Rattle.sms_tpdu.specs.UserData.BodySeen.{seen_body};
ghost use Rattle.sms_field.specs.Coding.{alphabet_at};
ghost use Rattle.sms_join.specs.BodyUnits.{units_of_body};
ghost use Rattle.sms_c.specs.Offers.{has_text, HasNoText, IsUnread, RefusesUnit};
ghost use Rattle.sms_c.specs.Status as numbers;
ghost use Rattle.sms_c.specs.declared.status.Failure.TheVariants.{Refused as TheRefused, NotThere};

use crate::status::{Failure, Refused, unit_refused};
use sms_field::{Alphabet, alphabet_of};
use sms_join::Units;
use sms_tpdu::{BodyView, DeliverView};
use std::alloc::{AllocError, Global};

/// An SMS-DELIVER.
fn delivered<'a>(octets: &'a [u8], refused: &mut Refused) -> Result<DeliverView<'a>, Failure>
    ensures read { IfOk result (λ view. (used : ℕ) × Reads deliver view octets.now used) }
    ensures exact { (value : Delivery) (used : ℕ) → Reads deliver value octets.now used
        → MatchResult result (λ view. view ≡ value) (λ _. ⊥) }
    ensures unread { (numbers.status_in result ≡ 1) ↔ IsUnread octets.now }
    ensures refused { IfErr result (λ why. (why ≡ TheRefused)
        × RefusesUnit 1 octets.now refused.new) }
    ensures untold { IfOk result (λ _. refused.new ≡ refused.old) }
{
    match DeliverView::read(octets) {
        Ok((view, _)) => Ok(view),
        Err(fault) => {
            unit_refused(refused, fault);
            Err(Failure::Refused)
        }
    }
}

/// Whether the body of user data is a text.
fn is_text(alphabet: Alphabet, body: &BodyView) -> bool
    ensures { result ≡ is_some (units_of_body alphabet (seen_body body.now)) }
{
    match (alphabet, body) {
        (Alphabet::Gsm7, BodyView::Septets(_)) => true,
        (Alphabet::Ucs2, BodyView::Octets(_)) => true,
        _ => false,
    }
}

/// An SMS-DELIVER that has a text.
pub fn told<'a>(octets: &'a [u8], refused: &mut Refused) -> Result<DeliverView<'a>, Failure>
    ensures read { IfOk result (λ view. (used : ℕ) × Reads deliver view octets.now used) }
    ensures text { IfOk result (λ view. has_text view ≡ true) }
    ensures exact { (value : Delivery) (used : ℕ) → Reads deliver value octets.now used
        → MatchResult result (λ view. view ≡ value) (λ _. has_text value ≡ false) }
    ensures unread { (numbers.status_in result ≡ 1) ↔ IsUnread octets.now }
    ensures no_text { (numbers.status_in result ≡ 8) ↔ HasNoText octets.now }
    ensures answered { IfErr result (λ why. (why ≡ TheRefused) ⊎ (why ≡ NotThere)) }
    ensures refused { RefusesUnit (numbers.status_in result) octets.now refused.new }
    ensures untold { (numbers.status_in result ≡ 1 → ⊥) → refused.new ≡ refused.old }
{
    let view = delivered(octets, refused)?;
    if !is_text(alphabet_of(view.dcs), &view.user.body()) {
        return Err(Failure::NotThere);
    }
    Ok(view)
}

/// The units of an SMS-DELIVER that has a text.
pub fn units_of(alloc: Global, view: &DeliverView) -> Result<Units, AllocError>
    requires { has_text view.now ≡ true }
    ensures { IfOk result (λ units.
        units_of_body (alphabet_at view.now.dcs) view.now.user.body ≡ Some units) }
{
    match Units::of_body_view(alloc, alphabet_of(view.dcs), &view.user.body())? {
        Some(units) => Ok(units),
        None => unreachable!(),
    }
}
