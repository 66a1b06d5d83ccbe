//! For whom what a joiner of C is offered is, and whom it is from.

ghost use Rattle.std.specs.Prelude.{◌≡◌, ◌≢◌, ◌⊎◌, ◌↔◌, ◌<◌, IsSome, IfSome, IfOk, IfErr};
ghost use Rattle.std.specs.Str.{IsUtf8};
ghost use Rattle.sms_c.specs.DataOffers.{IsFrom};
ghost use Rattle.sms_c.specs.GatewayOffers.{IsTo, SayNoAddress};
ghost use Rattle.sms_c.specs.Status as numbers;
ghost use Rattle.sms_c.specs.WritingFaults.{AreTexts, SaysNoAddress};
ghost use Rattle.sms_c.specs.declared.status.Failure.TheVariants.{BadAddress, Memory, NotUtf8};

use crate::handed_out::text_of;
use crate::status::Failure;
use crate::telephone::telephone_given;
use crate::writing::address_of;
use sms_field::Address;
use std::alloc::Global;

/// For whom something is, if that is told, and whom it is from.
#[derive(Drop)]
pub struct Ends {
    pub recipient: Option<Address>,
    pub origin: Address,
}

/// The recipient that a text says: none where it is empty.
fn recipient_said(alloc: Global, text: &str) -> Result<Option<Address>, Failure>
    requires { IsUtf8 text.now }
    ensures is_to { IfOk result (IsTo text.now) }
    ensures none { IfErr result (λ why. (why ≡ Memory)
        ⊎ (why ≡ BadAddress) × SaysNoAddress text.now) }
    ensures address { SaysNoAddress text.now
        → (numbers.status_in result ≡ 5) ⊎ (numbers.status_in result ≡ 2) }
{
    if text.is_empty() {
        return Ok(None);
    }
    Ok(Some(address_of(alloc, text)?))
}

/// The recipient that a text says, where it is empty or a telephone number: none where it is empty.
#[inline(always)]
fn telephone_to(text: &[u8]) -> Option<Option<Address>>
    ensures is_to { IfSome result (IsTo text.now) }
    ensures text { IsSome result → IsUtf8 text.now }
    ensures address { IsSome result → SaysNoAddress text.now → ⊥ }
{
    if text.is_empty() {
        return Some(None);
    }
    Some(Some(telephone_given(text)?))
}

/// The recipient that a text in UTF-8 says, be it a number or a name: none where it is empty.
fn any_recipient_in(alloc: Global, text: &[u8]) -> Result<Option<Address>, Failure>
    ensures is_to { IfOk result (IsTo text.now) }
    ensures not_utf8 { (numbers.status_in result ≡ 4) ↔ (IsUtf8 text.now → ⊥) }
    ensures bad_address { numbers.status_in result ≡ 5
        → IsUtf8 text.now × SaysNoAddress text.now }
    ensures address { IsUtf8 text.now → SaysNoAddress text.now
        → (numbers.status_in result ≡ 5) ⊎ (numbers.status_in result ≡ 2) }
    ensures memory { numbers.status_in result ≡ 2 → IsUtf8 text.now }
    ensures answered { IfErr result (λ why.
        (why ≡ NotUtf8) ⊎ (why ≡ Memory) ⊎ (why ≡ BadAddress)) }
{
    let text = text_of(text)?;
    recipient_said(alloc, text)
}

/// The recipient that a text in UTF-8 says: none where it is empty.
pub fn recipient_in(alloc: Global, text: &[u8]) -> Result<Option<Address>, Failure>
    ensures is_to { IfOk result (IsTo text.now) }
    ensures not_utf8 { (numbers.status_in result ≡ 4) ↔ (IsUtf8 text.now → ⊥) }
    ensures bad_address { numbers.status_in result ≡ 5
        → IsUtf8 text.now × SaysNoAddress text.now }
    ensures address { IsUtf8 text.now → SaysNoAddress text.now
        → (numbers.status_in result ≡ 5) ⊎ (numbers.status_in result ≡ 2) }
    ensures memory { numbers.status_in result ≡ 2 → IsUtf8 text.now }
    ensures answered { IfErr result (λ why.
        (why ≡ NotUtf8) ⊎ (why ≡ Memory) ⊎ (why ≡ BadAddress)) }
{
    match telephone_to(text) {
        Some(recipient) => Ok(recipient),
        None => any_recipient_in(alloc, text),
    }
}

/// For whom something is, and whom it is from, as two texts say.
pub fn ends_of(alloc: Global, recipient: &[u8], origin: &[u8]) -> Result<Ends, Failure>
    ensures is_to { IfOk result (λ ends. IsTo recipient.now ends.recipient) }
    ensures from { IfOk result (λ ends. IsFrom origin.now ends.origin) }
    ensures not_utf8 { (numbers.status_in result ≡ 4)
        ↔ (AreTexts recipient.now origin.now → ⊥) }
    ensures bad_address { numbers.status_in result ≡ 5 → SayNoAddress recipient.now origin.now }
    ensures address { SayNoAddress recipient.now origin.now
        → (numbers.status_in result ≡ 5) ⊎ (numbers.status_in result ≡ 2) }
    ensures memory { numbers.status_in result ≡ 2 → AreTexts recipient.now origin.now }
    ensures answered { IfErr result (λ why.
        (why ≡ NotUtf8) ⊎ (why ≡ Memory) ⊎ (why ≡ BadAddress)) }
{
    let recipient = text_of(recipient)?;
    let origin = text_of(origin)?;
    let recipient = recipient_said(alloc, recipient)?;
    let origin = address_of(alloc, origin)?;
    Ok(Ends { recipient, origin })
}
