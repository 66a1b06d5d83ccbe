//! The addresses that texts say, and where a text says none.

ghost use Rattle.std.specs.Prelude.{◌≡◌, Ok, IfErr, IfOk};
ghost use Rattle.std.specs.Str.{chars};
ghost use Rattle.sms_field.specs.Address.Text.{address_of_text};
ghost use Rattle.sms_encode.specs.Addresses.{AreCentreOctets, Refuses};
ghost use Rattle.sms_encode.specs.Inside.Faults.{IsOther};
ghost use Rattle.sms_encode.specs.declared.addresses.NoAddress.TheVariants.{Memory};

use crate::fault::EncodeFault;
use sms_field::{Address, RpAddress, TextFault};
use sms_show::Spot;
use sms_text::gsm_of;
use std::alloc::{AllocError, Global};

/// Why a text says no address.
#[derive(Clone, Copy, Debug, PartialEq, Eq)]
pub enum NoAddress {
    /// A character cannot stand where it does; none where it is too long.
    Bad(Option<Spot>),
    /// Memory ran out.
    Memory,
}

impl From<AllocError> for NoAddress {
    ghost from_gives = { λ _ fault. fault ≡ Memory };

    fn from(_error: AllocError) -> NoAddress {
        NoAddress::Memory
    }
}

/// Whether a character can stand among the digits of an address.
fn is_digit(character: char) -> bool {
    matches!(character, '0'..='9' | '*' | '#' | 'a'..='c')
}

/// Whether a character can stand in a name.
fn is_in_name(alloc: Global, character: char) -> Result<bool, AllocError> {
    let text = character.to_string(alloc)?;
    let septets = gsm_of(alloc, &text)?;
    Ok(septets.is_some())
}

/// The first character among digits that is none. The digits begin at a place.
fn first_non_digit(text: &str, start: usize) -> Option<Spot> {
    for (place, character) in text.char_indices() {
        if place >= start && !is_digit(character) {
            return Some(Spot {
                place,
                character: Some(character),
            });
        }
    }
    None
}

/// The first character of a name that cannot stand there.
fn first_not_in_name(alloc: Global, text: &str) -> Result<Option<Spot>, AllocError> {
    for (place, character) in text.char_indices() {
        if !is_in_name(alloc, character)? {
            return Ok(Some(Spot {
                place,
                character: Some(character),
            }));
        }
    }
    Ok(None)
}

/// The character for which a text is no address, if it is one, and not its length.
fn spot_in(alloc: Global, text: &str) -> Result<Option<Spot>, AllocError> {
    if text.starts_with('+') {
        return Ok(first_non_digit(text, 1));
    }
    first_not_in_name(alloc, text)
}

/// The character for which a text is no address of a service centre.
fn spot_in_centre(text: &str) -> Option<Spot> {
    let start = if text.starts_with('+') { 1 } else { 0 };
    first_non_digit(text, start)
}

/// The address that a text says, as `Address::from_text` has it. Where it says none, the first
/// character that cannot stand where it does is told.
pub fn address_of(alloc: Global, text: &str) -> Result<Address, NoAddress>
    ensures said { IfOk result (λ address. address_of_text (chars text.now) ≡ Ok address) }
    ensures refused { IfErr result (λ fault. Refuses fault (address_of_text (chars text.now))) }
{
    match Address::from_text(alloc, text) {
        Ok(address) => Ok(address),
        Err(TextFault::Memory) => Err(NoAddress::Memory),
        Err(TextFault::Address(_)) => Err(NoAddress::Bad(spot_in(alloc, text)?)),
    }
}

/// The octets of the address of a service centre that a text says.
pub(crate) fn centre_octets(alloc: Global, text: &str) -> Result<Vec<u8>, EncodeFault>
    ensures octets { IfOk result (λ octets. AreCentreOctets (chars text.now) octets.items) }
    ensures other { IfErr result IsOther }
{
    match RpAddress::from_text(alloc, text) {
        Ok(address) => {
            let octets = address.write(alloc);
            drop(address);
            Ok(octets?)
        }
        Err(TextFault::Memory) => Err(EncodeFault::Memory),
        Err(TextFault::Address(_)) => Err(EncodeFault::BadAddress(spot_in_centre(text))),
    }
}
