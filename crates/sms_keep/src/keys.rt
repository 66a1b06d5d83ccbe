//! Keys as they are saved, and back.

ghost use Rattle.std.specs.Prelude.{◌≡◌, None, Some, option_copied, option_map, IfOk, IfSome, OnOk};
ghost use Rattle.sms_field.specs.Address.{address_octets};
ghost use Rattle.sms_field.specs.Address.Value.{HasSpelling};
ghost use Rattle.sms_join.specs.Key.{origin_of, recipient_of};
ghost use Rattle.sms_saved.specs.Fits.{AddressFits, MessageFits};
ghost use Rattle.sms_saved.specs.Views.{seen_key};
ghost use Rattle.sms_keep.specs.Saved.{saved_key, saved_message, saved_width};
ghost use Rattle.sms_keep.specs.Held.{HasAddresses, IsAddress};
ghost use Rattle.sms_keep.specs.Inside.Saving.{KeyIsSound};
ghost use Rattle.sms_keep.specs.Inside.Restoring.{IsAddressOf, IsKeyOf};

use crate::plain::is_plain;
use crate::telephone_octets::octets_of_digits;
use crate::telephones::telephone_from;
use sms_field::{Address, Stamp, Symbols, address_laws};
use sms_join::Key;
use sms_saved::{AddressOctets, Key as SavedKey, KeyView, Message, Width as SavedWidth};
use sms_tpdu::Width;
use std::alloc::{AllocError, Global};

/// The octets of an address, be it of digits or a name. They are written in this room.
#[inline(never)]
fn written_octets(room: &mut Vec<u8>, address: &Address) -> Result<AddressOctets, AllocError>
    ensures value { IfOk result (λ octets. octets ≡ address_octets address.now) }
    ensures spelled { HasSpelling address.now }
    ensures few { AddressFits (address_octets address.now) }
{
    address_laws();
    let _kind = address.type_of_number;
    room.clear();
    address.write_to(room)?;
    match AddressOctets::new(room) {
        Some(octets) => Ok(octets),
        None => unreachable!(),
    }
}

/// The octets of an address. Those of a name are written in this room.
#[inline(always)]
fn octets_of(room: &mut Vec<u8>, address: &Address) -> Result<AddressOctets, AllocError>
    ensures value { IfOk result (λ octets. octets ≡ address_octets address.now) }
    ensures spelled { HasSpelling address.now }
    ensures few { AddressFits (address_octets address.now) }
{
    address_laws();
    let _kind = address.type_of_number;
    match &address.symbols {
        Symbols::Digits(digits) => {
            let octets = octets_of_digits(address.type_of_number, address.plan, digits);
            Ok(octets)
        }
        Symbols::Name(_) => written_octets(room, address),
    }
}

/// The octets of a recipient, or none.
#[inline(always)]
fn recipient_octets(
    room: &mut Vec<u8>,
    recipient: Option<&Address>,
) -> Result<Option<AddressOctets>, AllocError>
    ensures value { IfOk result (λ octets. octets
        ≡ option_map address_octets (option_copied recipient.entry)) }
    ensures spelled { OnOk result (IfSome (option_copied recipient.entry) HasSpelling) }
    ensures few { OnOk result (IfSome (option_map address_octets
        (option_copied recipient.entry)) AddressFits) }
{
    match recipient {
        None => Ok(None),
        Some(address) => Ok(Some(octets_of(room, address)?)),
    }
}

/// Which element it is.
fn width_of(width: Width) -> SavedWidth
    ensures { result ≡ saved_width width }
{
    match width {
        Width::Eight => SavedWidth::Eight,
        Width::Sixteen => SavedWidth::Sixteen,
    }
}

/// Which message of a sender it is.
#[inline(always)]
fn message_of(key: &Key) -> Message
    ensures value { result ≡ saved_message key.now }
    ensures fits { MessageFits (saved_message key.now) }
{
    match key {
        Key::Single { stamp, .. } | Key::SingleTo { stamp, .. } => Message::Single {
            stamp: stamp.octets(),
        },
        Key::Segmented {
            width,
            reference,
            maximum,
            ..
        }
        | Key::SegmentedTo {
            width,
            reference,
            maximum,
            ..
        } => Message::Segmented {
            width: width_of(*width),
            reference: *reference,
            maximum: *maximum,
        },
    }
}

/// The key. Those of its addresses that are names are written in this room, one after the other.
#[inline(always)]
pub(crate) fn key_of(room: &mut Vec<u8>, key: &Key) -> Result<SavedKey, AllocError>
    ensures value { IfOk result (λ saved. saved ≡ saved_key key.now) }
    ensures sound { OnOk result (KeyIsSound key.now) }
{
    let origin = octets_of(room, key.origin())?;
    let recipient = recipient_octets(room, key.recipient())?;
    Ok(SavedKey {
        origin,
        recipient,
        message: message_of(key),
    })
}

/// The address that is written as these octets, be it of digits or a name. Few are asked for here,
/// so the way of the others is laid out without it.
#[cold]
#[inline(never)]
fn any_address_from(alloc: Global, octets: &[u8]) -> Result<Option<Address>, AllocError>
    ensures { IfOk result (IsAddressOf octets.now) }
{
    address_laws();
    let Ok((address, _)) = Address::read(alloc, octets) else {
        return Ok(None);
    };
    let _kind = address.type_of_number;
    if is_plain(octets) {
        Ok(Some(address))
    } else {
        Ok(None)
    }
}

/// The address that is written as these octets.
fn address_from(alloc: Global, octets: &[u8]) -> Result<Option<Address>, AllocError>
    ensures { IfOk result (IsAddressOf octets.now) }
{
    match telephone_from(octets) {
        Some(address) => Ok(Some(address)),
        None => any_address_from(alloc, octets),
    }
}

/// Which element it was.
fn width_from(width: SavedWidth) -> Width
    ensures { saved_width result ≡ width }
{
    match width {
        SavedWidth::Eight => Width::Eight,
        SavedWidth::Sixteen => Width::Sixteen,
    }
}

/// The key without a recipient.
#[inline(always)]
fn key_alone(origin: Address, message: Message) -> Key
    ensures origin { origin_of result ≡ origin }
    ensures recipient { recipient_of result ≡ None }
    ensures message { saved_message result ≡ message }
{
    match message {
        Message::Single { stamp } => Key::Single {
            origin,
            stamp: Stamp::new(stamp),
        },
        Message::Segmented {
            width,
            reference,
            maximum,
        } => Key::Segmented {
            origin,
            width: width_from(width),
            reference,
            maximum,
        },
    }
}

/// The key for a recipient.
#[inline(always)]
fn key_to(recipient: Address, origin: Address, message: Message) -> Key
    ensures origin { origin_of result ≡ origin }
    ensures recipient { recipient_of result ≡ Some recipient }
    ensures message { saved_message result ≡ message }
{
    match message {
        Message::Single { stamp } => Key::SingleTo {
            recipient,
            origin,
            stamp: Stamp::new(stamp),
        },
        Message::Segmented {
            width,
            reference,
            maximum,
        } => Key::SegmentedTo {
            recipient,
            origin,
            width: width_from(width),
            reference,
            maximum,
        },
    }
}

/// The key that is saved so; none where the octets of its addresses are none.
#[inline(always)]
pub(crate) fn key_in(alloc: Global, key: KeyView<'_>) -> Result<Option<Key>, AllocError>
    ensures { IfOk result (IsKeyOf (seen_key key.entry)) }
{
    let Some(origin) = address_from(alloc, key.origin)? else {
        return Ok(None);
    };
    let Some(octets) = key.recipient else {
        return Ok(Some(key_alone(origin, key.message)));
    };
    let Some(recipient) = address_from(alloc, octets)? else {
        return Ok(None);
    };
    Ok(Some(key_to(recipient, origin, key.message)))
}

/// The same of a key that owns its octets.
pub(crate) fn key_from(alloc: Global, key: &SavedKey) -> Result<Option<Key>, AllocError>
    ensures { IfOk result (IsKeyOf key.now) }
{
    key_in(alloc, key.as_view())
}
