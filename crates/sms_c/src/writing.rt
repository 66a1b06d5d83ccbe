//! Texts written as user data and as units.

ghost use Rattle.std.specs.Prelude.{◌≡◌, ◌<◌, ◌⊎◌, false, All, Ok, Err, IfOk, IfErr};
ghost use Rattle.std.specs.Str.{chars};
ghost use Rattle.sms_field.specs.Address.Text.{address_of_text};
ghost use Rattle.sms_tpdu.specs.declared.user_data.concat.Width.TheVariants.{Eight};
ghost use Rattle.sms_join.specs.Segments.User.{IsSendable};
ghost use Rattle.sms_join.specs.Segments.{AreSegments};
ghost use Rattle.sms_c.specs.Parts.{bits_of};
ghost use Rattle.sms_c.specs.Writing as seen;
ghost use Rattle.sms_c.specs.WritingFaults.{FitsReference, SaysNoAddress, TakesTooMany};
ghost use Rattle.sms_c.specs.declared.status.Failure.TheVariants.{BadAddress, Memory, OutOfRange, TooLong};

mod deliver;
mod submit;

use crate::class::SPARE;
use crate::status::Failure;
use crate::telephone::telephone_given;
use crate::times::{StampOctets, ValidityOctets};
use sms_field::Address;
use sms_join::{Segments, cut_text};
use sms_tpdu::Width;
use std::alloc::Global;

/// How the segments of a text tell their place.
#[repr(C)]
#[derive(Clone, Copy)]
pub struct Reference {
    /// The bits of the reference, 8 or 16.
    pub width: u16,
    /// The reference, below 256 where it has 8 bits.
    pub reference: u16,
}

/// The width of a reference that it can hold.
pub fn width_of(reference: Reference) -> Result<Width, Failure>
    ensures width { IfOk result (λ width. reference.width ≡ bits_of width) }
    ensures in_range { IfOk result (λ width. width ≡ Eight → reference.reference < 256) }
    ensures fits { IfOk result (λ _. FitsReference reference) }
    ensures unfit { IfErr result (λ why.
        (why ≡ OutOfRange) × (FitsReference reference → ⊥)) }
{
    match reference.width {
        8 if reference.reference < 256 => Ok(Width::Eight),
        16 => Ok(Width::Sixteen),
        _ => Err(Failure::OutOfRange),
    }
}

/// What an SMS-SUBMIT has besides a recipient and a text.
#[repr(C)]
#[derive(Clone, Copy)]
pub struct SubmitFields {
    pub segments: Reference,
    pub reject: u8,
    pub report: u8,
    pub reply: u8,
    /// TP-MR.
    pub reference: u8,
    pub pid: u8,
    pub validity: ValidityOctets,
    /// 0 for none, and 1 to 4 for class 0 to 3 (3GPP TS 23.038, 4).
    pub message_class: u8,
    /// All 0.
    pub spare: [u8; SPARE],
}

/// What an SMS-DELIVER has besides a sender and a text.
#[repr(C)]
#[derive(Clone, Copy)]
pub struct DeliverFields {
    pub segments: Reference,
    pub more: u8,
    pub looped: u8,
    pub report: u8,
    pub reply: u8,
    pub pid: u8,
    pub stamp: StampOctets,
    /// 0 for none, and 1 to 4 for class 0 to 3 (3GPP TS 23.038, 4).
    pub message_class: u8,
    /// All 0.
    pub spare: [u8; SPARE],
}

/// Whether a field that is told as an octet is set.
pub fn is_set(octet: u8) -> bool
    ensures { result ≡ seen.is_set octet }
{
    if octet == 0 { false } else { true }
}

/// The address that a text spells, be it a number or a name.
fn any_address_of(alloc: Global, text: &str) -> Result<Address, Failure>
    ensures address { IfOk result (λ address. address_of_text (chars text.now) ≡ Ok address) }
    ensures none { IfErr result (λ why. (why ≡ Memory)
        ⊎ (why ≡ BadAddress) × SaysNoAddress text.now) }
{
    Ok(Address::from_text(alloc, text)?)
}

/// The address that a text spells.
pub fn address_of(alloc: Global, text: &str) -> Result<Address, Failure>
    ensures address { IfOk result (λ address. address_of_text (chars text.now) ≡ Ok address) }
    ensures none { IfErr result (λ why. (why ≡ Memory)
        ⊎ (why ≡ BadAddress) × SaysNoAddress text.now) }
{
    match telephone_given(text.as_bytes()) {
        Some(address) => Ok(address),
        None => any_address_of(alloc, text),
    }
}

/// The segments of a text, by a reference of this width.
pub fn segments_of(
    alloc: Global,
    text: &str,
    reference: Reference,
    width: Width,
) -> Result<Segments, Failure>
    requires { reference.width ≡ bits_of width }
    ensures segments { IfOk result (AreSegments width (chars text.now)) }
    ensures sendable { IfOk result (All (IsSendable width)) }
    ensures none { IfErr result (λ why. (why ≡ Memory)
        ⊎ (why ≡ TooLong) × TakesTooMany reference text.now) }
{
    Ok(cut_text(alloc, text, width)?)
}
