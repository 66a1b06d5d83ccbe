//! User data written into a unit: their length, a header, and a body.

ghost use Rattle.std.specs.Prelude.{◌≡◌, ◌≤◌, ◌+◌, ◌++◌, ◌∷◌, ◌^◌, Some, List, ℕ, length, IfOk, IfSome, OnOk};
ghost use Rattle.sms_field.specs.declared.coding.Alphabet.{Alphabet};
ghost use Rattle.sms_field.specs.declared.coding.Alphabet.TheVariants.{Gsm7};
ghost use Rattle.sms_tpdu.specs.UserData.{header_octets, FitsAlphabet, SpellsBody, SpellsUserData};
ghost use Rattle.sms_tpdu.specs.UserData.Lengths as lengths;
ghost use Rattle.sms_tpdu.specs.UserData.Alone.{SpellsAlone};
ghost use Rattle.sms_tpdu.specs.UserData.Singles.{single_octets};
ghost use Rattle.sms_tpdu.specs.UserData.Lent.{place_header, units_body, user_after, SeptetsHaveRoom, Ucs2HaveRoom, HasRoom, IsReferenceInRange};
ghost use Rattle.sms_tpdu.specs.declared.user_data.body.Body.TheVariants as body;
ghost use Rattle.sms_text.specs.Bits.{AreSeptets};
ghost use Rattle.sms_text.specs.Utf16.{octets_high_first};

use crate::user_data::UserData;
use crate::user_data::body::Body;
use crate::user_data::concat::{Concat, Width};
use crate::user_data::header::Header;
use crate::user_data::lengths::{OCTETS_MAX, SEPTETS_MAX, fill_bits, length_of_header};
use crate::user_data::lent::UnitsView;
use sms_field::Alphabet;
use sms_text::{pack_into, put_units, room_for_septets};
use std::alloc::{AllocError, Global};

/// How many octets a header has, with its length octet; 0 where there is none.
fn octets_taken(header: &Option<Header>) -> usize
    ensures is { result ≡ length (header_octets header.now) }
    ensures few { result ≤ OCTETS_MAX }
{
    match header {
        Some(header) => header.as_slice().len() + 1,
        None => 0,
    }
}

/// Room for a body, whatever stands before it.
fn room_for_body(body: &Body) -> usize
    ensures enough { (taken : ℕ) (written : List ℕ) →
        SpellsBody taken body.now written → length written ≤ result }
    ensures few { result ≤ 2 ^ 63 }
{
    match body {
        Body::Septets(septets) => { room_for_septets(septets.as_slice().len()) }
        Body::Octets(octets) => octets.as_slice().len(),
    }
}

/// Room for user data, with their length before them.
pub fn room_for_user_data(user: &UserData) -> usize
    ensures { (octets : List ℕ) → SpellsUserData user.now octets → length octets ≤ result }
{
    1 + octets_taken(&user.header) + room_for_body(&user.body)
}

/// The length of user data with septets after the octets of a header.
fn length_of_septets(taken: usize, septets: &[u8]) -> u8
    requires { lengths.length_of_header Gsm7 taken + length septets.now ≤ SEPTETS_MAX }
    ensures { result ≡ lengths.length_of_header Gsm7 taken + length septets.now }
{
    (length_of_header(Alphabet::Gsm7, taken) + septets.len()) as u8
}

/// Adds a header, with its length octet, where there is one.
fn put_header(out: &mut Vec<u8>, header: &Option<Header>) -> Result<(), AllocError>
    ensures { OnOk result (out.new.items ≡ out.old.items ++ header_octets header.now) }
{
    if let Some(header) = header {
        let octets = header.as_slice();
        out.push(octets.len() as u8)?;
        out.extend_from_slice(octets)?;
    }
    Ok(())
}

/// Adds septets after the octets of a header, with the fill bits between them.
fn put_septets(out: &mut Vec<u8>, taken: usize, septets: &[u8]) -> Result<(), AllocError>
    requires few { taken ≤ 256 }
    requires septets { AreSeptets septets.now }
    ensures { OnOk result ((packed : List ℕ) × SpellsBody taken (body.Septets septets.now) packed
        × (out.new.items ≡ out.old.items ++ packed)) }
{
    pack_into(out, septets, fill_bits(taken))
}

/// Adds user data, with their length before them.
pub fn put_user_data(out: &mut Vec<u8>, user: &UserData) -> Result<(), AllocError>
    requires { (alphabet : Alphabet) × FitsAlphabet alphabet user.now }
    ensures { OnOk result ((written : List ℕ) × SpellsUserData user.now written ×
        (out.new.items ≡ out.old.items ++ written)) }
{
    let taken = octets_taken(&user.header);
    match &user.body {
        Body::Septets(septets) => {
            let septets = septets.as_slice();
            out.push(length_of_septets(taken, septets))?;
            put_header(out, &user.header)?;
            put_septets(out, taken, septets)?;
        }
        Body::Octets(octets) => {
            let octets = octets.as_slice();
            out.push((taken + octets.len()) as u8)?;
            put_header(out, &user.header)?;
            out.extend_from_slice(octets)?;
        }
    }
    Ok(())
}

/// How many octets the header of a place has, with its length octet; 0 where no place is given.
fn octets_of_place(place: Option<Concat>) -> usize
    ensures { result ≡ length (header_octets (place_header place)) }
{
    match place {
        Some(place) => place.width.header_octets(),
        None => 0,
    }
}

/// Adds the length of user data and the header of a place, with its length octet.
fn put_count_and_place(out: &mut Vec<u8>, count: u8, place: Concat) -> Result<(), AllocError>
    requires { IsReferenceInRange place }
    ensures { OnOk result
        (out.new.items ≡ out.old.items ++ count ∷ header_octets (place_header (Some place))) }
{
    let (reference, maximum, sequence) = (place.reference, place.maximum, place.sequence);
    match place.width {
        Width::Eight => {
            out.extend_from_slice(&[count, 5, 0, 3, reference as u8, maximum, sequence])
        }
        Width::Sixteen => out.extend_from_slice(&[
            count,
            6,
            8,
            4,
            (reference / 256) as u8,
            (reference % 256) as u8,
            maximum,
            sequence,
        ]),
    }
}

/// Adds the length of user data, and the header of a place, where a place is given.
fn put_count(out: &mut Vec<u8>, count: u8, place: Option<Concat>) -> Result<(), AllocError>
    requires { IfSome place IsReferenceInRange }
    ensures { OnOk result
        (out.new.items ≡ out.old.items ++ count ∷ header_octets (place_header place)) }
{
    match place {
        Some(place) => put_count_and_place(out, count, place),
        None => {
            out.push(count)?;
            Ok(())
        }
    }
}

/// Room for user data whose units are lent, with their length before them.
pub fn room_for_units(place: Option<Concat>, units: UnitsView<'_>) -> usize
    requires { HasRoom (length (header_octets (place_header place))) units }
    ensures { result ≤ 2 ^ 63 }
{
    let data = match units {
        UnitsView::Gsm(septets) => room_for_septets(septets.len()),
        UnitsView::Ucs2(units) => 2 * units.len(),
    };
    1 + octets_of_place(place) + data
}

/// Adds user data with septets that are lent, with their length before them.
fn put_lent_septets(
    out: &mut Vec<u8>,
    place: Option<Concat>,
    septets: &[u8],
) -> Result<(), AllocError>
    requires reference { IfSome place IsReferenceInRange }
    requires room { SeptetsHaveRoom (length (header_octets (place_header place))) septets.now }
    ensures { OnOk result ((written : List ℕ)
        × SpellsUserData (user_after place (body.Septets septets.now)) written
        × (out.new.items ≡ out.old.items ++ written)) }
{
    let taken = octets_of_place(place);
    put_count(out, length_of_septets(taken, septets), place)?;
    put_septets(out, taken, septets)
}

/// Adds user data with 16-bit units that are lent, with their length before them.
fn put_lent_ucs2(out: &mut Vec<u8>, place: Option<Concat>, units: &[u16]) -> Result<(), AllocError>
    requires reference { IfSome place IsReferenceInRange }
    requires room { Ucs2HaveRoom (length (header_octets (place_header place))) units.now }
    ensures { OnOk result ((written : List ℕ)
        × SpellsUserData (user_after place (body.Octets (octets_high_first units.now))) written
        × (out.new.items ≡ out.old.items ++ written)) }
{
    let count = octets_of_place(place) + 2 * units.len();
    put_count(out, count as u8, place)?;
    put_units(out, units)?;
    Ok(())
}

/// Adds user data whose units are lent, with their length before them.
pub fn put_lent(
    out: &mut Vec<u8>,
    place: Option<Concat>,
    units: UnitsView<'_>,
) -> Result<(), AllocError>
    requires reference { IfSome place IsReferenceInRange }
    requires room { HasRoom (length (header_octets (place_header place))) units }
    ensures { OnOk result ((written : List ℕ)
        × SpellsUserData (user_after place (units_body units.entry)) written
        × (out.new.items ≡ out.old.items ++ written)) }
{
    match units {
        UnitsView::Gsm(septets) => put_lent_septets(out, place, septets),
        UnitsView::Ucs2(units) => put_lent_ucs2(out, place, units),
    }
}

/// The octets of user data whose units are lent: their length, the header of the place, where one
/// is given, and the units packed straight after it (3GPP TS 23.040, 9.2.3.24.1 and 9.2.3.24.8).
///
/// They have at most 160 septets, those that the header takes among them, or 140 octets. With
/// `Width::Eight` the reference is below 256.
pub fn write_units(
    alloc: Global,
    place: Option<Concat>,
    units: UnitsView<'_>,
) -> Result<Vec<u8>, AllocError>
    requires reference { IfSome place IsReferenceInRange }
    requires room { HasRoom (length (header_octets (place_header place))) units }
    ensures { IfOk result (λ octets. SpellsUserData
        (user_after place (units_body units.entry)) octets.items) }
{
    let mut out = Vec::with_capacity(alloc, room_for_units(place, units))?;
    put_lent(&mut out, place, units)?;
    Ok(out)
}

impl UserData {
    /// The octets of the user data in a unit: their length, TP-UDL, and then the data, TP-UD (TS
    /// 23.040, 9.2.3.16 and 9.2.3.24).
    ///
    /// They have at most 160 septets, those that the header takes among them, or 140 octets.
    pub fn write(&self, alloc: Global) -> Result<Vec<u8>, AllocError>
        requires { (alphabet : Alphabet) × FitsAlphabet alphabet self.now }
        ensures { IfOk result (λ octets. SpellsUserData self.now octets.items) }
    {
        let mut octets = Vec::with_capacity(alloc, room_for_user_data(self))?;
        put_user_data(&mut octets, self)?;
        Ok(octets)
    }
}

impl UserData {
    /// The octets of the user data alone, with no length before them: the header, and the septets
    /// packed or the octets.
    pub fn write_alone(&self, alloc: Global) -> Result<Vec<u8>, AllocError>
        requires { (alphabet : Alphabet) × FitsAlphabet alphabet self.now }
        ensures { IfOk result (λ octets. SpellsAlone self.now octets.items) }
    {
        let mut out = Vec::with_capacity(alloc, room_for_user_data(self))?;
        let taken = octets_taken(&self.header);
        put_header(&mut out, &self.header)?;
        match &self.body {
            Body::Septets(septets) => put_septets(&mut out, taken, septets.as_slice())?,
            Body::Octets(octets) => out.extend_from_slice(octets.as_slice())?,
        }
        Ok(out)
    }

    /// The octets of the user data alone, with no length before them: the header, and the septets
    /// one an octet, with no fill bits.
    pub fn write_singles(&self, alloc: Global) -> Result<Vec<u8>, AllocError>
        requires { FitsAlphabet Gsm7 self.now }
        ensures { IfOk result (λ octets. octets.items ≡ single_octets self.now) }
    {
        let mut out = Vec::with_capacity(alloc, OCTETS_MAX + SEPTETS_MAX)?;
        put_header(&mut out, &self.header)?;
        if let Body::Septets(septets) = &self.body {
            out.extend_from_slice(septets.as_slice())?;
        }
        Ok(out)
    }
}
