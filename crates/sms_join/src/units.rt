//! The units of a text: septets of the default alphabet, or 16-bit units.

ghost use Rattle.std.specs.Prelude.{◌≡◌, ◌+◌, ◌-◌, ◌<◌, ◌≤◌, ◌↔◌, [], length, slice_index, IfOk, IsTrue, if◌then◌else◌};
ghost use Rattle.sms_text.specs.Utf16.{units_high_first};
ghost use Rattle.sms_join.specs.declared.units.Units.TheVariants.{Gsm, Ucs2};
ghost use Rattle.sms_join.specs.BodyUnits.{units_of_body};
ghost use Rattle.sms_join.specs.UnitsOfText.{numbers, alphabet_in, begins_pair};
ghost use Rattle.sms_tpdu.specs.UserData.BodySeen.{seen_body};
ghost use Rattle.sms_join.specs.Cut.{room_alone, room_beside};
ghost use Rattle.sms_join.specs.Segments.Value.{seen_units, AreLent};
ghost use Rattle.sms_join.specs.Inside.SegmentsAt.{part_of};

use sms_field::Alphabet;
use sms_text::{ESCAPE, units_of_octets, unpack};
use sms_tpdu::{
    Body, BodyView, Septets, SeptetsView, UnitsView, Width, greatest_length, length_of_header,
};
use std::alloc::{AllocError, Global};
use std::marker::Model;

/// 16-bit units of UCS-2 (3GPP TS 23.038, 6.2.3).
#[derive(Drop)]
pub struct Ucs2Units {
    values: Vec<u16>,
}

impl Model for Ucs2Units {
    ghost use Rattle.std.specs.Prelude.{ℕ, List};

    ghost Value = { List ℕ };

    ghost view = { λ u. u.values.items };
}

impl Ucs2Units {
    /// These 16-bit units, in their order.
    pub fn new(values: Vec<u16>) -> Ucs2Units
        ensures { result ≡ values.items }
    {
        Ucs2Units { values }
    }

    /// The units.
    pub fn as_slice(&self) -> &[u16]
        ensures { result.now ≡ self.now }
    {
        self.values.as_slice()
    }
}

/// The units of a text or of a segment.
#[derive(Drop)]
pub enum Units {
    Gsm(Septets),
    Ucs2(Ucs2Units),
}

/// The septets that lie packed in a unit.
fn septets_of(alloc: Global, septets: &SeptetsView<'_>) -> Result<Units, AllocError>
    ensures { IfOk result (λ units. units ≡ Gsm septets.now) }
{
    let (octets, fill) = septets.packed();
    match unpack(alloc, octets, fill, usize::from(septets.count()))? {
        Some(septets) => Ok(Units::Gsm(Septets::new(septets))),
        None => unreachable!(),
    }
}

/// The 16-bit units of octets.
fn ucs2_of(alloc: Global, octets: &[u8]) -> Result<Units, AllocError>
    ensures { IfOk result (λ units. units ≡ Ucs2 (units_high_first octets.now)) }
{
    let units = units_of_octets(alloc, octets)?;
    Ok(Units::Ucs2(Ucs2Units::new(units)))
}

impl Units {
    /// The units of the body of user data under an alphabet; none where the alphabet is no text's.
    /// Septets are not copied.
    pub fn of_body(
        alloc: Global,
        alphabet: Alphabet,
        body: Body,
    ) -> Result<Option<Units>, AllocError>
        ensures { IfOk result (λ units. units ≡ units_of_body alphabet body) }
    {
        match (alphabet, body) {
            (Alphabet::Gsm7, Body::Septets(septets)) => Ok(Some(Units::Gsm(septets))),
            (Alphabet::Ucs2, Body::Octets(octets)) => Ok(Some(ucs2_of(alloc, octets.as_slice())?)),
            _ => Ok(None),
        }
    }

    /// The same of a body that is seen where it lies.
    pub fn of_body_view(
        alloc: Global,
        alphabet: Alphabet,
        body: &BodyView<'_>,
    ) -> Result<Option<Units>, AllocError>
        ensures { IfOk result (λ units. units ≡ units_of_body alphabet (seen_body body.now)) }
    {
        match (alphabet, body) {
            (Alphabet::Gsm7, BodyView::Septets(septets)) => Ok(Some(septets_of(alloc, septets)?)),
            (Alphabet::Ucs2, BodyView::Octets(octets)) => Ok(Some(ucs2_of(alloc, octets)?)),
            _ => Ok(None),
        }
    }

    /// How many units there are.
    pub fn len(&self) -> usize
        ensures { result ≡ length (numbers self.now) }
    {
        match self {
            Units::Gsm(septets) => septets.as_slice().len(),
            Units::Ucs2(units) => units.as_slice().len(),
        }
    }

    /// Whether there is none.
    pub fn is_empty(&self) -> bool
        ensures { IsTrue result ↔ (numbers self.now ≡ []) }
    {
        match self {
            Units::Gsm(septets) => septets.as_slice().is_empty(),
            Units::Ucs2(units) => units.as_slice().is_empty(),
        }
    }

    /// How many such units a message has room for.
    pub(crate) fn room_alone(&self) -> usize
        ensures { result ≡ room_alone (alphabet_in self.now) }
    {
        match self {
            Units::Gsm(_) => greatest_length(Alphabet::Gsm7),
            Units::Ucs2(_) => greatest_length(Alphabet::Ucs2) / 2,
        }
    }

    /// How many such units a segment has room for beside its header.
    pub(crate) fn room_beside(&self, width: Width) -> usize
        ensures { result ≡ room_beside width (alphabet_in self.now) }
    {
        let header = width.header_octets();
        match self {
            Units::Gsm(_) => {
                greatest_length(Alphabet::Gsm7) - length_of_header(Alphabet::Gsm7, header)
            }
            Units::Ucs2(_) => (greatest_length(Alphabet::Ucs2) - header) / 2,
        }
    }

    /// Whether the unit here begins a pair.
    fn begins_pair(&self, place: usize) -> bool
        requires { place < length (numbers self.now) }
        ensures { result
            ≡ begins_pair (alphabet_in self.now) (slice_index (numbers self.now) place) }
    {
        match self {
            Units::Gsm(septets) => septets.as_slice()[place] == ESCAPE,
            Units::Ucs2(units) => (0xD800..0xDC00).contains(&units.as_slice()[place]),
        }
    }

    /// Where the piece that begins here ends: as far as there is room, and not inside a pair.
    pub(crate) fn piece_end(&self, start: usize, room: usize) -> usize
        requires start { start < length (numbers self.now) }
        requires room { 2 ≤ room }
        ensures last { length (numbers self.now) - start ≤ room
            → result ≡ length (numbers self.now) }
        ensures other { room < length (numbers self.now) - start
            → result ≡ (if begins_pair (alphabet_in self.now)
            (slice_index (numbers self.now) (start + room - 1))
            then start + room - 1 else start + room) }
    {
        if self.len() - start <= room {
            return self.len();
        }
        let end = start + room;
        if self.begins_pair(end - 1) {
            end - 1
        } else {
            end
        }
    }

    /// The units where they lie.
    pub fn view(&self) -> UnitsView<'_>
        ensures same { seen_units result ≡ self.now }
        ensures lent { AreLent result }
    {
        match self {
            Units::Gsm(septets) => UnitsView::Gsm(septets.as_slice()),
            Units::Ucs2(units) => UnitsView::Ucs2(units.as_slice()),
        }
    }

    /// The units from one place up to another, where they lie.
    pub(crate) fn part(&self, start: usize, end: usize) -> UnitsView<'_>
        requires order { start ≤ end }
        requires inside { end ≤ length (numbers self.now) }
        ensures is { seen_units result ≡ part_of self.now start end }
        ensures lent { AreLent result }
    {
        match self {
            Units::Gsm(septets) => UnitsView::Gsm(&septets.as_slice()[start..end]),
            Units::Ucs2(units) => UnitsView::Ucs2(&units.as_slice()[start..end]),
        }
    }

    /// A copy of units that are lent.
    pub(crate) fn copy_of(alloc: Global, units: UnitsView<'_>) -> Result<Units, AllocError>
        requires { AreLent units }
        ensures { IfOk result (λ copy. copy ≡ seen_units units.entry) }
    {
        match units {
            UnitsView::Gsm(septets) => {
                let copy = Vec::from_slice(alloc, septets)?;
                Ok(Units::Gsm(Septets::new(copy)))
            }
            UnitsView::Ucs2(units) => {
                let copy = Vec::from_slice(alloc, units)?;
                Ok(Units::Ucs2(Ucs2Units::new(copy)))
            }
        }
    }
}
