//! One segment of a message.

ghost use Rattle.std.specs.Prelude.{◌≡◌, ◌<◌, ◌≤◌, ◌++◌, ℕ, List, None, Some, IfOk, OnOk, IfSome, MatchOption};
ghost use Rattle.sms_tpdu.specs.declared.user_data.concat.Width.TheVariants.{Eight};
ghost use Rattle.sms_text.specs.Octets.{IsOctets};
ghost use Rattle.sms_text.specs.Utf16.{octets_high_first};
ghost use Rattle.sms_field.specs.Coding.{alphabet_at};
ghost use Rattle.sms_tpdu.specs.Submit.{SpellsSubmit};
ghost use Rattle.sms_tpdu.specs.Submit.Front.{submission_of};
ghost use Rattle.sms_tpdu.specs.UserData.{FitsAlphabet, SpellsUserData, header_octets};
ghost use Rattle.sms_tpdu.specs.UserData.Lent.{place_header, units_body, IsReferenceInRange};
ghost use Rattle.sms_tpdu.specs.UserData.Concatenation.{IsInOrder, IsConcatOf};
ghost use Rattle.sms_join.specs.Segments.User.{IsSendable, HasRange, coding_of, dcs_of, body_of, header_of, user_of, TellsPlace};
ghost use Rattle.sms_join.specs.Segments.Value.{seen_units, AreLent};

use crate::units::Units;
use sms_text::octets_of_units;
use sms_tpdu::{
    Body, Concat, Header, Octets, Septets, SubmitFront, UnitsView, UserData, Width, put_lent,
    write_units,
};
use std::alloc::{AllocError, Global};
use std::marker::Model;

/// A part of a text, and its place: the sequence counts from 1 to the maximum, which is 1 for a
/// text in one piece.
#[derive(Drop)]
pub struct Segment {
    /// What stands after TP-UDH in TP-UD, before it is packed.
    pub units: Units,
    /// The maximum number of short messages in the concatenated short message (3GPP TS 23.040,
    /// 9.2.3.24.1).
    pub maximum: u8,
    /// The sequence number of this short message.
    pub sequence: u8,
}

impl Segment {
    /// The segment where it lies.
    pub fn view(&self) -> SegmentView<'_>
        ensures { result ≡ self.now }
    {
        SegmentView {
            units: self.units.view(),
            maximum: self.maximum,
            sequence: self.sequence,
        }
    }
}

/// A segment whose units are lent. Contracts see it as the segment.
#[derive(Drop)]
pub struct SegmentView<'a> {
    units: UnitsView<'a>,
    maximum: u8,
    sequence: u8,
}

impl<'a> Model for SegmentView<'a> {
    ghost use Rattle.sms_join.specs.declared.segment.Segment.{Segment};
    ghost use Rattle.sms_join.specs.Segments.Value.{seen_units, AreLent};

    ghost Value = { Segment };

    ghost view = { λ s. record {
      units = seen_units s.units;
      maximum = s.maximum;
      sequence = s.sequence;
    } };

    ghost invariant = { λ s. AreLent s.units };
}

/// The units as the body of user data.
fn body_of_units(alloc: Global, units: UnitsView<'_>) -> Result<Body, AllocError>
    requires { AreLent units }
    ensures body { IfOk result (λ body. body ≡ body_of (seen_units units.entry)) }
    ensures range { IfOk result HasRange }
{
    match units {
        UnitsView::Gsm(septets) => {
            let septets = Vec::from_slice(alloc, septets)?;
            Ok(Body::Septets(Septets::new(septets)))
        }
        UnitsView::Ucs2(units) => {
            let octets = octets_of_units(alloc, units)?;
            Ok(Body::Octets(Octets::new(octets)))
        }
    }
}

/// The header with a place, where one is given.
fn header_of_place(alloc: Global, place: Option<Concat>) -> Result<Option<Header>, AllocError>
    requires reference { IfSome place IsReferenceInRange }
    requires order { IfSome place IsInOrder }
    ensures header { IfOk result (λ header. header ≡ place_header place) }
    ensures octets { IfOk result (λ header. IsOctets (header_octets header)) }
    ensures told { IfOk result (λ header. MatchOption place (header ≡ None)
        (λ place. MatchOption header ⊥ (λ header. IsConcatOf header (Some place)))) }
{
    match place {
        Some(place) => Ok(Some(Header::of(alloc, place)?)),
        None => Ok(None),
    }
}

/// Does nothing: its contract says that the octets of 16-bit units are octets.
#[inline(always)]
fn have_octets(_units: &[u16])
    ensures { IsOctets (octets_high_first _units.now) }
{}

/// The same units, of which the octets are known as such.
#[inline(always)]
fn in_range(units: UnitsView<'_>) -> UnitsView<'_>
    requires { AreLent units }
    ensures body { units_body result ≡ body_of (seen_units units.entry) }
    ensures range { HasRange (units_body result) }
{
    match units {
        UnitsView::Gsm(septets) => UnitsView::Gsm(septets),
        UnitsView::Ucs2(units) => {
            have_octets(units);
            UnitsView::Ucs2(units)
        }
    }
}

impl<'a> SegmentView<'a> {
    /// A segment of these units, which are septets where they are lent as septets.
    pub(crate) fn new(units: UnitsView<'a>, maximum: u8, sequence: u8) -> SegmentView<'a>
        requires { AreLent units }
        ensures { result ≡ record {
          units = seen_units units.entry;
          maximum = maximum;
          sequence = sequence;
        } }
    {
        SegmentView {
            units,
            maximum,
            sequence,
        }
    }

    /// The units.
    pub fn units(&self) -> UnitsView<'a>
        ensures { seen_units result ≡ self.now.units }
    {
        self.units
    }

    /// The TP-DCS that tells the alphabet of the units: 00 for septets of the default alphabet, 08
    /// for UCS-2 (3GPP TS 23.038, 4).
    #[tactic(auto, unfolding(sms_field::specs::Coding::alphabet_at))]
    pub fn coding_scheme(&self) -> u8
        ensures dcs { result ≡ dcs_of self.now.units }
        ensures alphabet { alphabet_at result ≡ coding_of self.now.units }
    {
        match self.units {
            UnitsView::Gsm(_) => 0x00,
            UnitsView::Ucs2(_) => 0x08,
        }
    }

    /// How many segments the message has.
    pub fn maximum(&self) -> u8
        ensures { result ≡ self.now.maximum }
    {
        self.maximum
    }

    /// Which of them this is, from 1 on.
    pub fn sequence(&self) -> u8
        ensures { result ≡ self.now.sequence }
    {
        self.sequence
    }

    /// The place of the segment, where it is one of several.
    fn place(&self, width: Width, reference: u16) -> Option<Concat>
        requires reference { width ≡ Eight → reference < 256 }
        requires first { 1 ≤ self.now.sequence }
        requires last { self.now.sequence ≤ self.now.maximum }
        ensures header { place_header result
            ≡ header_of width reference self.now.maximum self.now.sequence }
        ensures reference { IfSome result IsReferenceInRange }
        ensures octets { IsOctets (header_octets (place_header result)) }
        ensures order { IfSome result IsInOrder }
        ensures place { MatchOption result (self.now.maximum ≡ 1) (λ place. place ≡ record {
          width = width;
          reference = reference;
          maximum = self.now.maximum;
          sequence = self.now.sequence;
        }) }
    {
        if self.maximum == 1 {
            return None;
        }
        Some(Concat {
            width,
            reference,
            maximum: self.maximum,
            sequence: self.sequence,
        })
    }

    /// The user data of the segment: its units after a header with its place, or its units alone
    /// where it is the only one (3GPP TS 23.040, 9.2.3.24.1 and 9.2.3.24.8).
    ///
    /// All segments of a message have one reference, which is below 256 with `Width::Eight`.
    pub fn user(&self, alloc: Global, width: Width, reference: u16) -> Result<UserData, AllocError>
        requires sendable { IsSendable width self.now }
        requires reference { width ≡ Eight → reference < 256 }
        ensures user { IfOk result (λ user. user ≡ user_of width reference self.now) }
        ensures told { IfOk result (λ user.
            TellsPlace width reference self.now.maximum self.now.sequence user.header) }
        ensures fits { IfOk result (FitsAlphabet (coding_of self.now.units)) }
    {
        let body = body_of_units(alloc, self.units)?;
        let header = header_of_place(alloc, self.place(width, reference))?;
        Ok(UserData { header, body })
    }

    /// The octets of the user data of the segment, written straight from its units.
    pub fn write_user(
        &self,
        alloc: Global,
        width: Width,
        reference: u16,
    ) -> Result<Vec<u8>, AllocError>
        requires sendable { IsSendable width self.now }
        requires reference { width ≡ Eight → reference < 256 }
        ensures { IfOk result (λ octets.
            SpellsUserData (user_of width reference self.now) octets.items) }
    {
        write_units(alloc, self.place(width, reference), self.units)
    }

    /// Adds the octets of the user data of the segment.
    pub(crate) fn put_user(
        &self,
        out: &mut Vec<u8>,
        width: Width,
        reference: u16,
    ) -> Result<(), AllocError>
        requires sendable { IsSendable width self.now }
        requires reference { width ≡ Eight → reference < 256 }
        ensures { OnOk result ((written : List ℕ)
            × SpellsUserData (user_of width reference self.now) written
            × (out.new.items ≡ out.old.items ++ written)) }
    {
        put_lent(out, self.place(width, reference), self.units)
    }

    /// The octets of the SMS-SUBMIT with these fields that carries the segment, written straight
    /// from its units. TP-DCS is that of `coding_scheme`, or another of the same alphabet.
    pub fn write_submit(
        &self,
        alloc: Global,
        front: &SubmitFront,
        width: Width,
        reference: u16,
    ) -> Result<Vec<u8>, AllocError>
        requires sendable { IsSendable width self.now }
        requires reference { width ≡ Eight → reference < 256 }
        requires alphabet { alphabet_at front.now.dcs ≡ coding_of self.now.units }
        ensures { IfOk result (λ octets. SpellsSubmit
            (submission_of front.now (user_of width reference self.now)) octets.items) }
    {
        self.write_submit_in(Vec::new(alloc), front, width, reference)
    }

    /// The octets of the SMS-SUBMIT with these fields that carries the segment, as `write_submit`
    /// has them, written in the room of a list: whatever stood in it is gone.
    pub fn write_submit_in(
        &self,
        room: Vec<u8>,
        front: &SubmitFront,
        width: Width,
        reference: u16,
    ) -> Result<Vec<u8>, AllocError>
        requires sendable { IsSendable width self.now }
        requires reference { width ≡ Eight → reference < 256 }
        requires alphabet { alphabet_at front.now.dcs ≡ coding_of self.now.units }
        ensures { IfOk result (λ octets. SpellsSubmit
            (submission_of front.now (user_of width reference self.now)) octets.items) }
    {
        let place = self.place(width, reference);
        front.write_with_in(room, place, in_range(self.units))
    }

    /// The segment itself, with a copy of the units.
    pub fn to_value(&self, alloc: Global) -> Result<Segment, AllocError>
        ensures { IfOk result (λ segment. segment ≡ self.now) }
    {
        Ok(Segment {
            units: Units::copy_of(alloc, self.units)?,
            maximum: self.maximum,
            sequence: self.sequence,
        })
    }
}

/// The user data of a segment: its units after a header with its place, or its units alone where it
/// is the only one (3GPP TS 23.040, 9.2.3.24.1 and 9.2.3.24.8).
///
/// All segments of a message have one reference, which is below 256 with `Width::Eight`.
pub fn segment_user(
    alloc: Global,
    segment: &Segment,
    width: Width,
    reference: u16,
) -> Result<UserData, AllocError>
    requires sendable { IsSendable width segment.now }
    requires reference { width ≡ Eight → reference < 256 }
    ensures user { IfOk result (λ user. user ≡ user_of width reference segment.now) }
    ensures told { IfOk result (λ user.
        TellsPlace width reference segment.now.maximum segment.now.sequence user.header) }
    ensures fits { IfOk result (FitsAlphabet (coding_of segment.now.units)) }
{
    segment.view().user(alloc, width, reference)
}
