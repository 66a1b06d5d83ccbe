//! User data seen in a unit's octets: a header, and septets or octets.

ghost use Rattle.std.specs.Prelude.{true, false, ◌≡◌, ◌+◌, ◌-◌, ◌≤◌, ℕ, List, length, Some, None, IfOk, option_map};
ghost use Rattle.sms_field.specs.Reading.Answer.{Sees};
ghost use Rattle.sms_tpdu.specs.UserData as formats;
ghost use Rattle.sms_tpdu.specs.UserData.{FitsAlphabet, header_octets, body_of, user_data, length_in};
ghost use Rattle.sms_tpdu.specs.UserData.Lengths as lengths;
ghost use Rattle.sms_tpdu.specs.UserData.ConcatenationFound.{IsPlace, concat_of_header};
ghost use Rattle.sms_tpdu.specs.Inside.UserDataSeen.{user_data_in};
ghost use Rattle.sms_tpdu.specs.UserData.Spans.{body_count, fill_of, span_of, spans_before};

pub mod alone;
pub mod body;
pub mod header;
mod languages;
pub mod singles;

use crate::fault::UnitFault;
use crate::user_data::UserData;
use crate::user_data::concat::Concat;
use crate::user_data::lengths::{fill_bits, greatest_length, length_of_header, octets_of_length};
use crate::user_data::spans::UserSpans;
use crate::user_data::view::body::{BodyView, SeptetsView, body_from};
use crate::user_data::view::header::HeaderView;
use crate::view::View;
use sms_field::{Alphabet, Cursor, Fault, Span};
use std::alloc::{AllocError, Global};
use std::marker::Model;

/// User data that lie in a unit's octets. Contracts see them as the user data.
#[derive(Drop)]
pub struct UserDataView<'a> {
    header: Option<HeaderView<'a>>,
    alphabet: Alphabet,
    /// Septets under the 7-bit alphabet, else octets; those of the header too.
    count: u8,
    /// The bits before the first septet.
    fill: u8,
    /// Septets or octets after the header.
    left: u8,
    /// After the header.
    octets: &'a [u8],
}

impl<'a> Model for UserDataView<'a> {
    ghost use Rattle.sms_tpdu.specs.declared.user_data.UserData.{UserData};
    ghost use Rattle.sms_tpdu.specs.Inside.UserDataSeen.{user_data_in, IsUserDataIn};

    ghost Value = { UserData };

    ghost view = { λ u. user_data_in u.header u.alphabet u.count u.octets.now };

    ghost invariant = { λ u. IsUserDataIn u.header u.alphabet u.count u.octets.now u.fill u.left };
}

/// User data without a header, of a length.
fn body_seen<'a>(alphabet: Alphabet, count: u8, octets: &'a [u8]) -> UserDataView<'a>
    requires few { count ≤ lengths.greatest_length alphabet }
    requires whole { length octets.now ≡ lengths.octets_of_length alphabet count }
    ensures is { result ≡ user_data_in None alphabet count octets.now }
    ensures fits { FitsAlphabet alphabet result }
{
    UserDataView {
        header: None,
        alphabet,
        count,
        fill: 0,
        left: count,
        octets,
    }
}

/// User data with a header, of a length.
fn header_and_body_seen<'a>(
    header: &'a [u8],
    alphabet: Alphabet,
    count: u8,
    octets: &'a [u8],
) -> UserDataView<'a>
    requires few { count ≤ lengths.greatest_length alphabet }
    requires room { lengths.length_of_header alphabet (length header.now + 1) ≤ count }
    requires whole { length octets.now ≡
        lengths.octets_of_length alphabet count - (length header.now + 1) }
    ensures is { result ≡ user_data_in (Some header.now) alphabet count octets.now }
    ensures fits { FitsAlphabet alphabet result }
{
    let taken = header.len() + 1;
    UserDataView {
        header: Some(HeaderView::new(header)),
        alphabet,
        count,
        fill: fill_after(alphabet, taken),
        left: (usize::from(count) - length_of_header(alphabet, taken)) as u8,
        octets,
    }
}

/// The bits between the octets of a header and the first septet; 0 where octets follow.
#[inline(always)]
fn fill_after(alphabet: Alphabet, octets: usize) -> u8
    requires { octets ≤ 256 }
    ensures { (count : ℕ) (body : List ℕ)
        → result ≡ fill_of octets (body_of alphabet octets count body) }
{
    match alphabet {
        Alphabet::Gsm7 => fill_bits(octets),
        _ => 0,
    }
}

/// The length of user data with a header.
fn length_with_header(alphabet: Alphabet, count: u8) -> Result<u8, UnitFault>
    ensures few { IfOk result (λ count. count ≤ lengths.greatest_length alphabet) }
    ensures is { result ≡ formats.length_with_header alphabet count }
{
    if count as usize > greatest_length(alphabet) {
        return Err(UnitFault::DataTooLong);
    }
    if length_of_header(alphabet, 1) > count as usize {
        return Err(UnitFault::HeaderTooLong);
    }
    Ok(count)
}

/// The length octet of a header, in user data of a length.
fn header_length(alphabet: Alphabet, count: u8, size: u8) -> Result<u8, UnitFault>
    ensures room { IfOk result (λ size. lengths.length_of_header alphabet (size + 1) ≤ count) }
    ensures is { result ≡ formats.header_length alphabet count size }
{
    if length_of_header(alphabet, size as usize + 1) > count as usize {
        return Err(UnitFault::HeaderTooLong);
    }
    Ok(size)
}

/// User data without a header.
#[inline(always)]
#[tactic(auto, unfolding(crate::specs::UserData::user_data))]
fn body_seen_at<'a>(
    input: &mut Cursor<'a>,
    alphabet: Alphabet,
) -> Result<UserDataView<'a>, Fault<UnitFault>>
    ensures fits { IfOk result (FitsAlphabet alphabet) }
    ensures read { Sees (user_data false alphabet) input.old result input.new }
{
    let greatest = greatest_length(alphabet) as u8;
    let count = input.take_octet_up_to(greatest, UnitFault::DataTooLong)?;
    let octets = input.take_octets(octets_of_length(alphabet, count))?;
    Ok(body_seen(alphabet, count, octets))
}

/// User data with a header.
#[inline(always)]
#[tactic(auto, unfolding(crate::specs::UserData::user_data))]
fn header_and_body_seen_at<'a>(
    input: &mut Cursor<'a>,
    alphabet: Alphabet,
) -> Result<UserDataView<'a>, Fault<UnitFault>>
    ensures fits { IfOk result (FitsAlphabet alphabet) }
    ensures read { Sees (user_data true alphabet) input.old result input.new }
{
    let count = input.take_octet_by(|count| length_with_header(alphabet, count))?;
    let size = input.take_octet_by(|size| header_length(alphabet, count, size))?;
    let header = input.take_octets(usize::from(size))?;
    let octets = input.take_octets(octets_of_length(alphabet, count) - (usize::from(size) + 1))?;
    Ok(header_and_body_seen(header, alphabet, count, octets))
}

/// Where a header lies, which ends before a place.
fn header_span(header: &Option<HeaderView>, end: usize) -> Option<Span>
    ensures { result ≡ option_map (λ h. span_of (end - length h) (length h)) header.now }
{
    let length = header.as_ref()?.as_slice().len();
    Some(Span {
        offset: end.saturating_sub(length),
        length,
    })
}

impl<'a> UserDataView<'a> {
    ghost use Rattle.sms_tpdu.specs.UserData.BodySeen.{seen_body};

    /// Sees user data, with a header or without, at a cursor.
    #[inline(always)]
    pub fn read_at(
        input: &mut Cursor<'a>,
        with_header: bool,
        alphabet: Alphabet,
    ) -> Result<UserDataView<'a>, Fault<UnitFault>>
        ensures fits { IfOk result (FitsAlphabet alphabet) }
        ensures read { Sees (user_data with_header alphabet) input.old result input.new }
    {
        if with_header {
            header_and_body_seen_at(input, alphabet)
        } else {
            body_seen_at(input, alphabet)
        }
    }

    /// How many octets the header takes, with its length octet; 0 where there is none.
    fn taken(&self) -> usize
        ensures { result ≡ length (header_octets self.now.header) }
    {
        match &self.header {
            Some(header) => header.as_slice().len() + 1,
            None => 0,
        }
    }

    /// The user data themselves.
    pub fn to_value(&self, alloc: Global) -> Result<UserData, AllocError>
        ensures { IfOk result (λ user. user ≡ self.now) }
    {
        let body = body_from(alloc, self.alphabet, self.taken(), self.count, self.octets)?;
        let header = match &self.header {
            Some(header) => Some(header.to_value(alloc)?),
            None => None,
        };
        Ok(UserData { header, body })
    }

    /// TP-UDL: how many septets there are under the 7-bit alphabet, else how many octets. A header
    /// counts too.
    pub fn length(&self) -> u8
        ensures { result ≡ length_in self.now }
    {
        self.count
    }

    /// The header, where there is one.
    pub fn header(&self) -> &Option<HeaderView<'a>>
        ensures { result.now ≡ self.now.header }
    {
        &self.header
    }

    /// The place of a segment that the header tells, if there is one and it tells one.
    pub fn concat(&self) -> Option<Concat>
        ensures value { result ≡ concat_of_header self.now.header }
        ensures in_range { IsPlace result }
    {
        match &self.header {
            Some(header) => header.concat(),
            None => None,
        }
    }

    /// The body where it lies.
    pub fn body(&self) -> BodyView<'a>
        ensures { seen_body result ≡ self.now.body }
    {
        match self.alphabet {
            Alphabet::Gsm7 => BodyView::Septets(SeptetsView {
                octets: self.octets,
                fill: self.fill,
                count: self.left,
            }),
            _ => BodyView::Octets(self.octets),
        }
    }

    /// How many septets or octets the body has.
    pub fn body_count(&self) -> u8
        ensures { result ≡ body_count self.now.body }
    {
        self.left
    }

    /// Where header and body lie in the octets of which these user data were read, which end before
    /// a place.
    pub fn spans(&self, end: usize) -> UserSpans
        ensures { result ≡ spans_before end self.now }
    {
        let length = self.octets.len();
        let offset = end.saturating_sub(length);
        UserSpans {
            header: header_span(&self.header, offset),
            body: Span { offset, length },
            fill: self.fill,
        }
    }
}
