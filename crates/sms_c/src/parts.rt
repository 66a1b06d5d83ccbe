//! What C sees of the parts of a unit: values, and where the rest lies in the caller's octets.

ghost use Rattle.std.specs.Prelude.{◌≡◌, ◌<◌, length, None, is_some, IfSome};
ghost use Rattle.sms_c.specs.Fitting.{EndsBeyond, EndsWithin};
ghost use Rattle.sms_c.specs.Parts as seen;
ghost use Rattle.sms_c.specs.Parts.{ShowsUser};

use sms_field::{AddressView, Alphabet, alphabet_of};
use sms_tpdu::{Concat, HeaderView, UserDataView, UserSpans, Width};

/// Octets in the caller's octets.
#[repr(C)]
#[derive(Clone, Copy)]
pub struct Span {
    pub offset: usize,
    pub length: usize,
}

impl Span {
    /// No octets.
    pub const NONE: Span = Span {
        offset: 0,
        length: 0,
    };

    /// The octets of a span; none where it does not lie in them.
    pub fn of(self, octets: &[u8]) -> Option<&[u8]>
        ensures octets { IfSome result (λ part. part.now ≡ seen.octets_at octets.now self) }
        ensures within { IfSome result (λ part. (length part.now ≡ self.length)
            × EndsWithin octets.now self) }
        ensures beyond { result ≡ None → EndsBeyond octets.now self }
    {
        let end = self.offset.checked_add(self.length)?;
        if end > octets.len() {
            return None;
        }
        Some(&octets[self.offset..][..self.length])
    }

    /// Where a part lies.
    pub fn at(part: sms_field::Span) -> Span
        ensures { result ≡ seen.span_at part }
    {
        Span {
            offset: part.offset,
            length: part.length,
        }
    }
}

/// An address of the transfer layer, and where its octets lie.
#[repr(C)]
#[derive(Clone, Copy)]
pub struct AddressSeen {
    pub octets: Span,
    pub type_of_number: u8,
    pub plan: u8,
}

/// The place of a segment in its message.
#[repr(C)]
#[derive(Clone, Copy)]
pub struct Place {
    /// The bits of the reference, 8 or 16; 0 where there is no place.
    pub width: u16,
    pub reference: u16,
    pub maximum: u8,
    pub sequence: u8,
}

impl Place {
    /// No place.
    pub const NONE: Place = Place {
        width: 0,
        reference: 0,
        maximum: 0,
        sequence: 0,
    };
}

/// User data, and where their header and what stands after it lie.
#[repr(C)]
#[derive(Clone, Copy)]
pub struct UserSeen {
    /// The header's octets after its length octet.
    pub header: Span,
    /// What stands after the header.
    pub body: Span,
    /// The place of the segment that the header tells.
    pub place: Place,
    /// TP-UDL.
    pub length: u8,
    /// The number of the alphabet.
    pub alphabet: u8,
    /// Whether there is a header: 0 or 1.
    pub has_header: u8,
    /// The bits of the body before its first septet, 0 to 6; 0 where there are octets.
    pub fill: u8,
    /// The septets of the body, or its octets.
    pub count: u8,
}

/// 1 for what is so, and 0 for what is not.
pub fn bit(yes: bool) -> u8
    ensures { result ≡ seen.bit yes }
{
    if yes { 1 } else { 0 }
}

/// The number of an alphabet.
pub fn alphabet_number(alphabet: Alphabet) -> u8
    ensures { result ≡ seen.alphabet_number alphabet }
{
    match alphabet {
        Alphabet::Gsm7 => 0,
        Alphabet::EightBit => 1,
        Alphabet::Ucs2 => 2,
        Alphabet::Compressed => 3,
    }
}

/// The address that lies at a span.
pub fn address_seen(view: &AddressView, span: sms_field::Span) -> AddressSeen
    ensures kind { result.type_of_number ≡ view.now.kind }
    ensures plan { result.plan ≡ view.now.plan }
    ensures octets { result.octets ≡ seen.span_at span }
{
    AddressSeen {
        octets: Span::at(span),
        type_of_number: view.type_of_number(),
        plan: view.plan(),
    }
}

/// Where a part lies that may be there.
pub fn some_span(span: Option<sms_field::Span>) -> Span
    ensures { result ≡ seen.span_if span }
{
    match span {
        Some(span) => Span::at(span),
        None => Span::NONE,
    }
}

/// 1 where there is a header, and 0 where there is none.
fn has_header(header: &Option<HeaderView>) -> u8
    ensures { result ≡ seen.bit (is_some header.now) }
{
    match header {
        Some(_) => 1,
        None => 0,
    }
}

/// The place of a segment.
pub fn place_seen(place: Option<Concat>) -> Place
    ensures { result ≡ seen.place_seen place }
{
    let Some(place) = place else {
        return Place::NONE;
    };
    let width = match place.width {
        Width::Eight => 8,
        Width::Sixteen => 16,
    };
    Place {
        width,
        reference: place.reference,
        maximum: place.maximum,
        sequence: place.sequence,
    }
}

/// User data that lie at these spans.
#[inline(always)]
pub fn user_seen(user: &UserDataView, dcs: u8, spans: UserSpans) -> UserSeen
    ensures { ShowsUser user.now dcs spans result }
{
    UserSeen {
        header: some_span(spans.header),
        body: Span::at(spans.body),
        place: place_seen(user.concat()),
        length: user.length(),
        alphabet: alphabet_number(alphabet_of(dcs)),
        has_header: has_header(user.header()),
        fill: spans.fill,
        count: user.body_count(),
    }
}
