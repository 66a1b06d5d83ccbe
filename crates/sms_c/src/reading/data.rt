//! User data alone, with no unit around them.

ghost use Rattle.std.specs.Prelude.{◌≡◌, ◌<◌, ◌⊎◌, ◌↔◌, false, true, is_some};
ghost use Rattle.sms_tpdu.specs.UserData.ConcatenationFound.{concat_of_header};
ghost use Rattle.sms_tpdu.specs.declared.user_data.UserData.{UserData};
ghost use Rattle.sms_c.specs.DataAlone as seen;
ghost use Rattle.sms_c.specs.DataAlone.{ReadsData, ReadsPacked, ReadsSingles, RefusesData, RefusesPacked, RefusesSingles, ShowsBy, ShowsData};
ghost use Rattle.sms_c.specs.Parts.{place_seen as place_shown, span_if};

use crate::class::{SPARE, are_spare};
use crate::parts::{Place, Span, alphabet_number, bit, place_seen, some_span};
use crate::status::{Failure, OK, Refused, data_refused, unit_refused};
use crate::writing::is_set;
use sms_field::{Alphabet, alphabet_of};
use sms_tpdu::{Length, SinglesView, UserDataView};

/// All the octets; septets packed, as many as fit whole.
const WHOLE: u8 = 0;
/// As many as are counted, septets packed.
const COUNTED: u8 = 1;
/// All the octets; septets one an octet.
const SINGLE: u8 = 2;

/// How user data alone stand.
#[repr(C)]
#[derive(Clone, Copy)]
pub struct DataForm {
    /// TP-DCS.
    pub dcs: u8,
    /// Whether a header stands in front, its length octet first: 0 is no, all else yes.
    pub has_header: u8,
    /// One of the numbers above.
    pub standing: u8,
    /// TP-UDL, where it is told, and else 0.
    pub length: u8,
    /// Whether septets are read by the national language tables that the header tells.
    pub languages: u8,
    /// All 0.
    pub spare: [u8; SPARE],
}

/// User data alone, and where their parts lie.
#[repr(C)]
#[derive(Clone, Copy)]
pub struct DataSeen {
    /// The header's octets after its length octet.
    pub header: Span,
    /// What stands after the header.
    pub body: Span,
    /// How many octets the user data take.
    pub used: usize,
    /// The septets of the body, or its octets.
    pub count: usize,
    /// The place of the segment that the header tells.
    pub place: Place,
    /// The number of the alphabet.
    pub alphabet: u8,
    /// Whether there is a header: 0 or 1.
    pub has_header: u8,
    /// Whether septets stand one an octet: 0 or 1.
    pub single: u8,
    /// The bits of the body before its first septet, 0 to 6; 0 where septets stand one an octet or
    /// there are octets.
    pub fill: u8,
}

/// Whether data can stand so.
pub fn fits(form: DataForm) -> bool
    ensures { result ≡ seen.fits_form form }
{
    let told = match form.standing {
        WHOLE | SINGLE => form.length == 0,
        COUNTED => true,
        _ => false,
    };
    told && are_spare(&form.spare)
}

/// Whether septets stand one an octet.
pub fn are_single(form: DataForm) -> bool
    ensures { result ≡ seen.are_single form }
{
    form.standing == SINGLE && matches!(alphabet_of(form.dcs), Alphabet::Gsm7)
}

/// The length that is told, if it is.
pub fn length_told(form: DataForm) -> Length
    ensures { result ≡ seen.length_told form }
{
    if form.standing == COUNTED {
        Length::Told(form.length)
    } else {
        Length::Whole
    }
}

/// Packed data that take so many octets.
fn packed_seen(view: &UserDataView, dcs: u8, used: usize) -> DataSeen
    ensures used { result.used ≡ used }
    ensures shows { ShowsBy false dcs view.now result }
{
    let spans = view.spans(used);
    DataSeen {
        header: some_span(spans.header),
        body: Span::at(spans.body),
        used,
        count: usize::from(view.body_count()),
        place: place_seen(view.concat()),
        alphabet: alphabet_number(alphabet_of(dcs)),
        has_header: bit(view.header().is_some()),
        single: 0,
        fill: spans.fill,
    }
}

/// Where the header of septets lies that begin at a place.
fn header_seen(view: &SinglesView, offset: usize) -> Span
    ensures { result ≡ span_if (seen.header_before offset view.now.header) }
{
    match view.header() {
        Some(header) => {
            let length = header.as_slice().len();
            Span {
                offset: offset.saturating_sub(length),
                length,
            }
        }
        None => Span::NONE,
    }
}

/// The place of a segment that the header of septets tells.
fn place_of(view: &SinglesView) -> Place
    ensures { result ≡ place_shown (concat_of_header view.now.header) }
{
    match view.header() {
        Some(header) => place_seen(header.concat()),
        None => Place::NONE,
    }
}

/// Septets one an octet, of which so many are taken.
fn singles_seen(view: &SinglesView, dcs: u8, used: usize) -> DataSeen
    ensures used { result.used ≡ used }
    ensures shows { ShowsBy true dcs view.now result }
{
    let count = view.septets().len();
    let offset = used.saturating_sub(count);
    DataSeen {
        header: header_seen(view, offset),
        body: Span {
            offset,
            length: count,
        },
        used,
        count,
        place: place_of(view),
        alphabet: alphabet_number(alphabet_of(dcs)),
        has_header: bit(view.header().is_some()),
        single: 1,
        fill: 0,
    }
}

/// Reads packed data.
fn read_packed(octets: &[u8], form: DataForm, out: &mut DataSeen, refused: &mut Refused) -> u32
    ensures answered { result < 2 }
    ensures untold { (result ≡ 1 → ⊥) → refused.new ≡ refused.old }
    ensures same { (result ≡ 0 → ⊥) → out.new ≡ out.old }
    ensures read { result ≡ 0 → (value : UserData)
        × ReadsPacked form octets.now value out.new.used × ShowsBy false form.dcs value out.new }
    ensures refused { result ≡ 1 → RefusesPacked form octets.now refused.new }
{
    let headed = is_set(form.has_header);
    let alphabet = alphabet_of(form.dcs);
    match UserDataView::read_alone(octets, headed, alphabet, length_told(form)) {
        Ok((view, used)) => {
            *out = packed_seen(&view, form.dcs, used);
            OK
        }
        Err(fault) => unit_refused(refused, fault),
    }
}

/// Reads septets one an octet.
fn read_singles(octets: &[u8], form: DataForm, out: &mut DataSeen, refused: &mut Refused) -> u32
    ensures answered { result < 2 }
    ensures untold { (result ≡ 1 → ⊥) → refused.new ≡ refused.old }
    ensures same { (result ≡ 0 → ⊥) → out.new ≡ out.old }
    ensures read { result ≡ 0 → (value : UserData)
        × ReadsSingles form octets.now value out.new.used × ShowsBy true form.dcs value out.new }
    ensures refused { result ≡ 1 → RefusesSingles form octets.now refused.new }
{
    match SinglesView::read(octets, is_set(form.has_header)) {
        Ok((view, used)) => {
            *out = singles_seen(&view, form.dcs, used);
            OK
        }
        Err(fault) => data_refused(refused, fault),
    }
}

/// Sees user data alone, which stand so, at the front of the octets.
#[unsafe(no_mangle)]
pub extern "C" fn sms_data_read(
    octets: &[u8],
    form: &DataForm,
    out: &mut DataSeen,
    refused: &mut Refused,
) -> u32
    ensures range { (result ≡ 7) ↔ (seen.fits_form form.now ≡ false) }
    ensures answered { (result < 2) ⊎ (result ≡ 7) }
    ensures untold { (result ≡ 1 → ⊥) → refused.new ≡ refused.old }
    ensures same { (result ≡ 0 → ⊥) → out.new ≡ out.old }
    ensures read { result ≡ 0 → (value : UserData)
        × ReadsData form.now octets.now value out.new.used × ShowsData form.now value out.new }
    ensures refused { result ≡ 1 → RefusesData form.now octets.now refused.new }
{
    let form = *form;
    if !fits(form) {
        return Failure::OutOfRange.status();
    }
    if are_single(form) {
        read_singles(octets, form, out, refused)
    } else {
        read_packed(octets, form, out, refused)
    }
}
