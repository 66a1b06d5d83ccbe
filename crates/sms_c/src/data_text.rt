//! Texts of user data alone.

ghost use Rattle.std.specs.Prelude.{◌≡◌, ◌≢◌, ◌⊎◌, ◌↔◌, false, true, None, Err, MatchOption, IfOk, IfErr, OnErr};
ghost use Rattle.std.specs.Str.{chars};
ghost use Rattle.std.specs.String.{string_bytes};
ghost use Rattle.sms_field.specs.declared.coding.Alphabet.TheVariants.{Gsm7};
ghost use Rattle.sms_tpdu.specs.UserData.{FitsAlphabet};
ghost use Rattle.sms_tpdu.specs.UserData.Languages.{IsToldIn};
ghost use Rattle.sms_tpdu.specs.UserData.Text.{text_of_body};
ghost use Rattle.sms_c.specs.DataAlone as seen;
ghost use Rattle.sms_c.specs.DataAlone.{HasText, IsTextBy, IsUnreadData, LacksText, OfDataText};
ghost use Rattle.sms_c.specs.Fitting.{IsAnswered};
ghost use Rattle.sms_c.specs.HandedOut.{ArePut, LackRoom};
ghost use Rattle.sms_c.specs.Status.{IsNotRoom, status_in, status_of as number_of};
ghost use Rattle.sms_c.specs.declared.status.Failure.TheVariants.{NoRoom};

use crate::handed_out::hand_out;
use crate::reading::data::{DataForm, are_single, fits, length_told};
use crate::status::{Failure, status_of};
use crate::writing::is_set;
use sms_field::{Alphabet, alphabet_of};
use sms_language::{Locking, Single, Tables, text_of_septets};
use sms_text::text_of_gsm;
use sms_tpdu::{SinglesView, UserDataView};
use std::alloc::{AllocError, Global};

/// The tables of the default alphabet.
const DEFAULT: Tables = Tables {
    locking: Locking::Default,
    single: Single::Default,
};

/// Whether an alphabet is a text's.
pub fn is_text(alphabet: Alphabet) -> bool
    ensures { result ≡ seen.is_text alphabet }
{
    matches!(alphabet, Alphabet::Gsm7 | Alphabet::Ucs2)
}

/// The text that packed data carry, if they do.
fn text_found(
    alloc: Global,
    view: &UserDataView,
    alphabet: Alphabet,
    languages: bool,
) -> Result<Option<String>, AllocError>
    ensures { IfOk result (λ found. MatchOption found
        (text_of_body alphabet view.now.body ≡ None)
        (λ text. IsTextBy languages alphabet view.now (chars (string_bytes text)))) }
{
    let body = view.body();
    if languages {
        body.text_under(alloc, alphabet, view.tables())
    } else {
        body.text(alloc, alphabet)
    }
}

/// The text of packed data under the alphabet of one.
fn text_of_packed(
    alloc: Global,
    view: &UserDataView,
    alphabet: Alphabet,
    languages: bool,
) -> Result<String, AllocError>
    requires text { seen.is_text alphabet ≡ true }
    requires fits { FitsAlphabet alphabet view.now }
    ensures { IfOk result (λ text.
        IsTextBy languages alphabet view.now (chars (string_bytes text))) }
{
    match text_found(alloc, view, alphabet, languages)? {
        Some(text) => Ok(text),
        None => unreachable!(),
    }
}

/// The text of packed data.
fn packed_text(alloc: Global, octets: &[u8], form: DataForm) -> Result<String, Failure>
    requires { seen.are_single form ≡ false }
    ensures text { IfOk result (λ text. HasText form octets.now (chars (string_bytes text))) }
    ensures refused { (status_in result ≡ 1) ↔ IsUnreadData form octets.now }
    ensures not_there { (status_in result ≡ 8) ↔ LacksText form octets.now }
    ensures other { IfErr result (λ why.
        (number_of why ≡ 1) ⊎ (number_of why ≡ 8) ⊎ (number_of why ≡ 2)) }
{
    let headed = is_set(form.has_header);
    let alphabet = alphabet_of(form.dcs);
    let Ok((view, _)) = UserDataView::read_alone(octets, headed, alphabet, length_told(form)) else {
        return Err(Failure::Refused);
    };
    if !is_text(alphabet) {
        return Err(Failure::NotThere);
    }
    Ok(text_of_packed(alloc, &view, alphabet, is_set(form.languages))?)
}

/// The national language tables that the header tells; those of the default alphabet where there is
/// none.
pub fn tables_of(view: &SinglesView) -> Tables
    ensures { IsToldIn view.now.header result }
{
    match view.header() {
        Some(header) => header.tables(),
        None => DEFAULT,
    }
}

/// The text of septets one an octet.
fn text_of_singles(alloc: Global, view: &SinglesView, languages: bool) -> Result<String, AllocError>
    ensures { IfOk result (λ text.
        IsTextBy languages Gsm7 view.now (chars (string_bytes text))) }
{
    if languages {
        text_of_septets(alloc, view.septets(), tables_of(view))
    } else {
        text_of_gsm(alloc, view.septets())
    }
}

/// The text of data whose septets stand one an octet.
fn singles_text(alloc: Global, octets: &[u8], form: DataForm) -> Result<String, Failure>
    requires { seen.are_single form ≡ true }
    ensures text { IfOk result (λ text. HasText form octets.now (chars (string_bytes text))) }
    ensures refused { (status_in result ≡ 1) ↔ IsUnreadData form octets.now }
    ensures not_there { (status_in result ≡ 8) ↔ LacksText form octets.now }
    ensures other { IfErr result (λ why. (number_of why ≡ 1) ⊎ (number_of why ≡ 2)) }
{
    let Ok((view, _)) = SinglesView::read(octets, is_set(form.has_header)) else {
        return Err(Failure::Refused);
    };
    Ok(text_of_singles(alloc, &view, is_set(form.languages))?)
}

/// The text of user data alone.
fn text_in(alloc: Global, octets: &[u8], form: DataForm) -> Result<String, Failure>
    ensures text { IfOk result (λ text. HasText form octets.now (chars (string_bytes text))) }
    ensures range { (status_in result ≡ 7) ↔ (seen.fits_form form ≡ false) }
    ensures refused { (status_in result ≡ 1)
        ↔ (seen.fits_form form ≡ true) × IsUnreadData form octets.now }
    ensures not_there { (status_in result ≡ 8)
        ↔ (seen.fits_form form ≡ true) × LacksText form octets.now }
    ensures other { IfErr result (λ why. (number_of why ≡ 7)
        ⊎ (number_of why ≡ 1) ⊎ (number_of why ≡ 8) ⊎ (number_of why ≡ 2)) }
{
    if !fits(form) {
        return Err(Failure::OutOfRange);
    }
    if are_single(form) {
        singles_text(alloc, octets, form)
    } else {
        packed_text(alloc, octets, form)
    }
}

/// Hands out the text of user data alone.
fn put_text(
    alloc: Global,
    octets: &[u8],
    form: DataForm,
    out: &mut [u8],
    needed: &mut usize,
) -> Result<(), Failure>
    ensures range { (status_in result ≡ 7) ↔ (seen.fits_form form ≡ false) }
    ensures refused { (status_in result ≡ 1)
        ↔ (seen.fits_form form ≡ true) × IsUnreadData form octets.now }
    ensures not_there { (status_in result ≡ 8)
        ↔ (seen.fits_form form ≡ true) × LacksText form octets.now }
    ensures answered { status_in result ≢ 1 → status_in result ≢ 7 → status_in result ≢ 8
        → IsAnswered (status_in result) }
    ensures put { IfOk result (λ _. OfDataText form octets.now
        (ArePut out.old out.new needed.new)) }
    ensures no_room { result ≡ Err NoRoom → OfDataText form octets.now
        (LackRoom out.old out.new needed.new) }
    ensures none { OnErr result (out.new ≡ out.old) }
    ensures needed { IfErr result (λ why. IsNotRoom why → needed.new ≡ needed.old) }
{
    let text = text_in(alloc, octets, form)?;
    hand_out(text.as_bytes(), out, needed)
}

/// The text of user data alone, which stand so, at the front of the octets.
#[unsafe(no_mangle)]
pub extern "C" fn sms_data_text(
    alloc: Global,
    octets: &[u8],
    form: &DataForm,
    out: &mut [u8],
    needed: &mut usize,
) -> u32
    ensures range { (result ≡ 7) ↔ (seen.fits_form form.now ≡ false) }
    ensures refused { (result ≡ 1)
        ↔ (seen.fits_form form.now ≡ true) × IsUnreadData form.now octets.now }
    ensures not_there { (result ≡ 8)
        ↔ (seen.fits_form form.now ≡ true) × LacksText form.now octets.now }
    ensures answered { result ≢ 1 → result ≢ 7 → result ≢ 8 → IsAnswered result }
    ensures put { result ≡ 0 → OfDataText form.now octets.now
        (ArePut out.old out.new needed.new) }
    ensures no_room { result ≡ 3 → OfDataText form.now octets.now
        (LackRoom out.old out.new needed.new) }
    ensures none { (result ≡ 0 → ⊥) → out.new ≡ out.old }
    ensures needed { (result ≡ 0 → ⊥) → (result ≡ 3 → ⊥) → needed.new ≡ 0 }
{
    *needed = 0;
    status_of(put_text(alloc, octets, *form, out, needed))
}
