//! What a joiner of C is offered with no unit around it: user data that are a text.

ghost use Rattle.std.specs.Prelude.{◌≡◌, ◌⊎◌, ◌↔◌, ℕ, false, true, Some, IfOk, IfErr, MatchResult};
ghost use Rattle.sms_tpdu.specs.UserData.ConcatenationFound.{IsPlace, concat_of_header};
ghost use Rattle.sms_tpdu.specs.UserData.Languages.{IsToldIn};
ghost use Rattle.sms_tpdu.specs.declared.user_data.UserData.{UserData};
ghost use Rattle.sms_join.specs.BodyUnits.{units_of_body};
ghost use Rattle.sms_c.specs.DataAlone as seen;
ghost use Rattle.sms_c.specs.DataAlone.{IsUnreadData, LacksText, ReadsData, RefusesData};
ghost use Rattle.sms_c.specs.DataOffers.{AreUnitsIn, IsTextIn, StandsBy, seen_data};
ghost use Rattle.sms_c.specs.Status as numbers;
ghost use Rattle.sms_c.specs.declared.status.Failure.TheVariants.{Refused as TheRefused};

use crate::data_text::{is_text, tables_of};
use crate::joiner::data_units::{packed_units, single_units, under};
use crate::reading::data::{DataForm, are_single, fits, length_told};
use crate::status::{Failure, Refused, data_refused, unit_refused};
use crate::writing::is_set;
use sms_field::alphabet_of;
use sms_join::Units;
use sms_language::Tables;
use sms_tpdu::{Concat, SinglesView, UserDataView};
use std::alloc::{AllocError, Global};

/// User data alone, where they lie.
#[derive(Drop)]
pub enum DataView<'a> {
    /// Packed septets, or octets.
    Packed(UserDataView<'a>),
    /// Septets one an octet.
    Singles(SinglesView<'a>),
}

/// Packed data.
fn packed<'a>(
    octets: &'a [u8],
    form: DataForm,
    refused: &mut Refused,
) -> Result<DataView<'a>, Failure>
    requires { seen.are_single form ≡ false }
    ensures read { IfOk result (λ view. (used : ℕ)
        × ReadsData form octets.now (seen_data view) used) }
    ensures stands { IfOk result (StandsBy form) }
    ensures exact { (value : UserData) (used : ℕ) → ReadsData form octets.now value used
        → MatchResult result (λ view. seen_data view ≡ value) (λ _. ⊥) }
    ensures unread { (numbers.status_in result ≡ 1) ↔ IsUnreadData form octets.now }
    ensures refused { IfErr result (λ why. (why ≡ TheRefused)
        × RefusesData form octets.now refused.new) }
    ensures untold { IfOk result (λ _. refused.new ≡ refused.old) }
{
    let headed = is_set(form.has_header);
    let alphabet = alphabet_of(form.dcs);
    match UserDataView::read_alone(octets, headed, alphabet, length_told(form)) {
        Ok((view, _)) => Ok(DataView::Packed(view)),
        Err(fault) => {
            unit_refused(refused, fault);
            Err(Failure::Refused)
        }
    }
}

/// Septets one an octet.
fn singles<'a>(
    octets: &'a [u8],
    form: DataForm,
    refused: &mut Refused,
) -> Result<DataView<'a>, Failure>
    requires { seen.are_single form ≡ true }
    ensures read { IfOk result (λ view. (used : ℕ)
        × ReadsData form octets.now (seen_data view) used) }
    ensures stands { IfOk result (StandsBy form) }
    ensures exact { (value : UserData) (used : ℕ) → ReadsData form octets.now value used
        → MatchResult result (λ view. seen_data view ≡ value) (λ _. ⊥) }
    ensures unread { (numbers.status_in result ≡ 1) ↔ IsUnreadData form octets.now }
    ensures refused { IfErr result (λ why. (why ≡ TheRefused)
        × RefusesData form octets.now refused.new) }
    ensures untold { IfOk result (λ _. refused.new ≡ refused.old) }
{
    match SinglesView::read(octets, is_set(form.has_header)) {
        Ok((view, _)) => Ok(DataView::Singles(view)),
        Err(fault) => {
            data_refused(refused, fault);
            Err(Failure::Refused)
        }
    }
}

/// Data that stand so.
fn standing<'a>(
    octets: &'a [u8],
    form: DataForm,
    refused: &mut Refused,
) -> Result<DataView<'a>, Failure>
    ensures read { IfOk result (λ view. (used : ℕ)
        × ReadsData form octets.now (seen_data view) used) }
    ensures stands { IfOk result (StandsBy form) }
    ensures exact { (value : UserData) (used : ℕ) → ReadsData form octets.now value used
        → MatchResult result (λ view. seen_data view ≡ value) (λ _. ⊥) }
    ensures unread { (numbers.status_in result ≡ 1) ↔ IsUnreadData form octets.now }
    ensures refused { IfErr result (λ why. (why ≡ TheRefused)
        × RefusesData form octets.now refused.new) }
    ensures untold { IfOk result (λ _. refused.new ≡ refused.old) }
{
    if are_single(form) {
        singles(octets, form, refused)
    } else {
        packed(octets, form, refused)
    }
}

/// The text that is offered: data that stand so, and are a text.
pub fn told<'a>(
    octets: &'a [u8],
    form: DataForm,
    refused: &mut Refused,
) -> Result<DataView<'a>, Failure>
    ensures read { IfOk result (λ view. IsTextIn form octets.now (seen_data view)) }
    ensures stands { IfOk result (StandsBy form) }
    ensures exact { (value : UserData) → IsTextIn form octets.now value
        → MatchResult result (λ view. seen_data view ≡ value) (λ _. ⊥) }
    ensures range { (numbers.status_in result ≡ 7) ↔ (seen.fits_form form ≡ false) }
    ensures unread { (numbers.status_in result ≡ 1)
        ↔ (seen.fits_form form ≡ true) × IsUnreadData form octets.now }
    ensures no_text { (numbers.status_in result ≡ 8)
        ↔ (seen.fits_form form ≡ true) × LacksText form octets.now }
    ensures refused { numbers.status_in result ≡ 1 → RefusesData form octets.now refused.new }
    ensures untold { (numbers.status_in result ≡ 1 → ⊥) → refused.new ≡ refused.old }
    ensures answered { IfErr result (λ why. (numbers.status_of why ≡ 7)
        ⊎ (numbers.status_of why ≡ 1) ⊎ (numbers.status_of why ≡ 8)) }
{
    if !fits(form) {
        return Err(Failure::OutOfRange);
    }
    let view = standing(octets, form, refused)?;
    if !is_text(alphabet_of(form.dcs)) {
        return Err(Failure::NotThere);
    }
    Ok(view)
}

impl<'a> DataView<'a> {
    /// The place among the segments of its message that the header tells, if it tells one.
    pub fn place(&self) -> Option<Concat>
        ensures place { result ≡ concat_of_header (seen_data self.now).header }
        ensures in_range { IsPlace result }
    {
        match self {
            DataView::Packed(view) => view.concat(),
            DataView::Singles(view) => match view.header() {
                Some(header) => header.concat(),
                None => None,
            },
        }
    }

    /// The national language tables that the header tells; those of the default alphabet where
    /// there is none.
    fn tables(&self) -> Tables
        ensures { IsToldIn (seen_data self.now).header result }
    {
        match self {
            DataView::Packed(view) => view.tables(),
            DataView::Singles(view) => tables_of(view),
        }
    }

    /// The units, read by the default alphabet.
    fn plain_units(&self, alloc: Global, form: DataForm) -> Result<Units, AllocError>
        requires text { seen.is_text (seen.alphabet_in form) ≡ true }
        requires stands { StandsBy form self.now }
        ensures { IfOk result (λ units.
            units_of_body (seen.alphabet_in form) (seen_data self.now).body ≡ Some units) }
    {
        match self {
            DataView::Packed(view) => packed_units(alloc, view, alphabet_of(form.dcs)),
            DataView::Singles(view) => single_units(alloc, view),
        }
    }

    /// The units, read as it is asked for.
    pub fn units(&self, alloc: Global, form: DataForm) -> Result<Units, AllocError>
        requires text { seen.is_text (seen.alphabet_in form) ≡ true }
        requires stands { StandsBy form self.now }
        ensures { IfOk result (AreUnitsIn form (seen_data self.now)) }
    {
        let units = self.plain_units(alloc, form)?;
        if is_set(form.languages) {
            under(alloc, units, self.tables())
        } else {
            Ok(units)
        }
    }
}
