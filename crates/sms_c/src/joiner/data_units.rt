//! The units of user data alone, as a joiner is to read them.

ghost use Rattle.std.specs.Prelude.{◌≡◌, true, Some, IfOk};
ghost use Rattle.sms_text.specs.Bits.{AreSeptets};
ghost use Rattle.sms_text.specs.Utf16.{utf16_units};
ghost use Rattle.sms_language.specs.TextUnder.{text_under};
ghost use Rattle.sms_field.specs.declared.coding.Alphabet.TheVariants.{Gsm7};
ghost use Rattle.sms_tpdu.specs.UserData.{FitsAlphabet};
ghost use Rattle.sms_join.specs.BodyUnits.{units_of_body};
ghost use Rattle.sms_join.specs.declared.units.Units.TheVariants.{Ucs2};
ghost use Rattle.sms_c.specs.DataAlone as seen;
ghost use Rattle.sms_c.specs.DataOffers as offers;

use sms_field::Alphabet;
use sms_join::{Ucs2Units, Units};
use sms_language::{Locking, Single, Tables, text_of_septets};
use sms_text::ucs2_of;
use sms_tpdu::{Septets, SinglesView, UserDataView};
use std::alloc::{AllocError, Global};

/// Whether the tables are those of the default alphabet.
fn are_default(tables: Tables) -> bool
    ensures { result ≡ offers.are_default tables.locking tables.single }
{
    matches!(
        (tables.locking, tables.single),
        (Locking::Default, Single::Default)
    )
}

/// The 16-bit units of the text that septets are under tables.
fn wide_under(alloc: Global, septets: &[u8], tables: Tables) -> Result<Units, AllocError>
    requires { AreSeptets septets.now }
    ensures { IfOk result (λ units. units ≡ Ucs2 (utf16_units (text_under tables septets.now))) }
{
    let text = text_of_septets(alloc, septets, tables)?;
    let units = ucs2_of(alloc, &text)?;
    Ok(Units::Ucs2(Ucs2Units::new(units)))
}

/// Units as they are read under tables.
pub fn under(alloc: Global, units: Units, tables: Tables) -> Result<Units, AllocError>
    ensures { IfOk result (λ them. them ≡ offers.units_under tables units) }
{
    if are_default(tables) {
        return Ok(units);
    }
    match units {
        Units::Gsm(septets) => wide_under(alloc, septets.as_slice(), tables),
        Units::Ucs2(units) => Ok(Units::Ucs2(units)),
    }
}

/// The units of packed data, read by the default alphabet.
pub fn packed_units(
    alloc: Global,
    view: &UserDataView,
    alphabet: Alphabet,
) -> Result<Units, AllocError>
    requires text { seen.is_text alphabet ≡ true }
    requires fits { FitsAlphabet alphabet view.now }
    ensures { IfOk result (λ units. units_of_body alphabet view.now.body ≡ Some units) }
{
    match Units::of_body_view(alloc, alphabet, &view.body())? {
        Some(units) => Ok(units),
        None => unreachable!(),
    }
}

/// The units of septets one an octet, read by the default alphabet.
pub fn single_units(alloc: Global, view: &SinglesView) -> Result<Units, AllocError>
    ensures { IfOk result (λ units. units_of_body Gsm7 view.now.body ≡ Some units) }
{
    let septets = Vec::from_slice(alloc, view.septets())?;
    Ok(Units::Gsm(Septets::new(septets)))
}
