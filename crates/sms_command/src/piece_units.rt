//! The units of a piece, under national language tables where these are heeded.

use sms_field::Alphabet;
use sms_join::{Ucs2Units, Units};
use sms_language::{Locking, Single, Tables, text_of_septets};
use sms_text::ucs2_of;
use sms_tpdu::{HeaderView, Septets, SinglesView, UserDataView};
use std::alloc::{AllocError, Global};

/// The tables of the default alphabet.
const DEFAULT: Tables = Tables {
    locking: Locking::Default,
    single: Single::Default,
};

/// The 16-bit units of a text.
fn units_of_text(alloc: Global, text: &str) -> Result<Units, AllocError> {
    let units = ucs2_of(alloc, text)?;
    Ok(Units::Ucs2(Ucs2Units::new(units)))
}

/// The units of septets under national language tables: those of the text that they are there.
fn user_units_under(
    alloc: Global,
    user: &UserDataView<'_>,
    tables: Tables,
) -> Result<Option<Units>, AllocError> {
    match user.body().text_under(alloc, Alphabet::Gsm7, tables)? {
        Some(text) => Ok(Some(units_of_text(alloc, &text)?)),
        None => Ok(None),
    }
}

/// The units of user data; none where the alphabet is no text's.
///
/// Septets under national language tables are given as the 16-bit units of the text that they are
/// there, so that the joiner reads them so whatever stands beside them.
pub fn user_units(
    alloc: Global,
    user: &UserDataView<'_>,
    alphabet: Alphabet,
    heeds_languages: bool,
) -> Result<Option<Units>, AllocError> {
    if heeds_languages && alphabet == Alphabet::Gsm7 {
        let tables = user.tables();
        if tables != DEFAULT {
            return user_units_under(alloc, user, tables);
        }
    }
    Units::of_body_view(alloc, alphabet, &user.body())
}

/// The tables that a header tells.
fn tables_of(header: &Option<HeaderView<'_>>) -> Tables {
    match header {
        Some(header) => header.tables(),
        None => DEFAULT,
    }
}

/// The units of septets that stand one an octet.
pub fn singles_units(
    alloc: Global,
    view: &SinglesView<'_>,
    heeds_languages: bool,
) -> Result<Units, AllocError> {
    let tables = tables_of(view.header());
    if heeds_languages && tables != DEFAULT {
        let text = text_of_septets(alloc, view.septets(), tables)?;
        return units_of_text(alloc, &text);
    }
    let septets = Vec::from_slice(alloc, view.septets())?;
    Ok(Units::Gsm(Septets::new(septets)))
}
