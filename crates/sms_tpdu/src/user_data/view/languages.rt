//! Texts under the national language tables that a header tells.

ghost use Rattle.std.specs.Prelude.{◌≡◌, List, IfOk};
ghost use Rattle.std.specs.Str.{chars};
ghost use Rattle.std.specs.String.{string_bytes};
ghost use Rattle.sms_language.specs.TextUnder.{text_under};
ghost use Rattle.sms_tpdu.specs.UserData.BodySeen.{seen_body};
ghost use Rattle.sms_tpdu.specs.UserData.Languages.{IsToldIn, TellsTables, text_of_body_under};
ghost use Rattle.sms_tpdu.specs.UserData.Text.{AnswersText};

use crate::user_data::view::UserDataView;
use crate::user_data::view::body::{BodyView, SeptetsView};
use crate::user_data::view::header::HeaderView;
use sms_field::Alphabet;
use sms_language::{Locking, Single, Tables, text_of_packed};
use std::alloc::{AllocError, Global};

/// The tables of the default alphabet.
const DEFAULT: Tables = Tables {
    locking: Locking::Default,
    single: Single::Default,
};

impl<'a> HeaderView<'a> {
    /// The national language tables that the elements tell, each after those before it; those of
    /// the default alphabet where none tells any (3GPP TS 23.040, 9.2.3.24.15 and 9.2.3.24.16).
    pub fn tables(&self) -> Tables
        ensures { TellsTables self.now result }
    {
        let mut tables = DEFAULT;
        for element in self.elements() {
            tables = tables.told_by(element.identifier, element.octets);
        }
        tables
    }
}

impl<'a> UserDataView<'a> {
    /// The national language tables that the header tells; those of the default alphabet where
    /// there is none.
    pub fn tables(&self) -> Tables
        ensures { IsToldIn self.now.header result }
    {
        match self.header() {
            Some(header) => header.tables(),
            None => DEFAULT,
        }
    }
}

impl<'a> SeptetsView<'a> {
    /// The text of the septets under national language tables.
    pub fn text_under(&self, alloc: Global, tables: Tables) -> Result<String, AllocError>
        ensures { IfOk result (λ text. chars (string_bytes text) ≡ text_under tables self.now) }
    {
        match text_of_packed(
            alloc,
            self.octets,
            self.fill,
            usize::from(self.count),
            tables,
        )? {
            Some(text) => Ok(text),
            None => unreachable!(),
        }
    }
}

impl<'a> BodyView<'a> {
    /// The text that the body carries under an alphabet, septets by national language tables; none
    /// where they are octets, and no UCS-2.
    pub fn text_under(
        &self,
        alloc: Global,
        alphabet: Alphabet,
        tables: Tables,
    ) -> Result<Option<String>, AllocError>
        ensures { AnswersText (text_of_body_under tables alphabet (seen_body self.now)) result }
    {
        match self {
            BodyView::Septets(septets) => Ok(Some(septets.text_under(alloc, tables)?)),
            BodyView::Octets(_) => self.text(alloc, alphabet),
        }
    }
}
