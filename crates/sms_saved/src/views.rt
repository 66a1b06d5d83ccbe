//! Units that are lent.

ghost use Rattle.std.specs.Prelude.{◌≡◌};
ghost use Rattle.sms_saved.specs.Value.{view_units, view_place};
ghost use Rattle.sms_saved.specs.Views.{seen_units, seen_place};

use crate::state::Units;

/// The units of a piece, which are lent.
#[derive(Clone, Copy, Debug, PartialEq, Eq)]
pub enum UnitsView<'a> {
    /// Septets of the default alphabet, each below 128.
    Gsm(&'a [u8]),
    /// 16-bit units of UCS-2.
    Ucs2(&'a [u16]),
}

impl Units {
    /// The units, lent.
    pub fn as_view(&self) -> UnitsView<'_>
        ensures { seen_units result ≡ view_units self.now }
    {
        match self {
            Units::Gsm(septets) => UnitsView::Gsm(septets.as_slice()),
            Units::Ucs2(units) => UnitsView::Ucs2(units.as_slice()),
        }
    }
}

/// The units of a place, lent.
pub(crate) fn place_view(units: &Option<Units>) -> Option<UnitsView<'_>>
    ensures { seen_place result ≡ view_place units.now }
{
    match units {
        None => None,
        Some(units) => Some(units.as_view()),
    }
}
