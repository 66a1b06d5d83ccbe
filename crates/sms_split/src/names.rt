//! The names of alphabets.

ghost use Rattle.std.specs.Prelude.{◌≡◌};
ghost use Rattle.sms_join.specs.Segments.Value.{seen_units};
ghost use Rattle.sms_split.specs.Names as names;

use sms_language::{Locking, Single, Tables};
use sms_tpdu::UnitsView;

/// The alphabet of units.
pub(crate) fn alphabet_name(units: UnitsView<'_>) -> &'static str
    ensures { result.now ≡ names.alphabet_name (seen_units units.entry) }
{
    match units {
        UnitsView::Gsm(_) => "gsm",
        UnitsView::Ucs2(_) => "ucs2",
    }
}

/// The alphabet of septets, by their tables.
pub(crate) fn tables_name(tables: Tables) -> &'static str
    ensures { result.now ≡ names.tables_name tables }
{
    match (tables.locking, tables.single) {
        (Locking::Default, Single::Default) => "gsm",
        (Locking::Default, Single::Turkish) => "gsm-turkish-single",
        (Locking::Default, Single::Spanish) => "gsm-spanish-single",
        (Locking::Default, Single::Portuguese) => "gsm-portuguese-single",
        (Locking::Turkish, Single::Default) => "gsm-turkish-locking",
        (Locking::Portuguese, Single::Default) => "gsm-portuguese-locking",
        (Locking::Turkish, Single::Turkish) => "gsm-turkish-both",
        (Locking::Portuguese, Single::Portuguese) => "gsm-portuguese-both",
        _ => "gsm-both",
    }
}
