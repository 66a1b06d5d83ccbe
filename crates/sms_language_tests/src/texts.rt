//! Texts and their septets under tables, by hand.

use crate::found::is;
use sms_language::{Locking, Single, Tables, septets_of_text, text_of_packed, text_of_septets};
use std::test::Fail;

/// A text, its tables and its septets.
struct Row {
    text: &'static str,
    tables: Tables,
    septets: &'static [u8],
}

const DEFAULT: Tables = Tables {
    locking: Locking::Default,
    single: Single::Default,
};

pub const TURKISH: Tables = Tables {
    locking: Locking::Turkish,
    single: Single::Turkish,
};

const SHIFTED: Tables = Tables {
    locking: Locking::Default,
    single: Single::Turkish,
};

const SPANISH: Tables = Tables {
    locking: Locking::Default,
    single: Single::Spanish,
};

const PORTUGUESE: Tables = Tables {
    locking: Locking::Portuguese,
    single: Single::Portuguese,
};

/// A character that is in both tables is written by the locking shift table.
static WRITTEN: [Row; 6] = [
    Row {
        text: "a[€",
        tables: DEFAULT,
        septets: &[0x61, 0x1B, 0x3C, 0x1B, 0x65],
    },
    Row {
        text: "ğıŞİ€",
        tables: TURKISH,
        septets: &[0x0C, 0x07, 0x1C, 0x40, 0x04],
    },
    Row {
        text: "ğıŞİ€ò",
        tables: SHIFTED,
        septets: &[
            0x1B, 0x67, 0x1B, 0x69, 0x1B, 0x53, 0x1B, 0x49, 0x1B, 0x65, 0x08,
        ],
    },
    Row {
        text: "áñÚ",
        tables: SPANISH,
        septets: &[0x1B, 0x61, 0x7D, 0x1B, 0x55],
    },
    Row {
        text: "ãçº∞",
        tables: PORTUGUESE,
        septets: &[0x7B, 0x09, 0x24, 0x15],
    },
    Row {
        text: "Φ{Σ",
        tables: PORTUGUESE,
        septets: &[0x1B, 0x12, 0x1B, 0x28, 0x1B, 0x18],
    },
];

#[test]
fn texts_are_written_and_read(rt: HostRuntime) -> Result<(), Fail> {
    for row in &WRITTEN {
        let found = septets_of_text(rt.alloc(), row.text, row.tables)?;
        let septets = found.ok_or("none")?;
        is(&rt, row.text, septets.as_slice(), row.septets);
        let text = text_of_septets(rt.alloc(), &septets, row.tables)?;
        is(&rt, row.text, text.as_str(), row.text);
    }
    Ok(())
}

/// What is read and would not be written: a code that the single shift table leaves reserved shows
/// the character of the locking shift table; an escape that stands twice or last is a space.
#[test]
fn other_septets_are_read(rt: HostRuntime) -> Result<(), Fail> {
    let reserved = text_of_septets(rt.alloc(), &[0x1B, 0x41, 0x1B, 0x08], SHIFTED)?;
    is(&rt, "reserved", reserved.as_str(), "Aò");
    let by_locking = text_of_septets(rt.alloc(), &[0x1B, 0x07, 0x07], TURKISH)?;
    is(&rt, "by the locking table", by_locking.as_str(), "ıı");
    let other = text_of_septets(rt.alloc(), &[0x1B, 0x24, 0x1B, 0x0D], PORTUGUESE)?;
    is(&rt, "by the locking table", other.as_str(), "º\r");
    let escapes = text_of_septets(rt.alloc(), &[0x1B, 0x1B, 0x1B], PORTUGUESE)?;
    is(&rt, "escapes", escapes.as_str(), "  ");
    Ok(())
}

/// A letter that neither table has.
#[test]
fn other_letters_have_no_septets(rt: HostRuntime) -> Result<(), Fail> {
    let none = septets_of_text(rt.alloc(), "aж", TURKISH)?;
    assert!(rt; none.is_none());
    let lacking = septets_of_text(rt.alloc(), "ğ", SPANISH)?;
    assert!(rt; lacking.is_none());
    Ok(())
}

/// Two septets of 0C and 07 after a fill bit, as TS 23.038 packs them, and one too many for the
/// octets.
#[test]
fn packed_septets_are_read(rt: HostRuntime) -> Result<(), Fail> {
    let octets = [0x18, 0x07];
    let text = text_of_packed(rt.alloc(), &octets, 1, 2, TURKISH)?;
    let text = text.ok_or("too few octets")?;
    is(&rt, "packed", text.as_str(), "ğı");
    let short = text_of_packed(rt.alloc(), &octets, 3, 2, TURKISH)?;
    assert!(rt; short.is_none());
    Ok(())
}
