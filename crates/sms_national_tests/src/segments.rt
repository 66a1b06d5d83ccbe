//! The user data of segments, by hand: TP-UDL and TP-UD.

ghost use Rattle.std.specs.Prelude.{◌≡◌, ◌<◌, IfOk};
ghost use Rattle.sms_field.specs.declared.coding.Alphabet.TheVariants.{Gsm7};
ghost use Rattle.sms_tpdu.specs.declared.user_data.concat.Width.TheVariants.{Eight};
ghost use Rattle.sms_tpdu.specs.UserData.{FitsAlphabet};

use crate::cut::{
    DEFAULT, PORTUGUESE_BOTH, PORTUGUESE_LOCKING, PORTUGUESE_SINGLE, SPANISH, TURKISH_BOTH,
    TURKISH_LOCKING, TURKISH_SINGLE, repeated,
};
use crate::found::same;
use sms_language::Tables;
use sms_national::{NationalSegments, cut_under};
use sms_tpdu::{UserData, Width};
use std::alloc::{AllocError, Global};
use std::process::Abort;
use std::test::Fail;

/// A letter a number of times, and the octets of its last segment under a reference.
struct Row {
    letter: &'static str,
    times: usize,
    tables: Tables,
    width: Width,
    reference: u16,
    octets: &'static [u8],
}

static ROWS: [Row; 10] = [
    Row {
        letter: "hi",
        times: 1,
        tables: DEFAULT,
        width: Width::Eight,
        reference: 0,
        octets: &[0x02, 0xE8, 0x34],
    },
    Row {
        letter: "ş",
        times: 1,
        tables: TURKISH_SINGLE,
        width: Width::Eight,
        reference: 0,
        octets: &[0x07, 0x03, 0x24, 0x01, 0x01, 0xD8, 0xCC, 0x01],
    },
    Row {
        letter: "ş",
        times: 1,
        tables: TURKISH_LOCKING,
        width: Width::Eight,
        reference: 0,
        octets: &[0x06, 0x03, 0x25, 0x01, 0x01, 0xE8, 0x00],
    },
    Row {
        letter: "ş",
        times: 1,
        tables: TURKISH_BOTH,
        width: Width::Eight,
        reference: 0,
        octets: &[0x09, 0x06, 0x24, 0x01, 0x01, 0x25, 0x01, 0x01, 0x1D],
    },
    Row {
        letter: "á",
        times: 1,
        tables: SPANISH,
        width: Width::Eight,
        reference: 0,
        octets: &[0x07, 0x03, 0x24, 0x01, 0x02, 0xD8, 0x84, 0x01],
    },
    Row {
        letter: "ã",
        times: 1,
        tables: PORTUGUESE_SINGLE,
        width: Width::Eight,
        reference: 0,
        octets: &[0x07, 0x03, 0x24, 0x01, 0x03, 0xD8, 0xEC, 0x01],
    },
    Row {
        letter: "ã",
        times: 1,
        tables: PORTUGUESE_LOCKING,
        width: Width::Eight,
        reference: 0,
        octets: &[0x06, 0x03, 0x25, 0x01, 0x03, 0xD8, 0x03],
    },
    Row {
        letter: "Φ",
        times: 1,
        tables: PORTUGUESE_BOTH,
        width: Width::Eight,
        reference: 0,
        octets: &[0x0A, 0x06, 0x24, 0x01, 0x03, 0x25, 0x01, 0x03, 0x1B, 0x09],
    },
    Row {
        letter: "a",
        times: 156,
        tables: TURKISH_SINGLE,
        width: Width::Eight,
        reference: 0x42,
        octets: &[
            0x12, 0x08, 0x00, 0x03, 0x42, 0x02, 0x02, 0x24, 0x01, 0x01, 0x20, 0x1C, 0x0E, 0x87,
            0xC3, 0xE1, 0x30,
        ],
    },
    Row {
        letter: "ğ",
        times: 153,
        tables: TURKISH_BOTH,
        width: Width::Sixteen,
        reference: 0x142,
        octets: &[
            0x17, 0x0C, 0x08, 0x04, 0x01, 0x42, 0x02, 0x02, 0x24, 0x01, 0x01, 0x25, 0x01, 0x01,
            0x18, 0x0C, 0x06, 0x83, 0xC1, 0x60, 0x30, 0x00,
        ],
    },
];

/// The user data of the last of segments.
fn last_of(alloc: Global, segments: &NationalSegments, reference: u16) -> Result<UserData, Fail>
    requires { segments.now.width ≡ Eight → reference < 256 }
    ensures { IfOk result (FitsAlphabet Gsm7) }
{
    match segments.user(alloc, segments.len() - 1, reference)? {
        Some(user) => Ok(user),
        None => Err("no segment".into()),
    }
}

/// The user data of the last segment of a text.
fn last_user(alloc: Global, text: &str, row: &Row) -> Result<UserData, Fail>
    ensures { IfOk result (FitsAlphabet Gsm7) }
{
    let Some(segments) = cut_under(alloc, text, row.tables, row.width)? else {
        return Err("a character is in neither table".into());
    };
    if segments.width() == Width::Eight && row.reference > 255 {
        return Err("the reference is too large".into());
    }
    last_of(alloc, &segments, row.reference)
}

/// The octets of user data with their length.
fn octets_of(alloc: Global, user: &UserData) -> Result<Vec<u8>, AllocError>
    requires { FitsAlphabet Gsm7 user.now }
{
    user.write(alloc)
}

/// The last segment of a text is that of a row.
fn gives(rt: &impl Abort, alloc: Global, text: &str, row: &Row) -> Result<(), Fail> {
    let user = last_user(alloc, text, row)?;
    let octets = octets_of(alloc, &user)?;
    same(rt, &text, &octets.as_slice(), &row.octets);
    Ok(())
}

#[test]
fn gives_user_data(rt: HostRuntime) -> Result<(), Fail> {
    for row in ROWS.as_slice() {
        let text = repeated(rt.alloc(), row.letter, row.times, "")?;
        gives(&rt, rt.alloc(), &text, row)?;
    }
    Ok(())
}
