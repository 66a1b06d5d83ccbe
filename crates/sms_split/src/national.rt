//! The lines of segments under national language tables.

ghost use Rattle.std.specs.Prelude.{◌≡◌, ◌<◌, ◌+◌, OnOk, length};
ghost use Rattle.sms_field.specs.declared.coding.Alphabet.TheVariants.{Gsm7};
ghost use Rattle.sms_tpdu.specs.declared.user_data.concat.Width.TheVariants.{Eight};
ghost use Rattle.sms_tpdu.specs.UserData.{FitsAlphabet, length_in};
ghost use Rattle.sms_split.specs.Lines.{WritesEach};
ghost use Rattle.sms_split.specs.Told.{national_told, national_tolds};
ghost use Rattle.sms_split.specs.Inside.Heads.{IsHead, WritesLine, WritesPiece};

use crate::fault::CutFault;
use crate::head::{Head, parted};
use crate::line::put_line;
use crate::long_text::LongText;
use crate::names::tables_name;
use sms_national::NationalSegments;
use sms_tpdu::UserData;
use std::alloc::Global;
use std::io::Write;

/// What the line of the segment of an index tells before its octets. They are of this length.
fn head_in(segments: &NationalSegments, index: usize, user: &UserData, udl: u8) -> Head
    requires place { index < length segments.now.pieces }
    requires counted { udl ≡ length_in user.now }
    ensures { IsHead result (national_told segments.now (index + 1) user.now) }
{
    let count = segments.len();
    Head {
        sequence: index as u8 + 1,
        maximum: count as u8,
        alphabet: tables_name(segments.tables()),
        coding_scheme: 0,
        has_header: user.header.is_some(),
        length: udl,
    }
}

/// Writes the line of the segment of an index.
fn put_user<W: Write>(
    alloc: Global,
    segments: &NationalSegments,
    index: usize,
    user: &UserData,
    long: &LongText<'_>,
    output: &mut W,
) -> Result<(), CutFault>
    requires place { index < length segments.now.pieces }
    requires fits { FitsAlphabet Gsm7 user.now }
    ensures { OnOk result (WritesLine long.now
        (national_told segments.now (index + 1) user.now)
        (W.contents output.old) (W.contents output.new)) }
{
    let octets = user.write(alloc)?;
    let (udl, rest) = parted(&octets);
    let head = head_in(segments, index, user, udl);
    if long.is_single {
        let singles = user.write_singles(alloc)?;
        return put_line(alloc, &head, long, &singles, output);
    }
    put_line(alloc, &head, long, rest, output)
}

/// Writes the line of the segment of an index, whose user data it makes.
fn put_at<W: Write>(
    alloc: Global,
    segments: &NationalSegments,
    index: usize,
    long: &LongText<'_>,
    output: &mut W,
) -> Result<(), CutFault>
    requires place { index < length segments.now.pieces }
    requires reference { segments.now.width ≡ Eight → long.now.reference < 256 }
    ensures { OnOk result (WritesPiece long.now segments.now index
        (W.contents output.old) (W.contents output.new)) }
{
    match segments.user(alloc, index, long.reference)? {
        Some(user) => put_user(alloc, segments, index, &user, long, output),
        None => Ok(()),
    }
}

/// Writes the lines of segments under national language tables, in order.
pub(crate) fn put_users<W: Write>(
    alloc: Global,
    segments: &NationalSegments,
    long: &LongText<'_>,
    output: &mut W,
) -> Result<(), CutFault>
    requires { segments.now.width ≡ Eight → long.now.reference < 256 }
    ensures { OnOk result (WritesEach long.now
        (national_tolds segments.now long.now.reference 1 segments.now.pieces)
        (W.contents output.old) (W.contents output.new)) }
{
    for index in 0..segments.len() {
        put_at(alloc, segments, index, long, output)?;
    }
    Ok(())
}
