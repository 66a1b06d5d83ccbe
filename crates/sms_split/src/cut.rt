//! The segments of a text, one a line.

ghost use Rattle.std.specs.Prelude.{◌≡◌, ◌<◌, OnOk, Err, true, false};
ghost use Rattle.sms_tpdu.specs.declared.user_data.concat.Width.TheVariants.{Eight};
ghost use Rattle.sms_split.specs.declared.fault.CutFault.TheVariants.{ReferenceTooLarge, WrongOption};
ghost use Rattle.sms_split.specs.Segments.{WritesCut, WritesDefault, WritesFewest, WritesSegments, has_wrong_option};

use crate::fault::CutFault;
use crate::long_text::{Languages, LongText};
use crate::national::put_users;
use crate::segments::put_each;
use sms_join::cut_text;
use sms_national::{Language, LanguageSegments, cut_fewest};
use sms_tpdu::Width;
use std::alloc::Global;
use std::io::Write;

/// Writes the segments of a text under the tables of these languages that take the fewest.
fn put_fewest<W: Write>(
    alloc: Global,
    language: Option<Language>,
    width: Width,
    long: &LongText<'_>,
    output: &mut W,
) -> Result<(), CutFault>
    requires { width ≡ Eight → long.now.reference < 256 }
    ensures { OnOk result (WritesFewest language width long.now
        (W.contents output.old) (W.contents output.new)) }
{
    match cut_fewest(alloc, long.text, language, width)? {
        LanguageSegments::Septets(segments) => put_users(alloc, &segments, long, output),
        LanguageSegments::Ucs2(segments) => put_each(alloc, &segments, width, long, output),
    }
}

/// Writes the segments of a text by none of the national language tables.
fn put_default<W: Write>(
    alloc: Global,
    width: Width,
    long: &LongText<'_>,
    output: &mut W,
) -> Result<(), CutFault>
    requires { width ≡ Eight → long.now.reference < 256 }
    ensures { OnOk result (WritesDefault width long.now
        (W.contents output.old) (W.contents output.new)) }
{
    let segments = cut_text(alloc, long.text, width)?;
    put_each(alloc, &segments, width, long, output)
}

/// Writes the segments of a text under a reference of this width, in order.
fn put_cut<W: Write>(
    alloc: Global,
    width: Width,
    long: &LongText<'_>,
    output: &mut W,
) -> Result<(), CutFault>
    requires { width ≡ Eight → long.now.reference < 256 }
    ensures { OnOk result (WritesCut long.now.languages width long.now
        (W.contents output.old) (W.contents output.new)) }
{
    match long.languages {
        Languages::One(language) => put_fewest(alloc, Some(language), width, long, output),
        Languages::All => put_fewest(alloc, None, width, long, output),
        Languages::None => put_default(alloc, width, long, output),
    }
}

/// Writes the segments of a text, in order, each in a line: its sequence and their number, its
/// alphabet, TP-UDL, and the user data behind it in hexadecimal. User data alone have TP-DCS and
/// whether a header stands in front in place of the alphabet. In JSON a line has an object.
///
/// Septets stand one an octet only in user data alone. A reference above 255 needs two octets.
pub fn put_segments<W: Write>(
    alloc: Global,
    long: &LongText<'_>,
    output: &mut W,
) -> Result<(), CutFault>
    ensures segments { OnOk result (WritesSegments long.now
        (W.contents output.old) (W.contents output.new)) }
    ensures option { has_wrong_option long.now ≡ true → result ≡ Err WrongOption }
    ensures reference { has_wrong_option long.now ≡ false → long.now.wide ≡ false
        → 255 < long.now.reference → result ≡ Err ReferenceTooLarge }
{
    if long.is_single && !long.is_data {
        return Err(CutFault::WrongOption);
    }
    if long.wide {
        return put_cut(alloc, Width::Sixteen, long, output);
    }
    if long.reference > 255 {
        return Err(CutFault::ReferenceTooLarge);
    }
    put_cut(alloc, Width::Eight, long, output)
}
