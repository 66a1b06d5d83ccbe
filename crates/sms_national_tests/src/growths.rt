//! One growth is refused, whichever it is (docs/CONTRIBUTING.md says how): asked once more, a call
//! answers as where none was refused.

use crate::cut::{TURKISH_SINGLE, counts_of, repeated};
use crate::found::{holds, same};
use sms_national::{Language, LanguageSegments, NationalSegments, cut_fewest, cut_under};
use sms_tpdu::Width;
use std::alloc::Global;
use std::test::Fail;

/// The segments of a text under the Turkish single shift table, asked once more where memory ran
/// out.
fn cut_at_last(alloc: Global, text: &str) -> Result<NationalSegments, Fail> {
    let found = match cut_under(alloc, text, TURKISH_SINGLE, Width::Eight) {
        Ok(found) => found,
        Err(_) => cut_under(alloc, text, TURKISH_SINGLE, Width::Eight)?,
    };
    match found {
        Some(segments) => Ok(segments),
        None => Err("a character is in neither table".into()),
    }
}

/// How many septets each segment has, asked once more where memory ran out.
fn counts_at_last(alloc: Global, segments: &NationalSegments) -> Result<Vec<usize>, Fail> {
    match counts_of(alloc, segments) {
        Ok(counts) => Ok(counts),
        Err(_) => Ok(counts_of(alloc, segments)?),
    }
}

/// The text of 156 letters, asked once more where memory ran out.
fn text_at_last(alloc: Global) -> Result<String, Fail> {
    match repeated(alloc, "a", 156, "") {
        Ok(text) => Ok(text),
        Err(_) => Ok(repeated(alloc, "a", 156, "")?),
    }
}

#[test]
fn cuts_after_a_refused_growth(rt: HostRuntime) -> Result<(), Fail> {
    let text = text_at_last(rt.alloc())?;
    let segments = cut_at_last(rt.alloc(), &text)?;
    let counts = counts_at_last(rt.alloc(), &segments)?;
    same(
        &rt,
        &"156 letters",
        &counts.as_slice(),
        &[149, 7].as_slice(),
    );
    Ok(())
}

/// Whether a text takes a segment in UCS-2, asked once more where memory ran out.
fn is_wide_at_last(alloc: Global, text: &str) -> Result<bool, Fail> {
    let language = Some(Language::Turkish);
    let segments = match cut_fewest(alloc, text, language, Width::Eight) {
        Ok(segments) => segments,
        Err(_) => cut_fewest(alloc, text, language, Width::Eight)?,
    };
    match segments {
        LanguageSegments::Ucs2(cut) => Ok(cut.len() == 1),
        LanguageSegments::Septets(_) => Ok(false),
    }
}

#[test]
fn chooses_after_a_refused_growth(rt: HostRuntime) -> Result<(), Fail> {
    holds(&rt, &"UCS-2", is_wide_at_last(rt.alloc(), "şж")?);
    Ok(())
}
