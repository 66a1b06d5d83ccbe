//! Which tables take the fewest segments.

use crate::cut::{
    DEFAULT, PORTUGUESE_BOTH, PORTUGUESE_LOCKING, PORTUGUESE_SINGLE, SPANISH, TURKISH_LOCKING,
    TURKISH_SINGLE, repeated,
};
use crate::found::same;
use sms_join::SplitFault;
use sms_language::Tables;
use sms_national::{Language, LanguageSegments, cut_fewest};
use sms_tpdu::Width;
use std::alloc::Global;
use std::process::Abort;
use std::test::Fail;

/// A letter a number of times and another text, a language or all, the tables by which it is cut
/// (`None` is UCS-2), and how many segments it has.
struct Row {
    letter: &'static str,
    times: usize,
    then: &'static str,
    language: Option<Language>,
    tables: Option<Tables>,
    count: usize,
}

/// `ş` is two septets by the single shift table, one by the locking shift table.
static ROWS: [Row; 18] = [
    Row {
        letter: "hi",
        times: 1,
        then: "",
        language: Some(Language::Turkish),
        tables: Some(DEFAULT),
        count: 1,
    },
    Row {
        letter: "ş",
        times: 1,
        then: "",
        language: Some(Language::Turkish),
        tables: Some(TURKISH_SINGLE),
        count: 1,
    },
    Row {
        letter: "ş",
        times: 77,
        then: "",
        language: Some(Language::Turkish),
        tables: Some(TURKISH_SINGLE),
        count: 1,
    },
    Row {
        letter: "ş",
        times: 78,
        then: "",
        language: Some(Language::Turkish),
        tables: Some(TURKISH_LOCKING),
        count: 1,
    },
    Row {
        letter: "ş",
        times: 1,
        then: "",
        language: Some(Language::Spanish),
        tables: None,
        count: 1,
    },
    Row {
        letter: "ş",
        times: 71,
        then: "",
        language: Some(Language::Portuguese),
        tables: None,
        count: 2,
    },
    Row {
        letter: "á",
        times: 1,
        then: "",
        language: None,
        tables: Some(SPANISH),
        count: 1,
    },
    Row {
        letter: "á",
        times: 78,
        then: "",
        language: Some(Language::Spanish),
        tables: Some(SPANISH),
        count: 2,
    },
    Row {
        letter: "á",
        times: 78,
        then: "",
        language: None,
        tables: Some(PORTUGUESE_LOCKING),
        count: 1,
    },
    Row {
        letter: "ã",
        times: 1,
        then: "",
        language: None,
        tables: Some(PORTUGUESE_SINGLE),
        count: 1,
    },
    Row {
        letter: "ã",
        times: 100,
        then: "Φ",
        language: Some(Language::Portuguese),
        tables: Some(PORTUGUESE_BOTH),
        count: 1,
    },
    Row {
        letter: "ã",
        times: 1,
        then: "ş",
        language: None,
        tables: None,
        count: 1,
    },
    Row {
        letter: "^",
        times: 80,
        then: "",
        language: Some(Language::Portuguese),
        tables: Some(DEFAULT),
        count: 1,
    },
    Row {
        letter: "^",
        times: 81,
        then: "",
        language: Some(Language::Portuguese),
        tables: Some(PORTUGUESE_LOCKING),
        count: 1,
    },
    Row {
        letter: "^",
        times: 81,
        then: "",
        language: Some(Language::Turkish),
        tables: Some(DEFAULT),
        count: 2,
    },
    Row {
        letter: "a",
        times: 158,
        then: "ş",
        language: Some(Language::Turkish),
        tables: Some(TURKISH_SINGLE),
        count: 2,
    },
    Row {
        letter: "ж",
        times: 1,
        then: "",
        language: None,
        tables: None,
        count: 1,
    },
    Row {
        letter: "a",
        times: 38_000,
        then: "",
        language: None,
        tables: Some(DEFAULT),
        count: 249,
    },
];

/// The tables by which segments are cut, and how many there are.
fn found_in(segments: &LanguageSegments) -> (Option<Tables>, usize) {
    match segments {
        LanguageSegments::Septets(cut) => (Some(cut.tables()), cut.len()),
        LanguageSegments::Ucs2(cut) => (None, cut.len()),
    }
}

/// A text has the segments of its row.
fn chooses(rt: &impl Abort, alloc: Global, text: &str, row: &Row) -> Result<(), Fail> {
    let segments = cut_fewest(alloc, text, row.language, Width::Eight)?;
    same(rt, &text, &found_in(&segments), &(row.tables, row.count));
    Ok(())
}

#[test]
fn chooses_the_fewest(rt: HostRuntime) -> Result<(), Fail> {
    for row in ROWS.as_slice() {
        let text = repeated(rt.alloc(), row.letter, row.times, row.then)?;
        chooses(&rt, rt.alloc(), &text, row)?;
    }
    Ok(())
}

/// 255 times 153 septets fit, and no more.
#[test]
fn refuses_a_longer_text(rt: HostRuntime) -> Result<(), Fail> {
    let text = repeated(rt.alloc(), "a", 39_016, "")?;
    let fault = cut_fewest(rt.alloc(), &text, None, Width::Eight).err();
    same(
        &rt,
        &"a letter more",
        &fault,
        &Some(SplitFault::TooManySegments),
    );
    Ok(())
}
