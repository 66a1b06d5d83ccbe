//! Texts split under references of two octets, and texts and references that are too large.

use crate::found::holds;
use sms_trial::{answer_to, expanded, is_expanded};
use std::alloc::Global;
use std::test::Fail;

/// A text, its reference, and the lines of its segments; `|` and `*` as `expanded` takes them.
struct WideRow {
    text: &'static str,
    reference: &'static str,
    lines: &'static str,
}

static WIDE_ROWS: [WideRow; 4] = [
    WideRow {
        text: "a*160",
        reference: "0",
        lines: "1/1 gsm 160 |E170381C0E87C3*20|\n",
    },
    WideRow {
        text: "a*161",
        reference: "0",
        lines: "1/2 gsm 160 06080400000201|E170381C0E87C3*19|\n2/2 gsm 17 06080400000202E170381C0E87C361\n",
    },
    WideRow {
        text: "ж*71",
        reference: "0",
        lines: "1/2 ucs2 139 06080400000201|0436*66|\n2/2 ucs2 17 06080400000202|0436*5|\n",
    },
    WideRow {
        text: "a*161",
        reference: "258",
        lines: "1/2 gsm 160 06080401020201|E170381C0E87C3*19|\n2/2 gsm 17 06080401020202E170381C0E87C361\n",
    },
];

/// A text that is not split: its reference, the status, and the whole output.
struct UncutRow {
    text: &'static str,
    is_wide: bool,
    reference: &'static str,
    status: u8,
    line: &'static str,
}

static UNCUT_ROWS: [UncutRow; 3] = [
    UncutRow {
        text: "a",
        is_wide: false,
        reference: "256",
        status: 2,
        line: "reference too large\n",
    },
    UncutRow {
        text: "a*39016",
        is_wide: false,
        reference: "65535",
        status: 2,
        line: "reference too large\n",
    },
    UncutRow {
        text: "a*38761",
        is_wide: true,
        reference: "65535",
        status: 1,
        line: "too many segments\n",
    },
];

/// The status and the whole output, for a text.
fn splitting_of(
    alloc: Global,
    is_wide: bool,
    reference: &str,
    text: &str,
) -> Result<(u8, String), Fail> {
    if is_wide {
        answer_to(alloc, &["sms", "split", "--wide", "--ref", reference, text])
    } else {
        answer_to(alloc, &["sms", "split", "--ref", reference, text])
    }
}

/// The status and the whole output, for a text of parts under a reference.
fn split_of(
    alloc: Global,
    is_wide: bool,
    reference: &str,
    text: &str,
) -> Result<(u8, String), Fail> {
    let text = expanded(alloc, text)?;
    let answered = splitting_of(alloc, is_wide, reference, &text);
    drop(text);
    answered
}

/// Whether a text is split into the segments of a row.
fn is_split(alloc: Global, row: &WideRow) -> Result<bool, Fail> {
    let (status, answer) = split_of(alloc, true, row.reference, row.text)?;
    let split = is_expanded(alloc, &answer, row.lines);
    drop(answer);
    Ok(split? && status == 0)
}

#[test]
fn splits_under_wide_references(rt: HostRuntime) -> Result<(), Fail> {
    for row in WIDE_ROWS.as_slice() {
        let split = is_split(rt.alloc(), row)?;
        holds(&rt, &(row.text, row.reference), split);
    }
    Ok(())
}

/// Whether a text has the status and the line of a row.
fn is_refused(alloc: Global, row: &UncutRow) -> Result<bool, Fail> {
    let (status, answer) = split_of(alloc, row.is_wide, row.reference, row.text)?;
    Ok(status == row.status && answer.as_str() == row.line)
}

#[test]
fn refuses_references_and_texts_too_large(rt: HostRuntime) -> Result<(), Fail> {
    for row in UNCUT_ROWS.as_slice() {
        let refused = is_refused(rt.alloc(), row)?;
        holds(&rt, &(row.text, row.reference), refused);
    }
    Ok(())
}
