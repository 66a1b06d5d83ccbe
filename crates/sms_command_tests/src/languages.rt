//! Texts that are shown under the national language tables that their headers tell.

use crate::found::{Shown, holds};
use sms_trial::answers_with;
use std::alloc::Global;
use std::process::Abort;
use std::test::Fail;

/// Deliveries with a header, and the line of their text under its tables (3GPP TS 23.040,
/// 9.2.3.24.15 and 9.2.3.24.16; TS 23.038, annex A): Turkish single and locking shift, Spanish
/// single shift, both Portuguese ones with codes that the single shift table leaves reserved; no
/// locking shift table for Spanish, an unknown language, an element of another length; the later
/// of two, a header whose last element is cut, none, and beside a place.
static TOLD: [Shown; 11] = [
    Shown {
        octets: "44049101100000001010000000000903240101D89C3769",
        lines: "text: ğı\n",
    },
    Shown {
        octets: "44049101100000001010000000000903250101601C3840",
        lines: "text: ğıŞİ\n",
    },
    Shown {
        octets: "44049101100000001010000000000803240102D884FB",
        lines: "text: áñ\n",
    },
    Shown {
        octets: "44049101100000001010000000000E062501032401037BD246B22101",
        lines: "text: ãºΦº\n",
    },
    Shown {
        octets: "440491011000000010100000000006032501022000",
        lines: "text: è\n",
    },
    Shown {
        octets: "44049101100000001010000000000703240109D89401",
        lines: "text: €\n",
    },
    Shown {
        octets: "44049101100000001010000000000804240201016CCE",
        lines: "text: g\n",
    },
    Shown {
        octets: "44049101100000001010000000000A062401012401039B30",
        lines: "text: Â\n",
    },
    Shown {
        octets: "44049101100000001010000000000804240101006CCE",
        lines: "text: g\n",
    },
    Shown {
        octets: "44049101100000001010000000000400C0E60C",
        lines: "text: g\n",
    },
    Shown {
        octets: "44049101100000001010000000000D080003070101240101607306",
        lines: "concat: 8 7 1 1\ntext: ğ\n",
    },
];

/// A submission of `ğı` with the Turkish single shift table.
const SUBMISSION: &str = "41000491011000000903240101D89C3769";

/// The answer to words has a part.
fn is_told(rt: &impl Abort, alloc: Global, words: &[&str], part: &str) -> Result<(), Fail> {
    let told = answers_with(alloc, words, 0, part)?;
    holds(rt, &words, told);
    Ok(())
}

#[test]
fn shows_texts_under_tables(rt: HostRuntime) -> Result<(), Fail> {
    for row in &TOLD {
        let words = ["sms", "show", "deliver", row.octets, "--languages"];
        is_told(&rt, rt.alloc(), &words, row.lines)?;
    }
    let words = ["sms", "show", "submit", SUBMISSION, "--languages"];
    is_told(&rt, rt.alloc(), &words, "text: ğı\n")?;
    let words = [
        "sms",
        "show",
        "deliver",
        TOLD[0].octets,
        "--languages",
        "--json",
    ];
    is_told(&rt, rt.alloc(), &words, "\"text\":\"ğı\"")
}

/// Without the option a header's tables change nothing.
#[test]
fn shows_texts_by_the_default_alphabet(rt: HostRuntime) -> Result<(), Fail> {
    let words = ["sms", "show", "deliver", TOLD[0].octets];
    is_told(&rt, rt.alloc(), &words, "text: gi\n")?;
    let words = ["sms", "show", "deliver", TOLD[1].octets];
    is_told(&rt, rt.alloc(), &words, "text: øìÆ¡\n")?;
    let words = ["sms", "show", "submit", SUBMISSION];
    is_told(&rt, rt.alloc(), &words, "text: gi\n")
}
