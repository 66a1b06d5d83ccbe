//! Texts that are split under national language tables, and segments that are told as data alone.

use crate::found::holds;
use sms_trial::{answers, answers_with, expanded};
use std::alloc::Global;
use std::process::Abort;
use std::test::Fail;

/// Two options with their values, a text and its segments, each in parts as `expanded` takes them.
struct Row {
    options: [&'static str; 4],
    text: &'static str,
    lines: &'static str,
}

/// Each table; `ş` is two septets by the single shift table, one by the locking shift table, `Φ`
/// stands in no table of codes alone.
static CUT: [Row; 10] = [
    Row {
        options: ["--language", "turkish", "--ref", "7"],
        text: "hi",
        lines: "1/1 gsm 2 E834\n",
    },
    Row {
        options: ["--language", "turkish", "--ref", "7"],
        text: "ş",
        lines: "1/1 gsm-turkish-single 7 03240101D8CC01\n",
    },
    Row {
        options: ["--language", "turkish", "--ref", "7"],
        text: "ş*78",
        lines: "1/1 gsm-turkish-locking 83 03250101E8|743A9D4EA7D3E9*9|743A9D4E07\n",
    },
    Row {
        options: ["--language", "turkish", "--ref", "7"],
        text: "ş*156",
        lines: "1/2 gsm-turkish-locking 160 080003070201250101A0|D3E9743A9D4EA7*18|D3E9743A\n\
            |2/2 gsm-turkish-locking 18 080003070202250101A0D3E9743A9D0E\n",
    },
    Row {
        options: ["--language", "spanish", "--ref", "7"],
        text: "á",
        lines: "1/1 gsm-spanish-single 7 03240102D88401\n",
    },
    Row {
        options: ["--language", "spanish", "--ref", "7"],
        text: "ş",
        lines: "1/1 ucs2 2 015F\n",
    },
    Row {
        options: ["--language", "portuguese", "--ref", "7"],
        text: "ã*100|Φ",
        lines: "1/1 gsm-portuguese-both 110 06240103250103|FBFD7EBFDFEFF7*12|FBFD7EBF9100\n",
    },
    Row {
        options: ["--language", "portuguese", "--ref", "7"],
        text: "^*81",
        lines: "1/1 gsm-portuguese-locking 86 03250103B0|582C168BC562B1*10|00\n",
    },
    Row {
        options: ["--language", "auto", "--ref", "7"],
        text: "ã",
        lines: "1/1 gsm-portuguese-single 7 03240103D8EC01\n",
    },
    Row {
        options: ["--language", "auto", "--ref", "7"],
        text: "ж",
        lines: "1/1 ucs2 2 0436\n",
    },
];

/// What stands in front of the octets tells how they are read.
static DATA: [Row; 8] = [
    Row {
        options: ["--data", "--wide", "--ref", "7"],
        text: "hi",
        lines: "1/1 00 no 2 E834\n",
    },
    Row {
        options: ["--data", "--septets", "--ref", "7"],
        text: "hi",
        lines: "1/1 00 no 2 6869\n",
    },
    Row {
        options: ["--data", "--septets", "--ref", "7"],
        text: "a*161",
        lines: "1/2 00 yes 160 050003070201|61*153|\n|2/2 00 yes 15 050003070202|61*8|\n",
    },
    Row {
        options: ["--data", "--septets", "--ref", "7"],
        text: "ж€",
        lines: "1/1 08 no 4 043620AC\n",
    },
    Row {
        options: ["--language", "turkish", "--data", "--septets"],
        text: "ş",
        lines: "1/1 00 yes 7 032401011B73\n",
    },
    Row {
        options: ["--data", "--json", "--ref", "7"],
        text: "ж",
        lines: "{\"sequence\":1,\"maximum\":1,\"dcs\":8,\"header\":false,\"length\":2,\"octets\":\"0436\"}\n",
    },
    Row {
        options: ["--language", "auto", "--data", "--json"],
        text: "ş",
        lines: "{\"sequence\":1,\"maximum\":1,\"dcs\":0,\"header\":true,\"length\":7,\
            \"octets\":\"03240101D8CC01\"}\n",
    },
    Row {
        options: ["--json", "--wide", "--language", "auto"],
        text: "ş",
        lines: "{\"sequence\":1,\"maximum\":1,\"alphabet\":\"gsm-turkish-single\",\"length\":7,\
            \"octets\":\"03240101D8CC01\"}\n",
    },
];

/// Whether a text has the segments of its row.
fn is_split(alloc: Global, row: &Row) -> Result<bool, Fail> {
    let text = expanded(alloc, row.text)?;
    let lines = expanded(alloc, row.lines)?;
    let [first, second, third, fourth] = row.options;
    let words = [
        "sms",
        "split",
        first,
        second,
        third,
        fourth,
        "--",
        text.as_str(),
    ];
    answers(alloc, &words, 0, &lines)
}

/// The text of each row is split into its segments.
fn are_split(rt: &impl Abort, alloc: Global, rows: &[Row]) -> Result<(), Fail> {
    for row in rows {
        holds(rt, &row.text, is_split(alloc, row)?);
    }
    Ok(())
}

#[test]
fn splits_under_tables(rt: HostRuntime) -> Result<(), Fail> {
    are_split(&rt, rt.alloc(), CUT.as_slice())
}

#[test]
fn splits_into_data(rt: HostRuntime) -> Result<(), Fail> {
    are_split(&rt, rt.alloc(), DATA.as_slice())
}

#[test]
fn refuses_septets_without_data(rt: HostRuntime) -> Result<(), Fail> {
    let words = ["sms", "split", "--septets", "hi"];
    let refused = answers(rt.alloc(), &words, 2, "option not for this kind\n")?;
    holds(&rt, &"--septets", refused);
    Ok(())
}

#[test]
fn refuses_another_language(rt: HostRuntime) -> Result<(), Fail> {
    let words = ["sms", "split", "--language", "welsh", "hi"];
    let refused = answers_with(rt.alloc(), &words, 2, "welsh")?;
    holds(&rt, &"--language", refused);
    Ok(())
}
