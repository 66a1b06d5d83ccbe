//! User data alone that are shown.

use crate::found::holds;
use sms_trial::answers;
use std::alloc::Global;
use std::process::Abort;
use std::test::Fail;

/// Words after `show data`, the status and the answer.
struct Row {
    words: &'static [&'static str],
    status: u8,
    answer: &'static str,
}

/// Packed, without a header and with one, under each alphabet.
static PACKED: [Row; 8] = [
    Row {
        words: &["--dcs", "00", "E8329BFD06"],
        status: 0,
        answer: "length: 5\ntext: hello\n",
    },
    Row {
        words: &["--dcs", "00", "--udl", "5", "E8329BFD06"],
        status: 0,
        answer: "length: 5\ntext: hello\n",
    },
    Row {
        words: &["--dcs", "00", "--udl", "4", "E8329BFD06"],
        status: 0,
        answer: "length: 4\ntext: hell\nrest: 1\n",
    },
    Row {
        words: &[
            "--dcs",
            "00",
            "--header",
            "--udl",
            "15",
            "050003070302E061391D44BFBF01",
        ],
        status: 0,
        answer: "length: 15\nheader: 0003070302\nconcat: 8 7 3 2\ntext: part two\n",
    },
    Row {
        words: &["--dcs", "08", "00680069"],
        status: 0,
        answer: "length: 4\ntext: hi\n",
    },
    Row {
        words: &["--dcs", "04", "AABB"],
        status: 0,
        answer: "length: 2\ndata: AABB\n",
    },
    Row {
        words: &["--dcs", "08", "--septets", "00680069"],
        status: 0,
        answer: "length: 4\ntext: hi\n",
    },
    Row {
        words: &[
            "--dcs",
            "00",
            "--header",
            "--languages",
            "--udl",
            "9",
            "03240101D89C3769",
        ],
        status: 0,
        answer: "length: 9\nheader: 240101\ntext: ğı\n",
    },
];

/// A septet an octet.
static SINGLES: [Row; 3] = [
    Row {
        words: &["--dcs", "00", "--septets", "68656C6C6F"],
        status: 0,
        answer: "length: 5\ntext: hello\n",
    },
    Row {
        words: &["--dcs", "00", "--septets", "--header", "0500030703026869"],
        status: 0,
        answer: "length: 9\nheader: 0003070302\nconcat: 8 7 3 2\ntext: hi\n",
    },
    Row {
        words: &[
            "--dcs",
            "00",
            "--septets",
            "--header",
            "--languages",
            "032401011B671B69",
        ],
        status: 0,
        answer: "length: 9\nheader: 240101\ntext: ğı\n",
    },
];

/// What is refused.
static FAULTS: [Row; 11] = [
    Row {
        words: &["--dcs", "00", "--septets", "6880"],
        status: 1,
        answer: "at 1: bad septet\n",
    },
    Row {
        words: &["--dcs", "00", "--udl", "200", "68"],
        status: 1,
        answer: "at 0: data too long\n",
    },
    Row {
        words: &["--dcs", "04", "--header", "0541"],
        status: 1,
        answer: "at 0: header too long\n",
    },
    Row {
        words: &["--dcs", "00", "--udl", "5", "E832"],
        status: 1,
        answer: "at 2: short\n",
    },
    Row {
        words: &["--dcs", "00", "--septets", "--header", "0561"],
        status: 1,
        answer: "at 0: header too long\n",
    },
    Row {
        words: &["--dcs", "00", "--json", "--udl", "5", "E832"],
        status: 1,
        answer: "{\"fault\":{\"layer\":\"data\",\"at\":2,\"reason\":\"short\"}}\n",
    },
    Row {
        words: &["--dcs", "0", "68"],
        status: 2,
        answer: "bad coding scheme\n",
    },
    Row {
        words: &["--dcs", "0000", "68"],
        status: 2,
        answer: "bad coding scheme\n",
    },
    Row {
        words: &["68"],
        status: 2,
        answer: "option not for this kind\n",
    },
    Row {
        words: &["--dcs", "00", "--septets", "--udl", "1", "68"],
        status: 2,
        answer: "option not for this kind\n",
    },
    Row {
        words: &["--dcs", "00", "--sca", "68"],
        status: 2,
        answer: "option not for this kind\n",
    },
];

/// Each row has its status and its answer.
fn are_shown(rt: &impl Abort, alloc: Global, rows: &[Row]) -> Result<(), Fail> {
    for row in rows {
        let mut words = Vec::from_slice(alloc, &["sms", "show", "data"])?;
        words.extend_from_slice(row.words)?;
        let told = answers(alloc, &words, row.status, row.answer)?;
        holds(rt, &row.words, told);
    }
    Ok(())
}

#[test]
fn shows_packed_data(rt: HostRuntime) -> Result<(), Fail> {
    are_shown(&rt, rt.alloc(), PACKED.as_slice())
}

#[test]
fn shows_single_septets(rt: HostRuntime) -> Result<(), Fail> {
    are_shown(&rt, rt.alloc(), SINGLES.as_slice())
}

#[test]
fn tells_faults_of_data(rt: HostRuntime) -> Result<(), Fail> {
    are_shown(&rt, rt.alloc(), FAULTS.as_slice())
}
