//! User data alone, one a line, that are joined into texts.

use sms_trial::{Fed, are_fed};
use std::test::Fail;

/// Packed septets: a text in one piece, which comes again for want of a stamp; two segments in
/// turned order; UCS-2 in two; and what cannot be read, by its line.
static PACKED: [Fed; 5] = [
    Fed {
        words: &["sms", "join", "--data"],
        input: "+1001 00 0 E8329BFD06\n+1001 00 0 E8329BFD06\n",
        status: 0,
        output: "- +1001 hello\n- +1001 hello\n",
    },
    Fed {
        words: &["sms", "join", "--data"],
        input: "+1002 00 1 050003070202E6E5F1DB4D06\n+1001 00 1 050003070201CC69F99C0E02\n\
            bank 00 1 050003070201CC69F99C0E02\n+1002  00 1  050003070201CC69F99C0E02\r\n",
        status: 0,
        output: "- +1002 first second\nopen: +1001 8 7 2 missing 2\nopen: bank 8 7 2 missing 2\n",
    },
    Fed {
        words: &["sms", "join", "--data", "--verbose"],
        input: "+1001 08 1 0500030902010416\n+1001 08 1 0500030902010416\n\
            +1001 08 1 050003090202044F\n+1001 08 0 0416\n",
        status: 0,
        output: "line 2: repeat\n- +1001 Жя\n- +1001 Ж\n",
    },
    Fed {
        words: &["sms", "join", "--data"],
        input: "+1001 00 0\n+1001 00 2 41\n+1001 0 0 41\n+1001 0000 0 41\n+12x 00 0 41\n\
            +1001 04 0 41\n+1001 00 0 4x\n+1001 00 1 05\n+1001 00 0 41 41\n+1001 00 0 -\n",
        status: 1,
        output: "line 1: bad line\nline 2: bad line\nline 3: bad hex\nline 4: bad line\n\
            line 5: bad address\nline 6: no text\nline 7: bad hex\n\
            line 8: at 0: header too long\nline 9: bad line\n- +1001 \n",
    },
    Fed {
        words: &["sms", "join", "--data", "--json"],
        input: "+1001 00 0 E8329BFD06\n+1001 00 1 05\n",
        status: 1,
        output: "{\"text\":\"hello\",\"origin\":{\"text\":\"+1001\",\"type\":1,\"plan\":1},\
            \"moment\":null}\n{\"line\":2,\"fault\":{\"layer\":\"data\",\"at\":0,\
            \"reason\":\"header too long\"}}\n",
    },
];

/// Septets that stand one an octet.
static SEPTETS: [Fed; 3] = [
    Fed {
        words: &["sms", "join", "--data", "--septets"],
        input: "+1001 00 1 0500030802016F6E6520\n+1001 00 1 05000308020274776F\n",
        status: 0,
        output: "- +1001 one two\n",
    },
    Fed {
        words: &["sms", "join", "--data", "--septets"],
        input: "+1001 00 0 41C1\n+1001 08 0 0416\n",
        status: 1,
        output: "line 1: at 1: bad septet\n- +1001 Ж\n",
    },
    Fed {
        words: &["sms", "join", "--data", "--septets", "--languages"],
        input: "+1001 00 1 032401011B67\n",
        status: 0,
        output: "- +1001 ğ\n",
    },
];

/// Turkish letters, by the single shift table that each header tells: with and without it.
static LANGUAGES: [Fed; 2] = [
    Fed {
        words: &["sms", "join", "--data", "--languages"],
        input: "+1001 00 1 08000303020124010160730E03\n+1001 00 1 08000303020224010140BC4903\n",
        status: 0,
        output: "- +1001 ğabı\n",
    },
    Fed {
        words: &["sms", "join", "--data"],
        input: "+1001 00 1 08000303020124010160730E03\n+1001 00 1 08000303020224010140BC4903\n",
        status: 0,
        output: "- +1001 gabi\n",
    },
];

/// Options that say two ways.
static TWO_WAYS: [Fed; 2] = [
    Fed {
        words: &["sms", "join", "--data", "--sca"],
        input: "",
        status: 2,
        output: "option not for this kind\n",
    },
    Fed {
        words: &["sms", "join", "--septets"],
        input: "",
        status: 2,
        output: "option not for this kind\n",
    },
];

#[test]
fn joins_packed_data(rt: HostRuntime) -> Result<(), Fail> {
    are_fed(rt.alloc(), PACKED.as_slice())
}

#[test]
fn joins_septets(rt: HostRuntime) -> Result<(), Fail> {
    are_fed(rt.alloc(), SEPTETS.as_slice())
}

#[test]
fn joins_under_tables(rt: HostRuntime) -> Result<(), Fail> {
    are_fed(rt.alloc(), LANGUAGES.as_slice())
}

#[test]
fn options_that_say_two_ways_are_refused(rt: HostRuntime) -> Result<(), Fail> {
    are_fed(rt.alloc(), TWO_WAYS.as_slice())
}
