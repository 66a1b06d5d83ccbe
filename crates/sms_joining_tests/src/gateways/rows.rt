//! Rows of the tests of gateways.

use sms_trial::Fed;

/// Units after their recipients: two segments for one, and one of the same message for another;
/// after the address of a centre; in a record; data alone; and lines at fault.
pub static RECIPIENTS: [Fed; 5] = [
    Fed {
        words: &["sms", "join", "--to"],
        input: "+27001 44049101400000425060708090000D060804010202027710FDFE06\n\
            +27002 44049101400000425060708090000D0608040102020177D0DB5D06\n\
            +27001  44049101400000425060708090000D0608040102020177D0DB5D06\r\n",
        status: 0,
        output: "+27001 768294489 +1004 w onew two\nopen: +27002 +1004 16 258 2 missing 2\n",
    },
    Fed {
        words: &["sms", "join", "--to", "--sca", "--verbose"],
        input: "+27001 00040491013000004250607080900005E8329BFD06\n\
            +27002 00040491013000004250607080900005E8329BFD06\n\
            +27001 00040491013000004250607080900005E8329BFD06\n",
        status: 0,
        output: "+27001 768294489 +1003 hello\n+27002 768294489 +1003 hello\nline 3: repeat\n",
    },
    Fed {
        words: &["sms", "join", "--to", "--record"],
        input: "+27001 00FF\n+27001 0107917283010010F5040491011000000010100000000002E834FFFF\n",
        status: 0,
        output: "+27001 0 +1001 hi\n",
    },
    Fed {
        words: &["sms", "join", "--to", "--data", "--septets"],
        input: "bank +1001 00 0 6869\n27002 +1001 00 1 0500030802016F6E6520\n",
        status: 0,
        output: "bank - +1001 hi\nopen: 27002 +1001 8 8 2 missing 2\n",
    },
    Fed {
        words: &["sms", "join", "--to"],
        input: "040491013000004250607080900005E8329BFD06\n\
            +12x 040491013000004250607080900005E8329BFD06\n+27001 0g\n+27001 01\n\n+27001\n",
        status: 1,
        output: "line 1: bad line\nline 2: bad address\nline 3: bad hex\n\
            line 4: at 0: wrong type\nline 6: bad line\n",
    },
];

/// The same in JSON.
pub static OBJECTS: [Fed; 1] = [Fed {
    words: &["sms", "join", "--to", "--json"],
    input: "+27001 44049101400000425060708090000D060804010202027710FDFE06\n\
        +27002 44049101400000425060708090000D0608040102020177D0DB5D06\n\
        +27001 44049101400000425060708090000D0608040102020177D0DB5D06\n+27001\n",
    status: 1,
    output: "{\"recipient\":{\"text\":\"+27001\",\"type\":1,\"plan\":1},\"text\":\"w onew two\",\
        \"origin\":{\"text\":\"+1004\",\"type\":1,\"plan\":1},\"moment\":768294489}\n\
        {\"line\":4,\"fault\":{\"layer\":\"hex\",\"at\":null,\"reason\":\"bad line\"}}\n\
        {\"open\":{\"recipient\":{\"text\":\"+27002\",\"type\":1,\"plan\":1},\
        \"origin\":{\"text\":\"+1004\",\"type\":1,\"plan\":1},\"width\":16,\"reference\":258,\
        \"maximum\":2,\"missing\":[2]}}\n",
}];

/// A text, the clock a week later, and the text once more: forgotten by then, or not yet; and a text
/// that comes after one with a wrong year, which holds nothing.
pub static FORGOTTEN: [Fed; 3] = [
    Fed {
        words: &["sms", "join", "--verbose", "--remember-for", "604800"],
        input: "040491013000004250607080900005E8329BFD06\n\
            040491013000004250607080900005E8329BFD06\n\
            040491013000004250317080900004EC30BD0C\n\
            040491013000004250607080900005E8329BFD06\n",
        status: 0,
        output: "768294489 +1003 hello\nline 2: repeat\n768899289 +1003 late\n\
            768294489 +1003 hello\n",
    },
    Fed {
        words: &["sms", "join", "--verbose", "--remember-for", "604801"],
        input: "040491013000004250607080900005E8329BFD06\n\
            040491013000004250317080900004EC30BD0C\n\
            040491013000004250607080900005E8329BFD06\n",
        status: 0,
        output: "768294489 +1003 hello\n768899289 +1003 late\nline 3: repeat\n",
    },
    Fed {
        words: &["sms", "join", "--verbose", "--remember-for", "604800"],
        input: "040491013000004250607080900005E8329BFD06\n\
            040491015000005350607080900005E8329BFD06\n\
            040491014000004250607080900005E8329BFD06\n\
            040491013000004250317080900004EC30BD0C\n\
            040491014000004250607080900005E8329BFD06\n",
        status: 0,
        output: "768294489 +1003 hello\n1115363289 +1005 hello\n768294489 +1004 hello\n\
            768899289 +1003 late\n768294489 +1004 hello\n",
    },
];

/// A text in one piece that comes twice, and a segment that does.
pub static ALONE: [Fed; 3] = [
    Fed {
        words: &["sms", "join", "--alone", "pass", "--verbose"],
        input: "040491013000004250607080900005E8329BFD06\n\
            44049101400000425060708090000D060804010202027710FDFE06\n\
            040491013000004250607080900005E8329BFD06\n\
            44049101400000425060708090000D060804010202027710FDFE06\n",
        status: 0,
        output: "768294489 +1003 hello\n768294489 +1003 hello\nline 4: repeat\n\
            open: +1004 16 258 2 missing 1\n",
    },
    Fed {
        words: &["sms", "join", "--alone", "remember", "--verbose"],
        input: "040491013000004250607080900005E8329BFD06\n\
            040491013000004250607080900005E8329BFD06\n",
        status: 0,
        output: "768294489 +1003 hello\nline 2: repeat\n",
    },
    Fed {
        words: &["sms", "join", "--alone=pass", "--remembered=1", "--verbose"],
        input: "44049101400000425060708090000D060804010202027710FDFE06\n\
            44049101400000425060708090000D0608040102020177D0DB5D06\n\
            040491013000004250607080900005E8329BFD06\n\
            44049101400000425060708090000D0608040102020177D0DB5D06\n",
        status: 0,
        output: "768294489 +1004 w onew two\n768294489 +1003 hello\nline 4: repeat\n",
    },
];

/// What no file is opened for, and an option that wants another.
pub static WRONG: [Fed; 3] = [
    Fed {
        words: &["sms", "join", "--every", "1"],
        input: "040491013000004250607080900005E8329BFD06\n",
        status: 2,
        output: "option not for this kind\n",
    },
    Fed {
        words: &["sms", "join", "--state", "file"],
        input: "040491013000004250607080900005E8329BFD06\n",
        status: 3,
        output: "state: folder not opened: refused\n",
    },
    Fed {
        words: &["sms", "join", "--every", "1", "--state", "file"],
        input: "040491013000004250607080900005E8329BFD06\n",
        status: 3,
        output: "state: folder not opened: refused\n",
    },
];
