//! Rows of the tests of `play`. Between bars stand parts, and after an asterisk how many times a
//! part stands.

/// A script whose phones are given, and what its transcript says.
pub struct Played {
    /// Settings and events: the phones stand before them.
    pub script: &'static str,
    /// Events with their words and the numbers of the packets that they put out, and what stands at
    /// phones in the end.
    pub says: &'static [&'static str],
    /// Lines of packets.
    pub packets: &'static [&'static str],
}

/// A script, the status, and the whole output.
pub struct Whole {
    pub script: &'static str,
    pub status: u8,
    pub output: &'static str,
}

/// The phones of the scripts.
pub const PHONES: &str = "phone a +1001\nphone b +1002\nphone c +1003\n";

/// A text is typed, and comes.
pub const WAY: &str = "\
phone a +1001
phone b +1002
type a +1002 hi
carry 1
push b
carry 4
carry 6
carry 3
";

pub const WAY_TOLD: &str = "\
1 typed 1
#1 a>centre 090113000000039101000B010004910120000002E834
2 held
#2 centre>a 8904
#3 centre>a 89010D03004109010000101000000000
3 pushed
#4 centre>b 0901190100039101000011040491011000000010100000000002E834
4 finished
#5 b>centre 8904
#6 b>centre 890106020041020000
5 delivered
#7 centre>b 0904
6 accepted 1
#8 a>centre 0904
sent a 1 accepted
store a 0
store b 1
+1001 hi
";

/// What becomes of a text in two segments whose packets come late, twice and out of order.
const LONG_SAYS: &str = "\
1 typed 1 #1
2 held #2 #3
3 segment 1 1 #4 #5
4 held #6 #7
5 pushed #8
6 pushed #9
7 kept #10 #11
8 finished #12 #13
9 repeat #14 #15
10 repeat #16 #17
11 delivered #18
12 drop unmatched
13 pushed #19
14 repeat #20 #21
15 delivered #22
16 accepted 1 #23";

pub static WHOLES: [Whole; 9] = [
    Whole {
        script: WAY,
        status: 0,
        output: WAY_TOLD,
    },
    Whole {
        script: "",
        status: 0,
        output: "",
    },
    Whole {
        script: "phone a +1001\r\nphone b +1002",
        status: 0,
        output: "store a 0\nstore b 0\n",
    },
    Whole {
        script: "carry 1",
        status: 0,
        output: "1 fault no such packet\n",
    },
    Whole {
        script: "tick 3155760000\ntick 3155759999\n",
        status: 0,
        output: "1 fault clock end\n2 ticked\n",
    },
    Whole {
        script: "clock 3155759999\ntick 0\ntick 1\n",
        status: 0,
        output: "1 ticked\n2 fault clock end\n",
    },
    Whole {
        script: "carry x",
        status: 1,
        output: "line 1: bad number\n",
    },
    Whole {
        script: "phone a +1001\n\n# a\npush a\nheld 1\npush a\n",
        status: 1,
        output: "1 nothing waits\nline 5: setting after event\n",
    },
    Whole {
        script: "phone a +1001\ntimeout a\ninject up a FF\ninject up a 8904\n",
        status: 0,
        output: "1 idle\n2 drop not cp\n3 noted\nstore a 0\n",
    },
];

/// Texts in one piece that come to a store.
pub static STORED: [Played; 4] = [
    Played {
        script: "type a +1002\ncarry 1\npush b\ncarry 4\n",
        says: &["1 typed 1 #1", "store b 1\n+1001 "],
        packets: &["#1 a>centre 0901110000000391010009010004910120000000"],
    },
    Played {
        script: "type a +1002 hi\ncarry 1\ncarry 3\ntype a +1002 hi\ncarry 5\npush b\npush b\ncarry 8\ncarry 9\n",
        says: &[
            "1 typed 1 #1\n2 held #2 #3\n3 accepted 1 #4\n4 typed 2 #5\n5 held #6 #7\n6 pushed #8",
            "7 pushed #9\n8 finished #10 #11\n9 finished #12 #13",
            "store b 2\n+1001 hi\n+1001 hi",
        ],
        packets: &[
            "#8 centre>b 0901190100039101000011000491011000000010100000000002E834",
            "#9 centre>b 1901190101039101000011000491011000000010100000100002E834",
        ],
    },
    Played {
        script: "remembered 2\ntype a +1002 one\ncarry 1\ncarry 3\npush b\ncarry 5\ncarry 7\ntype a +1002 two\n|\
            carry 9\ncarry 11\npush b\ncarry 13\ncarry 15\ncarry 5\ntype a +1002 three\ncarry 19\ncarry 21\n|\
            push b\ncarry 23\ncarry 5\n",
        says: &[
            "13 repeat #17 #18",
            "18 finished #24 #25\n19 finished #26 #27",
            "store b 4\n+1001 one\n+1001 two\n+1001 three\n+1001 one",
        ],
        packets: &[],
    },
    Played {
        script: "store 1\ntype a +1002 one\ncarry 1\ncarry 3\npush b\ncarry 5\ncarry 7\ntype a +1002 two\ncarry 9\n|\
            carry 11\npush b\ncarry 13\ncarry 15\npush b\ncarry 17\ncarry 5\n",
        says: &[
            "10 pushed #13\n11 refused 22 D3 #14 #15\n12 returned #16\n13 pushed #17",
            "14 refused 22 D3 #18 #19\n15 repeat #20 #21",
            "store b 1\n+1001 one",
        ],
        packets: &[
            "#15 b>centre 99010904010116410300D300",
            "#19 b>centre A9010904020116410300D300",
        ],
    },
];

/// Texts in two segments.
pub static IN_SEGMENTS: [Played; 5] = [
    Played {
        script: "brief\ntype a +1002 |a*161|\ncarry 1\ncarry 3\ncarry 5\npush b\npush b\ncarry 9\ncarry 8\ncarry 8\n|\
            carry 9\ncarry 11\ncarry 13\npush b\ncarry 19\ncarry 21\ncarry 7\n",
        says: &[LONG_SAYS, "store b 1\n+1001 |a*161"],
        packets: &[
            "#1 a>centre 160",
            "#5 a>centre 34",
            "#8 centre>b 166",
            "#9 centre>b 40",
            "#19 centre>b 166",
        ],
    },
    Played {
        script: "wide\ntype a +1002 |a*161|\ncarry 1\ncarry 3\ncarry 5\npush b\npush b\ncarry 9\ncarry 8\ncarry 8\n|\
            carry 9\ncarry 11\ncarry 13\npush b\ncarry 19\ncarry 21\ncarry 7\n",
        says: &[LONG_SAYS, "store b 1\n+1001 |a*161"],
        packets: &[],
    },
    Played {
        script: "open 1\ntype a +1002 |a*161|\ntype c +1002 |x*161|\ncarry 1\ncarry 2\ncarry 4\ncarry 6\ncarry 8\n|\
            carry 10\npush b\ncarry 15\ncarry 17\npush b\ncarry 19\ncarry 21\npush b\ncarry 23\ncarry 25\n|\
            push b\ncarry 27\ncarry 29\npush b\ncarry 31\n",
        says: &[
            "9 pushed #15\n10 kept #16 #17\n11 delivered #18\n12 pushed #19\n13 refused 22 D3 #20 #21",
            "14 returned #22\n15 pushed #23\n16 finished #24 #25\n17 delivered #26\n18 pushed #27",
            "19 kept #28 #29\n20 delivered #30\n21 pushed #31\n22 finished #32 #33",
            "store b 2\n+1001 |a*161|\n+1003 |x*161",
        ],
        packets: &["#21 b>centre 99010904010116410300D300"],
    },
    Played {
        script: "type a +1002 |a*161|\ncarry 1\ncarry 3\ncarry 5\npush b\npush b\ncarry 8\ntick 604799\ntick 1\n|\
            carry 9\ncarry 8\ncarry 9\n",
        says: &[
            "7 kept #10 #11\n8 ticked\n9 ticked\n10 kept #12 #13\n11 finished #14 #15\n12 repeat #16 #17",
            "store b 1\n+1001 |a*161",
        ],
        packets: &[],
    },
    Played {
        script: "type a +1002 |a*161|\ncarry 1\ncarry 3\ncarry 5\npush b\npush b\ncarry 8\ntick 604799\ncarry 9\n",
        says: &["7 kept #10 #11\n8 ticked\n9 finished #12 #13"],
        packets: &[],
    },
];

/// Texts that the centre sees twice, or refuses.
pub static AT_THE_CENTRE: [Played; 5] = [
    Played {
        script: "type a +1002 hi\ncarry 1\ntimeout a\ncarry 4\ncarry 6\ncarry 3\npush b\ncarry 8\ncarry 10\n|\
            tick 172800\ncarry 4\npush b\ncarry 14\n",
        says: &[
            "1 typed 1 #1\n2 held #2 #3\n3 repeated 1 #4\n4 refused 21 C5 #5 #6\n5 accepted 1 #7",
            "6 drop unmatched\n7 pushed #8\n8 finished #9 #10\n9 delivered #11\n10 ticked",
            "11 held #12 #13\n12 pushed #14\n13 finished #15 #16",
            "store b 2\n+1001 hi\n+1001 hi",
        ],
        packets: &[
            "#4 a>centre 190113000100039101000B050004910120000002E834",
            "#6 centre>a 99011005010115410A01C50000101000000000",
        ],
    },
    Played {
        script: "type a +1009 hi\ncarry 1\ncarry 3\n",
        says: &[
            "1 typed 1 #1\n2 refused 1 C3 #2 #3\n3 failed 1 1 C3 #4",
            "sent a 1 failed",
        ],
        packets: &["#3 centre>a 89011005000101410A01C30000101000000000"],
    },
    Played {
        script: "held 1\ntype a +1002 hi\ncarry 1\ntype c +1001 hi\ncarry 4\ncarry 6\ntick 172800\npush b\n|\
            type c +1001 hi\ncarry 8\n",
        says: &[
            "3 typed 1 #4\n4 refused 42 C0 #5 #6\n5 failed 1 42 C0 #7\n6 ticked\n7 nothing waits",
            "8 typed 2 #8\n9 held #9 #10",
        ],
        packets: &["#6 centre>c 8901100500012A410A01C00000101000000000"],
    },
    Played {
        script: "reject\ntype a +1002 hi\ncarry 1\ncarry 1\ncarry 5\ncarry 3\npush b\ncarry 7\ncarry 9\ncarry 1\n",
        says: &[
            "1 typed 1 #1\n2 held #2 #3\n3 refused 21 C5 #4 #5\n4 accepted 1 #6\n5 drop unmatched",
            "6 pushed #7\n7 finished #8 #9\n8 delivered #10\n9 refused 21 C5 #11 #12",
            "store b 1\n+1001 hi",
        ],
        packets: &[
            "#1 a>centre 090113000000039101000B050004910120000002E834",
            "#5 centre>a 89011005000115410A01C50000101000000000",
        ],
    },
    Played {
        script: "type a +1002 hi\ncarry 1\ncarry 1\n",
        says: &["3 held #4 #5"],
        packets: &[],
    },
];

/// Packets that no party put out.
pub static INJECTED: [Played; 3] = [
    Played {
        script: "inject down b 090118010003910100001004049101100004001010000000000141\ninject up a FF\n|\
            inject up a 090113000000039101000B010004910120000402E834\npush b\ncarry 5\ncarry 7\n",
        says: &[
            "1 refused 111 90 #1 #2\n2 drop not cp\n3 held #3 #4\n4 pushed #5\n5 refused 111 90 #6 #7",
            "6 abandoned #8",
        ],
        packets: &[
            "#2 b>centre 8901090400016F4103009000",
            "#7 b>centre 8901090400016F4103009000",
        ],
    },
    Played {
        script: "type a +1002 hi\ninject down a 9901020300\ninject down a 8901020301\ninject down a 8901020200\n|\
            inject down a 8904\ninject down a 8901020300\ninject down a 8901020300\n",
        says: &[
            "2 drop unmatched\n3 drop unmatched\n4 drop unmatched\n5 noted\n6 accepted 1 #2\n7 drop unmatched",
            "sent a 1 accepted",
            "store b 0",
        ],
        packets: &["#2 a>centre 0904"],
    },
    Played {
        script: "inject up b 8901020200\ninject up a 0901130000\n",
        says: &["1 drop unmatched\n2 drop not cp"],
        packets: &[],
    },
];

/// Texts and events that nothing answers.
pub static UNANSWERED: [Played; 3] = [
    Played {
        script: "carry 1\n",
        says: &["1 fault no such packet"],
        packets: &[],
    },
    Played {
        script: "type a +1002 hi\ntimeout a\ntimeout a\ntimeout a\ntimeout a\ntimeout a\n",
        says: &[
            "1 typed 1 #1\n2 repeated 1 #2\n3 repeated 1 #3\n4 repeated 1 #4\n5 gave up 1\n6 idle",
            "sent a 1 failed",
        ],
        packets: &["#4 a>centre 390113000300039101000B050004910120000002E834"],
    },
    Played {
        script: "type a +1002 hi\ncarry 1\npush b\n",
        says: &["sent a 1 waiting\nstore a 0\nstore b 0\nstore c 0"],
        packets: &[],
    },
];
