//! Rows of the tests of what is told of the order of runs. Between bars stand parts, and after an
//! asterisk how many times a part stands.

use sms_trial::Fed;

/// A script whose phones are given, and the line that tells of its order.
pub struct Ordered {
    /// Settings and events: the phones stand before them.
    pub script: &'static str,
    pub order: &'static str,
}

/// The phones of the scripts.
pub const PHONES: &str = "phone a +1001\nphone b +1002\nphone c +1003\n";

/// Runs that are orderly.
pub static KEPT: [Ordered; 14] = [
    // A packet is lost, its repeat asks for rejection, and a delivery comes twice.
    Ordered {
        script: "type a +1002 hi\ncarry 1\ntimeout a\ncarry 4\ncarry 6\npush b\ncarry 8\ncarry 8\ncarry 10\n",
        order: "order: kept\n",
    },
    // Segments come late, twice and out of order.
    Ordered {
        script: "brief\ntype a +1002 |a*161|\ncarry 1\ncarry 3\ncarry 5\npush b\npush b\ncarry 9\ncarry 8\ncarry 8\n|\
            carry 9\ncarry 11\ncarry 13\npush b\ncarry 19\ncarry 21\ncarry 7\n",
        order: "order: kept\n",
    },
    Ordered {
        script: "wide\ntype a +1002 |a*161|\ncarry 1\ncarry 3\ncarry 5\npush b\npush b\ncarry 9\ncarry 8\ncarry 8\n|\
            carry 9\ncarry 11\ncarry 13\npush b\ncarry 19\ncarry 21\ncarry 7\n",
        order: "order: kept\n",
    },
    // The same text twice.
    Ordered {
        script: "type a +1002 hi\ncarry 1\ncarry 3\ntype a +1002 hi\ncarry 5\npush b\npush b\ncarry 8\ncarry 9\n",
        order: "order: kept\n",
    },
    // One text may be open, and the segment of another one is refused. Both have one reference, but
    // other originating addresses.
    Ordered {
        script: "open 1\ntype a +1002 |a*161|\ntype c +1002 |x*161|\ncarry 1\ncarry 2\ncarry 4\ncarry 6\ncarry 8\n|\
            carry 10\npush b\ncarry 15\ncarry 17\npush b\ncarry 19\ncarry 21\npush b\ncarry 23\ncarry 25\n|\
            push b\ncarry 27\ncarry 29\npush b\ncarry 31\n",
        order: "order: kept\n",
    },
    // A set is dropped after a week, and opened again.
    Ordered {
        script: "type a +1002 |a*161|\ncarry 1\ncarry 3\ncarry 5\npush b\npush b\ncarry 8\ntick 604799\ntick 1\n|\
            carry 9\ncarry 8\ncarry 9\n",
        order: "order: kept\n",
    },
    // A store is full, and a text that finished comes again.
    Ordered {
        script: "store 1\ntype a +1002 one\ncarry 1\ncarry 3\npush b\ncarry 5\ncarry 7\ntype a +1002 two\ncarry 9\n|\
            carry 11\npush b\ncarry 13\ncarry 15\npush b\ncarry 17\ncarry 5\n",
        order: "order: kept\n",
    },
    // With two remembered keys the first text comes again after one more text.
    Ordered {
        script: "remembered 2\ntype a +1002 one\ncarry 1\ncarry 3\npush b\ncarry 5\ncarry 7\ntype a +1002 two\n|\
            carry 9\ncarry 11\npush b\ncarry 13\ncarry 15\ncarry 5\n",
        order: "order: kept\n",
    },
    // Each submission asks for rejection, and the first comes three times.
    Ordered {
        script: "reject\ntype a +1002 hi\ncarry 1\ncarry 1\ncarry 5\ncarry 3\npush b\ncarry 7\ncarry 9\ncarry 1\n",
        order: "order: kept\n",
    },
    // The repeat comes in the last second in which the accepted one is valid.
    Ordered {
        script: "type a +1002 hi\ncarry 1\ntimeout a\ntick 172799\ncarry 4\n",
        order: "order: kept\n",
    },
    // The centre refuses a text to nobody, each time that it comes.
    Ordered {
        script: "type a +1009 hi\ncarry 1\ncarry 1\ncarry 3\n",
        order: "order: kept\n",
    },
    // A table is full until its message has ended.
    Ordered {
        script: "held 1\ntype a +1002 hi\ncarry 1\ntype c +1001 hi\ncarry 4\ncarry 6\ntick 172800\npush b\n|\
            type c +1001 hi\ncarry 8\n",
        order: "order: kept\n",
    },
    // Nothing comes but timeouts, and an event that names nothing.
    Ordered {
        script: "type a +1002 hi\ntimeout a\ntimeout a\ntimeout a\ntimeout a\ntimeout a\ncarry 99\n",
        order: "order: kept\n",
    },
    // 256 long texts have 256 references.
    Ordered {
        script: "|type a +1002 aaaaaaaaaaaaaaaaaaaaaaaaaaaaaaaaaaaaaaaaaaaaaaaaaaaaaaaaaaaaaaaaaaaaaaaaaaaaaaaaaaaaaaaaaaaaaaaaaaaaaaaaaaaaaaaaaaaaaaaaaaaaaaaaaaaaaaaaaaaaaaaaaaaaaaaaaaaaaaaaa\n*256|\
            carry 1\ncarry 3\ncarry 5\ncarry 7\n|timeout a\n*1016|push b\ncarry 1026\n|\
            carry 1025\npush b\npush b\npush b\ncarry 1033\n",
        order: "order: kept\n",
    },
];

/// Runs with an event that comes out of order.
pub static BROKEN: [Ordered; 9] = [
    // Two days later the accepted message has ended.
    Ordered {
        script: "type a +1002 hi\ncarry 1\ntimeout a\ncarry 4\ncarry 6\ncarry 3\npush b\ncarry 8\ncarry 10\n|\
            tick 172800\ncarry 4\npush b\ncarry 14\n",
        order: "order: event 11: repeat after the end a 1 1\n",
    },
    // A submission without TP-RD comes twice.
    Ordered {
        script: "type a +1002 hi\ncarry 1\ncarry 1\n",
        order: "order: event 3: repeat without rejection a 1 1\n",
    },
    // With two remembered keys the first text comes again after two more texts.
    Ordered {
        script: "remembered 2\ntype a +1002 one\ncarry 1\ncarry 3\npush b\ncarry 5\ncarry 7\ntype a +1002 two\n|\
            carry 9\ncarry 11\npush b\ncarry 13\ncarry 15\ncarry 5\ntype a +1002 three\ncarry 19\ncarry 21\n|\
            push b\ncarry 23\ncarry 5\n",
        order: "order: event 19: late segment forgotten a 1 1\n",
    },
    // The 257th long text has the reference of the first, of which a segment has come.
    Ordered {
        script: "|type a +1002 aaaaaaaaaaaaaaaaaaaaaaaaaaaaaaaaaaaaaaaaaaaaaaaaaaaaaaaaaaaaaaaaaaaaaaaaaaaaaaaaaaaaaaaaaaaaaaaaaaaaaaaaaaaaaaaaaaaaaaaaaaaaaaaaaaaaaaaaaaaaaaaaaaaaaaaaaaaaaaaaa\n*257|\
            carry 1\ncarry 3\ncarry 5\ncarry 7\n|timeout a\n*1020|push b\ncarry 1030\n|\
            carry 1029\npush b\npush b\npush b\ncarry 1037\n",
        order: "order: event 1288: key used again a 257 1\n",
    },
    // Octets come to a phone that nobody has put out.
    Ordered {
        script: "type a +1002 hi\ninject down a 9901020300\n",
        order: "order: event 2: injected\n",
    },
    // Octets that say nothing are injected all the same.
    Ordered {
        script: "inject up a FF\ncarry 1\n",
        order: "order: event 1: injected\n",
    },
    // The tick with which the clock starts is no event of the transcript.
    Ordered {
        script: "clock 1000\ntype c +1002 one\ntype c +1002 two\ncarry 1\ncarry 3\ncarry 5\ncarry 5\n",
        order: "order: event 6: repeat without rejection c 2 1\n",
    },
    // The first of several events out of order is told.
    Ordered {
        script: "type a +1002 hi\ncarry 1\ncarry 1\ninject up a FF\ntick 172800\ncarry 1\n",
        order: "order: event 3: repeat without rejection a 1 1\n",
    },
    // The second segment comes again.
    Ordered {
        script: "type b +1002 |a*161|\ncarry 1\ncarry 3\ncarry 5\ncarry 5\n",
        order: "order: event 5: repeat without rejection b 1 2\n",
    },
];

/// A script of two phones, and how its output ends: with the store of the second phone, in which
/// stands what nobody typed to it, or what stands there already; and the line that tells why.
pub struct Wrong {
    /// Settings and events: the phones stand before them.
    pub script: &'static str,
    pub ends: &'static str,
}

/// The phones of these scripts.
pub const TWO_PHONES: &str = "phone a +1001\nphone b +1002\n";

/// What goes wrong without each of the four conditions.
pub static WRONGS: [Wrong; 4] = [
    // The repeat of a text comes after the accepted one's validity: it is held and delivered again.
    Wrong {
        script: "type a +1002 hi\ncarry 1\ntimeout a\ncarry 4\npush b\ncarry 7\ntick 172800\ncarry 4\npush b\ncarry 12\n",
        ends: "store b 2\n+1001 hi\n+1001 hi\norder: event 8: repeat after the end a 1 1\n",
    },
    // The first text has the reference of the 257th: its first half and the other's second are
    // joined.
    Wrong {
        script: "type a +1002 |x*161|\n|type a +1002 aaaaaaaaaaaaaaaaaaaaaaaaaaaaaaaaaaaaaaaaaaaaaaaaaaaaaaaaaaaaaaaaaaaaaaaaaaaaaaaaaaaaaaaaaaaaaaaaaaaaaaaaaaaaaaaaaaaaaaaaaaaaaaaaaaaaaaaaaaaaaaaaaaaaaaaaaaaaaaaaa\n*255|type a +1002 |y*161|\n|\
            carry 1\ncarry 3\ncarry 5\ncarry 7\n|timeout a\n*1020|push b\ncarry 1030\ncarry 1032\n|\
            carry 1029\ncarry 1035\ncarry 1037\npush b\npush b\npush b\ncarry 1042\n",
        ends: "store b 1\n+1001 |x*153|y*8|\norder: event 1291: key used again a 257 2\n",
    },
    // With two remembered keys the first of three texts comes again.
    Wrong {
        script: "remembered 2\ntype a +1002 one\ncarry 1\npush b\ncarry 4\ncarry 6\ncarry 3\n|\
            type a +1002 two\ncarry 9\npush b\ncarry 12\ncarry 14\ncarry 11\n|\
            type a +1002 three\ncarry 17\npush b\ncarry 20\ncarry 4\n",
        ends: "store b 4\n+1001 one\n+1001 two\n+1001 three\n+1001 one\n|\
            order: event 17: late segment forgotten a 1 1\n",
    },
    // An SMS-DELIVER comes that nobody has put out.
    Wrong {
        script: "inject down b 0901190100039101000011040491011000000010100000000002E834\n",
        ends: "store b 1\n+1001 hi\norder: event 1: injected\n",
    },
];

/// Whole transcripts, and scripts that are not played to their end.
pub static WHOLES: [Fed; 6] = [
    Fed {
        words: &["sms", "play", "--orderly"],
        input: "brief\nphone a +1001\nphone b +1002\ntype a +1002 hi\ncarry 1\ncarry 1\n",
        status: 0,
        output: "1 typed 1\n#1 a>centre 22\n2 held\n#2 centre>a 2\n#3 centre>a 16\n3 held\n#4 centre>a 2\n#5 centre>a 16\nsent a 1 waiting\nstore a 0\nstore b 0\norder: event 3: repeat without rejection a 1 1\n",
    },
    Fed {
        words: &["sms", "play", "--orderly"],
        input: "",
        status: 0,
        output: "order: kept\n",
    },
    Fed {
        words: &["sms", "play", "--orderly"],
        input: "phone a +1001\npush a",
        status: 0,
        output: "1 nothing waits\nstore a 0\norder: kept\n",
    },
    Fed {
        words: &["sms", "play", "--orderly"],
        input: "phone a +1001\npush a\npush b\n",
        status: 1,
        output: "1 nothing waits\nline 3: unknown phone\n",
    },
    Fed {
        words: &["sms", "play", "--orderly", "--check"],
        input: "phone a +1001\ncarry 1\n",
        status: 1,
        output: "1 fault no such packet\nstore a 0\norder: kept\n",
    },
    Fed {
        words: &["sms", "play", "--orderly", "--check"],
        input: "phone a +1001\ninject up a FF\n",
        status: 0,
        output: "1 drop not cp\nstore a 0\norder: event 1: injected\n",
    },
];

/// What is told as objects in JSON.
pub static OBJECTS: [Fed; 4] = [
    Fed {
        words: &["sms", "play", "--json", "--orderly"],
        input: "phone a +1001\ntick 5",
        status: 0,
        output: "{\"event\":1,\"word\":\"ticked\",\"packets\":[]}\n{\"phone\":\"a\",\"sent\":[],\"store\":[]}\n{\"order\":{\"kept\":true}}\n",
    },
    Fed {
        words: &["sms", "play", "--json", "--orderly"],
        input: "brief\nclock 7\nphone a +1001\nphone b +1002\ntype a +1002 hi\ncarry 1\ncarry 1\n",
        status: 0,
        output: "{\"event\":1,\"word\":\"typed\",\"text\":1,\"packets\":[{\"number\":1,\"from\":\"a\",\"to\":\"centre\",\"length\":22}]}\n{\"event\":2,\"word\":\"held\",\"packets\":[{\"number\":2,\"from\":\"centre\",\"to\":\"a\",\"length\":2},{\"number\":3,\"from\":\"centre\",\"to\":\"a\",\"length\":16}]}\n{\"event\":3,\"word\":\"held\",\"packets\":[{\"number\":4,\"from\":\"centre\",\"to\":\"a\",\"length\":2},{\"number\":5,\"from\":\"centre\",\"to\":\"a\",\"length\":16}]}\n{\"phone\":\"a\",\"sent\":[{\"number\":1,\"status\":\"waiting\"}],\"store\":[]}\n{\"phone\":\"b\",\"sent\":[],\"store\":[]}\n{\"order\":{\"kept\":false,\"event\":3,\"condition\":\"repeat without rejection\",\"phone\":\"a\",\"text\":1,\"segment\":1}}\n",
    },
    Fed {
        words: &["sms", "play", "--json", "--orderly"],
        input: "phone a +1001\ninject up a FF\n",
        status: 0,
        output: "{\"event\":1,\"word\":\"drop not cp\",\"packets\":[]}\n{\"phone\":\"a\",\"sent\":[],\"store\":[]}\n{\"order\":{\"kept\":false,\"event\":1,\"condition\":\"injected\"}}\n",
    },
    Fed {
        words: &["sms", "play", "--json", "--orderly"],
        input: "push a\n",
        status: 1,
        output: "{\"fault\":{\"line\":1,\"reason\":\"unknown phone\"}}\n",
    },
];
