//! Rows of the tests of what is told of `accepted` in runs. Between bars stand parts, and after an
//! asterisk how many times a part stands.

use sms_trial::Fed;

/// A script whose phones are given, and the lines that tell of its order and of `accepted`.
pub struct Trusted {
    /// Settings and events: the phones stand before them.
    pub script: &'static str,
    pub order: &'static str,
    pub accepted: &'static str,
}

/// The phones of the scripts.
pub const PHONES: &str = "phone a +1001\nphone b +1002\nphone c +1003\n";

/// Runs in which it means accepted.
pub static MEANT: [Trusted; 10] = [
    // Two packets are lost, and a repeat is rejected as a duplicate.
    Trusted {
        script: "type a +1002 hi\ncarry 1\ntimeout a\ncarry 4\ncarry 6\npush b\ncarry 8\ncarry 8\n",
        order: "order: kept\n",
        accepted: "accepted: means accepted\n",
    },
    // A text in two segments.
    Trusted {
        script: "type a +1002 |a*161|\ncarry 1\ncarry 3\ncarry 5\ncarry 7\n",
        order: "order: kept\n",
        accepted: "accepted: means accepted\n",
    },
    // The same answer comes twice, and one of an earlier text.
    Trusted {
        script: "type a +1002 one\ntype a +1002 two\ncarry 1\ncarry 3\ncarry 3\ncarry 5\ncarry 3\ncarry 7\n",
        order: "order: kept\n",
        accepted: "accepted: means accepted\n",
    },
    // Out of order, and meant all the same: a copy of the first putting out.
    Trusted {
        script: "type a +1002 hi\ncarry 1\ncarry 1\ncarry 3\n",
        order: "order: event 3: repeat without rejection a 1 1\n",
        accepted: "accepted: means accepted\n",
    },
    // A reference is used again, but no rejection is asked for.
    Trusted {
        script: "|type a +1002 hi\n*257|carry 1\ncarry 3\n|timeout a\n*1020|carry 1025\ncarry 1027\n",
        order: "order: kept\n",
        accepted: "accepted: means accepted\n",
    },
    // The accepted one with the reference has ended.
    Trusted {
        script: "reject\n|type a +1002 hi\n*257|carry 1\ncarry 3\n|timeout a\n*1020|tick 172800\ncarry 1025\ncarry 1027\n",
        order: "order: kept\n",
        accepted: "accepted: means accepted\n",
    },
    // The reference is used again to another address.
    Trusted {
        script: "reject\n|type a +1002 hi\n*256|type a +1003 hi\ncarry 1\ncarry 3\n|timeout a\n*1020|carry 1025\ncarry 1027\n",
        order: "order: kept\n",
        accepted: "accepted: means accepted\n",
    },
    // The reference is used again by another phone.
    Trusted {
        script: "reject\ntype a +1002 hi\ntype c +1002 hi\ncarry 1\ncarry 2\ncarry 4\ncarry 6\n",
        order: "order: kept\n",
        accepted: "accepted: means accepted\n",
    },
    // An answer comes 1,791 puttings out later.
    Trusted {
        script: "|type a +1002 hi\n*449|carry 1\n|timeout a\n*1791|carry 3\n",
        order: "order: kept\n",
        accepted: "accepted: means accepted\n",
    },
    // An answer comes 1,793 puttings out later.
    Trusted {
        script: "|type a +1002 hi\n*449|carry 1\n|timeout a\n*1793|carry 3\n",
        order: "order: kept\n",
        accepted: "accepted: means accepted\n",
    },
];

/// Runs with an event after which it need not.
pub static DOUBTED: [Trusted; 7] = [
    // The 257th text has the reference of the first, which is held.
    Trusted {
        script: "reject\n|type a +1002 hi\n*257|carry 1\ncarry 3\n|timeout a\n*1020|carry 1025\n",
        order: "order: kept\n",
        accepted: "accepted: event 1280: reference used again a 257 1\n",
    },
    // So in the last second in which the first is valid.
    Trusted {
        script: "reject\n|type a +1002 hi\n*257|carry 1\ncarry 3\n|timeout a\n*1020|tick 172799\ncarry 1025\n",
        order: "order: kept\n",
        accepted: "accepted: event 1281: reference used again a 257 1\n",
    },
    // The repeat of the 257th text asks for rejection.
    Trusted {
        script: "|type a +1002 hi\n*257|carry 1\ncarry 3\n|timeout a\n*1020|carry 1025\ntimeout a\ncarry 1028\n",
        order: "order: kept\n",
        accepted: "accepted: event 1282: reference used again a 257 1\n",
    },
    // An answer comes 1,792 puttings out later.
    Trusted {
        script: "|type a +1002 hi\n*449|carry 1\n|timeout a\n*1792|carry 3\n",
        order: "order: kept\n",
        accepted: "accepted: event 2243: answer to an earlier submission a\n",
    },
    // Octets come that nobody has put out.
    Trusted {
        script: "type a +1002 hi\ninject down a 9901020300\n",
        order: "order: event 2: injected\n",
        accepted: "accepted: event 2: injected\n",
    },
    // The tick with which the clock starts is no event of the transcript.
    Trusted {
        script: "clock 1000\ninject up a FF\ninject up a FF\n",
        order: "order: event 1: injected\n",
        accepted: "accepted: event 1: injected\n",
    },
    // The two first events are not the same.
    Trusted {
        script: "type a +1002 hi\ncarry 1\ncarry 1\ninject up a FF\n",
        order: "order: event 3: repeat without rejection a 1 1\n",
        accepted: "accepted: event 4: injected\n",
    },
];

/// Whole transcripts, and a script that is not played to its end.
pub static WHOLES: [Fed; 5] = [
    Fed {
        words: &["sms", "play", "--accepted"],
        input: "",
        status: 0,
        output: "accepted: means accepted\n",
    },
    Fed {
        words: &["sms", "play", "--orderly", "--accepted"],
        input: "",
        status: 0,
        output: "order: kept\naccepted: means accepted\n",
    },
    Fed {
        words: &["sms", "play", "--orderly", "--accepted"],
        input: "brief\nphone a +1001\nphone b +1002\ntype a +1002 hi\ncarry 1\ncarry 1\n",
        status: 0,
        output: "1 typed 1\n#1 a>centre 22\n2 held\n#2 centre>a 2\n#3 centre>a 16\n3 held\n#4 centre>a 2\n#5 centre>a 16\nsent a 1 waiting\nstore a 0\nstore b 0\norder: event 3: repeat without rejection a 1 1\naccepted: means accepted\n",
    },
    Fed {
        words: &["sms", "play", "--accepted"],
        input: "phone a +1001\npush a\npush b\n",
        status: 1,
        output: "1 nothing waits\nline 3: unknown phone\n",
    },
    Fed {
        words: &["sms", "play", "--orderly", "--accepted", "--check"],
        input: "phone a +1001\ncarry 1\ninject up a FF\n",
        status: 1,
        output: "1 fault no such packet\n2 drop not cp\nstore a 0\norder: event 2: injected\naccepted: event 2: injected\n",
    },
];

/// What is told as objects in JSON.
pub static OBJECTS: [Fed; 4] = [
    Fed {
        words: &["sms", "play", "--json", "--accepted"],
        input: "phone a +1001\ntick 5",
        status: 0,
        output: "{\"event\":1,\"word\":\"ticked\",\"packets\":[]}\n{\"phone\":\"a\",\"sent\":[],\"store\":[]}\n{\"accepted\":{\"means\":true}}\n",
    },
    Fed {
        words: &["sms", "play", "--json", "--orderly", "--accepted"],
        input: "phone a +1001\ntick 5",
        status: 0,
        output: "{\"event\":1,\"word\":\"ticked\",\"packets\":[]}\n{\"phone\":\"a\",\"sent\":[],\"store\":[]}\n{\"order\":{\"kept\":true}}\n{\"accepted\":{\"means\":true}}\n",
    },
    Fed {
        words: &["sms", "play", "--json", "--orderly", "--accepted"],
        input: "clock 7\nphone a +1001\ninject up a FF\n",
        status: 0,
        output: "{\"event\":1,\"word\":\"drop not cp\",\"packets\":[]}\n{\"phone\":\"a\",\"sent\":[],\"store\":[]}\n{\"order\":{\"kept\":false,\"event\":1,\"condition\":\"injected\"}}\n{\"accepted\":{\"means\":false,\"event\":1,\"condition\":\"injected\"}}\n",
    },
    Fed {
        words: &["sms", "play", "--json", "--accepted"],
        input: "push a\n",
        status: 1,
        output: "{\"fault\":{\"line\":1,\"reason\":\"unknown phone\"}}\n",
    },
];

/// A script whose phones are given, and how its output ends, with these words.
pub struct Ending {
    pub words: &'static [&'static str],
    /// Settings and events: the phones stand before them.
    pub script: &'static str,
    pub ends: &'static str,
}

/// What goes wrong without each of the conditions: a text is shown as accepted that the centre has
/// never taken, and as an object what is told of it.
pub static ENDS: [Ending; 4] = [
    Ending {
        words: &["sms", "play", "--orderly", "--accepted"],
        script: "|type a +1002 hi\n*449|carry 1\n|timeout a\n*1792|carry 3\n",
        ends: "sent a 449 accepted\nstore a 0\nstore b 0\nstore c 0\norder: kept\naccepted: event 2243: answer to an earlier submission a\n",
    },
    Ending {
        words: &["sms", "play", "--orderly", "--accepted"],
        script: "reject\n|type a +1002 hi\n*257|carry 1\ncarry 3\n|timeout a\n*1020|carry 1025\ncarry 1027\n",
        ends: "sent a 257 accepted\nstore a 0\nstore b 0\nstore c 0\norder: kept\naccepted: event 1280: reference used again a 257 1\n",
    },
    Ending {
        words: &["sms", "play", "--json", "--accepted"],
        script: "|type a +1002 hi\n*449|carry 1\n|timeout a\n*1792|carry 3\n",
        ends: "{\"accepted\":{\"means\":false,\"event\":2243,\"condition\":\"answer to an earlier submission\",\"phone\":\"a\"}}\n",
    },
    Ending {
        words: &["sms", "play", "--json", "--orderly", "--accepted"],
        script: "reject\n|type a +1002 hi\n*257|carry 1\ncarry 3\n|timeout a\n*1020|carry 1025\ncarry 1027\n",
        ends: "{\"order\":{\"kept\":true}}\n{\"accepted\":{\"means\":false,\"event\":1280,\"condition\":\"reference used again\",\"phone\":\"a\",\"text\":257,\"segment\":1}}\n",
    },
];
