//! Units in octets and in words, and what the command answers.

use crate::found::{AfterCentre, Shown};

/// A delivery of a text, and its fields.
pub const HELLO: &str = "040BC87238880900F10000993092516195800AE8329BFD4697D9EC37";

pub const HELLO_SHOWN: &str = "\
type: deliver
more: no
loop: no
report: no
reply: no
from: 27838890001
number: 4 8
pid: 00
dcs: 00
stamp: 2099-03-29 15:16:59 +02:00
length: 10
text: hellohello
";

/// A unit in the words of a command, and its octets.
pub struct Encoded {
    pub kind: &'static str,
    pub options: &'static [&'static str],
    pub address: &'static str,
    pub text: &'static str,
    pub octets: &'static str,
}

/// A unit with characters that would break a line, and how its address and its text are shown.
pub struct Breaking {
    pub unit: Encoded,
    pub address: &'static str,
    pub text: &'static str,
}

/// A unit in the words of a command, which is not encoded: the status and the line of the answer.
pub struct NotEncoded {
    pub kind: &'static str,
    pub options: &'static [&'static str],
    pub address: &'static str,
    pub text: &'static str,
    pub status: u8,
    pub line: &'static str,
}

/// Words that `clap` answers: the status, and a part of its text.
pub struct Explained {
    pub words: &'static [&'static str],
    pub status: u8,
    pub part: &'static str,
}

/// A kind of unit, a text, the status and the answer; `|` and `*` as in the rows of `splits`.
pub struct LongText {
    pub kind: &'static str,
    pub text: &'static str,
    pub status: u8,
    pub answer: &'static str,
}

/// Deliveries with none of the lines that may be left out, and with all, and the whole answer.
pub static DELIVERIES: [Shown; 2] = [
    Shown {
        octets: "040491101000000010100000000000",
        lines: "type: deliver\nmore: no\nloop: no\nreport: no\nreply: no\nfrom: +0101\nnumber: 1 1\npid: 00\ndcs: 00\nstamp: 2000-01-01 00:00:00 +00:00\nlength: 0\ntext: \n",
    },
    Shown {
        octets: "4404911010000800101000000000090500030A020104360077",
        lines: "type: deliver\nmore: no\nloop: no\nreport: no\nreply: no\nfrom: +0101\nnumber: 1 1\npid: 00\ndcs: 08\nstamp: 2000-01-01 00:00:00 +00:00\nlength: 9\nheader: 00030A0201\nconcat: 8 10 2 1\ntext: ж\nrest: 1\n",
    },
];

/// Deliveries by their first octet, and lines of the answer.
pub static DELIVERY_FLAGS: [Shown; 4] = [
    Shown {
        octets: "000491101000000010100000000000",
        lines: "more: yes\nloop: no\nreport: no\nreply: no\n",
    },
    Shown {
        octets: "0C0491101000000010100000000000",
        lines: "more: no\nloop: yes\nreport: no\nreply: no\n",
    },
    Shown {
        octets: "240491101000000010100000000000",
        lines: "more: no\nloop: no\nreport: yes\nreply: no\n",
    },
    Shown {
        octets: "840491101000000010100000000000",
        lines: "more: no\nloop: no\nreport: no\nreply: yes\n",
    },
];

/// Deliveries by their TP-OA, and lines of the answer.
pub static ORIGINS: [Shown; 5] = [
    Shown {
        octets: "0402B9BA00000010100000000000",
        lines: "from: *#\nnumber: 3 9\n",
    },
    Shown {
        octets: "0400FF00000010100000000000",
        lines: "from: \nnumber: 7 15\n",
    },
    Shown {
        octets: "040DD0E8329BFD46970100000010100000000000",
        lines: "from: hellohe\nnumber: 5 0\n",
    },
    Shown {
        octets: "0409D0E1CD4BD10000000010100000000000",
        lines: "from: a\\\\\\n\\r\nnumber: 5 0\n",
    },
    Shown {
        octets: "040ED0E8329BFD46970100000010100000000000",
        lines: "from: hellohe@\nnumber: 5 0\n",
    },
];

/// Deliveries by their TP-SCTS, and lines of the answer.
pub static STAMPS: [Shown; 4] = [
    Shown {
        octets: "04049110100000A010100000000000",
        lines: "stamp: raw A0101000000000\n",
    },
    Shown {
        octets: "040491101000000010100000002B00",
        lines: "stamp: 2000-01-01 00:00:00 -08:00\n",
    },
    Shown {
        octets: "040491101000000010100000000800",
        lines: "stamp: 2000-01-01 00:00:00 +00:00\n",
    },
    Shown {
        octets: "040491101000009930925161953200",
        lines: "stamp: 2099-03-29 15:16:59 +05:45\n",
    },
];

/// Deliveries by their TP-DCS, their text or data and what stands after it, and lines of the
/// answer.
pub static TEXTS: [Shown; 9] = [
    Shown {
        octets: "0404911010000400101000000000030041FF",
        lines: "length: 3\ndata: 0041FF\n",
    },
    Shown {
        octets: "04049110100008001010000000002000000009000B001B001F0020007F005C00780034003100E920AC0436D83DDE00",
        lines: "\ntext: \\x00\\x09\\x0b\\x1b\\x1f \\x7f\\\\x41é€ж😀\n",
    },
    Shown {
        octets: "040491101000040010100000000000",
        lines: "length: 0\ndata: -\n",
    },
    Shown {
        octets: "0404911010000800101000000000020436",
        lines: "length: 2\ntext: ж\n",
    },
    Shown {
        octets: "040491101000080010100000000006D83DD83DDE00",
        lines: "length: 6\ntext: \u{fffd}😀\n",
    },
    Shown {
        octets: "04049110100008001010000000000E0000001F007F005C000A000D000C",
        lines: "length: 14\ntext: \\x00\\x1f\\x7f\\\\\\n\\r\\f\n",
    },
    Shown {
        octets: "0404911010000000101000000000131BDE06B5296F521BDF86B2E96D80001013",
        lines: "length: 19\ntext: [{€}]^~|@ L\n",
    },
    Shown {
        octets: "040491101000000010100000000002E83400",
        lines: "length: 2\ntext: hi\nrest: 1\n",
    },
    Shown {
        octets: "040491101000000010100000000002e834",
        lines: "length: 2\ntext: hi\n",
    },
];

/// Deliveries by the header of their user data, and lines of the answer.
pub static PLACES: [Shown; 6] = [
    Shown {
        octets: "4404911010000400101000000000080500030A020100FF",
        lines: "length: 8\nheader: 00030A0201\nconcat: 8 10 2 1\ndata: 00FF\n",
    },
    Shown {
        octets: "44049110100000001010000000000A06080401020201E834",
        lines: "length: 10\nheader: 080401020201\nconcat: 16 258 2 1\ntext: hi\n",
    },
    Shown {
        octets: "4404911010000000101000000000100B00030A0201080401020202A0D3",
        lines: "length: 16\nheader: 00030A0201080401020202\nconcat: 16 258 2 2\ntext: hi\n",
    },
    Shown {
        octets: "4404911010000000101000000000090500030A0203D069",
        lines: "length: 9\nheader: 00030A0203\ntext: hi\n",
    },
    Shown {
        octets: "4404911010000000101000000000080400030A02A0D3",
        lines: "length: 8\nheader: 00030A02\ntext: hi\n",
    },
    Shown {
        octets: "4404911010000000101000000000020000",
        lines: "length: 2\ntext: \n",
    },
];

/// Submissions with none of the lines that may be left out, with all, and with a relative validity,
/// and the whole answer.
pub static WHOLE_SUBMISSIONS: [Shown; 3] = [
    Shown {
        octets: "010004910120000000",
        lines: "type: submit\nreject: no\nreport: no\nreply: no\nreference: 00\nto: +1002\nnumber: 1 1\npid: 00\ndcs: 00\nvalidity: none\nlength: 0\ntext: \n",
    },
    Shown {
        octets: "F57F049101200008AA080500030A0201043677",
        lines: "type: submit\nreject: yes\nreport: yes\nreply: yes\nreference: 7F\nto: +1002\nnumber: 1 1\npid: 00\ndcs: 08\nvalidity: relative 170 345600\nlength: 8\nheader: 00030A0201\nconcat: 8 10 2 1\ntext: ж\nrest: 1\n",
    },
    Shown {
        octets: "11000B916407281553F80000AA0AE8329BFD4697D9EC37",
        lines: "type: submit\nreject: no\nreport: no\nreply: no\nreference: 00\nto: +46708251358\nnumber: 1 1\npid: 00\ndcs: 00\nvalidity: relative 170 345600\nlength: 10\ntext: hellohello\n",
    },
];

/// Submissions by their first octet and their TP-MR, and lines of the answer.
pub static SUBMISSIONS: [Shown; 4] = [
    Shown {
        octets: "057F04910120000000",
        lines: "type: submit\nreject: yes\nreport: no\nreply: no\nreference: 7F\n",
    },
    Shown {
        octets: "217F04910120000000",
        lines: "type: submit\nreject: no\nreport: yes\nreply: no\nreference: 7F\n",
    },
    Shown {
        octets: "817F04910120000000",
        lines: "type: submit\nreject: no\nreport: no\nreply: yes\nreference: 7F\n",
    },
    Shown {
        octets: "01FF04910120000000",
        lines: "type: submit\nreject: no\nreport: no\nreply: no\nreference: FF\n",
    },
];

/// Submissions by their TP-VPF and TP-VP, and lines of the answer.
pub static VALIDITIES: [Shown; 4] = [
    Shown {
        octets: "1100049101200000A800",
        lines: "dcs: 00\nvalidity: relative 168 172800\n",
    },
    Shown {
        octets: "09000491012000000102030405060700",
        lines: "dcs: 00\nvalidity: enhanced 01020304050607\n",
    },
    Shown {
        octets: "19000491012000009930925161958000",
        lines: "dcs: 00\nvalidity: absolute 2099-03-29 15:16:59 +02:00\n",
    },
    Shown {
        octets: "19000491012000000000000000000000",
        lines: "dcs: 00\nvalidity: absolute raw 00000000000000\n",
    },
];

/// Octets that are no delivery, and the answer.
pub static NO_DELIVERIES: [Shown; 13] = [
    Shown {
        octets: "",
        lines: "at 0: short\n",
    },
    Shown {
        octets: "-",
        lines: "at 0: short\n",
    },
    Shown {
        octets: "0",
        lines: "bad hex\n",
    },
    Shown {
        octets: "0x04",
        lines: "bad hex\n",
    },
    Shown {
        octets: "04 04",
        lines: "bad hex\n",
    },
    Shown {
        octets: "0G",
        lines: "bad hex\n",
    },
    Shown {
        octets: "01",
        lines: "at 0: wrong type\n",
    },
    Shown {
        octets: "44",
        lines: "at 1: short\n",
    },
    Shown {
        octets: "0415",
        lines: "at 1: address too long\n",
    },
    Shown {
        octets: "0404911F",
        lines: "at 3: bad digit\n",
    },
    Shown {
        octets: "040BC87238880900F1000099309251619580A1",
        lines: "at 18: data too long\n",
    },
    Shown {
        octets: "440491101000000010100000000001",
        lines: "at 14: header too long\n",
    },
    Shown {
        octets: "44049110100000001010000000000202",
        lines: "at 15: header too long\n",
    },
];

/// Octets that are no submission, and the answer.
pub static NO_SUBMISSIONS: [Shown; 3] = [
    Shown {
        octets: "00",
        lines: "at 0: wrong type\n",
    },
    Shown {
        octets: "010015",
        lines: "at 2: address too long\n",
    },
    Shown {
        octets: "0100049101200000029B",
        lines: "at 10: short\n",
    },
];

/// Words that ask for help, the version, or no subcommand: the status, and a part of what `clap`
/// says.
pub static WHOLE_WORDS: [Explained; 8] = [
    Explained {
        words: &["sms"],
        status: 2,
        part: "requires a subcommand",
    },
    Explained {
        words: &["sms", "help"],
        status: 0,
        part: "Usage: sms",
    },
    Explained {
        words: &["sms", "--help"],
        status: 0,
        part: "encode  Prints the octets",
    },
    Explained {
        words: &["sms", "show", "-h"],
        status: 0,
        part: "[possible values: deliver, submit, submit-ack, submit-error, deliver-ack, deliver-error, status-report, command, rp, cp, any, record, data]",
    },
    Explained {
        words: &["sms", "encode", "--help"],
        status: 0,
        part: "--stamp <HEX>",
    },
    Explained {
        words: &["sms", "--version"],
        status: 0,
        part: "sms 0.1\n",
    },
    Explained {
        words: &["sms", "read", "deliver", "00"],
        status: 2,
        part: "'read'",
    },
    Explained {
        words: &["sms", "play", "--help"],
        status: 0,
        part: "  carry 6\n  carry 3\n",
    },
];

/// Words of `show`.
pub static SHOW_WORDS: [Explained; 5] = [
    Explained {
        words: &["sms", "show"],
        status: 2,
        part: "<KIND> <HEX>",
    },
    Explained {
        words: &["sms", "show", "rl", "00"],
        status: 2,
        part: "'rl'",
    },
    Explained {
        words: &["sms", "show", "deliver", "00", "00"],
        status: 2,
        part: "'00'",
    },
    Explained {
        words: &["sms", "show", "deliver", "-00"],
        status: 2,
        part: "'-0'",
    },
    Explained {
        words: &["sms", "show", "deliver", "00", "--sca", "--sca"],
        status: 2,
        part: "cannot be used multiple times",
    },
];

/// Words of `encode`.
pub static ENCODE_WORDS: [Explained; 8] = [
    Explained {
        words: &["sms", "encode", "submit-ack", "1", "a"],
        status: 2,
        part: "'submit-ack'",
    },
    Explained {
        words: &["sms", "encode", "submit", "1"],
        status: 2,
        part: "<TEXT>",
    },
    Explained {
        words: &["sms", "encode", "submit", "1", "-5"],
        status: 2,
        part: "'-5'",
    },
    Explained {
        words: &["sms", "encode", "submit", "1", "a", "--mr", "256"],
        status: 2,
        part: "256 is not in 0..=255",
    },
    Explained {
        words: &["sms", "encode", "submit", "1", "a", "--mr"],
        status: 2,
        part: "a value is required",
    },
    Explained {
        words: &[
            "sms", "encode", "submit", "1", "a", "--mr", "1", "--mr", "1",
        ],
        status: 2,
        part: "cannot be used multiple times",
    },
    Explained {
        words: &["sms", "encode", "submit", "1", "a", "--validity", "256"],
        status: 2,
        part: "256 is not in 0..=255",
    },
    Explained {
        words: &["sms", "encode", "deliver", "+x", "a", "--rd", "--mr", "256"],
        status: 2,
        part: "256 is not in 0..=255",
    },
];

/// Words of `split` and `play`.
pub static SPLIT_WORDS: [Explained; 5] = [
    Explained {
        words: &["sms", "split"],
        status: 2,
        part: "<TEXT>",
    },
    Explained {
        words: &["sms", "split", "a", "b"],
        status: 2,
        part: "'b'",
    },
    Explained {
        words: &["sms", "split", "-5"],
        status: 2,
        part: "'-5'",
    },
    Explained {
        words: &["sms", "split", "a", "--ref", "65536"],
        status: 2,
        part: "65536 is not in 0..=65535",
    },
    Explained {
        words: &["sms", "play", "x"],
        status: 2,
        part: "'x'",
    },
];

/// Units by their options.
pub static ENCODED_OPTIONS: [Encoded; 4] = [
    Encoded {
        kind: "submit",
        options: &["--validity", "170"],
        address: "+46708251358",
        text: "hellohello",
        octets: "11000B916407281553F80000AA0AE8329BFD4697D9EC37",
    },
    Encoded {
        kind: "submit",
        options: &["--mr", "255", "--rd"],
        address: "1002",
        text: "a",
        octets: "05FF0481012000000161",
    },
    Encoded {
        kind: "submit",
        options: &["--rd", "--mr", "7", "--validity", "167"],
        address: "1",
        text: "a",
        octets: "15070181F10000A70161",
    },
    Encoded {
        kind: "deliver",
        options: &["--stamp", "99309251619580"],
        address: "1",
        text: "a",
        octets: "040181F10000993092516195800161",
    },
];

/// Units by their text.
pub static ENCODED_TEXTS: [Encoded; 5] = [
    Encoded {
        kind: "submit",
        options: &[],
        address: "+1002",
        text: "€",
        octets: "0100049101200000029B32",
    },
    Encoded {
        kind: "submit",
        options: &[],
        address: "1",
        text: "-5",
        octets: "01000181F1000002AD1A",
    },
    Encoded {
        kind: "submit",
        options: &[],
        address: "+1002",
        text: "ж",
        octets: "0100049101200008020436",
    },
    Encoded {
        kind: "submit",
        options: &[],
        address: "1",
        text: "😀a",
        octets: "01000181F1000806D83DDE000061",
    },
    Encoded {
        kind: "deliver",
        options: &[],
        address: "1",
        text: "€ж\u{fffd}",
        octets: "040181F10008001010000000000620AC0436FFFD",
    },
];

/// Units by the telephone number or the name of their address.
pub static ADDRESSES: [Encoded; 6] = [
    Encoded {
        kind: "deliver",
        options: &[],
        address: "hellohe",
        text: "hi",
        octets: "040DD0E8329BFD46970100000010100000000002E834",
    },
    Encoded {
        kind: "submit",
        options: &[],
        address: "ABC",
        text: "a",
        octets: "010006D041E11000000161",
    },
    Encoded {
        kind: "submit",
        options: &[],
        address: "+123",
        text: "@",
        octets: "0100039121F300000100",
    },
    Encoded {
        kind: "submit",
        options: &[],
        address: "",
        text: "",
        octets: "01000081000000",
    },
    Encoded {
        kind: "submit",
        options: &[],
        address: "*#abc",
        text: "a",
        octets: "01000581BADCFE00000161",
    },
    Encoded {
        kind: "deliver",
        options: &[],
        address: "27838890001",
        text: "hellohello",
        octets: "040B817238880900F10000001010000000000AE8329BFD4697D9EC37",
    },
];

/// Units with characters that would break a line.
pub static BREAKING: [Breaking; 3] = [
    Breaking {
        unit: Encoded {
            kind: "submit",
            options: &[],
            address: "1",
            text: "^{}\\[~]|€",
            octets: "01000181F10000121BCA06B5496D5E1BDEA6B7F16D809B32",
        },
        address: "1",
        text: "^{}\\\\[~]|€",
    },
    Breaking {
        unit: Encoded {
            kind: "submit",
            options: &[],
            address: "1",
            text: "\n\r\u{c}",
            octets: "01000181F10000048AC64601",
        },
        address: "1",
        text: "\\n\\r\\f",
    },
    Breaking {
        unit: Encoded {
            kind: "deliver",
            options: &[],
            address: "a\n\u{c}",
            text: "a",
            octets: "0407D061C546010000001010000000000161",
        },
        address: "a\\n\\f",
        text: "a",
    },
];

/// Words whose address is none, the status and the answer.
pub static NO_ADDRESSES: [NotEncoded; 5] = [
    NotEncoded {
        kind: "submit",
        options: &[],
        address: "+12x",
        text: "a",
        status: 1,
        line: "bad address",
    },
    NotEncoded {
        kind: "submit",
        options: &[],
        address: "+012345678901234567890",
        text: "a",
        status: 1,
        line: "bad address",
    },
    NotEncoded {
        kind: "submit",
        options: &[],
        address: "+x",
        text: "жжжжжжжжжжжжжжжжжжжжжжжжжжжжжжжжжжжжжжжжжжжжжжжжжжжжжжжжжжжжжжжжжжжжжжж",
        status: 1,
        line: "bad address",
    },
    NotEncoded {
        kind: "submit",
        options: &[],
        address: "ABCDEFGHIJKL",
        text: "a",
        status: 1,
        line: "bad address",
    },
    NotEncoded {
        kind: "submit",
        options: &[],
        address: "ж",
        text: "a",
        status: 1,
        line: "bad address",
    },
];

/// Words with an option that is none of the kind, or with no stamp, the status and the answer.
pub static NO_OPTIONS: [NotEncoded; 7] = [
    NotEncoded {
        kind: "deliver",
        options: &["--rd"],
        address: "1",
        text: "a",
        status: 2,
        line: "option not for this kind",
    },
    NotEncoded {
        kind: "deliver",
        options: &["--mr", "0"],
        address: "1",
        text: "a",
        status: 2,
        line: "option not for this kind",
    },
    NotEncoded {
        kind: "deliver",
        options: &["--validity", "0"],
        address: "1",
        text: "a",
        status: 2,
        line: "option not for this kind",
    },
    NotEncoded {
        kind: "submit",
        options: &["--stamp", "00101000000000"],
        address: "1",
        text: "a",
        status: 2,
        line: "option not for this kind",
    },
    NotEncoded {
        kind: "submit",
        options: &["--stamp", "x"],
        address: "+x",
        text: "ж",
        status: 2,
        line: "option not for this kind",
    },
    NotEncoded {
        kind: "deliver",
        options: &["--stamp", "x"],
        address: "1",
        text: "a",
        status: 1,
        line: "bad hex",
    },
    NotEncoded {
        kind: "deliver",
        options: &["--stamp", "x"],
        address: "+x",
        text: "ж",
        status: 1,
        line: "bad hex",
    },
];

/// Texts that fit one piece, and texts that do not: a kind, the text, the status and the answer.
/// Between bars stand parts, and after an asterisk how many times a part stands.
pub static LONG_TEXTS: [LongText; 5] = [
    LongText {
        kind: "submit",
        text: "a*160",
        status: 0,
        answer: "010000810000A0|E170381C0E87C3*20|\n",
    },
    LongText {
        kind: "submit",
        text: "ж*70",
        status: 0,
        answer: "0100008100088C|0436*70|\n",
    },
    LongText {
        kind: "submit",
        text: "a*161",
        status: 1,
        answer: "text too long\n",
    },
    LongText {
        kind: "submit",
        text: "ж*71",
        status: 1,
        answer: "text too long\n",
    },
    LongText {
        kind: "deliver",
        text: "ж*71",
        status: 1,
        answer: "text too long\n",
    },
];

/// Kinds of unit, octets that begin with the address of a service centre, the status and the
/// answer.
pub static AFTER_CENTRES: [AfterCentre; 7] = [
    AfterCentre {
        kind: "deliver",
        octets: "07917283010010F5040BC87238880900F10000993092516195800AE8329BFD4697D9EC37",
        status: 0,
        answer: "centre: +27381000015\ntype: deliver\nmore: no\nloop: no\nreport: no\nreply: no\nfrom: 27838890001\nnumber: 4 8\npid: 00\ndcs: 00\nstamp: 2099-03-29 15:16:59 +02:00\nlength: 10\ntext: hellohello\n",
    },
    AfterCentre {
        kind: "submit",
        octets: "00010004910120000000",
        status: 0,
        answer: "centre: none\ntype: submit\nreject: no\nreport: no\nreply: no\nreference: 00\nto: +1002\nnumber: 1 1\npid: 00\ndcs: 00\nvalidity: none\nlength: 0\ntext: \n",
    },
    AfterCentre {
        kind: "submit",
        octets: "0691BADCFEEEE0010004910120000000",
        status: 1,
        answer: "at 4: bad address\n",
    },
    AfterCentre {
        kind: "deliver",
        octets: "",
        status: 1,
        answer: "at 0: short\n",
    },
    AfterCentre {
        kind: "deliver",
        octets: "00",
        status: 1,
        answer: "centre: none\nat 0: short\n",
    },
    AfterCentre {
        kind: "deliver",
        octets: "019105",
        status: 1,
        answer: "centre: +\nat 0: wrong type\n",
    },
    AfterCentre {
        kind: "deliver",
        octets: "07917283010010F5040BC87238880900F10000993092516195800AA1",
        status: 1,
        answer: "centre: +27381000015\nat 20: short\n",
    },
];
