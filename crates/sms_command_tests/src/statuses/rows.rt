//! Rows of the tests of status reports and commands.

use crate::found::{AfterCentre, Shown};

/// Status reports that stand in the tests of oFono 1.31, and the last in those of Gammu 1.42.
pub static STATUS_REPORTS: [Shown; 4] = [
    Shown {
        octets: "06040D91945152991136F00160124130340A0160124130940A00",
        lines: "type: status-report\nmore: no\nloop: no\nqualifier: no\nheader: no\nreference: 04\nrecipient: +4915259911630\nnumber: 1 1\nstamp: 2010-06-21 14:03:43 -05:00\ndischarged: 2010-06-21 14:03:49 -05:00\nstatus: 00 received\n",
    },
    Shown {
        octets: "06050D91945152991136F00160124130640A0160124130450A00",
        lines: "type: status-report\nmore: no\nloop: no\nqualifier: no\nheader: no\nreference: 05\nrecipient: +4915259911630\nnumber: 1 1\nstamp: 2010-06-21 14:03:46 -05:00\ndischarged: 2010-06-21 14:03:54 -05:00\nstatus: 00 received\n",
    },
    Shown {
        octets: "0606098121436587F9019012413064A0019012413045A000",
        lines: "type: status-report\nmore: no\nloop: no\nqualifier: no\nheader: no\nreference: 06\nrecipient: 123456789\nnumber: 0 1\nstamp: raw 019012413064A0\ndischarged: raw 019012413045A0\nstatus: 00 received\n",
    },
    Shown {
        octets: "06E80C91666666666666909070618422809090706184628000",
        lines: "type: status-report\nmore: no\nloop: no\nqualifier: no\nheader: no\nreference: E8\nrecipient: +666666666666\nnumber: 1 1\nstamp: 2009-09-07 16:48:22 +02:00\ndischarged: 2009-09-07 16:48:26 +02:00\nstatus: 00 received\n",
    },
];

/// Flags, parts and what follows.
pub static PARTS: [Shown; 3] = [
    Shown {
        octets: "FA0702812199309251619580993092516195804687007F0402AABB",
        lines: "type: status-report\nmore: yes\nloop: yes\nqualifier: yes\nheader: yes\nreference: 07\nrecipient: 12\nnumber: 0 1\nstamp: 2099-03-29 15:16:59 +02:00\ndischarged: 2099-03-29 15:16:59 +02:00\nstatus: 46 permanent error: validity period expired\npid: 7F\ndcs: 04\nlength: 2\nuser: AABB\n",
    },
    Shown {
        octets: "060802812199309251619580993092516195803000",
        lines: "type: status-report\nmore: no\nloop: no\nqualifier: no\nheader: no\nreference: 08\nrecipient: 12\nnumber: 0 1\nstamp: 2099-03-29 15:16:59 +02:00\ndischarged: 2099-03-29 15:16:59 +02:00\nstatus: 30 still trying: service centre specific\n",
    },
    Shown {
        octets: "060802812199309251619580993092516195803000FF00",
        lines: "type: status-report\nmore: no\nloop: no\nqualifier: no\nheader: no\nreference: 08\nrecipient: 12\nnumber: 0 1\nstamp: 2099-03-29 15:16:59 +02:00\ndischarged: 2099-03-29 15:16:59 +02:00\nstatus: 30 still trying: service centre specific\nrest: 2\n",
    },
];

/// An octet, and its words.
pub struct Words {
    pub octet: &'static str,
    pub words: &'static str,
}

/// TP-ST: each value that the standard names, and one of each other range, of a reserved one the
/// first and the last, but temporary errors twice.
pub static STATUSES: [Words; 35] = [
    Words {
        octet: "00",
        words: "received",
    },
    Words {
        octet: "01",
        words: "forwarded, delivery not confirmed",
    },
    Words {
        octet: "02",
        words: "replaced by the service centre",
    },
    Words {
        octet: "03",
        words: "temporary error: reserved",
    },
    Words {
        octet: "0F",
        words: "temporary error: reserved",
    },
    Words {
        octet: "10",
        words: "service centre specific",
    },
    Words {
        octet: "20",
        words: "still trying: congestion",
    },
    Words {
        octet: "21",
        words: "still trying: SME busy",
    },
    Words {
        octet: "22",
        words: "still trying: no response from SME",
    },
    Words {
        octet: "23",
        words: "still trying: service rejected",
    },
    Words {
        octet: "24",
        words: "still trying: quality of service not available",
    },
    Words {
        octet: "25",
        words: "still trying: error in SME",
    },
    Words {
        octet: "26",
        words: "temporary error: reserved",
    },
    Words {
        octet: "2F",
        words: "temporary error: reserved",
    },
    Words {
        octet: "3F",
        words: "still trying: service centre specific",
    },
    Words {
        octet: "40",
        words: "permanent error: remote procedure error",
    },
    Words {
        octet: "41",
        words: "permanent error: incompatible destination",
    },
    Words {
        octet: "42",
        words: "permanent error: connection rejected by SME",
    },
    Words {
        octet: "43",
        words: "permanent error: not obtainable",
    },
    Words {
        octet: "44",
        words: "permanent error: quality of service not available",
    },
    Words {
        octet: "45",
        words: "permanent error: no interworking available",
    },
    Words {
        octet: "46",
        words: "permanent error: validity period expired",
    },
    Words {
        octet: "47",
        words: "permanent error: deleted by originating SME",
    },
    Words {
        octet: "48",
        words: "permanent error: deleted by service centre administration",
    },
    Words {
        octet: "49",
        words: "permanent error: message does not exist",
    },
    Words {
        octet: "4A",
        words: "temporary error: reserved",
    },
    Words {
        octet: "4F",
        words: "temporary error: reserved",
    },
    Words {
        octet: "50",
        words: "permanent error: service centre specific",
    },
    Words {
        octet: "60",
        words: "temporary error: congestion",
    },
    Words {
        octet: "65",
        words: "temporary error: error in SME",
    },
    Words {
        octet: "66",
        words: "temporary error: reserved",
    },
    Words {
        octet: "6F",
        words: "temporary error: reserved",
    },
    Words {
        octet: "70",
        words: "temporary error: service centre specific",
    },
    Words {
        octet: "80",
        words: "temporary error: reserved",
    },
    Words {
        octet: "FF",
        words: "temporary error: reserved",
    },
];

/// TP-CT, likewise.
pub static ASKED: [Words; 9] = [
    Words {
        octet: "00",
        words: "enquiry",
    },
    Words {
        octet: "01",
        words: "cancel status report request",
    },
    Words {
        octet: "02",
        words: "delete",
    },
    Words {
        octet: "03",
        words: "enable status report request",
    },
    Words {
        octet: "04",
        words: "reserved",
    },
    Words {
        octet: "20",
        words: "reserved",
    },
    Words {
        octet: "DF",
        words: "reserved",
    },
    Words {
        octet: "E0",
        words: "service centre specific",
    },
    Words {
        octet: "FF",
        words: "service centre specific",
    },
];

/// Commands with and without data.
pub static COMMANDS: [Shown; 2] = [
    Shown {
        octets: "02070002050491012000",
        lines: "type: command\nheader: no\nreport: no\nreference: 07\npid: 00\ncommand: 02 delete\nmessage: 05\nrecipient: +1002\nnumber: 1 1\nlength: 0\ndata: -\n",
    },
    Shown {
        octets: "FE0841000602812103AABBCC00",
        lines: "type: command\nheader: yes\nreport: yes\nreference: 08\npid: 41\ncommand: 00 enquiry\nmessage: 06\nrecipient: 12\nnumber: 0 1\nlength: 3\ndata: AABBCC\nrest: 1\n",
    },
];

/// Octets that are no status report.
pub static NO_STATUS_REPORTS: [Shown; 5] = [
    Shown {
        octets: "05",
        lines: "at 0: wrong type\n",
    },
    Shown {
        octets: "06081515",
        lines: "at 2: address too long\n",
    },
    Shown {
        octets: "06080281219930925161958099309251619580",
        lines: "at 19: short\n",
    },
    Shown {
        octets: "060802812199309251619580993092516195800001",
        lines: "at 21: short\n",
    },
    Shown {
        octets: "060802812199309251619580993092516195800004B6",
        lines: "at 21: data too long\n",
    },
];

/// Octets that are no command.
pub static NO_COMMANDS: [Shown; 3] = [
    Shown {
        octets: "01",
        lines: "at 0: wrong type\n",
    },
    Shown {
        octets: "0207000205",
        lines: "at 5: short\n",
    },
    Shown {
        octets: "02070002050281219E",
        lines: "at 8: data too long\n",
    },
];

/// A status report as a modem lists it, and a command without a centre.
pub static AFTER_CENTRES: [AfterCentre; 2] = [
    AfterCentre {
        kind: "status-report",
        octets: "079124603050020006E80C91666666666666909070618422809090706184628000",
        status: 0,
        answer: "centre: +420603052000\ntype: status-report\nmore: no\nloop: no\nqualifier: no\nheader: no\nreference: E8\nrecipient: +666666666666\nnumber: 1 1\nstamp: 2009-09-07 16:48:22 +02:00\ndischarged: 2009-09-07 16:48:26 +02:00\nstatus: 00 received\n",
    },
    AfterCentre {
        kind: "command",
        octets: "0002070002050491012000",
        status: 0,
        answer: "centre: none\ntype: command\nheader: no\nreport: no\nreference: 07\npid: 00\ncommand: 02 delete\nmessage: 05\nrecipient: +1002\nnumber: 1 1\nlength: 0\ndata: -\n",
    },
];

/// A message that may be any, as rp or cp, with the status and the answer under --any.
pub struct Any {
    pub kind: &'static str,
    pub octets: &'static str,
    pub status: u8,
    pub answer: &'static str,
}

/// Messages that carry a status report or a command, or another unit; and RP-SMMA.
pub static CARRIED: [Any; 11] = [
    Any {
        kind: "rp",
        octets: "010302910000140608028121993092516195809930925161958000",
        status: 0,
        answer: "rp: data to phone\nreference: 03\naddress: +00\ntype: status-report\nmore: no\nloop: no\nqualifier: no\nheader: no\nreference: 08\nrecipient: 12\nnumber: 0 1\nstamp: 2099-03-29 15:16:59 +02:00\ndischarged: 2099-03-29 15:16:59 +02:00\nstatus: 00 received\n",
    },
    Any {
        kind: "cp",
        octets: "09011B010302910000140608028121993092516195809930925161958000",
        status: 0,
        answer: "cp: data\ntransaction: 0 0\nrp: data to phone\nreference: 03\naddress: +00\ntype: status-report\nmore: no\nloop: no\nqualifier: no\nheader: no\nreference: 08\nrecipient: 12\nnumber: 0 1\nstamp: 2099-03-29 15:16:59 +02:00\ndischarged: 2099-03-29 15:16:59 +02:00\nstatus: 00 received\n",
    },
    Any {
        kind: "rp",
        octets: "0004000291000A02070002050491012000",
        status: 0,
        answer: "rp: data from phone\nreference: 04\naddress: +00\ntype: command\nheader: no\nreport: no\nreference: 07\npid: 00\ncommand: 02 delete\nmessage: 05\nrecipient: +1002\nnumber: 1 1\nlength: 0\ndata: -\n",
    },
    Any {
        kind: "rp",
        octets: "010302910000020107",
        status: 1,
        answer: "rp: data to phone\nreference: 03\naddress: +00\nat 0: wrong type\n",
    },
    Any {
        kind: "rp",
        octets: "020541020000",
        status: 0,
        answer: "rp: ack from phone\nreference: 05\ntype: deliver-ack\nheader: no\n",
    },
    Any {
        kind: "rp",
        octets: "0601",
        status: 0,
        answer: "rp: memory available from phone\nreference: 01\n",
    },
    Any {
        kind: "rp",
        octets: "FE01AABB",
        status: 0,
        answer: "rp: memory available from phone\nreference: 01\nrest: 2\n",
    },
    Any {
        kind: "rp",
        octets: "06",
        status: 1,
        answer: "at 1: short\n",
    },
    Any {
        kind: "rp",
        octets: "0701",
        status: 1,
        answer: "at 0: unknown type\n",
    },
    Any {
        kind: "cp",
        octets: "0901020601",
        status: 0,
        answer: "cp: data\ntransaction: 0 0\nrp: memory available from phone\nreference: 01\n",
    },
    Any {
        kind: "status-report",
        octets: "0608028121993092516195809930925161958000",
        status: 2,
        answer: "option not for this kind\n",
    },
];

/// Words, and a part of their answer.
pub struct Told {
    pub words: &'static [&'static str],
    pub part: &'static str,
}

/// Units that their first octet tells, and what JSON has.
pub static TOLD: [Told; 5] = [
    Told {
        words: &[
            "sms",
            "show",
            "any",
            "0608028121993092516195809930925161958000",
        ],
        part: "type: status-report\n",
    },
    Told {
        words: &[
            "sms",
            "show",
            "any",
            "--from",
            "phone",
            "02070002050491012000",
        ],
        part: "type: command\n",
    },
    Told {
        words: &[
            "sms",
            "show",
            "--json",
            "status-report",
            "0608028121993092516195809930925161958046",
        ],
        part: "\"status\":{\"octet\":70,\"group\":\"permanent error\",\"meaning\":\"validity period expired\"}",
    },
    Told {
        words: &[
            "sms",
            "show",
            "--json",
            "status-report",
            "0608028121993092516195809930925161958003",
        ],
        part: "\"status\":{\"octet\":3,\"group\":\"temporary error\",\"meaning\":\"reserved\"}",
    },
    Told {
        words: &["sms", "show", "--json", "command", "02070002050491012000"],
        part: "\"command\":{\"octet\":2,\"meaning\":\"delete\"}",
    },
];
