//! Rows of the tests of records.

use crate::found::Shown;
use sms_trial::Fed;

/// Records of each status, and the answer.
pub static RECORDS: [Shown; 9] = [
    Shown {
        octets: "0107917283010010F5040491011000000010100000000002E834FFFF",
        lines: "status: read\ncentre: +27381000015\ntype: deliver\nmore: no\nloop: no\nreport: no\nreply: no\nfrom: +1001\nnumber: 1 1\npid: 00\ndcs: 00\nstamp: 2000-01-01 00:00:00 +00:00\nlength: 2\ntext: hi\n",
    },
    Shown {
        octets: "0300060504910110001010000000000010100000000000FFFF",
        lines: "status: unread\ncentre: none\ntype: status-report\nmore: no\nloop: no\nqualifier: no\nheader: no\nreference: 05\nrecipient: +1001\nnumber: 1 1\nstamp: 2000-01-01 00:00:00 +00:00\ndischarged: 2000-01-01 00:00:00 +00:00\nstatus: 00 received\n",
    },
    Shown {
        octets: "0700010004910120000002E834",
        lines: "status: to be sent\ncentre: none\ntype: submit\nreject: no\nreport: no\nreply: no\nreference: 00\nto: +1002\nnumber: 1 1\npid: 00\ndcs: 00\nvalidity: none\nlength: 2\ntext: hi\n",
    },
    Shown {
        octets: "0503910100010004910120000002E834FF",
        lines: "status: sent\ncentre: +1000\ntype: submit\nreject: no\nreport: no\nreply: no\nreference: 00\nto: +1002\nnumber: 1 1\npid: 00\ndcs: 00\nvalidity: none\nlength: 2\ntext: hi\n",
    },
    Shown {
        octets: "0D03910100210004910120000002E834",
        lines: "status: sent, report awaited\ncentre: +1000\ntype: submit\nreject: no\nreport: yes\nreply: no\nreference: 00\nto: +1002\nnumber: 1 1\npid: 00\ndcs: 00\nvalidity: none\nlength: 2\ntext: hi\n",
    },
    Shown {
        octets: "1503910100210004910120000002E834",
        lines: "status: sent, report received\ncentre: +1000\ntype: submit\nreject: no\nreport: yes\nreply: no\nreference: 00\nto: +1002\nnumber: 1 1\npid: 00\ndcs: 00\nvalidity: none\nlength: 2\ntext: hi\n",
    },
    Shown {
        octets: "1D03910100210004910120000002E834",
        lines: "status: sent, report stored\ncentre: +1000\ntype: submit\nreject: no\nreport: yes\nreply: no\nreference: 00\nto: +1002\nnumber: 1 1\npid: 00\ndcs: 00\nvalidity: none\nlength: 2\ntext: hi\n",
    },
    Shown {
        octets: "050002050000070491012000",
        lines: "status: sent\ncentre: none\ntype: command\nheader: no\nreport: no\nreference: 05\npid: 00\ncommand: 00 enquiry\nmessage: 07\nrecipient: +1002\nnumber: 1 1\nlength: 0\ndata: -\n",
    },
    Shown {
        octets: "00FFFF",
        lines: "status: free\n",
    },
];

/// Octets that are no record, and the answer.
pub static FAULTS: [Shown; 9] = [
    Shown {
        octets: "-",
        lines: "at 0: short\n",
    },
    Shown {
        octets: "FFFF",
        lines: "at 0: bad status\n",
    },
    Shown {
        octets: "0900",
        lines: "at 0: bad status\n",
    },
    Shown {
        octets: "010C91",
        lines: "at 1: address too long\n",
    },
    Shown {
        octets: "0102911F04",
        lines: "at 3: bad digit\n",
    },
    Shown {
        octets: "0100010004910120000002E834",
        lines: "at 2: wrong type\n",
    },
    Shown {
        octets: "03000404910110000000101000000000A1",
        lines: "at 16: data too long\n",
    },
    Shown {
        octets: "0700010004910120000002E8",
        lines: "at 12: short\n",
    },
    Shown {
        octets: "0700010004910120000002E834FF00",
        lines: "at 14: not padding\n",
    },
];

/// Records in lines, and the answer.
pub static LISTED: [Fed; 1] = [Fed {
    words: &["sms", "show", "record", "--lines"],
    input: "00FF\n09\n0700010004910120000002E834FF\n",
    status: 1,
    output: "status: free\n\nline 2: at 0: bad status\n\nstatus: to be sent\ncentre: none\ntype: submit\nreject: no\nreport: no\nreply: no\nreference: 00\nto: +1002\nnumber: 1 1\npid: 00\ndcs: 00\nvalidity: none\nlength: 2\ntext: hi\n",
}];

/// Records as objects.
pub static OBJECTS: [Fed; 3] = [
    Fed {
        words: &["sms", "show", "record", "--json", "00"],
        input: "",
        status: 0,
        output: "{\"status\":\"free\"}\n",
    },
    Fed {
        words: &[
            "sms",
            "show",
            "record",
            "--json",
            "0D03910100210004910120000002E834FF",
        ],
        input: "",
        status: 0,
        output: "{\"status\":\"sent, report awaited\",\"centre\":{\"text\":\"+1000\",\"type\":1,\"plan\":1},\"unit\":{\"type\":\"submit\",\"reject\":false,\"report\":true,\"reply\":false,\"reference\":0,\"to\":{\"text\":\"+1002\",\"type\":1,\"plan\":1},\"pid\":0,\"dcs\":0,\"validity\":null,\"length\":2,\"text\":\"hi\"}}\n",
    },
    Fed {
        words: &["sms", "show", "record", "--json", "--lines"],
        input: "\n010002\n",
        status: 1,
        output: "{\"line\":2,\"fault\":{\"layer\":\"record\",\"at\":3,\"reason\":\"short\"}}\n",
    },
];

/// Records of which the SMS-DELIVERs are joined; free ones, originated ones and status reports are
/// passed over.
pub static JOINED: [Fed; 2] = [
    Fed {
        words: &["sms", "join", "--record"],
        input: "0100040491013000004250607080900005E8329BFD06FFFF\n00FFFF\n0700010004910120000002E834\n0300060504910110001010000000000010100000000000FF\n09\n",
        status: 1,
        output: "768294489 +1003 hello\nline 5: at 0: bad status\n",
    },
    Fed {
        words: &["sms", "join", "--record", "--sca"],
        input: "",
        status: 2,
        output: "option not for this kind\n",
    },
];
