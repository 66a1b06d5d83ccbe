//! Rows of the tests of relay and connection messages.

use crate::found::{AfterCentre, Shown};

/// RP-DATA from phones and to phones, and the answer.
pub static RP_DATA: [Shown; 6] = [
    Shown {
        octets: "000000039101000B010004910120000002E834",
        lines: "rp: data from phone\nreference: 00\naddress: +1000\ntype: submit\nreject: no\nreport: no\nreply: no\nreference: 00\nto: +1002\nnumber: 1 1\npid: 00\ndcs: 00\nvalidity: none\nlength: 2\ntext: hi\n",
    },
    Shown {
        octets: "007F00000B010004910120000002E834",
        lines: "rp: data from phone\nreference: 7F\naddress: none\ntype: submit\nreject: no\nreport: no\nreply: no\nreference: 00\nto: +1002\nnumber: 1 1\npid: 00\ndcs: 00\nvalidity: none\nlength: 2\ntext: hi\n",
    },
    Shown {
        octets: "000000039101000C010004910120000002E83401020304",
        lines: "rp: data from phone\nreference: 00\naddress: +1000\nrest: 3\ntype: submit\nreject: no\nreport: no\nreply: no\nreference: 00\nto: +1002\nnumber: 1 1\npid: 00\ndcs: 00\nvalidity: none\nlength: 2\ntext: hi\nrest: 1\n",
    },
    Shown {
        octets: "0100039101000011040491101000000010100000000002E834",
        lines: "rp: data to phone\nreference: 00\naddress: +1000\ntype: deliver\nmore: no\nloop: no\nreport: no\nreply: no\nfrom: +0101\nnumber: 1 1\npid: 00\ndcs: 00\nstamp: 2000-01-01 00:00:00 +00:00\nlength: 2\ntext: hi\n",
    },
    Shown {
        octets: "0180000011040491101000000010100000000002E834",
        lines: "rp: data to phone\nreference: 80\naddress: none\ntype: deliver\nmore: no\nloop: no\nreport: no\nreply: no\nfrom: +0101\nnumber: 1 1\npid: 00\ndcs: 00\nstamp: 2000-01-01 00:00:00 +00:00\nlength: 2\ntext: hi\n",
    },
    Shown {
        octets: "0100039101000013040491101000000010100000000002E834FFFFFF",
        lines: "rp: data to phone\nreference: 00\naddress: +1000\nrest: 1\ntype: deliver\nmore: no\nloop: no\nreport: no\nreply: no\nfrom: +0101\nnumber: 1 1\npid: 00\ndcs: 00\nstamp: 2000-01-01 00:00:00 +00:00\nlength: 2\ntext: hi\nrest: 2\n",
    },
];

/// RP-ACK and RP-ERROR, and the answer.
pub static RP_ANSWERS: [Shown; 12] = [
    Shown {
        octets: "02A5",
        lines: "rp: ack from phone\nreference: A5\nuser: none\n",
    },
    Shown {
        octets: "020040FF",
        lines: "rp: ack from phone\nreference: 00\nuser: none\nrest: 2\n",
    },
    Shown {
        octets: "0200410D00070004080041FF0041FF0041",
        lines: "rp: ack from phone\nreference: 00\ntype: deliver-ack\nheader: no\npid: 00\ndcs: 04\nlength: 8\nuser: 0041FF0041FF0041\n",
    },
    Shown {
        octets: "02004102000041",
        lines: "rp: ack from phone\nreference: 00\nrest: 1\ntype: deliver-ack\nheader: no\n",
    },
    Shown {
        octets: "03A5",
        lines: "rp: ack to phone\nreference: A5\nuser: none\n",
    },
    Shown {
        octets: "0300410E4107001010000000007F08020436",
        lines: "rp: ack to phone\nreference: 00\ntype: submit-ack\nheader: yes\nstamp: 2000-01-01 00:00:00 +00:00\npid: 7F\ndcs: 08\nlength: 2\nuser: 0436\n",
    },
    Shown {
        octets: "0300410B0100001010000000000000",
        lines: "rp: ack to phone\nreference: 00\ntype: submit-ack\nheader: no\nstamp: 2000-01-01 00:00:00 +00:00\nrest: 2\n",
    },
    Shown {
        octets: "0400016F",
        lines: "rp: error from phone\nreference: 00\ncause: 111\nuser: none\n",
    },
    Shown {
        octets: "04A50216FF",
        lines: "rp: error from phone\nreference: A5\ncause: 22\ndiagnostic: 255\nuser: none\n",
    },
    Shown {
        octets: "0400026F00410400900000",
        lines: "rp: error from phone\nreference: 00\ncause: 111\ndiagnostic: 0\ntype: deliver-error\nheader: no\ncause: 90\nrest: 1\n",
    },
    Shown {
        octets: "05FF021580",
        lines: "rp: error to phone\nreference: FF\ncause: 21\ndiagnostic: 128\nuser: none\n",
    },
    Shown {
        octets: "05000115410B01C50000101000000000FF41FF",
        lines: "rp: error to phone\nreference: 00\ncause: 21\nrest: 2\ntype: submit-error\nheader: no\ncause: C5\nstamp: 2000-01-01 00:00:00 +00:00\nrest: 1\n",
    },
];

/// Octets that are no RP message, and the answer.
pub static NO_RP_MESSAGES: [Shown; 6] = [
    Shown {
        octets: "06",
        lines: "at 0: unknown type\n",
    },
    Shown {
        octets: "00",
        lines: "at 1: short\n",
    },
    Shown {
        octets: "000001",
        lines: "at 2: bad address\n",
    },
    Shown {
        octets: "040003",
        lines: "at 2: bad cause\n",
    },
    Shown {
        octets: "030041EA",
        lines: "at 3: data too long\n",
    },
    Shown {
        octets: "030041",
        lines: "at 3: short\n",
    },
];

/// RP-DATA whose unit is none, and the answer.
pub static FAULTS_IN_TRANSFERS: [Shown; 5] = [
    Shown {
        octets: "0000000391010000",
        lines: "rp: data from phone\nreference: 00\naddress: +1000\nat 0: short\n",
    },
    Shown {
        octets: "000000039101000100",
        lines: "rp: data from phone\nreference: 00\naddress: +1000\nat 0: wrong type\n",
    },
    Shown {
        octets: "000000039101000A41000491012000000100",
        lines: "rp: data from phone\nreference: 00\naddress: +1000\nat 8: header too long\n",
    },
    Shown {
        octets: "0100039101000000",
        lines: "rp: data to phone\nreference: 00\naddress: +1000\nat 0: short\n",
    },
    Shown {
        octets: "0100039101000001030102",
        lines: "rp: data to phone\nreference: 00\naddress: +1000\nrest: 2\nat 0: wrong type\n",
    },
];

/// RP-ACK and RP-ERROR whose unit is none, and the answer.
pub static FAULTS_IN_ANSWERS: [Shown; 7] = [
    Shown {
        octets: "02004100",
        lines: "rp: ack from phone\nreference: 00\nat 0: short\n",
    },
    Shown {
        octets: "03004100FF",
        lines: "rp: ack to phone\nreference: 00\nrest: 1\nat 0: short\n",
    },
    Shown {
        octets: "0300410102FF",
        lines: "rp: ack to phone\nreference: 00\nrest: 1\nat 0: wrong type\n",
    },
    Shown {
        octets: "04000116410100",
        lines: "rp: error from phone\nreference: 00\ncause: 22\nat 1: short\n",
    },
    Shown {
        octets: "0400021607410400D304FF00",
        lines: "rp: error from phone\nreference: 00\ncause: 22\ndiagnostic: 7\nrest: 1\nat 3: data too long\n",
    },
    Shown {
        octets: "05000115410901C500001010000000",
        lines: "rp: error to phone\nreference: 00\ncause: 21\nat 9: short\n",
    },
    Shown {
        octets: "050002958141010241",
        lines: "rp: error to phone\nreference: 00\ncause: 21\ndiagnostic: 129\nrest: 1\nat 0: wrong type\n",
    },
];

/// CP-DATA with an RP message, and the answer.
pub static CP_DATA: [Shown; 9] = [
    Shown {
        octets: "190113000100039101000B050004910120000002E834",
        lines: "cp: data\ntransaction: 0 1\nrp: data from phone\nreference: 01\naddress: +1000\ntype: submit\nreject: yes\nreport: no\nreply: no\nreference: 00\nto: +1002\nnumber: 1 1\npid: 00\ndcs: 00\nvalidity: none\nlength: 2\ntext: hi\n",
    },
    Shown {
        octets: "090116000000039101000C010004910120000002E834010203040506",
        lines: "cp: data\ntransaction: 0 0\nrest: 3\nrp: data from phone\nreference: 00\naddress: +1000\nrest: 2\ntype: submit\nreject: no\nreport: no\nreply: no\nreference: 00\nto: +1002\nnumber: 1 1\npid: 00\ndcs: 00\nvalidity: none\nlength: 2\ntext: hi\nrest: 1\n",
    },
    Shown {
        octets: "09011B0100039101000012040491101000000010100000000002E834010203",
        lines: "cp: data\ntransaction: 0 0\nrest: 1\nrp: data to phone\nreference: 00\naddress: +1000\nrest: 1\ntype: deliver\nmore: no\nloop: no\nreport: no\nreply: no\nfrom: +0101\nnumber: 1 1\npid: 00\ndcs: 00\nstamp: 2000-01-01 00:00:00 +00:00\nlength: 2\ntext: hi\nrest: 1\n",
    },
    Shown {
        octets: "89010D03004109010000101000000000",
        lines: "cp: data\ntransaction: 1 0\nrp: ack to phone\nreference: 00\ntype: submit-ack\nheader: no\nstamp: 2000-01-01 00:00:00 +00:00\n",
    },
    Shown {
        octets: "99011005010115410A01C50000101000000000",
        lines: "cp: data\ntransaction: 1 1\nrp: error to phone\nreference: 01\ncause: 21\ntype: submit-error\nheader: no\ncause: C5\nstamp: 2000-01-01 00:00:00 +00:00\n",
    },
    Shown {
        octets: "89010405050161",
        lines: "cp: data\ntransaction: 1 0\nrp: error to phone\nreference: 05\ncause: 97\nuser: none\n",
    },
    Shown {
        octets: "090109020041030000010203040506",
        lines: "cp: data\ntransaction: 0 0\nrest: 3\nrp: ack from phone\nreference: 00\nrest: 2\ntype: deliver-ack\nheader: no\nrest: 1\n",
    },
    Shown {
        octets: "09010F0300410A010000101000000000014100",
        lines: "cp: data\ntransaction: 0 0\nrest: 1\nrp: ack to phone\nreference: 00\nrest: 1\ntype: submit-ack\nheader: no\nstamp: 2000-01-01 00:00:00 +00:00\nrest: 1\n",
    },
    Shown {
        octets: "09010C0400021600410400D300014100",
        lines: "cp: data\ntransaction: 0 0\nrest: 1\nrp: error from phone\nreference: 00\ncause: 22\ndiagnostic: 0\nrest: 1\ntype: deliver-error\nheader: no\ncause: D3\nrest: 1\n",
    },
];

/// CP-ACK and CP-ERROR, and the answer.
pub static CP_WITHOUT_DATA: [Shown; 5] = [
    Shown {
        octets: "8904",
        lines: "cp: ack\ntransaction: 1 0\n",
    },
    Shown {
        octets: "0904FF",
        lines: "cp: ack\ntransaction: 0 0\nrest: 1\n",
    },
    Shown {
        octets: "6904",
        lines: "cp: ack\ntransaction: 0 6\n",
    },
    Shown {
        octets: "091011",
        lines: "cp: error\ntransaction: 0 0\ncause: 17\n",
    },
    Shown {
        octets: "99105100",
        lines: "cp: error\ntransaction: 1 1\ncause: 81\nrest: 1\n",
    },
];

/// Octets that are no CP message, and the answer.
pub static NO_CP_MESSAGES: [Shown; 6] = [
    Shown {
        octets: "",
        lines: "at 0: short\n",
    },
    Shown {
        octets: "8A",
        lines: "at 0: not sms\n",
    },
    Shown {
        octets: "79",
        lines: "at 0: bad transaction\n",
    },
    Shown {
        octets: "0902",
        lines: "at 1: unknown type\n",
    },
    Shown {
        octets: "09",
        lines: "at 1: short\n",
    },
    Shown {
        octets: "0901FF",
        lines: "at 3: short\n",
    },
];

/// CP-DATA whose RP message is none, and the answer.
pub static FAULTS_OF_RP_IN_CP: [Shown; 5] = [
    Shown {
        octets: "090100FF",
        lines: "cp: data\ntransaction: 0 0\nrest: 1\nat 0: short\n",
    },
    Shown {
        octets: "09010106",
        lines: "cp: data\ntransaction: 0 0\nat 0: unknown type\n",
    },
    Shown {
        octets: "0901030000FF",
        lines: "cp: data\ntransaction: 0 0\nat 2: bad address\n",
    },
    Shown {
        octets: "09010500000000EA",
        lines: "cp: data\ntransaction: 0 0\nat 4: data too long\n",
    },
    Shown {
        octets: "090103040003",
        lines: "cp: data\ntransaction: 0 0\nat 2: bad cause\n",
    },
];

/// CP-DATA with an RP message whose unit is none, and the answer.
pub static FAULTS_OF_UNITS_IN_CP: [Shown; 6] = [
    Shown {
        octets: "09010A000000039101000102FFFFFF",
        lines: "cp: data\ntransaction: 0 0\nrest: 2\nrp: data from phone\nreference: 00\naddress: +1000\nrest: 1\nat 0: wrong type\n",
    },
    Shown {
        octets: "0901190100039101000010040491101000000010100000000002E800",
        lines: "cp: data\ntransaction: 0 0\nrp: data to phone\nreference: 00\naddress: +1000\nrest: 1\nat 16: short\n",
    },
    Shown {
        octets: "890106030041020000",
        lines: "cp: data\ntransaction: 1 0\nrp: ack to phone\nreference: 00\nat 0: wrong type\n",
    },
    Shown {
        octets: "090106020041020080",
        lines: "cp: data\ntransaction: 0 0\nrp: ack from phone\nreference: 00\nat 2: short\n",
    },
    Shown {
        octets: "89010805000115410201C5",
        lines: "cp: data\ntransaction: 1 0\nrp: error to phone\nreference: 00\ncause: 21\nat 2: short\n",
    },
    Shown {
        octets: "89010704000116410101",
        lines: "cp: data\ntransaction: 1 0\nrp: error from phone\nreference: 00\ncause: 22\nat 0: wrong type\n",
    },
];

/// Messages after the address of a service centre, the status and the answer.
pub static AFTER_CENTRES: [AfterCentre; 7] = [
    AfterCentre {
        kind: "rp",
        octets: "00000000039101000B010004910120000002E834",
        status: 0,
        answer: "centre: none\nrp: data from phone\nreference: 00\naddress: +1000\ntype: submit\nreject: no\nreport: no\nreply: no\nreference: 00\nto: +1002\nnumber: 1 1\npid: 00\ndcs: 00\nvalidity: none\nlength: 2\ntext: hi\n",
    },
    AfterCentre {
        kind: "rp",
        octets: "0291F10400021601410300D300",
        status: 0,
        answer: "centre: +1\nrp: error from phone\nreference: 00\ncause: 22\ndiagnostic: 1\ntype: deliver-error\nheader: no\ncause: D3\n",
    },
    AfterCentre {
        kind: "rp",
        octets: "000000000391010000",
        status: 1,
        answer: "centre: none\nrp: data from phone\nreference: 00\naddress: +1000\nat 0: short\n",
    },
    AfterCentre {
        kind: "cp",
        octets: "07917283010010F58901190100039101000011040491101000000010100000000002E834",
        status: 0,
        answer: "centre: +27381000015\ncp: data\ntransaction: 1 0\nrp: data to phone\nreference: 00\naddress: +1000\ntype: deliver\nmore: no\nloop: no\nreport: no\nreply: no\nfrom: +0101\nnumber: 1 1\npid: 00\ndcs: 00\nstamp: 2000-01-01 00:00:00 +00:00\nlength: 2\ntext: hi\n",
    },
    AfterCentre {
        kind: "cp",
        octets: "0191091011FF",
        status: 0,
        answer: "centre: +\ncp: error\ntransaction: 0 0\ncause: 17\nrest: 1\n",
    },
    AfterCentre {
        kind: "cp",
        octets: "0009010106FF",
        status: 1,
        answer: "centre: none\ncp: data\ntransaction: 0 0\nrest: 1\nat 0: unknown type\n",
    },
    AfterCentre {
        kind: "cp",
        octets: "00090109010003910100000101",
        status: 1,
        answer: "centre: none\ncp: data\ntransaction: 0 0\nrp: data to phone\nreference: 00\naddress: +1000\nat 0: wrong type\n",
    },
];
