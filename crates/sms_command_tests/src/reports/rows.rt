//! Rows of the tests of reports.

use crate::found::AfterCentre;

/// A kind of report, its octets, and the answer where they are shown.
pub struct Report {
    pub kind: &'static str,
    pub octets: &'static str,
    pub answer: &'static str,
}

/// SMS-SUBMIT-REPORT without what may be left out, with one part, and with all and an octet after
/// it, and the answer.
pub static SUBMIT_REPORTS: [Report; 9] = [
    Report {
        kind: "submit-ack",
        octets: "010099309251619580",
        answer: "type: submit-ack\nheader: no\nstamp: 2099-03-29 15:16:59 +02:00\n",
    },
    Report {
        kind: "submit-ack",
        octets: "0101993092516195807F",
        answer: "type: submit-ack\nheader: no\nstamp: 2099-03-29 15:16:59 +02:00\npid: 7F\n",
    },
    Report {
        kind: "submit-ack",
        octets: "01029930925161958004",
        answer: "type: submit-ack\nheader: no\nstamp: 2099-03-29 15:16:59 +02:00\ndcs: 04\n",
    },
    Report {
        kind: "submit-ack",
        octets: "01049930925161958000FF",
        answer: "type: submit-ack\nheader: no\nstamp: 2099-03-29 15:16:59 +02:00\nlength: 0\nuser: -\nrest: 1\n",
    },
    Report {
        kind: "submit-ack",
        octets: "FD07993092516195800000090500030A0201D069FF",
        answer: "type: submit-ack\nheader: yes\nstamp: 2099-03-29 15:16:59 +02:00\npid: 00\ndcs: 00\nlength: 9\nuser: 0500030A0201D069\nrest: 1\n",
    },
    Report {
        kind: "submit-ack",
        octets: "010000000000000000",
        answer: "type: submit-ack\nheader: no\nstamp: raw 00000000000000\n",
    },
    Report {
        kind: "submit-error",
        octets: "01D30099309251619580",
        answer: "type: submit-error\nheader: no\ncause: D3\nstamp: 2099-03-29 15:16:59 +02:00\n",
    },
    Report {
        kind: "submit-error",
        octets: "FDD307993092516195800000090500030A0201D069FF",
        answer: "type: submit-error\nheader: yes\ncause: D3\nstamp: 2099-03-29 15:16:59 +02:00\npid: 00\ndcs: 00\nlength: 9\nuser: 0500030A0201D069\nrest: 1\n",
    },
    Report {
        kind: "submit-error",
        octets: "01C50000101000000000",
        answer: "type: submit-error\nheader: no\ncause: C5\nstamp: 2000-01-01 00:00:00 +00:00\n",
    },
];

/// SMS-DELIVER-REPORT without what may be left out, with one part, and with all and an octet after
/// it, and the answer.
pub static DELIVER_REPORTS: [Report; 7] = [
    Report {
        kind: "deliver-ack",
        octets: "0000",
        answer: "type: deliver-ack\nheader: no\n",
    },
    Report {
        kind: "deliver-ack",
        octets: "00017F",
        answer: "type: deliver-ack\nheader: no\npid: 7F\n",
    },
    Report {
        kind: "deliver-ack",
        octets: "000400FF",
        answer: "type: deliver-ack\nheader: no\nlength: 0\nuser: -\nrest: 1\n",
    },
    Report {
        kind: "deliver-ack",
        octets: "FC070000090500030A0201D069FF",
        answer: "type: deliver-ack\nheader: yes\npid: 00\ndcs: 00\nlength: 9\nuser: 0500030A0201D069\nrest: 1\n",
    },
    Report {
        kind: "deliver-error",
        octets: "00D300",
        answer: "type: deliver-error\nheader: no\ncause: D3\n",
    },
    Report {
        kind: "deliver-error",
        octets: "FCD3070000090500030A0201D069FF",
        answer: "type: deliver-error\nheader: yes\ncause: D3\npid: 00\ndcs: 00\nlength: 9\nuser: 0500030A0201D069\nrest: 1\n",
    },
    Report {
        kind: "deliver-error",
        octets: "000A00",
        answer: "type: deliver-error\nheader: no\ncause: 0A\n",
    },
];

/// Octets that are no report, and the answer.
pub static NO_REPORTS: [Report; 6] = [
    Report {
        kind: "submit-ack",
        octets: "00",
        answer: "at 0: wrong type\n",
    },
    Report {
        kind: "submit-ack",
        octets: "018099309251619580",
        answer: "at 9: short\n",
    },
    Report {
        kind: "submit-ack",
        octets: "010499309251619580B6",
        answer: "at 9: data too long\n",
    },
    Report {
        kind: "submit-error",
        octets: "00",
        answer: "at 0: wrong type\n",
    },
    Report {
        kind: "deliver-ack",
        octets: "01",
        answer: "at 0: wrong type\n",
    },
    Report {
        kind: "deliver-error",
        octets: "01",
        answer: "at 0: wrong type\n",
    },
];

/// Reports after the address of a service centre, the status and the answer.
pub static REPORTS_AFTER_CENTRES: [AfterCentre; 6] = [
    AfterCentre {
        kind: "submit-ack",
        octets: "07917283010010F50107993092516195807F040141",
        status: 0,
        answer: "centre: +27381000015\ntype: submit-ack\nheader: no\nstamp: 2099-03-29 15:16:59 +02:00\npid: 7F\ndcs: 04\nlength: 1\nuser: 41\n",
    },
    AfterCentre {
        kind: "submit-ack",
        octets: "00010499309251619580B6",
        status: 1,
        answer: "centre: none\nat 9: data too long\n",
    },
    AfterCentre {
        kind: "submit-error",
        octets: "019101D30099309251619580FF",
        status: 0,
        answer: "centre: +\ntype: submit-error\nheader: no\ncause: D3\nstamp: 2099-03-29 15:16:59 +02:00\nrest: 1\n",
    },
    AfterCentre {
        kind: "deliver-ack",
        octets: "0000077F040141",
        status: 0,
        answer: "centre: none\ntype: deliver-ack\nheader: no\npid: 7F\ndcs: 04\nlength: 1\nuser: 41\n",
    },
    AfterCentre {
        kind: "deliver-error",
        octets: "019100D300FF",
        status: 0,
        answer: "centre: +\ntype: deliver-error\nheader: no\ncause: D3\nrest: 1\n",
    },
    AfterCentre {
        kind: "deliver-error",
        octets: "0000D304B6",
        status: 1,
        answer: "centre: none\nat 3: data too long\n",
    },
];
