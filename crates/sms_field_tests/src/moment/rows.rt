//! Rows of the tests of moments.

/// The octet of a year, the days before it from the start of 2000, and whether it is a leap year.
#[derive(Clone, Copy)]
pub struct Year {
    pub year: u8,
    pub before: u64,
    pub leap: bool,
}

/// The first years, one in the middle, and the last one.
pub static YEARS: [Year; 5] = [
    Year {
        year: 0x00,
        before: 0,
        leap: true,
    },
    Year {
        year: 0x10,
        before: 366,
        leap: false,
    },
    Year {
        year: 0x40,
        before: 1_461,
        leap: true,
    },
    Year {
        year: 0x69,
        before: 35_064,
        leap: true,
    },
    Year {
        year: 0x99,
        before: 36_160,
        leap: false,
    },
];

/// The octets of a month and of its last day, and its days, in a year of 365 days.
#[derive(Clone, Copy)]
pub struct Month {
    pub month: u8,
    pub last: u8,
    pub days: u64,
}

/// The months of a year of 365 days.
pub static MONTHS: [Month; 12] = [
    Month {
        month: 0x10,
        last: 0x13,
        days: 31,
    },
    Month {
        month: 0x20,
        last: 0x82,
        days: 28,
    },
    Month {
        month: 0x30,
        last: 0x13,
        days: 31,
    },
    Month {
        month: 0x40,
        last: 0x03,
        days: 30,
    },
    Month {
        month: 0x50,
        last: 0x13,
        days: 31,
    },
    Month {
        month: 0x60,
        last: 0x03,
        days: 30,
    },
    Month {
        month: 0x70,
        last: 0x13,
        days: 31,
    },
    Month {
        month: 0x80,
        last: 0x13,
        days: 31,
    },
    Month {
        month: 0x90,
        last: 0x03,
        days: 30,
    },
    Month {
        month: 0x01,
        last: 0x13,
        days: 31,
    },
    Month {
        month: 0x11,
        last: 0x03,
        days: 30,
    },
    Month {
        month: 0x21,
        last: 0x13,
        days: 31,
    },
];

/// A moment and the quarters of a zone, and the octets of the stamp, if there is one.
#[derive(Clone, Copy)]
pub struct End {
    pub moment: u64,
    pub quarters: i8,
    pub octets: Option<[u8; 7]>,
}

/// The first and the last moments in several zones.
pub static ENDS: [End; 14] = [
    End {
        moment: 0,
        quarters: 0,
        octets: Some([0x00, 0x10, 0x10, 0x00, 0x00, 0x00, 0x00]),
    },
    End {
        moment: 3_155_759_999,
        quarters: 0,
        octets: Some([0x99, 0x21, 0x13, 0x32, 0x95, 0x95, 0x00]),
    },
    End {
        moment: 3_155_760_000,
        quarters: 0,
        octets: None,
    },
    End {
        moment: 71_099,
        quarters: -79,
        octets: None,
    },
    End {
        moment: 71_100,
        quarters: -79,
        octets: Some([0x00, 0x10, 0x10, 0x00, 0x00, 0x00, 0x9F]),
    },
    End {
        moment: 3_155_831_099,
        quarters: -79,
        octets: Some([0x99, 0x21, 0x13, 0x32, 0x95, 0x95, 0x9F]),
    },
    End {
        moment: 3_155_831_100,
        quarters: -79,
        octets: None,
    },
    End {
        moment: 0,
        quarters: 79,
        octets: Some([0x00, 0x10, 0x10, 0x91, 0x54, 0x00, 0x97]),
    },
    End {
        moment: 3_155_688_899,
        quarters: 79,
        octets: Some([0x99, 0x21, 0x13, 0x32, 0x95, 0x95, 0x97]),
    },
    End {
        moment: 3_155_688_900,
        quarters: 79,
        octets: None,
    },
    End {
        moment: 1_000_000,
        quarters: 80,
        octets: None,
    },
    End {
        moment: 1_000_000,
        quarters: -80,
        octets: None,
    },
    End {
        moment: 28_800,
        quarters: -32,
        octets: Some([0x00, 0x10, 0x10, 0x00, 0x00, 0x00, 0x2B]),
    },
    End {
        moment: 3_131_788_619,
        quarters: 8,
        octets: Some([0x99, 0x30, 0x92, 0x51, 0x61, 0x95, 0x80]),
    },
];

/// Octets that have no moment: a time before 2000, one in the east, and month nought.
pub static WITHOUT: [[u8; 7]; 3] = [
    [0x00, 0x10, 0x10, 0x00, 0x00, 0x00, 0x10],
    [0x00, 0x10, 0x10, 0x91, 0x44, 0x95, 0x97],
    [0x00, 0x00, 0x00, 0x00, 0x00, 0x00, 0x00],
];
