//! Rows of the tests of stamps.

/// Midnight of the first day of 2000.
pub const FIRST: [u8; 7] = [0x00, 0x10, 0x10, 0x00, 0x00, 0x00, 0x00];

/// A place, the octet there, and whether the first moment of 2000 stays a date with it.
#[derive(Clone, Copy)]
pub struct Placed {
    pub place: usize,
    pub octet: u8,
    pub is_date: bool,
}

/// Octets at the ends of what each place may hold.
pub static PLACES: [Placed; 16] = [
    // Months 0, 1, 12 and 13.
    Placed {
        place: 1,
        octet: 0x00,
        is_date: false,
    },
    Placed {
        place: 1,
        octet: 0x10,
        is_date: true,
    },
    Placed {
        place: 1,
        octet: 0x21,
        is_date: true,
    },
    Placed {
        place: 1,
        octet: 0x31,
        is_date: false,
    },
    // Days 0, 1, 31 and 32 of January.
    Placed {
        place: 2,
        octet: 0x00,
        is_date: false,
    },
    Placed {
        place: 2,
        octet: 0x10,
        is_date: true,
    },
    Placed {
        place: 2,
        octet: 0x13,
        is_date: true,
    },
    Placed {
        place: 2,
        octet: 0x23,
        is_date: false,
    },
    // Hours 23 and 24, minutes and seconds 59 and 60.
    Placed {
        place: 3,
        octet: 0x32,
        is_date: true,
    },
    Placed {
        place: 3,
        octet: 0x42,
        is_date: false,
    },
    Placed {
        place: 4,
        octet: 0x95,
        is_date: true,
    },
    Placed {
        place: 4,
        octet: 0x06,
        is_date: false,
    },
    Placed {
        place: 5,
        octet: 0x95,
        is_date: true,
    },
    Placed {
        place: 5,
        octet: 0x06,
        is_date: false,
    },
    // A half of the zone that is no digit, and one that has the sign.
    Placed {
        place: 6,
        octet: 0xA0,
        is_date: false,
    },
    Placed {
        place: 6,
        octet: 0x9F,
        is_date: true,
    },
];

/// The octets of a year and of a day of its February, and whether there is that day.
#[derive(Clone, Copy)]
pub struct LastDay {
    pub year: u8,
    pub day: u8,
    pub is_date: bool,
}

/// Leap years and others.
pub static FEBRUARY: [LastDay; 8] = [
    LastDay {
        year: 0x00,
        day: 0x92,
        is_date: true,
    },
    LastDay {
        year: 0x00,
        day: 0x03,
        is_date: false,
    },
    LastDay {
        year: 0x10,
        day: 0x82,
        is_date: true,
    },
    LastDay {
        year: 0x10,
        day: 0x92,
        is_date: false,
    },
    LastDay {
        year: 0x40,
        day: 0x92,
        is_date: true,
    },
    LastDay {
        year: 0x40,
        day: 0x03,
        is_date: false,
    },
    LastDay {
        year: 0x99,
        day: 0x82,
        is_date: true,
    },
    LastDay {
        year: 0x99,
        day: 0x92,
        is_date: false,
    },
];

/// The octet of a zone, and its quarters of an hour.
#[derive(Clone, Copy)]
pub struct Zone {
    pub octet: u8,
    pub quarters: i8,
}

pub static ZONES: [Zone; 6] = [
    Zone {
        octet: 0x00,
        quarters: 0,
    },
    Zone {
        octet: 0x08,
        quarters: 0,
    },
    Zone {
        octet: 0x80,
        quarters: 8,
    },
    Zone {
        octet: 0x2B,
        quarters: -32,
    },
    Zone {
        octet: 0x97,
        quarters: 79,
    },
    Zone {
        octet: 0x9F,
        quarters: -79,
    },
];
