//! Rows of the tests of validity periods.

/// The first and the last octet of a range, the seconds of each, and those that each further octet
/// adds.
#[derive(Clone, Copy)]
pub struct Steps {
    pub first: u8,
    pub last: u8,
    pub seconds: u64,
    pub last_seconds: u64,
    pub step: u64,
}

/// The ranges of the standard's table.
pub static RANGES: [Steps; 4] = [
    Steps {
        first: 0,
        last: 143,
        seconds: 300,
        last_seconds: 43_200,
        step: 300,
    },
    Steps {
        first: 144,
        last: 167,
        seconds: 45_000,
        last_seconds: 86_400,
        step: 1_800,
    },
    Steps {
        first: 168,
        last: 196,
        seconds: 172_800,
        last_seconds: 2_592_000,
        step: 86_400,
    },
    Steps {
        first: 197,
        last: 255,
        seconds: 3_024_000,
        last_seconds: 38_102_400,
        step: 604_800,
    },
];
