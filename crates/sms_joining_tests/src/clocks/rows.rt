//! Stamps that jump by more than a week: what is told of the units, by the rule of the clock.

/// The seconds of a day.
const DAY: u64 = 86_400;

/// A segment of a set of three: its origin, counted from 0, the reference of the set, the sequence,
/// and the moment of its stamp, in seconds since the beginning of 2000.
#[derive(Clone, Copy)]
pub struct Unit(pub usize, pub u8, pub u8, pub Option<u64>);

/// What happens, the units, and what is told of them.
pub struct Row {
    pub what: &'static str,
    pub units: &'static [Unit],
    pub told: &'static str,
}

/// A stamp of 2099 among others of 2024.
pub static WRONG: [Row; 5] = [
    Row {
        what: "one segment of 2099",
        units: &[
            Unit(0, 1, 1, Some(8_800 * DAY)),
            Unit(1, 2, 1, Some(8_800 * DAY)),
            Unit(2, 3, 1, Some(36_200 * DAY)),
            Unit(0, 1, 2, Some(8_801 * DAY)),
        ],
        told: "open: +1001 8 1 3 missing 3\nopen: +1002 8 2 3 missing 2 3\nopen: +1003 8 3 3 missing 2 3\n",
    },
    Row {
        what: "two segments of 2099",
        units: &[
            Unit(0, 1, 1, Some(8_800 * DAY)),
            Unit(1, 2, 1, Some(8_800 * DAY)),
            Unit(2, 3, 1, Some(36_200 * DAY)),
            Unit(2, 3, 2, Some(36_200 * DAY)),
            Unit(0, 1, 2, Some(8_801 * DAY)),
        ],
        told: "open: +1001 8 1 3 missing 3\nopen: +1002 8 2 3 missing 2 3\nopen: +1003 8 3 3 missing 3\n",
    },
    Row {
        what: "a text of three segments of 2099",
        units: &[
            Unit(0, 1, 1, Some(8_800 * DAY)),
            Unit(1, 2, 1, Some(8_800 * DAY)),
            Unit(2, 3, 1, Some(36_200 * DAY)),
            Unit(2, 3, 2, Some(36_200 * DAY)),
            Unit(2, 3, 3, Some(36_200 * DAY)),
            Unit(0, 1, 2, Some(8_801 * DAY)),
        ],
        told: "3127680000 +1003 aaa\nopen: +1001 8 1 3 missing 3\nopen: +1002 8 2 3 missing 2 3\n",
    },
    Row {
        what: "the fourth of 2099",
        units: &[
            Unit(0, 1, 1, Some(8_800 * DAY)),
            Unit(1, 2, 1, Some(8_800 * DAY)),
            Unit(2, 3, 1, Some(36_200 * DAY)),
            Unit(2, 3, 2, Some(36_200 * DAY)),
            Unit(2, 3, 3, Some(36_200 * DAY)),
            Unit(2, 4, 1, Some(36_200 * DAY)),
        ],
        told: "3127680000 +1003 aaa\ndropped: +1001 8 1 3 missing 2 3\ndropped: +1002 8 2 3 missing 2 3\nopen: +1003 8 4 3 missing 2 3\n",
    },
    Row {
        what: "the fourth of 2099 after one of another origin",
        units: &[
            Unit(0, 1, 1, Some(8_800 * DAY)),
            Unit(1, 2, 1, Some(8_800 * DAY)),
            Unit(2, 3, 1, Some(36_200 * DAY)),
            Unit(2, 3, 2, Some(36_200 * DAY)),
            Unit(2, 3, 3, Some(36_200 * DAY)),
            Unit(0, 1, 2, Some(8_801 * DAY)),
            Unit(2, 4, 1, Some(36_200 * DAY)),
        ],
        told: "3127680000 +1003 aaa\nopen: +1001 8 1 3 missing 3\nopen: +1002 8 2 3 missing 2 3\nopen: +1003 8 4 3 missing 2 3\n",
    },
];

/// The first stamps.
pub static FIRST: [Row; 9] = [
    Row {
        what: "an undated set is dropped at the first stamp",
        units: &[Unit(0, 1, 1, None), Unit(1, 2, 1, Some(8_800 * DAY))],
        told: "dropped: +1001 8 1 3 missing 2 3\nopen: +1002 8 2 3 missing 2 3\n",
    },
    Row {
        what: "the first unit is of 2099",
        units: &[
            Unit(2, 3, 1, Some(36_200 * DAY)),
            Unit(0, 1, 1, Some(8_800 * DAY)),
            Unit(1, 2, 1, Some(8_807 * DAY)),
        ],
        told: "dropped: +1001 8 1 3 missing 2 3\nopen: +1003 8 3 3 missing 2 3\nopen: +1002 8 2 3 missing 2 3\n",
    },
    Row {
        what: "three units of the first origin are of 2099, and one of them is not",
        units: &[
            Unit(2, 3, 1, Some(36_200 * DAY)),
            Unit(2, 3, 2, Some(36_200 * DAY)),
            Unit(2, 4, 1, Some(8_800 * DAY)),
            Unit(0, 1, 1, Some(8_800 * DAY)),
            Unit(1, 2, 1, Some(8_807 * DAY)),
        ],
        told: "dropped: +1001 8 1 3 missing 2 3\nopen: +1003 8 3 3 missing 3\nopen: +1003 8 4 3 missing 2 3\nopen: +1002 8 2 3 missing 2 3\n",
    },
    Row {
        what: "four units of the first origin are believed",
        units: &[
            Unit(2, 3, 1, Some(36_200 * DAY)),
            Unit(2, 3, 2, Some(36_200 * DAY)),
            Unit(2, 4, 1, Some(36_200 * DAY)),
            Unit(2, 4, 2, Some(36_200 * DAY)),
            Unit(0, 1, 1, Some(8_800 * DAY)),
            Unit(1, 2, 1, Some(8_807 * DAY)),
        ],
        told: "open: +1003 8 3 3 missing 3\nopen: +1003 8 4 3 missing 3\nopen: +1001 8 1 3 missing 2 3\nopen: +1002 8 2 3 missing 2 3\n",
    },
    Row {
        what: "another origin a week before the first",
        units: &[
            Unit(2, 3, 1, Some(8_807 * DAY)),
            Unit(0, 1, 1, Some(8_800 * DAY)),
            Unit(1, 2, 1, Some(8_814 * DAY)),
        ],
        told: "dropped: +1003 8 3 3 missing 2 3\ndropped: +1001 8 1 3 missing 2 3\nopen: +1002 8 2 3 missing 2 3\n",
    },
    Row {
        what: "another origin a second more than a week before the first",
        units: &[
            Unit(2, 3, 1, Some(8_807 * DAY + 1)),
            Unit(0, 1, 1, Some(8_800 * DAY)),
            Unit(1, 2, 1, Some(8_807 * DAY)),
        ],
        told: "dropped: +1001 8 1 3 missing 2 3\nopen: +1003 8 3 3 missing 2 3\nopen: +1002 8 2 3 missing 2 3\n",
    },
    Row {
        what: "another origin far after the first",
        units: &[
            Unit(0, 1, 1, Some(8_800 * DAY)),
            Unit(2, 3, 1, Some(8_830 * DAY)),
            Unit(0, 2, 1, Some(8_800 * DAY)),
        ],
        told: "open: +1001 8 1 3 missing 2 3\nopen: +1003 8 3 3 missing 2 3\nopen: +1001 8 2 3 missing 2 3\n",
    },
    Row {
        what: "two other origins far after the first",
        units: &[
            Unit(0, 1, 1, Some(8_800 * DAY)),
            Unit(2, 3, 1, Some(8_830 * DAY)),
            Unit(1, 2, 1, Some(8_830 * DAY)),
        ],
        told: "dropped: +1001 8 1 3 missing 2 3\nopen: +1003 8 3 3 missing 2 3\nopen: +1002 8 2 3 missing 2 3\n",
    },
    Row {
        what: "the first origin goes on after a month",
        units: &[
            Unit(0, 1, 1, Some(8_800 * DAY)),
            Unit(0, 2, 1, Some(8_830 * DAY)),
            Unit(0, 3, 1, Some(8_830 * DAY)),
            Unit(0, 4, 1, Some(8_830 * DAY)),
            Unit(0, 5, 1, Some(8_830 * DAY)),
        ],
        told: "dropped: +1001 8 1 3 missing 2 3\nopen: +1001 8 2 3 missing 2 3\nopen: +1001 8 3 3 missing 2 3\nopen: +1001 8 4 3 missing 2 3\nopen: +1001 8 5 3 missing 2 3\n",
    },
];

/// Stamps far ahead, which others bear out or not.
pub static BORNE_OUT: [Row; 9] = [
    Row {
        what: "a week ahead is believed",
        units: &[
            Unit(0, 1, 1, Some(8_800 * DAY)),
            Unit(1, 2, 1, Some(8_800 * DAY)),
            Unit(2, 3, 1, Some(8_807 * DAY)),
        ],
        told: "dropped: +1001 8 1 3 missing 2 3\ndropped: +1002 8 2 3 missing 2 3\nopen: +1003 8 3 3 missing 2 3\n",
    },
    Row {
        what: "a second more than a week ahead is not",
        units: &[
            Unit(0, 1, 1, Some(8_800 * DAY)),
            Unit(1, 2, 1, Some(8_800 * DAY)),
            Unit(2, 3, 1, Some(8_807 * DAY + 1)),
        ],
        told: "open: +1001 8 1 3 missing 2 3\nopen: +1002 8 2 3 missing 2 3\nopen: +1003 8 3 3 missing 2 3\n",
    },
    Row {
        what: "a month ahead a capture joins its first set",
        units: &[
            Unit(0, 1, 1, Some(8_800 * DAY)),
            Unit(1, 2, 1, Some(8_800 * DAY)),
            Unit(2, 3, 1, Some(8_830 * DAY)),
            Unit(0, 4, 1, Some(8_830 * DAY)),
            Unit(2, 3, 2, Some(8_830 * DAY)),
            Unit(2, 3, 3, Some(8_830 * DAY)),
        ],
        told: "dropped: +1001 8 1 3 missing 2 3\ndropped: +1002 8 2 3 missing 2 3\n762912000 +1003 aaa\nopen: +1001 8 4 3 missing 2 3\n",
    },
    Row {
        what: "the lesser of two came last",
        units: &[
            Unit(0, 1, 1, Some(8_800 * DAY)),
            Unit(1, 2, 1, Some(8_800 * DAY)),
            Unit(2, 3, 1, Some(8_840 * DAY)),
            Unit(0, 4, 1, Some(8_830 * DAY)),
            Unit(1, 5, 1, Some(8_837 * DAY)),
        ],
        told: "dropped: +1001 8 1 3 missing 2 3\ndropped: +1002 8 2 3 missing 2 3\ndropped: +1001 8 4 3 missing 2 3\nopen: +1003 8 3 3 missing 2 3\nopen: +1002 8 5 3 missing 2 3\n",
    },
    Row {
        what: "the lesser of two came first",
        units: &[
            Unit(0, 1, 1, Some(8_800 * DAY)),
            Unit(1, 2, 1, Some(8_800 * DAY)),
            Unit(2, 3, 1, Some(8_830 * DAY)),
            Unit(0, 4, 1, Some(8_840 * DAY)),
            Unit(1, 5, 1, Some(8_837 * DAY)),
        ],
        told: "dropped: +1001 8 1 3 missing 2 3\ndropped: +1002 8 2 3 missing 2 3\ndropped: +1003 8 3 3 missing 2 3\nopen: +1001 8 4 3 missing 2 3\nopen: +1002 8 5 3 missing 2 3\n",
    },
    Row {
        what: "the greater of two lies within a week",
        units: &[
            Unit(0, 1, 1, Some(8_800 * DAY)),
            Unit(1, 2, 1, Some(8_800 * DAY)),
            Unit(2, 3, 1, Some(8_830 * DAY)),
            Unit(0, 4, 1, Some(8_837 * DAY)),
            Unit(1, 5, 1, Some(8_844 * DAY)),
        ],
        told: "dropped: +1001 8 1 3 missing 2 3\ndropped: +1002 8 2 3 missing 2 3\ndropped: +1003 8 3 3 missing 2 3\ndropped: +1001 8 4 3 missing 2 3\nopen: +1002 8 5 3 missing 2 3\n",
    },
    Row {
        what: "a unit at the clock ends a row",
        units: &[
            Unit(0, 1, 1, Some(8_800 * DAY)),
            Unit(1, 2, 1, Some(8_800 * DAY)),
            Unit(2, 3, 1, Some(8_830 * DAY)),
            Unit(0, 1, 2, Some(8_800 * DAY)),
            Unit(1, 4, 1, Some(8_830 * DAY)),
        ],
        told: "open: +1001 8 1 3 missing 3\nopen: +1002 8 2 3 missing 2 3\nopen: +1003 8 3 3 missing 2 3\nopen: +1002 8 4 3 missing 2 3\n",
    },
    Row {
        what: "a unit without a date ends none",
        units: &[
            Unit(0, 1, 1, Some(8_800 * DAY)),
            Unit(1, 2, 1, Some(8_800 * DAY)),
            Unit(2, 3, 1, Some(8_830 * DAY)),
            Unit(0, 1, 2, None),
            Unit(1, 4, 1, Some(8_830 * DAY)),
        ],
        told: "dropped: +1001 8 1 3 missing 3\ndropped: +1002 8 2 3 missing 2 3\nopen: +1003 8 3 3 missing 2 3\nopen: +1002 8 4 3 missing 2 3\n",
    },
    Row {
        what: "the least of four",
        units: &[
            Unit(0, 1, 1, Some(8_800 * DAY)),
            Unit(1, 2, 1, Some(8_800 * DAY)),
            Unit(2, 3, 1, Some(8_850 * DAY)),
            Unit(2, 4, 1, Some(8_840 * DAY)),
            Unit(2, 5, 1, Some(8_860 * DAY)),
            Unit(2, 6, 1, Some(8_855 * DAY)),
            Unit(0, 7, 1, Some(8_847 * DAY)),
        ],
        told: "dropped: +1001 8 1 3 missing 2 3\ndropped: +1002 8 2 3 missing 2 3\ndropped: +1003 8 4 3 missing 2 3\nopen: +1003 8 3 3 missing 2 3\nopen: +1003 8 5 3 missing 2 3\nopen: +1003 8 6 3 missing 2 3\nopen: +1001 8 7 3 missing 2 3\n",
    },
];

/// Sets that were opened ahead of the clock.
pub static ROWS_AHEAD: [Row; 4] = [
    Row {
        what: "old sets are told in the order of opening",
        units: &[
            Unit(0, 1, 1, Some(8_800 * DAY)),
            Unit(1, 2, 1, Some(8_800 * DAY)),
            Unit(2, 3, 1, Some(8_830 * DAY)),
            Unit(0, 4, 1, Some(8_803 * DAY)),
            Unit(2, 5, 1, Some(8_828 * DAY)),
            Unit(1, 6, 1, Some(8_803 * DAY)),
            Unit(2, 7, 1, Some(8_900 * DAY)),
            Unit(0, 8, 1, Some(8_900 * DAY)),
        ],
        told: "dropped: +1001 8 1 3 missing 2 3\ndropped: +1002 8 2 3 missing 2 3\ndropped: +1003 8 3 3 missing 2 3\ndropped: +1001 8 4 3 missing 2 3\ndropped: +1003 8 5 3 missing 2 3\ndropped: +1002 8 6 3 missing 2 3\nopen: +1003 8 7 3 missing 2 3\nopen: +1001 8 8 3 missing 2 3\n",
    },
    Row {
        what: "a set grows old that was opened ahead",
        units: &[
            Unit(0, 1, 1, Some(8_800 * DAY)),
            Unit(1, 2, 1, Some(8_800 * DAY)),
            Unit(2, 3, 1, Some(8_810 * DAY)),
            Unit(0, 4, 1, Some(8_805 * DAY)),
            Unit(1, 5, 1, Some(8_812 * DAY)),
            Unit(0, 6, 1, Some(8_817 * DAY)),
        ],
        told: "dropped: +1001 8 1 3 missing 2 3\ndropped: +1002 8 2 3 missing 2 3\ndropped: +1001 8 4 3 missing 2 3\ndropped: +1003 8 3 3 missing 2 3\nopen: +1002 8 5 3 missing 2 3\nopen: +1001 8 6 3 missing 2 3\n",
    },
    Row {
        what: "a set is whole that was opened ahead",
        units: &[
            Unit(0, 1, 1, Some(8_800 * DAY)),
            Unit(1, 2, 1, Some(8_800 * DAY)),
            Unit(2, 3, 1, Some(8_810 * DAY)),
            Unit(2, 3, 2, Some(8_810 * DAY)),
            Unit(2, 3, 3, Some(8_810 * DAY)),
            Unit(0, 4, 1, Some(8_807 * DAY)),
            Unit(1, 5, 1, Some(8_814 * DAY)),
            Unit(0, 6, 1, Some(8_817 * DAY)),
        ],
        told: "761184000 +1003 aaa\ndropped: +1001 8 1 3 missing 2 3\ndropped: +1002 8 2 3 missing 2 3\ndropped: +1001 8 4 3 missing 2 3\nopen: +1002 8 5 3 missing 2 3\nopen: +1001 8 6 3 missing 2 3\n",
    },
    Row {
        what: "a set that stays open lies between old ones",
        units: &[
            Unit(0, 1, 1, Some(8_800 * DAY)),
            Unit(1, 2, 1, Some(8_800 * DAY)),
            Unit(2, 3, 1, Some(8_820 * DAY)),
            Unit(0, 4, 1, Some(8_805 * DAY)),
            Unit(2, 5, 1, Some(8_815 * DAY)),
            Unit(1, 6, 1, Some(8_811 * DAY)),
            Unit(0, 7, 1, Some(8_818 * DAY)),
        ],
        told: "dropped: +1001 8 1 3 missing 2 3\ndropped: +1002 8 2 3 missing 2 3\ndropped: +1001 8 4 3 missing 2 3\ndropped: +1002 8 6 3 missing 2 3\nopen: +1003 8 3 3 missing 2 3\nopen: +1003 8 5 3 missing 2 3\nopen: +1001 8 7 3 missing 2 3\n",
    },
];
