//! Rows of the tests of relay addresses.

use sms_field::{AddressFault, FieldFault};

/// A text that says an address, and the address's octets.
#[derive(Clone, Copy)]
pub struct Spelled {
    pub text: &'static str,
    pub octets: &'static [u8],
}

/// A text that says no address, and why.
#[derive(Clone, Copy)]
pub struct Bad {
    pub text: &'static str,
    pub fault: AddressFault,
}

/// Octets that are no address, and the place and the reason of the refusal.
#[derive(Clone, Copy)]
pub struct Refused {
    pub octets: &'static [u8],
    pub place: usize,
    pub why: FieldFault,
}

pub static SPELLED: [Spelled; 6] = [
    Spelled {
        text: "",
        octets: b"\x01\x81",
    },
    Spelled {
        text: "+",
        octets: b"\x01\x91",
    },
    Spelled {
        text: "7",
        octets: b"\x02\x81\xF7",
    },
    Spelled {
        text: "+1000",
        octets: b"\x03\x91\x01\x00",
    },
    Spelled {
        text: "+*#abc",
        octets: b"\x04\x91\xBA\xDC\xFE",
    },
    Spelled {
        text: "12345678901234567890",
        octets: b"\x0B\x81\x21\x43\x65\x87\x09\x21\x43\x65\x87\x09",
    },
];

pub static BAD: [Bad; 4] = [
    Bad {
        text: "abcd",
        fault: AddressFault::BadDigit,
    },
    Bad {
        text: "+12x",
        fault: AddressFault::BadDigit,
    },
    Bad {
        text: "12345678901234567890x",
        fault: AddressFault::BadDigit,
    },
    Bad {
        text: "123456789012345678901",
        fault: AddressFault::AddressTooLong,
    },
];

pub static REFUSED: [Refused; 9] = [
    Refused {
        octets: b"",
        place: 0,
        why: FieldFault::Short,
    },
    Refused {
        octets: b"\x01",
        place: 1,
        why: FieldFault::Short,
    },
    Refused {
        octets: b"\x03\x91",
        place: 2,
        why: FieldFault::Short,
    },
    Refused {
        octets: b"\x03\x91\x21",
        place: 3,
        why: FieldFault::Short,
    },
    Refused {
        octets: b"\x0C",
        place: 0,
        why: FieldFault::Address(AddressFault::AddressTooLong),
    },
    Refused {
        octets: b"\xFF\x91",
        place: 0,
        why: FieldFault::Address(AddressFault::AddressTooLong),
    },
    Refused {
        octets: b"\x02\x91\x1F",
        place: 2,
        why: FieldFault::Address(AddressFault::BadDigit),
    },
    Refused {
        octets: b"\x02\x91\xFF",
        place: 2,
        why: FieldFault::Address(AddressFault::BadDigit),
    },
    Refused {
        octets: b"\x04\x91\xF1",
        place: 2,
        why: FieldFault::Address(AddressFault::BadDigit),
    },
];
