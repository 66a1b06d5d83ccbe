//! Rows of the tests of addresses.

use sms_field::{AddressFault, FieldFault};

pub const NINETEEN: &[u8] = b"\x13\x81\x21\x43\x65\x87\x09\x21\x43\x65\x87\xF9";

pub const TWENTY: &[u8] = b"\x14\x81\x21\x43\x65\x87\x09\x21\x43\x65\x87\x09";

/// Octets that are read as an address of digits, and how many of them it takes.
#[derive(Clone, Copy)]
pub struct Found {
    pub octets: &'static [u8],
    pub type_of_number: u8,
    pub plan: u8,
    pub digits: &'static [u8],
    pub used: usize,
}

/// Octets that are no address, and the place and the reason of the refusal.
#[derive(Clone, Copy)]
pub struct Refused {
    pub octets: &'static [u8],
    pub place: usize,
    pub why: FieldFault,
}

pub static FOUND: [Found; 10] = [
    Found {
        octets: b"\x00\x81",
        type_of_number: 0,
        plan: 1,
        digits: b"",
        used: 2,
    },
    Found {
        octets: b"\x01\x91\xF1",
        type_of_number: 1,
        plan: 1,
        digits: b"\x01",
        used: 3,
    },
    Found {
        octets: b"\x01\x91\x01",
        type_of_number: 1,
        plan: 1,
        digits: b"\x01",
        used: 3,
    },
    Found {
        octets: b"\x01\x81\xE4\xFF",
        type_of_number: 0,
        plan: 1,
        digits: b"\x04",
        used: 3,
    },
    Found {
        octets: b"\x02\xFF\x21",
        type_of_number: 7,
        plan: 15,
        digits: b"\x01\x02",
        used: 3,
    },
    Found {
        octets: b"\x02\x01\x21",
        type_of_number: 0,
        plan: 1,
        digits: b"\x01\x02",
        used: 3,
    },
    Found {
        octets: b"\x04\x81\x21\x43",
        type_of_number: 0,
        plan: 1,
        digits: b"\x01\x02\x03\x04",
        used: 4,
    },
    Found {
        octets: b"\x05\x81\xBA\xDC\xFE",
        type_of_number: 0,
        plan: 1,
        digits: b"\x0A\x0B\x0C\x0D\x0E",
        used: 5,
    },
    Found {
        octets: NINETEEN,
        type_of_number: 0,
        plan: 1,
        digits: b"\x01\x02\x03\x04\x05\x06\x07\x08\x09\x00\x01\x02\x03\x04\x05\x06\x07\x08\x09",
        used: 12,
    },
    Found {
        octets: TWENTY,
        type_of_number: 0,
        plan: 1,
        digits: b"\x01\x02\x03\x04\x05\x06\x07\x08\x09\x00\x01\x02\x03\x04\x05\x06\x07\x08\x09\x00",
        used: 12,
    },
];

pub static REFUSED: [Refused; 16] = [
    Refused {
        octets: b"",
        place: 0,
        why: FieldFault::Short,
    },
    Refused {
        octets: b"\x00",
        place: 1,
        why: FieldFault::Short,
    },
    Refused {
        octets: b"\x04",
        place: 1,
        why: FieldFault::Short,
    },
    Refused {
        octets: b"\x04\x81",
        place: 2,
        why: FieldFault::Short,
    },
    Refused {
        octets: b"\x04\x81\x21",
        place: 3,
        why: FieldFault::Short,
    },
    Refused {
        octets: b"\x03\x81\x21",
        place: 3,
        why: FieldFault::Short,
    },
    Refused {
        octets: b"\x15",
        place: 0,
        why: FieldFault::Address(AddressFault::AddressTooLong),
    },
    Refused {
        octets: b"\xFF\xD0",
        place: 0,
        why: FieldFault::Address(AddressFault::AddressTooLong),
    },
    Refused {
        octets: b"\x02\x81\x1F",
        place: 2,
        why: FieldFault::Address(AddressFault::BadDigit),
    },
    Refused {
        octets: b"\x02\x81\xF1",
        place: 2,
        why: FieldFault::Address(AddressFault::BadDigit),
    },
    Refused {
        octets: b"\x01\x81\x1F",
        place: 2,
        why: FieldFault::Address(AddressFault::BadDigit),
    },
    Refused {
        octets: b"\x03\x81\x21\xFF",
        place: 3,
        why: FieldFault::Address(AddressFault::BadDigit),
    },
    Refused {
        octets: b"\x04\x81\x21\xF3",
        place: 3,
        why: FieldFault::Address(AddressFault::BadDigit),
    },
    Refused {
        octets: b"\x04\x81\xF1",
        place: 2,
        why: FieldFault::Address(AddressFault::BadDigit),
    },
    Refused {
        octets: b"\x15\xD0",
        place: 0,
        why: FieldFault::Address(AddressFault::AddressTooLong),
    },
    Refused {
        octets: b"\x0D\xD0\xE8\x32\x9B\xFD\x46\x97",
        place: 8,
        why: FieldFault::Short,
    },
];

/// Octets of an address, and those with which it is written.
#[derive(Clone, Copy)]
pub struct Written {
    pub octets: &'static [u8],
    pub want: &'static [u8],
}

pub static WRITTEN: [Written; 4] = [
    Written {
        octets: b"\x00\x01",
        want: b"\x00\x81",
    },
    Written {
        octets: b"\x03\x11\x21\x03",
        want: b"\x03\x91\x21\xF3",
    },
    Written {
        octets: NINETEEN,
        want: NINETEEN,
    },
    Written {
        octets: TWENTY,
        want: TWENTY,
    },
];

/// A text that says an address, and the address's octets.
#[derive(Clone, Copy)]
pub struct Spelled {
    pub text: &'static str,
    pub octets: &'static [u8],
}

/// A text that says no address, and why.
#[derive(Clone, Copy)]
pub struct Bad {
    pub text: &'static str,
    pub fault: AddressFault,
}

pub static SPELLED: [Spelled; 14] = [
    Spelled {
        text: "",
        octets: b"\x00\x81",
    },
    Spelled {
        text: "+",
        octets: b"\x00\x91",
    },
    Spelled {
        text: "7",
        octets: b"\x01\x81\xF7",
    },
    Spelled {
        text: "+1002",
        octets: b"\x04\x91\x01\x20",
    },
    Spelled {
        text: "+0123456789",
        octets: b"\x0A\x91\x10\x32\x54\x76\x98",
    },
    Spelled {
        text: "12*3",
        octets: b"\x04\x81\x21\x3A",
    },
    Spelled {
        text: "*#abc",
        octets: b"\x05\x81\xBA\xDC\xFE",
    },
    Spelled {
        text: "+*#abc0",
        octets: b"\x06\x91\xBA\xDC\x0E",
    },
    Spelled {
        text: "1234567890123456789",
        octets: NINETEEN,
    },
    Spelled {
        text: "12345678901234567890",
        octets: TWENTY,
    },
    Spelled {
        text: "hellohe",
        octets: b"\x0D\xD0\xE8\x32\x9B\xFD\x46\x97\x01",
    },
    Spelled {
        text: "A",
        octets: b"\x02\xD0\x41",
    },
    Spelled {
        text: "1x",
        octets: b"\x04\xD0\x31\x3C",
    },
    Spelled {
        text: "hellohelloh",
        octets: b"\x14\xD0\xE8\x32\x9B\xFD\x46\x97\xD9\xEC\x37\x1A",
    },
];

pub static BAD: [Bad; 11] = [
    Bad {
        text: "+12x",
        fault: AddressFault::BadDigit,
    },
    Bad {
        text: "++1",
        fault: AddressFault::BadDigit,
    },
    Bad {
        text: "+A",
        fault: AddressFault::BadDigit,
    },
    Bad {
        text: "1\u{3B1}",
        fault: AddressFault::BadDigit,
    },
    Bad {
        text: "hellohellohello\u{3B1}",
        fault: AddressFault::BadDigit,
    },
    Bad {
        text: "hellohellohe",
        fault: AddressFault::AddressTooLong,
    },
    Bad {
        text: "euros 12 \u{20AC}x",
        fault: AddressFault::AddressTooLong,
    },
    Bad {
        text: "12345678901234567890x",
        fault: AddressFault::AddressTooLong,
    },
    Bad {
        text: "+123456789012345678901x",
        fault: AddressFault::BadDigit,
    },
    Bad {
        text: "123456789012345678901",
        fault: AddressFault::AddressTooLong,
    },
    Bad {
        text: "+123456789012345678901",
        fault: AddressFault::AddressTooLong,
    },
];

/// The octets of a name, and its text.
#[derive(Clone, Copy)]
pub struct Named {
    pub octets: &'static [u8],
    pub text: &'static str,
}

pub static NAMED: [Named; 4] = [
    Named {
        octets: b"\x0D\xD0\xE8\x32\x9B\xFD\x46\x97\x01",
        text: "hellohe",
    },
    Named {
        octets: b"\x0E\xD0\xE8\x32\x9B\xFD\x46\x97\x01",
        text: "hellohe@",
    },
    Named {
        octets: b"\x00\x50",
        text: "",
    },
    Named {
        octets: b"\x01\xDF\xFF",
        text: "",
    },
];
