//! What is offered for many recipients, and what is wanted of it.

use sms_tpdu::{Concat, Width};

/// What is wanted of an offer.
#[derive(Clone, Copy)]
pub enum Want {
    Repeat,
    Kept,
    Finished(&'static str),
    TooManyOpen,
}

/// The first segment of two, under the reference 7.
const FIRST: Option<Concat> = Some(Concat {
    width: Width::Eight,
    reference: 7,
    maximum: 2,
    sequence: 1,
});

/// The second of them.
const SECOND: Option<Concat> = Some(Concat {
    width: Width::Eight,
    reference: 7,
    maximum: 2,
    sequence: 2,
});

/// The only segment of one, under the reference 7.
const ONLY: Option<Concat> = Some(Concat {
    width: Width::Eight,
    reference: 7,
    maximum: 1,
    sequence: 1,
});

/// A piece from one sender that is offered for a recipient, or for none where that is empty, and
/// what is wanted of it. All have one time stamp.
#[derive(Clone, Copy)]
pub struct Row {
    pub shows: &'static str,
    pub to: &'static str,
    pub place: Option<Concat>,
    pub text: &'static str,
    pub want: Want,
}

/// Offers of one sender, reference and time stamp for two recipients, and for none.
pub static APART: [Row; 13] = [
    Row {
        shows: "opens for one",
        to: "+2001",
        place: FIRST,
        text: "a",
        want: Want::Kept,
    },
    Row {
        shows: "opens for another",
        to: "+2002",
        place: FIRST,
        text: "c",
        want: Want::Kept,
    },
    Row {
        shows: "opens for none",
        to: "",
        place: SECOND,
        text: "f",
        want: Want::Kept,
    },
    Row {
        shows: "there already",
        to: "+2001",
        place: FIRST,
        text: "a",
        want: Want::Repeat,
    },
    Row {
        shows: "the last of the other",
        to: "+2002",
        place: SECOND,
        text: "d",
        want: Want::Finished("cd"),
    },
    Row {
        shows: "finished lately",
        to: "+2002",
        place: FIRST,
        text: "c",
        want: Want::Repeat,
    },
    Row {
        shows: "the last of the one",
        to: "+2001",
        place: SECOND,
        text: "b",
        want: Want::Finished("ab"),
    },
    Row {
        shows: "the last of none",
        to: "",
        place: FIRST,
        text: "e",
        want: Want::Finished("ef"),
    },
    Row {
        shows: "alone for one",
        to: "+2001",
        place: None,
        text: "u",
        want: Want::Finished("u"),
    },
    Row {
        shows: "alone for another",
        to: "+2002",
        place: None,
        text: "u",
        want: Want::Finished("u"),
    },
    Row {
        shows: "alone for one once more",
        to: "+2001",
        place: None,
        text: "u",
        want: Want::Repeat,
    },
    Row {
        shows: "alone for none",
        to: "",
        place: None,
        text: "w",
        want: Want::Finished("w"),
    },
    Row {
        shows: "the same digits of another type",
        to: "2001",
        place: None,
        text: "x",
        want: Want::Finished("x"),
    },
];

/// Offers where one set may be open, and one key is remembered, of all recipients.
pub static TOGETHER: [Row; 5] = [
    Row {
        shows: "opens",
        to: "+2001",
        place: SECOND,
        text: "b",
        want: Want::Kept,
    },
    Row {
        shows: "one set too many",
        to: "+2002",
        place: SECOND,
        text: "d",
        want: Want::TooManyOpen,
    },
    Row {
        shows: "the last",
        to: "+2001",
        place: FIRST,
        text: "a",
        want: Want::Finished("ab"),
    },
    Row {
        shows: "alone for another",
        to: "+2002",
        place: None,
        text: "v",
        want: Want::Finished("v"),
    },
    Row {
        shows: "forgotten",
        to: "+2001",
        place: FIRST,
        text: "a",
        want: Want::Kept,
    },
];

/// Offers where messages in one piece are passed.
pub static PASSING: [Row; 9] = [
    Row {
        shows: "alone",
        to: "+2001",
        place: None,
        text: "u",
        want: Want::Finished("u"),
    },
    Row {
        shows: "alone once more",
        to: "+2001",
        place: None,
        text: "u",
        want: Want::Finished("u"),
    },
    Row {
        shows: "opens",
        to: "+2001",
        place: SECOND,
        text: "b",
        want: Want::Kept,
    },
    Row {
        shows: "alone where a set is open",
        to: "+2001",
        place: None,
        text: "v",
        want: Want::Finished("v"),
    },
    Row {
        shows: "the last",
        to: "+2001",
        place: FIRST,
        text: "a",
        want: Want::Finished("ab"),
    },
    Row {
        shows: "alone for another",
        to: "+2002",
        place: None,
        text: "w",
        want: Want::Finished("w"),
    },
    Row {
        shows: "still remembered",
        to: "+2001",
        place: FIRST,
        text: "a",
        want: Want::Repeat,
    },
    Row {
        shows: "the only segment",
        to: "+2001",
        place: ONLY,
        text: "o",
        want: Want::Finished("o"),
    },
    Row {
        shows: "the only segment once more",
        to: "+2001",
        place: ONLY,
        text: "o",
        want: Want::Repeat,
    },
];
