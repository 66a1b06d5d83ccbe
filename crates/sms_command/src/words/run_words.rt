//! The words of the subcommands that go through an input.

use crate::words::arguments::{Word, WordForm};

/// The words of `join`.
pub const JOIN: &[Word] = &[
    Word {
        name: "sca",
        form: WordForm::Flag,
        help: "The address of a service centre comes first",
    },
    Word {
        name: "record",
        form: WordForm::Flag,
        help: "Each line is a record of a card; what is no SMS-DELIVER there is passed over",
    },
    Word {
        name: "data",
        form: WordForm::Flag,
        help: "A line has user data alone: ORIGIN DCS HEADER HEX, HEADER 1 where one stands in front, else 0",
    },
    Word {
        name: "septets",
        form: WordForm::Flag,
        help: "--data: septets stand one an octet",
    },
    Word {
        name: "languages",
        form: WordForm::Flag,
        help: "Texts are read under the national language tables that their headers tell",
    },
    Word {
        name: "open",
        form: WordForm::Count,
        help: "How many texts may be open at once, 16 unless given",
    },
    Word {
        name: "remembered",
        form: WordForm::Count,
        help: "How many texts that are whole are remembered, 32 unless given",
    },
    Word {
        name: "remember-for",
        form: WordForm::Number("SECONDS"),
        help: "For how long they are; without it until as many others came",
    },
    Word {
        name: "alone",
        form: WordForm::Choice(&["remember", "pass"]),
        help: "A text in one piece is remembered, unless given; pass: it is told each time it comes",
    },
    Word {
        name: "to",
        form: WordForm::Flag,
        help: "A line begins with the recipient's number and a blank; texts for two are never joined",
    },
    Word {
        name: "json",
        form: WordForm::Flag,
        help: "A line has an object in JSON for each text",
    },
    Word {
        name: "state",
        form: WordForm::Value("FILE"),
        help: "What is open and remembered is kept in FILE, so that a run that was cut off goes on when it is begun again on the same input",
    },
    Word {
        name: "every",
        form: WordForm::Number("N"),
        help: "--state: FILE is written after so many lines each time, 10000 unless given, and at the end",
    },
    Word {
        name: "verbose",
        form: WordForm::Flag,
        help: "Repeats, segments for which too many texts are open, and sets that are dropped after a week are told; else what is lost is only counted, on standard error",
    },
];

/// The words of `play`.
pub const PLAY: &[Word] = &[
    Word {
        name: "json",
        form: WordForm::Flag,
        help: "A line has an object in JSON for each event, and at the end for each phone",
    },
    Word {
        name: "check",
        form: WordForm::Flag,
        help: "Ends with status 1 where an event named nothing (fault ..)",
    },
    Word {
        name: "orderly",
        form: WordForm::Flag,
        help: "Tells at the end whether the run was orderly, so that each store is just the texts typed to it of which every segment was taken; or the first event that came out of order, and how",
    },
    Word {
        name: "accepted",
        form: WordForm::Flag,
        help: "Tells at the end whether each text that is shown as accepted was accepted by the centre; or the first event after which it need not be, and why",
    },
];
