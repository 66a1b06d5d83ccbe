//! The words of the subcommands on units and texts.

use crate::words::arguments::{Word, WordForm};

/// The words of `show`.
pub const SHOW: &[Word] = &[
    Word {
        name: "KIND",
        form: WordForm::Kind(&[
            "deliver",
            "submit",
            "submit-ack",
            "submit-error",
            "deliver-ack",
            "deliver-error",
            "status-report",
            "command",
            "rp",
            "cp",
            "any",
            "record",
            "data",
        ]),
        help: "What the octets are; any: what the first octet tells; record: of a card; data: user data alone",
    },
    Word {
        name: "HEX",
        form: WordForm::WordUnless("lines"),
        help: "The octets in hexadecimal, - for none",
    },
    Word {
        name: "lines",
        form: WordForm::Flag,
        help: "Standard input has the octets, a unit a line, as a modem lists them",
    },
    Word {
        name: "sca",
        form: WordForm::Flag,
        help: "The address of a service centre comes first",
    },
    Word {
        name: "from",
        form: WordForm::Choice(&["centre", "phone"]),
        help: "any: who sent the unit, the centre unless given",
    },
    Word {
        name: "json",
        form: WordForm::Flag,
        help: "A line has an object in JSON for each unit",
    },
    Word {
        name: "explain",
        form: WordForm::Flag,
        help: "`bad hex` names the place and the character",
    },
    Word {
        name: "any",
        form: WordForm::Flag,
        help: "rp, cp: the unit inside is of the kind that its first octet tells",
    },
    Word {
        name: "languages",
        form: WordForm::Flag,
        help: "Texts are read under the national language tables that their headers tell",
    },
    Word {
        name: "dcs",
        form: WordForm::Value("XX"),
        help: "data: TP-DCS in hexadecimal, which must be given",
    },
    Word {
        name: "header",
        form: WordForm::Flag,
        help: "data: a header comes first",
    },
    Word {
        name: "septets",
        form: WordForm::Flag,
        help: "data: septets stand one an octet",
    },
    Word {
        name: "udl",
        form: WordForm::Octet,
        help: "data: TP-UDL; else as many septets as fit whole, or all octets",
    },
];

/// The words of `encode`.
pub const ENCODE: &[Word] = &[
    Word {
        name: "KIND",
        form: WordForm::Kind(&["deliver", "submit"]),
        help: "Which unit",
    },
    Word {
        name: "ADDRESS",
        form: WordForm::Word,
        help: "The other party: digits, + and digits, or a name",
    },
    Word {
        name: "TEXT",
        form: WordForm::Word,
        help: "The text",
    },
    Word {
        name: "mr",
        form: WordForm::Octet,
        help: "submit: TP-MR, 0 unless given",
    },
    Word {
        name: "rd",
        form: WordForm::Flag,
        help: "submit: TP-RD, asks the centre to reject duplicates",
    },
    Word {
        name: "validity",
        form: WordForm::Octet,
        help: "submit: the octet of a relative TP-VP, none unless given",
    },
    Word {
        name: "stamp",
        form: WordForm::Value("HEX"),
        help: "deliver: TP-SCTS, seven octets, 00101000000000 unless given",
    },
    Word {
        name: "report",
        form: WordForm::Flag,
        help: "submit: TP-SRR, asks for a status report; deliver: TP-SRI",
    },
    Word {
        name: "split",
        form: WordForm::Flag,
        help: "A text too long for one unit goes into several, a line each; TP-MR counts on",
    },
    Word {
        name: "ref",
        form: WordForm::Reference,
        help: "--split: the concatenation reference: to 255, with --wide to 65535; 0 unless given",
    },
    Word {
        name: "wide",
        form: WordForm::Flag,
        help: "--split: the concatenation reference takes two octets",
    },
    Word {
        name: "sca",
        form: WordForm::Value("ADDRESS"),
        help: "The address of a service centre comes first",
    },
    Word {
        name: "modem",
        form: WordForm::Flag,
        help: "The number that AT+CMGS wants comes first, and 00 where no --sca is given",
    },
    Word {
        name: "explain",
        form: WordForm::Flag,
        help: "`bad address` and `bad hex` name the place and the character",
    },
];

/// The words of `split`.
pub const SPLIT: &[Word] = &[
    Word {
        name: "TEXT",
        form: WordForm::Word,
        help: "The text",
    },
    Word {
        name: "wide",
        form: WordForm::Flag,
        help: "The concatenation reference takes two octets",
    },
    Word {
        name: "ref",
        form: WordForm::Reference,
        help: "The concatenation reference: to 255, with --wide to 65535; 0 unless given",
    },
    Word {
        name: "language",
        form: WordForm::Choice(&["turkish", "spanish", "portuguese", "auto"]),
        help: "National language tables are used where they take fewer segments; auto: of any language",
    },
    Word {
        name: "data",
        form: WordForm::Flag,
        help: "Each segment as user data alone: the coding scheme, whether a header stands in front, the length, the octets",
    },
    Word {
        name: "septets",
        form: WordForm::Flag,
        help: "--data: septets stand one an octet",
    },
    Word {
        name: "json",
        form: WordForm::Flag,
        help: "A line has an object in JSON for each segment",
    },
];
