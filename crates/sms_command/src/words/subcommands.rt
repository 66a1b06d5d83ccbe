//! The subcommands.

use crate::words::arguments::Subcommand;
use crate::words::run_words::{JOIN, PLAY};
use crate::words::unit_words::{ENCODE, SHOW, SPLIT};

/// What stands below the help of `play`.
const SCRIPT_HELP: &str = "\
The script is read from standard input, for example:

  phone a +1001
  phone b +1002
  type a +1002 hi
  carry 1
  push b
  carry 4
  carry 6
  carry 3

Packets are numbered from 1 as they are put out; carry K brings packet K to its end.";

/// The subcommands, as the help lists them.
pub static SUBCOMMANDS: [Subcommand; 6] = [
    Subcommand {
        name: "show",
        about: "Prints the fields of a unit, one a line",
        words: SHOW,
        example: None,
    },
    Subcommand {
        name: "encode",
        about: "Prints the octets of a unit with a text, or of one for each segment",
        words: ENCODE,
        example: None,
    },
    Subcommand {
        name: "split",
        about: "Prints the user data of each segment of a text",
        words: SPLIT,
        example: None,
    },
    Subcommand {
        name: "join",
        about: "Joins SMS-DELIVERs from standard input, one a line, into texts",
        words: JOIN,
        example: None,
    },
    Subcommand {
        name: "play",
        about: "Plays a script of a network of phones, and prints its transcript",
        words: PLAY,
        example: Some(SCRIPT_HELP),
    },
    Subcommand {
        name: "chart",
        about: "Plays a script, and draws its run as a sequence chart in SVG",
        words: &[],
        example: None,
    },
];
