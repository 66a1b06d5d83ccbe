//! What is told beside the output of what is lost where units are joined.

use crate::found::holds;
use sms_command::command_with_notes;
use std::alloc::Global;
use std::cell::Cell;
use std::io::{ErrorKind, Write};
use std::test::Fail;

/// Segments of two sets, from +1002 and +1004 within a day.
const TWO: &str = "\
44049101200000425060708090000F050003070302E061391D44BFBF01
44049101400000425060708090000D0608040102020177D0DB5D06
";

/// Segments of three sets, the last two from one origin.
const THREE: &str = "\
44049101200000425060708090000F050003070302E061391D44BFBF01
44049101400000425060708090000D0608040102020177D0DB5D06
44049101400000425060708090000D0608040103020177D0DB5D06
";

/// A segment of a set, and a week later a message in one piece.
const LATE: &str = "\
44049101200000425060708090000F050003070302E061391D44BFBF01
040491013000004250317080900004EC30BD0C
";

/// A message in one piece.
const WHOLE: &str = "040491013000004250607080900005E8329BFD06\n";

/// Words with an input, and the line beside the output.
struct Noted {
    words: &'static [&'static str],
    input: &'static [&'static str],
    notes: &'static str,
}

static NOTED: [Noted; 11] = [
    Noted {
        words: &["sms", "join"],
        input: &[TWO],
        notes: "",
    },
    Noted {
        words: &["sms", "join"],
        input: &[WHOLE, WHOLE],
        notes: "",
    },
    Noted {
        words: &["sms", "join", "--open", "1"],
        input: &[TWO],
        notes: "1 segment turned away, 0 sets dropped, 1 set open still: --verbose tells more\n",
    },
    Noted {
        words: &["sms", "join", "--open", "1"],
        input: &[THREE],
        notes: "2 segments turned away, 0 sets dropped, 1 set open still: --verbose tells more\n",
    },
    Noted {
        words: &["sms", "join", "--open", "2"],
        input: &[THREE],
        notes: "1 segment turned away, 0 sets dropped, 2 sets open still: --verbose tells more\n",
    },
    Noted {
        words: &["sms", "join"],
        input: &[LATE],
        notes: "0 segments turned away, 1 set dropped, 0 sets open still: --verbose tells more\n",
    },
    Noted {
        words: &["sms", "join", "--open", "2", "--json"],
        input: &[THREE, LATE, TWO],
        notes: "1 segment turned away, 2 sets dropped, 2 sets open still: --verbose tells more\n",
    },
    Noted {
        words: &["sms", "join", "--open", "1", "--verbose"],
        input: &[THREE, LATE],
        notes: "",
    },
    Noted {
        words: &["sms", "join", "--open", "1", "--verbose", "--json"],
        input: &[THREE, LATE],
        notes: "",
    },
    Noted {
        words: &["sms", "join", "--open", "0"],
        input: &[THREE],
        notes: "",
    },
    Noted {
        words: &["sms", "show", "deliver", "--lines"],
        input: &[THREE, LATE],
        notes: "",
    },
];

/// What words write beside the output.
fn notes_of(alloc: Global, words: &[&str], input: &[&str]) -> Result<String, Fail> {
    let input = input.concat(alloc)?;
    let mut output = Vec::new(alloc);
    let mut notes = Vec::new(alloc);
    command_with_notes(alloc, words, &mut input.as_bytes(), &mut output, &mut notes);
    Ok(String::from_utf8(notes)?)
}

#[test]
fn counts_what_is_lost(rt: HostRuntime) -> Result<(), Fail> {
    for row in NOTED.iter() {
        let notes = notes_of(rt.alloc(), row.words, row.input)?;
        holds(&rt, &(row.words, row.input), notes.as_str() == row.notes);
    }
    Ok(())
}

/// What an output and the notes beside it know of each other.
#[derive(Drop)]
struct Order {
    /// Whether something was written beside the output.
    is_noted: Cell<bool>,
    /// How often the output was written to before that, and how often after.
    before: Cell<usize>,
    after: Cell<usize>,
}

/// Counts one more.
fn add_one(count: &Cell<usize>) {
    count.set(count.get().saturating_add(1));
}

/// Takes nothing.
#[derive(Drop)]
struct Refusing<'a> {
    order: &'a Order,
}

impl Write for Refusing<'_> {
    fn write(&mut self, _octets: &[u8]) -> std::io::Result<usize> {
        if self.order.is_noted.get() {
            add_one(&self.order.after);
        } else {
            add_one(&self.order.before);
        }
        Err(std::io::Error::from(ErrorKind::Other))
    }

    fn flush(&mut self) -> std::io::Result<()> {
        Ok(())
    }
}

/// Notes that something is written.
#[derive(Drop)]
struct Noting<'a> {
    order: &'a Order,
}

impl Write for Noting<'_> {
    fn write(&mut self, octets: &[u8]) -> std::io::Result<usize> {
        self.order.is_noted.set(true);
        Ok(octets.len())
    }

    fn flush(&mut self) -> std::io::Result<()> {
        Ok(())
    }
}

#[test]
fn counts_before_the_fault_of_an_output(rt: HostRuntime) -> Result<(), Fail> {
    let order = Order {
        is_noted: Cell::new(false),
        before: Cell::new(0),
        after: Cell::new(0),
    };
    let mut output = Refusing { order: &order };
    let mut notes = Noting { order: &order };
    let words = ["sms", "join", "--open", "1"];
    let mut input = TWO.as_bytes();
    let status = command_with_notes(rt.alloc(), &words, &mut input, &mut output, &mut notes);
    holds(&rt, &"status", status == 3);
    holds(&rt, &"before", order.before.get() > 0);
    holds(&rt, &"after", order.after.get() > 0);
    Ok(())
}

/// Takes nothing, and nobody knows.
#[derive(Drop)]
struct Deaf;

impl Write for Deaf {
    fn write(&mut self, _octets: &[u8]) -> std::io::Result<usize> {
        Err(std::io::Error::from(ErrorKind::Other))
    }

    fn flush(&mut self) -> std::io::Result<()> {
        Ok(())
    }
}

#[test]
fn stays_where_the_notes_are_not_taken(rt: HostRuntime) -> Result<(), Fail> {
    let words = ["sms", "join", "--open", "1"];
    let mut input = TWO.as_bytes();
    let mut output = Vec::new(rt.alloc());
    let status = command_with_notes(rt.alloc(), &words, &mut input, &mut output, &mut Deaf);
    let told = b"open: +1002 8 7 3 missing 1 3\n".as_slice();
    holds(&rt, &status, status == 0 && output.as_slice() == told);
    Ok(())
}
