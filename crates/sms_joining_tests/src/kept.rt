//! Runs that are cut off and begun again, by a state in a file.

use crate::found::holds;
use crate::lent::run_in;
use sms_file::{Folder, MemoryFolder, Step};
use std::alloc::Global;
use std::io::{self, ErrorKind, Read};
use std::process::Abort;
use std::test::Fail;

/// Data for three recipients: segments of two messages in turn, and a text in one piece.
static LINES: [&str; 5] = [
    "+27001 +1001 00 1 0500030802016F6E6520\n",
    "+27002 +1001 00 1 05000308020274776F\n",
    "+27001 +1001 00 1 05000308020274776F\n",
    "+27003 +1001 00 0 6869\n",
    "+27002 +1001 00 1 0500030802016F6E6520\n",
];

/// The texts, each with the line that finishes it.
static TEXTS: [(usize, &str); 3] = [
    (
        3,
        "{\"line\":3,\"recipient\":{\"text\":\"+27001\",\"type\":1,\"plan\":1},\
         \"text\":\"one two\",\"origin\":{\"text\":\"+1001\",\"type\":1,\"plan\":1},\
         \"moment\":null}\n",
    ),
    (
        4,
        "{\"line\":4,\"recipient\":{\"text\":\"+27003\",\"type\":1,\"plan\":1},\
         \"text\":\"hi\",\"origin\":{\"text\":\"+1001\",\"type\":1,\"plan\":1},\
         \"moment\":null}\n",
    ),
    (
        5,
        "{\"line\":5,\"recipient\":{\"text\":\"+27002\",\"type\":1,\"plan\":1},\
         \"text\":\"one two\",\"origin\":{\"text\":\"+1001\",\"type\":1,\"plan\":1},\
         \"moment\":null}\n",
    ),
];

/// The words of a run, with a state after this many lines each time.
fn words_of<'a>(every: &'a str) -> [&'a str; 9] {
    [
        "sms",
        "join",
        "--to",
        "--data",
        "--septets",
        "--json",
        "--state=file",
        "--every",
        every,
    ]
}

/// The texts that lines after the first so many finish, up to a line, and what comes then.
fn texts_of(alloc: Global, after: usize, last: usize, ending: &str) -> Result<String, Fail> {
    let mut told = String::new(alloc);
    for (line, text) in &TEXTS {
        if after < *line && *line <= last {
            told.push_str(text)?;
        }
    }
    told.push_str(ending)?;
    Ok(told)
}

/// An input that fails after its octets.
#[derive(Drop)]
struct Cut<'a> {
    octets: &'a [u8],
}

impl Read for Cut<'_> {
    fn read(&mut self, buffer: &mut [u8]) -> io::Result<usize> {
        if self.octets.is_empty() {
            return Err(io::Error::from(ErrorKind::Other));
        }
        self.octets.read(buffer)
    }
}

/// Whether a run on all lines tells just those after the first so many.
fn goes_on(
    alloc: Global,
    every: &str,
    folder: &mut MemoryFolder,
    after: usize,
) -> Result<bool, Fail> {
    let input = LINES.concat(alloc)?;
    let words = words_of(every);
    let (status, output) = run_in(alloc, &words, folder, None, &mut input.as_bytes())?;
    let wanted = texts_of(alloc, after, 5, "")?;
    Ok(status == 0 && output.as_str() == wanted.as_str())
}

/// Whether a run that is cut off after some lines tells their texts.
fn is_cut(
    alloc: Global,
    every: &str,
    folder: &mut MemoryFolder,
    count: usize,
) -> Result<bool, Fail> {
    let input = LINES[..count.min(5)].concat(alloc)?;
    let words = words_of(every);
    let mut cut = Cut {
        octets: input.as_bytes(),
    };
    let (status, output) = run_in(alloc, &words, folder, None, &mut cut)?;
    let wanted = texts_of(alloc, 0, count, "read failed\n")?;
    Ok(status == 3 && output.as_str() == wanted.as_str())
}

#[test]
fn goes_on_where_it_was_cut_off(rt: HostRuntime) -> Result<(), Fail> {
    for (every, number) in [("1", 1), ("2", 2), ("3", 3), ("6", 6)] {
        for count in 0..6usize {
            let mut folder = MemoryFolder::new(rt.alloc());
            let cut = is_cut(rt.alloc(), every, &mut folder, count)?;
            holds(&rt, &(every, count, "cut"), cut);
            let taken = count.saturating_sub(count % number);
            let whole = goes_on(rt.alloc(), every, &mut folder, taken)?;
            holds(&rt, &(every, count, "whole"), whole);
            let nothing = goes_on(rt.alloc(), every, &mut folder, 5)?;
            holds(&rt, &(every, count, "nothing"), nothing);
        }
    }
    Ok(())
}

/// The steps, and what is said where each is refused: it alone, or after the texts of four lines.
static STEPS: [(Step, usize, &str); 7] = [
    (Step::Open, 0, "state: folder not opened: no room\n"),
    (Step::Read, 0, "state: not read: no room\n"),
    (Step::Write, 4, "state: not written: no room\n"),
    (Step::Rights, 4, "state: rights not kept: no room\n"),
    (Step::Sync, 4, "state: not synced: no room\n"),
    (Step::Rename, 4, "state: not renamed: no room\n"),
    (Step::SyncFolder, 4, "state: folder not synced: no room\n"),
];

/// Whether a run ends where a step is refused, after the texts of some lines.
fn is_refused(
    alloc: Global,
    folder: &mut MemoryFolder,
    step: Step,
    last: usize,
    line: &str,
) -> Result<bool, Fail> {
    let input = LINES.concat(alloc)?;
    let words = words_of("4");
    let (status, output) = run_in(alloc, &words, folder, Some(step), &mut input.as_bytes())?;
    let wanted = texts_of(alloc, 0, last, line)?;
    Ok(status == 3 && output.as_str() == wanted.as_str())
}

#[test]
fn ends_where_a_step_is_refused(rt: HostRuntime) -> Result<(), Fail> {
    for (step, last, line) in &STEPS {
        let mut folder = MemoryFolder::new(rt.alloc());
        let refused = is_refused(rt.alloc(), &mut folder, *step, *last, line)?;
        holds(&rt, line, refused);
        let after = if *step == Step::SyncFolder { 4 } else { 0 };
        let whole = goes_on(rt.alloc(), "4", &mut folder, after)?;
        holds(&rt, line, whole);
    }
    Ok(())
}

/// The octets of the state after all lines.
fn state_of(alloc: Global) -> Result<Vec<u8>, Fail> {
    let mut folder = MemoryFolder::new(alloc);
    goes_on(alloc, "6", &mut folder, 0)?;
    match folder.read(alloc) {
        Ok(Some(octets)) => Ok(octets),
        _ => Err(Fail::from("no state")),
    }
}

/// Whether a run that finds octets in its file tells one line, and leaves the file as it is.
fn refuses(alloc: Global, words: &[&str], octets: &[u8], front: &str) -> Result<bool, Fail> {
    let mut folder = MemoryFolder::with_file(alloc, octets, 0o600)?;
    let input = LINES.concat(alloc)?;
    let (status, output) = run_in(alloc, words, &mut folder, None, &mut input.as_bytes())?;
    let stays = match folder.read(alloc) {
        Ok(Some(found)) => found.as_slice() == octets,
        _ => false,
    };
    let is_one = output.lines().count() == 1 && output.as_str().starts_with(front);
    Ok(status == 1 && stays && is_one)
}

#[test]
fn refuses_a_torn_state(rt: HostRuntime) -> Result<(), Fail> {
    let octets = state_of(rt.alloc())?;
    for end in 0..octets.len() {
        let torn = octets.get(..end).unwrap_or(&[]);
        let refused = refuses(rt.alloc(), &words_of("6"), torn, "state: at ")?;
        holds(&rt, &end, refused);
    }
    drop(octets);
    Ok(())
}

#[test]
fn refuses_a_state_of_other_limits(rt: HostRuntime) -> Result<(), Fail> {
    let octets = state_of(rt.alloc())?;
    for words in [
        ["sms", "join", "--data", "--state=file", "--open=17"],
        ["sms", "join", "--data", "--state=file", "--remembered=33"],
        ["sms", "join", "--data", "--state=file", "--remember-for=1"],
        ["sms", "join", "--data", "--state=file", "--alone=pass"],
    ] {
        let refused = refuses(rt.alloc(), &words, &octets, "state: at 9: other limits\n")?;
        holds(&rt, &words, refused);
    }
    drop(octets);
    Ok(())
}

/// An input, how many octets of it come to a run that ends, and what the next run tells.
struct Resumed {
    input: &'static str,
    front: usize,
    output: &'static str,
}

/// A set that grows old after it was read back; a text that is a repeat then; and one for another
/// recipient, which is none.
static RESUMED: [Resumed; 3] = [
    Resumed {
        input: "+1 44049101200000425060708090000F050003070302E061391D44BFBF01\n\
            +1 040491013000004250317080900004EC30BD0C\n",
        front: 62,
        output: "dropped: +1 +1002 8 7 3 missing 1 3\n+1 768899289 +1003 late\n",
    },
    Resumed {
        input: "+1 040491013000004250607080900005E8329BFD06\n\
            +1 040491013000004250607080900005E8329BFD06\n",
        front: 44,
        output: "line 2: repeat\n",
    },
    Resumed {
        input: "+1 040491013000004250607080900005E8329BFD06\n\
            +2 040491013000004250607080900005E8329BFD06\n",
        front: 44,
        output: "+2 768294489 +1003 hello\n",
    },
];

/// What a run on a whole input tells after one on its front.
fn run_again(alloc: Global, row: &Resumed) -> Result<(u8, String), Fail> {
    let words = ["sms", "join", "--to", "--verbose", "--state=file"];
    let mut folder = MemoryFolder::new(alloc);
    let mut front = row.input.as_bytes().get(..row.front).unwrap_or(&[]);
    run_in(alloc, &words, &mut folder, None, &mut front)?;
    run_in(alloc, &words, &mut folder, None, &mut row.input.as_bytes())
}

#[test]
fn remembers_across_runs(rt: HostRuntime) -> Result<(), Fail> {
    for row in &RESUMED {
        let (status, output) = run_again(rt.alloc(), row)?;
        holds(
            &rt,
            &row.input,
            status == 0 && output.as_str() == row.output,
        );
    }
    Ok(())
}
