//! Scripts played where every event is noted and nothing comes of it, and with devices that fail.

ghost use Rattle.std.specs.Prelude.{◌≡◌, ◌≤◌, codes, length, replicate, [], IfOk};
ghost use Rattle.sms_script.specs.Play.Runs.{nothing_ended};

use crate::found::{holds, same};
use crate::parts::Parts;
use sms_field::Address;
use sms_script::{
    Entry, Event, Limits, Network, Packet, PlayFault, ScriptFault, Sink, Source, Watched, play,
};
use std::alloc::{AllocError, Global};
use std::io::{ErrorKind, Read, Write};
use std::process::Abort;
use std::test::Fail;

/// A network in which every event is noted, and nothing comes of it.
#[derive(Drop)]
struct Silent {
    phones: usize,
}

impl Network for Silent {
    ghost conduct = { record {
      Begins = λ limits phones n. n.phones ≡ length phones;
      Steps = λ n event words m. words ≡ codes "noted";
      put_out = λ n. [];
      ends = λ n. replicate n.phones nothing_ended;
    } };

    fn begin(_alloc: Global, _limits: Limits, phones: &[Address]) -> Result<Self, AllocError> {
        Ok(Silent {
            phones: phones.len(),
        })
    }

    fn step(&mut self, _event: &Event, words: &mut Vec<u8>) -> Result<(), AllocError> {
        words.clear();
        words.extend_from_slice(b"noted")
    }

    fn packet_count(&self) -> usize {
        0
    }

    fn packet(&self, _number: usize) -> Option<Packet<'_>> {
        None
    }

    fn typed(&self, _phone: usize) -> usize {
        0
    }

    fn status(&self, _phone: usize, _text: usize) -> Option<&str> {
        None
    }

    fn stored(&self, _phone: usize) -> usize {
        0
    }

    fn entry(&self, _phone: usize, _place: usize) -> Option<Entry<'_>> {
        None
    }
}

/// Gives one octet at a time, and fails where it has none left to give before failing.
#[derive(Drop)]
struct Drips<'a> {
    octets: &'a [u8],
    reads: usize,
}

impl Read for Drips<'_> {
    fn read(&mut self, buffer: &mut [u8]) -> std::io::Result<usize> {
        if self.reads == 0 {
            return Err(std::io::Error::from(ErrorKind::Other));
        }
        self.reads -= 1;
        if buffer.is_empty() {
            return Ok(0);
        }
        self.octets.read(&mut buffer[..1])
    }
}

/// Gives one octet at a time, and is interrupted before each, and before it tells its end.
#[derive(Drop)]
struct Stops<'a> {
    octets: &'a [u8],
    is_interrupted: bool,
}

impl Read for Stops<'_> {
    fn read(&mut self, buffer: &mut [u8]) -> std::io::Result<usize> {
        self.is_interrupted = !self.is_interrupted;
        if self.is_interrupted {
            return Err(std::io::Error::from(ErrorKind::Interrupted));
        }
        if buffer.is_empty() {
            return Ok(0);
        }
        self.octets.read(&mut buffer[..1])
    }
}

/// Gives two octets for ever, in turn.
#[derive(Drop)]
struct Endless {
    next: u8,
    after: u8,
}

impl Read for Endless {
    fn read(&mut self, buffer: &mut [u8]) -> std::io::Result<usize> {
        if buffer.is_empty() {
            return Ok(0);
        }
        buffer[0] = self.next;
        self.next = self.after;
        self.after = buffer[0];
        Ok(1)
    }
}

/// Takes one octet, which leads a text.
fn take_first(taken: &mut Vec<u8>, octets: &[u8]) -> std::io::Result<usize>
    ensures { IfOk result (λ n. n ≤ length octets.now) }
{
    let Some(first) = octets.first() else {
        return Ok(0);
    };
    match taken.push(*first) {
        Ok(()) => Ok(1),
        Err(_) => Err(std::io::Error::from(ErrorKind::OutOfMemory)),
    }
}

/// Takes one octet at a time, as many as it has room for, and then nothing.
#[derive(Drop)]
struct Narrow {
    taken: Vec<u8>,
    room: usize,
}

impl Write for Narrow {
    fn write(&mut self, octets: &[u8]) -> std::io::Result<usize> {
        if self.taken.len() >= self.room {
            return Ok(0);
        }
        take_first(&mut self.taken, octets)
    }

    fn flush(&mut self) -> std::io::Result<()> {
        Ok(())
    }
}

/// Takes one octet at each call but one, at which it fails.
#[derive(Drop)]
struct Failing {
    taken: Vec<u8>,
    /// How many calls come before that one, if it still is to come.
    before: Option<usize>,
}

impl Write for Failing {
    fn write(&mut self, octets: &[u8]) -> std::io::Result<usize> {
        match self.before {
            Some(0) => {
                self.before = None;
                return Err(std::io::Error::from(ErrorKind::Other));
            }
            Some(calls) => self.before = Some(calls.saturating_sub(1)),
            None => {}
        }
        take_first(&mut self.taken, octets)
    }

    fn flush(&mut self) -> std::io::Result<()> {
        Ok(())
    }
}

/// Takes one octet at a time, and is interrupted before each.
#[derive(Drop)]
struct Pauses {
    taken: Vec<u8>,
    is_interrupted: bool,
}

impl Write for Pauses {
    fn write(&mut self, octets: &[u8]) -> std::io::Result<usize> {
        self.is_interrupted = !self.is_interrupted;
        if self.is_interrupted {
            return Err(std::io::Error::from(ErrorKind::Interrupted));
        }
        take_first(&mut self.taken, octets)
    }

    fn flush(&mut self) -> std::io::Result<()> {
        Ok(())
    }
}

/// A script, how playing it ends, and what is written.
#[derive(Clone, Copy)]
struct Playing {
    script: &'static [u8],
    result: Result<(), PlayFault>,
    written: &'static str,
}

const WHOLE: &[u8] = b"phone a +1001\nbrief\r\n# two\n\nphone b +1002\ncarry 1\npush b";

const TRANSCRIPT: &str = "1 noted\n2 noted\nstore a 0\nstore b 0\n";

static PLAYED: [Playing; 7] = [
    Playing {
        script: b"",
        result: Ok(()),
        written: "",
    },
    Playing {
        script: b"phone a +1001",
        result: Ok(()),
        written: "store a 0\n",
    },
    Playing {
        script: WHOLE,
        result: Ok(()),
        written: TRANSCRIPT,
    },
    Playing {
        script: b"clock 5\ncarry 1\n",
        result: Ok(()),
        written: "1 noted\n",
    },
    Playing {
        script: b"carry x",
        result: Err(PlayFault::Script {
            line: 1,
            why: ScriptFault::BadNumber,
        }),
        written: "",
    },
    Playing {
        script: b"phone a +1001\npush a\r\nheld 2\npush a\n",
        result: Err(PlayFault::Script {
            line: 3,
            why: ScriptFault::SettingAfterEvent,
        }),
        written: "1 noted\n",
    },
    Playing {
        script: b"carry 1\n\xFFcarry 1\n",
        result: Err(PlayFault::Script {
            line: 2,
            why: ScriptFault::NotUtf8,
        }),
        written: "1 noted\n",
    },
];

/// How a script was played: how that ended, what was written, and whether the device failed that
/// the test watches.
#[derive(Drop)]
struct Outcome {
    result: Result<(), PlayFault>,
    written: Vec<u8>,
    failed: bool,
}

/// What is wanted of an outcome.
#[derive(Clone, Copy)]
struct Wanted<'a> {
    result: Result<(), PlayFault>,
    written: &'a [u8],
    failed: bool,
}

/// Whether what came out is what is wanted.
fn is_as_wanted(found: &Outcome, wanted: Wanted<'_>) -> bool {
    let ended = found.result == wanted.result && found.failed == wanted.failed;
    ended && found.written.as_slice() == wanted.written
}

/// A script as a text, where it is one.
fn text_of(script: &[u8]) -> &str {
    match str::from_utf8(script) {
        Ok(text) => text,
        Err(_) => "a script that is no UTF-8",
    }
}

/// A row's script was played as the row says, and its reader has not failed.
fn is_played(rt: &impl Abort, row: &Playing, found: &Outcome) {
    let wanted = Wanted {
        result: row.result,
        written: row.written.as_bytes(),
        failed: false,
    };
    holds(rt, &text_of(row.script), is_as_wanted(found, wanted));
}

/// What came out is what is wanted where a device works so far.
fn is(rt: &impl Abort, works: usize, found: &Outcome, wanted: Wanted<'_>) {
    let row = ("a device that works up to", works);
    holds(rt, &row, is_as_wanted(found, wanted));
}

/// Plays what a reader gives, and tells whether the reader failed.
fn played<R: Read + Drop>(alloc: Global, reader: R) -> Outcome {
    let mut source = Watched::new(reader);
    let mut sink = Watched::new(Vec::new(alloc));
    let result = play::<Silent, Watched<R>, Watched<Vec<u8>>>(alloc, &mut source, &mut sink);
    Outcome {
        result,
        written: sink.into_inner(),
        failed: source.failed(),
    }
}

#[test]
fn scripts_played(rt: HostRuntime) {
    for row in PLAYED.iter() {
        is_played(&rt, row, &played(rt.alloc(), row.script));
    }
}

/// How playing what a reader gives ends.
fn result_of<R: Read + Drop>(alloc: Global, reader: R) -> Result<(), PlayFault> {
    played(alloc, reader).result
}

/// Playing has ended at this line for this reason.
fn ends_at(rt: &impl Abort, found: Result<(), PlayFault>, line: u64, why: ScriptFault) {
    same(rt, &why, &found, &Err(PlayFault::Script { line, why }));
}

/// As many empty lines, and what follows them.
fn empty_lines(alloc: Global, count: usize, ending: &[u8]) -> Result<Vec<u8>, AllocError> {
    let mut lines = vec![in alloc; b'\n'; count]?;
    lines.extend_from_slice(ending)?;
    Ok(lines)
}

#[test]
fn as_many_lines_as_may_be(rt: HostRuntime) -> Result<(), Fail> {
    let lines = empty_lines(rt.alloc(), 100_000, b"")?;
    let found = result_of(rt.alloc(), lines.as_slice());
    same(&rt, &"100000 lines", &found, &Ok(()));
    Ok(())
}

#[test]
fn more_lines_than_may_be(rt: HostRuntime) -> Result<(), Fail> {
    let lines = empty_lines(rt.alloc(), 100_000, b"#")?;
    let found = result_of(rt.alloc(), lines.as_slice());
    ends_at(&rt, found, 100_001, ScriptFault::TooManyLines);
    Ok(())
}

/// How playing two octets for ever ends.
fn result_without_end(alloc: Global, next: u8, after: u8) -> Result<(), PlayFault> {
    result_of(alloc, Endless { next, after })
}

#[test]
fn lines_and_letters_without_end(rt: HostRuntime) {
    let empty = result_without_end(rt.alloc(), b'\n', b'\n');
    ends_at(&rt, empty, 100_001, ScriptFault::TooManyLines);
    let comments = result_without_end(rt.alloc(), b'#', b'\n');
    ends_at(&rt, comments, 100_001, ScriptFault::TooManyLines);
    let letters = result_without_end(rt.alloc(), b'a', b'a');
    ends_at(&rt, letters, 1, ScriptFault::LineTooLong);
}

/// What is wanted where the whole script is read an octet at a time, and as many reads work.
fn wanted_after(reads: usize) -> Wanted<'static> {
    if reads > WHOLE.len() {
        return Wanted {
            result: Ok(()),
            written: TRANSCRIPT.as_bytes(),
            failed: false,
        };
    }
    let told = if reads < WHOLE.len() - 6 {
        ""
    } else {
        "1 noted\n"
    };
    Wanted {
        result: Err(PlayFault::Read),
        written: told.as_bytes(),
        failed: true,
    }
}

#[test]
fn reads_that_fail(rt: HostRuntime) {
    for reads in 0..=WHOLE.len() + 1 {
        let drips = Drips {
            octets: WHOLE,
            reads,
        };
        is(&rt, reads, &played(rt.alloc(), drips), wanted_after(reads));
    }
}

#[test]
fn reads_that_are_interrupted(rt: HostRuntime) {
    for row in PLAYED.iter() {
        let stops = Stops {
            octets: row.script,
            is_interrupted: false,
        };
        is_played(&rt, row, &played(rt.alloc(), stops));
    }
}

/// Plays the whole script into a sink whose writes are interrupted, and tells whether the sink
/// failed.
fn paused(alloc: Global) -> Outcome {
    let mut source = Watched::new(WHOLE);
    let mut sink = Watched::new(Pauses {
        taken: Vec::new(alloc),
        is_interrupted: false,
    });
    let result = play::<Silent, Watched<&[u8]>, Watched<Pauses>>(alloc, &mut source, &mut sink);
    let failed = sink.failed();
    Outcome {
        result,
        written: sink.into_inner().taken,
        failed,
    }
}

#[test]
fn writes_that_are_interrupted(rt: HostRuntime) {
    is(&rt, 0, &paused(rt.alloc()), wanted_of(TRANSCRIPT.len()));
}

/// Plays the whole script into a sink with room for as many octets, and tells whether the sink
/// failed.
fn narrowed(alloc: Global, room: usize) -> Outcome {
    let mut source = Watched::new(WHOLE);
    let mut sink = Watched::new(Narrow {
        taken: Vec::new(alloc),
        room,
    });
    let result = play::<Silent, Watched<&[u8]>, Watched<Narrow>>(alloc, &mut source, &mut sink);
    let failed = sink.failed();
    Outcome {
        result,
        written: sink.into_inner().taken,
        failed,
    }
}

/// What is wanted where a sink has room for as much of the transcript.
fn wanted_of(room: usize) -> Wanted<'static> {
    let whole = TRANSCRIPT.as_bytes();
    if room >= whole.len() {
        return Wanted {
            result: Ok(()),
            written: whole,
            failed: false,
        };
    }
    Wanted {
        result: Err(PlayFault::Write),
        written: &whole[..room],
        failed: true,
    }
}

#[test]
fn writes_that_take_nothing(rt: HostRuntime) {
    for room in 0..=TRANSCRIPT.len() {
        is(&rt, room, &narrowed(rt.alloc(), room), wanted_of(room));
    }
}

/// Plays the whole script into a sink that fails after as many calls, and tells whether the sink
/// failed.
fn failing_after(alloc: Global, calls: usize) -> Outcome {
    let mut source = Watched::new(WHOLE);
    let mut sink = Watched::new(Failing {
        taken: Vec::new(alloc),
        before: Some(calls),
    });
    let result = play::<Silent, Watched<&[u8]>, Watched<Failing>>(alloc, &mut source, &mut sink);
    let failed = sink.failed();
    Outcome {
        result,
        written: sink.into_inner().taken,
        failed,
    }
}

/// After the call that fails there is no other.
#[test]
fn writes_that_fail(rt: HostRuntime) {
    for calls in 0..=TRANSCRIPT.len() {
        is(
            &rt,
            calls,
            &failing_after(rt.alloc(), calls),
            wanted_of(calls),
        );
    }
}

/// Octets of which a script has some at the end of a part, and whether they are no UTF-8.
#[derive(Clone, Copy, Debug)]
struct Cut {
    octets: &'static [u8],
    is_faulty: bool,
}

static CUTS: [Cut; 6] = [
    Cut {
        octets: b"\xC3\xA9\xE2\x82\xAC\xF0\x9F\x98\x80",
        is_faulty: false,
    },
    Cut {
        octets: b"\xF0\x9F\x98\x80",
        is_faulty: false,
    },
    Cut {
        octets: b"\xF0\x9F\x98",
        is_faulty: true,
    },
    Cut {
        octets: b"\x9F\x98\x80",
        is_faulty: true,
    },
    Cut {
        octets: b"\xF0\x9F\x98a",
        is_faulty: true,
    },
    Cut {
        octets: b"\xED\xA0\x80\xC3",
        is_faulty: true,
    },
];

/// A script that has these octets after as many others.
fn script_with(alloc: Global, before: usize, octets: &[u8]) -> Result<Vec<u8>, AllocError> {
    let mut script = Vec::new(alloc);
    for _ in 0..before / 8 {
        script.extend_from_slice(b"carry 1\n")?;
    }
    for _ in 0..before % 8 {
        script.push(b'#')?;
    }
    script.extend_from_slice(octets)?;
    script.extend_from_slice(b"\ncarry 1\n")?;
    Ok(script)
}

/// Plays a script that comes in parts of a size.
fn played_by_parts(alloc: Global, script: &[u8], size: usize) -> Outcome {
    let mut source = Parts {
        octets: script,
        size,
        left: 0,
        failed: false,
        ended: false,
    };
    let mut sink = Watched::new(Vec::new(alloc));
    let result = play::<Silent, Parts<'_>, Watched<Vec<u8>>>(alloc, &mut source, &mut sink);
    Outcome {
        result,
        written: sink.into_inner(),
        failed: source.failed,
    }
}

/// Whether a script is refused since a line is no UTF-8.
fn is_no_text(found: Result<(), PlayFault>) -> bool {
    match found {
        Err(PlayFault::Script { why, .. }) => why == ScriptFault::NotUtf8,
        _ => false,
    }
}

/// A script that comes in parts of a size is played as octet by octet.
fn is_played_alike(rt: &impl Abort, alloc: Global, script: &[u8], size: usize) -> bool {
    let found = played_by_parts(alloc, script, size);
    let single = played(alloc, script);
    let wanted = Wanted {
        result: single.result,
        written: single.written.as_slice(),
        failed: single.failed,
    };
    is(rt, size, &found, wanted);
    is_no_text(single.result)
}

/// Some octets are played as octet by octet wherever the end of a part of a size cuts them.
fn cut_is_played(rt: &impl Abort, alloc: Global, cut: &Cut, size: usize) -> Result<(), Fail> {
    for after in 0..=cut.octets.len() {
        let script = script_with(alloc, size.saturating_sub(after), cut.octets)?;
        let is_faulty = is_played_alike(rt, alloc, &script, size);
        holds(rt, cut, is_faulty == cut.is_faulty);
    }
    Ok(())
}

/// All are played as octet by octet around the end of a part of a size.
fn size_is_played(rt: &impl Abort, alloc: Global, size: usize) -> Result<(), Fail> {
    for cut in CUTS.as_slice() {
        cut_is_played(rt, alloc, cut, size)?;
    }
    Ok(())
}

#[test]
fn characters_across_parts(rt: HostRuntime) -> Result<(), Fail> {
    for size in [1, 2, 63, 64, 65, 4_096, 8_192] {
        size_is_played(&rt, rt.alloc(), size)?;
    }
    Ok(())
}

/// A fault, and its text.
#[derive(Clone, Copy)]
struct Worded {
    fault: PlayFault,
    words: &'static str,
}

static FAULTS: [Worded; 4] = [
    Worded {
        fault: PlayFault::Script {
            line: 2,
            why: ScriptFault::SettingAfterEvent,
        },
        words: "line 2: setting after event",
    },
    Worded {
        fault: PlayFault::Read,
        words: "read failed",
    },
    Worded {
        fault: PlayFault::Write,
        words: "write failed",
    },
    Worded {
        fault: PlayFault::Memory,
        words: "out of memory",
    },
];

#[test]
fn faults_in_words(rt: HostRuntime) -> Result<(), Fail> {
    for row in FAULTS.as_slice() {
        let words = row.fault.to_string(rt.alloc())?;
        same(&rt, &row.fault, &words.as_str(), &row.words);
    }
    Ok(())
}
