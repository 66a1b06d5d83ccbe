//! Transcripts as they are written, of a network that always does the same.

ghost use Rattle.std.specs.Prelude.{◌≡◌, ◌∷◌, [], codes, length, replicate};

use crate::found::holds;
use sms_field::Address;
use sms_script::{Entry, Event, Limits, Network, Packet, PlayFault, Watched, play};
use std::alloc::{AllocError, Global};
use std::process::Abort;
use std::test::Fail;

/// What the store of each phone has.
const STORED: &str = "\\\n\r\u{c}\u{1}\u{7f}é";

/// A network in which the first seven events but ticks each put out a packet at the second phone:
/// up where references are wide, and empty where duplicates are rejected. Three texts wait at each
/// phone, and one is stored.
#[derive(Drop)]
struct Same {
    phones: usize,
    count: usize,
    up: bool,
    octets: &'static [u8],
    origin: Address,
    text: &'static str,
}

impl Network for Same {
    ghost conduct = { record {
      Begins = λ limits phones n. n.phones ≡ length phones;
      Steps = λ n event words m. words ≡ codes "drop not cp";
      put_out = λ n. replicate n.count (record { is_up = n.up; phone = 1; octets = n.octets.now });
      ends = λ n. replicate n.phones (record {
        statuses = replicate 3 (codes "waiting");
        store = (record { origin = n.origin; text = n.text.now }) ∷ [];
      });
    } };

    fn begin(alloc: Global, limits: Limits, phones: &[Address]) -> Result<Self, AllocError> {
        let Ok(origin) = Address::from_text(alloc, "a\\b") else {
            return Err(AllocError);
        };
        Ok(Same {
            phones: phones.len(),
            count: 0,
            up: limits.wide,
            octets: if limits.reject { b"" } else { b"\x09\xAB" },
            origin,
            text: STORED,
        })
    }

    fn step(&mut self, event: &Event, words: &mut Vec<u8>) -> Result<(), AllocError> {
        match event {
            Event::Tick(_) => {}
            _ if self.count < 7 => self.count += 1,
            _ => {}
        }
        words.clear();
        words.extend_from_slice(b"drop not cp")
    }

    fn packet_count(&self) -> usize {
        self.count
    }

    fn packet(&self, number: usize) -> Option<Packet<'_>> {
        if number > self.count {
            return None;
        }
        Some(Packet {
            up: self.up,
            phone: 1,
            octets: self.octets,
        })
    }

    fn typed(&self, _phone: usize) -> usize {
        3
    }

    fn status(&self, _phone: usize, text: usize) -> Option<&str> {
        if text > 3 { None } else { Some("waiting") }
    }

    fn stored(&self, _phone: usize) -> usize {
        1
    }

    fn entry(&self, _phone: usize, place: usize) -> Option<Entry<'_>> {
        if place > 0 {
            return None;
        }
        Some(Entry {
            origin: &self.origin,
            text: self.text,
        })
    }
}

/// Settings, and a line of the transcript where they stand before the phones `a` and `b` and twelve
/// events.
#[derive(Clone, Copy)]
struct Printed {
    settings: &'static str,
    line: &'static str,
}

static PRINTED: [Printed; 8] = [
    Printed {
        settings: "wide\n",
        line: "#7 b>centre 09AB",
    },
    Printed {
        settings: "reject\n",
        line: "#7 centre>b -",
    },
    Printed {
        settings: "brief\n",
        line: "#7 centre>b 2",
    },
    Printed {
        settings: "brief\nwide\nreject\n",
        line: "#7 b>centre 0",
    },
    Printed {
        settings: "",
        line: "12 drop not cp",
    },
    Printed {
        settings: "",
        line: "sent a 3 waiting",
    },
    Printed {
        settings: "",
        line: "store a 1",
    },
    Printed {
        settings: "",
        line: "a\\\\b \\\\\\n\\r\\f\\x01\\x7fé",
    },
];

const PHONES: &str = "phone a +1001\nphone b +1002\n";

const EVENTS: &str = "\
push a
push a
push a
push a
push a
push a
push a
push a
push a
push a
push a
push a
";

/// Plays a script, and adds its transcript.
fn play_into(alloc: Global, script: &str, transcript: &mut Vec<u8>) -> Result<(), PlayFault> {
    let mut source = Watched::new(script.as_bytes());
    let mut sink = Watched::new(transcript);
    play::<Same, Watched<&[u8]>, Watched<&mut Vec<u8>>>(alloc, &mut source, &mut sink)
}

/// The transcript of twelve events under settings.
fn transcript_of(alloc: Global, settings: &str) -> Result<Vec<u8>, Fail> {
    let script = format!(in alloc; "{settings}{PHONES}{EVENTS}")?;
    let mut transcript = Vec::new(alloc);
    play_into(alloc, &script, &mut transcript)?;
    Ok(transcript)
}

/// Whether one of the lines is this one.
fn has_line(lines: &str, wanted: &str) -> bool {
    for line in lines.lines() {
        if line == wanted {
            return true;
        }
    }
    false
}

/// A transcript has the line of a row.
fn is_printed(rt: &impl Abort, transcript: &[u8], row: &Printed) {
    let lines = str::from_utf8(transcript).unwrap_or("");
    holds(rt, &(row.line, lines), has_line(lines, row.line));
}

#[test]
fn lines_printed(rt: HostRuntime) -> Result<(), Fail> {
    for row in PRINTED.as_slice() {
        let transcript = transcript_of(rt.alloc(), row.settings)?;
        is_printed(&rt, &transcript, row);
    }
    Ok(())
}
