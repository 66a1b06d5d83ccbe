//! The command line of the short message tools.
#![tactic(auto)]

use sms_command::{Folders, command_with_folders, finish};
use sms_file::{FileFault, HostFolder};
use std::env;
use std::io::{self, BufReader, BufWriter, ErrorKind, Write};
use std::process::ExitCode;
use std::random::RandomSource;

/// The status where the words are wrong.
const WRONG_WORDS: u8 = 2;

/// The status where memory runs out.
const NO_MEMORY: u8 = 3;

/// A seed that nobody outside knows, where the system gives one.
fn seed_drawn(rt: &HostRuntime) -> Option<u128> {
    let mut octets = [0; 16];
    match rt.fill_bytes(&mut octets) {
        Ok(()) => Some(u128::from_le_bytes(octets)),
        Err(_) => None,
    }
}

/// The folders of the system.
#[derive(Drop)]
struct HostFolders {
    rt: HostRuntime,
}

impl Folders for HostFolders {
    type Folder = HostFolder<HostRuntime>;

    fn open(self, path: &str) -> Result<HostFolder<HostRuntime>, FileFault> {
        HostFolder::open(self.rt, path)
    }
}

fn run(rt: &HostRuntime) -> io::Result<u8> {
    let alloc = rt.alloc();
    let words: Vec<String> = env::args(rt)?.collect(alloc)?;
    let mut input = BufReader::new(alloc, rt.reader())?;
    let mut output = BufWriter::new(alloc, io::writer(rt))?;
    let errors = rt.stderr();
    let mut notes = io::writer(&errors);
    let seed = seed_drawn(rt);
    let words = words.as_slice();
    let folders = HostFolders { rt: rt.clone()? };
    let status = command_with_folders(
        alloc,
        words,
        seed,
        folders,
        &mut input,
        &mut output,
        &mut notes,
    );
    Ok(finish(status, &mut output, &mut io::writer(rt)))
}

/// The line and the status of what fails before the command: a word, or memory.
fn failure(kind: ErrorKind) -> (&'static str, u8) {
    match kind {
        ErrorKind::InvalidData => ("words are not utf-8", WRONG_WORDS),
        _ => ("out of memory", NO_MEMORY),
    }
}

fn main(rt: HostRuntime) -> ExitCode {
    match run(&rt) {
        Ok(status) => ExitCode::from(status),
        Err(error) => {
            let (line, status) = failure(error.kind());
            let _ = writeln!(io::writer(&rt), "{line}");
            ExitCode::from(status)
        }
    }
}
