//! The command over any reader and writer.

ghost use Rattle.std.specs.Prelude.{◌≡◌, ◌≤◌, ◌<◌, Ok};
ghost use Rattle.sms_command.specs.Inside.Answers.{Answers, WritesPlayed};
ghost use Rattle.sms_command.specs.Inside.Statuses.{status_of};
ghost use Rattle.sms_command.specs.declared.shown.Done.TheVariants.{Whole};

use crate::chart::put_chart;
use crate::fault::Fault;
use crate::folders::{Folders, NoFolders};
use crate::join::join;
use crate::play::play_script;
use crate::play_json::play_as_json;
use crate::shown::{Done, show};
use crate::words::{Played, Request, parse_words};
use clap::error::ErrorKind;
use sms_answer::put_reason;
use sms_encode::put_units;
use sms_page::Page;
use sms_split::put_segments;
use sms_told::Form;
use std::alloc::Global;
use std::convert::AsStr;
use std::io::{Read, Write, sink};

/// Does what a request asks, and writes what comes of it. A script, and lines, are read from the
/// input. What is lost where units are joined goes to the notes; keys are hashed with a seed there,
/// and what is open stands in a folder.
fn answer<F: Folders, R: Read, W: Write, N: Write>(
    alloc: Global,
    request: &Request<'_>,
    seed: Option<u128>,
    folders: F,
    input: &mut R,
    output: &mut W,
    notes: &mut N,
) -> Result<Done, Fault>
    ensures { result ≡ Ok Whole → Answers request.now (R.remaining input.old)
        (W.contents output.old) (W.contents output.new) }
{
    match request {
        Request::Show(shown) => return show(alloc, *shown, input, output),
        Request::Chart => put_chart(alloc, input, output)?,
        Request::Join(joined) => return join(alloc, joined, seed, folders, input, output, notes),
        Request::Encode(draft) => put_units(alloc, draft, output)?,
        Request::Split(long) => put_segments(alloc, long, output)?,
        Request::Play(played) => return play(alloc, *played, input, output),
    }
    Ok(Done::Whole)
}

/// Plays the script that the input has.
fn play<R: Read, W: Write>(
    alloc: Global,
    played: Played,
    input: &mut R,
    output: &mut W,
) -> Result<Done, Fault>
    ensures { result ≡ Ok Whole → WritesPlayed played.form played (R.remaining input.old)
        (W.contents output.old) (W.contents output.new) }
{
    match played.form {
        Form::Plain => play_script(alloc, played, input, output),
        Form::Json => play_as_json(alloc, played, input, output),
    }
}

/// Writes a fault's line where the output still takes it, and gives its status.
fn refuse<W: Write>(alloc: Global, is_explained: bool, fault: &Fault, output: &mut W) -> u8
    ensures status { result ≡ status_of fault.now }
    ensures bound { (0 < result) × (result ≤ 3) }
{
    let mut page = Page::new(alloc);
    match put_reason(alloc, None, is_explained, fault, &mut page) {
        Ok(()) => {
            let _ = page.write_to(output);
        }
        Err(_) => {
            let _ = writeln!(output, "{fault}");
        }
    }
    fault.status()
}

/// Writes what `clap` says of the words, and gives its status: 0 for help, else 2.
fn explain<W: Write>(alloc: Global, error: &clap::Error, output: &mut W) -> u8
    ensures { result ≤ 3 }
{
    if error.kind() == ErrorKind::OutOfMemory {
        return refuse(alloc, false, &Fault::Memory, output);
    }
    if let Err(error) = write!(output, "{error}") {
        return refuse(alloc, false, &Fault::from(error), output);
    }
    if error.exit_code() == 0 { 0 } else { 2 }
}

/// Does what a request asks, and gives its status.
fn do_request<F: Folders, R: Read, W: Write, N: Write>(
    alloc: Global,
    request: &Request<'_>,
    seed: Option<u128>,
    folders: F,
    input: &mut R,
    output: &mut W,
    notes: &mut N,
) -> u8
    ensures done { result ≡ 0 → Answers request.now (R.remaining input.old)
        (W.contents output.old) (W.contents output.new) }
    ensures bound { result ≤ 3 }
{
    match answer(alloc, request, seed, folders, input, output, notes) {
        Ok(Done::Whole) => 0,
        Ok(Done::Faulty) => 1,
        Err(fault) => refuse(alloc, request.is_explained(), &fault, output),
    }
}

/// Does what the words ask, as `command_with_seed` does. Where units are joined, and what is open is
/// to be kept in a file, its folder is opened and the file replaced there.
pub fn command_with_folders<S: AsStr, F: Folders, R: Read, W: Write, N: Write>(
    alloc: Global,
    words: &[S],
    seed: Option<u128>,
    folders: F,
    input: &mut R,
    output: &mut W,
    notes: &mut N,
) -> u8
    ensures { result ≤ 3 }
{
    match parse_words(alloc, words) {
        Ok(request) => do_request(alloc, &request, seed, folders, input, output, notes),
        Err(error) => explain(alloc, &error, output),
    }
}

/// Does what the words ask, as `command_with_notes` does. Where a seed is given and units are joined,
/// their keys are hashed with it, so that a sender who does not know it cannot pick keys that are
/// slow to find. Nothing that is written depends on it. No folder is opened: `join --state` is
/// answered so.
pub fn command_with_seed<S: AsStr, R: Read, W: Write, N: Write>(
    alloc: Global,
    words: &[S],
    seed: Option<u128>,
    input: &mut R,
    output: &mut W,
    notes: &mut N,
) -> u8
    ensures { result ≤ 3 }
{
    command_with_folders(alloc, words, seed, NoFolders, input, output, notes)
}

/// Does what the words ask, the program's name first, and answers the exit status: 0 done, 1
/// refused input, 2 wrong words, 3 memory or a device. A script is read from the input. The output
/// is not flushed. Where `join` loses segments and does not tell which, a line that counts them
/// goes to the notes, before a fault that ends the run is told.
pub fn command_with_notes<S: AsStr, R: Read, W: Write, N: Write>(
    alloc: Global,
    words: &[S],
    input: &mut R,
    output: &mut W,
    notes: &mut N,
) -> u8
    ensures { result ≤ 3 }
{
    command_with_seed(alloc, words, None, input, output, notes)
}

/// Does what the words ask, as `command_with_notes` does, without notes.
pub fn command<S: AsStr, R: Read, W: Write>(
    alloc: Global,
    words: &[S],
    input: &mut R,
    output: &mut W,
) -> u8
    ensures { result ≤ 3 }
{
    command_with_notes(alloc, words, input, output, &mut sink())
}
