//! A joiner that is kept in a file, for the next start of the program.

use crate::fault::Fault;
use crate::folders::Folders;
use crate::joining::{Joining, Way, joiner_of};
use crate::restart::clock_after;
use crate::shown::Done;
use crate::words::StateFile;
use sms_file::Folder;
use sms_keep::{Restored, read};
use sms_kept::{Kept, take_kept};
use std::alloc::Global;
use std::io::{Read, Write};

/// What a joiner held that begins: nothing.
fn nothing(alloc: Global, way: &Way<'_>) -> Result<Restored, Fault> {
    Ok(Restored {
        gateway: joiner_of(alloc, way)?,
        taken: 0,
    })
}

/// What a joiner held, as octets say.
fn read_from(alloc: Global, way: &Way<'_>, octets: Vec<u8>) -> Result<Restored, Fault> {
    Ok(read(alloc, way.seed, way.limits, &octets)?)
}

/// What the joiner held that is kept in a file; nothing where the file is not there.
fn restored_from<F: Folder>(alloc: Global, way: &Way<'_>, folder: &F) -> Result<Restored, Fault> {
    match folder.read(alloc)? {
        None => nothing(alloc, way),
        Some(octets) => read_from(alloc, way, octets),
    }
}

/// Joins what lines have, from what a file keeps on, and keeps it there.
pub fn join_kept<F: Folders, R: Read, W: Write, N: Write>(
    alloc: Global,
    way: &Way<'_>,
    state: StateFile<'_>,
    folders: F,
    input: &mut R,
    output: &mut W,
    notes: &mut N,
) -> Result<Done, Fault> {
    let folder = folders.open(state.path)?;
    let Restored { gateway, taken } = restored_from(alloc, way, &folder)?;
    let clock = clock_after(&gateway);
    let joining = Joining::new(alloc, way, gateway, clock);
    let mut kept = Kept::new(joining, folder, state.every, taken);
    let ended = take_kept(alloc, &mut kept, input, output);
    kept.into_taker().end(ended, notes)
}
