//! A folder in memory: replaced, and read again.

use crate::found::{holds, is};
use sms_file::{Folder, MemoryFolder, replace};
use std::alloc::Global;
use std::process::Abort;
use std::test::Fail;

/// Whether a read gives this file.
pub fn reads<F: Folder>(alloc: Global, folder: &F, wanted: Option<&[u8]>) -> bool {
    match (folder.read(alloc), wanted) {
        (Ok(Some(octets)), Some(wanted)) => octets.as_slice() == wanted,
        (Ok(None), None) => true,
        _ => false,
    }
}

/// A folder whose file is replaced twice is read as the new one each time.
fn is_replaced(rt: &impl Abort, alloc: Global, row: &str, folder: &mut MemoryFolder) {
    for octets in [b"first".as_slice(), b"".as_slice()] {
        is(rt, row, replace(folder, octets), Ok(()));
        holds(rt, row, reads(alloc, folder, Some(octets)));
    }
}

#[test]
fn what_was_written_is_read(rt: HostRuntime) -> Result<(), Fail> {
    let alloc = rt.alloc();
    let mut folder = MemoryFolder::new(alloc);
    holds(&rt, "no file", reads(alloc, &folder, None));
    is_replaced(&rt, alloc, "no file", &mut folder);
    let mut folder = MemoryFolder::with_file(alloc, b"old", 0o640)?;
    holds(&rt, "a file", reads(alloc, &folder, Some(b"old")));
    is_replaced(&rt, alloc, "a file", &mut folder);
    Ok(())
}
