//! A folder in memory, while one request for memory is refused.

use crate::found::holds;
use crate::memory::reads;
use sms_file::{MemoryFolder, Step, Why, replace};
use std::alloc::Global;
use std::test::Fail;

/// Whether the new file stands, or the old one does as the refused step says. A read that has no
/// memory tells nothing.
fn stands(alloc: Global, folder: &mut MemoryFolder) -> bool {
    let wanted = match replace(folder, b"new") {
        Ok(()) => b"new",
        Err(fault) if fault.why != Why::Memory => return false,
        Err(fault) if fault.step == Step::SyncFolder => b"new",
        Err(_) => b"old",
    };
    reads(alloc, folder, Some(wanted)) || reads(alloc, folder, Some(wanted))
}

#[test]
fn a_file_stands_after_a_refused_growth(rt: HostRuntime) -> Result<(), Fail> {
    let alloc = rt.alloc();
    let Ok(mut folder) = MemoryFolder::with_file(alloc, b"old", 0o600) else {
        return Ok(());
    };
    holds(&rt, "stands", stands(alloc, &mut folder));
    Ok(())
}
