//! Paths, and what the system's errors say.

ghost use Rattle.std.specs.Prelude.{◌≡◌};

use crate::fault::{FileFault, Step, Why};
use std::io::ErrorKind;

/// The folder of the file at a path.
pub(crate) fn folder_of(path: &str) -> &str {
    match path.rfind('/') {
        None => ".",
        Some(0) => "/",
        Some(end) => path.get(..end).unwrap_or("."),
    }
}

/// Why the system refused a step.
pub(crate) fn why_of(kind: ErrorKind) -> Why {
    match kind {
        ErrorKind::NotFound => Why::NotFound,
        ErrorKind::WouldBlock => Why::InUse,
        ErrorKind::StorageFull | ErrorKind::QuotaExceeded | ErrorKind::FileTooLarge => Why::NoRoom,
        ErrorKind::PermissionDenied | ErrorKind::ReadOnlyFilesystem => Why::NoRight,
        ErrorKind::OutOfMemory => Why::Memory,
        _ => Why::Refused,
    }
}

/// The refusal of a step.
pub(crate) fn refused(step: Step, kind: ErrorKind) -> FileFault
    ensures { result.step ≡ step }
{
    FileFault {
        step,
        why: why_of(kind),
    }
}
