//! Why segments are not written, or not to the last.

use sms_join::SplitFault;
use sms_page::PageFault;
use std::alloc::AllocError;
use std::io;
use thiserror::Error;

/// Why the segments of a text are not written, or not to the last. Its text is what a line tells
/// of it.
#[derive(Debug, Drop, Error)]
pub enum CutFault {
    /// Septets are asked for one an octet, but no user data alone.
    #[error("option not for this kind")]
    WrongOption,
    /// A concatenation reference does not fit its width.
    #[error("reference too large")]
    ReferenceTooLarge,
    /// A text needs more segments than can be numbered.
    #[error("too many segments")]
    TooManySegments,
    /// The output takes no more.
    #[error("write failed")]
    Write,
    /// Memory ran out.
    #[error("out of memory")]
    Memory,
}

impl From<AllocError> for CutFault {
    fn from(_error: AllocError) -> CutFault {
        CutFault::Memory
    }
}

impl From<SplitFault> for CutFault {
    fn from(fault: SplitFault) -> CutFault {
        match fault {
            SplitFault::TooManySegments => CutFault::TooManySegments,
            SplitFault::Memory => CutFault::Memory,
        }
    }
}

impl From<PageFault> for CutFault {
    fn from(fault: PageFault) -> CutFault {
        match fault {
            PageFault::Output(error) if error.kind() != io::ErrorKind::OutOfMemory => {
                CutFault::Write
            }
            _ => CutFault::Memory,
        }
    }
}
