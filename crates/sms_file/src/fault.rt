//! Why a file was not opened, read or replaced.

use thiserror::Error;

/// A step, in the order in which they are taken.
#[derive(Clone, Copy, Debug, PartialEq, Eq, Error)]
pub enum Step {
    /// The folder is opened.
    #[error("folder not opened")]
    Open,
    /// The file is locked.
    #[error("not locked")]
    Lock,
    /// The file is read.
    #[error("not read")]
    Read,
    /// The new file is written, beside the old one.
    #[error("not written")]
    Write,
    /// The new file is given the rights of the old one.
    #[error("rights not kept")]
    Rights,
    /// The new file is brought to the disk.
    #[error("not synced")]
    Sync,
    /// The new file is given the name of the old one.
    #[error("not renamed")]
    Rename,
    /// The folder is brought to the disk.
    #[error("folder not synced")]
    SyncFolder,
}

/// Why a step was refused.
#[derive(Clone, Copy, Debug, PartialEq, Eq, Error)]
pub enum Why {
    /// Another run has the file.
    #[error("in use")]
    InUse,
    /// It is not there.
    #[error("not found")]
    NotFound,
    /// There is no room on the disk.
    #[error("no room")]
    NoRoom,
    /// There is no right to do it.
    #[error("no right")]
    NoRight,
    /// Memory ran out.
    #[error("out of memory")]
    Memory,
    /// The system refused it otherwise.
    #[error("refused")]
    Refused,
}

/// The step that was refused, and why.
#[derive(Clone, Copy, Debug, PartialEq, Eq, Error)]
#[error("{step}: {why}")]
pub struct FileFault {
    /// The step.
    pub step: Step,
    /// Why it was refused.
    pub why: Why,
}
