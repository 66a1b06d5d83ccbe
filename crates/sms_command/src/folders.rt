//! What opens the folders in which states stand.

use sms_file::{FileFault, Folder, MemoryFolder, Step, Why};

/// What opens the folder of a file by the file's path.
pub trait Folders: Drop {
    type Folder: Folder + Drop;

    /// The folder of the file at a path, whether the file is there or not. No other run has the
    /// file from then on.
    fn open(self, path: &str) -> Result<Self::Folder, FileFault>;
}

/// No folders: none is opened.
#[derive(Drop)]
pub struct NoFolders;

impl Folders for NoFolders {
    type Folder = MemoryFolder;

    fn open(self, _path: &str) -> Result<MemoryFolder, FileFault> {
        Err(FileFault {
            step: Step::Open,
            why: Why::Refused,
        })
    }
}
