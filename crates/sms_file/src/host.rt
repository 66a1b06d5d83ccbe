//! A file of the system. Nothing is known of it.

ghost use Rattle.std.specs.Prelude.{◌≡◌, Option, None, false, IfErr};

use crate::fault::{FileFault, Step, Why};
use crate::folder::Folder;
use crate::system::{folder_of, refused};
use std::alloc::Global;
use std::fs::{self, File, Files, Metadata, OpenOptions, Permissions, TryLockError};
use std::io::{self, ErrorKind, Read, Write};
use std::os::unix::fs::{MetadataExt, OpenOptionsExt, PermissionsExt, fchown};

/// The rights of a file that was not there: its owner alone may read and write it.
const OWN: u32 = 0o600;

/// A file of the system, locked from its opening on. Beside PATH stand PATH.lock, which stays, and
/// while it is written PATH.new.
#[derive(Drop)]
pub struct HostFolder<R: Files<File = File> + Drop> {
    files: R,
    folder: File,
    /// It holds the lock.
    lock: File,
    path: String,
    beside: String,
    /// The file beside, from its writing to its sync.
    written: Option<File>,
}

/// The path of the file to which a path leads; the path itself where no file is there.
fn real_path<R: Files<File = File> + AllocGlobal>(files: &R, path: &str) -> io::Result<String> {
    match fs::canonicalize(files, path) {
        Ok(found) => String::from_str(files.alloc(), found.as_str()).map_err(io::Error::from),
        Err(error) if error.kind() == ErrorKind::NotFound => {
            String::from_str(files.alloc(), path).map_err(io::Error::from)
        }
        Err(error) => Err(error),
    }
}

/// The file of the lock, locked.
fn locked<R: Files<File = File>>(files: &R, path: &str) -> Result<File, FileFault> {
    let mut how = OpenOptions::new();
    how.write(true).create(true).mode(OWN);
    let file = match how.open(files, path) {
        Ok(file) => file,
        Err(error) => return Err(refused(Step::Lock, error.kind())),
    };
    match file.try_lock() {
        Ok(()) => Ok(file),
        Err(TryLockError::WouldBlock) => Err(FileFault {
            step: Step::Lock,
            why: Why::InUse,
        }),
        Err(TryLockError::Error(error)) => Err(refused(Step::Lock, error.kind())),
    }
}

/// The octets of the file at a path, or `None` where it is not there.
fn octets_at<R: Files<File = File>>(
    files: &R,
    alloc: Global,
    path: &str,
) -> io::Result<Option<Vec<u8>>> {
    let mut file = match File::open(files, path) {
        Ok(file) => file,
        Err(error) if error.kind() == ErrorKind::NotFound => return Ok(None),
        Err(error) => return Err(error),
    };
    let mut octets = Vec::new(alloc);
    file.read_to_end(&mut octets)?;
    Ok(Some(octets))
}

/// A new file at a path with these octets. What an earlier run left there goes.
fn file_with<R: Files<File = File>>(files: &R, path: &str, octets: &[u8]) -> io::Result<File> {
    match fs::remove_file(files, path) {
        Ok(()) => {}
        Err(error) if error.kind() == ErrorKind::NotFound => {}
        Err(error) => return Err(error),
    }
    let mut how = OpenOptions::new();
    how.write(true).create_new(true).mode(OWN);
    let mut file = how.open(files, path)?;
    file.write_all(octets)?;
    Ok(file)
}

/// Gives a file the owner, the group and the rights of another.
fn give_rights(file: &File, other: &Metadata) -> io::Result<()> {
    let own = file.metadata()?;
    if own.uid() != other.uid() || own.gid() != other.gid() {
        fchown(file, Some(other.uid()), Some(other.gid()))?;
    }
    file.set_permissions(Permissions::from_mode(other.mode() & 0o7777))
}

impl<R: Files<File = File> + AllocGlobal + Drop> HostFolder<R> {
    /// Opens the folder of the file at a path, whether the file is there or not, before anything
    /// is written, and keeps every other run out. Of a symbolic link the file is meant to which it
    /// leads.
    pub fn open(files: R, path: &str) -> Result<HostFolder<R>, FileFault> {
        let no_folder = |error: io::Error| refused(Step::Open, error.kind());
        let path = real_path(&files, path).map_err(no_folder)?;
        let folder = File::open(&files, folder_of(&path)).map_err(no_folder)?;
        let beside = beside_of(&files, &path, ".new")?;
        let lock = locked(&files, &beside_of(&files, &path, ".lock")?)?;
        Ok(HostFolder {
            files,
            folder,
            lock,
            path,
            beside,
            written: None,
        })
    }
}

/// The path of a file beside, by its ending.
fn beside_of<R: AllocGlobal>(files: &R, path: &str, ending: &str) -> Result<String, FileFault> {
    format!(in files.alloc(); "{path}{ending}").map_err(|_| FileFault {
        step: Step::Open,
        why: Why::Memory,
    })
}

impl<R: Files<File = File> + Drop> HostFolder<R> {
    /// Gives the file beside the rights of the file, where that is there.
    fn give(&self) -> io::Result<()> {
        let other = match fs::metadata(&self.files, &self.path) {
            Ok(other) => other,
            Err(error) if error.kind() == ErrorKind::NotFound => return Ok(()),
            Err(error) => return Err(error),
        };
        match &self.written {
            Some(file) => give_rights(file, &other),
            None => Ok(()),
        }
    }
}

impl<R: Files<File = File> + Drop> Folder for HostFolder<R> {
    ghost is_known = { λ f. false };

    ghost named = { λ f. None };

    ghost rights = { λ f. None };

    ghost beside = { λ f. None };

    ghost rights_beside = { λ f. None };

    ghost settled = { λ f. None };

    ghost may_leave = { λ f c. ⊥ };

    ghost moment = { λ f. 0 };

    ghost left_since = { λ f t c. ⊥ };

    ghost only_now = { λ f c known left. left };

    fn read(&self, alloc: Global) -> Result<Option<Vec<u8>>, FileFault> {
        octets_at(&self.files, alloc, &self.path).map_err(|e| refused(Step::Read, e.kind()))
    }

    fn write_beside(&mut self, octets: &[u8]) -> Result<(), FileFault> {
        match file_with(&self.files, &self.beside, octets) {
            Ok(file) => {
                self.written = Some(file);
                Ok(())
            }
            Err(error) => Err(refused(Step::Write, error.kind())),
        }
    }

    fn keep_rights(&mut self) -> Result<(), FileFault> {
        self.give().map_err(|e| refused(Step::Rights, e.kind()))
    }

    fn sync_beside(&mut self) -> Result<(), FileFault> {
        match self.written.take() {
            Some(file) => file.sync_all().map_err(|e| refused(Step::Sync, e.kind())),
            None => Err(refused(Step::Sync, ErrorKind::NotFound)),
        }
    }

    fn rename(&mut self) -> Result<(), FileFault> {
        fs::rename(&self.files, &self.beside, &self.path).map_err(|e| refused(
            Step::Rename,
            e.kind(),
        ))
    }

    fn sync_folder(&mut self) -> Result<(), FileFault> {
        self.folder
            .sync_all()
            .map_err(|e| refused(Step::SyncFolder, e.kind()))
    }
}
