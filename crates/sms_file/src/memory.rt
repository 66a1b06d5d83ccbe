//! A folder in memory, of which each clause is known.

ghost use Rattle.std.specs.Prelude.{◌≡◌, ◌⊎◌, ◌++◌, ◌∷◌, [], Some, None, true, length, drop, if◌then◌else◌, OnOk, OnErr, IfOk};
ghost use Rattle.sms_file.specs.Crash.{octets_of};
ghost use Rattle.sms_file.specs.Memory.{HadBeen, MayLeave, only_now};

use crate::fault::{FileFault, Step, Why};
use crate::folder::Folder;
use std::alloc::{AllocError, Global};

/// A folder in memory. A crash leaves what was on the disk at the last sync of the folder, or what
/// has the name.
#[derive(Drop)]
pub struct MemoryFolder {
    alloc: Global,
    file: Option<Vec<u8>>,
    rights: Option<u32>,
    disk: Option<Vec<u8>>,
    beside: Vec<u8>,
    rights_beside: Option<u32>,
    is_synced: bool,
    /// What it had.
    past: Vec<Option<Vec<u8>>>,
}

/// Want of memory at a step.
fn no_memory(step: Step) -> FileFault
    ensures { result.step ≡ step }
{
    FileFault {
        step,
        why: Why::Memory,
    }
}

/// The same file once more.
fn copy_of(alloc: Global, file: &Option<Vec<u8>>) -> Result<Option<Vec<u8>>, AllocError>
    ensures { IfOk result (λ f. octets_of f ≡ octets_of file.now) }
{
    match file {
        None => Ok(None),
        Some(octets) => Ok(Some(Vec::from_slice(alloc, octets)?)),
    }
}

/// Keeps what was there.
fn keep(
    alloc: Global,
    past: &mut Vec<Option<Vec<u8>>>,
    file: &Option<Vec<u8>>,
) -> Result<(), AllocError>
    ensures ok { OnOk result ((f : _) × (octets_of f ≡ octets_of file.now)
        × (past.new.items ≡ past.old.items ++ f ∷ [])) }
    ensures err { OnErr result (past.new.items ≡ past.old.items) }
{
    let own = copy_of(alloc, file)?;
    past.push(own)?;
    Ok(())
}

impl MemoryFolder {
    ghost use Rattle.sms_file.specs.Memory.{file_of, disk_of, rights_of, IsFolderOf};

    /// A folder without the file.
    pub fn new(alloc: Global) -> MemoryFolder
        ensures file { file_of result ≡ None }
        ensures disk { disk_of result ≡ None }
        ensures rights { rights_of result ≡ None }
    {
        MemoryFolder {
            alloc,
            file: None,
            rights: None,
            disk: None,
            beside: Vec::new(alloc),
            rights_beside: None,
            is_synced: false,
            past: Vec::new(alloc),
        }
    }

    /// A folder with a file of these octets and rights, on the disk too.
    pub fn with_file(alloc: Global, octets: &[u8], rights: u32) -> Result<MemoryFolder, AllocError>
        ensures { IfOk result (λ m. IsFolderOf m octets.now rights) }
    {
        let file = Some(Vec::from_slice(alloc, octets)?);
        let disk = copy_of(alloc, &file)?;
        let mut folder = MemoryFolder::new(alloc);
        folder.file = file;
        folder.disk = disk;
        folder.rights = Some(rights);
        Ok(folder)
    }
}

impl Folder for MemoryFolder {
    ghost use Rattle.sms_file.specs.Memory.{file_of, disk_of, rights_of};

    ghost is_known = { λ m. true };

    ghost named = { λ m. file_of m };

    ghost rights = { λ m. rights_of m };

    ghost beside = { λ m. Some m.beside.items };

    ghost rights_beside = { λ m. m.rights_beside };

    ghost settled = { λ m. if m.is_synced then Some m.beside.items else None };

    ghost may_leave = { λ m c. MayLeave (disk_of m) (file_of m) c };

    ghost moment = { λ m. length m.past.items };

    ghost left_since = { λ m t c. MayLeave (disk_of m) (file_of m) c
        ⊎ HadBeen (drop t m.past.items) c };

    ghost only_now = { λ m c known left.
        only_now m.past.items (disk_of m) (file_of m) c left };

    fn read(&self, alloc: Global) -> Result<Option<Vec<u8>>, FileFault> {
        match copy_of(alloc, &self.file) {
            Ok(file) => Ok(file),
            Err(_) => Err(no_memory(Step::Read)),
        }
    }

    fn write_beside(&mut self, octets: &[u8]) -> Result<(), FileFault> {
        match Vec::from_slice(self.alloc, octets) {
            Ok(next) => {
                self.beside = next;
                self.rights_beside = Some(0o600);
                self.is_synced = false;
                Ok(())
            }
            Err(_) => Err(no_memory(Step::Write)),
        }
    }

    fn keep_rights(&mut self) -> Result<(), FileFault> {
        if let Some(rights) = self.rights {
            self.rights_beside = Some(rights);
        }
        Ok(())
    }

    fn sync_beside(&mut self) -> Result<(), FileFault> {
        self.is_synced = true;
        Ok(())
    }

    fn rename(&mut self) -> Result<(), FileFault> {
        if !self.is_synced {
            return Err(FileFault {
                step: Step::Rename,
                why: Why::Refused,
            });
        }
        let Ok(next) = self.beside.to_vec(self.alloc) else {
            return Err(no_memory(Step::Rename));
        };
        match keep(self.alloc, &mut self.past, &self.file) {
            Ok(()) => {
                self.file = Some(next);
                self.rights = self.rights_beside;
                Ok(())
            }
            Err(_) => Err(no_memory(Step::Rename)),
        }
    }

    fn sync_folder(&mut self) -> Result<(), FileFault> {
        let Ok(next) = copy_of(self.alloc, &self.file) else {
            return Err(no_memory(Step::SyncFolder));
        };
        match keep(self.alloc, &mut self.past, &self.disk) {
            Ok(()) => {
                self.disk = next;
                Ok(())
            }
            Err(_) => Err(no_memory(Step::SyncFolder)),
        }
    }
}
