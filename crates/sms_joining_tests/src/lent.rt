//! A folder in memory that is lent to a run, and refuses a step.

ghost use Rattle.std.specs.Prelude.{◌≡◌, None, false, IfErr};

use sms_command::{Folders, command_with_folders};
use sms_file::{FileFault, Folder, MemoryFolder, Step, Why};
use std::alloc::Global;
use std::io::{Read, sink};
use std::test::Fail;

/// A folder that is lent, and the step that it refuses.
#[derive(Drop)]
struct Lent<'a> {
    folder: &'a mut MemoryFolder,
    refused: Option<Step>,
}

/// A step that is refused, if this is the one.
fn refuse(refused: Option<Step>, step: Step) -> Result<(), FileFault>
    ensures { IfErr result (λ f. f.step ≡ step) }
{
    if refused == Some(step) {
        return Err(FileFault {
            step,
            why: Why::NoRoom,
        });
    }
    Ok(())
}

impl Folder for Lent<'_> {
    ghost is_known = { λ f. false };

    ghost named = { λ f. None };

    ghost rights = { λ f. None };

    ghost beside = { λ f. None };

    ghost rights_beside = { λ f. None };

    ghost settled = { λ f. None };

    ghost may_leave = { λ f c. ⊥ };

    ghost moment = { λ f. 0 };

    ghost left_since = { λ f t c. ⊥ };

    ghost only_now = { λ f c known left. left };

    fn read(&self, alloc: Global) -> Result<Option<Vec<u8>>, FileFault> {
        refuse(self.refused, Step::Read)?;
        self.folder.read(alloc)
    }

    fn write_beside(&mut self, octets: &[u8]) -> Result<(), FileFault> {
        refuse(self.refused, Step::Write)?;
        self.folder.write_beside(octets)
    }

    fn keep_rights(&mut self) -> Result<(), FileFault> {
        refuse(self.refused, Step::Rights)?;
        self.folder.keep_rights()
    }

    fn sync_beside(&mut self) -> Result<(), FileFault> {
        refuse(self.refused, Step::Sync)?;
        self.folder.sync_beside()
    }

    fn rename(&mut self) -> Result<(), FileFault> {
        refuse(self.refused, Step::Rename)?;
        self.folder.rename()
    }

    fn sync_folder(&mut self) -> Result<(), FileFault> {
        refuse(self.refused, Step::SyncFolder)?;
        self.folder.sync_folder()
    }
}

impl<'a> Folders for Lent<'a> {
    type Folder = Lent<'a>;

    fn open(self, _path: &str) -> Result<Lent<'a>, FileFault> {
        refuse(self.refused, Step::Open)?;
        Ok(self)
    }
}

/// The status and the whole output of a run to which a folder is lent.
pub fn run_in<R: Read>(
    alloc: Global,
    words: &[&str],
    folder: &mut MemoryFolder,
    refused: Option<Step>,
    input: &mut R,
) -> Result<(u8, String), Fail> {
    let mut output = Vec::new(alloc);
    let lent = Lent { folder, refused };
    let status = command_with_folders(alloc, words, None, lent, input, &mut output, &mut sink());
    Ok((status, String::from_utf8(output)?))
}
