//! The steps, in their order.

ghost use Rattle.std.specs.Prelude.{◌≡◌, ◌≢◌, ◌⊎◌, ℕ, true, Some, OnOk, IfErr};
ghost use Rattle.sms_file.specs.Crash.{Stands, StandsAsBefore, LeavesOnly};
ghost use Rattle.sms_file.specs.declared.fault.Step.TheVariants.{SyncFolder};

use crate::fault::FileFault;
use crate::folder::Folder;

/// Gives the file these octets, whole or not at all. Where the file is there, its rights stay.
pub fn replace<F: Folder>(folder: &mut F, octets: &[u8]) -> Result<(), FileFault>
    // From then on a read and each crash give the new file.
    ensures replaced { F.is_known folder.old ≡ true
        → OnOk result (Stands F.named F.may_leave (Some octets.now) folder.new) }
    ensures rights { (r : ℕ) → F.is_known folder.old ≡ true → F.rights folder.old ≡ Some r
        → OnOk result (F.rights folder.new ≡ Some r) }
    // Whichever step is refused but the last, the file stands as before.
    ensures before { F.is_known folder.old ≡ true → IfErr result (λ f. f.step ≢ SyncFolder
        → StandsAsBefore F.named F.rights F.may_leave folder.old folder.new) }
    // Where the last is refused, the new file has the name, and a crash may leave either, whole.
    ensures either { F.is_known folder.old ≡ true
        → IfErr result (λ f. f.step ≡ SyncFolder → F.named folder.new ≡ Some octets.now) }
    // A crash at any moment of the call leaves what it might have left before, or the new file.
    ensures any_moment { F.is_known folder.old ≡ true
        → LeavesOnly F.moment F.left_since folder.old folder.new
        (λ c. F.may_leave folder.old c ⊎ (c ≡ Some octets.now)) }
    ensures known { F.is_known folder.new ≡ F.is_known folder.old }
{
    folder.write_beside(octets)?;
    folder.keep_rights()?;
    folder.sync_beside()?;
    folder.rename()?;
    folder.sync_folder()
}
