//! A folder with a file, and another beside it.

ghost use Rattle.std.specs.Prelude.{◌≡◌, ◌⊎◌, ℕ, List, Bool, Option, true, Some, OnOk, OnErr, IfOk, IfErr};
ghost use Rattle.sms_file.specs.Crash.{File, Only, StandsAsBefore, Elapses, octets_of};
ghost use Rattle.sms_file.specs.declared.fault.Step.TheVariants.{Read, Write, Rights, Sync, Rename, SyncFolder};

use crate::fault::FileFault;
use std::alloc::Global;

/// A folder whose file is replaced. Of one that is not known to keep to it, as the system's, no
/// clause says more than which step an error names.
pub trait Folder {
    ghost is_known: { Self → Bool };

    /// What a read of the file gives.
    ghost named: { Self → File };

    /// The rights of the file as a number, where it is there.
    ghost rights: { Self → Option ℕ };

    /// What the file beside has.
    ghost beside: { Self → File };

    /// The rights of the file beside.
    ghost rights_beside: { Self → Option ℕ };

    /// What the file beside has on the disk too.
    ghost settled: { Self → File };

    /// As what a crash at this moment may leave the file.
    ghost may_leave: { Self → File → Type 0 };

    /// The moment, as a number that does not fall.
    ghost moment: { Self → ℕ };

    /// As what a crash at some moment from that one on might have left the file.
    ghost left_since: { Self → ℕ → File → Type 0 };

    /// The octets of the file, or `None` where it is not there.
    fn read(&self, alloc: Global) -> Result<Option<Vec<u8>>, FileFault>
        ensures step { IfErr result (λ f. f.step ≡ Read) }
        ensures file { is_known self.now ≡ true
            → IfOk result (λ o. octets_of o ≡ named self.now) };

    /// Writes the file beside.
    fn write_beside(&mut self, octets: &[u8]) -> Result<(), FileFault>
        ensures step { IfErr result (λ f. f.step ≡ Write) }
        ensures known { is_known self.new ≡ is_known self.old }
        ensures written { is_known self.old ≡ true
            → OnOk result (beside self.new ≡ Some octets.now) }
        ensures before { is_known self.old ≡ true
            → StandsAsBefore named rights may_leave self.old self.new }
        ensures time { is_known self.old ≡ true
            → Elapses moment left_since may_leave self.old self.new };

    /// Gives the file beside the rights of the file, where the file is there.
    fn keep_rights(&mut self) -> Result<(), FileFault>
        ensures step { IfErr result (λ f. f.step ≡ Rights) }
        ensures known { is_known self.new ≡ is_known self.old }
        ensures kept { (r : ℕ) → is_known self.old ≡ true → rights self.old ≡ Some r
            → OnOk result (rights_beside self.new ≡ Some r) }
        ensures beside { is_known self.old ≡ true → beside self.new ≡ beside self.old }
        ensures before { is_known self.old ≡ true
            → StandsAsBefore named rights may_leave self.old self.new }
        ensures time { is_known self.old ≡ true
            → Elapses moment left_since may_leave self.old self.new };

    /// After it the file beside is on the disk.
    fn sync_beside(&mut self) -> Result<(), FileFault>
        ensures step { IfErr result (λ f. f.step ≡ Sync) }
        ensures known { is_known self.new ≡ is_known self.old }
        ensures durable { is_known self.old ≡ true
            → OnOk result (settled self.new ≡ beside self.old) }
        ensures rights { is_known self.old ≡ true
            → rights_beside self.new ≡ rights_beside self.old }
        ensures before { is_known self.old ≡ true
            → StandsAsBefore named rights may_leave self.old self.new }
        ensures time { is_known self.old ≡ true
            → Elapses moment left_since may_leave self.old self.new };

    /// Gives the file beside the name of the file. Until a sync of the folder a crash may leave
    /// either; of a file beside that is not on the disk it may leave anything.
    fn rename(&mut self) -> Result<(), FileFault>
        ensures step { IfErr result (λ f. f.step ≡ Rename) }
        ensures known { is_known self.new ≡ is_known self.old }
        ensures renamed { (octets : List ℕ) → is_known self.old ≡ true
            → settled self.old ≡ Some octets → OnOk result (named self.new ≡ Some octets) }
        ensures rights { is_known self.old ≡ true
            → OnOk result (rights self.new ≡ rights_beside self.old) }
        ensures crash { (octets : List ℕ) → is_known self.old ≡ true
            → settled self.old ≡ Some octets → (c : File) → may_leave self.new c
            → may_leave self.old c ⊎ (c ≡ Some octets) }
        ensures err { is_known self.old ≡ true
            → OnErr result (StandsAsBefore named rights may_leave self.old self.new) }
        ensures time { is_known self.old ≡ true
            → Elapses moment left_since may_leave self.old self.new };

    /// After it a crash leaves the file under its name.
    fn sync_folder(&mut self) -> Result<(), FileFault>
        ensures step { IfErr result (λ f. f.step ≡ SyncFolder) }
        ensures known { is_known self.new ≡ is_known self.old }
        ensures durable { is_known self.old ≡ true
            → OnOk result (Only (named self.old) (may_leave self.new)) }
        ensures before { is_known self.old ≡ true
            → StandsAsBefore named rights may_leave self.old self.new }
        ensures time { is_known self.old ≡ true
            → Elapses moment left_since may_leave self.old self.new };

    /// Since this moment there is no other.
    ghost only_now: { (folder : Self) (c : File) → is_known folder ≡ true
        → left_since folder (moment folder) c → may_leave folder c };
}
