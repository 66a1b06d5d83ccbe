//! Lines that are handed on, and the state that is put as often as it is due.

ghost use Rattle.std.specs.Prelude.{◌≡◌, ℕ, List, [], false, Some, OnErr, OnOk};
ghost use Rattle.sms_script.specs.Lines.{lines};
ghost use Rattle.sms_feed.specs.Takers.{Standing, standing};
ghost use Rattle.sms_work.specs.Working.{WorksInPart, WorksToEnd};
ghost use Rattle.sms_kept.specs.Keeping.{FailsLast, FailsLine, KeepsLast, KeepsLine, KeptValue, keeping};

use crate::keeper::Keeper;
use crate::kept::Kept;
use sms_feed::FeedFault;
use sms_file::Folder;
use sms_page::Page;
use sms_work::work_through;
use std::alloc::Global;
use std::io::{Read, Write};

/// Hands on the lines that an input has and that were not taken before, each once and in order,
/// writes what is told of them, and puts the state as often as it is due, and at the end. Each time
/// what was told is written and flushed first. Where it ends early, what was told before is
/// written, and the state that was put last stands.
pub fn take_kept<T: Keeper, F: Folder + Drop, R: Read, W: Write>(
    alloc: Global,
    kept: &mut Kept<T, F>,
    input: &mut R,
    output: &mut W,
) -> Result<(), T::Fault>
    ensures takes { (octets : List ℕ) → R.remaining input.old ≡ Some octets
        → OnOk result (WorksToEnd (KeepsLine (keeping T.takes T.ends T.state F.is_known F.named
        F.may_leave F.moment F.left_since)) (KeepsLast (keeping T.takes T.ends T.state F.is_known
        F.named F.may_leave F.moment F.left_since))
        (standing kept.old (W.contents output.old) (record { octets = []; is_cut = false }))
        0 (lines octets)
        (standing kept.new (W.contents output.new) (record { octets = []; is_cut = false }))) }
    ensures early { (octets : List ℕ) → R.remaining input.old ≡ Some octets
        → OnErr result ((new : Standing (KeptValue T F)) × (kept.new ≡ new.taker)
        × WorksInPart (KeepsLine (keeping T.takes T.ends T.state F.is_known F.named
        F.may_leave F.moment F.left_since)) (FailsLine (keeping T.takes T.ends T.state F.is_known
        F.named F.may_leave F.moment F.left_since)) (FailsLast (keeping T.takes T.ends T.state
        F.is_known F.named F.may_leave F.moment F.left_since))
        (standing kept.old (W.contents output.old) (record { octets = []; is_cut = false }))
        0 (lines octets) new) }
{
    let mut page = Page::new(alloc);
    match work_through(alloc, kept, &mut page, input, output) {
        Ok(()) => Ok(()),
        Err(fault) => {
            page.write_to(output).map_err(FeedFault::Page)?;
            Err(fault)
        }
    }
}
