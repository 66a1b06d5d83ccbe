//! A folder that refuses one step.

ghost use Rattle.std.specs.Prelude.{◌≡◌, None, false, IfErr};

use sms_file::{FileFault, Folder, Step, Why};
use std::alloc::Global;

/// Refuses the step of that number, and counts the steps.
#[derive(Drop)]
pub struct Refusing {
    pub at: usize,
    pub steps: usize,
}

impl Refusing {
    fn step(&mut self, step: Step) -> Result<(), FileFault>
        ensures { IfErr result (λ f. f.step ≡ step) }
    {
        let own = self.steps;
        self.steps = own.saturating_add(1);
        if own == self.at {
            return Err(FileFault {
                step,
                why: Why::Refused,
            });
        }
        Ok(())
    }
}

impl Folder for Refusing {
    ghost is_known = { λ f. false };

    ghost named = { λ f. None };

    ghost rights = { λ f. None };

    ghost beside = { λ f. None };

    ghost rights_beside = { λ f. None };

    ghost settled = { λ f. None };

    ghost may_leave = { λ f c. ⊥ };

    ghost moment = { λ f. 0 };

    ghost left_since = { λ f t c. ⊥ };

    ghost only_now = { λ f c known left. left };

    fn read(&self, _alloc: Global) -> Result<Option<Vec<u8>>, FileFault> {
        Ok(None)
    }

    fn write_beside(&mut self, _octets: &[u8]) -> Result<(), FileFault> {
        self.step(Step::Write)
    }

    fn keep_rights(&mut self) -> Result<(), FileFault> {
        self.step(Step::Rights)
    }

    fn sync_beside(&mut self) -> Result<(), FileFault> {
        self.step(Step::Sync)
    }

    fn rename(&mut self) -> Result<(), FileFault> {
        self.step(Step::Rename)
    }

    fn sync_folder(&mut self) -> Result<(), FileFault> {
        self.step(Step::SyncFolder)
    }
}
