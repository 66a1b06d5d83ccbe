//! What has a state that is kept.

ghost use Rattle.std.specs.Prelude.{◌≡◌, ℕ, List, IfOk};

use sms_feed::Taker;
use sms_file::FileFault;
use std::alloc::AllocError;

/// A taker of lines that has a state.
pub trait Keeper: Taker {
    /// The octets of its state, by how many lines were taken.
    ghost state: { Self → ℕ → List ℕ };

    /// Its state as octets, with how many lines of the input were taken.
    fn save(&self, taken: u64) -> Result<Vec<u8>, AllocError>
        ensures { IfOk result (λ octets. octets.items ≡ state self.now taken) };

    /// Why all ends where the file of the state is not replaced.
    fn not_kept(fault: FileFault) -> Self::Fault;
}
